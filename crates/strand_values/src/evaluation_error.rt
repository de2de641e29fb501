ghost use Rattle.std.specs.Prelude.{◌≡◌};

use crate::memory::Memory;
use serial_meaning::FaultKind;
use std::alloc::{AllocError, AllocFailed};

/// Why an evaluation gave no value.
#[derive(Clone, Copy, Debug, PartialEq, Eq)]
pub enum EvaluationError {
    /// The script met this fault.
    Fault(FaultKind),
    /// There was no memory.
    Memory,
}

impl From<Memory> for EvaluationError {
    ghost use Rattle.strand_values.specs.declared.evaluation_error.EvaluationError.TheVariants as error;

    ghost from_gives = { λ _ e. e ≡ error.Memory };

    fn from(_: Memory) -> Self {
        EvaluationError::Memory
    }
}

impl From<FaultKind> for EvaluationError {
    ghost use Rattle.strand_values.specs.declared.evaluation_error.EvaluationError.TheVariants.{Fault};

    ghost from_gives = { λ kind e. e ≡ Fault kind };

    fn from(kind: FaultKind) -> Self {
        EvaluationError::Fault(kind)
    }
}

impl From<AllocError> for EvaluationError {
    ghost use Rattle.strand_values.specs.declared.evaluation_error.EvaluationError.TheVariants as error;

    ghost from_gives = { λ _ e. e ≡ error.Memory };

    fn from(_: AllocError) -> Self {
        EvaluationError::Memory
    }
}

/// The value for which there was no memory is dropped.
impl<T: Drop> From<AllocFailed<T>> for EvaluationError {
    ghost use Rattle.strand_values.specs.declared.evaluation_error.EvaluationError.TheVariants as error;

    ghost from_gives = { λ _ e. e ≡ error.Memory };

    fn from(_: AllocFailed<T>) -> Self {
        EvaluationError::Memory
    }
}
