ghost use Rattle.std.specs.Prelude.{◌≡◌};

use std::alloc::{AllocError, AllocFailed};
use strand_values::EvaluationError;

/// There was no memory for the call.
#[derive(Clone, Copy, Debug, PartialEq, Eq)]
pub struct Memory;

impl From<AllocError> for Memory {
    fn from(_: AllocError) -> Self {
        Memory
    }
}

/// The value for which there was no memory is dropped.
impl<T: Drop> From<AllocFailed<T>> for Memory {
    fn from(_: AllocFailed<T>) -> Self {
        Memory
    }
}

impl From<dotmix::Memory> for Memory {
    fn from(_: dotmix::Memory) -> Self {
        Memory
    }
}

impl From<ped_path::Memory> for Memory {
    fn from(_: ped_path::Memory) -> Self {
        Memory
    }
}

impl From<serial_meaning::Memory> for Memory {
    fn from(_: serial_meaning::Memory) -> Self {
        Memory
    }
}

impl From<strand_values::Memory> for Memory {
    fn from(_: strand_values::Memory) -> Self {
        Memory
    }
}

impl From<Memory> for EvaluationError {
    ghost use Rattle.strand_values.specs.declared.evaluation_error.EvaluationError.TheVariants as error;

    ghost from_gives = { λ _ e. e ≡ error.Memory };

    fn from(_: Memory) -> Self {
        EvaluationError::Memory
    }
}
