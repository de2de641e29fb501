// Why no report could be made.

ghost use Rattle.std.specs.Prelude.{◌≡◌};
ghost use Rattle.engine.specs.Lines.{check_line, syntax_line};
ghost use Rattle.engine.specs.Refusal.{IsRefusalLine};

use crate::line::{check_line, syntax_line};
use std::alloc::{AllocError, AllocFailed, Global};

/// Why no report could be made.
#[derive(Drop)]
pub enum Refusal {
    /// The source has more than 1048576 bytes.
    TooLong,
    /// The source's text isn't a script that the command takes; the line that says why.
    Rejected(String),
    /// A read failed.
    Read,
    /// There was no memory.
    Memory,
}

/// The refusal of a text with this fault.
pub fn syntax_refusal(alloc: Global, number: u8, at: u32) -> Refusal
    ensures { IsRefusalLine (syntax_line number at) result }
{
    match syntax_line(alloc, number, at) {
        Ok(line) => Refusal::Rejected(line),
        Err(_) => Refusal::Memory,
    }
}

/// The refusal of a script that violates this condition.
pub fn check_refusal(alloc: Global, number: u8, at: u32) -> Refusal
    ensures { IsRefusalLine (check_line number at) result }
{
    match check_line(alloc, number, at) {
        Ok(line) => Refusal::Rejected(line),
        Err(_) => Refusal::Memory,
    }
}

impl From<AllocError> for Refusal {
    ghost use Rattle.engine.specs.declared.refusal.Refusal.TheVariants as R;

    ghost from_gives = { λ _ e. e ≡ R.Memory };

    fn from(_: AllocError) -> Self {
        Refusal::Memory
    }
}

/// The value for which there was no memory is dropped.
impl<T: Drop> From<AllocFailed<T>> for Refusal {
    ghost use Rattle.engine.specs.declared.refusal.Refusal.TheVariants as R;

    ghost from_gives = { λ _ e. e ≡ R.Memory };

    fn from(_: AllocFailed<T>) -> Self {
        Refusal::Memory
    }
}

impl From<crew::Memory> for Refusal {
    ghost use Rattle.engine.specs.declared.refusal.Refusal.TheVariants as R;

    ghost from_gives = { λ _ e. e ≡ R.Memory };

    fn from(_: crew::Memory) -> Self {
        Refusal::Memory
    }
}

impl From<dotmix::Memory> for Refusal {
    ghost use Rattle.engine.specs.declared.refusal.Refusal.TheVariants as R;

    ghost from_gives = { λ _ e. e ≡ R.Memory };

    fn from(_: dotmix::Memory) -> Self {
        Refusal::Memory
    }
}

impl From<serial_meaning::Memory> for Refusal {
    ghost use Rattle.engine.specs.declared.refusal.Refusal.TheVariants as R;

    ghost from_gives = { λ _ e. e ≡ R.Memory };

    fn from(_: serial_meaning::Memory) -> Self {
        Refusal::Memory
    }
}

impl From<script_check::Memory> for Refusal {
    ghost use Rattle.engine.specs.declared.refusal.Refusal.TheVariants as R;

    ghost from_gives = { λ _ e. e ≡ R.Memory };

    fn from(_: script_check::Memory) -> Self {
        Refusal::Memory
    }
}

impl From<script_print::Memory> for Refusal {
    ghost use Rattle.engine.specs.declared.refusal.Refusal.TheVariants as R;

    ghost from_gives = { λ _ e. e ≡ R.Memory };

    fn from(_: script_print::Memory) -> Self {
        Refusal::Memory
    }
}
