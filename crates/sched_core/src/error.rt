use strand_machine::Memory;

/// Why a core took no step.
#[derive(Clone, Copy, Debug, PartialEq, Eq)]
pub enum CoreError {
    /// The event can't happen now. The core is unchanged.
    NotLawful,
    /// An earlier step ran out of memory. The core takes no more steps.
    Spent,
    /// There was no memory for the step.
    Memory,
}

impl From<Memory> for CoreError {
    ghost use Rattle.std.specs.Prelude.{◌≡◌};
    ghost use Rattle.sched_core.specs.declared.error.CoreError.TheVariants as E;

    ghost from_gives = { λ _ e. e ≡ E.Memory };

    fn from(_: Memory) -> Self {
        CoreError::Memory
    }
}
