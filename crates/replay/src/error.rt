// Why a replay gives no strand.

ghost use Rattle.std.specs.Prelude.{◌≡◌};
ghost use Rattle.replay.specs.declared.error.ReplayError.TheVariants.{Memory};

use serial_meaning::Fault;

/// Why a replay gives no strand.
#[derive(Drop)]
pub enum ReplayError {
    /// No strand has this pedigree.
    NoStrand,
    /// It isn't known whether there is such a strand: an instance on the way down, or the strand's own, ended earlier
    /// by this fault, the least among the children that it waited for.
    Blocked(Fault),
    /// Memory ran out.
    Memory,
}

impl From<serial_runner::Memory> for ReplayError {
    ghost from_gives = { λ _ e. e ≡ Memory };

    fn from(_: serial_runner::Memory) -> ReplayError {
        ReplayError::Memory
    }
}

impl From<loop_range::Memory> for ReplayError {
    ghost from_gives = { λ _ e. e ≡ Memory };

    fn from(_: loop_range::Memory) -> ReplayError {
        ReplayError::Memory
    }
}

impl From<serial_meaning::Memory> for ReplayError {
    ghost from_gives = { λ _ e. e ≡ Memory };

    fn from(_: serial_meaning::Memory) -> ReplayError {
        ReplayError::Memory
    }
}

impl From<strand_family::Memory> for ReplayError {
    ghost from_gives = { λ _ e. e ≡ Memory };

    fn from(_: strand_family::Memory) -> ReplayError {
        ReplayError::Memory
    }
}
