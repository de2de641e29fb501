ghost use Rattle.std.specs.Prelude.{◌≡◌};

use std::alloc::AllocError;

/// There was no memory: the only error of `Deck::new` and `Deck::thief`.
#[derive(Debug, Clone, Copy, PartialEq, Eq)]
pub struct Memory;

impl From<AllocError> for Memory {
    ghost from_gives = { λ _ m. m ≡ record {} };

    fn from(_: AllocError) -> Memory {
        Memory
    }
}
