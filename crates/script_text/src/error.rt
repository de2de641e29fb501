// Why there is no tree.

ghost use Rattle.std.specs.Prelude.{◌≡◌};
ghost use Rattle.script_text.specs.declared.error.SyntaxError.TheVariants.{Memory};

use std::alloc::{AllocError, AllocFailed};

/// Why a text isn't a script.
#[derive(Clone, Copy, Debug, PartialEq, Eq)]
pub enum SyntaxError {
    /// The first fault: its number and the offset of the byte where it stands (docs/LANGUAGE.md, "Faults of a text").
    ///
    /// - 1, not ASCII: the first byte from 128 on, also in a comment.
    /// - 2, unexpected token: the start of a token that may not stand there, or of a byte at which no token begins.
    /// - 3, number out of range: the start of a number above 9223372036854775807.
    /// - 4, name too long: the start of a name of more than 32 bytes.
    /// - 5, nested too deep: the bracket or unary minus that makes the nesting 65.
    /// - 6, unexpected end: the length of the text, where it begins a script and isn't one.
    /// - 7, too many functions: the 1025th `fn`.
    Bad { number: u8, at: u32 },
    /// There was no memory for the call.
    Memory,
}

impl From<AllocError> for SyntaxError {
    ghost from_gives = { λ _ e. e ≡ Memory };

    fn from(_: AllocError) -> SyntaxError {
        SyntaxError::Memory
    }
}

impl<T: Drop> From<AllocFailed<T>> for SyntaxError {
    ghost from_gives = { λ _ e. e ≡ Memory };

    fn from(_: AllocFailed<T>) -> SyntaxError {
        SyntaxError::Memory
    }
}

impl From<script_tokens::Memory> for SyntaxError {
    ghost from_gives = { λ _ e. e ≡ Memory };

    fn from(_: script_tokens::Memory) -> SyntaxError {
        SyntaxError::Memory
    }
}
