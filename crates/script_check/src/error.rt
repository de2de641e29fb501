// Why a script isn't valid.

ghost use Rattle.std.specs.Prelude.{◌≡◌};
ghost use Rattle.script_check.specs.declared.error.CheckError.TheVariants as E;

use crate::memory::Memory;
use std::alloc::AllocError;

/// Why a script is not checked.
#[derive(Clone, Copy, Debug, PartialEq, Eq)]
pub enum CheckError {
    /// The first violated condition: its number and the offset of its place in bytes, as the table "Violated conditions" of
    /// docs/LANGUAGE.md has them.
    ///
    /// - 1 no main: 0
    /// - 2 main has parameters: its first parameter's name
    /// - 3 function twice: the later function's name
    /// - 4 variable twice: the later name in a parameter list or `let`
    /// - 5 unknown function: the called name
    /// - 6 unknown variable: the name
    /// - 7 wrong number of arguments: the called name
    /// - 8 wrong kind: the expression, or the `draw`, `new`, `call` or `spawn`; the name where an array stands for a scalar or the other
    ///   way round, or is a loop's target; the called name where a loop's function is wrong
    /// - 9 pending variable: the name that is read or written
    /// - 10 let in a block: the `let`
    /// - 11 too many variables: the 257th variable's name
    /// - 12 array length: the number
    Bad { number: u8, at: u32 },
    /// There was no memory for the call.
    Memory,
}

impl From<Memory> for CheckError {
    ghost from_gives = { λ _ e. e ≡ E.Memory };

    fn from(_: Memory) -> CheckError {
        CheckError::Memory
    }
}
