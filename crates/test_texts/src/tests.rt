// What the calls make of the texts of scripts, and of the words of command lines.

mod checks;
mod excerpts;
mod generated;
mod habits;
mod prints;
mod slots;
mod tokens;
mod trees;
mod words;

ghost use Rattle.std.specs.Prelude.{◌≤◌, IfOk, length};
ghost use Rattle.script_grammar.specs.Text.{Text};

use script_text::{MAX_BYTES, Script, SyntaxError, parse};
use std::alloc::Global;
use std::fmt::{Debug, Display};
use std::process::Abort;

// The tree of this text, or its first fault.
fn tree(rt: &impl Abort, alloc: Global, text: &[u8]) -> Result<Script, SyntaxError>
    ensures within { length text.now ≤ 1048576 }
    ensures text { IfOk result (Text text.now) }
{
    assert!(rt; text.len() <= MAX_BYTES);
    parse(alloc, text)
}

// What was found in this row is what was wanted. It stands for `assert_eq!`, whose text the check takes up anew at each place.
fn same<A: PartialEq + Debug + Drop>(
    rt: &impl Abort,
    row: impl Display + Drop,
    found: A,
    wanted: A,
) {
    assert_eq!(rt; found, wanted, "{row}");
}
