//! The canonical text of a script.
//!
//! Scripts that differ only in offsets have the same canonical text. Read again, the canonical text of a script that was read from a
//! text gives the same script, apart from offsets. `specs/Canonical.antt` says what it is: how lines are indented, where spaces go, and
//! which operands have parentheses.
#![tactic(auto)]

mod expression;
mod memory;
mod script;
mod statement;
mod words;

pub use memory::Memory;
pub use script::print_script;
