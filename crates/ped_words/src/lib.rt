//! Reads the words of a command line: they are a command, or break a rule, of which the first one is returned.
//!
//! The first word names the command. Pairs of a word `--NAME` and a value follow, in any order. Words are judged from
//! left to right; what depends on several of them is judged after the last one.
#![tactic(auto)]

mod command;
mod given;
pub mod laws;
mod making;
mod number;
mod read;
mod rule;
mod table;
mod value;

pub use command::{Command, Settings};
pub use number::is_number;
pub use read::read_words;
pub use rule::{WordError, rule_text};
pub use table::MOST_SEEDS;
