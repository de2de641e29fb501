//! What the tests of the program's calls share: a call over sources and sinks in memory, what it is to end by, and some scripts.
//!
//! What ends otherwise is a `Fail`, which a test returns.
#![tactic(auto)]

mod calls;
mod scripts;
mod wanted;

pub use calls::{Host, Printed, call, guarded, plain, words};
pub use scripts::{
    DRAWS, FAULT_BEFORE_ANOTHER, FAULTY_CHILD, ONE, PENDING_SYNCED, ROLLS, SQUARES, SUM, TWO_DRAWS,
};
pub use wanted::{compare, ends, generated, prints, refuses, same};
