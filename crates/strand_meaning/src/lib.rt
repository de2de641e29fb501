//! What a task is: an instance or a loop that can stop, begin children and continue, as plain data.
//!
//! The definitions are in `specs/`, and docs/LANGUAGE.md explains what they are of. The crate has no code that runs.
#![tactic(auto)]

mod examples;
pub mod laws;
mod strands;
