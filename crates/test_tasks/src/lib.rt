//! Tasks and hands at their work, step by step on small scripts: where a task stops and goes on, and the turns of a crew's hands.
//!
//! The crate is its tests. They stand apart, since the check of a crate that has tests proves the crate twice.
#![tactic(auto)]

#[cfg(test)]
mod tests;
