//! Joins and work-stealing deques, by one thread and between threads.
//!
//! The crate is its tests. They stand apart, since the check of a crate that has tests proves the crate twice.
#![tactic(auto)]

#[cfg(test)]
mod tests;
