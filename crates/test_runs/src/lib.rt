//! Runs with what they print, worked by hand: on one worker, on several and in simulations, under many seeds, and strand by strand.
//!
//! The crate is its tests. They stand apart, since the check of a crate that has tests proves the crate twice.
#![tactic(auto)]

#[cfg(test)]
mod tests;
