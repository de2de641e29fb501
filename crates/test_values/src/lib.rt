//! The values of expressions, the variables of a frame, and the lines and origins of a run, worked by hand.
//!
//! The crate is its tests. They stand apart, since the check of a crate that has tests proves the crate twice.
#![tactic(auto)]

#[cfg(test)]
mod tests;
