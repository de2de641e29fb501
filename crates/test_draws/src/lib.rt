//! Draws, on values worked by hand and from the published generator: those of one strand, and runs of them.
//!
//! The crate is its tests. They stand apart, since the check of a crate that has tests proves the crate twice.
#![tactic(auto)]

#[cfg(test)]
mod tests;
