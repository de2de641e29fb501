//! A script under many seeds, on one crew.
//!
//! The crate is its tests. They stand apart, since the check of a crate that has tests proves the crate twice.
#![tactic(auto)]

#[cfg(test)]
mod tests;
