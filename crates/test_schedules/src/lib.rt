//! A core at its work on small scripts: events by hand, and simulations.
//!
//! The crate is its tests. They stand apart, since the check of a crate that has tests proves the crate twice.
#![tactic(auto)]

#[cfg(test)]
mod tests;
