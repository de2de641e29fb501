//! Commands with what they print, worked by hand: their words, the scripts that they refuse, and what their streams do to them.
//!
//! The crate is its tests. They stand apart, since the check of a crate that has tests proves the crate twice.
#![tactic(auto)]

#[cfg(test)]
mod tests;
