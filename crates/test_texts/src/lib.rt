//! Texts with their answers, worked by hand: the tokens, the tree, the validity and the canonical text of a script, scripts that are
//! generated, and the words of a command line.
//!
//! The crate is its tests. They stand apart, since the check of a crate that has tests proves the crate twice.
#![tactic(auto)]

#[cfg(test)]
mod tests;
