//! The iterations of a parallel loop, and their paths.
//!
//! A loop's iterations are numbered from 0. A worker that runs a loop splits off the lower half of what is left for others and
//! keeps the upper half, so a loop of n iterations is shared out in about log n steps.
#![tactic(auto)]

mod memory;
mod range;

pub use memory::Memory;
pub use range::{IterRange, cover, iteration_path};
