//! A task's links to others: its origin, its parent, and its children.
//!
//! How a task runs is in `strand_machine`.
#![tactic(auto)]

mod links;
mod memory;
mod origin;
mod start;

pub use links::Links;
pub use memory::Memory;
pub use origin::{iteration_args, iteration_args_in, part_of, path, share_origin, share_values};
