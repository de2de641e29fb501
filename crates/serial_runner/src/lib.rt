//! One worker by itself.
//!
//! It runs tasks of `strand_machine` on the calling thread, each child to its end before the rest of its parent: `run_serial` answers any
//! origin of a plan. By the same runs `walk_node` says what one instance shows on the way down to a strand, and
//! `meet_fault` where an instance stood when it met a fault of its own.
#![tactic(auto)]

mod advance;
mod fault_walk;
mod node;
mod observed;
mod open_tasks;
mod serial;
mod stack;
mod walk;
mod zip;

pub use fault_walk::meet_fault;
pub use node::{Node, walk_node};
pub use serial::{run_serial, run_serial_keeping};
pub use strand_machine::{Memory, PlacedFault};
