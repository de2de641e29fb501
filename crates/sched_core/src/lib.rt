//! A core of scheduling events on running tasks: workers that a program steps by hand, event by event, or that the words of a seed
//! drive to main's answer.
//!
//! `sched_meaning` defines what a step is.
#![tactic(auto)]

mod choose;
mod cores;
mod error;
mod job;
mod lawful;
mod new_state;
mod node;
mod simulation;
mod state;
mod steps;
mod stops;
mod worker;

pub use cores::Core;
pub use error::CoreError;
pub use sched_meaning::CoreEvent;
pub use simulation::{Simulated, simulate};
pub use strand_machine::Memory;
