//! The scheduling of tasks on several workers, as a pure machine: workers with tasks, and five kinds of events.
//!
//! The definitions are in `specs/`. The only code that runs is the type of events.
#![tactic(auto)]

pub mod event;
mod examples;
pub mod laws;

pub use event::CoreEvent;
