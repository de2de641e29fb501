//! All that the program does, as a call over any source and sinks.
#![tactic(auto)]

pub mod batch;
pub mod call;
pub mod call_end;
pub mod command;
pub mod laws;
pub mod line;
pub mod output;
pub mod place;
pub mod refusal;
pub mod report;
mod run;
pub mod script;
pub mod status;
pub mod top;

pub use crew::{Gate, OpenGate};
pub use place::{FaultPlace, fault_place};
pub use status::Status;
pub use top::{pedrun, pedrun_plain, pedrun_run, runs_on_workers};
