//! Runs one script under a list of seeds on one crew, with a plan for each seed, and prints the answers.
#![tactic(auto)]

mod render;
mod run;

pub use crew::{Gate, Memory};
pub use render::put_batch;
pub use run::{run_batch, run_batch_of_lines, run_batch_of_prints};
