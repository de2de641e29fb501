//! Workers that run a script: one by itself, or a crew in threads.
//!
//! All runners answer an origin by its serial meaning. `run_serial` is one worker on the calling thread, of `serial_runner`. A crew is `run_crew`, or `run_roots`
//! for several plans: the hands of `parallel_runner`, which steal from one another, each in a thread of its own, where one that finds nothing to do
//! parks. `walk_node` goes down to a strand.
#![tactic(auto)]

mod any_hand;
mod event_count;
mod heap;
mod parents;
mod parking;
mod run;
mod signals;
mod threads;

use any_hand::AnyHand;
pub use parallel_runner::{Crew, Gate, Hand, Hands, Looked, Memory, OpenGate, Root, Roots, Turn};
pub use run::{
    run_crew, run_crew_of_lines, run_crew_of_prints, run_roots, run_roots_of_lines,
    run_roots_of_prints,
};
pub use serial_runner::{Node, run_serial, run_serial_keeping, walk_node};

fn is_sent<T: Send>() {}

// A hand may go to any thread, with the tasks that it has. A field that forbids it makes this fail to compile.
fn all_are_sent() {
    is_sent::<AnyHand>();
}
