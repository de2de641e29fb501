//! Resumable tasks: an instance or a loop that can stop, begin children and continue.
//!
//! `strand_meaning` defines what a task is; the contracts here use its words.
#![tactic(auto)]

mod advance;
mod destination;
mod fault;
mod leave;
mod memory;
mod merge;
mod observe;
mod origin;
mod parts;
mod placed;
mod probe;
mod remaining;
mod replace;
mod resume;
mod run;
mod step;
mod stop;
mod task;
mod task_pool;
mod task_state;
mod trace;

pub use fault::is_fault;
pub use memory::Memory;
pub use observe::ObservedStop;
pub use origin::share_origin;
pub use placed::{PlacedFault, PlacedStop};
pub use probe::StrandProbe;
pub use stop::{Paused, Resumed, Stop};
pub use task::Task;
pub use task_pool::TaskPool;

fn is_sent<T: Send>() {}

// A task may continue in any thread, and so may what it stops or resumes with. A field that forbids it makes this fail
// to compile.
fn all_are_sent() {
    is_sent::<Task>();
    is_sent::<Stop>();
    is_sent::<Resumed>();
    is_sent::<Paused>();
}
