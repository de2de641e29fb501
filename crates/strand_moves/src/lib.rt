//! One move of an instance of a running script.
//!
//! `strand_meaning` defines what a move is; the contracts here use its words. An instance is a stack of frames over the
//! plan's tree: nothing of the tree is copied.
#![tactic(auto)]

mod answers;
mod calls;
mod children;
mod cursor;
mod effects;
mod event_sink;
mod fast_path;
mod frame;
mod instance;
mod instance_parts;
mod instance_pool;
mod levels;
mod memory;
mod narrow;
mod place;
mod plain_run;
mod right;
mod scopes;
mod statement;

pub use effects::{Child, Effects, LoopedChild, MoveResult, SpawnedChild, Waits};
pub use event_sink::EventSink;
pub use instance::Instance;
pub use instance_pool::InstancePool;
pub use memory::Memory;
pub use place::Place;

fn is_shared<T: Send + Sync>() {}

// An instance may be sent to other threads. A field that forbids it makes this fail to compile.
fn all_are_shared() {
    is_shared::<Instance>();
    is_shared::<MoveResult>();
}
