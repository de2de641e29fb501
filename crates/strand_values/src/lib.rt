//! The variables of a frame, and the values of expressions in it.
//!
//! `serial_meaning` defines what an expression evaluates to and what a statement writes; the contracts here use its
//! words.
#![tactic(auto)]

mod arithmetic;
mod entry;
mod environment;
mod environment_pool;
mod evaluation_error;
pub mod laws;
mod memory;
mod plain;
mod scalar;
mod target;
mod value;
mod variables;

pub use arithmetic::{count_of, iteration_count};
pub use environment::Environment;
pub use environment_pool::EnvironmentPool;
pub use evaluation_error::EvaluationError;
pub use memory::Memory;
pub use scalar::{is_true, number};
pub use target::Target;

fn is_shared<T: Send + Sync>() {}

// An environment may be sent to other threads. A field that forbids it makes this fail to compile.
fn all_are_shared() {
    is_shared::<Environment>();
}
