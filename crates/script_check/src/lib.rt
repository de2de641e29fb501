//! Whether a script is valid, and the first condition that it violates.
#![tactic(auto)]

mod call;
mod callees;
mod checked;
mod condition;
mod error;
mod expression;
mod finding;
mod findings;
mod function;
mod functions;
pub mod laws;
mod memory;
mod named;
mod names;
mod slots;
mod spawns;
mod statement;
mod symbols;
mod texts;
mod variable;
mod variables;

pub use checked::{Checked, check};
pub use condition::condition_text;
pub use error::CheckError;
pub use finding::finds;
pub use memory::Memory;

fn is_shared<T: Send + Sync>() {}

// Checked scripts may be sent to other threads and read by several at once. A field that forbids it makes this fail to compile.
fn all_are_shared() {
    is_shared::<Checked>();
}
