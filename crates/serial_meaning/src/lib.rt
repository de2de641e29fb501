//! What a script means: the types that describe runs, the definitions of their meaning, and the printed lines.
//!
//! The definitions are in `specs/`; docs/LANGUAGE.md says the same in prose.
#![tactic(auto)]

pub mod answer;
pub mod answer_key;
mod chunk;
pub mod environment;
pub mod event;
mod examples;
pub mod keep;
pub mod known;
pub mod laws;
pub mod memory;
pub mod origin;
pub mod out;
pub mod plan;
pub mod render;
mod same_expression;
mod same_plan;
mod same_statement;
pub mod value;

pub use answer::{Answer, Outcome, Strand};
pub use answer_key::AnswerKey;
pub use chunk::Chunk;
pub use environment::{Content, Variable};
pub use event::{Event, EventKind, Fault, FaultKind};
pub use keep::{All, Keep, Lined, Prints};
pub use known::Known;
pub use memory::Memory;
pub use origin::Origin;
pub use out::Out;
pub use plan::{Limits, MOST_DEPTH, Plan, Show};
pub use render::{render_kept, render_plain, render_run, render_strand};
pub use value::Value;

fn is_shared<T: Send + Sync>() {}

// Plans, origins, events and answers may be sent to other threads and read by several at once. A field that forbids it
// makes this fail to compile.
fn all_are_shared() {
    is_shared::<Out>();
    is_shared::<Fault>();
    is_shared::<Origin>();
    is_shared::<Strand>();
    is_shared::<Plan>();
    is_shared::<Answer>();
    is_shared::<AnswerKey>();
    is_shared::<Known>();
}
