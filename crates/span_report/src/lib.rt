//! Work and span of a run: how many events it has, and how many are in the longest chain of which each precedes the next in series.
//! Events are counted, not time.
//!
//! Events of one instance are in series. A child's events come after what its parent did before the spawn, and before what follows
//! the parent's next sync. Iterations of a loop are in parallel with each other.
#![tactic(auto)]

mod chain;
mod instance;
pub mod laws;
mod measure;
mod walk;

pub use chain::span;
pub use measure::Span;
