//! Memory that is used again.
//!
//! An `EmptyBox` and an `EmptyList` have memory and hold no value: what is made in them holds nothing of before. A `Pool` keeps a few of
//! them. Contracts see nothing of a pool, so a function that uses one says what it would say without.
#![tactic(auto)]

mod empty_box;
mod empty_list;
mod pool;

pub use empty_box::{EmptyBox, boxed, emptied};
pub use empty_list::EmptyList;
pub use pool::Pool;
