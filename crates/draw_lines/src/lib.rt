//! Writes streams of draws as text, a line in decimal for each number, block by block.
//!
//! A block is some thousand numbers, so that a long stream takes no more memory than a short one. Each block is one
//! write, unless the sink takes only part of it.
#![tactic(auto)]

mod block;
mod stream;
mod write;

pub use stream::Stream;
pub use write::{StreamError, write_stream};
