//! Shows a person where a script is at fault: line and column, the line itself, and a caret under the byte. After that
//! comes the word that is missing there, where only one fits, or how to write here what another language writes so.
#![tactic(auto)]

mod advice;
mod bytes;
mod lines;
mod position;
mod reasons;
mod slips;

pub use advice::follower;
pub use lines::{add_shown, excerpt, place_excerpt};
pub use position::{Position, position_of};
pub use slips::reason;
