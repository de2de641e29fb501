//! Workers that run tasks and steal them from one another, turn by turn. The crate `crew` gives them threads.
//!
//! A worker is a `Hand`. It runs tasks of `strand_machine` and answers the origin that it was given: the answer is the origin's serial meaning, by the
//! type of answers. A hand keeps the rests of the tasks that it runs in a deck, and a hand that has nothing to do steals from the others' decks. A crew may
//! run main under many plans at once (`Crew::many`).
#![tactic(auto)]

mod answered;
mod cells;
mod entry;
mod faults;
mod gate;
mod hand;
mod hand_state;
mod known_faults;
mod memory;
mod overflow;
mod root;
mod setup;
mod stalled;
mod steps;
mod unended;

pub use gate::{Gate, OpenGate};
pub use hand::{Hand, Hands, Looked, Turn};
pub use memory::Memory;
pub use root::{Root, Roots};
pub use setup::Crew;
