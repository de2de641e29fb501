//! Replays the strand of a pedigree by a walk down the tree of spawns and loops, and finds where the strand's instance
//! stood when a fault of its own ended it.
#![tactic(auto)]

mod descent;
mod error;
mod place;

pub use descent::replay;
pub use error::ReplayError;
pub use place::fault_place;
pub use serial_runner::PlacedFault;
