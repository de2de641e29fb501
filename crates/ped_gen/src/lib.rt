//! Generated scripts: three shapes of parallel work, of any size that a test or a benchmark needs.
#![tactic(auto)]

mod memory;
mod script;
mod shape;

pub use memory::Memory;
pub use script::gen_script;
pub use shape::Shape;
