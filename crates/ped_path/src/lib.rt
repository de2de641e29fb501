//! Paths and pedigrees of strands.
//!
//! A strand of a fork-join program is named by the ranks along the path of spawns that leads to it, and by its own rank after them:
//! its pedigree, after Leiserson, Schardl and Sukha, "Deterministic Parallel Random-Number Generation for Dynamic-Multithreading
//! Platforms" (PPoPP 2012). The names don't depend on how the program was scheduled.
//!
//! The first strand of the child that the root's strand 3 spawned comes before the root's strand 4, as it does in a serial run.
//! `a_childs_strands_come_before_its_parents_next` in the tests of `test_paths` runs it:
//!
//! ```
//! let path = Ped::root(alloc)?.child(alloc, 3)?;
//! let first = Pedigree { path, rank: 0 };
//! let next = parse_pedigree(alloc, "4")?;
//! first.same(&parse_pedigree(alloc, "3.0")?)  // true
//! first.before(&next)                         // true
//! ```
#![tactic(auto)]

mod block;
pub mod laws;
mod memory;
mod parse;
mod path;
mod ped;
mod pedigree;
mod ranks;
mod text;

pub use memory::Memory;
pub use parse::{PedTextError, parse_pedigree};
pub use ped::Ped;
pub use pedigree::Pedigree;
pub use text::write_pedigree;

fn is_shared<T: Send + Sync>() {}

// Paths and pedigrees may be sent to other threads and read by several at once. A field that forbids it makes this fail to compile.
fn all_are_shared() {
    is_shared::<Ped>();
    is_shared::<Pedigree>();
}
