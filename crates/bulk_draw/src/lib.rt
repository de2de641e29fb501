//! Runs of draws by lanes: what strands of consecutive ranks on one path draw.
//!
//! The dot products of two neighbours differ by one coefficient, so a run adds up the pedigree once, and then one coefficient a
//! rank. The numbers are mixed eight at a time, since no round of one waits for a round of another. Every number is the one that
//! `dotmix::dotmix` gives for its pedigree alone: DotMix after Leiserson, Schardl and Sukha, "Deterministic Parallel Random-Number
//! Generation for Dynamic-Multithreading Platforms" (PPoPP 2012).
//!
//! An example: with the only coefficient 1, the strands 0, 1 and 2 draw 21, 210 and 903 in four rounds.
//!
//! ```
//! let gamma = Gamma::of_list(alloc, &[1], 1)?;
//! let at = Pedigree { path: Ped::root(alloc)?, rank: 0 };
//! let mut draws = [0; 3];
//! draw_run(&gamma, &at, 4, &mut draws);
//! reduce(&mut draws, 10); // 1, 0, 3
//! ```
#![tactic(auto)]

mod lanes;
mod reduction;
mod run;

pub use lanes::mix_lanes;
pub use reduction::reduce;
pub use run::draw_run;
