//! DotMix: random numbers that belong to strands.
//!
//! A draw is a hash of the strand's pedigree: the dot product of the ranks with coefficients that a seed gives, modulo
//! a prime, and then some rounds of mixing, by default four. So it doesn't depend on the schedule. After Leiserson,
//! Schardl and Sukha, "Deterministic Parallel Random-Number Generation for Dynamic-Multithreading Platforms" (PPoPP
//! 2012); that a rank counts one more than itself, the prime, the coefficients from SplitMix64 and the exact rounds are
//! this project's own.
//!
//! What the strand `0.0` draws by the coefficients 1 and 10, in four rounds. `a_strand_draws_by_its_pedigree` in the tests of `test_draws`
//! runs it:
//!
//! ```
//! let gamma = Gamma::of_list(alloc, &[1, 10], 2)?;
//! let strand = parse_pedigree(alloc, "0.0")?;
//! dot(&gamma, &strand)        // 11, which is (0 + 1) * 1 + (0 + 1) * 10
//! dotmix(&gamma, &strand, 4)  // 128271
//! ```
//!
//! Coefficients of a seed come by [`Gamma::of_seed`]. Who goes from strand to strand keeps a [`Trail`], by which a draw adds one term.
#![tactic(auto)]

mod gamma;
pub mod laws;
mod memory;
mod mixing;
mod product;
mod trail;

pub use gamma::{Gamma, GammaError, MODULUS};
pub use memory::Memory;
pub use mixing::{MOST_ROUNDS, mix, mixed_once};
pub use product::{add_term, dot, dotmix};
pub use trail::Trail;

fn is_shared<T: Send + Sync>() {}

// Coefficients and trails may be sent to other threads and read by several at once. The body asks for it, so that a field which forbids it
// fails the build.
fn all_are_shared() {
    is_shared::<Gamma>();
    is_shared::<Trail>();
}
