ghost use Rattle.std.specs.Prelude.{◌≡◌, ◌+◌, ◌<◌, ◌≤◌, ◌↔◌, ℕ, length, All, IfOk, position};
ghost use Rattle.dotmix.specs.Draws.{coefficient, modulus, IsResidue};
ghost use Rattle.dotmix.specs.GammaState.{IsGamma, is_too_big, padded, IsFirstTooBig};
ghost use Rattle.dotmix.specs.Words.{coefficients};

use crate::memory::Memory;
use ped_path::Ped;
use rand_core::SeedableRng;
use rand_core::utils::NextWord;
use rand_xoshiro::SplitMix64;
use std::alloc::{AllocError, Global};
use std::marker::Model;
use std::sync::Arc;

/// The prime 2^64 - 59.
pub const MODULUS: u64 = 18_446_744_073_709_551_557;

/// Why a list of numbers can't be coefficients.
#[derive(Clone, Copy, Debug, PartialEq, Eq)]
pub enum GammaError {
    /// The list is longer than the depth.
    TooMany,
    /// The number at this index, from 0, is not below the modulus. It is the first such number.
    TooBig(u32),
    /// There was no memory for the call.
    Memory,
}

impl From<Memory> for GammaError {
    ghost use Rattle.dotmix.specs.declared.gamma.GammaError.TheVariants as E;

    ghost from_gives = { λ _ e. e ≡ E.Memory };

    fn from(_: Memory) -> Self {
        GammaError::Memory
    }
}

impl From<AllocError> for GammaError {
    ghost use Rattle.dotmix.specs.declared.gamma.GammaError.TheVariants as E;

    ghost from_gives = { λ _ e. e ≡ E.Memory };

    fn from(_: AllocError) -> Self {
        GammaError::Memory
    }
}

// The index of the first number that is no coefficient.
fn first_too_big(list: &[u64]) -> Option<usize>
    ensures { result ≡ position is_too_big list.now }
{
    list.iter().position(|&number| number >= MODULUS)
}

/// The coefficients of a plan, one for each position in a pedigree. Contracts see a list of fewer than 2^32 numbers,
/// each below the modulus. They never change, so all copies share one place in memory.
#[derive(Drop)]
pub struct Gamma {
    coefficients: Arc<Vec<u64>>,
}

impl Model for Gamma {
    ghost use Rattle.std.specs.Prelude.{ℕ, List};
    ghost use Rattle.std.specs.Arc.{arc_value};
    ghost use Rattle.dotmix.specs.GammaState.{IsGamma};

    ghost Value = { List ℕ };

    ghost view = { λ g. (arc_value g.coefficients).items };

    ghost invariant = { λ g. IsGamma (arc_value g.coefficients).items };
}

// Those of a list.
fn gamma_of(alloc: Global, coefficients: Vec<u64>) -> Result<Gamma, Memory>
    requires { IsGamma coefficients.items }
    ensures { IfOk result (λ gamma. gamma ≡ coefficients.items) }
{
    Ok(Gamma {
        coefficients: Arc::new(alloc, coefficients)?,
    })
}

impl Gamma {
    /// The coefficients that a seed gives: the first words of SplitMix64, each modulo the prime.
    pub fn of_seed(alloc: Global, seed: u64, depth: u32) -> Result<Gamma, Memory>
        ensures { IfOk result (λ gamma. gamma ≡ coefficients seed depth) }
    {
        let mut words = SplitMix64::from_seed(seed.to_le_bytes());
        let mut coefficients = Vec::with_capacity(alloc, depth as usize)?;
        for _i in 0..depth {
            coefficients.push(words.next_word() % MODULUS)?;
        }
        gamma_of(alloc, coefficients)
    }

    /// The numbers of a list, and zeros after them up to the depth. `TooMany` comes exactly where the list is longer than the
    /// depth, and else `TooBig` exactly where a number isn't below the modulus.
    pub fn of_list(alloc: Global, list: &[u64], depth: u32) -> Result<Gamma, GammaError>
        ensures ok { IfOk result (λ gamma. gamma ≡ padded list.now depth) }
        ensures too_many { (result ≡ Err GammaError.TooMany) ↔ (depth < length list.now) }
        ensures too_big { (i : ℕ) → (result ≡ Err (GammaError.TooBig i)) ↔ IsFirstTooBig list.now depth i }
    {
        if list.len() > depth as usize {
            return Err(GammaError::TooMany);
        }
        if let Some(i) = first_too_big(list) {
            return Err(GammaError::TooBig(i as u32));
        }
        let mut coefficients = Vec::with_capacity(alloc, depth as usize)?;
        coefficients.extend_from_slice(list)?;
        coefficients.resize(depth as usize, 0)?;
        Ok(gamma_of(alloc, coefficients)?)
    }

    /// The same coefficients, sharing their memory.
    pub fn share(&self) -> Result<Gamma, Memory>
        ensures { IfOk result (λ gamma. gamma ≡ self.now) }
    {
        Ok(Gamma {
            coefficients: Arc::try_clone(&self.coefficients)?,
        })
    }

    /// The coefficient of this position in a pedigree, counted from 1.
    pub fn coeff(&self, i: u32) -> u64
        requires from_one { 0 < i }
        requires within { i ≤ length self.now }
        ensures value { result ≡ coefficient self.now i }
        ensures small { result < modulus }
    {
        self.coefficients[i as usize - 1]
    }

    /// How many coefficients there are.
    pub fn len(&self) -> u32
        ensures length { result ≡ length self.now }

        // What holds of all coefficients.
        ensures small { All IsResidue self.now }
    {
        self.coefficients.len() as u32
    }

    // The place of a rank that stands after this path.
    pub(crate) fn place_after(&self, path: &Ped) -> u32
        requires { length path.now < length self.now }
        ensures { result ≡ length path.now + 1 }
    {
        // Read for the proof: there are few coefficients, so that the place is a u32.
        let _ = &self.coefficients;
        path.len() as u32 + 1
    }
}
