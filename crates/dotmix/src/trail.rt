ghost use Rattle.std.specs.Prelude.{◌≡◌, ◌<◌, ◌≤◌, [], ◌∷◌, ◌++◌, length, IfOk};
ghost use Rattle.ped_path.specs.Path.{IsRank};
ghost use Rattle.dotmix.specs.Draws.{most_rounds};
ghost use Rattle.dotmix.specs.Draws as draws;

use crate::gamma::Gamma;
use crate::memory::Memory;
use crate::mixing::mix;
use crate::product::{dot_with_rank, path_dot};
use ped_path::Ped;
use std::alloc::Global;

/// A path with its dot product so far, so that a draw adds one term, however deep the strand is. It belongs to the coefficients
/// that it fits: `sum` is the sum of the path's terms modulo the prime.
#[derive(Drop)]
pub struct Trail {
    pub path: Ped,
    pub sum: u64,
}

impl Trail {
    ghost use Rattle.dotmix.specs.Trails.{FitsGamma};

    /// The trail of a path. It adds up the path's terms.
    pub fn of(gamma: &Gamma, path: Ped) -> Trail
        requires { length path ≤ length gamma.now }
        ensures path { result.path ≡ path }
        ensures fits { FitsGamma gamma.now result }
    {
        Trail {
            sum: path_dot(gamma, &path),
            path,
        }
    }

    /// The trail of a child that is spawned at this rank. It adds one term.
    pub fn child(&self, alloc: Global, gamma: &Gamma, rank: u64) -> Result<Trail, Memory>
        requires fits { FitsGamma gamma.now self.now }
        requires within { length self.now.path < length gamma.now }
        requires rank { IsRank rank }
        ensures path { IfOk result (λ trail. trail.path ≡ self.now.path ++ rank ∷ []) }
        ensures fits { IfOk result (FitsGamma gamma.now) }
    {
        Ok(Trail {
            path: self.path.child(alloc, rank)?,
            sum: dot_with_rank(gamma, &self.path, self.sum, rank),
        })
    }

    /// The same trail; its path shares its memory.
    pub fn share(&self) -> Result<Trail, Memory>
        ensures { IfOk result (λ trail. trail ≡ self.now) }
    {
        Ok(Trail {
            path: self.path.share()?,
            sum: self.sum,
        })
    }

    /// What the strand with this rank draws: one more term, and this many rounds of mixing, at most `MOST_ROUNDS`.
    pub fn draw(&self, gamma: &Gamma, rank: u64, rounds: u32) -> u64
        requires fits { FitsGamma gamma.now self.now }
        requires within { length self.now.path < length gamma.now }
        requires rank { IsRank rank }
        requires rounds { rounds ≤ most_rounds }
        ensures { result ≡ draws.dotmix gamma.now (self.now.path ++ rank ∷ []) rounds }
    {
        mix(dot_with_rank(gamma, &self.path, self.sum, rank), rounds)
    }
}
