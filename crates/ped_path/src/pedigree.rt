ghost use Rattle.std.specs.Prelude.{◌≡◌, ◌≤◌, ◌^◌, ◌↔◌, ℕ, List, [], ◌∷◌, ◌++◌, length, All, IfOk, IfSome, IsTrue, slice_get, slice_index, take};
ghost use Rattle.std.specs.Str.{bytes_eq};
ghost use Rattle.ped_path.specs.Path.{IsRank, IsBefore};

use crate::memory::Memory;
use crate::ped::Ped;
use crate::ranks::{Ranks, begins, compare};
use std::marker::Model;

/// The pedigree of a strand: the path of its function's instance, and its rank there. Contracts see the list of the path's ranks
/// and this one, each below 2^32.
#[derive(Drop)]
pub struct Pedigree {
    pub path: Ped,
    pub rank: u64,
}

impl Model for Pedigree {
    ghost use Rattle.std.specs.Prelude.{ℕ, List, [], ◌∷◌, ◌++◌};
    ghost use Rattle.ped_path.specs.Path.{IsRank};

    ghost Value = { List ℕ };

    ghost view = { λ j. j.path ++ j.rank ∷ [] };

    ghost invariant = { λ j. IsRank j.rank };
}

impl Pedigree {
    /// Shares the pedigree's memory.
    pub fn share(&self) -> Result<Pedigree, Memory>
        ensures { IfOk result (λ j. j ≡ self.now) }
    {
        Ok(Pedigree {
            path: self.path.share()?,
            rank: self.rank,
        })
    }

    /// The number of ranks, at least one.
    pub fn len(&self) -> u64
        ensures length { result ≡ length self.now }

        // What holds of every pedigree.
        ensures small { length self.now ≤ 2 ^ 63 }
        ensures ranks { All IsRank self.now }
    {
        self.path.len() + 1
    }

    /// The rank at this index, counted from the program's start. None exactly where the index isn't below the length.
    pub fn rank_at(&self, i: u64) -> Option<u64>
        ensures value { result ≡ slice_get self.now i }
        ensures rank { IfSome result IsRank }
    {
        if i == self.path.len() {
            Some(self.rank)
        } else {
            self.path.rank_at(i)
        }
    }

    /// Whether both have the same ranks.
    pub fn same(&self, other: &Pedigree) -> bool
        ensures { IsTrue result ↔ (self.now ≡ other.now) }
    {
        compare(self, other).is_eq()
    }

    /// Whether this pedigree precedes the other one in the order of a serial run.
    pub fn before(&self, other: &Pedigree) -> bool
        ensures { IsTrue result ↔ IsBefore self.now other.now }
    {
        compare(self, other).is_lt()
    }

    /// Whether this pedigree precedes the path, compared as lists in the same order. A pedigree that the path is a prefix of
    /// doesn't. So it tells whether a strand comes before a whole instance: the strand `3.0` comes before the instance at `4`, and
    /// the strand `4.0`, that instance's first, doesn't.
    pub fn before_path(&self, path: &Ped) -> bool
        ensures { IsTrue result ↔ IsBefore self.now path.now }
    {
        compare(self, path).is_lt()
    }

    /// Whether the path is a prefix of this pedigree.
    pub fn begins_with(&self, path: &Ped) -> bool
        ensures { result ≡ bytes_eq (take (length path.now) self.now) path.now }
    {
        begins(self, path)
    }

    /// Whether the other pedigree is a prefix of this one, or the same.
    pub fn goes_on_from(&self, front: &Pedigree) -> bool
        ensures { result ≡ bytes_eq (take (length front.now) self.now) front.now }
    {
        begins(self, front)
    }
}

impl Ranks for Pedigree {
    ghost ranks = { λ j. j };

    fn count(&self) -> u64 {
        self.len()
    }

    fn rank(&self, i: u64) -> u64 {
        if i < self.path.len() {
            self.path.rank(i)
        } else {
            self.rank
        }
    }
}
