ghost use Rattle.std.specs.Prelude.{◌≡◌, ◌<◌, ◌^◌, ◌↔◌, ℕ, List, [], ◌∷◌, ◌++◌, length, All, IfOk, IfSome, IsTrue, slice_get, slice_index, take};
ghost use Rattle.std.specs.Str.{bytes_eq};
ghost use Rattle.ped_path.specs.Path.{IsRank, IsBefore};

use crate::memory::Memory;
use crate::path::Path;
use crate::ranks::{Ranks, begins, compare};
use std::alloc::Global;
use std::marker::Model;
use std::sync::Arc;

/// A path: the ranks of the spawns that lead from the program's start to a function's instance. Contracts see the list of these
/// ranks, each below 2^32. A path never changes, so all its copies share one place in memory, and the paths of an instance's
/// children share all its full blocks of 16 ranks.
#[derive(Drop)]
pub struct Ped {
    path: Arc<Path>,
}

impl Model for Ped {
    ghost use Rattle.std.specs.Prelude.{ℕ, List};
    ghost use Rattle.std.specs.Arc.{arc_value};

    ghost Value = { List ℕ };

    ghost view = { λ p. arc_value p.path };
}

impl Ped {
    /// The path of the program's start, which has no ranks.
    pub fn root(alloc: Global) -> Result<Ped, Memory>
        ensures { IfOk result (λ p. p ≡ []) }
    {
        Ok(Ped {
            path: Arc::new(alloc, Path::root())?,
        })
    }

    /// The path of a child that is spawned at this rank. It copies at most the 15 ranks after the last full block. Where the new
    /// rank fills a block, it allocates that block and a list of all blocks.
    #[inline(always)]
    pub fn child(&self, alloc: Global, rank: u64) -> Result<Ped, Memory>
        requires { IsRank rank }
        ensures { IfOk result (λ p. p ≡ self.now ++ rank ∷ []) }
    {
        let path = self.path.child(alloc, rank)?;
        Ok(Ped {
            path: Arc::new(alloc, path)?,
        })
    }

    /// Shares the path's memory.
    pub fn share(&self) -> Result<Ped, Memory>
        ensures { IfOk result (λ p. p ≡ self.now) }
    {
        Ok(Ped {
            path: Arc::try_clone(&self.path)?,
        })
    }

    /// Moves the path to memory of its own, so that it shares only the full blocks of ranks with its copies. Its children then don't count
    /// references where the children of the copies count theirs. Where there is no memory for that it stays as it is.
    pub fn unshare(&mut self, alloc: Global)
        ensures { self.new ≡ self.old }
    {
        let Ok(path) = self.path.again(alloc) else {
            return;
        };
        if let Ok(path) = Arc::new(alloc, path) {
            self.path = path;
        }
    }

    pub fn len(&self) -> u64
        ensures length { result ≡ length self.now }

        // What holds of every path.
        ensures small { length self.now < 2 ^ 63 }
        ensures ranks { All IsRank self.now }
    {
        self.path.len()
    }

    /// The rank at this index, counted from the program's start. None exactly where the index isn't below the length.
    pub fn rank_at(&self, i: u64) -> Option<u64>
        ensures value { result ≡ slice_get self.now i }
        ensures rank { IfSome result IsRank }
    {
        if i < self.len() {
            Some(self.rank(i))
        } else {
            None
        }
    }

    /// Whether both have the same ranks.
    pub fn same(&self, other: &Ped) -> bool
        ensures { IsTrue result ↔ (self.now ≡ other.now) }
    {
        compare(self, other).is_eq()
    }

    /// Whether this path precedes the other one in the order in which a serial run visits them.
    pub fn before(&self, other: &Ped) -> bool
        ensures { IsTrue result ↔ IsBefore self.now other.now }
    {
        compare(self, other).is_lt()
    }

    /// Whether the other path is a prefix of this one.
    pub fn begins_with(&self, front: &Ped) -> bool
        ensures { result ≡ bytes_eq (take (length front.now) self.now) front.now }
    {
        begins(self, front)
    }
}

impl Ranks for Ped {
    ghost ranks = { λ p. p };

    fn count(&self) -> u64 {
        self.len()
    }

    fn rank(&self, i: u64) -> u64 {
        self.path.rank(i)
    }
}

#[cfg(test)]
mod tests {
    use super::*;
    use std::test::Fail;

    #[test]
    fn a_copy_shares_the_path(rt: HostRuntime) -> Result<(), Fail> {
        let alloc = rt.alloc();
        let path = Ped::root(alloc)?.child(alloc, 3)?;
        let mut copy = path.share()?;
        assert!(rt; Arc::get_mut(&mut copy.path).is_none());
        drop(path);
        assert!(rt; Arc::get_mut(&mut copy.path).is_some());
        Ok(())
    }

    #[test]
    fn an_unshared_copy_is_of_its_own(rt: HostRuntime) -> Result<(), Fail> {
        let alloc = rt.alloc();
        let path = Ped::root(alloc)?.child(alloc, 3)?;
        let mut copy = path.share()?;
        copy.unshare(alloc);
        assert!(rt; Arc::get_mut(&mut copy.path).is_some());
        assert!(rt; copy.same(&path));
        Ok(())
    }
}
