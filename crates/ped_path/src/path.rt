ghost use Rattle.std.specs.Prelude.{◌≡◌, ◌<◌, ◌^◌, ℕ, List, [], ◌∷◌, ◌++◌, length, All, IfOk, slice_index};
ghost use Rattle.ped_path.specs.Path.{IsRank};

use crate::block::{BLOCK, RankBlock, RankBlocks};
use crate::memory::Memory;
use std::alloc::Global;
use std::marker::Model;

// The most blocks of a path, so that its length fits. No machine has memory for as many.
const MOST_BLOCKS: usize = 1 << 58;

// What the copies of a path share: its full blocks, which its children's paths share too, and the ranks after them. Contracts see
// the list of its ranks.
#[derive(Drop)]
pub(crate) struct Path {
    blocks: RankBlocks,
    last: [u32; BLOCK],
    count: usize,
}

impl Model for Path {
    ghost use Rattle.std.specs.Prelude.{ℕ, List};
    ghost use Rattle.ped_path.specs.Blocks.{joined, IsBlocked};

    ghost Value = { List ℕ };

    ghost view = { λ p. joined p.blocks p.last p.count };

    ghost invariant = { λ p. IsBlocked p.blocks p.last p.count };
}

impl Path {
    pub(crate) fn root() -> Path
        ensures { result ≡ [] }
    {
        Path {
            blocks: RankBlocks::none(),
            last: [0; BLOCK],
            count: 0,
        }
    }

    #[inline(always)]
    pub(crate) fn child(&self, alloc: Global, rank: u64) -> Result<Path, Memory>
        requires { IsRank rank }
        ensures { IfOk result (λ p. p ≡ self.now ++ rank ∷ []) }
    {
        let mut last = self.last;
        last[self.count] = rank as u32;
        if self.count + 1 < BLOCK {
            return Ok(Path {
                blocks: self.blocks.share()?,
                last,
                count: self.count + 1,
            });
        }
        if self.blocks.as_slice().len() == MOST_BLOCKS {
            return Err(Memory);
        }
        let block = RankBlock::new(alloc, last)?;
        Ok(Path {
            blocks: self.blocks.with(alloc, block)?,
            last: [0; BLOCK],
            count: 0,
        })
    }

    // The same path. It shares the full blocks, but not their list.
    pub(crate) fn again(&self, alloc: Global) -> Result<Path, Memory>
        ensures { IfOk result (λ p. p ≡ self.now) }
    {
        Ok(Path {
            blocks: self.blocks.again(alloc)?,
            last: self.last,
            count: self.count,
        })
    }

    pub(crate) fn len(&self) -> u64
        ensures length { result ≡ length self.now }
        ensures small { length self.now < 2 ^ 63 }
        ensures ranks { All IsRank self.now }
    {
        (self.blocks.as_slice().len() * BLOCK + self.count) as u64
    }

    pub(crate) fn rank(&self, i: u64) -> u64
        requires { i < length self.now }
        ensures { result ≡ slice_index self.now i }
    {
        let (block, place) = (i as usize / BLOCK, i as usize % BLOCK);
        let blocks = self.blocks.as_slice();
        if block < blocks.len() {
            blocks[block].rank(place)
        } else {
            self.last[place] as u64
        }
    }
}

#[cfg(test)]
mod tests {
    use super::*;
    use std::test::Fail;

    // A path of `len` ranks: 0, 1, 2 and so on.
    fn counted(alloc: Global, len: u32) -> Result<Path, Memory> {
        let mut path = Path::root();
        for rank in 0..len {
            path = path.child(alloc, rank as u64)?;
        }
        Ok(path)
    }

    #[test]
    fn a_child_shares_the_blocks(rt: HostRuntime) -> Result<(), Fail> {
        let alloc = rt.alloc();
        let parent = counted(alloc, 16)?;
        let mut blocks = parent.child(alloc, 0)?.blocks;
        assert!(rt; !blocks.is_sole());
        drop(parent);
        assert!(rt; blocks.is_sole());
        Ok(())
    }

    // The path of 32 ranks has its own list, whose first block is its parent's.
    #[test]
    fn a_new_list_has_the_same_blocks(rt: HostRuntime) -> Result<(), Fail> {
        let alloc = rt.alloc();
        let parent = counted(alloc, 31)?;
        let child = parent.child(alloc, 31)?;
        let owners: Vec<usize> = child
            .blocks
            .as_slice()
            .iter()
            .map(RankBlock::owners)
            .collect(alloc)?;
        assert_eq!(rt; owners.as_slice(), [2, 1].as_slice());
        Ok(())
    }
}
