ghost use Rattle.std.specs.Prelude.{◌≡◌, ◌<◌, ℕ, [], ◌∷◌, ◌++◌, All, IfOk, slice_index};
ghost use Rattle.ped_path.specs.Blocks.{IsRankBlock};

use crate::memory::Memory;
use std::alloc::Global;
use std::marker::Model;
use std::sync::Arc;

// How many ranks a block has.
pub(crate) const BLOCK: usize = 16;

// A full block of ranks, which never changes. Contracts see the list of its ranks.
#[derive(Drop)]
pub(crate) struct RankBlock {
    ranks: Arc<[u32; BLOCK]>,
}

impl Model for RankBlock {
    ghost use Rattle.std.specs.Prelude.{ℕ, List};
    ghost use Rattle.std.specs.Arc.{arc_value};
    ghost use Rattle.ped_path.specs.Blocks.{IsRankBlock};

    ghost Value = { List ℕ };

    ghost view = { λ b. arc_value b.ranks };

    ghost invariant = { λ b. IsRankBlock (arc_value b.ranks) };
}

impl RankBlock {
    pub(crate) fn new(alloc: Global, ranks: [u32; BLOCK]) -> Result<RankBlock, Memory>
        requires { IsRankBlock ranks }
        ensures { IfOk result (λ block. block ≡ ranks) }
    {
        let ranks = Arc::new(alloc, ranks)?;
        Ok(RankBlock { ranks })
    }

    // Shares the block's memory.
    pub(crate) fn share(&self) -> Result<RankBlock, Memory>
        ensures { IfOk result (λ block. block ≡ self.now) }
    {
        let ranks = Arc::try_clone(&self.ranks)?;
        Ok(RankBlock { ranks })
    }

    pub(crate) fn rank(&self, place: usize) -> u64
        requires { place < 16 }
        ensures { result ≡ slice_index self.now place }
    {
        self.ranks[place] as u64
    }

    // How many lists hold this block.
    #[cfg(test)]
    pub(crate) fn owners(&self) -> usize {
        Arc::strong_count(&self.ranks)
    }
}

// A list of blocks, in memory that all its owners share. Contracts see the list of the blocks.
#[derive(Drop)]
pub(crate) struct RankBlocks {
    // None where there is no block, so that short paths share no reference count.
    list: Option<Arc<Vec<RankBlock>>>,
}

impl Model for RankBlocks {
    ghost use Rattle.std.specs.Prelude.{ℕ, List};
    ghost use Rattle.ped_path.specs.Blocks.{blocks_of};

    ghost Value = { List (List ℕ) };

    ghost view = { λ b. blocks_of b.list };
}

impl RankBlocks {
    pub(crate) fn none() -> RankBlocks
        ensures { result ≡ [] }
    {
        RankBlocks { list: None }
    }

    pub(crate) fn as_slice(&self) -> &[RankBlock]
        ensures { result.now ≡ self.now }
    {
        match &self.list {
            Some(list) => list.as_slice(),
            None => &[],
        }
    }

    // Shares the list's memory.
    pub(crate) fn share(&self) -> Result<RankBlocks, Memory>
        ensures { IfOk result (λ list. list ≡ self.now) }
    {
        match &self.list {
            Some(list) => Ok(RankBlocks {
                list: Some(Arc::try_clone(list)?),
            }),
            None => Ok(RankBlocks::none()),
        }
    }

    // The same blocks, in a list that no other owner shares.
    pub(crate) fn again(&self, alloc: Global) -> Result<RankBlocks, Memory>
        ensures { IfOk result (λ list. list ≡ self.now) }
    {
        if self.list.is_none() {
            return Ok(RankBlocks::none());
        }
        let list = shared_blocks(alloc, self.as_slice(), 0)?;
        Ok(RankBlocks {
            list: Some(Arc::new(alloc, list)?),
        })
    }

    // A new list: these blocks and one more.
    pub(crate) fn with(&self, alloc: Global, block: RankBlock) -> Result<RankBlocks, Memory>
        ensures { IfOk result (λ list. list ≡ self.now ++ block ∷ []) }
    {
        let list = with_block(alloc, self.as_slice(), block)?;
        Ok(RankBlocks {
            list: Some(Arc::new(alloc, list)?),
        })
    }

    // Whether no other list shares this memory. A list without blocks has none.
    #[cfg(test)]
    pub(crate) fn is_sole(&mut self) -> bool {
        match &mut self.list {
            Some(list) => Arc::get_mut(list).is_some(),
            None => true,
        }
    }
}

// A new list of these blocks, with room for this many more.
fn shared_blocks(alloc: Global, blocks: &[RankBlock], more: usize) -> Result<Vec<RankBlock>, Memory>
    ensures { IfOk result (λ list. list.items ≡ blocks.now) }
{
    let mut list = Vec::with_capacity(alloc, blocks.len().saturating_add(more))?;
    for shared in blocks {
        list.push(shared.share()?)?;
    }
    Ok(list)
}

// A new list: these blocks and one more.
fn with_block(
    alloc: Global,
    blocks: &[RankBlock],
    block: RankBlock,
) -> Result<Vec<RankBlock>, Memory>
    ensures { IfOk result (λ list. list.items ≡ blocks.now ++ block ∷ []) }
{
    let mut list = shared_blocks(alloc, blocks, 1)?;
    list.push(block)?;
    Ok(list)
}
