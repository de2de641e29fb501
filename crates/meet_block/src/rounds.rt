// The children of a join, round by round.
ghost use Rattle.std.specs.Prelude.{◌≡◌, List, [], ◌∷◌, ◌++◌, IfOk, OnOk, OnErr, Some, length, slice_get, slice_set, true, false};
ghost use Rattle.meet_block.specs.Joined.{joined_with, LookAnswers};
ghost use Rattle.meet_block.specs.Rounds.{IsLast};

use crate::counters::Counters;
use crate::join::Look;
use crate::join_name::JoinName;
use crate::join_pool::JoinPool;
use crate::memory::Memory;
use crate::taken::Taken;
use crate::tied::Tied;
use contract_views::{KnownList, KnownTag, Tagged};
use std::alloc::Global;
use std::marker::Model;
use std::mem;

/// The children of a join, and its name. Where a child comes when all values were taken, a round begins: the counters of the last one go, and only clauses
/// know of their children. So a join that serves round after round takes the memory of one. Contracts see it as a `RoundsView`.
#[derive(Drop)]
pub struct Rounds<A: Tagged> {
    // The children of earlier rounds, and what looks have read for them.
    gone_tags: KnownList<A::Key>,
    gone_loads: KnownList<u64>,
    counters: Counters<A>,
    // How many gives were made, and how many values weren't taken.
    count: u64,
    left: u64,
    name: JoinName,
}

impl<A: Tagged> Model for Rounds<A> {
    ghost use Rattle.meet_block.specs.Rounds.{RoundsView, rounds_view, Counts};

    ghost Value = { RoundsView A.Key };

    ghost view = { λ r. rounds_view r.gone_tags.items r.gone_loads.items r.counters r.name.value };

    ghost invariant = { λ r. Counts r.count r.left r.gone_tags.items r.counters.children };
}

// Items that clauses know of these counters.
fn known<A: Tagged, T>(counters: &Counters<A>) -> KnownList<T>
    ghost items: { List T }
    ensures { result.items ≡ items }
{
    let _ = counters;
    KnownList::of()
}

// The same items, with these at the end.
fn append<T>(items: &mut KnownList<T>, more: KnownList<T>)
    ensures { items.new.items ≡ items.old.items ++ more.items }
{
    *items = mem::replace(items, KnownList::none()).followed_by(more);
}

impl<A: Tagged + Drop> Rounds<A> {
    /// No child, and some name. It takes no memory yet.
    pub fn new(alloc: Global) -> Rounds<A>
        ensures { result.children ≡ joined_with [] [] true [] }
    {
        Rounds {
            gone_tags: KnownList::none(),
            gone_loads: KnownList::none(),
            counters: Counters::new(alloc),
            count: 0,
            left: 0,
            name: KnownTag::of(&0),
        }
    }

    /// How many gives were made.
    pub fn count(&self) -> u64
        ensures { result ≡ length self.now.children.tags }
    {
        self.count
    }

    /// Makes a give of the last counter, or of a new one where that isn't open. It has the join's name. `Memory` also comes where as many gives were
    /// made as a `u64` counts.
    pub fn hand(
        &mut self,
        alloc: Global,
        tag: &A::Key,
        pool: &mut JoinPool<A>,
    ) -> Result<Tied<A>, Memory>
        ensures give { IfOk result (λ give. (give.tag ≡ tag.now) × (give.join ≡ self.old.name)) }
        ensures table { IfOk result (λ give. IsLast give.table self.new.tables) }
        ensures added { OnOk result (self.new.children
            ≡ joined_with (self.old.children.tags ++ tag.now ∷ []) (self.old.children.taken ++ false ∷ []) false self.old.children.loads) }
        ensures named { OnOk result (self.new.name ≡ self.old.name) }
        ensures err { OnErr result (self.new ≡ self.old) }
    {
        let Some(count) = self.count.checked_add(1) else {
            return Err(Memory);
        };
        if self.left > 0 || self.counters.count() == 0 {
            let tied = self.counters.hand(alloc, tag, &self.name, pool)?;
            self.count = count;
            self.left += 1;
            return Ok(tied);
        }
        let mut counters = Counters::new(alloc);
        let tied = counters.hand(alloc, tag, &self.name, pool)?;
        append(&mut self.gone_tags, known(&self.counters));
        append(&mut self.gone_loads, known(&self.counters));
        self.counters = counters;
        self.count = count;
        self.left = 1;
        Ok(tied)
    }

    /// Looks at the counters that weren't found ready yet, in order, up to the first whose children haven't all arrived.
    pub fn look(&mut self) -> Look
        ensures answers { LookAnswers self.old.children self.new.children result }
        ensures tags { self.new.children.tags ≡ self.old.children.tags }
        ensures taken { self.new.children.taken ≡ self.old.children.taken }
        ensures named { self.new.name ≡ self.old.name }
    {
        self.counters.look()
    }

    /// Takes the value of the child i.
    #[inline(always)]
    pub fn take(&mut self, i: u64) -> Taken<A>
        requires ready { self.old.children.ready ≡ true }
        requires left { slice_get self.old.children.taken i ≡ Some false }
        ensures tag { slice_get self.old.children.tags i ≡ Some (A.tag result) }
        ensures taken { self.new.children
            ≡ joined_with self.old.children.tags (slice_set self.old.children.taken i true) true self.old.children.loads }
        ensures named { self.new.name ≡ self.old.name }
    {
        let gone = self.count - self.counters.count();
        let taken = self.counters.take(i - gone);
        self.left -= 1;
        taken
    }
}
