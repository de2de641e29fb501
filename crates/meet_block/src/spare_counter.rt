// A counter that no join uses.
ghost use Rattle.std.specs.Prelude.{◌≡◌, [], IfOk};
ghost use Rattle.std.specs.Arc.{arc_value};
ghost use Rattle.meet_block.specs.declared.view.SeatState.TheVariants.{Open, Spare, Ready};
ghost use Rattle.meet_block.specs.Counter.{parent, untaken};

use crate::memory::Memory;
use crate::reserved_box::FilledBox;
use crate::rule::{Begins, Retires};
use crate::tied::Counter;
use crate::view::View;
use atomic_table::{Seat, Table};
use contract_views::Tagged;
use std::alloc::Global;
use std::mem;
use std::sync::Arc;

/// How many slots a counter has. The parent's own party is one more.
pub const SLOTS: u8 = 16;

/// A counter with the parent's seat, whose slots are all empty. Children of the join that used it before may still have handles of it.
#[derive(Drop)]
pub struct SpareCounter<A: Tagged> {
    counter: Arc<Counter<A>, Global>,
    seat: Seat<Option<FilledBox<A>>, View<A::Key>>,
    ghost here: { seat.table_id ≡ (arc_value counter).shared.table_id },
    ghost sized: { (arc_value counter).shared.table_id.words ≡ 1 },
    ghost parents: { seat.id ≡ 0 },
    ghost spare: { (seat.me.0.state ≡ Spare) × (seat.me.1 ≡ []) },
}

impl<A: Tagged> SpareCounter<A> {
    /// A new one. `tag` may be any tag.
    pub fn new(alloc: Global, tag: &A::Key) -> Result<SpareCounter<A>, Memory>
    where
        A: Drop,
    {
        let (counter, seat) = Table::vacant(alloc, &[0], SLOTS as usize, tag)?;
        let counter = Arc::new(alloc, counter)?;
        Ok(SpareCounter { counter, seat })
    }

    /// The counter of a parent that has taken all values. The parent is left with a seat that has seen the same.
    #[inline(always)]
    pub fn retired(
        counter: Arc<Counter<A>, Global>,
        seat: &mut Seat<Option<FilledBox<A>>, View<A::Key>>,
    ) -> SpareCounter<A>
        requires here { seat.old.table_id ≡ (arc_value counter).shared.table_id }
        requires sized { (arc_value counter).shared.table_id.words ≡ 1 }
        requires parents { seat.old.id ≡ 0 }
        requires ready { (seat.old.me.0.state ≡ Ready) × (seat.old.me.1 ≡ []) }
        requires none_left { untaken seat.old.me.0.taken ≡ 0 }
        ensures table { seat.new.table_id ≡ seat.old.table_id }
        ensures seen { seat.new.me ≡ seat.old.me }
    {
        let seen = counter.shared.split_seat::<Retires>(seat);
        let seat = mem::replace(seat, seen);
        SpareCounter { counter, seat }
    }

    /// The counter for another join, with no slot given.
    #[inline(always)]
    pub fn begun(
        self,
    ) -> (
        Arc<Counter<A>, Global>,
        Seat<Option<FilledBox<A>>, View<A::Key>>,
    )
        ensures here { result.1.table_id ≡ (arc_value result.0).shared.table_id }
        ensures sized { (arc_value result.0).shared.table_id.words ≡ 1 }
        ensures parents { result.1.id ≡ 0 }
        ensures open { (t : A.Key) × (result.1.me ≡ (parent t Open [] [] [], [])) }
    {
        let SpareCounter { counter, mut seat } = self;
        let word = SLOTS as u64 + 1;
        counter.shared.store::<Begins>(&mut seat, 0, word);
        (counter, seat)
    }
}
