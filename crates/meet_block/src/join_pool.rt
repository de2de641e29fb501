ghost use Rattle.std.specs.Prelude.{◌≡◌};

use crate::memory::Memory;
use crate::reserved_box::ReservedBox;
use crate::spare_counter::SpareCounter;
use crate::taken::Taken;
use contract_views::Tagged;
use spare_memory::Pool;
use std::alloc::Global;
use std::marker::Model;

/// The memory of joins whose values were taken, for the next ones: boxes without a value, and counters. Contracts see nothing of it. It is `Send` where the
/// value is.
#[derive(Drop)]
pub struct JoinPool<A: Tagged> {
    boxes: Pool<ReservedBox<A>>,
    counters: Pool<SpareCounter<A>>,
}

impl<A: Tagged> Model for JoinPool<A> {
    ghost Value = { Unit {0} };

    ghost view = { λ _. tt };
}

impl<A: Tagged + Drop> JoinPool<A> {
    /// A pool with nothing in it, and without memory.
    pub fn new(alloc: Global) -> JoinPool<A> {
        JoinPool {
            boxes: Pool::new(alloc),
            counters: Pool::new(alloc),
        }
    }

    // The box for a value that is still to come.
    #[inline(always)]
    pub(crate) fn reserved_box(&mut self, alloc: Global) -> Result<ReservedBox<A>, Memory>
        ensures { self.new ≡ self.old }
    {
        match self.boxes.take() {
            Some(reserved) => Ok(reserved),
            None => ReservedBox::new(alloc),
        }
    }

    // A counter that no join uses. `tag` may be any tag.
    #[inline(always)]
    pub(crate) fn counter(&mut self, alloc: Global, tag: &A::Key) -> Result<SpareCounter<A>, Memory>
        ensures { self.new ≡ self.old }
    {
        match self.counters.take() {
            Some(counter) => Ok(counter),
            None => SpareCounter::new(alloc, tag),
        }
    }

    /// The value that was taken. Its memory is kept for the next one.
    #[inline(always)]
    pub fn value_of(&mut self, taken: Taken<A>) -> A
        ensures value { result ≡ taken }
        ensures same { self.new ≡ self.old }
    {
        let Taken { value, spare } = taken;
        if let Some(counter) = spare {
            self.counters.keep(counter);
        }
        let (value, reserved) = value.emptied();
        self.boxes.keep(reserved);
        value
    }
}
