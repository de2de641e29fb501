// The memory of environments that are no longer needed.

ghost use Rattle.std.specs.Prelude.{◌≡◌, []};

use crate::entry::Entry;
use spare_memory::{EmptyList, Pool};
use std::alloc::Global;

/// The lists of environments that are no longer needed, for the next ones. It holds no variable.
#[derive(Drop)]
pub struct EnvironmentPool {
    lists: Pool<EmptyList<Entry>>,
}

impl EnvironmentPool {
    /// A pool with nothing in it, and without memory.
    pub fn new(alloc: Global) -> EnvironmentPool {
        EnvironmentPool {
            lists: Pool::new(alloc),
        }
    }

    // An empty list, of the pool where there is one.
    #[inline(always)]
    pub(crate) fn list(&mut self, alloc: Global) -> Vec<Entry>
        ensures list { result.items ≡ [] }
        ensures same { self.new ≡ self.old }
    {
        match self.lists.take() {
            Some(empty) => empty.into_list(),
            None => Vec::new(alloc),
        }
    }

    // Keeps the memory of a list.
    #[inline(always)]
    pub(crate) fn keep(&mut self, list: Vec<Entry>)
        ensures { self.new ≡ self.old }
    {
        self.lists.keep(EmptyList::of(list));
    }
}
