// Lists without items.

ghost use Rattle.std.specs.Prelude.{◌≡◌, []};

use std::alloc::Global;
use std::marker::Model;

/// The memory of a list, which has no items.
#[derive(Drop)]
pub struct EmptyList<T> {
    list: Vec<T>,
}

impl<T> Model for EmptyList<T> {
    ghost use Rattle.std.specs.Prelude.{◌≡◌, []};

    ghost Value = { Unit {0} };

    ghost view = { λ _. tt };

    ghost invariant = { λ e. e.list.items ≡ [] };
}

impl<T: Drop> EmptyList<T> {
    /// One that has no memory yet.
    pub fn new(alloc: Global) -> EmptyList<T> {
        EmptyList {
            list: Vec::new(alloc),
        }
    }

    /// Drops the items of a list, and keeps its memory.
    #[inline(always)]
    pub fn of(list: Vec<T>) -> EmptyList<T> {
        let mut list = list;
        list.clear();
        EmptyList { list }
    }

    /// The list. It takes no memory.
    #[inline(always)]
    pub fn into_list(self) -> Vec<T>
        ensures { result.items ≡ [] }
    {
        let EmptyList { list } = self;
        list
    }
}
