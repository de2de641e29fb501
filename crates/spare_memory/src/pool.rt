// A few things to be used again.

ghost use Rattle.std.specs.Prelude.{◌≡◌};

use std::alloc::Global;
use std::marker::Model;

// How many a pool keeps at most.
const MOST: usize = 64;

/// Things to be used again, at most 64 of them. Contracts see nothing of them.
#[derive(Drop)]
pub struct Pool<T> {
    kept: Vec<T>,
}

impl<T> Model for Pool<T> {
    ghost Value = { Unit {0} };

    ghost view = { λ _. tt };
}

impl<T: Drop> Pool<T> {
    /// A pool with nothing in it, and without memory.
    pub fn new(alloc: Global) -> Pool<T> {
        Pool {
            kept: Vec::new(alloc),
        }
    }

    /// Keeps one more, where there is room for it.
    #[inline(always)]
    pub fn keep(&mut self, it: T)
        ensures { self.new ≡ self.old }
    {
        if self.kept.len() >= MOST {
            drop(it);
            return;
        }
        match self.kept.push(it) {
            Ok(()) => {}
            Err(failed) => drop(failed),
        }
    }

    /// Takes out the one that was kept last, if any is left.
    #[inline(always)]
    pub fn take(&mut self) -> Option<T>
        ensures { self.new ≡ self.old }
    {
        self.kept.pop()
    }
}
