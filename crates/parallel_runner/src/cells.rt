// A list of cells that threads share.
ghost use Rattle.std.specs.Prelude.{◌≡◌, ◌≤◌, ◌↔◌, List, [], ◌∷◌, ◌++◌, Some, IfOk, IfErr, IsTrue, length, option_map};
ghost use Rattle.std.specs.Arc.{arc_value};
ghost use Rattle.parallel_runner.specs.Cells.{IsFound, IsNext};

use crate::memory::Memory;
use contract_views::KnownList;
use once_cell::race::{Note, OnceBox};
use std::alloc::Global;
use std::marker::Model;
use std::mem;
use std::sync::Arc;

// A value of such a list.
pub(crate) trait Follows {
    // Whether it may be set after the cells with these values.
    ghost follows: { Self → List Self → Type 0 };
}

// A list of cells, which are set in order, each at most once, by the end of a thread, which has read the first ones.
//
// A clause sees the names of all cells, and the values that the thread has read, in order.
#[derive(Drop)]
pub(crate) struct Cells<T> {
    cells: Arc<Vec<OnceBox<Arc<T>>>>,
    // How many of them were read.
    count: usize,
    read: KnownList<T>,
}

// The look at the next cell that found no value in it, or no such cell. Only `next` makes one. A clause sees how many cells were read before.
#[derive(Drop)]
pub(crate) struct Unset {
    read: usize,
}

// What a look at the next cell found.
#[derive(Drop)]
pub(crate) enum Found<T> {
    // Its value, and what the cell itself says of that.
    Value(Arc<T>, Note<Arc<T>>),
    None(Unset),
}

impl<T> Model for Cells<T> {
    ghost use Rattle.std.specs.Prelude.{◌≡◌, ◌≤◌, length, map};
    ghost use Rattle.std.specs.Arc.{arc_value};
    ghost use Rattle.once_cell.specs.Once.{cell_name};
    ghost use Rattle.parallel_runner.specs.Cells.{CellsView};

    ghost Value = { CellsView T };

    ghost view = { λ c. record { names = map cell_name (arc_value c.cells).items; read = c.read.items } };

    ghost invariant = { λ c. (length c.read.items ≡ c.count) × (c.count ≤ length (arc_value c.cells).items) };
}

impl Model for Unset {
    ghost use Rattle.std.specs.Prelude.{ℕ};

    ghost Value = { ℕ };

    ghost view = { λ u. u.read };
}

impl<T> Cells<T> {
    ghost use Rattle.std.specs.Prelude.{map};
    ghost use Rattle.once_cell.specs.Once.{cell_name};

    /// A list of this many cells, none of them set.
    pub fn new(alloc: Global, count: usize) -> Result<Cells<T>, Memory>
    where
        T: Drop,
        ensures { IfOk result (λ cells. cells.read ≡ []) }
    {
        let mut cells = Vec::with_capacity(alloc, count)?;
        for _ in 0..count {
            cells.push(OnceBox::new(alloc))?;
        }
        Ok(Cells::of(Arc::new(alloc, cells)?))
    }

    fn of(cells: Arc<Vec<OnceBox<Arc<T>>>>) -> Cells<T>
        ensures { result ≡ record { names = map cell_name (arc_value cells).items; read = [] } }
    {
        Cells {
            cells,
            count: 0,
            read: KnownList::none(),
        }
    }

    /// The same cells for another thread, which has read none.
    pub fn share(&self) -> Result<Cells<T>, Memory>
    where
        T: Drop,
        ensures { IfOk result (λ cells. cells ≡ record self.now { read = [] }) }
    {
        Ok(Cells::of(Arc::try_clone(&self.cells)?))
    }

    /// Reads the next cell. It stays the next one until it is passed.
    #[inline(always)]
    pub fn next(&self) -> Result<Found<T>, Memory>
        ensures { IfOk result (IsFound self.now) }
    {
        let Some(cell) = self.cells.get(self.count) else {
            return Ok(Found::None(Unset { read: self.count }));
        };
        let mut note = cell.note();
        let Some(value) = cell.get_as(&mut note) else {
            return Ok(Found::None(Unset { read: self.count }));
        };
        let value = Arc::try_clone(value)?;
        Ok(Found::Value(value, note))
    }

    /// The next cell was read, and had this value.
    pub fn pass(&mut self, value: &Arc<T>, note: Note<Arc<T>>)
        requires next { IsNext self.old note.cell }
        requires value { option_map arc_value note.known ≡ Some (arc_value value.now) }
        ensures { self.new ≡ record self.old { read = self.old.read ++ arc_value value.now ∷ [] } }
    {
        drop(note);
        if self.count < self.cells.len() {
            self.count += 1;
        }
        self.read = mem::replace(&mut self.read, KnownList::none()).with(value);
    }

    /// Whether there is no next cell.
    pub fn is_spent(&self) -> bool
        ensures { IsTrue result ↔ (length self.now.names ≤ length self.now.read) }
    {
        self.count >= self.cells.len()
    }

    /// Sets the next cell. The value comes back where another thread set it before, or there is none.
    pub fn set(&self, value: Box<Arc<T>>) -> Result<Note<Arc<T>>, Box<Arc<T>>>
    where
        T: Follows + Drop,
        requires { T.follows (arc_value value.value) self.now.read }
        ensures next { IfOk result (λ note. IsNext self.now note.cell) }
        ensures value { IfOk result (λ note. note.known ≡ Some value.value) }
        ensures err { IfErr result (λ back. back.value ≡ value.value) }
    {
        let Some(cell) = self.cells.get(self.count) else {
            return Err(value);
        };
        let mut note = cell.note();
        match cell.set_as(value, &mut note) {
            Ok(()) => Ok(note),
            Err(back) => Err(back),
        }
    }
}
