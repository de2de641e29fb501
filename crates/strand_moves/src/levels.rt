// The open scopes of a frame.

ghost use Rattle.std.specs.Prelude.{◌≡◌, ◌++◌, ◌∷◌, [], OnOk, MatchOption};
ghost use Rattle.strand_moves.specs.Levels.{LevelsView, levels_in};

use crate::frame::Level;
use crate::memory::Memory;
use contract_views::{Boxed, Items};
use std::alloc::Global;
use std::marker::Model;

// The open scopes of a frame, the outermost first. Their list is boxed and made with the first one, since a frame is moved
// at each call and return, and a move of more than 128 bytes is a call.
#[derive(Drop)]
pub(crate) struct Levels {
    list: Option<Boxed<Items<Level>>>,
}

impl Model for Levels {
    ghost Value = { LevelsView };

    ghost view = { λ l. record { items = levels_in l.list } };
}

impl Levels {
    pub(crate) fn none() -> Levels
        ensures { result.items ≡ [] }
    {
        Levels { list: None }
    }

    #[inline(always)]
    pub(crate) fn as_slice(&self) -> &[Level]
        ensures value { result.now ≡ self.now.items }
    {
        match &self.list {
            Some(list) => list.get().as_slice(),
            None => &[],
        }
    }

    // Opens a scope in the innermost one.
    pub(crate) fn push(&mut self, alloc: Global, level: Level) -> Result<(), Memory>
        ensures { OnOk result (self.new.items ≡ self.old.items ++ level ∷ []) }
    {
        if let Some(list) = &mut self.list {
            list.0.0.push(level)?;
            return Ok(());
        }
        let mut list = Items(Vec::new(alloc));
        list.0.push(level)?;
        self.list = Some(Boxed(Box::new(alloc, list)?));
        Ok(())
    }

    // Closes the innermost one.
    pub(crate) fn pop(&mut self) -> Option<Level>
        ensures items { MatchOption result ((self.old.items ≡ []) × (self.new ≡ self.old)) (λ level. self.old.items ≡ self.new.items ++ level ∷ []) }
    {
        match &mut self.list {
            Some(list) => list.0.0.pop(),
            None => None,
        }
    }

    // Drops them, which is a test where no scope was opened.
    #[inline(always)]
    pub(crate) fn discard(self) {
        let Levels { list } = self;
        if let Some(list) = list {
            drop(list);
        }
    }
}
