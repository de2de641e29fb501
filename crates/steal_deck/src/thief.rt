ghost use Rattle.std.specs.Prelude.{◌≡◌};
ghost use Rattle.steal_deck.specs.Answers.{StealAnswers};

use crate::rule::{OneHistory, Party, StealStep};
use crossbeam_deque::{Pass, Stealer};
use std::alloc::Global;
use std::marker::Model;

/// What a steal returns.
#[derive(Clone, Copy, Debug, Drop, PartialEq, Eq)]
pub enum Steal<T> {
    /// The oldest entry left.
    Took(T),
    /// No entry was taken. At one moment of the call the deck had at most one, which the owner may have been about to pop.
    Nothing,
    /// No entry was taken, since another thief was faster, for instance. The steal may be tried again.
    Lost,
}

/// The end of a deck for a party other than the owner.
///
/// Contracts see what the thief knows: which deck it is of, the entries that it has `taken`, and how many of its steals returned
/// `Nothing` or `Lost` (`misses`). It is `Send` where `T` is.
#[derive(Drop)]
pub struct Thief<T> {
    pub(crate) stealer: Stealer<T, Global, Party<T>, OneHistory>,
    pub(crate) pass: Pass<T, Party<T>>,
    pub(crate) misses: u64,
}

impl<T> Model for Thief<T> {
    ghost use Rattle.std.specs.Prelude.{◌≡◌};
    ghost use Rattle.crossbeam_deque.specs.Handles.{stealer_deque, stealer_flavor, view as pass_view, IsPassOf};
    ghost use Rattle.steal_deck.specs.History.{thief};
    ghost use Rattle.steal_deck.specs.Ends.{ThiefEnd, thief_end};

    ghost Value = { ThiefEnd T };

    ghost view = { λ t. thief_end (stealer_deque t.stealer) (pass_view t.pass) t.misses };

    ghost invariant = { λ t. IsPassOf (stealer_deque t.stealer) t.pass × (stealer_flavor t.stealer ≡ 1) × (pass_view t.pass ≡ thief (pass_view t.pass).taken) };
}

impl<T> Thief<T> {
    /// Takes the oldest entry left.
    ///
    /// Each `Nothing` and each `Lost` is counted, up to the count's greatest value.
    pub fn steal(&mut self) -> Steal<T>
        ensures kept { self.new ≡ record self.old { taken = self.new.taken; misses = self.new.misses } }
        ensures answer { StealAnswers self.old result self.new }
    {
        let miss = match self.stealer.steal_as::<StealStep>(&mut self.pass) {
            crossbeam_deque::Steal::Success(task) => return Steal::Took(task),
            crossbeam_deque::Steal::Empty => Steal::Nothing,
            crossbeam_deque::Steal::Retry => Steal::Lost,
        };
        self.misses = self.misses.saturating_add(1);
        miss
    }
}
