//! The protocol that a deck and its thieves share, and its steps.
//!
//! It says that the tasks in the deck, and what each party knows, are a state of a history. There are five kinds of step: a push, a
//! pop, a steal, the split of a thief's pass from the owner's, and the join of the two. Each adds one event to the history, which
//! is proved of each.

use crossbeam_deque::protocol::{Join, Lesson, Outcome, Protocol, Split};
use std::collections::LinkedList;

/// What one party of a deck knows, the owner or a thief. It is for proofs only, and no value of it exists at run time.
///
/// A thief knows the entries that it took. The owner also knows what it pushed, which entries were taken by thieves that came back,
/// and how many thieves were made and came back.
pub struct Party<T> {
    pub is_thief: bool,
    pub pushed: LinkedList<T>,
    pub taken: LinkedList<(u64, T)>,
    pub back: LinkedList<(u64, T)>,
    pub made: u64,
    pub came: u64,
}

/// The invariant: the deck and its parties have a history.
pub struct OneHistory;

impl<T> Protocol<T, Party<T>> for OneHistory {
    ghost use Rattle.std.specs.Prelude.{[]};
    ghost use Rattle.steal_deck.specs.History.{owner, retired, HasHistory};

    ghost holds = { HasHistory };

    ghost first = { owner [] [] [] 0 0 };

    ghost guest = { retired };
}

/// The owner pushes.
pub struct PushStep;

impl<T> Outcome<T, Party<T>> for PushStep {
    ghost use Rattle.steal_deck.specs.Steps.{One, Pushed};

    ghost then = { λ v tasks w. One (λ x. Pushed v x w) tasks };
}

/// The owner pops.
pub struct PopStep;

impl<T> Outcome<T, Party<T>> for PopStep {
    ghost use Rattle.steal_deck.specs.Steps.{One, Popped, FoundNone};

    ghost then = { λ v tasks w. One (λ x. Popped v x w) tasks };

    ghost empty = { FoundNone };
}

/// A thief steals.
pub struct StealStep;

impl<T> Outcome<T, Party<T>> for StealStep {
    ghost use Rattle.steal_deck.specs.History.{ThiefFindsFew};
    ghost use Rattle.steal_deck.specs.Steps.{One, Stole};

    ghost then = { λ v tasks w. One (λ x. Stole v x w) tasks };

    ghost empty = { ThiefFindsFew };
}

/// A thief's pass is split from the owner's, or joined to it again.
pub struct ThiefStep;

impl<T> Split<Party<T>> for ThiefStep {
    ghost use Rattle.std.specs.Prelude.{[]};
    ghost use Rattle.steal_deck.specs.History.{thief, with_thief};

    ghost left = { with_thief };

    ghost right = { λ v. thief [] };
}

impl<T> Join<Party<T>> for ThiefStep {
    ghost use Rattle.steal_deck.specs.History.{retired, with_back};

    ghost both = { with_back };

    ghost spent = { retired };
}

/// The owner looks at the deck, and learns what its lists account for.
pub struct Account;

impl<T> Lesson<T, Party<T>> for Account {
    ghost use Rattle.steal_deck.specs.Steps.{Accounted};

    ghost fact = { λ v tasks. Accounted v };
}
