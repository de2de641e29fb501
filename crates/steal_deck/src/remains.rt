ghost use Rattle.std.specs.Prelude.{◌≡◌, ◌++◌, ◌∷◌, [], ℕ, IfSome, IfNone};

use crate::deck::Deck;
use std::marker::Model;

/// What is left of a closed deck.
///
/// Contracts see the list of the entries left, in order of their numbers.
#[derive(Drop)]
pub struct Remains<T> {
    pub(crate) deck: Deck<T>,
}

impl<T> Model for Remains<T> {
    ghost use Rattle.std.specs.Prelude.{List, ℕ};
    ghost use Rattle.steal_deck.specs.Accounts.{left_of};
    ghost use Rattle.steal_deck.specs.Ends.{known_taken, AllCameBack};

    ghost Value = { List (ℕ × T) };

    ghost view = { λ r. left_of r.deck.pushed (known_taken r.deck) };

    ghost invariant = { λ r. AllCameBack r.deck };
}

impl<T> Remains<T> {
    /// Takes the last entry of the list, `None` where it is empty: of `b` and `c`, pushed in this order, `c` comes first.
    pub fn pop(&mut self) -> Option<T>
        ensures some { IfSome result (λ task. (number : ℕ) × (self.old ≡ self.new ++ (number, task) ∷ [])) }
        ensures none { IfNone result ((self.old ≡ []) × (self.new ≡ [])) }
    {
        self.deck.pop()
    }
}
