// The answers that a hand has put.
ghost use Rattle.std.specs.Prelude.{◌≡◌, [], ◌∷◌, ◌++◌};

use contract_views::{KnownList, Tagged};
use meet_block::{Arrived, Give};
use std::marker::Model;
use std::mem;

// The answers that a hand has put, in order. It has no bytes: only clauses read it. Only a put adds to it, and as it is generic, what it adds is
// what was put.
#[derive(Drop)]
pub(crate) struct Answered<A> {
    put: KnownList<A>,
}

impl<A> Model for Answered<A> {
    ghost use Rattle.std.specs.Prelude.{List};

    ghost Value = { List A };

    ghost view = { λ a. a.put.items };
}

impl<A: Tagged + Drop> Answered<A> {
    /// No answer was put.
    pub fn none() -> Answered<A>
        ensures { result ≡ [] }
    {
        Answered {
            put: KnownList::none(),
        }
    }

    /// Puts the answer.
    #[inline(always)]
    pub fn put(&mut self, answer: A, give: Give<A>) -> Arrived<A>
        requires { A.tag answer ≡ give.tag }
        ensures put { self.new ≡ self.old ++ answer ∷ [] }
        ensures arrived { result ≡ give }
    {
        self.put = mem::replace(&mut self.put, KnownList::none()).with(&answer);
        give.put(answer)
    }
}
