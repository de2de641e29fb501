//! Work-stealing decks: each entry is taken once, by the owner from one end or by a thief from the other.
//!
//! A deck is a work-stealing deque ("deque" is said "deck"), as Chase and Lev describe it in "Dynamic Circular
//! Work-Stealing Deque" (SPAA 2005) and `crossbeam_deque` has it. It has two ends:
//!
//! - The owner's end is the [`Deck`] itself. One thread has it, and uses it as a stack: `push` adds a task,
//!   and `pop` takes the newest.
//! - The thieves' end is a [`Thief`] in each other thread: `steal` takes the oldest task.
//!
//! No call waits for another thread: none takes a lock. After the work each thief goes back to the owner by `rejoin`.
//! Then `close` turns the deck into its [`Remains`], the list of what is left.
//!
//! A deck numbers its pushes from 0, and an entry is a task with its number. Clauses see a deck as what its owner knows,
//! and a thief as what that thief knows (`specs/Ends.antt`). What all of them share is a history (`specs/History.antt`):
//! a list of pushes, pops, steals, and thieves that are made and come back, which leads from the new deck to a state.
//! The clauses say that at some moment of each call the deck was in such a state, and that what the call took or found
//! is what the history has there.
//!
//! No clause says why a steal answers `Lost`, nor that a push succeeds after the first 64 of a deck, nor that a steal
//! takes an entry wherever one is left. The tests show a steal that takes one, and many pushes that succeed.
//!
//! The owner pushes three tasks, and a thief steals the oldest. `closed_deck_gives_what_is_left` in the tests of `test_joins` runs it:
//!
//! ```
//! let mut deck = Deck::new(alloc)?;
//! let mut thief = deck.thief()?;
//! for task in ['a', 'b', 'c'] {
//!     deck.push(task)          // Ok(())
//! }
//! thief.steal()                // Steal::Took('a')
//! deck.rejoin(thief);
//! let mut left = deck.close();
//! left.pop()                   // Some('c')
//! left.pop()                   // Some('b')
//! left.pop()                   // None
//! ```
#![tactic(auto)]

mod deck;
mod memory;
mod remains;
mod rule;
mod thief;

pub use deck::{Deck, Refused};
pub use memory::Memory;
pub use remains::Remains;
pub use thief::{Steal, Thief};
