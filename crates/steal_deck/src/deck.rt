ghost use Rattle.std.specs.Prelude.{◌≡◌, ◌+◌, ◌≤◌, ◌↔◌, ◌++◌, Err, IfOk, IfErr, IsOk, OnOk, OnErr, IfSome, IfNone, IsNone, length};
ghost use Rattle.steal_deck.specs.Accounts.{AreEntriesOf, EachOnce, left_of};
ghost use Rattle.steal_deck.specs.Ends.{new_owner, new_thief, known_taken, AllCameBack, Pushes, Pops, FindsNone};

use crate::memory::Memory;
use crate::remains::Remains;
use crate::rule::{Account, OneHistory, Party, PopStep, PushStep, ThiefStep};
use crate::thief::Thief;
use crossbeam_deque::Worker;
use std::alloc::Global;
use std::marker::Model;

/// A task that a deck refused. Only a refused push makes one.
#[derive(Drop)]
pub struct Refused<T> {
    task: T,
}

impl<T> Model for Refused<T> {
    ghost Value = { T };

    ghost view = { λ r. r.task };
}

impl<T> Refused<T> {
    /// The task.
    #[inline(always)]
    pub fn into_task(self) -> T
        ensures { result ≡ self }
    {
        let Refused { task } = self;
        task
    }

    // What the deque refused. It is generic, so that there is no other task.
    #[inline(always)]
    fn of(pushed: Result<(), T>) -> Result<(), Refused<T>>
        ensures err { IfErr result (λ refused. pushed ≡ Err refused) }
        ensures ok { OnOk result (IsOk pushed) }
    {
        match pushed {
            Ok(()) => Ok(()),
            Err(task) => Err(Refused { task }),
        }
    }
}

/// The owner's end of a deck.
///
/// Contracts see what the owner knows: which deck it is, what was `pushed`, the entries that the owner has `taken`, those taken by
/// thieves that came `back`, how many thieves were `made` and `came` back, and how many pops returned `None` (`nones`). It is
/// `Send` where `T` is.
#[derive(Drop)]
pub struct Deck<T> {
    worker: Worker<T, Global, Party<T>, OneHistory>,
    nones: u64,
}

impl<T> Model for Deck<T> {
    ghost use Rattle.std.specs.Prelude.{◌≡◌, ◌≤◌, length, false};
    ghost use Rattle.crossbeam_deque.specs.Handles.{worker_capacity, worker_index, worker_view, worker_port, worker_flavor, worker_deque};
    ghost use Rattle.steal_deck.specs.Ends.{OwnerEnd, owner_end};

    ghost Value = { OwnerEnd T };

    ghost view = { λ d. owner_end (worker_deque d.worker) (worker_view d.worker) d.nones };

    // The owner's pass is the first one, of a LIFO deque. There is room for 64 pushes, and no index exceeds the pushes.
    ghost invariant = { λ d.
        (worker_port d.worker ≡ 0) × (worker_flavor d.worker ≡ 1) × ((worker_view d.worker).is_thief ≡ false)
        × (64 ≤ worker_capacity d.worker) × (worker_index d.worker ≤ length (worker_view d.worker).pushed) };
}

impl<T> Deck<T> {
    /// A new deck, with room for 64 tasks. It grows as more are pushed.
    pub fn new(alloc: Global) -> Result<Deck<T>, Memory>
    where
        T: Drop,
        ensures { IfOk result (λ deck. deck ≡ new_owner deck.deck) }
    {
        let worker = Worker::lifo_as(alloc, 64)?;
        Ok(Deck { worker, nones: 0 })
    }

    /// A thief of this deck, which has taken nothing. On `Memory` no thief is made, and the deck is unchanged.
    pub fn thief(&mut self) -> Result<Thief<T>, Memory>
        ensures thief { IfOk result (λ thief. thief ≡ new_thief self.old.deck) }
        ensures made { OnOk result (self.new ≡ record self.old { made = self.old.made + 1 }) }
        ensures err { OnErr result (self.new ≡ self.old) }
    {
        let stealer = self.worker.stealer()?;
        let pass = self.worker.another::<ThiefStep>();
        Ok(Thief {
            stealer,
            pass,
            misses: 0,
        })
    }

    /// Takes a thief of this deck back: the owner then knows what the thief took. After the last thief, `close` returns the tasks
    /// that nobody took (the example at the crate's head).
    pub fn rejoin(&mut self, thief: Thief<T>)
    where
        T: Drop,
        requires { thief.deck ≡ self.old.deck }
        ensures { self.new ≡ record self.old { back = self.old.back ++ thief.taken; came = self.old.came + 1 } }
    {
        let Thief {
            stealer,
            pass,
            misses: _,
        } = thief;
        drop(stealer);
        self.worker.absorb::<ThiefStep>(pass);
    }

    /// Pushes a task, which becomes the newest entry.
    ///
    /// `Err` returns the task, with the deck unchanged. That happens where the deck can't grow, because memory or its own limits
    /// are reached, and never among the first 64 pushes. The caller keeps the task, and goes on.
    pub fn push(&mut self, task: T) -> Result<(), Refused<T>>
        ensures kept { self.new ≡ record self.old { pushed = self.new.pushed } }
        ensures ok { OnOk result (Pushes self.old task self.new) }
        ensures err { IfErr result (λ refused. refused ≡ task) }
        ensures unchanged { OnErr result (self.new ≡ self.old) }
        ensures after_64_pushes { OnErr result (64 ≤ length self.old.pushed) }
    {
        Refused::of(self.worker.push_as::<PushStep>(task))
    }

    /// Takes the newest entry left.
    ///
    /// `None` where no entry was left at one moment of the call. Where all thieves came back that is so exactly where the owner
    /// knows each push to be taken. Each `None` is counted, up to the count's greatest value.
    pub fn pop(&mut self) -> Option<T>
        ensures kept { self.new ≡ record self.old { taken = self.new.taken; nones = self.new.nones } }
        ensures some { IfSome result (λ task. Pops self.old task self.new) }
        ensures none { IfNone result (FindsNone self.old self.new) }
        ensures all_taken { AllCameBack self.old → (IsNone result ↔ EachOnce (length self.old.pushed) (known_taken self.old)) }
    {
        let task = self.worker.pop_as::<PopStep>();
        if task.is_none() {
            self.nones = self.nones.saturating_add(1);
        }
        task
    }

    /// Ends the work on a deck whose thieves all came back, so that no steal can follow, and returns the entries left.
    ///
    /// Each number pushed was either taken once, by the owner or a thief, or is left (the example at the crate's head).
    pub fn close(mut self) -> Remains<T>
        requires { AllCameBack self }
        ensures left { result ≡ left_of self.pushed (known_taken self) }
        ensures once { EachOnce (length self.pushed) (result ++ known_taken self) }
        ensures tasks { AreEntriesOf self.pushed (result ++ known_taken self) }
    {
        // The owner's lists alone don't show that no number is in them twice: the deck does.
        self.worker.len_as::<Account>();
        Remains { deck: self }
    }
}
