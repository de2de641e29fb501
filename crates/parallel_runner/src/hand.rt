use crate::answered::Answered;
use crate::entry::Entry;
use crate::faults::Faults;
use crate::gate::Gate;
use crate::hand_state::HandState;
use crate::memory::Memory;
use crate::overflow::Overflow;
use crate::steps;
use contract_views::Items;
use crossbeam_utils::CachePadded;
use meet_block::Arrived;
use serial_meaning::{All, Answer, Keep};
use std::alloc::Global;
use std::collections::VecDeque;
use std::marker::Model;
use steal_deck::{Deck, Thief};
use strand_machine::{Task, TaskPool};

/// What a turn of a hand did.
#[derive(Drop)]
pub enum Turn<K: Keep = All> {
    /// The current task ran to its next stop, and hasn't ended.
    Ran,
    /// The current task ended, and its answer was put. It wasn't a root's.
    Answered(Arrived<Answer<K>>),
    /// A root's task ended, and its answer was put. With the last root the run is over.
    Ended(Arrived<Answer<K>>),
    /// The newest of the hand's own ready tasks became current.
    Popped,
    /// The task at the front of the stalled tasks became current, since all its children have answered.
    Resumed,
    /// The task at the front of the stalled tasks still waits, and nothing was stolen.
    Waiting,
    /// A task of another hand was stolen.
    Stole,
    /// The hand has no task at all, and nothing was stolen.
    Idle,
}

/// What a look at a stalled task of a hand found.
#[derive(Drop)]
pub enum Looked {
    /// The hand has a current task, or none that is stalled.
    Nothing,
    /// The task still waits.
    Waits,
    /// All of its children have answered. It is the current one.
    Resumes,
}

/// The hands of a crew, by number from 0.
#[derive(Drop)]
pub struct Hands<K: Keep = All>(pub Items<Hand<K>>);

/// One worker of a crew, with its tasks. It belongs to one thread at a time, and has cache lines of its own.
///
/// A clause sees it as a `HandView` (`specs/Hands.antt`).
#[derive(Drop)]
pub struct Hand<K: Keep = All> {
    pub(crate) state: CachePadded<HandState<K>>,
}

impl<K: Keep> Model for Hand<K> {
    ghost use Rattle.std.specs.Coded.{codes};
    ghost use Rattle.script_grammar.specs.contracts.tree.Stmt as statement_type;
    ghost use Rattle.serial_meaning.specs.contracts.plan.Plan as plan_type;
    ghost use Rattle.crossbeam_utils.specs.Padded.{padded_value};
    ghost use Rattle.parallel_runner.specs.Hands.{HandView, view_of, IsLate};

    ghost Value = { HandView };

    ghost coded = { Prim.hlevel (codes, statement_type.the_row.coded, plan_type.the_row.coded) };

    ghost view = { λ h. view_of (padded_value h.state) };

    ghost invariant = { λ h. let v = view_of (padded_value h.state) in IsLate v.overflow v.deck };
}

impl<K: Keep> Hand<K> {
    ghost use Rattle.std.specs.Prelude.{◌≡◌, [], IfOk, OnOk, OnErr, Some, None, length};
    ghost use Rattle.steal_deck.specs.Ends.{new_thief};
    ghost use Rattle.parallel_runner.specs.Crews.{new_hand, with_thief, IsDealt};
    ghost use Rattle.parallel_runner.specs.Hands.{IsTurn, LooksNewest, LooksOldest, IsLate, PutsEndOf};
    ghost use Rattle.parallel_runner.specs.Ties.{IsTied, IsTiedLook, IsTiedLookFirst};

    // A hand without a task. It has no thieves yet.
    pub(crate) fn new(alloc: Global, faults: Faults) -> Result<Hand<K>, Memory>
        ensures { IfOk result (λ hand. hand ≡ new_hand hand.deck.deck) }
    {
        let Ok(deck) = Deck::new(alloc) else {
            drop(faults);
            return Err(Memory);
        };
        Ok(Hand {
            state: CachePadded::new(HandState {
                current: None,
                overflow: Overflow::none(alloc),
                deck,
                stalled: VecDeque::new(alloc),
                thieves: Vec::new(alloc),
                answers: None,
                faults,
                answered: Answered::none(),
                pool: TaskPool::new(alloc),
            }),
        })
    }

    // A thief of this hand's deck.
    pub(crate) fn thief(&mut self) -> Result<Thief<Entry<K>>, Memory>
        ensures thief { IfOk result (λ thief. thief ≡ new_thief self.old.deck.deck) }
        ensures made { OnOk result (self.new ≡ with_thief self.old) }
    {
        self.state.deck.thief().map_err(|_| Memory)
    }

    // These are its thieves.
    pub(crate) fn set_thieves(&mut self, thieves: Vec<Thief<Entry<K>>>)
        ensures { self.new ≡ record self.old { thieves = thieves.items } }
    {
        self.state.thieves = thieves;
    }

    /// How many of its tasks wait for children.
    pub fn stalled_count(&self) -> usize
        ensures { result ≡ length self.now.stalled }
    {
        self.state.stalled.len()
    }

    /// Whether the last cancellation check cancelled.
    pub fn cuts(&self) -> bool {
        self.state.faults.cuts()
    }

    // The task is its current one.
    pub(crate) fn set_current(&mut self, task: Task<K>)
        ensures { self.new ≡ record self.old { current = Some task } }
    {
        self.state.current = Some(Entry::new(task));
    }

    // These are its tasks, to be popped in this order. On `Memory` some of them are dropped, and their answers never come.
    pub(crate) fn take_on(&mut self, tasks: Vec<Task<K>>) -> Result<(), Memory>
        requires overflow { self.old.overflow ≡ [] }
        requires pushed { self.old.deck.pushed ≡ [] }
        ensures { OnOk result (IsDealt tasks.items self.old self.new) }
    {
        let state: &mut HandState<K> = &mut self.state;
        steps::put_all(&mut state.deck, &mut state.overflow, tasks)
    }

    /// Does the first of these that applies.
    ///
    /// 1. Cuts or advances the current task. A child that it begins becomes current, and the rest goes to the back of the hand's deck,
    ///    or to its private list where that isn't empty or the deck refuses it. A task that waits goes to the end of the stalled tasks. An answer is
    ///    put. A task may be cut that wasn't advanced yet, where a hand of the crew met a fault of the task's plan that stands before all
    ///    that the task could do.
    /// 2. Pops the last task of the private list, or the newest of the deck.
    /// 3. Looks at the task at the front of the stalled tasks. It becomes current where all of its children have answered, and else goes to the
    ///    end of the stalled tasks, and the turn goes on.
    /// 4. Steals from each other hand once, from the next number upwards and round, up to the first task.
    ///
    /// Each turn is an event of the machine of scheduling on this hand's own tasks, but where it cuts a task, or one that took a cut goes on
    /// (docs/SCHEDULING.md).
    ///
    /// No turn waits for another thread. On `Memory` the tasks in use are dropped, and their answers never come, but an answer that was there
    /// was put: the run has failed.
    #[tactic(auto, using(crate::proofs::Tying::tied))]
    pub fn turn<G: Gate>(&mut self, alloc: Global, gate: &G) -> Result<Turn<K>, Memory>
        ensures ok { IfOk result (λ turn. IsTurn self.old turn self.new) }
        ensures tied { IfOk result (λ turn. IsTied self.old turn self.new) }
        ensures late { IsLate self.new.overflow self.new.deck }
        ensures err { OnErr result (self.new.current ≡ None) }
        ensures put { OnErr result (PutsEndOf K self.old.current self.old.answered self.new.answered) }
    {
        let state: &mut HandState<K> = &mut self.state;
        steps::turn(state, alloc, gate)
    }

    /// Looks once at the task at the end of the stalled tasks, where the hand has no current one. It becomes current where all of its children have
    /// answered, and else stays there.
    ///
    /// Optional; not part of a turn. So after a turn that left a task waiting or answered one, the newest stalled task
    /// continues before a task of the deck is popped. It doesn't wait for another thread. On `Memory` the task is
    /// dropped, and the run has failed.
    #[tactic(auto, using(crate::proofs::Tying::tied_look))]
    pub fn look_newest(&mut self, alloc: Global) -> Result<Looked, Memory>
        ensures ok { IfOk result (λ looked. LooksNewest self.old looked self.new) }
        ensures tied { IfOk result (λ looked. IsTiedLook self.old looked self.new) }
        ensures err { OnErr result (self.new.current ≡ None) }
        ensures answered { self.new.answered ≡ self.old.answered }
    {
        let state: &mut HandState<K> = &mut self.state;
        steps::look_newest(state, alloc)
    }
    /// Looks once at the task at the front of the stalled tasks, where the hand has no current one. It becomes current where all of its
    /// children have answered, and else goes to their end. So as many looks as tasks are stalled look at each of them, and leave their order.
    ///
    /// Optional; not part of a turn. It doesn't wait for another thread. On `Memory` the task is dropped, and the run has failed.
    #[tactic(auto, using(crate::proofs::Tying::tied_oldest))]
    pub fn look_oldest(&mut self, alloc: Global) -> Result<Looked, Memory>
        ensures ok { IfOk result (λ looked. LooksOldest self.old looked self.new) }
        ensures tied { IfOk result (λ looked. IsTiedLookFirst self.old looked self.new) }
        ensures err { OnErr result (self.new.current ≡ None) }
        ensures answered { self.new.answered ≡ self.old.answered }
    {
        let state: &mut HandState<K> = &mut self.state;
        steps::look_oldest(state, alloc)
    }
}
