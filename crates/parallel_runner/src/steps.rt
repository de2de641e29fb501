// The steps of a hand's turn.
ghost use Rattle.std.specs.Prelude.{◌≡◌, ◌≤◌, ◌⊎◌, [], ◌∷◌, ◌++◌, length, reverse, IfOk, IfErr, OnOk, OnErr, IfSome, IfNone, None, true, false};
ghost use Rattle.std.specs.Arc.{arc_value};
ghost use Rattle.serial_meaning.specs.Answer.{IsCut};
ghost use Rattle.strand_meaning.specs.Cuts.{IsByFaultOf};
ghost use Rattle.strand_machine.specs.Links.{task_give, tag};
ghost use Rattle.strand_machine.specs.Tasks.{has_outcome};
ghost use Rattle.strand_machine.specs.declared.stop.Stop.TheVariants as stop;
ghost use Rattle.steal_deck.specs.Ends.{FindsNone};
ghost use Rattle.parallel_runner.specs.Faults.{TellsEnd};
ghost use Rattle.parallel_runner.specs.Hands.{view_of, IsPut, IsUnended, RunsOnward, TurnAnswers, HasPut, PutsEndOf, AdvancesCurrent, IsNewest, FindsNoTask, LooksAt, Looks, LooksNewest, LooksOldest, AllMiss, FirstSteals, StealsOr, Seeks, IsTurn, IsLate, KeepsLate};

use crate::answered::Answered;
use crate::entry::{Entry, with_known};
use crate::faults::{Check, Faults, Told};
use crate::gate::Gate;
use crate::hand::{Looked, Turn};
use crate::hand_state::HandState;
use crate::memory::Memory;
use crate::overflow::Overflow;
use crate::stalled::Stalled;
use crate::unended::{Unended, run_to_stop, switch_to_child, wait};
use contract_views::Items;
use meet_block::Give;
use serial_meaning::{Answer, Fault, Keep, Known, Outcome};
use std::alloc::Global;
use std::collections::VecDeque;
use std::sync::Arc;
use steal_deck::{Deck, Steal, Thief};
use strand_machine::{Paused, Resumed, Task, share_origin};

// The rest of a task that began a child goes after all others.
#[inline(always)]
pub(crate) fn put_rest<K: Keep>(
    deck: &mut Deck<Entry<K>>,
    overflow: &mut Overflow<K>,
    rest: Entry<K>,
) -> Result<(), Memory>
    ensures ok { OnOk result (IsPut rest overflow.old deck.old overflow.new deck.new) }
    ensures late { IsLate overflow.old deck.old → IsLate overflow.new deck.new }
{
    if !overflow.is_empty() {
        return overflow.push(rest);
    }
    if let Err(refused) = deck.push(rest) {
        overflow.begin(refused);
    }
    Ok(())
}

// Puts all of these tasks after all others, the last of them first. So the first of them is popped before the others.
pub(crate) fn put_all<K: Keep>(
    deck: &mut Deck<Entry<K>>,
    overflow: &mut Overflow<K>,
    tasks: Vec<Task<K>>,
) -> Result<(), Memory>
    requires pushed { deck.old.pushed ≡ [] }
    requires overflow { overflow.old ≡ [] }
    ensures all { OnOk result (deck.new.pushed ++ overflow.new ≡ reverse tasks.items) }
    ensures late { IsLate overflow.new deck.new }
    ensures deck { OnOk result (deck.new ≡ record deck.old { pushed = deck.new.pushed }) }
{
    let mut left = tasks;
    while let Some(task) = left.pop() {
        put_rest(deck, overflow, Entry::new(task))?;
    }
    Ok(())
}

// The task goes to the end of the stalled tasks.
#[inline(always)]
pub(crate) fn stall<K: Keep>(
    stalled: &mut VecDeque<Stalled<K>>,
    entry: Entry<K>,
) -> Result<(), Memory>
    requires { entry.task.waiting ≡ true }
    ensures { OnOk result (stalled.new.items ≡ stalled.old.items ++ entry ∷ []) }
{
    stalled.push_back(Stalled { entry })?;
    Ok(())
}

// Puts the answer of a task that has ended or was cut.
#[inline(never)]
fn put_answer<K: Keep>(
    answered: &mut Answered<Answer<K>>,
    answer: Answer<K>,
    give: Give<Answer<K>>,
) -> Turn<K>
    requires { give.tag ≡ tag answer.plan answer.origin }
    ensures turn { TurnAnswers give result }
    ensures put { answered.new ≡ answered.old ++ answer ∷ [] }
{
    let is_roots = answer.plan.is_main_origin(&answer.origin);
    let arrived = answered.put(answer, give);
    if is_roots {
        Turn::Ended(arrived)
    } else {
        Turn::Answered(arrived)
    }
}

// Tells the hands of the fault by which a task ended, if it did.
#[inline(always)]
fn publish_fault<K: Keep>(
    alloc: Global,
    faults: &mut Faults,
    answer: &Answer<K>,
) -> Result<Option<Told>, Memory>
    requires { IsByFaultOf answer.now.plan answer.now.outcome }
    ensures { IfOk result (TellsEnd answer.now.plan answer.now.outcome faults.new) }
{
    let Outcome::Fault(fault) = &answer.outcome else {
        return Ok(None);
    };
    Ok(Some(faults.publish(alloc, &answer.plan, fault)?))
}

// Puts the answer of a task that has ended or took a cut for an answer, whatever memory is left, and tells the gate.
#[tactic(auto, using(crate::proofs::Stopping::gives_its_own, crate::proofs::Stopping::answers_own, crate::proofs::Stopping::has_put))]
#[inline(always)]
fn end<G: Gate, K: Keep>(
    state: &mut HandState<K>,
    task: Task<K>,
    alloc: Global,
    gate: &G,
) -> Result<Turn<K>, Memory>
    requires { has_outcome task.cut ≡ true }
    ensures turn { IfOk result (TurnAnswers (task_give task.task.plan task.task.origin task.joins)) }
    ensures put { HasPut K task state.old.answered state.new.answered }
    ensures state { view_of state.new ≡ record (view_of state.old) { answered = state.new.answered } }
{
    let (answer, give) = task.into_answer(&mut state.pool);
    // Without memory for it the others don't hear of the fault.
    let _ = publish_fault(alloc, &mut state.faults, &answer);
    if !gate.hears_ends() {
        return Ok(put_answer(&mut state.answered, answer, give));
    }
    let origin = share_origin(alloc, &answer.origin);
    let turn = put_answer(&mut state.answered, answer, give);
    gate.leave(&origin?);
    Ok(turn)
}

// Runs this task, which was the current one, to its next stop. Where it comes to its end its answer is put, whatever memory is left.
#[tactic(auto, using(crate::proofs::Stopping::put_on_err))]
fn advance<G: Gate, K: Keep>(
    state: &mut HandState<K>,
    task: Task<K>,
    known: Option<Arc<Known>>,
    alloc: Global,
    gate: &G,
) -> Result<Result<Turn<K>, Memory>, Unended<Task<K>>>
    requires none { state.old.current ≡ None }
    requires known { IfSome known (λ k. (arc_value k).plan ≡ task.task.plan) }
    ensures ok { IfOk result (λ kept. IfOk kept (λ turn. AdvancesCurrent task (view_of state.old) turn (view_of state.new))) }
    ensures put { IfOk result (λ kept. OnErr kept (HasPut K task state.old.answered state.new.answered)) }
    ensures without { IfOk result (λ kept. OnErr kept (state.new.current ≡ None)) }
    ensures unended { IfErr result (λ unended. IsUnended task unended) }
    ensures unput { OnErr result (state.new.answered ≡ state.old.answered) }
    ensures err { OnErr result (state.new.current ≡ None) }
    ensures late { KeepsLate (view_of state.old) (view_of state.new) }
{
    if task.has_outcome() {
        return Ok(end(state, task, alloc, gate));
    }
    let paused = run_to_stop(task, alloc, &mut state.pool)?;
    match paused {
        Paused::Spawn { child, rest } => {
            switch_to_child(state, child, rest, known)?;
            Ok(Ok(Turn::Ran))
        }
        Paused::Wait { rest } => {
            wait(&mut state.stalled, rest, known)?;
            Ok(Ok(Turn::Ran))
        }
        Paused::Ended { rest } => Ok(end(state, rest, alloc, gate)),
    }
}

// Cuts this task, which was the current one and wasn't advanced yet.
fn cut<K: Keep>(state: &mut HandState<K>, task: Task<K>, by: Fault) -> Turn<K>
    requires fresh { task.task.advanced ≡ false }
    requires stands { IsCut task.task.plan task.task.origin by }
    requires current { state.old.current ≡ None }
    ensures turn { AdvancesCurrent task (view_of state.old) result (view_of state.new) }
    ensures late { KeepsLate (view_of state.old) (view_of state.new) }
{
    let (answer, give) = task.cut(by);
    put_answer(&mut state.answered, answer, give)
}

// Cuts this task, which was the current one, or runs it to its next stop.
fn run<G: Gate, K: Keep>(
    state: &mut HandState<K>,
    entry: Entry<K>,
    alloc: Global,
    gate: &G,
) -> Result<Result<Turn<K>, Memory>, Unended<Task<K>>>
    requires { state.old.current ≡ None }
    ensures ok { IfOk result (λ kept. IfOk kept (λ turn. AdvancesCurrent entry (view_of state.old) turn (view_of state.new))) }
    ensures put { IfOk result (λ kept. OnErr kept (HasPut K entry state.old.answered state.new.answered)) }
    ensures without { IfOk result (λ kept. OnErr kept (state.new.current ≡ None)) }
    ensures unended { IfErr result (λ unended. IsUnended entry unended) }
    ensures unput { OnErr result (state.new.answered ≡ state.old.answered) }
    ensures err { OnErr result (state.new.current ≡ None) }
    ensures late { KeepsLate (view_of state.old) (view_of state.new) }
{
    if entry.task.is_fresh() {
        if let Ok(Check::Cuts(by)) = state.faults.cut(&entry) {
            let Entry { task, known: _ } = entry;
            return Ok(Ok(cut(state, task, by)));
        }
        gate.enter(entry.task.origin());
    }
    let Entry { task, known } = state.faults.tell(entry);
    advance(state, task, known, alloc, gate)
}

// The newest of a hand's tasks that are ready: of its private list, or else of its deque.
fn newest_ready<K: Keep>(deck: &mut Deck<Entry<K>>, overflow: &mut Overflow<K>) -> Option<Entry<K>>
    ensures some { IfSome result (λ task. IsNewest task overflow.old deck.old overflow.new deck.new) }
    ensures none { IfNone result ((overflow.old ≡ []) × (overflow.new ≡ []) × FindsNone deck.old deck.new) }
    ensures late { IsLate overflow.old deck.old → IsLate overflow.new deck.new }
{
    if overflow.is_empty() {
        deck.pop()
    } else {
        overflow.pop()
    }
}

// Pops the newest of the hand's own tasks.
#[inline(always)]
fn pop<K: Keep>(state: &mut HandState<K>) -> Option<Turn<K>>
    requires { state.old.current ≡ None }
    ensures some { IfSome result (λ turn. Seeks (view_of state.old) turn (view_of state.new)) }
    ensures none { IfNone result (FindsNoTask (view_of state.old) (view_of state.new) × (view_of state.new ≡ record (view_of state.old) { deck = state.new.deck })) }
    ensures late { KeepsLate (view_of state.old) (view_of state.new) }
{
    state.current = newest_ready(&mut state.deck, &mut state.overflow);
    match &state.current {
        Some(_) => Some(Turn::Popped),
        None => None,
    }
}

// The room for answers, emptied. It is left without one.
#[inline(always)]
fn empty_room<K: Keep>(alloc: Global, kept: &mut Option<Items<Answer<K>>>) -> Items<Answer<K>>
    ensures { result ≡ [] }
{
    let Some(room) = kept.take() else {
        return Items(Vec::new(alloc));
    };
    let mut room = room;
    if !room.0.is_empty() {
        room.0.clear();
    }
    room
}

// Resumes a task that was stalled, where all of its children have answered. Else it goes to the end of the stalled tasks.
fn resume<K: Keep>(
    state: &mut HandState<K>,
    entry: Entry<K>,
    alloc: Global,
) -> Result<Looked, Memory>
    requires current { state.old.current ≡ None }
    requires waits { entry.task.waiting ≡ true }
    ensures ok { IfOk result (λ found. LooksAt entry (view_of state.old) found (view_of state.new)) }
    ensures err { OnErr result (state.new.current ≡ None) }
    ensures answered { state.new.answered ≡ state.old.answered }
    ensures late { KeepsLate (view_of state.old) (view_of state.new) }
{
    let Entry { task, known } = entry;
    let room = empty_room(alloc, &mut state.answers);
    let (resumed, room) = task.resume_in(alloc, room, &mut state.pool)?;
    state.answers = Some(room);
    match resumed {
        Resumed::On(task) => {
            state.current = Some(with_known(task, known));
            Ok(Looked::Resumes)
        }
        Resumed::NotYet(task) => {
            stall(&mut state.stalled, with_known(task, known))?;
            Ok(Looked::Waits)
        }
    }
}

// Looks at the task at the front of the stalled tasks.
#[tactic(auto, using(crate::proofs::Looking::looks))]
fn look<K: Keep>(state: &mut HandState<K>, alloc: Global) -> Result<Looked, Memory>
    requires { state.old.current ≡ None }
    ensures ok { IfOk result (λ found. Looks (view_of state.old) found (view_of state.new)) }
    ensures err { OnErr result (state.new.current ≡ None) }
    ensures answered { state.new.answered ≡ state.old.answered }
    ensures late { KeepsLate (view_of state.old) (view_of state.new) }
{
    let Some(stalled) = state.stalled.pop_front() else {
        return Ok(Looked::Nothing);
    };
    let Stalled { entry } = stalled;
    resume(state, entry, alloc)
}

// Steals from each once, up to the first task.
fn steal<K: Keep>(thieves: &mut [Thief<Entry<K>>]) -> Option<Entry<K>>
    ensures some { IfSome result (λ task. FirstSteals thieves.old task thieves.new) }
    ensures none { IfNone result (AllMiss thieves.old thieves.new) }
{
    for thief in thieves.iter_mut() {
        if let Steal::Took(task) = thief.steal() {
            return Some(task);
        }
    }
    None
}

// A task of another hand gets a handle of its plan and a path for itself and its later children, so that not all hands write the same counts at
// each spawn. Where there is no memory for that, it keeps those that it has.
fn with_own_handle<K: Keep>(alloc: Global, entry: Entry<K>) -> Entry<K>
    ensures { result ≡ entry }
{
    let Entry { mut task, known } = entry;
    if let Ok(plan) = task.plan().again(alloc) {
        task.set_plan(plan);
    }
    task.unshare_path(alloc);
    with_known(task, known)
}

// Steals a task of another hand. Where there is none the turn was this.
fn steal_or<K: Keep>(state: &mut HandState<K>, alloc: Global, otherwise: Turn<K>) -> Turn<K>
    requires { state.old.current ≡ None }
    ensures took { StealsOr otherwise (view_of state.old) result (view_of state.new) }
    ensures answered { state.new.answered ≡ state.old.answered }
    ensures late { KeepsLate (view_of state.old) (view_of state.new) }
{
    match steal(state.thieves.as_mut_slice()) {
        Some(task) => {
            state.current = Some(with_own_handle(alloc, task));
            Turn::Stole
        }
        None => otherwise,
    }
}

// A turn of a hand that has no current task.
#[inline(always)]
fn seek<K: Keep>(state: &mut HandState<K>, alloc: Global) -> Result<Turn<K>, Memory>
    requires { state.old.current ≡ None }
    ensures ok { IfOk result (λ turn. Seeks (view_of state.old) turn (view_of state.new)) }
    ensures err { OnErr result (state.new.current ≡ None) }
    ensures answered { state.new.answered ≡ state.old.answered }
    ensures late { KeepsLate (view_of state.old) (view_of state.new) }
{
    if let Some(turn) = pop(state) {
        return Ok(turn);
    }
    match look(state, alloc)? {
        Looked::Resumes => Ok(Turn::Resumed),
        Looked::Waits => Ok(steal_or(state, alloc, Turn::Waiting)),
        Looked::Nothing => Ok(steal_or(state, alloc, Turn::Idle)),
    }
}

// A turn of a hand (`Hand::turn`).
#[tactic(auto, using(crate::proofs::Stopping::puts_its_end, crate::proofs::Stopping::puts_none))]
pub(crate) fn turn<G: Gate, K: Keep>(
    state: &mut HandState<K>,
    alloc: Global,
    gate: &G,
) -> Result<Turn<K>, Memory>
    ensures ok { IfOk result (λ turn. IsTurn (view_of state.old) turn (view_of state.new)) }
    ensures err { OnErr result (state.new.current ≡ None) }
    ensures put { OnErr result (PutsEndOf K state.old.current state.old.answered state.new.answered) }
    ensures late { KeepsLate (view_of state.old) (view_of state.new) }
{
    match state.current.take() {
        Some(entry) => match run(state, entry, alloc, gate) {
            Ok(kept) => kept,
            Err(unended) => Err(unended.memory()),
        },
        None => seek(state, alloc),
    }
}

// Looks at the task at the end of the stalled tasks (`Hand::look_newest`).
#[tactic(auto, using(crate::proofs::Looking::newest_looks))]
pub(crate) fn look_newest<K: Keep>(
    state: &mut HandState<K>,
    alloc: Global,
) -> Result<Looked, Memory>
    ensures ok { IfOk result (λ looked. LooksNewest (view_of state.old) looked (view_of state.new)) }
    ensures err { OnErr result (state.new.current ≡ None) }
    ensures answered { state.new.answered ≡ state.old.answered }
    ensures late { KeepsLate (view_of state.old) (view_of state.new) }
{
    if state.current.is_some() {
        return Ok(Looked::Nothing);
    }
    let Some(stalled) = state.stalled.pop_back() else {
        return Ok(Looked::Nothing);
    };
    let Stalled { entry } = stalled;
    resume(state, entry, alloc)
}

// Looks at the task at the front of the stalled tasks (`Hand::look_oldest`).
#[tactic(auto, using(crate::proofs::Looking::oldest_looks))]
pub(crate) fn look_oldest<K: Keep>(
    state: &mut HandState<K>,
    alloc: Global,
) -> Result<Looked, Memory>
    ensures ok { IfOk result (λ looked. LooksOldest (view_of state.old) looked (view_of state.new)) }
    ensures err { OnErr result (state.new.current ≡ None) }
    ensures answered { state.new.answered ≡ state.old.answered }
    ensures late { KeepsLate (view_of state.old) (view_of state.new) }
{
    if state.current.is_some() {
        return Ok(Looked::Nothing);
    }
    look(state, alloc)
}
