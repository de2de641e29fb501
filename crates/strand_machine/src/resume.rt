// How a task continues after a wait. There are two sources of answers: the task's own join (`resume`, `resume_in`), and a runner that keeps
// the answers itself (`resume_with`, `resume_by`). The second call for each gives back the list of the answers, to be used again.
ghost use Rattle.std.specs.Prelude.{◌≡◌, ◌+◌, ◌-◌, [], ◌∷◌, true, false, length, drop, IfNone, IfOk, IfSome, OnOk};
ghost use Rattle.strand_meaning.specs.Task.{resumed, resumed_remaining};
ghost use Rattle.strand_machine.specs.Links.{tags, origins, AwaitsCount};
ghost use Rattle.strand_machine.specs.Merge.{BecomesStage, BecomesRemaining, EndsShort, HasTakenAnswers, IsShort, KeepsRest, TakesAnswers, RemainingFindsAll, IsRemainingOfPlan, end_of, merge_of};
ghost use Rattle.strand_machine.specs.AwaitedChildren.{awaited, awaited_children};
ghost use Rattle.strand_meaning.specs.Cuts.{AreAnswersOf};
ghost use Rattle.strand_machine.specs.InTurn.{in_turn};
ghost use Rattle.strand_machine.specs.Made.{resumed_as};
ghost use Rattle.strand_machine.specs.Stops.{IsResumed, IsResumedWith, answer_tags};
ghost use Rattle.strand_machine.specs.Tasks.{HoldsOfTask, IsSound, view_of, remaining_of};
ghost use Rattle.strand_machine.specs.declared.remaining.Stage.TheVariants as stage;

use crate::memory::Memory;
use crate::merge::{Merging, merge_answer};
use crate::parts::Parts;
use crate::remaining::{Remaining, Stage};
use crate::replace::{set, set_remaining};
use crate::stop::Resumed;
use crate::task::Task;
use crate::task_pool::TaskPool;
use crate::trace::AfterChild;
use contract_views::Items;
use meet_block::Look;
use serial_meaning::{Answer, Fault, Keep, Outcome, Value};
use std::alloc::Global;
use std::mem;
use strand_family::Links;
use strand_meaning::laws;
use strand_moves::Instance;

// Takes the answers of the last `awaited` children into this list.
fn take_answers<K: Keep>(
    links: &mut Links<K>,
    awaited: u64,
    room: Items<Answer<K>>,
    pool: &mut TaskPool<K>,
) -> Result<Items<Answer<K>>, Memory>
    requires ready { links.old.ready ≡ true }
    requires last { AwaitsCount links.old awaited }
    requires room { room ≡ [] }
    ensures tags { IfOk result (λ answers. answer_tags answers ≡ tags links.old.plan (drop (length links.old.children - awaited) links.old.children)) }
    ensures links { links.new ≡ record links.old { taken = links.new.taken } }
    ensures length { length links.new.taken ≡ length links.old.taken }
{
    let first = links.count() - awaited;
    let mut answers = room.0;
    for i in 0..awaited {
        answers.push(pool.joins.value_of(links.take(first + i)))?;
    }
    Ok(Items(answers))
}

// An instance at a sync continues, or ends by the least fault of the children for which it waited.
fn pass_sync(instance: Instance) -> Result<Stage, Memory>
    ensures { IfOk result (BecomesStage resumed (stage.AtSync instance)) }
{
    let fault = match instance.childs_fault() {
        Some(fault) => fault.share()?,
        None => return Ok(Stage::Running(instance)),
    };
    Ok(Stage::ChildFaulted(fault))
}

// A stage after its wait.
fn resume_stage(stage: Stage) -> Result<Stage, Memory>
    ensures { IfOk result (BecomesStage resumed stage) }
{
    match stage {
        Stage::AtSync(instance) => pass_sync(instance),
        Stage::AtLoop(instance) => Ok(Stage::Running(instance)),
        stage => Ok(stage),
    }
}

// What remains after a wait.
fn resume_remaining(remaining: &mut Remaining) -> Result<(), Memory>
    ensures { OnOk result (BecomesRemaining (resumed_remaining [] []) remaining.old remaining.new) }
{
    match remaining {
        Remaining::Splits(_) | Remaining::Ends(_) => Ok(()),
        Remaining::Runs(stage) => {
            let was = mem::replace(stage, Stage::Returned(Value::Int(0)));
            set(stage, resume_stage(was)?);
            Ok(())
        }
        Remaining::Finished(_, has_waited) => {
            *has_waited = true;
            Ok(())
        }
    }
}

// Takes the next item, in order, of a list of which this many were taken so. The last item comes to its place: then the last ones, in
// reverse, stand where the first ones were, and are taken from the end. So half of the items move once, and none is moved to reverse the list.
#[inline(always)]
fn take_next<T>(list: &mut Vec<T>, taken: usize) -> Option<T>
    ensures some { IfSome result (λ item. in_turn taken list.old.items ≡ item ∷ in_turn (taken + 1) list.new.items) }
    ensures fewer { IfSome result (λ _. length list.old.items ≡ length list.new.items + 1) }
    ensures none { IfNone result (list.old.items ≡ []) }
{
    let left = list.len().saturating_sub(taken);
    if left > 1 {
        return Some(list.swap_remove(taken));
    }
    list.pop()
}

// Merges the answers of all awaited children, in order. Their list comes back empty, with its capacity.
fn merge_all<K: Keep>(
    parts: &mut Parts<K>,
    merging: &mut Merging,
    alloc: Global,
    children: Vec<AfterChild<K>>,
    answers: Items<Answer<K>>,
    pool: &mut TaskPool<K>,
) -> Result<Items<Answer<K>>, Memory>
    requires many { length answers ≡ length children.items }
    requires unmerged { parts.old.state.trace.unmerged ≡ [] }
    requires of_plan { IsRemainingOfPlan parts.old.state.links.plan parts.old.remaining }
    requires found { RemainingFindsAll parts.old.state.links.plan children.items (remaining_of parts.old.state.links.plan parts.old.remaining) }
    ensures takes { OnOk result (TakesAnswers (awaited_children (origins (answer_tags answers)) children.items) answers (merge_of parts.old merging.old) (merge_of parts.new merging.new)) }
    ensures rest { OnOk result (KeepsRest parts.old parts.new) }
    ensures none { IfOk result (λ left. left ≡ []) }
{
    let mut after = children;
    let mut left = answers.0;
    let count = after.len();
    for taken in 0..count {
        let Some(part) = take_next(&mut after, taken) else {
            unreachable!()
        };
        let Some(answer) = take_next(&mut left, taken) else {
            unreachable!()
        };
        merge_answer(parts, merging, alloc, part, answer, pool)?;
    }
    pool.keep_children(after);
    Ok(Items(left))
}

// The outcome of a task that took a cut.
fn end_of(fault: Option<Fault>, by_cut: bool) -> Option<Outcome>
    ensures { result ≡ end_of fault by_cut }
{
    match fault {
        Some(by) if by_cut => Some(Outcome::Cut { by }),
        Some(fault) => Some(Outcome::Fault(fault)),
        None => None,
    }
}

// A task that took a cut ends by the first fault or cut.
fn cut_short<K: Keep>(parts: &mut Parts<K>, merging: &Merging)
    requires ends { EndsShort parts.old.state.links (merge_of parts.old merging.now) }
    requires unmerged { parts.old.state.trace.unmerged ≡ [] }
    ensures short { IsShort parts.old.state.links (merge_of parts.old merging.now) parts.old.state.advanced (view_of parts.new.state parts.new.remaining) }
    ensures holds { HoldsOfTask parts.new.state parts.new.remaining }
{
    let Some(outcome) = end_of(parts.state.trace.take_fault(), merging.by_cut) else {
        unreachable!()
    };
    parts.state.waiting = false;
    set_remaining(&mut parts.remaining, Remaining::Ends(outcome));
}

// A task that took answers, none of them a cut, continues.
fn end_wait<K: Keep>(parts: &mut Parts<K>) -> Result<(), Memory>
    ensures state { OnOk result (parts.new.state ≡ record parts.old.state { waiting = false }) }
    ensures remaining { OnOk result (BecomesRemaining (resumed_remaining [] []) parts.old.remaining parts.new.remaining) }
{
    parts.state.waiting = false;
    resume_remaining(&mut parts.remaining)
}

// Merges the children's answers into the task and ends its wait. Their list comes back empty.
pub(crate) fn resume_parts<K: Keep>(
    parts: &mut Parts<K>,
    alloc: Global,
    answers: Items<Answer<K>>,
    pool: &mut TaskPool<K>,
) -> Result<Items<Answer<K>>, Memory>
    requires sound { HasTakenAnswers parts.old.state parts.old.remaining }
    requires tags { answer_tags answers ≡ tags parts.old.state.links.plan (awaited parts.old.state.trace.unmerged) }
    ensures is_resumed { OnOk result (IsResumedWith answers (view_of parts.old.state parts.old.remaining) (view_of parts.new.state parts.new.remaining)) }
    ensures answers { OnOk result (AreAnswersOf parts.old.state.links.plan parts.old.state.trace.unmerged answers) }
    ensures none { IfOk result (λ left. left ≡ []) }
    ensures holds { OnOk result (HoldsOfTask parts.new.state parts.new.remaining) }
{
    laws::answers_keep_tasks();
    laws::answers_are_evaluations();
    laws::answers_end();
    // Read for the proof: the plan's table has the slot of each variable that its functions name.
    let _slots = parts.state.links.plan().slots();
    let room = pool.children(alloc);
    let after = parts.state.trace.take_children(room);
    let mut merging = Merging {
        cut: false,
        by_cut: false,
    };
    let left = merge_all(parts, &mut merging, alloc, after, answers, pool)?;
    if merging.cut {
        cut_short(parts, &merging);
        return Ok(left);
    }
    end_wait(parts)?;
    Ok(left)
}

// Looks once at the join. Returns whether all children have answered and the task took their answers, by way of this
// list, which comes back empty.
fn poll<K: Keep>(
    parts: &mut Parts<K>,
    alloc: Global,
    room: Items<Answer<K>>,
    pool: &mut TaskPool<K>,
) -> Result<(bool, Items<Answer<K>>), Memory>
    requires sound { IsSound parts.old.state parts.old.remaining }
    requires room { room ≡ [] }
    ensures resumed { IfOk result (λ looked. IsResumed (view_of parts.old.state parts.old.remaining) (resumed_as {K = K} looked.0 (view_of parts.new.state parts.new.remaining))) }
    ensures none { IfOk result (λ looked. looked.1 ≡ []) }
    ensures holds { OnOk result (HoldsOfTask parts.new.state parts.new.remaining) }
{
    match parts.state.links.look() {
        Look::NotYet(_) => Ok((false, room)),
        Look::Ready => {
            let awaited = parts.state.trace.awaited_count();
            let answers = take_answers(&mut parts.state.links, awaited, room, pool)?;
            let left = resume_parts(parts, alloc, answers, pool)?;
            Ok((true, left))
        }
    }
}

impl<K: Keep> Task<K> {
    /// Continues after a wait, where a look finds that all children have answered. Where one of the answers is a cut,
    /// the task ends by its next advance. On `Memory` the task is dropped.
    ///
    /// For resuming one task: `Resumed::NotYet(task)` is the task as it was, to be resumed again once a child has
    /// answered, and `Resumed::On(task)` is to be advanced. A hand, which resumes many, calls `resume_in`.
    pub fn resume(self, alloc: Global) -> Result<Resumed<K>, Memory>
        requires { self.task.waiting ≡ true }
        ensures { IfOk result (IsResumed self) }
    {
        let (resumed, left) = self.resume_in(
            alloc,
            Items(Vec::new(alloc)),
            &mut TaskPool::new(alloc),
        )?;
        drop(left);
        Ok(resumed)
    }

    /// The same, with a list for the answers that is used again: it comes back empty, with its capacity.
    pub fn resume_in(
        self,
        alloc: Global,
        room: Items<Answer<K>>,
        pool: &mut TaskPool<K>,
    ) -> Result<(Resumed<K>, Items<Answer<K>>), Memory>
        requires waits { self.task.waiting ≡ true }
        requires room { room ≡ [] }
        ensures resumed { IfOk result (λ resumed. IsResumed self resumed.0) }
        ensures none { IfOk result (λ resumed. resumed.1 ≡ []) }
    {
        let Task { mut parts } = self;
        let (ready, left) = poll(&mut parts, alloc, room, pool)?;
        if ready {
            return Ok((Resumed::On(Task { parts }), left));
        }
        Ok((Resumed::NotYet(Task { parts }), left))
    }

    /// Continues after a wait with these answers, those of the awaited children in order. Where one of them is a cut,
    /// the task ends by its next advance. On `Memory` the task and the answers are dropped.
    pub fn resume_with(self, alloc: Global, answers: Items<Answer<K>>) -> Result<Task<K>, Memory>
        requires waits { self.task.waiting ≡ true }
        requires tags { answer_tags answers ≡ tags self.task.plan (awaited self.task.trace.unmerged) }
        ensures { IfOk result (IsResumedWith answers self) }
    {
        let (task, left) = self.resume_by(alloc, answers, &mut TaskPool::new(alloc))?;
        drop(left);
        Ok(task)
    }

    /// The same, where the answers' list comes back empty, with its capacity.
    pub fn resume_by(
        self,
        alloc: Global,
        answers: Items<Answer<K>>,
        pool: &mut TaskPool<K>,
    ) -> Result<(Task<K>, Items<Answer<K>>), Memory>
        requires waits { self.task.waiting ≡ true }
        requires tags { answer_tags answers ≡ tags self.task.plan (awaited self.task.trace.unmerged) }
        ensures is_resumed { IfOk result (λ resumed. IsResumedWith answers self resumed.0) }
        ensures none { IfOk result (λ resumed. resumed.1 ≡ []) }
    {
        let Task { mut parts } = self;
        let left = resume_parts(&mut parts, alloc, answers, pool)?;
        Ok((Task { parts }, left))
    }
}
