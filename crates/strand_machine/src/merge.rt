// How children's answers are merged into a task.
ghost use Rattle.std.specs.Prelude.{◌≡◌, ◌∷◌, ◌++◌, ◌||◌, [], Ok, IfOk, OnOk};
ghost use Rattle.serial_meaning.specs.Eval.{first_value};
ghost use Rattle.serial_meaning.specs.Plan.{PlanView};
ghost use Rattle.strand_meaning.specs.Cuts.{or_ends};
ghost use Rattle.strand_meaning.specs.Found.{FindsAt, functions_in};
ghost use Rattle.strand_meaning.specs.Machine.{Spawned, Looped, Half};
ghost use Rattle.strand_meaning.specs.Trace.{AwaitedChild, merged_answer};
ghost use Rattle.strand_meaning.specs.Task.{takes, changed, frame_with_answer, more_values};
ghost use Rattle.strand_moves.specs.Machines.{IsInstance, machine_of, path_of};
ghost use Rattle.strand_machine.specs.Merge.{BecomesStage, BecomesRemaining, KeepsRest, StageFinds, IsStageOfPlan, TakesAnswers, RemainingFinds, IsRemainingOfPlan, end_of, result_of_outcome, merge_of, with_stage};
ghost use Rattle.strand_machine.specs.AwaitedChildren.{destination_of, awaited_child};
ghost use Rattle.strand_machine.specs.Stops.{is_cut};
ghost use Rattle.strand_machine.specs.Tasks.{stage_of, remaining_of};

use crate::destination::Destination;
use crate::memory::Memory;
use crate::parts::Parts;
use crate::remaining::{Remaining, Stage};
use crate::replace::set;
use crate::task_pool::TaskPool;
use crate::trace::{AfterChild, Trace};
use contract_views::Items;
use serial_meaning::{Answer, Fault, Keep, Out, Outcome, Plan, Value};
use std::alloc::Global;
use strand_moves::{Instance, InstancePool};
use strand_values::Target;

// What the answers merged into a task so far say.
#[derive(Drop)]
pub(crate) struct Merging {
    // Whether one of them is a cut.
    pub cut: bool,
    // Whether the fault in the trace is one by which a child was cut.
    pub by_cut: bool,
}

fn is_cut(outcome: &Outcome) -> bool
    ensures { result ≡ is_cut outcome.now }
{
    matches!(outcome, Outcome::Cut { .. })
}

// The values of a loop's answer, or its fault.
fn result_of_outcome(alloc: Global, outcome: Outcome) -> Result<Result<Items<Value>, Fault>, Memory>
    ensures { IfOk result (λ ending. ending ≡ result_of_outcome outcome) }
{
    Ok(match outcome {
        Outcome::Value(value) => Ok(Items(vec![in alloc; value]?)),
        Outcome::Values(values) => Ok(values),
        Outcome::Fault(fault) => Err(fault),
        Outcome::Cut { by } => Err(by),
    })
}

// The first value of an answer.
fn first_value(values: Items<Value>) -> Value
    ensures { result ≡ first_value values }
{
    match values.0.into_iter().next() {
        Some(value) => value,
        None => Value::Int(0),
    }
}

// An instance that takes the answer of a child that it spawned.
#[inline(always)]
fn merge_spawned(
    instance: &mut Instance,
    plan: &Plan,
    height: usize,
    target: &Option<Target>,
    outcome: Outcome,
)
    requires sound { IsInstance plan.now instance.old }
    requires found { FindsAt plan.now height target.now (functions_in (machine_of plan.now instance.old)) }
    ensures machine { (p : PlanView) → machine_of p instance.new
        ≡ changed height (frame_with_answer target.now (result_of_outcome outcome)) (machine_of p instance.old) }
    ensures path { path_of instance.new ≡ path_of instance.old }
    ensures sound { (p : PlanView) → IsInstance p instance.old → IsInstance p instance.new }
{
    match outcome {
        Outcome::Value(value) => instance.receive_value(plan, height, target.as_ref(), value),
        Outcome::Values(values) => instance.receive_value(
            plan,
            height,
            target.as_ref(),
            first_value(values),
        ),
        Outcome::Fault(fault) => instance.receive_fault(height, fault),
        Outcome::Cut { by } => instance.receive_fault(height, by),
    }
}

// The stage after the answer of a child that an instance spawned.
fn spawned_stage(
    stage: &mut Stage,
    plan: &Plan,
    height: usize,
    target: &Option<Target>,
    outcome: Outcome,
)
    requires stands { IsStageOfPlan plan.now stage.old }
    requires found { StageFinds plan.now (Spawned height target.now) (stage_of plan.now stage.old) }
    ensures { BecomesStage (takes (Spawned height target.now) (result_of_outcome outcome)) stage.old stage.new }
{
    match stage {
        Stage::Running(instance) => merge_spawned(instance, plan, height, target, outcome),
        Stage::AtSync(instance) => merge_spawned(instance, plan, height, target, outcome),
        Stage::AtLoop(instance) => merge_spawned(instance, plan, height, target, outcome),
        Stage::Returned(_) => drop(outcome),
        Stage::Faulted(_) => drop(outcome),
        Stage::ChildFaulted(_) => drop(outcome),
    }
}

// The stage after the values of a loop of an instance.
fn fill_stage(
    stage: &mut Stage,
    alloc: Global,
    plan: &Plan,
    target: &Option<Target>,
    values: &Items<Value>,
)
    requires stands { IsStageOfPlan plan.now stage.old }
    requires found { StageFinds plan.now (Looped target.now) (stage_of plan.now stage.old) }
    ensures { BecomesStage (takes (Looped target.now) (Ok values.now)) stage.old stage.new }
{
    let into = target.as_ref();
    let given = values.as_slice();
    match stage {
        Stage::Running(instance) => instance.receive_values(alloc, plan, into, given),
        Stage::AtSync(instance) => instance.receive_values(alloc, plan, into, given),
        Stage::AtLoop(instance) => instance.receive_values(alloc, plan, into, given),
        Stage::Returned(_) => {}
        Stage::Faulted(_) => {}
        Stage::ChildFaulted(_) => {}
    }
}

// The stage after the answer of a loop of an instance.
fn looped_stage(
    stage: &mut Stage,
    alloc: Global,
    plan: &Plan,
    target: &Option<Target>,
    outcome: Outcome,
) -> Result<(), Memory>
    requires stands { IsStageOfPlan plan.now stage.old }
    requires found { StageFinds plan.now (Looped target.now) (stage_of plan.now stage.old) }
    ensures { OnOk result (BecomesStage (takes (Looped target.now) (result_of_outcome outcome)) stage.old stage.new) }
{
    match result_of_outcome(alloc, outcome)? {
        Ok(values) => fill_stage(stage, alloc, plan, target, &values),
        Err(fault) => set(stage, Stage::ChildFaulted(fault)),
    }
    Ok(())
}

// The stage after the answer of a child.
fn merge_stage(
    stage: &mut Stage,
    alloc: Global,
    plan: &Plan,
    destination: Destination,
    outcome: Outcome,
) -> Result<(), Memory>
    requires stands { IsStageOfPlan plan.now stage.old }
    requires found { StageFinds plan.now (destination_of destination) (stage_of plan.now stage.old) }
    ensures { OnOk result (BecomesStage (takes (destination_of destination) (result_of_outcome outcome)) stage.old stage.new) }
{
    match destination {
        Destination::Spawned(height, target) => {
            spawned_stage(stage, plan, height as usize, &target, outcome);
            Ok(())
        }
        Destination::Looped(target) => { looped_stage(stage, alloc, plan, &target, outcome) }
        Destination::Half => {
            drop(outcome);
            Ok(())
        }
    }
}

// What remains after the answer of a child.
#[inline(never)]
fn merge_remaining(
    remaining: &mut Remaining,
    alloc: Global,
    plan: &Plan,
    destination: Destination,
    outcome: Outcome,
) -> Result<(), Memory>
    requires of_plan { IsRemainingOfPlan plan.now remaining.old }
    requires found { RemainingFinds plan.now (destination_of destination) (remaining_of plan.now remaining.old) }
    ensures { OnOk result (BecomesRemaining (with_stage (takes (destination_of destination) (result_of_outcome outcome))) remaining.old remaining.new) }
{
    match remaining {
        Remaining::Runs(stage) => {
            merge_stage(stage, alloc, plan, destination, outcome)?;
            Ok(())
        }
        Remaining::Splits(_) => {
            drop((destination, outcome));
            Ok(())
        }
        Remaining::Finished(_, _) => {
            drop((destination, outcome));
            Ok(())
        }
        Remaining::Ends(_) => {
            drop((destination, outcome));
            Ok(())
        }
    }
}

impl Merging {
    // Appends an answer's events to the trace and, where it is neither a fault nor a cut, the task's own events after
    // that child.
    fn merge_events<K: Keep>(
        &mut self,
        trace: &mut Trace<K>,
        events: Out<K>,
        after: Out<K>,
        outcome: &Outcome,
    ) -> Result<(), Memory>
        requires { trace.old.unmerged ≡ [] }
        ensures trace { OnOk result ((p : AwaitedChild) → p.after ≡ after
            → trace.new ≡ merged_answer p (record { items = events; ending = result_of_outcome outcome.now }) trace.old) }
        ensures ended { OnOk result (end_of trace.new.fault self.new.by_cut ≡ or_ends (end_of trace.old.fault self.old.by_cut) outcome.now) }
        ensures cut { OnOk result (self.new.cut ≡ (self.old.cut || is_cut outcome.now)) }
    {
        self.cut |= is_cut(outcome);
        if trace.fault.is_some() {
            drop((events, after));
            return Ok(());
        }
        match trace.prefix.append(events) {
            Ok(()) => {}
            Err(memory) => {
                drop(after);
                return Err(memory.into());
            }
        }
        match outcome {
            Outcome::Value(_) | Outcome::Values(_) => trace.prefix.append(after)?,
            Outcome::Fault(fault) => {
                drop(after);
                set(&mut trace.fault, Some(fault.share()?));
                self.by_cut = false;
            }
            Outcome::Cut { by } => {
                drop(after);
                set(&mut trace.fault, Some(by.share()?));
                self.by_cut = true;
            }
        }
        Ok(())
    }
}

// More values of a loop. The list of the first ones, those of its lower half, takes those of the other half too.
fn add_values(
    values: &mut Items<Value>,
    more: Items<Value>,
    pool: &mut InstancePool,
) -> Result<(), Memory>
    ensures { OnOk result (values.new ≡ values.old ++ more) }
{
    if values.0.is_empty() {
        set(values, more);
        return Ok(());
    }
    let mut more = more;
    values.0.append(&mut more.0)?;
    pool.keep_values(more);
    Ok(())
}

// The values of a half of a loop.
fn add_half(
    values: &mut Items<Value>,
    outcome: Outcome,
    pool: &mut InstancePool,
) -> Result<(), Memory>
    ensures { OnOk result (values.new ≡ more_values Half (result_of_outcome outcome) values.old) }
{
    match outcome {
        Outcome::Value(value) => Ok(values.0.push(value)?),
        Outcome::Values(more) => add_values(values, more, pool),
        Outcome::Fault(_) => {
            drop(outcome);
            Ok(())
        }
        Outcome::Cut { .. } => {
            drop(outcome);
            Ok(())
        }
    }
}

// What a merged answer changes in the values, or in what remains.
#[inline(always)]
fn merge_value(
    values: &mut Items<Value>,
    remaining: &mut Remaining,
    alloc: Global,
    plan: &Plan,
    destination: Destination,
    outcome: Outcome,
    pool: &mut InstancePool,
) -> Result<(), Memory>
    requires of_plan { IsRemainingOfPlan plan.now remaining.old }
    requires found { RemainingFinds plan.now (destination_of destination) (remaining_of plan.now remaining.old) }
    ensures values { OnOk result (values.new ≡ more_values (destination_of destination) (result_of_outcome outcome) values.old) }
    ensures remaining { OnOk result (BecomesRemaining (with_stage (takes (destination_of destination) (result_of_outcome outcome))) remaining.old remaining.new) }
{
    if let Destination::Half = destination {
        return add_half(values, outcome, pool);
    }
    merge_remaining(remaining, alloc, plan, destination, outcome)
}

// Merges one child's answer into a task whose list of children was taken out.
pub(crate) fn merge_answer<K: Keep>(
    parts: &mut Parts<K>,
    merging: &mut Merging,
    alloc: Global,
    after: AfterChild<K>,
    answer: Answer<K>,
    pool: &mut TaskPool<K>,
) -> Result<(), Memory>
    requires unmerged { parts.old.state.trace.unmerged ≡ [] }
    requires of_plan { IsRemainingOfPlan parts.old.state.links.plan parts.old.remaining }
    requires found { RemainingFinds parts.old.state.links.plan (destination_of after.destination) (remaining_of parts.old.state.links.plan parts.old.remaining) }
    ensures takes { OnOk result (TakesAnswers (awaited_child answer.origin after ∷ []) (answer ∷ []) (merge_of parts.old merging.old) (merge_of parts.new merging.new)) }
    ensures rest { OnOk result (KeepsRest parts.old parts.new) }
{
    let Answer {
        out,
        outcome,
        plan: own,
        origin,
    } = answer;
    drop(own);
    pool.keep_origin(origin);
    let AfterChild {
        destination,
        events,
    } = after;
    let Parts { state, remaining } = parts;
    match merging.merge_events(&mut state.trace, out, events, &outcome) {
        Ok(()) => merge_value(
            &mut state.values,
            remaining,
            alloc,
            state.links.plan(),
            destination,
            outcome,
            &mut pool.instances,
        ),
        Err(memory) => {
            drop((destination, outcome));
            Err(memory)
        }
    }
}
