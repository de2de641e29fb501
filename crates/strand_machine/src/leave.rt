// What a move leaves in a task's parts.
ghost use Rattle.std.specs.Prelude.{◌≡◌, IfOk, OnOk};
ghost use Rattle.serial_meaning.specs.Laws.{IsOriginOf};
ghost use Rattle.strand_moves.specs.Moves.{IsTrailOf};
ghost use Rattle.strand_machine.specs.Links.{AreJoinNames, links_with_child};
ghost use Rattle.strand_machine.specs.Made.{CanEnd, IsSoundMade, IsSpawn, ended_move, made};
ghost use Rattle.strand_machine.specs.Stops.{IsStep};
ghost use Rattle.strand_machine.specs.Tasks.{IsSound, view_of, fresh, gone, waiting, with_child};
ghost use Rattle.strand_machine.specs.MoveOrStop as step;
ghost use Rattle.strand_machine.specs.declared.stop.Stop.TheVariants as stop;
ghost use Rattle.strand_machine.specs.declared.remaining.Stage.TheVariants as stage;
ghost use Rattle.strand_machine.specs.declared.remaining.Remaining.TheVariants as remaining;

use crate::destination::Destination;
use crate::memory::Memory;
use crate::parts::Parts;
use crate::remaining::{Remaining, Stage};
use crate::replace::set_remaining;
use crate::stop::Passed;
use crate::task::Task;
use crate::task_pool::TaskPool;
use crate::task_state::TaskState;
use serial_meaning::{AnswerKey, Fault, Keep, Origin, Outcome, Value};
use std::alloc::Global;
use strand_family::Links;
use strand_meaning::laws;
use strand_moves::Child;

// The task continues with this.
pub(crate) fn pass<K: Keep>(parts: &mut Parts<K>, remaining: Remaining) -> Passed<K>
    requires { IsSound (gone parts.old.state) remaining }
    ensures made { made parts.new result ≡ step.Passes (view_of (gone parts.old.state) remaining) }
    ensures sound { IsSoundMade parts.new result }
{
    parts.state.advanced = true;
    set_remaining(&mut parts.remaining, remaining);
    Passed::Continues
}

// The task waits, with this left to do.
#[inline(always)]
pub(crate) fn wait<K: Keep>(parts: &mut Parts<K>, remaining: Remaining) -> Passed<K>
    requires { IsSound (waiting parts.old.state) remaining }
    ensures made { made parts.new result ≡ step.Stops (stop.Wait (view_of (waiting parts.old.state) remaining)) }
    ensures sound { IsSoundMade parts.new result }
{
    parts.state.waiting = true;
    parts.state.advanced = true;
    set_remaining(&mut parts.remaining, remaining);
    Passed::Waits
}

// The task ends, by the fault in its trace, or else by this outcome.
#[inline(always)]
pub(crate) fn end<K: Keep>(parts: &mut Parts<K>, outcome: Outcome) -> Passed<K>
    requires { CanEnd parts.old.state outcome }
    ensures made { made parts.new result ≡ ended_move parts.old.state outcome }
    ensures sound { IsSoundMade parts.new result }
{
    let ended = parts.state.trace.end(outcome);
    parts.state.waiting = false;
    set_remaining(&mut parts.remaining, Remaining::Ends(ended));
    Passed::Ends
}

// Begins a child, and counts it among the task's. Its give is of the task's join. The key of its give is made of its own
// plan and origin.
#[tactic(auto, using(crate::proofs::Moves::Starting::begun_under, crate::proofs::Moves::Starting::tag_given))]
fn begin_child<K: Keep>(
    links: &mut Links<K>,
    alloc: Global,
    child: Child,
    pool: &mut TaskPool<K>,
) -> Result<Task<K>, Memory>
    requires known { IsOriginOf links.old.plan child.origin }
    requires trail { IsTrailOf links.old.plan child.origin child.trail }
    ensures child { IfOk result (λ task. task ≡ fresh links.old.plan child.origin task.joins) }
    ensures joins { IfOk result (λ task. AreJoinNames links.old.joins.own task.joins) }
    ensures links { OnOk result (links.new ≡ links_with_child links.old child.origin) }
{
    let Child { origin, trail } = child;
    let plan = match links.share_plan() {
        Ok(plan) => plan,
        Err(memory) => {
            drop((origin, trail));
            return Err(memory.into());
        }
    };
    let key = AnswerKey { plan, origin };
    let give = match links.give_for_child(alloc, &key, &mut pool.joins) {
        Ok(give) => give,
        Err(memory) => {
            drop((key, trail));
            return Err(memory.into());
        }
    };
    let AnswerKey { plan, origin } = key;
    Task::begin(alloc, plan, Child { origin, trail }, give, pool)
}

// Begins a child whose value goes to this destination.
fn add_child_task<K: Keep>(
    state: &mut TaskState<K>,
    alloc: Global,
    child: Child,
    destination: Destination,
    pool: &mut TaskPool<K>,
) -> Result<Task<K>, Memory>
    requires known { IsOriginOf state.old.links.plan child.origin }
    requires trail { IsTrailOf state.old.links.plan child.origin child.trail }
    ensures child { IfOk result (λ task. task ≡ fresh state.old.links.plan child.origin task.joins) }
    ensures joins { IfOk result (λ task. AreJoinNames state.old.links.joins.own task.joins) }
    ensures state { OnOk result (state.new ≡ with_child state.old child.origin destination) }
{
    match state.trace.add_child(&child.origin, destination) {
        Ok(()) => {
            state.advanced = true;
            begin_child(&mut state.links, alloc, child, pool)
        }
        Err(memory) => {
            drop(child);
            Err(memory)
        }
    }
}

// The task begins a child, with this left to do.
#[inline(always)]
pub(crate) fn spawn<K: Keep>(
    parts: &mut Parts<K>,
    alloc: Global,
    child: Child,
    destination: Destination,
    remaining: Remaining,
    pool: &mut TaskPool<K>,
) -> Result<Passed<K>, Memory>
    requires known { IsOriginOf parts.old.state.links.plan child.origin }
    requires trail { IsTrailOf parts.old.state.links.plan child.origin child.trail }
    requires sound { IsSound (with_child parts.old.state child.origin destination) remaining }
    ensures made { IfOk result (λ passed. IsSpawn parts.old.state child.origin destination remaining (made parts.new passed)) }
    ensures sound { IfOk result (IsSoundMade parts.new) }
{
    match add_child_task(&mut parts.state, alloc, child, destination, pool) {
        Ok(child) => {
            set_remaining(&mut parts.remaining, remaining);
            Ok(Passed::Spawned(child))
        }
        Err(memory) => {
            drop(remaining);
            Err(memory)
        }
    }
}

// The same, where what is left to do stands in the task's parts.
#[inline(always)]
pub(crate) fn spawn_in_place<K: Keep>(
    parts: &mut Parts<K>,
    alloc: Global,
    child: Child,
    destination: Destination,
    pool: &mut TaskPool<K>,
) -> Result<Passed<K>, Memory>
    requires known { IsOriginOf parts.old.state.links.plan child.origin }
    requires trail { IsTrailOf parts.old.state.links.plan child.origin child.trail }
    requires sound { IsSound (with_child parts.old.state child.origin destination) parts.old.remaining }
    ensures made { IfOk result (λ passed. IsSpawn parts.old.state child.origin destination parts.old.remaining (made parts.new passed)) }
    ensures sound { IfOk result (IsSoundMade parts.new) }
{
    let task = add_child_task(&mut parts.state, alloc, child, destination, pool)?;
    Ok(Passed::Spawned(task))
}

// An instance ended by a value: the task ends too, unless it was the last iteration of a loop.
#[inline(always)]
pub(crate) fn returned<K: Keep>(parts: &mut Parts<K>, value: Value) -> Passed<K>
    requires { IsSound parts.old.state (remaining.Runs (stage.Returned value)) }
    ensures step { IsStep (view_of parts.old.state (remaining.Runs (stage.Returned value))) (made parts.new result) }
    ensures sound { IsSoundMade parts.new result }
{
    laws::steps_are_sound();
    match parts.state.links.origin() {
        Origin::Instance { .. } => end(parts, Outcome::Value(value)),
        Origin::Loop { .. } => pass(parts, Remaining::Finished(value, false)),
    }
}

// An instance ended by a fault of its own. The task waits for the children that it began, and then ends by the fault.
pub(crate) fn faulted<K: Keep>(parts: &mut Parts<K>, fault: Fault) -> Passed<K>
    requires { IsSound parts.old.state (remaining.Runs (stage.Faulted fault)) }
    ensures step { IsStep (view_of parts.old.state (remaining.Runs (stage.Faulted fault))) (made parts.new result) }
    ensures sound { IsSoundMade parts.new result }
{
    laws::steps_are_sound();
    if parts.state.trace.awaits_none() {
        return end(parts, Outcome::Fault(fault));
    }
    wait(parts, Remaining::Runs(Stage::Faulted(fault)))
}
