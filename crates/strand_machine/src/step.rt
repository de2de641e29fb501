// Moves of a task, or its stop.
ghost use Rattle.std.specs.Prelude.{◌≡◌, ◌++◌, ◌∷◌, ◌-◌, [], IfOk};
ghost use Rattle.serial_meaning.specs.declared.answer.Outcome.TheVariants as outcome;
ghost use Rattle.serial_meaning.specs.Laws.{IsOriginOf};
ghost use Rattle.strand_family.specs.Origins.{loop_part};
ghost use Rattle.strand_moves.specs.Moves.{IsTrailOf};
ghost use Rattle.strand_machine.specs.declared.destination.Destination.TheVariants as destination;
ghost use Rattle.strand_machine.specs.Made.{IsRun, IsSoundMade, IsSpawn, IsStopped, LeavesOutcome, StopsSo, made, StepsOn, CanEnd, done_by, ended_move, outcome_left};
ghost use Rattle.strand_machine.specs.MoveOrStop as step;
ghost use Rattle.strand_machine.specs.Stops.{IsStep};
ghost use Rattle.strand_machine.specs.Tasks.{IsSound, view_of, with_child};
ghost use Rattle.strand_machine.specs.declared.remaining.Remaining.TheVariants as remaining;

use crate::destination::Destination;
use crate::leave::{end, faulted, pass, returned, spawn, spawn_in_place, wait};
use crate::memory::Memory;
use crate::parts::Parts;
use crate::remaining::{Left, Remaining, Stage, begun_last};
use crate::run::go;
use crate::stop::{Passed, Stop};
use crate::task::Task;
use crate::task_pool::TaskPool;
use crate::task_state::TaskState;
use contract_views::Items;
use dotmix::Trail;
use loop_range::IterRange;
use serial_meaning::{Keep, Outcome, Value};
use std::alloc::Global;
use std::mem;
use strand_family::part_of;
use strand_meaning::laws;
use strand_moves::{Child, InstancePool};

// A loop with these iterations left: their lower half goes to a child, and the last one is begun.
fn split_loop<K: Keep>(
    parts: &mut Parts<K>,
    alloc: Global,
    left: Left,
    pool: &mut TaskPool<K>,
) -> Result<Passed<K>, Memory>
    requires { IsSound parts.old.state (remaining.Splits left) }
    ensures step { IfOk result (λ passed. IsStep (view_of parts.old.state (remaining.Splits left)) (made parts.new passed)) }
    ensures sound { IfOk result (IsSoundMade parts.new) }
{
    laws::steps_are_sound();
    let Left { range, trail } = left;
    if let Some(halves) = range.split() {
        let origin = part_of(alloc, parts.state.links.origin(), halves.0)?;
        let shared = trail.share()?;
        let child = Child {
            origin,
            trail: shared,
        };
        let range = halves.1;
        let remaining = Remaining::Splits(Left { range, trail });
        return spawn(parts, alloc, child, Destination::Half, remaining, pool);
    }
    if range.len() == 0 {
        let values = parts.state.take_values(alloc);
        return Ok(end(parts, Outcome::Values(values)));
    }
    let state = &parts.state;
    let remaining = begun_last(
        alloc,
        state.links.plan(),
        state.links.origin(),
        trail,
        &mut pool.instances,
    )?;
    Ok(pass(parts, remaining))
}

// These values. Where there are none, their list is one of the pool.
fn with_room(values: Items<Value>, alloc: Global, pool: &mut InstancePool) -> Items<Value>
    ensures { result ≡ values }
{
    if values.0.is_empty() {
        return pool.values(alloc);
    }
    values
}

// A loop ends, with this value after those that were taken.
#[inline(always)]
fn end_loop_with<K: Keep>(
    parts: &mut Parts<K>,
    alloc: Global,
    value: Value,
    pool: &mut TaskPool<K>,
) -> Result<Passed<K>, Memory>
    requires { CanEnd parts.old.state (outcome.Values (parts.old.state.values ++ value ∷ [])) }
    ensures made { IfOk result (λ passed. made parts.new passed ≡ ended_move parts.old.state (outcome.Values (parts.old.state.values ++ value ∷ []))) }
    ensures sound { IfOk result (IsSoundMade parts.new) }
{
    let mut values = with_room(parts.state.take_values(alloc), alloc, &mut pool.instances);
    values.0.push(value)?;
    Ok(end(parts, Outcome::Values(values)))
}

// A loop's last iteration gave this value. Where the loop began a part, it waits for that first.
//
// It is a call of its own, since the room for what it makes would else be cleared at each run of an instance.
#[inline(never)]
pub(crate) fn end_loop<K: Keep>(
    parts: &mut Parts<K>,
    alloc: Global,
    value: Value,
    has_waited: bool,
    pool: &mut TaskPool<K>,
) -> Result<Passed<K>, Memory>
    requires { IsSound parts.old.state (remaining.Finished value has_waited) }
    ensures step { IfOk result (λ passed. IsStep (view_of parts.old.state (remaining.Finished value has_waited)) (made parts.new passed)) }
    ensures sound { IfOk result (IsSoundMade parts.new) }
{
    laws::steps_are_sound();
    if has_waited {
        return end_loop_with(parts, alloc, value, pool);
    }
    if parts.state.is_long() {
        return Ok(wait(parts, Remaining::Finished(value, false)));
    }
    end_loop_with(parts, alloc, value, pool)
}

// A move of an instance, or a stop, by its state.
pub(crate) fn run<K: Keep>(
    parts: &mut Parts<K>,
    alloc: Global,
    stage: Stage,
    pool: &mut TaskPool<K>,
) -> Result<Passed<K>, Memory>
    requires { IsSound parts.old.state (remaining.Runs stage) }
    ensures step { IfOk result (λ passed. StepsOn (view_of parts.old.state (remaining.Runs stage)) (made parts.new passed)) }
    ensures sound { IfOk result (IsSoundMade parts.new) }
{
    laws::steps_are_sound();
    match stage {
        Stage::Running(instance) => go(parts, alloc, instance, pool),
        Stage::AtSync(instance) => Ok(wait(parts, Remaining::Runs(Stage::AtSync(instance)))),
        Stage::AtLoop(instance) => Ok(wait(parts, Remaining::Runs(Stage::AtLoop(instance)))),
        Stage::Returned(value) => Ok(returned(parts, value)),
        Stage::Faulted(own) => Ok(faulted(parts, own)),
        Stage::ChildFaulted(fault) => Ok(end(parts, Outcome::Fault(fault))),
    }
}

// A move of the task in place, or its stop, by what remains.
pub(crate) fn pass_with<K: Keep>(
    parts: &mut Parts<K>,
    alloc: Global,
    remaining: Remaining,
    pool: &mut TaskPool<K>,
) -> Result<Passed<K>, Memory>
    requires { IsSound parts.old.state remaining }
    ensures step { IfOk result (λ passed. StepsOn (view_of parts.old.state remaining) (made parts.new passed)) }
    ensures sound { IfOk result (IsSoundMade parts.new) }
{
    match remaining {
        Remaining::Splits(left) => split_loop(parts, alloc, left, pool),
        Remaining::Runs(stage) => run(parts, alloc, stage, pool),
        Remaining::Finished(value, has_waited) => end_loop(parts, alloc, value, has_waited, pool),
        Remaining::Ends(_) => unreachable!(),
    }
}

// The lower half of a loop's iterations, which was taken out, goes to a child.
fn begin_half<K: Keep>(
    parts: &mut Parts<K>,
    alloc: Global,
    range: IterRange,
    trail: Trail,
    pool: &mut TaskPool<K>,
) -> Result<Passed<K>, Memory>
    requires known { IsOriginOf parts.old.state.links.plan (loop_part parts.old.state.links.origin range) }
    requires trail { IsTrailOf parts.old.state.links.plan (loop_part parts.old.state.links.origin range) trail }
    requires sound { IsSound (with_child parts.old.state (loop_part parts.old.state.links.origin range) destination.Half) parts.old.remaining }
    ensures made { IfOk result (λ passed. IsSpawn parts.old.state (loop_part parts.old.state.links.origin range) destination.Half parts.old.remaining (made parts.new passed)) }
    ensures sound { IfOk result (IsSoundMade parts.new) }
{
    let origin = part_of(alloc, parts.state.links.origin(), range)?;
    spawn_in_place(
        parts,
        alloc,
        Child { origin, trail },
        Destination::Half,
        pool,
    )
}

// The last iteration of a loop, which was taken out, is begun, and its instance goes on.
fn begin_last<K: Keep>(
    parts: &mut Parts<K>,
    alloc: Global,
    left: Left,
    pool: &mut TaskPool<K>,
) -> Result<Passed<K>, Memory>
    requires sound { IsSound parts.old.state (remaining.Splits left) }
    requires one { left.range.hi - left.range.lo ≡ 1 }
    ensures step { IfOk result (λ passed. IsRun (view_of parts.old.state (remaining.Splits left)) (made parts.new passed)) }
    ensures sound { IfOk result (IsSoundMade parts.new) }
{
    laws::steps_are_sound();
    laws::moves_fall();
    let Left { trail, .. } = left;
    parts.state.advanced = true;
    let state = &parts.state;
    let mut remaining = begun_last(
        alloc,
        state.links.plan(),
        state.links.origin(),
        trail,
        &mut pool.instances,
    )?;
    if let Some(instance) = remaining.take_running() {
        return go(parts, alloc, instance, pool);
    }
    Ok(pass(parts, remaining))
}

// The same, by what the parts say is left. It is a call of its own, since the room for what it makes would else be cleared before each move.
#[inline(never)]
fn move_other<K: Keep>(
    parts: &mut Parts<K>,
    alloc: Global,
    pool: &mut TaskPool<K>,
) -> Result<Passed<K>, Memory>
    requires { IsSound parts.old.state parts.old.remaining }
    ensures step { IfOk result (λ passed. IsRun (view_of parts.old.state parts.old.remaining) (made parts.new passed)) }
    ensures sound { IfOk result (IsSoundMade parts.new) }
{
    laws::steps_are_sound();
    if let Some(half) = parts.remaining.take_half()? {
        return begin_half(parts, alloc, half.0, half.1, pool);
    }
    if let Some(left) = parts.remaining.take_last() {
        return begin_last(parts, alloc, left, pool);
    }
    let remaining = mem::replace(&mut parts.remaining, Remaining::nothing());
    pass_with(parts, alloc, remaining, pool)
}

// A move of the task in place, or its stop.
#[inline(always)]
fn move_once<K: Keep>(
    parts: &mut Parts<K>,
    alloc: Global,
    pool: &mut TaskPool<K>,
) -> Result<Passed<K>, Memory>
    requires { IsSound parts.old.state parts.old.remaining }
    ensures step { IfOk result (λ passed. IsRun (view_of parts.old.state parts.old.remaining) (made parts.new passed)) }
    ensures sound { IfOk result (IsSoundMade parts.new) }
{
    // most moves are those of an instance
    if let Some(instance) = parts.remaining.take_running() {
        return go(parts, alloc, instance, pool);
    }
    move_other(parts, alloc, pool)
}

// The stop of a task that has ended. Its box is freed.
fn done<K: Keep>(parts: Box<Parts<K>>) -> Stop<K>
    requires { LeavesOutcome parts.value }
    ensures { step.Stops result ≡ done_by parts.value.state (outcome_left parts.value.remaining) }
{
    let Parts { state, remaining } = Box::into_inner(parts);
    let Remaining::Ends(outcome) = remaining else {
        unreachable!()
    };
    let TaskState { links, trace, .. } = state;
    let (prefix, _) = trace.prefix();
    let (answer, give) = links.answer(prefix, outcome);
    Stop::Done { answer, give }
}

// Moves of the task in place, up to its next stop.
#[inline(always)]
pub(crate) fn run_in_place<K: Keep>(
    parts: &mut Parts<K>,
    alloc: Global,
    pool: &mut TaskPool<K>,
) -> Result<Passed<K>, Memory>
    requires { IsSound parts.old.state parts.old.remaining }
    ensures stopped { IfOk result IsStopped }
    ensures stop { IfOk result (λ passed. StopsSo (view_of parts.old.state parts.old.remaining) (made parts.new passed)) }
    ensures sound { IfOk result (IsSoundMade parts.new) }
{
    laws::moves_fall();
    laws::stops_are_sound();
    loop {
        match move_once(parts, alloc, pool)? {
            Passed::Continues => {}
            passed => return Ok(passed),
        }
    }
}

// The stop that a task came to.
#[inline(always)]
pub(crate) fn to_stop<K: Keep>(parts: Box<Parts<K>>, passed: Passed<K>) -> Stop<K>
    requires sound { IsSoundMade parts.value passed }
    requires stops { IsStopped passed }
    ensures { step.Stops result ≡ made parts.value passed }
{
    match passed {
        Passed::Continues => unreachable!(),
        Passed::Waits => Stop::Wait {
            rest: Task { parts },
        },
        Passed::Spawned(child) => Stop::Spawn {
            child,
            rest: Task { parts },
        },
        Passed::Ends => done(parts),
    }
}
