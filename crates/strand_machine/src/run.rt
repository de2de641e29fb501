// The moves of a task's instance.
ghost use Rattle.std.specs.Prelude.{◌≡◌, IfOk, OnOk};
ghost use Rattle.std.specs.Option.{option_copied};
ghost use Rattle.strand_meaning.specs.Task.{stops_at, child_in};
ghost use Rattle.strand_meaning.specs.Trace.{emit};
ghost use Rattle.serial_meaning.specs.Laws.{IsOriginOf};
ghost use Rattle.strand_moves.specs.Machines.{HasPassedStatement, HasSpawned, HasWaited, IsInstance, path_of};
ghost use Rattle.strand_moves.specs.Moves.{IsTrailOf, effects_of};
ghost use Rattle.strand_moves.specs.Spawns.{SpawnsTrail};
ghost use Rattle.strand_moves.specs.Waits.{WaitsTrail};
ghost use Rattle.strand_machine.specs.Made.{IsSoundMade, IsSpawn, made, IsRun};
ghost use Rattle.strand_machine.specs.Effects.{task_after_effects, HasSoundEffects};
ghost use Rattle.strand_machine.specs.Stops.{KeepsLinksInStep, step_of};
ghost use Rattle.strand_machine.specs.Tasks.{IsSound, view_of, with_child};
ghost use Rattle.strand_machine.specs.declared.destination.Destination.TheVariants as destination;
ghost use Rattle.strand_machine.specs.declared.remaining.Stage.TheVariants as stage;
ghost use Rattle.strand_machine.specs.declared.remaining.Remaining.TheVariants as remaining;

use crate::destination::Destination;
use crate::leave::{end, faulted, pass, spawn, wait};
use crate::memory::Memory;
use crate::parts::Parts;
use crate::remaining::{Remaining, Stage};
use crate::step::end_loop;
use crate::stop::Passed;
use crate::task_pool::TaskPool;
use crate::trace::Trace;
use contract_views::Boxed;
use script_grammar::Stmt;
use serial_meaning::{Keep, Origin, Outcome, Plan, Value};
use std::alloc::Global;
use strand_meaning::laws;
use strand_moves::{Effects, Instance, InstancePool, LoopedChild, MoveResult, SpawnedChild, Waits};

// The content of a box.
fn unboxed<T>(boxed: Boxed<T>) -> T
    ensures { result ≡ boxed }
{
    Box::into_inner(boxed.0)
}

// The move that is next, where it is the spawn of a child, whose event joins the trace. Otherwise nothing changes.
#[inline(always)]
fn spawn_next<K: Keep>(
    instance: &mut Instance,
    alloc: Global,
    plan: &Plan,
    next: Option<&Stmt>,
    trace: &mut Trace<K>,
    pool: &mut InstancePool,
) -> Result<Option<SpawnedChild>, strand_moves::Memory>
    requires sound { IsInstance plan.now instance.old }
    requires passed { HasPassedStatement plan.now instance.old (option_copied next) }
    ensures did { IfOk result (HasSpawned emit plan.now instance.old trace.old (option_copied next.entry) instance.new trace.new) }
    ensures child { IfOk result (SpawnsTrail plan.now) }
    ensures path { IfOk result (λ _. path_of instance.new ≡ path_of instance.old) }
    ensures sound { IfOk result (λ _. IsInstance plan.now instance.new) }
{
    match next {
        Some(statement) => instance.spawn(alloc, plan, statement, trace, pool),
        None => Ok(None),
    }
}

// The move that is next, where it is a sync or a parallel loop, whose event joins the trace. Otherwise nothing changes.
#[inline(always)]
fn wait_next<K: Keep>(
    instance: &mut Instance,
    alloc: Global,
    plan: &Plan,
    next: Option<&Stmt>,
    trace: &mut Trace<K>,
) -> Result<Option<Waits>, strand_moves::Memory>
    requires sound { IsInstance plan.now instance.old }
    requires passed { HasPassedStatement plan.now instance.old (option_copied next) }
    ensures did { IfOk result (HasWaited emit plan.now instance.old trace.old (option_copied next.entry) instance.new trace.new) }
    ensures child { IfOk result (WaitsTrail plan.now) }
    ensures path { IfOk result (λ _. path_of instance.new ≡ path_of instance.old) }
    ensures sound { IfOk result (λ _. IsInstance plan.now instance.new) }
{
    match next {
        Some(statement) => instance.wait(alloc, plan, statement, trace),
        None => instance.wait_end(alloc, plan, trace),
    }
}

// Begins the child that was spawned, whose event the trace has.
#[inline(always)]
fn begin_spawned<K: Keep>(
    parts: &mut Parts<K>,
    alloc: Global,
    instance: Instance,
    spawned: SpawnedChild,
    pool: &mut TaskPool<K>,
) -> Result<Passed<K>, Memory>
    requires known { IsOriginOf parts.old.state.links.plan spawned.child.origin }
    requires trail { IsTrailOf parts.old.state.links.plan spawned.child.origin spawned.child.trail }
    requires sound { IsSound (with_child parts.old.state spawned.child.origin (destination.Spawned spawned.height spawned.target)) (remaining.Runs (stage.Running instance)) }
    ensures made { IfOk result (λ passed. IsSpawn parts.old.state spawned.child.origin (destination.Spawned spawned.height spawned.target)
        (remaining.Runs (stage.Running instance)) (made parts.new passed)) }
    ensures sound { IfOk result (IsSoundMade parts.new) }
{
    let SpawnedChild {
        child,
        height,
        target,
    } = spawned;
    let destination = Destination::Spawned(height, target);
    let next = Remaining::Runs(Stage::Running(instance));
    spawn(parts, alloc, child, destination, next, pool)
}

// Begins the loop for which the instance waits, whose event the trace has. The loop comes in its box, since the room for
// what is in it would else be cleared at each run of an instance.
fn begin_looped<K: Keep>(
    parts: &mut Parts<K>,
    alloc: Global,
    instance: Instance,
    looped: Boxed<LoopedChild>,
    pool: &mut TaskPool<K>,
) -> Result<Passed<K>, Memory>
    requires known { IsOriginOf parts.old.state.links.plan looped.child.origin }
    requires trail { IsTrailOf parts.old.state.links.plan looped.child.origin looped.child.trail }
    requires sound { IsSound (with_child parts.old.state looped.child.origin (destination.Looped looped.target)) (remaining.Runs (stage.AtLoop instance)) }
    ensures made { IfOk result (λ passed. IsSpawn parts.old.state looped.child.origin (destination.Looped looped.target)
        (remaining.Runs (stage.AtLoop instance)) (made parts.new passed)) }
    ensures sound { IfOk result (IsSoundMade parts.new) }
{
    let LoopedChild { child, target } = unboxed(looped);
    let destination = Destination::Looped(target);
    let next = Remaining::Runs(Stage::AtLoop(instance));
    spawn(parts, alloc, child, destination, next, pool)
}

// Adds what a move showed to the trace, and begins its child, if any.
pub(crate) fn apply_effects<K: Keep>(
    parts: &mut Parts<K>,
    alloc: Global,
    instance: Instance,
    effects: Effects,
    pool: &mut TaskPool<K>,
) -> Result<Passed<K>, Memory>
    requires { HasSoundEffects parts.old.state instance effects }
    ensures step { IfOk result (λ passed. step_of (made parts.new passed) ≡ stops_at (child_in (effects_of effects)) (task_after_effects parts.old.state instance effects)) }
    ensures keeps { IfOk result (λ passed. KeepsLinksInStep (view_of parts.old.state (remaining.Runs (stage.Running instance))) (made parts.new passed)) }
    ensures sound { IfOk result (IsSoundMade parts.new) }
{
    match effects {
        Effects::Nothing | Effects::Opened(_) | Effects::Closed(_) => {
            Ok(pass(parts, Remaining::Runs(Stage::Running(instance))))
        }
        Effects::Emitted(event) => {
            parts.state.trace.emit(alloc, event)?;
            Ok(pass(parts, Remaining::Runs(Stage::Running(instance))))
        }
        Effects::Synced(event) => {
            parts.state.trace.emit(alloc, event)?;
            Ok(pass(parts, Remaining::Runs(Stage::AtSync(instance))))
        }
        Effects::Spawned { event, spawned } => {
            parts.state.trace.emit(alloc, event)?;
            begin_spawned(parts, alloc, instance, unboxed(spawned), pool)
        }
        Effects::Looped { event, looped } => {
            parts.state.trace.emit(alloc, event)?;
            begin_looped(parts, alloc, instance, looped, pool)
        }
    }
}

// An instance ended by a value: the task ends too, or goes on to the end of the loop whose last iteration it was.
#[inline(always)]
fn end_by_value<K: Keep>(
    parts: &mut Parts<K>,
    alloc: Global,
    value: Value,
    pool: &mut TaskPool<K>,
) -> Result<Passed<K>, Memory>
    requires { IsSound parts.old.state (remaining.Runs (stage.Returned value)) }
    ensures step { IfOk result (λ passed. IsRun (view_of parts.old.state (remaining.Runs (stage.Returned value))) (made parts.new passed)) }
    ensures sound { IfOk result (IsSoundMade parts.new) }
{
    laws::steps_are_sound();
    laws::moves_fall();
    match parts.state.links.origin() {
        Origin::Instance { .. } => Ok(end(parts, Outcome::Value(value))),
        Origin::Loop { .. } => {
            parts.state.advanced = true;
            end_loop(parts, alloc, value, false, pool)
        }
    }
}

// A straight run of the instance's moves, up to the first that shows more than an event, and the wait, child or end
// that it leads to.
pub(crate) fn go<K: Keep>(
    parts: &mut Parts<K>,
    alloc: Global,
    mut instance: Instance,
    pool: &mut TaskPool<K>,
) -> Result<Passed<K>, Memory>
    requires { IsSound parts.old.state (remaining.Runs (stage.Running instance)) }
    ensures step { IfOk result (λ passed. IsRun (view_of parts.old.state (remaining.Runs (stage.Running instance))) (made parts.new passed)) }
    ensures sound { IfOk result (IsSoundMade parts.new) }
{
    laws::steps_are_sound();
    laws::moves_fall();
    loop {
        parts.state.advanced = true;
        let plan = parts.state.links.plan();
        let next = match instance.straight_run(
            alloc,
            plan,
            &mut parts.state.trace,
            &mut pool.instances,
        ) {
            Ok(next) => next,
            Err(memory) => return Err(memory.into()),
        };
        match spawn_next(
            &mut instance,
            alloc,
            plan,
            next,
            &mut parts.state.trace,
            &mut pool.instances,
        ) {
            Ok(Some(spawned)) => return begin_spawned(parts, alloc, instance, spawned, pool),
            Ok(None) => {}
            Err(memory) => return Err(memory.into()),
        }
        match wait_next(&mut instance, alloc, plan, next, &mut parts.state.trace) {
            Ok(Some(waits)) => match waits {
                Waits::Nothing => continue,
                Waits::ForChildren => {
                    return Ok(wait(parts, Remaining::Runs(Stage::AtSync(instance))));
                }
                Waits::ForLoop(looped) => {
                    return begin_looped(parts, alloc, instance, looped, pool);
                }
            },
            Ok(None) => {}
            Err(memory) => return Err(memory.into()),
        }
        match instance.last_value(plan, next) {
            Ok(Some(value)) => {
                instance.discard(&mut pool.instances);
                return end_by_value(parts, alloc, value, pool);
            }
            Ok(None) => {}
            Err(memory) => return Err(memory.into()),
        }
        match instance.make(alloc, plan, next) {
            Ok(MoveResult::Moved(Effects::Nothing)) => {}
            Ok(MoveResult::Moved(effects)) => return apply_effects(
                parts, alloc, instance, effects, pool,
            ),
            Ok(MoveResult::Returned(value)) => {
                instance.discard(&mut pool.instances);
                return end_by_value(parts, alloc, value, pool);
            }
            Ok(MoveResult::Faulted(own)) => return Ok(faulted(parts, own)),
            Err(memory) => return Err(memory.into()),
        }
    }
}
