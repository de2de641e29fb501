// The fault of its own that a task's instance meets on the way to its next stop, and where it stood then.
ghost use Rattle.std.specs.Prelude.{◌≡◌, None, IfOk, OnOk};
ghost use Rattle.strand_machine.specs.Made.{IsSoundMade, made};
ghost use Rattle.strand_machine.specs.Placed.{latest, result_meets, step_meets};
ghost use Rattle.strand_machine.specs.Stops.{IsStep};
ghost use Rattle.strand_machine.specs.Tasks.{IsSound, view_of, task_of};
ghost use Rattle.strand_machine.specs.declared.remaining.Stage.TheVariants as stage;
ghost use Rattle.strand_machine.specs.declared.remaining.Remaining.TheVariants as remaining;

use crate::leave::pass;
use crate::memory::Memory;
use crate::parts::Parts;
use crate::remaining::{Remaining, Stage};
use crate::replace::set;
use crate::run::apply_effects;
use crate::step::{pass_with, run, to_stop};
use crate::stop::{Passed, Stop};
use crate::task::Task;
use crate::task_pool::TaskPool;
use serial_meaning::{All, Fault};
use std::alloc::Global;
use std::mem;
use strand_meaning::laws;
use strand_moves::{Instance, MoveResult, Place};

/// A fault of an instance's own, and where the instance stood when it met it.
#[derive(Drop)]
pub struct PlacedFault {
    pub fault: Fault,
    pub place: Place,
}

/// What a task came to, and the fault of its own that it met on its way there.
#[derive(Drop)]
pub struct PlacedStop {
    /// Where the task stopped.
    pub stop: Stop<All>,
    /// The fault, if it came in this call.
    pub met: Option<PlacedFault>,
}

// Notes the fault that a move met, if it did, with where the instance stood.
fn note(met: &mut Option<PlacedFault>, place: Place, move_result: &MoveResult) -> Result<(), Memory>
    ensures { OnOk result (met.new ≡ latest met.old (result_meets place move_result.now)) }
{
    match move_result {
        MoveResult::Moved(_) => {}
        MoveResult::Returned(_) => {}
        MoveResult::Faulted(fault) => {
            let fault = fault.share()?;
            set(met, Some(PlacedFault { fault, place }));
        }
    }
    Ok(())
}

// One move of the instance, whose fault is noted.
fn go_placed(
    parts: &mut Parts<All>,
    alloc: Global,
    mut instance: Instance,
    met: &mut Option<PlacedFault>,
) -> Result<Passed<All>, Memory>
    requires { IsSound parts.old.state (remaining.Runs (stage.Running instance)) }
    ensures step { IfOk result (λ passed. IsStep (view_of parts.old.state (remaining.Runs (stage.Running instance))) (made parts.new passed)) }
    ensures sound { IfOk result (IsSoundMade parts.new) }
    ensures met { OnOk result (met.new ≡ latest met.old (step_meets (task_of parts.old.state (remaining.Runs (stage.Running instance))))) }
{
    laws::steps_are_sound();
    let (place, move_result) = match instance.make_placed_move(alloc, parts.state.links.plan()) {
        Ok(placed) => placed,
        Err(memory) => {
            drop(instance);
            return Err(memory.into());
        }
    };
    match note(met, place, &move_result) {
        Ok(()) => {}
        Err(memory) => {
            drop((move_result, instance));
            return Err(memory);
        }
    }
    match move_result {
        MoveResult::Moved(effects) => apply_effects(
            parts,
            alloc,
            instance,
            effects,
            &mut TaskPool::new(alloc),
        ),
        MoveResult::Returned(value) => {
            drop(instance);
            Ok(pass(parts, Remaining::Runs(Stage::Returned(value))))
        }
        MoveResult::Faulted(fault) => {
            drop(instance);
            Ok(pass(parts, Remaining::Runs(Stage::Faulted(fault))))
        }
    }
}

// A move of the task's instance, or its stop, by where the instance stands.
fn run_placed(
    parts: &mut Parts<All>,
    alloc: Global,
    stage: Stage,
    met: &mut Option<PlacedFault>,
) -> Result<Passed<All>, Memory>
    requires { IsSound parts.old.state (remaining.Runs stage) }
    ensures step { IfOk result (λ passed. IsStep (view_of parts.old.state (remaining.Runs stage)) (made parts.new passed)) }
    ensures sound { IfOk result (IsSoundMade parts.new) }
    ensures met { OnOk result (met.new ≡ latest met.old (step_meets (task_of parts.old.state (remaining.Runs stage)))) }
{
    match stage {
        Stage::Running(instance) => go_placed(parts, alloc, instance, met),
        stage => run(parts, alloc, stage, &mut TaskPool::new(alloc)),
    }
}

// A move of the task in place, or its stop, by what remains.
fn remaining_placed(
    parts: &mut Parts<All>,
    alloc: Global,
    remaining: Remaining,
    met: &mut Option<PlacedFault>,
) -> Result<Passed<All>, Memory>
    requires { IsSound parts.old.state remaining }
    ensures step { IfOk result (λ passed. IsStep (view_of parts.old.state remaining) (made parts.new passed)) }
    ensures sound { IfOk result (IsSoundMade parts.new) }
    ensures met { OnOk result (met.new ≡ latest met.old (step_meets (task_of parts.old.state remaining))) }
{
    match remaining {
        Remaining::Runs(stage) => run_placed(parts, alloc, stage, met),
        remaining => pass_with(parts, alloc, remaining, &mut TaskPool::new(alloc)),
    }
}

// A move of the task in place, or its stop.
fn pass_placed(
    parts: &mut Parts<All>,
    alloc: Global,
    met: &mut Option<PlacedFault>,
) -> Result<Passed<All>, Memory>
    requires { IsSound parts.old.state parts.old.remaining }
    ensures step { IfOk result (λ passed. IsStep (view_of parts.old.state parts.old.remaining) (made parts.new passed)) }
    ensures sound { IfOk result (IsSoundMade parts.new) }
    ensures met { OnOk result (met.new ≡ latest met.old (step_meets (task_of parts.old.state parts.old.remaining))) }
{
    let remaining = mem::replace(&mut parts.remaining, Remaining::nothing());
    remaining_placed(parts, alloc, remaining, met)
}

impl Task<All> {
    ghost use Rattle.strand_machine.specs.Placed.{IsPlaced};

    /// Runs to the next stop as `advance` does, and tells where the task's instance stood, if it met a fault of its own on the way. On
    /// `Memory` the task is dropped.
    pub fn advance_placed(self, alloc: Global) -> Result<PlacedStop, Memory>
        requires { self.cut ≡ None }
        ensures { IfOk result (IsPlaced self) }
    {
        laws::moves_fall();
        laws::stops_are_sound();
        let Task { mut parts } = self;
        let mut met = None;
        loop {
            match pass_placed(&mut parts, alloc, &mut met)? {
                Passed::Continues => {}
                passed => {
                    let stop = to_stop(parts, passed);
                    return Ok(PlacedStop { stop, met });
                }
            }
        }
    }
}
