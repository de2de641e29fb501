// What a task shows on its way to its next stop, as far as one pedigree goes.
ghost use Rattle.std.specs.Prelude.{◌≡◌, ◌++◌, ◌∷◌, [], None, IfOk, OnOk};
ghost use Rattle.serial_meaning.specs.Open.{Happened};
ghost use Rattle.strand_meaning.specs.Observation.{step_observation};
ghost use Rattle.strand_meaning.specs.Strands.{events_at};
ghost use Rattle.strand_machine.specs.Probes.{probe_after};
ghost use Rattle.strand_machine.specs.Made.{IsSoundMade, made};
ghost use Rattle.strand_machine.specs.Observed.{result_observation, with_step};
ghost use Rattle.strand_machine.specs.Stops.{IsStep};
ghost use Rattle.strand_machine.specs.Tasks.{IsSound, view_of, task_of};
ghost use Rattle.strand_machine.specs.declared.remaining.Stage.TheVariants as stage;
ghost use Rattle.strand_machine.specs.declared.remaining.Remaining.TheVariants as remaining;

use crate::leave::pass;
use crate::memory::Memory;
use crate::parts::Parts;
use crate::probe::{StrandProbe, pedigree};
use crate::remaining::{Remaining, Stage};
use crate::replace::set;
use crate::run::apply_effects;
use crate::step::{pass_with, run, to_stop};
use crate::stop::{Passed, Stop};
use crate::task::Task;
use crate::task_pool::TaskPool;
use ped_path::Pedigree;
use serial_meaning::{All, Event, Fault, Out};
use std::alloc::Global;
use std::mem;
use strand_meaning::laws;
use strand_moves::{Effects, Instance, MoveResult};

/// What a task came to, and what it showed on its way there, for one pedigree.
#[derive(Drop)]
pub struct ObservedStop {
    /// Where the task stopped.
    pub stop: Stop<All>,
    /// What was seen of the pedigree so far.
    pub probe: StrandProbe,
    /// The task's own events with the pedigree that came in this call, in order.
    pub events: Out<All>,
    /// The task's own fault, if it came in this call.
    pub fault: Option<Fault>,
    /// The least fault of the children for which the task waited, if the task ended by it in this call.
    pub child_fault: Option<Fault>,
}

// What is observed on the way.
#[derive(Drop)]
pub(crate) struct Observed {
    pub probe: StrandProbe,
    pub events: Out<All>,
    pub fault: Option<Fault>,
    pub child_fault: Option<Fault>,
}

// The same event. Its pedigree shares its memory.
fn share_event(event: &Event) -> Result<Event, Memory>
    ensures { IfOk result (λ shared. shared ≡ event.now) }
{
    Ok(match event {
        Event::Print(at, value) => Event::Print(at.share()?, value.share()?),
        Event::Draw(at, number) => Event::Draw(at.share()?, *number),
        Event::New(at) => Event::New(at.share()?),
        Event::Spawn(at) => Event::Spawn(at.share()?),
        Event::Sync(at) => Event::Sync(at.share()?),
        Event::Loop(at) => Event::Loop(at.share()?),
    })
}

impl Observed {
    // Nothing yet.
    fn new(probe: StrandProbe) -> Observed
        ensures { result ≡ record { probe = probe; events = []; fault = None; child_fault = None } }
    {
        Observed {
            probe,
            events: Out::new(),
            fault: None,
            child_fault: None,
        }
    }

    // One more event of the task's own. It is kept where it has this pedigree.
    fn emit(&mut self, alloc: Global, at: &Pedigree, event: &Event) -> Result<(), Memory>
        ensures { OnOk result (self.new ≡ record self.old { probe = probe_after at.now self.old.probe (Happened event.now ∷ []); events = self.old.events ++ events_at at.now (event.now ∷ []) }) }
    {
        self.probe.emit(at, event);
        if pedigree(event).same(at) {
            self.events.push(alloc, share_event(event)?)?;
        }
        Ok(())
    }

    // One more move of the task's instance.
    fn observe(
        &mut self,
        alloc: Global,
        at: &Pedigree,
        move_result: &MoveResult,
    ) -> Result<(), Memory>
        ensures { OnOk result (self.new ≡ with_step at.now (result_observation move_result.now) self.old) }
    {
        match move_result {
            MoveResult::Moved(Effects::Nothing) => {}
            MoveResult::Moved(Effects::Opened(path)) => self.probe.enter_scope(at, path),
            MoveResult::Moved(Effects::Closed(scope)) => self.probe.leave_scope(at, scope),
            MoveResult::Moved(Effects::Emitted(event)) => self.emit(alloc, at, event)?,
            MoveResult::Moved(Effects::Synced(event)) => self.emit(alloc, at, event)?,
            MoveResult::Moved(Effects::Spawned { event, .. }) => self.emit(alloc, at, event)?,
            MoveResult::Moved(Effects::Looped { event, .. }) => self.emit(alloc, at, event)?,
            MoveResult::Returned(_) => {}
            MoveResult::Faulted(fault) => set(&mut self.fault, Some(fault.share()?)),
        }
        Ok(())
    }
}

// One move of the instance, which is observed.
fn go_observed(
    parts: &mut Parts<All>,
    alloc: Global,
    at: &Pedigree,
    mut instance: Instance,
    observation: &mut Observed,
) -> Result<Passed<All>, Memory>
    requires { IsSound parts.old.state (remaining.Runs (stage.Running instance)) }
    ensures step { IfOk result (λ passed. IsStep (view_of parts.old.state (remaining.Runs (stage.Running instance))) (made parts.new passed)) }
    ensures sound { IfOk result (IsSoundMade parts.new) }
    ensures observation { OnOk result (observation.new ≡ with_step at.now (step_observation (task_of parts.old.state (remaining.Runs (stage.Running instance)))) observation.old) }
{
    laws::steps_are_sound();
    let move_result = match instance.make_move(alloc, parts.state.links.plan()) {
        Ok(move_result) => move_result,
        Err(memory) => {
            drop(instance);
            return Err(memory.into());
        }
    };
    match observation.observe(alloc, at, &move_result) {
        Ok(()) => {}
        Err(memory) => {
            drop((move_result, instance));
            return Err(memory);
        }
    }
    match move_result {
        MoveResult::Moved(effects) => apply_effects(
            parts,
            alloc,
            instance,
            effects,
            &mut TaskPool::new(alloc),
        ),
        MoveResult::Returned(value) => {
            drop(instance);
            Ok(pass(parts, Remaining::Runs(Stage::Returned(value))))
        }
        MoveResult::Faulted(fault) => {
            drop(instance);
            Ok(pass(parts, Remaining::Runs(Stage::Faulted(fault))))
        }
    }
}

// A move of the task's instance, or its stop, by where the instance stands, which is observed.
fn run_observed(
    parts: &mut Parts<All>,
    alloc: Global,
    at: &Pedigree,
    stage: Stage,
    observation: &mut Observed,
) -> Result<Passed<All>, Memory>
    requires { IsSound parts.old.state (remaining.Runs stage) }
    ensures step { IfOk result (λ passed. IsStep (view_of parts.old.state (remaining.Runs stage)) (made parts.new passed)) }
    ensures sound { IfOk result (IsSoundMade parts.new) }
    ensures observation { OnOk result (observation.new ≡ with_step at.now (step_observation (task_of parts.old.state (remaining.Runs stage))) observation.old) }
{
    match stage {
        Stage::Running(instance) => go_observed(parts, alloc, at, instance, observation),
        Stage::ChildFaulted(fault) => {
            set(&mut observation.child_fault, Some(fault.share()?));
            run(
                parts,
                alloc,
                Stage::ChildFaulted(fault),
                &mut TaskPool::new(alloc),
            )
        }
        stage => run(parts, alloc, stage, &mut TaskPool::new(alloc)),
    }
}

// A move of the task in place, or its stop, by what remains, which is observed.
fn remaining_observed(
    parts: &mut Parts<All>,
    alloc: Global,
    at: &Pedigree,
    remaining: Remaining,
    observation: &mut Observed,
) -> Result<Passed<All>, Memory>
    requires { IsSound parts.old.state remaining }
    ensures step { IfOk result (λ passed. IsStep (view_of parts.old.state remaining) (made parts.new passed)) }
    ensures sound { IfOk result (IsSoundMade parts.new) }
    ensures observation { OnOk result (observation.new ≡ with_step at.now (step_observation (task_of parts.old.state remaining)) observation.old) }
{
    match remaining {
        Remaining::Runs(stage) => run_observed(parts, alloc, at, stage, observation),
        remaining => pass_with(parts, alloc, remaining, &mut TaskPool::new(alloc)),
    }
}

// A move of the task in place, or its stop, which is observed.
fn pass_observed(
    parts: &mut Parts<All>,
    alloc: Global,
    at: &Pedigree,
    observation: &mut Observed,
) -> Result<Passed<All>, Memory>
    requires { IsSound parts.old.state parts.old.remaining }
    ensures step { IfOk result (λ passed. IsStep (view_of parts.old.state parts.old.remaining) (made parts.new passed)) }
    ensures sound { IfOk result (IsSoundMade parts.new) }
    ensures observation { OnOk result (observation.new ≡ with_step at.now (step_observation (task_of parts.old.state parts.old.remaining)) observation.old) }
{
    let remaining = mem::replace(&mut parts.remaining, Remaining::nothing());
    remaining_observed(parts, alloc, at, remaining, observation)
}

impl Task<All> {
    ghost use Rattle.strand_meaning.specs.Observation.{IsInstanceOrigin};
    ghost use Rattle.strand_machine.specs.Observed.{IsObserved};

    /// Runs to the next stop as `advance` does, and observes what the task itself does on its way in the strand of this pedigree. The probe
    /// has what was seen of it before. On `Memory` the task is dropped.
    pub fn advance_observed(
        self,
        alloc: Global,
        at: &Pedigree,
        probe: StrandProbe,
    ) -> Result<ObservedStop, Memory>
        requires instance { IsInstanceOrigin self.task.origin }
        requires goes_on { self.cut ≡ None }
        ensures { IfOk result (IsObserved self at.now probe) }
    {
        laws::moves_fall();
        laws::stops_are_sound();
        let Task { mut parts } = self;
        let mut observation = Observed::new(probe);
        loop {
            match pass_observed(&mut parts, alloc, at, &mut observation)? {
                Passed::Continues => {}
                passed => {
                    let stop = to_stop(parts, passed);
                    let Observed {
                        probe,
                        events,
                        fault,
                        child_fault,
                    } = observation;
                    return Ok(ObservedStop {
                        stop,
                        probe,
                        events,
                        fault,
                        child_fault,
                    });
                }
            }
        }
    }
}
