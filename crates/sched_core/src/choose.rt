// The choices of a simulation: the events that may happen and make progress.
ghost use Rattle.std.specs.Prelude.{◌≡◌, ◌≤◌, [], ◌∷◌, ◌++◌, cond, false, None, IfOk, OnOk, length, map, slice_get};
ghost use Rattle.sched_meaning.specs.Simulation.{choices, is_progress, may_resume, picked, stalled_places};
ghost use Rattle.sched_meaning.specs.declared.event.CoreEvent.TheVariants as event;
ghost use Rattle.sched_core.specs.Chosen as chosen;
ghost use Rattle.sched_core.specs.Cores.{core_of, worker_of};
ghost use Rattle.sched_core.specs.Consistent.{IsConsistent};

use crate::state::CoreState;
use sched_meaning::CoreEvent;
use std::alloc::Global;
use strand_machine::Memory;

// Adds the event, if it makes progress.
fn add_choice_if(events: &mut Vec<CoreEvent>, goes_on: bool, event: CoreEvent) -> Result<(), Memory>
    ensures { OnOk result (events.new.items ≡ events.old.items ++ cond goes_on (event ∷ []) []) }
{
    if goes_on {
        events.push(event)?;
    }
    Ok(())
}

impl CoreState {
    // How many workers there are.
    fn count(&self) -> u32
        requires { length self.now.workers.items ≤ 64 }
        ensures { result ≡ length self.now.workers.items }
    {
        self.workers.len() as u32
    }

    // Adds the runs that may happen.
    fn add_runs(&self, events: &mut Vec<CoreEvent>) -> Result<(), Memory>
        requires { length self.now.workers.items ≤ 64 }
        ensures { let c = core_of false self.now in OnOk result (events.new.items ≡ events.old.items ++ chosen.runs c (chosen.numbers c)) }
    {
        for w in 0..self.count() {
            add_choice_if(events, self.may_run(w), CoreEvent::Run(w))?;
        }
        Ok(())
    }

    // Adds the pops that may happen.
    fn add_pops(&self, events: &mut Vec<CoreEvent>) -> Result<(), Memory>
        requires { length self.now.workers.items ≤ 64 }
        ensures { let c = core_of false self.now in OnOk result (events.new.items ≡ events.old.items ++ chosen.pops c (chosen.numbers c)) }
    {
        for w in 0..self.count() {
            add_choice_if(events, self.may_pop(w), CoreEvent::Pop(w))?;
        }
        Ok(())
    }

    // Adds the steals of one thief that may happen.
    fn add_steals_of(&self, events: &mut Vec<CoreEvent>, thief: u32) -> Result<(), Memory>
        requires { length self.now.workers.items ≤ 64 }
        ensures { OnOk result (events.new.items ≡ events.old.items ++ chosen.steals_by (core_of false self.now) thief) }
    {
        for victim in 0..self.count() {
            add_choice_if(
                events,
                self.may_steal(thief, victim),
                CoreEvent::Steal { thief, victim },
            )?;
        }
        Ok(())
    }

    // Adds the steals that may happen.
    fn add_steals(&self, events: &mut Vec<CoreEvent>) -> Result<(), Memory>
        requires { length self.now.workers.items ≤ 64 }
        ensures { let c = core_of false self.now in OnOk result (events.new.items ≡ events.old.items ++ chosen.steals c (chosen.numbers c)) }
    {
        for thief in 0..self.count() {
            self.add_steals_of(events, thief)?;
        }
        Ok(())
    }

    // Whether all children of the worker's stalled task with this index have answered.
    fn is_ready(&self, w: u32, place: u32) -> bool
        requires consistent { IsConsistent self.now }
        ensures { result ≡ may_resume (core_of false self.now) place (slice_get (map worker_of self.now.workers.items) w) }
    {
        let Some(worker) = self.workers.get(w as usize) else {
            return false;
        };
        match worker.stalled_number(place) {
            Some(number) => self.nodes[number].is_ready(),
            None => false,
        }
    }

    // Whether this look makes progress.
    fn may_resume(&self, w: u32, place: u32) -> bool
        requires consistent { IsConsistent self.now }
        ensures { result ≡ is_progress (core_of false self.now) (event.Look w place) }
    {
        self.is_free(w) && self.is_ready(w, place)
    }

    // How many tasks of the worker are stalled.
    fn stalled_count(&self, w: u32) -> u32
        ensures { result ≡ length (stalled_places (slice_get (map worker_of self.now.workers.items) w)) }
    {
        match self.workers.get(w as usize) {
            Some(worker) => worker.stalled_count(),
            None => 0,
        }
    }

    // Adds the looks of one worker that make progress.
    fn add_looks_of(&self, events: &mut Vec<CoreEvent>, worker: u32) -> Result<(), Memory>
        requires consistent { IsConsistent self.now }
        ensures { OnOk result (events.new.items ≡ events.old.items ++ chosen.looks_by (core_of false self.now) worker) }
    {
        for place in 0..self.stalled_count(worker) {
            add_choice_if(
                events,
                self.may_resume(worker, place),
                CoreEvent::Look { worker, place },
            )?;
        }
        Ok(())
    }

    // Adds the looks that make progress.
    fn add_looks(&self, events: &mut Vec<CoreEvent>) -> Result<(), Memory>
        requires consistent { IsConsistent self.now }
        requires few { length self.now.workers.items ≤ 64 }
        ensures { let c = core_of false self.now in OnOk result (events.new.items ≡ events.old.items ++ chosen.looks c (chosen.numbers c)) }
    {
        for worker in 0..self.count() {
            self.add_looks_of(events, worker)?;
        }
        Ok(())
    }

    // All choices: runs, pops, steals by thief and then by victim, and looks by worker and then by index.
    fn choices(&self, alloc: Global) -> Result<Vec<CoreEvent>, Memory>
        requires consistent { IsConsistent self.now }
        requires few { length self.now.workers.items ≤ 64 }
        requires root { self.now.root ≡ None }
        ensures { IfOk result (λ events. events.items ≡ choices (core_of false self.now)) }
    {
        let mut events = Vec::new(alloc);
        self.add_runs(&mut events)?;
        self.add_pops(&mut events)?;
        self.add_steals(&mut events)?;
        self.add_looks(&mut events)?;
        Ok(events)
    }
}

// The choice that a word picks.
pub(crate) fn pick(state: &CoreState, alloc: Global, word: u64) -> Result<Option<CoreEvent>, Memory>
    requires consistent { IsConsistent state.now }
    requires few { length state.now.workers.items ≤ 64 }
    requires root { state.now.root ≡ None }
    ensures { IfOk result (λ event. event ≡ picked (core_of false state.now) word) }
{
    let events = state.choices(alloc)?;
    let count = events.len() as u64;
    if count == 0 {
        return Ok(None);
    }
    Ok(events.get((word % count) as usize).copied())
}
