// The steps of a core, by kind of event.
ghost use Rattle.std.specs.Prelude.{◌≡◌, true, false, None, IfOk, OnOk};
ghost use Rattle.sched_meaning.specs.declared.event.CoreEvent.TheVariants as event;
ghost use Rattle.sched_core.specs.Cores.{core_of};
ghost use Rattle.sched_core.specs.Lawful.{may_happen};
ghost use Rattle.sched_core.specs.Moves.{CanResume, Resumes};
ghost use Rattle.sched_core.specs.Consistent.{StepsTo, IsConsistent};

use crate::job::Job;
use crate::node::SpawnNode;
use crate::state::CoreState;
use crate::stops::stop;
use sched_meaning::CoreEvent;
use std::alloc::Global;
use strand_machine::Memory;

// The worker's current task comes to its next stop.
fn run(state: &mut CoreState, alloc: Global, w: u32) -> Result<(), Memory>
    requires consistent { IsConsistent state.old }
    requires root { state.old.root ≡ None }
    requires lawful { may_happen (core_of false state.old) (event.Run w) ≡ true }
    ensures { OnOk result (StepsTo (event.Run w) state.old state.new) }
{
    if state.runs == u64::MAX {
        return Err(Memory);
    }
    let runs = state.runs + 1;
    let Job { task, number } = state.workers[w as usize].take_current();
    let stopped = task.advance(alloc)?;
    stop(state, alloc, w as usize, number, stopped)?;
    state.runs = runs;
    Ok(())
}

// The task at the back of the worker's deque becomes its current one.
fn pop(state: &mut CoreState, w: u32)
    requires consistent { IsConsistent state.old }
    requires root { state.old.root ≡ None }
    requires lawful { may_happen (core_of false state.old) (event.Pop w) ≡ true }
    ensures { StepsTo (event.Pop w) state.old state.new }
{
    let job = state.workers[w as usize].pop_back();
    state.workers[w as usize].set_current(job);
}

// The task at the front of the victim's deque becomes the thief's current one.
fn steal(state: &mut CoreState, thief: u32, victim: u32)
    requires consistent { IsConsistent state.old }
    requires root { state.old.root ≡ None }
    requires lawful { may_happen (core_of false state.old) (event.Steal thief victim) ≡ true }
    ensures { StepsTo (event.Steal thief victim) state.old state.new }
{
    let job = state.workers[victim as usize].pop_front();
    state.workers[thief as usize].set_current(job);
}

// The task, once it has taken the answers of its children, which have all answered.
fn resume(nodes: &mut Vec<SpawnNode>, alloc: Global, job: Job) -> Result<Job, Memory>
    requires { CanResume nodes.old.items job }
    ensures { IfOk result (λ next. Resumes job next nodes.old.items nodes.new.items) }
{
    let Job { task, number } = job;
    let answers = nodes[number].take_answers(alloc)?;
    let task = task.resume_with(alloc, answers)?;
    Ok(Job { task, number })
}

// The worker's stalled task with this index continues if all its children have answered. Else it goes to the end of the stalled
// tasks.
fn look(state: &mut CoreState, alloc: Global, w: u32, place: u32) -> Result<(), Memory>
    requires consistent { IsConsistent state.old }
    requires root { state.old.root ≡ None }
    requires lawful { may_happen (core_of false state.old) (event.Look w place) ≡ true }
    ensures { OnOk result (StepsTo (event.Look w place) state.old state.new) }
{
    let job = state.workers[w as usize].take_stalled(place);
    if state.nodes[job.number].is_ready() {
        let job = resume(&mut state.nodes, alloc, job)?;
        state.workers[w as usize].set_current(job);
        return Ok(());
    }
    state.workers[w as usize].stall(job)
}

// The step of an event that may happen.
pub(crate) fn take_event(
    state: &mut CoreState,
    alloc: Global,
    event: CoreEvent,
) -> Result<(), Memory>
    requires consistent { IsConsistent state.old }
    requires root { state.old.root ≡ None }
    requires lawful { may_happen (core_of false state.old) event ≡ true }
    ensures { OnOk result (StepsTo event state.old state.new) }
{
    match event {
        CoreEvent::Run(w) => run(state, alloc, w),
        CoreEvent::Pop(w) => {
            pop(state, w);
            Ok(())
        }
        CoreEvent::Steal { thief, victim } => {
            steal(state, thief, victim);
            Ok(())
        }
        CoreEvent::Look { worker, place } => look(state, alloc, worker, place),
        CoreEvent::Idle(_) => Ok(()),
    }
}
