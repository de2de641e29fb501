// A core that the words of a seed drive.
ghost use Rattle.std.specs.Prelude.{◌≡◌, ◌≤◌, None, IfOk, length};
ghost use Rattle.std.specs.Arc.{arc_value};
ghost use Rattle.serial_meaning.specs.Eval.{main_origin};
ghost use Rattle.strand_meaning.specs.Laws.{IsFaultOf};
ghost use Rattle.sched_meaning.specs.Simulation.{IsSimWorker};
ghost use Rattle.sched_core.specs.Stepped.{TakesStep};
ghost use Rattle.sched_core.specs.Consistent.{IsConsistent};

use crate::choose::pick;
use crate::new_state::new_state;
use crate::state::CoreState;
use crate::steps::take_event;
use rand_core::SeedableRng;
use rand_core::utils::NextWord;
use rand_xoshiro::SplitMix64;
use sched_meaning::CoreEvent;
use serial_meaning::{Answer, Plan};
use std::alloc::Global;
use std::sync::Arc;
use strand_machine::Memory;

/// The result of a simulation: main's answer, and the worker whose run gave it.
#[derive(Drop)]
pub struct Simulated {
    pub answer: Answer,
    pub worker: u32,
}

// The result of one step of a simulation.
#[derive(Drop)]
enum Stepped {
    Unfinished(CoreState),
    Finished(Simulated),
}

// The step that a word picks.
fn take_step(state: CoreState, alloc: Global, word: u64) -> Result<Stepped, Memory>
    requires consistent { IsConsistent state }
    requires few { length state.workers.items ≤ 64 }
    requires root { state.root ≡ None }
    ensures { IfOk result (TakesStep word state) }
{
    let mut state = state;
    let Some(event) = pick(&state, alloc, word)? else {
        unreachable!()
    };
    take_event(&mut state, alloc, event)?;
    let Some(answer) = state.root.take() else {
        return Ok(Stepped::Unfinished(state));
    };
    let CoreEvent::Run(worker) = event else {
        unreachable!()
    };
    Ok(Stepped::Finished(Simulated { answer, worker }))
}

/// Runs main on this many workers, whose events are picked by the words of the number's SplitMix64. Of the events that may happen
/// and make progress each step takes the one whose index is the word modulo how many there are. They are in this order: runs, pops,
/// steals and looks; within a kind by worker, steals by thief and then by victim, looks by worker and then by index.
pub fn simulate(
    alloc: Global,
    plan: &Arc<Plan>,
    workers: u32,
    number: u64,
) -> Result<Simulated, Memory>
    requires { (1 ≤ workers) × (workers ≤ 64) }
    ensures plan { IfOk result (λ s. s.answer.plan ≡ arc_value plan.now) }
    ensures origin { IfOk result (λ s. s.answer.origin ≡ main_origin (arc_value plan.now)) }
    ensures fault { IfOk result (λ s. IsFaultOf (arc_value plan.now) s.answer.outcome) }
    ensures worker { IfOk result (λ s. IsSimWorker (arc_value plan.now) workers number s.worker) }
{
    let mut state = new_state(alloc, plan, workers)?;
    let mut words = SplitMix64::seed_from_u64(number);
    loop {
        let word = words.next_word();
        match take_step(state, alloc, word)? {
            Stepped::Unfinished(next) => state = next,
            Stepped::Finished(simulated) => return Ok(simulated),
        }
    }
}
