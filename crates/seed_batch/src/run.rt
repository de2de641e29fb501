// Main under many plans, on one crew.
ghost use Rattle.std.specs.Prelude.{◌≡◌, ◌≤◌, IfOk, length, map};
ghost use Rattle.std.specs.Arc.{arc_value};
ghost use Rattle.seed_batch.specs.Batch.{main_answer};

use contract_views::Items;
use crew::{Crew, Gate, Memory, run_roots, run_roots_of_lines, run_roots_of_prints};
use serial_meaning::{Answer, Lined, Plan, Prints};
use std::alloc::Global;
use std::sync::{Arc, Wait};
use std::thread::Threads;

/// Runs main under each plan, all on one crew of this many workers: hand 0 in the calling thread, each other hand in a
/// thread of its own. The answers are in the order of the plans. Plans may be equal. A fault under one plan ends
/// nothing under another.
///
/// A hand for which the system refuses a thread is left out; the others finish without it. `Memory` where memory ran
/// out for any of the plans: then there are no answers.
pub fn run_batch<R: Threads + Wait + Sync, G: Gate + Sync>(
    rt: &R,
    alloc: Global,
    plans: &Items<Arc<Plan>>,
    workers: u32,
    gate: &G,
) -> Result<Items<Answer>, Memory>
    requires plans { (1 ≤ length plans.now) × (length plans.now ≤ 256) }
    requires workers { (1 ≤ workers) × (workers ≤ 64) }
    ensures { IfOk result (λ answers. answers ≡ map main_answer (map arc_value plans.now)) }
{
    let (roots, hands) = Crew::many(alloc, plans, workers)?;
    run_roots(rt, alloc, roots, hands, gate)
}

/// The same, with answers that keep the events that have a line: enough for all plans, and less memory.
pub fn run_batch_of_lines<R: Threads + Wait + Sync, G: Gate + Sync>(
    rt: &R,
    alloc: Global,
    plans: &Items<Arc<Plan>>,
    workers: u32,
    gate: &G,
) -> Result<Items<Answer<Lined>>, Memory>
    requires plans { (1 ≤ length plans.now) × (length plans.now ≤ 256) }
    requires workers { (1 ≤ workers) × (workers ≤ 64) }
    ensures { IfOk result (λ answers. answers ≡ map main_answer (map arc_value plans.now)) }
{
    let (roots, hands) = Crew::many_keeping(alloc, plans, workers)?;
    run_roots_of_lines(rt, alloc, roots, hands, gate)
}

/// The same, with answers that keep their prints alone: enough for plans that show values only, and less memory.
pub fn run_batch_of_prints<R: Threads + Wait + Sync, G: Gate + Sync>(
    rt: &R,
    alloc: Global,
    plans: &Items<Arc<Plan>>,
    workers: u32,
    gate: &G,
) -> Result<Items<Answer<Prints>>, Memory>
    requires plans { (1 ≤ length plans.now) × (length plans.now ≤ 256) }
    requires workers { (1 ≤ workers) × (workers ≤ 64) }
    ensures { IfOk result (λ answers. answers ≡ map main_answer (map arc_value plans.now)) }
{
    let (roots, hands) = Crew::many_keeping(alloc, plans, workers)?;
    run_roots_of_prints(rt, alloc, roots, hands, gate)
}
