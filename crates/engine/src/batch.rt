// Runs one script under a list of seeds, and makes the report of all runs.

ghost use Rattle.std.specs.Prelude.{◌≡◌, ◌≤◌, All, IfErr, IfOk, IsTrue, length, map};
ghost use Rattle.std.specs.Arc.{arc_value};
ghost use Rattle.std.specs.List.{list_any};
ghost use Rattle.ped_words.specs.Commands.{IsWorkers};
ghost use Rattle.script_check.specs.Valid.{IsValid};
ghost use Rattle.seed_batch.specs.Batch.{main_answer};
ghost use Rattle.serial_meaning.specs.KeptLines.{KeepsLines};
ghost use Rattle.serial_meaning.specs.Plan.{PlanView};
ghost use Rattle.serial_meaning.specs.Prints.{is_print};
ghost use Rattle.engine.specs.Batches.{IsBatchOf, IsLawfulBatch, batch_ending, is_fault, plan_under, written};
ghost use Rattle.engine.specs.Promise.{most_bytes};
ghost use Rattle.engine.specs.Refusal.{IsRejection};
ghost use Rattle.engine.specs.Report.{report_view};

use crate::output::Output;
use crate::refusal::Refusal;
use crate::report::{Report, ReportEnd};
use crate::run::make_plan;
use crate::script::valid_script;
use contract_views::Items;
use crew::Gate;
use dotmix::Gamma;
use ped_words::Settings;
use script_check::Checked;
use seed_batch::{run_batch_of_lines, run_batch_of_prints};
use serial_meaning::{Answer, Keep, Limits, Lined, Outcome, Plan, Prints, Show};
use std::alloc::{AllocError, Global};
use std::sync::{Arc, Wait};
use std::thread::Threads;

/// The seeds of a batch, and the settings that its runs have in common.
#[derive(Drop)]
pub struct Batch {
    /// From 1 to 256 seeds. One may occur twice.
    pub seeds: Items<u64>,
    pub limits: Limits,
    pub show: Show,
    /// How often a draw is mixed, from 0 to 8.
    pub rounds: u32,
}

// The plan under one seed. All plans share one script.
fn plan_under(
    alloc: Global,
    batch: &Batch,
    script: &Checked,
    seed: u64,
) -> Result<Arc<Plan>, Refusal>
    requires { IsLawfulBatch batch.now }
    ensures plan { IfOk result (λ plan. arc_value plan ≡ plan_under batch.now script.now seed) }
    ensures refused { IfErr result (λ refusal. refusal ≡ Refusal.Memory) }
{
    let settings = Settings {
        gamma: Gamma::of_seed(alloc, seed, batch.limits.depth)?,
        limits: batch.limits,
        show: batch.show,
        rounds: batch.rounds,
    };
    Ok(Arc::new(alloc, make_plan(settings, script.share()?))?)
}

// The plans under all seeds, in order.
#[tactic(auto, using(crate::proofs::BatchLemmas::plan_more))]
fn plans(alloc: Global, batch: &Batch, script: &Checked) -> Result<Items<Arc<Plan>>, Refusal>
    requires { IsLawfulBatch batch.now }
    ensures plans { IfOk result (λ plans. map arc_value plans ≡ map (plan_under batch.now script.now) batch.now.seeds) }
    ensures count { IfOk result (λ plans. length plans ≡ length batch.now.seeds) }
    ensures refused { IfErr result (λ refusal. refusal ≡ Refusal.Memory) }
{
    let mut plans = Vec::new(alloc);
    for seed in batch.seeds.as_slice() {
        plans.push(plan_under(alloc, batch, script, *seed)?)?;
    }
    Ok(Items(plans))
}

fn is_fault(outcome: &Outcome) -> bool
    ensures { result ≡ is_fault outcome.now }
{
    matches!(outcome, Outcome::Fault(_))
}

fn any_fault<K: Keep>(answers: &[Answer<K>]) -> bool
    ensures { result ≡ list_any (λ answer. is_fault answer.outcome) answers.now }
{
    answers.iter().any(|answer| is_fault(&answer.outcome))
}

// A batch ends by a fault if one of its runs does.
fn ending_for<K: Keep>(answers: &[Answer<K>]) -> ReportEnd
    ensures { result ≡ batch_ending (list_any (λ answer. is_fault answer.outcome) answers.now) }
{
    if any_fault(answers) {
        ReportEnd::Faulted
    } else {
        ReportEnd::Done
    }
}

// The report of answers that keep their prints alone, where the plans show values only.
#[tactic(auto, using(crate::proofs::BatchLemmas::answers_whole, crate::proofs::BatchLemmas::answers_written))]
fn prints_report(
    alloc: Global,
    seeds: Items<u64>,
    answers: Items<Answer<Prints>>,
    plans: &Items<Arc<Plan>>,
) -> Report
    requires count { length plans.now ≡ length seeds }
    requires answers { answers ≡ map main_answer (map arc_value plans.now) }
    requires lines { All (λ (plan : PlanView). KeepsLines is_print plan.show) (map arc_value plans.now) }
    ensures { report_view result ≡ written seeds (map arc_value plans.now) }
{
    // Read for the proof: the plans are in no other line, and the contract speaks of them.
    let _plans = plans;
    let ending = ending_for(answers.as_slice());
    Report {
        output: Output::batch_of_prints(alloc, seeds, answers),
        ending,
    }
}

// The report of answers that keep the events that have a line.
#[tactic(auto, using(crate::proofs::BatchLemmas::answers_whole, crate::proofs::BatchLemmas::answers_written))]
fn lines_report(
    alloc: Global,
    seeds: Items<u64>,
    answers: Items<Answer<Lined>>,
    plans: &Items<Arc<Plan>>,
) -> Report
    requires count { length plans.now ≡ length seeds }
    requires answers { answers ≡ map main_answer (map arc_value plans.now) }
    ensures { report_view result ≡ written seeds (map arc_value plans.now) }
{
    // Read for the proof: the plans are in no other line, and the contract speaks of them.
    let _plans = plans;
    let ending = ending_for(answers.as_slice());
    Report {
        output: Output::batch_of_lines(alloc, seeds, answers),
        ending,
    }
}

fn copied(alloc: Global, seeds: &Items<u64>) -> Result<Items<u64>, AllocError>
    ensures { IfOk result (λ copy. copy ≡ seeds.now) }
{
    Ok(Items(seeds.as_slice().to_vec(alloc)?))
}

// Runs the script under each seed on this many workers, and makes the report. The gate is told of the tasks.
#[tactic(auto, using(crate::proofs::BatchLemmas::batch_is))]
pub(crate) fn report_batch<R: Threads + Wait + Sync, G: Gate + Sync>(
    rt: &R,
    alloc: Global,
    batch: &Batch,
    workers: u32,
    bytes: &[u8],
    gate: &G,
) -> Result<Report, Refusal>
    requires ready { IsLawfulBatch batch.now }
    requires workers { IsWorkers workers }
    requires within { length bytes.now ≤ most_bytes }
    ensures report { IfOk result (λ report. IsBatchOf batch.now bytes.now (report_view report)) }
    ensures refused { IfErr result (IsRejection IsValid bytes.now) }
{
    let script = valid_script(alloc, bytes)?;
    let plans = plans(alloc, batch, &script)?;
    let seeds = copied(alloc, &batch.seeds)?;
    match batch.show {
        Show::Plain => {
            let prints = run_batch_of_prints(rt, alloc, &plans, workers, gate)?;
            Ok(prints_report(alloc, seeds, prints, &plans))
        }
        Show::Log => {
            let answers = run_batch_of_lines(rt, alloc, &plans, workers, gate)?;
            Ok(lines_report(alloc, seeds, answers, &plans))
        }
    }
}
