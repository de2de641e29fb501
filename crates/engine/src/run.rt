// Runs a script in each way, and makes the report of the run.

ghost use Rattle.std.specs.Prelude.{◌≡◌, ◌≤◌, ◌++◌, [], IfErr, IfOk, length};
ghost use Rattle.std.specs.Arc.{arc_value};
ghost use Rattle.ped_words.specs.Commands.{AreLawful, IsWorkers};
ghost use Rattle.script_check.specs.Valid.{IsValid};
ghost use Rattle.serial_meaning.specs.Eval.{main_origin};
ghost use Rattle.serial_meaning.specs.KeptLines.{KeepsLines};
ghost use Rattle.serial_meaning.specs.Prints.{is_print};
ghost use Rattle.serial_meaning.specs.Render.{IsWhole, end_line};
ghost use Rattle.strand_meaning.specs.Laws.{IsFaultOf};
ghost use Rattle.strand_meaning.specs.Strands.{strand_at};
ghost use Rattle.engine.specs.Promise.{most_bytes};
ghost use Rattle.engine.specs.Refusal.{IsRejection};
ghost use Rattle.engine.specs.Report.{IsPlanIn, IsPlanOf, IsReplayOf, IsRunOf, IsSimOf, IsSpanOf, IsSpanReport, found_report, outcome_ending, plan_of, run_report, report_view, span_lines, strand_report, worker_line};

use crate::output::Output;
use crate::refusal::Refusal;
use crate::report::{Report, ReportEnd};
use crate::script::valid_script;
use crew::{Gate, run_crew_of_lines, run_crew_of_prints, run_serial_keeping};
use ped_path::Pedigree;
use ped_words::Settings;
use replay::{ReplayError, replay};
use sched_core::{Simulated, simulate};
use script_check::Checked;
use serial_meaning::{
    Answer, Keep, Lined, Memory, Out, Outcome, Plan, Prints, Show, Strand, laws, render_strand,
};
use span_report::{Span, span};
use std::alloc::{AllocError, Global};
use std::sync::{Arc, Wait};
use std::thread::Threads;

// The plan of a script with these settings.
pub(crate) fn make_plan(settings: Settings, script: Checked) -> Plan
    requires { AreLawful settings }
    ensures { result ≡ plan_of settings script }
{
    let Settings {
        gamma,
        limits,
        show,
        rounds,
    } = settings;
    Plan::new(script, gamma, limits, show, rounds)
}

// The plan of the script with this text, which is judged first.
#[tactic(auto, using(crate::proofs::BatchLemmas::only_plan))]
pub(crate) fn plan_script(
    alloc: Global,
    settings: Settings,
    bytes: &[u8],
) -> Result<Arc<Plan>, Refusal>
    requires lawful { AreLawful settings }
    requires within { length bytes.now ≤ most_bytes }
    ensures plan { IfOk result (λ plan. IsPlanOf settings bytes.now (arc_value plan)) }
    ensures only { IfOk result (λ plan. IsPlanIn settings bytes.now (arc_value plan)) }
    ensures refused { IfErr result (IsRejection IsValid bytes.now) }
{
    let script = valid_script(alloc, bytes)?;
    Ok(Arc::new(alloc, make_plan(settings, script))?)
}

fn ending_for(outcome: &Outcome) -> ReportEnd
    ensures { result ≡ outcome_ending outcome.now }
{
    match outcome {
        Outcome::Fault(_) => ReportEnd::Faulted,
        _ => ReportEnd::Done,
    }
}

// The report of an answer of main that keeps its prints alone, where the plan shows values only.
fn prints_report(alloc: Global, answer: Answer<Prints>) -> Report
    requires main { answer.origin ≡ main_origin answer.plan }
    requires whole { IsWhole answer.outcome }
    requires lines { KeepsLines is_print answer.plan.show }
    ensures { report_view result ≡ run_report answer.plan }
{
    laws::whole_answers_are_evals();
    let ending = ending_for(&answer.outcome);
    Report {
        output: Output::prints(alloc, answer),
        ending,
    }
}

// The report of an answer of main that keeps the events that have a line.
fn lines_report(alloc: Global, answer: Answer<Lined>) -> Report
    requires main { answer.origin ≡ main_origin answer.plan }
    requires whole { IsWhole answer.outcome }
    ensures { report_view result ≡ run_report answer.plan }
{
    laws::whole_answers_are_evals();
    let ending = ending_for(&answer.outcome);
    Report {
        output: Output::lines(alloc, answer),
        ending,
    }
}

// The report of an answer of main that keeps all events, with a text before its lines.
fn log_report(text: Vec<u8>, answer: Answer) -> Report
    requires main { answer.origin ≡ main_origin answer.plan }
    requires whole { IsWhole answer.outcome }
    ensures output { result.output ≡ text.items ++ (run_report answer.plan).output }
    ensures ending { result.ending ≡ (run_report answer.plan).ending }
{
    laws::whole_answers_are_evals();
    let ending = ending_for(&answer.outcome);
    Report {
        output: Output::log(text, answer),
        ending,
    }
}

// Runs main on the caller's thread.
fn run_serially<K: Keep>(alloc: Global, plan: &Arc<Plan>) -> Result<Answer<K>, crew::Memory>
    ensures plan { IfOk result (λ answer. answer.plan ≡ arc_value plan.now) }
    ensures origin { IfOk result (λ answer. answer.origin ≡ main_origin (arc_value plan.now)) }
    ensures fault { IfOk result (λ answer. IsFaultOf (arc_value plan.now) answer.outcome) }
{
    let origin = plan.main_origin(alloc)?;
    run_serial_keeping(alloc, plan, origin)
}

// Runs the script with this text on the caller's thread.
#[tactic(auto, using(crate::proofs::KeptLemmas::prints_kept_of))]
pub(crate) fn report_serial_run(
    alloc: Global,
    settings: Settings,
    bytes: &[u8],
) -> Result<Report, Refusal>
    requires lawful { AreLawful settings }
    requires within { length bytes.now ≤ most_bytes }
    ensures report { IfOk result (λ report. IsRunOf settings bytes.now (report_view report)) }
    ensures refused { IfErr result (IsRejection IsValid bytes.now) }
{
    let plan = plan_script(alloc, settings, bytes)?;
    match plan.show {
        Show::Plain => {
            let prints: Answer<Prints> = run_serially(alloc, &plan)?;
            Ok(prints_report(alloc, prints))
        }
        Show::Log => {
            let lines: Answer<Lined> = run_serially(alloc, &plan)?;
            Ok(lines_report(alloc, lines))
        }
    }
}

// The same on this many workers. The gate is told of their tasks.
#[tactic(auto, using(crate::proofs::KeptLemmas::prints_kept_of))]
pub(crate) fn report_crew_run<R: Threads + Wait + Sync, G: Gate + Sync>(
    rt: &R,
    alloc: Global,
    settings: Settings,
    workers: u32,
    bytes: &[u8],
    gate: &G,
) -> Result<Report, Refusal>
    requires lawful { AreLawful settings }
    requires workers { IsWorkers workers }
    requires within { length bytes.now ≤ most_bytes }
    ensures report { IfOk result (λ report. IsRunOf settings bytes.now (report_view report)) }
    ensures refused { IfErr result (IsRejection IsValid bytes.now) }
{
    let plan = plan_script(alloc, settings, bytes)?;
    match plan.show {
        Show::Plain => {
            let prints = run_crew_of_prints(rt, alloc, &plan, workers, gate)?;
            Ok(prints_report(alloc, prints))
        }
        Show::Log => {
            let lines = run_crew_of_lines(rt, alloc, &plan, workers, gate)?;
            Ok(lines_report(alloc, lines))
        }
    }
}

fn worker_line(alloc: Global, worker: u32) -> Result<Vec<u8>, AllocError>
    ensures { IfOk result (λ line. line.items ≡ worker_line worker) }
{
    let line = format!(in alloc; "worker {worker}\n")?;
    Ok(line.into_bytes())
}

// The report of a simulation: the worker, and then main's answer.
fn sim_report(alloc: Global, simulated: Simulated) -> Result<Report, AllocError>
    requires main { simulated.answer.origin ≡ main_origin simulated.answer.plan }
    requires whole { IsWhole simulated.answer.outcome }
    ensures output { IfOk result (λ report. report.output ≡ worker_line simulated.worker ++ (run_report simulated.answer.plan).output) }
    ensures ending { IfOk result (λ report. report.ending ≡ (run_report simulated.answer.plan).ending) }
{
    let Simulated { answer, worker } = simulated;
    let text = worker_line(alloc, worker)?;
    Ok(log_report(text, answer))
}

// Simulates a run of the script with this text on this many workers. The number picks the schedule.
pub(crate) fn report_simulation(
    alloc: Global,
    settings: Settings,
    workers: u32,
    number: u64,
    bytes: &[u8],
) -> Result<Report, Refusal>
    requires lawful { AreLawful settings }
    requires workers { IsWorkers workers }
    requires within { length bytes.now ≤ most_bytes }
    ensures report { IfOk result (λ report. IsSimOf settings workers number bytes.now (report_view report)) }
    ensures refused { IfErr result (IsRejection IsValid bytes.now) }
{
    let plan = plan_script(alloc, settings, bytes)?;
    let simulated = simulate(alloc, &plan, workers, number)?;
    Ok(sim_report(alloc, simulated)?)
}

// The line of the fault by which an answer ended, if one did.
fn end_line(alloc: Global, outcome: Outcome) -> Result<Vec<u8>, Memory>
    ensures { IfOk result (λ line. line.items ≡ end_line outcome) }
{
    match outcome {
        Outcome::Fault(fault) => {
            let end = Strand {
                events: Out::new(),
                fault: Some(fault),
            };
            render_strand(alloc, &end)
        }
        _ => Ok(Vec::new(alloc)),
    }
}

fn span_lines(alloc: Global, measured: Span) -> Result<Vec<u8>, AllocError>
    ensures { IfOk result (λ lines. lines.items ≡ span_lines measured.work measured.span) }
{
    let Span { work, span } = measured;
    let lines = format!(in alloc; "work {work}\nspan {span}\n")?;
    Ok(lines.into_bytes())
}

fn into_outcome(answer: Answer) -> Outcome
    ensures { result ≡ answer.outcome }
{
    answer.outcome
}

// The report of the work and span of main's answer, and of its fault.
fn measure_report(alloc: Global, answer: Answer) -> Result<Report, Memory>
    requires main { answer.origin ≡ main_origin answer.plan }
    requires whole { IsWhole answer.outcome }
    ensures { IfOk result (λ report. IsSpanReport answer.plan (report_view report)) }
{
    laws::whole_answers_are_evals();
    let measured = span(alloc, &answer);
    let ending = ending_for(&answer.outcome);
    let end = end_line(alloc, into_outcome(answer));
    let measured = measured?;
    let mut output = span_lines(alloc, measured)?;
    let end = end?;
    output.extend_from_slice(&end)?;
    Ok(Report {
        output: Output::text(output),
        ending,
    })
}

// Runs the script with this text on the caller's thread, and reports work and span.
pub(crate) fn report_span(
    alloc: Global,
    settings: Settings,
    bytes: &[u8],
) -> Result<Report, Refusal>
    requires lawful { AreLawful settings }
    requires within { length bytes.now ≤ most_bytes }
    ensures report { IfOk result (λ report. IsSpanOf settings bytes.now (report_view report)) }
    ensures refused { IfErr result (IsRejection IsValid bytes.now) }
{
    let plan = plan_script(alloc, settings, bytes)?;
    let answer = run_serially(alloc, &plan)?;
    Ok(measure_report(alloc, answer)?)
}

// The report of a strand.
fn strand_report(alloc: Global, strand: Strand) -> Report
    ensures { report_view result ≡ strand_report strand }
{
    let ending = match &strand.fault {
        Some(_) => ReportEnd::Faulted,
        None => ReportEnd::Done,
    };
    Report {
        output: Output::strand(alloc, strand),
        ending,
    }
}

// A report without output.
fn empty_report(alloc: Global, ending: ReportEnd) -> Report
    ensures { report_view result ≡ record { output = []; ending = ending } }
{
    Report {
        output: Output::text(Vec::new(alloc)),
        ending,
    }
}

// Replays the strand with this pedigree under the plan.
fn replay_report(alloc: Global, plan: &Arc<Plan>, at: Pedigree) -> Result<Report, Refusal>
    ensures report { IfOk result (λ report. report_view report ≡ found_report at (strand_at (arc_value plan.now) at)) }
    ensures refused { IfErr result (λ refusal. refusal ≡ Refusal.Memory) }
{
    match replay(alloc, plan, &at) {
        Ok(strand) => Ok(strand_report(alloc, strand)),
        Err(ReplayError::NoStrand) => Ok(empty_report(alloc, ReportEnd::NoStrand(at))),
        Err(ReplayError::Blocked(fault)) => Ok(empty_report(alloc, ReportEnd::Blocked(fault))),
        Err(ReplayError::Memory) => Err(Refusal::Memory),
    }
}

// Replays the strand with this pedigree in the script with this text.
pub(crate) fn report_replay(
    alloc: Global,
    settings: Settings,
    at: Pedigree,
    bytes: &[u8],
) -> Result<Report, Refusal>
    requires lawful { AreLawful settings }
    requires within { length bytes.now ≤ most_bytes }
    ensures report { IfOk result (λ report. IsReplayOf settings at bytes.now (report_view report)) }
    ensures refused { IfErr result (IsRejection IsValid bytes.now) }
{
    let plan = plan_script(alloc, settings, bytes)?;
    replay_report(alloc, &plan, at)
}
