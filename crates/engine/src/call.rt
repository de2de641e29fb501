// What a call does, from its words to its end. No function here has the error output: its line is decided before it is
// written.

ghost use Rattle.std.specs.Prelude.{◌≡◌, IfOk, IfErr, IsTrue, IsFalse, map, string_bytes};
ghost use Rattle.draw_lines.specs.Lines.{CanDraw, lines_of};
ghost use Rattle.ped_words.specs.Reading.{reading};
ghost use Rattle.ped_words.specs.Commands.{AreLawful, IsLawful, IsWorkers, is_batch};
ghost use Rattle.engine.specs.Batches.{IsLawfulBatch, batch_command};
ghost use Rattle.engine.specs.CallEnds.{Delivers, EndKeeps, EndMeans, EndRefuses, Puts, PutsWhereRoom, end_status};
ghost use Rattle.engine.specs.Commands.{RunsOnWorkers, is_whole, takes_script};
ghost use Rattle.engine.specs.Promise.{HasReport, ReadWhole, ReadsNone, Watched, has_output, watched};
ghost use Rattle.engine.specs.Refusal.{IsCause, IsFetchRefusal};
ghost use Rattle.engine.specs.Report.{report_view};

use crate::batch::{Batch, report_batch};
use crate::call_end::CallEnd;
use crate::command::{is_whole, takes_script};
use crate::line::{blocked_line, no_strand_line, words_line};
use crate::output::Output;
use crate::refusal::Refusal;
use crate::report::{Report, ReportEnd, report_without_script, script_report};
use crate::run::report_crew_run;
use crew::Gate;
use draw_lines::{Stream, StreamError, write_stream};
use ped_io::{ReadError, Sink, Source, read_all, write_all};
use ped_words::{Command, Settings, WordError, read_words};
use run_lines::Page;
use std::alloc::Global;
use std::mem::forget;
use std::sync::Wait;
use std::thread::Threads;

const MOST_BYTES: u64 = 1048576;

// Reads the source to its end.
fn fetch<S: Source>(alloc: Global, source: &mut S) -> Result<Vec<u8>, Refusal>
    ensures whole { IfOk result (λ bytes. ReadWhole (watched S.left S.faults source.old source.new) bytes.items) }
    ensures refused { IfErr result (IsFetchRefusal (watched S.left S.faults source.old source.new)) }
{
    match read_all(alloc, source, MOST_BYTES) {
        Ok(bytes) => Ok(bytes),
        Err(ReadError::TooLong) => Err(Refusal::TooLong),
        Err(ReadError::Fault) => Err(Refusal::Read),
        Err(ReadError::Memory) => Err(Refusal::Memory),
    }
}

// Makes a command's report. A command that takes a script reads it from the source.
fn prepare<S: Source>(alloc: Global, command: Command, source: &mut S) -> Result<Report, Refusal>
    requires lawful { IsLawful command }
    requires whole { IsTrue (is_whole command) }
    requires not_batch { IsFalse (is_batch command) }
    ensures ready { IfOk result (λ report. HasReport command (watched S.left S.faults source.old source.new) (report_view report)) }
    ensures refused { IfErr result (IsCause command (watched S.left S.faults source.old source.new)) }
    ensures untouched { IsFalse (takes_script command) → source.new ≡ source.old }
{
    if takes_script(&command) {
        let bytes = fetch(alloc, source)?;
        script_report(alloc, command, &bytes)
    } else {
        Ok(report_without_script(alloc, command)?)
    }
}

// Makes the report of a run on this many workers.
fn prepare_run<R: Threads + Wait + Sync, S: Source, G: Gate + Sync>(
    rt: &R,
    alloc: Global,
    settings: Settings,
    workers: u32,
    source: &mut S,
    gate: &G,
) -> Result<Report, Refusal>
    requires lawful { AreLawful settings }
    requires workers { IsWorkers workers }
    ensures ready { IfOk result (λ report. HasReport (Command.Run settings workers) (watched S.left S.faults source.old source.new) (report_view report)) }
    ensures refused { IfErr result (IsCause (Command.Run settings workers) (watched S.left S.faults source.old source.new)) }
{
    let bytes = fetch(alloc, source)?;
    report_crew_run(rt, alloc, settings, workers, &bytes, gate)
}

// Makes the report of a batch on this many workers.
fn prepare_batch<R: Threads + Wait + Sync, S: Source, G: Gate + Sync>(
    rt: &R,
    alloc: Global,
    batch: &Batch,
    workers: u32,
    source: &mut S,
    gate: &G,
) -> Result<Report, Refusal>
    requires ready { IsLawfulBatch batch.now }
    requires workers { IsWorkers workers }
    ensures ready { IfOk result (λ report. HasReport (batch_command batch.now workers) (watched S.left S.faults source.old source.new) (report_view report)) }
    ensures refused { IfErr result (IsCause (batch_command batch.now workers) (watched S.left S.faults source.old source.new)) }
{
    let bytes = fetch(alloc, source)?;
    report_batch(rt, alloc, batch, workers, &bytes, gate)
}

/// Writes a text, and returns how the call ends: by `whole` where all of it was written, else by `Write`.
pub fn put_text<K: Sink>(text: &[u8], whole: CallEnd, out: &mut K) -> CallEnd
    ensures { Puts text.now whole (watched K.written K.faults out.old out.new) result }
{
    match write_all(out, text) {
        Ok(()) => whole,
        Err(_) => CallEnd::Write,
    }
}

// Writes an output piece by piece, and returns how the call ends: by `whole` where all of it was written. All memory is
// taken before the first write.
fn put_output<K: Sink>(alloc: Global, output: &Output, whole: CallEnd, out: &mut K) -> CallEnd
    requires { IsTrue (has_output (end_status whole)) }
    ensures put { PutsWhereRoom output.now whole (watched K.written K.faults out.old out.new) result }
    ensures no_output { IsFalse (has_output (end_status result)) → out.new ≡ out.old }
{
    let Ok(mut page) = Page::new(alloc) else {
        return CallEnd::Refused(Refusal::Memory);
    };
    match output.write(&mut page, out) {
        Ok(()) => whole,
        Err(_) => CallEnd::Write,
    }
}

// Writes a report, unless there is no strand to report, and returns how the call ends.
fn put_report<K: Sink>(alloc: Global, report: &Report, out: &mut K) -> CallEnd
    ensures delivered { Delivers report.now.output report.now.ending (watched K.written K.faults out.old out.new) result }
    ensures no_output { IsFalse (has_output (end_status result)) → out.new ≡ out.old }
{
    match &report.ending {
        ReportEnd::Done => put_output(alloc, &report.output, CallEnd::Done, out),
        ReportEnd::Faulted => put_output(alloc, &report.output, CallEnd::Faulted, out),
        ReportEnd::NoStrand(at) => match no_strand_line(alloc, at) {
            Ok(line) => CallEnd::NoStrand(line),
            Err(_) => CallEnd::Refused(Refusal::Memory),
        },
        ReportEnd::Blocked(fault) => match blocked_line(alloc, &fault.at) {
            Ok(line) => CallEnd::NoStrand(line),
            Err(_) => CallEnd::Refused(Refusal::Memory),
        },
    }
}

// The same without freeing the report: the process ends next, and freeing the events would take a third of the time of
// a run on four workers.
fn deliver<K: Sink>(alloc: Global, report: Report, out: &mut K) -> CallEnd
    ensures delivered { Delivers report.output report.ending (watched K.written K.faults out.old out.new) result }
    ensures no_output { IsFalse (has_output (end_status result)) → out.new ≡ out.old }
{
    let end = put_report(alloc, &report, out);
    forget(report);
    end
}

// How a call ends whose words aren't a command.
fn refused_words(alloc: Global, error: WordError) -> CallEnd
    ensures { EndRefuses error result }
{
    let WordError::Bad { number, at } = error else {
        return CallEnd::Refused(Refusal::Memory);
    };
    match words_line(alloc, number, at) {
        Ok(line) => CallEnd::Words(line),
        Err(_) => CallEnd::Refused(Refusal::Memory),
    }
}

// Runs a command whose report is made whole before it is written.
fn answer_whole<S: Source, K: Sink>(
    alloc: Global,
    command: Command,
    source: &mut S,
    out: &mut K,
) -> CallEnd
    requires lawful { IsLawful command }
    requires whole { IsTrue (is_whole command) }
    requires not_batch { IsFalse (is_batch command) }
    ensures answers { EndMeans command (watched S.left S.faults source.old source.new) (watched K.written K.faults out.old out.new) result }
    ensures untouched { IsFalse (takes_script command) → source.new ≡ source.old }
    ensures no_output { IsFalse (has_output (end_status result)) → out.new ≡ out.old }
{
    match prepare(alloc, command, source) {
        Ok(report) => deliver(alloc, report, out),
        Err(refusal) => CallEnd::Refused(refusal),
    }
}

// Runs `stream`, which draws and writes block by block.
fn answer_stream<K: Sink>(alloc: Global, stream: Stream, count: u32, out: &mut K) -> CallEnd
    requires { CanDraw stream count }
    ensures delivered { Delivers (lines_of stream count) ReportEnd.Done (watched K.written K.faults out.old out.new) result }
    ensures no_output { IsFalse (has_output (end_status result)) → out.new ≡ out.old }
{
    match write_stream(alloc, stream, count, out) {
        Ok(()) => CallEnd::Done,
        Err(StreamError::Fault) => CallEnd::Write,
        Err(StreamError::Memory) => CallEnd::Refused(Refusal::Memory),
    }
}

// Runs a command that writes its report in parts. Such a command reads no source.
fn answer_in_parts<K: Sink>(alloc: Global, command: Command, out: &mut K) -> CallEnd
    requires lawful { IsLawful command }
    requires in_parts { IsFalse (is_whole command) }
    ensures answers { (source : Watched) → EndMeans command source (watched K.written K.faults out.old out.new) result }
    ensures no_output { IsFalse (has_output (end_status result)) → out.new ≡ out.old }
{
    match command {
        Command::Stream {
            gamma,
            at,
            count,
            rounds,
            below,
        } => {
            let stream = Stream {
                gamma,
                at,
                rounds,
                below,
            };
            answer_stream(alloc, stream, count, out)
        }
        _ => unreachable!(),
    }
}

// Runs a command other than `batch` on the caller's thread.
fn answer_command<S: Source, K: Sink>(
    alloc: Global,
    command: Command,
    source: &mut S,
    out: &mut K,
) -> CallEnd
    requires lawful { IsLawful command }
    requires not_batch { IsFalse (is_batch command) }
    ensures answers { EndMeans command (watched S.left S.faults source.old source.new) (watched K.written K.faults out.old out.new) result }
    ensures untouched { IsFalse (takes_script command) → source.new ≡ source.old }
    ensures no_output { IsFalse (has_output (end_status result)) → out.new ≡ out.old }
{
    if is_whole(&command) {
        answer_whole(alloc, command, source, out)
    } else {
        answer_in_parts(alloc, command, out)
    }
}

// Runs a script on this many workers.
fn answer_run<R: Threads + Wait + Sync, S: Source, K: Sink, G: Gate + Sync>(
    rt: &R,
    alloc: Global,
    settings: Settings,
    workers: u32,
    source: &mut S,
    out: &mut K,
    gate: &G,
) -> CallEnd
    requires lawful { AreLawful settings }
    requires workers { IsWorkers workers }
    ensures answers { EndMeans (Command.Run settings workers) (watched S.left S.faults source.old source.new) (watched K.written K.faults out.old out.new) result }
    ensures no_output { IsFalse (has_output (end_status result)) → out.new ≡ out.old }
{
    match prepare_run(rt, alloc, settings, workers, source, gate) {
        Ok(report) => deliver(alloc, report, out),
        Err(refusal) => CallEnd::Refused(refusal),
    }
}

// Runs a script under a list of seeds on this many workers.
fn answer_batch<R: Threads + Wait + Sync, S: Source, K: Sink, G: Gate + Sync>(
    rt: &R,
    alloc: Global,
    batch: &Batch,
    workers: u32,
    source: &mut S,
    out: &mut K,
    gate: &G,
) -> CallEnd
    requires ready { IsLawfulBatch batch.now }
    requires workers { IsWorkers workers }
    ensures answers { EndMeans (batch_command batch.now workers) (watched S.left S.faults source.old source.new) (watched K.written K.faults out.old out.new) result }
    ensures no_output { IsFalse (has_output (end_status result)) → out.new ≡ out.old }
{
    match prepare_batch(rt, alloc, batch, workers, source, gate) {
        Ok(report) => deliver(alloc, report, out),
        Err(refusal) => CallEnd::Refused(refusal),
    }
}

// Runs any command: `run` and `batch` on workers, others on the caller's thread.
fn answer_command_by_crew<R: Threads + Wait + Sync, S: Source, K: Sink, G: Gate + Sync>(
    rt: &R,
    alloc: Global,
    command: Command,
    source: &mut S,
    out: &mut K,
    gate: &G,
) -> CallEnd
    requires { IsLawful command }
    ensures answers { EndMeans command (watched S.left S.faults source.old source.new) (watched K.written K.faults out.old out.new) result }
    ensures untouched { IsFalse (takes_script command) → source.new ≡ source.old }
    ensures no_output { IsFalse (has_output (end_status result)) → out.new ≡ out.old }
{
    match command {
        Command::Run { settings, workers } => {
            answer_run(rt, alloc, settings, workers, source, out, gate)
        }
        Command::Batch {
            seeds,
            limits,
            show,
            rounds,
            workers,
        } => {
            let batch = Batch {
                seeds,
                limits,
                show,
                rounds,
            };
            answer_batch(rt, alloc, &batch, workers, source, out, gate)
        }
        command => answer_command(alloc, command, source, out),
    }
}

// Reads the words and runs their command on the caller's thread. The first word must not name a command that runs on
// workers.
pub(crate) fn answer_words<S: Source, K: Sink>(
    alloc: Global,
    words: &[String],
    script: &mut S,
    out: &mut K,
) -> CallEnd
    requires { RunsOnWorkers (map string_bytes words.now) → ⊥ }
    ensures promise { EndKeeps (reading (map string_bytes words.now)) (watched S.left S.faults script.old script.new)
        (watched K.written K.faults out.old out.new) result }
    ensures untouched { ReadsNone (reading (map string_bytes words.now)) → script.new ≡ script.old }
    ensures no_output { IsFalse (has_output (end_status result)) → out.new ≡ out.old }
{
    match read_words(alloc, words) {
        Ok(command) => answer_command(alloc, command, script, out),
        Err(error) => refused_words(alloc, error),
    }
}

// Reads the words and runs their command. `run` and `batch` run on workers, and the gate is told of their tasks.
pub(crate) fn answer_words_by_crew<R: Threads + Wait + Sync, S: Source, K: Sink, G: Gate + Sync>(
    rt: &R,
    alloc: Global,
    words: &[String],
    script: &mut S,
    out: &mut K,
    gate: &G,
) -> CallEnd
    ensures promise { EndKeeps (reading (map string_bytes words.now)) (watched S.left S.faults script.old script.new)
        (watched K.written K.faults out.old out.new) result }
    ensures untouched { ReadsNone (reading (map string_bytes words.now)) → script.new ≡ script.old }
    ensures no_output { IsFalse (has_output (end_status result)) → out.new ≡ out.old }
{
    match read_words(alloc, words) {
        Ok(command) => answer_command_by_crew(rt, alloc, command, script, out, gate),
        Err(error) => refused_words(alloc, error),
    }
}
