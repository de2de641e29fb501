// Calls on a terminal. Where a person reads the error output, more lines follow the one that a program gets.

ghost use Rattle.std.specs.Prelude.{map, string_bytes};
ghost use Rattle.ped_words.specs.Reading.{reading};
ghost use Rattle.engine.specs.Clauses.{change};
ghost use Rattle.engine.specs.Promise.{watched};
ghost use Rattle.pedrun.specs.Calls.{AnswersWithNotes, IsCallWithNotes, WroteSome};

use crate::early_exit::write_help;
use crate::fault_line::FaultLine;
use crate::fault_note::fault_note;
use crate::help::Topic;
use crate::hints::hints;
use crate::notes::{empty_strand_note, no_strand_note};
use crate::progress::Progress;
use crate::recorded::{RecordedSink, RecordedSource};
use crate::streams::Recorded;
use crate::text;
use engine::{Status, pedrun};
use ped_io::{Sink, Source, write_all};
use script_excerpt::excerpt;
use std::alloc::Global;
use std::io::Eprint;
use std::sync::Wait;
use std::thread::Threads;
use std::time::Clock;

// The message and the offset in a line `script: TEXT at byte O`.
fn fault_in_line(line: &[u8]) -> Option<(&str, usize)> {
    let line = str::from_utf8(line).ok()?;
    let (message, at) = line
        .strip_prefix("script: ")?
        .strip_suffix("\n")?
        .rsplit_once(" at byte ")?;
    Some((message, at.parse().ok()?))
}

// The index in a line `words: TEXT at word I`. Other lines on words have none.
fn word_in_line(line: &[u8]) -> Option<usize> {
    let line = str::from_utf8(line).ok()?;
    let (_, at) = line.strip_suffix("\n")?.rsplit_once(" at word ")?;
    at.parse().ok()
}

// The lines that show the place of a script's fault, as the call's line gives it. `None` where there is no such fault,
// and where memory ran out for them, for the line or for the text.
fn place_lines(alloc: Global, status: Status, line: &[u8], text: &[u8]) -> Option<Vec<u8>> {
    if status != Status::Script {
        return None;
    }
    let (message, at) = fault_in_line(line)?;
    if at > text.len() {
        return None;
    }
    excerpt(alloc, text, at, message).ok()
}

// The lines on faulty words, given the call's line.
fn word_lines(alloc: Global, status: Status, words: &[String], line: &[u8]) -> Option<Vec<u8>> {
    if status != Status::Words || words.is_empty() {
        return None;
    }
    hints(alloc, words, word_in_line(line)).ok()
}

// The lines on the fault that ended a run, if one did: where it came from, and the call that replays its strand.
fn fault_lines<R: Threads + Wait + Sync + Clock>(
    rt: &R,
    alloc: Global,
    status: Status,
    words: &[String],
    script: &[u8],
    fault: &FaultLine,
) -> Option<Vec<u8>> {
    let tells_strand = matches!(
        words.first().map_or("", String::as_str),
        "run" | "serial" | "sim" | "replay" | "batch"
    );
    if status != Status::Faulted || !tells_strand {
        return None;
    }
    fault_note(rt, alloc, words, script, fault).ok().flatten()
}

// The lines on a replayed strand that did nothing.
fn empty_strand_lines(
    alloc: Global,
    status: Status,
    words: &[String],
    wrote: bool,
) -> Option<Vec<u8>> {
    if status != Status::Done || wrote {
        return None;
    }
    empty_strand_note(alloc, words).ok().flatten()
}

// The lines on a strand that isn't there, or that a fault blocks the way to.
fn no_strand_lines<R: Threads + Wait + Clock>(
    rt: &R,
    alloc: Global,
    status: Status,
    words: &[String],
    script: &[u8],
    line: &[u8],
) -> Option<Vec<u8>> {
    if status != Status::NoStrand {
        return None;
    }
    no_strand_note(rt, alloc, words, script, line)
        .ok()
        .flatten()
}

// The help text, where no word was given.
fn help_lines(words: &[String]) -> &'static [u8] {
    if words.is_empty() {
        text::PROGRAM.as_bytes()
    } else {
        b""
    }
}

// Writes lines for a person. A failed write is ignored.
fn show<E: Sink>(err: &mut E, lines: &[u8])
    ensures { WroteSome (watched E.written E.faults err.old err.new) }
{
    let _ = write_all(err, lines);
}

// The same, if there are any.
fn show_some<E: Sink>(err: &mut E, lines: Option<Vec<u8>>)
    ensures { WroteSome (watched E.written E.faults err.old err.new) }
{
    let lines = lines.as_deref().unwrap_or(b"");
    show(err, lines);
}

// Does what `engine::pedrun` does, and writes to the error output what helps a person: the progress of a long run, the
// place of a script's fault, the faulty word and how to ask for help, where the fault came from that ended a run, what
// it may mean that a replayed strand did nothing or isn't there, and the help where no word was given.
fn pedrun_on_terminal<
    's,
    'o,
    'e,
    R: Threads + Wait + Sync + Clock + Eprint,
    S: Source,
    K: Sink,
    E: Sink,
>(
    rt: &R,
    alloc: Global,
    words: &[String],
    script: &mut RecordedSource<'s, R, S>,
    out: &mut RecordedSink<'o, R, K>,
    err: &mut RecordedSink<'e, R, E>,
    progress: &Progress<'_, R>,
) -> Status
    ensures { IsCallWithNotes (reading (map string_bytes words.now)) (change ⟦<RecordedSource<'s, R, S> as Source>⟧.left ⟦<RecordedSource<'s, R, S> as Source>⟧.faults script.old script.new)
        (change ⟦<RecordedSink<'o, R, K> as Sink>⟧.written ⟦<RecordedSink<'o, R, K> as Sink>⟧.faults out.old out.new)
        (change ⟦<RecordedSink<'e, R, E> as Sink>⟧.written ⟦<RecordedSink<'e, R, E> as Sink>⟧.faults err.old err.new) result }
{
    let status = pedrun(rt, alloc, words, script, out, err, progress);
    progress.end();
    let lines = place_lines(alloc, status, err.bytes(), script.bytes());
    show_some(err, lines);
    let lines = word_lines(alloc, status, words, err.bytes());
    show_some(err, lines);
    let lines = fault_lines(rt, alloc, status, words, script.bytes(), out.fault());
    show_some(err, lines);
    let lines = empty_strand_lines(alloc, status, words, out.wrote());
    show_some(err, lines);
    let lines = no_strand_lines(rt, alloc, status, words, script.bytes(), err.bytes());
    show_some(err, lines);
    show(err, help_lines(words));
    status
}

/// Answers the words as `answer` does, and writes to the error output what helps a person, after the call's line.
pub fn answer_on_terminal<
    's,
    'o,
    'e,
    R: Threads + Wait + Sync + Clock + Eprint,
    S: Source,
    K: Sink,
    E: Sink,
>(
    rt: &R,
    alloc: Global,
    words: &[String],
    streams: &mut Recorded<'s, 'o, 'e, R, S, K, E>,
    progress: &Progress<'_, R>,
) -> Status
    ensures { AnswersWithNotes (map string_bytes words.now) (change ⟦<RecordedSource<'s, R, S> as Source>⟧.left ⟦<RecordedSource<'s, R, S> as Source>⟧.faults streams.old.script streams.new.script)
        (change ⟦<RecordedSink<'o, R, K> as Sink>⟧.written ⟦<RecordedSink<'o, R, K> as Sink>⟧.faults streams.old.out streams.new.out)
        (change ⟦<RecordedSink<'e, R, E> as Sink>⟧.written ⟦<RecordedSink<'e, R, E> as Sink>⟧.faults streams.old.err streams.new.err) result }
{
    match Topic::of_words(words) {
        Some(topic) => write_help(topic.text(), &mut streams.out, &mut streams.err),
        None => pedrun_on_terminal(
            rt,
            alloc,
            words,
            &mut streams.script,
            &mut streams.out,
            &mut streams.err,
            progress,
        ),
    }
}
