// The top calls: the whole program but for the standard streams.

ghost use Rattle.std.specs.Prelude.{◌↔◌, IsTrue, map, string_bytes};
ghost use Rattle.ped_words.specs.Reading.{reading};
ghost use Rattle.engine.specs.Clauses.{IsTopCall, change};
ghost use Rattle.engine.specs.Commands.{RunsOnWorkers, IsRunWord};

use crate::call::{answer_words, answer_words_by_crew};
use crate::call_end::write_end;
use crate::status::Status;
use crew::Gate;
use ped_io::{Sink, Source};
use std::alloc::Global;
use std::sync::Wait;
use std::thread::Threads;

// Whether a word names a command that runs on workers.
fn is_run_word(word: &str) -> bool
    ensures { IsTrue result ↔ IsRunWord word.now }
{
    matches!(word, "run" | "batch")
}

/// Whether the words name a command that runs on workers: the first one is `run` or `batch`.
pub fn runs_on_workers(words: &[String]) -> bool
    ensures { IsTrue result ↔ RunsOnWorkers (map string_bytes words.now) }
{
    match words {
        [word, ..] => is_run_word(word.as_str()),
        [] => false,
    }
}

/// All that the program does, over any source of the script, sink of the output and sink of the error line.
///
/// `words` are those of the command line without the program's name. The clauses are the fields of `IsTopCall`:
/// `promise` says what each status means, and which bytes were read and written then; `words` to `complete` say its
/// parts one by one; `events` says what holds of every run. Statuses 2 to 7 come with one line on `err`, or a prefix of
/// it where `err` failed.
///
/// A failed write to `err` changes no status: status and line are decided by calls that don't have `err`, and the one
/// that writes the line returns nothing. No clause says this; it is read off the bodies.
///
/// `run` and `batch` run on workers, in threads of `rt`, and `gate` is told of their tasks. No clause speaks of the
/// gate, nor of how many of the workers there really are.
pub fn pedrun<R: Threads + Wait + Sync, S: Source, K: Sink, E: Sink, G: Gate + Sync>(
    rt: &R,
    alloc: Global,
    words: &[String],
    script: &mut S,
    out: &mut K,
    err: &mut E,
    gate: &G,
) -> Status
    ensures { IsTopCall (reading (map string_bytes words.now)) (change S.left S.faults script.old script.new)
        (change K.written K.faults out.old out.new) (change E.written E.faults err.old err.new) result }
{
    if runs_on_workers(words) {
        pedrun_run(rt, alloc, words, script, out, err, gate)
    } else {
        pedrun_plain(alloc, words, script, out, err)
    }
}

/// What `pedrun` does where the first word is neither `run` nor `batch`, or there is no word. It starts no thread,
/// waits for none, and always returns.
pub fn pedrun_plain<S: Source, K: Sink, E: Sink>(
    alloc: Global,
    words: &[String],
    script: &mut S,
    out: &mut K,
    err: &mut E,
) -> Status
    requires { RunsOnWorkers (map string_bytes words.now) → ⊥ }
    ensures { IsTopCall (reading (map string_bytes words.now)) (change S.left S.faults script.old script.new)
        (change K.written K.faults out.old out.new) (change E.written E.faults err.old err.new) result }
{
    let end = answer_words(alloc, words, script, out);
    write_end(&end, err);
    end.status()
}

/// What `pedrun` does where the first word is `run` or `batch`. It may wait for its threads.
pub fn pedrun_run<R: Threads + Wait + Sync, S: Source, K: Sink, E: Sink, G: Gate + Sync>(
    rt: &R,
    alloc: Global,
    words: &[String],
    script: &mut S,
    out: &mut K,
    err: &mut E,
    gate: &G,
) -> Status
    requires { RunsOnWorkers (map string_bytes words.now) }
    ensures { IsTopCall (reading (map string_bytes words.now)) (change S.left S.faults script.old script.new)
        (change K.written K.faults out.old out.new) (change E.written E.faults err.old err.new) result }
{
    let end = answer_words_by_crew(rt, alloc, words, script, out, gate);
    write_end(&end, err);
    end.status()
}
