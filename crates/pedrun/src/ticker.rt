// Shows the progress of a call on a terminal.

ghost use Rattle.std.specs.Prelude.{map, string_bytes};
ghost use Rattle.engine.specs.Clauses.{change};
ghost use Rattle.pedrun.specs.Calls.{AnswersWithNotes};

use crate::progress::Progress;
use crate::recorded::{RecordedSink, RecordedSource};
use crate::streams::Recorded;
use crate::terminal::answer_on_terminal;
use engine::Status;
use ped_io::{Sink, Source};
use std::alloc::Global;
use std::io::Eprint;
use std::sync::Wait;
use std::thread;
use std::thread::Threads;
use std::time::Clock;

// Calls f, which ends the progress, beside a thread that shows it.
fn with_ticker<R: Threads + Wait + Sync + Clock + Eprint, F: FnOnce() -> T, T>(
    rt: &R,
    progress: &Progress<'_, R>,
    f: F,
) -> T
    requires { F.pre f }
    ensures { F.post f result }
{
    thread::join(rt, || progress.tick(), f).1
}

/// Does what `answer_on_terminal` does, and shows the progress from a thread of its own. Where the system refuses that
/// thread, no progress is shown. The streams come back, since no contract sees what a closure writes through a
/// reference to them.
pub fn answer_with_progress<
    's,
    'o,
    'e,
    R: Threads + Wait + Sync + Clock + Eprint,
    S: Source + Drop,
    K: Sink + Drop,
    E: Sink + Drop,
>(
    rt: &R,
    alloc: Global,
    words: &[String],
    streams: Recorded<'s, 'o, 'e, R, S, K, E>,
    progress: &Progress<'_, R>,
) -> (Status, Recorded<'s, 'o, 'e, R, S, K, E>)
    ensures { AnswersWithNotes (map string_bytes words.now) (change ⟦<RecordedSource<'s, R, S> as Source>⟧.left ⟦<RecordedSource<'s, R, S> as Source>⟧.faults streams.entry.script result.1.script)
        (change ⟦<RecordedSink<'o, R, K> as Sink>⟧.written ⟦<RecordedSink<'o, R, K> as Sink>⟧.faults streams.entry.out result.1.out)
        (change ⟦<RecordedSink<'e, R, E> as Sink>⟧.written ⟦<RecordedSink<'e, R, E> as Sink>⟧.faults streams.entry.err result.1.err) result.0 }
{
    with_ticker(rt, progress, move || {
        let mut streams = streams;
        let status = answer_on_terminal(rt, alloc, words, &mut streams, progress);
        progress.end();
        (status, streams)
    })
}
