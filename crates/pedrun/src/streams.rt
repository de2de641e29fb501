// The streams of a call.

ghost use Rattle.std.specs.Prelude.{◌≡◌};

use crate::progress::Progress;
use crate::recorded::{ERROR_LINE, RecordedSink, RecordedSource};
use ped_io::{Sink, Source, StdSink, StdSource};
use std::alloc::Global;
use std::io::{Eprint, Stderr, Stdin, Stdout};
use std::sync::Wait;
use std::time::Clock;

/// Where the script comes from, and where the output and the error output go.
#[derive(Drop)]
pub struct Streams<S, K, E> {
    pub script: S,
    pub out: K,
    pub err: E,
}

/// The standard streams.
pub type Standard = Streams<StdSource<Stdin>, StdSink<Stdout>, StdSink<Stderr>>;

/// The standard streams of the process.
pub fn standard(rt: &HostRuntime) -> Standard {
    Streams {
        script: StdSource::new(rt.stdin()),
        out: StdSink::new(rt.stdout()),
        err: StdSink::new(rt.stderr()),
    }
}

/// Streams that keep what goes through them.
// Each has a lifetime of its own: a closure that owns all three gets no proof where they share one.
pub type Recorded<'s, 'o, 'e, R, S, K, E> = Streams<
    RecordedSource<'s, R, S>,
    RecordedSink<'o, R, K>,
    RecordedSink<'e, R, E>,
>;

/// The same streams, made to keep what the notes to a person need. `is_typed` says that a person must type the script.
pub fn recorded<'a, R: Wait + Clock + Eprint, S: Source, K: Sink, E: Sink>(
    rt: &'a R,
    alloc: Global,
    streams: Streams<S, K, E>,
    is_typed: bool,
    progress: &'a Progress<'a, R>,
) -> Recorded<'a, 'a, 'a, R, S, K, E>
    ensures left { ⟦<RecordedSource<'a, R, S> as Source>⟧.left result.script ≡ S.left streams.script }
    ensures faults { ⟦<RecordedSource<'a, R, S> as Source>⟧.faults result.script ≡ S.faults streams.script }
    ensures out { ⟦<RecordedSink<'a, R, K> as Sink>⟧.written result.out ≡ K.written streams.out }
    ensures out_faults { ⟦<RecordedSink<'a, R, K> as Sink>⟧.faults result.out ≡ K.faults streams.out }
    ensures err { ⟦<RecordedSink<'a, R, E> as Sink>⟧.written result.err ≡ E.written streams.err }
    ensures err_faults { ⟦<RecordedSink<'a, R, E> as Sink>⟧.faults result.err ≡ E.faults streams.err }
{
    let mut script = RecordedSource::new(rt, alloc, streams.script, is_typed);
    script.set_progress(progress);
    Streams {
        script,
        out: RecordedSink::new(alloc, streams.out, progress, 0),
        err: RecordedSink::new(alloc, streams.err, progress, ERROR_LINE),
    }
}
