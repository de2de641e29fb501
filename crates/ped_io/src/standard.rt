// A source over a reader of std, and a sink over a writer.
ghost use Rattle.std.specs.Prelude.{◌≡◌, ◌<◌, length};
ghost use Rattle.std.specs.Io.{ReadsAtMost};
ghost use Rattle.ped_io.specs.Causes.{Counts, KeepsAnswer, HasCause, TakesOrFails};
ghost use Rattle.ped_io.specs.Streams.{Reads, TakesSome, Writes};

use crate::stream::{Failed, Sink, Source};
use std::io::{self, ErrorKind, Read, Write};

// A reader's or a writer's answer, with its failure counted.
fn counted(answer: io::Result<usize>, faults: &mut u64) -> Result<usize, Failed>
    ensures told { KeepsAnswer answer result }
    ensures cause { HasCause faults.old faults.new result }
    ensures count { Counts faults.old faults.new result }
{
    match answer {
        Ok(count) => Ok(count),
        Err(_) => {
            *faults = faults.saturating_add(1);
            Err(Failed)
        }
    }
}

// A writer's answer, where it is a failure to take no byte.
fn taken(answer: io::Result<usize>) -> io::Result<usize>
    ensures { TakesOrFails answer result }
{
    match answer {
        Ok(0) => Err(io::Error::from(ErrorKind::WriteZero)),
        other => other,
    }
}

/// A source over a reader. Each read asks the reader once and returns its answer. It fails exactly where the reader
/// does, and the count of faults then rises by one, until it stands at its last value, 18446744073709551615.
///
/// No clause says that the answer is the reader's, since a reader doesn't tell that it was asked. That is one line of
/// code.
///
/// It tells the bytes that the reader tells. Standard input tells none.
#[derive(Debug, Drop)]
pub struct StdSource<R> {
    inner: R,
    faults: u64,
}

impl<R: Read> StdSource<R> {
    /// The source over `inner`, with no fault so far.
    pub fn new(inner: R) -> StdSource<R>
        ensures left { ⟦<StdSource<R> as Source>⟧.left result ≡ R.remaining inner }
        ensures faults { ⟦<StdSource<R> as Source>⟧.faults result ≡ 0 }
    {
        StdSource { inner, faults: 0 }
    }
}

impl<R: Read> Source for StdSource<R> {
    ghost left = { λ s. R.remaining s.inner };

    ghost faults = { λ s. s.faults };

    fn read(&mut self, buf: &mut [u8]) -> Result<usize, Failed>
        requires { 0 < length buf.old }
        ensures bound { ReadsAtMost result buf.new }
        ensures bytes { Reads (⟦<StdSource<R> as Source>⟧.left self.old) (⟦<StdSource<R> as Source>⟧.left self.new) result buf.new }
        ensures cause { HasCause (⟦<StdSource<R> as Source>⟧.faults self.old) (⟦<StdSource<R> as Source>⟧.faults self.new) result }
        ensures count { Counts (⟦<StdSource<R> as Source>⟧.faults self.old) (⟦<StdSource<R> as Source>⟧.faults self.new) result }
    {
        counted(self.inner.read(buf), &mut self.faults)
    }
}

/// A sink over a writer. Each write asks the writer once and returns its answer. It fails exactly where the writer
/// does, or takes no byte, and the count of faults then rises by one, until it stands at its last value,
/// 18446744073709551615.
///
/// As with a source, no clause says that the answer is the writer's.
///
/// It tells the bytes that the writer tells. Standard output and standard error tell none.
#[derive(Debug, Drop)]
pub struct StdSink<W> {
    inner: W,
    faults: u64,
}

impl<W: Write> StdSink<W> {
    /// The sink over `inner`, with no fault so far. It never flushes: `inner` should have no buffer.
    pub fn new(inner: W) -> StdSink<W>
        ensures written { ⟦<StdSink<W> as Sink>⟧.written result ≡ W.contents inner }
        ensures faults { ⟦<StdSink<W> as Sink>⟧.faults result ≡ 0 }
    {
        StdSink { inner, faults: 0 }
    }
}

impl<W: Write> Sink for StdSink<W> {
    ghost written = { λ s. W.contents s.inner };

    ghost faults = { λ s. s.faults };

    fn write(&mut self, bytes: &[u8]) -> Result<usize, Failed>
        requires { 0 < length bytes.now }
        ensures bound { TakesSome result bytes.now }
        ensures bytes { Writes (⟦<StdSink<W> as Sink>⟧.written self.old) (⟦<StdSink<W> as Sink>⟧.written self.new) result bytes.now }
        ensures cause { HasCause (⟦<StdSink<W> as Sink>⟧.faults self.old) (⟦<StdSink<W> as Sink>⟧.faults self.new) result }
        ensures count { Counts (⟦<StdSink<W> as Sink>⟧.faults self.old) (⟦<StdSink<W> as Sink>⟧.faults self.new) result }
    {
        counted(taken(self.inner.write(bytes)), &mut self.faults)
    }
}
