// A source and a sink that keep what the notes to a person need.

ghost use Rattle.std.specs.Prelude.{◌≡◌};

use crate::fault_line::FaultLine;
use crate::progress::Progress;
use ped_io::{Failed, Sink, Source};
use std::alloc::Global;
use std::eprintln;
use std::io::Eprint;
use std::sync::Wait;
use std::time::Clock;

/// A source that keeps the bytes that it gave, as far as memory allows. Where a person must type them, its first read
/// says so on the error output. Its end starts the progress.
#[derive(Drop)]
pub struct RecordedSource<'a, R, S> {
    rt: &'a R,
    inner: S,
    bytes: Vec<u8>,
    // Whether a person must type the bytes and hasn't been told so yet.
    must_prompt: bool,
    progress: Option<&'a Progress<'a, R>>,
}

impl<'a, R: Wait + Clock + Eprint, S: Source> RecordedSource<'a, R, S> {
    pub fn new(rt: &'a R, alloc: Global, inner: S, is_typed: bool) -> RecordedSource<'a, R, S>
        ensures left { ⟦<RecordedSource<'a, R, S> as Source>⟧.left result ≡ S.left inner }
        ensures faults { ⟦<RecordedSource<'a, R, S> as Source>⟧.faults result ≡ S.faults inner }
    {
        RecordedSource {
            rt,
            inner,
            bytes: Vec::new(alloc),
            must_prompt: is_typed,
            progress: None,
        }
    }

    /// Sets the progress that is started when all is read.
    pub fn set_progress(&mut self, progress: &'a Progress<'a, R>)
        ensures left { ⟦<RecordedSource<'a, R, S> as Source>⟧.left self.new ≡ ⟦<RecordedSource<'a, R, S> as Source>⟧.left self.old }
        ensures faults { ⟦<RecordedSource<'a, R, S> as Source>⟧.faults self.new ≡ ⟦<RecordedSource<'a, R, S> as Source>⟧.faults self.old }
    {
        self.progress = Some(progress);
    }

    /// The bytes that were read.
    pub fn bytes(&self) -> &[u8] {
        &self.bytes
    }
}

impl<'a, R: Wait + Clock + Eprint, S: Source> Source for RecordedSource<'a, R, S> {
    ghost left = { λ s. S.left s.inner };

    ghost faults = { λ s. S.faults s.inner };

    fn read(&mut self, buf: &mut [u8]) -> Result<usize, Failed> {
        if self.must_prompt {
            self.must_prompt = false;
            // A note to a person: a failed write is ignored.
            let _ = eprintln!(self.rt; "reading a script from the terminal; Ctrl-D ends it");
        }
        let read = self.inner.read(buf);
        if let Ok(count) = read {
            // Where memory runs out, these bytes aren't kept.
            let _ = self.bytes.extend_from_slice(&buf[..count]);
            if count == 0 {
                if let Some(progress) = self.progress {
                    progress.begin();
                }
            }
        }
        read
    }
}

/// The longest error line of a call, in bytes: enough for one that names a pedigree of 512 ranks of ten digits.
pub const ERROR_LINE: usize = 8192;

// What is kept of the bytes that a sink took.
#[derive(Drop)]
struct Taken {
    first: Vec<u8>,
    // How many of the first bytes are kept.
    most: usize,
    fault: FaultLine,
    is_empty: bool,
}

impl Taken {
    // Where memory runs out, none of these bytes is kept.
    fn add(&mut self, bytes: &[u8]) {
        self.is_empty = self.is_empty && bytes.is_empty();
        self.fault.add(bytes);
        let room = self.most.saturating_sub(self.first.len());
        let _ = self
            .first
            .extend_from_slice(&bytes[..bytes.len().min(room)]);
    }
}

/// A sink on a terminal. It keeps whether it took a byte, the first bytes, and the first line of a fault. Its first
/// write removes the progress line.
#[derive(Drop)]
pub struct RecordedSink<'a, R, K> {
    inner: K,
    taken: Taken,
    progress: &'a Progress<'a, R>,
}

impl<'a, R: Wait + Clock + Eprint, K: Sink> RecordedSink<'a, R, K> {
    /// A sink that has taken nothing yet, and keeps the first `most` bytes.
    pub fn new(
        alloc: Global,
        inner: K,
        progress: &'a Progress<'a, R>,
        most: usize,
    ) -> RecordedSink<'a, R, K>
        ensures written { ⟦<RecordedSink<'a, R, K> as Sink>⟧.written result ≡ K.written inner }
        ensures faults { ⟦<RecordedSink<'a, R, K> as Sink>⟧.faults result ≡ K.faults inner }
    {
        RecordedSink {
            inner,
            taken: Taken {
                first: Vec::new(alloc),
                most,
                fault: FaultLine::new(alloc),
                is_empty: true,
            },
            progress,
        }
    }

    /// The first bytes, as many as are kept.
    pub fn bytes(&self) -> &[u8] {
        &self.taken.first
    }

    /// What it found of a fault's line.
    pub fn fault(&self) -> &FaultLine {
        &self.taken.fault
    }

    /// Whether it took a byte.
    pub fn wrote(&self) -> bool {
        !self.taken.is_empty
    }
}

impl<'a, R: Wait + Clock + Eprint, K: Sink> Sink for RecordedSink<'a, R, K> {
    ghost written = { λ s. K.written s.inner };

    ghost faults = { λ s. K.faults s.inner };

    fn write(&mut self, bytes: &[u8]) -> Result<usize, Failed> {
        self.progress.end();
        let taken = self.inner.write(bytes);
        if let Ok(count) = taken {
            self.taken.add(&bytes[..count]);
        }
        taken
    }
}
