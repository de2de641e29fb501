// What a source and a sink of bytes promise.
ghost use Rattle.std.specs.Prelude.{◌<◌, ℕ, List, length};
ghost use Rattle.std.specs.declared.option.Option.{Option};
ghost use Rattle.std.specs.Io.{ReadsAtMost};
ghost use Rattle.ped_io.specs.Causes.{HasCause};
ghost use Rattle.ped_io.specs.Streams.{Reads, TakesSome, Writes};

use std::alloc::AllocError;
use thiserror::Error;

/// The answer of a read or a write that the source or the sink itself refused. Its count of faults rose.
#[derive(Clone, Copy, Debug, PartialEq, Eq, Error)]
#[error("the transfer failed")]
pub struct Failed;

/// There was no memory: the error of a call that has no other one.
#[derive(Clone, Copy, Debug, PartialEq, Eq, Error)]
#[error("out of memory")]
pub struct Memory;

impl From<AllocError> for Memory {
    fn from(_: AllocError) -> Self {
        Memory
    }
}

/// A source of bytes, like std's `Read`, with a count of its faults.
pub trait Source {
    /// The bytes that reads will give from here on, in order. `None` where the source doesn't tell them.
    ghost left: { Self → Option (List ℕ) };

    /// How often the source has failed. It never falls, and stands still at 18446744073709551615.
    ghost faults: { Self → ℕ };

    /// Moves bytes that are left into the front of `buf`, which isn't empty, and returns how many.
    /// It gives 0 bytes only at the end, and may give fewer than fit anywhere.
    ///
    /// # Errors
    /// `Failed` where the source fails: its count rises, and what is left stays.
    fn read(&mut self, buf: &mut [u8]) -> Result<usize, Failed>
        requires { 0 < length buf.old }
        ensures bound { ReadsAtMost result buf.new }
        ensures bytes { Reads (left self.old) (left self.new) result buf.new }
        ensures cause { HasCause (faults self.old) (faults self.new) result };
}

/// A sink for bytes, like std's `Write`, with a count of its faults.
pub trait Sink {
    /// The bytes taken so far, in order. `None` where the sink doesn't tell them.
    ghost written: { Self → Option (List ℕ) };

    /// How often the sink has failed. It never falls, and stands still at 18446744073709551615.
    ghost faults: { Self → ℕ };

    /// Takes a front of `bytes`, which isn't empty, and returns its length, which is at least 1.
    ///
    /// # Errors
    /// `Failed` where the sink fails or would take nothing: its count rises, and it took no byte.
    fn write(&mut self, bytes: &[u8]) -> Result<usize, Failed>
        requires { 0 < length bytes.now }
        ensures bound { TakesSome result bytes.now }
        ensures bytes { Writes (written self.old) (written self.new) result bytes.now }
        ensures cause { HasCause (faults self.old) (faults self.new) result };
}
