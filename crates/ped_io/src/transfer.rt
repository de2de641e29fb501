// All the bytes of a source, and all of some bytes to a sink.
ghost use Rattle.std.specs.Prelude.{◌≡◌, ◌+◌, ◌-◌, ◌^◌, ◌<◌, ◌≤◌, vec_len, OnOk, IfOk, OnErr, IsErrOf};
ghost use Rattle.ped_io.specs.Causes.{Rose, HasCause};
ghost use Rattle.ped_io.specs.Streams.{Consumes, ConsumesAtMost, ConsumesJust, Appends, AppendsFront, IsAtEnd};
ghost use Rattle.ped_io.specs.declared.transfer.ReadError.TheVariants.{Fault, Memory as OutOfMemory};

use crate::stream::{Failed, Sink, Source};
use std::alloc::{AllocError, Global};
use thiserror::Error;

/// Why `read_all` gives no bytes.
#[derive(Clone, Copy, Debug, PartialEq, Eq, Error)]
pub enum ReadError {
    /// A read failed, and the source's count of faults rose.
    #[error("a read failed")]
    Fault,
    /// The source had more bytes than the limit.
    #[error("more bytes than the limit")]
    TooLong,
    /// There was no memory for the bytes.
    #[error("out of memory")]
    Memory,
}

impl From<Failed> for ReadError {
    ghost from_gives = { λ _ e. e ≡ Fault };

    fn from(_: Failed) -> Self {
        ReadError::Fault
    }
}

impl From<AllocError> for ReadError {
    ghost from_gives = { λ _ e. e ≡ OutOfMemory };

    fn from(_: AllocError) -> Self {
        ReadError::Memory
    }
}

// The most bytes that one read is asked for.
const BUFFER_SIZE: usize = 4096;

/// Reads until a read gives no byte, and returns all the bytes, or until one byte past `limit` is taken.
///
/// Each read is offered 4096 bytes, or as many as are missing to one past `limit` where these are fewer.
///
/// # Errors
/// `Fault` where a read failed, `TooLong` exactly where `limit + 1` bytes were taken, and `Memory`. The bytes
/// taken by then are lost: a front of what was left is gone from the source.
pub fn read_all<S: Source>(alloc: Global, src: &mut S, limit: u64) -> Result<Vec<u8>, ReadError>
    requires { limit < 2 ^ 64 - 1 }

    ensures all { IfOk result (λ bytes. Consumes (S.left src.old) (S.left src.new) bytes.items) }
    ensures end { OnOk result (IsAtEnd (S.left src.new)) }
    ensures within { IfOk result (λ bytes. vec_len bytes ≤ limit) }

    // One byte past the limit is taken under this answer, and under no other.
    ensures too_long { IsErrOf result ReadError.TooLong → ConsumesJust (S.left src.old) (S.left src.new) (limit + 1) }
    ensures fault_within { IsErrOf result ReadError.Fault → ConsumesAtMost (S.left src.old) (S.left src.new) limit }
    ensures memory_within { IsErrOf result ReadError.Memory → ConsumesAtMost (S.left src.old) (S.left src.new) limit }

    ensures fault { IsErrOf result ReadError.Fault → Rose (S.faults src.old) (S.faults src.new) }
    ensures later { S.faults src.old ≤ S.faults src.new }
{
    let mut all = Vec::new(alloc);
    let mut buf = [0u8; BUFFER_SIZE];
    'reading: loop {
        let wanted = limit - all.len() as u64 + 1;
        let part = &mut buf[..wanted.min(BUFFER_SIZE as u64) as usize];
        let count = src.read(part)?;
        if count == 0 {
            return Ok(all);
        }
        if count as u64 == wanted {
            return Err(ReadError::TooLong);
        }
        all.extend_from_slice(&part[..count])?;
    }
}

/// Writes all the bytes, in as many writes as the sink wants. It takes no memory.
///
/// # Errors
/// `Failed` where a write failed. A front of the bytes was written.
pub fn write_all<K: Sink>(sink: &mut K, bytes: &[u8]) -> Result<(), Failed>
    ensures all { OnOk result (Appends (K.written sink.old) (K.written sink.new) bytes.now) }
    ensures front { OnErr result (AppendsFront (K.written sink.old) (K.written sink.new) bytes.now) }
    ensures cause { HasCause (K.faults sink.old) (K.faults sink.new) result }
{
    let mut done = 0usize;
    'writing: while done < bytes.len() {
        done += sink.write(&bytes[done..])?;
    }
    Ok(())
}
