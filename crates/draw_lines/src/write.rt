ghost use Rattle.std.specs.Prelude.{◌≡◌, ◌*◌, ◌<◌, ◌≤◌, ◌^◌, IsErrOf, OnErr, OnOk, length};
ghost use Rattle.ped_io.specs.Causes.{HasCause, Rose};
ghost use Rattle.ped_io.specs.Streams.{Appends, AppendsFront};
ghost use Rattle.draw_lines.specs.Lines.{CanDraw, lines_of};

use crate::block::{LINE, write_draws};
use crate::stream::Stream;
use ped_io::{Failed, Sink};
use std::alloc::{AllocError, Global};
use thiserror::Error;

// How many numbers are drawn and written at once.
const BLOCK_NUMBERS: usize = 4096;

/// Why a stream wasn't written whole.
#[derive(Clone, Copy, Debug, PartialEq, Eq, Error)]
pub enum StreamError {
    /// A write failed, and the sink's count of faults rose.
    #[error("a write failed")]
    Fault,
    /// There was no memory for one block. Nothing was written.
    #[error("out of memory")]
    Memory,
}

// Writes the lines of `count` numbers, in blocks of the size of `numbers`.
fn write_blocks<K: Sink>(
    stream: &mut Stream,
    count: u64,
    numbers: &mut [u64],
    text: &mut [u8],
    out: &mut K,
) -> Result<(), Failed>
    requires can { CanDraw stream.old count }
    requires some { 0 < length numbers.old }
    requires room { 21 * length numbers.old ≤ length text.old }
    ensures all { OnOk result (Appends (K.written out.old) (K.written out.new) (lines_of stream.old count)) }
    ensures front { OnErr result (AppendsFront (K.written out.old) (K.written out.new) (lines_of stream.old count)) }
    ensures cause { HasCause (K.faults out.old) (K.faults out.new) result }
{
    let block = numbers.len() as u64;
    let mut left = count;
    'writing: while block < left {
        write_draws(stream, numbers, text, out)?;
        stream.skip(block);
        left -= block;
    }
    write_draws(stream, &mut numbers[..left as usize], text, out)
}

/// Writes the lines of the first `count` numbers of a stream, block by block. All memory is taken before the first
/// write.
///
/// # Errors
/// `Fault` where a write failed: a prefix of the lines was written. `Memory` where there is none for one block: nothing
/// was written.
pub fn write_stream<K: Sink>(
    alloc: Global,
    mut stream: Stream,
    count: u32,
    out: &mut K,
) -> Result<(), StreamError>
    requires { CanDraw stream count }
    ensures all { OnOk result (Appends (K.written out.old) (K.written out.new) (lines_of stream count)) }
    ensures front { IsErrOf result StreamError.Fault → AppendsFront (K.written out.old) (K.written out.new) (lines_of stream count) }
    ensures fault { IsErrOf result StreamError.Fault → Rose (K.faults out.old) (K.faults out.new) }
    ensures memory { IsErrOf result StreamError.Memory → out.new ≡ out.old }
{
    let block = BLOCK_NUMBERS.min(count as usize).max(1);
    let Ok(mut numbers) = vec![in alloc; 0u64; block] else {
        return Err(StreamError::Memory);
    };
    let Ok(mut text) = vec![in alloc; 0u8; block * LINE] else {
        return Err(StreamError::Memory);
    };
    match write_blocks(&mut stream, count as u64, &mut numbers, &mut text, out) {
        Ok(()) => Ok(()),
        Err(_) => Err(StreamError::Fault),
    }
}
