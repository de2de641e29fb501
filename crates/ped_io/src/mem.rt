// A source and a sink in memory, which are cut into short steps and fail where that is planned.
ghost use Rattle.std.specs.Prelude.{◌≡◌, ◌<◌, [], IfOk, min, length, take, Some};
ghost use Rattle.std.specs.Io.{ReadsAtMost};
ghost use Rattle.ped_io.specs.Causes.{HasCause};
ghost use Rattle.ped_io.specs.Streams.{Reads, TakesSome, Writes};
ghost use Rattle.ped_io.specs.Mem.{MemReads, MemWrites};

use crate::stream::{Failed, Memory, Sink, Source};
use std::alloc::Global;
use std::marker::Model;

/// A source of given bytes, which tells what is left of them.
///
/// Its reads are numbered from 0, those past the number 18446744073709551615 by this number, and a read
/// fails exactly where its number is planned. Each other read gives as many bytes as it can, up to `step`.
///
/// For testing callers against short reads and faults: of `abc`, by steps of 2 and with the failing read 1, the reads
/// give `ab`, fail, give `c`, and then nothing.
#[derive(Debug, Drop)]
pub struct MemSource {
    bytes: Vec<u8>,
    // how many of the bytes were given
    at: usize,
    step: u32,
    fails: Vec<u64>,
    call: u64,
    faults: u64,
}

impl Model for MemSource {
    ghost use Rattle.std.specs.Prelude.{◌≤◌, ◌<◌, drop, length};
    ghost use Rattle.ped_io.specs.Mem.{SourceState};

    ghost Value = { SourceState };

    ghost view = { λ s. record { left = drop s.at s.bytes.items; step = s.step; fails = s.fails.items; call = s.call; faults = s.faults } };

    ghost invariant = { λ s. (s.at ≤ length s.bytes.items) × (0 < s.step) };
}

impl MemSource {
    /// A source of `bytes` that gives at most `step` bytes a read, and whose reads with the numbers `fails`
    /// fail. `step` is at least 1, and `fails` is in any order.
    pub fn new(bytes: Vec<u8>, step: u32, fails: Vec<u64>) -> MemSource
        requires { 0 < step }
        ensures { result ≡ record { left = bytes.items; step = step; fails = fails.items; call = 0; faults = 0 } }
    {
        MemSource {
            bytes,
            at: 0,
            step,
            fails,
            call: 0,
            faults: 0,
        }
    }
}

// Copies the front of one slice to the front of another, as many as fit and no more than `most`.
fn copy_front(from: &[u8], to: &mut [u8], most: usize) -> usize
    ensures count { result ≡ min most (min (length from.now) (length to.old)) }
    ensures copied { take result to.new ≡ take result from.now }
{
    let count = most.min(from.len().min(to.len()));
    to[..count].copy_from_slice(&from[..count]);
    count
}

impl Source for MemSource {
    ghost left = { λ s. Some s.left };

    ghost faults = { λ s. s.faults };

    /// Takes no memory.
    fn read(&mut self, buf: &mut [u8]) -> Result<usize, Failed>
        requires { 0 < length buf.old }
        ensures bound { ReadsAtMost result buf.new }
        ensures bytes { Reads (Some self.old.left) (Some self.new.left) result buf.new }
        ensures cause { HasCause self.old.faults self.new.faults result }
        ensures plan { MemReads self.old self.new (length buf.old) result }
    {
        let call = self.call;
        self.call = call.saturating_add(1);
        if self.fails.contains(&call) {
            self.faults = self.faults.saturating_add(1);
            return Err(Failed);
        }
        let count = copy_front(&self.bytes[self.at..], buf, self.step as usize);
        self.at += count;
        Ok(count)
    }
}

/// A sink that keeps the bytes, up to `room` of them, and tells them.
///
/// Its writes are numbered from 0, those past the number 18446744073709551615 by this number, and a write
/// fails exactly where its number is planned or the room is full. Each other write takes as many bytes as it
/// can, up to `step`.
///
/// For testing callers against short writes and faults: with room for 3, by steps of 2, the writes of `abcd` take `ab`
/// and `c`, and then fail.
#[derive(Debug, Drop)]
pub struct MemSink {
    bytes: Vec<u8>,
    step: u32,
    room: u32,
    fails: Vec<u64>,
    call: u64,
    faults: u64,
}

impl Model for MemSink {
    ghost use Rattle.std.specs.Prelude.{◌≤◌, ◌<◌, length, vec_capacity};
    ghost use Rattle.ped_io.specs.Mem.{SinkState};

    ghost Value = { SinkState };

    ghost view = { λ s. record { written = s.bytes.items; step = s.step; room = s.room; fails = s.fails.items; call = s.call; faults = s.faults } };

    ghost invariant = { λ s. (s.room ≤ vec_capacity s.bytes) × (length s.bytes.items ≤ s.room) × (0 < s.step) };
}

impl MemSink {
    /// An empty sink for `room` bytes that takes at most `step` bytes a write, and whose writes with the
    /// numbers `fails` fail. `step` is at least 1, and `fails` is in any order.
    ///
    /// # Errors
    /// `Memory` where there is none for `room` bytes. No later call takes memory.
    pub fn new(alloc: Global, step: u32, room: u32, fails: Vec<u64>) -> Result<MemSink, Memory>
        requires { 0 < step }
        ensures { IfOk result (λ s. s ≡ record { written = []; step = step; room = room; fails = fails.items; call = 0; faults = 0 }) }
    {
        Ok(MemSink {
            bytes: Vec::with_capacity(alloc, room as usize)?,
            step,
            room,
            fails,
            call: 0,
            faults: 0,
        })
    }

    /// The bytes written so far.
    pub fn bytes(&self) -> &[u8]
        ensures { result.now ≡ self.now.written }
    {
        &self.bytes
    }
}

impl Sink for MemSink {
    ghost written = { λ s. Some s.written };

    ghost faults = { λ s. s.faults };

    /// Takes no memory: `new` made the room.
    fn write(&mut self, bytes: &[u8]) -> Result<usize, Failed>
        requires { 0 < length bytes.now }
        ensures bound { TakesSome result bytes.now }
        ensures bytes { Writes (Some self.old.written) (Some self.new.written) result bytes.now }
        ensures cause { HasCause self.old.faults self.new.faults result }
        ensures plan { MemWrites self.old self.new bytes.now result }
    {
        let call = self.call;
        self.call = call.saturating_add(1);
        let room = self.room as usize - self.bytes.len();
        if room == 0 || self.fails.contains(&call) {
            self.faults = self.faults.saturating_add(1);
            return Err(Failed);
        }
        let count = bytes.len().min(room.min(self.step as usize));
        self.bytes.extend_from_slice(&bytes[..count]).unwrap();
        Ok(count)
    }
}
