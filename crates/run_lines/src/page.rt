ghost use Rattle.std.specs.Prelude.{◌≡◌, ◌++◌, [], if◌then◌else◌, IfOk, OnErr, OnOk};
ghost use Rattle.ped_io.specs.Causes.{HasCause};
ghost use Rattle.ped_io.specs.Streams.{Appends, AppendsFront};
ghost use Rattle.run_lines.specs.Puts.{Puts};

use ped_io::{Failed, Memory, Sink, write_all};
use std::alloc::{AllocError, Global};
use std::marker::Model;

// How many bytes wait at most.
const PAGE: usize = 65536;

/// An output buffer of 65536 bytes. Contracts see it as the list of the bytes that wait in it.
#[derive(Drop)]
pub struct Page {
    text: Vec<u8>,
}

impl Model for Page {
    ghost use Rattle.std.specs.Prelude.{ℕ, List};

    ghost Value = { List ℕ };

    ghost view = { λ p. p.text.items };
}

impl Page {
    /// An empty buffer. It takes all its memory here; no other call takes any. The error: out of memory.
    pub fn new(alloc: Global) -> Result<Page, Memory>
        ensures { IfOk result (λ page. page ≡ []) }
    {
        Ok(Page {
            text: Vec::with_capacity(alloc, PAGE)?,
        })
    }

    // Adds a piece to the bytes that wait, if there is room for it.
    #[inline(always)]
    fn take(&mut self, piece: &[u8]) -> bool
        ensures { self.new ≡ (if result then self.old ++ piece.now else self.old) }
    {
        if piece.len() > self.text.capacity() - self.text.len() {
            return false;
        }
        self.text.extend_from_slice(piece).is_ok()
    }

    /// Adds a piece to the bytes that wait. If there is no room, these are written first; a piece that is larger than
    /// the buffer is written at once.
    ///
    /// # Errors
    /// `Failed` where a write failed: of the bytes that waited and the piece, a prefix was written.
    #[inline(always)]
    pub fn put<S: Sink>(&mut self, piece: &[u8], out: &mut S) -> Result<(), Failed>
        ensures all { OnOk result (Puts (S.written out.old) (S.written out.new) self.old self.new piece.now) }
        ensures front { OnErr result (AppendsFront (S.written out.old) (S.written out.new) (self.old ++ piece.now)) }
        ensures cause { HasCause (S.faults out.old) (S.faults out.new) result }
    {
        if self.take(piece) {
            return Ok(());
        }
        self.put_flushed(piece, out)
    }

    // The same, where there is no room for the piece.
    #[inline(never)]
    fn put_flushed<S: Sink>(&mut self, piece: &[u8], out: &mut S) -> Result<(), Failed>
        ensures all { OnOk result (Puts (S.written out.old) (S.written out.new) self.old self.new piece.now) }
        ensures front { OnErr result (AppendsFront (S.written out.old) (S.written out.new) (self.old ++ piece.now)) }
        ensures cause { HasCause (S.faults out.old) (S.faults out.new) result }
    {
        self.flush(out)?;
        if self.take(piece) {
            return Ok(());
        }
        write_all(out, piece)
    }

    /// Writes all bytes that wait.
    ///
    /// # Errors
    /// `Failed` where a write failed: a prefix of the bytes that waited was written.
    pub fn flush<S: Sink>(&mut self, out: &mut S) -> Result<(), Failed>
        ensures all { OnOk result (Appends (S.written out.old) (S.written out.new) self.old) }
        ensures none { OnOk result (self.new ≡ []) }
        ensures front { OnErr result (AppendsFront (S.written out.old) (S.written out.new) self.old) }
        ensures cause { HasCause (S.faults out.old) (S.faults out.new) result }
    {
        write_all(out, &self.text)?;
        self.text.clear();
        Ok(())
    }
}
