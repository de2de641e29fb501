// Finds the line of a fault in an output.

use std::alloc::{AllocError, Global};
use std::mem;

// The longest line that is kept: enough for a pedigree of 512 ranks of ten digits.
const MOST_KEPT: usize = 8192;

/// Watches the bytes of an output for the first line of a fault, and for the seed line of a batch above it.
#[derive(Drop)]
pub struct FaultLine {
    alloc: Global,
    // The current line so far, while it may be one of these.
    line: Vec<u8>,
    // Whether the current line can't be one of them.
    is_other: bool,
    seed: Vec<u8>,
    fault: Vec<u8>,
}

impl FaultLine {
    pub fn new(alloc: Global) -> FaultLine {
        FaultLine {
            alloc,
            line: Vec::new(alloc),
            is_other: false,
            seed: Vec::new(alloc),
            fault: Vec::new(alloc),
        }
    }

    // The current line has ended.
    fn end_line(&mut self) {
        let line = mem::replace(&mut self.line, Vec::new(self.alloc));
        self.is_other = false;
        if !self.fault.is_empty() {
            return;
        }
        if line.starts_with(b"fault ") {
            self.fault = line;
        } else if line.starts_with(b"seed ") {
            self.seed = line;
        }
    }

    // Takes one more byte.
    fn add_byte(&mut self, byte: u8) -> Result<(), AllocError> {
        if byte == b'\n' {
            self.end_line();
            return Ok(());
        }
        if self.line.is_empty() && byte != b'f' && byte != b's' {
            self.is_other = true;
        }
        if !self.is_other && self.line.len() < MOST_KEPT {
            self.line.push(byte)?;
        }
        Ok(())
    }

    /// Takes more bytes. Where memory runs out, a line may be missed.
    pub fn add(&mut self, bytes: &[u8]) {
        for &byte in bytes {
            let _ = self.add_byte(byte);
        }
    }

    /// The fault's pedigree and kind as in its line, if there was one.
    pub fn fault(&self) -> Option<(&str, &str)> {
        str::from_utf8(&self.fault)
            .ok()?
            .strip_prefix("fault ")?
            .split_once(": ")
    }

    /// The seed in the last seed line before the fault, if there was one.
    pub fn seed(&self) -> Option<&str> {
        str::from_utf8(&self.seed).ok()?.strip_prefix("seed ")
    }
}
