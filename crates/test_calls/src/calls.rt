// The top call over a source and sinks in memory.

use engine::{Gate, OpenGate, pedrun};
use ped_io::{MemSink, MemSource};
use std::alloc::Global;
use std::sync::Wait;
use std::test::Fail;
use std::thread::Threads;

/// What a test's runtime has.
pub trait Host: AllocGlobal + Threads + Wait + Sync {}

impl<R: AllocGlobal + Threads + Wait + Sync> Host for R {}

/// How a call ended: its status, and what stands in its sinks.
#[derive(Drop)]
pub struct Printed {
    pub code: u8,
    pub out: String,
    pub err: String,
}

/// The words of a line, between single blanks. An empty line has none.
pub fn words(alloc: Global, line: &str) -> Result<Vec<String>, Fail> {
    let mut words = Vec::new(alloc);
    if line.is_empty() {
        return Ok(words);
    }
    for word in line.split(' ') {
        words.push(String::from_str(alloc, word)?)?;
    }
    Ok(words)
}

// What stands in a sink.
fn text_of(alloc: Global, sink: &MemSink) -> Result<String, Fail> {
    Ok(String::from_utf8(sink.bytes().to_vec(alloc)?)?)
}

fn ended(alloc: Global, code: u8, out: &MemSink, err: &MemSink) -> Result<Printed, Fail> {
    Ok(Printed {
        code,
        out: text_of(alloc, out)?,
        err: text_of(alloc, err)?,
    })
}

/// A call whose reads give and whose writes take `step` bytes at most, and fail at these numbers, from 0 on.
pub fn call<R: Host, G: Gate + Sync>(
    rt: &R,
    line: &str,
    script: Vec<u8>,
    step: u32,
    reads: Vec<u64>,
    writes: Vec<u64>,
    gate: &G,
) -> Result<Printed, Fail> {
    let alloc = rt.alloc();
    let step = step.max(1);
    let mut source = MemSource::new(script, step, reads);
    let mut out = MemSink::new(alloc, step, 1048576, writes)?;
    let mut err = MemSink::new(alloc, 4096, 1048576, Vec::new(alloc))?;
    let words = words(alloc, line)?;
    let status = pedrun(rt, alloc, &words, &mut source, &mut out, &mut err, gate);
    ended(alloc, status.code(), &out, &err)
}

/// A call in which nothing fails.
pub fn plain<R: Host>(rt: &R, line: &str, script: &[u8]) -> Result<Printed, Fail> {
    guarded(rt, line, script, &OpenGate)
}

/// A call in which nothing fails, with this gate.
pub fn guarded<R: Host, G: Gate + Sync>(
    rt: &R,
    line: &str,
    script: &[u8],
    gate: &G,
) -> Result<Printed, Fail> {
    let alloc = rt.alloc();
    let script = script.to_vec(alloc)?;
    call(
        rt,
        line,
        script,
        4096,
        Vec::new(alloc),
        Vec::new(alloc),
        gate,
    )
}
