// What no clause says: that calls succeed with ample memory, how reads are cut, and files at the edge.
ghost use Rattle.std.specs.Prelude.{◌<◌};

use super::same;
use ped_io::{
    Failed, MemSink, MemSource, ReadError, Sink, Source, StdSink, StdSource, read_all, write_all,
};
use std::alloc::{AllocError, Global};
use std::fs::Files;
use std::io::{ErrorKind, Read, Write};
use std::test::Fail;
use std::{fs, io};

const TEXT: &[u8] = b"fn main() { print 1; return 0; }";

const OUTPUT: &[u8] = b"21\n210\n903\n";

// A source of these bytes, whose reads give so many at most. This read fails.
fn source(alloc: Global, bytes: &[u8], step: u32, planned: u64) -> Result<MemSource, AllocError>
    requires { 0 < step }
{
    let fails = Vec::from_slice(alloc, &[planned])?;
    Ok(MemSource::new(bytes.to_vec(alloc)?, step, fails))
}

#[test]
fn a_planned_read_fails_and_no_other(rt: HostRuntime) -> Result<(), Fail> {
    let alloc = rt.alloc();
    for planned in 0..6 {
        let mut source = source(alloc, TEXT, 8, planned)?;
        match read_all(alloc, &mut source, 1048576) {
            Ok(bytes) => assert!(rt; planned == 5 && bytes.as_slice() == TEXT, "read {planned}"),
            Err(error) => assert!(rt; planned < 5 && error == ReadError::Fault, "read {planned}"),
        }
    }
    Ok(())
}

// So many bytes.
fn bytes(alloc: Global, length: usize) -> Result<Vec<u8>, AllocError> {
    vec![in alloc; b'x'; length]
}

// So many bytes, a limit, and how many are read.
static LIMITS: [(usize, u32, Result<usize, ReadError>); 6] = [
    (0, 0, Ok(0)),
    (1, 0, Err(ReadError::TooLong)),
    (4096, 4096, Ok(4096)),
    (4097, 4096, Err(ReadError::TooLong)),
    (1048576, 1048576, Ok(1048576)),
    (1048577, 1048576, Err(ReadError::TooLong)),
];

fn read_within(
    alloc: Global,
    length: usize,
    limit: u32,
) -> Result<Result<usize, ReadError>, AllocError> {
    let mut source = MemSource::new(bytes(alloc, length)?, 1000, Vec::new(alloc));
    Ok(read_all(alloc, &mut source, limit as u64).map(|bytes| bytes.len()))
}

#[test]
fn the_limit_is_the_longest_length(rt: HostRuntime) -> Result<(), Fail> {
    for &(length, limit, wanted) in &LIMITS {
        same(&rt, length, read_within(rt.alloc(), length, limit)?, wanted);
    }
    Ok(())
}

// Whether 10000 bytes are not read where this read fails.
fn read_fails(alloc: Global, planned: u64) -> Result<bool, AllocError> {
    let mut source = source(alloc, &bytes(alloc, 10000)?, 1048576, planned)?;
    Ok(read_all(alloc, &mut source, 10000).is_err())
}

#[test]
fn a_read_is_offered_4096_bytes(rt: HostRuntime) -> Result<(), Fail> {
    // 4096, 4096, 1808 and 0 bytes
    for (planned, fails) in [(3, true), (4, false)] {
        assert!(rt; read_fails(rt.alloc(), planned)? == fails, "read {planned}");
    }
    Ok(())
}

// The room, the write that fails, and how many bytes are written.
static WRITES: [(u32, u64, usize); 7] = [
    (1048576, 0, 0),
    (1048576, 1, 4),
    (1048576, 2, 8),
    (1048576, 3, 11),
    (11, 3, 11),
    (10, 9, 10),
    (0, 9, 0),
];

// A sink of this room, whose writes take four bytes at most. This write fails.
fn sink(alloc: Global, room: u32, planned: u64) -> Result<MemSink, Fail> {
    Ok(MemSink::new(alloc, 4, room, Vec::from_slice(alloc, &[planned])?)?)
}

#[test]
fn a_write_fails_where_planned_and_where_the_room_is_full(rt: HostRuntime) -> Result<(), Fail> {
    for &(room, planned, written) in &WRITES {
        let mut sink = sink(rt.alloc(), room, planned)?;
        let is_whole = write_all(&mut sink, OUTPUT).is_ok();
        assert!(rt;
            is_whole == (written == OUTPUT.len()),
            "write {planned}, room {room}"
        );
        assert!(rt;
            sink.bytes().len() == written,
            "write {planned}, room {room}"
        );
        assert!(rt; OUTPUT.starts_with(sink.bytes()));
    }
    Ok(())
}

// The text of the file, by a source.
fn read_script(rt: &(impl Files + AllocGlobal)) -> Result<Vec<u8>, Fail> {
    let mut source = StdSource::new(fs::open(rt, "script")?);
    Ok(read_all(rt.alloc(), &mut source, 32)?)
}

// The system refuses to read a file that is open for writing.
fn read_refused(rt: &impl Files) -> Result<Result<usize, Failed>, Fail> {
    let mut refused = StdSource::new(fs::create(rt, "script")?);
    Ok(refused.read(&mut [0; 8]))
}

#[test]
fn std_source_reads_a_file(rt: HostRuntime) -> Result<(), Fail> {
    fs::write(&rt, "script", TEXT)?;
    same(&rt, "text", read_script(&rt)?.as_slice(), TEXT);
    same(&rt, "refused", read_refused(&rt)?, Err(Failed));
    fs::remove_file(&rt, "script")?;
    Ok(())
}

// What stands in the file, once a sink has written it.
fn written(rt: &(impl Files + AllocGlobal)) -> Result<Vec<u8>, Fail> {
    let mut sink = StdSink::new(fs::create(rt, "output")?);
    write_all(&mut sink, OUTPUT)?;
    Ok(fs::read(rt, "output")?)
}

// The system refuses to write a file that is open for reading.
fn write_refused(rt: &impl Files) -> Result<Result<usize, Failed>, Fail> {
    let mut refused = StdSink::new(fs::open(rt, "output")?);
    Ok(refused.write(OUTPUT))
}

#[test]
fn std_sink_writes_a_file(rt: HostRuntime) -> Result<(), Fail> {
    same(&rt, "output", written(&rt)?.as_slice(), OUTPUT);
    same(&rt, "refused", write_refused(&rt)?, Err(Failed));
    fs::remove_file(&rt, "output")?;
    Ok(())
}

// A writer that takes no byte has failed.
#[test]
fn std_sink_fails_where_its_writer_is_full(rt: HostRuntime) {
    let mut room = [0u8; 4];
    let mut full = StdSink::new(&mut room[..]);
    same(&rt, "4 bytes", write_all(&mut full, OUTPUT), Err(Failed));
}

// A device whose first call is interrupted. From the second on it gives and takes one byte a call.
#[derive(Drop)]
struct Interrupted {
    calls: u32,
}

impl Interrupted {
    fn next(&mut self) -> io::Result<usize> {
        self.calls = self.calls.saturating_add(1);
        if self.calls == 1 {
            return Err(ErrorKind::Interrupted.into());
        }
        Ok(1)
    }
}

impl Read for Interrupted {
    fn read(&mut self, buf: &mut [u8]) -> io::Result<usize> {
        Ok(self.next()?.min(buf.len()))
    }
}

impl Write for Interrupted {
    fn write(&mut self, bytes: &[u8]) -> io::Result<usize> {
        Ok(self.next()?.min(bytes.len()))
    }

    fn flush(&mut self) -> io::Result<()> {
        Ok(())
    }
}

// A failure is told, and not tried again.
#[test]
fn a_device_is_asked_once(rt: HostRuntime) {
    let mut source = StdSource::new(Interrupted { calls: 0 });
    same(&rt, "read 0", source.read(&mut [0; 8]), Err(Failed));
    same(&rt, "read 1", source.read(&mut [0; 8]), Ok(1));
    let mut sink = StdSink::new(Interrupted { calls: 0 });
    same(&rt, "write 0", sink.write(OUTPUT), Err(Failed));
    same(&rt, "write 1", sink.write(OUTPUT), Ok(1));
}
