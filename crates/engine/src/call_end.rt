// How a call ends, and its line on the error output.

ghost use Rattle.std.specs.Prelude.{◌≡◌, IsFalse};
ghost use Rattle.engine.specs.CallEnds.{TellsEnd, end_status};
ghost use Rattle.engine.specs.Promise.{WroteLine, has_line, watched};

use crate::refusal::Refusal;
use crate::status::Status;
use ped_io::{Sink, write_all};

/// How a call ends. That is decided before the error line is written, so a failed write of that line changes no status.
#[derive(Drop)]
pub enum CallEnd {
    /// The whole output was written.
    Done,
    /// The whole output was written, and its last line is a fault's.
    Faulted,
    /// The words aren't a command; the line that says why.
    Words(String),
    /// No report could be made, or memory ran out before it was written.
    Refused(Refusal),
    /// A write of the output failed. A prefix of it was written.
    Write,
    /// There is no strand; the line that says why.
    NoStrand(Vec<u8>),
}

impl CallEnd {
    /// The program's status.
    pub fn status(&self) -> Status
        ensures { result ≡ end_status self.now }
    {
        match self {
            CallEnd::Done => Status::Done,
            CallEnd::Faulted => Status::Faulted,
            CallEnd::Words(_) => Status::Words,
            CallEnd::Refused(Refusal::TooLong) => Status::Script,
            CallEnd::Refused(Refusal::Rejected(_)) => Status::Script,
            CallEnd::Refused(Refusal::Read) => Status::Read,
            CallEnd::Refused(Refusal::Memory) => Status::Memory,
            CallEnd::Write => Status::Write,
            CallEnd::NoStrand(_) => Status::NoStrand,
        }
    }
}

/// Writes a line to the error output. Whether that succeeds isn't returned: it must not change the status.
pub fn write_error_line<E: Sink>(err: &mut E, line: &[u8])
    ensures { WroteLine (watched E.written E.faults err.old err.new) line.now }
{
    // The sink counts its faults, so a caller could tell.
    let _ = write_all(err, line);
}

/// Writes the error line of a call that ended so. Where the whole output was written there is none, and the sink stays
/// as it is.
pub fn write_end<E: Sink>(end: &CallEnd, err: &mut E)
    ensures told { TellsEnd (watched E.written E.faults err.old err.new) end.now }
    ensures no_line { IsFalse (has_line (end_status end.now)) → err.new ≡ err.old }
{
    match end {
        CallEnd::Done | CallEnd::Faulted => {}
        CallEnd::Words(line) => write_error_line(err, line.as_bytes()),
        CallEnd::Refused(Refusal::TooLong) => write_error_line(err, b"script: too long\n"),
        CallEnd::Refused(Refusal::Rejected(line)) => write_error_line(err, line.as_bytes()),
        CallEnd::Refused(Refusal::Read) => write_error_line(err, b"read fault\n"),
        CallEnd::Refused(Refusal::Memory) => write_error_line(err, b"out of memory\n"),
        CallEnd::Write => write_error_line(err, b"write fault\n"),
        CallEnd::NoStrand(line) => write_error_line(err, line),
    }
}
