// Answers without a top call: a help text, or the line for arguments that can't be read.

ghost use Rattle.std.specs.Prelude.{◌≡◌, IsFalse, codes};
ghost use Rattle.engine.specs.Promise.{has_line, watched};
ghost use Rattle.pedrun.specs.Calls.{Shows};
ghost use Rattle.pedrun.specs.EarlyExit.{WritesRefusal};

use engine::Status;
use engine::call::put_text;
use engine::call_end::{CallEnd, write_end, write_error_line};
use ped_io::Sink;
use std::io::ErrorKind;

/// Writes a help text. The status is `Done`; where a write of the text failed it is `Write`, with a line on `err`.
pub fn write_help<K: Sink, E: Sink>(text: &str, out: &mut K, err: &mut E) -> Status
    ensures shown { Shows text.now (watched K.written K.faults out.old out.new) (watched E.written E.faults err.old err.new) result }
    ensures no_line { IsFalse (has_line result) → err.new ≡ err.old }
{
    let end = put_text(text.as_bytes(), CallEnd::Done, out);
    write_end(&end, err);
    end.status()
}

/// Writes why the arguments couldn't be read. `InvalidData` says that one of them isn't UTF-8, which is a faulty
/// command line; any other error counts as want of memory.
pub fn refuse<E: Sink>(kind: ErrorKind, err: &mut E) -> Status
    ensures words { kind ≡ ErrorKind.InvalidData → WritesRefusal Status.Words (codes "words: not UTF-8\n") (watched E.written E.faults err.old err.new) result }
    ensures memory { (kind ≡ ErrorKind.InvalidData → ⊥) → WritesRefusal Status.Memory (codes "out of memory\n") (watched E.written E.faults err.old err.new) result }
{
    match kind {
        ErrorKind::InvalidData => {
            write_error_line(err, b"words: not UTF-8\n");
            Status::Words
        }
        _ => {
            write_error_line(err, b"out of memory\n");
            Status::Memory
        }
    }
}
