// The note on a run that ended by a fault: where the fault came from, and the call that replays its strand.

use crate::fault_line::FaultLine;
use crate::replay_call::{call_line, replay_words};
use crate::search::{Search, Target, search_in_thread};
use engine::FaultPlace;
use script_excerpt::{add_shown, place_excerpt};
use std::alloc::{AllocError, Global};
use std::sync::Wait;
use std::thread::Threads;
use std::time::Clock;

// The lines that show the place of the fault.
fn place_lines(
    alloc: Global,
    text: &[u8],
    place: &FaultPlace,
    kind: &str,
) -> Result<Vec<u8>, AllocError> {
    let at = place.at as usize;
    if at > text.len() {
        return Ok(Vec::new(alloc));
    }
    let mut message = b"".to_vec(alloc)?;
    message.extend_from_slice(kind.as_bytes())?;
    message.extend_from_slice(b", in ")?;
    add_shown(&mut message, place.function.as_slice())?;
    match str::from_utf8(&message) {
        Ok(message) => place_excerpt(alloc, text, at, message),
        Err(_) => Ok(Vec::new(alloc)),
    }
}

/// The note after a call that ended by a fault: the statement that met the fault, with line, column, a caret and the
/// function's name, or that finding it takes longer; and the call that replays the strand. `None` where the output has
/// no line of a fault.
pub fn fault_note<R: Threads + Wait + Clock>(
    rt: &R,
    alloc: Global,
    words: &[String],
    text: &[u8],
    output: &FaultLine,
) -> Result<Option<Vec<u8>>, AllocError> {
    let Some((at, kind)) = output.fault() else {
        return Ok(None);
    };
    let call = replay_words(alloc, words, output.seed(), at)?;
    let last = call_line(alloc, &call)?;
    let mut lines = match search_in_thread(
        rt,
        alloc,
        Target::FaultPlace,
        call,
        text.to_vec(alloc)?,
    )? {
        Search::Place(place) => place_lines(alloc, text, &place, kind)?,
        Search::TimedOut => b"the place takes longer: try replay\n".to_vec(alloc)?,
        Search::Strand | Search::Nothing => Vec::new(alloc),
    };
    lines.extend_from_slice(&last)?;
    Ok(Some(lines))
}
