// Notes on a replay whose strand did nothing, or isn't there.

use crate::replay_call::{call_line, replay_words};
use crate::search::{Search, Target, search_in_thread};
use std::alloc::{AllocError, Global};
use std::sync::Wait;
use std::thread::Threads;
use std::time::Clock;

/// The value of an option among the words.
pub fn value_of<'a>(words: &'a [String], option: &str) -> Option<&'a str> {
    let mut words = words.iter();
    while let Some(word) = words.next() {
        if word.as_str() == option {
            return words.next().map(String::as_str);
        }
    }
    None
}

// Says something that holds under the call's seed, in case another seed was meant.
fn seed_note(alloc: Global, words: &[String], what: &str) -> Result<Vec<u8>, AllocError> {
    let note = match (value_of(words, "--seed"), value_of(words, "--gamma")) {
        (Some(seed), _) => {
            format!(in alloc; "{what} under seed {seed}; was the run under another one?\n")?
        }
        (None, Some(_)) => {
            format!(in alloc; "{what} under this --gamma; was the run under another one?\n")?
        }
        (None, None) => format!(in alloc;
            "{what} under seed 0, the default; was the run under another one?\n"
        )?,
    };
    Ok(note.into_bytes())
}

/// The note after a `replay` whose strand did nothing. `None` after another command.
pub fn empty_strand_note(alloc: Global, words: &[String]) -> Result<Option<Vec<u8>>, AllocError> {
    if !words.first().is_some_and(|word| word.as_str() == "replay") {
        return Ok(None);
    }
    Ok(Some(seed_note(alloc, words, "the strand did nothing")?))
}

// The fault that a line `blocked by fault F` names.
fn blocking_fault(line: &[u8]) -> Option<&str> {
    str::from_utf8(line)
        .ok()?
        .strip_prefix("blocked by fault ")?
        .strip_suffix("\n")
}

/// The note after a `replay` that found no strand, given its error line. Where a fault blocks the way, it is the call
/// that replays that fault; where the name is a strand's with one more rank, that name; else the seed under which there
/// is no such strand. `None` where finding out takes longer.
pub fn no_strand_note<R: Threads + Wait + Clock>(
    rt: &R,
    alloc: Global,
    words: &[String],
    text: &[u8],
    line: &[u8],
) -> Result<Option<Vec<u8>>, AllocError> {
    if let Some(fault) = blocking_fault(line) {
        let call = replay_words(alloc, words, None, fault)?;
        return Ok(Some(call_line(alloc, &call)?));
    }
    let at = value_of(words, "--at").unwrap_or("0");
    let first = format!(in alloc; "{at}.0")?;
    let call = replay_words(alloc, words, None, &first)?;
    match search_in_thread(rt, alloc, Target::Strand, call, text.to_vec(alloc)?)? {
        Search::Strand => {
            let note = format!(in alloc; "a strand's name ends by a rank: try {first}\n")?;
            Ok(Some(note.into_bytes()))
        }
        Search::TimedOut => Ok(None),
        _ => Ok(Some(seed_note(alloc, words, "there is no such strand")?)),
    }
}

/// How many seeds the words list, if they are those of a batch, else 0.
pub fn seed_count(words: &[String]) -> u64 {
    if words.first().is_some_and(|word| word.as_str() == "batch") {
        value_of(words, "--seeds").map_or(0, |seeds| seeds.split(',').count() as u64)
    } else {
        0
    }
}
