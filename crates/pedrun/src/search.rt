// Looks for a strand, or for the place of its fault, within a time limit.

use engine::{FaultPlace, Status, fault_place, pedrun_plain, runs_on_workers};
use ped_io::{MemSink, MemSource};
use std::alloc::{AllocError, Global};
use std::sync::atomic::{AtomicU64, Ordering};
use std::sync::{Arc, Wait};
use std::thread;
use std::thread::Threads;
use std::time::{Clock, Duration};

// How long a search may take, in milliseconds.
const TIME_LIMIT: u64 = 5000;

// How many bytes of the script are read at once.
const READ_SIZE: u32 = 65536;

/// What is looked for. The words of a `replay` call name the strand.
#[derive(Clone, Copy, Debug, PartialEq, Eq)]
pub enum Target {
    /// Where the fault of the strand came from.
    FaultPlace,
    /// The strand itself.
    Strand,
}

/// The result of a search.
#[derive(Drop)]
pub enum Search {
    /// The fault came from here.
    Place(FaultPlace),
    /// There is such a strand.
    Strand,
    /// It takes longer than the limit.
    TimedOut,
    /// There is none, or there was no memory or thread for the search.
    Nothing,
}

// Whether the `replay` call with these words finds its strand in this text.
fn is_strand(alloc: Global, call: &[String], text: Vec<u8>) -> bool {
    if runs_on_workers(call) {
        return false;
    }
    let mut script = MemSource::new(text, READ_SIZE, Vec::new(alloc));
    let Ok(mut out) = MemSink::new(alloc, 1, 0, Vec::new(alloc)) else {
        return false;
    };
    let Ok(mut err) = MemSink::new(alloc, 1, 0, Vec::new(alloc)) else {
        return false;
    };
    // The sink has no room, so a strand that writes ends by `Write`.
    matches!(
        pedrun_plain(alloc, call, &mut script, &mut out, &mut err),
        Status::Done | Status::Faulted | Status::Write
    )
}

// Searches, however long it takes.
fn find(alloc: Global, target: Target, call: &[String], text: Vec<u8>) -> Search {
    match target {
        Target::FaultPlace => match fault_place(alloc, call, &text) {
            Some(place) => Search::Place(place),
            None => Search::Nothing,
        },
        Target::Strand => {
            if is_strand(alloc, call, text) {
                Search::Strand
            } else {
                Search::Nothing
            }
        }
    }
}

// The clock in milliseconds, or the greatest number where it can't be read.
fn millis<R: Clock>(rt: &R) -> u64 {
    match rt.monotonic() {
        Ok(now) => u64::try_from(now.as_millis()).unwrap_or(u64::MAX),
        Err(_) => u64::MAX,
    }
}

// Waits until the word isn't 0, but at most `most` milliseconds. Returns whether it isn't 0.
fn wait_for<R: Wait + Clock>(rt: &R, word: &AtomicU64, most: u64) -> bool {
    let end = millis(rt).saturating_add(most);
    for _ in rt.forever() {
        if word.load(Ordering::SeqCst) != 0 {
            return true;
        }
        let now = millis(rt);
        if now >= end {
            return false;
        }
        word.park_timeout(rt, 0, Duration::from_millis(end - now));
    }
    false
}

/// Searches in a thread of its own. A search that takes more than five seconds is left running: the process ends soon
/// after.
pub fn search_in_thread<R: Threads + Wait + Clock>(
    rt: &R,
    alloc: Global,
    target: Target,
    call: Vec<String>,
    text: Vec<u8>,
) -> Result<Search, AllocError> {
    let done = Arc::new(alloc, AtomicU64::new(0))?;
    let seen = Arc::try_clone(&done)?;
    let searching = thread::spawn(rt, move || {
        let found = find(alloc, target, &call, text);
        done.store(1, Ordering::SeqCst);
        done.wake_all();
        found
    });
    let Ok(searching) = searching else {
        return Ok(Search::Nothing);
    };
    if !wait_for(rt, &seen, TIME_LIMIT) {
        return Ok(Search::TimedOut);
    }
    Ok(searching.join(rt))
}
