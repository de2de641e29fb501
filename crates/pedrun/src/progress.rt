// Shows how far a run is.

ghost use Rattle.std.specs.Prelude.{◌<◌};

use crossbeam_utils::CachePadded;
use engine::Gate;
use serial_meaning::Origin;
use std::io::Eprint;
use std::sync::atomic::{AtomicU64, Ordering};
use std::sync::{Mutex, Wait};
use std::time::{Clock, Duration};
use std::{array, eprint};

// How long after the beginning of the run the line is first shown, in milliseconds.
const SHOWN_AFTER: u64 = 2000;

// How often it is shown anew, in milliseconds.
const INTERVAL: u64 = 200;

// How many counters the tasks are spread over.
const COUNTERS: usize = 64;

// How many ranks of a task's path pick its counter.
const HASHED_RANKS: u64 = 4;

// This many consecutive iterations of a loop share a counter.
const LOOP_BLOCK: u64 = 4096;

// A counter of tasks. Each has cache lines of its own, so that workers that count at the same time don't slow each
// other down.
#[derive(Drop)]
struct Counts {
    begun: AtomicU64,
    ended: AtomicU64,
}

impl Counts {
    fn new() -> CachePadded<Counts> {
        CachePadded::new(Counts {
            begun: AtomicU64::new(0),
            ended: AtomicU64::new(0),
        })
    }
}

// The counter of a task, picked by the front of its path, and for a part of a loop by its first iteration too: tasks
// that are close together are mostly run by one worker.
fn counter_of(origin: &Origin) -> usize
    ensures { result < 64 }
{
    let (path, block) = match origin {
        Origin::Instance { path, .. } => (path, 0),
        Origin::Loop { path, range, .. } => (path, range.lo / LOOP_BLOCK),
    };
    let mut hash = block;
    for i in 0..HASHED_RANKS {
        let rank = path.rank_at(i).unwrap_or(0);
        hash = hash.wrapping_mul(31).wrapping_add(rank);
    }
    (hash % COUNTERS as u64) as usize
}

fn counts_of<'p>(counters: &'p [CachePadded<Counts>; COUNTERS], origin: &Origin) -> &'p Counts {
    &counters[counter_of(origin)]
}

// The state of the progress line.
#[derive(Clone, Copy, Debug, PartialEq, Eq)]
enum Line {
    // Not shown yet.
    Hidden,
    Shown,
    // Never shown again.
    Over,
}

/// A gate that counts the tasks of a run. From two seconds after `begin` on, `tick` shows the counts and the time in a
/// line on the error output, which it overwrites again and again.
#[derive(Drop)]
pub struct Progress<'a, R> {
    rt: &'a R,
    // When `begin` was called, in milliseconds of the clock; 0 until then.
    start: AtomicU64,
    // How many seeds a batch has; 0 where the call isn't a batch.
    seeds: u64,
    counters: [CachePadded<Counts>; COUNTERS],
    // How many mains have ended.
    mains: AtomicU64,
    line: Mutex<Line>,
    // Not 0 once the line is never to be shown again.
    is_over: AtomicU64,
}

impl<'a, R: Wait + Clock + Eprint> Progress<'a, R> {
    /// The progress of a batch under this many seeds, or with 0 of another call. Where the terminal can't overwrite a
    /// line, none is shown.
    pub fn new(rt: &'a R, can_rewrite: bool, seeds: u64) -> Progress<'a, R> {
        Progress {
            rt,
            start: AtomicU64::new(0),
            seeds,
            counters: array::from_fn(|_| Counts::new()),
            mains: AtomicU64::new(0),
            line: Mutex::new(if can_rewrite {
                Line::Hidden
            } else {
                Line::Over
            }),
            is_over: AtomicU64::new(if can_rewrite { 0 } else { 1 }),
        }
    }

    // The clock in milliseconds; 0 where it can't be read.
    fn now(&self) -> u64 {
        let now = self.rt.monotonic().unwrap_or(Duration::ZERO);
        u64::try_from(now.as_millis()).unwrap_or(0)
    }

    /// Starts the time. To be called when the script has been read.
    pub fn begin(&self) {
        self.start.store(self.now(), Ordering::SeqCst);
    }

    // The milliseconds since the run began.
    fn elapsed(&self) -> u64 {
        match self.start.load(Ordering::SeqCst) {
            0 => 0,
            start => self.now().saturating_sub(start),
        }
    }

    // Shows the line. Failed writes are ignored.
    fn show(&self, seconds: u64) {
        let mut line = self.line.lock(self.rt);
        if *line == Line::Over {
            return;
        }
        *line = Line::Shown;
        let mut begun = 0u64;
        let mut ended = 0u64;
        for counts in &self.counters {
            begun = begun.saturating_add(counts.begun.load(Ordering::SeqCst));
            ended = ended.saturating_add(counts.ended.load(Ordering::SeqCst));
        }
        if self.seeds > 0 {
            let mains = self.mains.load(Ordering::SeqCst);
            let seeds = self.seeds;
            let _ = eprint!(self.rt;
                "\r{mains} of {seeds} seeds, {begun} tasks, {ended} ended, {seconds} s\x1b[K"
            );
        } else if begun > 0 {
            let _ = eprint!(self.rt; "\r{begun} tasks, {ended} ended, {seconds} s\x1b[K");
        } else {
            let _ = eprint!(self.rt; "\r{seconds} s\x1b[K");
        }
    }

    /// Shows the line from time to time, and returns when `end` is called.
    pub fn tick(&self) {
        for _ in self.rt.forever() {
            self.is_over
                .park_timeout(self.rt, 0, Duration::from_millis(INTERVAL));
            if self.is_over.load(Ordering::SeqCst) != 0 {
                return;
            }
            let elapsed = self.elapsed();
            if elapsed >= SHOWN_AFTER {
                self.show(elapsed / 1000);
            }
        }
    }

    /// Removes the line if it is shown, and keeps it from being shown again.
    pub fn end(&self) {
        self.is_over.store(1, Ordering::SeqCst);
        self.is_over.wake_all();
        let mut line = self.line.lock(self.rt);
        if *line == Line::Shown {
            // A failed write is ignored here too.
            let _ = eprint!(self.rt; "\r\x1b[K");
        }
        *line = Line::Over;
    }
}

impl<'a, R: Wait + Clock + Eprint> Gate for Progress<'a, R> {
    fn enter(&self, origin: &Origin) {
        let counts = counts_of(&self.counters, origin);
        counts.begun.fetch_add(1, Ordering::SeqCst);
    }

    fn leave(&self, origin: &Origin) {
        let counts = counts_of(&self.counters, origin);
        counts.ended.fetch_add(1, Ordering::SeqCst);
        if let Origin::Instance { path, .. } = origin {
            if path.len() == 0 {
                self.mains.fetch_add(1, Ordering::SeqCst);
            }
        }
    }
}
