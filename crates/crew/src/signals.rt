// What the hands of a crew tell one another.
use crate::event_count::EventCount;
use crossbeam_utils::CachePadded;
use std::sync::Wait;
use std::sync::atomic::{AtomicU64, Ordering};

// What a hand is parked for.
#[derive(Clone, Copy, Drop)]
pub(crate) enum Awaited {
    // A task to steal, since it has none.
    Task,
    // An answer, since its tasks wait for children.
    Answer,
}

// What the hands tell one another.
//
// A push calls a parked hand, unless one looks for a task already, which then makes the same call once it has found one.
// A hand that was called counts as one that looks, even before it runs, so that the next push calls no other.
#[derive(Drop)]
pub(crate) struct Signals {
    // 0 as long as the hands take turns, and then 1.
    stop: CachePadded<AtomicU64>,
    // How many roots' answers were put.
    ended: CachePadded<AtomicU64>,
    // How many hands look for a task, or cut all that they begin, and aren't parked.
    seeking: CachePadded<AtomicU64>,
    // 1 where a hand was called and none has taken the call yet, else 0.
    called: CachePadded<AtomicU64>,
    // Where hands park that have no task.
    idle: EventCount,
    // Where hands park whose tasks wait for children.
    stalled: EventCount,
    // How many roots there are.
    roots: u64,
}

impl Signals {
    /// The signals of a run of this many roots.
    pub fn new(roots: u64) -> Signals {
        Signals {
            stop: CachePadded::new(AtomicU64::new(0)),
            ended: CachePadded::new(AtomicU64::new(0)),
            seeking: CachePadded::new(AtomicU64::new(0)),
            called: CachePadded::new(AtomicU64::new(0)),
            idle: EventCount::new(),
            stalled: EventCount::new(),
            roots,
        }
    }

    /// No hand takes another turn.
    pub fn end_turns(&self) {
        let stop: &AtomicU64 = &self.stop;
        stop.store(1, Ordering::SeqCst);
        self.idle.notify_all();
        self.stalled.notify_all();
    }

    pub fn is_stopped(&self) -> bool {
        let stop: &AtomicU64 = &self.stop;
        stop.load(Ordering::SeqCst) != 0
    }

    /// One more root's answer was put. With the last one no hand takes another turn.
    pub fn root_ended(&self) {
        let ended: &AtomicU64 = &self.ended;
        let before = ended.fetch_add(1, Ordering::SeqCst);
        if before.saturating_add(1) >= self.roots {
            self.end_turns();
        }
    }

    /// The answers of all roots were put.
    pub fn is_ended(&self) -> bool {
        let ended: &AtomicU64 = &self.ended;
        ended.load(Ordering::SeqCst) >= self.roots
    }

    /// How many hands look for a task.
    pub fn seeking(&self) -> u64 {
        let seeking: &AtomicU64 = &self.seeking;
        seeking.load(Ordering::SeqCst)
    }

    /// One more hand looks for a task.
    pub fn begin_seek(&self) {
        let seeking: &AtomicU64 = &self.seeking;
        seeking.fetch_add(1, Ordering::SeqCst);
    }

    /// A hand that looked for a task no longer does.
    pub fn end_seek(&self) {
        let seeking: &AtomicU64 = &self.seeking;
        seeking.fetch_sub(1, Ordering::SeqCst);
    }

    fn event_count_of(&self, awaited: Awaited) -> &EventCount {
        match awaited {
            Awaited::Task => &self.idle,
            Awaited::Answer => &self.stalled,
        }
    }

    // Takes the call, if there is one. Who takes it counts as one that looks for a task.
    fn take_call(&self) -> bool {
        let called: &AtomicU64 = &self.called;
        called.load(Ordering::SeqCst) != 0 && called.swap(0, Ordering::SeqCst) != 0
    }

    /// A hand will park, and has to look once more before it does. The number is for `park`.
    pub fn prepare(&self, awaited: Awaited) -> u64 {
        let since = self.event_count_of(awaited).prepare();
        // The look that is left answers a call that nobody else took.
        if self.take_call() {
            self.end_seek();
        }
        since
    }

    /// Parks until it is called, for at most `micros` microseconds. True where it was called: then it is no longer parked, and counts as one that
    /// looks for a task.
    pub fn park<R: Wait>(&self, rt: &R, awaited: Awaited, since: u64, micros: u64) -> bool {
        let is_event = self.event_count_of(awaited).park(rt, since, micros);
        let is_call = self.take_call();
        if !is_event && !is_call {
            return false;
        }
        self.event_count_of(awaited).leave();
        if !is_call {
            self.begin_seek();
        }
        true
    }

    /// A hand doesn't park after all, and counts as one that looks for a task.
    pub fn leave(&self, awaited: Awaited) {
        self.event_count_of(awaited).leave();
        if !self.take_call() {
            self.begin_seek();
        }
    }

    /// There is a task to steal: calls a parked hand where none looks for one. It writes nothing where a hand looks or
    /// none is parked, so that a push costs at most three reads of what seldom changes.
    #[inline(always)]
    pub fn wake_one(&self) {
        if self.seeking() != 0 {
            return;
        }
        if self.idle.has_parked() {
            self.call(Awaited::Task);
        } else if self.stalled.has_parked() {
            self.call(Awaited::Answer);
        }
    }

    #[inline(never)]
    fn call(&self, awaited: Awaited) {
        let called: &AtomicU64 = &self.called;
        if called.swap(1, Ordering::SeqCst) == 0 {
            self.begin_seek();
            self.event_count_of(awaited).notify_one();
        }
    }

    /// An answer was put whose parent may be stalled at another hand: the hands that are parked with stalled tasks look
    /// once more.
    #[inline(never)]
    pub fn wake_stalled(&self) {
        if self.stalled.has_parked() {
            self.stalled.notify_all();
        }
    }
}
