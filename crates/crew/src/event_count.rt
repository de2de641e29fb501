use crossbeam_utils::CachePadded;
use std::sync::Wait;
use std::sync::atomic::{AtomicU64, Ordering};
use std::time::Duration;

// An event count. A hand says that it will park, looks once more for a task, and then parks unless an event came meanwhile. Who changed
// something looks afterwards whether any hand has said so. Each of the two writes before it reads, so one of them sees the other, and no event is
// lost.
#[derive(Drop)]
pub(crate) struct EventCount {
    // How many events came.
    events: CachePadded<AtomicU64>,
    // How many hands are parked, or have said that they will be.
    parked: CachePadded<AtomicU64>,
}

impl EventCount {
    pub fn new() -> EventCount {
        EventCount {
            events: CachePadded::new(AtomicU64::new(0)),
            parked: CachePadded::new(AtomicU64::new(0)),
        }
    }

    fn events(&self) -> u64 {
        let events: &AtomicU64 = &self.events;
        events.load(Ordering::SeqCst)
    }

    /// One more hand will park. The number is that of the events so far.
    pub fn prepare(&self) -> u64 {
        let parked: &AtomicU64 = &self.parked;
        parked.fetch_add(1, Ordering::SeqCst);
        self.events()
    }

    /// A hand is no longer parked, or doesn't park after all.
    pub fn leave(&self) {
        let parked: &AtomicU64 = &self.parked;
        parked.fetch_sub(1, Ordering::SeqCst);
    }

    /// Parks while the count of events stays at `since`, for at most `micros` microseconds. Returns whether it rose.
    pub fn park<R: Wait>(&self, rt: &R, since: u64, micros: u64) -> bool {
        let events: &AtomicU64 = &self.events;
        events.park_timeout(
            rt,
            (since % 4294967296) as u32,
            Duration::from_micros(micros),
        );
        self.events() != since
    }

    /// Whether a hand is parked, or has said that it will be.
    pub fn has_parked(&self) -> bool {
        let parked: &AtomicU64 = &self.parked;
        parked.load(Ordering::SeqCst) != 0
    }

    /// An event for one of the parked hands.
    pub fn notify_one(&self) {
        let events: &AtomicU64 = &self.events;
        events.fetch_add(1, Ordering::SeqCst);
        events.wake_one();
    }

    /// An event for all of them.
    pub fn notify_all(&self) {
        let events: &AtomicU64 = &self.events;
        events.fetch_add(1, Ordering::SeqCst);
        events.wake_all();
    }
}
