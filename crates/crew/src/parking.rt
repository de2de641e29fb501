// How a hand that finds nothing to do parks.
use crate::signals::{Awaited, Signals};
use crossbeam_utils::Backoff;
use std::mem;
use std::sync::Wait;

// How long a hand is parked at first, in microseconds. It wakes by itself after that, whether it was called or not.
const SHORTEST: u64 = 50;

// How long a hand without a task is parked at most. A push calls it, so it may be long.
const LONGEST_IDLE: u64 = 10000;

// How long a hand is parked at most whose tasks wait for children. Nobody else can take them up once the children have answered.
const LONGEST_STALLED: u64 = 2000;

// How long a hand is parked at most that cuts all tasks that it begins.
const LONGEST_CUTTING: u64 = 500;

// For how many more rounds a hand gives way before it parks: some 40 microseconds, about as long as it takes to wake a hand.
const ROUNDS: u32 = 100;

// Where more hands than this look for a task, a hand parks without these rounds.
const FEW: u64 = 2;

// What a hand does between two tasks.
#[derive(Drop)]
enum Stage {
    // It has something to do.
    Works,
    // The signals count it as one that looks for a task.
    Seeks,
    // It has said that it will park. After one more look it does, while there is no event after so many.
    Parks(Awaited, u64),
}

// Parking of a hand: at first it only gives way to others, and then it parks, each time for twice as long as before.
#[derive(Drop)]
pub(crate) struct Parking {
    stage: Stage,
    backoff: Backoff,
    // How many rounds it gave way after these. One that had no task yet doesn't.
    rounds: u32,
    // How long it is parked next, in microseconds.
    next: u64,
}

impl Parking {
    pub fn new() -> Parking {
        Parking {
            stage: Stage::Works,
            backoff: Backoff::new(),
            rounds: ROUNDS,
            next: SHORTEST,
        }
    }

    /// The hand found something to do.
    #[inline(always)]
    pub fn end(&mut self, signals: &Signals) {
        if !matches!(self.stage, Stage::Works) {
            self.end_seek(signals);
        }
    }

    // It looks for no task any more. Pushes called none meanwhile, so that it calls one in their place.
    #[inline(never)]
    fn end_seek(&mut self, signals: &Signals) {
        self.seek(signals);
        self.stage = Stage::Works;
        signals.end_seek();
        signals.wake_one();
        self.backoff.reset();
        self.rounds = 0;
        self.next = SHORTEST;
    }

    // The hand counts as one that looks for a task, and doesn't park.
    fn seek(&mut self, signals: &Signals) {
        match mem::replace(&mut self.stage, Stage::Seeks) {
            Stage::Works => signals.begin_seek(),
            Stage::Seeks => {}
            Stage::Parks(awaited, _) => signals.leave(awaited),
        }
    }

    /// The hand found a task to cut. It goes on to count as one that looks, if it did.
    #[inline(always)]
    pub fn cut(&mut self, signals: &Signals) {
        if matches!(self.stage, Stage::Parks(..)) {
            self.seek(signals);
        }
    }

    /// The hand found nothing to do and has no task.
    pub fn park_idle<R: Wait>(&mut self, rt: &R, signals: &Signals) {
        self.park_or_spin(rt, signals, Awaited::Task, LONGEST_IDLE);
    }

    /// The hand found nothing to do, and all of its tasks wait.
    pub fn park_stalled<R: Wait>(&mut self, rt: &R, signals: &Signals) {
        self.park_or_spin(rt, signals, Awaited::Answer, LONGEST_STALLED);
    }

    /// The hand cuts all that it begins, and left a task waiting. It is parked for a while, and looks for nothing before.
    pub fn park_cutting<R: Wait>(&mut self, rt: &R, signals: &Signals) {
        if self.backoff.is_completed() {
            self.prepare(signals, Awaited::Answer);
            self.park(rt, signals, LONGEST_CUTTING);
            self.seek(signals);
        } else {
            self.give_way(signals);
        }
    }

    fn park_or_spin<R: Wait>(&mut self, rt: &R, signals: &Signals, awaited: Awaited, longest: u64) {
        if matches!(self.stage, Stage::Parks(..)) {
            self.park(rt, signals, longest);
        } else if !self.backoff.is_completed() {
            self.give_way(signals);
        } else if self.rounds < ROUNDS && signals.seeking() <= FEW {
            self.rounds = self.rounds.saturating_add(1);
            self.give_way(signals);
        } else {
            self.prepare(signals, awaited);
        }
    }

    fn give_way(&mut self, signals: &Signals) {
        self.seek(signals);
        self.backoff.snooze();
    }

    fn prepare(&mut self, signals: &Signals, awaited: Awaited) {
        self.seek(signals);
        signals.end_seek();
        self.stage = Stage::Parks(awaited, signals.prepare(awaited));
    }

    fn park<R: Wait>(&mut self, rt: &R, signals: &Signals, longest: u64) {
        if let Stage::Parks(awaited, since) = self.stage {
            if signals.park(rt, awaited, since, self.next.min(longest)) {
                self.stage = Stage::Seeks;
            } else {
                self.next = self.next.saturating_mul(2).min(longest);
            }
        }
    }
}
