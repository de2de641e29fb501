use crate::signals::Signals;
use std::mem;

// Where a task ends, its parent may be stalled at another hand, which is then to be woken. A hand guesses that by what it pushed and took up.
//
// Where a hand began the task itself, its parent's rest is the newest entry of the hand's own deck. Else it was stolen, and the deck is empty. Where the
// hand's newest stalled task goes on after an answer, that is taken for the parent.
#[derive(Drop)]
pub(crate) struct Parents {
    // How many entries it pushed since it began a task that was stolen or stalled, less those that it popped again.
    pushed: u64,
    // In the last turn a task ended, and the hand had pushed its parent.
    is_due: bool,
}

impl Parents {
    pub fn new() -> Parents {
        Parents {
            pushed: 0,
            is_due: false,
        }
    }

    /// The hand began a child, and pushed the rest of its parent.
    #[inline(always)]
    pub fn pushed(&mut self) {
        self.pushed = self.pushed.saturating_add(1);
    }

    /// The hand popped the newest entry of its own deck.
    #[inline(always)]
    pub fn popped(&mut self) {
        self.is_due = false;
        self.pushed = self.pushed.saturating_sub(1);
    }

    /// The hand began a task whose parent it didn't push.
    pub fn took(&mut self, signals: &Signals) {
        self.found_none(signals);
        self.pushed = 0;
    }

    /// The hand found that its own deck is empty.
    pub fn found_none(&mut self, signals: &Signals) {
        if mem::replace(&mut self.is_due, false) {
            signals.wake_stalled();
        }
    }

    /// A task ended, and no task that the hand has itself goes on by that.
    #[inline(always)]
    pub fn ended(&mut self, signals: &Signals) {
        if self.pushed == 0 {
            signals.wake_stalled();
        } else {
            self.is_due = true;
        }
    }
}
