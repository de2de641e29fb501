/// What happens in one step. Workers are numbered from 0, and so are the stalled tasks of each.
#[derive(Clone, Copy, Debug, PartialEq, Eq)]
pub enum CoreEvent {
    /// The worker's current task comes to its next stop.
    Run(u32),
    /// The task at the back of the worker's deque becomes its current task.
    Pop(u32),
    /// The task at the front of the victim's deque becomes the thief's current task.
    Steal { thief: u32, victim: u32 },
    /// The worker checks whether the stalled task with this index can continue.
    Look { worker: u32, place: u32 },
    /// The worker has nothing to do.
    Idle(u32),
}
