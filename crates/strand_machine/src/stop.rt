use crate::task::Task;
use meet_block::Give;
use serial_meaning::{All, Answer, Keep};

/// Where a task stopped.
#[derive(Drop)]
pub enum Stop<K: Keep = All> {
    /// It began a child, which may run before, after or in parallel with the rest.
    Spawn {
        child: Task<K>,
        rest: Task<K>,
    },
    /// It waits for its children.
    Wait {
        rest: Task<K>,
    },
    /// It has ended: its answer, and the give for it.
    Done {
        answer: Answer<K>,
        give: Give<Answer<K>>,
    },
}

/// Where a task stopped, as `Stop` says it in more bytes: here a task that has ended keeps its answer until `into_answer`.
#[derive(Drop)]
pub enum Paused<K: Keep = All> {
    /// It began a child, which may run before, after or in parallel with the rest.
    Spawn { child: Task<K>, rest: Task<K> },
    /// It waits for its children.
    Wait { rest: Task<K> },
    /// It has ended.
    Ended { rest: Task<K> },
}

// What a step of a task in place came to. The parts have what is left of the task, so that no move of an instance moves the task. Only at a
// stop a `Stop` or a `Paused` is made of both.
#[derive(Drop)]
pub(crate) enum Passed<K: Keep> {
    // It goes on.
    Continues,
    // It waits for its children.
    Waits,
    // It began a child.
    Spawned(Task<K>),
    // It has ended, by the outcome that is what remains of it.
    Ends,
}

/// What became of a wait.
#[derive(Drop)]
pub enum Resumed<K: Keep = All> {
    /// All children have answered, and the task continues. Where one of the answers is a cut, it ends by its next
    /// advance.
    On(Task<K>),
    /// Not all of them have, and the task still waits.
    NotYet(Task<K>),
}
