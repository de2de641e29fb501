use crate::open_tasks::{OpenTask, OpenTasks};
use contract_views::Boxed;
use serial_meaning::{Answer, Keep};

// The task that runs, and below it its ancestors: each began the task above it as its last child.
#[derive(Drop)]
pub(crate) struct Stack<K: Keep> {
    pub top: OpenTask<K>,
    pub below: OpenTasks<K>,
}

// A stack after a stop of its topmost task. An answer is boxed, so that this type stays small.
#[derive(Drop)]
pub(crate) enum Advanced<K: Keep> {
    Continues(Stack<K>),
    // The task at the bottom has ended.
    Ends(Boxed<Answer<K>>),
}
