use strand_machine::Task;

// A task, and its origin's number among those that were begun.
#[derive(Drop)]
pub(crate) struct Job {
    pub task: Task,
    pub number: usize,
}
