ghost use Rattle.std.specs.Prelude.{◌≡◌, IfOk};
ghost use Rattle.strand_machine.specs.Tasks.{HoldsOfTask, view_of};

use crate::memory::Memory;
use crate::remaining::Remaining;
use crate::task::Task;
use crate::task_pool::TaskPool;
use crate::task_state::TaskState;
use serial_meaning::{Fault, Keep, Out};
use std::alloc::Global;
use strand_family::Links;

// The content of a task's box, which its moves change in place.
#[derive(Drop)]
pub(crate) struct Parts<K: Keep> {
    pub state: TaskState<K>,
    pub remaining: Remaining,
}

impl<K: Keep> Parts<K> {
    /// The task with these parts.
    #[inline(always)]
    pub fn boxed(alloc: Global, parts: Parts<K>, pool: &mut TaskPool<K>) -> Result<Task<K>, Memory>
        requires { HoldsOfTask parts.state parts.remaining }
        ensures { IfOk result (λ task. task ≡ view_of parts.state parts.remaining) }
    {
        let parts = pool.boxed(alloc, parts)?;
        Ok(Task { parts })
    }

    /// What `Task::unshare_path` does.
    pub fn unshare_path(&mut self, alloc: Global)
        ensures { self.new ≡ self.old }
    {
        self.remaining.unshare_path(alloc);
        self.state.links.unshare_path(alloc);
    }

    /// What is left of a task that ends: its links, its events before the first child, and the fault in its trace, if
    /// there is one. Its box is freed.
    #[inline(always)]
    pub fn end(parts: Box<Parts<K>>) -> (Links<K>, Out<K>, Option<Fault>)
        ensures links { result.0 ≡ parts.value.state.links }
        ensures prefix { result.1 ≡ parts.value.state.trace.prefix }
        ensures fault { result.2 ≡ parts.value.state.trace.fault }
    {
        let Parts { state, remaining } = Box::into_inner(parts);
        let TaskState {
            links,
            trace,
            values,
            ..
        } = state;
        drop((remaining, values));
        let (prefix, fault) = trace.prefix();
        (links, prefix, fault)
    }
}
