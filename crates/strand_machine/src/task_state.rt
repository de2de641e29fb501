ghost use Rattle.std.specs.Prelude.{◌≡◌, [], false};

use crate::trace::{AfterChild, Trace};
use contract_views::Items;
use serial_meaning::{Keep, Origin, Value};
use std::alloc::Global;
use std::mem;
use strand_family::Links;

// A task's state, without what remains to run.
#[derive(Drop)]
pub(crate) struct TaskState<K: Keep> {
    pub links: Links<K>,
    pub trace: Trace<K>,
    // The values of a loop's iterations whose answers were taken, in order.
    pub values: Items<Value>,
    pub waiting: bool,
    pub advanced: bool,
}

impl<K: Keep> TaskState<K> {
    ghost use Rattle.strand_meaning.specs.Trace.{no_trace};
    ghost use Rattle.strand_machine.specs.TaskStates.{is_long};

    // The state of a task that hasn't begun.
    #[inline(always)]
    pub fn new(alloc: Global, links: Links<K>, room: Vec<AfterChild<K>>) -> TaskState<K>
        requires { room.items ≡ [] }
        ensures { result ≡ record { links = links; trace = no_trace; values = []; waiting = false; advanced = false } }
    {
        TaskState {
            links,
            trace: Trace::new(room),
            values: Items(Vec::new(alloc)),
            waiting: false,
            advanced: false,
        }
    }

    // Takes the values out.
    pub fn take_values(&mut self, alloc: Global) -> Items<Value>
        ensures values { result ≡ self.old.values }
        ensures rest { self.new ≡ record self.old { values = [] } }
    {
        mem::replace(&mut self.values, Items(Vec::new(alloc)))
    }

    // Whether its origin is a loop of two iterations or more.
    pub fn is_long(&self) -> bool
        ensures { result ≡ is_long self.now.links.origin }
    {
        match self.links.origin() {
            Origin::Instance { .. } => false,
            Origin::Loop { range, .. } => range.len() > 1,
        }
    }
}
