// The memory of instances that have ended.

ghost use Rattle.std.specs.Prelude.{◌≡◌, []};

use crate::frame::Frame;
use crate::instance_parts::InstanceParts;
use contract_views::Items;
use serial_meaning::Value;
use spare_memory::{EmptyBox, EmptyList, Pool, emptied};
use std::alloc::Global;
use strand_values::EnvironmentPool;

// The most values for which a list has room that is kept, so that what is kept stays small.
const MOST_ROOM: usize = 64;

/// The memory of instances that have ended, for the next ones: their boxes, and the lists of their frames, variables and arguments. It
/// holds no value.
#[derive(Drop)]
pub struct InstancePool {
    pub(crate) boxes: Pool<EmptyBox<InstanceParts>>,
    pub(crate) environments: EnvironmentPool,
    frames: Pool<EmptyList<Frame>>,
    values: Pool<EmptyList<Value>>,
}

impl InstancePool {
    /// A pool with nothing in it, and without memory.
    pub fn new(alloc: Global) -> InstancePool {
        InstancePool {
            boxes: Pool::new(alloc),
            environments: EnvironmentPool::new(alloc),
            frames: Pool::new(alloc),
            values: Pool::new(alloc),
        }
    }

    /// Keeps the memory of a list of values, such as the arguments of a call whose answer was taken. A long one is freed.
    #[inline(always)]
    pub fn keep_values(&mut self, values: Items<Value>)
        ensures { self.new ≡ self.old }
    {
        if values.0.capacity() > MOST_ROOM {
            drop(values);
            return;
        }
        self.values.keep(EmptyList::of(values.0));
    }

    /// An empty list of values.
    #[inline(always)]
    pub fn values(&mut self, alloc: Global) -> Items<Value>
        ensures list { result ≡ [] }
        ensures same { self.new ≡ self.old }
    {
        match self.values.take() {
            Some(empty) => Items(empty.into_list()),
            None => Items(Vec::new(alloc)),
        }
    }

    // An empty list of frames.
    #[inline(always)]
    pub(crate) fn frames(&mut self, alloc: Global) -> Vec<Frame>
        ensures list { result.items ≡ [] }
        ensures same { self.new ≡ self.old }
    {
        match self.frames.take() {
            Some(empty) => empty.into_list(),
            None => Vec::new(alloc),
        }
    }

    // Keeps the memory of an instance that has ended.
    #[inline(always)]
    pub(crate) fn keep(&mut self, ended: Box<InstanceParts>)
        ensures { self.new ≡ self.old }
    {
        let (parts, room) = emptied(ended);
        self.boxes.keep(room);
        let InstanceParts {
            trail,
            top,
            below,
            ..
        } = parts;
        drop(trail);
        self.frames.keep(EmptyList::of(below));
        top.discard(&mut self.environments);
    }
}
