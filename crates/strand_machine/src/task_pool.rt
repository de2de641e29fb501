// The memory of tasks that have ended.

ghost use Rattle.std.specs.Prelude.{◌≡◌, [], IfOk};

use crate::memory::Memory;
use crate::parts::Parts;
use crate::trace::AfterChild;
use meet_block::JoinPool;
use serial_meaning::{All, Answer, Keep, Origin};
use spare_memory::{EmptyBox, EmptyList, Pool, boxed};
use std::alloc::Global;
use strand_moves::InstancePool;

/// The memory of tasks that have ended, and of their instances and joins, for the next ones. It holds no value.
#[derive(Drop)]
pub struct TaskPool<K: Keep = All> {
    pub(crate) instances: InstancePool,
    pub(crate) joins: JoinPool<Answer<K>>,
    boxes: Pool<EmptyBox<Parts<K>>>,
    children: Pool<EmptyList<AfterChild<K>>>,
}

impl<K: Keep> TaskPool<K> {
    /// A pool with nothing in it, and without memory.
    pub fn new(alloc: Global) -> TaskPool<K> {
        TaskPool {
            instances: InstancePool::new(alloc),
            joins: JoinPool::new(alloc),
            boxes: Pool::new(alloc),
            children: Pool::new(alloc),
        }
    }

    // A box with these parts.
    #[inline(always)]
    pub(crate) fn boxed(&mut self, alloc: Global, parts: Parts<K>) -> Result<Box<Parts<K>>, Memory>
        ensures boxed { IfOk result (λ b. b.value ≡ parts) }
        ensures same { self.new ≡ self.old }
    {
        Ok(boxed(self.boxes.take(), alloc, parts)?)
    }

    // Keeps a box.
    #[inline(always)]
    pub(crate) fn keep_box(&mut self, room: EmptyBox<Parts<K>>)
        ensures { self.new ≡ self.old }
    {
        self.boxes.keep(room);
    }

    // An empty list of children.
    #[inline(always)]
    pub(crate) fn children(&mut self, alloc: Global) -> Vec<AfterChild<K>>
        ensures list { result.items ≡ [] }
        ensures same { self.new ≡ self.old }
    {
        match self.children.take() {
            Some(empty) => empty.into_list(),
            None => Vec::new(alloc),
        }
    }

    // Keeps the memory of a list of children.
    #[inline(always)]
    pub(crate) fn keep_children(&mut self, list: Vec<AfterChild<K>>)
        ensures { self.new ≡ self.old }
    {
        self.children.keep(EmptyList::of(list));
    }

    // Drops an origin whose answer was taken, and keeps the memory of its arguments.
    #[inline(always)]
    pub(crate) fn keep_origin(&mut self, origin: Origin)
        ensures { self.new ≡ self.old }
    {
        match origin {
            Origin::Instance {
                function: _,
                args,
                path,
            } => {
                drop(path);
                self.instances.keep_values(args);
            }
            Origin::Loop { rest, path, .. } => drop((rest, path)),
        }
    }
}
