// How the heap of a hand's thread grows.
use std::alloc::{AllocError, Global};

// For how many turns that run a task the heap is grown at once.
const TURNS: u32 = 4096;

// How far the heap is grown, in bytes. A turn keeps some 400 of them, for a child's path and the events around its spawn.
const HEAP_GROWTH: usize = 4 * 1024 * 1024;

// The heap of a hand's thread.
#[derive(Drop)]
pub(crate) struct Heap {
    alloc: Global,
    // For how many more turns it was grown.
    turns: u32,
}

impl Heap {
    pub fn new(alloc: Global) -> Heap {
        Heap { alloc, turns: 0 }
    }

    /// A turn ran a task. From time to time a block is taken and given back at once, so that the allocator takes as much from the system by
    /// one call. glibc's grows the heap of each thread but the first by a page of 4 KiB at a time, and each such call stops the others that
    /// take memory. Where there is no such room, the heap grows as before.
    pub fn count_turn(&mut self) {
        if self.turns == 0 {
            let room: Result<Vec<u8>, AllocError> = Vec::with_capacity(self.alloc, HEAP_GROWTH);
            drop(room);
            self.turns = TURNS;
        }
        self.turns -= 1;
    }
}
