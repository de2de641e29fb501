use std::alloc::{AllocError, AllocFailed};

/// There was no memory for the call.
#[derive(Clone, Copy, Debug, PartialEq, Eq)]
pub struct Memory;

impl From<AllocError> for Memory {
    fn from(_: AllocError) -> Self {
        Memory
    }
}

/// The value for which there was no memory is dropped.
impl<T: Drop> From<AllocFailed<T>> for Memory {
    fn from(_: AllocFailed<T>) -> Self {
        Memory
    }
}

impl From<dotmix::Memory> for Memory {
    fn from(_: dotmix::Memory) -> Self {
        Memory
    }
}

impl From<ped_path::Memory> for Memory {
    fn from(_: ped_path::Memory) -> Self {
        Memory
    }
}

impl From<strand_family::Memory> for Memory {
    fn from(_: strand_family::Memory) -> Self {
        Memory
    }
}

impl From<serial_meaning::Memory> for Memory {
    fn from(_: serial_meaning::Memory) -> Self {
        Memory
    }
}

impl From<strand_moves::Memory> for Memory {
    fn from(_: strand_moves::Memory) -> Self {
        Memory
    }
}

impl From<meet_block::Memory> for Memory {
    fn from(_: meet_block::Memory) -> Self {
        Memory
    }
}
