use std::alloc::{AllocError, AllocFailed};

/// There was no memory for the call.
#[derive(Clone, Copy, Debug, PartialEq, Eq)]
pub struct Memory;

impl From<AllocError> for Memory {
    fn from(_: AllocError) -> Self {
        Memory
    }
}

/// The value for which there was no memory is dropped.
impl<T: Drop> From<AllocFailed<T>> for Memory {
    fn from(_: AllocFailed<T>) -> Self {
        Memory
    }
}

impl From<ped_path::Memory> for Memory {
    fn from(_: ped_path::Memory) -> Self {
        Memory
    }
}

impl From<dotmix::Memory> for Memory {
    fn from(_: dotmix::Memory) -> Self {
        Memory
    }
}

impl From<script_check::Memory> for Memory {
    fn from(_: script_check::Memory) -> Self {
        Memory
    }
}

impl From<loop_range::Memory> for Memory {
    fn from(_: loop_range::Memory) -> Self {
        Memory
    }
}
