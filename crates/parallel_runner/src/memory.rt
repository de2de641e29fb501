// Both runners answer with the tasks' own want of memory.
pub use strand_machine::Memory;
