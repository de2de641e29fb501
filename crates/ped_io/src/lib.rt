//! Sources and sinks of bytes that count their faults, and whole transfers over them.
//!
//! A fault of reading or writing is believed only where the count of the object that was lent rose in the
//! call. So a transfer can't answer a fault that the device didn't have.
#![tactic(auto)]

pub mod mem;
pub mod standard;
pub mod stream;
pub mod transfer;

pub use mem::{MemSink, MemSource};
pub use standard::{StdSink, StdSource};
pub use stream::{Failed, Memory, Sink, Source};
pub use transfer::{ReadError, read_all, write_all};
