//! Sources and sinks of bytes that tell each fault by a count.
#![tactic(auto)]

mod calls;
mod memory_sink;
mod memory_source;
mod sinks;
mod sources;
mod standard;

pub use memory_sink::MemOutput;
pub use memory_source::MemInput;
pub use sinks::{Output, write_all};
pub use sources::{Input, ReadError, read_all};
pub use standard::{StdInput, StdOutput};

/// A call failed; the count of faults rose in it.
#[derive(Clone, Copy, Debug, PartialEq, Eq)]
pub struct Failed;
