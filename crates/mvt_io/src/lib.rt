//! Readers and writers that count their failed calls, over those of std or over memory.
#![tactic(auto)]

mod failures;
mod host;
pub mod laws;
mod memory_sink;
mod memory_source;
mod read_error;
mod rest;
mod sink;
mod source;
mod transfers;

pub use host::Host;
pub use memory_sink::MemorySink;
pub use memory_source::MemorySource;
pub use read_error::ReadError;
pub use sink::Sink;
pub use source::Source;
pub use transfers::{read_up_to, write_all};
