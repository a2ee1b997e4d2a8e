//! The outside of the programs: where bytes come from, where they go, and who is told of each step.
#![tactic(auto)]

mod calls;
mod failed;
mod gate;
mod memory_sink;
mod memory_source;
mod sink;
mod source;
mod standard;

pub use failed::{Failed, NoMemory};
pub use gate::{Gate, QuietGate, Step};
pub use memory_sink::MemSink;
pub use memory_source::MemSource;
pub use sink::Sink;
pub use source::Source;
pub use standard::{StdSink, StdSource};

#[cfg(test)]
mod tests;
