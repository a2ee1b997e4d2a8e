//! Jobs that need one another's results: which are ready, which are handed out, and which are
//! finished.
#![tactic(auto)]

mod board;
mod calls;
mod job_core;
mod laws;
mod memory;
mod phase;
mod piles;

pub use calls::{JobCounts, JobEnd, Next};
pub use job_core::JobCore;
pub use laws::{faithful_runs, invariant_is_kept, nothing_hangs, taken_once};
pub use memory::NoMemory;
pub use phase::Phase;

#[cfg(test)]
mod tests;
