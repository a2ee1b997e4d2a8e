//! The jobs of a document: what they need, what they give, and which cells they use.
#![tactic(auto)]

mod cells;
mod jobs;
mod laws;
mod result;
mod walks;

pub use cells::CellName;
pub use jobs::{Jobs, jobs_of};
pub use laws::jobs_fit_together;
pub use result::JobResult;

#[cfg(test)]
mod tests;
