//! Documents from bytes to replies: what the programs do, over any source and sink.
#![tactic(auto)]

mod answer;
mod asking;
mod checking;
mod command;
mod diagnosing;
mod input;
mod marker;
mod output;
mod perform;
mod planning;
mod preparing;
mod printing;
mod reporting;
mod run;
mod running;
mod status;
mod stream_fault;

pub use command::{Command, Program};
pub use run::{check_top, one_output, run_top};
pub use status::Status;

#[cfg(test)]
mod tests;
