//! The words of the programs' command lines.
#![tactic(auto)]

mod check;
mod fault;
mod flag;
mod run;
mod values;

pub use check::{CheckWords, check_words, one_check_of_words};
pub use fault::{NoMemory, WordFault};
pub use run::{RunWords, one_run_of_words, run_words};

#[cfg(test)]
mod tests;
