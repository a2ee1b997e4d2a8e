//! The document that is generated for a load of asks.
#![tactic(auto)]

mod document;
mod memory;

pub use document::{generate, lines_of_generated};
pub use memory::NoMemory;

#[cfg(test)]
mod tests;
