//! Canonical text: a document as it is printed.
#![tactic(auto)]

mod clause;
mod document;
mod expression;
mod item;
mod laws;
mod line;
mod shape;

pub use document::print_doc;
pub use laws::reads_back;

#[cfg(test)]
mod tests;
