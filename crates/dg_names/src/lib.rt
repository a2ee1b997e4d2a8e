//! The statements of a document and the names that they declare, in tables that are made once.
#![tactic(auto)]

mod names;
mod noted;
mod statement;
mod table;

pub use names::Names;
pub use statement::Statement;
