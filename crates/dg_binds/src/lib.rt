//! Module members as bindings.
#![tactic(auto)]

mod keys;
mod members;

pub use dg_decl::{Bind, BindKind};
pub use members::bindings;
