//! The stages of bindings and of sizes: what the nodes of the graph break.
#![tactic(auto)]

mod bindings_stage;
mod cycles;
mod map_keys;
mod member_scope;
mod producing;
mod requests;
mod scope;
mod sizes_stage;
mod to_productions;
mod violation;

pub use bindings_stage::{violations, violations_of};
pub use sizes_stage::sizes;
