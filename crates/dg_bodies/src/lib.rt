//! Bodies: what an expression, a condition or a decision tree gives.
#![tactic(auto)]

mod calls;
mod counters;
mod element_key;
mod expressions;
mod made;
mod operations;
mod params;
mod parts;
mod sets;
mod site;
mod trees;

pub use counters::NewsAndCalls;
pub use operations::field;
pub use parts::{elements, entry_value, entry_with, inside, production, value_if};
pub use sets::set_of;
pub use trees::tree_end;

#[cfg(test)]
mod tests;
