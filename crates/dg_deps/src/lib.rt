//! What each node of the graph needs, and what that finds.
#![tactic(auto)]

mod bound;
mod dependencies;
mod dependency;
mod groups;
mod requests;

pub use dependencies::Dependencies;
pub use dependency::Dependency;
