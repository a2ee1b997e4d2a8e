//! How the nodes of the graph and their requests are named.
#![tactic(auto)]

mod class;
mod sites;

pub use sites::{Sites, site_text};
