//! The edges of the graph of a document, by the numbers of its nodes.
#![tactic(auto)]

mod calls;
mod edges;
mod lists;
mod numbers;

pub use lists::edge_lists;
