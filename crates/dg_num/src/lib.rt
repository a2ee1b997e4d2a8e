//! Graphs whose nodes are numbers: which nodes walks reach, which lie on cycles, how long the
//! longest walks are, and what the nodes weigh with all that they lead to.
#![tactic(auto)]

mod components;
mod cycles;
mod graph;
mod memory;
mod peeling;
mod ranking;
mod reached;
mod weighing;

pub use cycles::on_cycle;
pub use graph::Graph;
pub use memory::NoMemory;
pub use ranking::{RankFault, ranks};
pub use reached::reach;
pub use weighing::{one_weight, weights};

#[cfg(test)]
mod tests;
