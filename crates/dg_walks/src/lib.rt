//! What walks over the graph of a document come to: cycles, productions, depth and weight, of each
//! node by its number.
#![tactic(auto)]

mod bodies;
mod calls;
mod cycles;
mod items;
mod producing;
mod rows;
mod sizes;
mod turned;

pub use cycles::{on_call, on_cycle};
pub use producing::productions;
pub use sizes::{depths, weights};
