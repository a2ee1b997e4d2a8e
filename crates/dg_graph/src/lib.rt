//! The graph of a document: the nodes that entry points need, and the edges between them.
#![tactic(auto)]

mod building;
mod groups;
mod marks;
mod order;
mod reached;
mod sources;

pub use building::{bind_graph, graph_of};
pub use dg_decl::{BindGraph, Edge, EdgeKind, Node, NodeKind};
pub use dg_sites::site_text;
