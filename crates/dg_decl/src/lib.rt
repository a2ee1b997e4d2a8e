//! What a document declares, as plain data; and in specs/ what a document means up to its checks:
//! what is read from its bytes, its canonical text, its components, bindings, graph and
//! diagnostics.
#![tactic(auto)]

mod binding;
mod component;
mod components_laws;
mod copy;
mod document;
mod expression;
mod graph;
mod graph_laws;
mod item;
mod parts;
mod reading;
mod violation;

pub use binding::{Bind, BindKind, BindRef, Found, Owned};
pub use component::{Bound, Class, CompTree, Exposed};
pub use components_laws::{
    ancestors_are_walks, below_by_short_walks, chains_are_whole, chains_end_at_roots,
    headers_have_their_numbers, reached_by_short_walks,
};
pub use document::{Doc, LineMeaning};
pub use expression::{CallName, Cond, Expr, ParamCall, Tree};
pub use graph::{BindGraph, Edge, EdgeKind, Node, NodeKind};
pub use graph_laws::{
    cycles_by_short_walks, depths_are_longest_walks, edges_are_numbered,
    nodes_are_the_reachable_ones, one_list_of_nodes, productions_by_short_walks,
    stages_leave_no_cycle, targets_are_candidates, weights_add_up,
};
pub use item::{AskStep, Item, Mark, OpenArg, Param};
pub use parts::open_behind;
pub use reading::{lines_and_rest, one_reading};
pub use violation::{Rule, Violation};

#[cfg(test)]
mod tests;
