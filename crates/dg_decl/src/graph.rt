use crate::binding::BindRef;
use dg_types::Key;
use sqlite_items::Items;

/// What stands at a node of the graph.
#[derive(Drop, PartialEq, Eq, Hash)]
pub enum NodeKind {
    /// A binding.
    Bound(BindRef),
    /// The set or map of this key.
    Multi(Key),
    /// The optional of this key.
    Opt(Key),
    /// The entry point of this index.
    EntryOf(u32),
}

/// A node of the graph: what stands there, and the number of the component class that owns it.
#[derive(Drop, PartialEq, Eq, Hash)]
pub struct Node {
    pub class: u32,
    pub kind: NodeKind,
}

/// How a node leads to another.
#[derive(Clone, Copy, Debug, PartialEq, Eq)]
pub enum EdgeKind {
    /// It needs the other's value before its own is made.
    Direct,
    /// Its body asks for the other's value.
    Called,
    /// It needs a way to the other's value alone.
    Deferred,
}

/// An edge of the graph.
#[derive(Clone, Copy)]
pub struct Edge {
    pub kind: EdgeKind,
    /// The number of the dependency, counted from 1; of a called edge that of the parameter.
    pub param: u32,
    /// The number of the node to which it leads.
    pub to: u32,
}

/// The nodes that entry points need, in order, and the edges of each, in order. A node's number
/// counts from 0 in this list.
#[derive(Drop)]
pub struct BindGraph {
    pub nodes: Items<Node>,
    pub edges: Items<Items<Edge>>,
}
