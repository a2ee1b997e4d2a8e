//! What nodes are listed from, and a node of a class that is listed where it is found.

ghost use Rattle.std.specs.Prelude.{◌≡◌, ◌++◌, ◌∷◌, [], if◌then◌else◌, OnOk};
ghost use Rattle.dg_graph.specs.Kept as spec;

use dg_decl::{Node, NodeKind};
use dg_resolve::Lookups;
use dg_types::NoMemory;
use indexmap::IndexSet;
use std::alloc::Global;

/// The look-ups of a document, the found nodes, and the places at which these stand.
#[derive(Clone, Copy)]
pub struct Sources<'s> {
    pub alloc: Global,
    pub lookups: &'s Lookups<'s>,
    pub found: &'s IndexSet<Node>,
    pub taken: &'s [Vec<bool>],
}

/// Whether a node is found.
#[tactic(auto, unfolding(crate::specs::Kept::same))]
pub fn is_found(found: &IndexSet<Node>, node: &Node) -> bool
    ensures exact { result ≡ spec.is_among found.now.keys node.now }
{
    found.contains(node)
}

/// Adds a node to a list, or drops it.
pub fn push_if(listed: bool, node: Node, nodes: &mut Vec<Node>) -> Result<(), NoMemory>
    ensures exact { OnOk result (nodes.new.items
        ≡ nodes.old.items ++ (if listed then node ∷ [] else [])) }
{
    if listed {
        nodes.push(node)?;
        return Ok(());
    }
    drop(node);
    Ok(())
}

/// Lists the node of this class and kind, where it is found.
pub fn keep(
    found: &IndexSet<Node>,
    class: u32,
    kind: NodeKind,
    nodes: &mut Vec<Node>,
) -> Result<(), NoMemory>
    ensures exact { OnOk result (nodes.new.items ≡ nodes.old.items
        ++ spec.kept found.now.keys class (kind ∷ [])) }
{
    let node = Node { class, kind };
    let listed = is_found(found, &node);
    push_if(listed, node, nodes)
}
