//! The numbers of nodes.

ghost use Rattle.std.specs.Prelude.{◌≡◌, ◌<◌, ◌^◌, IfOk, OnOk, length};
ghost use Rattle.std.specs.List.{IsDistinct};
ghost use Rattle.dg_decl.specs.Graph as graph;
ghost use Rattle.indexmap.specs.IndexSet.{insert_key};
ghost use Rattle.dg_edges.specs.Numbered.{same};

use dg_decl::Node;
use dg_types::NoMemory;
use indexmap::IndexSet;
use std::alloc::Global;
use std::marker::Model;

/// The nodes of a list with their numbers. Contracts see the list. To find a number takes the time
/// of hashing a node, as a rule.
#[derive(Drop)]
pub struct Numbers {
    nodes: IndexSet<Node>,
}

impl Model for Numbers {
    ghost use Rattle.std.specs.Prelude.{List, ◌<◌, ◌^◌, length};
    ghost use Rattle.dg_decl.specs.declared.graph.Node.{Node};

    ghost Value = { List Node };

    ghost view = { λ n. n.nodes.keys };

    ghost invariant = { λ n. length n.nodes.keys < 2 ^ 32 };
}

/// Adds a copy of a node, unless it is there.
#[tactic(auto, unfolding(dg_edges::specs::Numbered::same))]
fn add_copy(alloc: Global, node: &Node, nodes: &mut IndexSet<Node>) -> Result<(), NoMemory>
    ensures exact { OnOk result (nodes.new.keys ≡ insert_key same nodes.old.keys node.now) }
{
    nodes.insert(node.copy(alloc)?)?;
    Ok(())
}

/// The same nodes, as a set in their order.
fn set_of(alloc: Global, nodes: &[Node]) -> Result<IndexSet<Node>, NoMemory>
    requires once { IsDistinct graph.same_node nodes.now }
    ensures exact { IfOk result (λ set. set.keys ≡ nodes.now) }
{
    let mut set = IndexSet::new(alloc);
    for node in nodes {
        add_copy(alloc, node, &mut set)?;
    }
    Ok(set)
}

impl Numbers {
    /// The numbers of these nodes, by their order.
    pub fn of(alloc: Global, nodes: &[Node]) -> Result<Numbers, NoMemory>
        requires once { IsDistinct graph.same_node nodes.now }
        requires few { length nodes.now < 2 ^ 32 }
        ensures exact { IfOk result (λ numbers. numbers ≡ nodes.now) }
    {
        let nodes = set_of(alloc, nodes)?;
        Ok(Numbers { nodes })
    }

    /// The number of a node; None where it isn't among them.
    pub fn number_of(&self, node: &Node) -> Option<u32>
        ensures exact { result ≡ graph.number_of self.now node.now }
    {
        match self.nodes.get_index_of(node) {
            Some(index) => Some(index as u32),
            None => None,
        }
    }
}
