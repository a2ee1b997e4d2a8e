ghost use Rattle.std.specs.Prelude.{◌≡◌, IfOk};
ghost use Rattle.dg_decl.specs.Graph as graph;
ghost use Rattle.dg_decl.specs.declared.graph.NodeKind.TheVariants as kind;

use dg_decl::{Found, Node, NodeKind};
use dg_types::{Key, Mode, Name, NoMemory};
use std::alloc::Global;
use std::marker::Model;

/// A request of a node with what it finds, or a contribution to a set or map.
#[derive(Drop)]
pub struct Dependency<'a> {
    /// The parameter that makes the request; None for a contribution, for the inside of an optional
    /// and for the one request of an entry point.
    pub param: Option<&'a Name>,
    /// How the value is asked for, or in which mode a contribution is taken.
    pub mode: Mode,
    pub key: Key,
    /// The number of the component class in which the key is looked up.
    pub class: u32,
    pub found: Found,
}

impl<'a> Model for Dependency<'a> {
    ghost use Rattle.std.specs.Prelude.{option_map};
    ghost use Rattle.std.specs.Coded.{codes};
    ghost use Rattle.dg_decl.specs.Graph as graph;

    ghost Value = { graph.Dependency };

    ghost coded = { Prim.hlevel (codes) };

    ghost view = { λ d. record {
      param = option_map (λ n. n.now) d.param;
      mode = d.mode;
      key = d.key;
      class = d.class;
      found = d.found;
    } };
}

/// The node of a set or map.
fn multi(alloc: Global, class: u32, key: &Key) -> Result<Node, NoMemory>
    ensures exact { IfOk result (λ node. node ≡ graph.node_of class (kind.Multi key.now)) }
{
    Ok(Node {
        class,
        kind: NodeKind::Multi(key.copy(alloc)?),
    })
}

/// The node to which what a class finds for a key leads.
fn node_found(alloc: Global, class: u32, key: &Key, found: &Found) -> Result<Option<Node>, NoMemory>
    ensures exact { IfOk result (λ node. node ≡ graph.node_found class key.now found.now) }
{
    match found {
        Found::One { owner, binding } => Ok(Some(Node {
            class: *owner,
            kind: NodeKind::Bound(*binding),
        })),
        Found::SetOf(_) => Ok(Some(multi(alloc, class, key)?)),
        Found::MapOf(_) => Ok(Some(multi(alloc, class, key)?)),
        Found::OptionalOf => Ok(Some(Node {
            class,
            kind: NodeKind::Opt(key.copy(alloc)?),
        })),
        Found::Many(_) => Ok(None),
        Found::BadScope { item: _ } => Ok(None),
        Found::Nothing => Ok(None),
    }
}

impl<'a> Dependency<'a> {
    /// The node to which it leads; None where it finds nothing, many bindings, or a class whose
    /// scope no class of the chain carries.
    pub fn target(&self, alloc: Global) -> Result<Option<Node>, NoMemory>
        ensures exact { IfOk result (λ node. node ≡ graph.target self.now) }
    {
        node_found(alloc, self.class, &self.key, &self.found)
    }
}
