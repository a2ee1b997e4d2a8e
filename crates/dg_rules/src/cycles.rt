//! Nodes that lie on closed walks.

ghost use Rattle.std.specs.Prelude.{◌≡◌, ◌++◌, OnOk};
ghost use Rattle.dg_decl.specs.Graph as graph;
ghost use Rattle.dg_decl.specs.Stages.Bindings as stage;

use crate::violation::push_node;
use dg_decl::{Node, Rule, Violation};
use dg_sites::Sites;
use dg_types::NoMemory;
use std::alloc::Global;

/// A closed walk of direct edges goes through the node.
#[tactic(auto, unfolding(dg_decl::specs::Stages::Bindings::dependency_cycle))]
pub(crate) fn dependency_cycle(
    alloc: Global,
    sites: &Sites<'_>,
    node: &Node,
    on_cycle: bool,
    broken: &mut Vec<Violation>,
) -> Result<(), NoMemory>
    requires on_cycle { on_cycle ≡ graph.is_on_cycle sites.now node.now }
    ensures exact { OnOk result (broken.new.items
        ≡ broken.old.items ++ stage.dependency_cycle sites.now node.now) }
{
    if on_cycle {
        push_node(alloc, Rule::DependencyCycle, sites, node, broken)
    } else {
        Ok(())
    }
}

/// A closed walk of direct and called edges, at least one of them called, goes through the node.
#[tactic(auto, unfolding(dg_decl::specs::Stages::Bindings::call_cycle))]
pub(crate) fn call_cycle(
    alloc: Global,
    sites: &Sites<'_>,
    node: &Node,
    on_call: bool,
    broken: &mut Vec<Violation>,
) -> Result<(), NoMemory>
    requires on_call { on_call ≡ graph.is_on_call sites.now node.now }
    ensures exact { OnOk result (broken.new.items
        ≡ broken.old.items ++ stage.call_cycle sites.now node.now) }
{
    if on_call {
        push_node(alloc, Rule::CallCycle, sites, node, broken)
    } else {
        Ok(())
    }
}
