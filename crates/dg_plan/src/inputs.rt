//! What slots take from other slots.

ghost use Rattle.std.specs.Prelude.{◌≡◌, ◌++◌, IfOk, OnOk, filter_map, option_to_list};
ghost use Rattle.dg_decl.specs.Graph as graph;
ghost use Rattle.dg_slots.specs.Plans as spec;

use crate::levels::level_of;
use crate::numbers::Numbers;
use dg_decl::{BindRef, Node, NodeKind};
use dg_deps::{Dependencies, Dependency};
use dg_slots::Input;
use dg_types::NoMemory;
use sqlite_items::Items;
use std::alloc::Global;

/// The dependency of its class through which a node asks: that of an exposed entry.
fn through(kind: &NodeKind) -> Option<u32>
    ensures exact { result ≡ spec.through kind.now }
{
    match kind {
        NodeKind::Bound(BindRef::Exposed { dep, .. }) => Some(*dep),
        _ => None,
    }
}

/// What a slot takes for a dependency of its node.
pub fn input_of(
    alloc: Global,
    dependencies: &Dependencies<'_>,
    numbers: &Numbers,
    node: &Node,
    d: &Dependency<'_>,
) -> Result<Option<Input>, NoMemory>
    requires numbers { numbers.now ≡ graph.nodes dependencies.now }
    ensures exact { IfOk result (λ input. input ≡ spec.input_of dependencies.now node.now d.now) }
{
    let Some(found) = d.target(alloc)? else {
        return Ok(None);
    };
    let Some(slot) = numbers.number_of(&found) else {
        return Ok(None);
    };
    Ok(Some(Input {
        mode: d.mode,
        slot,
        level: level_of(dependencies, d.class, found.class)?,
        dep: through(&node.kind),
    }))
}

/// Adds an input, if there is one.
fn add(input: Option<Input>, inputs: &mut Vec<Input>) -> Result<(), NoMemory>
    ensures exact { OnOk result (inputs.new.items ≡ inputs.old.items ++ option_to_list input) }
{
    match input {
        Some(input) => Ok(inputs.push(input)?),
        None => Ok(()),
    }
}

/// What a slot takes for these dependencies of its node, in order.
pub fn inputs_of(
    alloc: Global,
    dependencies: &Dependencies<'_>,
    numbers: &Numbers,
    node: &Node,
    needed: &[Dependency<'_>],
) -> Result<Items<Input>, NoMemory>
    requires numbers { numbers.now ≡ graph.nodes dependencies.now }
    ensures exact { IfOk result (λ inputs.
        inputs ≡ filter_map (spec.input_of dependencies.now node.now) needed.now) }
{
    let mut inputs = Vec::new(alloc);
    for d in needed {
        add(
            input_of(alloc, dependencies, numbers, node, d)?,
            &mut inputs,
        )?;
    }
    Ok(Items::from_vec(inputs))
}
