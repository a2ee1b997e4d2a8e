ghost use Rattle.std.specs.Prelude.{◌≡◌, ◌++◌, ◌<◌, ◌+◌, ◌^◌, [], IfOk, OnOk, length, map, flat_map, min};
ghost use Rattle.dg_decl.specs.Bounds.{IsBounded};
ghost use Rattle.dg_decl.specs.Components.{component_classes};
ghost use Rattle.dg_decl.specs.Graph as graph;
ghost use Rattle.dg_decl.specs.Sizes as spec_sizes;
ghost use Rattle.dg_decl.specs.Stages.Bindings.{bindings_stage};
ghost use Rattle.dg_decl.specs.Stages.Sizes as stage;

use crate::violation::push_node;
use dg_decl::{BindGraph, CompTree, Doc, Node, NodeKind, Rule, Violation};
use dg_sites::Sites;
use dg_types::NoMemory;
use dg_walks::{depths, weights};
use std::alloc::Global;

/// The most nodes on a walk of direct and called edges.
const DEPTH_LIMIT: u32 = 128;

/// The most that one evaluation may weigh.
const WEIGHT_LIMIT: u64 = 4096;

/// Whether a node is an entry point.
fn is_entry(node: &Node) -> bool
    ensures exact { result ≡ spec_sizes.is_entry node.now }
{
    match &node.kind {
        NodeKind::EntryOf(_) => true,
        NodeKind::Bound(_) => false,
        NodeKind::Multi(_) => false,
        NodeKind::Opt(_) => false,
    }
}

/// A walk of too many nodes begins at the node.
#[tactic(auto, unfolding(dg_decl::specs::Stages::Sizes::too_deep))]
fn too_deep(
    alloc: Global,
    sites: &Sites<'_>,
    node: &Node,
    depth: u32,
    broken: &mut Vec<Violation>,
) -> Result<(), NoMemory>
    requires depth { depth ≡ spec_sizes.depth sites.now node.now }
    ensures exact { OnOk result
        (broken.new.items ≡ broken.old.items ++ stage.too_deep sites.now node.now) }
{
    if is_entry(node) {
        return Ok(());
    }
    if depth > DEPTH_LIMIT {
        push_node(alloc, Rule::TooDeep, sites, node, broken)
    } else {
        Ok(())
    }
}

/// The evaluation of the node goes through too much.
#[tactic(auto, using(crate::proofs::SizeLemmas::past_limit), unfolding(dg_decl::specs::Stages::Sizes::too_heavy))]
fn too_heavy(
    alloc: Global,
    sites: &Sites<'_>,
    node: &Node,
    weight: u64,
    broken: &mut Vec<Violation>,
) -> Result<(), NoMemory>
    requires weight { weight ≡ min (spec_sizes.weight sites.now node.now) 4097 }
    ensures exact { OnOk result
        (broken.new.items ≡ broken.old.items ++ stage.too_heavy sites.now node.now) }
{
    if is_entry(node) {
        return Ok(());
    }
    if weight > WEIGHT_LIMIT {
        push_node(alloc, Rule::TooHeavy, sites, node, broken)
    } else {
        Ok(())
    }
}

/// What a node breaks, by rule.
fn sizes_at(
    alloc: Global,
    sites: &Sites<'_>,
    node: &Node,
    depth: u32,
    weight: u64,
    broken: &mut Vec<Violation>,
) -> Result<(), NoMemory>
    requires depth { depth ≡ spec_sizes.depth sites.now node.now }
    requires weight { weight ≡ min (spec_sizes.weight sites.now node.now) 4097 }
    ensures exact { OnOk result (broken.new.items ≡ broken.old.items
        ++ (stage.too_deep sites.now node.now ++ stage.too_heavy sites.now node.now)) }
{
    too_deep(alloc, sites, node, depth, broken)?;
    too_heavy(alloc, sites, node, weight, broken)
}

/// Appends what the nodes break, where their depths and weights are these.
fn sizes_among(
    alloc: Global,
    sites: &Sites<'_>,
    nodes: &[Node],
    depths: &[u32],
    weights: &[u64],
    broken: &mut Vec<Violation>,
) -> Result<(), NoMemory>
    requires depths { depths.now ≡ map (spec_sizes.depth sites.now) nodes.now }
    requires weights { weights.now ≡ map (λ n. min (spec_sizes.weight sites.now n) 4097) nodes.now }
    ensures exact { OnOk result (broken.new.items ≡ broken.old.items
        ++ flat_map (λ n. stage.too_deep sites.now n ++ stage.too_heavy sites.now n) nodes.now) }
{
    for (number, node) in nodes.iter().enumerate() {
        sizes_at(alloc, sites, node, depths[number], weights[number], broken)?;
    }
    Ok(())
}

/// What a document breaks in the stage of sizes, by node and then by rule.
pub fn sizes(
    alloc: Global,
    d: &Doc,
    t: &CompTree,
    g: &BindGraph,
) -> Result<Vec<Violation>, NoMemory>
    requires bounded { IsBounded d.now }
    requires classes { t.now.classes ≡ component_classes d.now }
    requires nodes { g.now.nodes ≡ graph.nodes d.now }
    requires edges { g.now.edges ≡ graph.edge_lists d.now }
    requires few { length g.now.nodes < 2 ^ 32 }
    requires bindings { bindings_stage d.now ≡ [] }
    ensures exact { IfOk result (λ broken. broken.items ≡ stage.sizes_stage d.now) }
{
    let sites = Sites::of(alloc, d, t)?;
    let depths = depths(alloc, d, g)?;
    let weights = weights(alloc, d, g, WEIGHT_LIMIT)?;
    let mut broken = Vec::new(alloc);
    sizes_among(
        alloc,
        &sites,
        g.nodes.as_slice(),
        depths.as_slice(),
        weights.as_slice(),
        &mut broken,
    )?;
    Ok(broken)
}
