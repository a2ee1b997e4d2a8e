ghost use Rattle.std.specs.Prelude.{◌≡◌, ◌++◌, ◌<◌, ◌^◌, [], IfOk, OnOk, Contains, length, map, flat_map, slice_get};
ghost use Rattle.std.specs.Option.{option_map_or};
ghost use Rattle.dg_decl.specs.Bounds.{IsBounded};
ghost use Rattle.dg_decl.specs.Components.{component_classes, exposed_by_class};
ghost use Rattle.dg_decl.specs.Diagnostics.{PassesDependencies};
ghost use Rattle.dg_decl.specs.Graph as graph;
ghost use Rattle.dg_decl.specs.Lookup as lookup;
ghost use Rattle.dg_decl.specs.Sizes as sizes;
ghost use Rattle.dg_decl.specs.Stages.Bindings as stage;

use crate::cycles::{call_cycle, dependency_cycle};
use crate::map_keys::map_keys;
use crate::member_scope::incompatibly_scoped_member;
use crate::producing::{depends_on_production, optional_production};
use crate::requests::{duplicate_bindings, incompatibly_scoped_bindings, missing_binding};
use crate::to_productions::{test_at, to_productions};
use dg_decl::{Bind, BindGraph, CompTree, Doc, Edge, Exposed, Node, Violation};
use dg_deps::{Dependencies, Dependency};
use dg_sites::Sites;
use dg_types::NoMemory;
use dg_walks::{on_call, on_cycle, productions};
use sqlite_items::Items;
use std::alloc::Global;

/// What a node breaks, by rule.
fn bindings_at(
    alloc: Global,
    sites: &Sites<'_>,
    node: &Node,
    needed: &[Dependency<'_>],
    to_productions: &[bool],
    on_cycle: bool,
    on_call: bool,
    broken: &mut Vec<Violation>,
) -> Result<(), NoMemory>
    requires needed { needed.now ≡ graph.deps sites.now node.now }
    requires told { to_productions.now
        ≡ map (stage.is_production_found sites.now) (graph.deps sites.now node.now) }
    requires on_cycle { on_cycle ≡ graph.is_on_cycle sites.now node.now }
    requires on_call { on_call ≡ graph.is_on_call sites.now node.now }
    ensures exact { OnOk result (broken.new.items
        ≡ broken.old.items ++ stage.bindings_at sites.now node.now) }
{
    missing_binding(alloc, sites, node, needed, broken)?;
    duplicate_bindings(alloc, sites, node, needed, broken)?;
    incompatibly_scoped_bindings(alloc, sites, node, needed, broken)?;
    incompatibly_scoped_member(alloc, sites, node, broken)?;
    map_keys(alloc, sites, node, needed, broken)?;
    depends_on_production(alloc, sites, node, needed, to_productions, broken)?;
    optional_production(alloc, sites, node, to_productions, broken)?;
    dependency_cycle(alloc, sites, node, on_cycle, broken)?;
    call_cycle(alloc, sites, node, on_call, broken)
}

/// The edges of the node of this number.
fn edges_at(edges: &[Items<Edge>], number: usize) -> &[Edge]
    ensures exact { result.now ≡ option_map_or (λ es. es) (slice_get edges.now number) [] }
{
    match edges.get(number) {
        Some(edges) => edges.as_slice(),
        None => &[],
    }
}

/// What is told of the nodes of a graph, by their numbers.
#[derive(Drop)]
struct Told {
    productions: Vec<bool>,
    on_cycle: Vec<bool>,
    on_call: Vec<bool>,
}

/// What is told of the nodes of a graph, by their numbers.
fn told_of(alloc: Global, d: &Doc, g: &BindGraph) -> Result<Told, NoMemory>
    requires nodes { g.now.nodes ≡ graph.nodes d.now }
    requires edges { g.now.edges ≡ graph.edge_lists d.now }
    requires few { length g.now.nodes < 2 ^ 32 }
    ensures productions { IfOk result (λ told.
        told.productions.items ≡ map (sizes.is_production d.now) (graph.nodes d.now)) }
    ensures on_cycle { IfOk result (λ told.
        told.on_cycle.items ≡ map (graph.is_on_cycle d.now) (graph.nodes d.now)) }
    ensures on_call { IfOk result (λ told.
        told.on_call.items ≡ map (graph.is_on_call d.now) (graph.nodes d.now)) }
{
    Ok(Told {
        productions: productions(alloc, d, g)?,
        on_cycle: on_cycle(alloc, d, g)?,
        on_call: on_call(alloc, d, g)?,
    })
}

/// Appends what the node of this number breaks, where this is told of all nodes.
fn bindings_of(
    alloc: Global,
    dependencies: &Dependencies<'_>,
    sites: &Sites<'_>,
    node: &Node,
    edges: &[Edge],
    productions: &[bool],
    on_cycle: bool,
    on_call: bool,
    broken: &mut Vec<Violation>,
) -> Result<(), NoMemory>
    requires sites { sites.now ≡ dependencies.now }
    requires among { Contains (graph.nodes sites.now) node.now }
    requires edges { edges.now ≡ graph.numbered_edges sites.now node.now }
    requires productions { productions.now
        ≡ map (sizes.is_production sites.now) (graph.nodes sites.now) }
    requires on_cycle { on_cycle ≡ graph.is_on_cycle sites.now node.now }
    requires on_call { on_call ≡ graph.is_on_call sites.now node.now }
    ensures exact { OnOk result (broken.new.items
        ≡ broken.old.items ++ stage.bindings_at sites.now node.now) }
{
    let needed = dependencies.of_node(alloc, node)?;
    let needed = needed.as_slice();
    let told = to_productions(alloc, needed, edges, productions)?;
    let told = told.as_slice();
    bindings_at(alloc, sites, node, needed, told, on_cycle, on_call, broken)
}

/// Appends what the nodes of a graph break, where this is told of them.
fn bindings_among(
    alloc: Global,
    dependencies: &Dependencies<'_>,
    sites: &Sites<'_>,
    nodes: &[Node],
    edges: &[Items<Edge>],
    told: &Told,
    broken: &mut Vec<Violation>,
) -> Result<(), NoMemory>
    requires sites { sites.now ≡ dependencies.now }
    requires nodes { nodes.now ≡ graph.nodes sites.now }
    requires edges { edges.now ≡ graph.edge_lists sites.now }
    requires productions { told.now.productions.items
        ≡ map (sizes.is_production sites.now) (graph.nodes sites.now) }
    requires on_cycle { told.now.on_cycle.items
        ≡ map (graph.is_on_cycle sites.now) (graph.nodes sites.now) }
    requires on_call { told.now.on_call.items
        ≡ map (graph.is_on_call sites.now) (graph.nodes sites.now) }
    ensures exact { OnOk result (broken.new.items
        ≡ broken.old.items ++ flat_map (stage.bindings_at sites.now) (graph.nodes sites.now)) }
{
    for (number, node) in nodes.iter().enumerate() {
        bindings_of(
            alloc,
            dependencies,
            sites,
            node,
            edges_at(edges, number),
            told.productions.as_slice(),
            test_at(told.on_cycle.as_slice(), number),
            test_at(told.on_call.as_slice(), number),
            broken,
        )?;
    }
    Ok(())
}

/// What a document breaks in the stage of bindings, by node and then by rule, where it is known
/// what its nodes need.
#[tactic(auto, unfolding(dg_decl::specs::Stages::Bindings::bindings_stage))]
pub fn violations_of(
    alloc: Global,
    dependencies: &Dependencies<'_>,
    g: &BindGraph,
) -> Result<Vec<Violation>, NoMemory>
    requires nodes { g.now.nodes ≡ graph.nodes dependencies.now }
    requires edges { g.now.edges ≡ graph.edge_lists dependencies.now }
    requires few { length g.now.nodes < 2 ^ 32 }
    ensures exact { IfOk result (λ broken. broken.items ≡ stage.bindings_stage dependencies.now) }
{
    let d = dependencies.doc();
    let sites = Sites::of(alloc, d, dependencies.tree())?;
    let told = told_of(alloc, d, g)?;
    let mut broken = Vec::new(alloc);
    bindings_among(
        alloc,
        dependencies,
        &sites,
        g.nodes.as_slice(),
        g.edges.as_slice(),
        &told,
        &mut broken,
    )?;
    Ok(broken)
}

/// What a document breaks in the stage of bindings, by node and then by rule.
pub fn violations(
    alloc: Global,
    d: &Doc,
    t: &CompTree,
    b: &[Bind],
    g: &BindGraph,
    x: &[Items<Exposed>],
) -> Result<Vec<Violation>, NoMemory>
    requires bounded { IsBounded d.now }
    requires passes { PassesDependencies d.now }
    requires classes { t.now.classes ≡ component_classes d.now }
    requires bindings { b.now ≡ lookup.bindings d.now }
    requires exposed { x.now ≡ exposed_by_class d.now }
    requires nodes { g.now.nodes ≡ graph.nodes d.now }
    requires edges { g.now.edges ≡ graph.edge_lists d.now }
    requires few { length g.now.nodes < 2 ^ 32 }
    ensures exact { IfOk result (λ broken. broken.items ≡ stage.bindings_stage d.now) }
{
    violations_of(alloc, &Dependencies::of(alloc, d, t, b, x)?, g)
}
