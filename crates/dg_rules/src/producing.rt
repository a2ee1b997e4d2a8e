//! Requests that may not lead to productions, and do.

ghost use Rattle.std.specs.Prelude.{◌≡◌, ◌++◌, ◌∷◌, ◌&&◌, ◌||◌, [], map, flat_map, None, Some, OnOk};
ghost use Rattle.std.specs.List.{list_any};
ghost use Rattle.std.specs.Option.{option_copied};
ghost use Rattle.dg_types.specs.Texts.{key_text as text_of_key};
ghost use Rattle.dg_decl.specs.Graph as graph;
ghost use Rattle.dg_decl.specs.Sizes as sizes;
ghost use Rattle.dg_decl.specs.Stages.Bindings as stage;
ghost use Rattle.dg_decl.specs.declared.graph.NodeKind.TheVariants as kinds;
ghost use Rattle.dg_decl.specs.declared.violation.Rule.TheVariants as rule;
ghost use Rattle.dg_rules.specs.Requests as spec;

use crate::to_productions::test_at;
use crate::violation::{push_node, push_node_by, push_request};
use dg_decl::{BindRef, Item, Node, NodeKind, Rule, Violation};
use dg_deps::Dependency;
use dg_sites::Sites;
use dg_types::{Core, Inner, Key, Mode, NoMemory, key_text};
use std::alloc::Global;

/// The item that a binding is.
pub(crate) fn item_of_binding<'s>(sites: &'s Sites<'_>, binding: BindRef) -> Option<&'s Item>
    ensures exact { option_copied result ≡ sizes.item_of_node sites.now
        (graph.node_of 0 (kinds.Bound binding)) }
{
    match binding {
        BindRef::Member(index) => sites.item(index),
        BindRef::ClassItem(index) => sites.item(index),
        BindRef::Arg(_) => None,
        BindRef::Default => None,
        BindRef::Exposed { .. } => None,
    }
}

/// The item that binds a node, where it is a module member or an `@Inject` class.
fn item_of_node<'s>(sites: &'s Sites<'_>, kind: &NodeKind) -> Option<&'s Item>
    ensures exact { option_copied result ≡ sizes.item_of_node sites.now (graph.node_of 0 kind.now) }
{
    match kind {
        NodeKind::Bound(binding) => item_of_binding(sites, *binding),
        NodeKind::Multi(_) => None,
        NodeKind::Opt(_) => None,
        NodeKind::EntryOf(_) => None,
    }
}

/// Whether an item is evaluated without waiting.
fn is_provision_item(item: &Item) -> bool
    ensures exact { result ≡ stage.is_provision_item item.now }
{
    match item {
        Item::Provides { .. } => true,
        Item::Class { .. } => true,
        Item::Binds { scope, .. } => scope.is_some(),
        _ => false,
    }
}

/// Whether a node is evaluated without waiting.
fn is_provision(sites: &Sites<'_>, node: &Node) -> bool
    ensures exact { result ≡ stage.is_provision sites.now node.now }
{
    match item_of_node(sites, &node.kind) {
        Some(item) => is_provision_item(item),
        None => false,
    }
}

/// Whether a mode asks for a way to the value that can't wait for it.
fn is_provider_mode(mode: Mode) -> bool
    ensures exact { result ≡ stage.is_provider_mode mode }
{
    matches!(mode, Mode::Provider | Mode::Lazy | Mode::ProviderLazy)
}

/// Whether a key's set, map or optional is of Providers.
fn is_of_providers(core: &Core) -> bool
    ensures exact { result ≡ sizes.is_provider_form (graph.inner_of core.now) }
{
    match core {
        Core::One(_) => false,
        Core::Set(_, inner) => matches!(inner, Inner::Provider),
        Core::Map(_, _, inner) => matches!(inner, Inner::Provider),
        Core::Optional(_, inner) => matches!(inner, Inner::Provider),
    }
}

/// Whether one of these tests holds.
fn any_holds(tests: &[bool]) -> bool
    ensures exact { result ≡ list_any (λ b. b) tests.now }
{
    tests.iter().any(|holds| *holds)
}

/// Whether a request of a mode may not lead to a production.
fn may_not_wait(provision: bool, mode: Mode) -> bool
    ensures exact { result ≡ (provision || stage.is_provider_mode mode) }
{
    if provision {
        true
    } else {
        is_provider_mode(mode)
    }
}

/// Appends a rule where a request may not lead to a production, and does.
fn production_at(
    alloc: Global,
    sites: &Sites<'_>,
    node: &Node,
    provision: bool,
    d: &Dependency<'_>,
    told: bool,
    broken: &mut Vec<Violation>,
) -> Result<(), NoMemory>
    requires provision { provision ≡ stage.is_provision sites.now node.now }
    requires told { told ≡ stage.is_production_found sites.now d.now }
    ensures exact { OnOk result (broken.new.items
        ≡ broken.old.items ++ spec.production_at sites.now node.now d.now) }
{
    if !told {
        return Ok(());
    }
    if !may_not_wait(provision, d.mode) {
        return Ok(());
    }
    let detail = key_text(alloc, &d.key)?;
    push_request(
        alloc,
        Rule::DependsOnProduction,
        detail,
        sites,
        node,
        d,
        broken,
    )
}

/// Appends a rule for each request that may not lead to a production, and does.
#[tactic(auto, using(crate::proofs::ProductionLemmas::told_there))]
fn productions_among(
    alloc: Global,
    sites: &Sites<'_>,
    node: &Node,
    needed: &[Dependency<'_>],
    told: &[bool],
    broken: &mut Vec<Violation>,
) -> Result<(), NoMemory>
    requires told { told.now ≡ map (stage.is_production_found sites.now) needed.now }
    ensures exact { OnOk result (broken.new.items
        ≡ broken.old.items ++ flat_map (spec.production_at sites.now node.now) needed.now) }
{
    let provision = is_provision(sites, node);
    for (place, d) in needed.iter().enumerate() {
        let leads = test_at(told, place);
        production_at(alloc, sites, node, provision, d, leads, broken)?;
    }
    Ok(())
}

/// Appends a rule where the map of Providers at a node has productions among its contributions.
fn map_of_providers(
    alloc: Global,
    sites: &Sites<'_>,
    node: &Node,
    key: &Key,
    told: &[bool],
    broken: &mut Vec<Violation>,
) -> Result<(), NoMemory>
    ensures exact { OnOk result (broken.new.items ≡ broken.old.items ++ stage.where_true
        (sizes.is_provider_form (graph.inner_of key.now.core) && list_any (λ b. b) told.now)
        (stage.at_node rule.DependsOnProduction (Some (text_of_key key.now)) sites.now node.now)) }
{
    if !is_of_providers(&key.core) {
        return Ok(());
    }
    if !any_holds(told) {
        return Ok(());
    }
    let detail = key_text(alloc, key)?;
    push_node_by(
        alloc,
        Rule::DependsOnProduction,
        detail,
        sites,
        node,
        broken,
    )
}

/// A request of a provision finds a production, or a request for a Provider or a Lazy does. A map
/// of Providers with productions among its contributions breaks the rule once, as a whole.
#[tactic(auto, using(crate::proofs::ProductionLemmas::productions_are, crate::proofs::ProductionLemmas::any_target), unfolding(dg_decl::specs::Stages::Bindings::depends_on_production))]
pub(crate) fn depends_on_production(
    alloc: Global,
    sites: &Sites<'_>,
    node: &Node,
    needed: &[Dependency<'_>],
    told: &[bool],
    broken: &mut Vec<Violation>,
) -> Result<(), NoMemory>
    requires needed { needed.now ≡ graph.deps sites.now node.now }
    requires told { told.now
        ≡ map (stage.is_production_found sites.now) (graph.deps sites.now node.now) }
    ensures exact { OnOk result (broken.new.items
        ≡ broken.old.items ++ stage.depends_on_production sites.now node.now) }
{
    match &node.kind {
        NodeKind::Multi(key) => map_of_providers(alloc, sites, node, key, told, broken),
        NodeKind::Bound(_) => productions_among(alloc, sites, node, needed, told, broken),
        NodeKind::Opt(_) => productions_among(alloc, sites, node, needed, told, broken),
        NodeKind::EntryOf(_) => productions_among(alloc, sites, node, needed, told, broken),
    }
}

/// Appends a rule where the inside of the optional at a node is a production.
fn where_inside_waits(
    alloc: Global,
    sites: &Sites<'_>,
    node: &Node,
    told: &[bool],
    broken: &mut Vec<Violation>,
) -> Result<(), NoMemory>
    ensures exact { OnOk result (broken.new.items ≡ broken.old.items ++ stage.where_true
        (list_any (λ b. b) told.now)
        (stage.at_node rule.OptionalProduction None sites.now node.now)) }
{
    if any_holds(told) {
        push_node(alloc, Rule::OptionalProduction, sites, node, broken)
    } else {
        Ok(())
    }
}

/// The inside of an optional is a production.
#[tactic(auto, using(crate::proofs::ProductionLemmas::any_target), unfolding(dg_decl::specs::Stages::Bindings::optional_production))]
pub(crate) fn optional_production(
    alloc: Global,
    sites: &Sites<'_>,
    node: &Node,
    told: &[bool],
    broken: &mut Vec<Violation>,
) -> Result<(), NoMemory>
    requires told { told.now
        ≡ map (stage.is_production_found sites.now) (graph.deps sites.now node.now) }
    ensures exact { OnOk result (broken.new.items
        ≡ broken.old.items ++ stage.optional_production sites.now node.now) }
{
    match &node.kind {
        NodeKind::Opt(_) => where_inside_waits(alloc, sites, node, told, broken),
        NodeKind::Bound(_) => Ok(()),
        NodeKind::Multi(_) => Ok(()),
        NodeKind::EntryOf(_) => Ok(()),
    }
}
