//! Map keys that stand more than once among the contributions to a map.

ghost use Rattle.std.specs.Prelude.{◌≡◌, ◌++◌, [], IfOk, OnOk, flat_map, fold};
ghost use Rattle.std.specs.Option.{option_copied};
ghost use Rattle.dg_decl.specs.Graph as graph;
ghost use Rattle.dg_decl.specs.Stages.Bindings as stage;
ghost use Rattle.dg_rules.specs.MapKeys as spec;

use crate::producing::item_of_binding;
use crate::violation::push_node_by;
use dg_decl::{Found, Item, Mark, Node, NodeKind, Rule, Violation};
use dg_deps::Dependency;
use dg_sites::Sites;
use dg_types::{Core, MapKeyVal, NoMemory, push_map_key_text};
use indexmap::IndexSet;
use std::alloc::Global;

/// The map key of a mark.
fn map_key_of_mark(mark: &Option<Mark>) -> Option<&MapKeyVal>
    ensures exact { option_copied result ≡ stage.map_key_of_mark mark.now }
{
    match mark {
        Some(Mark::IntoMap(key)) => Some(key),
        _ => None,
    }
}

/// The map key of a module member.
fn map_key_of_item(item: &Item) -> Option<&MapKeyVal>
    ensures exact { option_copied result ≡ stage.map_key_of_item item.now }
{
    match item {
        Item::Provides { mark, .. } => map_key_of_mark(mark),
        Item::Binds { mark, .. } => map_key_of_mark(mark),
        Item::Produces { mark, .. } => map_key_of_mark(mark),
        _ => None,
    }
}

/// The map key of the one binding that is found.
fn key_of_found<'s>(sites: &'s Sites<'_>, found: &Found) -> Option<&'s MapKeyVal>
    ensures exact { option_copied result ≡ spec.key_of_found sites.now found.now }
{
    match found {
        Found::One { binding, .. } => match item_of_binding(sites, *binding) {
            Some(item) => map_key_of_item(item),
            None => None,
        },
        _ => None,
    }
}

/// The map keys so far, each once, and those of them that came again.
#[derive(Drop)]
struct Seen {
    once: IndexSet<MapKeyVal>,
    again: IndexSet<MapKeyVal>,
}

/// Notes a map key.
#[tactic(auto, unfolding(dg_types::specs::Equality::same_map_key))]
fn note_key(alloc: Global, seen: &mut Seen, key: &MapKeyVal) -> Result<(), NoMemory>
    ensures once { OnOk result (seen.new.once.keys
        ≡ (spec.seen_with (spec.seen_of seen.old.once.keys seen.old.again.keys) key.now).once) }
    ensures again { OnOk result (seen.new.again.keys
        ≡ (spec.seen_with (spec.seen_of seen.old.once.keys seen.old.again.keys) key.now).again) }
{
    if seen.once.contains(key) {
        seen.again.insert(key.copy(alloc)?)?;
    } else {
        seen.once.insert(key.copy(alloc)?)?;
    }
    Ok(())
}

/// Notes a map key, where there is one.
fn note_some(alloc: Global, seen: &mut Seen, key: Option<&MapKeyVal>) -> Result<(), NoMemory>
    ensures exact { OnOk result (spec.seen_of seen.new.once.keys seen.new.again.keys
        ≡ spec.seen_some (spec.seen_of seen.old.once.keys seen.old.again.keys)
        (option_copied key.entry)) }
{
    match key {
        Some(key) => note_key(alloc, seen, key),
        None => Ok(()),
    }
}

/// The map keys of contributions.
fn seen_keys(alloc: Global, sites: &Sites<'_>, needed: &[Dependency<'_>]) -> Result<Seen, NoMemory>
    ensures exact { IfOk result (λ seen. spec.seen_of seen.once.keys seen.again.keys
        ≡ fold (λ s d. spec.seen_some s (spec.key_of_found sites.now d.found))
        (spec.seen_of [] []) needed.now) }
{
    let mut seen = Seen {
        once: IndexSet::new(alloc),
        again: IndexSet::new(alloc),
    };
    for d in needed {
        note_some(alloc, &mut seen, key_of_found(sites, &d.found))?;
    }
    Ok(seen)
}

/// Appends a rule where a map key came again.
#[tactic(auto, unfolding(dg_types::specs::Equality::same_map_key))]
fn where_again(
    alloc: Global,
    sites: &Sites<'_>,
    node: &Node,
    again: &IndexSet<MapKeyVal>,
    key: &MapKeyVal,
    broken: &mut Vec<Violation>,
) -> Result<(), NoMemory>
    ensures exact { OnOk result (broken.new.items
        ≡ broken.old.items ++ spec.where_again sites.now node.now again.now.keys key.now) }
{
    if !again.contains(key) {
        return Ok(());
    }
    let mut detail = Vec::new(alloc);
    push_map_key_text(&mut detail, key)?;
    push_node_by(alloc, Rule::MapKeys, detail, sites, node, broken)
}

/// Appends a rule for each map key that came again.
fn each_again(
    alloc: Global,
    sites: &Sites<'_>,
    node: &Node,
    once: &[MapKeyVal],
    again: &IndexSet<MapKeyVal>,
    broken: &mut Vec<Violation>,
) -> Result<(), NoMemory>
    ensures exact { OnOk result (broken.new.items ≡ broken.old.items
        ++ flat_map (spec.where_again sites.now node.now again.now.keys) once.now) }
{
    for key in once {
        where_again(alloc, sites, node, again, key, broken)?;
    }
    Ok(())
}

/// Appends a rule for each map key that stands more than once among the contributions to a map.
#[tactic(auto, using(crate::proofs::MapKeyLemmas::repeated_are))]
fn repeated_keys(
    alloc: Global,
    sites: &Sites<'_>,
    node: &Node,
    needed: &[Dependency<'_>],
    broken: &mut Vec<Violation>,
) -> Result<(), NoMemory>
    ensures exact { OnOk result (broken.new.items ≡ broken.old.items
        ++ spec.broken_keys sites.now node.now (spec.keys_found sites.now needed.now)) }
{
    let seen = seen_keys(alloc, sites, needed)?;
    each_again(
        alloc,
        sites,
        node,
        seen.once.as_slice(),
        &seen.again,
        broken,
    )
}

/// Two contributions to a map have one key.
#[tactic(auto, using(crate::proofs::MapKeyLemmas::keys_of_map), unfolding(dg_decl::specs::Stages::Bindings::map_keys))]
pub(crate) fn map_keys(
    alloc: Global,
    sites: &Sites<'_>,
    node: &Node,
    needed: &[Dependency<'_>],
    broken: &mut Vec<Violation>,
) -> Result<(), NoMemory>
    requires needed { needed.now ≡ graph.deps sites.now node.now }
    ensures exact { OnOk result (broken.new.items
        ≡ broken.old.items ++ stage.map_keys sites.now node.now) }
{
    match &node.kind {
        NodeKind::Multi(key) => match &key.core {
            Core::Map(_, _, _) => repeated_keys(alloc, sites, node, needed, broken),
            _ => Ok(()),
        },
        _ => Ok(()),
    }
}
