//! What the values of slots are made of.

ghost use Rattle.std.specs.Prelude.{◌≡◌, ◌<◌, ◌++◌, IfOk, OnOk, map, option_to_list, unwrap_or};
ghost use Rattle.std.specs.List.{filter_map, range_with_len};
ghost use Rattle.std.specs.Option.{option_copied};
ghost use Rattle.dg_decl.specs.Components.{class_count};
ghost use Rattle.dg_decl.specs.Graph as graph;
ghost use Rattle.dg_decl.specs.Stages.Bindings as stage;
ghost use Rattle.dg_decl.specs.Sizes as sizes;
ghost use Rattle.dg_decl.specs.declared.binding.BindRef.TheVariants as binding;
ghost use Rattle.dg_decl.specs.declared.graph.NodeKind.TheVariants as kinds;
ghost use Rattle.dg_slots.specs.Numbered.{number_of_class_item};
ghost use Rattle.dg_slots.specs.Plans as spec;
ghost use Rattle.dg_slots.specs.declared.body.NExpr.TheVariants as nexpr;

use crate::classes::Numbering;
use crate::levels::number;
use dg_decl::{BindRef, Doc, Item, Mark, Node, NodeKind, Owned};
use dg_deps::{Dependencies, Dependency};
use dg_session::{numbered_expr, numbered_tree};
use dg_slots::{Body, NExpr, NTree};
use dg_types::{Core, Key, MapKeyVal, NoMemory};
use sqlite_items::Items;
use std::alloc::Global;

/// A body that gives the one parameter.
fn one_param() -> Body
    ensures exact { result ≡ spec.one_param }
{
    Body::Run(NTree::Leaf(NExpr::Param(0)))
}

/// The first parameters, as expressions.
fn first_params(alloc: Global, count: u32) -> Result<Items<NExpr>, NoMemory>
    ensures exact { IfOk result (λ args. args ≡ map nexpr.Param (range_with_len 0 count)) }
{
    let mut args = Items::new(alloc);
    for k in 0..count {
        args.push(NExpr::Param(k))?;
    }
    Ok(args)
}

/// The number of the class that the item of this index declares, and 0 where it declares none.
fn class_of_item(numbering: &Numbering<'_, '_>, index: u32) -> u32
    ensures exact { result ≡ unwrap_or (number_of_class_item numbering.now index) 0 }
{
    match numbering.of_class_item(index) {
        Some(class) => class,
        None => 0,
    }
}

/// An object of the class that the item of this index declares, from so many parameters.
fn construction(
    alloc: Global,
    numbering: &Numbering<'_, '_>,
    index: u32,
    count: usize,
) -> Result<Body, NoMemory>
    ensures exact { IfOk result (λ body. body ≡ spec.construction numbering.now index count) }
{
    let args = first_params(alloc, number(count)?)?;
    let class = class_of_item(numbering, index);
    Ok(Body::Run(NTree::Leaf(NExpr::New { class, args })))
}

/// The body of the item of this index.
fn body_of_item<'a>(
    alloc: Global,
    numbering: &Numbering<'_, 'a>,
    index: u32,
    item: &'a Item,
) -> Result<Body, NoMemory>
    ensures exact { IfOk result (λ body. body ≡ spec.body_of_item numbering.now index item.now) }
{
    match item {
        Item::Provides { params, body, .. } => Ok(Body::Run(NTree::Leaf(numbered_expr(
            alloc,
            numbering.numbers(),
            params.as_slice(),
            body,
        )?))),
        Item::Produces { params, body, .. } => Ok(Body::Run(numbered_tree(
            alloc,
            numbering.numbers(),
            params.as_slice(),
            body,
        )?)),
        Item::Class { params, .. } => construction(alloc, numbering, index, params.len()),
        _ => Ok(one_param()),
    }
}

/// The body of the item of this index, where there is one.
fn body_at<'a>(
    alloc: Global,
    doc: &'a Doc,
    numbering: &Numbering<'_, 'a>,
    index: u32,
) -> Result<Body, NoMemory>
    requires doc { doc.now ≡ numbering.now }
    ensures exact { IfOk result (λ body. body
        ≡ spec.body_of_binding numbering.now (binding.Member index)) }
{
    match doc.items.get(index as usize) {
        Some(item) => body_of_item(alloc, numbering, index, item),
        None => Ok(one_param()),
    }
}

/// The body of a binding.
fn body_of_binding<'a>(
    alloc: Global,
    doc: &'a Doc,
    numbering: &Numbering<'_, 'a>,
    bound: BindRef,
) -> Result<Body, NoMemory>
    requires doc { doc.now ≡ numbering.now }
    ensures exact { IfOk result (λ body. body ≡ spec.body_of_binding numbering.now bound) }
{
    match bound {
        BindRef::Member(index) => body_at(alloc, doc, numbering, index),
        BindRef::ClassItem(index) => body_at(alloc, doc, numbering, index),
        BindRef::Arg(arg) => Ok(Body::Arg(arg)),
        BindRef::Default => Ok(Body::Arg(0)),
        BindRef::Exposed { .. } => Ok(one_param()),
    }
}

/// Whether the members of what an item gives are elements of the set to which it contributes.
fn item_gives_elements(item: &Item) -> bool
    ensures exact { result ≡ spec.is_elements_mark (spec.mark_of item.now) }
{
    match item {
        Item::Provides { mark, .. } => matches!(mark, Some(Mark::ElementsIntoSet)),
        Item::Binds { mark, .. } => matches!(mark, Some(Mark::ElementsIntoSet)),
        Item::Produces { mark, .. } => matches!(mark, Some(Mark::ElementsIntoSet)),
        _ => false,
    }
}

/// Whether the members of what a contribution gives are elements of the set, and not what it gives
/// itself.
fn gives_elements(doc: &Doc, owned: Owned) -> bool
    ensures exact { result ≡ spec.gives_elements doc.now owned }
{
    let BindRef::Member(index) = owned.binding else {
        return false;
    };
    match doc.items.get(index as usize) {
        Some(item) => item_gives_elements(item),
        None => false,
    }
}

/// Which of these contributions give elements.
fn elements(alloc: Global, doc: &Doc, owned: &[Owned]) -> Result<Items<bool>, NoMemory>
    ensures exact { IfOk result (λ flags. flags ≡ map (spec.gives_elements doc.now) owned.now) }
{
    let mut flags = Vec::new(alloc);
    for o in owned {
        flags.push(gives_elements(doc, *o))?;
    }
    Ok(Items::from_vec(flags))
}

/// The map key of a mark.
fn map_key_of_mark(mark: &Option<Mark>) -> Option<&MapKeyVal>
    ensures exact { option_copied result ≡ stage.map_key_of_mark mark.now }
{
    match mark {
        Some(Mark::IntoMap(key)) => Some(key),
        _ => None,
    }
}

/// The map key of a module member.
fn map_key_of_item(item: &Item) -> Option<&MapKeyVal>
    ensures exact { option_copied result ≡ stage.map_key_of_item item.now }
{
    match item {
        Item::Provides { mark, .. } => map_key_of_mark(mark),
        Item::Binds { mark, .. } => map_key_of_mark(mark),
        Item::Produces { mark, .. } => map_key_of_mark(mark),
        _ => None,
    }
}

/// The item of a binding, where it is one.
fn item_of_binding(doc: &Doc, bound: BindRef) -> Option<&Item>
    ensures exact { option_copied result
        ≡ sizes.item_of_node doc.now (graph.node_of 0 (kinds.Bound bound)) }
{
    match bound {
        BindRef::Member(index) => doc.items.get(index as usize),
        BindRef::ClassItem(index) => doc.items.get(index as usize),
        BindRef::Arg(_) => None,
        BindRef::Default => None,
        BindRef::Exposed { .. } => None,
    }
}

/// The map key of a contribution.
fn map_key_of(doc: &Doc, owned: Owned) -> Option<&MapKeyVal>
    ensures exact { option_copied result ≡ stage.map_key_of doc.now owned }
{
    match item_of_binding(doc, owned.binding) {
        Some(item) => map_key_of_item(item),
        None => None,
    }
}

/// A copy of the map key of a contribution.
fn key_of(alloc: Global, doc: &Doc, owned: &Owned) -> Result<Option<MapKeyVal>, NoMemory>
    ensures exact { IfOk result (λ key. key ≡ stage.map_key_of doc.now owned.now) }
{
    match map_key_of(doc, *owned) {
        Some(key) => Ok(Some(key.copy(alloc)?)),
        None => Ok(None),
    }
}

/// Adds a map key, if there is one.
fn add(key: Option<MapKeyVal>, keys: &mut Vec<MapKeyVal>) -> Result<(), NoMemory>
    ensures exact { OnOk result (keys.new.items ≡ keys.old.items ++ option_to_list key) }
{
    match key {
        Some(key) => Ok(keys.push(key)?),
        None => Ok(()),
    }
}

/// The map keys of these contributions, in order.
fn map_keys_of(alloc: Global, doc: &Doc, owned: &[Owned]) -> Result<Items<MapKeyVal>, NoMemory>
    ensures exact { IfOk result (λ keys. keys ≡ filter_map (stage.map_key_of doc.now) owned.now) }
{
    let mut keys = Vec::new(alloc);
    for o in owned {
        add(key_of(alloc, doc, o)?, &mut keys)?;
    }
    Ok(Items::from_vec(keys))
}

/// The body of a set or map of a class.
fn body_of_multi(
    alloc: Global,
    dependencies: &Dependencies<'_>,
    class: u32,
    key: &Key,
) -> Result<Body, NoMemory>
    requires class { class < class_count dependencies.now }
    ensures exact { IfOk result (λ body.
        body ≡ spec.body_of_multi dependencies.now class key.now key.now.core) }
{
    let doc = dependencies.doc();
    let owned = dependencies.lookups().contributions(alloc, class, key)?;
    match &key.core {
        Core::Map(_, _, _) => Ok(Body::Map(map_keys_of(alloc, doc, owned.as_slice())?)),
        _ => Ok(Body::Set(elements(alloc, doc, owned.as_slice())?)),
    }
}

/// The body of a node with these dependencies.
pub fn body_of_node<'a>(
    alloc: Global,
    dependencies: &Dependencies<'a>,
    numbering: &Numbering<'_, 'a>,
    node: &Node,
    needed: &[Dependency<'_>],
) -> Result<Body, NoMemory>
    requires class { node.now.class < class_count dependencies.now }
    requires numbering { numbering.now ≡ dependencies.now }
    requires needed { needed.now ≡ graph.deps dependencies.now node.now }
    ensures exact { IfOk result (λ body. body ≡ spec.body_of_node dependencies.now node.now) }
{
    match &node.kind {
        NodeKind::Bound(bound) => body_of_binding(alloc, dependencies.doc(), numbering, *bound),
        NodeKind::Multi(key) => body_of_multi(alloc, dependencies, node.class, key),
        NodeKind::Opt(_) => Ok(Body::Opt(!needed.is_empty())),
        NodeKind::EntryOf(_) => Ok(Body::EntryOf),
    }
}
