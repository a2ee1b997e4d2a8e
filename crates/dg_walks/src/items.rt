//! What the item of a node says.

ghost use Rattle.std.specs.Prelude.{◌≡◌, ◌≤◌, ◌^◌, ◌||◌, false, is_some, min, not};
ghost use Rattle.std.specs.Option.{option_map_or, option_copied};
ghost use Rattle.dg_decl.specs.Graph.{inner_of};
ghost use Rattle.dg_decl.specs.Names.{item_at};
ghost use Rattle.dg_decl.specs.Sizes as sizes;
ghost use Rattle.dg_walks.specs.Passed as spec;

use crate::bodies::{plus, size_of_expr, size_of_tree};
use dg_decl::{BindRef, Doc, Item, Node, NodeKind};
use dg_types::{Core, Inner};

/// The item of this index.
fn item_at(d: &Doc, index: u32) -> Option<&Item>
    ensures exact { option_copied result ≡ item_at d.now index }
{
    d.items.get(index as usize)
}

/// The item that binds a node, where it is a module member or an `@Inject` class.
pub(crate) fn item_of_node<'a>(d: &'a Doc, node: &Node) -> Option<&'a Item>
    ensures exact { option_copied result ≡ sizes.item_of_node d.now node.now }
{
    match &node.kind {
        NodeKind::Bound(BindRef::Member(index)) => item_at(d, *index),
        NodeKind::Bound(BindRef::ClassItem(index)) => item_at(d, *index),
        NodeKind::Bound(BindRef::Arg(_)) => None,
        NodeKind::Bound(BindRef::Default) => None,
        NodeKind::Bound(BindRef::Exposed { .. }) => None,
        NodeKind::Multi(_) => None,
        NodeKind::Opt(_) => None,
        NodeKind::EntryOf(_) => None,
    }
}

/// Whether the item is a `produces` line.
fn is_produces_item(item: &Item) -> bool
    ensures exact { result ≡ sizes.is_produces_item item.now }
{
    matches!(item, Item::Produces { .. })
}

/// Whether the node is a `produces` line.
pub(crate) fn is_producer(d: &Doc, node: &Node) -> bool
    ensures exact { result ≡ sizes.is_producer d.now node.now }
{
    match item_of_node(d, node) {
        Some(item) => is_produces_item(item),
        None => false,
    }
}

/// Whether the item is a `binds` line without a scope.
fn is_unscoped_binds(item: &Item) -> bool
    ensures exact { result ≡ sizes.is_unscoped_binds item.now }
{
    match item {
        Item::Binds { scope, .. } => scope.is_none(),
        _ => false,
    }
}

/// Whether the node is a `binds` line without a scope.
fn binds_unscoped(d: &Doc, node: &Node) -> bool
    ensures exact { result
        ≡ option_map_or sizes.is_unscoped_binds (sizes.item_of_node d.now node.now) false }
{
    match item_of_node(d, node) {
        Some(item) => is_unscoped_binds(item),
        None => false,
    }
}

/// Whether the binding is an exposed entry.
fn is_exposed(binding: BindRef) -> bool
    ensures exact { result ≡ spec.is_exposed binding }
{
    matches!(binding, BindRef::Exposed { .. })
}

/// Whether the key gives Providers.
fn gives_providers(core: &Core) -> bool
    ensures exact { result ≡ sizes.is_provider_form (inner_of core.now) }
{
    match core {
        Core::One(_) => false,
        Core::Set(_, inner) => is_provider(*inner),
        Core::Map(_, _, inner) => is_provider(*inner),
        Core::Optional(_, inner) => is_provider(*inner),
    }
}

/// Whether what is inside is a Provider.
fn is_provider(inner: Inner) -> bool
    ensures exact { result ≡ sizes.is_provider_form inner }
{
    matches!(inner, Inner::Provider)
}

/// Whether a node with this binding passes on what its target is.
fn binding_passes(d: &Doc, node: &Node, binding: BindRef) -> bool
    ensures exact { result ≡ (spec.is_exposed binding
        || option_map_or sizes.is_unscoped_binds (sizes.item_of_node d.now node.now) false) }
{
    is_exposed(binding) || binds_unscoped(d, node)
}

/// Whether the node is a production where one of its targets is.
pub(crate) fn passes_on(d: &Doc, node: &Node) -> bool
    ensures exact { result ≡ spec.passes_on d.now node.now }
{
    match &node.kind {
        NodeKind::Bound(binding) => binding_passes(d, node, *binding),
        NodeKind::Multi(key) => !gives_providers(&key.core),
        NodeKind::Opt(_) => false,
        NodeKind::EntryOf(_) => false,
    }
}

/// Whether the item has a scope.
fn has_scope(item: &Item) -> bool
    ensures exact { result ≡ is_some (sizes.scope_of_item item.now) }
{
    match item {
        Item::Class { scope, .. } => scope.is_some(),
        Item::Provides { scope, .. } => scope.is_some(),
        Item::Binds { scope, .. } => scope.is_some(),
        _ => false,
    }
}

/// Whether the binding of the node has a scope.
fn is_scoped(d: &Doc, node: &Node) -> bool
    ensures exact { result ≡ is_some (sizes.scope_of d.now node.now) }
{
    match item_of_node(d, node) {
        Some(item) => has_scope(item),
        None => false,
    }
}

/// Whether the node is a bound instance.
fn is_bound_instance(node: &Node) -> bool
    ensures exact { result ≡ sizes.is_bound_instance node.now }
{
    match &node.kind {
        NodeKind::Bound(BindRef::Member(_)) => false,
        NodeKind::Bound(BindRef::ClassItem(_)) => false,
        NodeKind::Bound(BindRef::Arg(_)) => true,
        NodeKind::Bound(BindRef::Default) => true,
        NodeKind::Bound(BindRef::Exposed { .. }) => false,
        NodeKind::Multi(_) => false,
        NodeKind::Opt(_) => false,
        NodeKind::EntryOf(_) => false,
    }
}

/// Whether the value of the node is made once, or is there already.
#[tactic(auto, unfolding(dg_decl::specs::Sizes::is_shared))]
pub(crate) fn is_shared(d: &Doc, node: &Node) -> bool
    ensures exact { result ≡ sizes.is_shared d.now node.now }
{
    is_scoped(d, node) || is_producer(d, node) || is_bound_instance(node)
}

/// The size of the body of an item, or the bound if it is past that.
fn size_of_item(item: &Item, most: u64) -> u64
    requires some { 1 ≤ most }
    requires most { most ≤ 2 ^ 32 }
    ensures exact { result ≡ min (sizes.size_of_item item.now) most }
{
    match item {
        Item::Class { params, .. } => plus(1, (params.len() as u64).min(most), most),
        Item::Provides { body, .. } => size_of_expr(body, most),
        Item::Produces { body, .. } => size_of_tree(body, most),
        _ => 1,
    }
}

/// The size of the body of a node, or the bound if it is past that.
#[tactic(auto, unfolding(dg_decl::specs::Sizes::size))]
pub(crate) fn size_of_node(d: &Doc, node: &Node, most: u64) -> u64
    requires some { 1 ≤ most }
    requires most { most ≤ 2 ^ 32 }
    ensures exact { result ≡ min (sizes.size d.now node.now) most }
{
    match item_of_node(d, node) {
        Some(item) => size_of_item(item, most),
        None => 1,
    }
}
