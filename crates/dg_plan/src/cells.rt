//! Which slots keep their values.

ghost use Rattle.std.specs.Prelude.{◌≡◌};
ghost use Rattle.std.specs.Option.{option_copied, option_map};
ghost use Rattle.dg_decl.specs.Sizes as sizes;
ghost use Rattle.dg_slots.specs.Plans as spec;

use dg_decl::{BindRef, Doc, Item, Node, NodeKind};
use dg_slots::CellKind;
use dg_types::Name;

/// The item that binds a node, where it is a module member or an `@Inject` class.
fn item_of_node<'d>(doc: &'d Doc, node: &Node) -> Option<&'d Item>
    ensures exact { option_copied result ≡ sizes.item_of_node doc.now node.now }
{
    match &node.kind {
        NodeKind::Bound(BindRef::Member(index)) => doc.items.get(*index as usize),
        NodeKind::Bound(BindRef::ClassItem(index)) => doc.items.get(*index as usize),
        _ => None,
    }
}

/// The scope of an item.
fn scope_of_item(item: &Item) -> Option<&Name>
    ensures exact { option_map (λ n. n.now) result ≡ sizes.scope_of_item item.now }
{
    match item {
        Item::Class { scope, .. } => scope.as_ref(),
        Item::Provides { scope, .. } => scope.as_ref(),
        Item::Binds { scope, .. } => scope.as_ref(),
        _ => None,
    }
}

/// Whether an item is a `produces` line.
fn is_produces_item(item: &Item) -> bool
    ensures exact { result ≡ sizes.is_produces_item item.now }
{
    matches!(item, Item::Produces { .. })
}

/// Whether the value of a node is kept: a scoped binding and a `produces` line have a cell in each
/// instance of their class.
pub fn cell_of(doc: &Doc, node: &Node) -> CellKind
    ensures exact { result ≡ spec.cell_of doc.now node.now }
{
    let Some(item) = item_of_node(doc, node) else {
        return CellKind::Plain;
    };
    if scope_of_item(item).is_some() {
        CellKind::Scoped
    } else if is_produces_item(item) {
        CellKind::Producing
    } else {
        CellKind::Plain
    }
}
