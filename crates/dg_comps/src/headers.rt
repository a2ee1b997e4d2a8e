//! The headers of component classes, and what stands in them.

ghost use Rattle.std.specs.Prelude.{◌≡◌, option_map, option_copied};
ghost use Rattle.dg_decl.specs.Components as components;
ghost use Rattle.dg_decl.specs.Names as spec_names;

use dg_decl::Item;
use dg_names::Names;
use dg_types::Name;

/// The item of this index.
pub(crate) fn item_at<'a>(names: &Names<'a>, index: u32) -> Option<&'a Item>
    ensures exact { option_copied result ≡ spec_names.item_at names.now index }
{
    names.doc().items.get(index as usize)
}

/// The item of the header of a class.
pub(crate) fn header_item<'a>(names: &Names<'a>, class: u32) -> Option<&'a Item>
    ensures exact { option_copied result ≡ components.header_item names.now class }
{
    match names.header_of(class) {
        Some(index) => item_at(names, index),
        None => None,
    }
}

/// The name of the parent.
pub(crate) fn parent_in(item: &Item) -> Option<&Name>
    ensures exact { option_map (λ n. n.now) result ≡ components.parent_in item.now }
{
    match item {
        Item::Component { parent, .. } => parent.as_ref(),
        Item::DefineComponent { parent, .. } => Some(parent),
        _ => None,
    }
}

/// The scopes that are written on the class.
pub(crate) fn scopes_in(item: &Item) -> &[Name]
    ensures exact { result.now ≡ components.scopes_in item.now }
{
    match item {
        Item::Component { scopes, .. } | Item::DefineComponent { scopes, .. } => scopes.as_slice(),
        _ => &[],
    }
}

/// The modules that the header of a class names.
pub(crate) fn modules_in(item: &Item) -> &[Name]
    ensures exact { result.now ≡ components.modules_in item.now }
{
    match item {
        Item::Component { modules, .. } => modules.as_slice(),
        _ => &[],
    }
}

/// The modules that a test module replaces.
pub(crate) fn replaces_in(item: &Item) -> &[Name]
    ensures exact { result.now ≡ components.replaces_in item.now }
{
    match item {
        Item::TestModule { replaces, .. } => replaces.as_slice(),
        _ => &[],
    }
}

/// The modules that a module includes.
pub(crate) fn includes_in(item: &Item) -> &[Name]
    ensures exact { result.now ≡ components.includes_in item.now }
{
    match item {
        Item::Module { includes, .. } | Item::TestModule { includes, .. } => includes.as_slice(),
        _ => &[],
    }
}

/// The class in which a module is installed by an annotation.
pub(crate) fn install_in(item: &Item) -> Option<&Name>
    ensures exact { option_map (λ n. n.now) result ≡ components.install_in item.now }
{
    match item {
        Item::Module { install, .. } => install.as_ref(),
        Item::TestModule { install, .. } => Some(install),
        _ => None,
    }
}

/// The class in which an entry point is installed.
pub(crate) fn entry_point_class(item: &Item) -> Option<&Name>
    ensures exact { option_map (λ n. n.now) result ≡ components.entry_point_class item.now }
{
    match item {
        Item::EntryPoint { install, .. } => Some(install),
        _ => None,
    }
}

/// The class that a `dependsOn` line names.
pub(crate) fn dependency_in(item: &Item) -> Option<&Name>
    ensures exact { option_map (λ n. n.now) result ≡ components.dependency_in item.now }
{
    match item {
        Item::DependsOn { name } => Some(name),
        _ => None,
    }
}

pub(crate) fn is_entry(item: &Item) -> bool
    ensures exact { result ≡ components.is_entry item.now }
{
    matches!(item, Item::Entry { .. })
}

pub(crate) fn is_module(item: &Item) -> bool
    ensures exact { result ≡ spec_names.is_module item.now }
{
    matches!(item, Item::Module { .. } | Item::TestModule { .. })
}
