//! What each component class holds.

ghost use Rattle.std.specs.Prelude.{◌≡◌, ◌<◌, ◌≤◌, ◌++◌, ◌∷◌, [], ℕ, map, filter_map, IfOk, OnOk, length, option_map, option_and_then, option_to_list};
ghost use Rattle.std.specs.Option.{option_or};
ghost use Rattle.dg_decl.specs.Bounds.{IsBounded};
ghost use Rattle.dg_decl.specs.Components as components;
ghost use Rattle.dg_decl.specs.Document.{statements};
ghost use Rattle.dg_decl.specs.Names as spec_names;
ghost use Rattle.dg_hilt.specs.Classes as hilt;
ghost use Rattle.dg_comps.specs.Members.{bound_at, dep_at};
ghost use Rattle.dg_comps.specs.Rows.{indices, is_member, is_installed_at, AreRows};
ghost use Rattle.dg_comps.specs.Tables.{KnowsAncestors};

use crate::headers::{dependency_in, header_item, item_at};
use crate::modules::{installed, reached_sets, replaced};
use crate::parents::parent_of;
use crate::rows::{annotated, entries, members};
use crate::scopes::{hilt_scope, written_scopes};
use dg_decl::{Bound, Class, Item};
use dg_names::Names;
use dg_types::{Name, NoMemory, Shape, TypeUse};
use sqlite_items::Items;
use std::alloc::Global;

/// The name of one of Hilt's classes.
fn hilt_name(class: u32) -> Option<&'static [u8]>
    ensures exact { option_map (λ n. n.now) result
        ≡ option_map (λ row. row.class) (components.hilt_row class) }
{
    match dg_hilt::class_at(class) {
        Some(found) => Some(dg_hilt::class_name(found)),
        None => None,
    }
}

/// The name that the header of a class declares.
fn written_name<'a>(names: &Names<'a>, class: u32) -> Option<&'a Name>
    ensures exact { option_map (λ n. n.now) result
        ≡ option_and_then spec_names.outer_name (components.header_item names.now class) }
{
    match header_item(names, class) {
        Some(item) => item.outer_name(),
        None => None,
    }
}

/// The name of a class.
#[tactic(auto, unfolding(dg_decl::specs::Components::class_name))]
pub(crate) fn class_name(alloc: Global, names: &Names<'_>, class: u32) -> Result<Name, NoMemory>
    ensures exact { IfOk result (λ name. name ≡ components.class_name names.now class) }
{
    match hilt_name(class) {
        Some(name) => Name::from_slice(alloc, name),
        None => match written_name(names, class) {
            Some(name) => name.copy(alloc),
            None => Ok(Name::from_vec(Vec::new(alloc))),
        },
    }
}

/// The scope of one of Hilt's classes, as a list.
fn hilt_scopes(alloc: Global, class: u32) -> Result<Items<Name>, NoMemory>
    ensures exact { IfOk result (λ scopes. scopes ≡ option_to_list (option_map
        (λ row. row.scope) (components.hilt_row class))) }
{
    let mut scopes = Items::new(alloc);
    match hilt_scope(class) {
        Some(scope) => {
            scopes.push(Name::from_slice(alloc, scope)?)?;
            Ok(scopes)
        }
        None => Ok(scopes),
    }
}

/// Adds copies of some names.
fn push_copies(alloc: Global, list: &[Name], names: &mut Items<Name>) -> Result<(), NoMemory>
    ensures exact { OnOk result (names.new ≡ names.old ++ list.now) }
{
    for name in list {
        names.push(name.copy(alloc)?)?;
    }
    Ok(())
}

/// The scopes that a class carries.
#[tactic(auto, unfolding(dg_decl::specs::Components::scopes_of))]
fn scopes_of(alloc: Global, names: &Names<'_>, class: u32) -> Result<Items<Name>, NoMemory>
    ensures exact { IfOk result (λ scopes. scopes ≡ components.scopes_of names.now class) }
{
    let mut scopes = hilt_scopes(alloc, class)?;
    push_copies(alloc, written_scopes(names, class), &mut scopes)?;
    Ok(scopes)
}

/// The default binding of one of Hilt's classes.
fn hilt_bound(alloc: Global, class: dg_hilt::HiltClass) -> Result<Option<Bound>, NoMemory>
    ensures exact { IfOk result (λ bound. bound
        ≡ option_and_then components.default_bound (hilt.row_of class)) }
{
    match dg_hilt::default_of(class) {
        Some(default) => Ok(Some(Bound {
            name: Name::from_slice(alloc, default.arg)?,
            shape: TypeUse {
                qualifier: None,
                shape: Shape::Named(Name::from_slice(alloc, default.class)?),
            },
        })),
        None => Ok(None),
    }
}

/// The default binding of one of Hilt's classes, as a list.
fn hilt_bounds(alloc: Global, class: u32) -> Result<Items<Bound>, NoMemory>
    ensures exact { IfOk result (λ bound. bound ≡ option_to_list (option_and_then
        components.default_bound (components.hilt_row class))) }
{
    let mut list = Items::new(alloc);
    match dg_hilt::class_at(class) {
        Some(found) => match hilt_bound(alloc, found)? {
            Some(bound) => {
                list.push(bound)?;
                Ok(list)
            }
            None => Ok(list),
        },
        None => Ok(list),
    }
}

/// Adds what an item binds, where it is a `bindsInstance` line.
fn push_bound(alloc: Global, item: &Item, list: &mut Items<Bound>) -> Result<(), NoMemory>
    ensures exact { OnOk result (list.new
        ≡ list.old ++ option_to_list (components.bound_in item.now)) }
{
    match item {
        Item::BindsInstance { name, result } => {
            list.push(Bound {
                name: name.copy(alloc)?,
                shape: result.copy(alloc)?,
            })?;
            Ok(())
        }
        _ => Ok(()),
    }
}

/// Adds what the item of this index binds.
fn push_bound_at(
    alloc: Global,
    names: &Names<'_>,
    index: u32,
    list: &mut Items<Bound>,
) -> Result<(), NoMemory>
    ensures exact { OnOk result (list.new ≡ list.old
        ++ option_to_list (bound_at names.now index)) }
{
    match item_at(names, index) {
        Some(item) => push_bound(alloc, item, list),
        None => Ok(()),
    }
}

/// Adds what the items of these indices bind.
fn push_bounds(
    alloc: Global,
    names: &Names<'_>,
    members: &[u32],
    list: &mut Items<Bound>,
) -> Result<(), NoMemory>
    ensures exact { OnOk result (list.new ≡ list.old
        ++ filter_map (bound_at names.now) members.now) }
{
    for &index in members {
        push_bound_at(alloc, names, index, list)?;
    }
    Ok(())
}

/// The bound arguments of a class.
#[tactic(auto, unfolding(dg_decl::specs::Components::bound_of))]
fn bound_of(
    alloc: Global,
    names: &Names<'_>,
    members: &[u32],
    class: u32,
) -> Result<Items<Bound>, NoMemory>
    requires members { members.now ≡ indices (is_member names.now) (statements names.now) class }
    requires class { class < components.class_count names.now }
    ensures exact { IfOk result (λ bound. bound ≡ components.bound_of names.now class) }
{
    let mut list = hilt_bounds(alloc, class)?;
    push_bounds(alloc, names, members, &mut list)?;
    Ok(list)
}

/// The class that the item of this index names, where it is a `dependsOn` line.
fn dependency_at(names: &Names<'_>, index: u32) -> Option<u32>
    ensures exact { result ≡ dep_at names.now index }
{
    match item_at(names, index) {
        Some(item) => match dependency_in(item) {
            Some(name) => names.class_named(name.as_slice()),
            None => None,
        },
        None => None,
    }
}

/// Adds a number, where there is one.
fn push_number(number: Option<u32>, list: &mut Items<u32>) -> Result<(), NoMemory>
    ensures exact { OnOk result (list.new ≡ list.old ++ option_to_list number) }
{
    match number {
        Some(number) => {
            list.push(number)?;
            Ok(())
        }
        None => Ok(()),
    }
}

/// The classes that the `dependsOn` lines of a class name.
#[tactic(auto, unfolding(dg_decl::specs::Components::deps_of))]
fn deps_of(
    alloc: Global,
    names: &Names<'_>,
    members: &[u32],
    class: u32,
) -> Result<Items<u32>, NoMemory>
    requires members { members.now ≡ indices (is_member names.now) (statements names.now) class }
    requires class { class < components.class_count names.now }
    ensures exact { IfOk result (λ deps. deps ≡ components.deps_of names.now class) }
{
    let mut list = Items::new(alloc);
    for &index in members {
        push_number(dependency_at(names, index), &mut list)?;
    }
    Ok(list)
}

/// The modules that are installed in each class.
fn installed_rows(
    alloc: Global,
    names: &Names<'_>,
    above: &[u128],
) -> Result<Vec<Vec<u32>>, NoMemory>
    requires bounded { IsBounded names.now }
    requires above { KnowsAncestors names.now above.now }
    ensures exact { IfOk result (λ rows. AreRows (is_installed_at names.now) names.now
        (components.class_count names.now) rows.items) }
{
    let replaced = replaced(alloc, names)?;
    let annotated = annotated(alloc, names)?;
    let reached = reached_sets(alloc, names, &replaced, &annotated)?;
    installed(alloc, names, &reached, above)
}

/// A class, with the rows of the tables that are its own.
fn class_of_number(
    alloc: Global,
    names: &Names<'_>,
    class: u32,
    members: &[u32],
    modules: &[u32],
    entries: &[u32],
) -> Result<Class, NoMemory>
    requires class { class < components.class_count names.now }
    requires members { members.now ≡ indices (is_member names.now) (statements names.now) class }
    requires modules { modules.now ≡ components.installed names.now class }
    requires entries { entries.now ≡ components.entries_of names.now class }
    ensures exact { IfOk result (λ found. found ≡ components.class_of_number names.now class) }
{
    Ok(Class {
        name: class_name(alloc, names, class)?,
        parent: parent_of(names, class),
        scopes: scopes_of(alloc, names, class)?,
        modules: Items::from_slice(alloc, modules)?,
        bound: bound_of(alloc, names, members, class)?,
        entries: Items::from_slice(alloc, entries)?,
        deps: deps_of(alloc, names, members, class)?,
    })
}

/// The component classes, by number.
#[tactic(auto, unfolding(dg_decl::specs::Components::component_classes))]
pub(crate) fn component_classes(
    alloc: Global,
    names: &Names<'_>,
    above: &[u128],
) -> Result<Items<Class>, NoMemory>
    requires bounded { IsBounded names.now }
    requires above { KnowsAncestors names.now above.now }
    ensures exact { IfOk result (λ classes. classes ≡ components.component_classes names.now) }
{
    let members = members(alloc, names)?;
    let modules = installed_rows(alloc, names, above)?;
    let entries = entries(alloc, names)?;
    let mut classes = Items::new(alloc);
    for class in 0..names.class_count() {
        let index = class as usize;
        let found = class_of_number(
            alloc,
            names,
            class,
            &members[index],
            &modules[index],
            &entries[index],
        )?;
        classes.push(found)?;
    }
    Ok(classes)
}
