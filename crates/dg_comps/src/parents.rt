//! The parents and ancestors of component classes, in tables.

ghost use Rattle.std.specs.Prelude.{◌≡◌, ◌<◌, ◌≤◌, ◌||◌, ◌&&◌, ℕ, nat_eq, IfOk, IfSome, All, length, slice_index, option_and_then, option_map};
ghost use Rattle.dg_decl.specs.Bounds.{IsBounded};
ghost use Rattle.dg_decl.specs.Components as components;
ghost use Rattle.dg_decl.specs.declared.document.Doc.{Doc};
ghost use Rattle.dg_comps.specs.ClassSets.{has, IsSetOf};
ghost use Rattle.dg_comps.specs.Tables.{parents_by_class, is_above, is_ancestor, KnowsAncestors, KnowsCyclic};

use crate::class_set::{holds, meet, with};
use crate::headers::{header_item, parent_in};
use dg_names::Names;
use dg_types::{Name, NoMemory};
use std::alloc::Global;

/// The number of the parent of one of Hilt's classes.
fn hilt_parent(class: u32) -> Option<u32>
    ensures exact { result ≡ option_and_then (λ row. row.parent) (components.hilt_row class) }
{
    match dg_hilt::class_at(class) {
        Some(found) => dg_hilt::parent(found).map(|parent| dg_hilt::number(parent)),
        None => None,
    }
}

/// The name of the parent that the header of a class names.
fn parent_name<'a>(names: &Names<'a>, class: u32) -> Option<&'a Name>
    ensures exact { option_map (λ n. n.now) result
        ≡ option_and_then components.parent_in (components.header_item names.now class) }
{
    match header_item(names, class) {
        Some(item) => parent_in(item),
        None => None,
    }
}

/// The class whose subcomponent a class is.
#[tactic(auto, unfolding(dg_decl::specs::Components::parent_of))]
pub(crate) fn parent_of(names: &Names<'_>, class: u32) -> Option<u32>
    ensures exact { result ≡ components.parent_of names.now class }
{
    match hilt_parent(class) {
        Some(parent) => Some(parent),
        None => match parent_name(names, class) {
            Some(name) => names.class_named(name.as_slice()),
            None => None,
        },
    }
}

/// The parent of each class.
fn parents(alloc: Global, names: &Names<'_>) -> Result<Vec<Option<u32>>, NoMemory>
    ensures exact { IfOk result (λ parents. parents.items ≡ parents_by_class names.now) }
{
    Ok(
        (0..names.class_count())
            .map(|class| parent_of(names, class))
            .collect(alloc)?,
    )
}

/// The classes to which a walk of parents leads from a class. A walk without end comes to no new
/// class once it has taken as many steps as there are classes.
fn above(parents: &[Option<u32>], class: u32) -> u128
    requires few { length parents.now ≤ 128 }
    requires within { All (λ parent. IfSome parent (λ p. p < length parents.now)) parents.now }
    requires class { class < length parents.now }
    ensures exact { IsSetOf (is_above parents.now class) result }
{
    let mut set = 0;
    let mut next = parents[class as usize];
    for _ in 0..parents.len() {
        match next {
            Some(parent) => {
                set = with(set, parent);
                next = parents[parent as usize];
            }
            None => break,
        }
    }
    set
}

/// For each class the set of its ancestors.
pub(crate) fn ancestor_sets(alloc: Global, names: &Names<'_>) -> Result<Vec<u128>, NoMemory>
    requires few { components.class_count names.now ≤ 128 }
    ensures exact { IfOk result (λ sets. KnowsAncestors names.now sets.items) }
{
    let parents = parents(alloc, names)?;
    let mut sets = Vec::new(alloc);
    for class in 0..names.class_count() {
        sets.push(above(&parents, class))?;
    }
    Ok(sets)
}

/// Adds a class to a set where it is in the other set.
fn with_own(cyclic: u128, set: u128, class: u32) -> u128
    requires class { class < 128 }
    ensures exact { (other : ℕ) → has result other
        ≡ (has cyclic other || (nat_eq other class && has set class)) }
{
    if holds(set, class) {
        with(cyclic, class)
    } else {
        cyclic
    }
}

/// The set of the classes that are their own ancestors, where each class has the set of its
/// ancestors.
fn cyclic_classes(sets: &[u128]) -> u128
    requires few { length sets.now ≤ 128 }
    ensures exact { (class : ℕ) → class < length sets.now
        → has result class ≡ has (slice_index sets.now class) class }
{
    let mut cyclic = 0;
    for (class, set) in sets.iter().enumerate() {
        cyclic = with_own(cyclic, *set, class as u32);
    }
    cyclic
}

/// The set of the classes of a document that are their own ancestors.
pub(crate) fn cyclic_of(names: &Names<'_>, sets: &[u128]) -> u128
    requires few { components.class_count names.now ≤ 128 }
    requires sets { KnowsAncestors names.now sets.now }
    ensures exact { KnowsCyclic names.now result }
{
    let _doc = names.doc();
    cyclic_classes(sets)
}

/// Whether a walk of parents from a class comes to no class again.
pub(crate) fn has_root(sets: &[u128], cyclic: u128, class: u32) -> bool
    requires class { class < length sets.now }
    requires few { length sets.now ≤ 128 }
    ensures exact { (doc : Doc) → KnowsAncestors doc sets.now → KnowsCyclic doc cyclic
        → result ≡ components.has_root doc class }
{
    !meet(cyclic, with(sets[class as usize], class))
}
