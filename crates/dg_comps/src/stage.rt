//! The stage of components: one function for each rule, and their list.

ghost use Rattle.std.specs.Prelude.{◌≡◌, ◌<◌, ◌++◌, ◌∷◌, [], ℕ, map, filter, IfOk, IfSome, OnOk, option_map, option_and_then, option_to_list, unwrap_or, false, None, if◌then◌else◌};
ghost use Rattle.dg_decl.specs.declared.document.Doc.{Doc};
ghost use Rattle.dg_decl.specs.Bounds.{IsBounded};
ghost use Rattle.dg_decl.specs.Components as components;
ghost use Rattle.dg_decl.specs.Document.{statements};
ghost use Rattle.dg_decl.specs.Names as spec_names;
ghost use Rattle.dg_decl.specs.Sites as sites;
ghost use Rattle.dg_decl.specs.Stages.Components as spec;
ghost use Rattle.dg_comps.specs.ClassSets.{IsSetOf};
ghost use Rattle.dg_comps.specs.ClassTables.{KnowsCarriers};
ghost use Rattle.dg_comps.specs.Broken.{carried, badly_replaced};
ghost use Rattle.dg_comps.specs.Entries.{is_repeated};
ghost use Rattle.dg_comps.specs.Known.{KnowsAll};
ghost use Rattle.dg_comps.specs.Stands.{Stands};
ghost use Rattle.dg_comps.specs.Tables.{is_ancestor, KnowsCyclic};

use crate::class_set::{holds, meet};
use crate::class_table::ClassTable;
use crate::classes::class_name;
use crate::entries::entry_name;
use crate::headers::{item_at, replaces_in, scopes_in};
use crate::parents::has_root;
use crate::stage_tables::StageTables;
use dg_decl::{Item, Rule, Violation};
use dg_names::{Names, Statement};
use dg_types::{Name, NoMemory, Text};
use std::alloc::Global;

/// What a line is called in a diagnostic.
#[tactic(auto, unfolding(dg_decl::specs::Sites::site_of_line))]
fn site_of_line(alloc: Global, line: u32) -> Result<Text, NoMemory>
    ensures exact { IfOk result (λ site. site ≡ sites.site_of_line line) }
{
    let site = format!(in alloc; "line {line}")?;
    Ok(Text::from_vec(site.into_bytes()))
}

/// A rule that a line breaks by a name.
fn at_line(
    alloc: Global,
    rule: Rule,
    statement: &Statement<'_>,
    detail: &[u8],
) -> Result<Violation, NoMemory>
    ensures exact { IfOk result
        (λ violation. violation ≡ spec.at_line rule statement.now detail.now) }
{
    Ok(Violation {
        rule,
        site: site_of_line(alloc, statement.line)?,
        detail: Some(Text::from_slice(alloc, detail)?),
    })
}

/// The class of which a statement is the header.
fn headed(names: &Names<'_>, statement: &Statement<'_>) -> Option<u32>
    requires stands { Stands names.now statement.now }
    ensures exact { option_to_list result ≡ spec.headed names.now statement.now }
    ensures within { IfSome result (λ class. class < components.class_count names.now) }
{
    names.number_of_header(statement.index)
}

/// The class of which a statement is the header, where it is its own ancestor.
fn cyclic_class(names: &Names<'_>, cyclic: u128, statement: &Statement<'_>) -> Option<u32>
    requires bounded { IsBounded names.now }
    requires cyclic { KnowsCyclic names.now cyclic }
    requires stands { Stands names.now statement.now }
    ensures exact { option_to_list result
        ≡ filter (components.is_own_ancestor names.now) (spec.headed names.now statement.now) }
{
    match headed(names, statement) {
        Some(class) => {
            if holds(cyclic, class) {
                Some(class)
            } else {
                None
            }
        }
        None => None,
    }
}

/// A class is its own ancestor.
#[tactic(auto, unfolding(dg_decl::specs::Stages::Components::parent_cycle))]
fn parent_cycle(
    alloc: Global,
    names: &Names<'_>,
    cyclic: u128,
    statement: &Statement<'_>,
    broken: &mut Vec<Violation>,
) -> Result<(), NoMemory>
    requires bounded { IsBounded names.now }
    requires cyclic { KnowsCyclic names.now cyclic }
    requires stands { Stands names.now statement.now }
    ensures exact { OnOk result (broken.new.items
        ≡ broken.old.items ++ spec.parent_cycle names.now statement.now) }
{
    match cyclic_class(names, cyclic, statement) {
        Some(class) => {
            let name = class_name(alloc, names, class)?;
            broken.push(at_line(alloc, Rule::ParentCycle, statement, name.as_slice())?)?;
            Ok(())
        }
        None => Ok(()),
    }
}

/// Whether a class of the set carries the scope.
fn is_carried(carriers: &ClassTable, above: u128, scope: &Name) -> bool
    ensures exact { (doc : Doc) (class : ℕ) → KnowsCarriers doc carriers.now
        → IsSetOf (is_ancestor doc class) above
        → result ≡ spec.ancestor_carries doc class scope.now }
{
    meet(carriers.set_of(scope), above)
}

/// Adds a scope where a class of the set carries it.
fn push_carried(
    alloc: Global,
    carriers: &ClassTable,
    above: u128,
    statement: &Statement<'_>,
    scope: &Name,
    broken: &mut Vec<Violation>,
) -> Result<(), NoMemory>
    ensures exact { OnOk result ((doc : Doc) (class : ℕ) → KnowsCarriers doc carriers.now
        → IsSetOf (is_ancestor doc class) above → broken.new.items ≡ broken.old.items
        ++ carried doc class statement.now (scope.now ∷ [])) }
{
    if is_carried(carriers, above, scope) {
        broken.push(at_line(alloc, Rule::AncestorScope, statement, scope.as_slice())?)?;
    }
    Ok(())
}

/// Adds the scopes of a statement that a class of the set carries.
fn push_all_carried(
    alloc: Global,
    carriers: &ClassTable,
    above: u128,
    statement: &Statement<'_>,
    broken: &mut Vec<Violation>,
) -> Result<(), NoMemory>
    ensures exact { OnOk result ((doc : Doc) (class : ℕ) → KnowsCarriers doc carriers.now
        → IsSetOf (is_ancestor doc class) above → broken.new.items ≡ broken.old.items
        ++ carried doc class statement.now (components.scopes_in statement.now.item)) }
{
    for scope in scopes_in(statement.item) {
        push_carried(alloc, carriers, above, statement, scope, broken)?;
    }
    Ok(())
}

/// The class of which a statement is the header, where its walk of parents meets no cycle.
fn rooted_class(names: &Names<'_>, tables: &StageTables, statement: &Statement<'_>) -> Option<u32>
    requires bounded { IsBounded names.now }
    requires tables { KnowsAll names.now tables.now }
    requires stands { Stands names.now statement.now }
    ensures exact { option_to_list result
        ≡ filter (components.has_root names.now) (spec.headed names.now statement.now) }
    ensures within { IfSome result (λ class. class < components.class_count names.now) }
{
    match headed(names, statement) {
        Some(class) => {
            if has_root(&tables.above, tables.cyclic, class) {
                Some(class)
            } else {
                None
            }
        }
        None => None,
    }
}

/// A class carries a scope of an ancestor.
#[tactic(auto, unfolding(dg_decl::specs::Stages::Components::ancestor_scope))]
fn ancestor_scope(
    alloc: Global,
    names: &Names<'_>,
    tables: &StageTables,
    statement: &Statement<'_>,
    broken: &mut Vec<Violation>,
) -> Result<(), NoMemory>
    requires bounded { IsBounded names.now }
    requires tables { KnowsAll names.now tables.now }
    requires stands { Stands names.now statement.now }
    ensures exact { OnOk result (broken.new.items
        ≡ broken.old.items ++ spec.ancestor_scope names.now statement.now) }
{
    match rooted_class(names, tables, statement) {
        Some(class) => {
            let above = tables.above[class as usize];
            push_all_carried(alloc, &tables.carriers, above, statement, broken)?;
            Ok(())
        }
        None => Ok(()),
    }
}

/// The name of an entry, where it is repeated.
fn repeated_name<'a>(repeated: bool, statement: &Statement<'a>) -> Option<&'a Name>
    ensures exact { option_map (λ n. n.now) result
        ≡ (if repeated then spec.entry_name statement.now.item else None) }
{
    if repeated {
        entry_name(statement.item)
    } else {
        None
    }
}

/// An entry has the name of an earlier entry of its class.
#[tactic(auto, unfolding(dg_decl::specs::Stages::Components::duplicate_entry))]
fn duplicate_entry(
    alloc: Global,
    names: &Names<'_>,
    repeated: bool,
    statement: &Statement<'_>,
    broken: &mut Vec<Violation>,
) -> Result<(), NoMemory>
    requires repeated { repeated ≡ is_repeated names.now statement.now }
    ensures exact { OnOk result (broken.new.items
        ≡ broken.old.items ++ spec.duplicate_entry names.now statement.now) }
{
    let _doc = names.doc();
    match repeated_name(repeated, statement) {
        Some(name) => {
            broken.push(at_line(alloc, Rule::DuplicateEntry, statement, name.as_slice())?)?;
            Ok(())
        }
        None => Ok(()),
    }
}

/// Whether the item of this index is a module with `@InstallIn`.
fn has_install(names: &Names<'_>, index: u32) -> bool
    ensures exact { result ≡ unwrap_or (option_map spec.has_install
        (spec_names.item_at names.now index)) false }
{
    match item_at(names, index) {
        Some(Item::Module { install, .. }) => install.is_some(),
        _ => false,
    }
}

/// Whether a name is that of a module with `@InstallIn`.
fn may_be_replaced(names: &Names<'_>, name: &Name) -> bool
    ensures exact { result ≡ spec.may_be_replaced names.now name.now }
{
    match names.module_named(name.as_slice()) {
        Some(index) => has_install(names, index),
        None => false,
    }
}

/// Adds a name that a test module may not replace.
fn push_bad_replace(
    alloc: Global,
    names: &Names<'_>,
    statement: &Statement<'_>,
    name: &Name,
    broken: &mut Vec<Violation>,
) -> Result<(), NoMemory>
    ensures exact { OnOk result (broken.new.items ≡ broken.old.items
        ++ badly_replaced names.now statement.now (name.now ∷ [])) }
{
    if !may_be_replaced(names, name) {
        broken.push(at_line(alloc, Rule::BadReplace, statement, name.as_slice())?)?;
    }
    Ok(())
}

/// A test module replaces a module that isn't installed by an annotation.
#[tactic(auto, unfolding(dg_decl::specs::Stages::Components::bad_replace))]
fn bad_replace(
    alloc: Global,
    names: &Names<'_>,
    statement: &Statement<'_>,
    broken: &mut Vec<Violation>,
) -> Result<(), NoMemory>
    ensures exact { OnOk result (broken.new.items
        ≡ broken.old.items ++ spec.bad_replace names.now statement.now) }
{
    for name in replaces_in(statement.item) {
        push_bad_replace(alloc, names, statement, name, broken)?;
    }
    Ok(())
}

/// Adds what a statement breaks: the list of the rules.
fn components_at(
    alloc: Global,
    names: &Names<'_>,
    tables: &StageTables,
    repeated: bool,
    statement: &Statement<'_>,
    broken: &mut Vec<Violation>,
) -> Result<(), NoMemory>
    requires bounded { IsBounded names.now }
    requires tables { KnowsAll names.now tables.now }
    requires repeated { repeated ≡ is_repeated names.now statement.now }
    requires stands { Stands names.now statement.now }
    ensures exact { OnOk result (broken.new.items
        ≡ broken.old.items ++ spec.components_at names.now statement.now) }
{
    parent_cycle(alloc, names, tables.cyclic, statement, broken)?;
    ancestor_scope(alloc, names, tables, statement, broken)?;
    duplicate_entry(alloc, names, repeated, statement, broken)?;
    bad_replace(alloc, names, statement, broken)?;
    Ok(())
}

/// What a document breaks in the stage of components, by line and then by rule.
pub(crate) fn components_stage(
    alloc: Global,
    names: &Names<'_>,
    tables: &StageTables,
) -> Result<Vec<Violation>, NoMemory>
    requires bounded { IsBounded names.now }
    requires tables { KnowsAll names.now tables.now }
    ensures exact { IfOk result (λ broken. broken.items ≡ spec.components_stage names.now) }
{
    let mut broken = Vec::new(alloc);
    for (index, statement) in names.statements().iter().enumerate() {
        let repeated = tables.repeated[index];
        components_at(alloc, names, tables, repeated, statement, &mut broken)?;
    }
    Ok(broken)
}
