//! Which modules are replaced, and which are installed in which class.

ghost use Rattle.std.specs.Prelude.{◌≡◌, ◌<◌, ◌≤◌, ◌++◌, ◌||◌, ◌&&◌, not, false, [], ◌∷◌, ℕ, List, nat_eq, filter, if◌then◌else◌, Some, None, option_map, unwrap_or, All, IfOk, OnOk, length, vec_len, slice_index, slice_index_or};
ghost use Rattle.std.specs.List.{list_any};
ghost use Rattle.dg_num.specs.Graph.{IsSound, node_count, row_at, successors};
ghost use Rattle.dg_num.specs.Walks.{IsReached, TellsExactly};
ghost use Rattle.dg_decl.specs.Document.{statements};
ghost use Rattle.dg_decl.specs.declared.document.Doc.{Doc};
ghost use Rattle.dg_decl.specs.Bounds.{IsBounded};
ghost use Rattle.dg_decl.specs.Components as components;
ghost use Rattle.dg_decl.specs.Names as spec_names;
ghost use Rattle.dg_comps.specs.ClassSets.{has, IsSetOf};
ghost use Rattle.dg_comps.specs.Rows.{indices, is_annotated, is_installed_at, AreRows};
ghost use Rattle.dg_comps.specs.Tables.{kept_module, KnowsAncestors, KnowsReplaced, KnowsReached, IsReachedSet, IsIncludes};

use crate::class_set::{holds, meet, with};
use crate::headers::{header_item, includes_in, is_module, item_at, modules_in, replaces_in};
use crate::rows::{empty_rows, push_to};
use dg_decl::Item;
use dg_names::{Names, Statement};
use dg_num::Graph;
use dg_types::{Name, NoMemory};
use std::alloc::Global;

/// Marks the module of a name.
fn mark(names: &Names<'_>, name: &Name, marks: &mut Vec<bool>)
    ensures len { vec_len marks.new ≡ vec_len marks.old }
    ensures exact { (m : ℕ) → m < vec_len marks.old → slice_index_or marks.new.items m false
        ≡ (slice_index_or marks.old.items m false
        || components.is_number m (spec_names.module_named names.now name.now)) }
{
    if let Some(index) = names.module_named(name.as_slice()) {
        if (index as usize) < marks.len() {
            marks[index as usize] = true;
        }
    }
}

/// Marks the modules that an item replaces.
fn mark_replaced(names: &Names<'_>, item: &Item, marks: &mut Vec<bool>)
    ensures len { vec_len marks.new ≡ vec_len marks.old }
    ensures exact { (m : ℕ) → m < vec_len marks.old → slice_index_or marks.new.items m false
        ≡ (slice_index_or marks.old.items m false
        || list_any (λ n. components.is_number m (spec_names.module_named names.now n))
        (components.replaces_in item.now)) }
{
    for name in replaces_in(item) {
        mark(names, name, marks);
    }
}

/// Whether a `replaces` list names it, for each item.
pub(crate) fn replaced(alloc: Global, names: &Names<'_>) -> Result<Vec<bool>, NoMemory>
    ensures exact { IfOk result (λ marks. KnowsReplaced names.now marks.items) }
{
    let mut marks = vec![in alloc; false; names.statements().len()]?;
    for statement in names.statements() {
        mark_replaced(names, statement.item, &mut marks);
    }
    Ok(marks)
}

/// Whether a `replaces` list names a module.
fn is_replaced(marks: &[bool], index: u32) -> bool
    ensures exact { (doc : Doc) → KnowsReplaced doc marks.now
        → result ≡ components.is_replaced doc index }
{
    match marks.get(index as usize) {
        Some(mark) => *mark,
        None => false,
    }
}

/// Adds a module, unless it is replaced.
fn push_unless_replaced(
    replaced: &[bool],
    index: u32,
    modules: &mut Vec<u32>,
) -> Result<(), NoMemory>
    ensures exact { OnOk result ((doc : Doc) → KnowsReplaced doc replaced.now
        → modules.new.items ≡ modules.old.items ++ kept_module doc index) }
{
    if !is_replaced(replaced, index) {
        modules.push(index)?;
    }
    Ok(())
}

/// Adds the module of a name, unless it is replaced.
fn push_module(
    names: &Names<'_>,
    replaced: &[bool],
    name: &Name,
    modules: &mut Vec<u32>,
) -> Result<(), NoMemory>
    requires replaced { KnowsReplaced names.now replaced.now }
    ensures exact { OnOk result (modules.new.items ≡ modules.old.items
        ++ components.modules_named names.now (name.now ∷ [])) }
{
    match names.module_named(name.as_slice()) {
        Some(index) => push_unless_replaced(replaced, index, modules),
        None => Ok(()),
    }
}

/// Adds the modules of some names that aren't replaced.
fn push_modules(
    names: &Names<'_>,
    replaced: &[bool],
    list: &[Name],
    modules: &mut Vec<u32>,
) -> Result<(), NoMemory>
    requires replaced { KnowsReplaced names.now replaced.now }
    ensures exact { OnOk result (modules.new.items ≡ modules.old.items
        ++ components.modules_named names.now list.now) }
{
    for name in list {
        push_module(names, replaced, name, modules)?;
    }
    Ok(())
}

/// The names that an item includes.
fn included_names<'a>(names: &Names<'a>, index: u32) -> &'a [Name]
    ensures exact { result.now ≡ unwrap_or (option_map components.includes_in
        (spec_names.item_at names.now index)) [] }
{
    match item_at(names, index) {
        Some(item) => includes_in(item),
        None => &[],
    }
}

/// The modules that an item includes, without those that are replaced.
#[tactic(auto, unfolding(dg_decl::specs::Components::included))]
fn included(
    alloc: Global,
    names: &Names<'_>,
    replaced: &[bool],
    index: u32,
) -> Result<Vec<u32>, NoMemory>
    requires replaced { KnowsReplaced names.now replaced.now }
    ensures exact { IfOk result (λ modules. modules.items ≡ components.included names.now index) }
{
    let mut modules = Vec::new(alloc);
    push_modules(names, replaced, included_names(names, index), &mut modules)?;
    Ok(modules)
}

/// Adds the modules of a list that aren't replaced.
fn push_unreplaced(replaced: &[bool], list: &[u32], modules: &mut Vec<u32>) -> Result<(), NoMemory>
    ensures exact { OnOk result ((doc : Doc) → KnowsReplaced doc replaced.now → modules.new.items
        ≡ modules.old.items ++ filter (λ m. not (components.is_replaced doc m)) list.now) }
{
    for &index in list {
        push_unless_replaced(replaced, index, modules)?;
    }
    Ok(())
}

/// The names of the modules that the header of a class names.
fn header_modules<'a>(names: &Names<'a>, class: u32) -> &'a [Name]
    ensures exact { result.now ≡ unwrap_or (option_map components.modules_in
        (components.header_item names.now class)) [] }
{
    match header_item(names, class) {
        Some(item) => modules_in(item),
        None => &[],
    }
}

/// The modules with which the walks of `includes` of a class begin.
#[tactic(auto, unfolding(dg_decl::specs::Components::seeds))]
fn seeds(
    alloc: Global,
    names: &Names<'_>,
    replaced: &[bool],
    annotated: &[u32],
    class: u32,
) -> Result<Vec<u32>, NoMemory>
    requires replaced { KnowsReplaced names.now replaced.now }
    requires annotated { annotated.now
        ≡ indices (is_annotated names.now) (statements names.now) class }
    ensures exact { IfOk result (λ modules. modules.items ≡ components.seeds names.now class) }
{
    let mut modules = Vec::new(alloc);
    push_modules(names, replaced, header_modules(names, class), &mut modules)?;
    push_unreplaced(replaced, annotated, &mut modules)?;
    Ok(modules)
}

/// The graph whose nodes are the items, with an edge for each module that one includes.
fn includes(alloc: Global, names: &Names<'_>, replaced: &[bool]) -> Result<Graph, NoMemory>
    requires replaced { KnowsReplaced names.now replaced.now }
    ensures exact { IfOk result (λ graph. IsIncludes names.now graph) }
{
    let mut next = Vec::new(alloc);
    for index in 0..names.statements().len() as u32 {
        next.push(included(alloc, names, replaced, index)?)?;
    }
    Ok(Graph { next })
}

/// The set with one class more, where the mark says so.
fn with_marked(set: u128, mark: bool, class: u32) -> u128
    requires class { class < 128 }
    ensures exact { (other : ℕ) → has result other
        ≡ (has set other || (nat_eq other class && mark)) }
{
    if mark { with(set, class) } else { set }
}

/// Adds a class to the set of each item that is marked.
fn add_class(sets: &mut Vec<u128>, marks: &[bool], class: u32)
    requires class { class < 128 }
    requires marks { length marks.now ≡ vec_len sets.old }
    ensures len { vec_len sets.new ≡ vec_len sets.old }
    ensures exact { (m other : ℕ) → m < vec_len sets.old → has (slice_index sets.new.items m) other
        ≡ (has (slice_index sets.old.items m) other
        || (nat_eq other class && slice_index_or marks.now m false)) }
{
    for (index, mark) in marks.iter().enumerate() {
        sets[index] = with_marked(sets[index], *mark, class);
    }
}

/// Marks the items to which a walk of `includes` leads from a seed of the class.
fn reached(alloc: Global, graph: &Graph, seeds: &[u32]) -> Result<Vec<bool>, NoMemory>
    requires graph { IsSound graph.now }
    requires seeds { All (λ node. node < node_count graph.now) seeds.now }
    ensures exact { IfOk result
        (λ marks. TellsExactly graph.now (IsReached (successors graph.now) seeds.now) marks.items) }
{
    match dg_num::reach(alloc, graph, seeds) {
        Ok(marks) => Ok(marks),
        Err(_) => Err(NoMemory),
    }
}

/// For each item the set of the classes from which it is reached.
pub(crate) fn reached_sets(
    alloc: Global,
    names: &Names<'_>,
    replaced: &[bool],
    annotated: &[Vec<u32>],
) -> Result<Vec<u128>, NoMemory>
    requires bounded { IsBounded names.now }
    requires replaced { KnowsReplaced names.now replaced.now }
    requires annotated { AreRows (is_annotated names.now) names.now
        (components.class_count names.now) annotated.now }
    ensures exact { IfOk result (λ sets. KnowsReached names.now sets.items) }
{
    let graph = includes(alloc, names, replaced)?;
    let mut sets = vec![in alloc; 0; names.statements().len()]?;
    for (class, row) in annotated.iter().enumerate() {
        let seeds = seeds(alloc, names, replaced, row, class as u32)?;
        let marks = reached(alloc, &graph, &seeds)?;
        add_class(&mut sets, &marks, class as u32);
    }
    Ok(sets)
}

/// The class itself, where a module is installed in it, by the classes that reach the module and
/// the ancestors of the class.
fn if_installed(reached: u128, above: u128, class: u32) -> Option<u32>
    requires class { class < 128 }
    ensures exact { (classes : List ℕ) → IsSetOf (λ c. list_any (nat_eq c) classes) above
        → result ≡ (if has reached class && not (list_any (has reached) classes) then Some class
        else None) }
{
    if holds(reached, class) && !meet(reached, above) {
        Some(class)
    } else {
        None
    }
}

/// Adds an index to the row of each class in which the module of it is installed.
fn push_installed(
    rows: &mut Vec<Vec<u32>>,
    reached: u128,
    above: &[u128],
    index: u32,
) -> Result<(), NoMemory>
    requires few { length above.now ≤ 128 }
    requires rows { vec_len rows.old ≡ length above.now }
    ensures len { vec_len rows.new ≡ vec_len rows.old }
    ensures exact { OnOk result ((doc : Doc) (class : ℕ) → KnowsAncestors doc above.now
        → IsReachedSet doc index reached → class < vec_len rows.old
        → row_at rows.new.items class ≡ row_at rows.old.items class
        ++ (if components.is_installed doc class index then index ∷ [] else [])) }
{
    for (class, ancestors) in above.iter().enumerate() {
        push_to(rows, if_installed(reached, *ancestors, class as u32), index)?;
    }
    Ok(())
}

/// Adds the index of a statement to the row of each class in which it is an installed module.
fn push_installed_at(
    rows: &mut Vec<Vec<u32>>,
    reached: &[u128],
    above: &[u128],
    statement: &Statement<'_>,
) -> Result<(), NoMemory>
    requires few { length above.now ≤ 128 }
    requires rows { vec_len rows.old ≡ length above.now }
    requires index { statement.now.index < length reached.now }
    ensures len { vec_len rows.new ≡ vec_len rows.old }
    ensures exact { OnOk result ((doc : Doc) (class : ℕ) → KnowsAncestors doc above.now
        → KnowsReached doc reached.now → class < vec_len rows.old
        → row_at rows.new.items class ≡ row_at rows.old.items class
        ++ (if is_installed_at doc class statement.now then statement.now.index ∷ [] else [])) }
{
    if is_module(statement.item) {
        push_installed(
            rows,
            reached[statement.index as usize],
            above,
            statement.index,
        )
    } else {
        Ok(())
    }
}

/// For each class the indices of the modules that are installed in it.
pub(crate) fn installed(
    alloc: Global,
    names: &Names<'_>,
    reached: &[u128],
    above: &[u128],
) -> Result<Vec<Vec<u32>>, NoMemory>
    requires bounded { IsBounded names.now }
    requires reached { KnowsReached names.now reached.now }
    requires above { KnowsAncestors names.now above.now }
    ensures exact { IfOk result (λ rows. AreRows (is_installed_at names.now) names.now
        (components.class_count names.now) rows.items) }
{
    let mut rows = empty_rows(alloc, names.class_count())?;
    for statement in names.statements() {
        push_installed_at(&mut rows, reached, above, statement)?;
    }
    Ok(rows)
}
