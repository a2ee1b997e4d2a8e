//! The explicit bindings of all classes, statement by statement.

ghost use Rattle.std.specs.Prelude.{◌≡◌, ◌+◌, IfOk, OnOk, length, option_copied, option_to_list};
ghost use Rattle.dg_decl.specs.Bounds.{IsBounded};
ghost use Rattle.dg_decl.specs.Components.{class_count, component_classes, exposed_by_class};
ghost use Rattle.dg_decl.specs.Lookup as lookup;
ghost use Rattle.dg_resolve.specs.Explicit as explicit;
ghost use Rattle.dg_resolve.specs.Known as known;
ghost use Rattle.dg_resolve.specs.Members as members;
ghost use Rattle.dg_resolve.specs.Tables as spec;

use crate::classes::ClassTables;
use crate::keys::key_of_use;
use crate::members::{Wanted, add_member};
use crate::table::NumberTable;
use dg_decl::{Bind, BindRef, Bound, Class, Exposed, Item, Owned};
use dg_names::{Names, Statement};
use dg_types::{Key, NoMemory};
use sqlite_items::Items;
use std::alloc::Global;

/// How many component classes Hilt has.
const HILT_COUNT: u32 = 8;

/// Adds a default binding of a class, where it has a key.
fn add_default(
    alloc: Global,
    tables: &mut ClassTables,
    class: u32,
    bound: &Bound,
) -> Result<(), NoMemory>
    ensures exact { OnOk result (spec.Grows (explicit.rows_of_default class bound.now)
        tables.old tables.new) }
{
    match key_of_use(alloc, &bound.shape)? {
        None => Ok(()),
        Some(key) => {
            let binding = BindRef::Default;
            tables.add(
                class,
                &key,
                Owned {
                    owner: class,
                    binding,
                },
            )
        }
    }
}

/// Adds the default bindings of a class.
fn add_bounds(
    alloc: Global,
    tables: &mut ClassTables,
    class: u32,
    bounds: &[Bound],
) -> Result<(), NoMemory>
    ensures exact { OnOk result (spec.Grows (explicit.rows_of_bounds class bounds.now)
        tables.old tables.new) }
{
    for bound in bounds {
        add_default(alloc, tables, class, bound)?;
    }
    Ok(())
}

/// The bound arguments of a class.
fn bounds_at(classes: &[Class], class: u32) -> &[Bound]
    ensures exact { result.now ≡ explicit.bounds_at classes.now class }
{
    match classes.get(class as usize) {
        Some(row) => row.bound.as_slice(),
        None => &[],
    }
}

/// Adds the default bindings of Hilt's classes: their bound arguments.
fn add_hilt(alloc: Global, tables: &mut ClassTables, classes: &[Class]) -> Result<(), NoMemory>
    ensures exact { OnOk result (spec.Grows (explicit.rows_of_hilt classes.now 8)
        tables.old tables.new) }
{
    for class in 0..HILT_COUNT {
        add_bounds(alloc, tables, class, bounds_at(classes, class))?;
    }
    Ok(())
}

/// Adds what a class is exposed to.
fn add_entries(tables: &mut ClassTables, class: u32, entries: &[Exposed]) -> Result<(), NoMemory>
    ensures exact { OnOk result (spec.Grows (explicit.rows_of_entries class entries.now)
        tables.old tables.new) }
{
    for exposed in entries {
        let binding = BindRef::Exposed {
            dep: exposed.dep,
            entry: exposed.entry,
        };
        tables.add(
            class,
            &exposed.key,
            Owned {
                owner: class,
                binding,
            },
        )?;
    }
    Ok(())
}

/// What a class is exposed to.
fn entries_at(exposed: &[Items<Exposed>], class: u32) -> &[Exposed]
    ensures exact { result.now ≡ explicit.entries_at exposed.now class }
{
    match exposed.get(class as usize) {
        Some(entries) => entries.as_slice(),
        None => &[],
    }
}

/// Adds what each of these classes is exposed to.
fn add_exposed(
    tables: &mut ClassTables,
    classes: &[u32],
    exposed: &[Items<Exposed>],
) -> Result<(), NoMemory>
    ensures exact { OnOk result (spec.Grows (explicit.rows_of_exposed exposed.now classes.now)
        tables.old tables.new) }
{
    for class in classes {
        add_entries(tables, *class, entries_at(exposed, *class))?;
    }
    Ok(())
}

/// Adds the next bound argument of each of these classes, with this key. As many stand before it as
/// lines of the class.
fn add_arguments(
    tables: &mut ClassTables,
    lines: &NumberTable,
    classes: &[u32],
    key: &Key,
) -> Result<(), NoMemory>
    ensures exact { OnOk result (spec.Grows
        (explicit.rows_of_argument lines.now classes.now key.now) tables.old tables.new) }
{
    for class in classes {
        let Ok(number) = u32::try_from(lines.of(*class).len()) else {
            return Err(NoMemory);
        };
        let binding = BindRef::Arg(number);
        tables.add(
            *class,
            key,
            Owned {
                owner: *class,
                binding,
            },
        )?;
    }
    Ok(())
}

/// The classes in whose block a statement stands.
fn classes_around(headed: &NumberTable, block: Option<u32>) -> &[u32]
    ensures exact { result.now ≡ explicit.classes_around headed.now block }
{
    match block {
        None => &[],
        Some(header) => headed.of(header),
    }
}

/// Adds a statement as the next bound argument of its class, if it is one.
fn add_bound(
    alloc: Global,
    tables: &mut ClassTables,
    lines: &NumberTable,
    classes: &[u32],
    statement: &Statement,
) -> Result<(), NoMemory>
    ensures exact { OnOk result (spec.Grows
        (explicit.rows_of_bound lines.now classes.now (explicit.key_of_line statement.now))
        tables.old tables.new) }
{
    let Item::BindsInstance { result, .. } = statement.item else {
        return Ok(());
    };
    match key_of_use(alloc, result)? {
        None => Ok(()),
        Some(key) => add_arguments(tables, lines, classes, &key),
    }
}

/// The classes of which a statement is a bound argument.
fn classes_of_line<'t>(headed: &'t NumberTable, statement: &Statement) -> &'t [u32]
    ensures exact { result.now ≡ explicit.classes_of_line headed.now statement.now }
{
    match statement.item {
        Item::BindsInstance { .. } => classes_around(headed, statement.block),
        _ => &[],
    }
}

/// The next binding, where it is that of the item of this index.
fn next_at(bindings: &[Bind], place: usize, index: u32) -> Option<&Bind>
    ensures exact { option_copied result ≡ explicit.next_at bindings.now place index }
{
    match bindings.get(place) {
        Some(bind) if bind.item == index => Some(bind),
        _ => None,
    }
}

/// Where the explicit bindings come from: the classes by their headers and by their modules, the
/// members, and what each class is exposed to.
#[derive(Clone, Copy)]
pub struct Sources<'s> {
    pub headed: &'s NumberTable,
    pub installers: &'s NumberTable,
    pub bindings: &'s [Bind],
    pub exposed: &'s [Items<Exposed>],
}

/// Adds the next binding, where it is that of the item of this index. Gives the place of the
/// binding behind it.
fn add_next(
    tables: &mut ClassTables,
    installers: &NumberTable,
    bindings: &[Bind],
    place: usize,
    index: u32,
) -> Result<usize, NoMemory>
    ensures exact { OnOk result (spec.Grows
        (explicit.rows_of_next installers.now (explicit.next_at bindings.now place index))
        tables.old tables.new) }
    ensures place { IfOk result (λ next. next
        ≡ place + length (option_to_list (explicit.next_at bindings.now place index))) }
{
    match next_at(bindings, place, index) {
        None => Ok(place),
        Some(bind) => {
            add_member(tables, installers, Wanted::Explicit, bind)?;
            Ok(place + 1)
        }
    }
}

/// Adds what a statement binds.
fn add_statement(
    alloc: Global,
    tables: &mut ClassTables,
    lines: &NumberTable,
    sources: Sources,
    place: usize,
    statement: &Statement,
) -> Result<usize, NoMemory>
    ensures exact { OnOk result (spec.Grows
        (explicit.rows_of_statement sources.entry.headed.now sources.entry.installers.now lines.now
        sources.entry.bindings.now sources.entry.exposed.now place statement.now)
        tables.old tables.new) }
    ensures place { IfOk result (λ next. next ≡ place
        + length (option_to_list (explicit.next_at sources.entry.bindings.now place statement.now.index))) }
{
    add_exposed(tables, sources.headed.of(statement.index), sources.exposed)?;
    let classes = classes_of_line(sources.headed, statement);
    add_bound(alloc, tables, lines, classes, statement)?;
    add_next(
        tables,
        sources.installers,
        sources.bindings,
        place,
        statement.index,
    )
}

/// The explicit bindings of all classes: the default bindings, and then those of each statement.
pub fn explicit(
    alloc: Global,
    names: &Names,
    classes: &[Class],
    sources: Sources,
) -> Result<ClassTables, NoMemory>
    requires bounded { IsBounded names.now }
    requires classes { classes.now ≡ component_classes names.now }
    requires headed { members.AreHeaders names.now sources.headed.now }
    requires installers { members.AreInstallers names.now sources.installers.now }
    requires bindings { sources.bindings.now ≡ lookup.bindings names.now }
    requires exposed { sources.exposed.now ≡ exposed_by_class names.now }
    ensures exact { IfOk result (λ made. known.HaveExplicit names.now made) }
{
    let mut made = ClassTables::new(alloc, names.class_count())?;
    add_hilt(alloc, &mut made, classes)?;
    let mut lines = NumberTable::new(alloc);
    let mut place = 0;
    let statements = names.statements();
    for statement in statements {
        place = add_statement(alloc, &mut made, &lines, sources, place, statement)?;
        lines.add_under(classes_of_line(sources.headed, statement), statement.index)?;
    }
    Ok(made)
}
