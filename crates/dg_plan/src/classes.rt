//! The numbers of the classes that a document declares, by line.

ghost use Rattle.std.specs.Prelude.{◌≡◌, ◌<◌, ◌≤◌, ◌+◌, ◌-◌, ◌^◌, IfOk, length, option_and_then, slice_get};
ghost use Rattle.dg_decl.specs.Names as declared;
ghost use Rattle.dg_plan.specs.Classes.{class_here, classes_from};
ghost use Rattle.dg_session.specs.Numbers.{number_behind};
ghost use Rattle.dg_slots.specs.Numbered.{number_of_class_item};

use dg_decl::Item;
use dg_names::{Names, Statement};
use dg_session::Numbers;
use dg_types::NoMemory;
use std::alloc::Global;
use std::marker::Model;

/// The numbers of the classes of a document by name, and by the statement that declares one.
/// Contracts see the document.
#[derive(Drop)]
pub struct Numbering<'n, 'a> {
    numbers: Numbers<'n, 'a>,
    /// By the index of a statement, the number of the class that it declares.
    classes: Vec<Option<u32>>,
}

impl<'n, 'a> Model for Numbering<'n, 'a> {
    ghost use Rattle.std.specs.Coded.{codes};
    ghost use Rattle.dg_decl.specs.contracts.document.Doc as code;
    ghost use Rattle.dg_decl.specs.declared.document.Doc.{Doc};
    ghost use Rattle.dg_plan.specs.Classes.{AreClasses};

    ghost Value = { Doc };

    ghost coded = { Prim.hlevel (codes, code.the_row.coded) };

    ghost view = { λ n. n.numbers };

    ghost invariant = { λ n. AreClasses n.numbers n.classes.items };
}

/// Whether the item is a class.
fn is_class(item: &Item) -> bool
    ensures exact { result ≡ declared.is_class item.now }
{
    matches!(item, Item::Class { .. })
}

/// The number of the class that a statement declares, where the next class has this number.
fn number_here(number: u32, s: &Statement<'_>) -> Option<u32>
    ensures exact { result ≡ class_here number s.now }
{
    if is_class(s.item) { Some(number) } else { None }
}

/// The number of the next class, behind a statement.
fn next_number(number: u32, s: &Statement<'_>) -> u32
    requires small { number < 2 ^ 32 - 1 }
    ensures exact { result ≡ number_behind number s.now }
    ensures bound { result ≤ number + 1 }
{
    if is_class(s.item) { number + 1 } else { number }
}

/// The number of the class that each of some statements declares.
fn classes_of(alloc: Global, statements: &[Statement<'_>]) -> Result<Vec<Option<u32>>, NoMemory>
    requires few { length statements.now < 2 ^ 31 }
    ensures exact { IfOk result (λ classes. classes.items ≡ classes_from 6 statements.now) }
{
    let mut classes = Vec::with_capacity(alloc, statements.len())?;
    let mut number = 6;
    for s in statements {
        classes.push(number_here(number, s))?;
        number = next_number(number, s);
    }
    Ok(classes)
}

/// The number at an index, where there is one.
fn number_at(classes: &[Option<u32>], index: u32) -> Option<u32>
    ensures exact { result ≡ option_and_then (λ c. c) (slice_get classes.now index) }
{
    match classes.get(index as usize) {
        Some(class) => *class,
        None => None,
    }
}

impl<'n, 'a> Numbering<'n, 'a> {
    /// From the names that a document declares.
    pub fn of(alloc: Global, names: &'n Names<'a>) -> Result<Numbering<'n, 'a>, NoMemory>
        ensures exact { IfOk result (λ numbering. numbering ≡ names.now) }
    {
        let classes = classes_of(alloc, names.statements())?;
        let numbers = Numbers::of(alloc, names)?;
        Ok(Numbering { numbers, classes })
    }

    /// The numbers of the classes by name.
    pub fn numbers(&self) -> &Numbers<'n, 'a>
        ensures exact { result.now ≡ self.now }
    {
        &self.numbers
    }

    /// The number of the class that the item of this index declares.
    pub fn of_class_item(&self, index: u32) -> Option<u32>
        ensures exact { result ≡ number_of_class_item self.now index }
    {
        number_at(self.classes.as_slice(), index)
    }
}
