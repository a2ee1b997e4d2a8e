//! The numbers of instances.

ghost use Rattle.std.specs.Prelude.{◌≡◌, ◌<◌, ◌≤◌, ◌+◌, ◌^◌, IfOk, length, slice_get};
ghost use Rattle.dg_decl.specs.Limits as limits;
ghost use Rattle.dg_compdep.specs.Ties as spec;
ghost use Rattle.dg_slots.specs.Sessions as sessions;

use crate::opened::opened_before;
use dg_decl::Item;
use dg_names::{Names, Statement};
use dg_types::NoMemory;
use std::alloc::Global;
use std::marker::Model;

/// The numbers of the instances that a document opens. Contracts see the document.
#[derive(Drop)]
pub struct Instances<'n, 'a> {
    names: &'n Names<'a>,
    /// By the index of a statement, how many instances are opened before it.
    numbers: Vec<u32>,
}

impl<'n, 'a> Model for Instances<'n, 'a> {
    ghost use Rattle.std.specs.Coded.{codes};
    ghost use Rattle.dg_decl.specs.contracts.document.Doc as code;
    ghost use Rattle.dg_decl.specs.declared.document.Doc.{Doc};
    ghost use Rattle.dg_compdep.specs.Ties.{AreNumbers};

    ghost Value = { Doc };

    ghost coded = { Prim.hlevel (codes, code.the_row.coded) };

    ghost view = { λ i. i.names.now };

    ghost invariant = { λ i. AreNumbers i.names.now i.numbers.items };
}

/// Whether the item is an `open` line.
pub(crate) fn is_open_line(item: &Item) -> bool
    ensures exact { result ≡ limits.is_open_line item.now }
{
    matches!(item, Item::OpenLine { .. })
}

/// How many instances are opened up to a statement.
fn number_behind(number: u32, s: &Statement<'_>) -> u32
    requires small { number < 2 ^ 31 }
    ensures exact { result ≡ spec.number_behind number s.now }
    ensures bound { result ≤ number + 1 }
{
    if is_open_line(s.item) {
        number + 1
    } else {
        number
    }
}

/// How many instances are opened before each statement.
fn numbers_of(alloc: Global, statements: &[Statement<'_>]) -> Result<Vec<u32>, NoMemory>
    requires few { length statements.now < 2 ^ 31 }
    ensures exact { IfOk result (λ numbers. numbers.items ≡ spec.numbers_from 0 statements.now) }
{
    let mut numbers = Vec::with_capacity(alloc, statements.len())?;
    let mut number = 0;
    for s in statements {
        numbers.push(number)?;
        number = number_behind(number, s);
    }
    Ok(numbers)
}

/// The number at an index.
fn number_at(numbers: &[u32], index: u32) -> Option<u32>
    ensures exact { result ≡ slice_get numbers.now index }
{
    numbers.get(index as usize).copied()
}

impl<'n, 'a> Instances<'n, 'a> {
    /// The instances of a document.
    pub fn of(alloc: Global, names: &'n Names<'a>) -> Result<Instances<'n, 'a>, NoMemory>
        ensures exact { IfOk result (λ instances. instances ≡ names.now) }
    {
        let numbers = numbers_of(alloc, names.statements())?;
        Ok(Instances { names, numbers })
    }

    /// The number of the instance of this name that is opened before a statement.
    #[tactic(auto, unfolding(dg_slots::specs::Sessions::instance_before))]
    pub fn before(&self, s: &Statement<'_>, name: &[u8]) -> Option<u32>
        ensures exact { result ≡ sessions.instance_before self.now s.now name.now }
    {
        match opened_before(self.names, s, name) {
            Some(line) => number_at(self.numbers.as_slice(), line.index),
            None => None,
        }
    }
}
