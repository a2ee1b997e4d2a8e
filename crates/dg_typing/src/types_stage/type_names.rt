//! The names of a document, with a table of the interfaces that its classes list.

ghost use Rattle.std.specs.Prelude.{◌≡◌, ◌<◌, ◌^◌, length, IfOk, OnOk};
ghost use Rattle.dg_lex.specs.Bytes.{is_among};
ghost use Rattle.dg_decl.specs.Bounds.{IsBounded};
ghost use Rattle.dg_decl.specs.Typing.{interfaces_in, interfaces_of};
ghost use Rattle.dg_typing.specs.TypesListed.{AddsListings, HasListings};

use dg_decl::{Doc, Item};
use dg_names::Names;
use dg_types::{Name, NoMemory};
use indexmap::IndexSet;
use std::alloc::Global;
use std::marker::Model;

/// An interface that a class lists.
#[derive(Clone, Copy, PartialEq, Eq, Hash)]
struct Listing<'a> {
    /// The index of the class item.
    class: u32,
    interface: &'a [u8],
}

/// The names of a document, with a table of the interfaces that its classes list. Contracts see the
/// document. To look an interface of a class up takes the time of hashing two names, as a rule.
#[derive(Drop)]
pub struct TypeNames<'a> {
    names: Names<'a>,
    listed: IndexSet<Listing<'a>>,
}

impl<'a> Model for TypeNames<'a> {
    ghost use Rattle.std.specs.Coded.{codes};
    ghost use Rattle.dg_decl.specs.contracts.document.Doc as code;
    ghost use Rattle.dg_decl.specs.declared.document.Doc.{Doc};
    ghost use Rattle.dg_typing.specs.TypesListed.{HasListings};

    ghost Value = { Doc };

    ghost coded = { Prim.hlevel (codes, code.the_row.coded) };

    ghost view = { λ n. n.names };

    ghost invariant = { λ n. HasListings n.names.items n.listed.keys };
}

/// Notes the interfaces that the class item of an index lists.
fn note_interfaces<'a>(
    class: u32,
    interfaces: &'a [Name],
    listed: &mut IndexSet<Listing<'a>>,
) -> Result<(), NoMemory>
    ensures exact { OnOk result
        (AddsListings class interfaces.now listed.old.keys listed.new.keys) }
{
    for interface in interfaces {
        let listing = Listing {
            class,
            interface: interface.as_slice(),
        };
        listed.insert(listing)?;
    }
    Ok(())
}

/// Notes the interfaces that the item of an index lists.
fn note_item<'a>(
    index: u32,
    item: &'a Item,
    listed: &mut IndexSet<Listing<'a>>,
) -> Result<(), NoMemory>
    ensures exact { OnOk result
        (AddsListings index (interfaces_in item.now) listed.old.keys listed.new.keys) }
{
    match item {
        Item::Class { interfaces, .. } => note_interfaces(index, interfaces.as_slice(), listed),
        _ => Ok(()),
    }
}

/// The interfaces that the class items among some items list.
fn listed_by<'a>(alloc: Global, items: &'a [Item]) -> Result<IndexSet<Listing<'a>>, NoMemory>
    requires few { length items.now < 2 ^ 31 }
    ensures exact { IfOk result (λ listed. HasListings items.now listed.keys) }
{
    let mut listed = IndexSet::new(alloc);
    for (place, item) in items.iter().enumerate() {
        note_item(place as u32, item, &mut listed)?;
    }
    Ok(listed)
}

impl<'a> TypeNames<'a> {
    /// The tables of a document. Time and memory grow with its items.
    pub fn of(alloc: Global, d: &'a Doc) -> Result<TypeNames<'a>, NoMemory>
        requires bounded { IsBounded d.now }
        ensures exact { IfOk result (λ names. names ≡ d.now) }
    {
        let names = Names::of(alloc, d)?;
        let listed = listed_by(alloc, d.items.as_slice())?;
        Ok(TypeNames { names, listed })
    }

    /// The names of the document.
    pub fn names(&self) -> &Names<'a>
        ensures exact { result.now ≡ self.now }
    {
        &self.names
    }

    /// Whether the interfaces that a class lists have this one.
    pub fn lists(&self, class: &[u8], interface: &[u8]) -> bool
        ensures exact { result ≡ is_among interface.now (interfaces_of self.now class.now) }
    {
        match self.names.class_item_named(class) {
            Some(class) => self.listed.contains(&Listing { class, interface }),
            None => false,
        }
    }
}
