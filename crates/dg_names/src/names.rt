ghost use Rattle.std.specs.Prelude.{◌≡◌, ◌≤◌, ◌+◌, ◌<◌, ◌==◌, IfOk, IfSome, length, option_map, option_and_then, option_copied, slice_get};
ghost use Rattle.std.specs.List.{find as find_first, position};
ghost use Rattle.dg_decl.specs.Bounds.{IsBounded};
ghost use Rattle.dg_decl.specs.Components as components;
ghost use Rattle.dg_decl.specs.Document as document;
ghost use Rattle.dg_decl.specs.Names as names;
ghost use Rattle.dg_decl.specs.Stages.Names.{instance_name};

use crate::noted::{component_headers, instance_names, outer_names, statements_of};
use crate::statement::Statement;
use crate::table::NameTable;
use dg_decl::{Doc, Item};
use dg_hilt::{class_of, number};
use dg_types::NoMemory;
use std::alloc::Global;
use std::marker::Model;

/// How many component classes Hilt has.
const HILT_COUNT: u32 = 8;

/// The statements of a document, with tables of the names that they declare. Contracts see the
/// document. To look a name up takes the time of hashing it, as a rule.
#[derive(Drop)]
pub struct Names<'a> {
    doc: &'a Doc,
    statements: Vec<Statement<'a>>,
    /// The names that statements declare outside blocks, but for those that are predefined.
    outer: NameTable,
    /// The names of the instances that `open` lines open.
    opened: NameTable,
    /// The indices of the headers of the component classes that the document declares.
    headers: Vec<u32>,
}

impl<'a> Model for Names<'a> {
    ghost use Rattle.std.specs.Coded.{codes};
    ghost use Rattle.dg_decl.specs.contracts.expression.Expr as expr;
    ghost use Rattle.dg_decl.specs.contracts.expression.Tree as tree;
    ghost use Rattle.dg_decl.specs.declared.document.Doc.{Doc};
    ghost use Rattle.dg_names.specs.Known.{AreTables};
    ghost use Rattle.dg_types.specs.contracts.shape.Shape as shape;

    ghost Value = { Doc };

    ghost coded = { Prim.hlevel (
      codes,
      shape.the_row.coded,
      expr.the_row.coded,
      tree.the_row.coded,
    ) };

    ghost view = { λ n. n.doc.now };

    ghost invariant = { λ n. AreTables n.doc.now n.statements.items n.outer n.opened n.headers.items };
}

/// Whether the item is the header of a module.
fn is_module(item: &Item) -> bool
    ensures exact { result ≡ names.is_module item.now }
{
    matches!(item, Item::Module { .. } | Item::TestModule { .. })
}

/// Whether the item is a class.
fn is_class(item: &Item) -> bool
    ensures exact { result ≡ names.is_class item.now }
{
    matches!(item, Item::Class { .. })
}

/// The place of a number in a list.
fn place_in(numbers: &[u32], number: u32) -> Option<usize>
    ensures exact { result ≡ position (λ n. n == number) numbers.now }
    ensures bound { IfSome result (λ place. place < length numbers.now) }
{
    numbers.iter().position(|n| *n == number)
}

/// The number of the class of which the statement of this index is the header, where the headers
/// of the classes that a document declares have these indices.
fn number_in(headers: &[u32], index: u32) -> Option<u32>
    requires few { length headers.now ≤ 120 }
    ensures exact { result ≡ option_map (λ k. 8 + k) (position (λ h. h == index) headers.now) }
{
    match place_in(headers, index) {
        Some(place) => Some(HILT_COUNT + place as u32),
        None => None,
    }
}

/// The index of the header at a place.
fn header_in(headers: &[u32], place: u32) -> Option<u32>
    ensures exact { result ≡ slice_get headers.now place }
{
    headers.get(place as usize).copied()
}

impl<'a> Names<'a> {
    /// The tables of a document. Time and memory grow with its items.
    pub fn of(alloc: Global, doc: &'a Doc) -> Result<Names<'a>, NoMemory>
        requires bounded { IsBounded doc.now }
        ensures exact { IfOk result (λ names. names ≡ doc.now) }
    {
        let statements = statements_of(alloc, doc)?;
        let outer = outer_names(alloc, statements.as_slice())?;
        let opened = instance_names(alloc, statements.as_slice())?;
        let headers = component_headers(alloc, statements.as_slice())?;
        Ok(Names {
            doc,
            statements,
            outer,
            opened,
            headers,
        })
    }

    /// The document.
    pub fn doc(&self) -> &'a Doc
        ensures exact { result.now ≡ self.now }
        ensures bounded { IsBounded self.now }
    {
        self.doc
    }

    /// Its statements, in order: the statement of each item at the item's index.
    pub fn statements(&self) -> &[Statement<'a>]
        ensures exact { result.now ≡ document.statements self.now }
        ensures bounded { IsBounded self.now }
    {
        self.statements.as_slice()
    }

    /// The statement of this index, if there is one.
    pub fn statement(&self, index: u32) -> Option<&Statement<'a>>
        ensures exact { option_copied result ≡ slice_get (document.statements self.now) index }
    {
        self.statements.get(index as usize)
    }

    /// The index of the first statement that declares a name outside blocks. A predefined name is
    /// declared by none.
    pub fn declared(&self, name: &[u8]) -> Option<u32>
        ensures exact { result ≡ option_map (λ s. s.index) (names.declared self.now name.now) }
    {
        self.outer.index_of(name)
    }

    /// The first statement that declares a name outside blocks. A predefined name is declared by
    /// none.
    pub fn declaration(&self, name: &[u8]) -> Option<&Statement<'a>>
        ensures exact { option_copied result ≡ names.declared self.now name.now }
    {
        match self.declared(name) {
            Some(index) => self.statement(index),
            None => None,
        }
    }

    /// The index of the module of this name, or of the test module.
    #[tactic(auto, unfolding(dg_decl::specs::Names::module_named))]
    pub fn module_named(&self, name: &[u8]) -> Option<u32>
        ensures exact { result ≡ names.module_named self.now name.now }
    {
        match self.declaration(name) {
            Some(statement) if is_module(statement.item) => Some(statement.index),
            _ => None,
        }
    }

    /// The index of the `class` item of this name.
    #[tactic(auto, unfolding(dg_decl::specs::Names::class_item_named))]
    pub fn class_item_named(&self, name: &[u8]) -> Option<u32>
        ensures exact { result ≡ names.class_item_named self.now name.now }
    {
        match self.declaration(name) {
            Some(statement) if is_class(statement.item) => Some(statement.index),
            _ => None,
        }
    }

    /// How many component classes there are, Hilt's eight included.
    pub fn class_count(&self) -> u32
        ensures exact { result ≡ components.class_count self.now }
    {
        HILT_COUNT + self.headers.as_slice().len() as u32
    }

    /// The number of the component class of this name, one of Hilt's or one that the document
    /// declares.
    pub fn class_named(&self, name: &[u8]) -> Option<u32>
        ensures exact { result ≡ components.class_named self.now name.now }
    {
        match class_of(name) {
            Some(class) => Some(number(class)),
            None => self.declared_class(name),
        }
    }

    /// The number of the component class of which the statement of this index is the header.
    pub fn number_of_header(&self, index: u32) -> Option<u32>
        ensures exact { result ≡ option_and_then (components.number_of_header self.now)
            (slice_get (document.statements self.now) index) }
    {
        match self.statement(index) {
            Some(_) => number_in(self.headers.as_slice(), index),
            None => None,
        }
    }

    /// The index of the header of a component class; Hilt's have none.
    pub fn header_of(&self, class: u32) -> Option<u32>
        ensures exact { result ≡ option_map (λ h. h.index) (components.header_of self.now class) }
    {
        if class < HILT_COUNT {
            return None;
        }
        header_in(self.headers.as_slice(), class - HILT_COUNT)
    }

    /// The number of the component class that the document declares under this name.
    fn declared_class(&self, name: &[u8]) -> Option<u32>
        ensures exact { result ≡ option_and_then (components.number_of_header self.now)
            (names.declared self.now name.now) }
    {
        match self.declared(name) {
            Some(index) => self.number_of_header(index),
            None => None,
        }
    }

    /// The index of the first `open` line that opens an instance of this name.
    pub fn opened(&self, name: &[u8]) -> Option<u32>
        ensures exact { result ≡ option_map (λ s. s.index)
            (find_first (names.is_called instance_name name.now) (document.statements self.now)) }
    {
        self.opened.index_of(name)
    }
}
