//! The items of a document that is being read.

ghost use Rattle.std.specs.Prelude.{◌≡◌, [], ◌∷◌, ◌++◌, OnOk, OnErr};
ghost use Rattle.std.specs.Option.{option_copied};
ghost use Rattle.dg_decl.specs.Blocks as blocks;
ghost use Rattle.dg_decl.specs.Document as document;
ghost use Rattle.dg_decl.specs.Reading as reading;

use crate::counts::Counts;
use dg_decl::Item;
use dg_types::NoMemory;
use std::alloc::Global;
use std::marker::Model;

/// The items of a document so far. Contracts see the list of them.
#[derive(Drop)]
pub struct Draft {
    items: Vec<Item>,
    /// The index of the header of the open block, where one is open.
    header: Option<usize>,
    counts: Counts,
}

impl Model for Draft {
    ghost use Rattle.std.specs.Prelude.{List};
    ghost use Rattle.std.specs.Coded.{codes};
    ghost use Rattle.dg_decl.specs.contracts.item.Item as item;
    ghost use Rattle.dg_decl.specs.declared.item.Item.{Item};

    ghost Value = { List Item };

    ghost coded = { Prim.hlevel (codes, item.the_row.coded) };

    ghost use Rattle.dg_reader.specs.Drafts.{IsDraft};

    ghost view = { λ d. d.items.items };

    ghost invariant = { λ d. IsDraft d.items.items d.header d.counts };
}

fn is_in_module(header: Option<&Item>) -> bool
    ensures exact { result ≡ blocks.is_in_module (option_copied header.entry) }
{
    matches!(header, Some(Item::Module { .. } | Item::TestModule { .. }))
}

fn is_in_component(header: Option<&Item>) -> bool
    ensures exact { result ≡ blocks.is_in_component (option_copied header.entry) }
{
    matches!(header, Some(Item::Component { .. }))
}

fn is_in_defined(header: Option<&Item>) -> bool
    ensures exact { result ≡ blocks.is_in_defined (option_copied header.entry) }
{
    matches!(header, Some(Item::DefineComponent { .. }))
}

fn is_in_entry_point(header: Option<&Item>) -> bool
    ensures exact { result ≡ blocks.is_in_entry_point (option_copied header.entry) }
{
    matches!(header, Some(Item::EntryPoint { .. }))
}

/// Whether an item may stand in the block with this header, or outside blocks where there is none.
fn may_stand(header: Option<&Item>, item: &Item) -> bool
    ensures exact { result ≡ blocks.may_stand (option_copied header.entry) item.now }
{
    match item {
        Item::Provides { .. }
        | Item::Binds { .. }
        | Item::Produces { .. }
        | Item::OptionalOf { .. }
        | Item::Multibinds { .. } => is_in_module(header),
        Item::BindsInstance { .. } => is_in_component(header) || is_in_defined(header),
        Item::DependsOn { .. } => is_in_component(header),
        Item::Entry { .. } => is_in_component(header) || is_in_entry_point(header),
        Item::End => header.is_some(),
        _ => header.is_none(),
    }
}

/// The index of the header of the block that is open behind an item of this index.
fn open_behind(header: Option<usize>, index: usize, item: &Item) -> Option<usize>
    ensures exact { result ≡ document.open_behind header index item.now }
{
    if item.is_header() {
        Some(index)
    } else if item.is_end() {
        None
    } else {
        header
    }
}

impl Draft {
    /// A draft without items.
    pub fn new(alloc: Global) -> Draft
        ensures exact { result ≡ [] }
    {
        Draft {
            items: Vec::new(alloc),
            header: None,
            counts: Counts::none(),
        }
    }

    /// The header of the block that is open.
    pub fn open_block(&self) -> Option<&Item>
        ensures exact { option_copied result ≡ blocks.open_block self.now }
    {
        match self.header {
            Some(index) => self.items.as_slice().get(index),
            None => None,
        }
    }

    /// Whether an item may stand behind those of the draft.
    #[tactic(auto, unfolding(dg_decl::specs::Reading::may_follow))]
    pub fn may_follow(&self, item: &Item) -> bool
        ensures exact { result ≡ reading.may_follow item.now self.now }
    {
        may_stand(self.open_block(), item) && self.counts.is_within_limits(item)
    }

    /// Adds an item at the end. After an `Err` the draft is as it was before.
    pub fn push(&mut self, item: Item) -> Result<(), NoMemory>
        ensures exact { OnOk result (self.new ≡ self.old ++ item ∷ []) }
        ensures lent { OnErr result (self.new ≡ self.old) }
    {
        let counts = self.counts.with(&item);
        let header = open_behind(self.header, self.items.len(), &item);
        self.items.push(item)?;
        self.counts = counts;
        self.header = header;
        Ok(())
    }

    /// Gives the items back. It takes no memory.
    pub fn into_items(self) -> Vec<Item>
        ensures exact { result.items ≡ self }
    {
        let Draft {
            items,
            header: _,
            counts: _,
        } = self;
        items
    }
}
