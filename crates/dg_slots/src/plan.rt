use crate::body::NTree;
use dg_types::{MapKeyVal, Mode, Text};
use sqlite_items::Items;

/// Whether the value of a slot is kept.
#[derive(Clone, Copy, PartialEq, Eq)]
pub enum CellKind {
    /// It is made anew at each request.
    Plain,
    /// A scoped binding: it is made once for each instance of its class.
    Scoped,
    /// A `produces` line: it runs at most once for each instance of its class.
    Producing,
}

/// What a slot takes from another one.
#[derive(Clone, Copy)]
pub struct Input {
    pub mode: Mode,
    /// The number of the other slot.
    pub slot: u32,
    /// How many parents up the other slot's instance is.
    pub level: u32,
    /// The index of a dependency of the instance's class, counted from 0: then the other slot's
    /// instance is on the chain of that dependency's instance, and `level` counts from there.
    pub dep: Option<u32>,
}

/// What the value of a slot is made of.
#[derive(Drop)]
pub enum Body {
    /// A body, or the construction of an object of an `@Inject` class, over the inputs by number.
    Run(NTree),
    /// A set of the inputs; a flag tells which of them give elements.
    Set(Items<bool>),
    /// A map of the inputs, with the key of each.
    Map(Items<MapKeyVal>),
    /// An optional, present or absent.
    Opt(bool),
    /// The bound argument of this index in `Class::bound`, counted from 0.
    Arg(u32),
    /// The one request of an entry point.
    EntryOf,
}

/// A node of the graph, as it is evaluated.
#[derive(Drop)]
pub struct Slot {
    /// The number of the component class that owns it.
    pub class: u32,
    /// How the node is named in diagnostics, without its class.
    pub name: Text,
    pub cell: CellKind,
    pub inputs: Items<Input>,
    pub body: Body,
}

/// What an accepted document evaluates, by number: the slots in the order of the graph's nodes, and
/// for each component class the slots of its entry points in the order of `Class::entries`.
#[derive(Drop)]
pub struct Plan {
    pub slots: Items<Slot>,
    pub entries: Items<Items<u32>>,
}
