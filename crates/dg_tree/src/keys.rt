//! What contents are stored by, and how it is noted that one was asked for.

use dg_value::Place;

/// A cell: a slot in an instance, by their numbers.
#[derive(Clone, Copy, PartialEq, Eq, Hash)]
pub(crate) struct CellKey {
    pub(crate) inst: u32,
    pub(crate) slot: u32,
}

/// A Lazy of a slot in an instance, by the place at which it was made.
#[derive(Drop, PartialEq, Eq, Hash)]
pub(crate) struct LazyKey {
    pub(crate) inst: u32,
    pub(crate) slot: u32,
    pub(crate) place: Place,
}

/// What was asked for: a cell, or the Lazy of this index in the table.
#[derive(Clone, Copy)]
pub(crate) enum Noted {
    Cell { inst: u32, slot: u32 },
    Lazy(usize),
}
