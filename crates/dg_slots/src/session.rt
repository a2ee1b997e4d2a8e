use crate::body::NExpr;
use dg_types::MapKeyVal;
use sqlite_items::Items;

/// An opened instance of a component class.
#[derive(Drop)]
pub struct Inst {
    /// The number of its class.
    pub class: u32,
    /// The number of the instance that its `open` line names behind `in`.
    pub parent: Option<u32>,
    /// Its arguments, in the order of `Class::bound`.
    pub bound: Items<NExpr>,
}

/// A step of an ask, by number.
#[derive(Drop)]
pub enum PathStep {
    /// A field of an object, counted from 0.
    Field(u32),
    /// What a Provider or a Lazy gives.
    Get,
    /// The entry of a map with this key.
    At(MapKeyVal),
    /// What is inside an optional.
    Inside,
}

/// An ask of an entry point.
#[derive(Drop)]
pub struct Ask {
    /// The number of the instance.
    pub inst: u32,
    /// The index of the entry point in `Class::entries`, counted from 0.
    pub entry: u32,
    pub steps: Items<PathStep>,
}

/// The `open` lines and the `ask` lines of a document, each in order; the numbers of instances
/// count from 0.
#[derive(Drop)]
pub struct Session {
    pub insts: Items<Inst>,
    pub asks: Items<Ask>,
}
