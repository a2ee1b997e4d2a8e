use dg_types::{Key, Name, TypeUse};
use sqlite_items::Items;

/// A value that whoever opens an instance of a component hands in, after Dagger's bound instances:
/// by the name of its argument, with its type.
#[derive(Drop)]
pub struct Bound {
    pub name: Name,
    pub shape: TypeUse,
}

/// A component class: one of Hilt's eight, or one that the document declares.
#[derive(Drop)]
pub struct Class {
    pub name: Name,
    /// The number of the class whose subcomponent it is.
    pub parent: Option<u32>,
    pub scopes: Items<Name>,
    /// The indices of the items that are the modules installed in it, in order.
    pub modules: Items<u32>,
    /// Its `bindsInstance` lines in order; of one of Hilt's classes its default binding.
    pub bound: Items<Bound>,
    /// The indices of its entry points' items, in order.
    pub entries: Items<u32>,
    /// The numbers of the classes that its `dependsOn` lines name, in order.
    pub deps: Items<u32>,
}

/// The component classes, by number: Hilt's eight, and then those that the document declares, in
/// order.
#[derive(Drop)]
pub struct CompTree {
    pub classes: Items<Class>,
}

/// An entry point of a component that another one depends on, as a binding of the latter.
#[derive(Drop)]
pub struct Exposed {
    /// The index of the class in `deps` of the class that depends on it, counted from 0.
    pub dep: u32,
    /// The index of the entry point's item.
    pub entry: u32,
    pub key: Key,
}
