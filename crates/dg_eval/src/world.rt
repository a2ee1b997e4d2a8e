use dg_value::Value;
use sqlite_items::Items;

/// The opened instances of a document, by number: what evaluation needs to know of them. Each list
/// has one entry for each instance, in the order of the `open` lines.
#[derive(Drop)]
pub struct World {
    /// The number of the instance in which it was opened.
    pub parent: Items<Option<u32>>,
    /// The number of its component class.
    pub class: Items<u32>,
    /// The values of its arguments, in the order of `Class::bound`.
    pub bound: Items<Items<Value>>,
    /// The numbers of the instances to which `link` lines tie it, by dependency of its class.
    pub deps: Items<Items<u32>>,
}
