//! The objects that appeared.

ghost use Rattle.std.specs.Prelude.{◌≡◌, []};

use crate::packed::Packed;
use indexmap::IndexSet;
use std::alloc::Global;
use std::marker::Model;

/// The objects that appeared in the replies so far, in order: the number of an object is its place
/// among them, counted from 1. Contracts see the list of their identities. An identity takes a byte
/// for each step, and four more for one whose number is 32 or larger, besides what is the same for
/// each. To find one takes the time of hashing its identity, as a rule.
#[derive(Drop)]
pub struct Numbers {
    pub(crate) places: IndexSet<Packed>,
}

impl Model for Numbers {
    ghost use Rattle.std.specs.Prelude.{List};
    ghost use Rattle.dg_value.specs.declared.place.Place.{Place as place_type};

    ghost Value = { List place_type };

    ghost view = { λ n. n.places.keys };
}

impl Numbers {
    /// No object has appeared. It takes no memory.
    pub fn new(alloc: Global) -> Numbers
        ensures exact { result ≡ [] }
    {
        Numbers {
            places: IndexSet::new(alloc),
        }
    }
}
