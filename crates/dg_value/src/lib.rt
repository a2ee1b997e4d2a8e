//! Values, the places that name objects, sets of values, and what becomes of an ask.
#![tactic(auto)]

mod build;
mod contents;
mod laws;
mod place;
mod set;
mod shared;
mod value;

pub use build::{Build, Call};
pub use contents::{Contents, Known};
pub use laws::places_tell_equal;
pub use place::{Place, PlaceRoot, PlaceStep, Steps, same_place};
pub use set::{add_element, look, same_element};
pub use shared::Shared;
pub use value::{Failure, Kept, Reply, Value};

#[cfg(test)]
mod tests;
