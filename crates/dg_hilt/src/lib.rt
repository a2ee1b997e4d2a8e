//! Hilt's components, their scopes and their default bindings.
#![tactic(auto)]

mod class;
mod laws;
mod names;

pub use class::{
    HiltClass, HiltDefault, class_at, class_name, class_of, default_class, default_of, number,
    parent, scope_name,
};
pub use laws::{names_are_distinct, parents_come_first};
pub use names::{is_predefined, is_scope_name};

#[cfg(test)]
mod tests;
