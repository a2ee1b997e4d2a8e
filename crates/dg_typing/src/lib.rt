//! The stages of names and of types.
#![tactic(auto)]

mod names_stage;
mod types_stage;
mod violation;

pub use names_stage::names;
pub use types_stage::{
    Fields, Given, TypeNames, checks, class_of, fields_of, got, inside_param, type_by_name,
    type_of_field, type_of_param, types,
};
