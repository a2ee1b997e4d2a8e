//! The component classes of a document, and the stage of components.
#![tactic(auto)]

mod building;
mod class_set;
mod class_table;
mod classes;
mod entries;
mod fault;
mod headers;
mod modules;
mod parents;
mod rows;
mod scopes;
mod stage;
mod stage_tables;

pub use building::tree;
pub use dg_decl::{Bound, Class, CompTree, Exposed};
pub use fault::TreeFault;
