//! What a component class finds for a key.
#![tactic(auto)]

mod along;
mod chains;
mod classes;
mod explicit;
mod keys;
mod lookups;
mod members;
mod single;
mod table;
mod tables;

pub use dg_decl::{BindRef, Found, Owned};
pub use lookups::Lookups;
pub use single::find;
