//! The `open` and `ask` lines of a document by number, and the stage of the session.
#![tactic(auto)]

mod arguments;
mod asks;
mod entries;
mod entry_table;
mod fault;
mod insts;
mod numbered;
mod opened;
mod paths;
mod rules;
mod scene;
mod sessions;

pub use fault::SessionFault;
pub use numbered::{Numbers, numbered_cond, numbered_expr, numbered_tree};
pub use sessions::session;
