//! The components that components depend on: the stage of dependencies, and what is exposed. Beside
//! these, which instances are opened before a line.
#![tactic(auto)]

mod below;
mod classes;
mod depending;
mod exposing;
mod instances;
mod line;
mod link_fault;
mod link_rules;
mod linking;
mod named;
mod opened;
mod tie;
mod tied;
mod ties;

pub use depending::depends;
pub use exposing::exposed;
pub use instances::Instances;
pub use line::at_line;
pub use link_fault::LinkFault;
pub use linking::links;
pub use opened::{class_of_instance, class_opened, opened_before};
