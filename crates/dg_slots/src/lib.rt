//! Plans and sessions: what a run needs of a document, by number.
#![tactic(auto)]

mod body;
mod document;
mod plan;
mod session;

pub use body::{NCond, NExpr, NTree};
pub use document::OfDoc;
pub use plan::{Body, CellKind, Input, Plan, Slot};
pub use session::{Ask, Inst, PathStep, Session};
