//! The evaluator: what a slot or an ask comes to, over contents that others keep.
#![tactic(auto)]

mod asks;
mod laws;
mod multi;
mod outcome;
mod slots;
mod values;

pub use asks::eval_ask;
pub use laws::evaluation_ends;
pub use outcome::Outcome;
pub use slots::eval_slot;
