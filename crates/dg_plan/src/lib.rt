//! What an accepted document evaluates, by number, and how that is written.
#![tactic(auto)]

mod bodies;
mod cells;
mod classes;
mod inputs;
mod levels;
mod numbers;
mod planning;
mod text;

pub use planning::plan;
pub use text::plan_text;
