//! Diagnostics as they are written, a line each.
#![tactic(auto)]

mod head;
mod line;

pub use head::head_of;
pub use line::line_of;

#[cfg(test)]
mod tests;
