//! How the replies of a run are written.
#![tactic(auto)]

mod classes;
mod numbers;
mod output;
mod packed;
mod replies;
mod values;

pub use classes::ClassNames;
pub use numbers::Numbers;
pub use replies::reply_text;
