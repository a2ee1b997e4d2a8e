//! What an accepted document promises of its asks, of its cells and of its objects.
#![tactic(auto)]

mod promises;
mod replies;
mod uses;

pub use promises::{identities_differ, one_content_for_each_producer, one_value_for_each_instance};
pub use replies::{held_are_used, replies_are_whole};
pub use uses::{asks_are_answered, uses_end};
