//! What holds in every document that breaks no rule.
#![tactic(auto)]

mod laws;

pub use laws::accepted_documents_are_sound;
