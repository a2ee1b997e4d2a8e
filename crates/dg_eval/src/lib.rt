//! What an evaluation gives, and what an ask comes to.
#![tactic(auto)]

mod laws;
mod world;

pub use laws::{
    evaluation_is_total, inputs_lead_to_slots, lazy_places, more_depth_changes_nothing,
};
pub use world::World;
