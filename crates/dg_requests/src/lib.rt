//! What requests are given: over contents that others keep, the plan and the world of a document, and
//! an evaluation at the depth below.
#![tactic(auto)]

mod below;
mod calls;
mod cells;
mod context;
mod failing;
mod giving;
mod layers;
mod stop;

pub use below::{Below, Deeper};
pub use calls::{End, awaited, got};
pub use cells::Cells;
pub use context::{Target, bound_value, is_cell, producer_behind, slot_in, target_at};
pub use failing::{failed, mistyped};
pub use giving::{give, given};
pub use layers::{InScope, content, held, inside_lazy, instance, look};
pub use stop::Stop;
