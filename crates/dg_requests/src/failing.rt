//! The failures of bodies.

ghost use Rattle.std.specs.Prelude.{◌≡◌};
ghost use Rattle.dg_eval.specs.Runs as runs;
ghost use Rattle.dg_requests.specs.Results.{Gave};

use crate::stop::Stop;
use dg_types::Text;
use dg_value::{Failure, Shared};
use std::alloc::Global;

/// The failure of the body of a slot with this message.
pub fn failed<A>(alloc: Global, origin: u32, message: &[u8]) -> Result<A, Stop>
    ensures exact { Gave (runs.failed {A = A} origin message.now) result }
{
    let message = Shared::new(alloc, Text::from_slice(alloc, message)?)?;
    Err(Stop::Failed(Failure { origin, message }))
}

/// The failure where a part of a value isn't there, as in no accepted document.
pub fn mistyped<A>(alloc: Global) -> Result<A, Stop>
    ensures exact { Gave (runs.mistyped {A = A}) result }
{
    failed(alloc, 0, &[])
}
