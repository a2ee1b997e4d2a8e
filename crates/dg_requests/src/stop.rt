//! Why an evaluation gives no value.

ghost use Rattle.std.specs.Prelude.{◌≡◌};
ghost use Rattle.dg_requests.specs.declared.stop.Stop.TheVariants as stop;

use dg_types::NoMemory;
use dg_value::Failure;
use std::alloc::{AllocError, AllocFailed};

/// Why an evaluation gave no value.
#[derive(Drop)]
pub enum Stop {
    /// A body failed.
    Failed(Failure),
    NoMemory,
}

impl From<NoMemory> for Stop {
    ghost from_gives = { λ _ e. e ≡ stop.NoMemory };

    fn from(_: NoMemory) -> Stop {
        Stop::NoMemory
    }
}

impl From<AllocError> for Stop {
    ghost from_gives = { λ _ e. e ≡ stop.NoMemory };

    fn from(_: AllocError) -> Stop {
        Stop::NoMemory
    }
}

impl<T: Drop> From<AllocFailed<T>> for Stop {
    ghost from_gives = { λ _ e. e ≡ stop.NoMemory };

    fn from(_: AllocFailed<T>) -> Stop {
        Stop::NoMemory
    }
}
