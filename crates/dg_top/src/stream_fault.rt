//! Why a text isn't written to its end.

ghost use Rattle.std.specs.Prelude.{◌≡◌};
ghost use Rattle.dg_top.specs.declared.stream_fault.StreamFault.TheVariants as fault;

use dg_io::Failed;
use dg_types::NoMemory;
use std::alloc::AllocError;

/// Why a text that is made and written piece by piece isn't written to its end.
#[derive(Clone, Copy, Debug, PartialEq, Eq)]
pub enum StreamFault {
    /// The sink failed.
    Failed,
    /// There was no memory.
    NoMemory,
}

impl From<Failed> for StreamFault {
    ghost from_gives = { λ _ e. e ≡ fault.Failed };

    fn from(_: Failed) -> StreamFault {
        StreamFault::Failed
    }
}

impl From<NoMemory> for StreamFault {
    ghost from_gives = { λ _ e. e ≡ fault.NoMemory };

    fn from(_: NoMemory) -> StreamFault {
        StreamFault::NoMemory
    }
}

impl From<AllocError> for StreamFault {
    ghost from_gives = { λ _ e. e ≡ fault.NoMemory };

    fn from(_: AllocError) -> StreamFault {
        StreamFault::NoMemory
    }
}
