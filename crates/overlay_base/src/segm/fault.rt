// Why a call is refused. Upstream aborts where memory is refused, and lets sums of counts overflow.
ghost use Rattle.std.specs.Prelude.{◌≡◌};
ghost use Rattle.overlay_base.specs.declared.segm.fault.Fault.TheVariants.{Memory};

use std::alloc::{AllocError, AllocFailed};
use thiserror::Error;

/// Why a call was refused. There is no other refusal in the engine.
#[derive(Clone, Copy, Debug, PartialEq, Eq, Error)]
pub enum Fault {
    /// A growth was refused by the allocator.
    #[error("out of memory")]
    Memory,
    /// A sum of winding counts left the range `-i32::MAX..=i32::MAX`.
    #[error("count out of range")]
    CountOutOfRange,
}

impl From<AllocError> for Fault {
    ghost from_gives = { λ _ fault. fault ≡ Memory };

    fn from(_error: AllocError) -> Fault {
        Fault::Memory
    }
}

impl<T: Drop> From<AllocFailed<T>> for Fault {
    ghost from_gives = { λ _ fault. fault ≡ Memory };

    fn from(_error: AllocFailed<T>) -> Fault {
        Fault::Memory
    }
}
