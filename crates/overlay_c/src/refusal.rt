// Why a call is refused, and the code that C gets.
ghost use Rattle.std.specs.Prelude.{◌≡◌};
ghost use Rattle.overlay_base.specs.declared.segm.fault.Fault.TheVariants.{Memory};
ghost use Rattle.overlay_c.specs.declared.refusal.Refusal.TheVariants.{Refused};
ghost use Rattle.overlay_c.specs.Status.{refusal_of, status_of};

use overlay_base::segm::fault::Fault;
use overlay_contours::fault::ContourFault;
use std::alloc::AllocError;

/// Why a call was refused.
#[derive(Clone, Copy, Debug, PartialEq, Eq)]
pub enum Refusal {
    /// The engine refused.
    Refused(Fault),
    /// A segment has equal ends, a coordinate out of range, or a count that is empty or `i32::MIN`.
    NotSplittable,
    /// A point of a contour is out of range.
    OutOfRange,
}

impl From<Fault> for Refusal {
    ghost from_gives = { λ fault refusal. refusal ≡ Refused fault };

    fn from(fault: Fault) -> Refusal {
        Refusal::Refused(fault)
    }
}

impl From<ContourFault> for Refusal {
    ghost from_gives = { λ fault refusal. refusal ≡ refusal_of fault };

    fn from(fault: ContourFault) -> Refusal {
        match fault {
            ContourFault::OutOfRange { .. } => Refusal::OutOfRange,
            ContourFault::Refused(fault) => Refusal::Refused(fault),
        }
    }
}

impl From<AllocError> for Refusal {
    ghost from_gives = { λ _ refusal. refusal ≡ Refused Memory };

    fn from(_error: AllocError) -> Refusal {
        Refusal::Refused(Fault::Memory)
    }
}

/// The code of an outcome: 0 where it is done, 1 for memory, 2 for a count out of range, 3 for segments that may not be
/// split, 4 for a contour with a point out of range.
pub fn status(outcome: Result<(), Refusal>) -> u8
    ensures { result ≡ status_of outcome }
{
    match outcome {
        Ok(()) => 0,
        Err(Refusal::Refused(Fault::Memory)) => 1,
        Err(Refusal::Refused(Fault::CountOutOfRange)) => 2,
        Err(Refusal::NotSplittable) => 3,
        Err(Refusal::OutOfRange) => 4,
    }
}
