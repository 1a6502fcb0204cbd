// Why a split within a limit is refused. This project's own.
ghost use Rattle.std.specs.Prelude.{◌≡◌};

use overlay_base::segm::fault::Fault;
use thiserror::Error;

/// Why a split within a limit was refused.
#[derive(Clone, Copy, Debug, PartialEq, Eq, Error)]
pub enum SplitFault {
    /// A growth was refused, or a sum of winding counts left its range.
    #[error("{0}")]
    Refused(Fault),
    /// The given list has more segments than the limit, or those of a pass would fall into more pieces.
    #[error("too many segments")]
    TooManySegments,
}

impl From<Fault> for SplitFault {
    ghost use Rattle.overlay_split.specs.declared.split.fault.SplitFault.TheVariants.{Refused};

    ghost from_gives = { λ fault refused. refused ≡ Refused fault };

    fn from(fault: Fault) -> SplitFault {
        SplitFault::Refused(fault)
    }
}
