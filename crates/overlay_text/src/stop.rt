// Why a run stops before its end, with the text and the exit status of each reason.
ghost use Rattle.std.specs.Prelude.{◌≡◌};
ghost use Rattle.overlay_text.specs.Status.{status_of};
ghost use Rattle.overlay_text.specs.declared.stop.Stop.TheVariants.{Refused};
ghost use Rattle.overlay_base.specs.declared.segm.fault.Fault.TheVariants.{Memory};

use overlay_base::segm::fault::Fault;
use std::alloc::{AllocError, AllocFailed};
use thiserror::Error;

/// What is wrong with a line, in the order of the tests.
#[derive(Clone, Copy, Debug, PartialEq, Eq, Error)]
pub enum LineFault {
    /// The line is no letter and four numbers.
    #[error("form")]
    Form,
    /// A number lies outside the engine's coordinates.
    #[error("range")]
    Range,
    /// Both ends are one point.
    #[error("equal ends")]
    EqualEnds,
}

/// Why a run stops.
#[derive(Clone, Copy, Debug, PartialEq, Eq, Error)]
pub enum Stop {
    /// The words after the program's name choose nothing that the program does.
    #[error("usage")]
    Usage,
    /// A crossing is wanted, and the lines are not two.
    #[error("cross needs two segments")]
    NotTwoSegments,
    /// Contours are wanted without a rule that chooses them.
    #[error("polygons needs a rule other than all")]
    NoRule,
    /// Lines are numbered from 1, empty ones too.
    #[error("line {number}: {fault}")]
    Line { number: usize, fault: LineFault },
    /// A relation is wanted, and two edges of the subject cross at a point without integer coordinates.
    #[error("two edges of the subject cross at a point without integer coordinates")]
    SubjectNotExact,
    /// The same of the clip, and not of the subject.
    #[error("two edges of the clip cross at a point without integer coordinates")]
    ClipNotExact,
    /// The engine, or the allocator, refused.
    #[error("{0}")]
    Refused(Fault),
    #[error("input failed")]
    Input,
    #[error("output failed")]
    Output,
}

impl From<Fault> for Stop {
    ghost from_gives = { λ fault stop. stop ≡ Refused fault };

    fn from(fault: Fault) -> Stop {
        Stop::Refused(fault)
    }
}

impl From<AllocError> for Stop {
    ghost from_gives = { λ _ stop. stop ≡ Refused Memory };

    fn from(_error: AllocError) -> Stop {
        Stop::Refused(Fault::Memory)
    }
}

impl<T: Drop> From<AllocFailed<T>> for Stop {
    ghost from_gives = { λ _ stop. stop ≡ Refused Memory };

    fn from(_error: AllocFailed<T>) -> Stop {
        Stop::Refused(Fault::Memory)
    }
}

impl Stop {
    /// The exit status of the run.
    pub fn status(self) -> u8
        ensures { result ≡ status_of self }
    {
        match self {
            Stop::Usage | Stop::NotTwoSegments | Stop::NoRule => 2,
            Stop::Line { .. } => 3,
            Stop::SubjectNotExact | Stop::ClipNotExact | Stop::Refused(_) => 4,
            Stop::Input | Stop::Output => 5,
        }
    }
}
