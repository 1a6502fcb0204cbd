// Why an overlay of contours is refused.
ghost use Rattle.std.specs.Prelude.{◌≡◌};

use overlay_base::segm::fault::Fault;
use overlay_base::segm::shape_type::ShapeType;
use thiserror::Error;

/// Why an overlay of contours was refused.
#[derive(Clone, Copy, Debug, PartialEq, Eq, Error)]
pub enum ContourFault {
    /// A point lies outside the engine's coordinates, from `MIN_COORD` to `MAX_COORD`.
    #[error("a point is out of range")]
    OutOfRange {
        /// The shape that has the point.
        shape_type: ShapeType,
        /// The index of its contour.
        contour: usize,
        /// The index of the point in it.
        point: usize,
    },
    /// A growth was refused, or a sum of winding counts left its range.
    #[error("{0}")]
    Refused(Fault),
}

impl From<Fault> for ContourFault {
    ghost use Rattle.overlay_contours.specs.declared.fault.ContourFault.TheVariants.{Refused};

    ghost from_gives = { λ fault refused. refused ≡ Refused fault };

    fn from(fault: Fault) -> ContourFault {
        ContourFault::Refused(fault)
    }
}
