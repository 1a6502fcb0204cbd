// Why a relation of two shapes is refused.
ghost use Rattle.std.specs.Prelude.{◌≡◌};

use overlay_base::segm::fault::Fault;
use overlay_base::segm::shape_type::ShapeType;
use overlay_contours::fault::ContourFault;
use thiserror::Error;

/// Why a relation of two shapes was refused.
#[derive(Clone, Copy, Debug, PartialEq, Eq, Error)]
pub enum RelationFault {
    /// Two edges of this shape cross at a point without integer coordinates.
    #[error("two edges of a shape cross at a point without integer coordinates")]
    NotExact(ShapeType),
    /// A point is out of range, a growth was refused, or a sum of winding counts left its range.
    #[error("{0}")]
    Refused(ContourFault),
}

impl From<ContourFault> for RelationFault {
    ghost use Rattle.overlay_relations.specs.declared.fault.RelationFault.TheVariants.{Refused};

    ghost from_gives = { λ fault refused. refused ≡ Refused fault };

    fn from(fault: ContourFault) -> RelationFault {
        RelationFault::Refused(fault)
    }
}

impl From<Fault> for RelationFault {
    ghost use Rattle.overlay_contours.specs.declared.fault.ContourFault.TheVariants.{Refused as RefusedContours};
    ghost use Rattle.overlay_relations.specs.declared.fault.RelationFault.TheVariants.{Refused};

    ghost from_gives = { λ fault refused. refused ≡ Refused (RefusedContours fault) };

    fn from(fault: Fault) -> RelationFault {
        RelationFault::Refused(ContourFault::Refused(fault))
    }
}
