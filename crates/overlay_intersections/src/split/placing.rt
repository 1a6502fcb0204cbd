// How a pass places the crossings that have no whole coordinates. The settling passes are this project's own.
ghost use Rattle.std.specs.Prelude.{◌≢◌, IsTrue};
ghost use Rattle.overlay_geometry.specs.Meeting.{do_cross};
ghost use Rattle.overlay_geometry.specs.PairOf.{pair_of};
ghost use Rattle.overlay_geometry.specs.InRange.{IsPairInRange};
ghost use Rattle.overlay_intersections.specs.AnswerOf.{IsCrossAnswer, IsCrossingAnswer};
ghost use Rattle.overlay_intersections.specs.PlacingOf.{placing_of, HasRadius};

use crate::split::cross::settled::settled;
use crate::split::cross::snapped::snapped;
use crate::split::cross_solver::{CrossResult, CrossSolver};
use overlay_geometry::geom::x_segment::XSegment;
use overlay_geometry::num::OverlayInt;

/// Where a pass marks a crossing that has no whole coordinates.
#[derive(Clone, Copy, Debug, PartialEq, Eq)]
pub enum Placing {
    /// At the nearest end within this squared radius, else at the snapping point: `CrossSolver::cross`.
    Snapping { radius_squared: i64 },
    /// At the settling point: `CrossSolver::cross_settled`.
    Settling,
}

impl Placing {
    /// Where a target meets another segment in a pass that places crossings so. Both have to be in range, the ends of
    /// each apart, and a squared radius at least 1.
    pub fn meet<I: OverlayInt>(
        self,
        target: &XSegment<I>,
        other: &XSegment<I>,
    ) -> Option<CrossResult<I>>
        requires radius { HasRadius self }
        requires target { IsPairInRange I.whole I.MIN_COORD I.MAX_COORD target.now }
        requires other { IsPairInRange I.whole I.MIN_COORD I.MAX_COORD other.now }
        requires target_apart { (pair_of I.whole target.now).a ≢ (pair_of I.whole target.now).b }
        requires other_apart { (pair_of I.whole other.now).a ≢ (pair_of I.whole other.now).b }
        ensures { IsCrossAnswer I.whole (placing_of self) target.now other.now result }
    {
        match self {
            Placing::Snapping { radius_squared } => CrossSolver::cross(
                target,
                other,
                radius_squared,
            ),
            Placing::Settling => CrossSolver::cross_settled(target, other),
        }
    }

    /// Where a target meets another segment that crosses it strictly inside both. Both have to be in range, and a
    /// squared radius at least 1.
    #[inline(always)]
    pub(crate) fn place<I: OverlayInt>(
        self,
        target: &XSegment<I>,
        other: &XSegment<I>,
    ) -> CrossResult<I>
        requires radius { HasRadius self }
        requires target { IsPairInRange I.whole I.MIN_COORD I.MAX_COORD target.now }
        requires other { IsPairInRange I.whole I.MIN_COORD I.MAX_COORD other.now }
        requires crossing { IsTrue (do_cross (pair_of I.whole target.now) (pair_of I.whole other.now)) }
        ensures { IsCrossingAnswer I.whole (placing_of self) target.now other.now result }
    {
        match self {
            Placing::Snapping { radius_squared } => snapped(target, other, radius_squared),
            Placing::Settling => settled(target, other),
        }
    }
}
