// The result that settles two segments that cross, without a radius: at the settling point, which
// may be an end of one of them. This project's own; upstream only snaps.
ghost use Rattle.std.specs.Prelude.{◌≡◌, IsTrue};
ghost use Rattle.overlay_geometry.specs.Points.{is_end};
ghost use Rattle.overlay_geometry.specs.Meeting.{do_cross};
ghost use Rattle.overlay_geometry.specs.PointOf.{point_of};
ghost use Rattle.overlay_geometry.specs.PairOf.{pair_of};
ghost use Rattle.overlay_geometry.specs.InRange.{IsPairInRange};
ghost use Rattle.overlay_intersections.specs.Marks.{settling};
ghost use Rattle.overlay_intersections.specs.CrossAnswer.{kind_of_point};
ghost use Rattle.overlay_intersections.specs.AnswerOf.{kind_of, IsCrossingAnswer};

use crate::split::cross::crossing_point::{is_on_lines, settling_point};
use crate::split::cross::result::{CrossResult, CrossType};
use overlay_geometry::geom::point::IntPoint;
use overlay_geometry::geom::x_segment::XSegment;
use overlay_geometry::num::OverlayInt;

/// The result for two segments that cross strictly inside both.
#[inline(never)]
pub fn settled<I: OverlayInt>(target: &XSegment<I>, other: &XSegment<I>) -> CrossResult<I>
    requires target { IsPairInRange I.whole I.MIN_COORD I.MAX_COORD target.now }
    requires other { IsPairInRange I.whole I.MIN_COORD I.MAX_COORD other.now }
    requires crossing { IsTrue (do_cross (pair_of I.whole target.now) (pair_of I.whole other.now)) }
    ensures { IsCrossingAnswer I.whole settling target.now other.now result }
{
    let point = settling_point(target, other);
    CrossResult {
        point,
        cross_type: kind_of_point(target, other, point),
        is_round: !is_on_lines(target, other, point),
    }
}

/// Which segment has a crossing point as an end: the target, else the other, or none.
#[tactic(auto, unfolding(crate::specs::CrossAnswer::kind_of_point))]
fn kind_of_point<I: OverlayInt>(
    target: &XSegment<I>,
    other: &XSegment<I>,
    point: IntPoint<I>,
) -> CrossType
    ensures { kind_of result ≡ kind_of_point (pair_of I.whole target.now) (pair_of I.whole other.now)
        (point_of I.whole point) }
{
    if is_end(target, point) {
        CrossType::TargetEnd
    } else if is_end(other, point) {
        CrossType::OtherEnd
    } else {
        CrossType::Pure
    }
}

/// Whether a point is an end of a segment.
fn is_end<I: OverlayInt>(segment: &XSegment<I>, point: IntPoint<I>) -> bool
    ensures { result ≡ is_end (pair_of I.whole segment.now) (point_of I.whole point) }
{
    point == segment.a || point == segment.b
}
