// The result that snaps two segments that cross: the crossing itself, the nearest end within the
// radius, or the snapping point. Upstream: `middle_cross` of `split::cross_solver`.
ghost use Rattle.std.specs.Prelude.{◌≡◌, ◌≤ℤ◌, pos, unsigned_abs, true, IsTrue, IsFalse, Some};
ghost use Rattle.overlay_geometry.specs.Meeting.{do_cross};
ghost use Rattle.overlay_geometry.specs.PointOf.{point_of};
ghost use Rattle.overlay_geometry.specs.PairOf.{pair_of};
ghost use Rattle.overlay_geometry.specs.InRange.{IsPointInRange, IsPairInRange};
ghost use Rattle.overlay_intersections.specs.Crossing.{snapping_point, is_on_lines};
ghost use Rattle.overlay_intersections.specs.Marks.{snapping};
ghost use Rattle.overlay_intersections.specs.CrossAnswer.{crossing_answer};
ghost use Rattle.overlay_intersections.specs.AnswerOf.{result_of, IsCrossingAnswer};
ghost use Rattle.overlay_intersections.specs.steps.NearerEnd.{IsNearerEnd};

use crate::split::cross::crossing_point::{is_on_lines, snapping_point};
use crate::split::cross::result::{CrossResult, CrossType};
use overlay_geometry::geom::point::IntPoint;
use overlay_geometry::geom::x_segment::XSegment;
use overlay_geometry::num::OverlayInt;

/// The nearer end of a segment, and its squared distance.
#[derive(Clone, Copy)]
struct NearerEnd<I> {
    point: IntPoint<I>,
    distance: i64,
}

/// The result for two segments that cross strictly inside both.
#[inline(never)]
pub fn snapped<I: OverlayInt>(
    target: &XSegment<I>,
    other: &XSegment<I>,
    radius_squared: i64,
) -> CrossResult<I>
    requires target { IsPairInRange I.whole I.MIN_COORD I.MAX_COORD target.now }
    requires other { IsPairInRange I.whole I.MIN_COORD I.MAX_COORD other.now }
    requires crossing { IsTrue (do_cross (pair_of I.whole target.now) (pair_of I.whole other.now)) }
    requires radius { pos 0 ≤ℤ radius_squared }
    ensures { IsCrossingAnswer I.whole (snapping (unsigned_abs radius_squared)) target.now other.now result }
{
    let point = snapping_point(target, other);
    if is_on_lines(target, other, point) {
        CrossResult {
            point,
            cross_type: CrossType::Pure,
            is_round: false,
        }
    } else {
        snapped_to_end(target, other, point, radius_squared)
    }
}

/// The nearest of the four ends where it lies within the radius, else the snapping point. An end never lies on the
/// other's line here.
fn snapped_to_end<I: OverlayInt>(
    target: &XSegment<I>,
    other: &XSegment<I>,
    point: IntPoint<I>,
    radius_squared: i64,
) -> CrossResult<I>
    requires target { IsPairInRange I.whole I.MIN_COORD I.MAX_COORD target.now }
    requires other { IsPairInRange I.whole I.MIN_COORD I.MAX_COORD other.now }
    requires point { IsPointInRange I.whole I.MIN_COORD I.MAX_COORD point }
    requires crossing { IsTrue (do_cross (pair_of I.whole target.now) (pair_of I.whole other.now)) }
    requires placed { point_of I.whole point ≡ snapping_point (pair_of I.whole target.now) (pair_of I.whole other.now) }
    requires off { IsFalse (is_on_lines (pair_of I.whole target.now) (pair_of I.whole other.now)
        (point_of I.whole point)) }
    requires radius { pos 0 ≤ℤ radius_squared }
    ensures { crossing_answer (snapping (unsigned_abs radius_squared)) (pair_of I.whole target.now)
        (pair_of I.whole other.now) ≡ Some (result_of I.whole result) }
{
    let target_end = nearer_end(target, point);
    let other_end = nearer_end(other, point);
    if radius_squared < target_end.distance.min(other_end.distance) {
        rounded(point, CrossType::Pure)
    } else if target_end.distance <= other_end.distance {
        rounded(target_end.point, CrossType::TargetEnd)
    } else {
        rounded(other_end.point, CrossType::OtherEnd)
    }
}

/// A crossing at a point that was rounded.
fn rounded<I: OverlayInt>(point: IntPoint<I>, cross_type: CrossType) -> CrossResult<I>
    ensures { result ≡ record { point = point; cross_type = cross_type; is_round = true } }
{
    CrossResult {
        point,
        cross_type,
        is_round: true,
    }
}

/// The end of the segment that is nearer to the point; `b` where both are as near.
fn nearer_end<I: OverlayInt>(segment: &XSegment<I>, point: IntPoint<I>) -> NearerEnd<I>
    requires segment { IsPairInRange I.whole I.MIN_COORD I.MAX_COORD segment.now }
    requires point { IsPointInRange I.whole I.MIN_COORD I.MAX_COORD point }
    ensures { IsNearerEnd I.whole (point_of I.whole point) (pair_of I.whole segment.now) result }
{
    let a = segment.a.sqr_distance(point);
    let b = segment.b.sqr_distance(point);
    if a < b {
        NearerEnd {
            point: segment.a,
            distance: a,
        }
    } else {
        NearerEnd {
            point: segment.b,
            distance: b,
        }
    }
}
