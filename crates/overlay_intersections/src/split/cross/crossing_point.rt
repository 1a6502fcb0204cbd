// Where two segments cross: the exact point, as two offsets from the target's first end, and the point with whole
// coordinates that it is rounded to. Upstream: `cross_point` of `split::cross_solver`.
ghost use Rattle.std.specs.Prelude.{◌≡◌, ◌||◌, ◌≤◌, ◌*◌, ◌+ℤ◌, unsigned_abs, IsTrue};
ghost use Rattle.overlay_geometry.specs.Coordinates.{is_coordinate, greatest_product, is_point_in_range};
ghost use Rattle.overlay_geometry.specs.Points.{is_vertical, is_horizontal, moved};
ghost use Rattle.overlay_geometry.specs.Meeting.{do_cross};
ghost use Rattle.overlay_geometry.specs.PointOf.{point_of};
ghost use Rattle.overlay_geometry.specs.PairOf.{pair_of};
ghost use Rattle.overlay_geometry.specs.InRange.{IsPointInRange, IsPairInRange};
ghost use Rattle.overlay_intersections.specs.Crossing.{crossing_n, crossing_d, offset_x, offset_y, is_on_lines, snapping_point, settling_point};
ghost use Rattle.overlay_intersections.specs.steps.OffsetOf.{quotient_of};

use crate::split::cross::offset::Offset;
use overlay_geometry::geom::point::IntPoint;
use overlay_geometry::geom::triangle::Triangle;
use overlay_geometry::geom::vector::IntVector;
use overlay_geometry::geom::x_segment::XSegment;
use overlay_geometry::num::OverlayInt;

/// The point with whole coordinates at which a snapping pass places a crossing: each offset to nearest, halves away
/// from the target's first end; of a target along an axis truncated toward that end. The two have to be in range and
/// to cross strictly inside both. The point lies in the boxes of both.
pub fn snapping_point<I: OverlayInt>(target: &XSegment<I>, other: &XSegment<I>) -> IntPoint<I>
    requires target { IsPairInRange I.whole I.MIN_COORD I.MAX_COORD target.now }
    requires other { IsPairInRange I.whole I.MIN_COORD I.MAX_COORD other.now }
    requires crossing { IsTrue (do_cross (pair_of I.whole target.now) (pair_of I.whole other.now)) }
    ensures point { point_of I.whole result ≡ snapping_point (pair_of I.whole target.now) (pair_of I.whole other.now) }
    ensures in_range { IsPointInRange I.whole I.MIN_COORD I.MAX_COORD result }
{
    let (x, y) = offsets(target, other);
    if is_along_axis(target) {
        moved(target.a, x.truncated(), y.truncated())
    } else {
        moved(target.a, x.nearest(), y.nearest())
    }
}

/// The point with whole coordinates at which a settling pass places a crossing: each coordinate to nearest, halves
/// upward. It is the same whichever of the two is the target. The two have to be in range and to cross strictly inside
/// both. The point lies in the boxes of both.
pub fn settling_point<I: OverlayInt>(target: &XSegment<I>, other: &XSegment<I>) -> IntPoint<I>
    requires target { IsPairInRange I.whole I.MIN_COORD I.MAX_COORD target.now }
    requires other { IsPairInRange I.whole I.MIN_COORD I.MAX_COORD other.now }
    requires crossing { IsTrue (do_cross (pair_of I.whole target.now) (pair_of I.whole other.now)) }
    ensures point { point_of I.whole result ≡ settling_point (pair_of I.whole target.now) (pair_of I.whole other.now) }
    ensures in_range { IsPointInRange I.whole I.MIN_COORD I.MAX_COORD result }
{
    let (x, y) = offsets(target, other);
    moved(target.a, x.nearest_upward(), y.nearest_upward())
}

/// Whether the point lies on the lines of both.
pub fn is_on_lines<I: OverlayInt>(
    target: &XSegment<I>,
    other: &XSegment<I>,
    point: IntPoint<I>,
) -> bool
    requires target { IsPairInRange I.whole I.MIN_COORD I.MAX_COORD target.now }
    requires other { IsPairInRange I.whole I.MIN_COORD I.MAX_COORD other.now }
    requires point { IsPointInRange I.whole I.MIN_COORD I.MAX_COORD point }
    ensures { result ≡ is_on_lines (pair_of I.whole target.now) (pair_of I.whole other.now) (point_of I.whole point) }
{
    Triangle::is_line(target.a, target.b, point) && Triangle::is_line(other.a, other.b, point)
}

/// Whether a segment is vertical or horizontal.
fn is_along_axis<I: OverlayInt>(segment: &XSegment<I>) -> bool
    ensures { result ≡ (is_vertical (pair_of I.whole segment.now) || is_horizontal (pair_of I.whole segment.now)) }
{
    segment.a.x == segment.b.x || segment.a.y == segment.b.y
}

/// How far the exact crossing point lies from the target's first end.
fn offsets<I: OverlayInt>(target: &XSegment<I>, other: &XSegment<I>) -> (Offset, Offset)
    requires target { IsPairInRange I.whole I.MIN_COORD I.MAX_COORD target.now }
    requires other { IsPairInRange I.whole I.MIN_COORD I.MAX_COORD other.now }
    requires crossing { IsTrue (do_cross (pair_of I.whole target.now) (pair_of I.whole other.now)) }
    ensures x { quotient_of result.0 ≡ offset_x (pair_of I.whole target.now) (pair_of I.whole other.now) }
    ensures y { quotient_of result.1 ≡ offset_y (pair_of I.whole target.now) (pair_of I.whole other.now) }
{
    let along = IntVector::between(target.a, target.b);
    let n = crossing_n(target, other);
    let d = crossing_d(target, other);
    (Offset::new(along.x(), n, d), Offset::new(along.y(), n, d))
}

/// The exact crossing point lies `n / d` of the way along the target.
fn crossing_n<I: OverlayInt>(target: &XSegment<I>, other: &XSegment<I>) -> i64
    requires target { IsPairInRange I.whole I.MIN_COORD I.MAX_COORD target.now }
    requires other { IsPairInRange I.whole I.MIN_COORD I.MAX_COORD other.now }
    ensures value { result ≡ crossing_n (pair_of I.whole target.now) (pair_of I.whole other.now) }
    ensures bound { unsigned_abs result ≤ 2 * greatest_product }
{
    IntVector::between(target.a, other.a).cross_product(IntVector::between(target.a, other.b))
}

/// The cross product of two segments: the denominator of their crossing point.
fn crossing_d<I: OverlayInt>(target: &XSegment<I>, other: &XSegment<I>) -> i64
    requires target { IsPairInRange I.whole I.MIN_COORD I.MAX_COORD target.now }
    requires other { IsPairInRange I.whole I.MIN_COORD I.MAX_COORD other.now }
    ensures value { result ≡ crossing_d (pair_of I.whole target.now) (pair_of I.whole other.now) }
    ensures bound { unsigned_abs result ≤ 2 * greatest_product }
{
    IntVector::between(target.a, target.b).cross_product(IntVector::between(other.a, other.b))
}

/// The point so far from another.
fn moved<I: OverlayInt>(from: IntPoint<I>, x: i128, y: i128) -> IntPoint<I>
    requires from { IsPointInRange I.whole I.MIN_COORD I.MAX_COORD from }
    requires to { IsTrue (is_point_in_range (I.whole I.MIN_COORD) (I.whole I.MAX_COORD)
        (moved (record { x = x; y = y }) (point_of I.whole from))) }
    ensures { point_of I.whole result ≡ moved (record { x = x; y = y }) (point_of I.whole from) }
{
    IntPoint::new(coordinate(from.x, x), coordinate(from.y, y))
}

/// A coordinate so far from another.
fn coordinate<I: OverlayInt>(from: I, by: i128) -> I
    requires from { IsTrue (is_coordinate (I.whole I.MIN_COORD) (I.whole I.MAX_COORD) (I.whole from)) }
    requires to { IsTrue (is_coordinate (I.whole I.MIN_COORD) (I.whole I.MAX_COORD) (I.whole from +ℤ by)) }
    ensures { I.whole result ≡ I.whole from +ℤ by }
{
    I::from_wide((from.to_wide() as i128 + by) as i64)
}
