// Whether a segment meets the pixel of a whole point. This project's own.
ghost use Rattle.std.specs.Prelude.{◌≡◌, ◌&&◌, ◌*◌, ◌≤◌, ◌*ℤ◌, pos, nat_lt, unsigned_abs, IsTrue};
ghost use Rattle.std.specs.Ordering.{int_eq};
ghost use Rattle.overlay_geometry.specs.Points.{is_ordered, is_between, is_end, cross_product, lies_on};
ghost use Rattle.overlay_geometry.specs.PointOf.{point_of};
ghost use Rattle.overlay_geometry.specs.PairOf.{pair_of};
ghost use Rattle.overlay_geometry.specs.VectorOf.{vector_of};
ghost use Rattle.overlay_geometry.specs.Coordinates.{greatest_product};
ghost use Rattle.overlay_geometry.specs.InRange.{IsPointInRange, IsPairInRange};
ghost use Rattle.overlay_snapping.specs.Pixels.{meets_pixel, is_near_line, is_narrow, extent};

use overlay_geometry::geom::point::IntPoint;
use overlay_geometry::geom::triangle::Triangle;
use overlay_geometry::geom::vector::IntVector;
use overlay_geometry::geom::x_segment::XSegment;
use overlay_geometry::num::OverlayInt;

/// Whether some point of the segment lies in the pixel of the given point: whether it is rounded to that point, each
/// coordinate to the nearest whole number, halves upward. Segment and point have to be in range, and the segment's ends
/// in order.
pub fn meets_pixel<I: OverlayInt>(segment: &XSegment<I>, point: IntPoint<I>) -> bool
    requires in_range { IsPairInRange I.whole I.MIN_COORD I.MAX_COORD segment.now }
    requires ordered { IsTrue (is_ordered (pair_of I.whole segment.now)) }
    requires point { IsPointInRange I.whole I.MIN_COORD I.MAX_COORD point }
    ensures { result ≡ meets_pixel (pair_of I.whole segment.now) (point_of I.whole point) }
{
    let way = IntVector::between(segment.a, segment.b);
    let to = IntVector::between(segment.a, point);
    is_in_box(way, to) && is_narrow(way, to)
}

/// Whether the line through the segment meets the pixel of the given point. Segment and point have to be in range.
pub(crate) fn is_near_line<I: OverlayInt>(segment: &XSegment<I>, point: IntPoint<I>) -> bool
    requires in_range { IsPairInRange I.whole I.MIN_COORD I.MAX_COORD segment.now }
    requires point { IsPointInRange I.whole I.MIN_COORD I.MAX_COORD point }
    ensures { result ≡ is_near_line (pair_of I.whole segment.now) (point_of I.whole point) }
{
    let way = IntVector::between(segment.a, segment.b);
    is_narrow(way, IntVector::between(segment.a, point))
}

/// Whether the point lies on the segment, ends included. Both have to be in range.
pub(crate) fn lies_on<I: OverlayInt>(segment: &XSegment<I>, point: IntPoint<I>) -> bool
    requires in_range { IsPairInRange I.whole I.MIN_COORD I.MAX_COORD segment.now }
    requires point { IsPointInRange I.whole I.MIN_COORD I.MAX_COORD point }
    ensures { result ≡ lies_on (pair_of I.whole segment.now) (point_of I.whole point) }
{
    let way = IntVector::between(segment.a, segment.b);
    let to = IntVector::between(segment.a, point);
    Triangle::is_line(segment.a, segment.b, point) && is_in_box(way, to)
}

/// Whether a point is an end of a segment.
pub(crate) fn is_end<I: OverlayInt>(segment: &XSegment<I>, point: IntPoint<I>) -> bool
    ensures { result ≡ is_end (pair_of I.whole segment.now) (point_of I.whole point) }
{
    point == segment.a || point == segment.b
}

/// Whether the second way ends in the box that has the first as a diagonal.
fn is_in_box(way: IntVector, to: IntVector) -> bool
    ensures { result ≡ (is_between (pos 0) (vector_of way).x (vector_of to).x && is_between (pos 0) (vector_of way).y (vector_of to).y) }
{
    is_up_to(way.x(), to.x()) && is_up_to(way.y(), to.y())
}

/// Whether the number lies from 0 to the end, whichever is less.
fn is_up_to(end: i64, number: i64) -> bool
    ensures { result ≡ is_between (pos 0) end number }
{
    end.min(0) <= number && number <= end.max(0)
}

/// Whether a line along the first way meets the pixel of the point at which the second way ends.
fn is_narrow(way: IntVector, to: IntVector) -> bool
    ensures { result ≡ is_narrow (vector_of way) (cross_product (vector_of way) (vector_of to)) }
{
    let turn = way.cross_product(to);
    let extent = extent(way);
    is_half_below(turn, extent) || is_half(turn, extent) && way.y() < 0
}

/// The sum of how far a way goes in x and in y.
pub(crate) fn extent(way: IntVector) -> u64
    ensures { result ≡ extent (vector_of way) }
{
    way.x().unsigned_abs() + way.y().unsigned_abs()
}

/// Whether twice the turn is less than the extent, whatever its sign.
fn is_half_below(turn: i64, extent: u64) -> bool
    requires { unsigned_abs turn ≤ 2 * greatest_product }
    ensures { result ≡ nat_lt (2 * unsigned_abs turn) extent }
{
    2 * turn.unsigned_abs() < extent
}

/// Whether twice the turn is the extent.
fn is_half(turn: i64, extent: u64) -> bool
    requires { unsigned_abs turn ≤ 2 * greatest_product }
    ensures { result ≡ int_eq (pos 2 *ℤ turn) (pos extent) }
{
    turn >= 0 && 2 * turn.unsigned_abs() == extent
}
