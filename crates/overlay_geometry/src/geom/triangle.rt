// On which side of a line a point lies. Upstream: `i_float::triangle`.
ghost use Rattle.std.specs.Prelude.{◌≡◌, pos, int_lt, not};
ghost use Rattle.std.specs.Ordering.{int_eq};
ghost use Rattle.overlay_geometry.specs.Points.{turn};
ghost use Rattle.overlay_geometry.specs.Turns.{clock_order, clock_direction};
ghost use Rattle.overlay_geometry.specs.PointOf.{point_of};
ghost use Rattle.overlay_geometry.specs.InRange.{IsPointInRange};

use crate::geom::point::IntPoint;
use crate::geom::vector::IntVector;
use crate::num::OverlayInt;
use std::cmp::Ordering;

/// The turn of three points: the cross product of the ways from `p` to `q` and from `p` to `r`. It is negative
/// where the three run clockwise, and 0 where they lie on one line. All points have to be in range.
pub struct Triangle;

impl Triangle {
    /// 1 where the three points run clockwise, 0 where they lie on one line, -1 where they run counterclockwise.
    pub fn clock_direction<I: OverlayInt>(p: IntPoint<I>, q: IntPoint<I>, r: IntPoint<I>) -> i64
        requires p { IsPointInRange I.whole I.MIN_COORD I.MAX_COORD p }
        requires q { IsPointInRange I.whole I.MIN_COORD I.MAX_COORD q }
        requires r { IsPointInRange I.whole I.MIN_COORD I.MAX_COORD r }
        ensures { result ≡ clock_direction (point_of I.whole p) (point_of I.whole q) (point_of I.whole r) }
    {
        -turn(p, q, r).signum()
    }

    /// `Less` where the three points run clockwise, `Equal` where they lie on one line, else `Greater`.
    pub fn clock_order<I: OverlayInt>(p: IntPoint<I>, q: IntPoint<I>, r: IntPoint<I>) -> Ordering
        requires p { IsPointInRange I.whole I.MIN_COORD I.MAX_COORD p }
        requires q { IsPointInRange I.whole I.MIN_COORD I.MAX_COORD q }
        requires r { IsPointInRange I.whole I.MIN_COORD I.MAX_COORD r }
        ensures { result ≡ clock_order (point_of I.whole p) (point_of I.whole q) (point_of I.whole r) }
    {
        turn(p, q, r).cmp(&0)
    }

    /// Whether the three points run clockwise.
    pub fn is_clockwise<I: OverlayInt>(p: IntPoint<I>, q: IntPoint<I>, r: IntPoint<I>) -> bool
        requires p { IsPointInRange I.whole I.MIN_COORD I.MAX_COORD p }
        requires q { IsPointInRange I.whole I.MIN_COORD I.MAX_COORD q }
        requires r { IsPointInRange I.whole I.MIN_COORD I.MAX_COORD r }
        ensures { result ≡ int_lt (turn (point_of I.whole p) (point_of I.whole q) (point_of I.whole r)) (pos 0) }
    {
        turn(p, q, r) < 0
    }

    /// Whether the three points lie on one line.
    pub fn is_line<I: OverlayInt>(p: IntPoint<I>, q: IntPoint<I>, r: IntPoint<I>) -> bool
        requires p { IsPointInRange I.whole I.MIN_COORD I.MAX_COORD p }
        requires q { IsPointInRange I.whole I.MIN_COORD I.MAX_COORD q }
        requires r { IsPointInRange I.whole I.MIN_COORD I.MAX_COORD r }
        ensures { result ≡ int_eq (turn (point_of I.whole p) (point_of I.whole q) (point_of I.whole r)) (pos 0) }
    {
        turn(p, q, r) == 0
    }

    /// Whether the three points are not on one line.
    pub fn is_not_line<I: OverlayInt>(p: IntPoint<I>, q: IntPoint<I>, r: IntPoint<I>) -> bool
        requires p { IsPointInRange I.whole I.MIN_COORD I.MAX_COORD p }
        requires q { IsPointInRange I.whole I.MIN_COORD I.MAX_COORD q }
        requires r { IsPointInRange I.whole I.MIN_COORD I.MAX_COORD r }
        ensures { result ≡ not (int_eq (turn (point_of I.whole p) (point_of I.whole q) (point_of I.whole r)) (pos 0)) }
    {
        turn(p, q, r) != 0
    }
}

/// Twice the signed area of a triangle: positive where `p`, `q`, `r` turn left.
fn turn<I: OverlayInt>(p: IntPoint<I>, q: IntPoint<I>, r: IntPoint<I>) -> i64
    requires p { IsPointInRange I.whole I.MIN_COORD I.MAX_COORD p }
    requires q { IsPointInRange I.whole I.MIN_COORD I.MAX_COORD q }
    requires r { IsPointInRange I.whole I.MIN_COORD I.MAX_COORD r }
    ensures { result ≡ turn (point_of I.whole p) (point_of I.whole q) (point_of I.whole r) }
{
    IntVector::between(p, q).cross_product(IntVector::between(p, r))
}
