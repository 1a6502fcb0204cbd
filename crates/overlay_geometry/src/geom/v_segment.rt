// Segments of a sweep, ordered from below. Upstream: `geom::v_segment`.

use crate::geom::point::IntPoint;
use crate::geom::triangle::Triangle;
use crate::geom::vector::IntVector;
use crate::geom::x_segment::XSegment;
use crate::num::OverlayInt;
use std::cmp::Ordering;

/// The two ends of a segment in a sweep from left to right. There is no order of all segments: the orders below
/// compare two that share a column of the plane and do not cross, a segment and a point, or two ways by their angle.
#[derive(Clone, Copy, Debug, PartialEq, Eq)]
pub struct VSegment<I> {
    /// Where it starts.
    pub a: IntPoint<I>,
    /// Where it ends.
    pub b: IntPoint<I>,
}

impl<I: OverlayInt> VSegment<I> {
    ghost use Rattle.std.specs.Prelude.{◌≡◌};
    ghost use Rattle.std.specs.Ordering.{is_lt};
    ghost use Rattle.overlay_geometry.specs.Below.{under_segment_order, under_point_order, angle_cmp};
    ghost use Rattle.overlay_geometry.specs.PointOf.{point_of};
    ghost use Rattle.overlay_geometry.specs.InRange.{IsPointInRange};
    ghost use Rattle.overlay_geometry.specs.VSegmentOf.{v_pair_of, IsVSegmentInRange};

    /// `Less` where this segment runs below the other, `Greater` where it runs above it.
    ///
    /// It is decided by the turn of the start that comes later, seen from the segment that begins earlier, and of the
    /// other's end where both start at one point. So it is the order from below only of two segments that share a
    /// column and meet at most in a common end. All ends have to be in range.
    pub fn is_under_segment_order(&self, other: &VSegment<I>) -> Ordering
        requires own { IsVSegmentInRange I.whole I.MIN_COORD I.MAX_COORD self.now }
        requires other { IsVSegmentInRange I.whole I.MIN_COORD I.MAX_COORD other.now }
        ensures { result ≡ under_segment_order (v_pair_of I.whole self.now) (v_pair_of I.whole other.now) }
    {
        match self.a.cmp(&other.a) {
            Ordering::Less => Triangle::clock_order(self.a, other.a, self.b),
            Ordering::Equal => Triangle::clock_order(self.a, other.b, self.b),
            Ordering::Greater => Triangle::clock_order(other.a, other.b, self.a),
        }
    }

    /// Whether `is_under_segment_order` returns `Less`.
    pub fn is_under_segment(&self, other: &VSegment<I>) -> bool
        requires own { IsVSegmentInRange I.whole I.MIN_COORD I.MAX_COORD self.now }
        requires other { IsVSegmentInRange I.whole I.MIN_COORD I.MAX_COORD other.now }
        ensures { result ≡ is_lt (under_segment_order (v_pair_of I.whole self.now) (v_pair_of I.whole other.now)) }
    {
        self.is_under_segment_order(other).is_lt()
    }

    /// `Less` where this segment runs below the point, `Equal` where the point lies on its line, else `Greater`.
    ///
    /// It is the turn from `a` over the point to `b`, for any point in range; below and above are meant for one whose
    /// `x` lies between those of the ends.
    pub fn is_under_point_order(&self, p: IntPoint<I>) -> Ordering
        requires own { IsVSegmentInRange I.whole I.MIN_COORD I.MAX_COORD self.now }
        requires point { IsPointInRange I.whole I.MIN_COORD I.MAX_COORD p }
        ensures { result ≡ under_point_order (v_pair_of I.whole self.now) (point_of I.whole p) }
    {
        Triangle::clock_order(self.a, p, self.b)
    }

    /// Compares the ways from `a` to `b` by their angle, from straight down over rightward to straight up: `Less` where
    /// the other points to the left of this one. All ends have to be in range.
    pub fn cmp_by_angle(&self, other: &VSegment<I>) -> Ordering
        requires own { IsVSegmentInRange I.whole I.MIN_COORD I.MAX_COORD self.now }
        requires other { IsVSegmentInRange I.whole I.MIN_COORD I.MAX_COORD other.now }
        ensures { result ≡ angle_cmp (v_pair_of I.whole self.now) (v_pair_of I.whole other.now) }
    {
        let way = IntVector::between(self.a, self.b);
        0.cmp(&way.cross_product(IntVector::between(other.a, other.b)))
    }
}

impl<I> From<XSegment<I>> for VSegment<I> {
    ghost use Rattle.std.specs.Prelude.{◌≡◌};

    ghost from_gives = { λ s v. v ≡ record { a = s.a; b = s.b } };

    fn from(segment: XSegment<I>) -> VSegment<I> {
        VSegment {
            a: segment.a,
            b: segment.b,
        }
    }
}
