// The box of a segment without its ends. This project's own.
ghost use Rattle.std.specs.Prelude.{◌≡◌, ◌&&◌, not, IsTrue};
ghost use Rattle.overlay_geometry.specs.Points.{Pair, is_in_box, is_end, is_ordered};
ghost use Rattle.overlay_geometry.specs.PointOf.{point_of};
ghost use Rattle.overlay_geometry.specs.PairOf.{pair_of};
ghost use Rattle.overlay_geometry.specs.InRange.{IsPointInRange, IsPairInRange};
ghost use Rattle.overlay_snapping.specs.steps.Distances.{IsSmall, turned, distance, are_inside};

use overlay_geometry::geom::point::IntPoint;
use overlay_geometry::geom::x_segment::XSegment;
use overlay_geometry::num::OverlayInt;

/// The box of a segment without its ends, so that one comparison tests a point: a processor guesses its outcome better than
/// those of a comparison for each side.
#[derive(Clone, Copy)]
pub(crate) struct InnerBox {
    left: i64,
    right: i64,
    /// Whether the segment falls. Heights are negated then, so that it goes up from `start` to `end`.
    falls: bool,
    start: i64,
    end: i64,
    ghost small: { IsSmall left × IsSmall right × IsSmall start × IsSmall end },
}

impl InnerBox {
    ghost use Rattle.overlay_snapping.specs.steps.InnerBoxes.{IsInnerBox};

    /// The box of a segment. It has to be in range, and its ends in order.
    #[inline(always)]
    pub(crate) fn of<I: OverlayInt>(segment: &XSegment<I>) -> InnerBox
        requires in_range { IsPairInRange I.whole I.MIN_COORD I.MAX_COORD segment.now }
        requires ordered { IsTrue (is_ordered (pair_of I.whole segment.now)) }
        ensures { IsInnerBox (pair_of I.whole segment.now) result }
    {
        let (first, last) = (segment.a.y.to_wide(), segment.b.y.to_wide());
        let falls = last < first;
        InnerBox {
            left: segment.a.x.to_wide(),
            right: segment.b.x.to_wide(),
            falls,
            start: turned(falls, first),
            end: turned(falls, last),
        }
    }

    /// Whether a point, which has to be in range, lies in the box and is no end of the segment.
    #[inline(always)]
    pub(crate) fn has<I: OverlayInt>(&self, point: IntPoint<I>) -> bool
        requires point { IsPointInRange I.whole I.MIN_COORD I.MAX_COORD point }
        ensures { (s : Pair) → IsInnerBox s self.now
            → result ≡ (is_in_box s (point_of I.whole point) && not (is_end s (point_of I.whole point))) }
    {
        let (x, y) = (point.x.to_wide(), turned(self.falls, point.y.to_wide()));
        are_inside(
            distance(self.left, x) | distance(self.start, y),
            distance(x, self.right) | distance(y, self.end),
        )
    }
}

/// A height, negated where the segment falls.
#[inline(always)]
fn turned(falls: bool, height: i64) -> i64
    requires { IsSmall height }
    ensures turned { result ≡ turned falls height }
    ensures small { IsSmall result }
{
    if falls { -height } else { height }
}

/// How far it is from a number up to another, which is great where the other is less.
#[inline(always)]
fn distance(from: i64, to: i64) -> u64
    requires from { IsSmall from }
    requires to { IsSmall to }
    ensures { result ≡ distance from to }
{
    (to - from).cast_unsigned()
}

/// Whether two numbers are neither 0 nor great.
#[inline(always)]
fn are_inside(from_start: u64, to_end: u64) -> bool
    ensures { result ≡ are_inside from_start to_end }
{
    (from_start.wrapping_sub(1) | to_end.wrapping_sub(1)) < GREAT
}

/// The least of the numbers that differences below 0 become.
const GREAT: u64 = 1 << 63;
