// Whether two segments share at most a common end. This project's own. `split::cross::contact`
// decides it by counting turns of zero, as a crossing has to be placed; here, without a count or a
// rounding, so that the test of a result does not depend on the code that makes it.
ghost use Rattle.std.specs.Prelude.{◌≡◌, ◌&&◌, IsTrue};
ghost use Rattle.overlay_geometry.specs.Points.{point_lt, is_ordered, is_strictly_inside};
ghost use Rattle.overlay_geometry.specs.Meeting.{separates, do_cross, has_end_inside, are_apart};
ghost use Rattle.overlay_geometry.specs.InRange.{IsPairInRange, IsPointInRange};
ghost use Rattle.overlay_geometry.specs.PointOf.{point_of};
ghost use Rattle.overlay_geometry.specs.PairOf.{pair_of};

use overlay_geometry::geom::point::IntPoint;
use overlay_geometry::geom::triangle::Triangle;
use overlay_geometry::geom::x_segment::XSegment;
use overlay_geometry::num::OverlayInt;

/// Whether two segments share at most a common end: they do not cross, and no end of one lies strictly inside the
/// other. Both have to be in range, with `a` before `b`.
#[tactic(auto, using(crate::proofs::laws::geometry::Apart::are_apart_is))]
pub fn are_apart<I: OverlayInt>(first: &XSegment<I>, second: &XSegment<I>) -> bool
    requires first { IsPairInRange I.whole I.MIN_COORD I.MAX_COORD first.now }
    requires second { IsPairInRange I.whole I.MIN_COORD I.MAX_COORD second.now }
    requires first_ordered { IsTrue (is_ordered (pair_of I.whole first.now)) }
    requires second_ordered { IsTrue (is_ordered (pair_of I.whole second.now)) }
    ensures { result ≡ are_apart (pair_of I.whole first.now) (pair_of I.whole second.now) }
{
    !do_cross(first, second) && !has_end_inside(first, second) && !has_end_inside(second, first)
}

/// Whether each separates the ends of the other, so that they cross at a point strictly inside both.
#[tactic(auto, unfolding(overlay_geometry::specs::Meeting::do_cross))]
fn do_cross<I: OverlayInt>(first: &XSegment<I>, second: &XSegment<I>) -> bool
    requires first { IsPairInRange I.whole I.MIN_COORD I.MAX_COORD first.now }
    requires second { IsPairInRange I.whole I.MIN_COORD I.MAX_COORD second.now }
    ensures { result ≡ do_cross (pair_of I.whole first.now) (pair_of I.whole second.now) }
{
    separates(first, second) && separates(second, first)
}

/// Whether the ends of the other lie on the two sides of the line through the segment.
#[tactic(auto, unfolding(overlay_geometry::specs::Meeting::separates))]
fn separates<I: OverlayInt>(segment: &XSegment<I>, other: &XSegment<I>) -> bool
    requires segment { IsPairInRange I.whole I.MIN_COORD I.MAX_COORD segment.now }
    requires other { IsPairInRange I.whole I.MIN_COORD I.MAX_COORD other.now }
    ensures { result ≡ separates (pair_of I.whole segment.now) (pair_of I.whole other.now) }
{
    let a = Triangle::clock_order(segment.a, segment.b, other.a);
    let b = Triangle::clock_order(segment.a, segment.b, other.b);
    (a.is_lt() && b.is_gt()) || (a.is_gt() && b.is_lt())
}

/// Whether an end of the other lies strictly inside the segment.
#[tactic(auto, unfolding(overlay_geometry::specs::Meeting::has_end_inside))]
fn has_end_inside<I: OverlayInt>(segment: &XSegment<I>, other: &XSegment<I>) -> bool
    requires segment { IsPairInRange I.whole I.MIN_COORD I.MAX_COORD segment.now }
    requires other { IsPairInRange I.whole I.MIN_COORD I.MAX_COORD other.now }
    requires ordered { IsTrue (is_ordered (pair_of I.whole segment.now)) }
    ensures { result ≡ has_end_inside (pair_of I.whole segment.now) (pair_of I.whole other.now) }
{
    is_strictly_inside(segment, other.a) || is_strictly_inside(segment, other.b)
}

/// Whether a point lies on a segment and is none of its ends.
#[tactic(auto, using(crate::proofs::laws::geometry::Apart::is_strictly_inside_by_order))]
fn is_strictly_inside<I: OverlayInt>(segment: &XSegment<I>, point: IntPoint<I>) -> bool
    requires segment { IsPairInRange I.whole I.MIN_COORD I.MAX_COORD segment.now }
    requires point { IsPointInRange I.whole I.MIN_COORD I.MAX_COORD point }
    requires ordered { IsTrue (is_ordered (pair_of I.whole segment.now)) }
    ensures { result ≡ is_strictly_inside (pair_of I.whole segment.now) (point_of I.whole point) }
{
    stands_between(segment, point) && Triangle::is_line(segment.a, segment.b, point)
}

/// Whether a point comes after `a` and before `b`.
fn stands_between<I: OverlayInt>(segment: &XSegment<I>, point: IntPoint<I>) -> bool
    ensures { result ≡ (point_lt (point_of I.whole segment.now.a) (point_of I.whole point)
        && point_lt (point_of I.whole point) (point_of I.whole segment.now.b)) }
{
    segment.a < point && point < segment.b
}
