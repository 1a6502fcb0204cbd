// Where two segments meet. The result is exact: products of two coordinate differences stay in an
// `i64`. Upstream: `split::cross_solver`.
ghost use Rattle.std.specs.Prelude.{◌≡◌, ◌≢◌, ◌≤ℤ◌, pos, unsigned_abs, IsTrue};
ghost use Rattle.overlay_geometry.specs.Points.{is_strictly_inside};
ghost use Rattle.overlay_geometry.specs.Meeting.{are_collinear, have_opposite_signs};
ghost use Rattle.overlay_geometry.specs.PointOf.{point_of};
ghost use Rattle.overlay_geometry.specs.PairOf.{pair_of};
ghost use Rattle.overlay_geometry.specs.InRange.{IsPointInRange, IsPairInRange};
ghost use Rattle.overlay_intersections.specs.Marks.{snapping, settling};
ghost use Rattle.overlay_intersections.specs.CrossAnswer.{ends_mask};
ghost use Rattle.overlay_intersections.specs.steps.Along.{along};
ghost use Rattle.overlay_intersections.specs.AnswerOf.{IsCrossAnswer};
ghost use Rattle.overlay_intersections.specs.MaskOf.{number_of};

use crate::split::cross::contact::{Contact, contact_of};
pub use crate::split::cross::result::{CrossResult, CrossType};
use crate::split::cross::settled::settled;
use crate::split::cross::snapped::snapped;
use overlay_geometry::geom::point::IntPoint;
use overlay_geometry::geom::vector::IntVector;
use overlay_geometry::geom::x_segment::XSegment;
use overlay_geometry::num::OverlayInt;

/// Which ends of two segments on one line lie strictly inside the other segment.
#[derive(Clone, Copy, Debug, PartialEq, Eq)]
pub struct CollinearMask {
    /// The target's first end.
    pub is_target_a: bool,
    /// The target's second end.
    pub is_target_b: bool,
    /// The other's first end.
    pub is_other_a: bool,
    /// The other's second end.
    pub is_other_b: bool,
}

impl CollinearMask {
    /// 1 for `is_target_a`, 2 for `is_target_b`, 4 for `is_other_a`, 8 for `is_other_b`, summed.
    pub fn number(self) -> u8
        ensures { result ≡ number_of self }
    {
        u8::from(self.is_target_a)
            + 2 * u8::from(self.is_target_b)
            + 4 * u8::from(self.is_other_a)
            + 8 * u8::from(self.is_other_b)
    }
}

/// Finds where a target meets another segment. The target is the one from whose first end a crossing is measured.
pub struct CrossSolver;

impl CrossSolver {
    /// Where the two meet, ends in any order. Both have to be in range, the ends of each apart, and the squared radius
    /// at least 1.
    ///
    /// - `None` where they have no point in common, or only an end of both.
    /// - `Overlay`, at the origin, where the four ends lie on one line: `collinear` says more.
    /// - `OtherEnd` or `TargetEnd`, not rounded, at an end that lies strictly inside the other one.
    /// - `Pure`, not rounded, at a crossing with whole coordinates.
    /// - Any other crossing is rounded to the snapping point: each offset from the target's `a` to
    ///   nearest, halves away from `a`; of a target along an axis truncated toward `a`. Where an
    ///   end lies within the radius of that point, the result is the nearest end, the target's
    ///   where the other has one as near, and `b` where `a` is as near; else it is `Pure` at that
    ///   point.
    #[inline(always)]
    pub fn cross<I: OverlayInt>(
        target: &XSegment<I>,
        other: &XSegment<I>,
        radius_squared: i64,
    ) -> Option<CrossResult<I>>
        requires target { IsPairInRange I.whole I.MIN_COORD I.MAX_COORD target.now }
        requires other { IsPairInRange I.whole I.MIN_COORD I.MAX_COORD other.now }
        requires target_apart { (pair_of I.whole target.now).a ≢ (pair_of I.whole target.now).b }
        requires other_apart { (pair_of I.whole other.now).a ≢ (pair_of I.whole other.now).b }
        requires radius { pos 1 ≤ℤ radius_squared }
        ensures { IsCrossAnswer I.whole (snapping (unsigned_abs radius_squared)) target.now other.now result }
    {
        match contact_of(target, other) {
            Contact::Apart => None,
            Contact::At(result) => Some(result),
            Contact::Crossing => Some(snapped(target, other, radius_squared)),
        }
    }

    /// Where the two meet in a pass that settles, without a radius. The conditions and the results
    /// are those of `cross`, but for a crossing strictly inside both: its point is the exact one
    /// with each coordinate to nearest, halves upward, so it does not depend on which of the two is
    /// the target. It is an end of at most one of them: `TargetEnd`, `OtherEnd`, and else `Pure`;
    /// not rounded where the crossing has whole coordinates. This project's own.
    #[inline(always)]
    pub fn cross_settled<I: OverlayInt>(
        target: &XSegment<I>,
        other: &XSegment<I>,
    ) -> Option<CrossResult<I>>
        requires target { IsPairInRange I.whole I.MIN_COORD I.MAX_COORD target.now }
        requires other { IsPairInRange I.whole I.MIN_COORD I.MAX_COORD other.now }
        requires target_apart { (pair_of I.whole target.now).a ≢ (pair_of I.whole target.now).b }
        requires other_apart { (pair_of I.whole other.now).a ≢ (pair_of I.whole other.now).b }
        ensures { IsCrossAnswer I.whole settling target.now other.now result }
    {
        match contact_of(target, other) {
            Contact::Apart => None,
            Contact::At(result) => Some(result),
            Contact::Crossing => Some(settled(target, other)),
        }
    }

    /// Which ends lie strictly inside the other segment, where all four lie on one line. Both have to be in range, and
    /// the ends of each apart. Two equal segments have no such end.
    pub fn collinear<I: OverlayInt>(target: &XSegment<I>, other: &XSegment<I>) -> CollinearMask
        requires target { IsPairInRange I.whole I.MIN_COORD I.MAX_COORD target.now }
        requires other { IsPairInRange I.whole I.MIN_COORD I.MAX_COORD other.now }
        requires target_apart { (pair_of I.whole target.now).a ≢ (pair_of I.whole target.now).b }
        requires other_apart { (pair_of I.whole other.now).a ≢ (pair_of I.whole other.now).b }
        requires line { IsTrue (are_collinear (pair_of I.whole target.now) (pair_of I.whole other.now)) }
        ensures target_a { result.is_target_a ≡ is_strictly_inside (pair_of I.whole other.now)
            (point_of I.whole target.now.a) }
        ensures target_b { result.is_target_b ≡ is_strictly_inside (pair_of I.whole other.now)
            (point_of I.whole target.now.b) }
        ensures other_a { result.is_other_a ≡ is_strictly_inside (pair_of I.whole target.now)
            (point_of I.whole other.now.a) }
        ensures other_b { result.is_other_b ≡ is_strictly_inside (pair_of I.whole target.now)
            (point_of I.whole other.now.b) }
        ensures number { number_of result ≡ ends_mask (pair_of I.whole target.now) (pair_of I.whole other.now) }
    {
        let a_past_a = past(other.a, target.a, other);
        let a_past_b = past(other.b, target.a, other);
        let b_past_a = past(other.a, target.b, other);
        let b_past_b = past(other.b, target.b, other);
        CollinearMask {
            is_target_a: have_opposite_signs(a_past_a, a_past_b),
            is_target_b: have_opposite_signs(b_past_a, b_past_b),
            is_other_a: have_opposite_signs(a_past_a, b_past_a),
            is_other_b: have_opposite_signs(a_past_b, b_past_b),
        }
    }
}

/// Whether one number is negative and the other positive.
fn have_opposite_signs(u: i64, v: i64) -> bool
    ensures { result ≡ have_opposite_signs u v }
{
    (u < 0 && 0 < v) || (0 < u && v < 0)
}

/// How far the point lies past an end, in the direction of a segment and times its length.
fn past<I: OverlayInt>(end: IntPoint<I>, point: IntPoint<I>, segment: &XSegment<I>) -> i64
    requires end { IsPointInRange I.whole I.MIN_COORD I.MAX_COORD end }
    requires point { IsPointInRange I.whole I.MIN_COORD I.MAX_COORD point }
    requires segment { IsPairInRange I.whole I.MIN_COORD I.MAX_COORD segment.now }
    ensures { result ≡ along (pair_of I.whole segment.now).a (pair_of I.whole segment.now).b (point_of I.whole end)
        (point_of I.whole point) }
{
    IntVector::between(end, point).dot_product(IntVector::between(segment.a, segment.b))
}
