// How two segments meet, by the sides on which their ends lie. Upstream: `cross` of
// `split::cross_solver`. `segm::apart` tests whether they meet another way, so that the test of a
// result does not depend on this code.
ghost use Rattle.std.specs.Prelude.{◌≡◌, ◌≢◌, false, true};
ghost use Rattle.overlay_geometry.specs.PairOf.{pair_of};
ghost use Rattle.overlay_geometry.specs.InRange.{IsPairInRange};
ghost use Rattle.overlay_intersections.specs.declared.split.cross.contact.Contact.TheVariants.{Apart};
ghost use Rattle.overlay_intersections.specs.steps.ContactOf.{AreEndSides, IsContact, are_beside, zeros_of, leave_no_contact};

use crate::split::cross::result::{CrossResult, CrossType};
use overlay_geometry::geom::point::IntPoint;
use overlay_geometry::geom::triangle::Triangle;
use overlay_geometry::geom::x_segment::XSegment;
use overlay_geometry::num::OverlayInt;

/// The directions of the other's ends from the target, and of the target's ends from the other.
#[derive(Clone, Copy)]
struct EndSides {
    other_a: i64,
    other_b: i64,
    target_a: i64,
    target_b: i64,
}

/// How two segments meet, by the sides of their ends.
#[derive(Clone, Copy)]
pub enum Contact<I> {
    /// They have no point in common, or only ends.
    Apart,
    /// They meet in an end of one, or lie on one line.
    At(CrossResult<I>),
    /// They cross strictly inside both.
    Crossing,
}

/// How two segments meet, each with ends that differ, by the sides of their ends. Three of the four turns are never 0
/// without the fourth.
#[inline(always)]
pub fn contact_of<I: OverlayInt>(target: &XSegment<I>, other: &XSegment<I>) -> Contact<I>
    requires target { IsPairInRange I.whole I.MIN_COORD I.MAX_COORD target.now }
    requires other { IsPairInRange I.whole I.MIN_COORD I.MAX_COORD other.now }
    requires target_apart { (pair_of I.whole target.now).a ≢ (pair_of I.whole target.now).b }
    requires other_apart { (pair_of I.whole other.now).a ≢ (pair_of I.whole other.now).b }
    ensures { IsContact I.whole (pair_of I.whole target.now) (pair_of I.whole other.now) result }
{
    if lies_beside(target, other) {
        return Contact::Apart;
    }
    if lies_beside(other, target) {
        return Contact::Apart;
    }
    let sides = sides_of(target, other);
    let zeros = sides.zeros();
    if zeros == 4 {
        at(IntPoint::new(I::ZERO, I::ZERO), CrossType::Overlay)
    } else if sides.leave_no_contact() {
        Contact::Apart
    } else if zeros == 0 {
        Contact::Crossing
    } else if sides.other_a == 0 {
        at(other.a, CrossType::OtherEnd)
    } else if sides.other_b == 0 {
        at(other.b, CrossType::OtherEnd)
    } else if sides.target_a == 0 {
        at(target.a, CrossType::TargetEnd)
    } else {
        at(target.b, CrossType::TargetEnd)
    }
}

/// Whether two segments, each with ends that differ, share an end and lie on two lines: they have no other point in common.
/// Most pairs whose boxes meet are neighbors that share an end, and one turn decides these. Of the others few have ends of
/// one `x`, so that these are compared first.
#[inline(always)]
pub(crate) fn part_at_end<I: OverlayInt>(target: &XSegment<I>, other: &XSegment<I>) -> bool
    requires target { IsPairInRange I.whole I.MIN_COORD I.MAX_COORD target.now }
    requires other { IsPairInRange I.whole I.MIN_COORD I.MAX_COORD other.now }
    requires target_apart { (pair_of I.whole target.now).a ≢ (pair_of I.whole target.now).b }
    requires other_apart { (pair_of I.whole other.now).a ≢ (pair_of I.whole other.now).b }
    ensures { result ≡ true → IsContact I.whole (pair_of I.whole target.now) (pair_of I.whole other.now) Apart }
{
    if !((target.b.x == other.b.x) | (target.b.x == other.a.x) | (target.a.x == other.a.x)) {
        return false;
    }
    let share_b = target.b == other.b;
    if !(share_b | (target.b == other.a) | (target.a == other.a)) {
        return false;
    }
    let far_end = if share_b { other.a } else { other.b };
    Triangle::is_not_line(target.a, target.b, far_end)
}

/// A contact at a whole point.
fn at<I: OverlayInt>(point: IntPoint<I>, cross_type: CrossType) -> Contact<I>
    ensures { result ≡ Contact.At (record { point = point; cross_type = cross_type; is_round = false }) }
{
    Contact::At(CrossResult {
        point,
        cross_type,
        is_round: false,
    })
}

/// Whether both ends of the other lie strictly on one side of the target's line. So it is with most
/// pairs that have no point in common, which two of the four directions decide.
#[inline(always)]
pub(crate) fn lies_beside<I: OverlayInt>(target: &XSegment<I>, other: &XSegment<I>) -> bool
    requires target { IsPairInRange I.whole I.MIN_COORD I.MAX_COORD target.now }
    requires other { IsPairInRange I.whole I.MIN_COORD I.MAX_COORD other.now }
    ensures { result ≡ are_beside (pair_of I.whole target.now) (pair_of I.whole other.now) }
{
    let a_is_off = Triangle::is_not_line(target.a, target.b, other.a);
    let b_is_off = Triangle::is_not_line(target.a, target.b, other.b);
    let a_is_right = Triangle::is_clockwise(target.a, target.b, other.a);
    let b_is_right = Triangle::is_clockwise(target.a, target.b, other.b);
    a_is_off & b_is_off & (a_is_right == b_is_right)
}

/// On which sides of each segment the ends of the other lie.
#[inline(always)]
fn sides_of<I: OverlayInt>(target: &XSegment<I>, other: &XSegment<I>) -> EndSides
    requires target { IsPairInRange I.whole I.MIN_COORD I.MAX_COORD target.now }
    requires other { IsPairInRange I.whole I.MIN_COORD I.MAX_COORD other.now }
    ensures { AreEndSides (pair_of I.whole target.now) (pair_of I.whole other.now) result }
{
    EndSides {
        other_a: Triangle::clock_direction(target.a, target.b, other.a),
        other_b: Triangle::clock_direction(target.a, target.b, other.b),
        target_a: Triangle::clock_direction(other.a, other.b, target.a),
        target_b: Triangle::clock_direction(other.a, other.b, target.b),
    }
}

impl EndSides {
    /// How many ends lie on the line of the other segment.
    #[inline(always)]
    fn zeros(self) -> u32
        ensures { result ≡ zeros_of self }
    {
        u32::from(self.other_a == 0)
            + u32::from(self.other_b == 0)
            + u32::from(self.target_a == 0)
            + u32::from(self.target_b == 0)
    }

    /// Whether an end is shared, or both ends of one lie on the same side of the other.
    fn leave_no_contact(self) -> bool
        ensures { result ≡ leave_no_contact self }
    {
        self.zeros() > 1 || self.other_a == self.other_b || self.target_a == self.target_b
    }
}
