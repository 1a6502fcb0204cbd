// The marks that two segments put on one another: comparisons of coordinates decide those of a horizontal and a
// vertical one, turns those of all others. Upstream: `split::solver_list` and its callers.
ghost use Rattle.std.specs.Prelude.{◌≡◌, ◌≢◌, ◌<◌, ◌+◌, ◌-◌, ◌++◌, [], ◌∷◌, if◌then◌else◌, IfOk, OnOk, IsTrue, IsFalse};
ghost use Rattle.overlay_geometry.specs.Points.{pair_lt};
ghost use Rattle.overlay_geometry.specs.Meeting.{are_collinear, do_cross};
ghost use Rattle.overlay_geometry.specs.PointOf.{point_of};
ghost use Rattle.overlay_geometry.specs.PairOf.{pair_of};
ghost use Rattle.overlay_geometry.specs.InRange.{IsPairInRange};
ghost use Rattle.overlay_intersections.specs.PlacingOf.{HasRadius};
ghost use Rattle.overlay_intersections.specs.MarkOf.{marks_of};
ghost use Rattle.overlay_intersections.specs.MarksBetween.{marks_at, marks_of_overlap};
ghost use Rattle.overlay_intersections.specs.steps.AddedMarks.{AddsMark, AddsMarksBetween, AddsMarksOf, do_cross_inexactly};
ghost use Rattle.overlay_intersections.specs.declared.split.cross.result.CrossType.TheVariants.{Overlay};

use crate::split::cross::contact::{Contact, contact_of, lies_beside, part_at_end};
use crate::split::cross::corner::{are_horizontal_and_vertical, corner_of};
use crate::split::cross_solver::{CrossResult, CrossSolver, CrossType};
use crate::split::line_mark::LineMark;
use crate::split::placing::Placing;
use overlay_geometry::geom::point::IntPoint;
use overlay_geometry::geom::x_segment::XSegment;
use overlay_geometry::num::OverlayInt;
use std::alloc::AllocError;

/// A segment of a list, with its index there.
#[derive(Clone, Copy)]
pub struct Indexed<I> {
    /// The index in the list of the pass.
    pub index: usize,
    /// The segment.
    pub x_segment: XSegment<I>,
}

/// Appends the marks that two segments put on one another, and returns whether they cross at a
/// point without whole coordinates. The first is the target, and may not come after the second.
/// A horizontal and a vertical segment meet at a whole point, so that comparisons of coordinates decide.
#[inline(always)]
pub fn mark_both<I: OverlayInt>(
    first: Indexed<I>,
    second: Indexed<I>,
    placing: Placing,
    marks: &mut Vec<LineMark<I>>,
) -> Result<bool, AllocError>
    requires radius { HasRadius placing }
    requires first { IsPairInRange I.whole I.MIN_COORD I.MAX_COORD first.x_segment }
    requires second { IsPairInRange I.whole I.MIN_COORD I.MAX_COORD second.x_segment }
    requires first_apart { (pair_of I.whole first.x_segment).a ≢ (pair_of I.whole first.x_segment).b }
    requires second_apart { (pair_of I.whole second.x_segment).a ≢ (pair_of I.whole second.x_segment).b }
    requires order { IsFalse (pair_lt (pair_of I.whole second.x_segment) (pair_of I.whole first.x_segment)) }
    ensures marks { OnOk result (AddsMarksBetween I.whole placing first second marks.old.items marks.new.items) }
    ensures rounded { IfOk result (λ rounded. rounded ≡ do_cross_inexactly I.whole first second) }
{
    if are_horizontal_and_vertical(&first.x_segment, &second.x_segment) {
        let corner = corner_of(&first.x_segment, &second.x_segment);
        mark_if(corner.splits_horizontal, first.index, corner.point, marks)?;
        mark_if(corner.splits_vertical, second.index, corner.point, marks)?;
        return Ok(false);
    }
    if are_horizontal_and_vertical(&second.x_segment, &first.x_segment) {
        let corner = corner_of(&second.x_segment, &first.x_segment);
        mark_if(corner.splits_vertical, first.index, corner.point, marks)?;
        mark_if(corner.splits_horizontal, second.index, corner.point, marks)?;
        return Ok(false);
    }
    if part_at_end(&first.x_segment, &second.x_segment) {
        return Ok(false);
    }
    match contact_of(&first.x_segment, &second.x_segment) {
        Contact::Apart => Ok(false),
        Contact::At(met) => mark_result(first, second, met, marks),
        Contact::Crossing => mark_crossing(first, second, placing, marks),
    }
}

/// Does the same as `mark_both`, and first tests whether both ends of the second lie on one side of the first. Of segments
/// that share no end, as those far from one another in a list, that decides most.
#[inline(always)]
pub fn mark_both_apart<I: OverlayInt>(
    first: Indexed<I>,
    second: Indexed<I>,
    placing: Placing,
    marks: &mut Vec<LineMark<I>>,
) -> Result<bool, AllocError>
    requires radius { HasRadius placing }
    requires first { IsPairInRange I.whole I.MIN_COORD I.MAX_COORD first.x_segment }
    requires second { IsPairInRange I.whole I.MIN_COORD I.MAX_COORD second.x_segment }
    requires first_apart { (pair_of I.whole first.x_segment).a ≢ (pair_of I.whole first.x_segment).b }
    requires second_apart { (pair_of I.whole second.x_segment).a ≢ (pair_of I.whole second.x_segment).b }
    requires order { IsFalse (pair_lt (pair_of I.whole second.x_segment) (pair_of I.whole first.x_segment)) }
    ensures marks { OnOk result (AddsMarksBetween I.whole placing first second marks.old.items marks.new.items) }
    ensures rounded { IfOk result (λ rounded. rounded ≡ do_cross_inexactly I.whole first second) }
{
    if lies_beside(&first.x_segment, &second.x_segment) {
        return Ok(false);
    }
    mark_both(first, second, placing, marks)
}

/// As `mark_both`, of two that cross strictly inside both. Most pairs do not, so that this stays out of the loops over pairs.
#[inline(never)]
fn mark_crossing<I: OverlayInt>(
    first: Indexed<I>,
    second: Indexed<I>,
    placing: Placing,
    marks: &mut Vec<LineMark<I>>,
) -> Result<bool, AllocError>
    requires radius { HasRadius placing }
    requires first { IsPairInRange I.whole I.MIN_COORD I.MAX_COORD first.x_segment }
    requires second { IsPairInRange I.whole I.MIN_COORD I.MAX_COORD second.x_segment }
    requires first_apart { (pair_of I.whole first.x_segment).a ≢ (pair_of I.whole first.x_segment).b }
    requires second_apart { (pair_of I.whole second.x_segment).a ≢ (pair_of I.whole second.x_segment).b }
    requires order { IsFalse (pair_lt (pair_of I.whole second.x_segment) (pair_of I.whole first.x_segment)) }
    requires crossing { IsTrue (do_cross (pair_of I.whole first.x_segment) (pair_of I.whole second.x_segment)) }
    ensures marks { OnOk result (AddsMarksBetween I.whole placing first second marks.old.items marks.new.items) }
    ensures rounded { IfOk result (λ rounded. rounded ≡ do_cross_inexactly I.whole first second) }
{
    let met = placing.place(&first.x_segment, &second.x_segment);
    mark_result(first, second, met, marks)
}

/// Appends the marks that a result stands for, and returns whether its point is rounded. Few pairs have a result, so
/// that this stays out of the loops over pairs as well.
#[inline(never)]
fn mark_result<I: OverlayInt>(
    first: Indexed<I>,
    second: Indexed<I>,
    met: CrossResult<I>,
    marks: &mut Vec<LineMark<I>>,
) -> Result<bool, AllocError>
    requires first { IsPairInRange I.whole I.MIN_COORD I.MAX_COORD first.x_segment }
    requires second { IsPairInRange I.whole I.MIN_COORD I.MAX_COORD second.x_segment }
    requires first_apart { (pair_of I.whole first.x_segment).a ≢ (pair_of I.whole first.x_segment).b }
    requires second_apart { (pair_of I.whole second.x_segment).a ≢ (pair_of I.whole second.x_segment).b }
    requires line { met.cross_type ≡ Overlay →
        IsTrue (are_collinear (pair_of I.whole first.x_segment) (pair_of I.whole second.x_segment)) }
    ensures marks { OnOk result (AddsMarksOf I.whole met first second marks.old.items marks.new.items) }
    ensures rounded { IfOk result (λ rounded. rounded ≡ met.is_round) }
{
    match met.cross_type {
        CrossType::Pure => {
            mark(first.index, met.point, marks)?;
            mark(second.index, met.point, marks)?;
        }
        CrossType::TargetEnd => mark(second.index, met.point, marks)?,
        CrossType::OtherEnd => mark(first.index, met.point, marks)?,
        CrossType::Overlay => mark_overlap(first, second, marks)?,
    }
    Ok(met.is_round)
}

/// Appends marks at those ends of each that lie strictly inside the other, of two segments on one line.
fn mark_overlap<I: OverlayInt>(
    first: Indexed<I>,
    second: Indexed<I>,
    marks: &mut Vec<LineMark<I>>,
) -> Result<(), AllocError>
    requires first { IsPairInRange I.whole I.MIN_COORD I.MAX_COORD first.x_segment }
    requires second { IsPairInRange I.whole I.MIN_COORD I.MAX_COORD second.x_segment }
    requires first_apart { (pair_of I.whole first.x_segment).a ≢ (pair_of I.whole first.x_segment).b }
    requires second_apart { (pair_of I.whole second.x_segment).a ≢ (pair_of I.whole second.x_segment).b }
    requires line { IsTrue (are_collinear (pair_of I.whole first.x_segment) (pair_of I.whole second.x_segment)) }
    ensures { OnOk result (marks_of I.whole marks.new.items ≡ marks_of I.whole marks.old.items
        ++ marks_of_overlap first.index (pair_of I.whole first.x_segment)
        second.index (pair_of I.whole second.x_segment)) }
{
    let target = first.x_segment;
    let other = second.x_segment;
    let mask = CrossSolver::collinear(&target, &other);
    mark_if(mask.is_other_a, first.index, other.a, marks)?;
    mark_if(mask.is_other_b, first.index, other.b, marks)?;
    mark_if(mask.is_target_a, second.index, target.a, marks)?;
    mark_if(mask.is_target_b, second.index, target.b, marks)?;
    Ok(())
}

/// Appends a mark where the point lies inside.
fn mark_if<I: OverlayInt>(
    is_inside: bool,
    index: usize,
    point: IntPoint<I>,
    marks: &mut Vec<LineMark<I>>,
) -> Result<(), AllocError>
    ensures { OnOk result (marks_of I.whole marks.new.items ≡ marks_of I.whole marks.old.items
        ++ (if is_inside then marks_at index (point_of I.whole point ∷ []) else [])) }
{
    if is_inside {
        mark(index, point, marks)
    } else {
        Ok(())
    }
}

/// Appends one mark.
pub fn mark<I: OverlayInt>(
    index: usize,
    point: IntPoint<I>,
    marks: &mut Vec<LineMark<I>>,
) -> Result<(), AllocError>
    ensures { OnOk result (AddsMark I.whole index point marks.old.items marks.new.items) }
{
    marks.push(LineMark { index, point })?;
    Ok(())
}
