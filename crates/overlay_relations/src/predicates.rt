// Predicates of the regions of two shapes, without rounding. The boundaries of both are overlaid, and no crossing is computed: where two
// edges cross at a point without integer coordinates, points of all four kinds lie beside it.
ghost use Rattle.std.specs.Prelude.{◌≡◌, [], ◌++◌, ◌↔◌, ◌||◌, true, false, IsTrue, IsFalse, OnOk, IfOk, IfErr, IfSome};
ghost use Rattle.overlay_base.specs.Rules.{holds};
ghost use Rattle.overlay_base.specs.declared.segm.fault.Fault.TheVariants.{Memory};
ghost use Rattle.overlay_contours.specs.ContoursIn.{LieInRange};
ghost use Rattle.overlay_contours.specs.ContoursOf.{contours_of};
ghost use Rattle.overlay_contours.specs.Kept.{contours_kept, KeepsContours, KeepsRounding};
ghost use Rattle.overlay_contours.specs.Refusals.{other_shape, IsShapeOutside};
ghost use Rattle.overlay_contours.specs.declared.fault.ContourFault.TheVariants.{Refused as RefusedContours};
ghost use Rattle.overlay_relations.specs.Boundaries.{has_inexact_crossing, IsBoundaryOf};
ghost use Rattle.overlay_relations.specs.BoundaryOf.{contours_in};
ghost use Rattle.overlay_relations.specs.Refusals.{IsRefusalOf, IsOverlayRefusal};
ghost use Rattle.overlay_relations.specs.Relations.{InteriorsMeet, Covers, IsWithin, AreSameRegion, HoldsSomewhere};
ghost use Rattle.overlay_relations.specs.steps.Outcomes.{DecidesBetween, IsExactOverlay, IsBoundaryRefusal};

use crate::boundary::Boundary;
use crate::fault::RelationFault;
use overlay_base::overlay_core::fill_rule::FillRule;
use overlay_base::overlay_core::overlay_rule::OverlayRule;
use overlay_base::overlay_core::solver::Solver;
use overlay_base::segm::shape_type::ShapeType;
use overlay_contours::contour::{IntContour, find_out_of_range};
use overlay_contours::fault::ContourFault;
use overlay_contours::overlay::Overlay;
use overlay_geometry::num::OverlayInt;
use std::alloc::Global;

pub mod laws;

/// Whether some point of the plane is inside both shapes.
///
/// The result is exact: points have rational coordinates, and nothing is rounded. Only points on no edge of either shape count,
/// so shapes that share parts of their boundaries, or points of these, do not meet by that. What is inside a shape follows from
/// the winding numbers of its contours, by the fill rule. The contours may cross and touch, and run either way. The solver's
/// strategy does not change the result, nor does its precision.
///
/// Returns `ContourFault::OutOfRange` where a point is out of the engine's range, and names the first one of its shape. Else it
/// returns `RelationFault::NotExact` only where two edges of one shape cross at a point without integer coordinates, as those of
/// valid polygons never do. It names the shape, the subject where both have such a crossing. The overlay of that shape by
/// `OverlayRule::Subject` has none, and is the same region but for rounding. Else it returns `Fault::CountOutOfRange` only where
/// counts leave `-i32::MAX..=i32::MAX`, and `Fault::Memory` where a growth is refused.
pub fn interiors_meet<I: OverlayInt>(
    alloc: Global,
    subject: &[IntContour<I>],
    clip: &[IntContour<I>],
    solver: &Solver,
    fill_rule: FillRule,
) -> Result<bool, RelationFault>
    ensures meet { IfOk result (λ meet. (meet ≡ true)
        ↔ InteriorsMeet fill_rule fill_rule (contours_of I.whole subject.now) (contours_of I.whole clip.now)) }
    ensures refused { IfErr result (IsRefusalOf I.OverlayInt.own fill_rule subject.now clip.now) }
    ensures subject_in_range { OnOk result (LieInRange I.whole I.MIN_COORD I.MAX_COORD subject.now) }
    ensures clip_in_range { OnOk result (LieInRange I.whole I.MIN_COORD I.MAX_COORD clip.now) }
{
    holds_somewhere(
        alloc,
        subject,
        clip,
        solver,
        fill_rule,
        OverlayRule::Intersect,
    )
}

/// Whether each point inside the clip is inside the subject: the subject covers the clip.
///
/// Points, exactness and errors are those of `interiors_meet`. So a shape covers itself, and every shape covers one with
/// nothing inside.
pub fn covers<I: OverlayInt>(
    alloc: Global,
    subject: &[IntContour<I>],
    clip: &[IntContour<I>],
    solver: &Solver,
    fill_rule: FillRule,
) -> Result<bool, RelationFault>
    ensures covers { IfOk result (λ covers. (covers ≡ true)
        ↔ Covers fill_rule fill_rule (contours_of I.whole subject.now) (contours_of I.whole clip.now)) }
    ensures refused { IfErr result (IsRefusalOf I.OverlayInt.own fill_rule subject.now clip.now) }
    ensures subject_in_range { OnOk result (LieInRange I.whole I.MIN_COORD I.MAX_COORD subject.now) }
    ensures clip_in_range { OnOk result (LieInRange I.whole I.MIN_COORD I.MAX_COORD clip.now) }
{
    let is_left = holds_somewhere(
        alloc,
        subject,
        clip,
        solver,
        fill_rule,
        OverlayRule::InverseDifference,
    )?;
    Ok(!is_left)
}

/// Whether each point inside the subject is inside the clip: the subject is within the clip.
///
/// Points, exactness and errors are those of `interiors_meet`.
pub fn is_within<I: OverlayInt>(
    alloc: Global,
    subject: &[IntContour<I>],
    clip: &[IntContour<I>],
    solver: &Solver,
    fill_rule: FillRule,
) -> Result<bool, RelationFault>
    ensures within { IfOk result (λ within. (within ≡ true)
        ↔ IsWithin fill_rule fill_rule (contours_of I.whole subject.now) (contours_of I.whole clip.now)) }
    ensures refused { IfErr result (IsRefusalOf I.OverlayInt.own fill_rule subject.now clip.now) }
    ensures subject_in_range { OnOk result (LieInRange I.whole I.MIN_COORD I.MAX_COORD subject.now) }
    ensures clip_in_range { OnOk result (LieInRange I.whole I.MIN_COORD I.MAX_COORD clip.now) }
{
    let is_left = holds_somewhere(
        alloc,
        subject,
        clip,
        solver,
        fill_rule,
        OverlayRule::Difference,
    )?;
    Ok(!is_left)
}

/// Whether both shapes are the same region: each point is inside both, or inside neither.
///
/// Points, exactness and errors are those of `interiors_meet`. So it does not matter where contours begin, which way they run,
/// or which points they have along a straight part of the boundary.
pub fn same_region<I: OverlayInt>(
    alloc: Global,
    subject: &[IntContour<I>],
    clip: &[IntContour<I>],
    solver: &Solver,
    fill_rule: FillRule,
) -> Result<bool, RelationFault>
    ensures same { IfOk result (λ same. (same ≡ true)
        ↔ AreSameRegion fill_rule fill_rule (contours_of I.whole subject.now) (contours_of I.whole clip.now)) }
    ensures refused { IfErr result (IsRefusalOf I.OverlayInt.own fill_rule subject.now clip.now) }
    ensures subject_in_range { OnOk result (LieInRange I.whole I.MIN_COORD I.MAX_COORD subject.now) }
    ensures clip_in_range { OnOk result (LieInRange I.whole I.MIN_COORD I.MAX_COORD clip.now) }
{
    let differ = holds_somewhere(alloc, subject, clip, solver, fill_rule, OverlayRule::Xor)?;
    Ok(!differ)
}

/// Whether a rule, which does not hold outside of both shapes, holds at some point that is on no edge of them.
fn holds_somewhere<I: OverlayInt>(
    alloc: Global,
    subject: &[IntContour<I>],
    clip: &[IntContour<I>],
    solver: &Solver,
    fill_rule: FillRule,
    overlay_rule: OverlayRule,
) -> Result<bool, RelationFault>
    requires outside { holds overlay_rule false false ≡ false }
    requires inside { IsTrue (holds overlay_rule true true || holds overlay_rule true false || holds overlay_rule false true) }
    ensures holds { IfOk result (λ found. (found ≡ true)
        ↔ HoldsSomewhere overlay_rule fill_rule fill_rule (contours_of I.whole subject.now) (contours_of I.whole clip.now)) }
    ensures refused { IfErr result (IsRefusalOf I.OverlayInt.own fill_rule subject.now clip.now) }
    ensures subject_in_range { OnOk result (LieInRange I.whole I.MIN_COORD I.MAX_COORD subject.now) }
    ensures clip_in_range { OnOk result (LieInRange I.whole I.MIN_COORD I.MAX_COORD clip.now) }
{
    test_range(subject, ShapeType::Subject)?;
    test_range(clip, ShapeType::Clip)?;
    let first = exact_boundary(alloc, subject, ShapeType::Subject, solver, fill_rule)?;
    let second = exact_boundary(alloc, clip, ShapeType::Clip, solver, fill_rule)?;
    Ok(holds_between(alloc, &first, &second, solver, overlay_rule)?)
}

/// Whether a rule, which does not hold outside of both shapes, holds at some point that is on no edge of them, by the
/// boundaries of the shapes. Where these are found to cross, it does, whatever the rule.
pub(crate) fn holds_between<I: OverlayInt>(
    alloc: Global,
    first: &Boundary<I>,
    second: &Boundary<I>,
    solver: &Solver,
    overlay_rule: OverlayRule,
) -> Result<bool, ContourFault>
    requires outside { holds overlay_rule false false ≡ false }
    requires inside { IsTrue (holds overlay_rule true true || holds overlay_rule true false || holds overlay_rule false true) }
    ensures holds { IfOk result (DecidesBetween overlay_rule (contours_in first.now) (contours_in second.now)) }
    ensures refused { IfErr result (IsOverlayRefusal (contours_in first.now) (contours_in second.now)) }
{
    if first.finds_crossing(second)? {
        return Ok(true);
    }
    match exact_overlay(
        alloc,
        &first.contours,
        &second.contours,
        solver,
        FillRule::NonZero,
        overlay_rule,
    )? {
        None => Ok(true),
        Some(region) => Ok(!region.is_empty()),
    }
}

/// Returns the first point of a shape's contours that is out of range.
pub(crate) fn test_range<I: OverlayInt>(
    contours: &[IntContour<I>],
    shape_type: ShapeType,
) -> Result<(), ContourFault>
    ensures in_range { OnOk result (LieInRange I.whole I.MIN_COORD I.MAX_COORD contours.now) }
    ensures outside { IfErr result (λ fault. IsShapeOutside (I.whole I.MIN_COORD) (I.whole I.MAX_COORD) shape_type
        (contours_of I.whole contours.now) fault) }
{
    match find_out_of_range(contours) {
        Some((contour, point)) => Err(ContourFault::OutOfRange {
            shape_type,
            contour,
            point,
        }),
        None => Ok(()),
    }
}

/// The boundary of a shape in range, without edges that cross at a point that is not whole.
pub(crate) fn exact_boundary<I: OverlayInt>(
    alloc: Global,
    contours: &[IntContour<I>],
    shape_type: ShapeType,
    solver: &Solver,
    fill_rule: FillRule,
) -> Result<Boundary<I>, RelationFault>
    requires in_range { LieInRange I.whole I.MIN_COORD I.MAX_COORD contours.now }
    ensures boundary { IfOk result (λ boundary. IsBoundaryOf fill_rule (contours_of I.whole contours.now) (contours_in boundary)) }
    ensures exact { OnOk result (IsFalse (has_inexact_crossing (contours_of I.whole contours.now) [])) }
    ensures refused { IfErr result (IsBoundaryRefusal shape_type (contours_of I.whole contours.now)) }
{
    let none = Vec::new(alloc);
    match exact_overlay(
        alloc,
        contours,
        &none,
        solver,
        fill_rule,
        OverlayRule::Subject,
    )? {
        None => Err(RelationFault::NotExact(shape_type)),
        Some(contours) => Ok(Boundary::of(alloc, contours)?),
    }
}

/// The overlay of contours in range. `None` where two edges cross at a point that is not whole.
fn exact_overlay<I: OverlayInt>(
    alloc: Global,
    first: &[IntContour<I>],
    second: &[IntContour<I>],
    solver: &Solver,
    fill_rule: FillRule,
    overlay_rule: OverlayRule,
) -> Result<Option<Vec<IntContour<I>>>, ContourFault>
    requires first { LieInRange I.whole I.MIN_COORD I.MAX_COORD first.now }
    requires second { LieInRange I.whole I.MIN_COORD I.MAX_COORD second.now }
    ensures overlay { IfOk result (IsExactOverlay I.whole overlay_rule fill_rule (contours_of I.whole first.now)
        (contours_of I.whole second.now)) }
    ensures in_range { IfOk result (λ found. IfSome found (λ region. LieInRange I.whole I.MIN_COORD I.MAX_COORD region.items)) }
    ensures refused { IfErr result (IsOverlayRefusal (contours_of I.whole first.now) (contours_of I.whole second.now)) }
{
    let mut overlay = Overlay::new(alloc);
    add_contours(&mut overlay, first, ShapeType::Subject)?;
    add_contours(&mut overlay, second, ShapeType::Clip)?;
    let region = overlay.overlay(solver, fill_rule, overlay_rule)?;
    if overlay.reach() != 0 {
        return Ok(None);
    }
    Ok(Some(region))
}

/// Adds contours in range behind those of a shape.
pub(crate) fn add_contours<I: OverlayInt>(
    overlay: &mut Overlay<I>,
    contours: &[IntContour<I>],
    shape_type: ShapeType,
) -> Result<(), ContourFault>
    requires in_range { LieInRange I.whole I.MIN_COORD I.MAX_COORD contours.now }
    ensures added { OnOk result (contours_kept shape_type overlay.new
        ≡ contours_kept shape_type overlay.old ++ contours_of I.whole contours.now) }
    ensures other { KeepsContours (other_shape shape_type) overlay.old overlay.new }
    ensures rounding { KeepsRounding overlay.old overlay.new }
    ensures refused { IfErr result (λ fault. fault ≡ RefusedContours Memory) }
{
    for contour in contours {
        overlay.add_contour(contour, shape_type)?;
    }
    Ok(())
}
