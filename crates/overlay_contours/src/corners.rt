// Contours without the points at which they go straight on: collinear points in the middle of an edge.
// Upstream drops such points by an option, as contours are extracted.
ghost use Rattle.std.specs.Prelude.{◌≡◌, ◌&&◌, ◌++◌, ◌∷◌, [], All, IfOk, IfErr, OnOk, map, if◌then◌else◌};
ghost use Rattle.overlay_geometry.specs.Points.{point_lt};
ghost use Rattle.overlay_geometry.specs.PointOf.{point_of};
ghost use Rattle.overlay_geometry.specs.InRange.{IsPointInRange};
ghost use Rattle.overlay_base.specs.declared.segm.fault.Fault.TheVariants.{Memory};
ghost use Rattle.overlay_contours.specs.ContoursOf.{points_of, contours_of};
ghost use Rattle.overlay_contours.specs.Corners.{is_straight, last_of, corners};
ghost use Rattle.overlay_contours.specs.ShapesOf.{shapes_of, ShapesLieInRange};
ghost use Rattle.overlay_contours.specs.ContoursIn.{LieInRange, corners_in, WindAlike, PaintAlike, StayProper};

use crate::contour::{IntContour, IntShape};
use overlay_base::segm::fault::Fault;
use overlay_geometry::geom::point::IntPoint;
use overlay_geometry::geom::triangle::Triangle;
use overlay_geometry::num::OverlayInt;
use std::alloc::Global;

/// The corners of contours: of each its points in their order, without those at which it goes straight on. It does so
/// at a point that lies on one line with the point before and the point after, and between them.
///
/// All points have to be in range, as `find_out_of_range` tests. The result runs around every place
/// of the plane as often as the contours do, and paints the same places by even-odd. At each of its
/// points it turns, so that its corners are all its points. A contour with points has corners. A
/// point that equals its neighbor is a corner, and so is one from which a contour goes back; where
/// no two neighbors are equal in the contours, none are in the result.
///
/// Returns `Fault::Memory` where a growth is refused.
pub fn corners_of_contours<I: OverlayInt>(
    alloc: Global,
    contours: &[IntContour<I>],
) -> Result<Vec<IntContour<I>>, Fault>
    requires { LieInRange I.whole I.MIN_COORD I.MAX_COORD contours.now }
    ensures corners { IfOk result (λ answer. contours_of I.whole answer.items ≡ corners_in I.whole contours.now) }
    ensures turns { IfOk result (λ answer. corners_in I.whole answer.items ≡ contours_of I.whole answer.items) }
    ensures winds { IfOk result (λ answer. WindAlike I.whole contours.now answer.items) }
    ensures painted { IfOk result (λ answer. PaintAlike I.whole contours.now answer.items) }
    ensures proper { IfOk result (λ answer. StayProper I.whole contours.now answer.items) }
    ensures in_range { IfOk result (λ answer. LieInRange I.whole I.MIN_COORD I.MAX_COORD answer.items) }
    ensures fault { IfErr result (λ fault. fault ≡ Memory) }
{
    let mut answer = Vec::new(alloc);
    for contour in contours {
        let corners = corners_of_contour(alloc, contour)?;
        answer.push(corners)?;
    }
    Ok(answer)
}

/// The corners of the contours of shapes, as `corners_of_contours` returns those of contours. All points have to be in
/// range.
///
/// Returns `Fault::Memory` where a growth is refused.
pub fn corners_of_shapes<I: OverlayInt>(
    alloc: Global,
    shapes: &[IntShape<I>],
) -> Result<Vec<IntShape<I>>, Fault>
    requires { ShapesLieInRange I.whole I.MIN_COORD I.MAX_COORD shapes.now }
    ensures corners { IfOk result (λ answer. shapes_of I.whole answer.items
        ≡ map (map corners) (shapes_of I.whole shapes.now)) }
    ensures in_range { IfOk result (λ answer. ShapesLieInRange I.whole I.MIN_COORD I.MAX_COORD answer.items) }
    ensures fault { IfErr result (λ fault. fault ≡ Memory) }
{
    let mut answer = Vec::new(alloc);
    for shape in shapes {
        let corners = corners_of_contours(alloc, shape)?;
        answer.push(corners)?;
    }
    Ok(answer)
}

/// The corners of one contour.
fn corners_of_contour<I: OverlayInt>(
    alloc: Global,
    contour: &[IntPoint<I>],
) -> Result<IntContour<I>, Fault>
    requires { All (λ p. IsPointInRange I.whole I.MIN_COORD I.MAX_COORD p) contour.now }
    ensures corners { IfOk result (λ answer. points_of I.whole answer.items ≡ corners (points_of I.whole contour.now)) }
    ensures fault { IfErr result (λ fault. fault ≡ Memory) }
{
    let mut corners = Vec::new(alloc);
    let Some((first, later)) = contour.split_first() else {
        return Ok(corners);
    };
    let mut before = last_of(*first, later);
    let mut at = *first;
    for next in later {
        push_corner(&mut corners, before, at, *next)?;
        before = at;
        at = *next;
    }
    push_corner(&mut corners, before, at, *first)?;
    Ok(corners)
}

/// The last point of a contour.
fn last_of<I: OverlayInt>(first: IntPoint<I>, later: &[IntPoint<I>]) -> IntPoint<I>
    requires first { IsPointInRange I.whole I.MIN_COORD I.MAX_COORD first }
    requires later { All (λ p. IsPointInRange I.whole I.MIN_COORD I.MAX_COORD p) later.now }
    ensures last { point_of I.whole result ≡ last_of (point_of I.whole first) (points_of I.whole later.now) }
    ensures in_range { IsPointInRange I.whole I.MIN_COORD I.MAX_COORD result }
{
    let mut last = first;
    for point in later {
        last = *point;
    }
    last
}

/// Appends a point, if the way from the point before to the point after turns there.
fn push_corner<I: OverlayInt>(
    corners: &mut IntContour<I>,
    before: IntPoint<I>,
    at: IntPoint<I>,
    next: IntPoint<I>,
) -> Result<(), Fault>
    requires before { IsPointInRange I.whole I.MIN_COORD I.MAX_COORD before }
    requires at { IsPointInRange I.whole I.MIN_COORD I.MAX_COORD at }
    requires next { IsPointInRange I.whole I.MIN_COORD I.MAX_COORD next }
    ensures corners { OnOk result (points_of I.whole corners.new.items ≡ points_of I.whole corners.old.items
        ++ (if is_straight (point_of I.whole before) (point_of I.whole at) (point_of I.whole next)
        then [] else point_of I.whole at ∷ [])) }
    ensures fault { IfErr result (λ fault. fault ≡ Memory) }
{
    if !is_straight(before, at, next) {
        corners.push(at)?;
    }
    Ok(())
}

/// Whether the way goes straight on at the middle one of three points.
fn is_straight<I: OverlayInt>(p: IntPoint<I>, q: IntPoint<I>, r: IntPoint<I>) -> bool
    requires p { IsPointInRange I.whole I.MIN_COORD I.MAX_COORD p }
    requires q { IsPointInRange I.whole I.MIN_COORD I.MAX_COORD q }
    requires r { IsPointInRange I.whole I.MIN_COORD I.MAX_COORD r }
    ensures { result ≡ is_straight (point_of I.whole p) (point_of I.whole q) (point_of I.whole r) }
{
    Triangle::is_line(p, q, r) && (are_in_order(p, q, r) || are_in_order(r, q, p))
}

/// Whether three points are in the order of points.
fn are_in_order<I: OverlayInt>(p: IntPoint<I>, q: IntPoint<I>, r: IntPoint<I>) -> bool
    ensures { result ≡ (point_lt (point_of I.whole p) (point_of I.whole q)
        && point_lt (point_of I.whole q) (point_of I.whole r)) }
{
    p < q && q < r
}
