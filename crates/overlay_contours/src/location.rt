// Where a point lies with respect to contours. This project's own.
ghost use Rattle.std.specs.Prelude.{◌≡◌, ◌≤◌, ◌^◌, ◌∷◌, [], unsigned_abs, IfSome};
ghost use Rattle.overlay_geometry.specs.InRange.{IsPointInRange};
ghost use Rattle.overlay_geometry.specs.PointOf.{point_of};
ghost use Rattle.overlay_geometry.specs.Points.{is_between, is_in_box};
ghost use Rattle.overlay_sweep.specs.Fill.{is_inside};
ghost use Rattle.overlay_contours.specs.Contours.{steps, steps_of};
ghost use Rattle.overlay_contours.specs.ContoursIn.{LieInRange, LiesInRange};
ghost use Rattle.overlay_contours.specs.ContoursOf.{points_of, contours_of};
ghost use Rattle.overlay_contours.specs.Locations.{location};
ghost use Rattle.overlay_contours.specs.steps.Locating.{IsWindingOf};

use crate::contour::IntContour;
use overlay_base::overlay_core::fill_rule::FillRule;
use overlay_geometry::geom::point::IntPoint;
use overlay_geometry::geom::triangle::Triangle;
use overlay_geometry::num::OverlayInt;
use std::cmp::Ordering;

/// Where a point lies with respect to contours, under a fill rule.
#[derive(Clone, Copy, Debug, PartialEq, Eq)]
pub enum PointLocation {
    /// On no step of a contour, and the contours wind around it as the fill rule has it of places inside.
    Inside,
    /// On a step of a contour, ends included.
    OnBoundary,
    /// On no step of a contour, and outside by the fill rule.
    Outside,
}

/// Where a point lies with respect to contours, exactly: on the boundary if it lies on a step of one of them, ends
/// included; else inside or outside, by how often the contours wind around it and the fill rule.
///
/// The contours of a shape may be given, or any others. The point and theirs have to be in range. A step along which
/// both sides are inside is a step too, so a point on it is on the boundary.
pub fn locate_point<I: OverlayInt>(
    contours: &[IntContour<I>],
    fill_rule: FillRule,
    point: IntPoint<I>,
) -> PointLocation
    requires contours { LieInRange I.whole I.MIN_COORD I.MAX_COORD contours.now }
    requires point { IsPointInRange I.whole I.MIN_COORD I.MAX_COORD point }
    ensures { result ≡ location fill_rule (contours_of I.whole contours.now) (point_of I.whole point) }
{
    match winding_number(contours, point) {
        None => PointLocation::OnBoundary,
        Some(winding) if is_inside(fill_rule, winding) => PointLocation::Inside,
        Some(_) => PointLocation::Outside,
    }
}

/// How often contours wind around a point, counterclockwise. `None` where it lies on a step of one of them.
fn winding_number<I: OverlayInt>(contours: &[IntContour<I>], point: IntPoint<I>) -> Option<i128>
    requires contours { LieInRange I.whole I.MIN_COORD I.MAX_COORD contours.now }
    requires point { IsPointInRange I.whole I.MIN_COORD I.MAX_COORD point }
    ensures winding { IsWindingOf (steps (contours_of I.whole contours.now)) (point_of I.whole point) result }
    ensures bound { IfSome result (λ winding. unsigned_abs winding ≤ 2 ^ 126) }
{
    let mut winding = 0_i128;
    for contour in contours {
        winding += winding_of_contour(contour, point)?;
    }
    Some(winding)
}

/// The same of one contour.
fn winding_of_contour<I: OverlayInt>(contour: &[IntPoint<I>], point: IntPoint<I>) -> Option<i128>
    requires contour { LiesInRange I.whole I.MIN_COORD I.MAX_COORD contour.now }
    requires point { IsPointInRange I.whole I.MIN_COORD I.MAX_COORD point }
    ensures winding { IsWindingOf (steps_of (points_of I.whole contour.now)) (point_of I.whole point) result }
    ensures bound { IfSome result (λ winding. unsigned_abs winding ≤ 2 ^ 64) }
{
    let Some((first, later)) = contour.split_first() else {
        return Some(0);
    };
    let mut winding = 0_i128;
    let mut from = *first;
    for to in later {
        winding += winding_of_step(from, *to, point)?;
        from = *to;
    }
    Some(winding + winding_of_step(from, *first, point)?)
}

/// 1 where a step runs below a point from left to right, -1 where it does from right to left, and else 0. `None` where
/// the point lies on the step.
fn winding_of_step<I: OverlayInt>(
    from: IntPoint<I>,
    to: IntPoint<I>,
    point: IntPoint<I>,
) -> Option<i128>
    requires from { IsPointInRange I.whole I.MIN_COORD I.MAX_COORD from }
    requires to { IsPointInRange I.whole I.MIN_COORD I.MAX_COORD to }
    requires point { IsPointInRange I.whole I.MIN_COORD I.MAX_COORD point }
    ensures winding { IsWindingOf (record { a = point_of I.whole from; b = point_of I.whole to } ∷ [])
        (point_of I.whole point) result }
    ensures bound { IfSome result (λ winding. unsigned_abs winding ≤ 1) }
{
    let (start, end, x) = (from.x.to_wide(), to.x.to_wide(), point.x.to_wide());
    match Triangle::clock_order(from, to, point) {
        Ordering::Equal if is_in_box(from, to, point) => None,
        Ordering::Greater if start <= x && x < end => Some(1),
        Ordering::Less if end <= x && x < start => Some(-1),
        _ => Some(0),
    }
}

/// Whether a point lies in the box that has two points as opposite corners.
fn is_in_box<I: OverlayInt>(from: IntPoint<I>, to: IntPoint<I>, point: IntPoint<I>) -> bool
    ensures { result ≡ is_in_box (record { a = point_of I.whole from; b = point_of I.whole to }) (point_of I.whole point) }
{
    is_between(from.x.to_wide(), to.x.to_wide(), point.x.to_wide())
        && is_between(from.y.to_wide(), to.y.to_wide(), point.y.to_wide())
}

/// Whether a number lies from one to another, whichever is less.
fn is_between(u: i64, v: i64, number: i64) -> bool
    ensures { result ≡ is_between u v number }
{
    u.min(v) <= number && number <= u.max(v)
}

/// Whether a place is inside around which contours wind this often.
fn is_inside(fill_rule: FillRule, winding: i128) -> bool
    ensures { result ≡ is_inside fill_rule winding }
{
    match fill_rule {
        FillRule::EvenOdd => winding % 2 != 0,
        FillRule::NonZero => winding != 0,
        FillRule::Positive => winding > 0,
        FillRule::Negative => winding < 0,
    }
}
