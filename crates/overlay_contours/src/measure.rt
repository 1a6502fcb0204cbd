// Measures of contours. This project's own.
ghost use Rattle.std.specs.Prelude.{◌≡◌, ◌≤◌, ◌<◌, ◌*◌, ◌^◌, ◌++◌, ◌∷◌, [], List, length, unsigned_abs, option_map, IfNone, IfSome};
ghost use Rattle.overlay_geometry.specs.Coordinates.{greatest_product};
ghost use Rattle.overlay_geometry.specs.InRange.{IsPointInRange};
ghost use Rattle.overlay_geometry.specs.PointOf.{point_of};
ghost use Rattle.overlay_geometry.specs.Points.{Point, step, cross_product};
ghost use Rattle.overlay_geometry.specs.RangeOf.{rect_of};
ghost use Rattle.overlay_contours.specs.Areas.{doubled_area, doubled_area_of_all};
ghost use Rattle.overlay_contours.specs.Boxes.{all_points, IsBoundingBox};
ghost use Rattle.overlay_contours.specs.Contours.{steps};
ghost use Rattle.overlay_contours.specs.ContoursIn.{LieInRange, LiesInRange};
ghost use Rattle.overlay_contours.specs.ContoursOf.{points_of, contours_of};
ghost use Rattle.overlay_contours.specs.steps.Bounding.{AreBounds};

use crate::contour::IntContour;
use overlay_geometry::geom::point::IntPoint;
use overlay_geometry::geom::rect::IntRect;
use overlay_geometry::geom::vector::IntVector;
use overlay_geometry::num::OverlayInt;

/// Twice the area that a contour encloses, exact: positive where it runs counterclockwise, as an outer boundary does, and
/// negative where it runs clockwise, as a hole does.
///
/// Each part of the plane counts as often as the contour winds around it. The points have to be in range. No sum is too
/// large for an `i128`.
pub fn doubled_area<I: OverlayInt>(contour: &[IntPoint<I>]) -> i128
    requires { LiesInRange I.whole I.MIN_COORD I.MAX_COORD contour.now }
    ensures { result ≡ doubled_area (points_of I.whole contour.now) }
{
    let Some((first, later)) = contour.split_first() else {
        return 0;
    };
    let mut area = 0_i128;
    let mut before = *first;
    for point in later {
        area += i128::from(doubled_triangle(*first, before, *point));
        before = *point;
    }
    area
}

/// Twice the area of a shape, exact: that of its outer boundary less those of its holes.
///
/// It is the sum over its contours, so it may also be that of all contours of an overlay. The points have to be in
/// range. The sum is exact for fewer than 2^64 points together, and no memory holds more.
pub fn doubled_area_of_shape<I: OverlayInt>(shape: &[IntContour<I>]) -> i128
    requires { LieInRange I.whole I.MIN_COORD I.MAX_COORD shape.now }
    ensures { length (steps (contours_of I.whole shape.now)) < 2 ^ 64
        → result ≡ doubled_area_of_all (contours_of I.whole shape.now) }
{
    let mut area = 0_i128;
    for contour in shape {
        area = area.wrapping_add(doubled_area(contour));
    }
    area
}

/// The least box around the points of contours, with sides along the axes. `None` where there are no points.
///
/// Any points will do, also out of range.
pub fn bounding_box<I: OverlayInt>(contours: &[IntContour<I>]) -> Option<IntRect<I>>
    ensures none { IfNone result (all_points (contours_of I.whole contours.now) ≡ []) }
    ensures least { IfSome result (λ found. IsBoundingBox (all_points (contours_of I.whole contours.now))
        (rect_of I.whole found)) }
{
    let mut bounds = None;
    for contour in contours {
        bounds = bounds_with_points(bounds, contour);
    }
    bounds
}

/// The bounds of points that have these bounds, and of more points.
fn bounds_with_points<I: OverlayInt>(
    bounds: Option<IntRect<I>>,
    points: &[IntPoint<I>],
) -> Option<IntRect<I>>
    ensures { (before : List Point) → AreBounds before (option_map (rect_of I.whole) bounds)
        → AreBounds (before ++ points_of I.whole points.now) (option_map (rect_of I.whole) result) }
{
    let mut bounds = bounds;
    for point in points {
        bounds = Some(box_with_point(bounds, *point));
    }
    bounds
}

/// The same with one more point.
fn box_with_point<I: OverlayInt>(bounds: Option<IntRect<I>>, point: IntPoint<I>) -> IntRect<I>
    ensures { (before : List Point) → AreBounds before (option_map (rect_of I.whole) bounds)
        → IsBoundingBox (before ++ point_of I.whole point ∷ []) (rect_of I.whole result) }
{
    match bounds {
        None => IntRect {
            min_x: point.x,
            max_x: point.x,
            min_y: point.y,
            max_y: point.y,
        },
        Some(found) => IntRect {
            min_x: found.min_x.min(point.x),
            max_x: found.max_x.max(point.x),
            min_y: found.min_y.min(point.y),
            max_y: found.max_y.max(point.y),
        },
    }
}

/// Twice the area of a triangle, positive where its corners run counterclockwise.
fn doubled_triangle<I: OverlayInt>(p: IntPoint<I>, q: IntPoint<I>, r: IntPoint<I>) -> i64
    requires p { IsPointInRange I.whole I.MIN_COORD I.MAX_COORD p }
    requires q { IsPointInRange I.whole I.MIN_COORD I.MAX_COORD q }
    requires r { IsPointInRange I.whole I.MIN_COORD I.MAX_COORD r }
    ensures area { result ≡ cross_product (step (point_of I.whole p) (point_of I.whole q))
        (step (point_of I.whole p) (point_of I.whole r)) }
    ensures bound { unsigned_abs result ≤ 2 * greatest_product }
{
    IntVector::between(p, q).cross_product(IntVector::between(p, r))
}
