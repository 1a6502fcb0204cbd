// Boxes around contours. Two shapes whose boxes share no point share none, which is decided without any overlay.
ghost use Rattle.std.specs.Prelude.{◌≡◌, IsTrue, IfSome};
ghost use Rattle.overlay_contours.specs.Boxes.{all_points};
ghost use Rattle.overlay_contours.specs.ContoursOf.{contours_of};
ghost use Rattle.overlay_geometry.specs.RangeOf.{rect_of};
ghost use Rattle.overlay_relations.specs.Boxes.{are_held, do_boxes_meet};
ghost use Rattle.overlay_relations.specs.steps.Columns.{IsBoxWithin};

use overlay_contours::contour::IntContour;
use overlay_contours::measure::bounding_box;
use overlay_geometry::geom::rect::IntRect;
use overlay_geometry::num::OverlayInt;

/// The least box around the points of contours, if there are any.
pub(crate) fn bounds_of<I: OverlayInt>(contours: &[IntContour<I>]) -> Option<IntRect<I>>
    ensures { IsTrue (are_held I.whole (all_points (contours_of I.whole contours.now)) result) }
{
    bounding_box(contours)
}

/// The least box around one, if there is one, and another.
pub(crate) fn bounds_with<I: OverlayInt>(found: Option<IntRect<I>>, more: IntRect<I>) -> IntRect<I>
    ensures found { IfSome found (λ found. IsBoxWithin (rect_of I.whole found) (rect_of I.whole result)) }
    ensures more { IsBoxWithin (rect_of I.whole more) (rect_of I.whole result) }
{
    match found {
        None => more,
        Some(found) => IntRect {
            min_x: found.min_x.min(more.min_x),
            max_x: found.max_x.max(more.max_x),
            min_y: found.min_y.min(more.min_y),
            max_y: found.max_y.max(more.max_y),
        },
    }
}

/// Whether two boxes share a point.
pub(crate) fn do_boxes_meet<I: OverlayInt>(
    one: &Option<IntRect<I>>,
    other: &Option<IntRect<I>>,
) -> bool
    ensures { result ≡ do_boxes_meet I.whole one.now other.now }
{
    match (one, other) {
        (Some(one), Some(other)) => one.is_intersect_border_include(other),
        _ => false,
    }
}
