// Points in order: it finds those whose pixels a segment meets among the points between its ends in `x`. This project's own.
ghost use Rattle.std.specs.Prelude.{◌≡◌, ◌<◌, ◌<ℤ◌, ◌↔◌, ℕ, map, Some, slice_get, Contains, OnOk, IsTrue};
ghost use Rattle.std.specs.List.{list_all};
ghost use Rattle.overlay_geometry.specs.Points.{is_ordered};
ghost use Rattle.overlay_geometry.specs.PointOf.{point_of};
ghost use Rattle.overlay_geometry.specs.PairOf.{pair_of};
ghost use Rattle.overlay_geometry.specs.Coordinates.{is_point_in_range};
ghost use Rattle.overlay_geometry.specs.InRange.{IsPairInRange};
ghost use Rattle.overlay_geometry.specs.declared.geom.point.IntPoint.{IntPoint};
ghost use Rattle.overlay_snapping.specs.steps.InOrder.{AreInOrder, AreLeft};
ghost use Rattle.overlay_snapping.specs.steps.Met.{AddsAllMet};

use crate::snap::inner_box::InnerBox;
use crate::snap::point_grid::is_met;
use overlay_geometry::geom::point::IntPoint;
use overlay_geometry::geom::x_segment::XSegment;
use overlay_geometry::num::OverlayInt;
use std::alloc::AllocError;

/// Puts points into a list in order, each once.
///
/// Returns `AllocError` where a growth is refused; the list has some of the points then, in any order.
pub(crate) fn list_in_order<I: OverlayInt>(
    points: &[IntPoint<I>],
    kept: &mut Vec<IntPoint<I>>,
) -> Result<(), AllocError>
    ensures same { OnOk result ((p : IntPoint I) → Contains kept.new.items p ↔ Contains points.now p) }
    ensures in_order { OnOk result (AreInOrder I.whole kept.new.items) }
{
    kept.clear();
    kept.extend_from_slice(points)?;
    kept.sort()?;
    kept.dedup();
    Ok(())
}

/// An index of points in order, all before which lie left of a coordinate, and none behind which does. It is sought step by step
/// from another index.
pub(crate) fn first_not_left<I: OverlayInt>(points: &[IntPoint<I>], start: usize, x: I) -> usize
    requires in_order { AreInOrder I.whole points.now }
    ensures { AreLeft I.whole points.now result (I.whole x) }
{
    let mut place = start.min(points.len());
    while place > 0 && x <= points[place - 1].x {
        place -= 1;
    }
    while place < points.len() && points[place].x < x {
        place += 1;
    }
    place
}

/// Appends the points whose pixels the segment meets, but for its ends. Those before an index lie left of it.
///
/// Points and segment have to be in range, and the segment's ends in order. Returns `AllocError` where a growth is refused;
/// some of the points are appended then.
pub(crate) fn append_met_from<I: OverlayInt>(
    points: &[IntPoint<I>],
    first: usize,
    segment: &XSegment<I>,
    met: &mut Vec<IntPoint<I>>,
) -> Result<(), AllocError>
    requires points { IsTrue (list_all (is_point_in_range (I.whole I.MIN_COORD) (I.whole I.MAX_COORD))
        (map (point_of I.whole) points.now)) }
    requires in_order { AreInOrder I.whole points.now }
    requires left { AreLeft I.whole points.now first (I.whole segment.now.a.x) }
    requires in_range { IsPairInRange I.whole I.MIN_COORD I.MAX_COORD segment.now }
    requires ordered { IsTrue (is_ordered (pair_of I.whole segment.now)) }
    ensures { OnOk result (AddsAllMet (pair_of I.whole segment.now) (map (point_of I.whole) points.now)
        (map (point_of I.whole) met.old.items) (map (point_of I.whole) met.new.items)) }
{
    let inner = InnerBox::of(segment);
    for index in first..points.len() {
        let point = points[index];
        if segment.b.x < point.x {
            return Ok(());
        }
        if is_met(segment, &inner, point) {
            met.push(point)?;
        }
    }
    Ok(())
}
