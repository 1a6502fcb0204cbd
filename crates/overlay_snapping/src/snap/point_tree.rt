// The points of a set whose pixels a segment meets, found by a tree of boxes. This project's own.
ghost use Rattle.std.specs.Prelude.{◌≡◌, ◌+◌, ◌<◌, ◌≤◌, ◌^◌, ◌*ℤ◌, ◌++◌, [], ◌∷◌, ◌||◌, ◌↔◌, pos, int_lt, true, false, map, length};
ghost use Rattle.std.specs.Prelude.{OnOk, OnErr, IsTrue, IsFalse, Contains};
ghost use Rattle.std.specs.Int.{int_min, int_max};
ghost use Rattle.std.specs.Bool.{OnTrue};
ghost use Rattle.std.specs.List.{list_all};
ghost use Rattle.overlay_geometry.specs.Points.{is_ordered, point_eq, cross_product, Point};
ghost use Rattle.overlay_geometry.specs.Sorting.{has_repeat};
ghost use Rattle.overlay_geometry.specs.VectorOf.{vector_of};
ghost use Rattle.overlay_geometry.specs.PointOf.{point_of};
ghost use Rattle.overlay_geometry.specs.PairOf.{pair_of};
ghost use Rattle.overlay_geometry.specs.RangeOf.{rect_of};
ghost use Rattle.overlay_geometry.specs.Ranges.{is_off_range};
ghost use Rattle.overlay_geometry.specs.Coordinates.{is_point_in_range};
ghost use Rattle.overlay_geometry.specs.InRange.{IsPointInRange, IsPairInRange};
ghost use Rattle.overlay_snapping.specs.Pixels.{meets_pixel};
ghost use Rattle.overlay_snapping.specs.steps.PointTrees.{HoldPoints, met_places_from, is_in_rect, is_rect_in_range};
ghost use Rattle.overlay_snapping.specs.steps.PointTrees.{right_corner, left_corner, IsBoxOf, rect_at, rect_with, column_of, tile_key, AreByColumns, is_before, is_up_to, IsFirstFailing};
ghost use Rattle.overlay_snapping.specs.steps.BoxesOf.{rect_if_any};

use crate::snap::pixel::{extent, meets_pixel};
use overlay_geometry::geom::line_range::LineRange;
use overlay_geometry::geom::point::IntPoint;
use overlay_geometry::geom::rect::IntRect;
use overlay_geometry::geom::vector::IntVector;
use overlay_geometry::geom::x_segment::XSegment;
use overlay_geometry::num::OverlayInt;
use std::alloc::{AllocError, Global};

/// Points, each once, with a tree of bounding boxes over them: it finds the points whose pixels a segment meets.
///
/// The points are kept column by column, so that parts of the list lie close together, and a short segment finds points
/// in the columns that it runs through. The tree is a second list: the box of all points in its middle, and the trees
/// over the points before and after the middle on both sides.
#[derive(Drop)]
pub struct PointTree<I: OverlayInt> {
    points: Vec<IntPoint<I>>,
    boxes: Vec<IntRect<I>>,
    shift: u32,
    ghost columns: { AreByColumns I.whole shift points.items },
    ghost holds: { HoldPoints (I.whole I.MIN_COORD) (I.whole I.MAX_COORD) (map (rect_of I.whole) boxes.items)
        (map (point_of I.whole) points.items) },
}

impl<I: OverlayInt> PointTree<I> {
    ghost use Rattle.overlay_snapping.specs.Pixels.{met_places};
    ghost use Rattle.overlay_snapping.specs.PointTreeOf.{points_of, points_in};

    /// A tree over no points.
    pub fn new(alloc: Global) -> Self
        ensures { points_of result ≡ [] }
    {
        PointTree {
            points: Vec::new(alloc),
            boxes: Vec::new(alloc),
            shift: 0,
        }
    }

    /// Takes these points, each once, in place of those that the tree has. It keeps its memory.
    ///
    /// The points have to be in range. Returns `AllocError` where a growth is refused; the tree has no points then.
    pub fn fill(&mut self, points: &[IntPoint<I>]) -> Result<(), AllocError>
        requires in_range { IsTrue (list_all (is_point_in_range (I.whole I.MIN_COORD) (I.whole I.MAX_COORD))
            (map (point_of I.whole) points.now)) }
        ensures same { OnOk result ((p : IntPoint I) → Contains (points_of self.new) p ↔ Contains points.now p) }
        ensures once { IsFalse (has_repeat point_eq (points_in self.new)) }
        ensures emptied { OnErr result (points_of self.new ≡ []) }
    {
        self.shift = column_shift(points);
        let filled = fill_lists(points, self.shift, &mut self.points, &mut self.boxes);
        if filled.is_err() {
            self.points.clear();
            self.boxes.clear();
        }
        filled
    }

    /// The points, each once. A place is an index into them.
    pub fn points(&self) -> &[IntPoint<I>]
        ensures { result.now ≡ points_of self.now }
    {
        self.points.as_slice()
    }

    /// Appends the places of all points whose pixels the segment meets, by rising place.
    ///
    /// The segment has to be in range, and its ends in order. Returns `AllocError` where a growth is refused; some of
    /// the places are appended then.
    pub fn append_met(
        &self,
        segment: &XSegment<I>,
        places: &mut Vec<usize>,
    ) -> Result<(), AllocError>
        requires in_range { IsPairInRange I.whole I.MIN_COORD I.MAX_COORD segment.now }
        requires ordered { IsTrue (is_ordered (pair_of I.whole segment.now)) }
        ensures { OnOk result (places.new.items
            ≡ places.old.items ++ met_places (pair_of I.whole segment.now) (points_in self.now)) }
    {
        let (first, last) = (
            column_of(segment.a, self.shift),
            column_of(segment.b, self.shift),
        );
        if last.abs_diff(first) < MAX_SCANNED_COLUMNS {
            return append_met_in_columns(&self.points, self.shift, segment, places);
        }
        append_met_among(&self.points, &self.boxes, 0, segment, places)
    }
}

/// The number of columns from which on the points of a segment are found by the tree. In fewer, a search of each takes
/// less time than to descend.
const MAX_SCANNED_COLUMNS: u64 = 8;

/// The column of a point.
fn column_of<I: OverlayInt>(point: IntPoint<I>, shift: u32) -> i64
    ensures { result ≡ column_of shift (point_of I.whole point).x }
{
    point.x.to_wide().wrapping_shr(shift)
}

/// As `PointTree::append_met`, for points column by column: in each column of the segment those between its least and its
/// greatest height are tested.
fn append_met_in_columns<I: OverlayInt>(
    points: &[IntPoint<I>],
    shift: u32,
    segment: &XSegment<I>,
    places: &mut Vec<usize>,
) -> Result<(), AllocError>
    requires in_range { IsPairInRange I.whole I.MIN_COORD I.MAX_COORD segment.now }
    requires ordered { IsTrue (is_ordered (pair_of I.whole segment.now)) }
    requires points { list_all (is_point_in_range (I.whole I.MIN_COORD) (I.whole I.MAX_COORD))
        (map (point_of I.whole) points.now) ≡ true }
    requires columns { AreByColumns I.whole shift points.now }
    ensures { OnOk result (places.new.items ≡ places.old.items
        ++ met_places_from 0 (pair_of I.whole segment.now) (map (point_of I.whole) points.now)) }
{
    let low = lesser(segment.a.y, segment.b.y);
    let high = greater(segment.a.y, segment.b.y);
    let mut place = first_from(
        points,
        shift,
        IntPoint {
            x: segment.a.x,
            y: low,
        },
    );
    while place < points.len() {
        let point = points[place];
        if is_left_of(segment.b, point, shift) {
            return Ok(());
        }
        if is_less(point.y, low) {
            place = first_from(points, shift, IntPoint { x: point.x, y: low });
        } else if is_less(high, point.y) {
            place = first_behind(points, shift, point);
        } else {
            append_if_met(point, place, segment, places)?;
            place += 1;
        }
    }
    Ok(())
}

/// Whether a coordinate is less than another one.
fn is_less<I: OverlayInt>(a: I, b: I) -> bool
    ensures { result ≡ int_lt (I.whole a) (I.whole b) }
{
    a < b
}

/// Whether a point is in an earlier column than another one.
fn is_left_of<I: OverlayInt>(point: IntPoint<I>, other: IntPoint<I>, shift: u32) -> bool
    ensures { result ≡ int_lt (column_of shift (I.whole point.x)) (column_of shift (I.whole other.x)) }
{
    column_of(point, shift) < column_of(other, shift)
}

/// The first place, of points column by column, of a point that is neither in an earlier column than a corner, nor lower in
/// its column.
fn first_from<I: OverlayInt>(points: &[IntPoint<I>], shift: u32, corner: IntPoint<I>) -> usize
    requires { AreByColumns I.whole shift points.now }
    ensures place { IsFirstFailing I.whole (is_before shift (column_of shift (I.whole corner.x)) (I.whole corner.y)) points.now result }
    ensures bound { result ≤ length points.now }
{
    points.partition_point(|point| is_before(*point, shift, corner))
}

/// Whether a point is in an earlier column than a corner, or lower in its column.
fn is_before<I: OverlayInt>(point: IntPoint<I>, shift: u32, corner: IntPoint<I>) -> bool
    ensures { result ≡ is_before shift (column_of shift (I.whole corner.x)) (I.whole corner.y) (point_of I.whole point) }
{
    let (own, column) = (column_of(point, shift), column_of(corner, shift));
    own < column || (own == column && point.y < corner.y)
}

/// The first place, of points column by column, of a point in a later column than another one.
fn first_behind<I: OverlayInt>(points: &[IntPoint<I>], shift: u32, from: IntPoint<I>) -> usize
    requires { AreByColumns I.whole shift points.now }
    ensures place { IsFirstFailing I.whole (is_up_to shift (column_of shift (I.whole from.x))) points.now result }
    ensures bound { result ≤ length points.now }
{
    points.partition_point(|point| is_up_to(*point, shift, from))
}

/// Whether a point is in no later column than another one.
fn is_up_to<I: OverlayInt>(point: IntPoint<I>, shift: u32, other: IntPoint<I>) -> bool
    ensures { result ≡ is_up_to shift (column_of shift (I.whole other.x)) (point_of I.whole point) }
{
    column_of(point, shift) <= column_of(other, shift)
}

/// Puts the points into a list, each once, column by column, and the boxes of the tree over them into another.
fn fill_lists<I: OverlayInt>(
    points: &[IntPoint<I>],
    shift: u32,
    kept: &mut Vec<IntPoint<I>>,
    boxes: &mut Vec<IntRect<I>>,
) -> Result<(), AllocError>
    requires in_range { list_all (is_point_in_range (I.whole I.MIN_COORD) (I.whole I.MAX_COORD))
        (map (point_of I.whole) points.now) ≡ true }
    ensures same { OnOk result ((p : IntPoint I) → Contains kept.new.items p ↔ Contains points.now p) }
    ensures once { OnOk result (has_repeat point_eq (map (point_of I.whole) kept.new.items) ≡ false) }
    ensures columns { OnOk result (AreByColumns I.whole shift kept.new.items) }
    ensures holds { OnOk result (HoldPoints (I.whole I.MIN_COORD) (I.whole I.MAX_COORD)
        (map (rect_of I.whole) boxes.new.items) (map (point_of I.whole) kept.new.items)) }
{
    list_by_columns(points, shift, kept)?;
    let nothing = IntRect {
        min_x: I::ZERO,
        max_x: I::ZERO,
        min_y: I::ZERO,
        max_y: I::ZERO,
    };
    boxes.clear();
    boxes.resize(kept.len(), nothing)?;
    set_boxes(kept, boxes);
    Ok(())
}

/// Puts the points into a list, each once, column by column and upward in each.
fn list_by_columns<I: OverlayInt>(
    points: &[IntPoint<I>],
    shift: u32,
    kept: &mut Vec<IntPoint<I>>,
) -> Result<(), AllocError>
    ensures same { OnOk result ((p : IntPoint I) → Contains kept.new.items p ↔ Contains points.now p) }
    ensures once { OnOk result (has_repeat point_eq (map (point_of I.whole) kept.new.items) ≡ false) }
    ensures columns { OnOk result (AreByColumns I.whole shift kept.new.items) }
{
    kept.clear();
    kept.extend_from_slice(points)?;
    kept.sort_by_key(|point| tile_key(point, shift))?;
    kept.dedup();
    Ok(())
}

/// The column of a point, of columns that are a power of two wide, and its coordinates, upward first.
fn tile_key<I: OverlayInt>(point: &IntPoint<I>, shift: u32) -> (i64, i64, i64)
    ensures { result ≡ tile_key shift (point_of I.whole point.now) }
{
    let x = point.x.to_wide();
    (x.wrapping_shr(shift), point.y.to_wide(), x)
}

/// The logarithm of the width of columns. If the points are spread evenly, there are about as many columns as points in
/// each.
fn column_shift<I: OverlayInt>(points: &[IntPoint<I>]) -> u32 {
    let mut least = 0_i64;
    let mut greatest = 0_i64;
    for (index, point) in points.iter().enumerate() {
        let x = point.x.to_wide();
        least = if index == 0 { x } else { least.min(x) };
        greatest = if index == 0 { x } else { greatest.max(x) };
    }
    let columns = points.len().isqrt().max(1) as u64;
    (greatest.abs_diff(least) / columns).max(1).ilog2()
}

/// Sets the boxes of a tree, from the smallest parts up. Returns the box of all points, if there are any.
fn set_boxes<I: OverlayInt>(points: &[IntPoint<I>], boxes: &mut [IntRect<I>]) -> Option<IntRect<I>>
    requires in_range { list_all (is_point_in_range (I.whole I.MIN_COORD) (I.whole I.MAX_COORD))
        (map (point_of I.whole) points.now) ≡ true }
    requires one_each { length boxes.old ≡ length points.now }
    ensures holds { HoldPoints (I.whole I.MIN_COORD) (I.whole I.MAX_COORD) (map (rect_of I.whole) boxes.new)
        (map (point_of I.whole) points.now) }
    ensures bounds { IsBoxOf (I.whole I.MIN_COORD) (I.whole I.MAX_COORD) (rect_if_any I.whole result)
        (map (point_of I.whole) points.now) }
{
    let mid = points.len() / 2;
    let (left, later) = points.split_at(mid);
    let Some((point, right)) = later.split_first() else {
        return None;
    };
    let (left_boxes, later_boxes) = boxes.split_at_mut(mid);
    let Some((bounds, right_boxes)) = later_boxes.split_first_mut() else {
        return None;
    };
    let left_bounds = set_boxes(left, left_boxes);
    let right_bounds = set_boxes(right, right_boxes);
    *bounds = joined(joined(box_of(*point), left_bounds), right_bounds);
    Some(*bounds)
}

/// The box of one point.
fn box_of<I: OverlayInt>(point: IntPoint<I>) -> IntRect<I>
    ensures { rect_of I.whole result ≡ rect_at (point_of I.whole point) }
{
    IntRect {
        min_x: point.x,
        max_x: point.x,
        min_y: point.y,
        max_y: point.y,
    }
}

/// The least box around a box and another, if there is one.
fn joined<I: OverlayInt>(bounds: IntRect<I>, other: Option<IntRect<I>>) -> IntRect<I>
    ensures { rect_of I.whole result ≡ rect_with (rect_of I.whole bounds) (rect_if_any I.whole other) }
{
    match other {
        None => bounds,
        Some(more) => IntRect {
            min_x: lesser(bounds.min_x, more.min_x),
            max_x: greater(bounds.max_x, more.max_x),
            min_y: lesser(bounds.min_y, more.min_y),
            max_y: greater(bounds.max_y, more.max_y),
        },
    }
}

/// The lesser of two coordinates.
fn lesser<I: OverlayInt>(a: I, b: I) -> I
    ensures { I.whole result ≡ int_min (I.whole a) (I.whole b) }
{
    if b < a { b } else { a }
}

/// The greater of two coordinates.
fn greater<I: OverlayInt>(a: I, b: I) -> I
    ensures { I.whole result ≡ int_max (I.whole a) (I.whole b) }
{
    if a < b { b } else { a }
}

/// The most points of a part that are tested one by one, which takes less time than to descend.
const MAX_SCANNED_POINTS: usize = 8;

/// As `PointTree::append_met`, in a part of a tree whose first point is at a place.
fn append_met_among<I: OverlayInt>(
    points: &[IntPoint<I>],
    boxes: &[IntRect<I>],
    first: usize,
    segment: &XSegment<I>,
    places: &mut Vec<usize>,
) -> Result<(), AllocError>
    requires in_range { IsPairInRange I.whole I.MIN_COORD I.MAX_COORD segment.now }
    requires ordered { IsTrue (is_ordered (pair_of I.whole segment.now)) }
    requires holds { HoldPoints (I.whole I.MIN_COORD) (I.whole I.MAX_COORD) (map (rect_of I.whole) boxes.now)
        (map (point_of I.whole) points.now) }
    requires places { first + length points.now < 2 ^ 64 }
    ensures { OnOk result (places.new.items ≡ places.old.items
        ++ met_places_from first (pair_of I.whole segment.now) (map (point_of I.whole) points.now)) }
{
    if points.len() <= MAX_SCANNED_POINTS {
        return append_each_met(points, first, segment, places);
    }
    let mid = points.len() / 2;
    let (left_boxes, later_boxes) = boxes.split_at(mid);
    let Some((bounds, right_boxes)) = later_boxes.split_first() else {
        return Ok(());
    };
    let (left, later) = points.split_at(mid);
    let Some((point, right)) = later.split_first() else {
        return Ok(());
    };
    if misses(segment, bounds) {
        return Ok(());
    }
    append_met_among(left, left_boxes, first, segment, places)?;
    append_if_met(*point, first + mid, segment, places)?;
    append_met_among(right, right_boxes, first + mid + 1, segment, places)
}

/// As `append_met_among`, by a test of each point.
fn append_each_met<I: OverlayInt>(
    points: &[IntPoint<I>],
    first: usize,
    segment: &XSegment<I>,
    places: &mut Vec<usize>,
) -> Result<(), AllocError>
    requires in_range { IsPairInRange I.whole I.MIN_COORD I.MAX_COORD segment.now }
    requires ordered { IsTrue (is_ordered (pair_of I.whole segment.now)) }
    requires points { list_all (is_point_in_range (I.whole I.MIN_COORD) (I.whole I.MAX_COORD))
        (map (point_of I.whole) points.now) ≡ true }
    requires places { first + length points.now < 2 ^ 64 }
    ensures { OnOk result (places.new.items ≡ places.old.items
        ++ met_places_from first (pair_of I.whole segment.now) (map (point_of I.whole) points.now)) }
{
    for index in 0..points.len() {
        append_if_met(points[index], first + index, segment, places)?;
    }
    Ok(())
}

/// Appends the place of a point where the segment meets the point's pixel.
fn append_if_met<I: OverlayInt>(
    point: IntPoint<I>,
    place: usize,
    segment: &XSegment<I>,
    places: &mut Vec<usize>,
) -> Result<(), AllocError>
    requires in_range { IsPairInRange I.whole I.MIN_COORD I.MAX_COORD segment.now }
    requires ordered { IsTrue (is_ordered (pair_of I.whole segment.now)) }
    requires point { IsPointInRange I.whole I.MIN_COORD I.MAX_COORD point }
    ensures { OnOk result (places.new.items ≡ places.old.items
        ++ met_places_from place (pair_of I.whole segment.now) (point_of I.whole point ∷ [])) }
{
    if meets_pixel(segment, point) {
        places.push(place)?;
    }
    Ok(())
}

/// Whether the segment is seen to meet the pixel of no point in a box.
fn misses<I: OverlayInt>(segment: &XSegment<I>, bounds: &IntRect<I>) -> bool
    requires in_range { IsPairInRange I.whole I.MIN_COORD I.MAX_COORD segment.now }
    requires ordered { IsTrue (is_ordered (pair_of I.whole segment.now)) }
    requires bounds { is_rect_in_range (I.whole I.MIN_COORD) (I.whole I.MAX_COORD) (rect_of I.whole bounds.now) ≡ true }
    ensures { OnTrue result ((c : Point) → is_in_rect (rect_of I.whole bounds.now) c ≡ true
        → meets_pixel (pair_of I.whole segment.now) c ≡ false) }
{
    is_off_box(segment, bounds) || is_off_line(segment, bounds)
}

/// Whether a box lies on one side of the segment's line, and apart from all pixels that the line meets.
fn is_off_line<I: OverlayInt>(segment: &XSegment<I>, bounds: &IntRect<I>) -> bool
    requires in_range { IsPairInRange I.whole I.MIN_COORD I.MAX_COORD segment.now }
    requires ordered { IsTrue (is_ordered (pair_of I.whole segment.now)) }
    requires bounds { is_rect_in_range (I.whole I.MIN_COORD) (I.whole I.MAX_COORD) (rect_of I.whole bounds.now) ≡ true }
    ensures { OnTrue result ((c : Point) → is_in_rect (rect_of I.whole bounds.now) c ≡ true
        → meets_pixel (pair_of I.whole segment.now) c ≡ false) }
{
    let way = IntVector::between(segment.a, segment.b);
    let falls = falls(way);
    let right = IntVector::between(segment.a, right_corner(bounds, falls));
    let left = IntVector::between(segment.a, left_corner(bounds, falls));
    let extent = extent(way);
    turns_beyond(way, right, extent) || turns_beyond(left, way, extent)
}

/// Whether a way goes down.
fn falls(way: IntVector) -> bool
    ensures { result ≡ int_lt (vector_of way).y (pos 0) }
{
    way.y() < 0
}

/// The corner of a box that lies farthest to the right of a way which does not go left.
fn right_corner<I: OverlayInt>(bounds: &IntRect<I>, falls: bool) -> IntPoint<I>
    requires { is_rect_in_range (I.whole I.MIN_COORD) (I.whole I.MAX_COORD) (rect_of I.whole bounds.now) ≡ true }
    ensures corner { point_of I.whole result ≡ right_corner falls (rect_of I.whole bounds.now) }
    ensures in_range { IsPointInRange I.whole I.MIN_COORD I.MAX_COORD result }
{
    if falls {
        IntPoint::new(bounds.min_x, bounds.min_y)
    } else {
        IntPoint::new(bounds.max_x, bounds.min_y)
    }
}

/// The corner of a box that lies farthest to the left of a way which does not go left.
fn left_corner<I: OverlayInt>(bounds: &IntRect<I>, falls: bool) -> IntPoint<I>
    requires { is_rect_in_range (I.whole I.MIN_COORD) (I.whole I.MAX_COORD) (rect_of I.whole bounds.now) ≡ true }
    ensures corner { point_of I.whole result ≡ left_corner falls (rect_of I.whole bounds.now) }
    ensures in_range { IsPointInRange I.whole I.MIN_COORD I.MAX_COORD result }
{
    if falls {
        IntPoint::new(bounds.max_x, bounds.max_y)
    } else {
        IntPoint::new(bounds.min_x, bounds.max_y)
    }
}

/// Whether a way turns to the left to another by more than half the extent.
fn turns_beyond(way: IntVector, to: IntVector, extent: u64) -> bool
    ensures { result ≡ int_lt (pos extent) (pos 2 *ℤ cross_product (vector_of way) (vector_of to)) }
{
    let turn = way.cross_product(to);
    turn > 0 && extent < 2 * turn.unsigned_abs()
}

/// Whether the box of the segment, whose ends are in order, shares no point with another box.
fn is_off_box<I: OverlayInt>(segment: &XSegment<I>, bounds: &IntRect<I>) -> bool
    ensures { result ≡ (int_lt (I.whole segment.now.b.x) (I.whole bounds.now.min_x)
        || int_lt (I.whole bounds.now.max_x) (I.whole segment.now.a.x)
        || is_off_range (record { least = I.whole bounds.now.min_y; greatest = I.whole bounds.now.max_y })
        (pair_of I.whole segment.now)) }
{
    let heights = LineRange {
        min: bounds.min_y,
        max: bounds.max_y,
    };
    segment.b.x < bounds.min_x
        || bounds.max_x < segment.a.x
        || segment.is_not_intersect_y_range(&heights)
}
