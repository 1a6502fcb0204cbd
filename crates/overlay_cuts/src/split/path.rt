// The path of a segment through its marks. Upstream: `sort_sub_marks` of `split::solver`.
ghost use Rattle.std.specs.Prelude.{◌≡◌, ◌++◌, ◌≤◌, ◌<◌, length, OnOk, map, reverse, int_lt};
ghost use Rattle.std.specs.List.{prefix_len};
ghost use Rattle.std.specs.Ordering.{int_eq};
ghost use Rattle.overlay_geometry.specs.PointOf.{point_of};
ghost use Rattle.overlay_cuts.specs.Path.{column_path, last_point};
ghost use Rattle.overlay_cuts.specs.steps.PathSteps.{first_point};
ghost use Rattle.overlay_intersections.specs.MarkOf.{points_of, mark_points_of};
ghost use Rattle.overlay_cuts.specs.steps.PiecesOf.{path_through};

use overlay_geometry::geom::point::IntPoint;
use overlay_geometry::num::OverlayInt;
use overlay_intersections::split::line_mark::LineMark;
use std::alloc::AllocError;

/// Collects the path that follows on `a`: the marks, which are given in order of points, and then `b`.
///
/// Marks go by rising x. Those of one x go by rising y, unless the path's point before them lies higher than the lowest
/// mark of the next x, or than `b` where there is none; then by falling y.
///
/// What `path` held before is dropped. Where a growth is refused it has some of the points.
pub fn collect_path<I: OverlayInt>(
    a: IntPoint<I>,
    marks: &[LineMark<I>],
    b: IntPoint<I>,
    path: &mut Vec<IntPoint<I>>,
) -> Result<(), AllocError>
    ensures { OnOk result (points_of I.whole path.new.items ≡ path_through I.whole a marks.now b) }
{
    path.clear();
    let mut rest = marks;
    while let Some(first) = rest.first() {
        let (column, later) = rest.split_at(column_len(first.point.x, rest));
        let before = last_or(path.as_slice(), a);
        let next = first_or(later, b);
        append_column(before, column, next, path)?;
        rest = later;
    }
    path.push(b)?;
    Ok(())
}

/// How many marks in front have this x.
fn column_len<I: OverlayInt>(x: I, marks: &[LineMark<I>]) -> usize
    ensures block { result ≡ prefix_len (λ m. int_eq (I.whole m.point.x) (I.whole x)) marks.now }
    ensures within { result ≤ length marks.now }
{
    for (index, mark) in marks.iter().enumerate() {
        if mark.point.x != x {
            return index;
        }
    }
    marks.len()
}

/// Appends the marks of one x to a path.
fn append_column<I: OverlayInt>(
    before: IntPoint<I>,
    column: &[LineMark<I>],
    next: IntPoint<I>,
    path: &mut Vec<IntPoint<I>>,
) -> Result<(), AllocError>
    ensures { OnOk result (points_of I.whole path.new.items ≡ points_of I.whole path.old.items
        ++ column_path (point_of I.whole before) (mark_points_of I.whole column.now) (point_of I.whole next)) }
{
    if is_lower(next.y, before.y) {
        append_downward(column, path)
    } else {
        append_upward(column, path)
    }
}

/// The last point of a path, or `a` where it is empty.
fn last_or<I: OverlayInt>(path: &[IntPoint<I>], a: IntPoint<I>) -> IntPoint<I>
    ensures { point_of I.whole result ≡ last_point (point_of I.whole a) (points_of I.whole path.now) }
{
    path.last().copied().unwrap_or(a)
}

/// The point of the first mark, or `b` where there is none.
fn first_or<I: OverlayInt>(marks: &[LineMark<I>], b: IntPoint<I>) -> IntPoint<I>
    ensures { point_of I.whole result ≡ first_point (mark_points_of I.whole marks.now) (point_of I.whole b) }
{
    marks.first().map_or(b, |mark| mark.point)
}

/// Whether a height is less than another.
fn is_lower<I: OverlayInt>(a: I, b: I) -> bool
    ensures { result ≡ int_lt (I.whole a) (I.whole b) }
{
    a < b
}

/// Appends the points of a column's marks in their order.
fn append_upward<I: OverlayInt>(
    column: &[LineMark<I>],
    path: &mut Vec<IntPoint<I>>,
) -> Result<(), AllocError>
    ensures { OnOk result (path.new.items ≡ path.old.items ++ map (λ m. m.point) column.now) }
{
    path.extend(column.iter().map(|mark| mark.point))
}

/// Appends the points of a column's marks from the last to the first.
fn append_downward<I: OverlayInt>(
    column: &[LineMark<I>],
    path: &mut Vec<IntPoint<I>>,
) -> Result<(), AllocError>
    ensures { OnOk result (path.new.items ≡ path.old.items ++ map (λ m. m.point) (reverse column.now)) }
{
    path.extend(column.iter().rev().map(|mark| mark.point))
}
