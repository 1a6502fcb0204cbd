// The marks on vertical segments that lie on the border of a column. Upstream: part of
// `split::solver_fragment`.
ghost use Rattle.std.specs.Prelude.{◌≡◌, ◌≤◌, ◌+◌, ◌-◌, ◌*◌, ◌++◌, ◌^◌, ℕ, min, IsTrue, OnOk, IsSorted, int_le, int_lt, ◌≤ℤ◌, ◌<ℤ◌, map, length, flat_map, count_by, sum_by};
ghost use Rattle.std.specs.List.{AllByRecursion, range_with_len};
ghost use Rattle.std.specs.List.Sorted.{IsPartitionPoint};
ghost use Rattle.overlay_grid.specs.Grid.{pos_of, group_count};
ghost use Rattle.overlay_intersections.specs.MarkOf.{marks_of};
ghost use Rattle.overlay_grid.specs.FragmentOf.{fragment_of, fragments_of};
ghost use Rattle.overlay_grid.specs.GroupsOf.{group_of, grid_of};
ghost use Rattle.overlay_grid.specs.steps.BufferBorders.{buffer_borders};
ghost use Rattle.overlay_grid.specs.steps.FragmentFinder.{HoldSame, is_ready, stands_at, marks_at_heights, marks_of_heights, marks_of_border, looks_of_border};

use crate::split::fragment::Fragment;
use crate::split::fragment_buffer::FragmentBuffer;
use overlay_geometry::geom::point::IntPoint;
use overlay_geometry::num::OverlayInt;
use overlay_intersections::split::line_mark::LineMark;
use overlay_intersections::split::looks::take_up;
use overlay_intersections::split::marking::mark;
use std::alloc::AllocError;

/// Appends the marks on vertical segments that lie on the left border of a column, other than the
/// first: the right ends at that `x` in the column to the left which lie strictly between their
/// ends.
pub(crate) fn mark_borders<I: OverlayInt>(
    buffer: &mut FragmentBuffer<I>,
    marks: &mut Vec<LineMark<I>>,
    looked: &mut u128,
) -> Result<(), AllocError>
    requires ready { (column : ℕ) → AllByRecursion (λ f. IsTrue
        (is_ready (I.whole I.MIN_COORD) (I.whole I.MAX_COORD) f)) (group_of buffer.old column) }
    ensures layout { grid_of buffer.new ≡ grid_of buffer.old }
    ensures marks { OnOk result (HoldSame (marks_of I.whole marks.old.items
        ++ flat_map (λ column. marks_of_border (pos_of (grid_of buffer.old) (column + 1)) (group_of buffer.old column)
        (group_of buffer.old (column + 1))) (range_with_len 0 (group_count (grid_of buffer.old) - 1)))
        (marks_of I.whole marks.new.items)) }
    ensures looked { OnOk result (looked.new ≤ looked.old
        + sum_by (λ column. looks_of_border (pos_of (grid_of buffer.old) (column + 1)) (group_of buffer.old column)
        (group_of buffer.old (column + 1))) (range_with_len 0 (group_count (grid_of buffer.old) - 1))) }
{
    for column in 0..buffer.groups().len() - 1 {
        buffer.list_right_ends(column)?;
        let border = buffer.border(column + 1);
        let group = buffer.groups()[column + 1].as_slice();
        mark_border(buffer.right_ends(), group, border, marks, looked)?;
    }
    Ok(())
}

/// The same of one border: the heights of the right ends there, in order, and the group to its right. Each comparison
/// makes a mark.
pub(crate) fn mark_border<I: OverlayInt>(
    right_ends: &[I],
    group: &[Fragment<I>],
    border: I,
    marks: &mut Vec<LineMark<I>>,
    looked: &mut u128,
) -> Result<(), AllocError>
    requires sorted { IsSorted I.cmp right_ends.now }
    ensures marks { OnOk result (marks_of I.whole marks.new.items ≡ marks_of I.whole marks.old.items
        ++ marks_of_heights (I.whole border) (map I.whole right_ends.now) (fragments_of I.whole group.now)) }
    ensures looked { OnOk result (looked.new ≤ looked.old
        + length (marks_of_heights (I.whole border) (map I.whole right_ends.now) (fragments_of I.whole group.now))) }
{
    if right_ends.is_empty() {
        return Ok(());
    }
    for index in 0..group.len() {
        let fragment = group[index];
        if stands_at(&fragment, border) {
            mark_heights(&fragment, right_ends, marks, looked)?;
        }
    }
    Ok(())
}

/// Appends the marks on a vertical segment at those heights that lie strictly between its ends. The heights have to be
/// in order.
fn mark_heights<I: OverlayInt>(
    vertical: &Fragment<I>,
    heights: &[I],
    marks: &mut Vec<LineMark<I>>,
    looked: &mut u128,
) -> Result<(), AllocError>
    requires sorted { IsSorted I.cmp heights.now }
    ensures marks { OnOk result (marks_of I.whole marks.new.items ≡ marks_of I.whole marks.old.items
        ++ marks_at_heights (fragment_of I.whole vertical.now) (map I.whole heights.now)) }
    ensures looked { OnOk result (looked.new ≤ looked.old
        + length (marks_at_heights (fragment_of I.whole vertical.now) (map I.whole heights.now))) }
{
    let start = count_up_to(heights, vertical.x_segment.a.y);
    let end = count_below(heights, vertical.x_segment.b.y);
    for place in start..end {
        take_up(looked);
        let point = IntPoint {
            x: vertical.x_segment.a.x,
            y: heights[place],
        };
        mark(vertical.index, point, marks)?;
    }
    Ok(())
}

/// How many comparisons the borders of a buffer take at most: for each vertical segment on the left border of a column,
/// other than the first, as many as the column to the left has fragments; `u64::MAX` if there are more.
pub(crate) fn count_at_borders<I: OverlayInt>(buffer: &FragmentBuffer<I>) -> u64
    ensures { result ≡ min (buffer_borders buffer.now) (2 ^ 64 - 1) }
{
    let mut count = 0_u64;
    for column in 0..buffer.groups().len() - 1 {
        let left = buffer.groups()[column].as_slice();
        let group = buffer.groups()[column + 1].as_slice();
        let own = count_at_border(left.len(), group, buffer.border(column + 1));
        count = count.saturating_add(own);
    }
    count
}

/// How many comparisons one border takes at most, where each vertical segment on it takes so many; `u64::MAX` if there
/// are more.
pub(crate) fn count_at_border<I: OverlayInt>(each: usize, group: &[Fragment<I>], border: I) -> u64
    ensures { result ≡ min (each * count_by (stands_at (I.whole border)) (fragments_of I.whole group.now))
        (2 ^ 64 - 1) }
{
    if each == 0 {
        return 0;
    }
    (each as u64).saturating_mul(count_on_border(group, border) as u64)
}

/// How many fragments of a group are those of vertical segments at this `x`.
fn count_on_border<I: OverlayInt>(group: &[Fragment<I>], x: I) -> usize
    ensures { result ≡ count_by (λ f. stands_at (I.whole x) (fragment_of I.whole f)) group.now }
{
    group
        .iter()
        .filter(|fragment| stands_at(fragment, x))
        .count()
}

/// How many of the heights, which have to be in order, are a given one or lower.
fn count_up_to<I: OverlayInt>(heights: &[I], top: I) -> usize
    requires { IsSorted I.cmp heights.now }
    ensures within { result ≤ length heights.now }
    ensures parted { IsPartitionPoint (λ y. I.whole y ≤ℤ I.whole top)
        (λ y. I.whole top <ℤ I.whole y) heights.now result }
{
    heights.partition_point(|height| is_up_to(*height, top))
}

/// How many of the heights, which have to be in order, are lower than a given one.
fn count_below<I: OverlayInt>(heights: &[I], top: I) -> usize
    requires { IsSorted I.cmp heights.now }
    ensures within { result ≤ length heights.now }
    ensures parted { IsPartitionPoint (λ y. I.whole y <ℤ I.whole top)
        (λ y. I.whole top ≤ℤ I.whole y) heights.now result }
{
    heights.partition_point(|height| is_below(*height, top))
}

/// Whether a height is at most another.
fn is_up_to<I: OverlayInt>(height: I, top: I) -> bool
    ensures { result ≡ int_le (I.whole height) (I.whole top) }
{
    height <= top
}

/// Whether a height is less than another.
fn is_below<I: OverlayInt>(height: I, top: I) -> bool
    ensures { result ≡ int_lt (I.whole height) (I.whole top) }
{
    height < top
}

/// Whether a fragment is one of a vertical segment at this `x`.
fn stands_at<I: OverlayInt>(fragment: &Fragment<I>, x: I) -> bool
    ensures { result ≡ stands_at (I.whole x) (fragment_of I.whole fragment.now) }
{
    !fragment.x_segment.is_not_vertical() && fragment.x_segment.a.x.to_wide() == x.to_wide()
}
