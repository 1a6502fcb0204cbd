// The finder over the columns of a grid that holds the fragments of one column at a time. This project's own.
ghost use Rattle.std.specs.Prelude.{◌≡◌, ◌<◌, ◌≤◌, ◌+◌, ◌-◌, ◌*◌, ◌^◌, ◌++◌, All, IsPermutation, IsSome, IsSorted, IsSortedByKey, IsTrue, IfErr, IfOk, IfSome, None, OnOk, OnSome, count_by, flat_map, length, map, sum_by, true};
ghost use Rattle.std.specs.List.{AllByRecursion, list_any, range_with_len};
ghost use Rattle.overlay_base.specs.declared.segm.fault.Fault.TheVariants.{Memory};
ghost use Rattle.overlay_geometry.specs.Points.{pair_cmp};
ghost use Rattle.overlay_base.specs.ArrangedOf.{AreInRange};
ghost use Rattle.overlay_base.specs.SegmentOf.{ends_of, pairs_in, segments_of};
ghost use Rattle.overlay_intersections.specs.PassMarks.{is_rounded};
ghost use Rattle.overlay_intersections.specs.PlacingOf.{placing_of, HasRadius};
ghost use Rattle.overlay_intersections.specs.MarkOf.{marks_of, AreMarksOf};
ghost use Rattle.overlay_grid.specs.ColumnLooks.{twos_in_height};
ghost use Rattle.overlay_grid.specs.Grid.{IsInside, group_count, pos_of};
ghost use Rattle.overlay_grid.specs.GridLooks.{fragment_looks};
ghost use Rattle.overlay_grid.specs.FragmentOf.{fragments_of, layout_of};
ghost use Rattle.overlay_grid.specs.GroupsOf.{grid_of};
ghost use Rattle.overlay_grid.specs.steps.FragmentFinder.{HoldSame, heights_at, is_group_rounded, is_ready, kept_group, marks_of_group, marks_of_heights, stands_at};
ghost use Rattle.overlay_grid.specs.steps.Sweeps.{looks_of_column, marks_of_column};

use crate::split::border_contacts::{count_at_border, mark_border};
use crate::split::column_parts::{SweepMemory, take_column};
use crate::split::fragment::Fragment;
use crate::split::fragment_buffer::{FragmentBuffer, list_ends_at};
use crate::split::grid_layout::GridLayout;
use crate::split::group_sort::{SortMemory, sort_for_scan};
use crate::split::reach::are_apart_upward;
use crate::split::solver_fragment::mark_group;
use overlay_base::segm::fault::Fault;
use overlay_base::segm::segment::Segment;
use overlay_base::segm::winding::WindingCount;
use overlay_geometry::num::OverlayInt;
use overlay_intersections::split::line_mark::{LineMark, sort_marks};
use overlay_intersections::split::placing::Placing;
use std::alloc::AllocError;
use std::mem::swap;

/// Finds the marks of a pass: the points at which each segment is to be split, each once, by rising index and then in
/// order of points. Returns whether two segments cross at a point without whole coordinates, so that the pass rounds.
///
/// The segments have to be sorted, as by `sort_by_ab`, in range and inside the buffer's layout, and a squared radius at
/// least 1. It goes through the columns from left to right, and holds the fragments of one at a time. The groups of
/// `buffer` stay as they are; what `marks` held before is dropped.
///
/// Returns `Fault::Memory` where a growth is refused; `marks` is of no use then.
pub fn find_marks<C: WindingCount, I: OverlayInt, D: Copy>(
    segments: &[Segment<C, I, D>],
    placing: Placing,
    buffer: &mut FragmentBuffer<I>,
    marks: &mut Vec<LineMark<I>>,
    looked: &mut u128,
) -> Result<bool, Fault>
    requires sorted { IsSortedByKey ends_of pair_cmp segments.now }
    requires in_range { AreInRange segments.now }
    requires inside { All (λ s. IsInside (grid_of buffer.old) (ends_of s)) segments.now }
    requires radius { HasRadius placing }
    ensures layout { grid_of buffer.new ≡ grid_of buffer.old }
    ensures marks { OnOk result (AreMarksOf placing segments.now marks.new.items) }
    ensures rounded { IfOk result (λ rounded. rounded ≡ is_rounded (segments_of segments.now)) }
    ensures looked { OnOk result
        (looked.new ≤ looked.old + fragment_looks (grid_of buffer.old) (pairs_in segments.now)) }
    ensures fault { IfErr result (λ fault. fault ≡ Memory) }
{
    let found = find_marks_up_to(segments, placing, None, buffer, marks, looked)?;
    Ok(found.unwrap())
}

/// Finds the marks of a pass as `find_marks` does, under the same conditions, if that compares no more pairs than it may.
/// Returns whether the pass rounds, and `None` where it gave up, so that `marks` is of no use. It gives up before the
/// left border or the group of a column that might take up more than are left.
///
/// Returns `Fault::Memory` where a growth is refused; `marks` is of no use then.
pub fn find_marks_within<C: WindingCount, I: OverlayInt, D: Copy>(
    segments: &[Segment<C, I, D>],
    placing: Placing,
    most: u64,
    buffer: &mut FragmentBuffer<I>,
    marks: &mut Vec<LineMark<I>>,
    looked: &mut u128,
) -> Result<Option<bool>, Fault>
    requires sorted { IsSortedByKey ends_of pair_cmp segments.now }
    requires in_range { AreInRange segments.now }
    requires inside { All (λ s. IsInside (grid_of buffer.old) (ends_of s)) segments.now }
    requires radius { HasRadius placing }
    ensures layout { grid_of buffer.new ≡ grid_of buffer.old }
    ensures marks { IfOk result (λ found. OnSome found (AreMarksOf placing segments.now marks.new.items)) }
    ensures rounded { IfOk result (λ found. IfSome found (λ rounded. rounded ≡ is_rounded (segments_of segments.now))) }
    ensures looked { OnOk result (looked.new ≤ looked.old + most) }
    ensures fault { IfErr result (λ fault. fault ≡ Memory) }
{
    let limit = looked.saturating_add(most as u128);
    find_marks_up_to(segments, placing, Some(limit), buffer, marks, looked)
}

/// The same, up to a limit of `looked`, if there is one.
fn find_marks_up_to<C: WindingCount, I: OverlayInt, D: Copy>(
    segments: &[Segment<C, I, D>],
    placing: Placing,
    limit: Option<u128>,
    buffer: &mut FragmentBuffer<I>,
    marks: &mut Vec<LineMark<I>>,
    looked: &mut u128,
) -> Result<Option<bool>, Fault>
    requires sorted { IsSortedByKey ends_of pair_cmp segments.now }
    requires in_range { AreInRange segments.now }
    requires inside { All (λ s. IsInside (grid_of buffer.old) (ends_of s)) segments.now }
    requires radius { HasRadius placing }
    requires limit { IfSome limit (λ most. looked.old ≤ most) }
    ensures layout { grid_of buffer.new ≡ grid_of buffer.old }
    ensures marks { IfOk result (λ found. OnSome found (AreMarksOf placing segments.now marks.new.items)) }
    ensures rounded { IfOk result (λ found. IfSome found (λ rounded. rounded ≡ is_rounded (segments_of segments.now))) }
    ensures found { limit ≡ None → IfOk result (λ found. IsSome found) }
    ensures looked { IfOk result (λ found. OnSome found
        (looked.new ≤ looked.old + fragment_looks (grid_of buffer.old) (pairs_in segments.now))) }
    ensures within { OnOk result (IfSome limit (λ most. looked.new ≤ most)) }
    ensures fault { IfErr result (λ fault. fault ≡ Memory) }
{
    marks.clear();
    let layout = &buffer.layout;
    let sweep = &mut buffer.sweep;
    let walked = mark_columns(segments, placing, limit, layout, sweep, marks, looked)?;
    let Some(rounded) = walked else {
        return Ok(None);
    };
    sort_marks(marks)?;
    marks.dedup();
    Ok(Some(rounded))
}

/// Appends the marks of every column, in some order and number, and returns whether two segments cross at a point
/// without whole coordinates. Returns `None` before it would pass the limit.
fn mark_columns<C: WindingCount, I: OverlayInt, D: Copy>(
    segments: &[Segment<C, I, D>],
    placing: Placing,
    limit: Option<u128>,
    layout: &GridLayout<I>,
    sweep: &mut SweepMemory<I>,
    marks: &mut Vec<LineMark<I>>,
    looked: &mut u128,
) -> Result<Option<bool>, AllocError>
    requires sorted { IsSortedByKey ends_of pair_cmp segments.now }
    requires in_range { AreInRange segments.now }
    requires inside { All (λ s. IsInside (layout_of layout.now) (ends_of s)) segments.now }
    requires radius { HasRadius placing }
    requires limit { IfSome limit (λ most. looked.old ≤ most) }
    ensures marks { IfOk result (λ found. OnSome found (HoldSame (marks_of I.whole marks.old.items
        ++ flat_map (marks_of_column (placing_of placing) (layout_of layout.now) (pairs_in segments.now))
        (range_with_len 0 (group_count (layout_of layout.now)))) (marks_of I.whole marks.new.items))) }
    ensures rounded { IfOk result (λ found. IfSome found (λ rounded. rounded ≡ list_any
        (λ column. is_group_rounded (kept_group (layout_of layout.now) 0 (pairs_in segments.now) column))
        (range_with_len 0 (group_count (layout_of layout.now))))) }
    ensures found { limit ≡ None → IfOk result (λ found. IsSome found) }
    ensures looked { IfOk result (λ found. OnSome found (looked.new ≤ looked.old
        + sum_by (looks_of_column (layout_of layout.now) (pairs_in segments.now))
        (range_with_len 0 (group_count (layout_of layout.now))))) }
    ensures within { OnOk result (IfSome limit (λ most. looked.new ≤ most)) }
{
    sweep.parts.rests.clear();
    sweep.right_ends.clear();
    let mut rounded = false;
    let mut from = 0;
    for column in 0..layout.column_count() {
        swap(&mut sweep.left, &mut sweep.parts.rests);
        let left = sweep.left.as_slice();
        from = take_column(segments, from, column, layout, left, &mut sweep.parts)?;
        let found = mark_column(column, layout, placing, limit, sweep, marks, looked)?;
        let Some(is_inexact) = found else {
            return Ok(None);
        };
        rounded = rounded || is_inexact;
    }
    Ok(Some(rounded))
}

/// Appends the marks of a column whose fragments were taken, and lists the right ends on its right border for the next
/// one. Returns whether two segments of it cross at a point without whole coordinates, and `None` before it would pass
/// the limit.
fn mark_column<I: OverlayInt>(
    column: usize,
    layout: &GridLayout<I>,
    placing: Placing,
    limit: Option<u128>,
    sweep: &mut SweepMemory<I>,
    marks: &mut Vec<LineMark<I>>,
    looked: &mut u128,
) -> Result<Option<bool>, AllocError>
    requires column { column < group_count (layout_of layout.now) }
    requires radius { HasRadius placing }
    requires limit { IfSome limit (λ most. looked.old ≤ most) }
    requires ready { AllByRecursion (λ f. IsTrue (is_ready (I.whole I.MIN_COORD) (I.whole I.MAX_COORD) f))
        (fragments_of I.whole sweep.old.parts.group.items) }
    requires sorted { IsSorted I.cmp sweep.old.right_ends.items }
    ensures rests { sweep.new.parts.rests ≡ sweep.old.parts.rests }
    ensures marks { IfOk result (λ found. OnSome found (HoldSame (marks_of I.whole marks.old.items
        ++ (marks_of_heights (pos_of (layout_of layout.now) column) (map I.whole sweep.old.right_ends.items)
        (fragments_of I.whole sweep.old.parts.group.items)
        ++ marks_of_group (placing_of placing) (fragments_of I.whole sweep.old.parts.group.items)))
        (marks_of I.whole marks.new.items))) }
    ensures rounded { IfOk result (λ found. IfSome found (λ rounded. rounded
        ≡ is_group_rounded (fragments_of I.whole sweep.old.parts.group.items))) }
    ensures found { limit ≡ None → IfOk result (λ found. IsSome found) }
    ensures looked { IfOk result (λ found. OnSome found (looked.new ≤ looked.old
        + (length (marks_of_heights (pos_of (layout_of layout.now) column) (map I.whole sweep.old.right_ends.items)
        (fragments_of I.whole sweep.old.parts.group.items))
        + twos_in_height (fragments_of I.whole sweep.old.parts.group.items)))) }
    ensures within { OnOk result (IfSome limit (λ most. looked.new ≤ most)) }
    ensures ends { column + 1 < group_count (layout_of layout.now) → IfOk result (λ found. OnSome found
        (IsPermutation (heights_at (pos_of (layout_of layout.now) (column + 1))
        (fragments_of I.whole sweep.old.parts.group.items)) (map I.whole sweep.new.right_ends.items))) }
    ensures sorted { IfOk result (λ found. OnSome found (IsSorted I.cmp sweep.new.right_ends.items)) }
{
    let border = layout.pos(column);
    let group = sweep.parts.group.as_slice();
    let ends = sweep.right_ends.as_slice();
    if !may_take_border(limit, *looked, ends.len(), group, border) {
        return Ok(None);
    }
    mark_border(ends, group, border, marks, looked)?;
    if column + 1 < layout.column_count() {
        let next = layout.pos(column + 1);
        list_ends_at(group, next, &mut sweep.right_ends)?;
    }
    mark_in_order(
        &mut sweep.parts.group,
        &mut sweep.sort_memory,
        placing,
        limit,
        marks,
        looked,
    )
}

/// Whether the comparisons on the left border of a group may be made: so many at most for each vertical segment on it.
/// They are counted only where there is a limit.
fn may_take_border<I: OverlayInt>(
    limit: Option<u128>,
    looked: u128,
    each: usize,
    group: &[Fragment<I>],
    border: I,
) -> bool
    ensures free { limit ≡ None → result ≡ true }
    ensures within { result ≡ true → IfSome limit (λ most.
        each * count_by (stands_at (I.whole border)) (fragments_of I.whole group.now) ≤ most - looked) }
{
    limit.is_none() || may_take(limit, looked, count_at_border(each, group, border))
}

/// Whether so many more pairs may be compared, where `u64::MAX` is for any number from that on: within the limit, if
/// there is one.
fn may_take(limit: Option<u128>, looked: u128, more: u64) -> bool
    ensures free { limit ≡ None → result ≡ true }
    ensures capped { result ≡ true → IfSome limit (λ most. more < 2 ^ 64 - 1) }
    ensures within { result ≡ true → IfSome limit (λ most. more ≤ most - looked) }
{
    match limit {
        Some(most) => more < u64::MAX && more as u128 <= most.saturating_sub(looked),
        None => true,
    }
}

/// Sorts a group, appends the marks that two segments put on one another where fragments of both meet in it, and returns
/// whether some two of these cross at a point without whole coordinates. Returns `None` before it would pass the limit.
fn mark_in_order<I: OverlayInt>(
    group: &mut Vec<Fragment<I>>,
    memory: &mut SortMemory<I>,
    placing: Placing,
    limit: Option<u128>,
    marks: &mut Vec<LineMark<I>>,
    looked: &mut u128,
) -> Result<Option<bool>, AllocError>
    requires radius { HasRadius placing }
    requires limit { IfSome limit (λ most. looked.old ≤ most) }
    requires ready { AllByRecursion (λ f. IsTrue (is_ready (I.whole I.MIN_COORD) (I.whole I.MAX_COORD) f))
        (fragments_of I.whole group.old.items) }
    ensures marks { IfOk result (λ found. OnSome found (HoldSame (marks_of I.whole marks.old.items
        ++ marks_of_group (placing_of placing) (fragments_of I.whole group.old.items))
        (marks_of I.whole marks.new.items))) }
    ensures rounded { IfOk result (λ found. IfSome found (λ rounded. rounded
        ≡ is_group_rounded (fragments_of I.whole group.old.items))) }
    ensures found { limit ≡ None → IfOk result (λ found. IsSome found) }
    ensures looked { OnOk result (looked.new ≤ looked.old
        + twos_in_height (fragments_of I.whole group.old.items)) }
    ensures within { OnOk result (IfSome limit (λ most. looked.new ≤ most)) }
{
    if are_apart_upward(group) {
        return Ok(Some(false));
    }
    let scan = sort_for_scan(group, memory)?;
    if !may_take(limit, *looked, scan.at_most) {
        return Ok(None);
    }
    let rounded = mark_group(group.as_slice(), scan.axis, placing, marks, looked)?;
    Ok(Some(rounded))
}
