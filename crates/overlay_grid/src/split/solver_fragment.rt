// The finder that compares fragments of segments, column by column of a grid. Upstream: `split::solver_fragment`.
ghost use Rattle.std.specs.Prelude.{◌≡◌, ◌≢◌, ◌^◌, min, ◌<◌, ◌≤◌, ◌+◌, ◌-◌, ◌++◌, ℕ, All, IsTrue, None, IfErr, IfOk, OnOk, IfSome, OnSome, IfNone, IsSome, drop, length, int_lt, flat_map};
ghost use Rattle.std.specs.List.{AllByRecursion, list_any, range_with_len};
ghost use Rattle.overlay_base.specs.declared.segm.fault.Fault.TheVariants.{Memory};
ghost use Rattle.overlay_geometry.specs.PairOf.{pair_of};
ghost use Rattle.overlay_base.specs.SegmentOf.{ends_of, segments_of, pairs_in};
ghost use Rattle.overlay_geometry.specs.InRange.{IsPairInRange};
ghost use Rattle.overlay_grid.specs.GridLooks.{all_fragments};
ghost use Rattle.overlay_intersections.specs.PassMarks.{is_rounded};
ghost use Rattle.overlay_intersections.specs.PlacingOf.{placing_of, HasRadius};
ghost use Rattle.overlay_intersections.specs.MarkOf.{marks_of, AreMarksOf};
ghost use Rattle.overlay_grid.specs.FragmentOf.{fragment_of, fragments_of, least_along, greatest_along, IsSortedAlong};
ghost use Rattle.overlay_grid.specs.GroupsOf.{group_in, group_of, grid_of};
ghost use Rattle.overlay_grid.specs.ColumnLooks.{looks_of_group, looks_of_groups};
ghost use Rattle.overlay_grid.specs.steps.FragmentFinder.{is_ready, marks_with_places, is_rounded_at, kept_group, marks_of_two, marks_with_first, marks_of_group, meet_inexactly, is_first_rounded, is_group_rounded, looks_of_first};
ghost use Rattle.overlay_grid.specs.Grid.{IsInside};
ghost use Rattle.overlay_base.specs.ArrangedOf.{AreInRange};

use crate::split::axis::Axis;
use crate::split::blocks::{BLOCK, block_end, list_meeting};
use crate::split::border_contacts::mark_borders;
use crate::split::fragment::Fragment;
use crate::split::fragment_buffer::FragmentBuffer;
use crate::split::sort_within::sort_within;
use overlay_base::segm::fault::Fault;
use overlay_base::segm::segment::Segment;
use overlay_base::segm::winding::WindingCount;
use overlay_geometry::geom::x_segment::XSegment;
use overlay_geometry::num::OverlayInt;
use overlay_intersections::split::line_mark::{LineMark, sort_marks};
use overlay_intersections::split::marking::{Indexed, mark_both};
use overlay_intersections::split::placing::Placing;
use std::alloc::AllocError;

/// Finds the marks of a pass, if that compares no more pairs than it may: the points at which each segment is to be
/// split, each once, by rising index and then in order of points. Returns whether two segments cross at a point without
/// whole coordinates, so that the pass rounds, and `None` where it gave up. Then it compares no pair, and `marks` is of
/// no use.
///
/// The segments have to be in range and inside the buffer's layout, and a squared radius at least 1. Those are looked
/// at whose fragments meet in some column; a vertical segment on the left border of a column besides takes marks from
/// the right ends in the column to its left. What `marks` and `buffer` held before is dropped.
///
/// Returns `Fault::Memory` where a growth is refused; `marks` is of no use then.
pub(crate) fn find_marks_within<C: WindingCount, I: OverlayInt, D: Copy>(
    segments: &[Segment<C, I, D>],
    placing: Placing,
    most: u64,
    buffer: &mut FragmentBuffer<I>,
    marks: &mut Vec<LineMark<I>>,
    looked: &mut u128,
) -> Result<Option<bool>, Fault>
    requires in_range { AreInRange segments.now }
    requires inside { All (λ s. IsInside (grid_of buffer.old) (ends_of s)) segments.now }
    requires radius { HasRadius placing }
    ensures layout { grid_of buffer.new ≡ grid_of buffer.old }
    ensures marks { IfOk result (λ found. OnSome found (AreMarksOf placing segments.now marks.new.items)) }
    ensures rounded { IfOk result (λ found. IfSome found (λ rounded. rounded ≡ is_rounded (segments_of segments.now))) }
    ensures looked { OnOk result (looked.new ≤ looked.old + most) }
    ensures given_up { IfOk result (λ found. IfNone found (looked.new ≡ looked.old)) }
    ensures fault { IfErr result (λ fault. fault ≡ Memory) }
{
    marks.clear();
    fill(segments, buffer)?;
    let Some(axis) = sort_within(buffer, most)? else {
        return Ok(None);
    };
    let rounded = mark_columns(buffer.groups(), axis, placing, marks, looked)?;
    mark_borders(buffer, marks, looked)?;
    sort_marks(marks)?;
    marks.dedup();
    Ok(Some(rounded))
}

/// How many fragments segments have that lie inside the buffer's layout; `u128::MAX` if there are more.
pub fn count_fragments<C: WindingCount, I: OverlayInt, D: Copy>(
    segments: &[Segment<C, I, D>],
    buffer: &FragmentBuffer<I>,
) -> u128
    requires { All (λ s. IsInside (grid_of buffer.now) (ends_of s)) segments.now }
    ensures { result ≡ min (length (all_fragments (grid_of buffer.now) (pairs_in segments.now))) (2 ^ 128 - 1) }
{
    let mut count = 0_u128;
    for index in 0..segments.len() {
        let own = buffer.fragment_count(&segments[index].x_segment());
        count = count.saturating_add(own as u128);
    }
    count
}

/// Whether segments are narrower than a column, on the average: then there are fewer than four fragments for each. It takes
/// fewer steps than to count them.
pub fn are_narrow<C: WindingCount, I: OverlayInt, D: Copy>(
    segments: &[Segment<C, I, D>],
    buffer: &FragmentBuffer<I>,
) -> bool {
    let layout = &buffer.layout;
    if layout.column_count() < 2 {
        return true;
    }
    let column = layout.pos(1).to_wide().abs_diff(layout.pos(0).to_wide());
    let mut widths = 0_u64;
    for index in 0..segments.len() {
        let XSegment { a, b } = segments[index].x_segment();
        widths = widths.saturating_add(b.x.to_wide().abs_diff(a.x.to_wide()));
    }
    widths / column.max(1) < segments.len() as u64
}

/// Empties the buffer, and adds the fragments of every segment. These have to be in range and inside the layout.
fn fill<C: WindingCount, I: OverlayInt, D: Copy>(
    segments: &[Segment<C, I, D>],
    buffer: &mut FragmentBuffer<I>,
) -> Result<(), Fault>
    requires in_range { AreInRange segments.now }
    requires inside { All (λ s. IsInside (grid_of buffer.old) (ends_of s)) segments.now }
    ensures layout { grid_of buffer.new ≡ grid_of buffer.old }
    ensures groups { OnOk result
        ((column : ℕ) → group_of buffer.new column ≡ kept_group (grid_of buffer.old) 0 (pairs_in segments.now) column) }
    ensures fault { IfErr result (λ fault. fault ≡ Memory) }
{
    buffer.clear();
    for index in 0..segments.len() {
        buffer.add_segment(index, segments[index].x_segment())?;
    }
    Ok(())
}

/// Appends the marks that two segments put on one another where fragments of both meet in some
/// column, and returns whether some two of these cross at a point without whole coordinates. The
/// groups have to be sorted along the axis.
fn mark_columns<I: OverlayInt>(
    groups: &[Vec<Fragment<I>>],
    axis: Axis,
    placing: Placing,
    marks: &mut Vec<LineMark<I>>,
    looked: &mut u128,
) -> Result<bool, AllocError>
    requires radius { HasRadius placing }
    requires ready { (column : ℕ) → AllByRecursion (λ f. IsTrue
        (is_ready (I.whole I.MIN_COORD) (I.whole I.MAX_COORD) f)) (group_in I.whole groups.now column) }
    requires sorted { (column : ℕ) → IsSortedAlong axis (group_in I.whole groups.now column) }
    ensures marks { OnOk result (marks_of I.whole marks.new.items ≡ marks_of I.whole marks.old.items
        ++ flat_map (λ column. marks_of_group (placing_of placing) (group_in I.whole groups.now column))
        (range_with_len 0 (length groups.now))) }
    ensures rounded { IfOk result (λ rounded. rounded ≡ list_any
        (λ column. is_group_rounded (group_in I.whole groups.now column)) (range_with_len 0 (length groups.now))) }
    ensures looked { OnOk result (looked.new ≤ looked.old
        + looks_of_groups axis (group_in I.whole groups.now) (length groups.now)) }
{
    let mut rounded = false;
    for column in 0..groups.len() {
        if mark_group(groups[column].as_slice(), axis, placing, marks, looked)? {
            rounded = true;
        }
    }
    Ok(rounded)
}

/// Appends the marks that two segments put on one another where fragments of both meet in a group,
/// and returns whether some two of these cross at a point without whole coordinates. The group has
/// to be sorted along the axis.
pub(crate) fn mark_group<I: OverlayInt>(
    group: &[Fragment<I>],
    axis: Axis,
    placing: Placing,
    marks: &mut Vec<LineMark<I>>,
    looked: &mut u128,
) -> Result<bool, AllocError>
    requires radius { HasRadius placing }
    requires ready { AllByRecursion (λ f. IsTrue (is_ready (I.whole I.MIN_COORD) (I.whole I.MAX_COORD) f))
        (fragments_of I.whole group.now) }
    requires sorted { IsSortedAlong axis (fragments_of I.whole group.now) }
    ensures marks { OnOk result (marks_of I.whole marks.new.items ≡ marks_of I.whole marks.old.items
        ++ marks_of_group (placing_of placing) (fragments_of I.whole group.now)) }
    ensures rounded { IfOk result (λ rounded. rounded ≡ is_group_rounded (fragments_of I.whole group.now)) }
    ensures looked { OnOk result (looked.new ≤ looked.old + looks_of_group axis (fragments_of I.whole group.now)) }
{
    let mut rounded = false;
    let mut found = [0_usize; BLOCK];
    for first in 0..group.len() {
        if mark_with_rest(group, first, axis, &mut found, placing, marks, looked)? {
            rounded = true;
        }
    }
    Ok(rounded)
}

/// Appends the marks of one fragment and those that follow it, up to the first that begins past its end along the axis,
/// block by block. In `found` there is room for the places of those whose rectangles meet that of the fragment.
fn mark_with_rest<I: OverlayInt>(
    group: &[Fragment<I>],
    first: usize,
    axis: Axis,
    found: &mut [usize],
    placing: Placing,
    marks: &mut Vec<LineMark<I>>,
    looked: &mut u128,
) -> Result<bool, AllocError>
    requires first { first < length group.now }
    requires room { length found.old ≡ 64 }
    requires radius { HasRadius placing }
    requires ready { AllByRecursion (λ f. IsTrue (is_ready (I.whole I.MIN_COORD) (I.whole I.MAX_COORD) f))
        (fragments_of I.whole group.now) }
    requires sorted { IsSortedAlong axis (fragments_of I.whole group.now) }
    ensures marks { OnOk result (marks_of I.whole marks.new.items ≡ marks_of I.whole marks.old.items
        ++ marks_with_first (placing_of placing) (drop first (fragments_of I.whole group.now))) }
    ensures rounded { IfOk result (λ rounded. rounded ≡ is_first_rounded
        (drop first (fragments_of I.whole group.now))) }
    ensures looked { OnOk result (looked.new ≤ looked.old
        + looks_of_first axis (drop first (fragments_of I.whole group.now))) }
{
    let fragment = group[first];
    let mut rounded = false;
    let mut later = first + 1;
    while later < group.len() {
        let end = block_end(group, later, &fragment, axis);
        let count = list_meeting(group, later, end, &fragment, found);
        take_up_more(looked, end - later);
        if mark_found(group, &fragment, &found[..count], placing, marks)? {
            rounded = true;
        }
        if end - later < BLOCK {
            return Ok(rounded);
        }
        later = end;
    }
    Ok(rounded)
}

/// Appends the marks that the segments of a fragment and of some others put on one another, if the rectangles meet, and
/// returns whether it crosses one of these at a point without whole coordinates. The others are given by their places.
fn mark_found<I: OverlayInt>(
    group: &[Fragment<I>],
    fragment: &Fragment<I>,
    found: &[usize],
    placing: Placing,
    marks: &mut Vec<LineMark<I>>,
) -> Result<bool, AllocError>
    requires places { AllByRecursion (λ place. place < length group.now) found.now }
    requires radius { HasRadius placing }
    requires ready { AllByRecursion (λ f. IsTrue (is_ready (I.whole I.MIN_COORD) (I.whole I.MAX_COORD) f))
        (fragments_of I.whole group.now) }
    requires fragment { IsTrue (is_ready (I.whole I.MIN_COORD) (I.whole I.MAX_COORD)
        (fragment_of I.whole fragment.now)) }
    ensures marks { OnOk result (marks_of I.whole marks.new.items ≡ marks_of I.whole marks.old.items
        ++ marks_with_places (placing_of placing) (fragment_of I.whole fragment.now)
        (fragments_of I.whole group.now) found.now) }
    ensures rounded { IfOk result (λ rounded. rounded ≡ is_rounded_at (fragment_of I.whole fragment.now)
        (fragments_of I.whole group.now) found.now) }
{
    let mut rounded = false;
    for index in 0..found.len() {
        let other = group[found[index]];
        if mark_two(fragment, &other, placing, marks)? {
            rounded = true;
        }
    }
    Ok(rounded)
}

/// Counts so many comparisons, up to `u128::MAX`.
fn take_up_more(looked: &mut u128, more: usize)
    ensures { looked.new ≤ looked.old + more }
{
    *looked = looked.saturating_add(more as u128);
}

/// Appends the marks that the segments of two fragments put on one another, if the rectangles meet, and returns whether
/// they cross at a point without whole coordinates. The smaller pair of ends is the target.
fn mark_two<I: OverlayInt>(
    fragment: &Fragment<I>,
    other: &Fragment<I>,
    placing: Placing,
    marks: &mut Vec<LineMark<I>>,
) -> Result<bool, AllocError>
    requires radius { HasRadius placing }
    requires fragment { IsPairInRange I.whole I.MIN_COORD I.MAX_COORD fragment.now.x_segment }
    requires other { IsPairInRange I.whole I.MIN_COORD I.MAX_COORD other.now.x_segment }
    requires fragment_apart { (pair_of I.whole fragment.now.x_segment).a ≢ (pair_of I.whole fragment.now.x_segment).b }
    requires other_apart { (pair_of I.whole other.now.x_segment).a ≢ (pair_of I.whole other.now.x_segment).b }
    ensures marks { OnOk result (marks_of I.whole marks.new.items ≡ marks_of I.whole marks.old.items
        ++ marks_of_two (placing_of placing) (fragment_of I.whole fragment.now) (fragment_of I.whole other.now)) }
    ensures rounded { IfOk result (λ rounded. rounded ≡ meet_inexactly (fragment_of I.whole fragment.now)
        (fragment_of I.whole other.now)) }
{
    if !fragment.rect.is_intersect_border_include(&other.rect) {
        return Ok(false);
    }
    let left = indexed(fragment);
    let right = indexed(other);
    if fragment.x_segment.is_before(&other.x_segment) {
        mark_both(left, right, placing, marks)
    } else {
        mark_both(right, left, placing, marks)
    }
}

/// The segment of a fragment with its index.
fn indexed<I: OverlayInt>(fragment: &Fragment<I>) -> Indexed<I>
    ensures index { result.index ≡ fragment.now.index }
    ensures x_segment { result.x_segment ≡ fragment.now.x_segment }
{
    Indexed {
        index: fragment.index,
        x_segment: fragment.x_segment,
    }
}
