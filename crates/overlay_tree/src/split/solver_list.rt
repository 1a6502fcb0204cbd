// The finder that compares every pair of segments of a list. Upstream: `split::solver_list`.
ghost use Rattle.std.specs.Prelude.{◌≡◌, ◌<◌, ◌≤◌, ◌+◌, ◌-◌, ◌^◌, min, map, count_by, cond, nat_lt, int_le, true, [], ◌∷◌, ◌++◌, ◌||◌, All, IfErr, IfOk, OnOk, IsSortedByKey, drop, take, length};
ghost use Rattle.overlay_base.specs.declared.segm.fault.Fault.TheVariants.{Memory};
ghost use Rattle.overlay_geometry.specs.Points.{pair_cmp};
ghost use Rattle.overlay_geometry.specs.RangeOf.{range_of};
ghost use Rattle.overlay_base.specs.Segments.{pairs};
ghost use Rattle.overlay_base.specs.SegmentOf.{ends_of, segments_of, pairs_in, x_segment_of};
ghost use Rattle.std.specs.List.{HoldsAt};
ghost use Rattle.overlay_intersections.specs.Marks.{cross_inexactly};
ghost use Rattle.overlay_intersections.specs.PassMarks.{is_rounded};
ghost use Rattle.overlay_intersections.specs.PlacingOf.{placing_of, HasRadius};
ghost use Rattle.overlay_intersections.specs.MarkOf.{marks_of, AreMarksOf};
ghost use Rattle.overlay_intersections.specs.Looked.{count_twos, x_ranges_meet, capped_sum};
ghost use Rattle.overlay_tree.specs.steps.ListScan.{AreHeightsOf, do_ranges_meet, marks_left, crosses_left, marks_listed, crosses_listed, AreListed, IsReaching};
ghost use Rattle.overlay_tree.specs.steps.Swept.{pair_at};
ghost use Rattle.overlay_intersections.specs.MarksBetween.{marks_between, marks_of_first, first_crosses_inexactly};
ghost use Rattle.overlay_base.specs.ArrangedOf.{AreInRange};

use overlay_base::segm::fault::Fault;
use overlay_base::segm::segment::Segment;
use overlay_base::segm::winding::WindingCount;
use overlay_geometry::geom::line_range::LineRange;
use overlay_geometry::num::OverlayInt;
use overlay_intersections::split::line_mark::{LineMark, sort_marks};
use overlay_intersections::split::marking::{Indexed, mark_both, mark_both_apart};
use overlay_intersections::split::placing::Placing;
use std::alloc::AllocError;

/// Finds the marks of a pass: the points at which each segment is to be split, each once, by rising index and then in
/// order of points. Returns whether two segments cross at a point without whole coordinates, so that the pass rounds.
///
/// The list has to be sorted, as by `sort_by_ab`, and in range, and a squared radius at least 1. It compares every pair
/// of segments whose ranges in `x` meet, which `looked` counts, and marks those whose ranges in `y` meet too. What
/// `marks` held before is dropped. `heights` is memory, kept from one pass to the next.
///
/// Returns `Fault::Memory` where a growth is refused; `marks` is of no use then.
pub fn find_marks<C: WindingCount, I: OverlayInt, D: Copy>(
    segments: &[Segment<C, I, D>],
    placing: Placing,
    heights: &mut Vec<LineRange<I>>,
    marks: &mut Vec<LineMark<I>>,
    looked: &mut u128,
) -> Result<bool, Fault>
    requires sorted { IsSortedByKey ends_of pair_cmp segments.now }
    requires in_range { AreInRange segments.now }
    requires radius { HasRadius placing }
    ensures marks { OnOk result (AreMarksOf placing segments.now marks.new.items) }
    ensures rounded { IfOk result (λ rounded. rounded ≡ is_rounded (segments_of segments.now)) }
    ensures looked { OnOk result
        (looked.new ≡ capped_sum looked.old (count_twos x_ranges_meet (pairs_in segments.now))) }
    ensures fault { IfErr result (λ fault. fault ≡ Memory) }
{
    // read, so that the checker knows that the count fits its type
    let _looked = *looked;
    marks.clear();
    list_heights(segments, heights)?;
    let mut rounded = false;
    for index in 0..segments.len() {
        if mark_with_later(segments, heights, index, placing, marks, looked)? {
            rounded = true;
        }
    }
    sort_marks(marks)?;
    marks.dedup();
    Ok(rounded)
}

/// The heights between which each segment lies.
fn list_heights<C: WindingCount, I: OverlayInt, D: Copy>(
    segments: &[Segment<C, I, D>],
    ranges: &mut Vec<LineRange<I>>,
) -> Result<(), AllocError>
    ensures { OnOk result (AreHeightsOf I.whole ranges.new.items (pairs (segments_of segments.now))) }
{
    ranges.clear();
    ranges.reserve(segments.len())?;
    for index in 0..segments.len() {
        ranges.push(segments[index].x_segment().y_range())?;
    }
    Ok(())
}

/// Appends the marks that a segment and each later one put on one another, and returns whether some two of them cross
/// at a point without whole coordinates. Segments that begin right of this one's end are not compared.
fn mark_with_later<C: WindingCount, I: OverlayInt, D: Copy>(
    segments: &[Segment<C, I, D>],
    ranges: &[LineRange<I>],
    index: usize,
    placing: Placing,
    marks: &mut Vec<LineMark<I>>,
    looked: &mut u128,
) -> Result<bool, AllocError>
    requires index { index < length segments.now }
    requires heights { AreHeightsOf I.whole ranges.now (pairs (segments_of segments.now)) }
    requires sorted { IsSortedByKey ends_of pair_cmp segments.now }
    requires in_range { AreInRange segments.now }
    requires radius { HasRadius placing }
    ensures marks { OnOk result (marks_of I.whole marks.new.items ≡ marks_of I.whole marks.old.items
        ++ marks_of_first (placing_of placing) index (drop index (pairs (segments_of segments.now)))) }
    ensures rounded { IfOk result (λ rounded. rounded ≡ first_crosses_inexactly
        (drop index (pairs (segments_of segments.now)))) }
    ensures looked { OnOk result (looked.new ≡
        (let ps = pairs (segments_of segments.now) in
        min (looked.old + count_by (x_ranges_meet (pair_at ps index)) (drop (index + 1) ps)) (2 ^ 128 - 1))) }
{
    let mut met = [0_usize; NEAR];
    let (count, near_end) = list_near(segments, ranges, index, &mut met);
    let mut rounded = mark_listed(segments, index, &met[..count], true, placing, marks)?;
    let mut end = near_end;
    if near_end - index > NEAR {
        end = end_of_reach(segments, index, near_end);
        rounded |= mark_by_blocks(segments, ranges, index, near_end, end, placing, marks)?;
    }
    // counted once, as a sum of 128 bits for each pair takes long
    *looked = looked.saturating_add((end - index - 1) as u128);
    Ok(rounded)
}

/// So many later segments are tested one by one. Those that follow are tested block by block, where all of the first are
/// in reach.
const NEAR: usize = 24;

const _: () = prove!(NEAR == 24);

/// Lists in `met` those of the next `NEAR` segments whose heights this one's meet, up to the first that begins right of
/// this one's end. Returns how many these are, and the index of the first that is not tested. Out of line its loop keeps
/// all in registers.
#[inline(never)]
fn list_near<C: WindingCount, I: OverlayInt, D: Copy>(
    segments: &[Segment<C, I, D>],
    ranges: &[LineRange<I>],
    index: usize,
    met: &mut [usize],
) -> (usize, usize)
    requires index { index < length segments.now }
    requires room { length met.old ≡ 24 }
    requires heights { AreHeightsOf I.whole ranges.now (pairs (segments_of segments.now)) }
    requires sorted { IsSortedByKey ends_of pair_cmp segments.now }
    ensures count { result.0 ≤ 24 }
    ensures listed { AreListed (pairs (segments_of segments.now)) index (index + 1) result.1 (take result.0 met.new) }
    ensures reach { IsReaching (pairs (segments_of segments.now)) index result.1 }
    ensures past { let ps = pairs (segments_of segments.now) in
        result.1 ≤ index + 24 → count_by (x_ranges_meet (pair_at ps index)) (drop result.1 ps) ≡ 0 }
{
    let target = segments[index].x_segment();
    let own = ranges[index];
    let few = (segments.len() - index - 1).min(NEAR);
    let mut count = 0;
    for later in index + 1..index + 1 + few {
        if segments[later].x_segment().begins_past_end(&target) {
            return (count, later);
        }
        count = keep_if(met, count, later, do_meet(&own, &ranges[later]));
    }
    (count, index + 1 + few)
}

/// Writes an index behind the first so many of a list, and returns how many these are then: one more if it is to be
/// kept. It takes no branch.
#[inline(always)]
fn keep_if(met: &mut [usize], count: usize, later: usize, is_kept: bool) -> usize
    requires { count < length met.old }
    ensures count { result ≤ count + 1 }
    ensures kept { take result met.new ≡ take count met.old ++ cond is_kept (later ∷ []) [] }
{
    met[count] = later;
    count + usize::from(is_kept)
}

/// Appends the marks that a segment and each of some later ones put on one another, and returns whether it crosses one
/// of these at a point without whole coordinates. `are_near` says whether they follow closely, as in `mark_two`.
#[inline(always)]
fn mark_listed<C: WindingCount, I: OverlayInt, D: Copy>(
    segments: &[Segment<C, I, D>],
    index: usize,
    met: &[usize],
    are_near: bool,
    placing: Placing,
    marks: &mut Vec<LineMark<I>>,
) -> Result<bool, AllocError>
    requires index { index < length segments.now }
    requires met { All (λ later. (index < later) × (later < length segments.now)) met.now }
    requires sorted { IsSortedByKey ends_of pair_cmp segments.now }
    requires in_range { AreInRange segments.now }
    requires radius { HasRadius placing }
    ensures marks { OnOk result (marks_of I.whole marks.new.items ≡ marks_of I.whole marks.old.items
        ++ marks_listed (placing_of placing) (pairs (segments_of segments.now)) index met.now) }
    ensures rounded { IfOk result (λ rounded. rounded ≡ crosses_listed
        (pairs (segments_of segments.now)) index met.now) }
{
    let first = Indexed {
        index,
        x_segment: segments[index].x_segment(),
    };
    let mut rounded = false;
    for later in met {
        rounded |= mark_two(segments, first, *later, are_near, placing, marks)?;
    }
    Ok(rounded)
}

/// So many later segments are tested together: by the heights of all of them, or by where the last of them begins.
const BLOCK: usize = 16;

const _: () = prove!(BLOCK == 16);

/// The index of the first later segment that begins right of this one's end, or the length of the list. The search
/// begins at `from`, before which none does.
fn end_of_reach<C: WindingCount, I: OverlayInt, D: Copy>(
    segments: &[Segment<C, I, D>],
    index: usize,
    from: usize,
) -> usize
    requires sorted { IsSortedByKey ends_of pair_cmp segments.now }
    requires reach { IsReaching (pairs (segments_of segments.now)) index from }
    ensures from { from ≤ result }
    ensures reach { IsReaching (pairs (segments_of segments.now)) index result }
    ensures past { let ps = pairs (segments_of segments.now) in
        count_by (x_ranges_meet (pair_at ps index)) (drop result ps) ≡ 0 }
{
    let target = segments[index].x_segment();
    let mut end = from;
    'leaps: while segments.len() - end >= BLOCK {
        if segments[end + BLOCK - 1]
            .x_segment()
            .begins_past_end(&target)
        {
            break;
        }
        end += BLOCK;
    }
    'steps: while end < segments.len() {
        if segments[end].x_segment().begins_past_end(&target) {
            break;
        }
        end += 1;
    }
    end
}

/// As `mark_with_each`, for any number of them: whole blocks that this one's heights do not meet are passed over.
fn mark_by_blocks<C: WindingCount, I: OverlayInt, D: Copy>(
    segments: &[Segment<C, I, D>],
    ranges: &[LineRange<I>],
    index: usize,
    start: usize,
    end: usize,
    placing: Placing,
    marks: &mut Vec<LineMark<I>>,
) -> Result<bool, AllocError>
    requires after { index < start }
    requires order { start ≤ end }
    requires within { end ≤ length segments.now }
    requires heights { AreHeightsOf I.whole ranges.now (pairs (segments_of segments.now)) }
    requires sorted { IsSortedByKey ends_of pair_cmp segments.now }
    requires in_range { AreInRange segments.now }
    requires radius { HasRadius placing }
    ensures marks { OnOk result (let ps = pairs (segments_of segments.now) in
        marks_of I.whole marks.new.items ++ marks_left (placing_of placing) ps index end
        ≡ marks_of I.whole marks.old.items ++ marks_left (placing_of placing) ps index start) }
    ensures rounded { IfOk result (λ rounded. let ps = pairs (segments_of segments.now) in
        (rounded || crosses_left ps index end) ≡ crosses_left ps index start) }
{
    let own = ranges[index];
    let mut rounded = false;
    let mut from = start;
    'whole: while end - from >= BLOCK {
        let block = &ranges[from..from + BLOCK];
        if meets_some(block, &own) {
            rounded |= mark_with_each(segments, ranges, index, from, from + BLOCK, placing, marks)?;
        }
        from += BLOCK;
    }
    rounded |= mark_with_each(segments, ranges, index, from, end, placing, marks)?;
    Ok(rounded)
}

/// Whether a range meets one of a block. None is left out, so that they are compared at once.
fn meets_some<I: OverlayInt>(block: &[LineRange<I>], own: &LineRange<I>) -> bool
    requires { length block.now ≤ 16 }
    ensures { result ≡ nat_lt 0 (count_by (λ range. do_ranges_meet (range_of I.whole own.now)
        (range_of I.whole range)) block.now) }
{
    let mut met = 0_u32;
    for range in block {
        met += u32::from(do_meet(own, range));
    }
    met > 0
}

/// Whether two ranges share a number.
fn do_meet<I: OverlayInt>(first: &LineRange<I>, second: &LineRange<I>) -> bool
    ensures { result ≡ do_ranges_meet (range_of I.whole first.now) (range_of I.whole second.now) }
{
    (first.min <= second.max) & (second.min <= first.max)
}

/// Appends the marks that a segment and each of those from one index up to another, a block at most, put on one another,
/// and returns whether it crosses one of them at a point without whole coordinates.
fn mark_with_each<C: WindingCount, I: OverlayInt, D: Copy>(
    segments: &[Segment<C, I, D>],
    ranges: &[LineRange<I>],
    index: usize,
    from: usize,
    end: usize,
    placing: Placing,
    marks: &mut Vec<LineMark<I>>,
) -> Result<bool, AllocError>
    requires after { index < from }
    requires order { from ≤ end }
    requires few { end ≤ from + 16 }
    requires within { end ≤ length segments.now }
    requires heights { AreHeightsOf I.whole ranges.now (pairs (segments_of segments.now)) }
    requires sorted { IsSortedByKey ends_of pair_cmp segments.now }
    requires in_range { AreInRange segments.now }
    requires radius { HasRadius placing }
    ensures marks { OnOk result (let ps = pairs (segments_of segments.now) in
        marks_of I.whole marks.new.items ++ marks_left (placing_of placing) ps index end
        ≡ marks_of I.whole marks.old.items ++ marks_left (placing_of placing) ps index from) }
    ensures rounded { IfOk result (λ rounded. let ps = pairs (segments_of segments.now) in
        (rounded || crosses_left ps index end) ≡ crosses_left ps index from) }
{
    let own = ranges[index];
    let mut met = [0_usize; BLOCK];
    let mut count = 0;
    for later in from..end {
        count = keep_if(&mut met, count, later, do_meet(&own, &ranges[later]));
    }
    mark_listed(segments, index, &met[..count], false, placing, marks)
}

/// Appends the marks that a segment and a later one put on one another, and returns whether they cross at a point
/// without whole coordinates. One that begins where the first ends meets it there alone. Near ones in the list often
/// share another end, which `mark_both` tests early. Of the others most lie on one side of the segment, which
/// `mark_both_apart` tests first.
#[inline(always)]
fn mark_two<C: WindingCount, I: OverlayInt, D: Copy>(
    segments: &[Segment<C, I, D>],
    first: Indexed<I>,
    later: usize,
    are_near: bool,
    placing: Placing,
    marks: &mut Vec<LineMark<I>>,
) -> Result<bool, AllocError>
    requires after { first.index < later }
    requires within { later < length segments.now }
    requires first { HoldsAt (λ s. first.x_segment ≡ x_segment_of s) segments.now first.index }
    requires sorted { IsSortedByKey ends_of pair_cmp segments.now }
    requires in_range { AreInRange segments.now }
    requires radius { HasRadius placing }
    ensures marks { OnOk result (let ps = pairs (segments_of segments.now) in
        marks_of I.whole marks.new.items ≡ marks_of I.whole marks.old.items
        ++ marks_between (placing_of placing) first.index (pair_at ps first.index) later (pair_at ps later)) }
    ensures rounded { IfOk result (λ rounded. let ps = pairs (segments_of segments.now) in
        rounded ≡ cross_inexactly (pair_at ps first.index) (pair_at ps later)) }
{
    let other = segments[later].x_segment();
    if first.x_segment.b == other.a {
        return Ok(false);
    }
    let second = Indexed {
        index: later,
        x_segment: other,
    };
    if are_near {
        mark_both(first, second, placing, marks)
    } else {
        mark_both_apart(first, second, placing, marks)
    }
}

/// Whether `find_marks` is known to compare no more pairs of these segments than a number. It takes fewer steps than to
/// count them: one look or two bound what most segments reach. It returns `false` as soon as the sum of these bounds
/// exceeds the number. The list has to be sorted, as by `sort_by_ab`.
pub fn are_few_in_reach<C: WindingCount, I: OverlayInt, D: Copy>(
    segments: &[Segment<C, I, D>],
    most: u64,
) -> bool
    requires sorted { IsSortedByKey ends_of pair_cmp segments.now }
    ensures { result ≡ true → count_twos x_ranges_meet (pairs_in segments.now) ≤ most }
{
    let mut left = most;
    for index in 0..segments.len() {
        let end = segments[index].x_segment().b.x;
        let own = begun_at_most(&segments[index + 1..], end) as u64;
        if left < own {
            return false;
        }
        left -= own;
    }
    true
}

/// So many later segments may be in reach. A look at the one after these comes before the next number; for most segments the
/// first is enough.
const LEVELS: [usize; 8] = [16, 32, 48, 64, 128, 256, 512, 1_024];

/// A number which the segments of a sorted list that begin up to an `x` do not exceed.
fn begun_at_most<C: WindingCount, I: OverlayInt, D: Copy>(
    later: &[Segment<C, I, D>],
    end: I,
) -> usize
    requires sorted { IsSortedByKey ends_of pair_cmp later.now }
    ensures { count_by (λ s. int_le (ends_of s).a.x (I.whole end)) later.now ≤ result }
{
    for level in &LEVELS {
        if begins_past(later, *level, end) {
            return *level;
        }
    }
    later.len()
}

/// Whether there is a segment at an index, and it begins right of an `x`, and so does each after it.
fn begins_past<C: WindingCount, I: OverlayInt, D: Copy>(
    later: &[Segment<C, I, D>],
    index: usize,
    end: I,
) -> bool
    requires sorted { IsSortedByKey ends_of pair_cmp later.now }
    ensures { result ≡ true → count_by (λ s. int_le (ends_of s).a.x (I.whole end)) later.now ≤ index }
{
    if index >= later.len() {
        return false;
    }
    !begins_by(&later[index], end)
}

/// Whether a segment begins at an `x` or left of it.
fn begins_by<C: WindingCount, I: OverlayInt, D: Copy>(segment: &Segment<C, I, D>, x: I) -> bool
    ensures { result ≡ int_le (ends_of segment.now).a.x (I.whole x) }
{
    segment.x_segment().a.x <= x
}
