// The join of segments on one pair of ends before a list is sorted, where many of its segments are on pairs of others: so
// it is with the sides of neighbors, as parcels have them. This project's own.
ghost use Rattle.std.specs.Prelude.{◌≡◌, ◌<◌, ◌≤◌, ◌+◌, ◌^◌, All, IsTrue, IsFalse, IfOk, OnOk};
ghost use Rattle.overlay_base.specs.Join.{has_equal_pairs};
ghost use Rattle.overlay_base.specs.Windings.{is_valid};
ghost use Rattle.overlay_base.specs.SegmentOf.{winding_of, segment_of, segments_of};
ghost use Rattle.overlay_base.specs.steps.Early.{IsJoinedEarly, HasOneMore, magnitudes};

use crate::segm::merge::has_same_ends;
use crate::segm::segment::Segment;
use crate::segm::winding::WindingCount;
use overlay_geometry::geom::x_segment::XSegment;
use overlay_geometry::num::OverlayInt;
use std::alloc::AllocError;

/// So many segments are looked at before any is joined.
const SAMPLE: usize = 128;

/// So many of these have to be on the pair of an earlier one.
const LEAST_EQUAL: usize = 8;

/// How many slots the sample has.
const SAMPLE_SLOTS: usize = 256;

/// No segment: an index that no list has.
const NONE: usize = usize::MAX;

/// Joins segments on one pair of ends, if many of the first are on pairs of others, and drops those whose count is empty
/// then. Returns whether many are: if not, the list is as it was. It finds most of those on one pair, not all.
///
/// Counts have to be valid. They are joined only where they are so small that no order of sums leaves their range.
pub(crate) fn join_early<C: WindingCount, I: OverlayInt, D: Copy>(
    list: &mut Vec<Segment<C, I, D>>,
) -> Result<bool, AllocError>
    requires { All (λ s. IsTrue (is_valid (winding_of s))) list.old.items }
    ensures unchanged { IfOk result (λ joined. IsFalse joined → list.new ≡ list.old) }
    ensures joined { IfOk result (λ joined. IsTrue joined → IsJoinedEarly list.old.items list.new.items) }
{
    if !are_many_equal(list) || !are_small(list) {
        return Ok(false);
    }
    let alloc = *list.allocator();
    let mut slots = Vec::new(alloc);
    slots.resize(list.len().next_power_of_two(), NONE)?;
    let mut kept = Vec::new(alloc);
    for segment in list.iter() {
        keep_or_add(*segment, slots.as_mut_slice(), &mut kept)?;
    }
    kept.retain(|segment| segment.count().is_not_empty());
    *list = kept;
    Ok(true)
}

/// Whether many of the first segments are on the pair of ends of an earlier one.
fn are_many_equal<C: WindingCount, I: OverlayInt, D: Copy>(list: &[Segment<C, I, D>]) -> bool
    ensures { IsTrue result → IsTrue (has_equal_pairs (segments_of list.now)) }
{
    if list.len() < SAMPLE {
        return false;
    }
    let mut slots = [NONE; SAMPLE_SLOTS];
    let mut equal = 0_usize;
    for index in 0..SAMPLE {
        let x_segment = list[index].x_segment();
        let slot = hash(&x_segment) % SAMPLE_SLOTS;
        let earlier = slots[slot];
        if earlier < index && has_same_ends(&list[earlier], &list[index]) {
            equal = equal.saturating_add(1);
        }
        slots[slot] = index;
    }
    LEAST_EQUAL <= equal
}

/// Whether the magnitudes of all counts together are so small that no sum of some leaves the range.
fn are_small<C: WindingCount, I: OverlayInt, D: Copy>(list: &[Segment<C, I, D>]) -> bool
    ensures { IsTrue result → magnitudes (segments_of list.now) < 2 ^ 31 }
{
    let mut sum = 0_u64;
    for segment in list {
        let (subj, clip) = segment.count().numbers();
        sum = sum
            .saturating_add(u64::from(subj.unsigned_abs()))
            .saturating_add(u64::from(clip.unsigned_abs()));
    }
    sum < 2_147_483_648
}

/// Adds the count of a segment to that of one on the same pair of ends, if the place for this pair has it, and else keeps
/// the segment.
#[inline(always)]
fn keep_or_add<C: WindingCount, I: OverlayInt, D: Copy>(
    segment: Segment<C, I, D>,
    slots: &mut [usize],
    kept: &mut Vec<Segment<C, I, D>>,
) -> Result<(), AllocError>
    requires segment { IsTrue (is_valid (winding_of segment)) }
    requires valid { All (λ s. IsTrue (is_valid (winding_of s))) kept.old.items }
    ensures valid { OnOk result (All (λ s. IsTrue (is_valid (winding_of s))) kept.new.items) }
    ensures added { OnOk result (HasOneMore (segments_of kept.old.items) (segment_of segment) (segments_of kept.new.items)) }
{
    let x_segment = segment.x_segment();
    let slot = hash(&x_segment) & slots.len().saturating_sub(1);
    let place = *slots.get(slot).unwrap_or(&NONE);
    if place < kept.len() && has_same_ends(&kept[place], &segment) {
        let held = kept[place];
        if let Ok(sum) = held.count().add(segment.count()) {
            kept[place] = held.with_count_and_data(sum, held.edge_data());
            return Ok(());
        }
    }
    if let Some(entry) = slots.get_mut(slot) {
        *entry = kept.len();
    }
    kept.push(segment)?;
    Ok(())
}

/// A number for a pair of ends, to find equal pairs by.
#[inline(always)]
fn hash<I: OverlayInt>(x_segment: &XSegment<I>) -> usize {
    let XSegment { a, b } = *x_segment;
    let first = mixed(a.x, 0x9e37_79b9_7f4a_7c15) ^ mixed(a.y, 0xc2b2_ae3d_27d4_eb4f);
    let second = mixed(b.x, 0x1656_67b1_9e37_79f9) ^ mixed(b.y, 0x27d4_eb2f_1656_67c5);
    ((first ^ second) >> 40) as usize
}

/// A coordinate times a number, as 64 bits.
#[inline(always)]
fn mixed<I: OverlayInt>(coordinate: I, factor: u64) -> u64 {
    coordinate
        .to_wide()
        .wrapping_sub(I::MIN_COORD.to_wide())
        .unsigned_abs()
        .wrapping_mul(factor)
}
