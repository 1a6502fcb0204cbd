// The order of a list of segments. Upstream: `segm::sort`, which takes an unstable sort of its own.
ghost use Rattle.std.specs.Prelude.{◌≡◌, [], OnOk, OnErr, IfErr, IsSortedByKey, IsPermutation};
ghost use Rattle.std.specs.List.Sorted.{IsStableByKey};
ghost use Rattle.overlay_base.specs.declared.segm.fault.Fault.TheVariants.{Memory};
ghost use Rattle.overlay_geometry.specs.Points.{pair_cmp};
ghost use Rattle.overlay_geometry.specs.Sorting.{stably_sorted};
ghost use Rattle.overlay_base.specs.SegmentOf.{ends_of};

use crate::segm::fault::Fault;
use crate::segm::segment::Segment;
use crate::segm::winding::WindingCount;
use overlay_geometry::num::OverlayInt;
use std::alloc::{AllocError, Global};

/// Sorts segments by the first end, then by the second. Segments on one pair of ends stay in their order, so that the
/// calls of hooks on them have one order too.
///
/// Returns `Fault::Memory` where the sort's buffer is refused; the list is empty then.
pub fn sort_by_ab<C: WindingCount, I: OverlayInt, D: Copy>(
    list: &mut Vec<Segment<C, I, D>>,
) -> Result<(), Fault>
    ensures sorted { OnOk result (list.new.items ≡ stably_sorted
        (λ s t. pair_cmp (ends_of s) (ends_of t)) list.old.items) }
    ensures in_order { OnOk result (IsSortedByKey ends_of pair_cmp list.new.items) }
    ensures permutation { OnOk result (IsPermutation list.old.items list.new.items) }

    ensures emptied { OnErr result (list.new.items ≡ []) }
    ensures fault { IfErr result (λ fault. fault ≡ Memory) }
{
    match list.sort_by_key(|segment| segment.x_segment()) {
        Ok(()) => Ok(()),
        Err(_) => {
            list.clear();
            Err(Fault::Memory)
        }
    }
}

/// Sorts segments as `sort_by_ab` does, each part of the list between two of the given places first. What it leaves
/// does not depend on the places.
///
/// Where all of each part comes before all of the next, the sort of the whole list finds it sorted. Returns
/// `Fault::Memory` where a sort's buffer is refused; the list is empty then. This project's own.
pub fn sort_by_ab_in_parts<C: WindingCount, I: OverlayInt, D: Copy>(
    list: &mut Vec<Segment<C, I, D>>,
    places: &[usize],
) -> Result<(), Fault>
    ensures sorted { OnOk result (list.new.items ≡ stably_sorted
        (λ s t. pair_cmp (ends_of s) (ends_of t)) list.old.items) }
    ensures in_order { OnOk result (IsSortedByKey ends_of pair_cmp list.new.items) }
    ensures permutation { OnOk result (IsPermutation list.old.items list.new.items) }

    ensures emptied { OnErr result (list.new.items ≡ []) }
    ensures fault { IfErr result (λ fault. fault ≡ Memory) }
{
    let alloc = *list.allocator();
    if sort_parts(list.as_mut_slice(), alloc, places).is_err() {
        list.clear();
        return Err(Fault::Memory);
    }
    sort_by_ab(list)
}

/// Sorts each part of a list by itself. A place behind the end of the list, or not above the end of the part before, is
/// passed over.
fn sort_parts<C: WindingCount, I: OverlayInt, D: Copy>(
    list: &mut [Segment<C, I, D>],
    alloc: Global,
    places: &[usize],
) -> Result<(), AllocError>
    ensures permutation { IsPermutation list.old list.new }
    ensures stable { IsStableByKey ends_of pair_cmp list.old list.new }
{
    let mut from = 0;
    for place in places {
        if from < *place && *place <= list.len() {
            list[from..*place].sort_by_key(alloc, |segment| segment.x_segment())?;
            from = *place;
        }
    }
    Ok(())
}
