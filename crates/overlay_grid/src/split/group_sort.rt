// The sort of a group of fragments by where they begin along an axis. This project's own.
ghost use Rattle.std.specs.Prelude.{◌≡◌, ◌<◌, ◌≤◌, ◌-◌, ◌%◌, ◌^◌, All, IfOk, IsPermutation, OnOk, length, map, min, true};
ghost use Rattle.std.specs.List.{range_with_len};
ghost use Rattle.overlay_grid.specs.FragmentOf.{fragment_of, fragments_of, IsSortedAlong};
ghost use Rattle.overlay_grid.specs.ColumnLooks.{looks_of_group, twos_in_height};
ghost use Rattle.overlay_grid.specs.declared.split.axis.Axis.TheVariants.{Y};
ghost use Rattle.overlay_grid.specs.steps.SortKeys.{IsPicked};

use crate::split::axis::Axis;
use crate::split::fragment::Fragment;
use crate::split::reach::{count_in_group, reached_in_group_at_most};
use overlay_geometry::num::OverlayInt;
use std::alloc::{AllocError, Global};
use std::mem;

/// Comparisons per fragment up to which a scan upward is kept, and a scan from left to right is not tried. Two sorts and
/// a count cost about as much as this many comparisons.
pub(crate) const SCAN_BUDGET_PER_FRAGMENT: u64 = 12;

const _: () = prove!(SCAN_BUDGET_PER_FRAGMENT == 12);

/// How many times as many comparisons have to be due upward as are expected from left to right, before that is tried.
const WORTH_A_SORT: u64 = 4;

const _: () = prove!(WORTH_A_SORT == 4);

/// How many fragments keys number: a key is this many times where a fragment begins, and its place.
const PLACES: u64 = 4_294_967_296;

const _: () = prove!(PLACES == 4_294_967_296);

/// The memory of a sort: keys, and fragments in their order.
#[derive(Drop)]
pub(crate) struct SortMemory<I> {
    keys: Vec<u64>,
    row: Vec<Fragment<I>>,
}

impl<I> SortMemory<I> {
    /// None yet.
    pub(crate) fn new(alloc: Global) -> Self {
        SortMemory {
            keys: Vec::new(alloc),
            row: Vec::new(alloc),
        }
    }
}

/// Sorts fragments by where they begin along an axis. Keys of 64 bits are sorted in place of fragments, which are five
/// times as long; only where these do not do are fragments sorted.
pub(crate) fn sort_group<I: OverlayInt>(
    group: &mut Vec<Fragment<I>>,
    axis: Axis,
    memory: &mut SortMemory<I>,
) -> Result<(), AllocError>
    ensures permutation { IsPermutation group.old.items group.new.items }
    ensures sorted { OnOk result (IsSortedAlong axis (fragments_of I.whole group.new.items)) }
{
    if are_in_order(group, axis) {
        return Ok(());
    }
    if group.len() as u64 <= PLACES {
        sort_by_keys(group, axis, memory)?;
        if are_in_order(group, axis) {
            return Ok(());
        }
    }
    sort_by_least(group, axis)
}

/// A scan of a group: the axis along which it is sorted, and a number which the pairs that the scan compares do not
/// exceed, up to `u64::MAX`.
#[derive(Clone, Copy)]
pub(crate) struct Scan {
    pub axis: Axis,
    pub at_most: u64,
}

/// Sorts fragments by where they begin along one axis, and returns the scan along it: from the lowest up, unless a scan
/// compares many fragments so and fewer from left to right. So it compares at most the pairs that share a height.
pub(crate) fn sort_for_scan<I: OverlayInt>(
    group: &mut Vec<Fragment<I>>,
    memory: &mut SortMemory<I>,
) -> Result<Scan, AllocError>
    ensures permutation { IsPermutation group.old.items group.new.items }
    ensures sorted { IfOk result (λ scan. IsSortedAlong scan.axis (fragments_of I.whole group.new.items)) }
    ensures looks { IfOk result (λ scan. looks_of_group scan.axis (fragments_of I.whole group.new.items)
        ≤ twos_in_height (fragments_of I.whole group.new.items)) }
    ensures at_most { IfOk result (λ scan. min (looks_of_group scan.axis (fragments_of I.whole group.new.items))
        (2 ^ 64 - 1) ≤ scan.at_most) }
{
    sort_group(group, Axis::Y, memory)?;
    let at_most = reached_in_group_at_most(group, Axis::Y);
    if is_scanned_upward(group, at_most) {
        return Ok(Scan {
            axis: Axis::Y,
            at_most,
        });
    }
    sort_for_fewer(group, memory)
}

/// Sorts fragments, which have to be sorted from the lowest up, from left to right, if a scan compares fewer of them so.
/// Else they stay as they are.
fn sort_for_fewer<I: OverlayInt>(
    group: &mut Vec<Fragment<I>>,
    memory: &mut SortMemory<I>,
) -> Result<Scan, AllocError>
    requires sorted { IsSortedAlong Y (fragments_of I.whole group.old.items) }
    ensures permutation { IsPermutation group.old.items group.new.items }
    ensures sorted { IfOk result (λ scan. IsSortedAlong scan.axis (fragments_of I.whole group.new.items)) }
    ensures looks { IfOk result (λ scan. looks_of_group scan.axis (fragments_of I.whole group.new.items)
        ≤ twos_in_height (fragments_of I.whole group.new.items)) }
    ensures at_most { IfOk result (λ scan. min (looks_of_group scan.axis (fragments_of I.whole group.new.items))
        (2 ^ 64 - 1) ≤ scan.at_most) }
{
    let upward = Scan {
        axis: Axis::Y,
        at_most: count_in_group(group, Axis::Y),
    };
    if group.len() as u64 > PLACES {
        return Ok(upward);
    }
    sort_by_keys(group, Axis::X, memory)?;
    if are_in_order(group, Axis::X) {
        let across = count_in_group(group, Axis::X);
        if across < upward.at_most {
            return Ok(Scan {
                axis: Axis::X,
                at_most: across,
            });
        }
    }
    mem::swap(group, &mut memory.row);
    Ok(upward)
}

/// Whether a group is scanned upward, where that compares so many fragments at most: if these are few, or not many more
/// than are expected from left to right.
fn is_scanned_upward<I: OverlayInt>(group: &[Fragment<I>], upward: u64) -> bool {
    let few = (group.len() as u64).saturating_mul(SCAN_BUDGET_PER_FRAGMENT);
    upward <= few || upward <= expected_across(group).saturating_mul(WORTH_A_SORT)
}

/// About how many fragments a scan from left to right compares, where they begin evenly over the width of all.
fn expected_across<I: OverlayInt>(group: &[Fragment<I>]) -> u64 {
    let mut widths = 0_u64;
    let mut first = i64::MAX;
    let mut last = i64::MIN;
    for index in 0..group.len() {
        let fragment = group[index];
        let left = fragment.rect.min_x.to_wide();
        let right = fragment.rect.max_x.to_wide();
        widths = widths.saturating_add(right.abs_diff(left));
        first = first.min(left);
        last = last.max(right);
    }
    let live = widths / last.abs_diff(first).max(1);
    live.saturating_mul(group.len() as u64)
}

/// Whether no fragment begins before those that precede it, along an axis.
fn are_in_order<I: OverlayInt>(group: &[Fragment<I>], axis: Axis) -> bool
    ensures { result ≡ true → IsSortedAlong axis (fragments_of I.whole group.now) }
{
    for place in 1..group.len() {
        let before = group[place - 1];
        let fragment = group[place];
        if axis.least(&fragment.rect) < axis.least(&before.rect) {
            return false;
        }
    }
    true
}

/// Sorts fragments by where they begin along an axis.
fn sort_by_least<I: OverlayInt>(group: &mut Vec<Fragment<I>>, axis: Axis) -> Result<(), AllocError>
    ensures permutation { IsPermutation group.old.items group.new.items }
    ensures sorted { OnOk result (IsSortedAlong axis (fragments_of I.whole group.new.items)) }
{
    match axis {
        Axis::X => group.sort_by_key(|fragment| fragment.rect.min_x),
        Axis::Y => group.sort_by_key(|fragment| fragment.rect.min_y),
    }
}

/// Puts fragments into the order of their keys, and leaves them in `memory` as they were. They are sorted then, unless
/// where they begin is not in range.
fn sort_by_keys<I: OverlayInt>(
    group: &mut Vec<Fragment<I>>,
    axis: Axis,
    memory: &mut SortMemory<I>,
) -> Result<(), AllocError>
    requires few { length group.old.items ≤ 2 ^ 32 }
    ensures permutation { IsPermutation group.old.items group.new.items }
    ensures row { OnOk result (memory.new.row ≡ group.old) }
{
    list_keys(group, axis, &mut memory.keys)?;
    memory.keys.sort()?;
    pick(group, memory.keys.as_slice(), &mut memory.row)?;
    mem::swap(group, &mut memory.row);
    Ok(())
}

/// Lists the keys of fragments, in their order.
fn list_keys<I: OverlayInt>(
    group: &[Fragment<I>],
    axis: Axis,
    keys: &mut Vec<u64>,
) -> Result<(), AllocError>
    requires few { length group.now ≤ 2 ^ 32 }
    ensures { OnOk result (map (λ key. key % 2 ^ 32) keys.new.items ≡ range_with_len 0 (length group.now)) }
{
    keys.clear();
    keys.reserve(group.len())?;
    for place in 0..group.len() {
        let fragment = group[place];
        keys.push(key_of(axis.least(&fragment.rect), place as u64))?;
    }
    Ok(())
}

/// The key of a fragment that begins at a coordinate, by which it is sorted, and of its place.
fn key_of<I: OverlayInt>(begin: I, place: u64) -> u64
    requires place { place < 2 ^ 32 }
    ensures { result % 2 ^ 32 ≡ place }
{
    let offset = begin.to_wide().wrapping_sub(I::MIN_COORD.to_wide());
    offset.unsigned_abs() % PLACES * PLACES + place
}

/// Lists the fragments whose places keys have, in the order of the keys.
fn pick<I: OverlayInt>(
    group: &[Fragment<I>],
    keys: &[u64],
    row: &mut Vec<Fragment<I>>,
) -> Result<(), AllocError>
    requires places { All (λ key. key % 2 ^ 32 < length group.now) keys.now }
    ensures { OnOk result (IsPicked group.now keys.now row.new.items) }
{
    row.clear();
    row.reserve(keys.len())?;
    for at in 0..keys.len() {
        row.push(group[(keys[at] % PLACES) as usize])?;
    }
    Ok(())
}
