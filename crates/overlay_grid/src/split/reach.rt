// How many pairs of fragments a scan of groups along an axis compares. This project's own.
ghost use Rattle.std.specs.Prelude.{◌≡◌, ◌≤◌, ◌-◌, ◌^◌, ◌≤ℤ◌, ◌<ℤ◌, [], ℕ, true, false, count_by, int_le, length, min};
ghost use Rattle.overlay_grid.specs.FragmentOf.{fragment_of, fragments_of, least_along, IsSortedAlong};
ghost use Rattle.overlay_grid.specs.GroupsOf.{group_in};
ghost use Rattle.overlay_grid.specs.ColumnLooks.{looks_of_group, looks_of_groups};
ghost use Rattle.overlay_grid.specs.steps.FragmentFinder.{is_group_rounded, marks_of_group};
ghost use Rattle.overlay_intersections.specs.Marks.{Placing};

use crate::split::axis::Axis;
use crate::split::fragment::Fragment;
use overlay_geometry::num::OverlayInt;

/// How many pairs of fragments a scan of a group along an axis compares: each fragment with those after it that begin
/// up to where it ends; `u64::MAX` if there are more. The group has to be sorted along the axis.
pub(crate) fn count_in_group<I: OverlayInt>(group: &[Fragment<I>], axis: Axis) -> u64
    requires sorted { IsSortedAlong axis (fragments_of I.whole group.now) }
    ensures { result ≡ min (looks_of_group axis (fragments_of I.whole group.now)) (2 ^ 64 - 1) }
{
    let mut count = 0_u64;
    for first in 0..group.len() {
        let end = axis.greatest(&group[first].rect);
        let own = count_begun(&group[first + 1..], end, axis);
        count = count.saturating_add(own as u64);
    }
    count
}

/// How many fragments, which have to be sorted along an axis, begin up to a place on it.
fn count_begun<I: OverlayInt>(group: &[Fragment<I>], end: I, axis: Axis) -> usize
    requires sorted { IsSortedAlong axis (fragments_of I.whole group.now) }
    ensures { result ≡ count_by (λ f. int_le (least_along axis f) (I.whole end)) (fragments_of I.whole group.now) }
{
    group.partition_point(|fragment| begins_by(fragment, end, axis))
}

/// Whether a fragment begins at a coordinate or before it, along an axis.
fn begins_by<I: OverlayInt>(fragment: &Fragment<I>, end: I, axis: Axis) -> bool
    ensures { result ≡ int_le (least_along axis (fragment_of I.whole fragment.now)) (I.whole end) }
{
    axis.least(&fragment.rect) <= end
}

/// A number which the pairs that `count_in_group` counts in all groups do not exceed, up to `u64::MAX`. It takes fewer
/// steps. The groups have to be sorted along the axis.
pub(crate) fn reached_at_most<I: OverlayInt>(groups: &[Vec<Fragment<I>>], axis: Axis) -> u64
    requires sorted { (column : ℕ) → IsSortedAlong axis (group_in I.whole groups.now column) }
    ensures { min (looks_of_groups axis (group_in I.whole groups.now) (length groups.now)) (2 ^ 64 - 1) ≤ result }
{
    let mut count = 0_u64;
    for column in 0..groups.len() {
        let own = reached_in_group_at_most(groups[column].as_slice(), axis);
        count = count.saturating_add(own);
    }
    count
}

/// The same of one group.
pub(crate) fn reached_in_group_at_most<I: OverlayInt>(group: &[Fragment<I>], axis: Axis) -> u64
    requires sorted { IsSortedAlong axis (fragments_of I.whole group.now) }
    ensures { min (looks_of_group axis (fragments_of I.whole group.now)) (2 ^ 64 - 1) ≤ result }
{
    let mut count = 0_u64;
    for first in 0..group.len() {
        let end = axis.greatest(&group[first].rect);
        let own = begun_at_most(&group[first + 1..], end, axis);
        count = count.saturating_add(own as u64);
    }
    count
}

/// Whether each fragment of a group begins above where the one before it ends, so that no two rectangles meet.
pub(crate) fn are_apart_upward<I: OverlayInt>(group: &[Fragment<I>]) -> bool
    ensures marks { result ≡ true → (placing : Placing) → marks_of_group placing (fragments_of I.whole group.now) ≡ [] }
    ensures rounded { result ≡ true → is_group_rounded (fragments_of I.whole group.now) ≡ false }
{
    for place in 1..group.len() {
        let before = group[place - 1];
        let fragment = group[place];
        if !begins_above(&fragment, &before) {
            return false;
        }
    }
    true
}

/// Whether a fragment begins above where another ends, and no lower than that begins.
fn begins_above<I: OverlayInt>(fragment: &Fragment<I>, before: &Fragment<I>) -> bool
    ensures past { result ≡ true → I.whole before.now.rect.max_y <ℤ I.whole fragment.now.rect.min_y }
    ensures order { result ≡ true → I.whole before.now.rect.min_y ≤ℤ I.whole fragment.now.rect.min_y }
{
    before.rect.max_y < fragment.rect.min_y && before.rect.min_y <= fragment.rect.min_y
}

/// How many fragments are next to one: a look at the one after these comes first.
const NEXT: usize = 4;

/// How many fragments are near: a look at the next one after so many comes before a binary search.
const NEAR: usize = 8;

/// And how many are not far.
const NOT_FAR: usize = 24;

/// A number which the fragments that `count_begun` counts do not exceed.
fn begun_at_most<I: OverlayInt>(group: &[Fragment<I>], end: I, axis: Axis) -> usize
    requires sorted { IsSortedAlong axis (fragments_of I.whole group.now) }
    ensures { count_by (λ f. int_le (least_along axis f) (I.whole end)) (fragments_of I.whole group.now) ≤ result }
{
    if begins_past(group, NEXT, end, axis) {
        return NEXT;
    }
    if begins_past(group, NEAR, end, axis) {
        return NEAR;
    }
    if begins_past(group, NOT_FAR, end, axis) {
        return NOT_FAR;
    }
    count_begun(group, end, axis)
}

/// Whether there is a fragment at an index, and it begins past a place along an axis, and so does each after it.
fn begins_past<I: OverlayInt>(group: &[Fragment<I>], index: usize, end: I, axis: Axis) -> bool
    requires sorted { IsSortedAlong axis (fragments_of I.whole group.now) }
    ensures { result ≡ true → count_by (λ f. int_le (least_along axis f) (I.whole end))
        (fragments_of I.whole group.now) ≤ index }
{
    if index >= group.len() {
        return false;
    }
    let fragment = group[index];
    !begins_by(&fragment, end, axis)
}
