// The fragments of a group that one of them may meet, by blocks. This project's own.
ghost use Rattle.std.specs.Prelude.{◌≡◌, ◌<◌, ◌≤◌, ◌+◌, ◌-◌, ◌<ℤ◌, drop, int_lt, length, take, count_by};
ghost use Rattle.std.specs.List.{AllByRecursion};
ghost use Rattle.overlay_grid.specs.FragmentOf.{fragment_of, fragments_of, least_along, greatest_along, IsSortedAlong};
ghost use Rattle.overlay_grid.specs.ColumnLooks.{is_reached};
ghost use Rattle.overlay_grid.specs.steps.FragmentFinder.{AreListed};

use crate::split::axis::Axis;
use crate::split::fragment::Fragment;
use overlay_geometry::num::OverlayInt;

/// How many fragments are compared with one before those that meet it are looked at.
pub(crate) const BLOCK: usize = 64;

const _: () = prove!(BLOCK == 64);

/// Where a block of fragments ends that a fragment reaches along an axis: at the first that begins past its end, if it
/// is not too long.
pub(crate) fn block_end<I: OverlayInt>(
    group: &[Fragment<I>],
    later: usize,
    fragment: &Fragment<I>,
    axis: Axis,
) -> usize
    requires later { later ≤ length group.now }
    requires sorted { IsSortedAlong axis (fragments_of I.whole group.now) }
    ensures from { later ≤ result }
    ensures within { result ≤ length group.now }
    ensures few { result ≤ later + 64 }
    ensures looks { count_by (λ g. is_reached axis (fragment_of I.whole fragment.now) g)
        (drop later (fragments_of I.whole group.now)) ≡ result - later + count_by (λ g. is_reached axis
        (fragment_of I.whole fragment.now) g) (drop result (fragments_of I.whole group.now)) }
    ensures past { result < later + 64 → AllByRecursion (λ g. greatest_along axis (fragment_of I.whole fragment.now)
        <ℤ least_along axis g) (drop result (fragments_of I.whole group.now)) }
{
    let most = if group.len() - later < BLOCK {
        group.len()
    } else {
        later + BLOCK
    };
    for end in later..most {
        let other = group[end];
        if begins_past(&other, fragment, axis) {
            return end;
        }
    }
    most
}

/// Lists the places of a block whose fragments have rectangles that meet that of a fragment, and returns how many there
/// are. It writes each place, so that it takes no branch.
pub(crate) fn list_meeting<I: OverlayInt>(
    group: &[Fragment<I>],
    later: usize,
    end: usize,
    fragment: &Fragment<I>,
    found: &mut [usize],
) -> usize
    requires order { later ≤ end }
    requires within { end ≤ length group.now }
    requires few { end ≤ later + 64 }
    requires room { length found.old ≡ 64 }
    ensures count { result ≤ 64 }
    ensures listed { AreListed (fragments_of I.whole group.now) (fragment_of I.whole fragment.now) later end
        (take result found.new) }
{
    let mut count = 0;
    for place in later..end {
        let other = group[place];
        found[count] = place;
        count += usize::from(fragment.rect.is_intersect_border_include(&other.rect));
    }
    count
}

/// Whether a fragment begins past the end of another along an axis.
fn begins_past<I: OverlayInt>(other: &Fragment<I>, fragment: &Fragment<I>, axis: Axis) -> bool
    ensures { result ≡ int_lt (greatest_along axis (fragment_of I.whole fragment.now))
        (least_along axis (fragment_of I.whole other.now)) }
{
    axis.greatest(&fragment.rect) < axis.least(&other.rect)
}
