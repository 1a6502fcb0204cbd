// The sort of a buffer whose scan may compare no more than so many pairs. This project's own.
ghost use Rattle.std.specs.Prelude.{◌≡◌, ◌≤◌, ◌+◌, ℕ, true, IfOk, IfSome, IsPermutation};
ghost use Rattle.overlay_grid.specs.FragmentOf.{IsSortedAlong};
ghost use Rattle.overlay_grid.specs.BufferLooks.{buffer_looks};
ghost use Rattle.overlay_grid.specs.GroupsOf.{group_of, grid_of};
ghost use Rattle.overlay_grid.specs.steps.BufferBorders.{buffer_borders};

use crate::split::axis::Axis;
use crate::split::border_contacts::count_at_borders;
use crate::split::fragment_buffer::FragmentBuffer;
use crate::split::reach::reached_at_most;
use overlay_geometry::num::OverlayInt;
use std::alloc::AllocError;

/// Sorts every group along one axis and returns which: from the lowest up, or from left to right where only that keeps
/// to the limit. A scan along it and the borders compare fewer pairs than the limit together; it returns `None` where
/// neither axis is such.
pub(crate) fn sort_within<I: OverlayInt>(
    buffer: &mut FragmentBuffer<I>,
    most: u64,
) -> Result<Option<Axis>, AllocError>
    ensures layout { grid_of buffer.new ≡ grid_of buffer.old }
    ensures permutation { (column : ℕ) → IsPermutation (group_of buffer.old column) (group_of buffer.new column) }
    ensures sorted { IfOk result (λ found. IfSome found (λ axis. (column : ℕ)
        → IsSortedAlong axis (group_of buffer.new column))) }
    ensures within { IfOk result (λ found. IfSome found (λ axis.
        buffer_looks axis buffer.new + buffer_borders buffer.new ≤ most)) }
{
    buffer.sort_along(Axis::Y)?;
    if is_within(buffer, Axis::Y, most) {
        return Ok(Some(Axis::Y));
    }
    buffer.sort_along(Axis::X)?;
    if is_within(buffer, Axis::X, most) {
        return Ok(Some(Axis::X));
    }
    Ok(None)
}

/// Whether a scan along an axis and the borders are known to compare fewer pairs than a number. The groups have to be
/// sorted along the axis.
fn is_within<I: OverlayInt>(buffer: &FragmentBuffer<I>, axis: Axis, most: u64) -> bool
    requires sorted { (column : ℕ) → IsSortedAlong axis (group_of buffer.now column) }
    ensures { result ≡ true → buffer_looks axis buffer.now + buffer_borders buffer.now ≤ most }
{
    let reached = reached_at_most(buffer.groups(), axis);
    let at_borders = count_at_borders(buffer);
    reached.saturating_add(at_borders) < most
}
