// The memory of fragments, kept from one buffer to the next. This project's own.
ghost use Rattle.std.specs.Prelude.{◌≡◌, [], ℕ, OnOk, length};
ghost use Rattle.overlay_grid.specs.GroupsOf.{group_in};

use crate::split::column_parts::SweepMemory;
use crate::split::fragment::Fragment;
use crate::split::group_sort::SortMemory;
use overlay_geometry::num::OverlayInt;
use std::alloc::{AllocError, Global};

/// The memory of a buffer, which one buffer hands on to the next.
#[derive(Drop)]
pub struct FragmentMemory<I> {
    pub(crate) groups: Vec<Vec<Fragment<I>>>,
    pub(crate) right_ends: Vec<I>,
    pub(crate) sort_memory: SortMemory<I>,
    pub(crate) sweep: SweepMemory<I>,
}

impl<I> FragmentMemory<I> {
    /// None yet.
    pub fn new(alloc: Global) -> Self {
        FragmentMemory {
            groups: Vec::new(alloc),
            right_ends: Vec::new(alloc),
            sort_memory: SortMemory::new(alloc),
            sweep: SweepMemory::new(alloc),
        }
    }
}

/// Leaves this number of groups, all of them empty.
pub(crate) fn empty_groups<I: OverlayInt>(
    alloc: Global,
    groups: &mut Vec<Vec<Fragment<I>>>,
    count: usize,
) -> Result<(), AllocError>
    ensures count { OnOk result (length groups.new.items ≡ count) }
    ensures empty { OnOk result ((column : ℕ) → group_in I.whole groups.new.items column ≡ []) }
{
    groups.truncate(count);
    clear_groups(groups);
    for _ in groups.len()..count {
        groups.push(Vec::new(alloc))?;
    }
    Ok(())
}

/// Empties every group.
pub(crate) fn clear_groups<I: OverlayInt>(groups: &mut Vec<Vec<Fragment<I>>>)
    ensures count { length groups.new.items ≡ length groups.old.items }
    ensures empty { (column : ℕ) → group_in I.whole groups.new.items column ≡ [] }
{
    for column in 0..groups.len() {
        groups[column].clear();
    }
}
