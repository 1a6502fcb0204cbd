// The parts of a list of ends, each sorted by itself. Upstream: none; its `build::graph` sorts all ends at once.
ghost use Rattle.std.specs.Prelude.{◌≡◌, length, OnOk, IfOk, IfErr};
ghost use Rattle.std.specs.Ordering.{nat_cmp};
ghost use Rattle.std.specs.List.Sorted.{IsStableByKey};
ghost use Rattle.overlay_geometry.specs.Points.{point_cmp};
ghost use Rattle.overlay_base.specs.declared.segm.fault.Fault.TheVariants.{Memory};
ghost use Rattle.overlay_build.specs.steps.EndOf.{ends_of};

use crate::build::link_ends::PackedEnd;
use overlay_base::segm::fault::Fault;
use std::alloc::{AllocError, Global};

/// Sorts each part of a list by itself. A part ends where no end behind it lies before one in it.
///
/// In a list that is nearly in order most parts are short, and the sort of the whole then finds it sorted.
pub fn sort_end_parts(ends: &mut Vec<PackedEnd>) -> Result<(), Fault>
    ensures same { OnOk result (IsStableByKey (λ e. e.point) point_cmp (ends_of ends.old.items) (ends_of ends.new.items)) }
    ensures fault { IfErr result (λ fault. fault ≡ Memory) }
{
    let alloc = *ends.allocator();
    let least_keys = least_keys(ends, alloc)?;
    sort_parts(ends.as_mut_slice(), alloc, &least_keys)?;
    Ok(())
}

/// Lists the least key from each place on.
fn least_keys(ends: &[PackedEnd], alloc: Global) -> Result<Vec<u64>, AllocError>
    ensures { IfOk result (λ keys. length keys.items ≡ length ends.now) }
{
    let mut keys = Vec::new(alloc);
    keys.resize(ends.len(), u64::MAX)?;
    let mut least = u64::MAX;
    let mut place = ends.len();
    while place > 0 {
        place -= 1;
        least = least.min(ends[place].key);
        keys[place] = least;
    }
    Ok(keys)
}

/// Sorts each part of a list by itself, given the least key from each place on.
fn sort_parts(ends: &mut [PackedEnd], alloc: Global, least_keys: &[u64]) -> Result<(), AllocError>
    requires { length least_keys.now ≡ length ends.old }
    ensures { IsStableByKey (λ e. e.key) nat_cmp ends.old ends.new }
{
    let mut from = 0;
    let mut greatest = 0;
    for place in 0..ends.len() {
        if greatest <= least_keys[place] {
            sort_part(&mut ends[from..place], alloc)?;
            from = place;
        }
        greatest = greatest.max(ends[place].key);
    }
    sort_part(&mut ends[from..], alloc)
}

/// Sorts a part of a list. Ends at one point stay in their order.
fn sort_part(part: &mut [PackedEnd], alloc: Global) -> Result<(), AllocError>
    ensures { IsStableByKey (λ e. e.key) nat_cmp part.old part.new }
{
    if part.len() < 2 {
        return Ok(());
    }
    part.sort_by_key(alloc, |end| end.key)
}
