// Marks: where a pass splits a segment. Upstream: `split::line_mark`.
ghost use Rattle.std.specs.Prelude.{OnOk, IsPermutation, IsSortedByKey};
ghost use Rattle.overlay_intersections.specs.MarkOf.{mark_of, mark_cmp};

use overlay_geometry::geom::point::IntPoint;
use overlay_geometry::num::OverlayInt;
use std::alloc::{AllocError, Global};

/// A point at which the segment with this index is split. Marks are ordered by the index, then by the point.
#[derive(Clone, Copy, Debug, PartialEq, Eq, PartialOrd, Ord)]
pub struct LineMark<I> {
    /// The index of the segment in the list of the pass.
    pub index: usize,
    /// The point at which it is split.
    pub point: IntPoint<I>,
}

/// Sorts marks by their indexes, and those of each index by their points.
///
/// It sorts by the indexes alone first, which takes one comparison for two marks and not up to three, and then the
/// marks of each index. The last sort finds them all in order.
///
/// Returns an error where a sort's buffer is refused; the marks are in some order then.
pub fn sort_marks<I: OverlayInt>(marks: &mut Vec<LineMark<I>>) -> Result<(), AllocError>
    ensures permutation { IsPermutation marks.old.items marks.new.items }
    ensures sorted { OnOk result (IsSortedByKey (mark_of I.whole) mark_cmp marks.new.items) }
{
    let alloc = *marks.allocator();
    marks.sort_by_key(|mark| mark.index)?;
    sort_each_index(marks.as_mut_slice(), alloc)?;
    marks.sort()
}

/// Sorts each run of marks with one index by itself.
fn sort_each_index<I: OverlayInt>(
    marks: &mut [LineMark<I>],
    alloc: Global,
) -> Result<(), AllocError>
    ensures { IsPermutation marks.old marks.new }
{
    let mut from = 0;
    for place in 1..marks.len() {
        if marks[place].index != marks[from].index {
            if place - from > 1 {
                marks[from..place].sort(alloc)?;
            }
            from = place;
        }
    }
    if marks.len() - from > 1 {
        marks[from..].sort(alloc)?;
    }
    Ok(())
}
