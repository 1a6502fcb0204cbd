// The fragments of segments, column by column. Upstream: part of `split::grid_layout`.
ghost use Rattle.std.specs.Prelude.{◌≡◌, ◌++◌, OnOk, IsPermutation, IsSorted, length, map};
ghost use Rattle.std.specs.Ordering.{int_eq};
ghost use Rattle.overlay_grid.specs.Grid.{pos_of, group_count, fragments};
ghost use Rattle.overlay_grid.specs.FragmentOf.{layout_of, fragments_of, IsSortedAlong};
ghost use Rattle.overlay_grid.specs.steps.FragmentFinder.{heights_at};

use crate::split::axis::Axis;
use crate::split::column_parts::SweepMemory;
use crate::split::fragment::Fragment;
use crate::split::fragment_memory::{FragmentMemory, clear_groups, empty_groups};
use crate::split::grid_layout::GridLayout;
use crate::split::group_sort::{SortMemory, sort_group};
use crate::split::rise::heights_at;
use overlay_base::segm::fault::Fault;
use overlay_geometry::geom::point::IntPoint;
use overlay_geometry::geom::x_segment::XSegment;
use overlay_geometry::num::OverlayInt;
use std::alloc::{AllocError, Global};

/// The fragments of segments in the columns of a layout: one group for each column. It keeps its memory when cleared.
#[derive(Drop)]
pub struct FragmentBuffer<I: OverlayInt> {
    pub(crate) alloc: Global,
    pub(crate) layout: GridLayout<I>,
    groups: Vec<Vec<Fragment<I>>>,
    right_ends: Vec<I>,
    sort_memory: SortMemory<I>,
    pub(crate) sweep: SweepMemory<I>,
    ghost columns: { length groups.items ≡ group_count (layout_of layout) },
}

impl<I: OverlayInt> FragmentBuffer<I> {
    ghost use Rattle.std.specs.Prelude.{◌<◌, ◌≤◌, ◌+◌, ◌≤ℤ◌, IsPermutation, IsSorted, ◌++◌, [], ◌∷◌, ℕ, ◌==◌, IfOk, IfErr, OnOk, OnErr, if◌then◌else◌, map};
    ghost use Rattle.overlay_base.specs.declared.segm.fault.Fault.TheVariants.{Memory};
    ghost use Rattle.overlay_geometry.specs.PairOf.{pair_of};
    ghost use Rattle.overlay_geometry.specs.InRange.{IsPairInRange};
    ghost use Rattle.overlay_grid.specs.FragmentOf.{fragment_of, kept_in, IsSortedAlong};
    ghost use Rattle.overlay_grid.specs.steps.FragmentFinder.{heights_at};
    ghost use Rattle.overlay_grid.specs.GroupsOf.{group_of, groups_of, grid_of, AddsFragments};

    /// A buffer with one group for each column of a layout, all empty. Returns `Fault::Memory` where a growth is
    /// refused.
    pub fn new(alloc: Global, layout: GridLayout<I>) -> Result<Self, Fault>
        ensures layout { IfOk result (λ buffer. grid_of buffer ≡ layout_of layout) }
        ensures empty { IfOk result (λ buffer. (column : ℕ) → group_of buffer column ≡ []) }
        ensures fault { IfErr result (λ fault. fault ≡ Memory) }
    {
        FragmentBuffer::with_memory(alloc, layout, FragmentMemory::new(alloc))
    }

    /// A buffer with one group for each column of a layout, all empty, in the memory of an earlier buffer. Returns
    /// `Fault::Memory` where a growth is refused.
    pub fn with_memory(
        alloc: Global,
        layout: GridLayout<I>,
        memory: FragmentMemory<I>,
    ) -> Result<Self, Fault>
        ensures layout { IfOk result (λ buffer. grid_of buffer ≡ layout_of layout) }
        ensures empty { IfOk result (λ buffer. (column : ℕ) → group_of buffer column ≡ []) }
        ensures fault { IfErr result (λ fault. fault ≡ Memory) }
    {
        let FragmentMemory {
            mut groups,
            right_ends,
            sort_memory,
            sweep,
        } = memory;
        let count = layout.column_count();
        empty_groups(alloc, &mut groups, count)?;
        Ok(FragmentBuffer {
            alloc,
            layout,
            groups,
            right_ends,
            sort_memory,
            sweep,
        })
    }

    /// Gives up the buffer and returns its memory, for the next one.
    pub fn into_memory(self) -> FragmentMemory<I> {
        let FragmentBuffer {
            alloc: _,
            layout: _,
            groups,
            right_ends,
            sort_memory,
            sweep,
        } = self;
        FragmentMemory {
            groups,
            right_ends,
            sort_memory,
            sweep,
        }
    }

    /// The fragments that were added, column by column, in the order in which they were added or sorted.
    pub fn groups(&self) -> &[Vec<Fragment<I>>]
        ensures { result.now ≡ groups_of self.now }
    {
        &self.groups
    }

    /// The left border of a column; there are more columns than its index.
    pub(crate) fn border(&self, column: usize) -> I
        requires { column < group_count (grid_of self.now) }
        ensures { I.whole result ≡ pos_of (grid_of self.now) column }
    {
        self.layout.pos(column)
    }

    /// The heights that `list_right_ends` listed.
    pub(crate) fn right_ends(&self) -> &[I]
        ensures { result.now ≡ self.now.right_ends.items }
    {
        &self.right_ends
    }

    /// Lists the heights at which segments with a fragment in a column end on its right border, from the lowest up.
    pub(crate) fn list_right_ends(&mut self, column: usize) -> Result<(), AllocError>
        requires { column + 1 < group_count (grid_of self.old) }
        ensures layout { self.new.layout ≡ self.old.layout }
        ensures groups { self.new.groups ≡ self.old.groups }
        ensures ends { OnOk result (IsPermutation (heights_at (pos_of (grid_of self.old) (column + 1))
            (group_of self.old column)) (map I.whole self.new.right_ends.items)) }
        ensures sorted { OnOk result (IsSorted I.cmp self.new.right_ends.items) }
    {
        let border = self.border(column + 1);
        list_ends_at(self.groups[column].as_slice(), border, &mut self.right_ends)
    }

    /// Empties every group.
    pub fn clear(&mut self)
        ensures layout { grid_of self.new ≡ grid_of self.old }
        ensures empty { (column : ℕ) → group_of self.new column ≡ [] }
    {
        clear_groups(&mut self.groups);
    }

    /// Sorts every group by where the fragments begin along an axis.
    pub(crate) fn sort_along(&mut self, axis: Axis) -> Result<(), AllocError>
        ensures layout { grid_of self.new ≡ grid_of self.old }
        ensures permutation { (column : ℕ) → IsPermutation (group_of self.old column) (group_of self.new column) }
        ensures sorted { OnOk result ((column : ℕ) → IsSortedAlong axis (group_of self.new column)) }
    {
        for column in 0..self.groups.len() {
            sort_group(&mut self.groups[column], axis, &mut self.sort_memory)?;
        }
        Ok(())
    }

    /// Appends the fragments of a segment, one to the group of each column that it enters. Each has a rectangle that
    /// holds the segment's part there. The segment has to be in range and inside the layout, and its `a.x` may not be
    /// greater than its `b.x`.
    ///
    /// Returns `Fault::Memory` where a growth is refused; every group is empty then.
    pub fn add_segment(&mut self, index: usize, x_segment: XSegment<I>) -> Result<(), Fault>
        requires in_range { IsPairInRange I.whole I.MIN_COORD I.MAX_COORD x_segment }
        requires order { I.whole x_segment.a.x ≤ℤ I.whole x_segment.b.x }
        requires from { (grid_of self.old).min_x ≤ℤ I.whole x_segment.a.x }
        requires to { I.whole x_segment.b.x ≤ℤ (grid_of self.old).max_x }
        ensures layout { grid_of self.new ≡ grid_of self.old }
        ensures added { OnOk result (AddsFragments index x_segment self.old self.new) }
        ensures emptied { OnErr result ((column : ℕ) → group_of self.new column ≡ []) }
        ensures fault { IfErr result (λ fault. fault ≡ Memory) }
    {
        if self.add_fragments(index, x_segment).is_err() {
            self.clear();
            return Err(Fault::Memory);
        }
        Ok(())
    }

    /// How many fragments `add_segment` makes of a segment, under the same conditions.
    pub(crate) fn fragment_count(&self, x_segment: &XSegment<I>) -> usize
        requires order { I.whole x_segment.now.a.x ≤ℤ I.whole x_segment.now.b.x }
        requires from { (grid_of self.now).min_x ≤ℤ I.whole x_segment.now.a.x }
        requires to { I.whole x_segment.now.b.x ≤ℤ (grid_of self.now).max_x }
        ensures { result ≡ length (fragments (grid_of self.now) (pair_of I.whole x_segment.now)) }
    {
        if !x_segment.is_not_vertical() {
            return 1;
        }
        let first = self.layout.index(x_segment.a.x);
        let last = self.layout.index_before(x_segment.b.x);
        last - first + 1
    }

    /// Adds a fragment of the segment to each column that it meets.
    fn add_fragments(&mut self, index: usize, x_segment: XSegment<I>) -> Result<(), AllocError>
        requires in_range { IsPairInRange I.whole I.MIN_COORD I.MAX_COORD x_segment }
        requires order { I.whole x_segment.a.x ≤ℤ I.whole x_segment.b.x }
        requires from { (grid_of self.old).min_x ≤ℤ I.whole x_segment.a.x }
        requires to { I.whole x_segment.b.x ≤ℤ (grid_of self.old).max_x }
        ensures layout { grid_of self.new ≡ grid_of self.old }
        ensures added { OnOk result ((column : ℕ) → group_of self.new column ≡ group_of self.old column
            ++ kept_in (grid_of self.old) index (pair_of I.whole x_segment) column) }
    {
        let is_vertical = !x_segment.is_not_vertical();
        let XSegment { a, b } = x_segment;
        let first = self.layout.index(a.x);
        if is_vertical {
            let whole = Fragment::between(index, a, b, XSegment { a, b });
            return self.insert(first, whole);
        }
        let last = self.layout.index_before(b.x);
        let mut corner = a;
        for column in first..last {
            let border = self.layout.pos(column + 1);
            let heights = heights_at(&XSegment { a, b }, border);
            let far = IntPoint {
                x: border,
                y: heights.far,
            };
            let part = Fragment::between(index, corner, far, XSegment { a, b });
            self.insert(column, part)?;
            corner = IntPoint {
                x: border,
                y: heights.near,
            };
        }
        let part = Fragment::between(index, corner, b, XSegment { a, b });
        self.insert(last, part)
    }

    /// Appends a fragment to the group of a column.
    fn insert(&mut self, column: usize, fragment: Fragment<I>) -> Result<(), AllocError>
        requires { column < length self.old.groups.items }
        ensures layout { grid_of self.new ≡ grid_of self.old }
        ensures added { OnOk result ((other : ℕ) → group_of self.new other ≡ group_of self.old other
            ++ (if column == other then fragment_of I.whole fragment ∷ [] else [])) }
    {
        self.groups[column].push(fragment)?;
        Ok(())
    }
}

/// Lists the heights at which the segments of fragments end at an `x`, from the lowest up.
pub(crate) fn list_ends_at<I: OverlayInt>(
    group: &[Fragment<I>],
    x: I,
    right_ends: &mut Vec<I>,
) -> Result<(), AllocError>
    ensures ends { OnOk result (IsPermutation (heights_at (I.whole x) (fragments_of I.whole group.now))
        (map I.whole right_ends.new.items)) }
    ensures sorted { OnOk result (IsSorted I.cmp right_ends.new.items) }
{
    right_ends.clear();
    push_right_ends(group, x, right_ends)?;
    right_ends.sort_unstable();
    Ok(())
}

/// Appends the heights of the right ends at an `x`.
fn push_right_ends<I: OverlayInt>(
    group: &[Fragment<I>],
    x: I,
    right_ends: &mut Vec<I>,
) -> Result<(), AllocError>
    ensures { OnOk result (map I.whole right_ends.new.items ≡ map I.whole right_ends.old.items
        ++ heights_at (I.whole x) (fragments_of I.whole group.now)) }
{
    for index in 0..group.len() {
        let fragment = group[index];
        if ends_at(&fragment, x) {
            right_ends.push(fragment.x_segment.b.y)?;
        }
    }
    Ok(())
}

/// Whether the segment of a fragment ends at this `x`.
fn ends_at<I: OverlayInt>(fragment: &Fragment<I>, x: I) -> bool
    ensures { result ≡ int_eq (I.whole fragment.now.x_segment.b.x) (I.whole x) }
{
    fragment.x_segment.b.x == x
}
