// The fragments of one column, and what goes on into the next. This project's own.
ghost use Rattle.std.specs.Prelude.{◌≡◌, ◌≤◌, ◌≤ℤ◌, ◌+◌, ◌++◌, [], OnOk, IfOk, All, IsSortedByKey, int_lt, length};
ghost use Rattle.overlay_geometry.specs.Points.{pair_cmp};
ghost use Rattle.overlay_geometry.specs.InRange.{IsPairInRange};
ghost use Rattle.overlay_geometry.specs.PairOf.{pair_of};
ghost use Rattle.overlay_geometry.specs.PointOf.{point_of};
ghost use Rattle.overlay_base.specs.ArrangedOf.{AreInRange};
ghost use Rattle.overlay_base.specs.SegmentOf.{ends_of, pairs_in};
ghost use Rattle.overlay_grid.specs.Grid.{IsInside};
ghost use Rattle.overlay_grid.specs.FragmentOf.{fragments_of, kept_in, layout_of};
ghost use Rattle.overlay_grid.specs.steps.FragmentFinder.{kept_group};
ghost use Rattle.overlay_grid.specs.steps.Entering.{entering, entering_in, rests_of};
ghost use Rattle.overlay_grid.specs.steps.Sweeps.{AreParted, IsPartAt, goes_on};

use crate::split::fragment::Fragment;
use crate::split::grid_layout::GridLayout;
use crate::split::group_sort::SortMemory;
use crate::split::rise::heights_at;
use overlay_base::segm::segment::Segment;
use overlay_base::segm::winding::WindingCount;
use overlay_geometry::geom::point::IntPoint;
use overlay_geometry::geom::x_segment::XSegment;
use overlay_geometry::num::OverlayInt;
use std::alloc::{AllocError, Global};

/// What is left of a segment from a point on: its index in the list of the pass, the whole segment, and the point.
#[derive(Clone, Copy)]
pub(crate) struct Rest<I> {
    pub index: usize,
    pub x_segment: XSegment<I>,
    pub corner: IntPoint<I>,
}

/// The fragments of a column, and the rests of segments that go on into the next one.
#[derive(Drop)]
pub(crate) struct ColumnParts<I> {
    pub group: Vec<Fragment<I>>,
    pub rests: Vec<Rest<I>>,
}

impl<I> ColumnParts<I> {
    /// None yet.
    pub(crate) fn new(alloc: Global) -> Self
        ensures group { result.group.items ≡ [] }
        ensures rests { result.rests.items ≡ [] }
    {
        ColumnParts {
            group: Vec::new(alloc),
            rests: Vec::new(alloc),
        }
    }
}

/// The memory of a walk over the columns, which one walk hands on to the next.
#[derive(Drop)]
pub(crate) struct SweepMemory<I> {
    /// The rests that go on into the column.
    pub left: Vec<Rest<I>>,
    pub parts: ColumnParts<I>,
    /// The heights at which segments end on the left border of the column, in order.
    pub right_ends: Vec<I>,
    pub sort_memory: SortMemory<I>,
}

impl<I> SweepMemory<I> {
    /// None yet.
    pub(crate) fn new(alloc: Global) -> Self {
        SweepMemory {
            left: Vec::new(alloc),
            parts: ColumnParts::new(alloc),
            right_ends: Vec::new(alloc),
            sort_memory: SortMemory::new(alloc),
        }
    }
}

/// Takes the fragments of a column: of the rests that go on into it, then of the segments that begin in it, which are
/// those from an index on. Lists the rests that go on into the next column, and returns the index of the first segment
/// that begins right of this one.
pub(crate) fn take_column<C: WindingCount, I: OverlayInt, D: Copy>(
    segments: &[Segment<C, I, D>],
    from: usize,
    column: usize,
    layout: &GridLayout<I>,
    rests: &[Rest<I>],
    parts: &mut ColumnParts<I>,
) -> Result<usize, AllocError>
    requires sorted { IsSortedByKey ends_of pair_cmp segments.now }
    requires in_range { AreInRange segments.now }
    requires inside { All (λ s. IsInside (layout_of layout.now) (ends_of s)) segments.now }
    requires parted { AreParted (layout_of layout.now) (pairs_in segments.now) from column }
    requires rests { rests_of I.whole rests.now ≡ entering (layout_of layout.now) 0 (pairs_in segments.now) column }
    ensures parted { IfOk result (λ index. AreParted (layout_of layout.now) (pairs_in segments.now) index
        (column + 1)) }
    ensures group { OnOk result (fragments_of I.whole parts.new.group.items
        ≡ kept_group (layout_of layout.now) 0 (pairs_in segments.now) column) }
    ensures rests { OnOk result (rests_of I.whole parts.new.rests.items
        ≡ entering (layout_of layout.now) 0 (pairs_in segments.now) (column + 1)) }
{
    let until = column_end(segments, column, layout);
    parts.group.clear();
    parts.rests.clear();
    let begun = until.saturating_sub(from);
    parts.group.reserve(begun.saturating_add(rests.len()))?;
    for place in 0..rests.len() {
        let rest = rests[place];
        take_part(rest, column, layout, &mut parts.group, &mut parts.rests)?;
    }
    for index in from..until {
        let XSegment { a, b } = segments[index].x_segment();
        let rest = Rest {
            index,
            x_segment: XSegment { a, b },
            corner: a,
        };
        take_part(rest, column, layout, &mut parts.group, &mut parts.rests)?;
    }
    Ok(until)
}

/// The index of the first segment that begins right of a column, or how many there are, if none does.
fn column_end<C: WindingCount, I: OverlayInt, D: Copy>(
    segments: &[Segment<C, I, D>],
    column: usize,
    layout: &GridLayout<I>,
) -> usize
    requires sorted { IsSortedByKey ends_of pair_cmp segments.now }
    requires inside { All (λ s. IsInside (layout_of layout.now) (ends_of s)) segments.now }
    ensures bound { result ≤ length segments.now }
    ensures parted { AreParted (layout_of layout.now) (pairs_in segments.now) result (column + 1) }
{
    let last = layout.column_count() - 1;
    if last <= column {
        return segments.len();
    }
    let end = layout.pos(column + 1);
    segments.partition_point(|segment| begins_before(segment, end))
}

/// Whether a segment begins left of an `x`.
fn begins_before<C: WindingCount, I: OverlayInt, D: Copy>(segment: &Segment<C, I, D>, x: I) -> bool
    ensures { result ≡ int_lt (ends_of segment.now).a.x (I.whole x) }
{
    segment.x_segment().a.x < x
}

/// Takes the fragment of a segment in a column in which a corner of its begins, and lists the rest, if the segment goes on
/// into the next column.
#[inline(always)]
fn take_part<I: OverlayInt>(
    rest: Rest<I>,
    column: usize,
    layout: &GridLayout<I>,
    group: &mut Vec<Fragment<I>>,
    rests: &mut Vec<Rest<I>>,
) -> Result<(), AllocError>
    requires in_range { IsPairInRange I.whole I.MIN_COORD I.MAX_COORD rest.x_segment }
    requires order { I.whole rest.x_segment.a.x ≤ℤ I.whole rest.x_segment.b.x }
    requires inside { IsInside (layout_of layout.now) (pair_of I.whole rest.x_segment) }
    requires place { IsPartAt (layout_of layout.now) (pair_of I.whole rest.x_segment) column
        (point_of I.whole rest.corner) }
    ensures group { OnOk result (fragments_of I.whole group.new.items ≡ fragments_of I.whole group.old.items
        ++ kept_in (layout_of layout.now) rest.index (pair_of I.whole rest.x_segment) column) }
    ensures rests { OnOk result (rests_of I.whole rests.new.items ≡ rests_of I.whole rests.old.items
        ++ entering_in (layout_of layout.now) rest.index (pair_of I.whole rest.x_segment) (column + 1)) }
{
    let Rest {
        index,
        x_segment,
        corner,
    } = rest;
    if !goes_on(&x_segment, column, layout) {
        group.push(Fragment::between(index, corner, x_segment.b, x_segment))?;
        return Ok(());
    }
    let border = layout.pos(column + 1);
    let heights = heights_at(&x_segment, border);
    let far = IntPoint {
        x: border,
        y: heights.far,
    };
    group.push(Fragment::between(index, corner, far, x_segment))?;
    let near = IntPoint {
        x: border,
        y: heights.near,
    };
    rests.push(Rest {
        index,
        x_segment,
        corner: near,
    })?;
    Ok(())
}

/// Whether a segment enters a column to the right of this one.
fn goes_on<I: OverlayInt>(x_segment: &XSegment<I>, column: usize, layout: &GridLayout<I>) -> bool
    requires order { I.whole x_segment.now.a.x ≤ℤ I.whole x_segment.now.b.x }
    requires inside { IsInside (layout_of layout.now) (pair_of I.whole x_segment.now) }
    ensures { result ≡ goes_on (layout_of layout.now) (pair_of I.whole x_segment.now) column }
{
    x_segment.is_not_vertical() && column < layout.index_before(x_segment.b.x)
}
