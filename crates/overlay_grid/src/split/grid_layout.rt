// A grid of columns of equal width, and the fragments of segments in them. Upstream: `split::grid_layout`.
ghost use Rattle.std.specs.Prelude.{◌≡◌, ℕ, ◌≤◌, ◌≤ℤ◌, ◌^◌, IsTrue};
ghost use Rattle.std.specs.Int.{int_max};
ghost use Rattle.overlay_geometry.specs.Coordinates.{is_coordinate};
ghost use Rattle.overlay_grid.specs.Grid.{IsLog2, spread_of_x, power_for};

use overlay_base::segm::segment::Segment;
use overlay_base::segm::winding::WindingCount;
use overlay_geometry::geom::x_segment::XSegment;
use overlay_geometry::num::OverlayInt;

/// Columns of equal width, a power of two, from a least to a greatest `x`.
#[derive(Drop)]
pub struct GridLayout<I: OverlayInt> {
    min_x: I,
    max_x: I,
    power: u32,
    ghost from: { IsTrue (is_coordinate (I.whole I.MIN_COORD) (I.whole I.MAX_COORD) (I.whole min_x)) },
    ghost to: { IsTrue (is_coordinate (I.whole I.MIN_COORD) (I.whole I.MAX_COORD) (I.whole max_x)) },
    ghost order: { I.whole min_x ≤ℤ I.whole max_x },
    ghost fits: { 2 ^ power ≤ spread_of_x (I.whole min_x) (I.whole max_x) },
}

impl<I: OverlayInt> GridLayout<I> {
    ghost use Rattle.std.specs.Prelude.{◌<◌, ◌<ℤ◌, ◌-ℤ◌, IfSome, IfNone, All, length, map, pos};
    ghost use Rattle.overlay_geometry.specs.InRange.{IsPairInRange};
    ghost use Rattle.overlay_geometry.specs.PairOf.{pair_of};
    ghost use Rattle.overlay_base.specs.Segments.{pairs};
    ghost use Rattle.overlay_base.specs.SegmentOf.{segments_of, pairs_in, x_segment_of};
    ghost use Rattle.overlay_grid.specs.Grid.{IsLayout, IsLayoutOf, IsTooNarrow, column_index, pos_of, group_count};
    ghost use Rattle.overlay_grid.specs.FragmentOf.{layout_of};

    /// The columns over segments, from the first one's start to the greatest `x` of an end, for that many segments: of
    /// a number n there are about as many columns as its root. `None` where these `x` are less than 4 apart.
    ///
    /// At least one segment has to be given, and each has to be in range, ordered as by `sort_by_ab` if all are to lie
    /// inside; the number has to be at least 1.
    pub fn new(segments: &[XSegment<I>], count: usize) -> Option<Self>
        requires some { 0 < length segments.now }
        requires in_range { All (λ s. IsPairInRange I.whole I.MIN_COORD I.MAX_COORD s) segments.now }
        requires count { 0 < count }
        ensures layout { IfSome result (λ l. IsLayoutOf (map (pair_of I.whole) segments.now) count (layout_of l)) }
        ensures none { IfNone result (IsTooNarrow (map (pair_of I.whole) segments.now)) }
    {
        let XSegment { a, b } = segments[0];
        let mut max_x = b.x;
        for index in 1..segments.len() {
            let segment = segments[index];
            max_x = greater(max_x, segment.b.x);
        }
        GridLayout::with_min_max(a.x, max_x, count.ilog2() / 2)
    }

    /// The same over a list of segments: at least one, each in range.
    pub fn over_list<C: WindingCount, D: Copy>(
        segments: &[Segment<C, I, D>],
        count: usize,
    ) -> Option<Self>
        requires some { 0 < length segments.now }
        requires in_range { All (λ s. IsPairInRange I.whole I.MIN_COORD I.MAX_COORD (x_segment_of s)) segments.now }
        requires count { 0 < count }
        ensures layout { IfSome result (λ l. IsLayoutOf (pairs_in segments.now) count (layout_of l)) }
        ensures none { IfNone result (IsTooNarrow (pairs (segments_of segments.now))) }
    {
        let XSegment { a, b } = segments[0].x_segment();
        let mut max_x = b.x;
        for index in 1..segments.len() {
            let segment = segments[index].x_segment();
            max_x = greater(max_x, segment.b.x);
        }
        let power = count.ilog2() / 2;
        GridLayout::with_min_max(a.x, max_x, power)
    }

    /// The columns from one `x` to another, both in range. Their width is a power of two: of them as many fit between
    /// the two as `2 ^ max_power`, and less than twice as many, but they are at least 2 wide. `None` where the two are
    /// less than 4 apart.
    pub fn with_min_max(min_x: I, max_x: I, max_power: u32) -> Option<Self>
        requires from { IsTrue (is_coordinate (I.whole I.MIN_COORD) (I.whole I.MAX_COORD) (I.whole min_x)) }
        requires to { IsTrue (is_coordinate (I.whole I.MIN_COORD) (I.whole I.MAX_COORD) (I.whole max_x)) }
        ensures layout { IfSome result (λ l. IsLayout (I.whole min_x) (I.whole max_x) max_power (layout_of l)) }
        ensures none { IfNone result ((I.whole max_x -ℤ I.whole min_x) <ℤ pos 4) }
    {
        let spread = max_x.to_wide() - min_x.to_wide();
        if spread < 4 {
            return None;
        }
        let power = column_power(spread as u64, max_power);
        Some(GridLayout {
            min_x,
            max_x,
            power,
        })
    }

    /// One or two columns, from the least `x` of the grid to the greatest coordinate. `None` where these are less than 4
    /// apart.
    pub(crate) fn row(&self) -> Option<Self>
        ensures from { IfSome result (λ row. (layout_of row).min_x ≡ (layout_of self.now).min_x) }
        ensures to { IfSome result (λ row. (layout_of row).max_x ≡ I.whole I.MAX_COORD) }
    {
        GridLayout::with_min_max(self.min_x, I::MAX_COORD, 0)
    }

    /// The column in which an `x` lies, from 0. The `x` has to lie from the least of the grid to the greatest.
    pub fn index(&self, x: I) -> usize
        requires from { (layout_of self.now).min_x ≤ℤ I.whole x }
        requires to { I.whole x ≤ℤ (layout_of self.now).max_x }
        ensures { result ≡ column_index (layout_of self.now) (I.whole x) }
    {
        let offset = (x.to_wide() - self.min_x.to_wide()) as usize;
        offset >> self.power
    }

    /// The column of the whole number before an `x`, which has to lie above the least of the grid, up to the greatest.
    pub fn index_before(&self, x: I) -> usize
        requires from { (layout_of self.now).min_x <ℤ I.whole x }
        requires to { I.whole x ≤ℤ (layout_of self.now).max_x }
        ensures { result ≡ column_index (layout_of self.now) (I.whole x -ℤ pos 1) }
    {
        let offset = (x.to_wide() - 1 - self.min_x.to_wide()) as usize;
        offset >> self.power
    }

    /// How many columns there are.
    pub fn column_count(&self) -> usize
        ensures { result ≡ group_count (layout_of self.now) }
    {
        self.index(self.max_x) + 1
    }

    /// The left border of a column, whose index may be at most that of the greatest `x`.
    pub fn pos(&self, index: usize) -> I
        requires { index ≤ column_index (layout_of self.now) (layout_of self.now).max_x }
        ensures { I.whole result ≡ pos_of (layout_of self.now) index }
    {
        let offset = index << self.power;
        I::from_wide(self.min_x.to_wide() + offset as i64)
    }
}

/// The power of the width of columns over a width, for at most about `2 ^ max_power` columns.
fn column_power(spread: u64, max_power: u32) -> u32
    requires { 4 ≤ spread }
    ensures fits { 2 ^ result ≤ spread }
    ensures power { (log : ℕ) → IsLog2 spread log → result ≡ power_for log max_power }
{
    let log = spread.ilog2();
    if max_power < log { log - max_power } else { 1 }
}

/// The greater of two coordinates.
fn greater<I: OverlayInt>(u: I, v: I) -> I
    ensures { I.whole result ≡ int_max (I.whole u) (I.whole v) }
{
    if u < v { v } else { u }
}
