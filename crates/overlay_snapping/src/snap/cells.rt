// Cells of a grid over the whole range, and those in the box of a segment. This project's own.
ghost use Rattle.std.specs.Prelude.{◌≡◌, true, nat_le, IsTrue};
ghost use Rattle.overlay_geometry.specs.Points.{Point, is_in_box, is_ordered};
ghost use Rattle.overlay_geometry.specs.PointOf.{point_of};
ghost use Rattle.overlay_geometry.specs.PairOf.{pair_of};
ghost use Rattle.overlay_geometry.specs.InRange.{IsPairInRange};
ghost use Rattle.overlay_snapping.specs.steps.PointTrees.{column_of};
ghost use Rattle.overlay_snapping.specs.steps.Cells.{has_cell, cell_count, least_corner, greatest_corner};

use overlay_base::segm::segment::Segment;
use overlay_base::segm::winding::WindingCount;
use overlay_geometry::geom::point::IntPoint;
use overlay_geometry::geom::x_segment::XSegment;
use overlay_geometry::num::OverlayInt;

/// The logarithms of the width and of the height of cells. It sets how long a search takes, and no result depends on it.
#[derive(Clone, Copy)]
pub struct CellSize {
    pub(crate) width: u32,
    pub(crate) height: u32,
}

/// The most segments that are measured for the size of cells.
const MEASURED: usize = 128;

impl CellSize {
    /// About as large as an average segment, by the mean of logarithms, so that few huge segments do not count for much.
    pub fn of<C: WindingCount, I: OverlayInt, D: Copy>(segments: &[Segment<C, I, D>]) -> CellSize {
        let mut widths = MeanLog::none();
        let mut heights = MeanLog::none();
        let step = segments.len() / MEASURED + 1;
        for part in segments.chunks(step) {
            if let Some(segment) = part.first() {
                let XSegment { a, b } = segment.x_segment();
                widths.add(b.x.to_wide().abs_diff(a.x.to_wide()));
                heights.add(b.y.to_wide().abs_diff(a.y.to_wide()));
            }
        }
        CellSize {
            width: widths.mean(),
            height: heights.mean(),
        }
    }

    /// Cells whose sides are so many times doubled.
    pub(crate) fn doubled(self, times: u32) -> CellSize {
        CellSize {
            width: self.width.wrapping_add(times),
            height: self.height.wrapping_add(times),
        }
    }

    /// The cell of a point.
    #[inline(always)]
    pub(crate) fn cell_of<I: OverlayInt>(self, point: IntPoint<I>) -> Cell
        ensures column { result.column ≡ column_of self.width (I.whole point.x) }
        ensures row { result.row ≡ column_of self.height (I.whole point.y) }
    {
        Cell {
            column: point.x.to_wide().wrapping_shr(self.width),
            row: point.y.to_wide().wrapping_shr(self.height),
        }
    }
}

/// A cell, by its column and its row.
#[derive(Clone, Copy)]
pub(crate) struct Cell {
    pub(crate) column: i64,
    pub(crate) row: i64,
}

/// The cells from a column and a row on, and before others.
#[derive(Clone, Copy)]
pub(crate) struct CellBox {
    pub(crate) left: i64,
    pub(crate) right: i64,
    pub(crate) bottom: i64,
    pub(crate) top: i64,
}

impl CellBox {
    /// The cells of all points in the box of a segment. The segment has to be in range, and its ends in order.
    pub(crate) fn around<I: OverlayInt>(segment: &XSegment<I>, size: CellSize) -> CellBox
        requires in_range { IsPairInRange I.whole I.MIN_COORD I.MAX_COORD segment.now }
        requires ordered { IsTrue (is_ordered (pair_of I.whole segment.now)) }
        ensures { (p : Point) → is_in_box (pair_of I.whole segment.now) p ≡ true → has_cell result size p ≡ true }
    {
        let least = size.cell_of(least_corner(segment));
        let greatest = size.cell_of(greatest_corner(segment));
        CellBox {
            left: least.column,
            right: greatest.column + 1,
            bottom: least.row,
            top: greatest.row + 1,
        }
    }

    /// Whether there are at most so many cells.
    pub(crate) fn has_at_most(&self, most: u64) -> bool
        ensures { result ≡ nat_le (cell_count self.now) most }
    {
        let columns = self.right.abs_diff(self.left);
        let rows = self.top.abs_diff(self.bottom);
        match columns.checked_mul(rows) {
            Some(cells) => cells <= most,
            None => false,
        }
    }
}

/// The left lower corner of the box of a segment.
fn least_corner<I: OverlayInt>(segment: &XSegment<I>) -> IntPoint<I>
    ensures { point_of I.whole result ≡ least_corner (pair_of I.whole segment.now) }
{
    IntPoint::new(segment.a.x, segment.y_range().min)
}

/// The right upper corner of the box of a segment.
fn greatest_corner<I: OverlayInt>(segment: &XSegment<I>) -> IntPoint<I>
    ensures { point_of I.whole result ≡ greatest_corner (pair_of I.whole segment.now) }
{
    IntPoint::new(segment.b.x, segment.y_range().max)
}

/// The mean of the logarithms of lengths, but for those that are 0.
#[derive(Clone, Copy)]
struct MeanLog {
    count: u64,
    sum: u64,
}

impl MeanLog {
    fn none() -> MeanLog {
        MeanLog { count: 0, sum: 0 }
    }

    fn add(&mut self, length: u64) {
        if length > 0 {
            self.count = self.count.wrapping_add(1);
            self.sum = self.sum.wrapping_add(u64::from(length.ilog2()));
        }
    }

    fn mean(&self) -> u32 {
        (self.sum / self.count.max(1)).min(63) as u32
    }
}
