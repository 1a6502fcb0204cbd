// Points in the cells of a grid: it finds the points whose pixels a segment meets. This project's own.
ghost use Rattle.std.specs.Prelude.{◌≡◌, ◌+◌, ◌<◌, ◌≤◌, ◌⊎◌, ◌↔◌, ◌++◌, ◌∷◌, [], false, true, map, length, List, Contains, OnOk, IfOk, IfSome, IsTrue, slice_index_or, slice_set};
ghost use Rattle.std.specs.List.{list_all};
ghost use Rattle.overlay_geometry.specs.Points.{Point, is_ordered};
ghost use Rattle.overlay_geometry.specs.PointOf.{point_of};
ghost use Rattle.overlay_geometry.specs.PairOf.{pair_of};
ghost use Rattle.overlay_geometry.specs.Coordinates.{is_point_in_range};
ghost use Rattle.overlay_geometry.specs.InRange.{IsPointInRange, IsPairInRange};
ghost use Rattle.overlay_snapping.specs.steps.PointTrees.{column_of};
ghost use Rattle.overlay_snapping.specs.steps.Cells.{slot_of, slot_at, has_cell, is_among, AreChained};
ghost use Rattle.overlay_snapping.specs.steps.InnerBoxes.{IsInnerBox};
ghost use Rattle.overlay_snapping.specs.steps.Met.{is_met, AddsMet, AddsAllMet};
ghost use Rattle.overlay_snapping.specs.steps.InOrder.{AreInOrder};

use crate::snap::cells::{CellBox, CellSize};
use crate::snap::inner_box::InnerBox;
use crate::snap::ordered_points::{append_met_from, first_not_left, list_in_order};
use crate::snap::pixel::{is_end, is_near_line, meets_pixel};
use overlay_geometry::geom::point::IntPoint;
use overlay_geometry::geom::x_segment::XSegment;
use overlay_geometry::num::OverlayInt;
use std::alloc::{AllocError, Global};

/// Points in the cells of a grid over the whole range.
///
/// Each cell has a slot, and cells share slots. The points of a slot are a chain: `heads` has the last place of each chain, and
/// `nexts` the place before each, both plus one, and 0 where there is none. A grid is crowded where a chain is long: it is a
/// plain list in order then.
#[derive(Drop)]
pub(crate) struct PointGrid<I: OverlayInt> {
    pub(crate) points: Vec<IntPoint<I>>,
    heads: Vec<u32>,
    nexts: Vec<u32>,
    mask: usize,
    size: CellSize,
    is_crowded: bool,
    /// Where the last search of a list in order began.
    place: usize,
    ghost in_range: { list_all (is_point_in_range (I.whole I.MIN_COORD) (I.whole I.MAX_COORD))
        (map (point_of I.whole) points.items) ≡ true },
    ghost in_order: { is_crowded ≡ true → AreInOrder I.whole points.items },
    ghost chained: { is_crowded ≡ false → AreChained mask size (map (point_of I.whole) points.items) heads.items nexts.items },
}

/// The distance of the slots of cells one above the other.
const ROW: i64 = 0x9e37_79b1;

/// The most points of a chain that is searched.
const LONGEST: u32 = 32;

impl<I: OverlayInt> PointGrid<I> {
    ghost use Rattle.overlay_snapping.specs.PointGridOf.{points_of, points_in};

    /// A grid without points.
    #[tactic(auto, using(crate::proofs::laws::cells::InOrder::none_in_order))]
    pub(crate) fn new(alloc: Global) -> Self
        ensures { points_of result ≡ [] }
    {
        PointGrid {
            points: Vec::new(alloc),
            heads: Vec::new(alloc),
            nexts: Vec::new(alloc),
            mask: 0,
            size: CellSize {
                width: 0,
                height: 0,
            },
            is_crowded: true,
            place: 0,
        }
    }

    /// Takes these points in place of those that the grid has. It keeps its memory.
    ///
    /// The points have to be in range. Returns `AllocError` where a growth is refused; the grid may have some of the points
    /// then.
    pub(crate) fn fill(&mut self, points: &[IntPoint<I>], size: CellSize) -> Result<(), AllocError>
        requires in_range { IsTrue (list_all (is_point_in_range (I.whole I.MIN_COORD) (I.whole I.MAX_COORD))
            (map (point_of I.whole) points.now)) }
        ensures same { OnOk result ((c : Point) → Contains (points_in self.new) c ↔ Contains (map (point_of I.whole) points.now) c) }
    {
        self.clear(points.len(), size)?;
        for point in points {
            if !self.add(*point)? {
                return self.list(points);
            }
        }
        Ok(())
    }

    /// The points, maybe with repeats.
    pub(crate) fn points(&self) -> &[IntPoint<I>]
        ensures { result.now ≡ points_of self.now }
    {
        self.points.as_slice()
    }

    /// Whether the grid is a plain list: `append_met` cannot search it then.
    pub(crate) fn is_crowded(&self) -> bool
        ensures { result ≡ self.now.is_crowded }
    {
        self.is_crowded
    }

    /// The size of the cells.
    pub(crate) fn size(&self) -> CellSize
        ensures { result ≡ self.now.size }
    {
        self.size
    }

    /// Drops all points, and makes room for so many.
    #[tactic(auto, using(crate::proofs::laws::cells::InOrder::none_in_order))]
    fn clear(&mut self, count: usize, size: CellSize) -> Result<(), AllocError>
        ensures emptied { points_of self.new ≡ [] }
        ensures ready { OnOk result (self.new.is_crowded ≡ false) }
        ensures room { OnOk result (length self.new.nexts.items ≡ count) }
    {
        self.is_crowded = true;
        self.points.clear();
        self.heads.clear();
        self.nexts.clear();
        let slots = slots_for(count);
        self.heads.resize(slots, 0)?;
        self.nexts.resize(count, 0)?;
        self.points.reserve(count)?;
        self.mask = slots - 1;
        self.size = size;
        self.is_crowded = false;
        Ok(())
    }

    /// Takes points as a plain list in order, in place of those that the grid has.
    ///
    /// The points have to be in range. Returns `AllocError` where a growth is refused; the grid has no points then.
    pub(crate) fn list(&mut self, points: &[IntPoint<I>]) -> Result<(), AllocError>
        requires in_range { IsTrue (list_all (is_point_in_range (I.whole I.MIN_COORD) (I.whole I.MAX_COORD))
            (map (point_of I.whole) points.now)) }
        ensures { OnOk result ((c : Point) → Contains (points_in self.new) c ↔ Contains (map (point_of I.whole) points.now) c) }
    {
        self.is_crowded = true;
        let listed = list_in_order(points, &mut self.points);
        if listed.is_err() {
            self.points.clear();
        }
        listed
    }

    /// Puts a point into its cell, if it is not there, and returns whether it is there. It is not where the chain is long.
    fn add(&mut self, point: IntPoint<I>) -> Result<bool, AllocError>
        requires uncrowded { self.old.is_crowded ≡ false }
        requires in_range { IsPointInRange I.whole I.MIN_COORD I.MAX_COORD point }
        requires room { length self.old.points.items < length self.old.nexts.items }
        ensures uncrowded { self.new.is_crowded ≡ false }
        ensures room { length self.new.nexts.items ≡ length self.old.nexts.items }
        ensures grown { length self.new.points.items ≤ length self.old.points.items + 1 }
        ensures added { IfOk result (λ there. IsTrue there → (c : Point) → Contains (points_in self.new) c
            ↔ (Contains (points_in self.old) c ⊎ (point_of I.whole point ≡ c))) }
    {
        let slot = self.slot_at(point);
        match self.is_in_slot(slot, point) {
            None => Ok(false),
            Some(true) => Ok(true),
            Some(false) => self.push(slot, point),
        }
    }

    /// Whether a point is on the chain of a slot, if this is not long.
    fn is_in_slot(&self, slot: usize, point: IntPoint<I>) -> Option<bool>
        requires uncrowded { self.now.is_crowded ≡ false }
        ensures { IfSome result (λ there. IsTrue there → Contains (points_in self.now) (point_of I.whole point)) }
    {
        let mut at = self.head(slot) as usize;
        let mut left = LONGEST;
        while at > 0 {
            if self.points[at - 1] == point {
                return Some(true);
            }
            if left == 0 {
                return None;
            }
            left -= 1;
            at = self.next(at - 1) as usize;
        }
        Some(false)
    }

    /// Puts a point into a slot, and returns whether it is there. It is not where numbers of 32 bits do not suffice.
    fn push(&mut self, slot: usize, point: IntPoint<I>) -> Result<bool, AllocError>
        requires uncrowded { self.old.is_crowded ≡ false }
        requires in_range { IsPointInRange I.whole I.MIN_COORD I.MAX_COORD point }
        requires room { length self.old.points.items < length self.old.nexts.items }
        requires slot { slot ≡ slot_at self.old.mask self.old.size (point_of I.whole point) }
        ensures uncrowded { self.new.is_crowded ≡ false }
        ensures room { length self.new.nexts.items ≡ length self.old.nexts.items }
        ensures grown { length self.new.points.items ≤ length self.old.points.items + 1 }
        ensures added { IfOk result (λ there. IsTrue there → (c : Point) → Contains (points_in self.new) c
            ↔ (Contains (points_in self.old) c ⊎ (point_of I.whole point ≡ c))) }
    {
        let place = self.points.len();
        if place >= u32::MAX as usize {
            return Ok(false);
        }
        let head = self.head(slot);
        self.points.push(point)?;
        set(&mut self.nexts, place, head);
        set(&mut self.heads, slot, place as u32 + 1);
        Ok(true)
    }

    /// The slot of a point.
    fn slot_at(&self, point: IntPoint<I>) -> usize
        ensures { result ≡ slot_at self.now.mask self.now.size (point_of I.whole point) }
    {
        let cell = self.size.cell_of(point);
        slot_of(self.mask, cell.column, cell.row)
    }

    /// The last place of the chain of a slot, plus one.
    #[inline(always)]
    fn head(&self, slot: usize) -> u32
        ensures { result ≡ slice_index_or self.now.heads.items slot 0 }
    {
        match self.heads.get(slot) {
            Some(head) => *head,
            None => 0,
        }
    }

    /// The place before another on its chain, plus one.
    #[inline(always)]
    fn next(&self, place: usize) -> u32
        ensures { result ≡ slice_index_or self.now.nexts.items place 0 }
    {
        match self.nexts.get(place) {
            Some(next) => *next,
            None => 0,
        }
    }

    /// Appends the points in cells whose pixels the segment meets, but for its ends, maybe with repeats.
    ///
    /// The segment has to be in range, and its ends in order. The grid must not be crowded. Returns `AllocError` where a growth
    /// is refused; some of the points are appended then.
    pub(crate) fn append_met(
        &self,
        segment: &XSegment<I>,
        cells: &CellBox,
        met: &mut Vec<IntPoint<I>>,
    ) -> Result<(), AllocError>
        requires uncrowded { self.now.is_crowded ≡ false }
        requires in_range { IsPairInRange I.whole I.MIN_COORD I.MAX_COORD segment.now }
        requires ordered { IsTrue (is_ordered (pair_of I.whole segment.now)) }
        ensures { OnOk result (AddsMet (pair_of I.whole segment.now) (points_in self.now)
            (λ c. has_cell cells.now self.now.size c ≡ true) (map (point_of I.whole) met.old.items) (map (point_of I.whole) met.new.items)) }
    {
        let inner = InnerBox::of(segment);
        for row in cells.bottom..cells.top {
            self.append_met_in_row(segment, &inner, row, cells, met)?;
        }
        Ok(())
    }

    /// As `append_met`, in the cells of one row.
    #[inline(always)]
    fn append_met_in_row(
        &self,
        segment: &XSegment<I>,
        inner: &InnerBox,
        row: i64,
        cells: &CellBox,
        met: &mut Vec<IntPoint<I>>,
    ) -> Result<(), AllocError>
        requires uncrowded { self.now.is_crowded ≡ false }
        requires in_range { IsPairInRange I.whole I.MIN_COORD I.MAX_COORD segment.now }
        requires inner { IsInnerBox (pair_of I.whole segment.now) inner.now }
        ensures { OnOk result (AddsMet (pair_of I.whole segment.now) (points_in self.now)
            (λ c. IsTrue (is_among cells.now.left cells.now.right (column_of self.now.size.width c.x)) × (column_of self.now.size.height c.y ≡ row))
            (map (point_of I.whole) met.old.items) (map (point_of I.whole) met.new.items)) }
    {
        for column in cells.left..cells.right {
            self.append_met_in_slot(segment, inner, slot_of(self.mask, column, row), met)?;
        }
        Ok(())
    }

    /// As `append_met`, on the chain of one slot.
    #[inline(always)]
    fn append_met_in_slot(
        &self,
        segment: &XSegment<I>,
        inner: &InnerBox,
        slot: usize,
        met: &mut Vec<IntPoint<I>>,
    ) -> Result<(), AllocError>
        requires uncrowded { self.now.is_crowded ≡ false }
        requires in_range { IsPairInRange I.whole I.MIN_COORD I.MAX_COORD segment.now }
        requires inner { IsInnerBox (pair_of I.whole segment.now) inner.now }
        ensures { OnOk result (AddsMet (pair_of I.whole segment.now) (points_in self.now)
            (λ c. slot_at self.now.mask self.now.size c ≡ slot) (map (point_of I.whole) met.old.items) (map (point_of I.whole) met.new.items)) }
    {
        let mut at = self.head(slot) as usize;
        while at > 0 {
            let point = self.points[at - 1];
            if is_met(segment, inner, point) {
                met.push(point)?;
            }
            at = self.next(at - 1) as usize;
        }
        Ok(())
    }

    /// As `append_met`, of a list in order: the points between the ends of the segment in `x` are tested.
    ///
    /// The grid has to be crowded. A search is fastest a little to the right of the last one.
    pub(crate) fn append_met_in_order(
        &mut self,
        segment: &XSegment<I>,
        met: &mut Vec<IntPoint<I>>,
    ) -> Result<(), AllocError>
        requires crowded { self.old.is_crowded ≡ true }
        requires in_range { IsPairInRange I.whole I.MIN_COORD I.MAX_COORD segment.now }
        requires ordered { IsTrue (is_ordered (pair_of I.whole segment.now)) }
        ensures met { OnOk result (AddsAllMet (pair_of I.whole segment.now) (points_in self.old)
            (map (point_of I.whole) met.old.items) (map (point_of I.whole) met.new.items)) }
        ensures same { points_of self.new ≡ points_of self.old }
    {
        self.place = first_not_left(&self.points, self.place, segment.a.x);
        append_met_from(&self.points, self.place, segment, met)
    }

    /// As `append_met`, of all points, one by one.
    pub(crate) fn append_each_met(
        &self,
        segment: &XSegment<I>,
        met: &mut Vec<IntPoint<I>>,
    ) -> Result<(), AllocError>
        requires in_range { IsPairInRange I.whole I.MIN_COORD I.MAX_COORD segment.now }
        requires ordered { IsTrue (is_ordered (pair_of I.whole segment.now)) }
        ensures { OnOk result (AddsAllMet (pair_of I.whole segment.now) (points_in self.now)
            (map (point_of I.whole) met.old.items) (map (point_of I.whole) met.new.items)) }
    {
        for point in &self.points {
            if is_met_alone(segment, *point) {
                met.push(*point)?;
            }
        }
        Ok(())
    }
}

/// Sets a number of a list, if it is there.
fn set(list: &mut Vec<u32>, place: usize, number: u32)
    ensures { list.new.items ≡ slice_set list.old.items place number }
{
    if let Some(there) = list.get_mut(place) {
        *there = number;
    }
}

/// Whether a segment meets the pixel of a point that is no end of it, where the first comparison leaves out nearly all points.
#[inline(always)]
fn is_met_alone<I: OverlayInt>(segment: &XSegment<I>, point: IntPoint<I>) -> bool
    requires in_range { IsPairInRange I.whole I.MIN_COORD I.MAX_COORD segment.now }
    requires ordered { IsTrue (is_ordered (pair_of I.whole segment.now)) }
    requires point { IsPointInRange I.whole I.MIN_COORD I.MAX_COORD point }
    ensures { result ≡ is_met (pair_of I.whole segment.now) (point_of I.whole point) }
{
    meets_pixel(segment, point) && !is_end(segment, point)
}

/// Whether a segment meets the pixel of a point that is no end of it. Its inner box is given.
#[inline(always)]
pub(crate) fn is_met<I: OverlayInt>(
    segment: &XSegment<I>,
    inner: &InnerBox,
    point: IntPoint<I>,
) -> bool
    requires in_range { IsPairInRange I.whole I.MIN_COORD I.MAX_COORD segment.now }
    requires inner { IsInnerBox (pair_of I.whole segment.now) inner.now }
    requires point { IsPointInRange I.whole I.MIN_COORD I.MAX_COORD point }
    ensures { result ≡ is_met (pair_of I.whole segment.now) (point_of I.whole point) }
{
    inner.has(point) && is_near_line(segment, point)
}

/// The slot of a cell. Cells side by side have slots side by side.
#[inline(always)]
fn slot_of(mask: usize, column: i64, row: i64) -> usize
    ensures { result ≡ slot_of mask column row }
{
    column.wrapping_add(row.wrapping_mul(ROW)).cast_unsigned() as usize & mask
}

/// How many slots there are for so many points: a power of two.
fn slots_for(count: usize) -> usize
    ensures { 0 < result }
{
    match count.checked_next_power_of_two() {
        Some(slots) => slots,
        None => 1,
    }
}
