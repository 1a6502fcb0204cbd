// The live segments from below, in rows of a few. Upstream: `KeyExpTree` of `i_tree`.
ghost use Rattle.std.specs.Prelude.{◌≡◌};
ghost use Rattle.overlay_geometry.specs.VSegmentOf.{IsVSegmentInRange};

use crate::build::entry::Entry;
use crate::build::live_segments::LiveSegments;
use crate::build::place::Place;
use crate::build::row_list::{RowList, Spot};
use overlay_base::segm::fault::Fault;
use overlay_base::segm::winding::WindingCount;
use overlay_geometry::geom::point::IntPoint;
use overlay_geometry::geom::v_segment::VSegment;
use overlay_geometry::num::OverlayInt;
use std::alloc::Global;

/// The live segments from below, in rows of at most 64. What has ended may stay among them until a search meets it.
///
/// A search goes by halves: among the rows, by their last entries, if there are several, and then in one row. So an
/// insert moves the entries of one row alone. The search for the sum below a point keeps its place, so the segments that
/// start there are put in without another search.
#[derive(Drop)]
pub struct ScanRows<C: WindingCount, I: OverlayInt> {
    entries: RowList<C, I>,
    /// The place for the next segment that starts at `point`, if `has_cursor`.
    cursor: Spot,
    point: IntPoint<I>,
    has_cursor: bool,
    compared: u64,
}

impl<C: WindingCount, I: OverlayInt> ScanRows<C, I> {
    ghost use Rattle.std.specs.Prelude.{ℕ, ℤ, ◌≤◌, ◌<ℤ◌, int_lt, not, true, false, [], ◌∷◌, All, length, OnOk, IfOk, IfErr, suc, ◌≤ℤ◌, ◌⊎◌};
    ghost use Rattle.std.specs.Ordering.{is_lt};
    ghost use Rattle.overlay_geometry.specs.PointOf.{point_of};
    ghost use Rattle.overlay_geometry.specs.Below.{under_segment_order};
    ghost use Rattle.overlay_geometry.specs.VSegmentOf.{v_pair_of};
    ghost use Rattle.overlay_sweep.specs.Costs.{IsHighest};
    ghost use Rattle.overlay_sweep.specs.EntryOf.{entry_of};
    ghost use Rattle.overlay_sweep.specs.Live.{HoldSameFrom, AreFreeAt};
    ghost use Rattle.overlay_sweep.specs.LiveOf.{rows_in, rows_sums, rows_held, rows_asked, AreInRowsAt};
    ghost use Rattle.overlay_sweep.specs.LivePositions.{IsLivePosition};
    ghost use Rattle.overlay_sweep.specs.LiveRows.{lasts_past, segment_at, is_below_or_from, HaveSome, index_in, IsIndexIn};
    ghost use Rattle.overlay_sweep.specs.steps.Rows.{KeepsLasting, HaveSomeBut};

    /// No rows, which take no memory yet.
    pub fn new(alloc: Global) -> ScanRows<C, I>
        ensures sums { rows_sums result ≡ [] }
        ensures time { (x : ℤ) → AreInRowsAt x result }
        ensures held { rows_held result ≡ 0 }
        ensures asked { rows_asked result ≡ 0 }
    {
        ScanRows {
            entries: RowList::new(alloc),
            cursor: Spot { row: 0, at: 0 },
            point: IntPoint::new(I::ZERO, I::ZERO),
            has_cursor: false,
            compared: 0,
        }
    }

    /// Whether the cursor is the place of a segment: it is kept for the segment's start, and the
    /// segment does not run below the entry under the cursor. Adds to `compared` the order that
    /// this compares, if that entry starts there too.
    #[inline(always)]
    fn fits_cursor(&self, entry: &Entry<C, I>, compared: &mut u64) -> bool
        requires some { HaveSome (rows_in self.now.entries) }
        requires index { IsIndexIn (rows_in self.now.entries) self.now.cursor.row self.now.cursor.at }
        requires none { compared.old ≡ 0 }
        ensures place { (x : ℤ) → result ≡ true → AreInRowsAt x self.now → (point_of I.whole entry.now.segment.a).x ≡ x
            → (point_of I.whole self.now.point ≡ point_of I.whole entry.now.segment.a) × IsLivePosition
            (lasts_past x (rows_sums self.now)) (λ i. is_below_or_from (point_of I.whole entry.now.segment.a)
            (segment_at (rows_sums self.now) i).pair) (rows_held self.now)
            (index_in (rows_in self.now.entries) self.now.cursor.row self.now.cursor.at) }
        ensures position { (x : ℤ) → result ≡ true → AreInRowsAt x self.now → (point_of I.whole entry.now.segment.a).x ≡ x
            → x <ℤ I.whole entry.now.segment.b.x → AreFreeAt x (entry_of entry.now ∷ rows_sums self.now)
            → IsLivePosition (lasts_past x (rows_sums self.now)) (λ i. not (is_lt (under_segment_order (v_pair_of I.whole
            entry.now.segment) (segment_at (rows_sums self.now) i).pair))) (rows_held self.now)
            (index_in (rows_in self.now.entries) self.now.cursor.row self.now.cursor.at) }
        ensures one { compared.new ≤ 1 }
        ensures some { (compared.new ≡ 0) ⊎ (1 ≤ rows_held self.now) }
    {
        let start = entry.segment.a;
        if !self.has_cursor || self.point != start {
            return false;
        }
        match self.entries.below(self.cursor) {
            None => true,
            Some(below) => {
                below.segment.a != start
                    || below.is_before(&Place::Segment(entry.segment), compared)
            }
        }
    }

    /// Finds the place of a segment that starts at `x`: at the cursor, if the segment fits there, and else by a search.
    /// Keeps the cursor only where it is the place.
    #[inline(always)]
    fn settle(&mut self, x: I, entry: &Entry<C, I>) -> Result<Spot, Fault>
        requires time { AreInRowsAt (I.whole x) self.old }
        requires start { I.whole entry.now.segment.a.x ≡ I.whole x }
        requires wide { I.whole x <ℤ I.whole entry.now.segment.b.x }
        requires free { AreFreeAt (I.whole x) (entry_of entry.now ∷ rows_sums self.old) }
        ensures keeps { OnOk result (KeepsLasting (I.whole x) (rows_sums self.old) (rows_sums self.new)) }
        ensures some { IfOk result (λ spot. HaveSomeBut spot.row (rows_in self.new.entries)) }
        ensures index { IfOk result (λ spot. IsIndexIn (rows_in self.new.entries) spot.row spot.at) }
        ensures position { IfOk result (λ spot. IsLivePosition (lasts_past (I.whole x) (rows_sums self.new))
            (λ i. not (is_lt (under_segment_order (v_pair_of I.whole entry.now.segment) (segment_at (rows_sums self.new)
            i).pair))) (rows_held self.new) (index_in (rows_in self.new.entries) spot.row spot.at)) }
        ensures cursor { IfOk result (λ spot. self.new.has_cursor ≡ true
            → (point_of I.whole self.new.point ≡ point_of I.whole entry.now.segment.a) × IsLivePosition
            (lasts_past (I.whole x) (rows_sums self.new)) (λ i. is_below_or_from (point_of I.whole entry.now.segment.a)
            (segment_at (rows_sums self.new) i).pair) (rows_held self.new)
            (index_in (rows_in self.new.entries) spot.row spot.at)) }
        ensures few { OnOk result ((d : ℕ) → IsHighest (rows_held self.old) d → rows_asked self.new ≤ d) }
        ensures fault { IfErr result (λ fault. fault ≡ Fault.Memory) }
    {
        let mut asked = 0;
        if self.fits_cursor(entry, &mut asked) {
            self.compared = asked;
            return Ok(self.cursor);
        }
        self.has_cursor = false;
        let place = Place::Segment(entry.segment);
        let mut more = 0;
        if asked == 0 {
            let spot = self.entries.search(x, &place, &mut more);
            self.compared = more;
            return Ok(spot);
        }
        let spot = self.entries.search_gathered(x, &place, &mut more)?;
        self.compared = more.saturating_add(asked);
        Ok(spot)
    }

    /// Puts an entry that starts at `x` in at its place, and the cursor behind it.
    #[inline(always)]
    fn place(&mut self, x: I, entry: Entry<C, I>) -> Result<(), Fault>
        requires time { AreInRowsAt (I.whole x) self.old }
        requires start { I.whole entry.segment.a.x ≡ I.whole x }
        requires wide { I.whole x <ℤ I.whole entry.segment.b.x }
        requires free { AreFreeAt (I.whole x) (entry_of entry ∷ rows_sums self.old) }
        ensures sums { OnOk result (HoldSameFrom (I.whole x) (rows_sums self.new) (entry_of entry ∷ rows_sums self.old)) }
        ensures time { OnOk result ((y : ℤ) → I.whole x ≤ℤ y → AreInRowsAt y self.new) }
        ensures held { OnOk result (rows_held self.new ≤ suc (rows_held self.old)) }
        ensures few { OnOk result ((d : ℕ) → IsHighest (rows_held self.old) d → rows_asked self.new ≤ d) }
        ensures fault { IfErr result (λ fault. fault ≡ Fault.Memory) }
    {
        let spot = self.settle(x, &entry)?;
        self.cursor = self.entries.put(spot, entry, x)?;
        Ok(())
    }
}

impl<C: WindingCount, I: OverlayInt> LiveSegments<C, I> for ScanRows<C, I> {
    ghost use Rattle.std.specs.Prelude.{suc, ◌≤◌, ◌≤ℤ◌, ◌<ℤ◌, ℤ, [], ◌∷◌, OnOk, OnErr, IfErr};
    ghost use Rattle.overlay_geometry.specs.PointOf.{point_of};
    ghost use Rattle.overlay_geometry.specs.InRange.{IsPointInRange};
    ghost use Rattle.overlay_sweep.specs.Costs.{IsHighest, IsInsertCost, IsSearchCost};
    ghost use Rattle.overlay_sweep.specs.EntryOf.{summed};
    ghost use Rattle.overlay_sweep.specs.Live.{sum_below, HoldSameFrom, AreFreeAt};
    ghost use Rattle.overlay_sweep.specs.LiveOf.{rows_sums, rows_held, rows_asked, AreInRowsAt};

    ghost sums = { λ rows. rows_sums rows };

    ghost asked = { λ rows. rows_asked rows };

    ghost held = { λ rows. rows_held rows };

    ghost is_most = { λ n d. IsHighest n d };

    ghost may_go_on_at = { λ rows x. AreInRowsAt x rows };

    #[inline(always)]
    fn insert(&mut self, segment: VSegment<I>, sum: C, x: I) -> Result<(), Fault>
        requires in_range { IsVSegmentInRange I.whole I.MIN_COORD I.MAX_COORD segment }
        requires start { I.whole segment.a.x ≡ I.whole x }
        requires wide { I.whole x <ℤ I.whole segment.b.x }
        requires time { AreInRowsAt (I.whole x) self.old }
        requires free { AreFreeAt (I.whole x) (summed C.winding I.whole segment sum ∷ rows_sums self.old) }
        ensures sums { OnOk result (HoldSameFrom (I.whole x) (rows_sums self.new) (summed C.winding I.whole segment sum ∷ rows_sums self.old)) }
        ensures time { OnOk result ((y : ℤ) → I.whole x ≤ℤ y → AreInRowsAt y self.new) }
        ensures fault { IfErr result (λ fault. fault ≡ Fault.Memory) }
        ensures emptied { OnErr result (rows_sums self.new ≡ []) }
        ensures none_asked { OnErr result (rows_asked self.new ≡ 0) }
        ensures cleared { OnErr result ((y : ℤ) → AreInRowsAt y self.new) }
        ensures held { OnOk result (rows_held self.new ≤ suc (rows_held self.old)) }
        ensures most { OnOk result (IsInsertCost IsHighest (rows_held self.old) (rows_held self.new) (rows_asked self.new)) }
    {
        match self.place(x, Entry { segment, sum }) {
            Ok(()) => Ok(()),
            Err(fault) => {
                self.clear();
                Err(fault)
            }
        }
    }

    #[inline(always)]
    fn sum_below(&mut self, x: I, p: IntPoint<I>, default: C) -> C
        requires point { IsPointInRange I.whole I.MIN_COORD I.MAX_COORD p }
        requires same_x { I.whole p.x ≡ I.whole x }
        requires time { AreInRowsAt (I.whole x) self.old }
        requires free { AreFreeAt (I.whole x) (rows_sums self.old) }
        ensures sum { C.winding result ≡ sum_below (rows_sums self.old) (point_of I.whole p) (C.winding default) }
        ensures sums { HoldSameFrom (I.whole x) (rows_sums self.new) (rows_sums self.old) }
        ensures time { (y : ℤ) → I.whole x ≤ℤ y → AreInRowsAt y self.new }
        ensures held { rows_held self.new ≤ rows_held self.old }
        ensures most { IsSearchCost IsHighest (rows_held self.old) (rows_held self.new) (rows_asked self.new) }
    {
        let mut asked = 0;
        let spot = self.entries.search(x, &Place::Point(p), &mut asked);
        self.compared = asked;
        self.has_cursor = !self.entries.starts_behind(x, p, spot);
        self.cursor = spot;
        self.point = p;
        match self.entries.below(spot) {
            None => default,
            Some(below) => below.sum,
        }
    }

    fn clear(&mut self)
        ensures sums { rows_sums self.new ≡ [] }
        ensures time { (y : ℤ) → AreInRowsAt y self.new }
        ensures held { rows_held self.new ≡ 0 }
        ensures asked { rows_asked self.new ≡ 0 }
    {
        self.entries.clear();
        self.cursor = Spot { row: 0, at: 0 };
        self.has_cursor = false;
        self.compared = 0;
    }

    fn compared(&self) -> u128 {
        u128::from(self.compared)
    }
}
