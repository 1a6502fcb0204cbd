// A row of the live segments from below, in which what has ended may stay. Upstream: `KeyExpList` of `i_tree`.
ghost use Rattle.std.specs.Prelude.{◌≡◌};
ghost use Rattle.overlay_geometry.specs.VSegmentOf.{IsVSegmentInRange};

use crate::build::entry::Entry;
use crate::build::live_segments::LiveSegments;
use crate::build::place::Place;
use overlay_base::segm::fault::Fault;
use overlay_base::segm::winding::WindingCount;
use overlay_geometry::geom::point::IntPoint;
use overlay_geometry::geom::v_segment::VSegment;
use overlay_geometry::num::OverlayInt;
use std::alloc::Global;

/// The live segments from below. What has ended may stay among them until a search meets it.
///
/// A `ScanList` passes over all its entries wherever one has ended; here a search drops only what it meets. In return
/// the number of its comparisons depends on what is left. The search for the sum below a point keeps its index, so the
/// segments that start there are put in without another search.
#[derive(Drop)]
pub struct ScanRow<C: WindingCount, I: OverlayInt> {
    entries: Vec<Entry<C, I>>,
    /// The index for the next segment that starts at `point`, if `has_cursor`.
    cursor: usize,
    point: IntPoint<I>,
    has_cursor: bool,
    compared: u64,
}

impl<C: WindingCount, I: OverlayInt> ScanRow<C, I> {
    ghost use Rattle.std.specs.Prelude.{ℕ, ℤ, ◌*◌, ◌+◌, ◌<◌, ◌≤◌, ◌^◌, suc, ◌≤ℤ◌, ◌<ℤ◌, int_lt, ◌⊎◌, not, true, false};
    ghost use Rattle.std.specs.Prelude.{[], ◌∷◌, ◌++◌, ◌-◌, All, filter, take, drop, length, OnOk, IfOk, IfErr};
    ghost use Rattle.overlay_sweep.specs.EntryOf.{entry_of, entries_of};
    ghost use Rattle.overlay_sweep.specs.LiveRows.{lasts_past, segment_at, is_below_or_from};
    ghost use Rattle.std.specs.Ordering.{is_lt};
    ghost use Rattle.overlay_geometry.specs.Points.{point_eq};
    ghost use Rattle.overlay_geometry.specs.PointOf.{point_of};
    ghost use Rattle.overlay_geometry.specs.Below.{under_segment_order};
    ghost use Rattle.overlay_geometry.specs.VSegmentOf.{v_pair_of};
    ghost use Rattle.overlay_sweep.specs.Live.{AreFreeAt};
    ghost use Rattle.overlay_sweep.specs.LiveOf.{row_entries, row_sums, row_held, row_asked, IsInRowAt};
    ghost use Rattle.overlay_sweep.specs.steps.PlaceOf.{IsPlaceInRange, stands_before};
    ghost use Rattle.overlay_sweep.specs.LivePositions.{HasNext, IsLivePosition};
    ghost use Rattle.overlay_sweep.specs.steps.Positions.{IsElsewhere, IsPutIn};
    ghost use Rattle.overlay_sweep.specs.steps.Rows.{KeepsLasting};

    /// An empty row, which takes no memory yet.
    pub fn new(alloc: Global) -> ScanRow<C, I>
        ensures entries { row_entries result ≡ [] }
        ensures time { (x : ℤ) → IsInRowAt x result }
        ensures compared { row_asked result ≡ 0 }
    {
        ScanRow {
            entries: Vec::new(alloc),
            cursor: 0,
            point: IntPoint::new(I::ZERO, I::ZERO),
            has_cursor: false,
            compared: 0,
        }
    }

    /// The entries from below, with those that have ended and were not met.
    pub(crate) fn entries(&self) -> &[Entry<C, I>]
        ensures { result.now ≡ row_entries self.now }
    {
        &self.entries
    }

    /// Drops the entries at the end of the row that do not end right of `x`, up to the last one that does.
    pub(crate) fn drop_ended_last(&mut self, x: I)
        ensures keeps { KeepsLasting (I.whole x) (row_sums self.old) (row_sums self.new) }
        ensures last { (row_held self.new ≡ 0) ⊎ (lasts_past (I.whole x) (row_sums self.new) (row_held self.new - 1) ≡ true) }
    {
        let mut left = self.entries.len();
        while left > 0 && !self.entries[left - 1].lasts_past(x) {
            left -= 1;
        }
        self.entries.truncate(left);
    }

    /// Moves the entries from an index on to a row of their own.
    pub(crate) fn split_off(&mut self, at: usize, alloc: Global) -> Result<ScanRow<C, I>, Fault>
        requires { at ≤ row_held self.old }
        ensures lower { OnOk result (row_sums self.new ≡ take at (row_sums self.old)) }
        ensures upper { IfOk result (λ upper. row_sums upper ≡ drop at (row_sums self.old)) }
        ensures fault { IfErr result (λ fault. fault ≡ Fault.Memory) }
    {
        let mut upper = ScanRow::new(alloc);
        upper.entries = self.entries.split_off(at)?;
        Ok(upper)
    }

    /// Adds entries at the end.
    pub(crate) fn append(&mut self, entries: &[Entry<C, I>]) -> Result<(), Fault>
        ensures entries { OnOk result (row_sums self.new ≡ row_sums self.old ++ entries_of entries.now) }
        ensures fault { IfErr result (λ fault. fault ≡ Fault.Memory) }
    {
        self.entries.extend_from_slice(entries)?;
        Ok(())
    }

    /// The index behind an entry that lies below an end and has ended, or else the index itself.
    fn after_one_ended(&self, x: I, at: usize, end: usize) -> usize
        requires order { at ≤ end }
        requires within { end ≤ length self.now.entries.items }
        ensures order { at ≤ result }
        ensures within { result ≤ end }
        ensures ended { (k : ℕ) → at ≤ k → k < result → lasts_past (I.whole x) (entries_of self.now.entries.items) k ≡ false }
    {
        if at < end && !self.entries[at].lasts_past(x) {
            at + 1
        } else {
            at
        }
    }

    /// Searches below an end for a place by halves. It passes over two entries that have ended, and
    /// drops the third of three in a row, so it never drops all. Returns an index with the place:
    /// the entry below has not ended and comes before it, and the next one above that has not ended
    /// does not. Adds to `compared` how many orders it compares.
    #[inline(always)]
    pub(crate) fn search(&mut self, x: I, place: &Place<I>, end: usize, compared: &mut u64) -> usize
        requires place { IsPlaceInRange I.whole I.MIN_COORD I.MAX_COORD place.now }
        requires end { HasNext (lasts_past (I.whole x)
            (entries_of self.old.entries.items)) (λ i. stands_before I.whole place.now (segment_at
            (entries_of self.old.entries.items) i).pair) (length self.old.entries.items) end }
        requires none { compared.old ≡ 0 }
        ensures kept { filter (λ s. int_lt (I.whole x) s.pair.b.x) (entries_of self.new.entries.items)
            ≡ filter (λ s. int_lt (I.whole x) s.pair.b.x) (entries_of self.old.entries.items) }
        ensures begun { (z : ℤ) → All (λ s. s.pair.a.x ≤ℤ z) (entries_of self.old.entries.items)
            → All (λ s. s.pair.a.x ≤ℤ z) (entries_of self.new.entries.items) }
        ensures position { IsLivePosition (lasts_past (I.whole x)
            (entries_of self.new.entries.items)) (λ i. stands_before I.whole place.now (segment_at
            (entries_of self.new.entries.items) i).pair) (length self.new.entries.items) result }
        ensures fewer { length self.new.entries.items ≤ length self.old.entries.items }
        ensures some { 1 ≤ length self.old.entries.items → 1 ≤ length self.new.entries.items }
        ensures few { (compared.new ≡ 0) ⊎ (2 ^ compared.new ≤ 2 * end) }
    {
        let mut low = 0;
        let mut high = end;
        while low < high {
            let middle = low + (high - low) / 2;
            let entry = &self.entries[middle];
            if entry.lasts_past(x) {
                if entry.is_before(place, compared) {
                    low = middle + 1;
                } else {
                    high = middle;
                }
                continue;
            }
            let behind = self.after_one_ended(x, middle + 1, high);
            if behind == high {
                high = middle;
                continue;
            }
            let next = &self.entries[behind];
            if !next.lasts_past(x) {
                self.entries.remove(behind);
                high -= 1;
                continue;
            }
            if next.is_before(place, compared) {
                low = behind + 1;
            } else {
                high = middle;
            }
        }
        low
    }

    /// Searches below an end for a place, after some orders were compared. Returns an index with
    /// the place, and leaves in `compared` how many orders were compared in all. Drops the cursor.
    fn settle(&mut self, x: I, place: &Place<I>, end: usize, asked: u64) -> usize
        requires place { IsPlaceInRange I.whole I.MIN_COORD I.MAX_COORD place.now }
        requires end { HasNext (lasts_past (I.whole x)
            (entries_of self.old.entries.items)) (λ i. stands_before I.whole place.now (segment_at
            (entries_of self.old.entries.items) i).pair) (length self.old.entries.items) end }
        requires one { asked ≤ 1 }
        requires room { end + asked ≤ length self.old.entries.items }
        ensures kept { filter (λ s. int_lt (I.whole x) s.pair.b.x) (entries_of self.new.entries.items)
            ≡ filter (λ s. int_lt (I.whole x) s.pair.b.x) (entries_of self.old.entries.items) }
        ensures begun { (z : ℤ) → All (λ s. s.pair.a.x ≤ℤ z) (entries_of self.old.entries.items)
            → All (λ s. s.pair.a.x ≤ℤ z) (entries_of self.new.entries.items) }
        ensures position { IsLivePosition (lasts_past (I.whole x)
            (entries_of self.new.entries.items)) (λ i. stands_before I.whole place.now (segment_at
            (entries_of self.new.entries.items) i).pair) (length self.new.entries.items) result }
        ensures fewer { length self.new.entries.items ≤ length self.old.entries.items }
        ensures most { (d : ℕ) → 2 * length self.old.entries.items ≤ 2 ^ d
            → self.new.compared + length self.new.entries.items * d ≤ suc (length self.old.entries.items) * d }
        ensures cursor { self.new.has_cursor ≡ false }
    {
        let mut more = 0;
        let position = self.search(x, place, end, &mut more);
        self.has_cursor = false;
        self.compared = more.saturating_add(asked);
        position
    }

    /// Whether a point is the start of the next entry from an index on that has not ended.
    #[inline(always)]
    pub(crate) fn starts_behind(&self, x: I, p: IntPoint<I>, from: usize) -> bool
        ensures { result ≡ false → IsElsewhere (lasts_past (I.whole x)
            (entries_of self.now.entries.items)) (λ i. point_eq (segment_at
            (entries_of self.now.entries.items) i).pair.a (point_of I.whole p)) (length self.now.entries.items) from }
    {
        for at in from..self.entries.len() {
            let above = self.entries[at];
            if above.lasts_past(x) {
                return above.segment.a == p;
            }
        }
        false
    }

    /// Finds the place of a segment that starts at `x`: at the cursor, if that is kept for its start and the segment does
    /// not run below the entry under the cursor; else by a search. Keeps the cursor only where it is the place.
    fn settle_segment(&mut self, x: I, entry: &Entry<C, I>) -> usize
        requires time { IsInRowAt (I.whole x) self.old }
        requires start { I.whole entry.now.segment.a.x ≡ I.whole x }
        requires wide { I.whole x <ℤ I.whole entry.now.segment.b.x }
        requires free { AreFreeAt (I.whole x) (entry_of entry.now ∷ row_sums self.old) }
        ensures kept { filter (λ s. int_lt (I.whole x) s.pair.b.x) (entries_of self.new.entries.items)
            ≡ filter (λ s. int_lt (I.whole x) s.pair.b.x) (entries_of self.old.entries.items) }
        ensures begun { (z : ℤ) → All (λ s. s.pair.a.x ≤ℤ z) (entries_of self.old.entries.items)
            → All (λ s. s.pair.a.x ≤ℤ z) (entries_of self.new.entries.items) }
        ensures position { IsLivePosition (lasts_past (I.whole x)
            (entries_of self.new.entries.items)) (λ i. not (is_lt (under_segment_order (v_pair_of I.whole
            entry.now.segment) (segment_at (entries_of self.new.entries.items) i).pair))) (length
            self.new.entries.items) result }
        ensures fewer { length self.new.entries.items ≤ length self.old.entries.items }
        ensures most { (d : ℕ) → 2 * length self.old.entries.items ≤ 2 ^ d
            → self.new.compared + length self.new.entries.items * d ≤ suc (length self.old.entries.items) * d }
        ensures cursor { self.new.has_cursor ≡ true
            → (point_of I.whole self.new.point ≡ point_of I.whole entry.now.segment.a) × IsLivePosition (lasts_past
            (I.whole x) (entries_of self.new.entries.items)) (λ i. is_below_or_from (point_of I.whole
            entry.now.segment.a) (segment_at (entries_of self.new.entries.items) i).pair) (length
            self.new.entries.items) result }
    {
        let place = Place::Segment(entry.segment);
        let end = self.entries.len();
        if !self.has_cursor {
            return self.settle(x, &place, end, 0);
        }
        let start = entry.segment.a;
        if self.point != start {
            return self.settle(x, &place, end, 0);
        }
        let at = self.cursor;
        if at == 0 {
            self.compared = 0;
            return at;
        }
        let below = self.entries[at - 1];
        if below.segment.a != start {
            self.compared = 0;
            return at;
        }
        let mut asked = 0;
        if below.is_before(&place, &mut asked) {
            self.compared = asked;
            return at;
        }
        self.settle(x, &place, at - 1, asked)
    }

    /// Puts an entry in at an index, in place of the one there if that has ended.
    #[inline(always)]
    pub(crate) fn put(&mut self, at: usize, entry: Entry<C, I>, x: I) -> Result<(), Fault>
        requires { at ≤ length self.old.entries.items }
        ensures put { OnOk result (IsPutIn (lasts_past (I.whole x)
            (entries_of self.old.entries.items)) at entry self.old.entries.items self.new.entries.items) }
        ensures same { OnOk result (self.new.compared ≡ self.old.compared) }
        ensures cursor { OnOk result ((self.new.has_cursor ≡ self.old.has_cursor)
            × (self.new.point ≡ self.old.point)) }
        ensures fault { IfErr result (λ fault. fault ≡ Fault.Memory) }
    {
        if at < self.entries.len() && !self.entries[at].lasts_past(x) {
            self.entries[at] = entry;
            return Ok(());
        }
        self.entries.insert(at, entry)?;
        Ok(())
    }
}

impl<C: WindingCount, I: OverlayInt> LiveSegments<C, I> for ScanRow<C, I> {
    ghost use Rattle.std.specs.Prelude.{suc, ◌*◌, ◌^◌, ◌≤◌, ◌≤ℤ◌, ◌<ℤ◌, ℤ, [], ◌∷◌, OnOk, OnErr, IfErr};
    ghost use Rattle.overlay_geometry.specs.PointOf.{point_of};
    ghost use Rattle.overlay_geometry.specs.InRange.{IsPointInRange};
    ghost use Rattle.overlay_sweep.specs.Costs.{IsInsertCost, IsSearchCost};
    ghost use Rattle.overlay_sweep.specs.EntryOf.{summed};
    ghost use Rattle.overlay_sweep.specs.Live.{sum_below, HoldSameFrom, AreFreeAt};
    ghost use Rattle.overlay_sweep.specs.LiveOf.{row_sums, row_held, row_asked, IsInRowAt};

    ghost sums = { λ row. row_sums row };

    ghost asked = { λ row. row_asked row };

    ghost held = { λ row. row_held row };

    ghost is_most = { λ n d. 2 * n ≤ 2 ^ d };

    ghost may_go_on_at = { λ row x. IsInRowAt x row };

    fn insert(&mut self, segment: VSegment<I>, sum: C, x: I) -> Result<(), Fault>
        requires in_range { IsVSegmentInRange I.whole I.MIN_COORD I.MAX_COORD segment }
        requires start { I.whole segment.a.x ≡ I.whole x }
        requires wide { I.whole x <ℤ I.whole segment.b.x }
        requires time { IsInRowAt (I.whole x) self.old }
        requires free { AreFreeAt (I.whole x) (summed C.winding I.whole segment sum ∷ row_sums self.old) }
        ensures sums { OnOk result (HoldSameFrom (I.whole x) (row_sums self.new) (summed C.winding I.whole segment sum ∷ row_sums self.old)) }
        ensures time { OnOk result ((y : ℤ) → I.whole x ≤ℤ y → IsInRowAt y self.new) }
        ensures fault { IfErr result (λ fault. fault ≡ Fault.Memory) }
        ensures emptied { OnErr result (row_sums self.new ≡ []) }
        ensures none_asked { OnErr result (row_asked self.new ≡ 0) }
        ensures cleared { OnErr result ((y : ℤ) → IsInRowAt y self.new) }
        ensures held { OnOk result (row_held self.new ≤ suc (row_held self.old)) }
        ensures most { OnOk result (IsInsertCost (λ n d. 2 * n ≤ 2 ^ d) (row_held self.old) (row_held self.new) (row_asked self.new)) }
    {
        let entry = Entry { segment, sum };
        let position = self.settle_segment(x, &entry);
        match self.put(position, entry, x) {
            Ok(()) => {
                self.cursor = position + 1;
                Ok(())
            }
            Err(fault) => {
                self.clear();
                Err(fault)
            }
        }
    }

    fn sum_below(&mut self, x: I, p: IntPoint<I>, default: C) -> C
        requires point { IsPointInRange I.whole I.MIN_COORD I.MAX_COORD p }
        requires same_x { I.whole p.x ≡ I.whole x }
        requires time { IsInRowAt (I.whole x) self.old }
        requires free { AreFreeAt (I.whole x) (row_sums self.old) }
        ensures sum { C.winding result ≡ sum_below (row_sums self.old) (point_of I.whole p) (C.winding default) }
        ensures sums { HoldSameFrom (I.whole x) (row_sums self.new) (row_sums self.old) }
        ensures time { (y : ℤ) → I.whole x ≤ℤ y → IsInRowAt y self.new }
        ensures held { row_held self.new ≤ row_held self.old }
        ensures most { IsSearchCost (λ n d. 2 * n ≤ 2 ^ d) (row_held self.old) (row_held self.new) (row_asked self.new) }
    {
        let end = self.entries.len();
        let position = self.settle(x, &Place::Point(p), end, 0);
        self.has_cursor = !self.starts_behind(x, p, position);
        self.cursor = position;
        self.point = p;
        if position == 0 {
            default
        } else {
            self.entries[position - 1].sum
        }
    }

    fn clear(&mut self)
        ensures sums { row_sums self.new ≡ [] }
        ensures time { (y : ℤ) → IsInRowAt y self.new }
        ensures held { row_held self.new ≡ 0 }
        ensures asked { row_asked self.new ≡ 0 }
    {
        self.entries.clear();
        self.has_cursor = false;
        self.compared = 0;
    }

    fn compared(&self) -> u128 {
        u128::from(self.compared)
    }
}
