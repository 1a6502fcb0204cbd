// The entries of live segments from below, in rows of a few. This project's own.
ghost use Rattle.std.specs.Prelude.{◌≡◌};

use crate::build::entry::Entry;
use crate::build::place::Place;
use crate::build::scan_row::ScanRow;
use overlay_base::segm::fault::Fault;
use overlay_base::segm::winding::WindingCount;
use overlay_geometry::geom::point::IntPoint;
use overlay_geometry::num::OverlayInt;
use std::alloc::Global;

/// How many entries a row has where an insert cuts it into halves.
const MOST_IN_ROW: usize = 64;

/// A place among the entries: the index of a row, and an index in the row.
#[derive(Clone, Copy)]
pub(crate) struct Spot {
    pub(crate) row: usize,
    pub(crate) at: usize,
}

/// Entries from below, in rows one above the other. Between calls no row is empty.
#[derive(Drop)]
pub(crate) struct RowList<C: WindingCount, I: OverlayInt> {
    rows: Vec<ScanRow<C, I>>,
    alloc: Global,
}

impl<C: WindingCount, I: OverlayInt> RowList<C, I> {
    ghost use Rattle.std.specs.Prelude.{ℕ, ◌≢◌, ◌*◌, ◌+◌, ◌-◌, ◌<◌, ◌≤◌, ◌^◌, suc, min, ◌⊎◌, true, false, [], ◌∷◌, length};
    ghost use Rattle.std.specs.Prelude.{OnOk, IfOk, IfErr, IfNone, IfSome};
    ghost use Rattle.overlay_geometry.specs.Points.{point_eq};
    ghost use Rattle.overlay_geometry.specs.PointOf.{point_of};
    ghost use Rattle.overlay_sweep.specs.Costs.{IsHighest};
    ghost use Rattle.overlay_sweep.specs.EntryOf.{entry_of};
    ghost use Rattle.overlay_sweep.specs.LiveOf.{rows_in};
    ghost use Rattle.overlay_sweep.specs.LivePositions.{IsLivePosition};
    ghost use Rattle.overlay_sweep.specs.LiveRows.{lasts_past, segment_at, joined, row_at, HaveSome, index_in, IsIndexIn};
    ghost use Rattle.overlay_sweep.specs.steps.PlaceOf.{IsPlaceInRange, stands_before};
    ghost use Rattle.overlay_sweep.specs.steps.Positions.{IsElsewhere, IsPutIn};
    ghost use Rattle.overlay_sweep.specs.steps.Rows.{KeepsLasting, EndsWith, IsTrimmed, IsRowDropped, HaveSomeBut, IsNextNear};

    /// No rows, which take no memory yet.
    pub(crate) fn new(alloc: Global) -> RowList<C, I>
        ensures { rows_in result ≡ [] }
    {
        RowList {
            rows: Vec::new(alloc),
            alloc,
        }
    }

    /// Drops all entries.
    pub(crate) fn clear(&mut self)
        ensures { rows_in self.new ≡ [] }
    {
        self.rows.clear();
    }

    /// Whether the last entry of a row that has not ended comes before a place. Drops those behind
    /// it. Drops the row and returns `None` where all have ended.
    fn ask_last(&mut self, row: usize, x: I, place: &Place<I>, compared: &mut u64) -> Option<bool>
        requires within { row < length (rows_in self.old) }
        requires place { IsPlaceInRange I.whole I.MIN_COORD I.MAX_COORD place.now }
        ensures dropped { IfNone result (IsRowDropped (I.whole x) row (rows_in self.old) (rows_in self.new)) }
        ensures trimmed { IfSome result (λ before. IsTrimmed (I.whole x) (λ s. stands_before I.whole place.now s.pair) before
            row (rows_in self.old) (rows_in self.new)) }
        ensures none_asked { IfNone result (compared.new ≡ compared.old) }
        ensures asked { IfSome result (λ _. compared.new ≡ min (compared.old + 1) (2 ^ 64 - 1)) }
    {
        self.rows[row].drop_ended_last(x);
        let entries = self.rows[row].entries();
        let many = entries.len();
        if many == 0 {
            self.rows.remove(row);
            return None;
        }
        Some(entries[many - 1].is_before(place, compared))
    }

    /// The first row whose last entry does not come before a place, or the number of rows, by
    /// halves. Drops the entries that have ended at the ends of the rows it compares.
    #[inline(never)]
    fn find_row(&mut self, x: I, place: &Place<I>, compared: &mut u64) -> usize
        requires place { IsPlaceInRange I.whole I.MIN_COORD I.MAX_COORD place.now }
        requires some { HaveSome (rows_in self.old) }
        requires none { compared.old ≡ 0 }
        ensures keeps { KeepsLasting (I.whole x) (joined (rows_in self.old)) (joined (rows_in self.new)) }
        ensures some { HaveSome (rows_in self.new) }
        ensures within { result ≤ length (rows_in self.new) }
        ensures below { (result ≡ 0) ⊎ EndsWith (I.whole x) (λ s. stands_before I.whole place.now s.pair) true
            (row_at (rows_in self.new) (result - 1)) }
        ensures above { (result ≡ length (rows_in self.new)) ⊎ EndsWith (I.whole x)
            (λ s. stands_before I.whole place.now s.pair) false (row_at (rows_in self.new) result) }
        ensures paid { length (rows_in self.old) + length (joined (rows_in self.new))
            ≤ length (rows_in self.new) + length (joined (rows_in self.old)) }
        ensures few { (compared.new ≡ 0) ⊎ (2 ^ compared.new ≤ 2 * length (rows_in self.old)) }
    {
        let mut low = 0;
        let mut high = self.rows.len();
        while low < high {
            let middle = low + (high - low) / 2;
            match self.ask_last(middle, x, place, compared) {
                None => high -= 1,
                Some(true) => low = middle + 1,
                Some(false) => high = middle,
            }
        }
        low
    }

    /// The spot behind all entries.
    fn end(&self) -> Spot
        ensures index { IsIndexIn (rows_in self.now) result.row result.at }
        ensures last { (length (rows_in self.now) ≡ 0) ⊎ ((result.row + 1 ≡ length (rows_in self.now))
            × (result.at ≡ length (row_at (rows_in self.now) result.row))) }
    {
        let many = self.rows.len();
        if many == 0 {
            return Spot { row: 0, at: 0 };
        }
        let row = many - 1;
        Spot {
            row,
            at: self.rows[row].entries().len(),
        }
    }

    /// Searches for a place by halves in the only row, and never drops all its entries. Returns a spot
    /// with the place, and leaves in `compared` how many orders it compares.
    #[inline(always)]
    fn search_only(&mut self, x: I, place: &Place<I>, compared: &mut u64) -> Spot
        requires place { IsPlaceInRange I.whole I.MIN_COORD I.MAX_COORD place.now }
        requires one { length (rows_in self.old) ≡ 1 }
        ensures keeps { KeepsLasting (I.whole x) (joined (rows_in self.old)) (joined (rows_in self.new)) }
        ensures one { length (rows_in self.new) ≡ 1 }
        ensures some { HaveSome (rows_in self.old) → HaveSome (rows_in self.new) }
        ensures index { IsIndexIn (rows_in self.new) result.row result.at }
        ensures position { IsLivePosition (lasts_past (I.whole x) (joined (rows_in self.new)))
            (λ i. stands_before I.whole place.now (segment_at (joined (rows_in self.new)) i).pair)
            (length (joined (rows_in self.new))) (index_in (rows_in self.new) result.row result.at) }
        ensures few { (compared.new ≡ 0) ⊎ (2 ^ compared.new ≤ 2 * length (joined (rows_in self.old))) }
    {
        *compared = 0;
        let only = &mut self.rows[0];
        let end = only.entries().len();
        let at = only.search(x, place, end, compared);
        Spot { row: 0, at }
    }

    /// Searches for a place by halves, first among the rows if there are several, and then in one.
    /// Returns a spot with the place: the entry below has not ended and comes before it, and the
    /// next one above that has not ended does not. Leaves in `compared` how many orders it
    /// compares: no more than a descent of a balanced tree of as many entries.
    #[inline(always)]
    pub(crate) fn search(&mut self, x: I, place: &Place<I>, compared: &mut u64) -> Spot
        requires place { IsPlaceInRange I.whole I.MIN_COORD I.MAX_COORD place.now }
        requires some { HaveSome (rows_in self.old) }
        ensures keeps { KeepsLasting (I.whole x) (joined (rows_in self.old)) (joined (rows_in self.new)) }
        ensures some { HaveSome (rows_in self.new) }
        ensures index { IsIndexIn (rows_in self.new) result.row result.at }
        ensures position { IsLivePosition (lasts_past (I.whole x) (joined (rows_in self.new)))
            (λ i. stands_before I.whole place.now (segment_at (joined (rows_in self.new)) i).pair)
            (length (joined (rows_in self.new))) (index_in (rows_in self.new) result.row result.at) }
        ensures near { IsNextNear (I.whole x) (rows_in self.new) result.row result.at }
        ensures few { (d : ℕ) → IsHighest (length (joined (rows_in self.old))) d → compared.new ≤ d }
    {
        if self.rows.len() == 1 {
            return self.search_only(x, place, compared);
        }
        let mut first = 0;
        let row = self.find_row(x, place, &mut first);
        if row == self.rows.len() {
            *compared = first;
            return self.end();
        }
        let last = self.rows[row].entries().len() - 1;
        let mut second = 0;
        let at = self.rows[row].search(x, place, last, &mut second);
        *compared = first.saturating_add(second);
        Spot { row, at }
    }

    /// The entry just below a spot.
    #[inline(always)]
    pub(crate) fn below(&self, spot: Spot) -> Option<Entry<C, I>>
        requires some { HaveSome (rows_in self.now) }
        requires index { IsIndexIn (rows_in self.now) spot.row spot.at }
        ensures first { IfNone result (index_in (rows_in self.now) spot.row spot.at ≡ 0) }
        ensures further { IfSome result (λ _. index_in (rows_in self.now) spot.row spot.at ≢ 0) }
        ensures entry { IfSome result (λ entry. segment_at (joined (rows_in self.now))
            (index_in (rows_in self.now) spot.row spot.at - 1) ≡ entry_of entry) }
    {
        let Spot { row, at } = spot;
        if at > 0 {
            return Some(self.rows[row].entries()[at - 1]);
        }
        if row == 0 {
            return None;
        }
        let entries = self.rows[row - 1].entries();
        Some(entries[entries.len() - 1])
    }

    /// Whether a point is the start of the next entry from a spot on that has not ended. That entry has to be in the row
    /// of the spot, unless this is the last row.
    #[inline(always)]
    pub(crate) fn starts_behind(&self, x: I, p: IntPoint<I>, spot: Spot) -> bool
        requires index { IsIndexIn (rows_in self.now) spot.row spot.at }
        requires near { IsNextNear (I.whole x) (rows_in self.now) spot.row spot.at }
        ensures { result ≡ false → IsElsewhere (lasts_past (I.whole x) (joined (rows_in self.now)))
            (λ i. point_eq (segment_at (joined (rows_in self.now)) i).pair.a (point_of I.whole p))
            (length (joined (rows_in self.now))) (index_in (rows_in self.now) spot.row spot.at) }
    {
        let Spot { row, at } = spot;
        row < self.rows.len() && self.rows[row].starts_behind(x, p, at)
    }

    /// Moves all entries to one row.
    fn gather(&mut self) -> Result<(), Fault>
        ensures all { OnOk result (rows_in self.new ≡ joined (rows_in self.old) ∷ []) }
        ensures fault { IfErr result (λ fault. fault ≡ Fault.Memory) }
    {
        let mut all = ScanRow::new(self.alloc);
        for row in 0..self.rows.len() {
            all.append(self.rows[row].entries())?;
        }
        self.rows.clear();
        self.rows.push(all)?;
        Ok(())
    }

    /// Searches for a place by halves among all entries, which are moved to one row for it. Leaves in
    /// `compared` how many orders it compares: one less than `search` may, so one could be compared
    /// before.
    #[inline(never)]
    pub(crate) fn search_gathered(
        &mut self,
        x: I,
        place: &Place<I>,
        compared: &mut u64,
    ) -> Result<Spot, Fault>
        requires place { IsPlaceInRange I.whole I.MIN_COORD I.MAX_COORD place.now }
        requires some { 1 ≤ length (joined (rows_in self.old)) }
        ensures keeps { OnOk result (KeepsLasting (I.whole x) (joined (rows_in self.old)) (joined (rows_in self.new))) }
        ensures some { IfOk result (λ spot. HaveSomeBut spot.row (rows_in self.new)) }
        ensures index { IfOk result (λ spot. IsIndexIn (rows_in self.new) spot.row spot.at) }
        ensures position { IfOk result (λ spot. IsLivePosition (lasts_past (I.whole x) (joined (rows_in self.new)))
            (λ i. stands_before I.whole place.now (segment_at (joined (rows_in self.new)) i).pair)
            (length (joined (rows_in self.new))) (index_in (rows_in self.new) spot.row spot.at)) }
        ensures few { OnOk result ((d : ℕ) → IsHighest (length (joined (rows_in self.old))) d → compared.new + 1 ≤ d) }
        ensures fault { IfErr result (λ fault. fault ≡ Fault.Memory) }
    {
        self.gather()?;
        Ok(self.search_only(x, place, compared))
    }

    /// Cuts the row of a spot into halves if it is full, and makes the first row if there is none. Returns where the spot
    /// is then.
    #[inline(always)]
    fn make_room(&mut self, spot: Spot) -> Result<Spot, Fault>
        requires some { HaveSomeBut spot.row (rows_in self.old) }
        requires index { IsIndexIn (rows_in self.old) spot.row spot.at }
        ensures same { OnOk result (joined (rows_in self.new) ≡ joined (rows_in self.old)) }
        ensures some { IfOk result (λ room. HaveSomeBut room.row (rows_in self.new)) }
        ensures row { IfOk result (λ room. room.row < length (rows_in self.new)) }
        ensures at { IfOk result (λ room. room.at ≤ length (row_at (rows_in self.new) room.row)) }
        ensures index { IfOk result (λ room. index_in (rows_in self.new) room.row room.at
            ≡ index_in (rows_in self.old) spot.row spot.at) }
        ensures fault { IfErr result (λ fault. fault ≡ Fault.Memory) }
    {
        if self.rows.len() == 0 {
            self.rows.push(ScanRow::new(self.alloc))?;
            return Ok(spot);
        }
        let Spot { row, at } = spot;
        let many = self.rows[row].entries().len();
        if many < MOST_IN_ROW {
            return Ok(spot);
        }
        let half = many / 2;
        let upper = self.rows[row].split_off(half, self.alloc)?;
        self.rows.insert(row + 1, upper)?;
        if at <= half {
            Ok(spot)
        } else {
            Ok(Spot {
                row: row + 1,
                at: at - half,
            })
        }
    }

    /// Puts an entry in at a spot, in place of the one there if that has ended. Returns the spot behind it.
    #[inline(always)]
    pub(crate) fn put(&mut self, spot: Spot, entry: Entry<C, I>, x: I) -> Result<Spot, Fault>
        requires some { HaveSomeBut spot.row (rows_in self.old) }
        requires index { IsIndexIn (rows_in self.old) spot.row spot.at }
        ensures put { OnOk result (IsPutIn (lasts_past (I.whole x) (joined (rows_in self.old)))
            (index_in (rows_in self.old) spot.row spot.at) (entry_of entry) (joined (rows_in self.old))
            (joined (rows_in self.new))) }
        ensures some { OnOk result (HaveSome (rows_in self.new)) }
        ensures index { IfOk result (λ behind. IsIndexIn (rows_in self.new) behind.row behind.at) }
        ensures behind { IfOk result (λ behind. index_in (rows_in self.new) behind.row behind.at
            ≡ suc (index_in (rows_in self.old) spot.row spot.at)) }
        ensures fault { IfErr result (λ fault. fault ≡ Fault.Memory) }
    {
        let room = self.make_room(spot)?;
        self.rows[room.row].put(room.at, entry, x)?;
        Ok(Spot {
            row: room.row,
            at: room.at + 1,
        })
    }
}
