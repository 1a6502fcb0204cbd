// A list of the live segments from below, which is searched by halves. Upstream: `KeyExpList` of `i_tree`.
ghost use Rattle.std.specs.Prelude.{◌≡◌};
ghost use Rattle.overlay_geometry.specs.VSegmentOf.{IsVSegmentInRange};

use overlay_base::segm::fault::Fault;
use overlay_base::segm::winding::WindingCount;
use overlay_geometry::geom::point::IntPoint;
use overlay_geometry::geom::v_segment::VSegment;
use overlay_geometry::num::OverlayInt;
use overlay_sweep::build::entry::Entry;
use overlay_sweep::build::live_segments::LiveSegments;
use overlay_sweep::build::place::Place;
use std::alloc::Global;

/// The live segments from below. A search drops those that have ended, and halves the others.
#[derive(Drop)]
pub struct ScanList<C: WindingCount, I: OverlayInt> {
    entries: Vec<Entry<C, I>>,
    /// No entry ends left of it, so that up to here a search has nothing to drop.
    least_end: I,
    compared: u64,
}

impl<C: WindingCount, I: OverlayInt> ScanList<C, I> {
    ghost use Rattle.std.specs.Prelude.{ℤ, ◌≤ℤ◌, [], All, filter, int_lt, length};
    ghost use Rattle.overlay_upstream.specs.SearchCosts.{IsSearchAmong};
    ghost use Rattle.overlay_sweep.specs.EntryOf.{entries_of};
    ghost use Rattle.overlay_sweep.specs.LiveRows.{segment_at};
    ghost use Rattle.overlay_upstream.specs.LiveOf.{list_entries, list_asked, IsInOrderAt};
    ghost use Rattle.overlay_sweep.specs.steps.PlaceOf.{IsPlaceInRange, stands_before};
    ghost use Rattle.overlay_sweep.specs.steps.Positions.{IsPosition};

    /// An empty list, which takes no memory yet.
    pub fn new(alloc: Global) -> ScanList<C, I>
        ensures entries { list_entries result ≡ [] }
        ensures time { (x : ℤ) → IsInOrderAt x result }
        ensures compared { list_asked result ≡ 0 }
    {
        ScanList {
            entries: Vec::new(alloc),
            least_end: I::MAX_COORD,
            compared: 0,
        }
    }

    /// The entries from below.
    pub(crate) fn entries(&self) -> &[Entry<C, I>]
        ensures { result.now ≡ list_entries self.now }
    {
        &self.entries
    }

    /// The least `x` at which one of the entries ends, or the greatest coordinate.
    fn first_end(&self) -> I
        ensures { All (λ s. I.whole result ≤ℤ s.pair.b.x) (entries_of self.now.entries.items) }
    {
        let mut first = I::MAX_COORD;
        for entry in self.entries.iter() {
            if !entry.lasts_past(first) {
                first = entry.segment.b.x;
            }
        }
        first
    }

    /// Drops the segments that do not end right of `x`.
    fn drop_ended(&mut self, x: I)
        requires { All (λ s. I.whole self.old.least_end ≤ℤ s.pair.b.x) (entries_of self.old.entries.items) }
        ensures entries { self.new.entries.items ≡ filter (λ e. int_lt (I.whole x)
            (I.whole e.segment.b.x)) self.old.entries.items }
        ensures least { All (λ s. I.whole self.new.least_end ≤ℤ s.pair.b.x) (entries_of self.new.entries.items) }
    {
        if x < self.least_end {
            return;
        }
        self.entries.retain(|entry| entry.lasts_past(x));
        self.least_end = self.first_end();
    }

    /// How many entries come before a place. Adds to `compared` how many orders it compares:
    /// whatever the place, a number that the length alone decides.
    fn position(&self, place: &Place<I>, compared: &mut u64) -> usize
        requires place { IsPlaceInRange I.whole I.MIN_COORD I.MAX_COORD place.now }
        requires none { compared.old ≡ 0 }
        ensures position { IsPosition (λ i. stands_before I.whole place.now (segment_at
            (entries_of self.now.entries.items) i).pair) (length self.now.entries.items) result }
        ensures compared { IsSearchAmong (length self.now.entries.items) compared.new }
    {
        let mut size = self.entries.len();
        if size == 0 {
            return 0;
        }
        let mut base = 0;
        while size > 1 {
            let half = size / 2;
            if self.entries[base + half].is_before(place, compared) {
                base += half;
            }
            size -= half;
        }
        if self.entries[base].is_before(place, compared) {
            base + 1
        } else {
            base
        }
    }

    /// Drops what has ended by `x`. Returns how many of the others come before a place, and leaves
    /// in `compared` how many orders that took.
    fn settle(&mut self, x: I, place: &Place<I>) -> usize
        requires least { All (λ s. I.whole self.old.least_end ≤ℤ s.pair.b.x) (entries_of self.old.entries.items) }
        requires place { IsPlaceInRange I.whole I.MIN_COORD I.MAX_COORD place.now }
        ensures entries { self.new.entries.items ≡ filter (λ e. int_lt (I.whole x)
            (I.whole e.segment.b.x)) self.old.entries.items }
        ensures least { All (λ s. I.whole self.new.least_end ≤ℤ s.pair.b.x) (entries_of self.new.entries.items) }
        ensures position { IsPosition (λ i. stands_before I.whole place.now (segment_at
            (entries_of self.new.entries.items) i).pair) (length self.new.entries.items) result }
        ensures compared { IsSearchAmong (length self.new.entries.items) self.new.compared }
    {
        self.drop_ended(x);
        let mut compared = 0;
        let position = self.position(place, &mut compared);
        self.compared = compared;
        position
    }
}

impl<C: WindingCount, I: OverlayInt> LiveSegments<C, I> for ScanList<C, I> {
    ghost use Rattle.std.specs.Prelude.{suc, ◌-◌, ◌*◌, ◌^◌, ◌≤◌, ◌≤ℤ◌, ◌<ℤ◌, ℤ, All, [], ◌∷◌, OnOk, OnErr, IfErr};
    ghost use Rattle.overlay_geometry.specs.PointOf.{point_of};
    ghost use Rattle.overlay_geometry.specs.InRange.{IsPointInRange};
    ghost use Rattle.overlay_upstream.specs.SearchCosts.{IsSearchAmong};
    ghost use Rattle.overlay_sweep.specs.Costs.{IsInsertCost, IsSearchCost};
    ghost use Rattle.overlay_sweep.specs.EntryOf.{summed};
    ghost use Rattle.overlay_sweep.specs.Live.{sum_below, HoldSameFrom, AreFreeAt};
    ghost use Rattle.overlay_upstream.specs.LiveOf.{list_sums, list_held, list_asked, IsInOrderAt};

    ghost sums = { λ list. list_sums list };

    ghost asked = { λ list. list_asked list };

    ghost held = { λ list. list_held list };

    ghost is_most = { λ n d. 2 * n ≤ 2 ^ d };

    ghost may_go_on_at = { λ list x. IsInOrderAt x list };

    fn insert(&mut self, segment: VSegment<I>, sum: C, x: I) -> Result<(), Fault>
        requires in_range { IsVSegmentInRange I.whole I.MIN_COORD I.MAX_COORD segment }
        requires start { I.whole segment.a.x ≡ I.whole x }
        requires wide { I.whole x <ℤ I.whole segment.b.x }
        requires time { IsInOrderAt (I.whole x) self.old }
        requires free { AreFreeAt (I.whole x) (summed C.winding I.whole segment sum ∷ list_sums self.old) }
        ensures sums { OnOk result (HoldSameFrom (I.whole x) (list_sums self.new) (summed C.winding I.whole segment sum ∷ list_sums self.old)) }
        ensures time { OnOk result ((y : ℤ) → I.whole x ≤ℤ y → IsInOrderAt y self.new) }
        ensures fault { IfErr result (λ fault. fault ≡ Fault.Memory) }
        ensures emptied { OnErr result (list_sums self.new ≡ []) }
        ensures none_asked { OnErr result (list_asked self.new ≡ 0) }
        ensures cleared { OnErr result ((y : ℤ) → IsInOrderAt y self.new) }
        ensures live { OnOk result (All (λ s. I.whole x <ℤ s.pair.b.x) (list_sums self.new)) }
        ensures compared { OnOk result (IsSearchAmong (list_held self.new - 1) (list_asked self.new)) }
        ensures held { OnOk result (list_held self.new ≤ suc (list_held self.old)) }
        ensures most { OnOk result (IsInsertCost (λ n d. 2 * n ≤ 2 ^ d) (list_held self.old) (list_held self.new) (list_asked self.new)) }
    {
        let entry = Entry { segment, sum };
        let position = self.settle(x, &Place::Segment(segment));
        if self.entries.insert(position, entry).is_err() {
            self.clear();
            return Err(Fault::Memory);
        }
        if !entry.lasts_past(self.least_end) {
            self.least_end = segment.b.x;
        }
        Ok(())
    }

    fn sum_below(&mut self, x: I, p: IntPoint<I>, default: C) -> C
        requires point { IsPointInRange I.whole I.MIN_COORD I.MAX_COORD p }
        requires same_x { I.whole p.x ≡ I.whole x }
        requires time { IsInOrderAt (I.whole x) self.old }
        requires free { AreFreeAt (I.whole x) (list_sums self.old) }
        ensures sum { C.winding result ≡ sum_below (list_sums self.old) (point_of I.whole p) (C.winding default) }
        ensures sums { HoldSameFrom (I.whole x) (list_sums self.new) (list_sums self.old) }
        ensures time { (y : ℤ) → I.whole x ≤ℤ y → IsInOrderAt y self.new }
        ensures live { All (λ s. I.whole x <ℤ s.pair.b.x) (list_sums self.new) }
        ensures compared { IsSearchAmong (list_held self.new) (list_asked self.new) }
        ensures held { list_held self.new ≤ list_held self.old }
        ensures most { IsSearchCost (λ n d. 2 * n ≤ 2 ^ d) (list_held self.old) (list_held self.new) (list_asked self.new) }
    {
        let position = self.settle(x, &Place::Point(p));
        if position == 0 {
            default
        } else {
            self.entries[position - 1].sum
        }
    }

    fn clear(&mut self)
        ensures sums { list_sums self.new ≡ [] }
        ensures time { (y : ℤ) → IsInOrderAt y self.new }
        ensures asked { list_asked self.new ≡ 0 }
        ensures held { list_held self.new ≡ 0 }
    {
        self.entries.clear();
        self.least_end = I::MAX_COORD;
        self.compared = 0;
    }

    fn compared(&self) -> u128 {
        u128::from(self.compared)
    }
}
