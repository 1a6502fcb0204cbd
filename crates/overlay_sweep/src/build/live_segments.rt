// The live segments of a sweep, each with the winding above it. Upstream: the collections of
// `i_tree`.
ghost use Rattle.std.specs.Prelude.{◌≡◌, ℕ, suc, ◌≤◌, ℤ, ◌≤ℤ◌, ◌<ℤ◌, List, [], ◌∷◌, OnOk, OnErr, IfErr};
ghost use Rattle.overlay_base.specs.Segments.{WholeSegment};
ghost use Rattle.overlay_geometry.specs.PointOf.{point_of};
ghost use Rattle.overlay_geometry.specs.InRange.{IsPointInRange};
ghost use Rattle.overlay_geometry.specs.VSegmentOf.{IsVSegmentInRange};
ghost use Rattle.overlay_sweep.specs.EntryOf.{summed};
ghost use Rattle.overlay_sweep.specs.Live.{sum_below};
ghost use Rattle.overlay_sweep.specs.Live.{HoldSameFrom, AreFreeAt};
ghost use Rattle.overlay_sweep.specs.Costs.{IsInsertCost, IsSearchCost};

use overlay_base::segm::fault::Fault;
use overlay_base::segm::winding::WindingCount;
use overlay_geometry::geom::point::IntPoint;
use overlay_geometry::geom::v_segment::VSegment;
use overlay_geometry::num::OverlayInt;

/// A collection of live segments with sums, for a sweep from left to right.
///
/// A segment is live from the `x` of its start up to that of its end, the end excluded. A collection may drop what is
/// no longer live, so the `x` of its calls may not fall until it is cleared. What is live at one `x` may meet in
/// common ends alone.
pub trait LiveSegments<C: WindingCount, I: OverlayInt> {
    ghost sums: { Self → List WholeSegment };

    ghost may_go_on_at: { Self → ℤ → Type 0 };

    ghost asked: { Self → ℕ };

    // how many entries it holds, those that have ended and are not dropped yet too
    ghost held: { Self → ℕ };

    // a search among n entries compares at most d orders, and d more for each entry that it drops
    ghost is_most: { ℕ → ℕ → Type 0 };

    /// Adds a segment that starts at `x`, and is not vertical, with the sum above it.
    ///
    /// Returns `Fault::Memory` where a growth is refused; the collection is empty then, and the next call may be at any
    /// `x`.
    fn insert(&mut self, segment: VSegment<I>, sum: C, x: I) -> Result<(), Fault>
        requires in_range { IsVSegmentInRange I.whole I.MIN_COORD I.MAX_COORD segment }
        requires start { I.whole segment.a.x ≡ I.whole x }
        requires wide { I.whole x <ℤ I.whole segment.b.x }
        requires time { may_go_on_at self.old (I.whole x) }
        requires free { AreFreeAt (I.whole x) (summed C.winding I.whole segment sum ∷ sums self.old) }
        ensures sums { OnOk result (HoldSameFrom (I.whole x) (sums self.new) (summed C.winding I.whole segment sum ∷ sums self.old)) }
        ensures time { OnOk result ((y : ℤ) → I.whole x ≤ℤ y → may_go_on_at self.new y) }
        ensures fault { IfErr result (λ fault. fault ≡ Fault.Memory) }
        ensures emptied { OnErr result (sums self.new ≡ []) }
        ensures none_asked { OnErr result (asked self.new ≡ 0) }
        ensures cleared { OnErr result ((y : ℤ) → may_go_on_at self.new y) }
        ensures held { OnOk result (held self.new ≤ suc (held self.old)) }
        ensures most { OnOk result (IsInsertCost is_most (held self.old) (held self.new) (asked self.new)) };

    /// The sum on the live segment directly below `p`, of several that start at one point there the last by angle, or
    /// the default where none lies below. `x` has to be that of `p`.
    fn sum_below(&mut self, x: I, p: IntPoint<I>, default: C) -> C
        requires point { IsPointInRange I.whole I.MIN_COORD I.MAX_COORD p }
        requires same_x { I.whole p.x ≡ I.whole x }
        requires time { may_go_on_at self.old (I.whole x) }
        requires free { AreFreeAt (I.whole x) (sums self.old) }
        ensures sum { C.winding result ≡ sum_below (sums self.old) (point_of I.whole p) (C.winding default) }
        ensures sums { HoldSameFrom (I.whole x) (sums self.new) (sums self.old) }
        ensures time { (y : ℤ) → I.whole x ≤ℤ y → may_go_on_at self.new y }
        ensures held { held self.new ≤ held self.old }
        ensures most { IsSearchCost is_most (held self.old) (held self.new) (asked self.new) };

    /// Drops all segments. The next call may be at any `x`.
    fn clear(&mut self)
        ensures sums { sums self.new ≡ [] }
        ensures time { (y : ℤ) → may_go_on_at self.new y }
        ensures asked { asked self.new ≡ 0 }
        ensures held { held self.new ≡ 0 };

    /// How many times the last `insert` or `sum_below` has compared the order of a segment: 0 at
    /// first, after `clear` and after an insert that was refused, and `u128::MAX` at most.
    fn compared(&self) -> u128
        ensures { result ≡ asked self.now };
}
