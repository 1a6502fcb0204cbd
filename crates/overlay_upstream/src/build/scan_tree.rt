// A balanced tree of the live segments. Upstream: `KeyExpTree` of `i_tree`.
ghost use Rattle.std.specs.Prelude.{◌≡◌, ◌+◌, ◌/◌, ◌≤◌, ◌==◌, ◌&&◌, not};
ghost use Rattle.overlay_sweep.specs.steps.PlaceOf.{IsPlaceInRange, stands_before};
ghost use Rattle.overlay_sweep.specs.LiveRows.{none};

use crate::build::tree_shape::{NONE, TreeShape};
use overlay_base::segm::fault::Fault;
use overlay_base::segm::winding::WindingCount;
use overlay_geometry::geom::point::IntPoint;
use overlay_geometry::geom::v_segment::VSegment;
use overlay_geometry::num::OverlayInt;
use overlay_sweep::build::entry::Entry;
use overlay_sweep::build::live_segments::LiveSegments;
use overlay_sweep::build::place::Place;
use std::alloc::Global;

/// What came of a way down.
#[derive(Clone, Copy)]
struct Descent {
    /// The top of the tree after it.
    top: usize,
    /// The last entry before the place.
    last: usize,
    /// Whether the way met an entry that has ended, and took it out.
    is_stopped: bool,
}

impl Descent {
    /// Whether the way has left the tree as it was: it took nothing out, and there was nothing to put in.
    fn is_same(&self, new: usize) -> bool
        ensures { result ≡ (not self.now.is_stopped && (new == none)) }
    {
        !self.is_stopped && new == NONE
    }
}

/// The live segments from below, in a balanced tree. What has ended may stay in it until a way down meets it.
#[derive(Drop)]
pub struct ScanTree<C: WindingCount, I: OverlayInt> {
    /// All entries since the last `clear`, those that were taken out of the tree too.
    entries: Vec<Entry<C, I>>,
    /// A node for each entry, at the same index.
    shape: TreeShape,
    root: usize,
    /// How many entries are in the tree.
    kept: usize,
    compared: u64,
}

impl<C: WindingCount, I: OverlayInt> ScanTree<C, I> {
    ghost use Rattle.std.specs.Prelude.{ℤ, ◌-◌, ◌^◌, ◌<◌, [], ◌∷◌, ◌++◌, true, false, length, IfOk, OnOk, OnErr, IfErr};
    ghost use Rattle.overlay_sweep.specs.EntryOf.{entries_of};
    ghost use Rattle.overlay_upstream.specs.TreeShapes.{MayGoDown, IsStopped, IsPlaced};
    ghost use Rattle.overlay_sweep.specs.LiveRows.{segment_at, lasts_past};
    ghost use Rattle.overlay_upstream.specs.ScanTrees.{IsGrowing, IsGrown, IsAskedWithin};
    ghost use Rattle.overlay_upstream.specs.LiveOf.{tree_entries, tree_held, IsSoundAt, tree_asked};

    /// An empty tree, which takes no memory yet.
    pub fn new(alloc: Global) -> ScanTree<C, I>
        ensures entries { tree_entries result ≡ [] }
        ensures time { (x : ℤ) → IsSoundAt x result }
        ensures kept { tree_held result ≡ 0 }
        ensures compared { tree_asked result ≡ 0 }
    {
        ScanTree {
            entries: Vec::new(alloc),
            shape: TreeShape::new(alloc),
            root: NONE,
            kept: 0,
            compared: 0,
        }
    }

    /// Goes down from a node to a place among the entries, and puts the tree of `new` there. Where it meets an entry
    /// that does not end right of `x`, it takes that one out in place of this.
    fn descend(&mut self, at: usize, x: I, place: &Place<I>, new: usize, given: usize) -> Descent
        requires down { MayGoDown self.old.shape.nodes.items at new }
        requires same_length { length self.old.shape.nodes.items ≡ length self.old.entries.items }
        requires place { IsPlaceInRange I.whole I.MIN_COORD I.MAX_COORD place.now }
        ensures entries { self.new.entries ≡ self.old.entries }
        ensures root { self.new.root ≡ self.old.root }
        ensures kept { self.new.kept ≡ self.old.kept }
        ensures compared { (m : MayGoDown self.old.shape.nodes.items at new) → self.new.compared ≤ self.old.compared
            + m.sound.high }
        ensures same { result.is_stopped ≡ false → new ≡ none
            → (self.new.shape.nodes.items ≡ self.old.shape.nodes.items) × (result.top ≡ at) }
        ensures stopped { result.is_stopped ≡ true → (m : MayGoDown self.old.shape.nodes.items at new)
            → IsStopped (lasts_past (I.whole x)
            (entries_of self.old.entries.items)) self.old.shape.nodes.items self.new.shape.nodes.items result.top
            m.sound.order m.sound.high }
        ensures placed { result.is_stopped ≡ false → (m : MayGoDown self.old.shape.nodes.items at new)
            → IsPlaced (lasts_past (I.whole x) (entries_of self.old.entries.items))
            (λ i. stands_before I.whole place.now (segment_at
            (entries_of self.old.entries.items) i).pair) self.old.shape.nodes.items self.new.shape.nodes.items given
            result.last result.top m.sound.order m.placed m.sound.high }
    {
        if at == NONE {
            return Descent {
                top: new,
                last: given,
                is_stopped: false,
            };
        }
        let entry = &self.entries[at];
        if !entry.lasts_past(x) {
            return Descent {
                top: self.shape.remove_top(at),
                last: given,
                is_stopped: true,
            };
        }
        let node = self.shape.node(at);
        if entry.is_before(place, &mut self.compared) {
            let below = self.descend(node.right, x, place, new, at);
            let top = self
                .shape
                .rejoin(node.left, at, below.top, below.is_same(new));
            Descent { top, ..below }
        } else {
            let below = self.descend(node.left, x, place, new, given);
            let top = self
                .shape
                .rejoin(below.top, at, node.right, below.is_same(new));
            Descent { top, ..below }
        }
    }

    /// Goes down until a way meets no entry that has ended, and puts the tree of `new` at its place. Returns the last
    /// entry before it.
    fn settle(&mut self, x: I, place: &Place<I>, new: usize) -> usize
        requires growing { IsGrowing (I.whole x)
            (entries_of self.old.entries.items) self.old.shape.nodes.items self.old.root new self.old.kept }
        requires place { IsPlaceInRange I.whole I.MIN_COORD I.MAX_COORD place.now }
        ensures entries { self.new.entries ≡ self.old.entries }
        ensures kept { self.new.kept ≤ self.old.kept }
        ensures grown { (m : IsGrowing (I.whole x)
            (entries_of self.old.entries.items) self.old.shape.nodes.items self.old.root new self.old.kept)
            → IsGrown (I.whole x) (entries_of self.old.entries.items)
            (λ i. stands_before I.whole place.now (segment_at
            (entries_of self.old.entries.items) i).pair) m.down.placed self.new.shape.nodes.items self.new.root
            self.new.kept result }
        ensures compared { IsAskedWithin self.old.kept (self.old.kept - self.new.kept) self.new.compared }
    {
        self.compared = 0;
        loop {
            let descent = self.descend(self.root, x, place, new, NONE);
            self.root = descent.top;
            if !descent.is_stopped {
                return descent.last;
            }
            self.kept -= 1;
        }
    }

    /// Adds an entry with a node of its own, which is in no tree yet. Returns its index.
    fn push(&mut self, entry: Entry<C, I>) -> Result<usize, Fault>
        ensures entries { OnOk result (self.new.entries.items ≡ self.old.entries.items ++ entry ∷ []) }
        ensures nodes { OnOk result (self.new.shape.nodes.items ≡ self.old.shape.nodes.items
            ++ record { left = none; right = none; height = 1 } ∷ []) }
        ensures root { self.new.root ≡ self.old.root }
        ensures kept { self.new.kept ≡ self.old.kept }
        ensures index { IfOk result (λ new. (new ≡ length self.old.entries.items) × (new < none)) }
        ensures fault { IfErr result (λ fault. fault ≡ Fault.Memory) }
    {
        self.entries.push(entry)?;
        self.shape.push()?;
        Ok(self.entries.len() - 1)
    }

    /// How many entries the longest way down has.
    pub fn depth(&self) -> usize
        ensures longest { (x : ℤ) (t : IsSoundAt x self.now) → result ≡ t.high }
        ensures low { (x : ℤ) → IsSoundAt x self.now → 2 ^ (result / 2) ≤ tree_held self.now + 1 }
    {
        self.shape.height(self.root)
    }
}

impl<C: WindingCount, I: OverlayInt> LiveSegments<C, I> for ScanTree<C, I> {
    ghost use Rattle.std.specs.Prelude.{◌≤ℤ◌, ◌<ℤ◌, ℤ, suc, ◌-◌, [], ◌∷◌, OnOk, OnErr, IfErr};
    ghost use Rattle.overlay_sweep.specs.Costs.{IsHighest, IsInsertCost, IsSearchCost};
    ghost use Rattle.overlay_sweep.specs.EntryOf.{summed};
    ghost use Rattle.overlay_geometry.specs.PointOf.{point_of};
    ghost use Rattle.overlay_geometry.specs.InRange.{IsPointInRange};
    ghost use Rattle.overlay_geometry.specs.VSegmentOf.{IsVSegmentInRange};
    ghost use Rattle.overlay_sweep.specs.Live.{sum_below, HoldSameFrom, AreFreeAt};
    ghost use Rattle.overlay_upstream.specs.ScanTrees.{IsAskedWithin};
    ghost use Rattle.overlay_upstream.specs.LiveOf.{tree_sums, tree_held, IsSoundAt, tree_asked};

    ghost sums = { λ tree. tree_sums tree };

    ghost asked = { λ tree. tree_asked tree };

    ghost held = { λ tree. tree_held tree };

    ghost is_most = { λ n d. IsHighest n d };

    ghost may_go_on_at = { λ tree x. IsSoundAt x tree };

    fn insert(&mut self, segment: VSegment<I>, sum: C, x: I) -> Result<(), Fault>
        requires in_range { IsVSegmentInRange I.whole I.MIN_COORD I.MAX_COORD segment }
        requires start { I.whole segment.a.x ≡ I.whole x }
        requires wide { I.whole x <ℤ I.whole segment.b.x }
        requires time { IsSoundAt (I.whole x) self.old }
        requires free { AreFreeAt (I.whole x) (summed C.winding I.whole segment sum ∷ tree_sums self.old) }
        ensures sums { OnOk result (HoldSameFrom (I.whole x) (tree_sums self.new) (summed C.winding I.whole segment sum ∷ tree_sums self.old)) }
        ensures time { OnOk result ((y : ℤ) → I.whole x ≤ℤ y → IsSoundAt y self.new) }
        ensures fault { IfErr result (λ fault. fault ≡ Fault.Memory) }
        ensures emptied { OnErr result (tree_sums self.new ≡ []) }
        ensures none_asked { OnErr result (tree_asked self.new ≡ 0) }
        ensures cleared { OnErr result ((y : ℤ) → IsSoundAt y self.new) }
        ensures held { OnOk result (tree_held self.new ≤ suc (tree_held self.old)) }
        ensures most { OnOk result (IsInsertCost IsHighest (tree_held self.old) (tree_held self.new) (tree_asked self.new)) }
        ensures compared { OnOk result
            (IsAskedWithin (tree_held self.old) (suc (tree_held self.old) - tree_held self.new) (tree_asked self.new)) }
    {
        match self.push(Entry { segment, sum }) {
            Ok(new) => {
                self.settle(x, &Place::Segment(segment), new);
                self.kept += 1;
                Ok(())
            }
            Err(fault) => {
                self.clear();
                Err(fault)
            }
        }
    }

    fn sum_below(&mut self, x: I, p: IntPoint<I>, default: C) -> C
        requires point { IsPointInRange I.whole I.MIN_COORD I.MAX_COORD p }
        requires same_x { I.whole p.x ≡ I.whole x }
        requires time { IsSoundAt (I.whole x) self.old }
        requires free { AreFreeAt (I.whole x) (tree_sums self.old) }
        ensures sum { C.winding result ≡ sum_below (tree_sums self.old) (point_of I.whole p) (C.winding default) }
        ensures sums { HoldSameFrom (I.whole x) (tree_sums self.new) (tree_sums self.old) }
        ensures time { (y : ℤ) → I.whole x ≤ℤ y → IsSoundAt y self.new }
        ensures held { tree_held self.new ≤ tree_held self.old }
        ensures most { IsSearchCost IsHighest (tree_held self.old) (tree_held self.new) (tree_asked self.new) }
        ensures compared { IsAskedWithin (tree_held self.old) (tree_held self.old - tree_held self.new)
            (tree_asked self.new) }
    {
        let last = self.settle(x, &Place::Point(p), NONE);
        if last == NONE {
            default
        } else {
            self.entries[last].sum
        }
    }

    fn clear(&mut self)
        ensures sums { tree_sums self.new ≡ [] }
        ensures time { (y : ℤ) → IsSoundAt y self.new }
        ensures held { tree_held self.new ≡ 0 }
        ensures asked { tree_asked self.new ≡ 0 }
    {
        self.entries.clear();
        self.shape.clear();
        self.root = NONE;
        self.kept = 0;
        self.compared = 0;
    }

    fn compared(&self) -> u128 {
        u128::from(self.compared)
    }
}
