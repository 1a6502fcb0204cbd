// Data that segments carry, and the three hooks that are called where segments are turned, split and merged.
// Upstream: `core::edge_data`.
ghost use Rattle.std.specs.Prelude.{◌≡◌, IsTrue};
ghost use Rattle.overlay_geometry.specs.Points.{Point};
ghost use Rattle.overlay_geometry.specs.PointOf.{point_of};
ghost use Rattle.overlay_base.specs.declared.overlay_core.edge_data.EdgeDataMerge.{EdgeDataMerge};

use overlay_geometry::geom::point::IntPoint;
use overlay_geometry::num::OverlayInt;

/// A segment from `a` to `b` is split at `p`.
#[derive(Clone, Copy, Debug)]
pub struct EdgeDataSplit<I> {
    /// Where the segment starts.
    pub a: IntPoint<I>,
    /// Where it is split.
    pub p: IntPoint<I>,
    /// Where it ends.
    pub b: IntPoint<I>,
}

/// Two segments on one pair of ends are merged: what was joined so far on the left, and the next one.
#[derive(Clone, Copy, Debug)]
pub struct EdgeDataMerge<C, D> {
    /// The data of what was joined so far.
    pub lhs_data: D,
    /// Its count.
    pub lhs_count: C,
    /// The data of the next segment.
    pub rhs_data: D,
    /// Its count.
    pub rhs_count: C,
    /// The sum of both counts, which is that of what is joined then.
    pub out_count: C,
}

/// Data on segments with counts of type `C`.
///
/// Each hook returns a function of its arguments and of the store before the call, and leaves a store that is such a
/// function too: an `impl` names the three functions. Points enter them as whole numbers, so that data does not see
/// the engine. A store that takes memory keeps its own fault.
pub trait OverlayEdgeData<C>: Copy + PartialEq {
    /// What the hooks share and change.
    type Store: Default + Drop;

    ghost reversed_gives: { Self → Self.Store → (Self × Self.Store) };

    ghost split_gives: { Self → Point → Point → Point → Self.Store → ((Self × Self) × Self.Store) };

    ghost merge_gives: { EdgeDataMerge C Self → Self.Store → (Self × Self.Store) };

    /// Whether the data and its store have one value each, so that no result shows in which order hooks were called.
    /// This project's own.
    fn has_one_value() -> bool
        ensures data { IsTrue result → (a b : Self) → a ≡ b }
        ensures store { IsTrue result → (a b : Self.Store) → a ≡ b }
    {
        false
    }

    /// The data of the same segment, run the other way.
    fn reversed(self, store: &mut Self::Store) -> Self
        ensures answer { result ≡ (reversed_gives self store.old).0 }
        ensures store { store.new ≡ (reversed_gives self store.old).1 };

    /// The data of the parts before and after the point of a split.
    fn split<I: OverlayInt>(self, at: EdgeDataSplit<I>, store: &mut Self::Store) -> (Self, Self)
        ensures answer { result ≡ (split_gives self (point_of I.whole at.a) (point_of I.whole at.p)
            (point_of I.whole at.b) store.old).0 }
        ensures store { store.new ≡ (split_gives self (point_of I.whole at.a) (point_of I.whole at.p)
            (point_of I.whole at.b) store.old).1 };

    /// The data of two segments that become one.
    fn merge(merged: EdgeDataMerge<C, Self>, store: &mut Self::Store) -> Self
        ensures answer { result ≡ (merge_gives merged store.old).0 }
        ensures store { store.new ≡ (merge_gives merged store.old).1 };
}

impl<C: Drop> OverlayEdgeData<C> for () {
    type Store = ();

    ghost reversed_gives = { λ edge_data store. (edge_data, store) };

    ghost split_gives = { λ edge_data _ _ _ store. ((edge_data, edge_data), store) };

    ghost merge_gives = { λ _ store. (tt, store) };

    fn has_one_value() -> bool {
        true
    }

    fn reversed(self, _store: &mut ()) {}

    fn split<I: OverlayInt>(self, _at: EdgeDataSplit<I>, _store: &mut ()) -> ((), ()) {
        ((), ())
    }

    fn merge(_merged: EdgeDataMerge<C, ()>, _store: &mut ())
        ensures answer { result ≡ tt }
        ensures store { _store.new ≡ _store.old }
    {}
}
