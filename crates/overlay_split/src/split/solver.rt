// The split of a list into a planar arrangement: passes that snap, up to a limit, then passes that settle.
// Upstream: `split::solver`. The settling passes, `passes` and the limit are this project's own.
ghost use Rattle.std.specs.Prelude.{◌≡◌, ◌<◌, ◌≤◌, ◌+◌, ◌-◌, ◌^◌, ◌||◌, ◌&&◌, if◌then◌else◌, [], false, IsTrue, IsFalse, IfOk, IfErr, OnOk, OnErr, Ok, length, nat_le, nat_lt};
ghost use Rattle.overlay_base.specs.declared.segm.fault.Fault.TheVariants.{CountOutOfRange};
ghost use Rattle.overlay_base.specs.Segments.{pairs, is_map};
ghost use Rattle.overlay_base.specs.ArrangedOf.{IsSplittable, IsArranged};
ghost use Rattle.overlay_base.specs.Join.{join_leaves_range};
ghost use Rattle.overlay_base.specs.Balance.{KeepsBalance};
ghost use Rattle.overlay_base.specs.EdgeData.{IsMadeFrom, IsRefusedJoin};
ghost use Rattle.overlay_base.specs.HooksOf.{hooks_of};
ghost use Rattle.overlay_base.specs.SegmentOf.{segments_of, data_segments_of};
ghost use Rattle.overlay_base.specs.Radius.{exponent_of, squared_radius};
ghost use Rattle.overlay_intersections.specs.Marks.{snapping, settling};
ghost use Rattle.overlay_cuts.specs.Pass.{cut, pass};
ghost use Rattle.overlay_intersections.specs.PassMarks.{is_rounded, mark_count};
ghost use Rattle.overlay_cuts.specs.DataPass.{data_cut, data_pass};
ghost use Rattle.overlay_split.specs.steps.IsAt.{IsAt};
ghost use Rattle.overlay_intersections.specs.PlacingOf.{placing_of, HasRadius};
ghost use Rattle.overlay_cuts.specs.PassLooks.{ArePassLooks};
ghost use Rattle.overlay_cuts.specs.FinderOf.{solver_in, layout_in, looks_in};
ghost use Rattle.overlay_grid.specs.Grid.{LieInside};
ghost use Rattle.overlay_cuts.specs.Nearness.{reach, reach_of_pass, reach_of_run};
ghost use Rattle.overlay_split.specs.SplitOf.{IsRunOver, ReportsReach, LiesNearNamed, LiesNearGiven, WindsAsGiven, PassesAreBounded, SumsLeaveRange, LooksAreBounded, StopsRun, StaysWithin, GoesBeyond, LeavesStoreBefore, GivesData, GivesRunData, LeavesRunStore};
ghost use Rattle.overlay_cuts.specs.ResultOf.{KeepsWhatHolds, LiesInBox, IsExactInput, HasGivenCounts, ChangesNothing, ChangesNoStore};
ghost use Rattle.overlay_base.specs.FaultOf.{OnTooLarge};
ghost use Rattle.overlay_split.specs.PassOf.{piece_count};
ghost use Rattle.overlay_split.specs.steps.ChangedBoxes.{BoundChange};
ghost use Rattle.overlay_split.specs.SplitFaultOf.{OnLargeCount, OnTooMany};

use crate::split::fault::SplitFault;
use crate::split::pass::{PassBuffers, pass_near};
use overlay_base::overlay_core::edge_data::OverlayEdgeData;
use overlay_base::overlay_core::snap_radius::SnapRadius;
use overlay_base::overlay_core::solver::Solver;
use overlay_base::segm::fault::Fault;
use overlay_base::segm::join::join_with_store;
use overlay_base::segm::segment::Segment;
use overlay_base::segm::winding::WindingCount;
use overlay_cuts::split::finder::PairFinder;
use overlay_geometry::geom::rect::IntRect;
use overlay_geometry::num::OverlayInt;
use overlay_grid::split::fragment_memory::FragmentMemory;
use overlay_intersections::split::placing::Placing;
use std::alloc::Global;

/// How many passes snap, if nothing else is said.
const SNAP_LIMIT: u32 = 256;

/// Splits lists of segments. It keeps memory from one call to the next, but not that of marks, nor that of columns which
/// hold all fragments of a list.
#[derive(Drop)]
pub struct SplitSolver<I> {
    alloc: Global,
    buffers: PassBuffers<I>,
    grid: FragmentMemory<I>,
    snap_limit: u32,
    passes: u128,
    reach: u128,
    looked: u128,
}

/// How far a run has come.
#[derive(Clone, Copy)]
struct Progress {
    /// How many passes were made.
    passes: u128,
    /// How far they moved crossings at most, together, in halves of a unit.
    reach: u128,
    /// Whether equal segments were given or a segment was split.
    has_changed: bool,
    /// Whether another pass is to be made.
    goes_on: bool,
}

impl<I> SplitSolver<I> {
    ghost use Rattle.std.specs.Prelude.{◌≡◌};
    ghost use Rattle.overlay_split.specs.SettingsOf.{snap_limit_of, passes_of, reach_of, looked_of};

    /// A splitter that snaps in the first 256 passes. It takes no memory yet.
    pub fn new(alloc: Global) -> Self
        ensures limit { snap_limit_of result ≡ 256 }
        ensures passes { passes_of result ≡ 0 }
        ensures reach { reach_of result ≡ 0 }
        ensures looked { looked_of result ≡ 0 }
    {
        SplitSolver::with_snap_limit(alloc, SNAP_LIMIT)
    }

    /// A splitter that snaps in that many passes, and settles after them. It takes no memory yet.
    ///
    /// Under a limit of 0 or 1, segments that are nearly parallel can take as many passes as they are long, since each
    /// settling pass may make just one mark. The growing precisions, as `HIGH`, need a handful under 256. A few such
    /// segments can also fall into very many pieces: `split_segments_within` bounds them.
    pub fn with_snap_limit(alloc: Global, snap_limit: u32) -> Self
        ensures limit { snap_limit_of result ≡ snap_limit }
        ensures passes { passes_of result ≡ 0 }
        ensures reach { reach_of result ≡ 0 }
        ensures looked { looked_of result ≡ 0 }
    {
        SplitSolver {
            alloc,
            buffers: PassBuffers::new(alloc),
            grid: FragmentMemory::new(alloc),
            snap_limit,
            passes: 0,
            reach: 0,
            looked: 0,
        }
    }

    /// How many passes the last call made that succeeded; 0 at first.
    pub fn passes(&self) -> u128
        ensures { result ≡ passes_of self.now }
    {
        self.passes
    }

    /// How far the passes of the last call that succeeded moved crossings at most, in `x` and in `y`, in halves of a unit;
    /// 0 at first. It is the sum over its passes: of a pass that snaps 2 and twice the whole part of its radius, of one
    /// that settles 1, and of one in which every crossing had whole coordinates nothing.
    ///
    /// So at every place that is farther than that from the given segments, in `x` or in `y`, the result winds as they
    /// do. It is 0 where no two of them cross at a point without whole coordinates.
    pub fn reach(&self) -> u128
        ensures { result ≡ reach_of self.now }
    {
        self.reach
    }

    /// How many pairs of segments, or of their parts in a column, the last call that succeeded compared, even if only
    /// to find that they do not meet; 0 at first. It stops at `u128::MAX`.
    ///
    /// A pass over the list compares at most the pairs whose ranges in `x` meet, and under `Strategy::List` exactly these.
    /// A pass over a tree, with what `Strategy::Auto` tries before, compares at most 64 for each segment and for each pair
    /// whose ranges in `x` and in `y` meet. A pass over a grid compares at most the pairs of parts in one column whose
    /// ranges in `y` meet, one for each part, and, for a vertical segment on the left border of a column, the parts in the
    /// column to its left.
    ///
    /// Not counted are comparisons of no pair: of heights with the roots on the way down a tree, of the ends of live
    /// segments with the `x` of the sweep, and with the first segment or part past the end of a scan, one at most for
    /// each. Nor are those with rectangles around what the pass before cut, one a segment at most on the average. That
    /// nothing else is compared without being counted is read, not proved.
    pub fn looked(&self) -> u128
        ensures { result ≡ looked_of self.now }
    {
        self.looked
    }
}

impl<I: OverlayInt> SplitSolver<I> {
    ghost use Rattle.overlay_split.specs.SettingsOf.{snap_limit_of, passes_of, reach_of, looked_of, settings_of};

    /// Splits a list as `split_segments_with_store` does, with a store of its own for the data, which begins as the
    /// store's default and is dropped. A few segments that are nearly parallel can fall into very many:
    /// `split_segments_within` bounds them.
    pub fn split_segments<C: WindingCount, D: OverlayEdgeData<C>>(
        &mut self,
        list: &mut Vec<Segment<C, I, D>>,
        solver: &Solver,
    ) -> Result<bool, Fault>
        requires { IsSplittable list.old.items }
        ensures run { IfOk result (IsRunOver solver.now self.old self.new list.old list.new) }
        ensures edge_data { GivesData D.OverlayEdgeData.own D.Store.is_default solver.now self.old self.new list.old
            list.new result }
        ensures kept_data { KeepsWhatHolds D.OverlayEdgeData.own list.old list.new result }
        ensures named_data { LiesNearNamed D.OverlayEdgeData.own solver.now self.old self.new list.old list.new result }
        ensures arranged { OnOk result (IsArranged list.new.items) }
        ensures balance { OnOk result (KeepsBalance (segments_of list.old.items) (segments_of list.new.items)) }
        ensures in_box { OnOk result (LiesInBox list.old list.new) }
        ensures exact_input { IsExactInput list.old → OnOk result (HasGivenCounts list.old list.new) }
        ensures near { OnOk result (LiesNearGiven solver.now self.old self.new list.old list.new) }
        ensures winding { OnOk result (WindsAsGiven solver.now self.old self.new list.old list.new) }
        ensures bound { OnOk result (PassesAreBounded solver.now self.old self.new list.old) }
        ensures unchanged { IsArranged list.old.items → IfOk result (ChangesNothing list.old list.new) }

        ensures fits { OnOk result (SumsLeaveRange solver.now self.old list.old → ⊥) }
        ensures refused { OnTooLarge result (SumsLeaveRange solver.now self.old list.old) }
        ensures emptied { OnErr result (list.new.items ≡ []) }
        ensures reach { OnOk result (ReportsReach solver.now self.old self.new list.old) }
        ensures exact_reach { IsExactInput list.old → OnOk result (reach_of self.new ≡ 0) }
        ensures passes { OnErr result (passes_of self.new ≡ passes_of self.old) }
        ensures reach_before { OnErr result (reach_of self.new ≡ reach_of self.old) }
        ensures looked { OnOk result (LooksAreBounded solver.now self.old self.new list.old) }
        ensures looked_before { OnErr result (looked_of self.new ≡ looked_of self.old) }
        ensures limit { snap_limit_of self.new ≡ snap_limit_of self.old }
        ensures empty { list.old.items ≡ [] → (result ≡ Ok false) × (passes_of self.new ≡ 0) }
    {
        let mut store = D::Store::default();
        self.split_segments_with_store(list, solver, &mut store)
    }

    /// Splits a list until every two of its segments share at most a common end: the list is sorted and merged, then
    /// passes are made up to one in which every crossing has whole coordinates. Returns whether equal segments were
    /// joined or a segment was split.
    ///
    /// The list has to be splittable, as `is_splittable` tests. Pass k snaps, with the solver's
    /// precision, up to the snap limit, and settles after it. The solver's strategy does not change
    /// the result.
    ///
    /// A list that `is_arranged` stays as it is. Where no two given segments cross at a point without whole
    /// coordinates, the counts along them are those given. In every case the result and the given segments lie near one
    /// another, but for counts that cancel: as near as the passes move crossings. At every place that is farther than
    /// that from the given segments the result winds as they do. An empty list takes no memory.
    ///
    /// A few segments that are nearly parallel can fall into very many: `split_segments_with_store_within` bounds them.
    ///
    /// Each mark splits the data of what is left of its segment; a piece that is turned reverses its data; segments on
    /// the same ends merge theirs from left to right, in the stable order of the list. What the hooks keep of data, and
    /// what holds of all given data, holds of all data after the split (`kept_data`). Where data names given segments,
    /// as their numbers do, and the hooks name no others, each segment lies as near to every one that its data names as
    /// the passes move crossings (`named_data`).
    ///
    /// Returns `Fault::CountOutOfRange` only where a running sum of counts on one pair of ends leaves
    /// `-i32::MAX..=i32::MAX`, in the given list or among the pieces of a pass, and, memory being found, wherever one
    /// does; the store is then what the hooks called before that sum left. Returns `Fault::Memory` where a growth is
    /// refused; the store is then what the hooks called so far left, so what each hook keeps of it still holds. Where a
    /// call is refused the list is empty, `passes`, `reach` and `looked` are as they were, and the splitter can be used
    /// again.
    pub fn split_segments_with_store<C: WindingCount, D: OverlayEdgeData<C>>(
        &mut self,
        list: &mut Vec<Segment<C, I, D>>,
        solver: &Solver,
        store: &mut D::Store,
    ) -> Result<bool, Fault>
        requires { IsSplittable list.old.items }
        ensures run { IfOk result (IsRunOver solver.now self.old self.new list.old list.new) }
        ensures edge_data { GivesRunData D.OverlayEdgeData.own solver.now self.old self.new list.old store.old
            list.new result }
        ensures store { LeavesRunStore D.OverlayEdgeData.own solver.now self.old self.new list.old store.old store.new
            result }
        ensures kept_data { KeepsWhatHolds D.OverlayEdgeData.own list.old list.new result }
        ensures named_data { LiesNearNamed D.OverlayEdgeData.own solver.now self.old self.new list.old list.new result }
        ensures arranged { OnOk result (IsArranged list.new.items) }
        ensures balance { OnOk result (KeepsBalance (segments_of list.old.items) (segments_of list.new.items)) }
        ensures in_box { OnOk result (LiesInBox list.old list.new) }
        ensures exact_input { IsExactInput list.old → OnOk result (HasGivenCounts list.old list.new) }
        ensures near { OnOk result (LiesNearGiven solver.now self.old self.new list.old list.new) }
        ensures winding { OnOk result (WindsAsGiven solver.now self.old self.new list.old list.new) }
        ensures bound { OnOk result (PassesAreBounded solver.now self.old self.new list.old) }
        ensures unchanged { IsArranged list.old.items
            → IfOk result (ChangesNoStore list.old list.new store.old store.new) }

        ensures fits { OnOk result (SumsLeaveRange solver.now self.old list.old → ⊥) }
        ensures refused { OnTooLarge result (SumsLeaveRange solver.now self.old list.old) }
        ensures emptied { OnErr result (list.new.items ≡ []) }
        ensures stopped { OnTooLarge result
            (StopsRun D.OverlayEdgeData.own solver.now self.old list.old store.old store.new) }
        ensures store_made { IsMadeFrom (hooks_of C.counted D.OverlayEdgeData.own) store.old store.new }
        ensures reach { OnOk result (ReportsReach solver.now self.old self.new list.old) }
        ensures exact_reach { IsExactInput list.old → OnOk result (reach_of self.new ≡ 0) }
        ensures passes { OnErr result (passes_of self.new ≡ passes_of self.old) }
        ensures reach_before { OnErr result (reach_of self.new ≡ reach_of self.old) }
        ensures looked { OnOk result (LooksAreBounded solver.now self.old self.new list.old) }
        ensures looked_before { OnErr result (looked_of self.new ≡ looked_of self.old) }
        ensures limit { snap_limit_of self.new ≡ snap_limit_of self.old }
        ensures empty { list.old.items ≡ [] → (result ≡ Ok false) × (passes_of self.new ≡ 0) }
    {
        let unbounded = usize::MAX;
        match self.split_segments_with_store_within(list, solver, store, unbounded) {
            Ok(has_changed) => Ok(has_changed),
            Err(SplitFault::Refused(fault)) => Err(fault),
            Err(SplitFault::TooManySegments) => unreachable!(),
        }
    }

    /// Splits a list as `split_segments_with_store_within` does, with a store of its own for the data, which begins as
    /// the store's default and is dropped.
    pub fn split_segments_within<C: WindingCount, D: OverlayEdgeData<C>>(
        &mut self,
        list: &mut Vec<Segment<C, I, D>>,
        solver: &Solver,
        limit: usize,
    ) -> Result<bool, SplitFault>
        requires { IsSplittable list.old.items }
        ensures run { IfOk result (IsRunOver solver.now self.old self.new list.old list.new) }
        ensures edge_data { GivesData D.OverlayEdgeData.own D.Store.is_default solver.now self.old self.new list.old
            list.new result }
        ensures kept_data { KeepsWhatHolds D.OverlayEdgeData.own list.old list.new result }
        ensures named_data { LiesNearNamed D.OverlayEdgeData.own solver.now self.old self.new list.old list.new result }
        ensures arranged { OnOk result (IsArranged list.new.items) }
        ensures balance { OnOk result (KeepsBalance (segments_of list.old.items) (segments_of list.new.items)) }
        ensures in_box { OnOk result (LiesInBox list.old list.new) }
        ensures exact_input { IsExactInput list.old → OnOk result (HasGivenCounts list.old list.new) }
        ensures near { OnOk result (LiesNearGiven solver.now self.old self.new list.old list.new) }
        ensures winding { OnOk result (WindsAsGiven solver.now self.old self.new list.old list.new) }
        ensures bound { OnOk result (PassesAreBounded solver.now self.old self.new list.old) }
        ensures unchanged { IsArranged list.old.items → IfOk result (ChangesNothing list.old list.new) }
        ensures within { OnOk result (StaysWithin solver.now self.old self.new limit list.old) }
        ensures length { OnOk result (length list.new.items ≤ limit) }

        ensures fits { OnOk result (SumsLeaveRange solver.now self.old list.old → ⊥) }
        ensures refused { OnLargeCount result (SumsLeaveRange solver.now self.old list.old) }
        ensures emptied { OnErr result (list.new.items ≡ []) }
        ensures beyond { OnTooMany result (GoesBeyond solver.now self.old limit list.old) }
        ensures unbounded { OnTooMany result (limit < 2 ^ 64 - 1) }
        ensures reach { OnOk result (ReportsReach solver.now self.old self.new list.old) }
        ensures exact_reach { IsExactInput list.old → OnOk result (reach_of self.new ≡ 0) }
        ensures passes { OnErr result (passes_of self.new ≡ passes_of self.old) }
        ensures reach_before { OnErr result (reach_of self.new ≡ reach_of self.old) }
        ensures looked { OnOk result (LooksAreBounded solver.now self.old self.new list.old) }
        ensures looked_before { OnErr result (looked_of self.new ≡ looked_of self.old) }
        ensures limit { snap_limit_of self.new ≡ snap_limit_of self.old }
        ensures empty { list.old.items ≡ [] → (result ≡ Ok false) × (passes_of self.new ≡ 0) }
    {
        let mut store = D::Store::default();
        self.split_segments_with_store_within(list, solver, &mut store, limit)
    }

    /// Splits a list as `split_segments_with_store` does, but joins at most as many segments as the limit says.
    ///
    /// A few segments that are nearly parallel can fall into very many, since a pass may mark each at many points beside
    /// the others. The limit is compared with the length of the given list and, before each pass cuts anything, with the
    /// number of pieces that it would make. So no list on the way is longer, and where the limit does for all passes the
    /// result is that of `split_segments_with_store`. The marks of a pass are found before they are counted: their
    /// memory is bounded by the segments that meet, not by the limit.
    ///
    /// Returns `SplitFault::TooManySegments` where the given list is longer than the limit, or a pass would make more
    /// pieces; the store is then what the passes before that left. Under `usize::MAX` it never does. Returns the faults
    /// of `split_segments_with_store` as `SplitFault::Refused`. Where a call is refused the list is empty, `passes`,
    /// `reach` and `looked` are as they were, and the splitter can be used again.
    pub fn split_segments_with_store_within<C: WindingCount, D: OverlayEdgeData<C>>(
        &mut self,
        list: &mut Vec<Segment<C, I, D>>,
        solver: &Solver,
        store: &mut D::Store,
        limit: usize,
    ) -> Result<bool, SplitFault>
        requires { IsSplittable list.old.items }
        ensures run { IfOk result (IsRunOver solver.now self.old self.new list.old list.new) }
        ensures edge_data { GivesRunData D.OverlayEdgeData.own solver.now self.old self.new list.old store.old
            list.new result }
        ensures store { LeavesRunStore D.OverlayEdgeData.own solver.now self.old self.new list.old store.old store.new
            result }
        ensures kept_data { KeepsWhatHolds D.OverlayEdgeData.own list.old list.new result }
        ensures named_data { LiesNearNamed D.OverlayEdgeData.own solver.now self.old self.new list.old list.new result }
        ensures arranged { OnOk result (IsArranged list.new.items) }
        ensures balance { OnOk result (KeepsBalance (segments_of list.old.items) (segments_of list.new.items)) }
        ensures in_box { OnOk result (LiesInBox list.old list.new) }
        ensures exact_input { IsExactInput list.old → OnOk result (HasGivenCounts list.old list.new) }
        ensures near { OnOk result (LiesNearGiven solver.now self.old self.new list.old list.new) }
        ensures winding { OnOk result (WindsAsGiven solver.now self.old self.new list.old list.new) }
        ensures bound { OnOk result (PassesAreBounded solver.now self.old self.new list.old) }
        ensures unchanged { IsArranged list.old.items
            → IfOk result (ChangesNoStore list.old list.new store.old store.new) }
        ensures within { OnOk result (StaysWithin solver.now self.old self.new limit list.old) }
        ensures length { OnOk result (length list.new.items ≤ limit) }

        ensures fits { OnOk result (SumsLeaveRange solver.now self.old list.old → ⊥) }
        ensures refused { OnLargeCount result (SumsLeaveRange solver.now self.old list.old) }
        ensures emptied { OnErr result (list.new.items ≡ []) }
        ensures stopped { OnLargeCount result
            (StopsRun D.OverlayEdgeData.own solver.now self.old list.old store.old store.new) }
        ensures beyond { OnTooMany result
            (LeavesStoreBefore D.OverlayEdgeData.own solver.now self.old limit list.old store.old store.new) }
        ensures unbounded { OnTooMany result (limit < 2 ^ 64 - 1) }
        ensures store_made { IsMadeFrom (hooks_of C.counted D.OverlayEdgeData.own) store.old store.new }
        ensures reach { OnOk result (ReportsReach solver.now self.old self.new list.old) }
        ensures exact_reach { IsExactInput list.old → OnOk result (reach_of self.new ≡ 0) }
        ensures passes { OnErr result (passes_of self.new ≡ passes_of self.old) }
        ensures reach_before { OnErr result (reach_of self.new ≡ reach_of self.old) }
        ensures looked { OnOk result (LooksAreBounded solver.now self.old self.new list.old) }
        ensures looked_before { OnErr result (looked_of self.new ≡ looked_of self.old) }
        ensures limit { snap_limit_of self.new ≡ snap_limit_of self.old }
        ensures empty { list.old.items ≡ [] → (result ≡ Ok false) × (passes_of self.new ≡ 0) }
    {
        if list.is_empty() {
            self.passes = 0;
            self.reach = 0;
            self.looked = 0;
            return Ok(false);
        }
        self.run(list, solver, store, limit)
    }

    /// Splits as `split_segments_with_store_within` does, also where the list is empty.
    fn run<C: WindingCount, D: OverlayEdgeData<C>>(
        &mut self,
        list: &mut Vec<Segment<C, I, D>>,
        solver: &Solver,
        store: &mut D::Store,
        limit: usize,
    ) -> Result<bool, SplitFault>
        requires { IsSplittable list.old.items }
        ensures ended { IfOk result (λ flag. IsAt (hooks_of C.counted D.OverlayEdgeData.own)
            (settings_of I.BITS solver.now self.old) (I.whole I.MIN_COORD) (I.whole I.MAX_COORD)
            (segments_of list.old.items) (segments_of list.new.items) (data_segments_of list.old.items)
            (data_segments_of list.new.items) store.old store.new (passes_of self.new) flag false) }
        ensures reach { OnOk result (reach_of self.new ≡ reach_of_run (settings_of I.BITS solver.now self.old)
            (segments_of list.old.items) (passes_of self.new)) }
        ensures looked { OnOk result (LooksAreBounded solver.now self.old self.new list.old) }
        ensures within { OnOk result (StaysWithin solver.now self.old self.new limit list.old) }
        ensures emptied { OnErr result (list.new.items ≡ []) }
        ensures stopped { OnLargeCount result
            (StopsRun D.OverlayEdgeData.own solver.now self.old list.old store.old store.new) }
        ensures beyond { OnTooMany result
            (LeavesStoreBefore D.OverlayEdgeData.own solver.now self.old limit list.old store.old store.new) }
        ensures unbounded { OnTooMany result (limit < 2 ^ 64 - 1) }
        ensures store_made { IsMadeFrom (hooks_of C.counted D.OverlayEdgeData.own) store.old store.new }
        ensures unset { OnErr result ((passes_of self.new ≡ passes_of self.old)
            × (looked_of self.new ≡ looked_of self.old) × (reach_of self.new ≡ reach_of self.old)) }
        ensures limit { snap_limit_of self.new ≡ snap_limit_of self.old }
    {
        if list.len() > limit {
            list.clear();
            return Err(SplitFault::TooManySegments);
        }
        let repeated = join_with_store(list, store)?;
        let mut finder = match PairFinder::new(self.alloc, solver, list, &mut self.grid) {
            Ok(finder) => finder,
            Err(fault) => {
                list.clear();
                return Err(SplitFault::Refused(fault));
            }
        };
        let mut progress = Progress {
            passes: 0,
            reach: 0,
            has_changed: repeated,
            goes_on: list.len() >= 2,
        };
        let mut changed = None;
        let mut radius = solver.snap_radius();
        while progress.goes_on {
            let placing = placing_after::<I>(progress.passes, self.snap_limit, &radius);
            progress = progress.after_pass(
                list,
                placing,
                &mut finder,
                &mut self.buffers,
                &mut changed,
                store,
                limit,
            )?;
            radius.increment();
        }
        self.passes = progress.passes;
        self.reach = progress.reach;
        self.looked = finder.looked();
        finder.give_back(&mut self.grid);
        Ok(progress.has_changed)
    }
}

impl Progress {
    ghost use Rattle.std.specs.Prelude.{◌≡◌, ◌+◌, ◌-◌, ◌<◌, ◌≤◌, ◌^◌, ◌||◌, ◌&&◌, [], IsTrue, IsFalse, IfOk, IfErr, OnOk, OnErr, length, nat_le, nat_lt};

    /// Where a run is after one more pass.
    fn after_pass<C: WindingCount, I: OverlayInt, D: OverlayEdgeData<C>>(
        self,
        list: &mut Vec<Segment<C, I, D>>,
        placing: Placing,
        finder: &mut PairFinder<I>,
        buffers: &mut PassBuffers<I>,
        changed: &mut Option<Vec<IntRect<I>>>,
        store: &mut D::Store,
        limit: usize,
    ) -> Result<Progress, SplitFault>
        requires map { IsTrue (is_map (segments_of list.old.items)) }
        requires splittable { IsSplittable list.old.items }
        requires radius { HasRadius placing }
        requires passes { self.passes + 1 < 2 ^ 128 }
        requires reach { self.reach < 2 ^ 127 }
        requires inside { LieInside (layout_in finder.old) (pairs (segments_of list.old.items)) }
        requires changed { BoundChange I.whole changed.old (segments_of list.old.items) }
        ensures solver { solver_in finder.new ≡ solver_in finder.old }
        ensures grid { layout_in finder.new ≡ layout_in finder.old }
        ensures geometry { OnOk result (segments_of list.new.items
            ≡ pass (placing_of placing) (segments_of list.old.items)) }
        ensures edge_data { OnOk result
            (let hooks = hooks_of C.counted D.OverlayEdgeData.own in
            data_segments_of list.new.items ≡ (data_pass hooks (placing_of placing)
            (data_segments_of list.old.items) store.old).0) }
        ensures store { OnOk result
            (let hooks = hooks_of C.counted D.OverlayEdgeData.own in
            store.new ≡ (data_pass hooks (placing_of placing) (data_segments_of list.old.items) store.old).1) }
        ensures passes { IfOk result (λ after. after.passes ≡ self.passes + 1) }
        ensures reach { IfOk result (λ after. after.reach
            ≡ self.reach + reach_of_pass (placing_of placing) (segments_of list.old.items)) }
        ensures reach_bound { IfOk result (λ after. after.reach ≤ self.reach + 2 ^ 34) }
        ensures bounds { OnOk result (BoundChange I.whole changed.new (segments_of list.new.items)) }
        ensures changed { IfOk result (λ after. after.has_changed
            ≡ (self.has_changed || nat_lt 0 (mark_count (placing_of placing) (segments_of list.old.items)))) }
        ensures goes_on { IfOk result (λ after. after.goes_on
            ≡ (nat_le 2 (length list.new.items) && is_rounded (segments_of list.old.items))) }
        ensures looked { OnOk result (ArePassLooks (solver_in finder.old).strategy (layout_in finder.old)
            (pairs (segments_of list.old.items)) (looks_in finder.old) (looks_in finder.new)) }

        ensures fits { OnOk result (IsFalse (join_leaves_range
            (cut (placing_of placing) (segments_of list.old.items)))) }
        ensures emptied { OnErr result (list.new.items ≡ []) }
        ensures stopped { OnLargeCount result
            (let hooks = hooks_of C.counted D.OverlayEdgeData.own in
            let pieces = data_cut hooks (placing_of placing) (data_segments_of list.old.items) store.old in
            IsRefusedJoin hooks pieces.0 pieces.1 store.new) }
        ensures store_made { IsMadeFrom (hooks_of C.counted D.OverlayEdgeData.own) store.old store.new }
        ensures within { OnOk result (piece_count placing list.old.items ≤ limit) }
        ensures beyond { OnTooMany result (limit < piece_count placing list.old.items) }
        ensures uncut { OnTooMany result (store.new ≡ store.old) }
        ensures unbounded { OnTooMany result (limit < 2 ^ 64 - 1) }
    {
        let passed = pass_near(list, placing, finder, buffers, changed, store, limit)?;
        Ok(Progress {
            passes: self.passes + 1,
            reach: self.reach + most_moved(placing, passed.is_rounded),
            has_changed: self.has_changed || passed.has_marks,
            goes_on: list.len() >= 2 && passed.is_rounded,
        })
    }
}

/// How the pass after so many others places crossings: up to the snap limit it snaps within the radius, and then it settles.
fn placing_after<I: OverlayInt>(passes: u128, snap_limit: u32, radius: &SnapRadius) -> Placing
    ensures snaps { passes < snap_limit
        → placing_of result ≡ snapping (squared_radius I.BITS (exponent_of radius.now)) }
    ensures settles { snap_limit ≤ passes → placing_of result ≡ settling }
    ensures radius { HasRadius result }
{
    if passes >= snap_limit as u128 {
        return Placing::Settling;
    }
    Placing::Snapping {
        radius_squared: radius.radius_squared::<I>(),
    }
}

/// How far a pass that places crossings so moves one at most, in halves of a unit: nothing if none is rounded. Else to
/// the snapping point by less than 1, and from there no farther than the radius, or to the settling point by one half.
fn most_moved(placing: Placing, rounds: bool) -> u128
    requires { HasRadius placing }
    ensures reach { result ≡ (if rounds then reach (placing_of placing) else 0) }
    ensures bound { result ≤ 2 ^ 34 }
{
    if !rounds {
        return 0;
    }
    match placing {
        Placing::Snapping { radius_squared } => 2
            + 2 * radius_squared.unsigned_abs().isqrt() as u128,
        Placing::Settling => 1,
    }
}
