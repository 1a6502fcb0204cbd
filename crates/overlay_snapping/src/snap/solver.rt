// Snap rounding as the split of a list: what is equal is joined, each segment is cut along its chain, and the pieces are
// joined. This project's own.
ghost use Rattle.std.specs.Prelude.{◌≡◌, ◌↔◌, ◌<◌, ◌^◌, if◌then◌else◌, [], IsTrue, IsFalse, IfOk, IfErr, OnOk, OnErr};
ghost use Rattle.overlay_base.specs.declared.segm.fault.Fault.TheVariants.{Memory};
ghost use Rattle.overlay_base.specs.ArrangedOf.{IsSplittable, IsArranged};
ghost use Rattle.overlay_base.specs.Balance.{KeepsBalance};
ghost use Rattle.overlay_base.specs.EdgeData.{IsMadeFrom};
ghost use Rattle.overlay_base.specs.FaultOf.{OnTooLarge};
ghost use Rattle.overlay_base.specs.HooksOf.{hooks_of};
ghost use Rattle.overlay_base.specs.Join.{join_leaves_range};
ghost use Rattle.overlay_base.specs.Segments.{is_map};
ghost use Rattle.overlay_base.specs.steps.Early.{magnitudes};
ghost use Rattle.overlay_intersections.specs.MarkOf.{AreMarksOf};
ghost use Rattle.overlay_intersections.specs.declared.split.placing.Placing.TheVariants.{Settling};
ghost use Rattle.overlay_cuts.specs.Pass.{cut_by, pass_by};
ghost use Rattle.overlay_base.specs.SegmentOf.{segments_of};
ghost use Rattle.overlay_intersections.specs.PassMarks.{is_rounded};
ghost use Rattle.overlay_cuts.specs.ResultOf.{KeepsWhatHolds, LiesInBox, IsExactInput, HasGivenCounts, ChangesNothing, ChangesNoStore};
ghost use Rattle.overlay_snapping.specs.CutsOf.{AreCutsOf};
ghost use Rattle.overlay_snapping.specs.SnapOf.{IsSnapOf, TellsChange, reach_of_snap, LiesWithinReach, GivenLiesWithinReach, WindsBeyondReach, HasFewSegments, SumsLeaveRange, HasSnapData, GivesSnapData, IsSnapStore, StopsSnap, LiesWithinReachOfNamed};
ghost use Rattle.overlay_snapping.specs.SolverOf.{reach_of};
ghost use Rattle.overlay_snapping.specs.HotOf.{KnowsHot};
ghost use Rattle.overlay_snapping.specs.steps.Batches.{HasCut, HasCuts, ForCuts, HasDataOfPass, IsPassStore, StopsPass};

use crate::snap::batches::{are_small, joined_pieces};
use crate::snap::collinear::split_collinear;
use crate::snap::cut_finder::CutFinder;
use overlay_base::overlay_core::edge_data::OverlayEdgeData;
use overlay_base::overlay_core::solver::Solver;
use overlay_base::segm::fault::Fault;
use overlay_base::segm::join::join_with_store;
use overlay_base::segm::segment::Segment;
use overlay_base::segm::winding::WindingCount;
use overlay_cuts::split::finder::PairFinder;
use overlay_cuts::split::pass::pass_at;
use overlay_geometry::geom::point::IntPoint;
use overlay_geometry::num::OverlayInt;
use overlay_grid::split::fragment_memory::FragmentMemory;
use overlay_intersections::split::line_mark::LineMark;
use overlay_intersections::split::placing::Placing;
use overlay_tree::split::solver_tree::TreeBuffers;
use std::alloc::Global;
use std::mem::{replace, swap};

/// So many cuts are listed for each segment and each mark before segments are cut some at a time: with these, most lists are
/// cut at once.
const CUTS_PER_POINT: usize = 2;

/// So many cuts are listed in any case.
const LEAST_AT_ONCE: usize = 65_536;

/// Splits lists of segments by snap rounding. It keeps its memory from one call to the next, but for that of the cuts.
#[derive(Drop)]
pub struct SnapSolver<I: OverlayInt> {
    alloc: Global,
    finder: CutFinder<I>,
    marks: Vec<LineMark<I>>,
    pub(crate) cuts: Vec<LineMark<I>>,
    path: Vec<IntPoint<I>>,
    tree: TreeBuffers<I>,
    grid: FragmentMemory<I>,
    reach: u128,
}

impl<I: OverlayInt> SnapSolver<I> {
    /// A splitter that has taken no memory yet.
    pub fn new(alloc: Global) -> Self
        ensures reach { reach_of result ≡ 0 }
    {
        SnapSolver {
            alloc,
            finder: CutFinder::new(alloc),
            marks: Vec::new(alloc),
            cuts: Vec::new(alloc),
            path: Vec::new(alloc),
            tree: TreeBuffers::new(alloc),
            grid: FragmentMemory::new(alloc),
            reach: 0,
        }
    }

    /// How far the last call that succeeded moved crossings at most, in `x` and in `y`, in halves of a unit; 0 at first.
    /// It is 0 where no crossing had to be rounded, else 1.
    ///
    /// So each segment of the result lies that near to a given one, and at every place that is farther than that from
    /// the given segments the result winds as they do.
    pub fn reach(&self) -> u128
        ensures { result ≡ reach_of self.now }
    {
        self.reach
    }

    /// Splits a list as `split_segments_with_store` does, with a store of its own for the data, which begins as the
    /// store's default and is dropped.
    pub fn split_segments<C: WindingCount, D: OverlayEdgeData<C>>(
        &mut self,
        list: &mut Vec<Segment<C, I, D>>,
        solver: &Solver,
    ) -> Result<bool, Fault>
        requires { IsSplittable list.old.items }
        ensures snapped { OnOk result (IsSnapOf list.old list.new) }
        ensures changed { IfOk result (λ flag. TellsChange list.old flag) }
        ensures edge_data { GivesSnapData D.OverlayEdgeData.own D.Store.is_default list.old list.new result }
        ensures kept_data { KeepsWhatHolds D.OverlayEdgeData.own list.old list.new result }
        ensures named_data { LiesWithinReachOfNamed D.OverlayEdgeData.own list.old list.new result }
        ensures arranged { OnOk result (IsArranged list.new.items) }
        ensures few { OnOk result (HasFewSegments list.old list.new) }
        ensures balance { OnOk result (KeepsBalance (segments_of list.old.items) (segments_of list.new.items)) }
        ensures in_box { OnOk result (LiesInBox list.old list.new) }
        ensures exact_input { IsExactInput list.old → OnOk result (HasGivenCounts list.old list.new) }
        ensures near { OnOk result (LiesWithinReach list.old list.new) }
        ensures given_near { OnOk result (GivenLiesWithinReach list.old list.new) }
        ensures winding { OnOk result (WindsBeyondReach list.old list.new) }
        ensures unchanged { IsArranged list.old.items → IfOk result (ChangesNothing list.old list.new) }

        ensures fits { OnOk result (SumsLeaveRange list.old → ⊥) }
        ensures refused { OnTooLarge result (SumsLeaveRange list.old) }
        ensures emptied { OnErr result (list.new.items ≡ []) }
        ensures reach { OnOk result (reach_of self.new ≡ reach_of_snap (segments_of list.old.items)) }
        ensures exact_reach { IsExactInput list.old → OnOk result (reach_of self.new ≡ 0) }
        ensures reach_before { OnErr result (reach_of self.new ≡ reach_of self.old) }
    {
        let mut store = D::Store::default();
        self.split_segments_with_store(list, solver, &mut store)
    }

    /// Splits a list by snap rounding, in one pass: the list is sorted and merged, segments are cut along their chains,
    /// and the pieces are merged. Returns whether equal segments were joined or a segment was cut.
    ///
    /// Every two segments of the result share at most a common end. Each lies within half a unit of a given one, in `x`
    /// and in `y`, and within half a unit of every one that its data names, where the hooks name no others. Each point of
    /// a given segment lies as near to the result, or to where counts cancelled. At every place that is farther than that
    /// from the given segments, the result winds as they do. It lies in the box of the ends of the joined list, and has at
    /// most three segments for each of these ends and of the points to which crossings are rounded.
    ///
    /// Where no two given segments cross at a point without whole coordinates, nothing moves: each of these distances is
    /// 0, and the counts along the given segments are those given. A list that `is_arranged` stays as it is, with its
    /// data. The order of the list and the solver's strategy do not change the result.
    ///
    /// The list has to be splittable, as `is_splittable` tests. Where a segment is cut the data of what is left of it is
    /// split; a piece that is turned reverses its data; segments on the same ends merge theirs from left to right, in the
    /// stable order of the list.
    ///
    /// Returns `Fault::CountOutOfRange` only where a running sum of counts on one pair of ends leaves
    /// `-i32::MAX..=i32::MAX`, in the given list or among the pieces, and, memory being found, wherever one does; the
    /// store is then what the hooks called before that sum left. Returns `Fault::Memory` where a growth is refused; the
    /// store is then what the hooks called so far left. Where a call is refused the list is empty, `reach` is as it was,
    /// and the splitter can be used again.
    pub fn split_segments_with_store<C: WindingCount, D: OverlayEdgeData<C>>(
        &mut self,
        list: &mut Vec<Segment<C, I, D>>,
        solver: &Solver,
        store: &mut D::Store,
    ) -> Result<bool, Fault>
        requires { IsSplittable list.old.items }
        ensures snapped { OnOk result (IsSnapOf list.old list.new) }
        ensures changed { IfOk result (λ flag. TellsChange list.old flag) }
        ensures edge_data { OnOk result (HasSnapData D.OverlayEdgeData.own list.old store.old list.new) }
        ensures store { OnOk result (IsSnapStore D.OverlayEdgeData.own list.old store.old store.new) }
        ensures kept_data { KeepsWhatHolds D.OverlayEdgeData.own list.old list.new result }
        ensures named_data { LiesWithinReachOfNamed D.OverlayEdgeData.own list.old list.new result }
        ensures arranged { OnOk result (IsArranged list.new.items) }
        ensures few { OnOk result (HasFewSegments list.old list.new) }
        ensures balance { OnOk result (KeepsBalance (segments_of list.old.items) (segments_of list.new.items)) }
        ensures in_box { OnOk result (LiesInBox list.old list.new) }
        ensures exact_input { IsExactInput list.old → OnOk result (HasGivenCounts list.old list.new) }
        ensures near { OnOk result (LiesWithinReach list.old list.new) }
        ensures given_near { OnOk result (GivenLiesWithinReach list.old list.new) }
        ensures winding { OnOk result (WindsBeyondReach list.old list.new) }
        ensures unchanged { IsArranged list.old.items
            → IfOk result (ChangesNoStore list.old list.new store.old store.new) }

        ensures fits { OnOk result (SumsLeaveRange list.old → ⊥) }
        ensures refused { OnTooLarge result (SumsLeaveRange list.old) }
        ensures emptied { OnErr result (list.new.items ≡ []) }
        ensures stopped { OnTooLarge result (StopsSnap D.OverlayEdgeData.own list.old store.old store.new) }
        ensures store_made { IsMadeFrom (hooks_of C.counted D.OverlayEdgeData.own) store.old store.new }
        ensures reach { OnOk result (reach_of self.new ≡ reach_of_snap (segments_of list.old.items)) }
        ensures exact_reach { IsExactInput list.old → OnOk result (reach_of self.new ≡ 0) }
        ensures reach_before { OnErr result (reach_of self.new ≡ reach_of self.old) }
    {
        let repeated = join_with_store(list, store)?;
        let (grid, tree, path) = (&mut self.grid, &mut self.tree, &mut self.path);
        if let Some(split) = split_collinear(
            list.as_slice(),
            self.alloc,
            solver,
            grid,
            tree,
            path,
        ) {
            *list = split;
            self.reach = 0;
            return Ok(true);
        }
        let has_to_list = !D::has_one_value() || !are_small(list);
        let found = match self.find_cuts(list, solver, has_to_list) {
            Ok(found) => found,
            Err(fault) => {
                list.clear();
                return Err(fault);
            }
        };
        let is_cut = self.cut(list, found, store)?;
        self.reach = most_moved(found.is_rounded);
        Ok(repeated | is_cut)
    }

    /// Finds where the segments of a sorted list are cut. The cuts are listed, if they have to be or are not very many.
    fn find_cuts<C: WindingCount, D: Copy>(
        &mut self,
        segments: &[Segment<C, I, D>],
        solver: &Solver,
        has_to_list: bool,
    ) -> Result<Found, Fault>
        requires map { IsTrue (is_map (segments_of segments.now)) }
        requires splittable { IsSplittable segments.now }
        ensures cuts { IfOk result (λ found. IsTrue found.are_listed → AreCutsOf segments.now self.new.cuts.items) }
        ensures marks { IfOk result (λ found. IsFalse found.are_listed
            → AreMarksOf Settling segments.now self.new.marks.items) }
        ensures known { IfOk result (λ found. IsFalse found.are_listed
            → KnowsHot (segments_of segments.now) self.new.finder) }
        ensures some { IfOk result (λ found. IsFalse found.are_listed → HasCut (segments_of segments.now)) }
        ensures listed { IsTrue has_to_list → IfOk result (λ found. IsTrue found.are_listed) }
        ensures has_cuts { OnOk result (HasCuts (segments_of segments.now)) }
        ensures rounded { IfOk result (λ found. found.is_rounded ≡ is_rounded (segments_of segments.now)) }
        ensures fault { IfErr result (λ fault. fault ≡ Memory) }
        ensures reach { reach_of self.new ≡ reach_of self.old }
    {
        let mut pairs = PairFinder::new(self.alloc, solver, segments, &mut self.grid)?;
        let placing = Placing::Settling;
        let is_rounded = pairs.find_marks(segments, placing, &mut self.tree, &mut self.marks)?;
        pairs.give_back(&mut self.grid);
        if is_rounded {
            let most = if has_to_list {
                usize::MAX
            } else {
                most_at_once(segments.len(), self.marks.len())
            };
            let (marks, cuts) = (self.marks.as_slice(), &mut self.cuts);
            let are_listed = self.finder.find_cuts(segments, marks, most, cuts)?;
            return Ok(Found {
                is_rounded,
                are_listed,
            });
        }
        // where every crossing is a whole point nothing moves
        swap(&mut self.cuts, &mut self.marks);
        Ok(Found {
            is_rounded,
            are_listed: true,
        })
    }

    /// Cuts the segments of a sorted list where `find_cuts` found it, and joins the pieces. Returns whether one was cut.
    ///
    /// Where a call is refused the list is empty.
    fn cut<C: WindingCount, D: OverlayEdgeData<C>>(
        &mut self,
        list: &mut Vec<Segment<C, I, D>>,
        found: Found,
        store: &mut D::Store,
    ) -> Result<bool, Fault>
        requires map { IsTrue (is_map (segments_of list.old.items)) }
        requires splittable { IsSplittable list.old.items }
        requires cuts { IsTrue found.are_listed → AreCutsOf list.old.items self.old.cuts.items }
        requires marks { IsFalse found.are_listed → AreMarksOf Settling list.old.items self.old.marks.items }
        requires known { IsFalse found.are_listed → KnowsHot (segments_of list.old.items) self.old.finder }
        requires some { IsFalse found.are_listed → HasCut (segments_of list.old.items) }
        requires small { IsFalse found.are_listed → magnitudes (segments_of list.old.items) < 2 ^ 31 }
        requires one_data { IsFalse found.are_listed → (a b : D) → a ≡ b }
        requires one_store { IsFalse found.are_listed → (a b : D.Store) → a ≡ b }
        ensures geometry { OnOk result (ForCuts (segments_of list.old.items)
            (λ on. segments_of list.new.items ≡ pass_by on (segments_of list.old.items))) }
        ensures edge_data { OnOk result (ForCuts (segments_of list.old.items)
            (HasDataOfPass D.OverlayEdgeData.own list.old store.old list.new)) }
        ensures store { OnOk result (ForCuts (segments_of list.old.items)
            (IsPassStore D.OverlayEdgeData.own list.old store.old store.new)) }
        ensures cut { IfOk result (λ is_cut. IsTrue is_cut ↔ HasCut (segments_of list.old.items)) }

        ensures fits { OnOk result (ForCuts (segments_of list.old.items)
            (λ on. IsFalse (join_leaves_range (cut_by on (segments_of list.old.items))))) }
        ensures refused { OnTooLarge result (ForCuts (segments_of list.old.items)
            (λ on. IsTrue (join_leaves_range (cut_by on (segments_of list.old.items))))) }
        ensures emptied { OnErr result (list.new.items ≡ []) }
        ensures stopped { OnTooLarge result (ForCuts (segments_of list.old.items)
            (StopsPass D.OverlayEdgeData.own list.old store.old store.new)) }
        ensures store_made { IsMadeFrom (hooks_of C.counted D.OverlayEdgeData.own) store.old store.new }
        ensures reach { reach_of self.new ≡ reach_of self.old }
    {
        if found.are_listed {
            let cuts = replace(&mut self.cuts, Vec::new(self.alloc));
            let is_cut = !cuts.is_empty();
            pass_at(list, cuts, &mut self.path, store)?;
            return Ok(is_cut);
        }
        let most = most_at_once(list.len(), self.marks.len());
        let marks = self.marks.as_slice();
        let (finder, cuts, path) = (&mut self.finder, &mut self.cuts, &mut self.path);
        match joined_pieces(list, marks, finder, cuts, path, most, store) {
            Ok(pieces) => {
                *list = pieces;
                Ok(true)
            }
            Err(fault) => {
                list.clear();
                Err(fault)
            }
        }
    }
}

/// What `SnapSolver::find_cuts` found.
#[derive(Clone, Copy)]
struct Found {
    /// Whether two segments cross at a point without whole coordinates, so that it is rounded.
    is_rounded: bool,
    /// Whether all cuts are listed. Else they are so many that segments are cut some at a time.
    are_listed: bool,
}

/// How many cuts are listed, and how many pieces are made, before they are joined.
fn most_at_once(segments: usize, marks: usize) -> usize {
    segments
        .saturating_add(marks)
        .saturating_mul(CUTS_PER_POINT)
        .max(LEAST_AT_ONCE)
}

/// How far a split by snap rounding moves a crossing at most, in halves of a unit, by whether it rounds one.
fn most_moved(rounds: bool) -> u128
    ensures { result ≡ (if rounds then 1 else 0) }
{
    if rounds { 1 } else { 0 }
}
