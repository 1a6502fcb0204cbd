// A splitter by either rounding: snap rounding, or passes over pairs. This project's own.
ghost use Rattle.std.specs.Prelude.{◌≡◌, [], OnOk, OnErr, IfOk, IfErr};
ghost use Rattle.overlay_base.specs.ArrangedOf.{IsSplittable, IsArranged};
ghost use Rattle.overlay_base.specs.SegmentOf.{segments_of};
ghost use Rattle.overlay_cuts.specs.ResultOf.{ChangesNothing};
ghost use Rattle.i_overlay.specs.Headline.{IsSplitRefusedBy};
ghost use Rattle.i_overlay.specs.SplitLists.{SplitsList, LeavesStore, TellsChangeBy};
ghost use Rattle.i_overlay.specs.SplitterOf.{rounding_in, snap_limit_in, passes_in, reach_in, looked_in, splitting_over, course_over, LooksAreFew, IsSetAsBefore};

use overlay_base::overlay_core::edge_data::OverlayEdgeData;
use overlay_base::overlay_core::solver::Solver;
use overlay_base::segm::fault::Fault;
use overlay_base::segm::segment::Segment;
use overlay_base::segm::winding::WindingCount;
use overlay_contours::rounding::Rounding;
use overlay_geometry::num::OverlayInt;
use overlay_snapping::snap::solver::SnapSolver;
use overlay_split::split::solver::SplitSolver;
use std::alloc::Global;

/// Splits lists of segments by the rounding that it is set to: by snap rounding, as `SnapSolver` does, or by passes over
/// pairs, as `SplitSolver` does.
#[derive(Drop)]
pub struct Splitter<I: OverlayInt> {
    rounding: Rounding,
    snapper: SnapSolver<I>,
    splitter: SplitSolver<I>,
    passes: u128,
    reach: u128,
}

impl<I: OverlayInt> Splitter<I> {
    /// A splitter by that rounding, which has taken no memory yet. Of its passes over pairs the first 256 may snap.
    pub fn new(alloc: Global, rounding: Rounding) -> Self
        ensures rounding { rounding_in result ≡ rounding }
        ensures limit { snap_limit_in result ≡ 256 }
        ensures passes { passes_in result ≡ 0 }
        ensures reach { reach_in result ≡ 0 }
    {
        Splitter {
            rounding,
            snapper: SnapSolver::new(alloc),
            splitter: SplitSolver::new(alloc),
            passes: 0,
            reach: 0,
        }
    }

    /// The same, with so many passes over pairs that may snap. Snap rounding makes no such pass.
    pub fn with_snap_limit(alloc: Global, rounding: Rounding, snap_limit: u32) -> Self
        ensures rounding { rounding_in result ≡ rounding }
        ensures limit { snap_limit_in result ≡ snap_limit }
        ensures passes { passes_in result ≡ 0 }
        ensures reach { reach_in result ≡ 0 }
    {
        Splitter {
            rounding,
            snapper: SnapSolver::new(alloc),
            splitter: SplitSolver::with_snap_limit(alloc, snap_limit),
            passes: 0,
            reach: 0,
        }
    }

    /// Splits by that rounding from now on. What it reports of the last call stays.
    pub fn set_rounding(&mut self, rounding: Rounding)
        ensures rounding { rounding_in self.new ≡ rounding }
        ensures limit { snap_limit_in self.new ≡ snap_limit_in self.old }
        ensures passes { passes_in self.new ≡ passes_in self.old }
        ensures reach { reach_in self.new ≡ reach_in self.old }
        ensures looked { looked_in self.new ≡ looked_in self.old }
    {
        let kept = &mut self.rounding;
        *kept = rounding;
    }

    /// The rounding by which it splits.
    pub fn rounding(&self) -> Rounding
        ensures { result ≡ rounding_in self.now }
    {
        self.rounding
    }

    /// In how many passes the last call that succeeded split its list, one by snap rounding; 0 at first.
    pub fn passes(&self) -> u128
        ensures { result ≡ passes_in self.now }
    {
        self.passes
    }

    /// How far the last call that succeeded moved crossings at most, in `x` and in `y`, in halves of a unit: at most 1 by
    /// snap rounding; 0 at first, and where every crossing was at a point with integer coordinates.
    ///
    /// So each segment of the result lies that near to a given one, and at every point that is farther than that from
    /// the given segments the result winds as they do.
    pub fn reach(&self) -> u128
        ensures { result ≡ reach_in self.now }
    {
        self.reach
    }

    /// How many pairs the last call that succeeded by passes over pairs compared. Snap rounding does not count them.
    pub fn looked(&self) -> u128
        ensures { result ≡ looked_in self.now }
    {
        self.splitter.looked()
    }

    /// Splits a list into a planar arrangement, with a store of its own for the data, which begins as the store's default and
    /// is dropped. Returns whether equal segments were joined or a segment was cut.
    ///
    /// The list has to be splittable, as `is_splittable` tests. By snap rounding the result is that of
    /// `SnapSolver::split_segments`, and lies within half a unit of what is given, in `x` and in `y`. By passes over pairs
    /// it is that of `SplitSolver::split_segments`, and lies as near as `reach` then returns. A list that `is_arranged`
    /// stays as it is, with its data. The solver's strategy does not change the result, and its precision only that of
    /// passes over pairs.
    ///
    /// Each segment lies as near to every given one that its data names as the split moves things, where data names given
    /// segments and the hooks name no others. Where of two that merge the hooks take the data of a line, each segment along
    /// which a line runs has the data of a line (`line_data`).
    ///
    /// Returns `Fault::CountOutOfRange` only where a running sum of counts on one pair of ends leaves
    /// `-i32::MAX..=i32::MAX`, and, memory being found, wherever one does; `Fault::Memory` where a growth is refused. Where
    /// a call is refused the list is empty, `passes` and `reach` are as they were, and the splitter can be used again.
    pub fn split_segments<C: WindingCount, D: OverlayEdgeData<C>>(
        &mut self,
        list: &mut Vec<Segment<C, I, D>>,
        solver: &Solver,
    ) -> Result<bool, Fault>
        requires { IsSplittable list.old.items }
        ensures split { OnOk result (SplitsList D.OverlayEdgeData.own D.Store.is_default
            (course_over solver.now self.old self.new list.old) list.old list.new) }
        ensures changed { IfOk result (λ flag. TellsChangeBy (splitting_over solver.now self.old list.old)
            (segments_of list.old.items) (passes_in self.new) flag) }
        ensures unchanged { IsArranged list.old.items → IfOk result (ChangesNothing list.old list.new) }

        ensures refused { IfErr result (IsSplitRefusedBy (splitting_over solver.now self.old list.old)
            (segments_of list.old.items) (segments_of list.new.items)) }
        ensures emptied { OnErr result (list.new.items ≡ []) }
        ensures before { OnErr result ((passes_in self.new ≡ passes_in self.old)
            × (reach_in self.new ≡ reach_in self.old)) }
        ensures looked { OnOk result (LooksAreFew solver.now self.old self.new list.old) }
        ensures settings { IsSetAsBefore self.old self.new }
    {
        let mut store = D::Store::default();
        self.split_segments_with_store(list, solver, &mut store)
    }

    /// Splits a list as `split_segments` does, with a store for the data that the caller hands on and keeps.
    ///
    /// Afterwards the store is what the hooks leave that make the data of the list. Where a call is refused nothing is
    /// promised of the store.
    pub fn split_segments_with_store<C: WindingCount, D: OverlayEdgeData<C>>(
        &mut self,
        list: &mut Vec<Segment<C, I, D>>,
        solver: &Solver,
        store: &mut D::Store,
    ) -> Result<bool, Fault>
        requires { IsSplittable list.old.items }
        ensures split { OnOk result (SplitsList D.OverlayEdgeData.own (λ s. s ≡ store.old)
            (course_over solver.now self.old self.new list.old) list.old list.new) }
        ensures store { OnOk result (LeavesStore D.OverlayEdgeData.own
            (course_over solver.now self.old self.new list.old) list.old store.old store.new) }
        ensures changed { IfOk result (λ flag. TellsChangeBy (splitting_over solver.now self.old list.old)
            (segments_of list.old.items) (passes_in self.new) flag) }
        ensures unchanged { IsArranged list.old.items → IfOk result (ChangesNothing list.old list.new) }

        ensures refused { IfErr result (IsSplitRefusedBy (splitting_over solver.now self.old list.old)
            (segments_of list.old.items) (segments_of list.new.items)) }
        ensures emptied { OnErr result (list.new.items ≡ []) }
        ensures before { OnErr result ((passes_in self.new ≡ passes_in self.old)
            × (reach_in self.new ≡ reach_in self.old)) }
        ensures looked { OnOk result (LooksAreFew solver.now self.old self.new list.old) }
        ensures settings { IsSetAsBefore self.old self.new }
    {
        match self.rounding {
            Rounding::HotPixels => {
                let has_changed = self.snapper.split_segments_with_store(list, solver, store)?;
                self.passes = 1;
                self.reach = self.snapper.reach();
                Ok(has_changed)
            }
            Rounding::Pairwise => {
                let has_changed = self
                    .splitter
                    .split_segments_with_store(list, solver, store)?;
                self.passes = self.splitter.passes();
                self.reach = self.splitter.reach();
                Ok(has_changed)
            }
        }
    }
}
