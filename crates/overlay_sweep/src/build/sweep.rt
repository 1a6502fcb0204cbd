// Sweeps over arrangements, with the buffers that they share. Upstream: `build::sweep`.
ghost use Rattle.std.specs.Prelude.{◌≡◌, ℕ, ◌<◌, IsTrue, IsFalse, IfOk, OnOk, OnErr, length};
ghost use Rattle.overlay_base.specs.ArrangedOf.{IsArranged};
ghost use Rattle.overlay_base.specs.Balance.{IsBalanced};
ghost use Rattle.overlay_base.specs.SegmentOf.{segments_of};
ghost use Rattle.overlay_sweep.specs.ChainWindings.{HaveColumnWindings};
ghost use Rattle.overlay_sweep.specs.LiveOf.{run_asked};
ghost use Rattle.overlay_sweep.specs.SweepOf.{IsSweepAnswer, sweep_leaves_range, IsSweepBound};
ghost use Rattle.overlay_base.specs.FaultOf.{OnTooLarge};

use crate::build::fill_handler::FillHandler;
use crate::build::fill_strategy::{
    EvenOddStrategy, FillCount, FillStrategy, NegativeStrategy, NonZeroStrategy, PositiveStrategy,
};
use crate::build::scan_row::ScanRow;
use crate::build::scan_rows::ScanRows;
use crate::build::visits::sweep_with_handler;
use crate::build::way::Way;
use overlay_base::overlay_core::fill_rule::FillRule;
use overlay_base::overlay_core::solver::{Solver, Strategy};
use overlay_base::segm::fault::Fault;
use overlay_base::segm::segment::Segment;
use overlay_base::segm::winding::WindingCount;
use overlay_geometry::num::OverlayInt;
use std::alloc::Global;

/// Runs sweeps over arrangements, one after another, and keeps their buffers.
#[derive(Drop)]
pub struct SweepRunner<C: WindingCount, I: OverlayInt> {
    row: ScanRow<C, I>,
    rows: ScanRows<C, I>,
    ways: Vec<Way<I>>,
    compared: u128,
}

impl<C: WindingCount, I: OverlayInt> SweepRunner<C, I> {
    /// A runner, which takes no memory yet.
    pub fn new(alloc: Global) -> SweepRunner<C, I>
        ensures { run_asked result ≡ 0 }
    {
        SweepRunner {
            row: ScanRow::new(alloc),
            rows: ScanRows::new(alloc),
            ways: Vec::new(alloc),
            compared: 0,
        }
    }

    /// Gives the segments of an arrangement to the handler, by their starts and then by angle from below, each with its
    /// index and its fill under the strategy's rule. Returns what the handler first breaks with, or else what it makes
    /// of the end.
    ///
    /// The winding below a segment is the one above the segment just before it by angle at the same
    /// start, or else the one above the segment directly below its start, or 0; the winding above
    /// adds the segment's count. Balance is no condition; with it these windings are those of the
    /// columns of the plane. The segments have to be arranged, as `is_arranged` tests, and the
    /// handler has to take each of their indexes. The solver does not change the result: under
    /// `List` the live segments are kept in one row, else in rows of a few. Over n segments
    /// `compared` is at most 3 n d. For one row 2 n is at most 2 ^ d; for rows no balanced tree of
    /// n entries is higher than d.
    ///
    /// Returns `Fault::CountOutOfRange` exactly where a winding above a segment that the handler gets leaves the range,
    /// and `Fault::Memory` where a growth is refused. The handler is spent then; the runner can be used again, and its
    /// `compared` is that of the run before.
    pub fn run<D: Copy, F: FillStrategy<C>, H: FillHandler<C, I, D>>(
        &mut self,
        solver: &Solver,
        segments: &[Segment<C, I, D>],
        handler: H,
    ) -> Result<H::Output, Fault>
        requires arranged { IsArranged segments.now }
        requires takes { (index : ℕ) → index < length segments.now → H.takes handler index }
        ensures answer { IfOk result (IsSweepAnswer H.handle_gives H.finalize_gives handler F.rule segments.now) }
        ensures in_range { OnOk result (IsFalse (sweep_leaves_range H.handle_gives handler F.rule segments.now)) }
        ensures out_of_range { OnTooLarge result
            (IsTrue (sweep_leaves_range H.handle_gives handler F.rule segments.now)) }
        ensures windings { IsBalanced (segments_of segments.now) → HaveColumnWindings (segments_of segments.now) }
        ensures refused { OnErr result (run_asked self.new ≡ run_asked self.old) }
        ensures compared { OnOk result (IsSweepBound solver.now segments.now (run_asked self.new)) }
    {
        let ways = &mut self.ways;
        let mut compared = 0;
        let answer = match solver.strategy {
            Strategy::List => {
                let row = &mut self.row;
                sweep_with_handler::<C, I, D, F, ScanRow<C, I>, H>(
                    row,
                    ways,
                    segments,
                    handler,
                    &mut compared,
                )?
            }
            Strategy::Tree | Strategy::Frag | Strategy::Auto => {
                let rows = &mut self.rows;
                sweep_with_handler::<C, I, D, F, ScanRows<C, I>, H>(
                    rows,
                    ways,
                    segments,
                    handler,
                    &mut compared,
                )?
            }
        };
        self.compared = compared;
        Ok(answer)
    }

    /// How many orders of live segments the last run that succeeded has compared: 0 at first, and
    /// `u128::MAX` at most.
    pub fn compared(&self) -> u128
        ensures { result ≡ run_asked self.now }
    {
        self.compared
    }
}

impl<C: FillCount, I: OverlayInt> SweepRunner<C, I> {
    /// The same as `run`, under a fill rule chosen at run time.
    pub fn run_with_fill_rule<D: Copy, H: FillHandler<C, I, D>>(
        &mut self,
        fill_rule: FillRule,
        solver: &Solver,
        segments: &[Segment<C, I, D>],
        handler: H,
    ) -> Result<H::Output, Fault>
        requires arranged { IsArranged segments.now }
        requires takes { (index : ℕ) → index < length segments.now → H.takes handler index }
        ensures answer { IfOk result (IsSweepAnswer H.handle_gives H.finalize_gives handler fill_rule segments.now) }
        ensures in_range { OnOk result (IsFalse (sweep_leaves_range H.handle_gives handler fill_rule segments.now)) }
        ensures out_of_range { OnTooLarge result
            (IsTrue (sweep_leaves_range H.handle_gives handler fill_rule segments.now)) }
        ensures windings { IsBalanced (segments_of segments.now) → HaveColumnWindings (segments_of segments.now) }
        ensures refused { OnErr result (run_asked self.new ≡ run_asked self.old) }
        ensures compared { OnOk result (IsSweepBound solver.now segments.now (run_asked self.new)) }
    {
        match fill_rule {
            FillRule::EvenOdd => self.run::<D, EvenOddStrategy, H>(solver, segments, handler),
            FillRule::NonZero => self.run::<D, NonZeroStrategy, H>(solver, segments, handler),
            FillRule::Positive => self.run::<D, PositiveStrategy, H>(solver, segments, handler),
            FillRule::Negative => self.run::<D, NegativeStrategy, H>(solver, segments, handler),
        }
    }
}
