// The fills of all segments by a sweep. Upstream: `build_fills_with_strategy` of `build::builder`.
ghost use Rattle.std.specs.Prelude.{◌≡◌, IsTrue, IsFalse, OnOk};
ghost use Rattle.overlay_sweep.specs.LiveOf.{run_asked};
ghost use Rattle.overlay_base.specs.ArrangedOf.{IsArranged};
ghost use Rattle.overlay_base.specs.SegmentOf.{segments_of};
ghost use Rattle.overlay_sweep.specs.ChainWindings.{tops_leave_range};
ghost use Rattle.overlay_build.specs.Graph.{fills_of};
ghost use Rattle.overlay_base.specs.FaultOf.{OnTooLarge};
ghost use Rattle.overlay_sweep.specs.SweepOf.{IsCostOf};

use overlay_base::overlay_core::fill_rule::FillRule;
use overlay_base::overlay_core::solver::Solver;
use overlay_base::segm::fault::Fault;
use overlay_base::segm::segment::Segment;
use overlay_base::segm::segment_fill::{NONE, SegmentFill};
use overlay_geometry::num::OverlayInt;
use overlay_sweep::build::fill_handler::StoreFillsHandler;
use overlay_sweep::build::fill_strategy::FillCount;
use overlay_sweep::build::sweep::SweepRunner;

/// Finds the fills of the segments, in their order. After a refusal the list may hold anything.
pub fn find_fills<C: FillCount, I: OverlayInt, D: Copy>(
    runner: &mut SweepRunner<C, I>,
    fill_rule: FillRule,
    solver: &Solver,
    segments: &[Segment<C, I, D>],
    fills: &mut Vec<SegmentFill>,
) -> Result<(), Fault>
    requires arranged { IsArranged segments.now }
    ensures fills { OnOk result (fills.new.items ≡ fills_of fill_rule (segments_of segments.now)) }
    ensures in_range { OnOk result (IsFalse (tops_leave_range (segments_of segments.now))) }
    ensures out_of_range { OnTooLarge result (IsTrue (tops_leave_range (segments_of segments.now))) }
    ensures compared { OnOk result (IsCostOf solver.now segments.now (run_asked runner.new)) }
{
    fills.clear();
    fills.resize(segments.len(), NONE)?;
    let handler = StoreFillsHandler::new(fills);
    runner.run_with_fill_rule(fill_rule, solver, segments, handler)?;
    Ok(())
}
