// A split by either rounding and a build in one call. This project's own.
ghost use Rattle.std.specs.Prelude.{IsFalse, OnOk, IfOk, IfErr};
ghost use Rattle.overlay_base.specs.Rules.{holds, keeps_fill};
ghost use Rattle.overlay_base.specs.ArrangedOf.{IsSplittable, IsArranged};
ghost use Rattle.overlay_base.specs.SegmentOf.{segments_of, KeepsSegments};
ghost use Rattle.overlay_sweep.specs.ChainWindings.{tops_leave_range};
ghost use Rattle.overlay_sweep.specs.SweepOf.{IsCostOf};
ghost use Rattle.overlay_build.specs.OverlayGraphOf.{graph_asked, HasItsNodes, HasDataBy};
ghost use Rattle.overlay_contours.specs.Splittings.{SumsLeaveRange};
ghost use Rattle.i_overlay.specs.CallOf.{ReturnsOverlay, EnclosesByRule, LinksKeepWhatHolds, LinksLieNearNamed, RefusesCall};
ghost use Rattle.i_overlay.specs.SplitLists.{IsEmptyOrData};
ghost use Rattle.i_overlay.specs.SplitterOf.{splitting_over, course_over, passes_in, LooksAreFew, IsSetAsBefore};

use crate::splitter::Splitter;
use overlay_base::overlay_core::edge_data::OverlayEdgeData;
use overlay_base::overlay_core::fill_rule::FillRule;
use overlay_base::overlay_core::overlay_rule::OverlayRule;
use overlay_base::overlay_core::solver::Solver;
use overlay_base::segm::boolean::ShapeCountBoolean;
use overlay_base::segm::fault::Fault;
use overlay_base::segm::segment::Segment;
use overlay_build::build::builder::GraphBuilder;
use overlay_build::build::graph::OverlayGraph;
use overlay_build::build::graph_node::OverlayNode;
use overlay_geometry::num::OverlayInt;

/// Splits a list as a splitter by either rounding does, and returns the graph of the segments that an overlay rule keeps
/// under a fill rule, as `split_and_build_overlay` does. The graph borrows its nodes and links from the builder.
///
/// All that is said there of the graph, of the list and of data holds here, with what the splitter's rounding moves in
/// place of what passes over pairs do: `reach` of the splitter is then how far, in halves of a unit. By snap rounding that
/// is at most 1, and the list is left with at most three segments for each end and each point to which crossings are
/// rounded. So the graph encloses the rule's region, by how the given segments wind, at every point that is farther than
/// half a unit from them; where no two given segments cross at a point without integer coordinates, at every point that
/// lies on none.
///
/// The solver's strategy does not change the result, and its precision only that of passes over pairs.
///
/// Returns the faults of `split_and_build_overlay`, with the same left after them.
pub fn split_and_build_overlay_by<'a, I: OverlayInt, D: OverlayEdgeData<ShapeCountBoolean>>(
    splitter: &mut Splitter<I>,
    builder: &'a mut GraphBuilder<ShapeCountBoolean, OverlayNode, I, D>,
    segments: &mut Vec<Segment<ShapeCountBoolean, I, D>>,
    solver: &Solver,
    fill_rule: FillRule,
    overlay_rule: OverlayRule,
) -> Result<OverlayGraph<'a, I, D>, Fault>
    requires { IsSplittable segments.old.items }
    ensures overlay { ReturnsOverlay (course_over solver.now splitter.old splitter.new segments.old) segments.old
        segments.new fill_rule overlay_rule result }
    ensures region { EnclosesByRule (course_over solver.now splitter.old splitter.new segments.old) segments.old
        fill_rule overlay_rule result }
    ensures graph { IfOk result (λ graph. HasItsNodes graph) }
    ensures edge_data { IfOk result (HasDataBy (keeps_fill (holds overlay_rule)) fill_rule segments.new.items) }
    ensures kept_data { LinksKeepWhatHolds D.OverlayEdgeData.own segments.old result }
    ensures named_data { LinksLieNearNamed D.OverlayEdgeData.own
        (course_over solver.now splitter.old splitter.new segments.old) segments.old result }
    ensures arranged { IsArranged segments.new.items }
    ensures list_data { IsEmptyOrData D.OverlayEdgeData.own D.Store.is_default
        (course_over solver.now splitter.old splitter.new segments.old) segments.old segments.new }
    ensures unchanged { IsArranged segments.old.items → OnOk result (KeepsSegments segments.old segments.new) }

    ensures fits { OnOk result (SumsLeaveRange (splitting_over solver.now splitter.old segments.old)
        (segments_of segments.old.items) → ⊥) }
    ensures in_range { OnOk result (IsFalse (tops_leave_range (segments_of segments.new.items))) }
    ensures refused { IfErr result (RefusesCall (course_over solver.now splitter.old splitter.new segments.old)
        (passes_in splitter.old) segments.old segments.new) }
    ensures looked { OnOk result (LooksAreFew solver.now splitter.old splitter.new segments.old) }
    ensures settings { IsSetAsBefore splitter.old splitter.new }
    ensures asked { IfOk result (λ graph. IsCostOf solver.now segments.new.items (graph_asked graph)) }
{
    splitter.split_segments(segments, solver)?;
    builder.build_boolean_overlay(fill_rule, overlay_rule, solver, segments)
}
