// A split and a build in one call. This project's own.
ghost use Rattle.std.specs.Prelude.{◌≡◌, IsFalse, OnOk, IfOk, IfErr};
ghost use Rattle.overlay_base.specs.Rules.{holds, keeps_fill};
ghost use Rattle.overlay_base.specs.ArrangedOf.{IsSplittable, IsArranged};
ghost use Rattle.overlay_base.specs.SegmentOf.{segments_of, KeepsSegments};
ghost use Rattle.overlay_split.specs.SettingsOf.{snap_limit_of, passes_of};
ghost use Rattle.overlay_sweep.specs.ChainWindings.{tops_leave_range};
ghost use Rattle.overlay_build.specs.OverlayGraphOf.{graph_asked, HasItsNodes, HasDataBy};
ghost use Rattle.i_overlay.specs.GivenAgain.{ResultsAreGivenAgain};
ghost use Rattle.overlay_split.specs.SplitOf.{SumsLeaveRange, ReportsReach, LooksAreBounded};
ghost use Rattle.overlay_sweep.specs.SweepOf.{IsCostOf};
ghost use Rattle.i_overlay.specs.CallOf.{course_of, ReturnsOverlay, EnclosesByRule, LinksKeepWhatHolds, LinksLieNearNamed, RefusesCall};
ghost use Rattle.i_overlay.specs.SplitLists.{IsEmptyOrData};

pub use crate::overlay_by::split_and_build_overlay_by;
use overlay_base::overlay_core::edge_data::OverlayEdgeData;
use overlay_base::overlay_core::fill_rule::FillRule;
use overlay_base::overlay_core::overlay_rule::OverlayRule;
use overlay_base::overlay_core::solver::Solver;
use overlay_base::segm::boolean::ShapeCountBoolean;
use overlay_base::segm::fault::Fault;
use overlay_base::segm::segment::Segment;
use overlay_build::build::builder::GraphBuilder;
use overlay_build::build::graph::OverlayGraph;
use overlay_build::build::graph_node::OverlayNode;
use overlay_geometry::num::OverlayInt;
use overlay_split::split::solver::SplitSolver;

/// Splits a list into a planar arrangement, and returns the graph of the segments that an overlay rule keeps under a
/// fill rule. The graph borrows its nodes and links from the builder.
///
/// The list has to be splittable, as `is_splittable` tests; afterwards it is the arrangement. Where
/// the given counts balance at every point, as those of closed contours do, the graph holds exactly
/// the segments on whose two sides the rule has different values, with the fills of these sides,
/// and an even number of links meets at every node. Then the graph encloses (an odd number of links
/// runs below) exactly the places at which the rule's value differs from that outside, so for a
/// rule with a name those where it holds, by how the arrangement winds there. At every place that
/// is farther from the given segments than the passes move crossings, that is how the given
/// segments wind. The links, each in the direction that has the region on its left (from `a` to `b`
/// where the rule holds of the top of its fill, as `is_fill_top` says, and else back), are the
/// region's boundary: at every point as many start as end, and around every place they wind once
/// where the rule holds and not at all elsewhere, less what it says of those outside. The data of
/// the list goes through the splits and merges of a store of its own, which begins as the store's
/// default and is dropped; each link has the data of its segment. What the hooks keep of data, and
/// what holds of all given data, holds of each link's (`kept_data`). Where data names given
/// segments, as their numbers do, and the hooks name no others, each link lies as near to every one
/// that its data names as the passes move crossings (`named_data`). On exact input it lies on it.
/// Afterwards `reach` of the splitter is how far the passes moved crossings. The solver's strategy
/// does not change the result, but what the split costs: `looked` of the splitter is bounded by the
/// strategy as after `split_segments`.
///
/// `is_balanced` tests whether the counts balance.
///
/// Returns `Fault::CountOutOfRange` only where a running sum of counts on one pair of ends leaves
/// `-i32::MAX..=i32::MAX` in the split, or a winding above a segment in the build, and, memory being found, wherever
/// one does; `Fault::Memory` where a growth is refused. Where the split was refused the list is empty and `passes` is
/// as it was, and the builder was not called; where the build was refused the list is the arrangement. The splitter and
/// the builder can be used again.
pub fn split_and_build_overlay<'a, I: OverlayInt, D: OverlayEdgeData<ShapeCountBoolean>>(
    splitter: &mut SplitSolver<I>,
    builder: &'a mut GraphBuilder<ShapeCountBoolean, OverlayNode, I, D>,
    segments: &mut Vec<Segment<ShapeCountBoolean, I, D>>,
    solver: &Solver,
    fill_rule: FillRule,
    overlay_rule: OverlayRule,
) -> Result<OverlayGraph<'a, I, D>, Fault>
    requires { IsSplittable segments.old.items }
    ensures overlay { ReturnsOverlay (course_of solver.now splitter.old splitter.new segments.old) segments.old
        segments.new fill_rule overlay_rule result }
    ensures region { EnclosesByRule (course_of solver.now splitter.old splitter.new segments.old) segments.old
        fill_rule overlay_rule result }
    ensures graph { IfOk result (λ graph. HasItsNodes graph) }
    ensures edge_data { IfOk result (HasDataBy (keeps_fill (holds overlay_rule)) fill_rule segments.new.items) }
    ensures kept_data { LinksKeepWhatHolds D.OverlayEdgeData.own segments.old result }
    ensures named_data { LinksLieNearNamed D.OverlayEdgeData.own
        (course_of solver.now splitter.old splitter.new segments.old) segments.old result }
    ensures arranged { IsArranged segments.new.items }
    ensures list_data { IsEmptyOrData D.OverlayEdgeData.own D.Store.is_default
        (course_of solver.now splitter.old splitter.new segments.old) segments.old segments.new }
    ensures unchanged { IsArranged segments.old.items → OnOk result (KeepsSegments segments.old segments.new) }

    ensures fits { OnOk result (SumsLeaveRange solver.now splitter.old segments.old → ⊥) }
    ensures in_range { OnOk result (IsFalse (tops_leave_range (segments_of segments.new.items))) }
    ensures refused { IfErr result (RefusesCall (course_of solver.now splitter.old splitter.new segments.old)
        (passes_of splitter.old) segments.old segments.new) }
    ensures reach { OnOk result (ReportsReach solver.now splitter.old splitter.new segments.old) }
    ensures looked { OnOk result (LooksAreBounded solver.now splitter.old splitter.new segments.old) }
    ensures limit { snap_limit_of splitter.new ≡ snap_limit_of splitter.old }
    ensures asked { IfOk result (λ graph. IsCostOf solver.now segments.new.items (graph_asked graph)) }
{
    splitter.split_segments(segments, solver)?;
    builder.build_boolean_overlay(fill_rule, overlay_rule, solver, segments)
}

/// A result can be given again. Where the given counts balance, the links of an overlay's graph,
/// each in its direction, as segments of one shape (`directed_segments`) are a planar arrangement
/// in range, balanced, and wind around the rule's region for that shape alone; at every place that
/// is farther from the given segments than the split moves crossings, around the region by how
/// these wind.
pub fn result_laws()
    ensures { ResultsAreGivenAgain }
{}
