// A split of polygons and lines, and the graph of the parts of lines that the polygons keep, in one call. This
// project's own.
ghost use Rattle.std.specs.Prelude.{◌≡◌, IsFalse, OnOk, IfOk, IfErr};
ghost use Rattle.overlay_base.specs.ArrangedOf.{IsSplittable, IsArranged};
ghost use Rattle.overlay_base.specs.SegmentOf.{segments_of, KeepsSegments};
ghost use Rattle.overlay_split.specs.SettingsOf.{snap_limit_of, passes_of};
ghost use Rattle.overlay_sweep.specs.ChainWindings.{tops_leave_range};
ghost use Rattle.overlay_build.specs.StringGraphOf.{builder_name, lines_asked, HasItsNodes};
ghost use Rattle.overlay_split.specs.SplitOf.{SumsLeaveRange, ReportsReach, LooksAreBounded};
ghost use Rattle.overlay_sweep.specs.SweepOf.{IsCostOf};
ghost use Rattle.i_overlay.specs.CallOf.{course_of, ClipsLines, RefusesCall};

pub use crate::clip_by::{split_and_build_clip_by, split_and_build_clip_with_numbers};
use overlay_base::overlay_core::clip_rule::ClipRule;
use overlay_base::overlay_core::fill_rule::FillRule;
use overlay_base::overlay_core::solver::Solver;
use overlay_base::segm::fault::Fault;
use overlay_base::segm::segment::Segment;
use overlay_base::segm::string::ShapeCountString;
use overlay_build::build::builder::GraphBuilder;
use overlay_build::build::string_graph::StringGraph;
use overlay_geometry::num::OverlayInt;
use overlay_split::split::solver::SplitSolver;

/// Splits a list of polygons, the subject, and lines into a planar arrangement, and returns the graph of the parts of
/// the lines that a clip rule keeps: those inside the subject under a fill rule, or, where the rule is inverted, those
/// outside of it. The graph borrows the builder.
///
/// The list has to be splittable, as `is_splittable` tests; afterwards it is the arrangement. Where
/// the counts of the polygons balance at every point, as those of closed contours do (lines have
/// none), the graph holds exactly the segments along which a line runs and which the rule keeps by
/// how the polygons wind on their two sides, in the columns beside them. At every place that is
/// farther from the given segments of polygons than the passes move crossings, however near lines
/// are to it, the arrangement winds as the given segments do (`near_lines`). So, where the counts
/// balance, at two such places directly beside a segment, one on each side, the rule keeps it by
/// how the given polygons wind there (`by_given`). Every kept part lies as near to a given line,
/// and every point of a given line to a segment with a mask (`lines_near`). Where all crossings of
/// the given segments are at whole points, the arrangement counts along each part of a given
/// segment what the given segments count there, masks included, and lies on them. Afterwards
/// `reach` of the splitter is how far the passes moved crossings. The solver's strategy does not
/// change the result, but what the split costs: `looked` of the splitter is bounded by the strategy
/// as after `split_segments`.
///
/// `is_balanced` tests whether the counts balance.
///
/// Returns `Fault::CountOutOfRange` only where a running sum of counts on one pair of ends leaves
/// `-i32::MAX..=i32::MAX` in the split, or a winding above a segment in the build, and, memory being found, wherever
/// one does; `Fault::Memory` where a growth is refused. Where the split was refused the list is empty and `passes` is
/// as it was, and the builder was not called; where the build was refused the list is the arrangement. The splitter and
/// the builder can be used again.
pub fn split_and_build_clip<'a, I: OverlayInt>(
    splitter: &mut SplitSolver<I>,
    builder: &'a mut GraphBuilder<ShapeCountString, Vec<usize>, I, ()>,
    segments: &mut Vec<Segment<ShapeCountString, I, ()>>,
    solver: &Solver,
    fill_rule: FillRule,
    clip_rule: ClipRule,
) -> Result<StringGraph<'a, I>, Fault>
    requires { IsSplittable segments.old.items }
    ensures clip { ClipsLines (course_of solver.now splitter.old splitter.new segments.old) segments.old segments.new
        fill_rule clip_rule result }
    ensures graph { IfOk result (λ graph. HasItsNodes graph) }
    ensures arranged { IsArranged segments.new.items }
    ensures unchanged { IsArranged segments.old.items → OnOk result (KeepsSegments segments.old segments.new) }

    ensures fits { OnOk result (SumsLeaveRange solver.now splitter.old segments.old → ⊥) }
    ensures in_range { OnOk result (IsFalse (tops_leave_range (segments_of segments.new.items))) }
    ensures refused { IfErr result (RefusesCall (course_of solver.now splitter.old splitter.new segments.old)
        (passes_of splitter.old) segments.old segments.new) }
    ensures reach { OnOk result (ReportsReach solver.now splitter.old splitter.new segments.old) }
    ensures looked { OnOk result (LooksAreBounded solver.now splitter.old splitter.new segments.old) }
    ensures limit { snap_limit_of splitter.new ≡ snap_limit_of splitter.old }
    ensures asked { IfOk result (λ graph. IsCostOf solver.now segments.new.items (lines_asked graph)) }
    ensures same_builder { IfOk result (λ graph. builder_name graph ≡ builder.entry.ghost_name) }
{
    splitter.split_segments(segments, solver)?;
    builder.build_string_clip(fill_rule, clip_rule, solver, segments)
}
