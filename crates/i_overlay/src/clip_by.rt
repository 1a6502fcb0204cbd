// A split of polygons and lines by either rounding, and the graph of the parts of lines that the polygons keep, in one call.
// This project's own.
ghost use Rattle.std.specs.Prelude.{◌≡◌, ◌⊎◌, [], IsTrue, IsFalse, OnOk, OnErr, IfOk, IfErr};
ghost use Rattle.overlay_base.specs.ArrangedOf.{IsSplittable, IsArranged};
ghost use Rattle.overlay_base.specs.FaultOf.{OnTooLarge};
ghost use Rattle.overlay_base.specs.SegmentOf.{segments_of, KeepsSegments};
ghost use Rattle.overlay_sweep.specs.ChainWindings.{tops_leave_range};
ghost use Rattle.overlay_sweep.specs.SweepOf.{IsCostOf};
ghost use Rattle.overlay_build.specs.StringGraphOf.{builder_name, lines_asked, HasItsNodes};
ghost use Rattle.overlay_contours.specs.Splittings.{SumsLeaveRange};
ghost use Rattle.i_overlay.specs.CallOf.{ClipsLines, RefusesCall};
ghost use Rattle.i_overlay.specs.Headline.{IsSplitBy};
ghost use Rattle.i_overlay.specs.LineNumbers.{TellsLines};
ghost use Rattle.i_overlay.specs.SplitterOf.{splitting_over, course_over, passes_in, LooksAreFew, IsSetAsBefore};

use crate::line_numbers::LineNumbers;
use crate::splitter::Splitter;
use overlay_base::overlay_core::clip_rule::ClipRule;
use overlay_base::overlay_core::fill_rule::FillRule;
use overlay_base::overlay_core::solver::Solver;
use overlay_base::segm::fault::Fault;
use overlay_base::segm::segment::Segment;
use overlay_base::segm::string::ShapeCountString;
use overlay_build::build::builder::GraphBuilder;
use overlay_build::build::string_graph::StringGraph;
use overlay_geometry::num::OverlayInt;

/// Splits a list of polygons, the subject, and lines as a splitter by either rounding does, and returns the graph of the
/// parts of the lines that a clip rule keeps, as `split_and_build_clip` does. The graph borrows the builder.
///
/// All that is said there of the graph and of the list holds here, with what the splitter's rounding moves in place of
/// what passes over pairs do: `reach` of the splitter is then how far, in halves of a unit, and by snap rounding at most 1.
/// So by snap rounding, at every point that is farther than half a unit from the given polygons, however near lines are to
/// it, the arrangement winds as the given segments do. Every kept part lies within half a unit of a given line, and every
/// point of a given line within half a unit of a segment with a mask.
///
/// The solver's strategy does not change the result, and its precision only that of passes over pairs.
///
/// Returns the faults of `split_and_build_clip`, with the same left after them.
pub fn split_and_build_clip_by<'a, I: OverlayInt>(
    splitter: &mut Splitter<I>,
    builder: &'a mut GraphBuilder<ShapeCountString, Vec<usize>, I, ()>,
    segments: &mut Vec<Segment<ShapeCountString, I, ()>>,
    solver: &Solver,
    fill_rule: FillRule,
    clip_rule: ClipRule,
) -> Result<StringGraph<'a, I>, Fault>
    requires { IsSplittable segments.old.items }
    ensures clip { ClipsLines (course_over solver.now splitter.old splitter.new segments.old) segments.old segments.new
        fill_rule clip_rule result }
    ensures graph { IfOk result (λ graph. HasItsNodes graph) }
    ensures arranged { IsArranged segments.new.items }
    ensures unchanged { IsArranged segments.old.items → OnOk result (KeepsSegments segments.old segments.new) }

    ensures fits { OnOk result (SumsLeaveRange (splitting_over solver.now splitter.old segments.old)
        (segments_of segments.old.items) → ⊥) }
    ensures in_range { OnOk result (IsFalse (tops_leave_range (segments_of segments.new.items))) }
    ensures refused { IfErr result (RefusesCall (course_over solver.now splitter.old splitter.new segments.old)
        (passes_in splitter.old) segments.old segments.new) }
    ensures looked { OnOk result (LooksAreFew solver.now splitter.old splitter.new segments.old) }
    ensures settings { IsSetAsBefore splitter.old splitter.new }
    ensures asked { IfOk result (λ graph. IsCostOf solver.now segments.new.items (lines_asked graph)) }
    ensures same_builder { IfOk result (λ graph. builder_name graph ≡ builder.entry.ghost_name) }
{
    splitter.split_segments(segments, solver)?;
    builder.build_string_clip(fill_rule, clip_rule, solver, segments)
}

/// Splits polygons and lines as `split_and_build_clip_by` does, returns the same graph, and finds which given lines run along
/// each segment of the arrangement: the numbers are the indexes of lines in the given list.
///
/// So the number of a line is with each kept part of it, and with no part of another line alone. Links are in the order of
/// the segments, so a walk along both lists finds the numbers of each link.
///
/// Returns the faults of `split_and_build_clip_by`. Where the split was refused the list is empty, and where the build was it
/// is the arrangement. Nothing is promised of the numbers then.
pub fn split_and_build_clip_with_numbers<'a, I: OverlayInt>(
    splitter: &mut Splitter<I>,
    builder: &'a mut GraphBuilder<ShapeCountString, Vec<usize>, I, ()>,
    segments: &mut Vec<Segment<ShapeCountString, I, ()>>,
    lines: &mut LineNumbers,
    solver: &Solver,
    fill_rule: FillRule,
    clip_rule: ClipRule,
) -> Result<StringGraph<'a, I>, Fault>
    requires { IsSplittable segments.old.items }
    ensures clip { ClipsLines (course_over solver.now splitter.old splitter.new segments.old) segments.old segments.new
        fill_rule clip_rule result }
    ensures lines { OnOk result (TellsLines (course_over solver.now splitter.old splitter.new segments.old)
        (segments_of segments.old.items) (segments_of segments.new.items) lines.new) }
    ensures graph { IfOk result (λ graph. HasItsNodes graph) }
    ensures arranged { IsArranged segments.new.items }
    ensures unchanged { IsArranged segments.old.items → OnOk result
        (segments_of segments.new.items ≡ segments_of segments.old.items) }

    ensures fits { OnOk result (SumsLeaveRange (splitting_over solver.now splitter.old segments.old)
        (segments_of segments.old.items) → ⊥) }
    ensures in_range { OnOk result (IsFalse (tops_leave_range (segments_of segments.new.items))) }
    ensures too_large { OnTooLarge result (SumsLeaveRange (splitting_over solver.now splitter.old segments.old)
        (segments_of segments.old.items) ⊎ IsTrue (tops_leave_range (segments_of segments.new.items))) }
    ensures stands { OnErr result ((segments_of segments.new.items ≡ []) ⊎ IsSplitBy (course_over solver.now splitter.old
        splitter.new segments.old) (segments_of segments.old.items) (segments_of segments.new.items)) }
    ensures looked { OnOk result (LooksAreFew solver.now splitter.old splitter.new segments.old) }
    ensures settings { IsSetAsBefore splitter.old splitter.new }
    ensures asked { IfOk result (λ graph. IsCostOf solver.now segments.new.items (lines_asked graph)) }
    ensures same_builder { IfOk result (λ graph. builder_name graph ≡ builder.entry.ghost_name) }
{
    lines.split(splitter, segments, solver)?;
    builder.build_string_clip(fill_rule, clip_rule, solver, segments)
}
