// Whether polygons overlap, and whether lines run through them: a library that lists `i_overlay` alone, and proves what
// follows from the contracts of its two whole calls where a graph has no links.
#![tactic(auto)]

ghost use Rattle.i_overlay.specs.ArrangedOf.{IsSplittable};
ghost use Rattle.overlaps.specs.Apart.{SaysWhetherBoth, ShareNoPlaceIfNot, SaysWhetherKept, KeepsNoPartIfNot};

use i_overlay::prelude::*;

/// Whether a subject and a clip overlap after the split: some segment of the arrangement has both on exactly one side.
///
/// The sides have to be splittable, as `is_splittable` tests; afterwards they are the arrangement. Where their counts
/// balance, as `is_balanced` tests, and the call returns `false`, no place lies in both, except nearer to the given sides
/// than the passes move things.
///
/// Returns the faults of `split_and_build_overlay`.
pub fn overlaps<I: OverlayInt>(
    splitter: &mut SplitSolver<I>,
    builder: &mut GraphBuilder<ShapeCountBoolean, OverlayNode, I, ()>,
    sides: &mut Vec<Segment<ShapeCountBoolean, I, ()>>,
    solver: &Solver,
    fill_rule: FillRule,
) -> Result<bool, Fault>
    requires { IsSplittable sides.old.items }
    ensures exact { SaysWhetherBoth sides.old sides.new fill_rule result }
    ensures apart { ShareNoPlaceIfNot solver.now splitter.old splitter.new sides.old fill_rule result }
{
    let rule = OverlayRule::Intersect;
    let graph = split_and_build_overlay(splitter, builder, sides, solver, fill_rule, rule)?;
    Ok(!graph.links().is_empty())
}

/// Whether a clip rule keeps a part of some line: with neither of its flags, whether a line runs through the
/// polygons.
///
/// The segments have to be splittable; afterwards they are the arrangement. Where the counts of the polygons balance and
/// the call returns `false`, the rule keeps no part of a line by how the given polygons wind on its two sides, except
/// nearer to them than the passes move things.
///
/// Returns the faults of `split_and_build_clip`.
pub fn runs_through<I: OverlayInt>(
    splitter: &mut SplitSolver<I>,
    builder: &mut GraphBuilder<ShapeCountString, Vec<usize>, I, ()>,
    segments: &mut Vec<Segment<ShapeCountString, I, ()>>,
    solver: &Solver,
    fill_rule: FillRule,
    clip_rule: ClipRule,
) -> Result<bool, Fault>
    requires { IsSplittable segments.old.items }
    ensures exact { SaysWhetherKept segments.old segments.new clip_rule fill_rule result }
    ensures outside { KeepsNoPartIfNot solver.now splitter.old splitter.new segments.old segments.new clip_rule
        fill_rule result }
{
    let kept = split_and_build_clip(splitter, builder, segments, solver, fill_rule, clip_rule)?;
    Ok(!kept.links().is_empty())
}
