// `arrange graph`: the graph of the arrangement, by an overlay rule or of all segments.
ghost use Rattle.std.specs.Prelude.{◌≡◌, ◌⊎◌, true, Ok, Err, IsTrue, IsFalse, OnOk, IfOk, IfErr, string_bytes};
ghost use Rattle.overlay_base.specs.declared.segm.fault.Fault.TheVariants.{CountOutOfRange};
ghost use Rattle.overlay_base.specs.SegmentOf.{segments_of};
ghost use Rattle.overlay_base.specs.ArrangedOf.{IsSplittable};
ghost use Rattle.overlay_contours.specs.Splittings.{IsLeftBy, SumsLeaveRange};
ghost use Rattle.i_overlay.specs.SplitterOf.{rounding_in, snap_limit_in, passes_in, reach_in, splitting_over};
ghost use Rattle.overlay_sweep.specs.ChainWindings.{tops_leave_range};
ghost use Rattle.overlay_build.specs.Graph.{graph_by};
ghost use Rattle.overlay_build.specs.GraphOf.{graph_with};
ghost use Rattle.overlay_build.specs.OverlayGraphOf.{links_of, graph_asked, whole_graph};
ghost use Rattle.overlay_base.specs.Choices.{in_one_row};
ghost use Rattle.overlay_sweep.specs.Costs.{IsSweepCost};
ghost use Rattle.arrange.specs.Run.{IsGraphCost, CountsLeaveRange, IsAnswerTo, IsGraphFor, rounding_named};
ghost use Rattle.overlay_text.specs.declared.settings.Command.{Command};
ghost use Rattle.overlay_text.specs.Runs.{IfStopped};
ghost use Rattle.overlay_base.specs.FaultOf.{OnTooLarge};

use crate::graph_output::write_graph;
use i_overlay::overlay::split_and_build_overlay_by;
use i_overlay::splitter::Splitter;
use overlay_base::overlay_core::fill_rule::FillRule;
use overlay_base::overlay_core::solver::Solver;
use overlay_base::segm::boolean::ShapeCountBoolean;
use overlay_base::segm::fault::Fault;
use overlay_base::segm::segment::Segment;
use overlay_build::build::builder::GraphBuilder;
use overlay_build::build::graph::OverlayGraph;
use overlay_build::build::graph_node::OverlayNode;
use overlay_contours::rounding::Rounding as ContourRounding;
use overlay_geometry::num::OverlayInt;
use overlay_text::settings::{Rounding, Settings};
use overlay_text::stop::Stop;
use std::alloc::Global;

pub type Builder<I> = GraphBuilder<ShapeCountBoolean, OverlayNode, I, ()>;

pub type Lines<I> = Vec<Segment<ShapeCountBoolean, I, ()>>;

/// The text of the graph of the planar arrangement: its links, its nodes, and whether it is valid. Links and fills are
/// those that the settings choose.
///
/// Returns `Fault::CountOutOfRange` where a sum of the split leaves the range, or a winding above a segment of the
/// arrangement.
pub fn graph<I: OverlayInt>(
    alloc: Global,
    segments: Lines<I>,
    settings: Settings,
) -> Result<String, Stop>
    requires { IsSplittable segments.items }
    ensures text { IfOk result (λ text. IsAnswerTo Command.Graph settings segments (Ok (string_bytes text))) }
    ensures stop { IfStopped result (λ stop. IsAnswerTo Command.Graph settings segments (Err stop)) }
{
    let mut builder = GraphBuilder::new(alloc);
    let graph = build_graph(alloc, &mut builder, segments, settings)?;
    let mut text = String::new(alloc);
    write_graph(&mut text, &graph)?;
    Ok(text)
}

/// Splits the segments, and builds the graph that the settings choose: of the segments that the rule keeps, or of all.
pub fn build_graph<'a, I: OverlayInt>(
    alloc: Global,
    builder: &'a mut Builder<I>,
    mut segments: Lines<I>,
    settings: Settings,
) -> Result<OverlayGraph<'a, I, ()>, Fault>
    requires { IsSplittable segments.items }
    ensures graph { IfOk result (λ graph. IsGraphFor settings segments (whole_graph graph)) }
    ensures out_of_range { OnTooLarge result (CountsLeaveRange I.BITS settings (segments_of segments.items)) }
    ensures asked { IfOk result (λ graph. IsGraphCost I.BITS settings (segments_of segments.items)
        (graph_asked graph)) }
{
    let solver = settings.solver();
    let mut splitter = splitter_for(alloc, &settings);
    let fill_rule = settings.fill_rule;
    match settings.rule {
        Some(rule) => split_and_build_overlay_by(
            &mut splitter,
            builder,
            &mut segments,
            &solver,
            fill_rule,
            rule,
        ),
        None => build_all(&mut splitter, builder, &mut segments, &solver, fill_rule),
    }
}

/// The splitter that the settings choose: by their rounding, and with their limit.
pub fn splitter_for<I: OverlayInt>(alloc: Global, settings: &Settings) -> Splitter<I>
    ensures rounding { rounding_in result ≡ rounding_named settings.now.rounding }
    ensures limit { snap_limit_in result ≡ settings.now.snap_limit }
{
    let rounding = match settings.rounding {
        Rounding::Pairwise => ContourRounding::Pairwise,
        Rounding::HotPixels => ContourRounding::HotPixels,
    };
    Splitter::with_snap_limit(alloc, rounding, settings.snap_limit)
}

/// Splits the segments, and builds the graph of all of the arrangement.
fn build_all<'a, I: OverlayInt>(
    splitter: &mut Splitter<I>,
    builder: &'a mut Builder<I>,
    segments: &mut Lines<I>,
    solver: &Solver,
    fill_rule: FillRule,
) -> Result<OverlayGraph<'a, I, ()>, Fault>
    requires { IsSplittable segments.old.items }
    ensures left { OnOk result (IsLeftBy (splitting_over solver.now splitter.old segments.old)
        (segments_of segments.old.items) (segments_of segments.new.items) (passes_in splitter.new)
        (reach_in splitter.new)) }
    ensures graph { IfOk result (λ graph. graph_with I.whole (links_of graph)
        ≡ graph_by (λ _. true) fill_rule (segments_of segments.new.items)) }
    ensures in_range { OnOk result (IsFalse (tops_leave_range (segments_of segments.new.items))) }
    ensures out_of_range { IfErr result (λ fault. fault ≡ CountOutOfRange →
        SumsLeaveRange (splitting_over solver.now splitter.old segments.old) (segments_of segments.old.items)
        ⊎ (IsLeftBy (splitting_over solver.now splitter.old segments.old) (segments_of segments.old.items)
        (segments_of segments.new.items) (passes_in splitter.new) (reach_in splitter.new)
        × IsTrue (tops_leave_range (segments_of segments.new.items)))) }
    ensures asked { IfOk result (λ graph. IsSweepCost (in_one_row solver.now.strategy)
        (segments_of segments.new.items) (graph_asked graph)) }
{
    splitter.split_segments(segments, solver)?;
    builder.build_boolean_all(fill_rule, solver, segments)
}
