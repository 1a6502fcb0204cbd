// The overlay of polygons whose steps name given edges: for each step one near which it runs. This project's own.
ghost use Rattle.std.specs.Prelude.{◌≡◌, ◌++◌, ◌∷◌, [], Some, IsTrue, List, IfOk, IfErr, OnOk, All, slice_get};
ghost use Rattle.overlay_geometry.specs.Points.{Point};
ghost use Rattle.overlay_geometry.specs.PointOf.{point_of};
ghost use Rattle.overlay_base.specs.ArrangedOf.{IsSplittable};
ghost use Rattle.overlay_base.specs.Balance.{IsBalanced};
ghost use Rattle.overlay_base.specs.SegmentOf.{segments_of, data_segments_of};
ghost use Rattle.overlay_base.specs.declared.segm.fault.Fault.TheVariants.{Memory};
ghost use Rattle.overlay_contours.specs.Contours.{steps_of};
ghost use Rattle.overlay_contours.specs.ContourSegments.{step_segments, contour_segments, are_in_range};
ghost use Rattle.overlay_contours.specs.ContoursIn.{LieInRange, AreSidesOf, IsRefusalOf};
ghost use Rattle.overlay_contours.specs.ContoursOf.{points_of, contours_of};
ghost use Rattle.overlay_contours.specs.DataContours.{all_data_contours};
ghost use Rattle.overlay_contours.specs.DataContoursOf.{data_contours_of, bare_contours_of, data_shapes_of, bare_shapes_of};
ghost use Rattle.overlay_contours.specs.Polygons.{IsPolygonOverlay};
ghost use Rattle.overlay_contours.specs.Refusals.{of_shape, IsReason};
ghost use Rattle.overlay_contours.specs.Shapes.{IsShapeOverlay, all_contours};
ghost use Rattle.overlay_contours.specs.Sources.{given_step, IsItsSource, ComeFromSources};
ghost use Rattle.overlay_contours.specs.Splittings.{by_snapping};
ghost use Rattle.overlay_contours.specs.steps.SourceGraphs.{IsSourceGraph};

use crate::contour::IntContour;
use crate::contour_steps::{DataContour, DataShape, directed_steps_of_graph, shape_steps_of_graph};
use crate::fault::ContourFault;
use crate::overlay::test_range;
use overlay_base::overlay_core::edge_data::{EdgeDataMerge, EdgeDataSplit, OverlayEdgeData};
use overlay_base::overlay_core::fill_rule::FillRule;
use overlay_base::overlay_core::overlay_rule::OverlayRule;
use overlay_base::overlay_core::solver::Solver;
use overlay_base::segm::boolean::ShapeCountBoolean;
use overlay_base::segm::fault::Fault;
use overlay_base::segm::segment::Segment;
use overlay_base::segm::shape_type::ShapeType;
use overlay_build::build::builder::GraphBuilder;
use overlay_build::build::graph::OverlayGraph;
use overlay_build::build::graph_node::OverlayNode;
use overlay_geometry::geom::point::IntPoint;
use overlay_geometry::num::OverlayInt;
use overlay_snapping::snap::solver::SnapSolver;
use std::alloc::Global;

/// A given edge: of a contour, from the point at an index to the next one, or from the last one to the first.
///
/// Segments that carry it keep it where they are turned or split. Of two that become one, the left one's is kept.
#[derive(Clone, Copy, Debug, PartialEq, Eq)]
pub struct SourceEdge {
    /// The shape that has the contour.
    pub shape_type: ShapeType,
    /// The index of the contour among those of its shape.
    pub contour: usize,
    /// The index of the point in it at which the edge starts.
    pub edge: usize,
}

impl<C: Drop> OverlayEdgeData<C> for SourceEdge {
    type Store = ();

    ghost reversed_gives = { λ source store. (source, store) };

    ghost split_gives = { λ source _ _ _ store. ((source, source), store) };

    ghost merge_gives = { λ merged store. (merged.lhs_data, store) };

    fn reversed(self, _store: &mut ()) -> SourceEdge {
        self
    }

    fn split<I: OverlayInt>(
        self,
        _at: EdgeDataSplit<I>,
        _store: &mut (),
    ) -> (SourceEdge, SourceEdge) {
        (self, self)
    }

    fn merge(merged: EdgeDataMerge<C, SourceEdge>, _store: &mut ()) -> SourceEdge
        ensures answer { result ≡ merged.lhs_data }
        ensures store { _store.new ≡ _store.old }
    {
        merged.lhs_data
    }
}

/// A segment of contours that names its edge.
pub type SourceSegment<I> = Segment<ShapeCountBoolean, I, SourceEdge>;

/// A contour whose steps name given edges.
pub type SourceContour<I> = DataContour<I, SourceEdge>;

/// A shape of such contours.
pub type SourceShape<I> = DataShape<I, SourceEdge>;

/// The overlay of `overlay_contours`, in which each step names a given edge near which it runs.
///
/// Without these names the result is an overlay as `overlay_contours` returns one. Each step, from its point to that of
/// the next step, lies within half a unit of the edge that it names, in `x` and in `y`. Where no two given edges cross
/// at a point without whole coordinates, it lies on that edge. Where several edges run along a step, it names one.
///
/// Returns what `overlay_contours` does where it is refused.
pub fn overlay_contours_with_sources<I: OverlayInt>(
    alloc: Global,
    subject: &[IntContour<I>],
    clip: &[IntContour<I>],
    solver: &Solver,
    fill_rule: FillRule,
    overlay_rule: OverlayRule,
) -> Result<Vec<SourceContour<I>>, ContourFault>
    ensures polygons { IfOk result (λ contours. IsPolygonOverlay by_snapping overlay_rule fill_rule
        (contours_of I.whole subject.now) (contours_of I.whole clip.now) (bare_contours_of I.whole contours.items)) }
    ensures sources { IfOk result (λ contours. ComeFromSources
        (contours_of I.whole subject.now) (contours_of I.whole clip.now) (data_contours_of I.whole contours.items)) }
    ensures in_range { IfOk result (λ contours. IsTrue (are_in_range (I.whole I.MIN_COORD) (I.whole I.MAX_COORD)
        (bare_contours_of I.whole contours.items))) }
    ensures refused { IfErr result (IsRefusalOf I.OverlayInt.own subject.now clip.now) }
    ensures subject_in_range { OnOk result (LieInRange I.whole I.MIN_COORD I.MAX_COORD subject.now) }
    ensures clip_in_range { OnOk result (LieInRange I.whole I.MIN_COORD I.MAX_COORD clip.now) }
{
    test_range(subject, ShapeType::Subject)?;
    test_range(clip, ShapeType::Clip)?;
    Ok(overlay_in_range(alloc, subject, clip, solver, fill_rule, overlay_rule)?)
}

/// The overlay of `overlay_shapes`, in which each step names a given edge as in `overlay_contours_with_sources`.
///
/// Returns what `overlay_contours` does where it is refused.
pub fn overlay_shapes_with_sources<I: OverlayInt>(
    alloc: Global,
    subject: &[IntContour<I>],
    clip: &[IntContour<I>],
    solver: &Solver,
    fill_rule: FillRule,
    overlay_rule: OverlayRule,
) -> Result<Vec<SourceShape<I>>, ContourFault>
    ensures shapes { IfOk result (λ shapes. IsShapeOverlay by_snapping overlay_rule fill_rule
        (contours_of I.whole subject.now) (contours_of I.whole clip.now) (bare_shapes_of I.whole shapes.items)) }
    ensures sources { IfOk result (λ shapes. ComeFromSources
        (contours_of I.whole subject.now) (contours_of I.whole clip.now)
        (all_data_contours (data_shapes_of I.whole shapes.items))) }
    ensures in_range { IfOk result (λ shapes. IsTrue (are_in_range (I.whole I.MIN_COORD) (I.whole I.MAX_COORD)
        (all_contours (bare_shapes_of I.whole shapes.items)))) }
    ensures refused { IfErr result (IsRefusalOf I.OverlayInt.own subject.now clip.now) }
    ensures subject_in_range { OnOk result (LieInRange I.whole I.MIN_COORD I.MAX_COORD subject.now) }
    ensures clip_in_range { OnOk result (LieInRange I.whole I.MIN_COORD I.MAX_COORD clip.now) }
{
    test_range(subject, ShapeType::Subject)?;
    test_range(clip, ShapeType::Clip)?;
    Ok(shapes_in_range(alloc, subject, clip, solver, fill_rule, overlay_rule)?)
}

/// The overlay of contours in range, with sources.
fn overlay_in_range<I: OverlayInt>(
    alloc: Global,
    subject: &[IntContour<I>],
    clip: &[IntContour<I>],
    solver: &Solver,
    fill_rule: FillRule,
    overlay_rule: OverlayRule,
) -> Result<Vec<SourceContour<I>>, Fault>
    requires subject { LieInRange I.whole I.MIN_COORD I.MAX_COORD subject.now }
    requires clip { LieInRange I.whole I.MIN_COORD I.MAX_COORD clip.now }
    ensures polygons { IfOk result (λ contours. IsPolygonOverlay by_snapping overlay_rule fill_rule
        (contours_of I.whole subject.now) (contours_of I.whole clip.now) (bare_contours_of I.whole contours.items)) }
    ensures sources { IfOk result (λ contours. ComeFromSources
        (contours_of I.whole subject.now) (contours_of I.whole clip.now) (data_contours_of I.whole contours.items)) }
    ensures in_range { IfOk result (λ contours. IsTrue (are_in_range (I.whole I.MIN_COORD) (I.whole I.MAX_COORD)
        (bare_contours_of I.whole contours.items))) }
    ensures refused { IfErr result (λ fault. IsReason by_snapping
        (contours_of I.whole subject.now) (contours_of I.whole clip.now) fault) }
{
    let mut builder = GraphBuilder::new(alloc);
    let graph = graph_with_sources(
        alloc,
        &mut builder,
        subject,
        clip,
        solver,
        fill_rule,
        overlay_rule,
    )?;
    let contours = directed_steps_of_graph(alloc, &graph, overlay_rule)?;
    Ok(contours)
}

/// The same in shapes.
fn shapes_in_range<I: OverlayInt>(
    alloc: Global,
    subject: &[IntContour<I>],
    clip: &[IntContour<I>],
    solver: &Solver,
    fill_rule: FillRule,
    overlay_rule: OverlayRule,
) -> Result<Vec<SourceShape<I>>, Fault>
    requires subject { LieInRange I.whole I.MIN_COORD I.MAX_COORD subject.now }
    requires clip { LieInRange I.whole I.MIN_COORD I.MAX_COORD clip.now }
    ensures shapes { IfOk result (λ shapes. IsShapeOverlay by_snapping overlay_rule fill_rule
        (contours_of I.whole subject.now) (contours_of I.whole clip.now) (bare_shapes_of I.whole shapes.items)) }
    ensures sources { IfOk result (λ shapes. ComeFromSources
        (contours_of I.whole subject.now) (contours_of I.whole clip.now)
        (all_data_contours (data_shapes_of I.whole shapes.items))) }
    ensures in_range { IfOk result (λ shapes. IsTrue (are_in_range (I.whole I.MIN_COORD) (I.whole I.MAX_COORD)
        (all_contours (bare_shapes_of I.whole shapes.items)))) }
    ensures refused { IfErr result (λ fault. IsReason by_snapping
        (contours_of I.whole subject.now) (contours_of I.whole clip.now) fault) }
{
    let mut builder = GraphBuilder::new(alloc);
    let graph = graph_with_sources(
        alloc,
        &mut builder,
        subject,
        clip,
        solver,
        fill_rule,
        overlay_rule,
    )?;
    let shapes = shape_steps_of_graph(alloc, &graph, overlay_rule)?;
    Ok(shapes)
}

/// The graph of the overlay of contours in range, whose links name given edges. It borrows from the builder.
fn graph_with_sources<'a, I: OverlayInt>(
    alloc: Global,
    builder: &'a mut GraphBuilder<ShapeCountBoolean, OverlayNode, I, SourceEdge>,
    subject: &[IntContour<I>],
    clip: &[IntContour<I>],
    solver: &Solver,
    fill_rule: FillRule,
    overlay_rule: OverlayRule,
) -> Result<OverlayGraph<'a, I, SourceEdge>, Fault>
    requires subject { LieInRange I.whole I.MIN_COORD I.MAX_COORD subject.now }
    requires clip { LieInRange I.whole I.MIN_COORD I.MAX_COORD clip.now }
    ensures graph { IfOk result (IsSourceGraph overlay_rule fill_rule
        (contours_of I.whole subject.now) (contours_of I.whole clip.now)) }
    ensures refused { IfErr result (λ fault. IsReason by_snapping
        (contours_of I.whole subject.now) (contours_of I.whole clip.now) fault) }
{
    let mut sides = segments_with_sources(alloc, subject, clip)?;
    let mut splitter = SnapSolver::new(alloc);
    splitter.split_segments(&mut sides, solver)?;
    builder.build_boolean_overlay(fill_rule, overlay_rule, solver, &sides)
}

/// The segments of `segments_of_contours`, each with the edge that it is.
///
/// All points have to be in range, as `find_out_of_range` tests. The counts balance at every point.
///
/// Returns `Fault::Memory` where a growth is refused.
pub fn segments_with_sources<I: OverlayInt>(
    alloc: Global,
    subject: &[IntContour<I>],
    clip: &[IntContour<I>],
) -> Result<Vec<SourceSegment<I>>, Fault>
    requires subject { LieInRange I.whole I.MIN_COORD I.MAX_COORD subject.now }
    requires clip { LieInRange I.whole I.MIN_COORD I.MAX_COORD clip.now }
    ensures segments { IfOk result (λ sides. AreSidesOf subject.now clip.now sides.items) }
    ensures sources { IfOk result (λ sides. All (IsItsSource (contours_of I.whole subject.now)
        (contours_of I.whole clip.now)) (data_segments_of sides.items)) }
    ensures balanced { IfOk result (λ sides. IsBalanced (segments_of sides.items)) }
    ensures splittable { IfOk result (λ sides. IsSplittable sides.items) }
    ensures fault { IfErr result (λ fault. fault ≡ Memory) }
{
    let mut sides = Vec::new(alloc);
    push_source_contours(&mut sides, subject, ShapeType::Subject)?;
    push_source_contours(&mut sides, clip, ShapeType::Clip)?;
    Ok(sides)
}

/// Appends the segments of contours of one shape.
fn push_source_contours<I: OverlayInt>(
    sides: &mut Vec<SourceSegment<I>>,
    contours: &[IntContour<I>],
    shape_type: ShapeType,
) -> Result<(), Fault>
    ensures sides { OnOk result (segments_of sides.new.items
        ≡ segments_of sides.old.items ++ contour_segments shape_type (contours_of I.whole contours.now)) }
    ensures sources { OnOk result ((subject clip : List (List Point)) →
        of_shape shape_type subject clip ≡ contours_of I.whole contours.now →
        All (IsItsSource subject clip) (data_segments_of sides.old.items) →
        All (IsItsSource subject clip) (data_segments_of sides.new.items)) }
    ensures fault { IfErr result (λ fault. fault ≡ Memory) }
{
    for (index, contour) in contours.iter().enumerate() {
        push_source_contour(sides, contour, shape_type, index)?;
    }
    Ok(())
}

/// Appends the steps of the contour at an index.
fn push_source_contour<I: OverlayInt>(
    sides: &mut Vec<SourceSegment<I>>,
    contour: &[IntPoint<I>],
    shape_type: ShapeType,
    index: usize,
) -> Result<(), Fault>
    ensures sides { OnOk result (segments_of sides.new.items
        ≡ segments_of sides.old.items ++ step_segments shape_type (steps_of (points_of I.whole contour.now))) }
    ensures sources { OnOk result ((subject clip : List (List Point)) →
        slice_get (of_shape shape_type subject clip) index ≡ Some (points_of I.whole contour.now) →
        All (IsItsSource subject clip) (data_segments_of sides.old.items) →
        All (IsItsSource subject clip) (data_segments_of sides.new.items)) }
    ensures fault { IfErr result (λ fault. fault ≡ Memory) }
{
    let Some((first, later)) = contour.split_first() else {
        return Ok(());
    };
    let mut from = *first;
    for (edge, point) in later.iter().enumerate() {
        let source = SourceEdge {
            shape_type,
            contour: index,
            edge,
        };
        push_source_step(sides, from, *point, source)?;
        from = *point;
    }
    let source = SourceEdge {
        shape_type,
        contour: index,
        edge: later.len(),
    };
    push_source_step(sides, from, *first, source)
}

/// Appends the segment of a step, where its two points differ.
fn push_source_step<I: OverlayInt>(
    sides: &mut Vec<SourceSegment<I>>,
    from: IntPoint<I>,
    to: IntPoint<I>,
    source: SourceEdge,
) -> Result<(), Fault>
    ensures sides { OnOk result (segments_of sides.new.items ≡ segments_of sides.old.items
        ++ step_segments source.shape_type (record { a = point_of I.whole from; b = point_of I.whole to } ∷ [])) }
    ensures sources { OnOk result ((subject clip : List (List Point)) →
        given_step subject clip source ≡ Some (record { a = point_of I.whole from; b = point_of I.whole to }) →
        All (IsItsSource subject clip) (data_segments_of sides.old.items) →
        All (IsItsSource subject clip) (data_segments_of sides.new.items)) }
    ensures fault { IfErr result (λ fault. fault ≡ Memory) }
{
    if let Some(side) = Segment::try_ab_and_data(from, to, source.shape_type, source, &mut ()) {
        sides.push(side)?;
    }
    Ok(())
}
