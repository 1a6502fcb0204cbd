// The arrangement of the sides of contours with their fills, and the overlays that rules make of it.
ghost use Rattle.std.specs.Prelude.{◌≡◌, [], IfOk, IfErr};
ghost use Rattle.overlay_base.specs.declared.segm.fault.Fault.TheVariants.{Memory};
ghost use Rattle.overlay_contours.specs.ContoursIn.{LieInRange};
ghost use Rattle.overlay_contours.specs.ShapesOf.{ShapesLieInRange};

use crate::contour::{BooleanSegment, IntContour, IntShape};
use crate::extract::{directed_contours_of_graph, shapes_of_graph};
use overlay_base::overlay_core::fill_rule::FillRule;
use overlay_base::overlay_core::overlay_rule::OverlayRule;
use overlay_base::segm::boolean::ShapeCountBoolean;
use overlay_base::segm::fault::Fault;
use overlay_base::segm::segment_fill::SegmentFill;
use overlay_build::build::builder::GraphBuilder;
use overlay_build::build::graph_node::OverlayNode;
use overlay_geometry::num::OverlayInt;
use std::alloc::Global;

/// The sides of contours after a split, their fills under a fill rule, what that split took, and a builder of graphs.
#[derive(Drop)]
pub(crate) struct Arranged<I: OverlayInt> {
    pub(crate) alloc: Global,
    pub(crate) sides: Vec<BooleanSegment<I>>,
    pub(crate) fill_rule: FillRule,
    pub(crate) fills: Vec<SegmentFill>,
    pub(crate) builder: GraphBuilder<ShapeCountBoolean, OverlayNode, I, ()>,
    pub(crate) passes: u128,
    pub(crate) reach: u128,
}

impl<I: OverlayInt> Arranged<I> {
    ghost use Rattle.overlay_contours.specs.Arrangements.{IsOfSome, IsOverlayOfArranged, IsShapeOverlayOfArranged, KeepsArranged};

    /// No sides yet, which takes no memory.
    pub(crate) fn new(alloc: Global) -> Arranged<I> {
        Arranged {
            alloc,
            sides: Vec::new(alloc),
            fill_rule: FillRule::EvenOdd,
            fills: Vec::new(alloc),
            builder: GraphBuilder::new(alloc),
            passes: 0,
            reach: 0,
        }
    }

    /// The overlay by a rule.
    pub(crate) fn contours(
        &mut self,
        overlay_rule: OverlayRule,
    ) -> Result<Vec<IntContour<I>>, Fault>
        requires { IsOfSome self.old }
        ensures polygons { IfOk result (IsOverlayOfArranged overlay_rule self.old) }
        ensures in_range { IfOk result (λ contours. LieInRange I.whole I.MIN_COORD I.MAX_COORD contours.items) }
        ensures kept { KeepsArranged self.old self.new }
        ensures fault { IfErr result (λ fault. fault ≡ Memory) }
    {
        let builder = &mut self.builder;
        let graph = builder.build_overlay_with_fills(overlay_rule, &self.sides, &self.fills)?;
        let contours = directed_contours_of_graph(self.alloc, &graph, overlay_rule)?;
        Ok(contours)
    }

    /// The overlay by a rule, in shapes.
    pub(crate) fn shapes(&mut self, overlay_rule: OverlayRule) -> Result<Vec<IntShape<I>>, Fault>
        requires { IsOfSome self.old }
        ensures shapes { IfOk result (IsShapeOverlayOfArranged overlay_rule self.old) }
        ensures in_range { IfOk result (λ shapes. ShapesLieInRange I.whole I.MIN_COORD I.MAX_COORD shapes.items) }
        ensures kept { KeepsArranged self.old self.new }
        ensures fault { IfErr result (λ fault. fault ≡ Memory) }
    {
        let builder = &mut self.builder;
        let graph = builder.build_overlay_with_fills(overlay_rule, &self.sides, &self.fills)?;
        let shapes = shapes_of_graph(self.alloc, &graph, overlay_rule)?;
        Ok(shapes)
    }
}
