// Contours whose steps have data: each has that of the link that it runs along. This project's own.
ghost use Rattle.std.specs.Prelude.{◌≡◌, ◌<◌, false, IsTrue, IfOk, IfErr, All, map, length};
ghost use Rattle.overlay_base.specs.Planar.{is_arranged};
ghost use Rattle.overlay_base.specs.Rules.{holds};
ghost use Rattle.overlay_base.specs.declared.segm.fault.Fault.TheVariants.{Memory};
ghost use Rattle.overlay_base.specs.declared.segm.shape_type.ShapeType.TheVariants.{Subject};
ghost use Rattle.overlay_build.specs.BoundaryOf.{arcs_by, links_by, walks_of};
ghost use Rattle.overlay_build.specs.DirectedWalks.{arcs, IsFlow};
ghost use Rattle.overlay_build.specs.GraphOf.{link_of};
ghost use Rattle.overlay_build.specs.OverlayGraphOf.{links_of};
ghost use Rattle.overlay_build.specs.ShapedBoundary.{in_shape};
ghost use Rattle.overlay_shapes.specs.Sectors.{HaveRegionOnLeft};
ghost use Rattle.overlay_contours.specs.Contours.{AreProper};
ghost use Rattle.overlay_contours.specs.ContoursIn.{RunAlongLinks, WindAsLinks, HaveLinksAsEdges, PaintWhatIsEnclosed};
ghost use Rattle.overlay_contours.specs.DataContoursOf.{data_step_of, data_contours_of, bare_contours_of, FollowDirectedWalks, FollowWalksInShapes, IsStepsOfWalk, AreStepsOfWalks};

use crate::extract::start_point;
use overlay_base::overlay_core::overlay_rule::OverlayRule;
use overlay_base::segm::fault::Fault;
use overlay_build::build::directed_walks::directed_walks;
use overlay_build::build::graph::OverlayGraph;
use overlay_geometry::geom::point::IntPoint;
use overlay_geometry::num::OverlayInt;
use overlay_shapes::shape_walks::shape_walks;
use std::alloc::Global;

/// A step of a contour: from its point to that of the next step, and from the last one to the first.
#[derive(Clone, Copy, Debug, PartialEq, Eq)]
pub struct ContourStep<I, D> {
    /// Where the step starts.
    pub point: IntPoint<I>,
    /// The data of what it runs along.
    pub edge_data: D,
}

/// A contour whose steps have data.
pub type DataContour<I, D> = Vec<ContourStep<I, D>>;

/// A shape whose contours have data.
pub type DataShape<I, D> = Vec<DataContour<I, D>>;

/// The directed walks of a graph as contours whose steps have data: each has that of the link along which it runs.
/// Without the data these are contours as `directed_contours_of_graph` returns them.
///
/// As many links have to start as end at each node, as they do in the graph of the rule where counts balance.
///
/// Returns `Fault::Memory` where a growth is refused.
pub fn directed_steps_of_graph<I: OverlayInt, D: Copy>(
    alloc: Global,
    graph: &OverlayGraph<'_, I, D>,
    rule: OverlayRule,
) -> Result<Vec<DataContour<I, D>>, Fault>
    requires { IsFlow (arcs (holds rule) (map (link_of I.whole) (links_of graph.now))) }
    ensures walks { IfOk result (λ contours. FollowDirectedWalks rule graph.now contours.items) }
    ensures directed { IfOk result (λ contours.
        RunAlongLinks rule graph.now (bare_contours_of I.whole contours.items)) }
    ensures winds { IfOk result (λ contours. WindAsLinks rule graph.now (bare_contours_of I.whole contours.items)) }
    ensures edges { IfOk result (λ contours. HaveLinksAsEdges graph.now (bare_contours_of I.whole contours.items)) }
    ensures painted { IfOk result (λ contours.
        PaintWhatIsEnclosed graph.now (bare_contours_of I.whole contours.items)) }
    ensures proper { IfOk result (λ contours. AreProper (bare_contours_of I.whole contours.items)) }
    ensures fault { IfErr result (λ fault. fault ≡ Memory) }
{
    let walks = directed_walks(alloc, graph, rule)?;
    let contours = steps_of_walks(alloc, graph, rule, &walks)?;
    Ok(contours)
}

/// The walks of a graph in shapes, as `shapes_of_graph` returns them, as contours whose steps have data: each has that
/// of the link along which it runs.
///
/// What is required of the graph is what `shapes_of_graph` requires.
///
/// Returns `Fault::Memory` where a growth is refused.
pub fn shape_steps_of_graph<I: OverlayInt, D: Copy>(
    alloc: Global,
    graph: &OverlayGraph<'_, I, D>,
    rule: OverlayRule,
) -> Result<Vec<DataShape<I, D>>, Fault>
    requires flow { IsFlow (arcs_by rule graph.now) }
    requires arranged { IsTrue (is_arranged (I.whole I.MIN_COORD) (I.whole I.MAX_COORD)
        (in_shape Subject (links_by rule graph.now))) }
    requires region { HaveRegionOnLeft (holds rule false false) (links_by rule graph.now) }
    ensures shapes { IfOk result (λ shapes. FollowWalksInShapes rule graph.now shapes.items) }
    ensures fault { IfErr result (λ fault. fault ≡ Memory) }
{
    let groups = shape_walks(alloc, graph, rule)?;
    let mut shapes = Vec::new(alloc);
    for walks in &groups {
        let shape = steps_of_walks(alloc, graph, rule, walks)?;
        shapes.push(shape)?;
    }
    Ok(shapes)
}

/// The steps of some walks.
fn steps_of_walks<I: OverlayInt, D: Copy>(
    alloc: Global,
    graph: &OverlayGraph<'_, I, D>,
    rule: OverlayRule,
    walks: &[Vec<usize>],
) -> Result<Vec<DataContour<I, D>>, Fault>
    requires { All (All (λ i. i < length (links_of graph.now))) (walks_of walks.now) }
    ensures steps { IfOk result (λ contours. AreStepsOfWalks I.whole (holds rule) (links_of graph.now)
        (walks_of walks.now) (data_contours_of I.whole contours.items)) }
    ensures fault { IfErr result (λ fault. fault ≡ Memory) }
{
    let mut contours = Vec::new(alloc);
    for walk in walks {
        let contour = steps_of_walk(alloc, graph, rule, walk)?;
        contours.push(contour)?;
    }
    Ok(contours)
}

/// The steps of a walk: from the points at which its links start, with their data.
fn steps_of_walk<I: OverlayInt, D: Copy>(
    alloc: Global,
    graph: &OverlayGraph<'_, I, D>,
    rule: OverlayRule,
    walk: &[usize],
) -> Result<DataContour<I, D>, Fault>
    requires { All (λ i. i < length (links_of graph.now)) walk.now }
    ensures steps { IfOk result (λ steps. IsStepsOfWalk I.whole (holds rule) (links_of graph.now) walk.now
        (map (data_step_of I.whole) steps.items)) }
    ensures fault { IfErr result (λ fault. fault ≡ Memory) }
{
    let links = graph.links();
    let mut steps = Vec::new(alloc);
    for index in walk {
        let link = &links[*index];
        let step = ContourStep {
            point: start_point(link, rule),
            edge_data: link.edge_data,
        };
        steps.push(step)?;
    }
    Ok(steps)
}
