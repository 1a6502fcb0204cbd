// The contours of a graph: its directed walks, as lists of points. Upstream: `core::extract`, with holes run clockwise.
ghost use Rattle.std.specs.Prelude.{◌≡◌, ◌<◌, false, IsTrue, IfOk, IfErr, All, map, length};
ghost use Rattle.overlay_base.specs.Rules.{holds};
ghost use Rattle.overlay_geometry.specs.PointOf.{point_of};
ghost use Rattle.overlay_base.specs.declared.segm.fault.Fault.TheVariants.{Memory};
ghost use Rattle.overlay_build.specs.DirectedWalks.{in_direction, arcs, IsFlow, contour};
ghost use Rattle.overlay_base.specs.Planar.{is_arranged};
ghost use Rattle.overlay_base.specs.declared.segm.shape_type.ShapeType.TheVariants.{Subject};
ghost use Rattle.overlay_build.specs.BoundaryOf.{arcs_by, links_by, walks_of};
ghost use Rattle.overlay_build.specs.ShapedBoundary.{in_shape};
ghost use Rattle.overlay_build.specs.GraphOf.{link_of};
ghost use Rattle.overlay_shapes.specs.Sectors.{HaveRegionOnLeft};
ghost use Rattle.overlay_contours.specs.ShapesOf.{FollowShapeWalks};
ghost use Rattle.overlay_build.specs.OverlayGraphOf.{links_of};
ghost use Rattle.overlay_contours.specs.Contours.{AreProper};
ghost use Rattle.overlay_contours.specs.ContoursOf.{points_of, contours_of};
ghost use Rattle.overlay_contours.specs.ContoursIn.{RunAlongLinks, WindAsLinks, HaveLinksAsEdges, PaintWhatIsEnclosed};

use crate::contour::{IntContour, IntShape};
use overlay_base::overlay_core::link::OverlayLink;
use overlay_base::overlay_core::overlay_rule::OverlayRule;
use overlay_base::segm::fault::Fault;
use overlay_build::build::directed_walks::directed_walks;
use overlay_build::build::graph::OverlayGraph;
use overlay_geometry::geom::point::IntPoint;
use overlay_geometry::num::OverlayInt;
use overlay_shapes::shape_walks::shape_walks;
use std::alloc::Global;

/// The directed walks of a graph as contours. Each link is an edge of one contour, once, and runs
/// in its direction: from `a` to `b` where the rule holds of the top of its fill, and else from `b`
/// to `a`. So what the rule holds of lies to the left, and the contours wind around every place as
/// the directed links do. Each contour has points, and in none two neighboring points are equal.
///
/// As many links have to start as end at each node, as they do in the graph of the rule where counts balance.
///
/// Returns `Fault::Memory` where a growth is refused.
pub fn directed_contours_of_graph<I: OverlayInt, D: Copy>(
    alloc: Global,
    graph: &OverlayGraph<'_, I, D>,
    rule: OverlayRule,
) -> Result<Vec<IntContour<I>>, Fault>
    requires { IsFlow (arcs (holds rule) (map (link_of I.whole) (links_of graph.now))) }
    ensures directed { IfOk result (λ contours. RunAlongLinks rule graph.now (contours_of I.whole contours.items)) }
    ensures winds { IfOk result (λ contours. WindAsLinks rule graph.now (contours_of I.whole contours.items)) }
    ensures edges { IfOk result (λ contours. HaveLinksAsEdges graph.now (contours_of I.whole contours.items)) }
    ensures painted { IfOk result (λ contours. PaintWhatIsEnclosed graph.now (contours_of I.whole contours.items)) }
    ensures proper { IfOk result (λ contours. AreProper (contours_of I.whole contours.items)) }
    ensures fault { IfErr result (λ fault. fault ≡ Memory) }
{
    let walks = directed_walks(alloc, graph, rule)?;
    let contours = contours_of_walks(alloc, graph, rule, &walks)?;
    Ok(contours)
}

/// The walks of a graph in shapes, as `shape_walks` gathers them, as contours. Each link is an edge of one contour,
/// once, and runs in its direction, with what the rule holds of on its left. No contour comes to a point twice.
///
/// Each shape is connected: steps lead from each of its edges to each other one, across a part of the region, or along
/// one sector of it at a point. Its first contour has its least point, in the order of points. If the rule says no of
/// the places outside, this is its outer boundary, which runs counterclockwise, and each other one is a hole, which
/// runs clockwise, as `Overlay::overlay_shapes` promises.
///
/// As many links have to start as end at each node, and the links have to be a planar arrangement, with the region on
/// the left of each, as they are in the graph of the rule where counts balance.
///
/// Returns `Fault::Memory` where a growth is refused.
pub fn shapes_of_graph<I: OverlayInt, D: Copy>(
    alloc: Global,
    graph: &OverlayGraph<'_, I, D>,
    rule: OverlayRule,
) -> Result<Vec<IntShape<I>>, Fault>
    requires flow { IsFlow (arcs_by rule graph.now) }
    requires arranged { IsTrue (is_arranged (I.whole I.MIN_COORD) (I.whole I.MAX_COORD)
        (in_shape Subject (links_by rule graph.now))) }
    requires region { HaveRegionOnLeft (holds rule false false) (links_by rule graph.now) }
    ensures shapes { IfOk result (λ shapes. FollowShapeWalks rule graph.now shapes.items) }
    ensures fault { IfErr result (λ fault. fault ≡ Memory) }
{
    let groups = shape_walks(alloc, graph, rule)?;
    let mut shapes = Vec::new(alloc);
    for walks in &groups {
        let shape = contours_of_walks(alloc, graph, rule, walks)?;
        shapes.push(shape)?;
    }
    Ok(shapes)
}

/// The contours of some walks.
fn contours_of_walks<I: OverlayInt, D: Copy>(
    alloc: Global,
    graph: &OverlayGraph<'_, I, D>,
    rule: OverlayRule,
    walks: &[Vec<usize>],
) -> Result<Vec<IntContour<I>>, Fault>
    requires { All (All (λ i. i < length (links_of graph.now))) (walks_of walks.now) }
    ensures contours { IfOk result (λ contours. contours_of I.whole contours.items
        ≡ map (contour (arcs_by rule graph.now)) (walks_of walks.now)) }
    ensures fault { IfErr result (λ fault. fault ≡ Memory) }
{
    let mut contours = Vec::new(alloc);
    for walk in walks {
        let contour = contour_of_walk(alloc, graph, rule, walk)?;
        contours.push(contour)?;
    }
    Ok(contours)
}

/// The points at which the links of a walk start, in order.
fn contour_of_walk<I: OverlayInt, D: Copy>(
    alloc: Global,
    graph: &OverlayGraph<'_, I, D>,
    rule: OverlayRule,
    walk: &[usize],
) -> Result<IntContour<I>, Fault>
    requires { All (λ i. i < length (links_of graph.now)) walk.now }
    ensures points { IfOk result (λ points. points_of I.whole points.items
        ≡ contour (arcs (holds rule) (map (link_of I.whole) (links_of graph.now))) walk.now) }
    ensures fault { IfErr result (λ fault. fault ≡ Memory) }
{
    let links = graph.links();
    let mut points = Vec::new(alloc);
    for step in walk {
        points.push(start_point(&links[*step], rule))?;
    }
    Ok(points)
}

/// The point at which a link starts in its direction.
pub(crate) fn start_point<I: OverlayInt, D: Copy>(
    link: &OverlayLink<I, D>,
    rule: OverlayRule,
) -> IntPoint<I>
    ensures { point_of I.whole result ≡ (in_direction (holds rule) (link_of I.whole link.now)).pair.a }
{
    if rule.holds_of_top(link.fill) {
        link.a.point
    } else {
        link.b.point
    }
}
