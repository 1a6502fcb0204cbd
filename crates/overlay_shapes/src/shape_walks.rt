// The walks of a graph in shapes: each outer boundary with its holes. This project's own; upstream: `core::extract`.
ghost use Rattle.std.specs.Prelude.{◌≡◌, false, IsTrue, IfOk, IfErr};
ghost use Rattle.overlay_base.specs.Planar.{is_arranged};
ghost use Rattle.overlay_base.specs.Rules.{holds};
ghost use Rattle.overlay_base.specs.declared.segm.fault.Fault.TheVariants.{Memory};
ghost use Rattle.overlay_base.specs.declared.segm.shape_type.ShapeType.TheVariants.{Subject};
ghost use Rattle.overlay_build.specs.BoundaryOf.{arcs_by, links_by};
ghost use Rattle.overlay_build.specs.DirectedWalks.{IsFlow};
ghost use Rattle.overlay_build.specs.OverlayGraphOf.{whole_graph};
ghost use Rattle.overlay_build.specs.ShapedBoundary.{in_shape};
ghost use Rattle.overlay_shapes.specs.Gathered.{groups_of};
ghost use Rattle.overlay_shapes.specs.Sectors.{HaveRegionOnLeft};
ghost use Rattle.overlay_shapes.specs.ShapeWalks.{AreShapeWalks};
ghost use Rattle.overlay_sweep.specs.Supports.{AreSupports};

use crate::classes::leaders_of;
use crate::fronts::fronts_of;
use crate::gather::gather;
use crate::joins::{join_supports, joins_along};
use crate::sectors::links_along_sectors;
use crate::simple_walks::simple_walks;
use overlay_base::overlay_core::overlay_rule::OverlayRule;
use overlay_base::segm::fault::Fault;
use overlay_base::segm::shape_type::ShapeType;
use overlay_build::build::boundary::directed_segments;
use overlay_build::build::graph::OverlayGraph;
use overlay_geometry::num::OverlayInt;
use overlay_sweep::build::scan_rows::ScanRows;
use overlay_sweep::build::supports::supports;
use std::alloc::Global;

/// The links of a graph in closed walks, and these in shapes. No walk comes to a node twice. The first walk of a shape has
/// its first link: the one with the least start, and of those with that start the lowest by angle.
///
/// Two links are in one shape exactly where steps lead from the one to the other: from a link to the one that leads on
/// from it along a sector of the region, or from a link to its support, if the rule says of the place between them
/// something else than of those outside. So where the rule says no of the places outside the first walk of a shape is
/// its outer boundary, and the others are its holes. Pieces of the region that only touch in points are shapes of their
/// own.
///
/// As many links have to start as end at each node, the links have to be a planar arrangement, and each has to have on
/// its left what the rule holds of, as they do in the graph of the rule where counts balance.
///
/// Returns `Fault::Memory` where a growth is refused.
pub fn shape_walks<I: OverlayInt, D: Copy>(
    alloc: Global,
    graph: &OverlayGraph<'_, I, D>,
    rule: OverlayRule,
) -> Result<Vec<Vec<Vec<usize>>>, Fault>
    requires flow { IsFlow (arcs_by rule graph.now) }
    requires arranged { IsTrue (is_arranged (I.whole I.MIN_COORD) (I.whole I.MAX_COORD)
        (in_shape Subject (links_by rule graph.now))) }
    requires region { HaveRegionOnLeft (holds rule false false) (links_by rule graph.now) }
    ensures shapes { IfOk result (λ shapes.
        AreShapeWalks (holds rule) (whole_graph graph.now) (arcs_by rule graph.now) (groups_of shapes.items)) }
    ensures fault { IfErr result (λ fault. fault ≡ Memory) }
{
    let next = links_along_sectors(alloc, graph, rule)?;
    let walks = simple_walks(alloc, graph, rule, &next)?;
    let below = supports_of_links(alloc, graph, rule)?;
    let links = graph.links();
    let mut joins = joins_along(alloc, &next)?;
    join_supports(&mut joins, links, rule, &below)?;
    let leaders = leaders_of(alloc, links.len(), &joins)?;
    let fronts = fronts_of(alloc, links, &leaders)?;
    let shapes = gather(alloc, &walks, &leaders, &fronts)?;
    Ok(shapes)
}

/// For each link the index of its support, or the number of links.
fn supports_of_links<I: OverlayInt, D: Copy>(
    alloc: Global,
    graph: &OverlayGraph<'_, I, D>,
    rule: OverlayRule,
) -> Result<Vec<usize>, Fault>
    requires { IsTrue (is_arranged (I.whole I.MIN_COORD) (I.whole I.MAX_COORD)
        (in_shape Subject (links_by rule graph.now))) }
    ensures supports { IfOk result (λ supports. AreSupports (in_shape Subject (links_by rule graph.now))
        supports.items) }
    ensures fault { IfErr result (λ fault. fault ≡ Memory) }
{
    let segments = directed_segments(alloc, graph, rule, ShapeType::Subject)?;
    let mut rows = ScanRows::new(alloc);
    supports(alloc, &mut rows, &segments)
}
