// Which link leads on along a sector of the region at a node, by angle. This project's own.
ghost use Rattle.std.specs.Prelude.{◌≡◌, ◌≢◌, ℕ, ◌<◌, All, IfErr, IfOk, IsTrue, OnOk, false, length, map, slice_index, slice_index_or};
ghost use Rattle.overlay_base.specs.Planar.{is_arranged};
ghost use Rattle.overlay_base.specs.Rules.{holds};
ghost use Rattle.overlay_base.specs.declared.segm.fault.Fault.TheVariants.{Memory};
ghost use Rattle.overlay_base.specs.declared.segm.shape_type.ShapeType.TheVariants.{Subject};
ghost use Rattle.overlay_build.specs.BoundaryOf.{arcs_by, links_by, whole_links};
ghost use Rattle.overlay_build.specs.DirectedWalks.{IsFlow, no_link};
ghost use Rattle.overlay_build.specs.OverlayGraphOf.{nodes_of};
ghost use Rattle.overlay_build.specs.ShapedBoundary.{in_shape};
ghost use Rattle.overlay_shapes.specs.Sectors.{HaveRegionOnLeft, TurnsInto};
ghost use Rattle.overlay_shapes.specs.steps.LeadOn.{LeadOn};
ghost use Rattle.overlay_shapes.specs.steps.Rays.{indexes_at, led_on, ray_at, ray_before, rays_of, AreAround};

use crate::ray::Ray;
use overlay_base::overlay_core::overlay_rule::OverlayRule;
use overlay_base::segm::fault::Fault;
use overlay_build::build::graph::OverlayGraph;
use overlay_geometry::num::OverlayInt;
use std::alloc::{AllocError, Global};

/// For each link the one that leads on along the same sector of the region: of those that start where it ends, the
/// first one clockwise from it. A walk along these goes around one piece of the region, also where pieces touch in a
/// point.
///
/// Takes time linear in links and nodes, and `m log m` more for each node with `m` links, if they are more than two.
/// Returns `Fault::Memory` where a growth is refused.
pub(crate) fn links_along_sectors<I: OverlayInt, D: Copy>(
    alloc: Global,
    graph: &OverlayGraph<'_, I, D>,
    rule: OverlayRule,
) -> Result<Vec<usize>, Fault>
    requires flow { IsFlow (arcs_by rule graph.now) }
    requires arranged { IsTrue (is_arranged (I.whole I.MIN_COORD) (I.whole I.MAX_COORD)
        (in_shape Subject (links_by rule graph.now))) }
    requires region { HaveRegionOnLeft (holds rule false false) (links_by rule graph.now) }
    ensures next { IfOk result (λ next. LeadOn (arcs_by rule graph.now) next.items) }
    ensures fault { IfErr result (λ fault. fault ≡ Memory) }
{
    let mut next = vec![in alloc; 0; graph.links().len()]?;
    let mut rays = Vec::new(alloc);
    for node in 0..graph.nodes().len() {
        lead_on_at(graph, rule, node, &mut rays, &mut next)?;
    }
    Ok(next)
}

/// Stores for each link that ends at a node in its direction the one that leads on from it.
fn lead_on_at<I: OverlayInt, D: Copy>(
    graph: &OverlayGraph<'_, I, D>,
    rule: OverlayRule,
    node: usize,
    rays: &mut Vec<Ray<I>>,
    next: &mut [usize],
) -> Result<(), AllocError>
    requires node { node < length (nodes_of graph.now) }
    requires next { length next.old ≡ length (arcs_by rule graph.now) }
    requires flow { IsFlow (arcs_by rule graph.now) }
    requires arranged { IsTrue (is_arranged (I.whole I.MIN_COORD) (I.whole I.MAX_COORD)
        (in_shape Subject (links_by rule graph.now))) }
    requires region { HaveRegionOnLeft (holds rule false false) (links_by rule graph.now) }
    ensures turns { OnOk result ((i : ℕ) → i < length (arcs_by rule graph.now)
        → (slice_index_or (arcs_by rule graph.now) i no_link).b_node ≡ node
        → TurnsInto (arcs_by rule graph.now) i (slice_index next.new i)) }
    ensures others { OnOk result ((i : ℕ) → i < length (arcs_by rule graph.now)
        → (slice_index_or (arcs_by rule graph.now) i no_link).b_node ≢ node
        → slice_index next.new i ≡ slice_index next.old i) }
{
    rays_around(graph, rule, node, rays)?;
    lead_around(rays, next);
    Ok(())
}

/// Collects the rays from a node, counterclockwise around it.
fn rays_around<I: OverlayInt, D: Copy>(
    graph: &OverlayGraph<'_, I, D>,
    rule: OverlayRule,
    node: usize,
    rays: &mut Vec<Ray<I>>,
) -> Result<(), AllocError>
    requires node { node < length (nodes_of graph.now) }
    requires arranged { IsTrue (is_arranged (I.whole I.MIN_COORD) (I.whole I.MAX_COORD)
        (in_shape Subject (links_by rule graph.now))) }
    ensures { OnOk result (AreAround (holds rule) (whole_links graph.now) node (indexes_at graph.now node)
        (rays_of rays.new.items)) }
{
    collect_rays(graph, rule, node, rays)?;
    if rays.len() > 2 {
        rays.sort_by(|ray, other| ray.cmp_around(other))?;
    }
    Ok(())
}

/// Collects the rays from a node, in the order of its links.
fn collect_rays<I: OverlayInt, D: Copy>(
    graph: &OverlayGraph<'_, I, D>,
    rule: OverlayRule,
    node: usize,
    rays: &mut Vec<Ray<I>>,
) -> Result<(), AllocError>
    requires node { node < length (nodes_of graph.now) }
    requires arranged { IsTrue (is_arranged (I.whole I.MIN_COORD) (I.whole I.MAX_COORD)
        (in_shape Subject (links_by rule graph.now))) }
    ensures { OnOk result (rays_of rays.new.items
        ≡ map (ray_at (holds rule) (whole_links graph.now) node) (indexes_at graph.now node)) }
{
    let links = graph.links();
    rays.clear();
    for index in graph.nodes()[node].indices() {
        rays.push(Ray::new(*index, &links[*index], rule, node))?;
    }
    Ok(())
}

/// Stores for each link that comes in the one before it, of rays in counterclockwise order around a node.
fn lead_around<I: OverlayInt>(rays: &[Ray<I>], next: &mut [usize])
    requires { All (λ ray. ray.link < length next.old) (rays_of rays.now) }
    ensures { next.new ≡ led_on (ray_before (rays_of rays.now) 0).link (rays_of rays.now) next.old }
{
    if let Some(last) = rays.last() {
        let mut before = last.link;
        for ray in rays {
            if ray.comes_in {
                next[ray.link] = before;
            }
            before = ray.link;
        }
    }
}
