// Directed walks along the links that lead on, cut where they come to a node again, so that none comes to a node twice.
// This project's own.
ghost use Rattle.std.specs.Prelude.{◌≡◌, ℕ, ◌<◌, ◌+◌, ◌==◌, true, false, length, All, count_by, slice_index_or, IfOk, IfErr, OnOk};
ghost use Rattle.overlay_base.specs.declared.segm.fault.Fault.TheVariants.{Memory};
ghost use Rattle.overlay_build.specs.BoundaryOf.{arcs_by, walks_of};
ghost use Rattle.overlay_build.specs.DirectedWalks.{AreDirectedWalks};
ghost use Rattle.overlay_build.specs.OverlayGraphOf.{nodes_of};
ghost use Rattle.overlay_shapes.specs.SimpleWalks.{PassesOnce};
ghost use Rattle.overlay_shapes.specs.steps.CutWalks.{IsClosedChain, AppendsParts};
ghost use Rattle.overlay_shapes.specs.steps.Cycles.{IsOneToOne, IsCycle, AreOnOneCycle, times_used, AreUsedBack};
ghost use Rattle.overlay_shapes.specs.steps.LeadOn.{LeadOn};

use overlay_base::overlay_core::link::OverlayLink;
use overlay_base::overlay_core::overlay_rule::OverlayRule;
use overlay_base::segm::fault::Fault;
use overlay_build::build::directed_walks::{end_of, start_of};
use overlay_build::build::graph::OverlayGraph;
use overlay_geometry::num::OverlayInt;
use std::alloc::Global;

/// Closed walks, each link in its direction, none of which comes to a node twice: the cycles along
/// `next`, each of which is cut where it comes to a node again. Every link is in exactly one walk,
/// once. So the points at which the links of a walk start are a simple polygon.
///
/// At the index of each link `next` has the index of the one that leads on from it. Takes time linear in links and nodes.
///
/// Returns `Fault::Memory` where a growth is refused.
pub fn simple_walks<I: OverlayInt, D: Copy>(
    alloc: Global,
    graph: &OverlayGraph<'_, I, D>,
    rule: OverlayRule,
    next: &[usize],
) -> Result<Vec<Vec<usize>>, Fault>
    requires next { LeadOn (arcs_by rule graph.now) next.now }
    ensures walks { IfOk result (λ walks. AreDirectedWalks (arcs_by rule graph.now) (walks_of walks.items)) }
    ensures simple { IfOk result (λ walks. All (PassesOnce (arcs_by rule graph.now)) (walks_of walks.items)) }
    ensures along { IfOk result (λ walks. All (AreOnOneCycle next.now) (walks_of walks.items)) }
    ensures fault { IfErr result (λ fault. fault ≡ Memory) }
{
    let mut used = vec![in alloc; false; next.len()]?;
    let mut places = vec![in alloc; 0; graph.nodes().len()]?;
    let mut simple = Vec::new(alloc);
    for first in 0..next.len() {
        if !used[first] {
            let cycle = cycle_from(alloc, next, &mut used, first)?;
            cut_walk(alloc, graph, rule, &cycle, &mut places, &mut simple)?;
        }
    }
    Ok(simple)
}

/// The cycle along `next` from an unused number. Its numbers are used from then on.
fn cycle_from(
    alloc: Global,
    next: &[usize],
    used: &mut [bool],
    first: usize,
) -> Result<Vec<usize>, Fault>
    requires next { IsOneToOne next.now }
    requires flags { length used.old ≡ length next.now }
    requires first { first < length next.now }
    requires unused { slice_index_or used.old first false ≡ false }
    requires back { AreUsedBack next.now used.old }
    ensures cycle { IfOk result (λ cycle. IsCycle next.now cycle.items) }
    ensures counted { IfOk result (λ cycle. (i : ℕ) → times_used used.new i
        ≡ times_used used.old i + count_by (λ j. j == i) cycle.items) }
    ensures begun { OnOk result (slice_index_or used.new first false ≡ true) }
    ensures back { OnOk result (AreUsedBack next.now used.new) }
    ensures fault { IfErr result (λ fault. fault ≡ Memory) }
{
    let mut cycle = Vec::new(alloc);
    let mut at = first;
    while !used[at] {
        used[at] = true;
        cycle.push(at)?;
        at = next[at];
    }
    Ok(cycle)
}

/// Appends the parts of a closed walk to others: along the walk, whenever it comes to a node at which a link of the path
/// starts that is not cut off yet, what leads from there is cut off.
fn cut_walk<I: OverlayInt, D: Copy>(
    alloc: Global,
    graph: &OverlayGraph<'_, I, D>,
    rule: OverlayRule,
    walk: &[usize],
    places: &mut [usize],
    simple: &mut Vec<Vec<usize>>,
) -> Result<(), Fault>
    requires walk { IsClosedChain (arcs_by rule graph.now) walk.now }
    requires places { length places.old ≡ length (nodes_of graph.now) }
    ensures parts { OnOk result (AppendsParts (arcs_by rule graph.now) walk.now (walks_of simple.old.items)
        (walks_of simple.new.items)) }
    ensures fault { IfErr result (λ fault. fault ≡ Memory) }
{
    let links = graph.links();
    let mut path = Vec::new(alloc);
    for step in walk {
        let link = &links[*step];
        places[start_of(link, rule)] = path.len();
        path.push(*step)?;
        let node = end_of(link, rule);
        let place = places[node];
        if place < path.len() && start_of(&links[path[place]], rule) == node {
            let mut part = Vec::new(alloc);
            part.extend_from_slice(&path[place..])?;
            path.truncate(place);
            simple.push(part)?;
        }
    }
    Ok(())
}
