// Closed walks through the graph of a rule, along each link in the direction that has what the rule holds of on its
// left.
ghost use Rattle.std.specs.Prelude.{◌≡◌, ◌≢◌, ℕ, ◌<◌, ◌≤◌, true, false, map, length, slice_index_or, slice_set, ◌++◌, List, IfOk, IfErr, OnOk};
ghost use Rattle.overlay_base.specs.Rules.{holds};
ghost use Rattle.overlay_base.specs.declared.segm.fault.Fault.TheVariants.{Memory};
ghost use Rattle.overlay_build.specs.DirectedWalks.{in_direction, arcs, IsFlow, IsDirectedWalk, AreDirectedWalks};
ghost use Rattle.overlay_build.specs.GraphOf.{link_of};
ghost use Rattle.overlay_build.specs.NodeIndexes.{indexes_of};
ghost use Rattle.overlay_build.specs.OverlayGraphOf.{nodes_of, links_of};
ghost use Rattle.overlay_build.specs.steps.FreeArcs.{unused_starts, starts_of, AreUnusedFlow, ArePassedOver};
ghost use Rattle.overlay_build.specs.steps.UnusedLinks.{AreCounted};
ghost use Rattle.overlay_build.specs.BoundaryOf.{arcs_by, walks_of};

use crate::build::graph::OverlayGraph;
use overlay_base::overlay_core::link::OverlayLink;
use overlay_base::overlay_core::overlay_rule::OverlayRule;
use overlay_base::segm::fault::Fault;
use overlay_geometry::num::OverlayInt;
use std::alloc::Global;

/// Closed walks along the links of a graph, each in its direction: from `a` to `b` where the rule holds of the top of
/// its fill, and else from `b` to `a`. So what the rule holds of lies to the left of the way.
///
/// Each walk lists the indexes of links that lead from a node on to others and back to it, where it
/// ends at once. Every link is in exactly one place of exactly one walk. The points at which the
/// links of a walk start are a contour whose edges are just these links.
///
/// As many links have to start as end at each node, as they do in the graph of the rule where counts balance. Takes
/// time linear in links and nodes.
///
/// Returns `Fault::Memory` where a growth is refused.
pub fn directed_walks<I: OverlayInt, D: Copy>(
    alloc: Global,
    graph: &OverlayGraph<'_, I, D>,
    rule: OverlayRule,
) -> Result<Vec<Vec<usize>>, Fault>
    requires flow { IsFlow (arcs (holds rule) (map (link_of I.whole) (links_of graph.now))) }
    ensures walks { IfOk result (λ walks. AreDirectedWalks (arcs_by rule graph.now) (walks_of walks.items)) }
    ensures fault { IfErr result (λ fault. fault ≡ Memory) }
{
    let count = graph.links().len();
    let mut used = vec![in alloc; false; count]?;
    let mut cursors = vec![in alloc; 0; graph.nodes().len()]?;
    let mut walks = Vec::new(alloc);
    for first in 0..count {
        if !used[first] {
            let walk = directed_walk_from(alloc, graph, rule, &mut used, &mut cursors, first)?;
            walks.push(walk)?;
        }
    }
    Ok(walks)
}

/// Walks along an unused link and on over unused links, up to the first return to the node where it began.
fn directed_walk_from<I: OverlayInt, D: Copy>(
    alloc: Global,
    graph: &OverlayGraph<'_, I, D>,
    rule: OverlayRule,
    used: &mut [bool],
    cursors: &mut [usize],
    first: usize,
) -> Result<Vec<usize>, Fault>
    requires first { first < length (links_of graph.now) }
    requires unused { slice_index_or used.old first false ≡ false }
    requires flags { length used.old ≡ length (links_of graph.now) }
    requires passed { ArePassedOver (arcs (holds rule) (map (link_of I.whole) (links_of graph.now)))
        (map indexes_of (nodes_of graph.now)) used.old cursors.old }
    requires level { AreUnusedFlow (arcs (holds rule) (map (link_of I.whole) (links_of graph.now))) used.old }
    ensures closed { IfOk result (λ walk.
        IsDirectedWalk (arcs (holds rule) (map (link_of I.whole) (links_of graph.now))) walk.items) }
    ensures counted { IfOk result (λ walk. (walked : List ℕ) → AreCounted used.old walked
        → AreCounted used.new (walked ++ walk.items)) }
    ensures kept { OnOk result ((i : ℕ) → slice_index_or used.old i false ≡ true → slice_index_or used.new i false
        ≡ true) }
    ensures begun { OnOk result (slice_index_or used.new first false ≡ true) }
    ensures passed { OnOk result (ArePassedOver (arcs (holds rule) (map (link_of I.whole) (links_of graph.now)))
        (map indexes_of (nodes_of graph.now)) used.new cursors.new) }
    ensures level { OnOk result (AreUnusedFlow (arcs (holds rule) (map (link_of I.whole) (links_of graph.now)))
        used.new) }
    ensures fault { IfErr result (λ fault. fault ≡ Memory) }
{
    let links = graph.links();
    let start = start_of(&links[first], rule);
    let mut node = end_of(&links[first], rule);
    let mut walk = Vec::new(alloc);
    used[first] = true;
    walk.push(first)?;
    while node != start {
        let next = take_arc(graph, rule, used, cursors, node);
        walk.push(next)?;
        node = end_of(&links[next], rule);
    }
    Ok(walk)
}

/// Uses an unused link that starts at a node where one is left.
fn take_arc<I: OverlayInt, D: Copy>(
    graph: &OverlayGraph<'_, I, D>,
    rule: OverlayRule,
    used: &mut [bool],
    cursors: &mut [usize],
    node: usize,
) -> usize
    requires node { node < length (nodes_of graph.now) }
    requires flags { length used.old ≡ length (links_of graph.now) }
    requires passed { ArePassedOver (arcs (holds rule) (map (link_of I.whole) (links_of graph.now)))
        (map indexes_of (nodes_of graph.now)) used.old cursors.old }
    requires left { 0 < unused_starts used.old (arcs (holds rule) (map (link_of I.whole) (links_of graph.now)))
        node }
    ensures link { result < length (links_of graph.now) }
    ensures unused { slice_index_or used.old result false ≡ false }
    ensures used { used.new ≡ slice_set used.old result true }
    ensures starts { slice_index_or (starts_of (arcs (holds rule) (map (link_of I.whole) (links_of graph.now)))) result 0
        ≡ node }
    ensures passed { ArePassedOver (arcs (holds rule) (map (link_of I.whole) (links_of graph.now)))
        (map indexes_of (nodes_of graph.now)) used.new cursors.new }
{
    let indexes = graph.nodes()[node].indices();
    let place = next_free(indexes, graph.links(), rule, used, node, cursors[node]);
    cursors[node] = place;
    let link = indexes[place];
    used[link] = true;
    link
}

/// The place of the first of these indexes whose link is unused and starts at a node, where none before a place is; or
/// how many they are.
fn next_free<I: OverlayInt, D: Copy>(
    indexes: &[usize],
    links: &[OverlayLink<I, D>],
    rule: OverlayRule,
    used: &[bool],
    node: usize,
    from: usize,
) -> usize
    requires within { from ≤ length indexes.now }
    requires flags { length used.now ≡ length links.now }
    requires links { (k : ℕ) → k < length indexes.now → slice_index_or indexes.now k 0 < length links.now }
    requires passed { (k : ℕ) → k < from → slice_index_or used.now (slice_index_or indexes.now k 0) false ≡ false
        → slice_index_or (starts_of (arcs (holds rule) (map (link_of I.whole) links.now)))
        (slice_index_or indexes.now k 0) 0 ≢ node }
    ensures within { result ≤ length indexes.now }
    ensures passed { (k : ℕ) → k < result → slice_index_or used.now (slice_index_or indexes.now k 0) false ≡ false
        → slice_index_or (starts_of (arcs (holds rule) (map (link_of I.whole) links.now)))
        (slice_index_or indexes.now k 0) 0 ≢ node }
    ensures unused { result < length indexes.now → slice_index_or used.now (slice_index_or indexes.now result 0) false
        ≡ false }
    ensures starts { result < length indexes.now
        → slice_index_or (starts_of (arcs (holds rule) (map (link_of I.whole) links.now)))
        (slice_index_or indexes.now result 0) 0 ≡ node }
{
    for place in from..indexes.len() {
        let link = indexes[place];
        if !used[link] && start_of(&links[link], rule) == node {
            return place;
        }
    }
    indexes.len()
}

/// The number of the node at which a link starts in its direction.
pub fn start_of<I: OverlayInt, D: Copy>(link: &OverlayLink<I, D>, rule: OverlayRule) -> usize
    ensures { result ≡ (in_direction (holds rule) (link_of I.whole link.now)).a_node }
{
    if rule.holds_of_top(link.fill) {
        link.a.id
    } else {
        link.b.id
    }
}

/// The number of the node at which a link ends in its direction.
pub fn end_of<I: OverlayInt, D: Copy>(link: &OverlayLink<I, D>, rule: OverlayRule) -> usize
    ensures { result ≡ (in_direction (holds rule) (link_of I.whole link.now)).b_node }
{
    if rule.holds_of_top(link.fill) {
        link.b.id
    } else {
        link.a.id
    }
}
