// Closed walks through a graph in which an even number of links meets at each node.
ghost use Rattle.std.specs.Prelude.{◌≡◌, ℕ, ◌<◌, ◌≤◌, true, false, IsTrue, [], map, length, slice_index_or, slice_set, ◌++◌, List, IfOk, IfErr, OnOk};
ghost use Rattle.overlay_base.specs.declared.segm.fault.Fault.TheVariants.{Memory};
ghost use Rattle.overlay_build.specs.Graph.{Link, has_even_nodes};
ghost use Rattle.overlay_build.specs.GraphOf.{graph_with, link_of};
ghost use Rattle.overlay_build.specs.NodeIndexes.{indexes_of};
ghost use Rattle.overlay_build.specs.OverlayGraphOf.{nodes_of, links_of};
ghost use Rattle.overlay_build.specs.steps.UnusedLinks.{meets, unused_degree, AreUnusedEven, AreCounted, ArePassed};
ghost use Rattle.overlay_build.specs.Walks.{IsClosedWalk, IsFirstReturn, AreClosedWalks};
ghost use Rattle.overlay_build.specs.BoundaryOf.{whole_links, walks_of};

use crate::build::graph::OverlayGraph;
use overlay_base::segm::fault::Fault;
use overlay_geometry::num::OverlayInt;
use std::alloc::Global;

/// Closed walks over the links of a graph: each walk lists the indexes of links that lead from a
/// node back to it, and every link is in exactly one place of exactly one walk. A walk comes back
/// to the node where it begins at its end alone; other nodes it may meet more than once.
///
/// An even number of links has to meet at each node, as `has_even_nodes` tests. A node's links are
/// gone over once: the search for an unused one goes on where the last one at that node was found.
///
/// Returns `Fault::Memory` where a growth is refused.
pub fn closed_walks<I: OverlayInt, D: Copy>(
    alloc: Global,
    graph: &OverlayGraph<'_, I, D>,
) -> Result<Vec<Vec<usize>>, Fault>
    requires even { IsTrue (has_even_nodes (graph_with I.whole (links_of graph.now))) }
    ensures walks { IfOk result (λ walks. AreClosedWalks (whole_links graph.now) (walks_of walks.items)) }
    ensures fault { IfErr result (λ fault. fault ≡ Memory) }
{
    let count = graph.links().len();
    let mut used = vec![in alloc; false; count]?;
    let mut cursors = vec![in alloc; 0; graph.nodes().len()]?;
    let mut walks = Vec::new(alloc);
    for first in 0..count {
        if !used[first] {
            let walk = walk_from(alloc, graph, &mut used, &mut cursors, first)?;
            walks.push(walk)?;
        }
    }
    Ok(walks)
}

/// Walks along an unused link and on over unused links, up to the first return to the node where it began.
fn walk_from<I: OverlayInt, D: Copy>(
    alloc: Global,
    graph: &OverlayGraph<'_, I, D>,
    used: &mut [bool],
    cursors: &mut [usize],
    first: usize,
) -> Result<Vec<usize>, Fault>
    requires first { first < length (links_of graph.now) }
    requires unused { slice_index_or used.old first false ≡ false }
    requires flags { length used.old ≡ length (links_of graph.now) }
    requires passed { ArePassed (map indexes_of (nodes_of graph.now)) used.old cursors.old }
    requires even { AreUnusedEven (map (link_of I.whole) (links_of graph.now)) used.old }
    ensures closed { IfOk result (λ walk. IsClosedWalk (map (link_of I.whole) (links_of graph.now)) walk.items) }
    ensures first_return { IfOk result (λ walk.
        IsFirstReturn (map (link_of I.whole) (links_of graph.now)) walk.items) }
    ensures counted { IfOk result (λ walk. (walked : List ℕ) → AreCounted used.old walked
        → AreCounted used.new (walked ++ walk.items)) }
    ensures kept { OnOk result ((i : ℕ) → slice_index_or used.old i false ≡ true → slice_index_or used.new i false
        ≡ true) }
    ensures begun { OnOk result (slice_index_or used.new first false ≡ true) }
    ensures passed { OnOk result (ArePassed (map indexes_of (nodes_of graph.now)) used.new cursors.new) }
    ensures even { OnOk result (AreUnusedEven (map (link_of I.whole) (links_of graph.now)) used.new) }
    ensures fault { IfErr result (λ fault. fault ≡ Memory) }
{
    let links = graph.links();
    let link = &links[first];
    let start = link.a.id;
    let mut node = link.b.id;
    let mut walk = Vec::new(alloc);
    used[first] = true;
    walk.push(first)?;
    while node != start {
        let next = take_link(graph, used, cursors, node);
        walk.push(next)?;
        node = links[next].other(node).id;
    }
    Ok(walk)
}

/// Uses an unused link at a node where one is left, and leaves the node's cursor there.
fn take_link<I: OverlayInt, D: Copy>(
    graph: &OverlayGraph<'_, I, D>,
    used: &mut [bool],
    cursors: &mut [usize],
    node: usize,
) -> usize
    requires node { node < length (nodes_of graph.now) }
    requires flags { length used.old ≡ length (links_of graph.now) }
    requires passed { ArePassed (map indexes_of (nodes_of graph.now)) used.old cursors.old }
    requires left { 0 < unused_degree used.old (map (link_of I.whole) (links_of graph.now)) node }
    ensures link { result < length (links_of graph.now) }
    ensures unused { slice_index_or used.old result false ≡ false }
    ensures used { used.new ≡ slice_set used.old result true }
    ensures cursor { slice_index_or (slice_index_or (map indexes_of (nodes_of graph.now)) node [])
        (slice_index_or cursors.new node 0) 0 ≡ result }
    ensures meets { (d : Link) → IsTrue (meets (slice_index_or
        (map (link_of I.whole) (links_of graph.now)) result d) node) }
    ensures passed { ArePassed (map indexes_of (nodes_of graph.now)) used.new cursors.new }
{
    let indexes = graph.nodes()[node].indices();
    let place = next_unused(indexes, used, cursors[node]);
    cursors[node] = place;
    let link = indexes[place];
    used[link] = true;
    link
}

/// The place of the first unused link among these indexes, all of which are used before a place; or how many they are.
fn next_unused(indexes: &[usize], used: &[bool], from: usize) -> usize
    requires within { from ≤ length indexes.now }
    requires links { (k : ℕ) → k < length indexes.now → slice_index_or indexes.now k 0 < length used.now }
    requires passed { (k : ℕ) → k < from → slice_index_or used.now (slice_index_or indexes.now k 0) false ≡ true }
    ensures within { result ≤ length indexes.now }
    ensures passed { (k : ℕ) → k < result → slice_index_or used.now (slice_index_or indexes.now k 0) false ≡ true }
    ensures unused { result < length indexes.now → slice_index_or used.now (slice_index_or indexes.now result 0) false
        ≡ false }
{
    let mut place = from;
    while place < indexes.len() && used[indexes[place]] {
        place += 1;
    }
    place
}
