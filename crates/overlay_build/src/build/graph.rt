// The graph of an overlay, which borrows its nodes and links from the builder. Upstream: `core::graph`.
ghost use Rattle.std.specs.Prelude.{◌≡◌, ◌==◌, ◌%◌, ◌&&◌, ◌||◌, nat_le, true, length, IsTrue};
ghost use Rattle.std.specs.List.{list_all};
ghost use Rattle.overlay_geometry.specs.Points.{is_ordered};
ghost use Rattle.overlay_build.specs.GraphOf.{HoldGraph, graph_with, link_of};
ghost use Rattle.overlay_build.specs.NodeIndexes.{indexes_of, is_canonical_node};

use crate::build::graph_node::OverlayNode;
use overlay_base::overlay_core::link::OverlayLink;
use overlay_geometry::num::OverlayInt;

/// The kept segments of an overlay as links, and their ends as nodes.
///
/// Links are in the order of the segments. Nodes are the ends of links, each once, in order of
/// their points; a node lists the links that start there, then those that end there, both by rising
/// index. A link's `a.id` and `b.id` are the numbers of the nodes at its ends; `a` comes before
/// `b`.
#[derive(Drop)]
pub struct OverlayGraph<'a, I: OverlayInt, D> {
    nodes: &'a [OverlayNode],
    links: &'a [OverlayLink<I, D>],
    compared: u128,
    pub ghost holds: { HoldGraph indexes_of is_canonical_node I.whole nodes.now links.now
        (graph_with I.whole links.now) },
    pub ghost ordered: { IsTrue (list_all (λ l. is_ordered (link_of I.whole l).pair) links.now) },
}

impl<'a, I: OverlayInt, D: Copy> OverlayGraph<'a, I, D> {
    ghost use Rattle.overlay_build.specs.Graph.{has_even_nodes, is_valid_graph};
    ghost use Rattle.overlay_build.specs.OverlayGraphOf.{nodes_of, links_of, graph_asked};

    /// The graph of these links, which has to have these nodes, found by a sweep that compared this
    /// many orders. Each link's `a` has to come before its `b`.
    pub(crate) fn new(
        nodes: &'a [OverlayNode],
        links: &'a [OverlayLink<I, D>],
        compared: u128,
    ) -> OverlayGraph<'a, I, D>
        requires holds { HoldGraph indexes_of is_canonical_node I.whole nodes.now links.now
            (graph_with I.whole links.now) }
        requires ordered { IsTrue (list_all (λ l. is_ordered (link_of I.whole l).pair) links.now) }
        ensures nodes { nodes_of result ≡ nodes.now }
        ensures links { links_of result ≡ links.now }
        ensures compared { graph_asked result ≡ compared }
    {
        OverlayGraph {
            nodes,
            links,
            compared,
        }
    }

    /// The nodes.
    pub fn nodes(&self) -> &'a [OverlayNode]
        ensures { result.now ≡ nodes_of self.now }
    {
        self.nodes
    }

    /// The links.
    pub fn links(&self) -> &'a [OverlayLink<I, D>]
        ensures { result.now ≡ links_of self.now }
    {
        self.links
    }

    /// How many orders of live segments the sweep that found it has compared, `u128::MAX` at most.
    pub fn compared(&self) -> u128
        ensures { result ≡ graph_asked self.now }
    {
        self.compared
    }

    /// Whether no `Cross` has fewer than two links and, where there is a `Cross`, there are no more nodes than links.
    pub fn validate(&self) -> bool
        ensures { result ≡ is_valid_graph (graph_with I.whole (links_of self.now)) }
    {
        let enough = self.nodes.len() <= self.links.len();
        for node in self.nodes {
            if !is_sound(node, enough) {
                return false;
            }
        }
        true
    }

    /// Whether an even number of links meets at each node.
    pub fn has_even_nodes(&self) -> bool
        ensures { result ≡ has_even_nodes (graph_with I.whole (links_of self.now)) }
    {
        are_even(self.nodes)
    }
}

/// Whether an even number of links meets at each of these nodes.
fn are_even(nodes: &[OverlayNode]) -> bool
    ensures { result ≡ list_all (λ n. length (indexes_of n) % 2 == 0) nodes.now }
{
    nodes.iter().all(|node| node.indices().len() % 2 == 0)
}

/// Whether a node is a bridge, or has two links or more where there are enough links.
fn is_sound(node: &OverlayNode, enough: bool) -> bool
    requires { is_canonical_node node.now ≡ true }
    ensures { result ≡ (length (indexes_of node.now) == 2 || (nat_le 2 (length (indexes_of node.now)) && enough)) }
{
    match node {
        OverlayNode::Bridge(_) => true,
        OverlayNode::Cross(several) => several.len() >= 2 && enough,
    }
}
