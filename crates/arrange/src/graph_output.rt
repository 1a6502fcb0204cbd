// The text of a graph: a line for each link, then for each node, then whether the graph is valid.
ghost use Rattle.std.specs.Prelude.{◌≡◌, ◌<◌, ◌≤◌, ◌++◌, true, flat_map, length, slice_index_or, OnOk, string_bytes};
ghost use Rattle.overlay_geometry.specs.PointOf.{point_of};
ghost use Rattle.overlay_build.specs.Graph.{Node};
ghost use Rattle.overlay_build.specs.GraphOf.{link_of, graph_with};
ghost use Rattle.overlay_build.specs.NodeIndexes.{indexes_of, is_canonical_node};
ghost use Rattle.overlay_build.specs.OverlayGraphOf.{nodes_of, links_of, whole_graph};
ghost use Rattle.overlay_text.specs.Output.{numbers_text};
ghost use Rattle.arrange.specs.GraphText.{link_line, kind_text, node_line, graph_text};

use overlay_base::overlay_core::link::OverlayLink;
use overlay_build::build::graph::OverlayGraph;
use overlay_build::build::graph_node::OverlayNode;
use overlay_geometry::geom::point::IntPoint;
use overlay_geometry::num::OverlayInt;
use overlay_text::line_end::{LINE_BUFFER_SIZE, append, put_last_word, put_number, put_word};
use overlay_text::output::put_point;
use std::alloc::AllocError;

/// Writes the links, then the nodes, then `valid true` or `valid false`.
#[tactic(auto, unfolding(crate::specs::GraphText::graph_text))]
pub fn write_graph<I: OverlayInt>(
    text: &mut String,
    graph: &OverlayGraph<'_, I, ()>,
) -> Result<(), AllocError>
    ensures { OnOk result (string_bytes text.new ≡ string_bytes text.old ++ graph_text (whole_graph graph.now)) }
{
    write_links(text, graph.links())?;
    write_nodes(text, graph)?;
    let valid = graph.validate();
    writeln!(text, "valid {valid}")
}

/// Writes `link AX AY BX BY FILL AID BID` for each link.
fn write_links<I: OverlayInt>(
    text: &mut String,
    links: &[OverlayLink<I, ()>],
) -> Result<(), AllocError>
    ensures { OnOk result (string_bytes text.new ≡ string_bytes text.old
        ++ flat_map (λ l. link_line (link_of I.whole l)) links.now) }
{
    for link in links {
        write_link(text, link)?;
    }
    Ok(())
}

/// Appends the line of a link: its ends, its fill, and the numbers of its nodes.
#[tactic(auto, unfolding(crate::specs::GraphText::link_line))]
fn write_link<I: OverlayInt>(text: &mut String, link: &OverlayLink<I, ()>) -> Result<(), AllocError>
    ensures { OnOk result (string_bytes text.new ≡ string_bytes text.old ++ link_line (link_of I.whole link.now)) }
{
    let (fill, a, b) = (link.fill, link.a.id, link.b.id);
    let mut room = [0; LINE_BUFFER_SIZE];
    let end = put_last_word(&mut room, "\n");
    let end = put_number(&mut room, end, b as u64);
    let end = put_number(&mut room, end, a as u64);
    let end = put_number(&mut room, end, fill as u64);
    let end = put_point(&mut room, end, link.b.point);
    let end = put_point(&mut room, end, link.a.point);
    let begin = put_word(&mut room, end, "link");
    append(text, &room, begin)
}

/// Writes `node X Y bridge I J` or `node X Y cross I ..` for each node.
fn write_nodes<I: OverlayInt>(
    text: &mut String,
    graph: &OverlayGraph<'_, I, ()>,
) -> Result<(), AllocError>
    ensures { OnOk result (string_bytes text.new ≡ string_bytes text.old
        ++ flat_map node_line (graph_with I.whole (links_of graph.now)).nodes) }
{
    for (id, node) in graph.nodes().iter().enumerate() {
        write_node(text, node_point(graph, id), node)?;
    }
    Ok(())
}

/// Appends the line of a node: its point, its kind, and the indexes of its links.
#[tactic(auto, unfolding(crate::specs::GraphText::node_line))]
fn write_node<I: OverlayInt>(
    text: &mut String,
    point: IntPoint<I>,
    node: &OverlayNode,
) -> Result<(), AllocError>
    requires { is_canonical_node node.now ≡ true }
    ensures { OnOk result (string_bytes text.new ≡ string_bytes text.old
        ++ node_line (record { point = point_of I.whole point; links = indexes_of node.now })) }
{
    let mut room = [0; LINE_BUFFER_SIZE];
    let end = put_last_word(&mut room, kind(node));
    let end = put_point(&mut room, end, point);
    let begin = put_word(&mut room, end, "node");
    append(text, &room, begin)?;
    write_numbers(text, node.indices())?;
    text.push_str("\n")?;
    Ok(())
}

/// The word for a node of this kind.
fn kind(node: &OverlayNode) -> &'static str
    requires { is_canonical_node node.now ≡ true }
    ensures { result.now ≡ kind_text (indexes_of node.now) }
{
    match node {
        OverlayNode::Bridge(_) => " bridge",
        OverlayNode::Cross(_) => " cross",
    }
}

/// Writes each number after a space.
pub fn write_numbers(text: &mut String, numbers: &[usize]) -> Result<(), AllocError>
    ensures { OnOk result (string_bytes text.new ≡ string_bytes text.old ++ numbers_text numbers.now) }
{
    let mut rest = numbers;
    while !rest.is_empty() {
        let (first, others) = rest.split_at(rest.len().min(7));
        write_few_numbers(text, first)?;
        rest = others;
    }
    Ok(())
}

/// Writes up to seven numbers, for which there is room, each after a space.
fn write_few_numbers(text: &mut String, numbers: &[usize]) -> Result<(), AllocError>
    requires { length numbers.now ≤ 7 }
    ensures { OnOk result (string_bytes text.new ≡ string_bytes text.old ++ numbers_text numbers.now) }
{
    let mut room = [0; LINE_BUFFER_SIZE];
    let mut begin = put_last_word(&mut room, "");
    let mut left = numbers.len();
    while left > 0 {
        left -= 1;
        begin = put_number(&mut room, begin, numbers[left] as u64);
    }
    append(text, &room, begin)
}

/// The point of the node with this number: the end that its first link has there.
fn node_point<I: OverlayInt>(graph: &OverlayGraph<'_, I, ()>, id: usize) -> IntPoint<I>
    requires { id < length (nodes_of graph.now) }
    ensures { (node : Node) → point_of I.whole result ≡ (slice_index_or
        (graph_with I.whole (links_of graph.now)).nodes id node).point }
{
    let first = graph.nodes()[id].indices()[0];
    let link = graph.links()[first];
    if link.a.id == id {
        link.a.point
    } else {
        link.b.point
    }
}
