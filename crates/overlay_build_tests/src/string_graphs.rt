// Lines over a square, with ample memory.
ghost use Rattle.std.specs.Prelude.{◌≡◌, IsTrue, pos};
ghost use Rattle.overlay_geometry.specs.Points.{point_lt};
ghost use Rattle.overlay_geometry.specs.Coordinates.{least_coordinate, greatest_coordinate};
ghost use Rattle.overlay_base.specs.Planar.{is_arranged};
ghost use Rattle.overlay_base.specs.SegmentOf.{segment_of, segments_of};

use crate::worked_lines::STRATEGIES;
use overlay_base::overlay_core::fill_rule::FillRule;
use overlay_base::overlay_core::link::OverlayLink;
use overlay_base::overlay_core::solver::Solver;
use overlay_base::segm::segment::Segment;
use overlay_base::segm::segment_fill::{NONE, SegmentFill};
use overlay_base::segm::string::ShapeCountString;
use overlay_build::build::builder::GraphBuilder;
use overlay_build::build::string_graph::StringGraph;
use overlay_geometry::geom::point::IntPoint;
use std::process::Abort;

type Line = Segment<ShapeCountString, i32, ()>;

type Lines = GraphBuilder<ShapeCountString, Vec<usize>, i32, ()>;

fn line(ax: i32, ay: i32, bx: i32, by: i32, subj: i32, clip: u8) -> Line
    requires { IsTrue (point_lt (record { x = ax; y = ay }) (record { x = bx; y = by })) }
    ensures { segment_of result ≡ record {
      pair = record
          { a = record { x = ax; y = ay }; b = record { x = bx; y = by } };
      count = record
          { subj = subj; clip = pos 0; mask = clip };
    } }
{
    let a = IntPoint { x: ax, y: ay };
    let b = IntPoint { x: bx, y: by };
    let count = ShapeCountString { subj, clip };
    Segment::create_and_validate_with_data(a, b, count, (), &mut ())
}

// A square with corners (0, 0) and (10, 10), cut by a line at height 5, split.
fn cut_square() -> [Line; 9]
    ensures { IsTrue (is_arranged least_coordinate greatest_coordinate (segments_of result)) }
{
    [
        line(-5, 5, 0, 5, 0, 2),
        line(0, 0, 0, 5, -1, 0),
        line(0, 0, 10, 0, 1, 0),
        line(0, 5, 0, 10, -1, 0),
        line(0, 5, 10, 5, 0, 2),
        line(0, 10, 10, 10, -1, 0),
        line(10, 0, 10, 5, 1, 0),
        line(10, 5, 10, 10, 1, 0),
        line(10, 5, 15, 5, 0, 2),
    ]
}

/// How all nine segments are filled: the square winds once around its inside, which is odd, not 0 and positive.
const FILLS: [(FillRule, [SegmentFill; 9]); 4] = [
    (FillRule::EvenOdd, [8, 2, 1, 2, 11, 2, 1, 1, 8]),
    (FillRule::NonZero, [8, 2, 1, 2, 11, 2, 1, 1, 8]),
    (FillRule::Positive, [8, 2, 1, 2, 11, 2, 1, 1, 8]),
    (FillRule::Negative, [8, 0, 0, 0, 8, 0, 0, 0, 8]),
];

/// The graph of all links.
fn build_all<'a>(
    rt: &impl Abort,
    builder: &'a mut Lines,
    fill_rule: FillRule,
    solver: &Solver,
    segments: &[Line],
) -> StringGraph<'a, i32>
    requires { IsTrue (is_arranged least_coordinate greatest_coordinate (segments_of segments.now)) }
{
    builder
        .build_string_all(fill_rule, solver, segments)
        .expect(rt, "no refusal")
}

/// Whether some links are filled so.
fn are_filled(links: &[OverlayLink<i32, ()>], fills: &[SegmentFill]) -> bool {
    links.len() == fills.len()
        && links
            .iter()
            .zip(fills)
            .all(|(link, fill)| link.fill == *fill)
}

/// Whether four links meet where the line goes into the square.
fn are_crossed(nodes: &[Vec<usize>]) -> bool {
    nodes
        .iter()
        .any(|node| node.as_slice() == [3, 4, 0, 1].as_slice())
}

/// Compares how the links of the cut square are filled, and looks at its nodes.
fn compare_cut_square(
    rt: &impl Abort,
    builder: &mut Lines,
    solver: &Solver,
    fill_rule: FillRule,
    fills: &[SegmentFill],
) {
    let graph = build_all(rt, builder, fill_rule, solver, &cut_square());
    assert!(rt; are_filled(graph.links(), fills), "{fill_rule}");
    let nodes = graph.nodes();
    assert!(rt; nodes.len() == 8 && are_crossed(nodes), "{fill_rule}");
}

#[test]
fn a_line_over_a_square(rt: HostRuntime) {
    let mut builder = Lines::new(rt.alloc());
    for solver in STRATEGIES {
        for (fill_rule, fills) in FILLS {
            compare_cut_square(&rt, &mut builder, &solver, fill_rule, &fills);
        }
    }
}

// Two rows and two columns that cross, split.
fn crossing_lines() -> [Line; 12]
    ensures { IsTrue (is_arranged least_coordinate greatest_coordinate (segments_of result)) }
{
    [
        line(0, 1, 1, 1, 0, 1),
        line(0, 2, 1, 2, 0, 1),
        line(1, 0, 1, 1, 0, 1),
        line(1, 1, 1, 2, 0, 1),
        line(1, 1, 2, 1, 0, 1),
        line(1, 2, 1, 3, 0, 1),
        line(1, 2, 2, 2, 0, 1),
        line(2, 0, 2, 1, 0, 1),
        line(2, 1, 2, 2, 0, 1),
        line(2, 1, 3, 1, 0, 1),
        line(2, 2, 2, 3, 0, 1),
        line(2, 2, 3, 2, 0, 1),
    ]
}

// A row and a column behind it, split: each ends where the next begins.
fn corner() -> [Line; 3]
    ensures { IsTrue (is_arranged least_coordinate greatest_coordinate (segments_of result)) }
{
    [
        line(0, 0, 1, 0, 0, 1),
        line(1, 0, 2, 0, 0, 1),
        line(2, 0, 2, 1, 0, 1),
    ]
}

// Two rings side by side. The lower side of each ends behind the next side, where the last one ends.
fn two_rings() -> [Line; 8]
    ensures { IsTrue (is_arranged least_coordinate greatest_coordinate (segments_of result)) }
{
    [
        line(0, 0, 1, 1, 0, 1),
        line(0, 0, 4, 0, 0, 1),
        line(1, 1, 2, 1, 0, 1),
        line(2, 1, 4, 0, 0, 1),
        line(5, 0, 6, 1, 0, 1),
        line(5, 0, 9, 0, 0, 1),
        line(6, 1, 7, 1, 0, 1),
        line(7, 1, 9, 0, 0, 1),
    ]
}

/// Appends the links of each node to a list, as many numbers before them.
fn list_nodes(rt: &impl Abort, nodes: &[Vec<usize>], listed: &mut Vec<usize>) {
    for node in nodes {
        listed.push(node.len()).expect(rt, "memory");
        listed
            .extend_from_slice(node.as_slice())
            .expect(rt, "memory");
    }
}

/// How many links meet at each node of the crossing lines, and these links: those that start there, then those that end.
const CROSSED: [usize; 36] = [
    1, 0, 1, 1, 1, 2, 4, 3, 4, 0, 2, 4, 5, 6, 1, 3, 1, 5, 1, 7, 4, 8, 9, 4, 7, 4, 10, 11, 6, 8, 1,
    10, 1, 9, 1, 11,
];

/// The same for the corner.
const CORNER: [usize; 10] = [1, 0, 2, 1, 0, 2, 2, 1, 1, 2];

/// The same for the two rings.
const RINGS: [usize; 24] = [
    2, 0, 1, 2, 2, 0, 2, 3, 2, 2, 1, 3, 2, 4, 5, 2, 6, 4, 2, 7, 6, 2, 5, 7,
];

/// Compares the links of each node of the graph of some lines.
fn compare_nodes(
    rt: &(impl Abort + AllocGlobal),
    builder: &mut Lines,
    solver: &Solver,
    segments: &[Line],
    wanted: &[usize],
)
    requires { IsTrue (is_arranged least_coordinate greatest_coordinate (segments_of segments.now)) }
{
    let graph = build_all(rt, builder, FillRule::NonZero, solver, segments);
    let mut listed = Vec::new(rt.alloc());
    list_nodes(rt, graph.nodes(), &mut listed);
    assert_eq!(rt; listed.as_slice(), wanted);
}

#[test]
fn nodes_list_links_that_start_before_those_that_end(rt: HostRuntime) {
    let mut builder = Lines::new(rt.alloc());
    for solver in STRATEGIES {
        compare_nodes(&rt, &mut builder, &solver, &crossing_lines(), &CROSSED);
        compare_nodes(&rt, &mut builder, &solver, &corner(), &CORNER);
        compare_nodes(&rt, &mut builder, &solver, &two_rings(), &RINGS);
    }
}

/// Whether no link is filled.
fn are_empty(links: &[OverlayLink<i32, ()>]) -> bool {
    links.iter().all(|link| link.fill == NONE)
}

#[test]
fn what_is_written_to_links_stays(rt: HostRuntime) {
    let mut builder = Lines::new(rt.alloc());
    let mut graph = build_all(
        &rt,
        &mut builder,
        FillRule::NonZero,
        &Solver::AUTO,
        &cut_square(),
    );
    for link in graph.links_mut() {
        link.fill = NONE;
    }
    assert!(rt; are_empty(graph.links()));
    assert!(rt; builder.links().len() == 9 && are_empty(builder.links()));
}
