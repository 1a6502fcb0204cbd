// Worked graphs, with ample memory.
ghost use Rattle.std.specs.Prelude.{IsTrue};
ghost use Rattle.overlay_geometry.specs.Coordinates.{least_coordinate, greatest_coordinate};
ghost use Rattle.overlay_base.specs.Planar.{is_arranged};
ghost use Rattle.overlay_base.specs.SegmentOf.{segments_of};

use crate::worked_lines::{Line, two_squares};
use overlay_base::overlay_core::extract::VisitState;
use overlay_base::overlay_core::fill_rule::FillRule;
use overlay_base::overlay_core::link::OverlayLink;
use overlay_base::overlay_core::overlay_rule::OverlayRule;
use overlay_base::overlay_core::rule_table::RuleTable;
use overlay_base::overlay_core::solver::Solver;
use overlay_base::segm::boolean::ShapeCountBoolean;
use overlay_build::build::builder::GraphBuilder;
use overlay_build::build::graph::OverlayGraph;
use overlay_build::build::graph_node::OverlayNode;
use overlay_upstream::build::link_filter::filter_by_overlay_into;
use std::process::Abort;

type Graph<'a> = OverlayGraph<'a, i32, ()>;

type Builder = GraphBuilder<ShapeCountBoolean, OverlayNode, i32, ()>;

/// Each rule, its table, and what both keep of the twelve segments of two squares, the first of them as the lowest bit.
const KEPT: [(OverlayRule, u8, u16); 7] = [
    (OverlayRule::Subject, 10, 0b0011_0100_0111),
    (OverlayRule::Clip, 12, 0b1100_1011_1000),
    (OverlayRule::Intersect, 8, 0b0010_0101_1000),
    (OverlayRule::Union, 14, 0b1101_1010_0111),
    (OverlayRule::Difference, 2, 0b0001_0001_1111),
    (OverlayRule::InverseDifference, 4, 0b1110_1110_0000),
    (OverlayRule::Xor, 6, 0b1111_1111_1111),
];

/// The graph of all links.
fn build_all<'a>(
    rt: &impl Abort,
    builder: &'a mut Builder,
    fill_rule: FillRule,
    solver: &Solver,
    segments: &[Line],
) -> Graph<'a>
    requires { IsTrue (is_arranged least_coordinate greatest_coordinate (segments_of segments.now)) }
{
    builder
        .build_boolean_all(fill_rule, solver, segments)
        .expect(rt, "no refusal")
}

/// How many states there are, and which of them are unvisited, the first as the lowest bit.
fn unvisited(states: &[VisitState]) -> (usize, u16) {
    let mut found = 0;
    for state in states.iter().rev() {
        found = found << 1 | u16::from(*state == VisitState::Unvisited);
    }
    (states.len(), found)
}

/// Compares what a rule keeps of twelve links.
fn compare_kept(
    rt: &impl Abort,
    links: &[OverlayLink<i32, ()>],
    rule: OverlayRule,
    kept: u16,
    states: &mut Vec<VisitState>,
) {
    filter_by_overlay_into(links, rule, states).expect(rt, "memory");
    assert!(rt; unvisited(states) == (12, kept), "{rule}");
}

/// Compares what each rule and its table keep of twelve links.
fn compare_rules(rt: &(impl Abort + AllocGlobal), links: &[OverlayLink<i32, ()>]) {
    let mut states = Vec::new(rt.alloc());
    for (rule, bits, kept) in KEPT {
        let table = RuleTable::new(bits).expect(rt, "a table");
        compare_kept(rt, links, rule, kept, &mut states);
        compare_kept(rt, links, OverlayRule::Table(table), kept, &mut states);
    }
}

#[test]
fn each_rule_visits_the_links_that_it_keeps(rt: HostRuntime) {
    let mut builder = Builder::new(rt.alloc());
    let solver = Solver::LIST;
    let graph = build_all(
        &rt,
        &mut builder,
        FillRule::NonZero,
        &solver,
        &two_squares(),
    );
    compare_rules(&rt, graph.links());
}
