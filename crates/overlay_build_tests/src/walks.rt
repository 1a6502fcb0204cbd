// Worked closed walks, with ample memory.
ghost use Rattle.std.specs.Prelude.{IsTrue};
ghost use Rattle.overlay_geometry.specs.Coordinates.{least_coordinate, greatest_coordinate};
ghost use Rattle.overlay_base.specs.Planar.{is_arranged};
ghost use Rattle.overlay_base.specs.SegmentOf.{segments_of};

use crate::worked_lines::{Line, two_squares};
use overlay_base::overlay_core::fill_rule::FillRule;
use overlay_base::overlay_core::overlay_rule::OverlayRule;
use overlay_base::overlay_core::solver::Solver;
use overlay_base::segm::arranged::is_arranged;
use overlay_base::segm::boolean::ShapeCountBoolean;
use overlay_base::segm::segment::Segment;
use overlay_base::segm::winding::WindingCount;
use overlay_build::build::builder::GraphBuilder;
use overlay_build::build::graph_node::OverlayNode;
use overlay_build::build::walks::closed_walks;
use overlay_geometry::geom::point::IntPoint;
use std::alloc::Global;
use std::process::Abort;

type Builder = GraphBuilder<ShapeCountBoolean, OverlayNode, i32, ()>;

/// The closed walks through the graph of a rule.
fn walks_of(rt: &impl Abort, alloc: Global, rule: OverlayRule, segments: &[Line]) -> Vec<Vec<usize>>
    requires { IsTrue (is_arranged least_coordinate greatest_coordinate (segments_of segments.now)) }
{
    let mut builder = Builder::new(alloc);
    let graph = builder
        .build_boolean_overlay(FillRule::NonZero, rule, &Solver::LIST, segments)
        .expect(rt, "no refusal");
    assert!(rt; graph.has_even_nodes());
    closed_walks(alloc, &graph).expect(rt, "memory")
}

#[test]
fn one_walk_goes_round_what_two_squares_share(rt: HostRuntime) {
    let walks = walks_of(&rt, rt.alloc(), OverlayRule::Intersect, &two_squares());
    let first = walks.first().map(|walk| walk.as_slice());
    assert_eq!(rt; (walks.len(), first), (1, Some([0, 2, 3, 1].as_slice())));
}

#[test]
fn each_link_stands_once_in_the_walks_of_xor(rt: HostRuntime) {
    let walks = walks_of(&rt, rt.alloc(), OverlayRule::Xor, &two_squares());
    assert!(rt; times_walked(&rt, &walks) == [1; 12]);
}

/// Four triangles with one corner in common, run counterclockwise, in order of their smaller ends.
const FOUR_TRIANGLES: [((i32, i32), (i32, i32)); 12] = [
    ((-4, 1), (-4, -1)),
    ((-4, -1), (0, 0)),
    ((0, 0), (-4, 1)),
    ((0, 0), (-1, -4)),
    ((-1, -4), (1, -4)),
    ((-1, 4), (0, 0)),
    ((1, 4), (-1, 4)),
    ((1, -4), (0, 0)),
    ((0, 0), (1, 4)),
    ((0, 0), (4, -1)),
    ((4, 1), (0, 0)),
    ((4, -1), (4, 1)),
];

/// The counts of each side, and the rules that keep every side then. The other rules keep none.
const KEEP_ALL: [(i32, i32, [OverlayRule; 4]); 3] = [
    (
        1,
        0,
        [
            OverlayRule::Subject,
            OverlayRule::Union,
            OverlayRule::Difference,
            OverlayRule::Xor,
        ],
    ),
    (
        0,
        1,
        [
            OverlayRule::Clip,
            OverlayRule::Union,
            OverlayRule::InverseDifference,
            OverlayRule::Xor,
        ],
    ),
    (
        1,
        1,
        [
            OverlayRule::Subject,
            OverlayRule::Clip,
            OverlayRule::Intersect,
            OverlayRule::Union,
        ],
    ),
];

const RULES: [OverlayRule; 7] = [
    OverlayRule::Subject,
    OverlayRule::Clip,
    OverlayRule::Intersect,
    OverlayRule::Union,
    OverlayRule::Difference,
    OverlayRule::InverseDifference,
    OverlayRule::Xor,
];

/// A side of a triangle, from one point to another.
fn side(rt: &impl Abort, a: (i32, i32), b: (i32, i32), count: ShapeCountBoolean) -> Line {
    let (a, b) = (IntPoint::new(a.0, a.1), IntPoint::new(b.0, b.1));
    assert!(rt; a != b && count.is_valid());
    Segment::create_and_validate_with_data(a, b, count, (), &mut ())
}

fn four_triangles(rt: &impl Abort, alloc: Global, subj: i32, clip: i32) -> Vec<Line> {
    let mut lines = Vec::new(alloc);
    let count = ShapeCountBoolean { subj, clip };
    for (a, b) in FOUR_TRIANGLES {
        lines.push(side(rt, a, b, count)).expect(rt, "memory");
    }
    lines
}

/// How often each link is in the walks, where there are as many links as sides.
fn times_walked(rt: &impl Abort, walks: &[Vec<usize>]) -> [u32; 12] {
    let mut times = [0_u32; 12];
    for walk in walks {
        assert!(rt; walk.len() >= 3);
        for link in walk {
            let time = times.get_mut(*link).expect(rt, "a link");
            *time = time.saturating_add(1);
        }
    }
    times
}

/// Compares how often each of twelve sides is in the walks of a rule.
fn compare_times(rt: &(impl Abort + AllocGlobal), lines: &[Line], rule: OverlayRule, times: u32)
    requires { IsTrue (is_arranged least_coordinate greatest_coordinate (segments_of lines.now)) }
{
    let walks = walks_of(rt, rt.alloc(), rule, lines);
    assert!(rt; times_walked(rt, &walks) == [times; 12], "{rule}");
}

#[test]
fn walks_pass_a_node_of_eight_links(rt: HostRuntime) {
    for (subj, clip, keep_all) in KEEP_ALL {
        let lines = four_triangles(&rt, rt.alloc(), subj, clip);
        assert!(rt; is_arranged(&lines));
        for rule in RULES {
            compare_times(&rt, &lines, rule, u32::from(keep_all.contains(&rule)));
        }
    }
}
