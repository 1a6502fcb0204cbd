// Marks of lists worked by hand.
ghost use Rattle.overlay_intersections.specs.PlacingOf.{HasRadius};

use crate::usable::are_in_range;
use overlay_base::segm::boolean::ShapeCountBoolean;
use overlay_base::segm::segment::Segment;
use overlay_base::segm::shape_type::ShapeType;
use overlay_base::segm::sort::sort_by_ab;
use overlay_geometry::geom::point::IntPoint;
use overlay_intersections::split::line_mark::LineMark;
use overlay_intersections::split::placing::Placing;
use overlay_tree::split::solver_list::*;
use std::alloc::Global;
use std::process::Abort;

type BooleanSegment = Segment<ShapeCountBoolean, i32, ()>;

/// A mark as the tests write it: index, x and y.
type Row = (usize, i32, i32);

/// The segment between two ends.
fn side(rt: &impl Abort, [ax, ay, bx, by]: [i32; 4]) -> BooleanSegment {
    let (a, b) = (IntPoint::new(ax, ay), IntPoint::new(bx, by));
    Segment::try_ab_and_data(a, b, ShapeType::Subject, (), &mut ()).expect(rt, "ends apart")
}

/// The segments between these ends.
fn sides(rt: &impl Abort, alloc: Global, ends: &[[i32; 4]]) -> Vec<BooleanSegment> {
    let mut sides = Vec::new(alloc);
    for ends in ends {
        sides.push(side(rt, *ends)).expect(rt, "memory");
    }
    sides
}

/// The marks of a list, and whether the pass is rounded.
fn marks(
    rt: &impl Abort,
    alloc: Global,
    mut sides: Vec<BooleanSegment>,
    placing: Placing,
) -> (Vec<LineMark<i32>>, bool)
    requires { HasRadius placing }
{
    sort_by_ab(&mut sides).expect(rt, "memory");
    assert!(rt; are_in_range(&sides));
    let mut marks = Vec::new(alloc);
    let mut heights = Vec::new(alloc);
    let rounded = find_marks(&sides, placing, &mut heights, &mut marks, &mut 0).expect(
        rt, "memory",
    );
    (marks, rounded)
}

/// Wants these marks, and that the pass is rounded or not.
fn check(
    rt: &(impl Abort + AllocGlobal),
    ends: &[[i32; 4]],
    placing: Placing,
    wanted: &[Row],
    is_rounded: bool,
)
    requires { HasRadius placing }
{
    let sides = sides(rt, rt.alloc(), ends);
    let (marks, rounded) = marks(rt, rt.alloc(), sides, placing);
    let mut found = Vec::new(rt.alloc());
    for mark in marks.iter() {
        let row = (mark.index, mark.point.x, mark.point.y);
        found.push(row).expect(rt, "memory");
    }
    assert_eq!(rt; (found.as_slice(), rounded), (wanted, is_rounded));
}

const SNAPPING: Placing = Placing::Snapping { radius_squared: 1 };

#[test]
fn three_through_one_point(rt: HostRuntime) {
    let given = [[2, 4, 2, 0], [0, 0, 4, 4], [0, 4, 4, 0]];
    let wanted = [(0, 2, 2), (1, 2, 2), (2, 2, 2)];
    check(&rt, &given, SNAPPING, &wanted, false);
}

#[test]
fn an_end_within_the_radius(rt: HostRuntime) {
    let given = [[0, 0, 1, 1], [0, 1, 1, 0]];
    check(&rt, &given, SNAPPING, &[(1, 1, 1)], true);
}

#[test]
fn an_overlap_and_a_touch(rt: HostRuntime) {
    let given = [[0, 0, 4, 0], [1, 0, 6, 0], [5, 3, 5, 0]];
    let wanted = [(0, 1, 0), (1, 4, 0), (1, 5, 0)];
    check(&rt, &given, Placing::Settling, &wanted, false);
}

#[test]
fn a_crossing_that_settles_on_an_end(rt: HostRuntime) {
    let given = [[-1, 1, 2, -2], [0, -1, 1, 0]];
    check(&rt, &given, Placing::Settling, &[(0, 1, 0)], true);
}

/// Wants these marks of two segments that meet at whole points, if at all: however a pass places crossings.
fn check_two(rt: &(impl Abort + AllocGlobal), ends: [[i32; 4]; 2], wanted: &[Row]) {
    check(rt, &ends, SNAPPING, wanted, false);
    check(rt, &ends, Placing::Settling, wanted, false);
}

#[test]
fn a_horizontal_and_a_vertical_one_cross(rt: HostRuntime) {
    check_two(&rt, [[0, 0, 4, 0], [2, -2, 2, 2]], &[(0, 2, 0), (1, 2, 0)]);
    check_two(&rt, [[0, 0, 4, 0], [3, -1, 3, 9]], &[(0, 3, 0), (1, 3, 0)]);
}

#[test]
fn an_end_of_the_vertical_one_lies_on_the_horizontal_one(rt: HostRuntime) {
    check_two(&rt, [[0, 0, 4, 0], [2, 0, 2, 3]], &[(0, 2, 0)]);
    check_two(&rt, [[0, 0, 4, 0], [2, -3, 2, 0]], &[(0, 2, 0)]);
}

#[test]
fn an_end_of_the_horizontal_one_lies_on_the_vertical_one(rt: HostRuntime) {
    check_two(&rt, [[0, 0, 0, 5], [0, 1, 3, 1]], &[(0, 0, 1)]);
    check_two(&rt, [[0, 1, 3, 1], [3, 0, 3, 5]], &[(1, 3, 1)]);
}

#[test]
fn a_horizontal_and_a_vertical_one_share_an_end(rt: HostRuntime) {
    check_two(&rt, [[0, 0, 0, 3], [0, 0, 4, 0]], &[]);
    check_two(&rt, [[0, 0, 4, 0], [4, -3, 4, 0]], &[]);
}

#[test]
fn a_horizontal_and_a_vertical_one_are_apart(rt: HostRuntime) {
    check_two(&rt, [[0, 0, 4, 0], [5, -1, 5, 1]], &[]);
    check_two(&rt, [[0, 0, 4, 0], [2, 1, 2, 3]], &[]);
    check_two(&rt, [[0, 1, 0, 3], [0, 0, 4, 0]], &[]);
}

#[test]
fn two_on_two_lines_share_an_end(rt: HostRuntime) {
    check_two(&rt, [[0, 0, 4, 1], [0, 0, 3, 2]], &[]);
    check_two(&rt, [[0, 0, 4, 1], [1, 3, 4, 1]], &[]);
    check_two(&rt, [[0, 0, 4, 1], [4, 1, 6, 5]], &[]);
}

#[test]
fn two_on_one_line_share_an_end(rt: HostRuntime) {
    check_two(&rt, [[0, 0, 4, 2], [4, 2, 8, 4]], &[]);
    check_two(&rt, [[0, 0, 2, 1], [0, 0, 6, 3]], &[(1, 2, 1)]);
    check_two(&rt, [[0, 0, 6, 3], [4, 2, 6, 3]], &[(0, 4, 2)]);
}
