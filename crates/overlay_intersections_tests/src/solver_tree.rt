// The tree's finder beside the list's, and how many pairs it compares.
ghost use Rattle.std.specs.Prelude.{◌≡◌, All, IsSortedByKey};
ghost use Rattle.overlay_base.specs.SegmentOf.{ends_of, x_segment_of};
ghost use Rattle.overlay_geometry.specs.InRange.{IsPairInRange};
ghost use Rattle.overlay_geometry.specs.Points.{pair_cmp};
ghost use Rattle.overlay_intersections.specs.PlacingOf.{HasRadius};

use crate::usable::are_in_range;
use overlay_base::segm::boolean::ShapeCountBoolean;
use overlay_base::segm::segment::Segment;
use overlay_base::segm::shape_type::ShapeType;
use overlay_base::segm::sort::sort_by_ab;
use overlay_geometry::geom::point::IntPoint;
use overlay_geometry::num::OverlayInt;
use overlay_intersections::split::line_mark::LineMark;
use overlay_intersections::split::placing::Placing;
use overlay_tree::split::solver_list;
use overlay_tree::split::solver_tree::*;
use std::alloc::Global;
use std::process::Abort;

type BooleanSegment<I> = Segment<ShapeCountBoolean, I, ()>;

/// Adds the segment between two ends, unless they are one point.
fn push_side(
    rt: &impl Abort,
    segments: &mut Vec<BooleanSegment<i32>>,
    a: (i32, i32),
    b: (i32, i32),
) {
    let (a, b) = (IntPoint::new(a.0, a.1), IntPoint::new(b.0, b.1));
    if let Some(side) = Segment::try_ab_and_data(a, b, ShapeType::Subject, (), &mut ()) {
        segments.push(side).expect(rt, "memory");
    }
}

/// What the list's finder returns: the marks, and whether the pass is rounded.
fn listed<I: OverlayInt>(
    rt: &impl Abort,
    alloc: Global,
    segments: &[BooleanSegment<I>],
    placing: Placing,
) -> (Vec<LineMark<I>>, bool)
    requires sorted { IsSortedByKey ends_of pair_cmp segments.now }
    requires in_range { All (λ s. IsPairInRange I.whole I.MIN_COORD I.MAX_COORD (x_segment_of s)) segments.now }
    requires radius { HasRadius placing }
{
    let mut marks = Vec::new(alloc);
    let mut heights = Vec::new(alloc);
    let rounded = solver_list::find_marks(segments, placing, &mut heights, &mut marks, &mut 0);
    (marks, rounded.expect(rt, "memory"))
}

/// What the tree's finder returns: the same, and how many pairs it compared.
fn treed<I: OverlayInt>(
    rt: &impl Abort,
    alloc: Global,
    segments: &[BooleanSegment<I>],
    placing: Placing,
) -> (Vec<LineMark<I>>, bool, u128)
    requires sorted { IsSortedByKey ends_of pair_cmp segments.now }
    requires in_range { All (λ s. IsPairInRange I.whole I.MIN_COORD I.MAX_COORD (x_segment_of s)) segments.now }
    requires radius { HasRadius placing }
{
    let mut buffers = TreeBuffers::new(alloc);
    let mut marks = Vec::new(alloc);
    let mut looked = 0;
    let rounded = find_marks(segments, placing, &mut buffers, &mut marks, &mut looked);
    (marks, rounded.expect(rt, "memory"), looked)
}

/// Runs both finders, wants the same marks and the same flag, and returns how many marks there are
/// and how many pairs the tree compared.
fn ask(
    rt: &impl Abort,
    alloc: Global,
    segments: &mut Vec<BooleanSegment<i32>>,
    placing: Placing,
) -> (usize, u128)
    requires { HasRadius placing }
{
    sort_by_ab(segments).expect(rt, "memory");
    assert!(rt; are_in_range(segments));
    let (listed, by_list) = listed(rt, alloc, segments, placing);
    let (marks, by_tree, looked) = treed(rt, alloc, segments, placing);
    assert!(rt; marks.as_slice() == listed.as_slice());
    assert!(rt; by_tree == by_list);
    (marks.len(), looked)
}

const SNAPPING: Placing = Placing::Snapping { radius_squared: 1 };

/// A number below the limit, from a linear congruence.
fn below(state: &mut u32, limit: u32) -> i32 {
    *state = state.wrapping_mul(1_664_525).wrapping_add(1_013_904_223);
    ((*state >> 8) % limit.max(1) % 4096) as i32
}

/// This many segments with ends in the square from (0, 0) to (59, 59).
fn scattered(
    rt: &impl Abort,
    alloc: Global,
    state: &mut u32,
    size: usize,
) -> Vec<BooleanSegment<i32>> {
    let mut segments = Vec::new(alloc);
    for _ in 0..size {
        let a = (below(state, 60), below(state, 60));
        let b = (below(state, 60), below(state, 60));
        push_side(rt, &mut segments, a, b);
    }
    segments
}

#[test]
fn scattered_segments(rt: HostRuntime) {
    let mut state = 7;
    for size in [0_usize, 1, 2, 3, 10, 100, 300] {
        let mut segments = scattered(&rt, rt.alloc(), &mut state, size);
        ask(&rt, rt.alloc(), &mut segments, SNAPPING);
        ask(&rt, rt.alloc(), &mut segments, Placing::Settling);
    }
}

#[test]
fn touching_right_ends(rt: HostRuntime) {
    let mut segments = Vec::new(rt.alloc());
    push_side(&rt, &mut segments, (0, 2), (4, 2));
    push_side(&rt, &mut segments, (4, 0), (4, 4));
    assert!(rt; ask(&rt, rt.alloc(), &mut segments, SNAPPING) == (1, 1));
}

#[test]
fn lines_above_one_another(rt: HostRuntime) {
    let mut segments = Vec::new(rt.alloc());
    for y in 0..4000 {
        push_side(&rt, &mut segments, (0, y), (10, y));
    }
    // Each of the first 32 lines is compared with those below it, and then all are in a tree, where
    // no heights meet.
    let told = ask(&rt, rt.alloc(), &mut segments, SNAPPING);
    assert!(rt; told == (0, 32 * 31 / 2));
}

#[test]
fn few_lines_are_in_reach(rt: HostRuntime) {
    let mut segments = Vec::new(rt.alloc());
    for y in 0..20 {
        push_side(&rt, &mut segments, (0, y), (10, y));
    }
    sort_by_ab(&mut segments).expect(&rt, "memory");
    // The ranges in x of all 190 pairs meet.
    assert!(rt; !solver_list::are_few_in_reach(&segments, 189));
    assert!(rt; solver_list::are_few_in_reach(&segments, 20 * 20));
}

#[test]
fn lines_beside_one_another(rt: HostRuntime) {
    let mut segments = Vec::new(rt.alloc());
    for place in 0..1000_u16 {
        let left = 10 * i32::from(place);
        push_side(&rt, &mut segments, (left, 0), (left + 5, 0));
    }
    // No two boxes meet, and each line has ended before the next: at most one comparison of each.
    let (marks, looked) = ask(&rt, rt.alloc(), &mut segments, SNAPPING);
    assert!(rt; marks == 0);
    assert!(rt; looked <= 1000);
}

/// Lines of a grid, this many each way: how many marks there are, and how many pairs the tree compared.
fn grid(rt: &impl Abort, alloc: Global, size: u16) -> (usize, u128) {
    let mut segments = Vec::new(alloc);
    for place in 0..size {
        let at = 2 * i32::from(place) + 1;
        let far = 2 * i32::from(size);
        push_side(rt, &mut segments, (0, at), (far, at));
        push_side(rt, &mut segments, (at, 0), (at, far));
    }
    ask(rt, alloc, &mut segments, SNAPPING)
}

#[test]
fn few_crossing_lines(rt: HostRuntime) {
    // Each line across is compared with those below it, and each upright line with all lines across.
    assert!(rt; grid(&rt, rt.alloc(), 20) == (800, 20 * 19 / 2 + 400));
}

#[test]
fn many_crossing_lines(rt: HostRuntime) {
    let (marks, looked) = grid(&rt, rt.alloc(), 60);
    assert!(rt; marks == 7200);
    // Of 120 lines 3,600 pairs cross. The first 32 lines across are compared with one another.
    assert!(rt; 3600 + 32 * 31 / 2 <= looked && looked <= 40 * 120 + 9 * 3600);
}
