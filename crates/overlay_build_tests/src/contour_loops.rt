// Contours with and without a point that they meet twice, on both sides of 64 points.

use overlay_base::segm::boolean::ShapeCountBoolean;
use overlay_build::build::builder::GraphBuilder;
use overlay_build::build::graph_node::OverlayNode;
use overlay_geometry::geom::point::IntPoint;
use std::alloc::Global;
use std::process::Abort;

type Builder = GraphBuilder<ShapeCountBoolean, OverlayNode, i32, ()>;

/// The points (0, 0), (1, 0), .. in rising order.
fn row(rt: &impl Abort, alloc: Global, count: i32) -> Vec<IntPoint<i32>> {
    let points = (0..count).map(|x| IntPoint::new(x, 0));
    points.collect(alloc).expect(rt, "memory")
}

/// Whether a contour has a loop.
fn has_loop(
    rt: &(impl Abort + AllocGlobal),
    contour: &[IntPoint<i32>],
    buffer: &mut Vec<IntPoint<i32>>,
) -> bool {
    let mut builder = Builder::new(rt.alloc());
    let found = builder.test_contour_for_loops(contour, buffer);
    found.expect(rt, "memory")
}

/// Compares whether a contour has a loop, and the buffer after that test.
fn compare_test(
    rt: &(impl Abort + AllocGlobal),
    contour: &[IntPoint<i32>],
    buffer: &mut Vec<IntPoint<i32>>,
    wanted: bool,
    after: &[IntPoint<i32>],
) {
    assert!(rt; has_loop(rt, contour, buffer) == wanted);
    assert!(rt; buffer.as_slice() == after);
}

#[test]
fn few_points_leave_the_buffer_as_it_is(rt: HostRuntime) {
    let alloc = rt.alloc();
    let before = row(&rt, alloc, 2);
    let mut buffer = row(&rt, alloc, 2);
    compare_test(&rt, &row(&rt, alloc, 63), &mut buffer, false, &before);
    let mut crossed = row(&rt, alloc, 5);
    crossed.push(IntPoint::new(3, 0)).expect(&rt, "memory");
    compare_test(&rt, &crossed, &mut buffer, true, &before);
}

#[test]
fn many_points_end_in_rising_order(rt: HostRuntime) {
    let alloc = rt.alloc();
    let mut buffer = row(&rt, alloc, 2);
    let rising = row(&rt, alloc, 64);
    compare_test(&rt, &rising, &mut buffer, false, &rising);
    let mut falling = row(&rt, alloc, 64);
    falling.reverse();
    compare_test(&rt, &falling, &mut buffer, false, &rising);
    let mut crossed = row(&rt, alloc, 63);
    crossed.push(IntPoint::new(0, 0)).expect(&rt, "memory");
    // (0, 0) twice, then (1, 0), .. up to (62, 0)
    let mut sorted = row(&rt, alloc, 63);
    sorted.insert(0, IntPoint::new(0, 0)).expect(&rt, "memory");
    compare_test(&rt, &crossed, &mut buffer, true, &sorted);
}
