// Each call of the plane once, at points of the narrow engine.

use overlay_geometry::geom::point::IntPoint;
use overlay_geometry::geom::rect::IntRect;
use overlay_geometry::geom::triangle::Triangle;
use overlay_geometry::geom::x_segment::XSegment;
use std::cmp::Ordering;

#[test]
fn turns_and_distances(rt: HostRuntime) {
    let p: IntPoint<i16> = IntPoint::new(-16384, -16384);
    let q = IntPoint::new(16383, -16384);
    let r = IntPoint::new(16383, 16383);
    let turns = (
        Triangle::clock_direction(p, q, r),
        Triangle::clock_order(p, r, q),
        Triangle::is_clockwise(p, r, q),
        Triangle::is_line(p, q, q),
        Triangle::is_not_line(p, q, r),
    );
    assert_eq!(rt; turns, (-1, Ordering::Less, true, true, true));
    assert_eq!(rt; p.sqr_distance(r), 2_147_352_578);
}

#[test]
fn the_origin(rt: HostRuntime) {
    let origin = IntPoint::<i16>::ZERO;
    assert_eq!(rt; (origin.x, origin.y), (0, 0));
}

#[test]
fn ranges(rt: HostRuntime) {
    let falling: XSegment<i16> = XSegment {
        a: IntPoint::new(0, 5),
        b: IntPoint::new(3, -2),
    };
    let level = XSegment {
        a: IntPoint::new(0, 6),
        b: IntPoint::new(3, 6),
    };
    let range = falling.y_range();
    assert_eq!(rt; (range.min, range.max), (-2, 5));
    assert!(rt; falling.is_not_vertical());
    assert!(rt; level.is_not_intersect_y_range(&range));
}

#[test]
fn rectangles_that_touch_in_a_corner(rt: HostRuntime) {
    let first: IntRect<i16> = IntRect {
        min_x: 0,
        max_x: 2,
        min_y: 0,
        max_y: 2,
    };
    let second = IntRect {
        min_x: 2,
        max_x: 4,
        min_y: 2,
        max_y: 4,
    };
    assert!(rt; first.is_intersect_border_include(&second));
}
