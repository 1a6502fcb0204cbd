// Each order once, at segments of the narrow engine.

use overlay_geometry::geom::point::IntPoint;
use overlay_geometry::geom::v_segment::VSegment;
use std::cmp::Ordering;

#[test]
fn a_segment_runs_under_a_higher_point(rt: HostRuntime) {
    let level = VSegment {
        a: IntPoint::new(-10_i16, -10),
        b: IntPoint::new(10, -10),
    };
    assert_eq!(rt;
        level.is_under_point_order(IntPoint::new(-10, 10)),
        Ordering::Less
    );
}

#[test]
fn one_segment_runs_under_another(rt: HostRuntime) {
    let low = VSegment {
        a: IntPoint::new(0_i16, 0),
        b: IntPoint::new(4, 0),
    };
    let high = VSegment {
        a: IntPoint::new(1_i16, 1),
        b: IntPoint::new(3, 1),
    };
    let orders = (
        low.is_under_segment_order(&high),
        high.is_under_segment_order(&low),
        low.is_under_segment(&high),
    );
    assert_eq!(rt; orders, (Ordering::Less, Ordering::Greater, true));
}

#[test]
fn angles_go_from_below_to_above(rt: HostRuntime) {
    let level = VSegment {
        a: IntPoint::new(0_i16, 0),
        b: IntPoint::new(4, 0),
    };
    let upright = VSegment {
        a: IntPoint::new(0_i16, 0),
        b: IntPoint::new(0, 4),
    };
    assert_eq!(rt; level.cmp_by_angle(&upright), Ordering::Less);
}
