// The lowest segment and the default end, at segments of the narrow engine.

use overlay_geometry::geom::point::IntPoint;
use overlay_geometry::geom::v_segment::VSegment;
use overlay_upstream::geom::end::End;
use overlay_upstream::geom::v_segment::update_if_under;

#[test]
fn the_lowest_of_some_segments_is_kept(rt: HostRuntime) {
    let middle = VSegment {
        a: IntPoint::new(0_i16, 0),
        b: IntPoint::new(4, 0),
    };
    let high = VSegment {
        a: IntPoint::new(1_i16, 1),
        b: IntPoint::new(3, 1),
    };
    let low = VSegment {
        a: IntPoint::new(2_i16, -1),
        b: IntPoint::new(5, -1),
    };
    let mut best = None;
    update_if_under(&mut best, middle);
    let first = best;
    update_if_under(&mut best, high);
    let second = best;
    update_if_under(&mut best, low);
    assert_eq!(rt;
        (first, second, best),
        (Some(middle), Some(middle), Some(low))
    );
}

#[test]
fn a_default_end_is_the_origin(rt: HostRuntime) {
    let end: End<i16> = End::default();
    assert_eq!(rt; (end.index, end.point.x, end.point.y), (0, 0, 0));
}
