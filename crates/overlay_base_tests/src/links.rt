// Links between two nodes.

use overlay_base::overlay_core::link::OverlayLink;
use overlay_geometry::geom::id_point::IdPoint;
use overlay_geometry::geom::point::IntPoint;

#[test]
fn a_link_is_direct_where_its_ends_are_in_order(rt: HostRuntime) {
    let first = IdPoint::new(0, IntPoint::new(2, 0));
    let second = IdPoint::new(1, IntPoint::new(2, 5));
    let direct: OverlayLink<i32, ()> = OverlayLink::new_with_data(first, second, 1, ());
    let reversed: OverlayLink<i32, ()> = OverlayLink::new_with_data(second, first, 1, ());
    assert!(rt; direct.is_direct() && !reversed.is_direct());
    assert!(rt; direct.other(0) == second && direct.other(1) == first);
}
