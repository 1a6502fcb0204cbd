// The segments of the tables.

use overlay_base::segm::segment::Segment;
use overlay_base::segm::winding::WindingCount;
use overlay_geometry::geom::point::IntPoint;

/// The segment between two points, or `None` where these are one or the count is not valid.
pub fn segment<C: WindingCount>(
    (ax, ay): (i32, i32),
    (bx, by): (i32, i32),
    count: C,
) -> Option<Segment<C, i32, ()>> {
    let (a, b) = (IntPoint::new(ax, ay), IntPoint::new(bx, by));
    if a == b || !count.is_valid() {
        return None;
    }
    Some(Segment::create_and_validate_with_data(a, b, count, (), &mut ()))
}
