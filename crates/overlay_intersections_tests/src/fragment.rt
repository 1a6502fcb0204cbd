// Fragments of whole segments.

use overlay_geometry::geom::point::IntPoint;
use overlay_geometry::geom::x_segment::XSegment;
use overlay_grid::split::fragment::*;

/// A rectangle: the least and the greatest `x`, the least and the greatest `y`.
type Sides = ((i32, i32), (i32, i32));

/// A segment's two ends.
type Ends = ((i32, i32), (i32, i32));

static BOXES: [(Ends, Sides); 4] = [
    (((1, 0), (6, 3)), ((1, 6), (0, 3))),
    (((1, 3), (6, 0)), ((1, 6), (0, 3))),
    (((-2, 5), (-2, 9)), ((-2, -2), (5, 9))),
    (((-4, -1), (7, -1)), ((-4, 7), (-1, -1))),
];

/// The fragment that is a whole segment, with an index.
fn whole(index: usize, (a, b): Ends) -> (usize, Ends, Sides) {
    let a = IntPoint::new(a.0, a.1);
    let b = IntPoint::new(b.0, b.1);
    let Fragment {
        index,
        rect,
        x_segment,
    } = Fragment::with_index_and_segment(index, XSegment { a, b });
    let (a, b) = (x_segment.a, x_segment.b);
    let sides = ((rect.min_x, rect.max_x), (rect.min_y, rect.max_y));
    (index, ((a.x, a.y), (b.x, b.y)), sides)
}

#[test]
fn a_whole_segment_fills_its_box(rt: HostRuntime) {
    for (ends, sides) in BOXES {
        assert_eq!(rt; whole(7, ends), (7, ends, sides));
    }
}
