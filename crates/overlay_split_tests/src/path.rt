// The path of a segment through marks of one x, and its pieces.

use overlay_base::segm::boolean::ShapeCountBoolean;
use overlay_base::segm::segment::Segment;
use overlay_base::segm::winding::WindingCount;
use overlay_geometry::geom::point::IntPoint;
use overlay_geometry::geom::x_segment::XSegment;
use overlay_intersections::split::line_mark::LineMark;
use overlay_split::split::path::collect_path;
use overlay_split::split::piece::push_pieces;

/// The end (2, 0) lies below the start (0, 10), so the marks of one x go downward. What the path held before is
/// dropped.
#[test]
fn marks_of_one_x_go_downward(rt: HostRuntime) {
    let (a, b) = (IntPoint::new(0, 10), IntPoint::new(2, 0));
    let (low, high) = (IntPoint::new(1, 3), IntPoint::new(1, 7));
    let marks = [
        LineMark {
            index: 0,
            point: low,
        },
        LineMark {
            index: 0,
            point: high,
        },
    ];
    let mut path: Vec<IntPoint<i32>> = Vec::new(rt.alloc());
    path.push(a).expect(&rt, "memory");
    collect_path(a, &marks, b, &mut path).expect(&rt, "memory");
    assert!(rt; path.as_slice() == [high, low, b].as_slice());
}

/// The pieces of that path: the middle one runs down, so it is turned and its count inverted.
#[test]
fn a_piece_that_runs_down_is_turned(rt: HostRuntime) {
    let (a, b) = (IntPoint::new(0, 10), IntPoint::new(2, 0));
    let (low, high) = (IntPoint::new(1, 3), IntPoint::new(1, 7));
    let count = ShapeCountBoolean { subj: 1, clip: 0 };
    assert!(rt; count.is_valid());
    let mut pieces: Vec<Segment<ShapeCountBoolean, i32, ()>> = Vec::new(rt.alloc());
    push_pieces(&mut pieces, a, &[high, low, b], count, (), &mut ()).expect(&rt, "memory");
    let mut found = Vec::new(rt.alloc());
    for piece in pieces.iter() {
        let row = (piece.x_segment(), piece.count().subj);
        found.push(row).expect(&rt, "memory");
    }
    let wanted = [
        (XSegment { a, b: high }, 1),
        (XSegment { a: low, b: high }, -1),
        (XSegment { a: low, b }, 1),
    ];
    assert_eq!(rt; found.as_slice(), wanted.as_slice());
}
