// Fragments worked by hand.
ghost use Rattle.std.specs.Prelude.{◌≡◌, map};
ghost use Rattle.overlay_grid.specs.Grid.{fragments};

use crate::usable::is_in_range;
use overlay_geometry::geom::point::IntPoint;
use overlay_geometry::geom::x_segment::XSegment;
use overlay_grid::split::fragment_buffer::*;
use overlay_grid::split::grid_layout::GridLayout;
use std::process::Abort;

/// What a segment's fragments are: the column, the least and the greatest `x`, the least and the greatest `y`.
type Part = (usize, (i32, i32), (i32, i32));

/// A line's two ends.
type Line = ((i32, i32), (i32, i32));

/// The segment between two ends.
fn segment((a, b): Line) -> XSegment<i32> {
    XSegment {
        a: IntPoint::new(a.0, a.1),
        b: IntPoint::new(b.0, b.1),
    }
}

/// The fragments of a line in columns of width 2 from 0 to 12.
fn filled(rt: &(impl Abort + AllocGlobal), line: Line) -> FragmentBuffer<i32> {
    let layout = GridLayout::with_min_max(0, 12, 2).expect(rt, "wide enough");
    let mut buffer = FragmentBuffer::new(rt.alloc(), layout).expect(rt, "memory");
    let segment = segment(line);
    assert!(rt; 0 <= segment.a.x);
    assert!(rt; segment.a.x <= segment.b.x);
    assert!(rt; segment.b.x <= 12);
    assert!(rt; is_in_range(&segment));
    buffer.add_segment(0, segment).expect(rt, "memory");
    buffer
}

/// The same as the tables write them.
fn parts(rt: &(impl Abort + AllocGlobal), line: Line) -> Vec<Part> {
    let buffer = filled(rt, line);
    let groups = buffer.groups();
    assert!(rt; groups.len() == 7);
    let mut parts = Vec::new(rt.alloc());
    for column in 0..groups.len() {
        for fragment in groups[column].iter() {
            let rect = fragment.rect;
            let part = (column, (rect.min_x, rect.max_x), (rect.min_y, rect.max_y));
            parts.push(part).expect(rt, "memory");
        }
    }
    parts
}

/// Lines that rise, fall, end within a column and are vertical, and their fragments.
static LINES: [(Line, &[Part]); 4] = [
    (
        ((1, 0), (6, 3)),
        &[
            (0, (1, 2), (0, 1)),
            (1, (2, 4), (0, 2)),
            (2, (4, 6), (1, 3)),
        ],
    ),
    (
        ((1, 3), (6, 0)),
        &[
            (0, (1, 2), (2, 3)),
            (1, (2, 4), (1, 3)),
            (2, (4, 6), (0, 2)),
        ],
    ),
    (
        ((0, 0), (5, 3)),
        &[
            (0, (0, 2), (0, 2)),
            (1, (2, 4), (1, 3)),
            (2, (4, 5), (2, 3)),
        ],
    ),
    (((1, 1), (1, 9)), &[(0, (1, 1), (1, 9))]),
];

#[test]
fn fragments_of_segments(rt: HostRuntime) {
    for (line, wanted) in LINES {
        assert_eq!(rt; parts(&rt, line).as_slice(), wanted);
    }
}

#[test]
fn layouts(rt: HostRuntime) {
    assert!(rt; GridLayout::with_min_max(0, 3, 1).is_none());
    let segments = [
        XSegment {
            a: IntPoint::new(0, 0),
            b: IntPoint::new(50, 1),
        },
        XSegment {
            a: IntPoint::new(10, 0),
            b: IntPoint::new(100, 0),
        },
    ];
    let layout = GridLayout::new(&segments, 4).expect(&rt, "wide enough");
    assert!(rt; layout.column_count() > 1);
    assert!(rt; layout.pos(1) == 32);
}
