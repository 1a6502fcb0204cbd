// Lists whose points are found in each way: in cells, one by one, and by a tree of boxes. Against the definition.
use super::nested::check;
use super::*;

/// Crosses of two short edges, a thousand units from one another along a diagonal; each crossing is rounded by half a unit.
fn crosses(rt: &(impl Abort + AllocGlobal), count: i64) -> Vec<Row> {
    let mut rows = Vec::new(rt.alloc());
    for index in 0..count {
        let at = index.wrapping_mul(1000);
        for (from, to) in [((0, 0), (5, 5)), ((0, 3), (5, -2))] {
            let row = (moved(from, at), moved(to, at), 1_i32);
            rows.push(row).expect(rt, "memory");
        }
    }
    rows
}

/// A point, moved along the diagonal.
fn moved((x, y): Point, by: i64) -> Point {
    (x.wrapping_add(by), y.wrapping_add(by))
}

/// Appends edges along nearly the whole diagonal, which turn about its middle, so that they pass by different crosses.
fn append_long(rt: &impl Abort, rows: &mut Vec<Row>, count: i64) {
    for index in 0..count {
        let off = index.wrapping_sub(count / 2);
        let (from, to) = (
            moved((0, off), -3000),
            moved((0, off.wrapping_neg()), 14_000),
        );
        rows.push((from, to, 1)).expect(rt, "memory");
    }
}

/// Two bundles of edges that cross within a hundred units, and edges of 60,000 units far from them, so that cells are wide.
fn crowd(rt: &(impl Abort + AllocGlobal), side: i64, far: i64) -> Vec<Row> {
    let mut rows = Vec::new(rt.alloc());
    for index in 0..side {
        let at = index.wrapping_mul(10);
        let across = ((-1, at), (121, at.wrapping_add(3)), 1_i32);
        let up = ((at, -1), (at.wrapping_add(3), 122), 1_i32);
        rows.push(across).expect(rt, "memory");
        rows.push(up).expect(rt, "memory");
    }
    for index in 0..far {
        let y = index.wrapping_mul(10).wrapping_add(100_000);
        rows.push(((0, y), (60_000, y), 1)).expect(rt, "memory");
    }
    rows
}

#[test]
fn long_segments_among_short_ones(rt: HostRuntime) {
    for count in [1, 4, 5, 9] {
        let mut given = crosses(&rt, 12);
        append_long(&rt, &mut given, count);
        check(&rt, &given, 1);
    }
}

#[test]
fn few_points_beside_many_segments(rt: HostRuntime) {
    for count in [2, 10, 12] {
        let mut given = crosses(&rt, count);
        for index in 0..200_i64 {
            let at = index.wrapping_mul(60);
            let row = (moved((900, 20), at), moved((907, 26), at), 1_i32);
            given.push(row).expect(&rt, "memory");
        }
        check(&rt, &given, 1);
    }
}

#[test]
fn many_points_in_few_cells(rt: HostRuntime) {
    for side in [3, 7, 12] {
        check(&rt, &crowd(&rt, side, 30), 1);
    }
}
