// What snap rounding makes of a list, by its definition: every pair, every point and every segment is tried until nothing
// moves any more.
use super::*;

/// A bound of the share of a segment at which a point of it is: a fraction, and whether the share may be it.
#[derive(Clone, Copy)]
struct Bound {
    over: i64,
    under: i64,
    is_closed: bool,
}

impl Bound {
    fn new(over: i64, under: i64, is_closed: bool) -> Bound {
        Bound {
            over,
            under,
            is_closed,
        }
    }

    /// Whether a share is above this bound and below another one.
    fn leaves_room(&self, other: &Bound) -> bool {
        let least = self.over.wrapping_mul(other.under);
        let greatest = other.over.wrapping_mul(self.under);
        least < greatest || least == greatest && self.is_closed && other.is_closed
    }
}

/// Between which shares a coordinate that goes from one number to another rounds to `at`.
fn shares(from: i64, to: i64, at: i64) -> Option<(Bound, Bound)> {
    let low = at.wrapping_sub(from).wrapping_mul(2).wrapping_sub(1);
    let high = low.wrapping_add(2);
    let run = to.wrapping_sub(from).wrapping_mul(2);
    if run > 0 {
        Some((Bound::new(low, run, true), Bound::new(high, run, false)))
    } else if run < 0 {
        let under = run.wrapping_neg();
        let least = Bound::new(high.wrapping_neg(), under, false);
        Some((least, Bound::new(low.wrapping_neg(), under, true)))
    } else if from == at {
        Some((Bound::new(0, 1, true), Bound::new(1, 1, true)))
    } else {
        None
    }
}

/// Whether a point of a segment rounds to a point.
fn meets((a, b, _): &Row, at: &Point) -> bool {
    let (Some(x), Some(y)) = (shares(a.0, b.0, at.0), shares(a.1, b.1, at.1)) else {
        return false;
    };
    let least = [Bound::new(0, 1, true), x.0, y.0];
    let greatest = [Bound::new(1, 1, true), x.1, y.1];
    least
        .iter()
        .all(|low| greatest.iter().all(|high| low.leaves_room(high)))
}

/// Twice the area between two vectors.
fn area(first: Point, second: Point) -> i64 {
    let (left, right) = (
        first.0.wrapping_mul(second.1),
        first.1.wrapping_mul(second.0),
    );
    left.wrapping_sub(right)
}

/// The vector from a point to another.
fn vector(from: Point, to: Point) -> Point {
    (to.0.wrapping_sub(from.0), to.1.wrapping_sub(from.1))
}

/// Whether a point that a segment meets lies on it.
fn is_on(&(a, b, _): &Row, at: &Point) -> bool {
    area(vector(a, b), vector(a, *at)) == 0
}

/// The point that a quotient in each coordinate, from a point on, rounds to, and whether it is not whole.
fn rounded(from: Point, over: Point, under: i64) -> Option<Heated> {
    let x = over.0.wrapping_add(from.0.wrapping_mul(under));
    let y = over.1.wrapping_add(from.1.wrapping_mul(under));
    if under <= 0 {
        return None;
    }
    let is_hot = x.rem_euclid(under) != 0 || y.rem_euclid(under) != 0;
    let halves = under.wrapping_mul(2);
    if halves <= 0 {
        return None;
    }
    let (x, y) = (x.wrapping_mul(2), y.wrapping_mul(2));
    let at = (
        x.wrapping_add(under).div_euclid(halves),
        y.wrapping_add(under).div_euclid(halves),
    );
    Some(Heated { at, is_hot })
}

/// Where two segments that are not parallel meet, rounded, and whether that point is not whole.
fn crossing(&(a, b, _): &Row, &(c, d, _): &Row) -> Option<Heated> {
    let (first, second, between) = (vector(a, b), vector(c, d), vector(a, c));
    let turn = area(first, second);
    if turn == 0 {
        return None;
    }
    let sign = turn.signum();
    let under = turn.wrapping_mul(sign);
    let along = area(between, second).wrapping_mul(sign);
    let across = area(between, first).wrapping_mul(sign);
    if !(0..=under).contains(&along) || !(0..=under).contains(&across) {
        return None;
    }
    let over = (first.0.wrapping_mul(along), first.1.wrapping_mul(along));
    rounded(a, over, under)
}

/// A segment of a list, and whether it moves.
#[derive(Clone, Copy)]
struct Moving {
    row: Row,
    moves: bool,
}

impl Moving {
    /// Whether its chain has a point, of those that are hot, ends or whole crossings.
    fn passes(&self, at: &Point) -> bool {
        meets(&self.row, at) && (self.moves || is_on(&self.row, at))
    }

    /// Where a point is in the order of the chain.
    fn place(&self, at: &Point) -> Point {
        let falls = self.row.1.1 < self.row.0.1;
        (at.0, if falls { at.1.wrapping_neg() } else { at.1 })
    }
}

/// A point, and whether it is hot.
#[derive(Clone, Copy)]
struct Heated {
    at: Point,
    is_hot: bool,
}

/// Notes a point once; it is hot where it is noted as hot once.
fn note(rt: &impl Abort, points: &mut Vec<Heated>, point: Heated) {
    for known in points.iter_mut() {
        if known.at == point.at {
            known.is_hot |= point.is_hot;
            return;
        }
    }
    points.push(point).expect(rt, "memory");
}

/// The ends and the crossings of some rows.
fn points_of(rt: &(impl Abort + AllocGlobal), rows: &[Row]) -> Vec<Heated> {
    let mut points = Vec::new(rt.alloc());
    for first in rows {
        for at in [first.0, first.1] {
            note(rt, &mut points, Heated { at, is_hot: false });
        }
        for second in rows {
            if let Some(point) = crossing(first, second) {
                note(rt, &mut points, point);
            }
        }
    }
    points
}

/// Has each hot point move the segments that meet it, and each of these heat the points that it meets. Returns whether any did.
fn spread(segments: &mut [Moving], points: &mut [Heated]) -> bool {
    let mut has_spread = false;
    for segment in segments.iter_mut() {
        for point in points.iter_mut() {
            let is_beside = meets(&segment.row, &point.at) && !is_on(&segment.row, &point.at);
            if is_beside && segment.moves != point.is_hot {
                segment.moves = true;
                point.is_hot = true;
                has_spread = true;
            }
        }
    }
    has_spread
}

/// The point after another one in the chain of a segment.
fn next(segment: &Moving, points: &[Heated], from: &Point) -> Option<Point> {
    let mut found: Option<Point> = None;
    for point in points {
        let is_later = segment.place(from) < segment.place(&point.at);
        let is_nearer = found.is_none_or(|it| segment.place(&point.at) < segment.place(&it));
        if is_later && is_nearer && segment.passes(&point.at) {
            found = Some(point.at);
        }
    }
    found
}

/// Adds a step of a chain to rows, with its count, turned where it goes backward.
fn push_step(rt: &impl Abort, rows: &mut Vec<Row>, from: Point, to: Point, count: i32) {
    let step = if from < to {
        (from, to, count)
    } else {
        (to, from, count.wrapping_neg())
    };
    rows.push(step).expect(rt, "memory");
}

/// Rows joined: one for each pair of ends, with the sum of its counts, where that is not zero.
pub(super) fn joined(rt: &(impl Abort + AllocGlobal), given: &[Row]) -> Vec<Row> {
    let mut rows: Vec<Row> = Vec::new(rt.alloc());
    for (a, b, _) in given {
        let is_known = rows.iter().any(|row| (&row.0, &row.1) == (a, b));
        let mut sum: i32 = 0;
        for row in given {
            if (&row.0, &row.1) == (a, b) {
                sum = sum.wrapping_add(row.2);
            }
        }
        if sum != 0 && !is_known {
            rows.push((*a, *b, sum)).expect(rt, "memory");
        }
    }
    rows
}

/// The steps of the chains of some segments.
fn steps(rt: &(impl Abort + AllocGlobal), segments: &[Moving], points: &[Heated]) -> Vec<Row> {
    let mut rows = Vec::new(rt.alloc());
    for segment in segments {
        for point in points {
            if !segment.passes(&point.at) {
                continue;
            }
            if let Some(to) = next(segment, points, &point.at) {
                push_step(rt, &mut rows, point.at, to, segment.row.2);
            }
        }
    }
    rows
}

/// What snap rounding makes of some rows, in no order.
pub(super) fn snapped(rt: &(impl Abort + AllocGlobal), given: &[Row]) -> Vec<Row> {
    let rows = joined(rt, given);
    let mut points = points_of(rt, &rows);
    let mut segments = Vec::new(rt.alloc());
    for row in rows.iter() {
        let segment = Moving {
            row: *row,
            moves: false,
        };
        segments.push(segment).expect(rt, "memory");
    }
    for _ in 0..=points.len() {
        if !spread(&mut segments, &mut points) {
            break;
        }
    }
    assert!(rt; !spread(&mut segments, &mut points));
    joined(rt, &steps(rt, &segments, &points))
}
