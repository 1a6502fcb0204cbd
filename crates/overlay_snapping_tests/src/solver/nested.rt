// Squares inside one another, whose sides overlap along lines: against the definition, and with the counts by hand.
use super::by_definition::snapped;
use super::random::has_same_rows;
use super::*;

/// So many squares have sides that are added up along their lines.
const SQUARES: i64 = 40;

/// Where the squares lie.
#[derive(Clone, Copy)]
enum Place {
    /// All have one corner, from which their sides run to the right and up.
    AtCorner,
    /// All have one corner, to which their sides run.
    BeforeCorner,
    /// The lower side of each lies on one line, around one point.
    OnLine,
    /// Those at one corner, turned by an eighth.
    Turned,
}

impl Place {
    /// A corner of the square with a side: right or left, above or below.
    fn corner(self, side: i64, right: bool, above: bool) -> Point {
        let x = if right { side } else { 0 };
        let y = if above { side } else { 0 };
        match self {
            Place::AtCorner => (x, y),
            Place::BeforeCorner => (x.wrapping_sub(side), y.wrapping_sub(side)),
            Place::OnLine => (x.wrapping_mul(2).wrapping_sub(side), y),
            Place::Turned => (x.wrapping_sub(y), x.wrapping_add(y)),
        }
    }
}

/// The sides of the squares; with `alternates`, every second runs the other way. Each row runs from its lesser end.
fn squares(rt: &(impl Abort + AllocGlobal), place: Place, alternates: bool) -> Vec<Row> {
    let mut rows = Vec::new(rt.alloc());
    for index in 0..SQUARES {
        let side = index.wrapping_add(10);
        let corners = [(false, false), (true, false), (true, true), (false, true)];
        let count = if alternates && index % 2 == 1 {
            -1_i32
        } else {
            1
        };
        for at in 0..4_usize {
            let (from, to) = (corners[at], corners[(at + 1) % 4]);
            let from = place.corner(side, from.0, from.1);
            let to = place.corner(side, to.0, to.1);
            let row = if from < to {
                (from, to, count)
            } else {
                (to, from, count.wrapping_neg())
            };
            rows.push(row).expect(rt, "memory");
        }
    }
    rows
}

/// Splits rows, and wants what the definition says, and that far crossings moved.
pub(super) fn check(rt: &(impl Abort + AllocGlobal), given: &[Row], reach: u128) {
    let mut splitter: SnapSolver<i32> = SnapSolver::new(rt.alloc());
    let (flag, rows) = snap(rt, &mut splitter, given, Strategy::Auto);
    assert!(rt; flag);
    assert!(rt; splitter.reach() == reach);
    assert!(rt; has_same_rows(&snapped(rt, given), &rows));
}

#[test]
fn squares_with_sides_along_lines(rt: HostRuntime) {
    for place in [
        Place::AtCorner,
        Place::BeforeCorner,
        Place::OnLine,
        Place::Turned,
    ] {
        for alternates in [false, true] {
            check(&rt, &squares(&rt, place, alternates), 0);
        }
    }
}

#[test]
fn squares_and_a_rounded_crossing(rt: HostRuntime) {
    let mut given = squares(&rt, Place::AtCorner, false);
    given.push(((-3, 1), (60, 4), 1)).expect(&rt, "memory");
    check(&rt, &given, 1);
}

#[test]
fn counts_along_the_sides_by_hand(rt: HostRuntime) {
    let mut splitter: SnapSolver<i32> = SnapSolver::new(rt.alloc());
    let given = squares(&rt, Place::AtCorner, false);
    let (_, rows) = snap(&rt, &mut splitter, &given, Strategy::Auto);
    assert!(rt; rows.len() == 160);
    for wanted in [
        ((0, 0), (10, 0), 40),
        ((0, 0), (0, 10), -40),
        ((10, 0), (11, 0), 39),
        ((0, 48), (0, 49), -1),
        ((48, 0), (49, 0), 1),
        ((30, 0), (30, 30), 1),
    ] {
        assert!(rt; rows.iter().any(|row| *row == wanted));
    }
}
