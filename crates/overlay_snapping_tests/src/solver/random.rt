// Random lists, each split as the definition says: in squares, and in strips, where segments are nearly parallel.
use super::by_definition::{joined, snapped};
use super::*;

/// A source of numbers: the upper half of a linear congruence.
#[derive(Drop)]
struct Numbers {
    state: u64,
}

impl Numbers {
    /// The next number from 0 to below a bound.
    fn below(&mut self, bound: u32) -> i64 {
        self.state = self
            .state
            .wrapping_mul(6364136223846793005)
            .wrapping_add(1442695040888963407);
        let upper = (self.state >> 32) as u32;
        i64::from(upper % bound.max(1))
    }

    /// A point of a box with a corner at the origin.
    fn point(&mut self, width: u32, height: u32) -> Point {
        (self.below(width), self.below(height))
    }
}

/// Rows between random points, from the smaller one, with the counts 1 and -1.
fn random_rows(
    rt: &(impl Abort + AllocGlobal),
    numbers: &mut Numbers,
    (width, height, most): (u32, u32, u32),
) -> Vec<Row> {
    let mut rows = Vec::new(rt.alloc());
    for _ in 0..numbers.below(most).wrapping_add(2) {
        let (a, b) = (numbers.point(width, height), numbers.point(width, height));
        let count = if numbers.below(2) == 0 { 1 } else { -1 };
        if a < b {
            rows.push((a, b, count)).expect(rt, "memory");
        }
        if b < a {
            rows.push((b, a, count)).expect(rt, "memory");
        }
    }
    rows
}

/// Whether two lists have the same rows, each once.
pub(super) fn has_same_rows(first: &[Row], second: &[Row]) -> bool {
    first.len() == second.len() && first.iter().all(|row| second.iter().any(|it| it == row))
}

/// Splits one list, and wants what the definition says, and nothing changed by a second split.
fn check_rows(rt: &(impl Abort + AllocGlobal), splitter: &mut SnapSolver<i32>, given: &[Row]) {
    let (flag, rows) = snap(rt, splitter, given, Strategy::Auto);
    let wanted = snapped(rt, given);
    assert!(rt; has_same_rows(&joined(rt, &rows), &rows));
    assert!(rt; has_same_rows(&wanted, &rows), "{given:?}");
    assert!(rt; flag != has_same_rows(given, &rows));
}

/// Splits lists of a width, a height and a number of segments.
fn check_lists(rt: &(impl Abort + AllocGlobal), shape: (u32, u32, u32), count: u32) {
    let mut numbers = Numbers {
        state: u64::from(shape.0) << 32 | u64::from(shape.1),
    };
    let mut splitter: SnapSolver<i32> = SnapSolver::new(rt.alloc());
    for _ in 0..count {
        let given = random_rows(rt, &mut numbers, shape);
        check_rows(rt, &mut splitter, &given);
    }
}

#[test]
fn lists_in_squares(rt: HostRuntime) {
    for shape in [(4, 4, 5), (8, 8, 6), (30, 30, 6), (1000, 1000, 5)] {
        check_lists(&rt, shape, 15_000);
    }
}

#[test]
fn lists_in_strips(rt: HostRuntime) {
    for shape in [(100, 5, 6), (1000, 4, 5), (5, 100, 6), (4, 1000, 5)] {
        check_lists(&rt, shape, 10_000);
    }
}
