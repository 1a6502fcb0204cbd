// Lists split by snap rounding: worked by hand, made to grow, and random, against the definition.
use overlay_base::overlay_core::solver::{Precision, Solver, Strategy};
use overlay_base::segm::arranged::{is_arranged, is_splittable};
use overlay_base::segm::boolean::ShapeCountBoolean;
use overlay_base::segm::segment::Segment;
use overlay_base::segm::winding::WindingCount;
use overlay_geometry::geom::point::IntPoint;
use overlay_geometry::num::OverlayInt;
use overlay_snapping::snap::solver::SnapSolver;
use std::process::Abort;

mod by_definition;
mod growing;
mod nested;
mod random;
mod searches;

type Counted<I> = Segment<ShapeCountBoolean, I, ()>;

type Point = (i64, i64);

/// A segment as the tables write it: from, to, the count for the subject.
type Row = (Point, Point, i32);

/// A name, what is given, whether the list changes, how far crossings are moved at most in halves of a unit, and the list
/// after the split.
type Split = (&'static str, &'static [Row], bool, u128, &'static [Row]);

static SPLITS: [Split; 9] = [
    ("nothing", &[], false, 0, &[]),
    (
        "two that cancel",
        &[((0, 0), (3, 1), 1), ((0, 0), (3, 1), -1)],
        true,
        0,
        &[],
    ),
    (
        "a crossing at a whole point",
        &[((-2, 0), (2, 0), 1), ((0, -2), (0, 2), 1)],
        true,
        0,
        &[
            ((-2, 0), (0, 0), 1),
            ((0, -2), (0, 0), 1),
            ((0, 0), (0, 2), 1),
            ((0, 0), (2, 0), 1),
        ],
    ),
    (
        "a crossing halfway in both coordinates is rounded up",
        &[((0, 0), (5, 5), 1), ((0, 3), (5, -2), 1)],
        true,
        1,
        &[
            ((0, 0), (2, 2), 1),
            ((0, 3), (2, 2), 1),
            ((2, 2), (5, -2), 1),
            ((2, 2), (5, 5), 1),
        ],
    ),
    (
        "a segment passes beside the rounded crossing",
        &[((0, 0), (100, 1), 1), ((1, -50), (1, 50), 1)],
        true,
        1,
        &[
            ((0, 0), (1, 0), 1),
            ((1, -50), (1, 0), 1),
            ((1, 0), (1, 50), 1),
            ((1, 0), (100, 1), 1),
        ],
    ),
    (
        "no crossing is rounded, so nothing moves",
        &[((0, 0), (10, 1), 1), ((5, 1), (5, 7), 1)],
        false,
        0,
        &[((0, 0), (10, 1), 1), ((5, 1), (5, 7), 1)],
    ),
    (
        "pixels hold their lower left corners and no others",
        &[
            ((-5, 4), (4, -5), 1),
            ((-4, 2), (-3, 3), 1),
            ((0, 0), (0, 3), 1),
            ((1, -4), (2, -4), 1),
        ],
        true,
        1,
        &[
            ((-5, 4), (-3, 3), 1),
            ((-4, 2), (-3, 3), 1),
            ((-3, 3), (0, 0), 1),
            ((0, 0), (0, 3), 1),
            ((0, 0), (4, -5), 1),
            ((1, -4), (2, -4), 1),
        ],
    ),
    (
        "a falling segment ends with a step down its column",
        &[((0, 0), (1, -3), 1), ((0, -2), (3, 0), 1)],
        true,
        1,
        &[
            ((0, -2), (1, -2), 1),
            ((0, 0), (1, -2), 1),
            ((1, -3), (1, -2), -1),
            ((1, -2), (3, 0), 1),
        ],
    ),
    (
        "an end on a segment",
        &[((0, 0), (4, 2), 1), ((2, 1), (2, 5), 1)],
        true,
        0,
        &[
            ((0, 0), (2, 1), 1),
            ((2, 1), (2, 5), 1),
            ((2, 1), (4, 2), 1),
        ],
    ),
];

/// A coordinate of the engine.
fn coordinate<I: OverlayInt>(rt: &impl Abort, number: i64) -> I {
    assert!(rt; I::MIN_COORD.to_wide() <= number && number <= I::MAX_COORD.to_wide());
    I::from_wide(number)
}

/// A point of the engine.
fn point<I: OverlayInt>(rt: &impl Abort, (x, y): Point) -> IntPoint<I> {
    IntPoint::new(coordinate(rt, x), coordinate(rt, y))
}

/// The segment of a row.
fn segment<I: OverlayInt>(rt: &impl Abort, (a, b, subj): Row) -> Counted<I> {
    let (a, b) = (point(rt, a), point(rt, b));
    let count = ShapeCountBoolean::new(subj, 0);
    assert!(rt; a != b);
    assert!(rt; count.is_valid());
    Segment::create_and_validate_with_data(a, b, count, (), &mut ())
}

/// A segment as the tables write it.
fn row<I: OverlayInt>(segment: &Counted<I>) -> Row {
    let ends = segment.x_segment();
    let a = (ends.a.x.to_wide(), ends.a.y.to_wide());
    let b = (ends.b.x.to_wide(), ends.b.y.to_wide());
    (a, b, segment.count().subj)
}

/// Splits the segments of some rows. Returns whether the list changed, and the rows after that.
fn snap<I: OverlayInt>(
    rt: &(impl Abort + AllocGlobal),
    splitter: &mut SnapSolver<I>,
    given: &[Row],
    strategy: Strategy,
) -> (bool, Vec<Row>) {
    let mut list = Vec::new(rt.alloc());
    for row in given {
        list.push(segment(rt, *row)).expect(rt, "memory");
    }
    assert!(rt; is_splittable(&list));
    let solver = Solver::with_strategy_and_precision(strategy, Precision::HIGH);
    let flag = splitter.split_segments(&mut list, &solver);
    assert!(rt; is_arranged(&list));
    let mut rows = Vec::new(rt.alloc());
    for segment in list.iter() {
        rows.push(row(segment)).expect(rt, "memory");
    }
    (flag.expect(rt, "no refusal"), rows)
}

/// Splits each list of the table.
fn check_splits<I: OverlayInt>(rt: &(impl Abort + AllocGlobal)) {
    let mut splitter: SnapSolver<I> = SnapSolver::new(rt.alloc());
    for (name, given, changes, reach, wanted) in SPLITS {
        for strategy in [Strategy::List, Strategy::Tree, Strategy::Frag] {
            let (flag, rows) = snap(rt, &mut splitter, given, strategy);
            assert_eq!(rt; (flag, rows.as_slice()), (changes, wanted), "{name}");
            assert_eq!(rt; splitter.reach(), reach, "{name}");
        }
    }
}

#[test]
fn lists_worked_by_hand(rt: HostRuntime) {
    check_splits::<i16>(&rt);
    check_splits::<i32>(&rt);
}
