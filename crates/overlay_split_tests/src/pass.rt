// Single passes over lists worked by hand.
ghost use Rattle.std.specs.Prelude.{pos, ◌≤ℤ◌, IsTrue};
ghost use Rattle.overlay_base.specs.Segments.{is_map};
ghost use Rattle.overlay_base.specs.SegmentOf.{segments_of};
ghost use Rattle.overlay_intersections.specs.PlacingOf.{HasRadius};

use overlay_base::overlay_core::solver::Solver;
use overlay_base::segm::arranged::is_splittable;
use overlay_base::segm::boolean::ShapeCountBoolean;
use overlay_base::segm::fault::Fault;
use overlay_base::segm::join::join_with_store;
use overlay_base::segm::segment::Segment;
use overlay_base::segm::winding::WindingCount;
use overlay_geometry::geom::point::IntPoint;
use overlay_geometry::geom::x_segment::XSegment;
use overlay_intersections::split::placing::Placing;
use overlay_split::split::finder::PairFinder;
use overlay_split::split::pass::*;
use std::alloc::Global;
use std::process::Abort;
use std::test::Fail;

type BooleanSegment = Segment<ShapeCountBoolean, i32, ()>;

/// The segments of these ends, along each of which the subject winds so often.
fn given(alloc: Global, ends: &[[i32; 4]], subj: i32) -> Result<Vec<BooleanSegment>, Fail> {
    let mut list = Vec::new(alloc);
    let count = ShapeCountBoolean::new(subj, 0);
    for [ax, ay, bx, by] in ends.iter().copied() {
        let (a, b) = (IntPoint::new(ax, ay), IntPoint::new(bx, by));
        if a == b || !count.is_valid() {
            return Err(Fail::from("no segment"));
        }
        list.push(Segment::create_and_validate_with_data(a, b, count, (), &mut ()))?;
    }
    Ok(list)
}

/// Sorts and merges segments.
fn join(rt: &impl Abort, list: &mut Vec<BooleanSegment>)
    ensures map { IsTrue (is_map (segments_of list.new.items)) }
{
    assert!(rt; is_splittable(list));
    join_with_store(list, &mut ()).expect(rt, "counts in range");
}

/// Joins a list, and makes one pass over it.
fn joined_once(
    rt: &impl Abort,
    alloc: Global,
    list: &mut Vec<BooleanSegment>,
    solver: &Solver,
    placing: Placing,
) -> Result<Passed, Fault>
    requires { HasRadius placing }
{
    join(rt, list);
    assert!(rt; is_splittable(list));
    let mut buffers = PassBuffers::new(alloc);
    let mut finder = PairFinder::without_grid(solver);
    pass(list, placing, &mut finder, &mut buffers, &mut ())
}

/// A list as the tables write it: each segment's ends, and how often the subject winds along it.
fn rows(alloc: Global, list: &[BooleanSegment]) -> Result<Vec<[i32; 5]>, Fail> {
    let mut rows = Vec::new(alloc);
    for segment in list {
        let XSegment { a, b } = segment.x_segment();
        rows.push([a.x, a.y, b.x, b.y, segment.count().subj])?;
    }
    Ok(rows)
}

const ROUNDED: Passed = Passed {
    is_rounded: true,
    has_marks: true,
};

const EXACT: Passed = Passed {
    is_rounded: false,
    has_marks: true,
};

const UNMARKED: Passed = Passed {
    is_rounded: false,
    has_marks: false,
};

/// A name, what is given, the squared radius of a pass that snaps, what it leaves, and what it reports. A pass without
/// a radius settles.
type Worked = (
    &'static str,
    &'static [[i32; 4]],
    Option<i64>,
    &'static [[i32; 5]],
    Passed,
);

static PASSES: [Worked; 10] = [
    (
        "an exact crossing",
        &[[-2, 0, 2, 0], [0, -2, 0, 2]],
        Some(1),
        &[
            [-2, 0, 0, 0, 1],
            [0, -2, 0, 0, 1],
            [0, 0, 0, 2, 1],
            [0, 0, 2, 0, 1],
        ],
        EXACT,
    ),
    (
        "a rounded crossing beyond the radius",
        &[[0, 0, 5, 5], [0, 3, 5, -2]],
        Some(1),
        &[
            [0, 0, 2, 2, 1],
            [0, 3, 2, 2, 1],
            [2, 2, 5, -2, 1],
            [2, 2, 5, 5, 1],
        ],
        ROUNDED,
    ),
    (
        "a rounded crossing within the radius",
        &[[0, 0, 5, 5], [0, 3, 5, -2]],
        Some(8),
        &[[0, 0, 0, 3, 1], [0, 3, 5, -2, 1], [0, 3, 5, 5, 1]],
        ROUNDED,
    ),
    (
        "a piece that is turned",
        &[[0, 0, 100, 1], [1, -50, 1, 50]],
        Some(1),
        &[[0, 0, 1, -50, -1], [0, 0, 1, 50, 1], [0, 0, 100, 1, 1]],
        ROUNDED,
    ),
    (
        "a crossing that settles",
        &[[0, 0, 100, 1], [1, -50, 1, 50]],
        None,
        &[
            [0, 0, 1, 0, 1],
            [1, -50, 1, 0, 1],
            [1, 0, 1, 50, 1],
            [1, 0, 100, 1, 1],
        ],
        ROUNDED,
    ),
    (
        "a crossing that settles on an end",
        &[[0, -1, 1, 0], [0, 0, 1, -1]],
        None,
        &[[0, -1, 1, 0, 1], [0, 0, 1, 0, 1], [1, -1, 1, 0, -1]],
        ROUNDED,
    ),
    (
        "halves settle upward",
        &[[-1, 1, 2, -2], [0, -1, 1, 0]],
        None,
        &[[-1, 1, 1, 0, 1], [0, -1, 1, 0, 1], [1, 0, 2, -2, 1]],
        ROUNDED,
    ),
    (
        "an overlap",
        &[
            [0, 0, 100, 0],
            [80, 0, 150, 0],
            [0, 1000, 150, 1000],
            [0, 2000, 150, 2000],
        ],
        Some(1),
        &[
            [0, 0, 80, 0, 1],
            [0, 1000, 150, 1000, 1],
            [0, 2000, 150, 2000, 1],
            [80, 0, 100, 0, 2],
            [100, 0, 150, 0, 1],
        ],
        EXACT,
    ),
    (
        "a touch",
        &[
            [4, 0, 4, 6],
            [0, 3, 4, 3],
            [0, 100, 8, 100],
            [0, 102, 8, 102],
        ],
        Some(1),
        &[
            [0, 3, 4, 3, 1],
            [0, 100, 8, 100, 1],
            [0, 102, 8, 102, 1],
            [4, 0, 4, 3, 1],
            [4, 3, 4, 6, 1],
        ],
        EXACT,
    ),
    (
        "nothing to split",
        &[[0, 0, 4, 0], [0, 1, 4, 1]],
        None,
        &[[0, 0, 4, 0, 1], [0, 1, 4, 1, 1]],
        UNMARKED,
    ),
];

/// A pass that snaps within a radius, or one that settles.
fn placing(radius: Option<i64>) -> Placing
    ensures { HasRadius result }
{
    match radius {
        Some(radius_squared) if 1 <= radius_squared => Placing::Snapping { radius_squared },
        _ => Placing::Settling,
    }
}

#[test]
fn worked_passes(rt: HostRuntime) -> Result<(), Fail> {
    for (name, ends, radius, wanted, told) in PASSES {
        let mut list = given(rt.alloc(), ends, 1)?;
        let passed = joined_once(&rt, rt.alloc(), &mut list, &Solver::LIST, placing(radius));
        let found = rows(rt.alloc(), &list)?;
        assert!(rt; found.as_slice() == wanted && passed == Ok(told), "{name}");
    }
    Ok(())
}

#[test]
fn counts_of_pieces_that_leave_the_range(rt: HostRuntime) -> Result<(), Fail> {
    let mut list = given(rt.alloc(), &[[0, 0, 4, 0], [2, 0, 6, 0]], i32::MAX)?;
    let refused = joined_once(&rt, rt.alloc(), &mut list, &Solver::TREE, Placing::Settling);
    assert!(rt; refused == Err(Fault::CountOutOfRange));
    assert!(rt; list.is_empty());
    Ok(())
}
