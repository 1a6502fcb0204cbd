// Splits with the hooks of a user, one splitter used several times, and how far splits move things.
ghost use Rattle.std.specs.Prelude.{◌≡◌, ◌+◌, ◌&&◌, [], false, Ok, All, Option};
ghost use Rattle.overlay_base.specs.declared.segm.fault.Fault.TheVariants.{CountOutOfRange};
ghost use Rattle.overlay_base.specs.Segments.{pairs, ends};
ghost use Rattle.overlay_cuts.specs.Pass.{pass};

use overlay_base::overlay_core::edge_data::{EdgeDataMerge, EdgeDataSplit, OverlayEdgeData};
use overlay_base::overlay_core::solver::{Precision, Solver, Strategy};
use overlay_base::segm::arranged::{is_arranged, is_splittable};
use overlay_base::segm::boolean::ShapeCountBoolean;
use overlay_base::segm::fault::Fault;
use overlay_base::segm::segment::Segment;
use overlay_base::segm::shape_type::ShapeType;
use overlay_base::segm::winding::WindingCount;
use overlay_geometry::geom::point::IntPoint;
use overlay_geometry::geom::x_segment::XSegment;
use overlay_geometry::num::OverlayInt;
use overlay_split::split::pass::pass;
use overlay_split::split::solver::*;
use std::alloc::Global;
use std::process::Abort;
use std::test::Fail;

mod long_lists;
mod within;

type BooleanSegment = Segment<ShapeCountBoolean, i32, ()>;

/// A segment as the tables write it: from, to, the count for the subject.
type Row = ((i32, i32), (i32, i32), i32);

const STRATEGIES: [Strategy; 4] = [
    Strategy::List,
    Strategy::Tree,
    Strategy::Frag,
    Strategy::Auto,
];

/// A segment with this count, or `None` where its ends are one point or the count is not valid.
fn counted(a: (i32, i32), b: (i32, i32), subj: i32) -> Option<BooleanSegment> {
    let (a, b) = (IntPoint::new(a.0, a.1), IntPoint::new(b.0, b.1));
    let count = ShapeCountBoolean::new(subj, 0);
    if a == b || !count.is_valid() {
        return None;
    }
    Some(Segment::create_and_validate_with_data(a, b, count, (), &mut ()))
}

/// The segments of some rows.
fn segments(alloc: Global, rows: &[Row]) -> Result<Vec<BooleanSegment>, Fail> {
    let mut list = Vec::new(alloc);
    for (a, b, subj) in rows {
        list.push(counted(*a, *b, *subj).ok_or("no segment")?)?;
    }
    Ok(list)
}

/// A list as the tables write it.
fn rows(alloc: Global, list: &[BooleanSegment]) -> Result<Vec<Row>, Fail> {
    let mut rows = Vec::new(alloc);
    for segment in list {
        let XSegment { a, b } = segment.x_segment();
        rows.push(((a.x, a.y), (b.x, b.y), segment.count().subj))?;
    }
    Ok(rows)
}

/// A solver that goes about its work by a strategy, at the precision that upstream takes.
fn high(strategy: Strategy) -> Solver {
    Solver::with_strategy_and_precision(strategy, Precision::HIGH)
}

/// Data of a user: a color by its number; a merge keeps equal ones and else returns that there is
/// none; and a store that counts the calls of each hook and keeps the last merge.
#[derive(Clone, Copy, Debug, PartialEq, Eq)]
struct Colors(u8);

const RED: Colors = Colors(1);

const GREEN: Colors = Colors(2);

const UNDEFINED: Colors = Colors(3);

#[derive(Drop, Default)]
struct Calls {
    splits: u32,
    reversals: u32,
    merges: u32,
    merged: Option<EdgeDataMerge<ShapeCountBoolean, Colors>>,
}

impl OverlayEdgeData<ShapeCountBoolean> for Colors {
    type Store = Calls;

    ghost use Rattle.std.specs.Prelude.{◌≡◌, ◌+◌, ◌-◌, ◌^◌, ◌==◌, Some, min, if◌then◌else◌};

    ghost reversed_gives = { λ colors store. (
      colors,
      record store {
        reversals = min (store.reversals + 1)
            (2 ^ 32 - 1);
      },
    ) };

    ghost split_gives = { λ colors _ _ _ store. (
      (colors, colors),
      record store {
        splits = min (store.splits + 1)
            (2 ^ 32 - 1);
      },
    ) };

    ghost merge_gives = { λ merged store. (
      record { 0 = (if merged.lhs_data.0 == merged.rhs_data.0 then merged.lhs_data.0 else 3) },
      record store { merges = min (store.merges + 1) (2 ^ 32 - 1); merged = Some merged },
    ) };

    fn reversed(self, store: &mut Calls) -> Colors {
        store.reversals = store.reversals.saturating_add(1);
        self
    }

    fn split<I: OverlayInt>(self, _at: EdgeDataSplit<I>, store: &mut Calls) -> (Colors, Colors) {
        store.splits = store.splits.saturating_add(1);
        (self, self)
    }

    fn merge(merged: EdgeDataMerge<ShapeCountBoolean, Colors>, store: &mut Calls) -> Colors
        ensures answer { result ≡ record {
          0 = (if merged.lhs_data.0 == merged.rhs_data.0 then merged.lhs_data.0 else 3);
        } }
        ensures store { store.new ≡ record store.old {
          merges = min (store.old.merges + 1)
              (2 ^ 32 - 1);
          merged = Some merged;
        } }
    {
        let color = if merged.lhs_data.0 == merged.rhs_data.0 {
            merged.lhs_data.0
        } else {
            3
        };
        store.merges = store.merges.saturating_add(1);
        store.merged = Some(merged);
        Colors(color)
    }
}

type Colored = Segment<ShapeCountBoolean, i32, Colors>;

/// A colored segment as the tests write it: from, to, the count for the subject and for the clip, the color.
type ColoredRow = ((i32, i32), (i32, i32), i32, i32, Colors);

/// A colored segment, or `None` where its ends are one point.
fn colored(a: (i32, i32), b: (i32, i32), shape: ShapeType, colors: Colors) -> Option<Colored> {
    let (a, b) = (IntPoint::new(a.0, a.1), IntPoint::new(b.0, b.1));
    Segment::try_ab_and_data(a, b, shape, colors, &mut Calls::default())
}

/// Two colored segments.
fn both(
    alloc: Global,
    first: Option<Colored>,
    second: Option<Colored>,
) -> Result<Vec<Colored>, Fail> {
    let mut list = Vec::new(alloc);
    list.push(first.ok_or("no segment")?)?;
    list.push(second.ok_or("no segment")?)?;
    Ok(list)
}

/// A red segment of the subject and a green one of the clip that overlap.
fn overlapping(alloc: Global) -> Result<Vec<Colored>, Fail> {
    let red = colored((0, 0), (4, 0), ShapeType::Subject, RED);
    both(alloc, red, colored((2, 0), (6, 0), ShapeType::Clip, GREEN))
}

/// The rows of colored segments.
fn colored_rows(alloc: Global, list: &[Colored]) -> Result<Vec<ColoredRow>, Fail> {
    let mut rows = Vec::new(alloc);
    for segment in list {
        let count = segment.count();
        let XSegment { a, b } = segment.x_segment();
        rows.push((
            (a.x, a.y),
            (b.x, b.y),
            count.subj,
            count.clip,
            segment.edge_data(),
        ))?;
    }
    Ok(rows)
}

static OVERLAP: [ColoredRow; 3] = [
    ((0, 0), (2, 0), 1, 0, RED),
    ((2, 0), (4, 0), 1, 1, UNDEFINED),
    ((4, 0), (6, 0), 0, 1, GREEN),
];

/// What is merged where the two segments overlap.
fn is_merge_of_overlap(merged: EdgeDataMerge<ShapeCountBoolean, Colors>) -> bool {
    let both = ShapeCountBoolean { subj: 1, clip: 1 };
    merged.lhs_data == GREEN
        && merged.lhs_count == ShapeCountBoolean { subj: 0, clip: 1 }
        && merged.rhs_data == RED
        && merged.rhs_count == ShapeCountBoolean { subj: 1, clip: 0 }
        && merged.out_count == both
}

#[test]
fn colors_of_an_overlap(rt: HostRuntime) -> Result<(), Fail> {
    for strategy in STRATEGIES {
        let mut list = overlapping(rt.alloc())?;
        let mut calls = Calls::default();
        assert!(rt; is_splittable(&list));
        let mut splitter = SplitSolver::new(rt.alloc());
        let flag = splitter.split_segments_with_store(&mut list, &high(strategy), &mut calls);
        assert!(rt; flag == Ok(true));
        assert!(rt; colored_rows(rt.alloc(), &list)?.as_slice() == OVERLAP.as_slice());
        assert!(rt; (calls.splits, calls.reversals, calls.merges) == (2, 0, 1));
        assert!(rt; is_merge_of_overlap(calls.merged.ok_or("no merge")?));
    }
    Ok(())
}

static BEND: [ColoredRow; 3] = [
    ((0, 0), (1, -50), -1, 0, RED),
    ((0, 0), (1, 50), 1, 0, RED),
    ((0, 0), (100, 1), 1, 0, RED),
];

/// A line that is bent through another's end: its lower half runs backward.
#[test]
fn colors_of_a_bent_line(rt: HostRuntime) -> Result<(), Fail> {
    for strategy in STRATEGIES {
        let flat = colored((0, 0), (100, 1), ShapeType::Subject, RED);
        let steep = colored((1, -50), (1, 50), ShapeType::Subject, RED);
        let mut list = both(rt.alloc(), flat, steep)?;
        let mut calls = Calls::default();
        assert!(rt; is_splittable(&list));
        let mut splitter = SplitSolver::new(rt.alloc());
        let flag = splitter.split_segments_with_store(&mut list, &high(strategy), &mut calls);
        assert!(rt; flag == Ok(true));
        assert!(rt; colored_rows(rt.alloc(), &list)?.as_slice() == BEND.as_slice());
        assert!(rt; (calls.splits, calls.reversals, calls.merges) == (1, 1, 0));
        assert!(rt; calls.merged.is_none());
    }
    Ok(())
}

/// Two lines that cross at (3/2, 3/2).
const BETWEEN: [Row; 2] = [((0, 0), (5, 5), 1), ((0, 3), (5, -2), 1)];

const CROSS: [Row; 2] = [((-2, 0), (2, 0), 1), ((0, -2), (0, 2), 1)];

const LARGE: [Row; 2] = [((0, 0), (4, 0), i32::MAX), ((0, 0), (4, 0), i32::MAX)];

/// Lists, one after the other, with one splitter; what it returns, how many passes each takes, and how far these move things
/// in halves. The first pass that snaps does so within a radius of 1. A list that is refused counts for nothing.
static IN_TURN: [(&[Row], Result<bool, Fault>, u128, u128); 5] = [
    (&BETWEEN, Ok(true), 2, 4),
    (&CROSS, Ok(true), 1, 0),
    (&LARGE, Err(Fault::CountOutOfRange), 1, 0),
    (&[], Ok(false), 0, 0),
    (&CROSS, Ok(true), 1, 0),
];

#[test]
fn one_splitter_for_several_lists(rt: HostRuntime) -> Result<(), Fail> {
    let mut splitter: SplitSolver<i32> = SplitSolver::new(rt.alloc());
    assert!(rt; splitter.passes() == 0 && splitter.reach() == 0);
    for (given, flag, passes, reach) in IN_TURN {
        let mut list = segments(rt.alloc(), given)?;
        assert!(rt; is_splittable(&list));
        let split = splitter.split_segments(&mut list, &high(Strategy::List));
        assert!(rt; (split, splitter.passes(), splitter.reach()) == (flag, passes, reach));
    }
    Ok(())
}
