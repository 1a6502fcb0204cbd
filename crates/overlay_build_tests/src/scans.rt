// Rows of level segments, kept in each collection: sums, the tree's depth, and how many orders are
// compared.
ghost use Rattle.std.specs.Prelude.{◌≡◌, ◌+◌, ◌*◌, ◌<◌, ℤ, pos, ◌≤ℤ◌, IsTrue};
ghost use Rattle.overlay_geometry.specs.Coordinates.{is_coordinate, least_coordinate, greatest_coordinate};
ghost use Rattle.overlay_base.specs.Planar.{is_arranged};
ghost use Rattle.overlay_base.specs.SegmentOf.{segments_of};
ghost use Rattle.overlay_base.specs.BooleanWinding.{boolean_winding};
ghost use Rattle.overlay_geometry.specs.VSegmentOf.{v_pair_of, IsVSegmentInRange};
ghost use Rattle.overlay_sweep.specs.steps.LevelRows.{level_pair, level_row, AreRows};

use crate::sweeps::{Runner, first_with};
use crate::worked_lines::{Line, greatest_counts, line};
use overlay_base::overlay_core::solver::Solver;
use overlay_base::segm::arranged::is_arranged;
use overlay_base::segm::boolean::ShapeCountBoolean;
use overlay_base::segm::fault::Fault;
use overlay_geometry::geom::point::IntPoint;
use overlay_geometry::geom::v_segment::VSegment;
use overlay_geometry::num::OverlayInt;
use overlay_sweep::build::live_segments::LiveSegments;
use overlay_sweep::build::scan_row::ScanRow;
use overlay_sweep::build::scan_rows::ScanRows;
use overlay_sweep::build::sweep::SweepRunner;
use overlay_upstream::build::scan_list::ScanList;
use overlay_upstream::build::scan_tree::ScanTree;
use std::alloc::Global;
use std::process::Abort;

fn coordinate<I: OverlayInt>(rt: &impl Abort, value: i64) -> I
    ensures whole { I.whole result ≡ value }
    ensures range { IsTrue (is_coordinate (I.whole I.MIN_COORD) (I.whole I.MAX_COORD) value) }
{
    assert!(rt; I::MIN_COORD.to_wide() <= value && value <= I::MAX_COORD.to_wide());
    I::from_wide(value)
}

/// The segment of row k, from (0, 2k) to (10, 2k).
fn level<I: OverlayInt>(rt: &impl Abort, k: u32) -> VSegment<I>
    ensures pair { v_pair_of I.whole result ≡ level_pair k }
    ensures range { IsVSegmentInRange I.whole I.MIN_COORD I.MAX_COORD result }
{
    let y = coordinate(rt, 2 * i64::from(k));
    let a = IntPoint {
        x: coordinate(rt, 0),
        y,
    };
    let b = IntPoint {
        x: coordinate(rt, 10),
        y,
    };
    VSegment { a, b }
}

/// How many rows are kept: more than a row of live segments holds before it becomes a tree.
const ROWS: u32 = 3000;

fn row_sum(k: u32) -> ShapeCountBoolean
    requires { k < 3000 }
    ensures { boolean_winding result ≡ (level_row k).count }
{
    ShapeCountBoolean {
        subj: k as i32 + 1,
        clip: 0,
    }
}

fn insert_row<I: OverlayInt, L: LiveSegments<ShapeCountBoolean, I>>(
    rt: &impl Abort,
    live: &mut L,
    k: u32,
)
    requires few { k < 3000 }
    requires rows { AreRows (pos 0) (L.sums live.old) }
    requires time { (y : ℤ) → pos 0 ≤ℤ y → L.may_go_on_at live.old y }
    ensures rows { AreRows (pos 0) (L.sums live.new) }
    ensures time { (y : ℤ) → pos 0 ≤ℤ y → L.may_go_on_at live.new y }
{
    let segment = level(rt, k);
    live.insert(segment, row_sum(k), segment.a.x)
        .expect(rt, "memory");
}

/// The two numbers of the sum on the row below (x, y).
fn sum_at<I: OverlayInt, L: LiveSegments<ShapeCountBoolean, I>>(
    rt: &impl Abort,
    live: &mut L,
    x: i64,
    y: i64,
) -> (i32, i32)
    requires rows { AreRows x (L.sums live.old) }
    requires time { (z : ℤ) → x ≤ℤ z → L.may_go_on_at live.old z }
    ensures rows { AreRows x (L.sums live.new) }
    ensures time { (z : ℤ) → x ≤ℤ z → L.may_go_on_at live.new z }
{
    let p = IntPoint {
        x: coordinate(rt, x),
        y: coordinate(rt, y),
    };
    let nothing = ShapeCountBoolean { subj: 0, clip: 7 };
    let sum = live.sum_below(p.x, p, nothing);
    (sum.subj, sum.clip)
}

/// How many orders an insert into a list of 0, 1, 2 .. rows compares: the least d for which 2 n is
/// at most 2 ^ d.
const ASKED_AMONG: [u128; 10] = [0, 1, 2, 3, 3, 4, 4, 4, 4, 5];

/// Keeps all rows, the lowest first or last. The first inserts have to compare as many orders as
/// stated.
fn insert_rows<I: OverlayInt, L: LiveSegments<ShapeCountBoolean, I>>(
    rt: &impl Abort,
    live: &mut L,
    is_forward: bool,
    asked: &[u128],
)
    ensures rows { AreRows (pos 0) (L.sums live.new) }
    ensures time { (y : ℤ) → pos 0 ≤ℤ y → L.may_go_on_at live.new y }
{
    live.clear();
    assert_eq!(rt; live.compared(), 0);
    for j in 0..ROWS {
        insert_row(rt, live, if is_forward { j } else { ROWS - 1 - j });
        if let Some(asked) = asked.get(j as usize) {
            assert!(rt; live.compared() == *asked);
        }
    }
}

/// Looks between all rows at x 5. Each look has to compare from `least` to `most` orders.
fn look_between_rows<I: OverlayInt, L: LiveSegments<ShapeCountBoolean, I>>(
    rt: &impl Abort,
    live: &mut L,
    least: u128,
    most: u128,
)
    requires rows { AreRows (pos 5) (L.sums live.old) }
    requires time { (y : ℤ) → pos 5 ≤ℤ y → L.may_go_on_at live.old y }
    ensures rows { AreRows (pos 5) (L.sums live.new) }
    ensures time { (y : ℤ) → pos 5 ≤ℤ y → L.may_go_on_at live.new y }
{
    for k in 0..ROWS {
        let sum = sum_at(rt, live, 5, 2 * i64::from(k) + 1);
        let compared = live.compared();
        assert!(rt; sum == (k as i32 + 1, 0), "{k}");
        assert!(rt; least <= compared && compared <= most, "{k}");
    }
}

/// Looks between all rows at x 5, below them, and right of them.
fn look_at_rows<I: OverlayInt, L: LiveSegments<ShapeCountBoolean, I>>(
    rt: &impl Abort,
    live: &mut L,
    least: u128,
    most: u128,
)
    requires rows { AreRows (pos 0) (L.sums live.old) }
    requires time { (y : ℤ) → pos 0 ≤ℤ y → L.may_go_on_at live.old y }
{
    look_between_rows(rt, live, least, most);
    assert!(rt; sum_at(rt, live, 5, -1) == (0, 7));
    assert!(rt; sum_at(rt, live, 10, 1) == (0, 7));
}

/// Keeps all rows in both orders, and looks at them. Returns how many orders the last look at either compared, at most.
fn insert_and_look<I: OverlayInt, L: LiveSegments<ShapeCountBoolean, I>>(
    rt: &impl Abort,
    live: &mut L,
    asked: &[u128],
    least: u128,
    most: u128,
) -> u128 {
    let mut last = 0;
    for is_forward in [true, false] {
        insert_rows(rt, live, is_forward, asked);
        look_at_rows(rt, live, least, most);
        last = last.max(live.compared());
    }
    last
}

/// Keeps all rows in a tree, the lowest first or last, and looks at them.
fn insert_into_tree<I: OverlayInt>(
    rt: &impl Abort,
    tree: &mut ScanTree<ShapeCountBoolean, I>,
    is_forward: bool,
) {
    insert_rows(rt, tree, is_forward, &[]);
    assert!(rt; tree.depth() <= 23);
    look_at_rows(rt, tree, 1, 23);
}

fn tree_of_rows<I: OverlayInt>(rt: &impl Abort, alloc: Global) {
    let mut tree: ScanTree<ShapeCountBoolean, I> = ScanTree::new(alloc);
    assert!(rt; tree.depth() <= 1);
    assert!(rt; tree.compared() == 0);
    insert_into_tree(rt, &mut tree, true);
    insert_into_tree(rt, &mut tree, false);
}

fn list_of_rows<I: OverlayInt>(rt: &impl Abort, alloc: Global) {
    let mut list: ScanList<ShapeCountBoolean, I> = ScanList::new(alloc);
    assert!(rt; list.compared() == 0);
    assert!(rt; insert_and_look(rt, &mut list, &ASKED_AMONG, 13, 13) == 0);
}

#[test]
fn a_tree_of_rows_asks_few_orders(rt: HostRuntime) {
    tree_of_rows::<i16>(&rt, rt.alloc());
    tree_of_rows::<i32>(&rt, rt.alloc());
}

/// Among 3,000 entries that all last a search by halves compares 11 or 12 orders.
fn row_of_rows<I: OverlayInt>(rt: &impl Abort, alloc: Global) {
    let mut row: ScanRow<ShapeCountBoolean, I> = ScanRow::new(alloc);
    assert!(rt; row.compared() == 0);
    insert_and_look(rt, &mut row, &[], 11, 12);
}

#[test]
fn a_row_returns_the_same(rt: HostRuntime) {
    row_of_rows::<i16>(&rt, rt.alloc());
    row_of_rows::<i32>(&rt, rt.alloc());
}

fn few_of_rows<I: OverlayInt>(rt: &impl Abort, alloc: Global) {
    let mut rows: ScanRows<ShapeCountBoolean, I> = ScanRows::new(alloc);
    assert!(rt; rows.compared() == 0);
    insert_and_look(rt, &mut rows, &[], 1, 23);
}

#[test]
fn rows_of_a_few_return_the_same(rt: HostRuntime) {
    few_of_rows::<i16>(&rt, rt.alloc());
    few_of_rows::<i32>(&rt, rt.alloc());
}

#[test]
fn a_list_of_rows_answers_the_same(rt: HostRuntime) {
    list_of_rows::<i16>(&rt, rt.alloc());
    list_of_rows::<i32>(&rt, rt.alloc());
}

/// Lines that begin one by one, by turns above and below those before, and all end together.
fn closing_lines(rt: &impl Abort, alloc: Global) -> Vec<Line> {
    let mut lines = Vec::new(alloc);
    for i in 0..4000u32 {
        let x = i as i32;
        let y = if i % 2 == 0 { 4000 - x } else { x - 4000 };
        lines.push(line(x, y, 10_000, y, 1, 0)).expect(rt, "memory");
    }
    lines
}

/// How many orders a sweep over some lines compares.
fn compared_in(rt: &impl Abort, runner: &mut Runner, solver: &Solver, lines: &[Line]) -> u128
    requires { IsTrue (is_arranged least_coordinate greatest_coordinate (segments_of lines.now)) }
{
    first_with(runner, solver, 0, lines).expect(rt, "no refusal");
    runner.compared()
}

/// Whether a sweep over the greatest counts is refused.
fn is_refused(runner: &mut Runner, solver: &Solver) -> bool {
    let refused = first_with(runner, solver, 0, &greatest_counts());
    refused == Err(Fault::CountOutOfRange)
}

/// Over one row each start takes one search of at most 13 orders, since 2 * 4,000 is at most 2 ^
/// 13, and the line that is put in there compares none.
#[test]
fn a_sweep_over_the_tree_asks_few_orders(rt: HostRuntime) {
    let lines = closing_lines(&rt, rt.alloc());
    assert!(rt; is_arranged(&lines));
    let mut runner = SweepRunner::new(rt.alloc());
    assert!(rt; runner.compared() == 0);
    for (solver, least, most) in [
        (Solver::TREE, 4000, 184_000),
        (Solver::FRAG, 4000, 184_000),
        (Solver::LIST, 4000, 52_000),
    ] {
        let compared = compared_in(&rt, &mut runner, &solver, &lines);
        assert!(rt; least <= compared && compared <= most);
        assert!(rt; is_refused(&mut runner, &solver) && runner.compared() == compared);
    }
}
