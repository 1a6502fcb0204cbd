// Sweeps over so many live segments that a row drops what has ended, or is handed over to a tree.
ghost use Rattle.overlay_base.specs.ArrangedOf.{IsArranged};

use crate::worked_lines::Line;
use overlay_base::overlay_core::solver::Solver;
use overlay_base::segm::arranged::is_arranged;
use overlay_base::segm::boolean::ShapeCountBoolean;
use overlay_base::segm::segment::Segment;
use overlay_base::segm::segment_fill::SegmentFill;
use overlay_base::segm::winding::WindingCount;
use overlay_geometry::geom::point::IntPoint;
use overlay_sweep::build::fill_handler::StoreFillsHandler;
use overlay_sweep::build::fill_strategy::EvenOddStrategy;
use overlay_sweep::build::live_segments::LiveSegments;
use overlay_sweep::build::scan_row::ScanRow;
use overlay_sweep::build::scan_rows::ScanRows;
use overlay_sweep::build::sweep::SweepRunner;
use overlay_sweep::build::visits::sweep_with_handler;
use overlay_upstream::build::scan_list::ScanList;
use overlay_upstream::build::scan_tree::ScanTree;
use std::process::Abort;

/// How many lines are live together, at most: with so few the row is full of lines that have ended, and with so many
/// of live ones.
const LIVE: [u32; 2] = [1000, 3000];

/// Runs of level lines. Those of a run begin one by one, by turns above and below those before, and end together, where
/// the next run begins.
fn lines_in_runs(rt: &(impl Abort + AllocGlobal), runs: u32, live: u32) -> Vec<Line> {
    assert!(rt; runs <= 10 && live <= 3000);
    let mut lines = Vec::new(rt.alloc());
    for run in 0..runs {
        let start = 3000 * run as i32;
        for i in 0..live {
            let x = i as i32;
            let y = if i % 2 == 0 { 3000 - x } else { x - 3000 };
            let (a, b) = (IntPoint::new(start + x, y), IntPoint::new(start + 3000, y));
            let count = ShapeCountBoolean { subj: 1, clip: 0 };
            assert!(rt; a != b && count.is_valid());
            let line = Segment::create_and_validate_with_data(a, b, count, (), &mut ());
            lines.push(line).expect(rt, "memory");
        }
    }
    lines
}

/// Half of the lines before line i of a run lie below it, rounded down. So by even and odd the subject fills the place
/// above it, or the one below it.
fn fill_of_line(i: u32) -> SegmentFill {
    if i / 2 % 2 == 0 { 1 } else { 2 }
}

/// The fills of such runs.
fn fills_of_runs(rt: &(impl Abort + AllocGlobal), runs: u32, live: u32) -> Vec<SegmentFill> {
    let mut expected = Vec::new(rt.alloc());
    for _ in 0..runs {
        for i in 0..live {
            expected.push(fill_of_line(i)).expect(rt, "memory");
        }
    }
    expected
}

/// Sweeps over lines under a strategy, and wants these fills.
fn sweep_lines(
    rt: &(impl Abort + AllocGlobal),
    runner: &mut SweepRunner<ShapeCountBoolean, i32>,
    solver: &Solver,
    lines: &[Line],
    expected: &[SegmentFill],
)
    requires { IsArranged lines.now }
{
    let mut fills = vec![in rt.alloc(); 0; lines.len()].expect(rt, "memory");
    let handler = StoreFillsHandler::new(&mut fills);
    let swept = runner
        .run::<(), EvenOddStrategy, StoreFillsHandler>(solver, lines, handler)
        .expect(rt, "no refusal");
    assert!(rt; swept.as_slice() == expected);
}

/// Sweeps over runs of lines, so many live at a time, under some strategies.
fn fill_runs(rt: &(impl Abort + AllocGlobal), runs: u32, live: u32, solvers: &[Solver]) {
    let lines = lines_in_runs(rt, runs, live);
    assert!(rt; is_arranged(&lines));
    let expected = fills_of_runs(rt, runs, live);
    let mut runner = SweepRunner::new(rt.alloc());
    for solver in solvers {
        sweep_lines(rt, &mut runner, solver, &lines, &expected);
    }
}

#[test]
fn each_of_many_live_lines_is_filled_on_one_side(rt: HostRuntime) {
    for live in LIVE {
        fill_runs(&rt, 3, live, &[Solver::TREE, Solver::LIST, Solver::TREE]);
    }
}

/// Under `AUTO` rows of a few serve.
#[test]
fn many_lines_are_filled_under_auto(rt: HostRuntime) {
    fill_runs(&rt, 8, 1000, &[Solver::AUTO])
}

/// Sweeps over lines with live segments of a kind, wants these fills, and returns how many orders this compared.
fn compared_over<L: LiveSegments<ShapeCountBoolean, i32>>(
    rt: &(impl Abort + AllocGlobal),
    live: &mut L,
    lines: &[Line],
    expected: &[SegmentFill],
) -> u128
    requires { IsArranged lines.now }
{
    let mut ways = Vec::new(rt.alloc());
    let mut fills = vec![in rt.alloc(); 0; lines.len()].expect(rt, "memory");
    let handler = StoreFillsHandler::new(&mut fills);
    let mut compared = 0;
    let swept = sweep_with_handler::<
        ShapeCountBoolean,
        i32,
        (),
        EvenOddStrategy,
        L,
        StoreFillsHandler,
    >(live, &mut ways, lines, handler, &mut compared);
    assert!(rt; swept.expect(rt, "no refusal").as_slice() == expected);
    compared
}

/// Sweeps over runs of lines, 3,000 of them live, and returns how many orders it compared.
fn compared_over_many<L: LiveSegments<ShapeCountBoolean, i32>>(
    rt: &(impl Abort + AllocGlobal),
    live: &mut L,
) -> u128 {
    let lines = lines_in_runs(rt, 3, 3000);
    assert!(rt; is_arranged(&lines));
    let expected = fills_of_runs(rt, 3, 3000);
    compared_over(rt, live, &lines, &expected)
}

/// Lists and rows serve a sweep by themselves.
#[test]
fn a_list_and_a_row_serve_where_many_are_live(rt: HostRuntime) {
    compared_over_many(&rt, &mut ScanList::new(rt.alloc()));
    compared_over_many(&rt, &mut ScanRow::new(rt.alloc()));
}

/// A tree serves a sweep by itself. One of 3,000 compares at most 23 orders in a call, of two for each line.
#[test]
fn a_tree_serves_where_many_are_live(rt: HostRuntime) {
    let compared = compared_over_many(&rt, &mut ScanTree::new(rt.alloc()));
    assert!(rt; compared <= 9000 * 2 * 23);
}

/// Rows of a few serve a sweep by themselves, over lines that fill many of them.
#[test]
fn rows_of_a_few_serve_where_many_are_live(rt: HostRuntime) {
    let compared = compared_over_many(&rt, &mut ScanRows::new(rt.alloc()));
    assert!(rt; compared <= 9000 * 2 * 23);
}
