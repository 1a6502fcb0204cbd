// Splits within a limit of segments: where it does, and where a few nearly parallel segments go beyond it.
use super::*;
use overlay_split::split::fault::SplitFault;

/// A closed chain of six edges that are nearly parallel, over most of the wide engine's range.
static CHAIN: [Row; 6] = [
    ((929775894, 738301379), (-820272779, 900600856), 1),
    ((-820272779, 900600856), (929775891, 738301379), 1),
    ((929775891, 738301379), (-820272780, 900600857), 1),
    ((-820272780, 900600857), (929775893, 738301379), 1),
    ((929775893, 738301379), (-820272774, 900600852), 1),
    ((-820272774, 900600852), (929775894, 738301379), 1),
];

/// Three segments that are nearly parallel.
static SLIVERS: [Row; 3] = [
    ((282, 3), (1000, 0), 1),
    ((143, 2), (886, 1), 1),
    ((164, 2), (705, 1), 1),
];

/// What a split returns, the number of passes, and the list after it.
type Told = (Result<bool, SplitFault>, u128, Vec<Row>);

/// Splits with a splitter, within a limit or without one.
fn split_rows(
    alloc: Global,
    splitter: &mut SplitSolver<i32>,
    given: &[Row],
    solver: &Solver,
    limit: Option<usize>,
) -> Result<Told, Fail> {
    let mut list = segments(alloc, given)?;
    if !is_splittable(&list) {
        return Err(Fail::from("a segment that may not be split"));
    }
    let flag = match limit {
        Some(limit) => splitter.split_segments_within(&mut list, solver, limit),
        None => splitter
            .split_segments(&mut list, solver)
            .map_err(SplitFault::Refused),
    };
    Ok((flag, splitter.passes(), rows(alloc, &list)?))
}

/// Whether a split within a limit returns what one without a limit does, and leaves the same.
fn is_as_without(
    alloc: Global,
    splitter: &mut SplitSolver<i32>,
    given: &[Row],
    solver: &Solver,
    limit: usize,
) -> Result<bool, Fail> {
    let told = split_rows(alloc, splitter, given, solver, Some(limit))?;
    let whole = split_rows(alloc, &mut SplitSolver::new(alloc), given, solver, None)?;
    Ok(told == whole)
}

/// Whether a split is refused for its segments, with as many passes as before and no segments left.
fn is_beyond(
    alloc: Global,
    splitter: &mut SplitSolver<i32>,
    given: &[Row],
    solver: &Solver,
    limit: usize,
) -> Result<bool, Fail> {
    let passes = splitter.passes();
    let (flag, after, rows) = split_rows(alloc, splitter, given, solver, Some(limit))?;
    Ok(flag == Err(SplitFault::TooManySegments) && after == passes && rows.is_empty())
}

#[test]
fn chain_goes_beyond_a_limit(rt: HostRuntime) -> Result<(), Fail> {
    let alloc = rt.alloc();
    for strategy in STRATEGIES {
        let solver = high(strategy);
        let mut splitter: SplitSolver<i32> = SplitSolver::new(alloc);
        assert!(rt; is_as_without(alloc, &mut splitter, &BETWEEN, &solver, 4)?);
        assert!(rt; is_beyond(alloc, &mut splitter, &CHAIN, &solver, 10_000)?);
        assert!(rt; is_as_without(alloc, &mut splitter, &BETWEEN, &solver, 4)?);
    }
    Ok(())
}

/// The crossing of two lines makes four pieces.
#[test]
fn limits_that_do_and_limits_that_do_not(rt: HostRuntime) -> Result<(), Fail> {
    let alloc = rt.alloc();
    for strategy in STRATEGIES {
        let solver = high(strategy);
        let mut splitter: SplitSolver<i32> = SplitSolver::new(alloc);
        for limit in 0..4 {
            assert!(rt; is_beyond(alloc, &mut splitter, &BETWEEN, &solver, limit)?);
        }
        assert!(rt; is_as_without(alloc, &mut splitter, &BETWEEN, &solver, 4)?);
        assert!(rt; is_as_without(alloc, &mut splitter, &[], &solver, 0)?);
        for limit in [1_000, usize::MAX] {
            assert!(rt; is_as_without(alloc, &mut splitter, &SLIVERS, &solver, limit)?);
        }
    }
    Ok(())
}

/// An overlap makes four pieces, and two are joined. Beyond the limit no hook is called.
#[test]
fn store_before_a_pass_beyond_the_limit(rt: HostRuntime) -> Result<(), Fail> {
    let solver = high(Strategy::List);
    let mut splitter = SplitSolver::new(rt.alloc());
    let mut calls = Calls::default();
    let beyond = (Err(SplitFault::TooManySegments), 0, (0, 0, 0));
    for (limit, wanted) in [(3, beyond), (4, (Ok(true), 3, (2, 0, 1)))] {
        let mut list = overlapping(rt.alloc())?;
        assert!(rt; is_splittable(&list));
        let flag = splitter.split_segments_with_store_within(&mut list, &solver, &mut calls, limit);
        let counts = (calls.splits, calls.reversals, calls.merges);
        assert!(rt; (flag, list.len(), counts) == wanted);
    }
    Ok(())
}

#[test]
fn texts(rt: HostRuntime) -> Result<(), Fail> {
    let beyond = format!(in rt.alloc(); "{}", SplitFault::TooManySegments)?;
    assert!(rt; beyond.as_str() == "too many segments");
    let refused = format!(in rt.alloc(); "{}", SplitFault::from(Fault::CountOutOfRange))?;
    assert!(rt; refused.as_str() == "count out of range");
    Ok(())
}
