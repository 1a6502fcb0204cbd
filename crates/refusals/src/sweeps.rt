// Sweeps over arrangements.
use crate::case::{Case, Stop, Summary, mixed};
use crate::shapes::{NO_DATA, Shape, sides};
use i_overlay::build::builder::StoreFillsHandler;
use i_overlay::build::sweep::SweepRunner;
use i_overlay::overlay_core::fill_rule::FillRule;
use i_overlay::overlay_core::solver::Solver;
use i_overlay::segm::arranged::{is_arranged, is_splittable};
use i_overlay::segm::boolean::ShapeCountBoolean;
use i_overlay::segm::segment::{NONE, Segment, SegmentFill};
use i_overlay::split::solver::SplitSolver;
use std::alloc::Global;

/// The fills of two arrangements by one runner, which may be used again after a refusal. Of the second one so many segments
/// are live at once that rows are cut, where the strategy takes rows.
#[derive(Drop)]
pub struct Sweep {
    runner: SweepRunner<ShapeCountBoolean, i32>,
    solver: Solver,
}

impl Sweep {
    /// A sweep under a strategy.
    pub fn new(alloc: Global, solver: Solver) -> Sweep {
        Sweep {
            runner: SweepRunner::new(alloc),
            solver,
        }
    }

    /// The fills of an arrangement.
    fn sweep(&mut self, list: &[BooleanSegment], alloc: Global) -> Result<Summary, Stop> {
        if !is_arranged(list) {
            return Err(Stop::Wrong("the split is no arrangement"));
        }
        let mut fills = vec![in alloc; NONE; list.len()]?;
        let handler = StoreFillsHandler::new(&mut fills);
        self.runner
            .run_with_fill_rule(FillRule::NonZero, &self.solver, list, handler)?;
        Ok(summary_of_fills(fills.as_slice()))
    }
}

type BooleanSegment = Segment<ShapeCountBoolean, i32, ()>;

impl Case for Sweep {
    fn try_once(&mut self, alloc: Global) -> Result<Summary, Stop> {
        let long = split_long(alloc)?;
        let of_long = self.sweep(long.as_slice(), alloc)?;
        let levels: Vec<BooleanSegment> = sides(Shape::Levels, NO_DATA, &mut (), alloc)?;
        Ok(of_long.with(self.sweep(levels.as_slice(), alloc)?))
    }
}

/// The split of `Long`.
fn split_long(alloc: Global) -> Result<Vec<BooleanSegment>, Stop> {
    let mut list: Vec<BooleanSegment> = sides(Shape::Long, NO_DATA, &mut (), alloc)?;
    if !is_splittable(&list) {
        return Err(Stop::Wrong("the input may not be split"));
    }
    SplitSolver::new(alloc).split_segments(&mut list, &Solver::LIST)?;
    Ok(list)
}

/// How many fills there are, and a digest of them.
fn summary_of_fills(fills: &[SegmentFill]) -> Summary {
    let mut digest = 0;
    for fill in fills {
        digest = mixed(digest, i32::from(*fill));
    }
    Summary {
        count: fills.len(),
        others: 0,
        digest,
    }
}
