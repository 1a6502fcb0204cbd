// Sorts, joins and splits.
use crate::case::{Case, Stop, Summary, mixed, mixed_point, refused};
use crate::hooks::{COLORS, Calls, Color};
use crate::shapes::{BENT, CROSS, OVERLAPPING, SHARED, Shape, TOUCHING, sides};
use i_overlay::overlay_core::solver::Solver;
use i_overlay::segm::arranged::is_splittable;
use i_overlay::segm::balance::is_balanced;
use i_overlay::segm::boolean::ShapeCountBoolean;
use i_overlay::segm::join::join_with_store;
use i_overlay::segm::segment::Segment;
use i_overlay::segm::sort::sort_by_ab;
use i_overlay::segm::winding::WindingCount;
use i_overlay::split::solver::SplitSolver;
use overlay_snapping::snap::solver::SnapSolver;
use std::alloc::Global;

type ColoredSegment = Segment<ShapeCountBoolean, i32, Color>;

/// The shapes that are split.
fn split_shapes() -> [Shape; 8] {
    [
        Shape::Crossed,
        Shape::Long,
        Shape::Squares,
        Shape::Lines(&CROSS),
        Shape::Lines(&BENT),
        Shape::Lines(&OVERLAPPING),
        Shape::Lines(&TOUCHING),
        Shape::Lines(&SHARED),
    ]
}

/// A sort. A refused one leaves an empty list.
#[derive(Drop)]
pub struct Sort {}

impl Case for Sort {
    fn try_once(&mut self, alloc: Global) -> Result<Summary, Stop> {
        let mut list: Vec<ColoredSegment> = sides(
            Shape::Crossed,
            COLORS,
            &mut Calls::given(),
            alloc,
        )?;
        match sort_by_ab(&mut list) {
            Ok(()) => Ok(Summary {
                count: list.len(),
                others: 0,
                digest: digest_of(list.as_slice()),
            }),
            Err(fault) => Err(refused(fault, list.is_empty())),
        }
    }
}

/// A join. A refused one leaves an empty list, and the store as it was.
#[derive(Drop)]
pub struct Join {}

impl Case for Join {
    fn try_once(&mut self, alloc: Global) -> Result<Summary, Stop> {
        let mut list: Vec<ColoredSegment> = sides(
            Shape::Crossed,
            COLORS,
            &mut Calls::given(),
            alloc,
        )?;
        if !list.iter().all(|segment| segment.count().is_valid()) {
            return Err(Stop::Wrong("the input may not be joined"));
        }
        let mut store = Calls::given();
        match join_with_store(&mut list, &mut store) {
            Ok(_) => Ok(Summary {
                count: list.len(),
                others: u128::from(store.merges),
                digest: digest_of(list.as_slice()),
            }),
            Err(fault) => Err(refused(fault, list.is_empty() && store == Calls::given())),
        }
    }
}

/// A test of balance, of squares. It writes to no list.
#[derive(Drop)]
pub struct Balance {}

impl Case for Balance {
    fn try_once(&mut self, alloc: Global) -> Result<Summary, Stop> {
        let list: Vec<ColoredSegment> = sides(Shape::Squares, COLORS, &mut Calls::given(), alloc)?;
        match is_balanced(alloc, &list) {
            Ok(balanced) => Ok(Summary {
                count: list.len(),
                others: if balanced { 1 } else { 0 },
                digest: digest_of(list.as_slice()),
            }),
            Err(fault) => Err(refused(fault, true)),
        }
    }
}

/// Splits of each shape by one splitter. A refused one leaves an empty list, the splitter's numbers, and a store that
/// hooks made.
#[derive(Drop)]
pub struct Split {
    splitter: SplitSolver<i32>,
    solver: Solver,
}

impl Split {
    /// Splits under a strategy.
    pub fn new(alloc: Global, solver: Solver) -> Split {
        Split {
            splitter: SplitSolver::new(alloc),
            solver,
        }
    }

    /// The split of one shape.
    fn split(&mut self, shape: Shape, alloc: Global) -> Result<Summary, Stop> {
        let mut list: Vec<ColoredSegment> = sides(shape, COLORS, &mut Calls::given(), alloc)?;
        if !is_splittable(&list) {
            return Err(Stop::Wrong("the input may not be split"));
        }
        let before = (self.splitter.passes(), self.splitter.looked());
        let mut store = Calls::given();
        match self
            .splitter
            .split_segments_with_store(&mut list, &self.solver, &mut store)
        {
            Ok(_) => Ok(Summary {
                count: list.len(),
                others: self.splitter.passes(),
                digest: digest_of(list.as_slice()).wrapping_add(i64::from(store.all)),
            }),
            Err(fault) => {
                let after = (self.splitter.passes(), self.splitter.looked());
                let stands = list.is_empty() && before == after && store.is_made_by_hooks();
                Err(refused(fault, stands))
            }
        }
    }
}

impl Case for Split {
    fn try_once(&mut self, alloc: Global) -> Result<Summary, Stop> {
        let mut all = Summary::NOTHING;
        for shape in split_shapes() {
            all = all.with(self.split(shape, alloc)?);
        }
        Ok(all)
    }
}

/// Splits of each shape by snap rounding, by one splitter. A refused one leaves an empty list, and a store that hooks
/// made.
#[derive(Drop)]
pub struct Snap {
    splitter: SnapSolver<i32>,
    solver: Solver,
}

impl Snap {
    /// Splits whose crossings are found under a strategy.
    pub fn new(alloc: Global, solver: Solver) -> Snap {
        Snap {
            splitter: SnapSolver::new(alloc),
            solver,
        }
    }

    /// The split of one shape.
    fn split(&mut self, shape: Shape, alloc: Global) -> Result<Summary, Stop> {
        let mut list: Vec<ColoredSegment> = sides(shape, COLORS, &mut Calls::given(), alloc)?;
        if !is_splittable(&list) {
            return Err(Stop::Wrong("the input may not be split"));
        }
        let mut store = Calls::given();
        match self
            .splitter
            .split_segments_with_store(&mut list, &self.solver, &mut store)
        {
            Ok(_) => Ok(Summary {
                count: list.len(),
                others: 0,
                digest: digest_of(list.as_slice()).wrapping_add(i64::from(store.all)),
            }),
            Err(fault) => Err(refused(fault, list.is_empty() && store.is_made_by_hooks())),
        }
    }
}

impl Case for Snap {
    fn try_once(&mut self, alloc: Global) -> Result<Summary, Stop> {
        let mut all = Summary::NOTHING;
        for shape in split_shapes() {
            all = all.with(self.split(shape, alloc)?);
        }
        Ok(all)
    }
}

/// A digest of the ends and colors of segments, in order.
fn digest_of(list: &[ColoredSegment]) -> i64 {
    let mut digest = 0;
    for segment in list {
        let ends = segment.x_segment();
        digest = mixed_point(mixed_point(digest, ends.a), ends.b);
        digest = mixed(digest, i32::from(segment.edge_data().0));
    }
    digest
}
