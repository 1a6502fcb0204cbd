// How a split and a sweep go about their work, and how far a pass snaps. Upstream: `core::solver`.
ghost use Rattle.std.specs.Prelude.{◌≡◌, length};
ghost use Rattle.overlay_base.specs.Choices.{list_splits, grid_splits};
ghost use Rattle.overlay_base.specs.Radius.{exponent_of, step_of};

use crate::overlay_core::snap_radius::SnapRadius;
use crate::segm::segment::Segment;
use crate::segm::winding::WindingCount;
use overlay_geometry::num::OverlayInt;

/// How the segments that meet are found. The result of a call does not depend on it.
#[derive(Clone, Copy, Debug, PartialEq)]
pub enum Strategy {
    /// Looks at all pairs of a list.
    List,
    /// Keeps segments in a tree.
    Tree,
    /// Cuts the plane into columns.
    Frag,
    /// Chooses by the number of segments.
    Auto,
}

/// How far a crossing may be moved to an end of a segment: in pass k within a squared distance of
/// `2^(start + (k-1) * progression)`, up to a cap of the engine (`2^24` for `i16`, `2^56` for `i32`).
///
/// Under a radius that does not grow, as `ABSOLUTE`, segments that are nearly parallel can take as many passes as they
/// are long. Under the growing ones a handful is enough. A few such segments can also fall into very many pieces, so a
/// split of lists that are not trusted wants a limit, as `split_segments_within` of `overlay_split` takes it.
#[derive(Clone, Copy, Debug, PartialEq)]
pub struct Precision {
    /// The exponent of the first pass.
    pub start: usize,
    /// What each further pass adds to it.
    pub progression: usize,
}

impl Precision {
    /// The squared radius is 1 in every pass. Splits under it want a limit of segments.
    pub const ABSOLUTE: Precision = Precision {
        start: 0,
        progression: 0,
    };

    /// The squared radius is 1 in the first pass, and doubled from pass to pass.
    pub const HIGH: Precision = Precision {
        start: 0,
        progression: 1,
    };

    /// The squared radius is 2 in the first pass, and doubled from pass to pass.
    pub const MEDIUM_HIGH: Precision = Precision {
        start: 1,
        progression: 1,
    };

    /// The squared radius is 1 in the first pass, and four times as much in each further one.
    pub const MEDIUM: Precision = Precision {
        start: 0,
        progression: 2,
    };

    /// The squared radius is 4 in the first pass, and four times as much in each further one.
    pub const MEDIUM_LOW: Precision = Precision {
        start: 2,
        progression: 2,
    };

    /// The squared radius is 4 in the first pass, and eight times as much in each further one.
    pub const LOW: Precision = Precision {
        start: 2,
        progression: 3,
    };
}

const _: () = prove!(Precision::ABSOLUTE.start == 0 && Precision::ABSOLUTE.progression == 0);

const _: () = prove!(Precision::HIGH.start == 0 && Precision::HIGH.progression == 1);

const _: () = prove!(Precision::MEDIUM_HIGH.start == 1 && Precision::MEDIUM_HIGH.progression == 1);

const _: () = prove!(Precision::MEDIUM.start == 0 && Precision::MEDIUM.progression == 2);

const _: () = prove!(Precision::MEDIUM_LOW.start == 2 && Precision::MEDIUM_LOW.progression == 2);

const _: () = prove!(Precision::LOW.start == 2 && Precision::LOW.progression == 3);

/// A strategy and a precision.
#[derive(Clone, Copy)]
pub struct Solver {
    /// How the segments that meet are found.
    pub strategy: Strategy,
    /// How far crossings may be moved.
    pub precision: Precision,
}

impl Solver {
    /// Compares every pair of segments whose ranges in `x` meet; high precision.
    pub const LIST: Solver = Solver {
        strategy: Strategy::List,
        precision: Precision::HIGH,
    };

    /// An interval tree, or a grid where there are many segments; high precision.
    pub const TREE: Solver = Solver {
        strategy: Strategy::Tree,
        precision: Precision::HIGH,
    };

    /// The columns of a grid; high precision.
    pub const FRAG: Solver = Solver {
        strategy: Strategy::Frag,
        precision: Precision::HIGH,
    };

    /// A list, a tree or a grid, by the number of segments; high precision.
    pub const AUTO: Solver = Solver {
        strategy: Strategy::Auto,
        precision: Precision::HIGH,
    };

    const MAX_SPLIT_LIST_COUNT: usize = 4_000;

    const MIN_FRAGMENT_COUNT: usize = 16_000;

    /// The strategy `Auto` with this precision.
    pub fn with_precision(precision: Precision) -> Self
        ensures strategy { result.strategy ≡ Strategy.Auto }
        ensures precision { result.precision ≡ precision }
    {
        Solver::with_strategy_and_precision(Strategy::Auto, precision)
    }

    /// This strategy with this precision.
    pub fn with_strategy_and_precision(strategy: Strategy, precision: Precision) -> Self
        ensures strategy { result.strategy ≡ strategy }
        ensures precision { result.precision ≡ precision }
    {
        Solver {
            strategy,
            precision,
        }
    }

    /// The snap radius of the first pass.
    pub fn snap_radius(&self) -> SnapRadius
        ensures exponent { exponent_of result ≡ self.now.precision.start }
        ensures step { step_of result ≡ self.now.precision.progression }
    {
        SnapRadius::new(self.precision.start, self.precision.progression)
    }

    /// Whether a pass over these segments compares all pairs of the list: under `List`, and under `Auto` where they are
    /// fewer than 4,000.
    pub fn is_list_split<C: WindingCount, I: OverlayInt, D>(
        &self,
        segments: &[Segment<C, I, D>],
    ) -> bool
        ensures { result ≡ list_splits self.now.strategy (length segments.now) }
    {
        match self.strategy {
            Strategy::List => true,
            Strategy::Tree | Strategy::Frag => false,
            Strategy::Auto => segments.len() < Self::MAX_SPLIT_LIST_COUNT,
        }
    }

    /// Whether passes that do not compare all pairs go over a grid of columns: under `Frag`, and where the segments are
    /// more than 16,000.
    pub fn is_fragmentation_required<C: WindingCount, I: OverlayInt, D>(
        &self,
        segments: &[Segment<C, I, D>],
    ) -> bool
        ensures { result ≡ grid_splits self.now.strategy (length segments.now) }
    {
        segments.len() > Self::MIN_FRAGMENT_COUNT || self.strategy == Strategy::Frag
    }
}

// Each constant has the strategy of its name, and high precision.
const _: () = prove!(Solver::LIST.strategy as u8 == Strategy::List as u8);

const _: () = prove!(Solver::TREE.strategy as u8 == Strategy::Tree as u8);

const _: () = prove!(Solver::FRAG.strategy as u8 == Strategy::Frag as u8);

const _: () = prove!(Solver::AUTO.strategy as u8 == Strategy::Auto as u8);

const _: () = prove!(Solver::LIST.precision.start == 0 && Solver::LIST.precision.progression == 1);

const _: () = prove!(Solver::TREE.precision.start == 0 && Solver::TREE.precision.progression == 1);

const _: () = prove!(Solver::FRAG.precision.start == 0 && Solver::FRAG.precision.progression == 1);

const _: () = prove!(Solver::AUTO.precision.start == 0 && Solver::AUTO.precision.progression == 1);

impl Default for Solver {
    ghost use Rattle.overlay_base.specs.declared.overlay_core.solver.Strategy.TheVariants.{Auto};

    ghost is_default = { λ solver. (solver.strategy ≡ Auto)
        × (solver.precision ≡ record { start = 0; progression = 1 }) };

    fn default() -> Solver {
        Solver::AUTO
    }
}
