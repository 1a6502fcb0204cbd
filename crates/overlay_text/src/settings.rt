// What the words of a call may choose, and what holds where they choose nothing.
ghost use Rattle.std.specs.Prelude.{◌≡◌, ◌≤ℤ◌, ◌^◌, pos};

use overlay_base::overlay_core::fill_rule::FillRule;
use overlay_base::overlay_core::overlay_rule::OverlayRule;
use overlay_base::overlay_core::solver::{Precision, Solver, Strategy};

/// What the program does.
#[derive(Clone, Copy, Debug, PartialEq)]
pub enum Command {
    /// Joins the lines on each pair of ends.
    Join,
    /// Prints where two lines meet.
    Cross,
    /// Splits the lines where they meet.
    Split,
    /// Splits the lines and prints the graph of those that a rule keeps.
    Graph,
    /// The same, and prints closed walks through the graph.
    Walks,
}

/// The type of coordinates.
#[derive(Clone, Copy, Debug, PartialEq)]
pub enum Engine {
    I16,
    I32,
}

/// How a split places crossings that have no integer coordinates.
#[derive(Clone, Copy, Debug, PartialEq)]
pub enum Rounding {
    /// Pass after pass over pairs, each crossing by itself.
    Pairwise,
    /// By snap rounding, in one pass.
    HotPixels,
}

/// How far a crossing may be moved to an end of a segment: a squared distance from 1 to `2^56`.
#[derive(Clone, Copy, Debug, PartialEq)]
pub struct SquaredRadius {
    pub squared: i64,
    ghost in_range: { (pos 1 ≤ℤ squared) × (squared ≤ℤ pos (2 ^ 56)) },
}

/// The choices of one call.
#[derive(Clone, Copy, Debug, PartialEq)]
pub struct Settings {
    pub engine: Engine,
    pub strategy: Strategy,
    pub precision: Precision,
    pub fill_rule: FillRule,
    /// Which links of a graph are kept; all without a rule.
    pub rule: Option<OverlayRule>,
    /// How many passes of a split may snap.
    pub snap_limit: u32,
    pub radius: SquaredRadius,
    pub rounding: Rounding,
}

impl Settings {
    /// The solver that the words choose.
    pub fn solver(&self) -> Solver
        ensures strategy { result.strategy ≡ self.now.strategy }
        ensures precision { result.precision ≡ self.now.precision }
    {
        Solver::with_strategy_and_precision(self.strategy, self.precision)
    }
}
