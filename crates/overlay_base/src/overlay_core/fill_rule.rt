// How windings decide what is inside. Upstream: `core::fill_rule`.

use std::fmt;

/// When a place counts as inside, by how often the contours wind around it counterclockwise.
#[derive(Clone, Copy, Debug, PartialEq, Default)]
pub enum FillRule {
    /// An odd number of times.
    EvenOdd,
    /// Any number of times but 0.
    #[default]
    NonZero,
    /// More often counterclockwise.
    Positive,
    /// More often clockwise.
    Negative,
}

impl fmt::Display for FillRule {
    ghost use Rattle.std.specs.Prelude.{Some};
    ghost use Rattle.overlay_base.specs.RuleNames.{fill_rule_name};

    ghost output = { λ rule. Some (fill_rule_name rule) };

    fn fmt<W: fmt::Write>(&self, f: &mut fmt::Formatter<W>) -> fmt::Result {
        f.write_str(match self {
            FillRule::EvenOdd => "EvenOdd",
            FillRule::NonZero => "NonZero",
            FillRule::Positive => "Positive",
            FillRule::Negative => "Negative",
        })
    }
}
