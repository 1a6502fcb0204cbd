// How the fill of a segment follows from the windings on its two sides. Upstream: `build::sweep`, and the strategies of
// `build::boolean` and `build::string`.
ghost use Rattle.std.specs.Prelude.{◌≡◌, ◌↔◌, IsTrue, IsOk, IfOk, IfErr, pos};
ghost use Rattle.overlay_base.specs.Windings.{empty, is_valid, is_count_in_range};
ghost use Rattle.overlay_base.specs.declared.overlay_core.fill_rule.FillRule.{FillRule};
ghost use Rattle.overlay_base.specs.declared.overlay_core.fill_rule.FillRule.TheVariants.{EvenOdd, NonZero, Positive, Negative};
ghost use Rattle.overlay_sweep.specs.Fill.{flag_value, is_inside, winding_above, fill_above};

use overlay_base::overlay_core::fill_rule::FillRule;
use overlay_base::segm::fault::Fault;
use overlay_base::segm::segment_fill::{NONE, SegmentFill};
use overlay_base::segm::winding::WindingCount;

/// A fill rule, for counts of type `C`.
pub trait FillStrategy<C: WindingCount> {
    ghost rule: { FillRule };

    /// The winding above a segment with this count, where that below it is `bot`, and the segment's fill.
    ///
    /// Both counts have to be valid. Returns `Fault::CountOutOfRange` exactly where a number of the winding above
    /// leaves `-i32::MAX..=i32::MAX`.
    fn add_and_fill(this: C, bot: C) -> Result<(C, SegmentFill), Fault>
        requires this { IsTrue (is_valid (C.winding this)) }
        requires bot { IsTrue (is_valid (C.winding bot)) }
        ensures sum { IfOk result (λ answer. C.winding answer.0
            ≡ winding_above (C.winding bot) (C.winding this)) }
        ensures fill { IfOk result (λ answer. answer.1
            ≡ fill_above rule (C.winding bot) (C.winding this)) }
        ensures in_range { IsOk result ↔ IsTrue (is_count_in_range
            (winding_above (C.winding bot) (C.winding this))) }
        ensures fault { IfErr result (λ fault. fault ≡ Fault.CountOutOfRange) };

    ghost nothing: { C.made (pos 0) (pos 0) ≡ empty };
}

/// A count that gives a segment's fill under every rule, so that the strategies serve it.
pub trait FillCount: WindingCount {
    /// The same as `FillStrategy::add_and_fill`, under a rule chosen at run time.
    fn add_and_fill_under(
        fill_rule: FillRule,
        this: Self,
        bot: Self,
    ) -> Result<(Self, SegmentFill), Fault>
        requires this { IsTrue (is_valid (Self.winding this)) }
        requires bot { IsTrue (is_valid (Self.winding bot)) }
        ensures sum { IfOk result (λ answer. Self.winding answer.0
            ≡ winding_above (Self.winding bot) (Self.winding this)) }
        ensures fill { IfOk result (λ answer. answer.1
            ≡ fill_above fill_rule (Self.winding bot) (Self.winding this)) }
        ensures in_range { IsOk result ↔ IsTrue (is_count_in_range
            (winding_above (Self.winding bot) (Self.winding this))) }
        ensures fault { IfErr result (λ fault. fault ≡ Fault.CountOutOfRange) };

    ghost without_winding: { Self.made (pos 0) (pos 0) ≡ empty };
}

/// Whether a place around which the contours wind this often is inside.
pub(crate) fn is_inside(fill_rule: FillRule, winding: i32) -> bool
    ensures { result ≡ is_inside fill_rule winding }
{
    match fill_rule {
        FillRule::EvenOdd => winding % 2 != 0,
        FillRule::NonZero => winding != 0,
        FillRule::Positive => winding > 0,
        FillRule::Negative => winding < 0,
    }
}

/// A side's number where the side is inside.
pub(crate) fn number_if(inside: bool, number: SegmentFill) -> SegmentFill
    ensures { result ≡ flag_value inside number }
{
    if inside { number } else { NONE }
}

/// Inside where the contours wind an odd number of times.
pub struct EvenOddStrategy;

impl<C: FillCount> FillStrategy<C> for EvenOddStrategy {
    ghost rule = { EvenOdd };

    ghost nothing = { C.without_winding };

    fn add_and_fill(this: C, bot: C) -> Result<(C, SegmentFill), Fault> {
        C::add_and_fill_under(FillRule::EvenOdd, this, bot)
    }
}

/// Inside where the contours wind any number of times but 0.
pub struct NonZeroStrategy;

impl<C: FillCount> FillStrategy<C> for NonZeroStrategy {
    ghost rule = { NonZero };

    ghost nothing = { C.without_winding };

    fn add_and_fill(this: C, bot: C) -> Result<(C, SegmentFill), Fault> {
        C::add_and_fill_under(FillRule::NonZero, this, bot)
    }
}

/// Inside where the contours wind more often counterclockwise.
pub struct PositiveStrategy;

impl<C: FillCount> FillStrategy<C> for PositiveStrategy {
    ghost rule = { Positive };

    ghost nothing = { C.without_winding };

    fn add_and_fill(this: C, bot: C) -> Result<(C, SegmentFill), Fault> {
        C::add_and_fill_under(FillRule::Positive, this, bot)
    }
}

/// Inside where the contours wind more often clockwise.
pub struct NegativeStrategy;

impl<C: FillCount> FillStrategy<C> for NegativeStrategy {
    ghost rule = { Negative };

    ghost nothing = { C.without_winding };

    fn add_and_fill(this: C, bot: C) -> Result<(C, SegmentFill), Fault> {
        C::add_and_fill_under(FillRule::Negative, this, bot)
    }
}
