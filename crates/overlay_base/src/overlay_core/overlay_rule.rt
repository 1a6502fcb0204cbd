// Which part of the subject and the clip an overlay returns. Upstream: `core::overlay_rule`.
ghost use Rattle.std.specs.Prelude.{◌≡◌, ◌≢◌, not, IsTrue};
ghost use Rattle.overlay_base.specs.Rules.{holds, top_value, bottom_value, keeps_fill};

use crate::overlay_core::rule_table::RuleTable;
use crate::segm::segment_fill::{CLIP_BOTTOM, CLIP_TOP, NONE, SUBJ_BOTTOM, SUBJ_TOP, SegmentFill};
use std::fmt;

/// A truth function of "inside the subject" and "inside the clip".
#[derive(Clone, Copy, Debug, PartialEq)]
pub enum OverlayRule {
    /// Inside the subject.
    Subject,
    /// Inside the clip.
    Clip,
    /// Inside both.
    Intersect,
    /// Inside one or both.
    Union,
    /// Inside the subject and not the clip.
    Difference,
    /// Inside the clip and not the subject.
    InverseDifference,
    /// Inside just one.
    Xor,
    /// What the table says.
    Table(RuleTable),
}

impl OverlayRule {
    /// What the rule says of a place that is inside the subject or not, and inside the clip or not.
    pub fn holds(self, subj: bool, clip: bool) -> bool
        ensures { result ≡ holds self subj clip }
    {
        match self {
            OverlayRule::Subject => subj,
            OverlayRule::Clip => clip,
            OverlayRule::Intersect => subj && clip,
            OverlayRule::Union => subj || clip,
            OverlayRule::Difference => subj && !clip,
            OverlayRule::InverseDifference => clip && !subj,
            OverlayRule::Xor => subj != clip,
            OverlayRule::Table(table) => table.holds(subj, clip),
        }
    }

    /// What the rule says of the top side of a segment with this fill.
    #[tactic(auto, unfolding(crate::specs::Rules::top_value))]
    pub fn holds_of_top(self, fill: SegmentFill) -> bool
        ensures { result ≡ top_value (holds self) fill }
    {
        self.holds(fill & SUBJ_TOP != NONE, fill & CLIP_TOP != NONE)
    }

    /// What the rule says of the bottom side of a segment with this fill.
    #[tactic(auto, unfolding(crate::specs::Rules::bottom_value))]
    fn holds_of_bottom(self, fill: SegmentFill) -> bool
        ensures { result ≡ bottom_value (holds self) fill }
    {
        self.holds(fill & SUBJ_BOTTOM != NONE, fill & CLIP_BOTTOM != NONE)
    }

    /// Whether a segment with this fill is kept: whether the rule says different things of its two sides.
    #[tactic(auto, unfolding(crate::specs::Rules::keeps_fill))]
    pub fn is_included(self, fill: SegmentFill) -> bool
        ensures { result ≡ keeps_fill (holds self) fill }
    {
        self.holds_of_top(fill) != self.holds_of_bottom(fill)
    }

    /// Whether the rule holds of the top side of a segment with this fill. `Union` is tested as
    /// upstream does, by whether it does not hold of the bottom side, which is the same on the
    /// fills that it keeps.
    pub fn is_fill_top(&self, fill: SegmentFill) -> bool
        ensures side { IsTrue (keeps_fill (holds self.now) fill) → result ≡ top_value (holds self.now) fill }
        ensures top { self.now ≢ OverlayRule.Union → result ≡ top_value (holds self.now) fill }
        ensures union { self.now ≡ OverlayRule.Union → result ≡ not (bottom_value (holds self.now) fill) }
    {
        match self {
            OverlayRule::Union => !self.holds_of_bottom(fill),
            rule => rule.holds_of_top(fill),
        }
    }
}

impl fmt::Display for OverlayRule {
    ghost use Rattle.std.specs.Prelude.{Some};
    ghost use Rattle.overlay_base.specs.RuleNames.{overlay_rule_name};

    ghost output = { λ rule. Some (overlay_rule_name rule) };

    fn fmt<W: fmt::Write>(&self, f: &mut fmt::Formatter<W>) -> fmt::Result {
        let name = match self {
            OverlayRule::Subject => "Subject",
            OverlayRule::Clip => "Clip",
            OverlayRule::Intersect => "Intersect",
            OverlayRule::Union => "Union",
            OverlayRule::Difference => "Difference",
            OverlayRule::InverseDifference => "InverseDifference",
            OverlayRule::Xor => "Xor",
            OverlayRule::Table(table) => {
                let bits = table.bits();
                return write!(f, "Table({bits})");
            }
        };
        f.write_str(name)
    }
}
