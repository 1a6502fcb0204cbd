// Overlay rules that are given as tables. This project's own.
ghost use Rattle.std.specs.Prelude.{◌<◌};

use crate::overlay_core::overlay_rule::OverlayRule;
use crate::segm::segment_fill::SegmentFill;

/// The bit of a table that is its value at a place outside of both.
const OUTSIDE: u8 = 1;

/// The same inside the subject alone.
const IN_SUBJECT: u8 = 2;

/// The same inside the clip alone.
const IN_CLIP: u8 = 4;

/// The same inside both.
const IN_BOTH: u8 = 8;

/// A truth function of "inside the subject" and "inside the clip", as the four bits of a number from 0 to 15: bit 0 is
/// its value outside of both, bit 1 inside the subject alone, bit 2 inside the clip alone, and bit 3 inside both.
#[derive(Clone, Copy, Debug, PartialEq, Eq)]
pub struct RuleTable {
    bits: u8,
    ghost in_range: { bits < 16 },
}

impl RuleTable {
    ghost use Rattle.std.specs.Prelude.{◌≡◌, ◌≤◌, MatchOption};
    ghost use Rattle.overlay_base.specs.Rules.{bits_of, table_holds, keeps_fill};

    /// The table of these bits. `None` for a number above 15.
    pub fn new(bits: u8) -> Option<RuleTable>
        ensures { MatchOption result (16 ≤ bits) (λ table. (bits < 16) × (bits_of table ≡ bits)) }
    {
        if bits < 16 {
            Some(RuleTable { bits })
        } else {
            None
        }
    }

    /// The bits of the table: a number from 0 to 15.
    pub fn bits(self) -> u8
        ensures bits { result ≡ bits_of self }
        ensures in_range { result < 16 }
    {
        self.bits
    }

    /// What the table says of a place that is inside the subject or not, and inside the clip or not.
    pub fn holds(self, subj: bool, clip: bool) -> bool
        ensures { result ≡ table_holds (bits_of self) subj clip }
    {
        match (subj, clip) {
            (false, false) => self.bits & OUTSIDE != 0,
            (true, false) => self.bits & IN_SUBJECT != 0,
            (false, true) => self.bits & IN_CLIP != 0,
            (true, true) => self.bits & IN_BOTH != 0,
        }
    }

    /// Whether a segment with this fill is kept: whether the table says different things of its two sides.
    pub fn is_included(self, fill: SegmentFill) -> bool
        ensures { result ≡ keeps_fill (table_holds (bits_of self)) fill }
    {
        OverlayRule::Table(self).is_included(fill)
    }
}
