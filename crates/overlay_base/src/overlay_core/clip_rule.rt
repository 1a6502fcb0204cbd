// Which parts of lines a polygon keeps. Upstream: `string::clip`.
ghost use Rattle.std.specs.Prelude.{◌≡◌};
ghost use Rattle.overlay_base.specs.ClipRules.{keeps_clip, has_line, is_in_polygon};

use crate::segm::segment_fill::{CLIP_BOTTOM, CLIP_TOP, NONE, SUBJ_BOTTOM, SUBJ_TOP, SegmentFill};

/// Which parts of the lines are kept that a polygon, the subject, cuts.
#[derive(Clone, Copy, Debug, PartialEq, Eq)]
pub struct ClipRule {
    /// The parts outside of the polygon are kept, and not those inside.
    pub invert: bool,
    /// A part that runs along the boundary, with the polygon on one side alone, counts as inside.
    pub boundary_included: bool,
}

impl ClipRule {
    /// Whether a segment with this fill is kept. Of a count of lines the fill has the subject's two sides and, by the
    /// numbers 4 and 8, the mask of the segment itself. A segment without a mask is no part of a line, and is never
    /// kept.
    #[tactic(auto, unfolding(crate::specs::ClipRules::keeps_clip))]
    pub fn is_included(self, fill: SegmentFill) -> bool
        ensures { result ≡ keeps_clip self fill }
    {
        is_on_line(fill) && self.invert != is_inside(self.boundary_included, fill)
    }
}

/// Whether a line runs along a segment with this fill.
fn is_on_line(fill: SegmentFill) -> bool
    ensures { result ≡ has_line fill }
{
    fill & CLIP_TOP != NONE || fill & CLIP_BOTTOM != NONE
}

/// Whether a segment with this fill lies inside the polygon, with its boundary or without.
fn is_inside(boundary_included: bool, fill: SegmentFill) -> bool
    ensures { result ≡ is_in_polygon boundary_included fill }
{
    let top = fill & SUBJ_TOP != NONE;
    let bottom = fill & SUBJ_BOTTOM != NONE;
    if boundary_included {
        top || bottom
    } else {
        top && bottom
    }
}
