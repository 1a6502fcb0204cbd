// Which parts of lines a polygon keeps, by the fills of a count of lines. Upstream: the filters of `build::string`.
ghost use Rattle.std.specs.Prelude.{◌≡◌, true, false};
ghost use Rattle.overlay_base.specs.ClipRules.{keeps_clip};

use crate::build::filter::InclusionFilterStrategy;
use overlay_base::overlay_core::clip_rule::ClipRule;
use overlay_base::segm::segment_fill::SegmentFill;

const INSIDE: ClipRule = ClipRule {
    invert: false,
    boundary_included: false,
};

const INSIDE_OR_BOUNDARY: ClipRule = ClipRule {
    invert: false,
    boundary_included: true,
};

const NOT_INSIDE: ClipRule = ClipRule {
    invert: true,
    boundary_included: true,
};

const NOT_INSIDE_OR_BOUNDARY: ClipRule = ClipRule {
    invert: true,
    boundary_included: false,
};

/// Whether a line runs there with the subject on both sides.
pub fn is_clip_inside_boundary_excluded(fill: SegmentFill) -> bool
    ensures { result ≡ keeps_clip (record { invert = false; boundary_included = false }) fill }
{
    INSIDE.is_included(fill)
}

/// Whether a line runs there with the subject on one side or both.
pub fn is_clip_inside_boundary_included(fill: SegmentFill) -> bool
    ensures { result ≡ keeps_clip (record { invert = false; boundary_included = true }) fill }
{
    INSIDE_OR_BOUNDARY.is_included(fill)
}

/// Whether a line runs there with the subject on one side or none.
pub fn is_clip_outside_boundary_excluded(fill: SegmentFill) -> bool
    ensures { result ≡ keeps_clip (record { invert = true; boundary_included = false }) fill }
{
    NOT_INSIDE_OR_BOUNDARY.is_included(fill)
}

/// Whether a line runs there with the subject on neither side.
pub fn is_clip_outside_boundary_included(fill: SegmentFill) -> bool
    ensures { result ≡ keeps_clip (record { invert = true; boundary_included = true }) fill }
{
    NOT_INSIDE.is_included(fill)
}

/// Keeps what passes `is_clip_inside_boundary_excluded`.
pub struct ClipInsideBoundaryExcludedFilter;

impl InclusionFilterStrategy for ClipInsideBoundaryExcludedFilter {
    ghost keeps = { keeps_clip (record { invert = false; boundary_included = false }) };

    fn is_included(fill: SegmentFill) -> bool {
        is_clip_inside_boundary_excluded(fill)
    }
}

/// Keeps what passes `is_clip_inside_boundary_included`.
pub struct ClipInsideBoundaryIncludedFilter;

impl InclusionFilterStrategy for ClipInsideBoundaryIncludedFilter {
    ghost keeps = { keeps_clip (record { invert = false; boundary_included = true }) };

    fn is_included(fill: SegmentFill) -> bool {
        is_clip_inside_boundary_included(fill)
    }
}

/// Keeps what passes `is_clip_outside_boundary_excluded`.
pub struct ClipOutsideBoundaryExcludedFilter;

impl InclusionFilterStrategy for ClipOutsideBoundaryExcludedFilter {
    ghost keeps = { keeps_clip (record { invert = true; boundary_included = false }) };

    fn is_included(fill: SegmentFill) -> bool {
        is_clip_outside_boundary_excluded(fill)
    }
}

/// Keeps what passes `is_clip_outside_boundary_included`.
pub struct ClipOutsideBoundaryIncludedFilter;

impl InclusionFilterStrategy for ClipOutsideBoundaryIncludedFilter {
    ghost keeps = { keeps_clip (record { invert = true; boundary_included = true }) };

    fn is_included(fill: SegmentFill) -> bool {
        is_clip_outside_boundary_included(fill)
    }
}
