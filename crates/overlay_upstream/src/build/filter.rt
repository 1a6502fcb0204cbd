// Which segments an overlay rule keeps, by their fills: those whose two sides it distinguishes. Upstream: the filters
// of `build::boolean`, and `InclusionFilterStrategy` of `build::builder`.
ghost use Rattle.std.specs.Prelude.{◌≡◌, ℕ, Bool};
ghost use Rattle.overlay_base.specs.Rules.{holds, keeps_fill};
ghost use Rattle.overlay_base.specs.declared.overlay_core.overlay_rule.OverlayRule.TheVariants.{Subject, Clip, Intersect, Union, Difference, InverseDifference, Xor};

use overlay_base::overlay_core::overlay_rule::OverlayRule;
use overlay_base::segm::segment_fill::SegmentFill;

/// A choice of fills. An `impl` says which it keeps.
pub trait InclusionFilterStrategy {
    ghost keeps: { ℕ → Bool };

    /// Whether a segment with this fill is kept.
    fn is_included(fill: SegmentFill) -> bool
        ensures { result ≡ keeps fill };
}

/// Whether just one side is inside the subject.
pub fn is_subject(fill: SegmentFill) -> bool
    ensures { result ≡ keeps_fill (holds Subject) fill }
{
    OverlayRule::Subject.is_included(fill)
}

/// Whether just one side is inside the clip.
pub fn is_clip(fill: SegmentFill) -> bool
    ensures { result ≡ keeps_fill (holds Clip) fill }
{
    OverlayRule::Clip.is_included(fill)
}

/// Whether just one side is inside both.
pub fn is_intersect(fill: SegmentFill) -> bool
    ensures { result ≡ keeps_fill (holds Intersect) fill }
{
    OverlayRule::Intersect.is_included(fill)
}

/// Whether just one side is inside one or both.
pub fn is_union(fill: SegmentFill) -> bool
    ensures { result ≡ keeps_fill (holds Union) fill }
{
    OverlayRule::Union.is_included(fill)
}

/// Whether just one side is inside the subject and not the clip.
pub fn is_difference(fill: SegmentFill) -> bool
    ensures { result ≡ keeps_fill (holds Difference) fill }
{
    OverlayRule::Difference.is_included(fill)
}

/// Whether just one side is inside the clip and not the subject.
pub fn is_inverse_difference(fill: SegmentFill) -> bool
    ensures { result ≡ keeps_fill (holds InverseDifference) fill }
{
    OverlayRule::InverseDifference.is_included(fill)
}

/// Whether just one side is inside exactly one of the two.
pub fn is_xor(fill: SegmentFill) -> bool
    ensures { result ≡ keeps_fill (holds Xor) fill }
{
    OverlayRule::Xor.is_included(fill)
}

/// Keeps what passes `is_subject`.
pub struct SubjectFilter;

impl InclusionFilterStrategy for SubjectFilter {
    ghost keeps = { keeps_fill (holds Subject) };

    fn is_included(fill: SegmentFill) -> bool {
        is_subject(fill)
    }
}

/// Keeps what passes `is_clip`.
pub struct ClipFilter;

impl InclusionFilterStrategy for ClipFilter {
    ghost keeps = { keeps_fill (holds Clip) };

    fn is_included(fill: SegmentFill) -> bool {
        is_clip(fill)
    }
}

/// Keeps what passes `is_intersect`.
pub struct IntersectFilter;

impl InclusionFilterStrategy for IntersectFilter {
    ghost keeps = { keeps_fill (holds Intersect) };

    fn is_included(fill: SegmentFill) -> bool {
        is_intersect(fill)
    }
}

/// Keeps what passes `is_union`.
pub struct UnionFilter;

impl InclusionFilterStrategy for UnionFilter {
    ghost keeps = { keeps_fill (holds Union) };

    fn is_included(fill: SegmentFill) -> bool {
        is_union(fill)
    }
}

/// Keeps what passes `is_difference`.
pub struct DifferenceFilter;

impl InclusionFilterStrategy for DifferenceFilter {
    ghost keeps = { keeps_fill (holds Difference) };

    fn is_included(fill: SegmentFill) -> bool {
        is_difference(fill)
    }
}

/// Keeps what passes `is_inverse_difference`.
pub struct InverseDifferenceFilter;

impl InclusionFilterStrategy for InverseDifferenceFilter {
    ghost keeps = { keeps_fill (holds InverseDifference) };

    fn is_included(fill: SegmentFill) -> bool {
        is_inverse_difference(fill)
    }
}

/// Keeps what passes `is_xor`.
pub struct XorFilter;

impl InclusionFilterStrategy for XorFilter {
    ghost keeps = { keeps_fill (holds Xor) };

    fn is_included(fill: SegmentFill) -> bool {
        is_xor(fill)
    }
}
