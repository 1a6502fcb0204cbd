// Whether segments lie within the range of their engine.
ghost use Rattle.std.specs.Prelude.{◌≡◌, true, All};
ghost use Rattle.overlay_base.specs.SegmentOf.{x_segment_of};
ghost use Rattle.overlay_geometry.specs.InRange.{IsPairInRange};

use overlay_base::segm::boolean::ShapeCountBoolean;
use overlay_base::segm::segment::Segment;
use overlay_geometry::geom::x_segment::XSegment;
use overlay_geometry::num::OverlayInt;

/// Whether both ends of a segment are in range.
pub(crate) fn is_in_range<I: OverlayInt>(segment: &XSegment<I>) -> bool
    ensures { result ≡ true → IsPairInRange I.whole I.MIN_COORD I.MAX_COORD segment.now }
{
    segment.a.x.is_in_range()
        && segment.a.y.is_in_range()
        && segment.b.x.is_in_range()
        && segment.b.y.is_in_range()
}

/// Whether all ends of a list are in range.
pub(crate) fn are_in_range<I: OverlayInt>(segments: &[Segment<ShapeCountBoolean, I, ()>]) -> bool
    ensures { result ≡ true → All (λ s. IsPairInRange I.whole I.MIN_COORD I.MAX_COORD (x_segment_of s)) segments.now }
{
    for index in 0..segments.len() {
        if !is_in_range(&segments[index].x_segment()) {
            return false;
        }
    }
    true
}
