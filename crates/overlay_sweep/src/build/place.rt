// What a descent of a tree of segments searches for.

use overlay_geometry::geom::point::IntPoint;
use overlay_geometry::geom::v_segment::VSegment;
use overlay_geometry::num::OverlayInt;

/// A place among live segments, in their order from below: that of a point, above each segment that runs below it, or
/// that of a segment, above each one that it does not run below.
#[derive(Clone, Copy)]
pub enum Place<I> {
    Point(IntPoint<I>),
    Segment(VSegment<I>),
}

impl<I: OverlayInt> Place<I> {
    ghost use Rattle.std.specs.Prelude.{◌≡◌};
    ghost use Rattle.overlay_geometry.specs.VSegmentOf.{v_pair_of, IsVSegmentInRange};
    ghost use Rattle.overlay_sweep.specs.steps.PlaceOf.{IsPlaceInRange, stands_before};

    /// Whether a segment comes before the place.
    #[inline(always)]
    pub fn is_after(&self, segment: &VSegment<I>) -> bool
        requires place { IsPlaceInRange I.whole I.MIN_COORD I.MAX_COORD self.now }
        requires segment { IsVSegmentInRange I.whole I.MIN_COORD I.MAX_COORD segment.now }
        ensures { result ≡ stands_before I.whole self.now (v_pair_of I.whole segment.now) }
    {
        match self {
            Place::Point(p) => segment.is_under_point_order(*p).is_lt(),
            Place::Segment(other) => !other.is_under_segment(segment),
        }
    }
}
