// The ends of a segment with its index, for the order by angle. Upstream: `geom::end` and part of `build::sweep`.
ghost use Rattle.std.specs.Prelude.{IsTrue};
ghost use Rattle.overlay_geometry.specs.Points.{is_ordered};
ghost use Rattle.overlay_geometry.specs.VSegmentOf.{v_pair_of, IsVSegmentInRange};

use overlay_base::segm::segment::Segment;
use overlay_base::segm::winding::WindingCount;
use overlay_geometry::geom::v_segment::VSegment;
use overlay_geometry::num::OverlayInt;
use std::cmp::Ordering;

/// The way from the start of a segment to its end, with the segment's index.
///
/// Its ends are in range and in order. So every two ways can be compared by angle, and this is an order of them all.
#[derive(Drop)]
pub struct Way<I: OverlayInt> {
    pub index: usize,
    segment: VSegment<I>,
    ghost in_range: { IsVSegmentInRange I.whole I.MIN_COORD I.MAX_COORD segment },
    ghost ordered: { IsTrue (is_ordered (v_pair_of I.whole segment)) },
}

impl<I: OverlayInt> Way<I> {
    ghost use Rattle.std.specs.Prelude.{◌≡◌};
    ghost use Rattle.overlay_geometry.specs.Below.{angle_cmp};
    ghost use Rattle.overlay_geometry.specs.InRange.{IsPairInRange};
    ghost use Rattle.overlay_base.specs.SegmentOf.{ends_of, x_segment_of};
    ghost use Rattle.overlay_sweep.specs.steps.WayOf.{way_of};

    /// The way of the segment at an index. Its ends have to be in range.
    pub fn new<C: WindingCount, D: Copy>(index: usize, segment: &Segment<C, I, D>) -> Way<I>
        requires { IsPairInRange I.whole I.MIN_COORD I.MAX_COORD (x_segment_of segment.now) }
        ensures { way_of result ≡ record { index = index; pair = ends_of segment.now } }
    {
        let segment = VSegment::from(segment.x_segment());
        Way { index, segment }
    }

    /// Compares the ways by their angle, from straight down over rightward to straight up.
    pub fn cmp_by_angle(&self, other: &Way<I>) -> Ordering
        ensures { result ≡ angle_cmp (way_of self.now).pair (way_of other.now).pair }
    {
        self.segment.cmp_by_angle(&other.segment)
    }
}
