// A segment that is live in a sweep, with the sum above it.
ghost use Rattle.std.specs.Prelude.{◌<ℤ◌};
ghost use Rattle.overlay_geometry.specs.VSegmentOf.{IsVSegmentInRange};

use crate::build::place::Place;
use overlay_base::segm::winding::WindingCount;
use overlay_geometry::geom::v_segment::VSegment;
use overlay_geometry::num::OverlayInt;
use std::alloc::AllocError;

/// A segment that is not vertical, with the sum above it.
pub struct Entry<C: WindingCount, I: OverlayInt> {
    pub segment: VSegment<I>,
    pub sum: C,
    ghost in_range: { IsVSegmentInRange I.whole I.MIN_COORD I.MAX_COORD segment },
    ghost wide: { I.whole segment.a.x <ℤ I.whole segment.b.x },
}

impl<C: WindingCount, I: OverlayInt> Clone for Entry<C, I> {
    ghost use Rattle.std.specs.Prelude.{◌≡◌, ⊤};

    ghost is_clone = { λ x y. y ≡ x };

    ghost is_infallible = { λ _. ⊤ };

    fn clone(&self) -> Result<Entry<C, I>, AllocError> {
        Ok(*self)
    }
}

impl<C: WindingCount, I: OverlayInt> Copy for Entry<C, I> {}

impl<C: WindingCount, I: OverlayInt> Entry<C, I> {
    ghost use Rattle.std.specs.Prelude.{◌≡◌, ◌+◌, ◌-◌, ◌^◌, min, int_lt};
    ghost use Rattle.overlay_geometry.specs.VSegmentOf.{v_pair_of};
    ghost use Rattle.overlay_sweep.specs.steps.PlaceOf.{IsPlaceInRange, stands_before};

    /// Whether the segment ends right of `x`.
    pub fn lasts_past(&self, x: I) -> bool
        ensures { result ≡ int_lt (I.whole x) (I.whole self.now.segment.b.x) }
    {
        x < self.segment.b.x
    }

    /// Whether the segment comes before a place. Every order of an entry is compared here, and is
    /// counted.
    #[inline(always)]
    pub fn is_before(&self, place: &Place<I>, compared: &mut u64) -> bool
        requires { IsPlaceInRange I.whole I.MIN_COORD I.MAX_COORD place.now }
        ensures value { result ≡ stands_before I.whole place.now (v_pair_of I.whole self.now.segment) }
        ensures compared { compared.new ≡ min (compared.old + 1) (2 ^ 64 - 1) }
    {
        *compared = compared.saturating_add(1);
        place.is_after(&self.segment)
    }
}
