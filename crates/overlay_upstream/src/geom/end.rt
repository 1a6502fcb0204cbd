// The far end of a segment, with the segment's index. Upstream: `geom::end`.

use overlay_geometry::geom::point::IntPoint;
use overlay_geometry::num::OverlayInt;

/// The end of the segment at an index of a list. By default index 0 at the origin.
#[derive(Clone, Copy)]
pub struct End<I> {
    /// The index of the segment.
    pub index: usize,
    /// Where the end lies.
    pub point: IntPoint<I>,
}

impl<I: OverlayInt> Default for End<I> {
    ghost use Rattle.std.specs.Prelude.{◌≡◌, pos};
    ghost use Rattle.overlay_geometry.specs.PointOf.{point_of};

    ghost is_default = { λ end. (end.index ≡ 0) × (point_of I.whole end.point ≡ record { x = pos 0; y = pos 0 }) };

    fn default() -> End<I> {
        End {
            index: 0,
            point: IntPoint::new(I::ZERO, I::ZERO),
        }
    }
}
