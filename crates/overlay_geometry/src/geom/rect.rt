// Rectangles with sides along the axes. Upstream: `i_float::int::rect`.
ghost use Rattle.std.specs.Prelude.{◌≡◌, ◌&&◌, int_le};

use crate::num::OverlayInt;

/// The points from `min_x` to `max_x` and from `min_y` to `max_y`, borders included.
#[derive(Clone, Copy, Debug, PartialEq, Eq)]
pub struct IntRect<I> {
    /// The left border.
    pub min_x: I,
    /// The right border.
    pub max_x: I,
    /// The lower border.
    pub min_y: I,
    /// The upper border.
    pub max_y: I,
}

impl<I: OverlayInt> IntRect<I> {
    ghost use Rattle.overlay_geometry.specs.Ranges.{do_rects_meet};
    ghost use Rattle.overlay_geometry.specs.RangeOf.{rect_of};

    /// Whether the two share a point. Rectangles that touch along a border or in a corner do.
    pub fn is_intersect_border_include(&self, other: &Self) -> bool
        ensures { result ≡ do_rects_meet (rect_of I.whole self.now) (rect_of I.whole other.now) }
    {
        do_meet(self.min_x, self.max_x, other.min_x, other.max_x)
            && do_meet(self.min_y, self.max_y, other.min_y, other.max_y)
    }
}

/// Whether two ranges share a number.
fn do_meet<I: OverlayInt>(min: I, max: I, other_min: I, other_max: I) -> bool
    ensures { result ≡ (int_le (I.whole min) (I.whole other_max) && int_le (I.whole other_min) (I.whole max)) }
{
    min <= other_max && other_min <= max
}
