// Points with integer coordinates. Upstream: `i_float::int::point`.

use crate::geom::vector::IntVector;
use crate::num::OverlayInt;

/// A point. Points are ordered by `x`, then by `y`.
#[derive(Clone, Copy, Debug, PartialEq, Eq, PartialOrd, Ord)]
pub struct IntPoint<I> {
    /// How far to the right.
    pub x: I,
    /// How far up.
    pub y: I,
}

impl IntPoint<i16> {
    /// The origin.
    pub const ZERO: Self = IntPoint { x: 0, y: 0 };
}

impl IntPoint<i32> {
    /// The origin.
    pub const ZERO: Self = IntPoint { x: 0, y: 0 };
}

const _: () = prove!(IntPoint::<i16>::ZERO.x == 0 && IntPoint::<i16>::ZERO.y == 0);

const _: () = prove!(IntPoint::<i32>::ZERO.x == 0 && IntPoint::<i32>::ZERO.y == 0);

impl<I: OverlayInt> IntPoint<I> {
    ghost use Rattle.std.specs.Prelude.{◌≡◌, pos};
    ghost use Rattle.overlay_geometry.specs.Points.{sqr_distance};
    ghost use Rattle.overlay_geometry.specs.PointOf.{point_of};
    ghost use Rattle.overlay_geometry.specs.Coordinates.{is_point_in_range};
    ghost use Rattle.overlay_geometry.specs.InRange.{IsPointInRange};

    /// The point with these coordinates.
    pub fn new(x: I, y: I) -> Self
        ensures { point_of I.whole result ≡ record { x = I.whole x; y = I.whole y } }
    {
        IntPoint { x, y }
    }

    /// Whether both coordinates lie between `MIN_COORD` and `MAX_COORD`. This project's own.
    pub fn is_in_range(self) -> bool
        ensures { result ≡ is_point_in_range (I.whole I.MIN_COORD) (I.whole I.MAX_COORD) (point_of I.whole self) }
    {
        self.x.is_in_range() && self.y.is_in_range()
    }

    /// The squared distance to another point. Both have to be in range.
    pub fn sqr_distance(self, other: Self) -> i64
        requires own { IsPointInRange I.whole I.MIN_COORD I.MAX_COORD self }
        requires other { IsPointInRange I.whole I.MIN_COORD I.MAX_COORD other }
        ensures { result ≡ pos (sqr_distance (point_of I.whole self) (point_of I.whole other)) }
    {
        IntVector::between(self, other).sqr_length()
    }
}
