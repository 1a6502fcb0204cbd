// The way from one point to another, and the products of two such ways. A difference of two coordinates stays
// below 2^31, so no product here leaves an `i64`, nor does a sum of two.
// Upstream: differences of `i_float::int::point`.
ghost use Rattle.std.specs.Prelude.{◌≡◌, ◌≤◌, ◌+◌, ◌*◌, ◌-ℤ◌, ◌*ℤ◌, pos, unsigned_abs, IsTrue};
ghost use Rattle.overlay_geometry.specs.Coordinates.{is_coordinate, greatest_difference, greatest_product};

use crate::geom::point::IntPoint;
use crate::num::OverlayInt;
use std::alloc::AllocError;

/// How far one point lies from another, in x and in y, as machine numbers that hold any such distance. This project's
/// own.
#[derive(Debug)]
pub struct IntVector {
    x: i64,
    y: i64,
    pub ghost x_bound: { unsigned_abs x ≤ greatest_difference },
    pub ghost y_bound: { unsigned_abs y ≤ greatest_difference },
}

impl Clone for IntVector {
    ghost use Rattle.std.specs.Prelude.{⊤};

    ghost is_clone = { λ v w. w ≡ v };

    ghost is_infallible = { λ _. ⊤ };

    fn clone(&self) -> Result<IntVector, AllocError> {
        Ok(*self)
    }
}

impl Copy for IntVector {}

impl IntVector {
    ghost use Rattle.overlay_geometry.specs.Points.{step, squared, cross_product, dot_product};
    ghost use Rattle.overlay_geometry.specs.PointOf.{point_of};
    ghost use Rattle.overlay_geometry.specs.VectorOf.{vector_of};
    ghost use Rattle.overlay_geometry.specs.InRange.{IsPointInRange};

    /// The way from one point to another. Both have to be in range.
    pub fn between<I: OverlayInt>(from: IntPoint<I>, to: IntPoint<I>) -> Self
        requires from { IsPointInRange I.whole I.MIN_COORD I.MAX_COORD from }
        requires to { IsPointInRange I.whole I.MIN_COORD I.MAX_COORD to }
        ensures { vector_of result ≡ step (point_of I.whole from) (point_of I.whole to) }
    {
        IntVector {
            x: difference(from.x, to.x),
            y: difference(from.y, to.y),
        }
    }

    /// The number in x.
    pub fn x(self) -> i64
        ensures { result ≡ (vector_of self).x }
    {
        self.x
    }

    /// The number in y.
    pub fn y(self) -> i64
        ensures { result ≡ (vector_of self).y }
    {
        self.y
    }

    /// `x * other.y - y * other.x`: positive where `other` points to the left of this way, negative to the right.
    pub fn cross_product(self, other: Self) -> i64
        ensures value { result ≡ cross_product (vector_of self) (vector_of other) }
        ensures bound { unsigned_abs result ≤ 2 * greatest_product }
    {
        product(self.x, other.y) - product(self.y, other.x)
    }

    /// `x * other.x + y * other.y`: positive where `other` points ahead, negative where it points back.
    pub fn dot_product(self, other: Self) -> i64
        ensures { result ≡ dot_product (vector_of self) (vector_of other) }
    {
        product(self.x, other.x) + product(self.y, other.y)
    }

    /// The squared length.
    pub fn sqr_length(self) -> i64
        ensures { result ≡ pos (squared (vector_of self).x + squared (vector_of self).y) }
    {
        product(self.x, self.x) + product(self.y, self.y)
    }
}

/// The difference of two coordinates, which an `i64` holds.
fn difference<I: OverlayInt>(from: I, to: I) -> i64
    requires from { IsTrue (is_coordinate (I.whole I.MIN_COORD) (I.whole I.MAX_COORD) (I.whole from)) }
    requires to { IsTrue (is_coordinate (I.whole I.MIN_COORD) (I.whole I.MAX_COORD) (I.whole to)) }
    ensures value { result ≡ I.whole to -ℤ I.whole from }
    ensures bound { unsigned_abs result ≤ greatest_difference }
{
    to.to_wide() - from.to_wide()
}

/// The product of two such differences, which an `i64` holds.
fn product(a: i64, b: i64) -> i64
    requires a { unsigned_abs a ≤ greatest_difference }
    requires b { unsigned_abs b ≤ greatest_difference }
    ensures value { result ≡ a *ℤ b }
    ensures bound { unsigned_abs result ≤ greatest_product }
{
    a * b
}
