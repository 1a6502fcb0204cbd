// Points with numbers. Upstream: `geom::id_point`.

use crate::geom::point::IntPoint;
use crate::num::OverlayInt;

/// A point, with the number of the node there.
#[derive(Clone, Copy, Debug, PartialEq, Eq)]
pub struct IdPoint<I> {
    /// The number of the node.
    pub id: usize,
    /// Where it lies.
    pub point: IntPoint<I>,
}

impl<I: OverlayInt> IdPoint<I> {
    ghost use Rattle.std.specs.Prelude.{◌≡◌};

    /// The point with this number.
    pub fn new(id: usize, point: IntPoint<I>) -> IdPoint<I>
        ensures id { result.id ≡ id }
        ensures point { result.point ≡ point }
    {
        IdPoint { id, point }
    }
}
