// Where a horizontal and a vertical segment meet, by comparisons of coordinates. This project's own.
ghost use Rattle.std.specs.Prelude.{◌≡◌, ◌&&◌, IsTrue};
ghost use Rattle.overlay_geometry.specs.Points.{is_between, is_horizontal, is_vertical};
ghost use Rattle.overlay_geometry.specs.PairOf.{pair_of};
ghost use Rattle.overlay_intersections.specs.steps.CornerOf.{IsCorner, is_strictly_between};

use overlay_geometry::geom::point::IntPoint;
use overlay_geometry::geom::x_segment::XSegment;
use overlay_geometry::num::OverlayInt;

/// The point that the lines of a horizontal and a vertical segment share.
#[derive(Clone, Copy)]
pub(crate) struct Corner<I> {
    /// The point.
    pub(crate) point: IntPoint<I>,
    /// Whether it lies strictly inside the horizontal segment, and on the vertical one.
    pub(crate) splits_horizontal: bool,
    /// Whether it lies strictly inside the vertical segment, and on the horizontal one.
    pub(crate) splits_vertical: bool,
}

/// How a coordinate lies to two others, whichever of the two is less.
#[derive(Clone, Copy)]
struct Relation {
    /// Whether it lies strictly between them.
    is_inside: bool,
    /// Whether it lies between them, or is one of them.
    is_between: bool,
}

/// Whether the first of two segments is horizontal and the second vertical.
#[inline(always)]
pub(crate) fn are_horizontal_and_vertical<I: OverlayInt>(
    horizontal: &XSegment<I>,
    vertical: &XSegment<I>,
) -> bool
    ensures { result ≡ (is_horizontal (pair_of I.whole horizontal.now) && is_vertical (pair_of I.whole vertical.now)) }
{
    horizontal.a.y == horizontal.b.y && vertical.a.x == vertical.b.x
}

/// Where the lines of a horizontal and a vertical segment meet, and which of the two it splits.
#[inline(always)]
pub(crate) fn corner_of<I: OverlayInt>(
    horizontal: &XSegment<I>,
    vertical: &XSegment<I>,
) -> Corner<I>
    requires horizontal { IsTrue (is_horizontal (pair_of I.whole horizontal.now)) }
    requires vertical { IsTrue (is_vertical (pair_of I.whole vertical.now)) }
    ensures { IsCorner I.whole (pair_of I.whole horizontal.now) (pair_of I.whole vertical.now) result }
{
    let point = IntPoint::new(vertical.a.x, horizontal.a.y);
    let in_x = relation_of(horizontal.a.x, horizontal.b.x, point.x);
    let in_y = relation_of(vertical.a.y, vertical.b.y, point.y);
    Corner {
        point,
        splits_horizontal: in_x.is_inside & in_y.is_between,
        splits_vertical: in_y.is_inside & in_x.is_between,
    }
}

/// Compares a coordinate with two others, by four comparisons in all.
#[inline(always)]
fn relation_of<I: OverlayInt>(one: I, other: I, coordinate: I) -> Relation
    ensures inside { result.is_inside ≡ is_strictly_between (I.whole one) (I.whole other) (I.whole coordinate) }
    ensures between { result.is_between ≡ is_between (I.whole one) (I.whole other) (I.whole coordinate) }
{
    let is_end = (one == coordinate) | (other == coordinate);
    let separates = (one < coordinate) != (other < coordinate);
    Relation {
        is_inside: separates & !is_end,
        is_between: separates | is_end,
    }
}
