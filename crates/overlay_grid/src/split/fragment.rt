// The parts of segments in the columns of a grid. Upstream: `split::fragment`.
ghost use Rattle.std.specs.Prelude.{◌≡◌};
ghost use Rattle.std.specs.Int.{int_min, int_max};
ghost use Rattle.overlay_geometry.specs.RangeOf.{rect_of};
ghost use Rattle.overlay_grid.specs.Grid.{rect_between};
ghost use Rattle.overlay_grid.specs.FragmentOf.{fragment_of, kept_between};

use overlay_geometry::geom::point::IntPoint;
use overlay_geometry::geom::rect::IntRect;
use overlay_geometry::geom::x_segment::XSegment;
use overlay_geometry::num::OverlayInt;

/// The part of a segment in one column: the segment's index, a rectangle that holds the part, and the whole segment.
#[derive(Clone, Copy)]
pub struct Fragment<I> {
    /// The index of the segment in the list of the pass.
    pub index: usize,
    /// The rectangle that holds the part.
    pub rect: IntRect<I>,
    /// The whole segment.
    pub x_segment: XSegment<I>,
}

impl<I: OverlayInt> Fragment<I> {
    /// The fragment whose rectangle is the segment's box.
    pub fn with_index_and_segment(index: usize, x_segment: XSegment<I>) -> Self
        ensures { fragment_of I.whole result ≡ kept_between I.whole index x_segment x_segment.a x_segment.b }
    {
        let XSegment { a, b } = x_segment;
        Fragment::between(index, a, b, XSegment { a, b })
    }

    /// The fragment whose rectangle has two points as opposite corners.
    pub fn between(index: usize, p: IntPoint<I>, q: IntPoint<I>, x_segment: XSegment<I>) -> Self
        ensures { fragment_of I.whole result ≡ kept_between I.whole index x_segment p q }
    {
        Fragment {
            index,
            rect: rect_between(p, q),
            x_segment,
        }
    }
}

/// The rectangle with two points as opposite corners.
#[tactic(auto, unfolding(crate::specs::Grid::rect_between))]
fn rect_between<I: OverlayInt>(p: IntPoint<I>, q: IntPoint<I>) -> IntRect<I>
    ensures { rect_of I.whole result ≡ rect_between (I.whole p.x) (I.whole p.y) (I.whole q.x) (I.whole q.y) }
{
    let (min_x, max_x) = in_order(p.x, q.x);
    let (min_y, max_y) = in_order(p.y, q.y);
    IntRect {
        min_x,
        max_x,
        min_y,
        max_y,
    }
}

/// The lesser of two coordinates, then the greater.
fn in_order<I: OverlayInt>(u: I, v: I) -> (I, I)
    ensures { (I.whole result.0 ≡ int_min (I.whole u) (I.whole v))
        × (I.whole result.1 ≡ int_max (I.whole u) (I.whole v)) }
{
    if v < u { (v, u) } else { (u, v) }
}
