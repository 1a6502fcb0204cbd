// Segments as pairs of ends. Upstream: `geom::x_segment`.

use crate::geom::line_range::LineRange;
use crate::geom::point::IntPoint;
use crate::num::OverlayInt;

/// The two ends of a segment. Pairs are ordered by `a`, then by `b`.
#[derive(Clone, Copy, Debug, PartialEq, Eq, PartialOrd, Ord)]
pub struct XSegment<I> {
    /// The first end; in a list of segments the one that comes before the other in the order of
    /// points.
    pub a: IntPoint<I>,
    /// The second end.
    pub b: IntPoint<I>,
}

impl<I: OverlayInt> XSegment<I> {
    ghost use Rattle.std.specs.Prelude.{◌≡◌, ◌&&◌, int_lt, not};
    ghost use Rattle.overlay_geometry.specs.Points.{is_vertical, pair_lt};
    ghost use Rattle.overlay_geometry.specs.Ranges.{heights, is_off_range};
    ghost use Rattle.overlay_geometry.specs.PairOf.{pair_of};
    ghost use Rattle.overlay_geometry.specs.RangeOf.{range_of};

    /// The least and the greatest `y` of the ends.
    pub fn y_range(&self) -> LineRange<I>
        ensures { range_of I.whole result ≡ heights (pair_of I.whole self.now) }
    {
        let (min, max) = if self.a.y < self.b.y {
            (self.a.y, self.b.y)
        } else {
            (self.b.y, self.a.y)
        };
        LineRange { min, max }
    }

    /// Whether the ends differ in `x`.
    pub fn is_not_vertical(&self) -> bool
        ensures { result ≡ not (is_vertical (pair_of I.whole self.now)) }
    {
        self.a.x != self.b.x
    }

    /// Whether both ends lie below the range, or both above it.
    pub fn is_not_intersect_y_range(&self, range: &LineRange<I>) -> bool
        ensures { result ≡ is_off_range (range_of I.whole range.now) (pair_of I.whole self.now) }
    {
        self.is_below(range.min) || self.is_above(range.max)
    }

    /// Whether both ends lie right of the other's end `b`, where `a` comes before `b` in both. This
    /// project's own.
    pub fn begins_past_end(&self, other: &XSegment<I>) -> bool
        ensures { result ≡ int_lt (I.whole other.now.b.x) (I.whole self.now.a.x) }
    {
        other.b.x < self.a.x
    }

    /// Whether this comes before another, by their ends. This project's own.
    pub fn is_before(&self, other: &XSegment<I>) -> bool
        ensures { result ≡ pair_lt (pair_of I.whole self.now) (pair_of I.whole other.now) }
    {
        self < other
    }

    /// Whether both ends lie below a height.
    fn is_below(&self, y: I) -> bool
        ensures { result ≡ (int_lt (I.whole self.now.a.y) (I.whole y) && int_lt (I.whole self.now.b.y) (I.whole y)) }
    {
        self.a.y < y && self.b.y < y
    }

    /// Whether both ends lie above a height.
    fn is_above(&self, y: I) -> bool
        ensures { result ≡ (int_lt (I.whole y) (I.whole self.now.a.y) && int_lt (I.whole y) (I.whole self.now.b.y)) }
    {
        y < self.a.y && y < self.b.y
    }
}
