// Lines along the axes, and where steps cross them. This project's own.
ghost use Rattle.std.specs.Prelude.{◌≡◌, ◌≢◌, ◌≤◌, pos, unsigned_abs, IsTrue};
ghost use Rattle.overlay_geometry.specs.Coordinates.{is_coordinate, greatest_difference};
ghost use Rattle.overlay_geometry.specs.InRange.{IsPairInRange};
ghost use Rattle.overlay_geometry.specs.PairOf.{pair_of};
ghost use Rattle.overlay_geometry.specs.PointOf.{point_of};
ghost use Rattle.overlay_geometry.specs.Points.{is_between, is_in_box};
ghost use Rattle.overlay_intersections.specs.Crossing.{quotient, nearest_upward};
ghost use Rattle.overlay_tiles.specs.Tiles.{is_amid, parts, height_at, cut};
ghost use Rattle.overlay_tiles.specs.steps.LineOf.{line_of};

use overlay_geometry::geom::point::IntPoint;
use overlay_geometry::geom::x_segment::XSegment;
use overlay_geometry::num::OverlayInt;

/// A line along an axis.
#[derive(Clone, Copy)]
pub(crate) enum Line<I> {
    /// All points with this `x`.
    Upright(I),
    /// All points with this `y`.
    Level(I),
}

impl<I: OverlayInt> Line<I> {
    /// Whether two points lie strictly on the two sides of the line.
    #[tactic(auto, unfolding(crate::specs::Tiles::parts))]
    pub(crate) fn parts(self, u: IntPoint<I>, v: IntPoint<I>) -> bool
        ensures { result ≡ parts (line_of I.whole self) (point_of I.whole u) (point_of I.whole v) }
    {
        match self {
            Line::Upright(x) => is_amid(u.x, v.x, x),
            Line::Level(y) => is_amid(u.y, v.y, y),
        }
    }

    /// The point at which a step crosses the line: the other coordinate to the nearest whole number, halves upward. The two
    /// ends of the step have to be in range, and strictly on the two sides of the line.
    pub(crate) fn cut(self, step: &XSegment<I>) -> IntPoint<I>
        requires in_range { IsPairInRange I.whole I.MIN_COORD I.MAX_COORD step.now }
        requires crossed { IsTrue (parts (line_of I.whole self) (point_of I.whole step.now.a)
            (point_of I.whole step.now.b)) }
        ensures cut { point_of I.whole result ≡ cut (pair_of I.whole step.now) (line_of I.whole self) }
        ensures in_box { IsTrue (is_in_box (pair_of I.whole step.now) (point_of I.whole result)) }
    {
        let XSegment { a, b } = *step;
        match self {
            Line::Upright(x) => IntPoint::new(x, height_at(a.x, b.x, a.y, b.y, x)),
            Line::Level(y) => IntPoint::new(height_at(a.y, b.y, a.x, b.x, y), y),
        }
    }
}

/// Whether a number lies strictly between two others.
fn is_amid<I: OverlayInt>(u: I, v: I, z: I) -> bool
    ensures { result ≡ is_amid (I.whole u) (I.whole v) (I.whole z) }
{
    (u < z && z < v) || (v < z && z < u)
}

/// What goes evenly from `c` to `d`, while another number goes from `a` to `b`, where that is `z`: to the nearest whole
/// number, halves upward. All have to be in range, and `z` strictly between `a` and `b`.
fn height_at<I: OverlayInt>(a: I, b: I, c: I, d: I, z: I) -> I
    requires a { IsTrue (is_coordinate (I.whole I.MIN_COORD) (I.whole I.MAX_COORD) (I.whole a)) }
    requires b { IsTrue (is_coordinate (I.whole I.MIN_COORD) (I.whole I.MAX_COORD) (I.whole b)) }
    requires c { IsTrue (is_coordinate (I.whole I.MIN_COORD) (I.whole I.MAX_COORD) (I.whole c)) }
    requires d { IsTrue (is_coordinate (I.whole I.MIN_COORD) (I.whole I.MAX_COORD) (I.whole d)) }
    requires amid { IsTrue (is_amid (I.whole a) (I.whole b) (I.whole z)) }
    ensures height { I.whole result ≡ height_at (I.whole a) (I.whole b) (I.whole c) (I.whole d) (I.whole z) }
    ensures between { IsTrue (is_between (I.whole c) (I.whole d) (I.whole result)) }
{
    let (a, b, c, d, z) = (
        a.to_wide(),
        b.to_wide(),
        c.to_wide(),
        d.to_wide(),
        z.to_wide(),
    );
    I::from_wide(c + rounded_part(d - c, z - a, b - a))
}

/// The share of a way that a part is of a whole: to the nearest whole number, halves upward. Each of the three is a
/// difference of coordinates, so no product here leaves an `i64`.
fn rounded_part(way: i64, part: i64, whole: i64) -> i64
    requires way { unsigned_abs way ≤ greatest_difference }
    requires part { unsigned_abs part ≤ greatest_difference }
    requires whole { unsigned_abs whole ≤ greatest_difference }
    requires divides { whole ≢ pos 0 }
    ensures { result ≡ nearest_upward (quotient way part whole) }
{
    let top = whole.signum() * (way * part);
    let bottom = whole.abs();
    (2 * top + bottom).div_euclid(2 * bottom)
}
