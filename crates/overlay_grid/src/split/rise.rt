// Whole heights of a segment at a column's border. Upstream: part of `split::grid_layout`, by a slope in fixed point.
ghost use Rattle.std.specs.Prelude.{◌≡◌, ◌≤◌, ◌≤ℤ◌, ◌<ℤ◌, ◌-ℤ◌, unsigned_abs, IsTrue};
ghost use Rattle.overlay_geometry.specs.PairOf.{pair_of};
ghost use Rattle.overlay_geometry.specs.InRange.{IsPairInRange};
ghost use Rattle.overlay_grid.specs.Grid.{toward, near_height, far_height};
ghost use Rattle.overlay_geometry.specs.Coordinates.{is_coordinate, greatest_difference};

use overlay_geometry::geom::x_segment::XSegment;
use overlay_geometry::num::OverlayInt;

/// The heights between which a segment runs at some `x`: one toward its start, one toward its end.
#[derive(Clone, Copy)]
pub struct Heights<I> {
    pub near: I,
    pub far: I,
}

/// The heights of a segment at an `x` between its ends; the first end has the lesser `x`.
pub fn heights_at<I: OverlayInt>(segment: &XSegment<I>, x: I) -> Heights<I>
    requires in_range { IsPairInRange I.whole I.MIN_COORD I.MAX_COORD segment.now }
    requires forward { I.whole segment.now.a.x <ℤ I.whole segment.now.b.x }
    requires from { I.whole segment.now.a.x ≤ℤ I.whole x }
    requires to { I.whole x ≤ℤ I.whole segment.now.b.x }
    ensures near { I.whole result.near ≡ near_height (pair_of I.whole segment.now) (I.whole x) }
    ensures far { I.whole result.far ≡ far_height (pair_of I.whole segment.now) (I.whole x) }
{
    let width = difference(segment.a.x, segment.b.x);
    let height = difference(segment.a.y, segment.b.y);
    let rise = height * difference(segment.a.x, x);
    Heights {
        near: moved(segment, rise / width),
        far: moved(segment, rise.div_ceil(width)),
    }
}

/// How far two coordinates are apart.
fn difference<I: OverlayInt>(u: I, v: I) -> u64
    requires u { IsTrue (is_coordinate (I.whole I.MIN_COORD) (I.whole I.MAX_COORD) (I.whole u)) }
    requires v { IsTrue (is_coordinate (I.whole I.MIN_COORD) (I.whole I.MAX_COORD) (I.whole v)) }
    ensures value { result ≡ unsigned_abs (I.whole v -ℤ I.whole u) }
    ensures bound { result ≤ greatest_difference }
{
    (v.to_wide() - u.to_wide()).unsigned_abs()
}

/// The height of the segment's start, moved by so much toward that of its end, and not past it.
fn moved<I: OverlayInt>(segment: &XSegment<I>, amount: u64) -> I
    requires in_range { IsPairInRange I.whole I.MIN_COORD I.MAX_COORD segment.now }
    requires amount { amount ≤ unsigned_abs (I.whole segment.now.b.y -ℤ I.whole segment.now.a.y) }
    ensures { I.whole result ≡ toward (pair_of I.whole segment.now) amount }
{
    let from = segment.a.y.to_wide();
    let to = segment.b.y.to_wide();
    let amount = amount as i64;
    if to < from {
        I::from_wide(from - amount)
    } else {
        I::from_wide(from + amount)
    }
}
