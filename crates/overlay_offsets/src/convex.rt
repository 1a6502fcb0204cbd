// Convex polygons with the origin inside or on the boundary. This project's own.
ghost use Rattle.std.specs.Prelude.{◌≡◌, ◌<◌, ◌+◌, ◌*ℤ◌, ◌∷◌, [], pos, int_lt, drop, length, IsTrue, IfOk, IfErr, IfSome, IfNone};
ghost use Rattle.std.specs.List.{list_all};
ghost use Rattle.overlay_geometry.specs.Coordinates.{is_coordinate, is_point_in_range};
ghost use Rattle.overlay_geometry.specs.InRange.{IsPairInRange};
ghost use Rattle.overlay_geometry.specs.PairOf.{pair_of};
ghost use Rattle.overlay_geometry.specs.Points.{turn};
ghost use Rattle.overlay_contours.specs.Contours.{steps_of};
ghost use Rattle.overlay_contours.specs.ContoursOf.{points_of};
ghost use Rattle.overlay_contours.specs.ContoursIn.{LiesInRange};
ghost use Rattle.overlay_offsets.specs.Convex.{origin, goes_left, is_side, rectangle, IsConvexAround, IsFirstToFail};

use overlay_contours::contour::IntContour;
use overlay_geometry::geom::point::IntPoint;
use overlay_geometry::geom::triangle::Triangle;
use overlay_geometry::geom::x_segment::XSegment;
use overlay_geometry::num::OverlayInt;
use std::alloc::{AllocError, Global};
use thiserror::Error;

/// Why points are no convex polygon around the origin.
#[derive(Clone, Copy, Debug, PartialEq, Eq, Error)]
pub enum ConvexFault {
    /// There are fewer than three corners.
    #[error("fewer than three corners")]
    TooFew,
    /// A corner lies outside the engine's coordinates, from `MIN_COORD` to `MAX_COORD`.
    #[error("corner {corner} is out of range")]
    OutOfRange {
        /// Its index.
        corner: usize,
    },
    /// An edge has a corner or the origin on its right, or is followed by no turn to the left.
    #[error("edge {edge} has a corner or the origin on its right, or no left turn at its end")]
    NotConvex {
        /// The index of the edge: that of the corner from which it runs.
        edge: usize,
    },
    /// A growth was refused.
    #[error("out of memory")]
    Memory,
}

impl From<AllocError> for ConvexFault {
    ghost use Rattle.overlay_offsets.specs.declared.convex.ConvexFault.TheVariants.{Memory};

    ghost from_gives = { λ _ fault. fault ≡ Memory };

    fn from(_error: AllocError) -> ConvexFault {
        ConvexFault::Memory
    }
}

/// A convex polygon that runs counterclockwise and has the origin inside or on its boundary. No three corners in a row lie
/// on one line.
#[derive(Drop)]
pub struct ConvexPolygon<I: OverlayInt> {
    pub(crate) corners: IntContour<I>,
    pub ghost in_range: { LiesInRange I.whole I.MIN_COORD I.MAX_COORD corners.items },
    pub ghost around: { IsConvexAround (points_of I.whole corners.items) },
}

impl<I: OverlayInt> ConvexPolygon<I> {
    ghost use Rattle.overlay_offsets.specs.ConvexOf.{corners_of, IsFaultOf};

    /// The polygon with these corners, which have to run counterclockwise around the origin, or through it. Each has to turn
    /// left.
    ///
    /// Returns `ConvexFault::TooFew` for fewer than three corners; else `ConvexFault::OutOfRange` with the first corner out
    /// of the engine's range; else `ConvexFault::NotConvex` with the first edge that has a corner or the origin on its
    /// right, or is followed by no turn to the left.
    pub fn new(corners: IntContour<I>) -> Result<Self, ConvexFault>
        ensures corners { IfOk result (λ polygon. corners_of I.whole polygon ≡ points_of I.whole corners.items) }
        ensures fault { IfErr result (IsFaultOf (I.whole I.MIN_COORD) (I.whole I.MAX_COORD)
            (points_of I.whole corners.items)) }
    {
        if corners.len() < 3 {
            return Err(ConvexFault::TooFew);
        }
        if let Some(corner) = find_out_of_range(&corners) {
            return Err(ConvexFault::OutOfRange { corner });
        }
        if let Some(edge) = find_edge_at_fault(&corners) {
            return Err(ConvexFault::NotConvex { edge });
        }
        Ok(ConvexPolygon { corners })
    }

    /// The rectangle from `west` to `east` in `x`, and from `south` to `north` in `y`. The first of each two has to be at
    /// most 0, the second at least 0, and greater than the first.
    ///
    /// Returns what `new` returns for its corners, which begin with the lower left one; or `ConvexFault::Memory` where a
    /// growth is refused.
    pub fn rectangle(
        alloc: Global,
        west: I,
        south: I,
        east: I,
        north: I,
    ) -> Result<Self, ConvexFault>
        ensures corners { IfOk result (λ polygon. corners_of I.whole polygon
            ≡ rectangle (I.whole west) (I.whole south) (I.whole east) (I.whole north)) }
        ensures fault { IfErr result (IsFaultOf (I.whole I.MIN_COORD) (I.whole I.MAX_COORD)
            (rectangle (I.whole west) (I.whole south) (I.whole east) (I.whole north))) }
    {
        let corners = rectangle(alloc, west, south, east, north)?;
        ConvexPolygon::new(corners)
    }

    /// Its corners, counterclockwise.
    pub fn corners(&self) -> &[IntPoint<I>]
        ensures { points_of I.whole result.now ≡ corners_of I.whole self.now }
    {
        &self.corners
    }
}

/// The corners of a rectangle, counterclockwise from the lower left one.
fn rectangle<I: OverlayInt>(
    alloc: Global,
    west: I,
    south: I,
    east: I,
    north: I,
) -> Result<IntContour<I>, AllocError>
    ensures { IfOk result (λ corners. points_of I.whole corners.items
        ≡ rectangle (I.whole west) (I.whole south) (I.whole east) (I.whole north)) }
{
    let mut corners = Vec::new(alloc);
    corners.push(IntPoint::new(west, south))?;
    corners.push(IntPoint::new(east, south))?;
    corners.push(IntPoint::new(east, north))?;
    corners.push(IntPoint::new(west, north))?;
    Ok(corners)
}

/// The index of the first point out of range.
fn find_out_of_range<I: OverlayInt>(points: &[IntPoint<I>]) -> Option<usize>
    ensures none { IfNone result (LiesInRange I.whole I.MIN_COORD I.MAX_COORD points.now) }
    ensures first { IfSome result (IsFirstToFail (is_point_in_range (I.whole I.MIN_COORD) (I.whole I.MAX_COORD))
        (points_of I.whole points.now)) }
{
    for (index, point) in points.iter().enumerate() {
        if !point.is_in_range() {
            return Some(index);
        }
    }
    None
}

/// The index of the first edge that has a corner or the origin on its right, or is followed by no turn to the left.
fn find_edge_at_fault<I: OverlayInt>(corners: &[IntPoint<I>]) -> Option<usize>
    requires { LiesInRange I.whole I.MIN_COORD I.MAX_COORD corners.now }
    ensures none { IfNone result (IsTrue (list_all (is_side (points_of I.whole corners.now))
        (steps_of (points_of I.whole corners.now)))) }
    ensures first { IfSome result (IsFirstToFail (is_side (points_of I.whole corners.now))
        (steps_of (points_of I.whole corners.now))) }
{
    for index in 0..corners.len() {
        if !is_side(corners, &edge_at(corners, index)) {
            return Some(index);
        }
    }
    None
}

/// The edge from the corner at an index to the next one.
fn edge_at<I: OverlayInt>(corners: &[IntPoint<I>], index: usize) -> XSegment<I>
    requires in_range { LiesInRange I.whole I.MIN_COORD I.MAX_COORD corners.now }
    requires index { index < length corners.now }
    ensures edge { drop index (steps_of (points_of I.whole corners.now))
        ≡ pair_of I.whole result ∷ drop (index + 1) (steps_of (points_of I.whole corners.now)) }
    ensures edge_in_range { IsPairInRange I.whole I.MIN_COORD I.MAX_COORD result }
{
    let a = corners[index];
    if index + 1 < corners.len() {
        let b = corners[index + 1];
        return XSegment { a, b };
    }
    let b = corners[0];
    XSegment { a, b }
}

/// Whether an edge has no corner and not the origin on its right, and the next one turns left.
fn is_side<I: OverlayInt>(corners: &[IntPoint<I>], edge: &XSegment<I>) -> bool
    requires in_range { LiesInRange I.whole I.MIN_COORD I.MAX_COORD corners.now }
    requires edge { IsPairInRange I.whole I.MIN_COORD I.MAX_COORD edge.now }
    ensures { result ≡ is_side (points_of I.whole corners.now) (pair_of I.whole edge.now) }
{
    for index in 0..corners.len() {
        if !goes_left(edge, &edge_at(corners, index)) {
            return false;
        }
    }
    !has_origin_on_right(edge)
}

/// Whether an edge ends on the left of another one or on its line, and strictly on the left where it goes on from its end.
fn goes_left<I: OverlayInt>(edge: &XSegment<I>, other: &XSegment<I>) -> bool
    requires edge { IsPairInRange I.whole I.MIN_COORD I.MAX_COORD edge.now }
    requires other { IsPairInRange I.whole I.MIN_COORD I.MAX_COORD other.now }
    ensures { result ≡ goes_left (pair_of I.whole edge.now) (pair_of I.whole other.now) }
{
    let right = Triangle::is_clockwise(edge.a, edge.b, other.b);
    if other.a == edge.b {
        !right && Triangle::is_not_line(edge.a, edge.b, other.b)
    } else {
        !right
    }
}

/// Whether the origin lies on the right of an edge.
fn has_origin_on_right<I: OverlayInt>(edge: &XSegment<I>) -> bool
    requires { IsPairInRange I.whole I.MIN_COORD I.MAX_COORD edge.now }
    ensures { result ≡ int_lt (turn (pair_of I.whole edge.now).a (pair_of I.whole edge.now).b origin) (pos 0) }
{
    product(edge.a.x, edge.b.y) < product(edge.a.y, edge.b.x)
}

/// The product of two coordinates, which an `i64` holds.
fn product<I: OverlayInt>(u: I, v: I) -> i64
    requires u { IsTrue (is_coordinate (I.whole I.MIN_COORD) (I.whole I.MAX_COORD) (I.whole u)) }
    requires v { IsTrue (is_coordinate (I.whole I.MIN_COORD) (I.whole I.MAX_COORD) (I.whole v)) }
    ensures { result ≡ I.whole u *ℤ I.whole v }
{
    u.to_wide() * v.to_wide()
}
