// Tiles of the plane: rectangles, and what is none. This project's own.
ghost use Rattle.std.specs.Prelude.{◌≡◌, ◌↔◌, ◌<ℤ◌, IsTrue};
ghost use Rattle.overlay_tiles.specs.RectIn.{IsRectInRange};
ghost use Rattle.overlay_tiles.specs.Tiles.{clamped};

use crate::line::Line;
use overlay_geometry::geom::point::IntPoint;
use overlay_geometry::geom::rect::IntRect;
use overlay_geometry::num::OverlayInt;
use std::alloc::AllocError;
use thiserror::Error;

pub mod laws;

/// Why a rectangle is no tile.
#[derive(Clone, Copy, Debug, PartialEq, Eq, Error)]
pub enum TileFault {
    /// A border lies outside the engine's coordinates, from `MIN_COORD` to `MAX_COORD`.
    #[error("a border is out of range")]
    OutOfRange,
    /// The right border does not lie to the right of the left one.
    #[error("the tile is not wider than 0")]
    NotWide,
    /// The upper border does not lie above the lower one.
    #[error("the tile is not higher than 0")]
    NotHigh,
}

/// A rectangle that is wider and higher than 0. Its left and its upper border belong to it, without the lower left and the
/// upper right corner; the other two borders do not. So each point of the plane belongs to at most one tile of a grid.
pub struct Tile<I: OverlayInt> {
    rect: IntRect<I>,
    pub ghost in_range: { IsRectInRange I.whole I.MIN_COORD I.MAX_COORD rect },
    pub ghost wide: { I.whole rect.min_x <ℤ I.whole rect.max_x },
    pub ghost high: { I.whole rect.min_y <ℤ I.whole rect.max_y },
}

impl<I: OverlayInt> Clone for Tile<I> {
    ghost use Rattle.std.specs.Prelude.{⊤};

    ghost is_clone = { λ v w. w ≡ v };

    ghost is_infallible = { λ _. ⊤ };

    fn clone(&self) -> Result<Tile<I>, AllocError> {
        Ok(*self)
    }
}

impl<I: OverlayInt> Copy for Tile<I> {}

impl<I: OverlayInt> Tile<I> {
    ghost use Rattle.std.specs.Prelude.{◌∷◌, [], ◌+◌, ◌<◌, drop, IfOk, IfErr, IfSome, IfNone};
    ghost use Rattle.overlay_geometry.specs.PointOf.{point_of};
    ghost use Rattle.overlay_geometry.specs.RangeOf.{rect_of};
    ghost use Rattle.overlay_tiles.specs.Tiles.{clamp, borders};
    ghost use Rattle.overlay_tiles.specs.TileOf.{IsFaultOf, tile_of};
    ghost use Rattle.overlay_tiles.specs.steps.LineOf.{line_of};

    /// The tile with these borders. All four have to be in range, the right one to the right of the left one, and the upper
    /// one above the lower one. Returns the first of these faults that the rectangle has.
    pub fn new(rect: IntRect<I>) -> Result<Self, TileFault>
        ensures tile { IfOk result (λ tile. tile_of I.whole tile ≡ rect_of I.whole rect) }
        ensures fault { IfErr result (λ fault. IsFaultOf I.whole I.MIN_COORD I.MAX_COORD rect fault) }
    {
        if !are_in_range(rect) {
            Err(TileFault::OutOfRange)
        } else if rect.max_x <= rect.min_x {
            Err(TileFault::NotWide)
        } else if rect.max_y <= rect.min_y {
            Err(TileFault::NotHigh)
        } else {
            Ok(Tile { rect })
        }
    }

    /// Its borders.
    pub fn rect(&self) -> IntRect<I>
        ensures { rect_of I.whole result ≡ tile_of I.whole self.now }
    {
        self.rect
    }

    /// The point of the rectangle that is nearest to a point.
    pub(crate) fn clamp(&self, point: IntPoint<I>) -> IntPoint<I>
        ensures { point_of I.whole result ≡ clamp (tile_of I.whole self.now) (point_of I.whole point) }
    {
        let rect = self.rect;
        IntPoint {
            x: clamped(rect.min_x, rect.max_x, point.x),
            y: clamped(rect.min_y, rect.max_y, point.y),
        }
    }

    /// The line of a border: of the left, the right, the lower and the upper one, which have the indexes 0 to 3.
    pub(crate) fn border(&self, index: usize) -> Option<Line<I>>
        ensures some { IfSome result (λ line. index < 4 × (drop index (borders (tile_of I.whole self.now))
            ≡ line_of I.whole line ∷ drop (index + 1) (borders (tile_of I.whole self.now)))) }
        ensures none { IfNone result (drop index (borders (tile_of I.whole self.now)) ≡ []) }
    {
        let rect = self.rect;
        match index {
            0 => Some(Line::Upright(rect.min_x)),
            1 => Some(Line::Upright(rect.max_x)),
            2 => Some(Line::Level(rect.min_y)),
            3 => Some(Line::Level(rect.max_y)),
            _ => None,
        }
    }
}

/// Whether all four borders are in range.
fn are_in_range<I: OverlayInt>(rect: IntRect<I>) -> bool
    ensures { IsTrue result ↔ IsRectInRange I.whole I.MIN_COORD I.MAX_COORD rect }
{
    rect.min_x.is_in_range()
        && rect.max_x.is_in_range()
        && rect.min_y.is_in_range()
        && rect.max_y.is_in_range()
}

/// The nearest number from the least to the greatest.
fn clamped<I: OverlayInt>(least: I, greatest: I, z: I) -> I
    ensures { I.whole result ≡ clamped (I.whole least) (I.whole greatest) (I.whole z) }
{
    if z < least {
        least
    } else if greatest < z {
        greatest
    } else {
        z
    }
}
