// Tiles: rectangles to which contours are cut and clamped while they are added.
ghost use Rattle.std.specs.Prelude.{◌≡◌, IfOk, OnOk, OnErr};
ghost use Rattle.overlay_tiles.specs.TileOf.{tile_of};
ghost use Rattle.overlay_c.specs.Tiles.{tile_by, MakesTile};

use overlay_geometry::geom::rect::IntRect;
use overlay_tiles::tile::{Tile, TileFault};

/// The borders of a tile: a rectangle with whole corners in range that is wider and higher than 0.
#[repr(C)]
#[derive(Clone, Copy)]
pub struct TileRecord {
    /// The left border, which belongs to the tile.
    pub min_x: i32,
    /// The lower border, which does not.
    pub min_y: i32,
    /// The right border, which does not.
    pub max_x: i32,
    /// The upper border, which belongs to it.
    pub max_y: i32,
}

/// The tile of a record, or what is wrong with its borders.
pub fn tile(record: &TileRecord) -> Result<Tile<i32>, TileFault>
    ensures tile { IfOk result (λ tile. tile_of (λ z. z) tile ≡ tile_by record.now) }
    ensures is { OnOk result (MakesTile record.now) }
    ensures none { OnErr result (MakesTile record.now → ⊥) }
{
    Tile::new(IntRect {
        min_x: record.min_x,
        max_x: record.max_x,
        min_y: record.min_y,
        max_y: record.max_y,
    })
}
