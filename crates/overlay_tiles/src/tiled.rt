// Overlays by tiles: the parts of all tiles of a list. This project's own.
ghost use Rattle.std.specs.Prelude.{◌≡◌, ◌++◌, IfOk, IfErr, IfSome, IfNone, OnOk, All};
ghost use Rattle.overlay_base.specs.declared.segm.fault.Fault.TheVariants.{Memory};
ghost use Rattle.overlay_contours.specs.ContoursOf.{contours_of};
ghost use Rattle.overlay_contours.specs.ContoursIn.{LieInRange};
ghost use Rattle.overlay_tiles.specs.TileOf.{tile_of};
ghost use Rattle.overlay_tiles.specs.TileOverlays.{IsTilePart};
ghost use Rattle.overlay_tiles.specs.TiledOverlays.{tiles_of, is_apart, AreApartInPairs, Meet, MeetsAt};
ghost use Rattle.overlay_tiles.specs.TiledOverlays.{AreParts, IsTiledOverlay, IsSomeRefusal, IsTilingRefusal};
ghost use Rattle.overlay_tiles.specs.Tiles.{AreApart};

use crate::clip::is_up_to;
use crate::overlay::overlay_tile;
use crate::tile::Tile;
use overlay_base::overlay_core::fill_rule::FillRule;
use overlay_base::overlay_core::overlay_rule::OverlayRule;
use overlay_base::overlay_core::solver::Solver;
use overlay_base::segm::fault::Fault;
use overlay_contours::contour::IntContour;
use overlay_contours::fault::ContourFault;
use overlay_geometry::num::OverlayInt;
use std::alloc::Global;
use thiserror::Error;

/// Why an overlay by tiles was refused.
#[derive(Clone, Copy, Debug, PartialEq, Eq, Error)]
pub enum TilingFault {
    /// Two tiles share more than points of their borders.
    #[error("tiles {first} and {second} are not apart")]
    NotApart {
        /// The index of one of them.
        first: usize,
        /// The index of the other, which is greater.
        second: usize,
    },
    /// The overlay of a tile was refused.
    #[error("{0}")]
    Refused(ContourFault),
}

impl From<ContourFault> for TilingFault {
    ghost use Rattle.overlay_tiles.specs.declared.tiled.TilingFault.TheVariants.{Refused};

    ghost from_gives = { λ fault refused. refused ≡ Refused fault };

    fn from(fault: ContourFault) -> TilingFault {
        TilingFault::Refused(fault)
    }
}

/// An overlay by tiles: the parts that belong to the tiles, one part after another, as by `overlay_tile`.
///
/// Each two tiles have to be apart by a line along an axis, as those of a grid are. The result winds once, counterclockwise,
/// around a point of a tile where the overlay rule holds, and not at all around others. That is so at every point that
/// belongs to one of the tiles and is farther than a whole unit from each given step that runs along no axis. It winds
/// around no point that belongs to no tile. Under a table that holds of points outside, the result winds once less around
/// points of the tiles.
///
/// Parts are not joined: where a region lies on both sides of a line between tiles, two edges run along that line, one for
/// each tile. Edges of one part share no more than an end.
///
/// Returns `TilingFault::NotApart` with two tiles that are not apart, where there are two; else `TilingFault::Refused` with
/// what the overlay of a tile returned, or with `Fault::Memory` where the growth of the list is refused.
pub fn overlay_by_tiles<I: OverlayInt>(
    alloc: Global,
    tiles: &[Tile<I>],
    subject: &[IntContour<I>],
    clip: &[IntContour<I>],
    solver: &Solver,
    fill_rule: FillRule,
    overlay_rule: OverlayRule,
) -> Result<Vec<IntContour<I>>, TilingFault>
    ensures overlay { IfOk result (λ answer. IsTiledOverlay (tiles_of I.whole tiles.now) overlay_rule fill_rule
        (contours_of I.whole subject.now) (contours_of I.whole clip.now) (contours_of I.whole answer.items)) }
    ensures apart { OnOk result (AreApartInPairs (tiles_of I.whole tiles.now)) }
    ensures in_range { IfOk result (λ answer. LieInRange I.whole I.MIN_COORD I.MAX_COORD answer.items) }
    ensures refused { IfErr result (IsTilingRefusal (I.whole I.MIN_COORD) (I.whole I.MAX_COORD)
        (tiles_of I.whole tiles.now) (contours_of I.whole subject.now) (contours_of I.whole clip.now)) }
{
    if let Some((first, second)) = find_meeting_tiles(tiles) {
        return Err(TilingFault::NotApart { first, second });
    }
    Ok(parts_of_tiles(alloc, tiles, subject, clip, solver, fill_rule, overlay_rule)?)
}

/// The indexes of two tiles that are not apart, the lesser index first. `None` where each two tiles are apart by a line along
/// an axis: then a point belongs to at most one of them. Compares each two, so the time grows as the square of their number.
pub fn find_meeting_tiles<I: OverlayInt>(tiles: &[Tile<I>]) -> Option<(usize, usize)>
    ensures some { IfSome result (λ found. Meet (tiles_of I.whole tiles.now) found.0 found.1) }
    ensures none { IfNone result (AreApartInPairs (tiles_of I.whole tiles.now)) }
{
    for (index, tile) in tiles.iter().enumerate() {
        if let Some(other) = find_meeting(tile, &tiles[index + 1..]) {
            return Some((index, index + 1 + other));
        }
    }
    None
}

/// The index of the first tile that is not apart from a given one.
fn find_meeting<I: OverlayInt>(tile: &Tile<I>, others: &[Tile<I>]) -> Option<usize>
    ensures some { IfSome result (λ index. MeetsAt (tile_of I.whole tile.now) (tiles_of I.whole others.now) index) }
    ensures none { IfNone result (All (AreApart (tile_of I.whole tile.now)) (tiles_of I.whole others.now)) }
{
    for (index, other) in others.iter().enumerate() {
        if !are_apart(tile, other) {
            return Some(index);
        }
    }
    None
}

/// Whether two tiles are apart by a line along an axis.
fn are_apart<I: OverlayInt>(tile: &Tile<I>, other: &Tile<I>) -> bool
    ensures { result ≡ is_apart (tile_of I.whole tile.now) (tile_of I.whole other.now) }
{
    let (a, b) = (tile.rect(), other.rect());
    let left = is_up_to(b.max_x, a.min_x);
    let right = is_up_to(a.max_x, b.min_x);
    let below = is_up_to(b.max_y, a.min_y);
    let above = is_up_to(a.max_y, b.min_y);
    left | right | below | above
}

/// The parts that belong to tiles, one after another.
fn parts_of_tiles<I: OverlayInt>(
    alloc: Global,
    tiles: &[Tile<I>],
    subject: &[IntContour<I>],
    clip: &[IntContour<I>],
    solver: &Solver,
    fill_rule: FillRule,
    overlay_rule: OverlayRule,
) -> Result<Vec<IntContour<I>>, ContourFault>
    ensures parts { IfOk result (λ answer. AreParts
        (λ tile part. IsTilePart tile overlay_rule fill_rule (contours_of I.whole subject.now) (contours_of I.whole clip.now) part)
        (tiles_of I.whole tiles.now) (contours_of I.whole answer.items)) }
    ensures in_range { IfOk result (λ answer. LieInRange I.whole I.MIN_COORD I.MAX_COORD answer.items) }
    ensures refused { IfErr result (IsSomeRefusal (I.whole I.MIN_COORD) (I.whole I.MAX_COORD)
        (tiles_of I.whole tiles.now) (contours_of I.whole subject.now) (contours_of I.whole clip.now)) }
{
    let mut answer = Vec::new(alloc);
    for tile in tiles {
        let mut part = overlay_tile(alloc, tile, subject, clip, solver, fill_rule, overlay_rule)?;
        append(&mut answer, &mut part)?;
    }
    Ok(answer)
}

/// Appends contours to others. Returns `Fault::Memory` where the growth is refused.
fn append<I: OverlayInt>(
    contours: &mut Vec<IntContour<I>>,
    more: &mut Vec<IntContour<I>>,
) -> Result<(), Fault>
    ensures appended { OnOk result (contours.new.items ≡ contours.old.items ++ more.old.items) }
    ensures refused { IfErr result (λ fault. fault ≡ Memory) }
{
    Ok(contours.append(more)?)
}
