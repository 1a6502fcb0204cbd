// The overlay of one tile: contours in, contours out. This project's own.
ghost use Rattle.std.specs.Prelude.{◌≡◌, IfOk, IfErr, OnOk};
ghost use Rattle.overlay_base.specs.declared.segm.fault.Fault.TheVariants.{Memory};
ghost use Rattle.overlay_contours.specs.ContoursOf.{contours_of};
ghost use Rattle.overlay_contours.specs.ContoursIn.{LieInRange};
ghost use Rattle.overlay_contours.specs.Refusals.{IsShapeOutside};
ghost use Rattle.overlay_tiles.specs.TileOf.{tile_of};
ghost use Rattle.overlay_tiles.specs.TileOverlays.{IsTilePart, IsTileRefusal};
ghost use Rattle.overlay_tiles.specs.Tiles.{in_tile};

use crate::clip::clip_to_tile;
use crate::tile::Tile;
use overlay_base::overlay_core::fill_rule::FillRule;
use overlay_base::overlay_core::overlay_rule::OverlayRule;
use overlay_base::overlay_core::solver::Solver;
use overlay_base::segm::fault::Fault;
use overlay_base::segm::shape_type::ShapeType;
use overlay_contours::contour::{IntContour, find_out_of_range};
use overlay_contours::fault::ContourFault;
use overlay_contours::overlay::overlay_contours;
use overlay_geometry::num::OverlayInt;
use std::alloc::Global;

/// The part of an overlay that belongs to one tile, as contours that have the region of the overlay on their left.
///
/// The contours are clipped to the tile, as by `clip_to_tile`, and overlaid, as by `overlay_contours`. So the parts of several
/// tiles may be made one by one, or at the same time. The result winds once, counterclockwise, around a point of the tile
/// where the overlay rule holds, and not at all around others. That is so at every point that is farther than a whole unit
/// from each given step that runs along no axis: half a unit for the cuts, and half a unit for the crossings. A point
/// belongs to the tile if it lies inside, on the left or on the upper border. Under a table that holds of points outside,
/// the result winds once less everywhere.
///
/// All points of the result lie in the tile, so it winds around no point of another one. Edges may run along the border. No
/// two edges share more than an end.
///
/// Returns `ContourFault::OutOfRange` where a given point is out of the engine's range, and names the first one; else
/// `Fault::CountOutOfRange` only where counts of the clipped contours leave `-i32::MAX..=i32::MAX`, and `Fault::Memory`
/// where a growth is refused.
pub fn overlay_tile<I: OverlayInt>(
    alloc: Global,
    tile: &Tile<I>,
    subject: &[IntContour<I>],
    clip: &[IntContour<I>],
    solver: &Solver,
    fill_rule: FillRule,
    overlay_rule: OverlayRule,
) -> Result<Vec<IntContour<I>>, ContourFault>
    ensures part { IfOk result (λ answer. IsTilePart (tile_of I.whole tile.now) overlay_rule fill_rule
        (contours_of I.whole subject.now) (contours_of I.whole clip.now) (contours_of I.whole answer.items)) }
    ensures in_range { IfOk result (λ answer. LieInRange I.whole I.MIN_COORD I.MAX_COORD answer.items) }
    ensures refused { IfErr result (IsTileRefusal (I.whole I.MIN_COORD) (I.whole I.MAX_COORD)
        (tile_of I.whole tile.now) (contours_of I.whole subject.now) (contours_of I.whole clip.now)) }
    ensures subject_in_range { OnOk result (LieInRange I.whole I.MIN_COORD I.MAX_COORD subject.now) }
    ensures clip_in_range { OnOk result (LieInRange I.whole I.MIN_COORD I.MAX_COORD clip.now) }
{
    test_range(subject, ShapeType::Subject)?;
    test_range(clip, ShapeType::Clip)?;
    let subject_part = clip_shape(alloc, tile, subject)?;
    let clip_part = clip_shape(alloc, tile, clip)?;
    overlay_contours(
        alloc,
        &subject_part,
        &clip_part,
        solver,
        fill_rule,
        overlay_rule,
    )
}

/// The contours that a tile has of those of a shape.
fn clip_shape<I: OverlayInt>(
    alloc: Global,
    tile: &Tile<I>,
    contours: &[IntContour<I>],
) -> Result<Vec<IntContour<I>>, Fault>
    requires { LieInRange I.whole I.MIN_COORD I.MAX_COORD contours.now }
    ensures contours { IfOk result (λ answer. contours_of I.whole answer.items
        ≡ in_tile (tile_of I.whole tile.now) (contours_of I.whole contours.now)) }
    ensures refused { IfErr result (λ fault. fault ≡ Memory) }
{
    Ok(clip_to_tile(alloc, tile, contours)?)
}

/// Returns the first point of a shape's contours that is out of range.
fn test_range<I: OverlayInt>(
    contours: &[IntContour<I>],
    shape_type: ShapeType,
) -> Result<(), ContourFault>
    ensures in_range { OnOk result (LieInRange I.whole I.MIN_COORD I.MAX_COORD contours.now) }
    ensures outside { IfErr result (λ fault. IsShapeOutside (I.whole I.MIN_COORD) (I.whole I.MAX_COORD) shape_type
        (contours_of I.whole contours.now) fault) }
{
    match find_out_of_range(contours) {
        Some((contour, point)) => Err(ContourFault::OutOfRange {
            shape_type,
            contour,
            point,
        }),
        None => Ok(()),
    }
}
