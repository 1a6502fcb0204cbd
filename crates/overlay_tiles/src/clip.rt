// Contours cut and clamped to a tile. This project's own.
ghost use Rattle.std.specs.Prelude.{◌≡◌, ◌++◌, ◌∷◌, [], ◌&&◌, IsTrue, ◌+◌, int_le, IfOk, IfSome, OnOk, map, drop};
ghost use Rattle.std.specs.List.{list_all};
ghost use Rattle.overlay_geometry.specs.InRange.{IsPointInRange, IsPairInRange};
ghost use Rattle.overlay_geometry.specs.PairOf.{pair_of};
ghost use Rattle.overlay_geometry.specs.PointOf.{point_of};
ghost use Rattle.overlay_geometry.specs.Points.{is_in_box};
ghost use Rattle.overlay_contours.specs.ContoursOf.{points_of, contours_of};
ghost use Rattle.overlay_contours.specs.ContoursIn.{LieInRange, LiesInRange};
ghost use Rattle.overlay_tiles.specs.Laws.{WindAlikeInTile, LieInTile, LieNearGiven};
ghost use Rattle.overlay_tiles.specs.Tiles.{clamp, borders, step_points, clipped, is_beside, thinned, in_tile};
ghost use Rattle.overlay_tiles.specs.TileOf.{tile_of, part_of};
ghost use Rattle.overlay_tiles.specs.steps.Parted.{parted};

use crate::tile::Tile;
use overlay_contours::contour::IntContour;
use overlay_geometry::geom::point::IntPoint;
use overlay_geometry::geom::x_segment::XSegment;
use overlay_geometry::num::OverlayInt;
use std::alloc::{AllocError, Global};

/// Contours, cut and clamped to a tile: they wind around the points of the tile as the given ones.
///
/// A step is cut where it crosses the line of a border, at the whole point of the line that is nearest to the crossing,
/// halves to the right or upward. A cut depends on the step and the line alone, so both tiles beside a line have the same.
/// Each point is then moved to the nearest point of the tile. Of points in a row on one border those in the middle are left
/// out, and so are contours all of whose points lie on one side of the tile.
///
/// All points have to be in range, as `find_out_of_range` tests. The contours wind as before around each point that
/// belongs to the tile and is farther than half a unit from every given step that runs along no axis. Their points lie in
/// the tile; steps may run along its border, some of them back and forth. Each step that runs along no axis lies within
/// half a unit of such a given one.
///
/// Returns `AllocError` where a growth is refused.
pub fn clip_to_tile<I: OverlayInt>(
    alloc: Global,
    tile: &Tile<I>,
    contours: &[IntContour<I>],
) -> Result<Vec<IntContour<I>>, AllocError>
    requires { LieInRange I.whole I.MIN_COORD I.MAX_COORD contours.now }
    ensures contours { IfOk result (λ answer. contours_of I.whole answer.items
        ≡ in_tile (tile_of I.whole tile.now) (contours_of I.whole contours.now)) }
    ensures winds { IfOk result (λ answer. WindAlikeInTile (tile_of I.whole tile.now)
        (contours_of I.whole contours.now) (contours_of I.whole answer.items)) }
    ensures inside { IfOk result (λ answer. LieInTile (tile_of I.whole tile.now) (contours_of I.whole answer.items)) }
    ensures near { IfOk result (λ answer. LieNearGiven (contours_of I.whole contours.now)
        (contours_of I.whole answer.items)) }
    ensures in_range { IfOk result (λ answer. LieInRange I.whole I.MIN_COORD I.MAX_COORD answer.items) }
{
    let mut answer = Vec::new(alloc);
    for contour in contours {
        if let Some(points) = contour_in_tile(alloc, tile, contour)? {
            answer.push(points)?;
        }
    }
    Ok(answer)
}

/// What a tile needs of one contour: the contour that `clip_to_tile` makes of it, or `None` where it lies beside the tile.
///
/// All its points have to be in range. So what a tile needs of several contours may be gathered one by one, and those that
/// are given need not be kept. Returns `AllocError` where a growth is refused.
pub fn contour_in_tile<I: OverlayInt>(
    alloc: Global,
    tile: &Tile<I>,
    contour: &[IntPoint<I>],
) -> Result<Option<IntContour<I>>, AllocError>
    requires { LiesInRange I.whole I.MIN_COORD I.MAX_COORD contour.now }
    ensures contour { IfOk result (λ answer. part_of I.whole answer
        ≡ in_tile (tile_of I.whole tile.now) (points_of I.whole contour.now ∷ [])) }
    ensures in_range { IfOk result (λ answer. IfSome answer (λ points.
        LiesInRange I.whole I.MIN_COORD I.MAX_COORD points.items)) }
{
    if is_beside(tile, contour) {
        return Ok(None);
    }
    let mut cut = Vec::new(alloc);
    clip_contour(tile, contour, &mut cut)?;
    let points = thinned(alloc, tile, &cut)?;
    Ok(Some(points))
}

/// Makes a list that of the points of a contour, cut and clamped to a tile as by `clip_to_tile`, whatever it was.
///
/// The points have to be in range. Returns `AllocError` where a growth is refused, and then nothing is promised of the
/// list.
pub fn clip_contour<I: OverlayInt>(
    tile: &Tile<I>,
    contour: &[IntPoint<I>],
    out: &mut IntContour<I>,
) -> Result<(), AllocError>
    requires { LiesInRange I.whole I.MIN_COORD I.MAX_COORD contour.now }
    ensures { OnOk result (points_of I.whole out.new.items
        ≡ clipped (tile_of I.whole tile.now) (points_of I.whole contour.now)) }
{
    out.clear();
    let Some((first, later)) = contour.split_first() else {
        return Ok(());
    };
    let mut from = *first;
    for to in later {
        push_step(tile, from, *to, out)?;
        from = *to;
    }
    push_step(tile, from, *first, out)
}

/// A contour without the points that lie beside the tile together with the point kept before them and the next one.
fn thinned<I: OverlayInt>(
    alloc: Global,
    tile: &Tile<I>,
    contour: &[IntPoint<I>],
) -> Result<IntContour<I>, AllocError>
    ensures { IfOk result (λ points. points_of I.whole points.items
        ≡ thinned (tile_of I.whole tile.now) (points_of I.whole contour.now)) }
{
    let mut points = Vec::new(alloc);
    let Some((first, later)) = contour.split_first() else {
        return Ok(points);
    };
    points.push(*first)?;
    let Some((second, others)) = later.split_first() else {
        return Ok(points);
    };
    let mut kept = *first;
    let mut at = *second;
    for next in others {
        if !are_beside(tile, kept, at, *next) {
            points.push(at)?;
            kept = at;
        }
        at = *next;
    }
    points.push(at)?;
    Ok(points)
}

/// Appends the points of a step, cut and clamped to a tile, without its last one.
fn push_step<I: OverlayInt>(
    tile: &Tile<I>,
    from: IntPoint<I>,
    to: IntPoint<I>,
    out: &mut IntContour<I>,
) -> Result<(), AllocError>
    requires from { IsPointInRange I.whole I.MIN_COORD I.MAX_COORD from }
    requires to { IsPointInRange I.whole I.MIN_COORD I.MAX_COORD to }
    ensures { OnOk result (points_of I.whole out.new.items ≡ points_of I.whole out.old.items
        ++ step_points (tile_of I.whole tile.now) (record { a = point_of I.whole from; b = point_of I.whole to })) }
{
    let step = XSegment { a: from, b: to };
    push_parts(tile, 0, &step, from, to, out)
}

/// Appends the points of a part of a step, cut at the borders from an index on and clamped to the tile, without the part's
/// last one.
fn push_parts<I: OverlayInt>(
    tile: &Tile<I>,
    index: usize,
    step: &XSegment<I>,
    u: IntPoint<I>,
    v: IntPoint<I>,
    out: &mut IntContour<I>,
) -> Result<(), AllocError>
    requires in_range { IsPairInRange I.whole I.MIN_COORD I.MAX_COORD step.now }
    requires u { IsTrue (is_in_box (pair_of I.whole step.now) (point_of I.whole u)) }
    requires v { IsTrue (is_in_box (pair_of I.whole step.now) (point_of I.whole v)) }
    ensures { OnOk result (points_of I.whole out.new.items ≡ points_of I.whole out.old.items
        ++ map (clamp (tile_of I.whole tile.now)) (parted (pair_of I.whole step.now)
        (drop index (borders (tile_of I.whole tile.now))) (point_of I.whole u) (point_of I.whole v))) }
{
    let Some(line) = tile.border(index) else {
        out.push(tile.clamp(u))?;
        return Ok(());
    };
    if !line.parts(u, v) {
        return push_parts(tile, index + 1, step, u, v, out);
    }
    let cut = line.cut(step);
    push_parts(tile, index + 1, step, u, cut, out)?;
    push_parts(tile, index + 1, step, cut, v, out)
}

/// Whether all points of a contour lie on one side of the tile, the line of that border included.
fn is_beside<I: OverlayInt>(tile: &Tile<I>, contour: &[IntPoint<I>]) -> bool
    ensures { result ≡ is_beside (tile_of I.whole tile.now) (points_of I.whole contour.now) }
{
    let rect = tile.rect();
    let all_left = lies_left_of(contour, rect.min_x);
    let all_right = lies_right_of(contour, rect.max_x);
    let all_below = lies_below(contour, rect.min_y);
    let all_above = lies_above(contour, rect.max_y);
    all_left | all_right | all_below | all_above
}

/// Whether three points lie on one side of the tile, the line of that border included.
fn are_beside<I: OverlayInt>(tile: &Tile<I>, u: IntPoint<I>, v: IntPoint<I>, w: IntPoint<I>) -> bool
    ensures { result ≡ is_beside (tile_of I.whole tile.now)
        (point_of I.whole u ∷ point_of I.whole v ∷ point_of I.whole w ∷ []) }
{
    let rect = tile.rect();
    let left = are_up_to(u.x, v.x, w.x, rect.min_x);
    let right = are_from(u.x, v.x, w.x, rect.max_x);
    let below = are_up_to(u.y, v.y, w.y, rect.min_y);
    let above = are_from(u.y, v.y, w.y, rect.max_y);
    left | right | below | above
}

/// Whether three numbers are at most a fourth.
fn are_up_to<I: OverlayInt>(u: I, v: I, w: I, z: I) -> bool
    ensures { result ≡ (int_le (I.whole u) (I.whole z) && int_le (I.whole v) (I.whole z)
        && int_le (I.whole w) (I.whole z)) }
{
    is_up_to(u, z) && is_up_to(v, z) && is_up_to(w, z)
}

/// Whether three numbers are at least a fourth.
fn are_from<I: OverlayInt>(u: I, v: I, w: I, z: I) -> bool
    ensures { result ≡ (int_le (I.whole z) (I.whole u) && int_le (I.whole z) (I.whole v)
        && int_le (I.whole z) (I.whole w)) }
{
    is_up_to(z, u) && is_up_to(z, v) && is_up_to(z, w)
}

/// Whether no point lies to the right of `x`.
fn lies_left_of<I: OverlayInt>(contour: &[IntPoint<I>], x: I) -> bool
    ensures { result ≡ list_all (λ q. int_le (I.whole q.x) (I.whole x)) contour.now }
{
    contour.iter().all(|point| is_up_to(point.x, x))
}

/// Whether no point lies to the left of `x`.
fn lies_right_of<I: OverlayInt>(contour: &[IntPoint<I>], x: I) -> bool
    ensures { result ≡ list_all (λ q. int_le (I.whole x) (I.whole q.x)) contour.now }
{
    contour.iter().all(|point| is_up_to(x, point.x))
}

/// Whether no point lies above `y`.
fn lies_below<I: OverlayInt>(contour: &[IntPoint<I>], y: I) -> bool
    ensures { result ≡ list_all (λ q. int_le (I.whole q.y) (I.whole y)) contour.now }
{
    contour.iter().all(|point| is_up_to(point.y, y))
}

/// Whether no point lies below `y`.
fn lies_above<I: OverlayInt>(contour: &[IntPoint<I>], y: I) -> bool
    ensures { result ≡ list_all (λ q. int_le (I.whole y) (I.whole q.y)) contour.now }
{
    contour.iter().all(|point| is_up_to(y, point.y))
}

/// Whether one number is at most another.
pub(crate) fn is_up_to<I: OverlayInt>(u: I, v: I) -> bool
    ensures { result ≡ int_le (I.whole u) (I.whole v) }
{
    u <= v
}
