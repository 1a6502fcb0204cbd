// Overlays by tiles, worked by hand.
use overlay_base::overlay_core::fill_rule::FillRule;
use overlay_base::overlay_core::overlay_rule::OverlayRule;
use overlay_base::overlay_core::solver::Solver;
use overlay_base::segm::shape_type::ShapeType;
use overlay_contours::contour::IntContour;
use overlay_contours::fault::ContourFault;
use overlay_geometry::geom::point::IntPoint;
use overlay_geometry::geom::rect::IntRect;
use overlay_tiles::tile::Tile;
use overlay_tiles::tiled::{TilingFault, find_meeting_tiles, overlay_by_tiles};
use std::alloc::{AllocError, Global};
use std::test::Fail;

/// A contour as the tables write it.
type Corners = &'static [(i32, i32)];

/// The tile between two numbers in `x`, and from 0 to 10 in `y`.
fn tile(min_x: i32, max_x: i32) -> Result<Tile<i32>, Fail> {
    let rect = IntRect {
        min_x,
        max_x,
        min_y: 0,
        max_y: 10,
    };
    Ok(Tile::new(rect).ok().ok_or("no tile")?)
}

/// The contour with the given corners.
fn contour_from(alloc: Global, corners: Corners) -> Result<IntContour<i32>, AllocError> {
    corners
        .iter()
        .map(|(x, y)| IntPoint::new(*x, *y))
        .collect(alloc)
}

/// A list of one contour.
fn contours_from(alloc: Global, corners: Corners) -> Result<Vec<IntContour<i32>>, AllocError> {
    Ok(vec![in alloc; contour_from(alloc, corners)?]?)
}

/// The overlay of two contours by tiles, under a rule.
fn overlay(
    alloc: Global,
    tiles: &[Tile<i32>],
    subject: Corners,
    clip: Corners,
    rule: OverlayRule,
) -> Result<Result<Vec<IntContour<i32>>, TilingFault>, AllocError> {
    let subject = contours_from(alloc, subject)?;
    let clip = contours_from(alloc, clip)?;
    Ok(overlay_by_tiles(
        alloc,
        tiles,
        &subject,
        &clip,
        &Solver::AUTO,
        FillRule::NonZero,
        rule,
    ))
}

/// A rectangle from (5, 2) to (25, 8) over three tiles, less one from (12, 0) to (18, 10): the middle tile has two parts.
#[test]
fn parts_of_three_tiles(rt: HostRuntime) -> Result<(), Fail> {
    let wanted: [Corners; 4] = [
        &[(5, 8), (5, 2), (10, 2), (10, 8)],
        &[(10, 8), (10, 2), (12, 2), (12, 8)],
        &[(18, 8), (18, 2), (20, 2), (20, 8)],
        &[(20, 8), (20, 2), (25, 2), (25, 8)],
    ];
    let tiles = [tile(0, 10)?, tile(10, 20)?, tile(20, 30)?];
    let found = overlay(
        rt.alloc(),
        &tiles,
        &[(5, 2), (25, 2), (25, 8), (5, 8)],
        &[(12, 0), (18, 0), (18, 10), (12, 10)],
        OverlayRule::Difference,
    )?;
    let contours = found.ok().ok_or("refused")?;
    assert!(rt; contours.len() == 4);
    for (index, corners) in wanted.iter().enumerate() {
        let part = contour_from(rt.alloc(), *corners)?;
        let contour = contours.get(index).ok_or("no contour")?;
        assert!(rt; contour.as_slice() == part.as_slice(), "{}", index);
    }
    Ok(())
}

/// What lies in no tile is left out.
#[test]
fn a_tile_between_two_that_are_not_given(rt: HostRuntime) -> Result<(), Fail> {
    let found = overlay(
        rt.alloc(),
        &[tile(10, 20)?],
        &[(5, 2), (25, 2), (25, 8), (5, 8)],
        &[],
        OverlayRule::Union,
    )?;
    let contours = found.ok().ok_or("refused")?;
    let wanted = contour_from(rt.alloc(), &[(10, 8), (10, 2), (20, 2), (20, 8)])?;
    assert!(rt; contours.len() == 1);
    assert!(rt; contours[0].as_slice() == wanted.as_slice());
    let none = overlay(
        rt.alloc(),
        &[],
        &[(5, 2), (25, 2), (25, 8), (5, 8)],
        &[],
        OverlayRule::Union,
    )?;
    assert!(rt; none.ok().ok_or("refused")?.is_empty());
    Ok(())
}

/// The second and the fourth tile share the points from 19 to 20.
#[test]
fn two_tiles_that_meet(rt: HostRuntime) -> Result<(), Fail> {
    let tiles = [tile(0, 10)?, tile(10, 20)?, tile(20, 30)?, tile(19, 20)?];
    assert!(rt; find_meeting_tiles(&tiles) == Some((1, 3)));
    assert!(rt; find_meeting_tiles(&tiles[..3]) == None);
    let found = overlay(
        rt.alloc(),
        &tiles,
        &[(5, 2), (25, 2), (25, 8)],
        &[],
        OverlayRule::Union,
    )?;
    let fault = TilingFault::NotApart {
        first: 1,
        second: 3,
    };
    assert!(rt; found.err() == Some(fault));
    Ok(())
}

/// The point is named although it lies beyond all tiles.
#[test]
fn a_point_out_of_range(rt: HostRuntime) -> Result<(), Fail> {
    let found = overlay(
        rt.alloc(),
        &[tile(0, 10)?, tile(10, 20)?],
        &[(0, 0), (5, 0), (5, 5)],
        &[(0, 0), (1_073_741_824, 0), (5, 5)],
        OverlayRule::Union,
    )?;
    let fault = ContourFault::OutOfRange {
        shape_type: ShapeType::Clip,
        contour: 0,
        point: 1,
    };
    assert!(rt; found.err() == Some(TilingFault::Refused(fault)));
    Ok(())
}
