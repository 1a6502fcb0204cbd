// Contours cut and clamped to the tile from (0, 0) to (10, 10), worked by hand.
use overlay_contours::contour::{IntContour, find_out_of_range};
use overlay_geometry::geom::point::IntPoint;
use overlay_geometry::geom::rect::IntRect;
use overlay_tiles::clip::clip_to_tile;
use overlay_tiles::tile::Tile;
use std::alloc::{AllocError, Global};
use std::test::Fail;

/// A contour as the tables write it.
type Corners = &'static [(i32, i32)];

/// A contour, and what a tile makes of it.
struct Row {
    name: &'static str,
    contour: Corners,
    clipped: Corners,
}

static ROWS: [Row; 7] = [
    Row {
        name: "inside",
        contour: &[(1, 1), (9, 1), (9, 9)],
        clipped: &[(1, 1), (9, 1), (9, 9)],
    },
    Row {
        name: "over the upper left corner",
        contour: &[(-2, 5), (6, 13), (5, 5)],
        clipped: &[(0, 5), (0, 7), (3, 10), (6, 10), (5, 5), (0, 5)],
    },
    Row {
        name: "past the upper left corner",
        contour: &[(-8, 5), (6, 19), (6, 5)],
        clipped: &[(0, 5), (0, 10), (6, 10), (6, 5), (0, 5)],
    },
    Row {
        name: "a cut that is rounded to the corner",
        contour: &[(-3, 9), (7, 12), (7, 9)],
        clipped: &[(0, 9), (0, 10), (7, 10), (7, 9), (0, 9)],
    },
    Row {
        name: "halves upward, both ways",
        contour: &[(-1, 0), (1, 1), (1, 2), (-1, 1)],
        clipped: &[(0, 0), (0, 1), (1, 1), (1, 2), (0, 2), (0, 1)],
    },
    Row {
        name: "halves to the right",
        contour: &[(4, 11), (5, 9), (4, 9)],
        clipped: &[(4, 10), (5, 10), (5, 9), (4, 9), (4, 10)],
    },
    Row {
        name: "around the tile",
        contour: &[(-5, -5), (15, -5), (15, 15), (-5, 15)],
        clipped: &[(0, 0), (10, 0), (10, 10), (0, 10), (0, 0)],
    },
];

/// Contours that lie beside the tile. The first three have points on the line of a border.
static BESIDE: [Corners; 5] = [
    &[(-5, -5), (0, 20), (0, 5)],
    &[(10, 5), (20, 5), (11, 50)],
    &[(-9, -9), (30, 0), (5, 0)],
    &[(3, 11), (6, 17), (-40, 12)],
    &[],
];

/// A contour of code.
fn contour_from(alloc: Global, corners: Corners) -> Result<IntContour<i32>, AllocError> {
    corners
        .iter()
        .map(|(x, y)| IntPoint::new(*x, *y))
        .collect(alloc)
}

/// What a tile with these borders makes of contours in range.
fn clipped(
    alloc: Global,
    rect: IntRect<i32>,
    contours: &[IntContour<i32>],
) -> Result<Option<Vec<IntContour<i32>>>, AllocError> {
    let (Ok(tile), None) = (Tile::new(rect), find_out_of_range(contours)) else {
        return Ok(None);
    };
    let found = clip_to_tile(alloc, &tile, contours)?;
    Ok(Some(found))
}

const SQUARE: IntRect<i32> = IntRect {
    min_x: 0,
    max_x: 10,
    min_y: 0,
    max_y: 10,
};

#[test]
fn contours_in_a_tile(rt: HostRuntime) -> Result<(), Fail> {
    for row in &ROWS {
        let contour = contour_from(rt.alloc(), row.contour)?;
        let contours = vec![in rt.alloc(); contour]?;
        let wanted = contour_from(rt.alloc(), row.clipped)?;
        let found = clipped(rt.alloc(), SQUARE, &contours)?.ok_or("no tile")?;
        assert!(rt; found.len() == 1, "{}", row.name);
        assert!(rt; found[0].as_slice() == wanted.as_slice(), "{}", row.name);
    }
    Ok(())
}

#[test]
fn contours_beside_a_tile(rt: HostRuntime) -> Result<(), Fail> {
    let mut contours = Vec::new(rt.alloc());
    for corners in &BESIDE {
        contours.push(contour_from(rt.alloc(), corners)?)?;
    }
    let found = clipped(rt.alloc(), SQUARE, &contours)?.ok_or("no tile")?;
    assert!(rt; found.is_empty());
    Ok(())
}

/// Both tiles beside a line have the same cut: a step from (0, 0) to (20, 7) crosses `x = 10` at 3.5, which becomes 4.
#[test]
fn tiles_beside_a_line_have_the_same_cut(rt: HostRuntime) -> Result<(), Fail> {
    let right = IntRect {
        min_x: 10,
        max_x: 20,
        min_y: 0,
        max_y: 10,
    };
    let contour = contour_from(rt.alloc(), &[(0, 0), (20, 7), (20, 0)])?;
    let contours = vec![in rt.alloc(); contour]?;
    let cut = IntPoint::new(10, 4);
    for rect in [SQUARE, right] {
        let found = clipped(rt.alloc(), rect, &contours)?.ok_or("no tile")?;
        assert!(rt;
            found
                .iter()
                .any(|points| points.iter().any(|point| *point == cut))
        );
    }
    Ok(())
}
