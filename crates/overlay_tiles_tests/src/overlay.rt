// Overlays of the tile from (0, 0) to (10, 10), worked by hand.
use overlay_base::overlay_core::fill_rule::FillRule;
use overlay_base::overlay_core::overlay_rule::OverlayRule;
use overlay_base::overlay_core::solver::Solver;
use overlay_base::segm::shape_type::ShapeType;
use overlay_contours::contour::IntContour;
use overlay_contours::fault::ContourFault;
use overlay_geometry::geom::point::IntPoint;
use overlay_geometry::geom::rect::IntRect;
use overlay_tiles::overlay::overlay_tile;
use overlay_tiles::tile::Tile;
use std::alloc::{AllocError, Global};
use std::test::Fail;

/// A contour as the tables write it.
type Corners = &'static [(i32, i32)];

/// The rules of the tables.
#[derive(Clone, Copy)]
enum Named {
    Subject,
    Intersect,
    Union,
    Xor,
}

/// A contour of each shape, and the one of their overlay in the tile, or none. It starts at the end of its least edge.
#[derive(Clone, Copy)]
struct Row {
    name: &'static str,
    subject: Corners,
    clip: Corners,
    rule: Named,
    part: Corners,
}

static ROWS: [Row; 9] = [
    Row {
        name: "two squares, what is in both",
        subject: &[(-5, -5), (6, -5), (6, 6), (-5, 6)],
        clip: &[(3, 3), (15, 3), (15, 15), (3, 15)],
        rule: Named::Intersect,
        part: &[(3, 6), (3, 3), (6, 3), (6, 6)],
    },
    Row {
        name: "two squares, what is in one",
        subject: &[(-5, -5), (6, -5), (6, 6), (-5, 6)],
        clip: &[(3, 3), (15, 3), (15, 15), (3, 15)],
        rule: Named::Union,
        part: &[
            (0, 6),
            (0, 0),
            (6, 0),
            (6, 3),
            (10, 3),
            (10, 10),
            (3, 10),
            (3, 6),
        ],
    },
    Row {
        name: "the tile lies in both",
        subject: &[(-5, -5), (15, -5), (15, 15), (-5, 15)],
        clip: &[(-5, -5), (15, -5), (15, 15), (-5, 15)],
        rule: Named::Intersect,
        part: &[(0, 10), (0, 0), (10, 0), (10, 10)],
    },
    Row {
        name: "the tile lies in both, what is in one alone",
        subject: &[(-5, -5), (15, -5), (15, 15), (-5, 15)],
        clip: &[(-5, -5), (15, -5), (15, 15), (-5, 15)],
        rule: Named::Xor,
        part: &[],
    },
    Row {
        name: "the tile misses both",
        subject: &[(20, 0), (30, 0), (30, 10)],
        clip: &[(0, 20), (10, 20), (10, 30)],
        rule: Named::Union,
        part: &[],
    },
    Row {
        name: "edges along the border, inside",
        subject: &[(4, 0), (10, 0), (10, 10), (4, 10)],
        clip: &[],
        rule: Named::Union,
        part: &[(4, 10), (4, 0), (10, 0), (10, 10)],
    },
    Row {
        name: "an edge along the border, outside",
        subject: &[(10, 0), (20, 0), (20, 10), (10, 10)],
        clip: &[],
        rule: Named::Union,
        part: &[],
    },
    Row {
        name: "edges cross at (2.5, 2.5), which is rounded upward",
        subject: &[(0, 0), (5, 0), (5, 5)],
        clip: &[(0, 0), (5, 0), (0, 5)],
        rule: Named::Intersect,
        part: &[(3, 3), (0, 0), (5, 0)],
    },
    Row {
        name: "an edge that is cut at (0, 2.5), which is rounded upward",
        subject: &[(-5, 0), (5, 5), (-5, 5)],
        clip: &[],
        rule: Named::Subject,
        part: &[(0, 5), (0, 3), (5, 5)],
    },
];

/// The contour with the given corners.
fn contour_from(alloc: Global, corners: Corners) -> Result<IntContour<i32>, AllocError> {
    corners
        .iter()
        .map(|(x, y)| IntPoint::new(*x, *y))
        .collect(alloc)
}

/// A list of one contour.
fn contours_from(alloc: Global, corners: Corners) -> Result<Vec<IntContour<i32>>, AllocError> {
    Ok(vec![in alloc; contour_from(alloc, corners)?]?)
}

/// The part of an overlay between two numbers in `x`, and from 0 to 10 in `y`.
fn part(alloc: Global, min_x: i32, max_x: i32, row: &Row) -> Result<Vec<IntContour<i32>>, Fail> {
    let rect = IntRect {
        min_x,
        max_x,
        min_y: 0,
        max_y: 10,
    };
    let tile = Tile::new(rect).ok().ok_or("no tile")?;
    let subject = contours_from(alloc, row.subject)?;
    let clip = contours_from(alloc, row.clip)?;
    let rule = match row.rule {
        Named::Subject => OverlayRule::Subject,
        Named::Intersect => OverlayRule::Intersect,
        Named::Union => OverlayRule::Union,
        Named::Xor => OverlayRule::Xor,
    };
    let found = overlay_tile(
        alloc,
        &tile,
        &subject,
        &clip,
        &Solver::AUTO,
        FillRule::NonZero,
        rule,
    );
    Ok(found.ok().ok_or("refused")?)
}

#[test]
fn parts_of_overlays(rt: HostRuntime) -> Result<(), Fail> {
    for row in &ROWS {
        let found = part(rt.alloc(), 0, 10, row)?;
        if row.part.is_empty() {
            assert!(rt; found.is_empty(), "{}", row.name);
        } else {
            let wanted = contour_from(rt.alloc(), row.part)?;
            assert!(rt; found.len() == 1, "{}", row.name);
            assert!(rt; found[0].as_slice() == wanted.as_slice(), "{}", row.name);
        }
    }
    Ok(())
}

/// A rectangle from (5, 2) to (15, 8) over two tiles: each has its half, and both run along `x = 10`.
#[test]
fn two_tiles_share_a_rectangle(rt: HostRuntime) -> Result<(), Fail> {
    let row = Row {
        name: "",
        subject: &[(5, 2), (15, 2), (15, 8), (5, 8)],
        clip: &[],
        rule: Named::Subject,
        part: &[],
    };
    let left = part(rt.alloc(), 0, 10, &row)?;
    let right = part(rt.alloc(), 10, 20, &row)?;
    let left_half = contour_from(rt.alloc(), &[(5, 8), (5, 2), (10, 2), (10, 8)])?;
    let right_half = contour_from(rt.alloc(), &[(10, 8), (10, 2), (15, 2), (15, 8)])?;
    assert!(rt; left.len() == 1 && right.len() == 1);
    assert!(rt; left[0].as_slice() == left_half.as_slice());
    assert!(rt; right[0].as_slice() == right_half.as_slice());
    Ok(())
}

/// The point is named although it lies beyond the tile.
#[test]
fn a_point_out_of_range(rt: HostRuntime) -> Result<(), Fail> {
    let rect = IntRect {
        min_x: 0,
        max_x: 10,
        min_y: 0,
        max_y: 10,
    };
    let tile = Tile::new(rect).ok().ok_or("no tile")?;
    let subject = contours_from(rt.alloc(), &[(0, 0), (5, 0), (5, 5)])?;
    let clip = contours_from(rt.alloc(), &[(0, 0), (1_073_741_824, 0), (5, 5)])?;
    let found = overlay_tile(
        rt.alloc(),
        &tile,
        &subject,
        &clip,
        &Solver::AUTO,
        FillRule::EvenOdd,
        OverlayRule::Union,
    );
    let fault = ContourFault::OutOfRange {
        shape_type: ShapeType::Clip,
        contour: 0,
        point: 1,
    };
    match found {
        Ok(_) => assert!(rt; false),
        Err(told) => assert!(rt; told == fault),
    }
    Ok(())
}
