// Areas of shapes, and boxes around contours, worked by hand.

use overlay_base::segm::fault::Fault;
use overlay_contours::contour::{IntContour, find_out_of_range};
use overlay_contours::measure::{bounding_box, doubled_area_of_shape};
use overlay_geometry::geom::point::IntPoint;
use overlay_geometry::geom::rect::IntRect;
use std::alloc::Global;
use std::test::Fail;

/// A contour as the tables write it.
pub type Corners = &'static [(i32, i32)];

const WIDE_SQUARE: Corners = &[(0, 0), (8, 0), (8, 8), (0, 8)];

/// A square hole, clockwise.
const HOLE: Corners = &[(2, 2), (2, 6), (6, 6), (6, 2)];

/// Contours as the tables write them.
pub fn contours_from(alloc: Global, lists: &[Corners]) -> Result<Vec<IntContour<i32>>, Fault> {
    let mut contours = Vec::new(alloc);
    for corners in lists {
        let points = corners.iter().map(|(x, y)| IntPoint::new(*x, *y));
        contours.push(points.collect(alloc)?)?;
    }
    Ok(contours)
}

#[test]
fn area_of_a_ring(rt: HostRuntime) -> Result<(), Fail> {
    let ring = contours_from(rt.alloc(), &[WIDE_SQUARE, HOLE])?;
    match find_out_of_range(&ring) {
        Some(_) => assert!(rt; false),
        None => assert!(rt; doubled_area_of_shape(&ring) == 2 * (64 - 16)),
    }
    Ok(())
}

#[test]
fn boxes_around_contours(rt: HostRuntime) -> Result<(), Fail> {
    let scattered = contours_from(rt.alloc(), &[&[], &[(2, 9), (7, 1)], &[(-4, 4)]])?;
    let around = IntRect {
        min_x: -4,
        max_x: 7,
        min_y: 1,
        max_y: 9,
    };
    assert!(rt; bounding_box(&scattered) == Some(around));
    assert!(rt; bounding_box::<i32>(&[]) == None);
    Ok(())
}
