// Contours: those that an engine is given, and those of its last result.
ghost use Rattle.std.specs.Prelude.{◌≡◌, OnOk, ◌++◌, map, length, flat_map};
ghost use Rattle.std.specs.List.{list_all};
ghost use Rattle.overlay_geometry.specs.Coordinates.{least_coordinate, greatest_coordinate, is_point_in_range};
ghost use Rattle.overlay_geometry.specs.PointOf.{point_of};
ghost use Rattle.overlay_contours.specs.ContoursOf.{points_of, contours_of};
ghost use Rattle.overlay_contours.specs.Shapes.{all_contours};
ghost use Rattle.overlay_contours.specs.ShapesOf.{shapes_of};
ghost use Rattle.overlay_c.specs.Contours.{point_by, code_of};

use overlay_contours::contour::{IntContour, IntShape};
use overlay_contours::location::PointLocation;
use overlay_geometry::geom::point::IntPoint;
use std::alloc::AllocError;

/// A point.
#[repr(C)]
#[derive(Clone, Copy)]
pub struct PointRecord {
    pub x: i32,
    pub y: i32,
}

/// Loads the points of records.
pub fn load_points(
    records: &[PointRecord],
    points: &mut Vec<IntPoint<i32>>,
) -> Result<(), AllocError>
    ensures { OnOk result (points_of (λ z. z) points.new.items ≡ map point_by records.now) }
{
    points.clear();
    for given in records {
        points.push(point(given))?;
    }
    Ok(())
}

/// Whether all points of a contour are in range.
pub fn are_in_range(points: &[IntPoint<i32>]) -> bool
    ensures { result ≡ list_all (λ p. is_point_in_range least_coordinate greatest_coordinate (point_of (λ z. z) p)) points.now }
{
    points.iter().all(|point| point.is_in_range())
}

/// Keeps contours: how many points each has, and all points.
pub fn keep_contours(
    contours: &[IntContour<i32>],
    lengths: &mut Vec<usize>,
    points: &mut Vec<PointRecord>,
) -> Result<(), AllocError>
    ensures lengths { OnOk result (lengths.new.items ≡ map length (contours_of (λ z. z) contours.now)) }
    ensures points { OnOk result (map point_by points.new.items
        ≡ flat_map (λ contour. contour) (contours_of (λ z. z) contours.now)) }
{
    lengths.clear();
    points.clear();
    push_contours(contours, lengths, points)
}

/// Keeps shapes: how many contours each has, how many points each contour has, and all points.
pub fn keep_shapes(
    shapes: &[IntShape<i32>],
    counts: &mut Vec<usize>,
    lengths: &mut Vec<usize>,
    points: &mut Vec<PointRecord>,
) -> Result<(), AllocError>
    ensures counts { OnOk result (counts.new.items ≡ map length (shapes_of (λ z. z) shapes.now)) }
    ensures lengths { OnOk result (lengths.new.items ≡ map length (all_contours (shapes_of (λ z. z) shapes.now))) }
    ensures points { OnOk result (map point_by points.new.items
        ≡ flat_map (λ contour. contour) (all_contours (shapes_of (λ z. z) shapes.now))) }
{
    counts.clear();
    lengths.clear();
    points.clear();
    for shape in shapes {
        counts.push(shape.len())?;
        push_contours(shape, lengths, points)?;
    }
    Ok(())
}

/// Keeps contours behind others.
fn push_contours(
    contours: &[IntContour<i32>],
    lengths: &mut Vec<usize>,
    points: &mut Vec<PointRecord>,
) -> Result<(), AllocError>
    ensures lengths { OnOk result (lengths.new.items ≡ lengths.old.items ++ map length (contours_of (λ z. z) contours.now)) }
    ensures points { OnOk result (map point_by points.new.items
        ≡ map point_by points.old.items ++ flat_map (λ contour. contour) (contours_of (λ z. z) contours.now)) }
{
    for contour in contours {
        lengths.push(contour.len())?;
        push_points(contour, points)?;
    }
    Ok(())
}

/// Keeps the points of a contour behind others.
fn push_points(contour: &[IntPoint<i32>], points: &mut Vec<PointRecord>) -> Result<(), AllocError>
    ensures { OnOk result (map point_by points.new.items
        ≡ map point_by points.old.items ++ points_of (λ z. z) contour.now) }
{
    for point in contour {
        points.push(told(*point))?;
    }
    Ok(())
}

/// The point of a record.
pub(crate) fn point(given: &PointRecord) -> IntPoint<i32>
    ensures { point_of (λ z. z) result ≡ point_by given.now }
{
    IntPoint {
        x: given.x,
        y: given.y,
    }
}

/// The code of where a point lies: 0 for inside, 1 for on the boundary, 2 for outside.
pub fn location_code(location: PointLocation) -> u8
    ensures { result ≡ code_of location }
{
    match location {
        PointLocation::Inside => 0,
        PointLocation::OnBoundary => 1,
        PointLocation::Outside => 2,
    }
}

/// The record of a point.
fn told(point: IntPoint<i32>) -> PointRecord
    ensures { point_by result ≡ point_of (λ z. z) point }
{
    PointRecord {
        x: point.x,
        y: point.y,
    }
}
