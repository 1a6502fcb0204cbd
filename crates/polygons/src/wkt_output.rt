// The output as WKT: a line `MULTIPOLYGON`, in which each contour ends with its first point again.
ghost use Rattle.std.specs.Prelude.{◌≡◌, ◌++◌, OnOk, codes, flat_map, string_bytes};
ghost use Rattle.overlay_geometry.specs.PointOf.{point_of};
ghost use Rattle.overlay_contours.specs.ContoursOf.{points_of, contours_of};
ghost use Rattle.overlay_contours.specs.ShapesOf.{shapes_of};
ghost use Rattle.polygons.specs.Wkt.{group_text, point_wkt, ring_wkt, polygon_wkt, multipolygon_line};

use overlay_contours::contour::{IntContour, IntShape};
use overlay_geometry::geom::point::IntPoint;
use overlay_geometry::num::OverlayInt;
use std::alloc::AllocError;

/// Writes `MULTIPOLYGON` and the shapes, or `MULTIPOLYGON EMPTY`.
pub fn write_multipolygon<I: OverlayInt>(
    text: &mut String,
    shapes: &[IntShape<I>],
) -> Result<(), AllocError>
    ensures { OnOk result (string_bytes text.new
        ≡ string_bytes text.old ++ multipolygon_line (shapes_of I.whole shapes.now)) }
{
    if shapes.is_empty() {
        return text.push_str("MULTIPOLYGON EMPTY\n");
    }
    text.push_str("MULTIPOLYGON ")?;
    write_polygons(text, shapes)?;
    text.push_str("\n")
}

/// Writes shapes between parentheses.
fn write_polygons<I: OverlayInt>(
    text: &mut String,
    shapes: &[IntShape<I>],
) -> Result<(), AllocError>
    ensures { OnOk result (string_bytes text.new
        ≡ string_bytes text.old ++ group_text polygon_wkt (shapes_of I.whole shapes.now)) }
{
    let Some((first, others)) = shapes.split_first() else {
        return text.push_str("()");
    };
    text.push_str("(")?;
    write_polygon(text, first)?;
    for shape in others {
        text.push_str(", ")?;
        write_polygon(text, shape)?;
    }
    text.push_str(")")
}

/// Writes the contours of a shape between parentheses.
fn write_polygon<I: OverlayInt>(
    text: &mut String,
    contours: &[IntContour<I>],
) -> Result<(), AllocError>
    ensures { OnOk result (string_bytes text.new
        ≡ string_bytes text.old ++ polygon_wkt (contours_of I.whole contours.now)) }
{
    let Some((first, others)) = contours.split_first() else {
        return text.push_str("()");
    };
    text.push_str("(")?;
    write_ring(text, first)?;
    for contour in others {
        text.push_str(", ")?;
        write_ring(text, contour)?;
    }
    text.push_str(")")
}

/// Writes the points of a contour between parentheses, and the first of them again.
fn write_ring<I: OverlayInt>(text: &mut String, points: &[IntPoint<I>]) -> Result<(), AllocError>
    ensures { OnOk result (string_bytes text.new ≡ string_bytes text.old ++ ring_wkt (points_of I.whole points.now)) }
{
    let Some((first, others)) = points.split_first() else {
        return text.push_str("()");
    };
    text.push_str("(")?;
    write_point(text, *first)?;
    write_others(text, others)?;
    text.push_str(", ")?;
    write_point(text, *first)?;
    text.push_str(")")
}

/// Writes `, X Y` for each point.
fn write_others<I: OverlayInt>(text: &mut String, points: &[IntPoint<I>]) -> Result<(), AllocError>
    ensures { OnOk result (string_bytes text.new
        ≡ string_bytes text.old ++ flat_map (λ p. codes ", " ++ point_wkt p) (points_of I.whole points.now)) }
{
    for point in points {
        text.push_str(", ")?;
        write_point(text, *point)?;
    }
    Ok(())
}

/// Writes `X Y`.
fn write_point<I: OverlayInt>(text: &mut String, point: IntPoint<I>) -> Result<(), AllocError>
    ensures { OnOk result (string_bytes text.new ≡ string_bytes text.old ++ point_wkt (point_of I.whole point)) }
{
    let (x, y) = (point.x.to_wide(), point.y.to_wide());
    write!(text, "{x} {y}")
}
