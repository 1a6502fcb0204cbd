// The output: a line for each contour, in shapes one before those of each, and at the end what a run reports.
ghost use Rattle.std.specs.Prelude.{◌≡◌, ◌++◌, OnOk, length, string_bytes};
ghost use Rattle.overlay_geometry.specs.PointOf.{point_of};
ghost use Rattle.overlay_contours.specs.ContoursOf.{points_of, contours_of, contours_of_each};
ghost use Rattle.overlay_contours.specs.Kept.{passes_of, reach_of};
ghost use Rattle.overlay_text.specs.Output.{pair_text};
ghost use Rattle.polygons.specs.ContourText.{points_text, contour_line, contours_text, rule_line, overlays_text, shape_text, shapes_text, report_text};

use overlay_base::overlay_core::overlay_rule::OverlayRule;
use overlay_contours::contour::{IntContour, IntShape};
use overlay_contours::overlay::Overlay;
use overlay_geometry::geom::point::IntPoint;
use overlay_geometry::num::OverlayInt;
use overlay_text::line_end::{LINE_BUFFER_SIZE, append};
use overlay_text::output::put_point;
use std::alloc::AllocError;

/// Writes `contour X Y X Y ..` for each contour.
pub fn write_contours<I: OverlayInt>(
    text: &mut String,
    contours: &[IntContour<I>],
) -> Result<(), AllocError>
    ensures { OnOk result (string_bytes text.new ≡ string_bytes text.old ++ contours_text I.whole contours.now) }
{
    for contour in contours {
        write_contour(text, contour)?;
    }
    Ok(())
}

/// Writes `rule NAME`, and then the contours of its overlay, for each rule.
pub fn write_overlays<I: OverlayInt>(
    text: &mut String,
    rules: &[OverlayRule],
    overlays: &[Vec<IntContour<I>>],
) -> Result<(), AllocError>
    requires { length overlays.now ≡ length rules.now }
    ensures { OnOk result (string_bytes text.new ≡ string_bytes text.old
        ++ overlays_text rules.now (contours_of_each I.whole overlays.now)) }
{
    for (index, contours) in overlays.iter().enumerate() {
        write_rule(text, rules[index])?;
        write_contours(text, contours)?;
    }
    Ok(())
}

/// Writes `rule NAME`.
fn write_rule(text: &mut String, rule: OverlayRule) -> Result<(), AllocError>
    ensures { OnOk result (string_bytes text.new ≡ string_bytes text.old ++ rule_line rule) }
{
    match rule {
        OverlayRule::Subject => text.push_str("rule subject\n"),
        OverlayRule::Clip => text.push_str("rule clip\n"),
        OverlayRule::Intersect => text.push_str("rule intersect\n"),
        OverlayRule::Union => text.push_str("rule union\n"),
        OverlayRule::Difference => text.push_str("rule difference\n"),
        OverlayRule::InverseDifference => text.push_str("rule inverse-difference\n"),
        OverlayRule::Xor => text.push_str("rule xor\n"),
        OverlayRule::Table(table) => {
            let bits = table.bits();
            writeln!(text, "rule table:{bits}")
        }
    }
}

/// Writes `shape`, and then its contours, for each shape.
pub fn write_shapes<I: OverlayInt>(
    text: &mut String,
    shapes: &[IntShape<I>],
) -> Result<(), AllocError>
    ensures { OnOk result (string_bytes text.new ≡ string_bytes text.old ++ shapes_text I.whole shapes.now) }
{
    for shape in shapes {
        write_shape(text, shape)?;
    }
    Ok(())
}

/// Writes `passes N` and `reach N` of the last overlay, where a report is wanted.
pub fn write_report<I: OverlayInt>(
    text: &mut String,
    has_report: bool,
    overlay: &Overlay<I>,
) -> Result<(), AllocError>
    ensures { OnOk result (string_bytes text.new ≡ string_bytes text.old
        ++ report_text has_report (passes_of overlay.now) (reach_of overlay.now)) }
{
    if has_report {
        let (passes, reach) = (overlay.passes(), overlay.reach());
        writeln!(text, "passes {passes}")?;
        writeln!(text, "reach {reach}")?;
    }
    Ok(())
}

/// Writes `shape`, and then its contours.
#[tactic(auto, unfolding(crate::specs::ContourText::shape_text))]
fn write_shape<I: OverlayInt>(
    text: &mut String,
    contours: &[IntContour<I>],
) -> Result<(), AllocError>
    ensures { OnOk result (string_bytes text.new ≡ string_bytes text.old
        ++ shape_text (contours_of I.whole contours.now)) }
{
    text.push_str("shape\n")?;
    write_contours(text, contours)
}

/// Writes a contour.
#[tactic(auto, unfolding(crate::specs::ContourText::contour_line))]
fn write_contour<I: OverlayInt>(
    text: &mut String,
    contour: &[IntPoint<I>],
) -> Result<(), AllocError>
    ensures { OnOk result (string_bytes text.new ≡ string_bytes text.old
        ++ contour_line (points_of I.whole contour.now)) }
{
    text.push_str("contour")?;
    write_points(text, contour)?;
    text.push_str("\n")
}

/// Writes ` X Y` for each point.
fn write_points<I: OverlayInt>(text: &mut String, points: &[IntPoint<I>]) -> Result<(), AllocError>
    ensures { OnOk result (string_bytes text.new ≡ string_bytes text.old ++ points_text (points_of I.whole points.now)) }
{
    for point in points {
        write_point(text, *point)?;
    }
    Ok(())
}

/// Writes ` X Y`.
fn write_point<I: OverlayInt>(text: &mut String, point: IntPoint<I>) -> Result<(), AllocError>
    ensures { OnOk result (string_bytes text.new ≡ string_bytes text.old
        ++ pair_text (point_of I.whole point).x (point_of I.whole point).y) }
{
    let mut room = [0; LINE_BUFFER_SIZE];
    let begin = put_point(&mut room, LINE_BUFFER_SIZE, point);
    append(text, &room, begin)
}
