// Which given edges the steps of an overlay name.

use crate::measure::{Corners, contours_from};
use overlay_base::overlay_core::fill_rule::FillRule;
use overlay_base::overlay_core::overlay_rule::OverlayRule;
use overlay_base::overlay_core::solver::Solver;
use overlay_base::segm::shape_type::ShapeType;
use overlay_contours::contour_steps::ContourStep;
use overlay_contours::sources::{
    SourceEdge, overlay_contours_with_sources, overlay_shapes_with_sources,
};
use overlay_geometry::geom::point::IntPoint;
use std::test::Fail;

const FAR_TRIANGLE: Corners = &[(20, 20), (24, 20), (24, 24)];

const SQUARE: Corners = &[(0, 0), (4, 0), (4, 4), (0, 4)];

const SHIFTED_SQUARE: Corners = &[(2, 2), (6, 2), (6, 6), (2, 6)];

/// A step from a point along an edge of a contour of a shape.
fn step(
    point: (i32, i32),
    shape_type: ShapeType,
    contour: usize,
    edge: usize,
) -> ContourStep<i32, SourceEdge> {
    ContourStep {
        point: IntPoint::new(point.0, point.1),
        edge_data: SourceEdge {
            shape_type,
            contour,
            edge,
        },
    }
}

/// What both squares share is bounded by the left and the lower edge of the clip's, and by the right and the upper edge
/// of the subject's, which is the second contour of its shape.
#[test]
fn each_step_names_its_edge(rt: HostRuntime) -> Result<(), Fail> {
    let subject = contours_from(rt.alloc(), &[FAR_TRIANGLE, SQUARE])?;
    let clip = contours_from(rt.alloc(), &[SHIFTED_SQUARE])?;
    let contours = overlay_contours_with_sources(
        rt.alloc(),
        &subject,
        &clip,
        &Solver::AUTO,
        FillRule::NonZero,
        OverlayRule::Intersect,
    )?;
    let wanted = [
        step((2, 4), ShapeType::Clip, 0, 3),
        step((2, 2), ShapeType::Clip, 0, 0),
        step((4, 2), ShapeType::Subject, 1, 1),
        step((4, 4), ShapeType::Subject, 1, 2),
    ];
    assert_eq!(rt; contours.len(), 1);
    for steps in &contours {
        assert_eq!(rt; steps.as_slice(), wanted.as_slice());
    }
    Ok(())
}

/// The part of the subject's square outside of the clip's is one shape. The step from (4, 2) to (2, 2) runs along the
/// lower edge of the clip's square, and that from (2, 2) to (2, 4) along its left one.
#[test]
fn each_step_of_a_shape_names_its_edge(rt: HostRuntime) -> Result<(), Fail> {
    let subject = contours_from(rt.alloc(), &[SQUARE])?;
    let clip = contours_from(rt.alloc(), &[SHIFTED_SQUARE])?;
    let shapes = overlay_shapes_with_sources(
        rt.alloc(),
        &subject,
        &clip,
        &Solver::AUTO,
        FillRule::NonZero,
        OverlayRule::Difference,
    )?;
    let wanted = [
        step((0, 4), ShapeType::Subject, 0, 3),
        step((0, 0), ShapeType::Subject, 0, 0),
        step((4, 0), ShapeType::Subject, 0, 1),
        step((4, 2), ShapeType::Clip, 0, 0),
        step((2, 2), ShapeType::Clip, 0, 3),
        step((2, 4), ShapeType::Subject, 0, 2),
    ];
    assert_eq!(rt; shapes.len(), 1);
    for shape in &shapes {
        assert_eq!(rt; shape.len(), 1);
        for steps in shape {
            assert_eq!(rt; steps.as_slice(), wanted.as_slice());
        }
    }
    Ok(())
}
