// What a program that makes overlays names, in one place.

pub use crate::clip::{split_and_build_clip, split_and_build_clip_by};
pub use crate::overlay::{split_and_build_overlay, split_and_build_overlay_by};
pub use crate::splitter::Splitter;
pub use overlay_base::overlay_core::clip_rule::ClipRule;
pub use overlay_base::overlay_core::fill_rule::FillRule;
pub use overlay_base::overlay_core::overlay_rule::OverlayRule;
pub use overlay_base::overlay_core::rule_table::RuleTable;
pub use overlay_base::overlay_core::solver::{Precision, Solver, Strategy};
pub use overlay_base::segm::arranged::{is_arranged, is_splittable};
pub use overlay_base::segm::balance::is_balanced;
pub use overlay_base::segm::boolean::ShapeCountBoolean;
pub use overlay_base::segm::fault::Fault;
pub use overlay_base::segm::segment::Segment;
pub use overlay_base::segm::shape_type::ShapeType;
pub use overlay_base::segm::string::ShapeCountString;
pub use overlay_base::segm::winding::WindingCount;
pub use overlay_build::build::boundary::directed_segments;
pub use overlay_build::build::builder::GraphBuilder;
pub use overlay_build::build::directed_walks::directed_walks;
pub use overlay_build::build::graph::OverlayGraph;
pub use overlay_build::build::graph_node::OverlayNode;
pub use overlay_build::build::string_graph::StringGraph;
pub use overlay_build::build::walks::closed_walks;
pub use overlay_contours::arrangement::Arrangement;
pub use overlay_contours::contour::{IntContour, IntShape};
pub use overlay_contours::contour_steps::{ContourStep, DataContour, DataShape};
pub use overlay_contours::corners::{corners_of_contours, corners_of_shapes};
pub use overlay_contours::fault::ContourFault;
pub use overlay_contours::location::{PointLocation, locate_point};
pub use overlay_contours::measure::{bounding_box, doubled_area, doubled_area_of_shape};
pub use overlay_contours::overlay::{Overlay, overlay_contours, overlay_shapes};
pub use overlay_contours::rounding::Rounding;
pub use overlay_contours::sources::{
    SourceContour, SourceEdge, SourceShape, overlay_contours_with_sources,
    overlay_shapes_with_sources,
};
pub use overlay_geometry::geom::point::IntPoint;
pub use overlay_geometry::geom::rect::IntRect;
pub use overlay_geometry::num::OverlayInt;
pub use overlay_snapping::snap::solver::SnapSolver;
pub use overlay_split::split::fault::SplitFault;
pub use overlay_split::split::solver::SplitSolver;
