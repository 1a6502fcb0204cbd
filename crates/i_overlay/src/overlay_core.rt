// Rules, solvers, edge data, and the parts of a graph. Upstream: `core`.

pub use overlay_base::overlay_core::{
    clip_rule, edge_data, extract, fill_rule, laws, overlay_rule, rule_table, snap_radius, solver,
};

/// The graph of an overlay and its nodes.
pub mod graph {
    pub use overlay_build::build::graph::OverlayGraph;
    pub use overlay_build::build::graph_node::OverlayNode;
}

/// Links of a graph, and which of them a rule keeps.
pub mod link {
    pub use overlay_base::overlay_core::link::OverlayLink;
    pub use overlay_upstream::build::link_filter::filter_by_overlay_into;
}

/// The engines' coordinates.
pub mod integer {
    pub use overlay_geometry::num::OverlayInt;
}

/// The overlay of polygons, which of the two shapes a contour or a segment bounds, where a point lies, areas and boxes.
pub mod overlay {
    pub use overlay_base::segm::shape_type::ShapeType;
    pub use overlay_contours::arrangement::Arrangement;
    pub use overlay_contours::contour::{IntContour, IntShape};
    pub use overlay_contours::contour_steps::{
        ContourStep, DataContour, DataShape, directed_steps_of_graph, shape_steps_of_graph,
    };
    pub use overlay_contours::corners::{corners_of_contours, corners_of_shapes};
    pub use overlay_contours::fault::ContourFault;
    pub use overlay_contours::location::{PointLocation, locate_point};
    pub use overlay_contours::measure::{bounding_box, doubled_area, doubled_area_of_shape};
    pub use overlay_contours::overlay::{Overlay, overlay_contours, overlay_shapes};
    pub use overlay_contours::rounding::Rounding;
    pub use overlay_contours::sources::{
        SourceContour, SourceEdge, SourceSegment, SourceShape, overlay_contours_with_sources,
        overlay_shapes_with_sources, segments_with_sources,
    };
}
