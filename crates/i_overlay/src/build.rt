// Sweeps and graphs. Upstream: `build`.

pub use overlay_build::build::{
    boundary, directed_walks, fill_handler, fill_strategy, graph, graph_node, laws, live_segments,
    scan_row, scan_rows, string_graph, util, walks,
};
pub use overlay_upstream::build::{clip_filter, filter, link_filter, scan_list, scan_tree};

/// Which fills an overlay rule keeps.
pub mod boolean {
    pub use overlay_upstream::build::filter::{
        ClipFilter, DifferenceFilter, IntersectFilter, InverseDifferenceFilter, SubjectFilter,
        UnionFilter, XorFilter, is_clip, is_difference, is_intersect, is_inverse_difference,
        is_subject, is_union, is_xor,
    };
}

/// Which fills a clip rule keeps, and the fill strategies, which are those of `sweep`.
pub mod string {
    pub use overlay_build::build::fill_strategy::{
        EvenOddStrategy, NegativeStrategy, NonZeroStrategy, PositiveStrategy,
    };
    pub use overlay_upstream::build::clip_filter::{
        ClipInsideBoundaryExcludedFilter, ClipInsideBoundaryIncludedFilter,
        ClipOutsideBoundaryExcludedFilter, ClipOutsideBoundaryIncludedFilter,
        is_clip_inside_boundary_excluded, is_clip_inside_boundary_included,
        is_clip_outside_boundary_excluded, is_clip_outside_boundary_included,
    };
}

/// Graphs of an arrangement, and what their builder needs.
pub mod builder {
    pub use overlay_build::build::builder::GraphBuilder;
    pub use overlay_build::build::fill_handler::StoreFillsHandler;
    pub use overlay_build::build::graph_node::GraphNode;
    pub use overlay_upstream::build::filter::InclusionFilterStrategy;
}

/// The sweep over an arrangement, its fill strategies and its handler.
pub mod sweep {
    pub use overlay_build::build::fill_handler::FillHandler;
    pub use overlay_build::build::fill_strategy::{
        EvenOddStrategy, FillStrategy, NegativeStrategy, NonZeroStrategy, PositiveStrategy,
    };
    pub use overlay_build::build::sweep::SweepRunner;
}
