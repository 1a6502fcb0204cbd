// The split into an arrangement. Upstream: `split`.

pub use crate::splitter;
pub use overlay_base::overlay_core::snap_radius;
pub use overlay_split::split::{cross_solver, fault, fragment, fragment_buffer, laws, solver};

/// The split by snap rounding, in one pass. This project's own.
pub mod snap_solver {
    pub use overlay_snapping::snap::solver::SnapSolver;
}

/// The columns of a grid, and the buffer that keeps fragments by column.
pub mod grid_layout {
    pub use overlay_split::split::fragment_buffer::FragmentBuffer;
    pub use overlay_split::split::grid_layout::GridLayout;
}
