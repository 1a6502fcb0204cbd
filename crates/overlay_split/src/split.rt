// The passes that split segments where they meet. How two segments meet, the finders over a list, a tree and a grid, and
// the cut at marks come from crates of their own; their modules are here too, as in upstream.

mod changed;
pub mod fault;
pub mod laws;
mod near;
pub mod pass;
pub mod solver;

pub use overlay_cuts::split::{finder, path, piece};
pub use overlay_grid::split::{
    fragment, fragment_buffer, fragment_memory, grid_layout, solver_fragment,
};
pub use overlay_intersections::split::{cross_solver, line_mark, placing};
pub use overlay_tree::split::{solver_list, solver_tree};
