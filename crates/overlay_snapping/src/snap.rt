// Pixels, the segments that meet them, the closure, and the cuts. This project's own.

mod batches;
pub mod cells;
mod closure;
mod collinear;
pub mod cut_finder;
mod inner_box;
pub mod laws;
mod meetings;
mod ordered_points;
pub mod pixel;
pub mod point_finder;
mod point_grid;
pub mod point_tree;
pub mod solver;
