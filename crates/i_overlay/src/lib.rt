// The overlay engine in one crate: what the crates below have, at the paths where upstream has it, but for
// `overlay_core`, which is upstream's `core`; and in one call each the whole overlay, and lines cut by polygons.
#![tactic(auto)]

pub use overlay_base::num;

pub mod build;
pub mod clip;
mod clip_by;
pub mod geom;
pub mod line_numbers;
mod number_lists;
pub mod overlay;
mod overlay_by;
pub mod overlay_core;
pub mod prelude;
pub mod segm;
pub mod split;
pub mod splitter;
pub mod string;
