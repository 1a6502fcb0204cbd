// The foundations of the overlay engine: winding counts, segments that carry them, edge data, rules and settings, and
// the join of a list of segments. Modules are named as in upstream, but for `overlay_core`, which is upstream's `core`,
// and for those that docs/DIFFERENCES.md lists. Coordinates and points come from the crate `overlay_geometry`.
#![tactic(auto)]

pub use overlay_geometry::{geom, num};

pub mod overlay_core;
pub mod segm;
