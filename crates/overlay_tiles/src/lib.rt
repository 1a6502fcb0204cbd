// Overlays by tiles: contours cut and clamped to a rectangle of the plane, around whose points they wind as before.
#![tactic(auto)]

pub mod clip;
pub(crate) mod line;
pub mod overlay;
pub mod tile;
pub mod tiled;
