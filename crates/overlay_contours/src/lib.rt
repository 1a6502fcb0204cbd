// Polygons in, polygons out: contours are made to segments, and the graph of an overlay to contours.
#![tactic(auto)]

pub(crate) mod arranged;
pub mod arrangement;
pub(crate) mod buffers;
pub mod contour;
pub mod contour_steps;
pub mod corners;
pub mod extract;
pub mod fault;
pub mod location;
pub mod measure;
pub mod overlay;
pub mod rounding;
pub mod sources;
