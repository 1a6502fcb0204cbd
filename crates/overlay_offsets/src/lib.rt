// Convex polygons, and raw outlines of contours with the laws of how they wind: what offsets of polygon sets rest on.
#![tactic(auto)]

pub mod convex;
pub mod outline;
