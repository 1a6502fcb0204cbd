// Coordinates of both engines, points, segments and turns. Modules are named as in upstream.
#![tactic(auto)]

pub mod geom;
pub mod num;
