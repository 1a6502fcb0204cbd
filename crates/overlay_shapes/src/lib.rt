// Shapes with holes: the links of a graph in directed walks along the sectors of the region, cut where these come to a
// node again, and gathered into shapes.
#![tactic(auto)]

pub mod classes;
mod fronts;
mod gather;
mod joins;
mod ray;
mod sectors;
pub mod shape_walks;
pub mod simple_walks;
