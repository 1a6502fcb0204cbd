// What upstream has in public and no overlay calls: live segments in a list and in a tree, and filters by rules. It is proved
// and tested as the rest; `i_overlay` has it at upstream's paths.
#![tactic(auto)]

pub mod build;
pub mod geom;
