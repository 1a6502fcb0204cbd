// Splitting a list of segments into a planar arrangement. Modules are named as in upstream, but
// for those that docs/DIFFERENCES.md lists.
#![tactic(auto)]

pub mod split;
