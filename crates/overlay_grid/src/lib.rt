// Finds the marks of a pass over the columns of a grid. Modules are named as in upstream, but for those that
// docs/DIFFERENCES.md lists.
#![tactic(auto)]

pub mod split;
