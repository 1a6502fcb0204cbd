// Finds the marks of a pass: over a list of all pairs, or over a tree of the segments' heights. Modules are named as in
// upstream, but for those that docs/DIFFERENCES.md lists.
#![tactic(auto)]

pub mod split;
