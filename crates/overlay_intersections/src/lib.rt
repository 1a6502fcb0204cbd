// How two segments meet: crossings, where they are placed, and the marks at which segments are to be cut. Modules are
// named as in upstream, but for those that docs/DIFFERENCES.md lists.
#![tactic(auto)]

pub mod split;
