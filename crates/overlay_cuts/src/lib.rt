// What every splitter of a list of segments needs: the finder of pairs that meet, and the cut of segments at given marks.
// Modules are named as in upstream, but for those that docs/DIFFERENCES.md lists.
#![tactic(auto)]

pub mod split;
