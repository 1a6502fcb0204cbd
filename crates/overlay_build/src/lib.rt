// The graphs of an arrangement, over the fills that a sweep finds. Modules are named as in upstream, but
// for those that docs/DIFFERENCES.md lists.
#![tactic(auto)]

pub mod build;
