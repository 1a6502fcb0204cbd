// Exact predicates of two shapes: whether their interiors meet, one covers the other, both are the same region, they touch or are disjoint.
#![tactic(auto)]

mod boundary;
mod box_tree;
mod boxes;
mod columns;
pub mod contacts;
pub mod fault;
pub mod matrix;
pub mod pairs;
pub mod predicate;
pub mod predicates;
pub mod region;
