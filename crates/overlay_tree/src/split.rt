// The finders over a list and over a tree.

mod interval_tree;
mod listed_entries;
pub mod solver_list;
pub mod solver_tree;
pub mod solver_tree_within;
