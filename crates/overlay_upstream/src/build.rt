// Collections of live segments beside those of a sweep, and which fills and links a rule keeps.

pub mod clip_filter;
pub mod filter;
pub mod link_filter;
pub mod scan_list;
pub mod scan_tree;
mod tree_shape;
