// What upstream keeps in its module `core`.

pub mod clip_rule;
pub mod edge_data;
pub mod extract;
pub mod fill_rule;
pub mod laws;
pub mod link;
pub mod list_fill;
pub mod overlay_rule;
pub mod rule_table;
pub mod snap_radius;
pub mod solver;
