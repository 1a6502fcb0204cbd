// The graphs of kept segments, from the fills on their two sides. The sweep that finds these fills
// is the crate `overlay_sweep`, whose modules are here too, as in upstream.

pub mod boundary;
pub mod builder;
pub mod connect_links;
pub mod directed_walks;
mod end_parts;
mod fills;
pub mod graph;
pub mod graph_node;
mod kept_links;
pub mod laws;
mod link_ends;
mod listed_nodes;
pub mod numbered_link;
pub mod string_graph;
pub mod util;
pub mod walks;

pub use overlay_sweep::build::{
    boolean, fill_handler, fill_strategy, live_segments, scan_row, scan_rows, string, sweep,
};
