// The sweep line over an arrangement: it finds what lies on the two sides of each segment.

pub mod boolean;
pub mod entry;
pub mod fill_handler;
pub mod fill_strategy;
pub mod laws;
pub mod live_segments;
pub mod place;
mod row_list;
pub mod scan_row;
pub mod scan_rows;
mod start_point;
pub mod string;
pub mod supports;
pub mod sweep;
pub mod visits;
pub mod way;
