// Winding counts, segments that carry them, and the join of a list of segments.

mod apart;
pub mod arranged;
pub mod balance;
pub mod boolean;
mod early;
pub mod fault;
pub mod join;
pub mod laws;
pub mod merge;
pub mod segment;
pub mod segment_fill;
pub mod shape_type;
pub mod sort;
pub mod string;
pub mod winding;
