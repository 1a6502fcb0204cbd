// Points and segments of the plane.

pub mod id_point;
pub mod laws;
pub mod line_range;
pub mod point;
pub mod rect;
pub mod triangle;
pub mod v_segment;
pub mod vector;
pub mod x_segment;
