// Points and segments of the plane. Upstream: `geom`.

pub use overlay_base::geom::{
    id_point, laws, line_range, point, rect, triangle, vector, x_segment,
};
pub use overlay_upstream::geom::end;

/// Segments of a sweep, their orders from below, and the lower of two.
pub mod v_segment {
    pub use overlay_base::geom::v_segment::VSegment;
    pub use overlay_upstream::geom::v_segment::update_if_under;
}
