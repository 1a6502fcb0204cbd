// Segments, their counts and fills, and their joins. Upstream: `segm`.

pub use overlay_base::segm::{
    arranged, balance, boolean, fault, join, laws, merge, segment_fill, shape_type, sort, string,
    winding,
};

/// A segment with its count and data, and the fills of its two sides.
pub mod segment {
    pub use overlay_base::segm::segment::Segment;
    pub use overlay_base::segm::segment_fill::{
        ALL, BOTH_BOTTOM, BOTH_TOP, CLIP_BOTH, CLIP_BOTTOM, CLIP_TOP, NONE, SUBJ_BOTH, SUBJ_BOTTOM,
        SUBJ_TOP, SegmentFill,
    };
}
