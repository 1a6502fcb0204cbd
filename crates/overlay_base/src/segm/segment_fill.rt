// The fill of a segment: which of its two sides are inside. Upstream: the constants of `segm::segment`.

/// A sum of the four numbers that say where the two sides of a segment are inside: at the top or at the bottom, the
/// subject or the clip. The top is the side to the left of the way from `a` to `b`.
pub type SegmentFill = u8;

/// Neither side is inside.
pub const NONE: SegmentFill = 0;

/// The subject is inside at the top.
pub const SUBJ_TOP: SegmentFill = 1;

/// The subject is inside at the bottom.
pub const SUBJ_BOTTOM: SegmentFill = 2;

/// The clip is inside at the top.
pub const CLIP_TOP: SegmentFill = 4;

/// The clip is inside at the bottom.
pub const CLIP_BOTTOM: SegmentFill = 8;

/// The subject is inside on both sides.
pub const SUBJ_BOTH: SegmentFill = SUBJ_TOP | SUBJ_BOTTOM;

/// The clip is inside on both sides.
pub const CLIP_BOTH: SegmentFill = CLIP_TOP | CLIP_BOTTOM;

/// Both are inside at the top.
pub const BOTH_TOP: SegmentFill = SUBJ_TOP | CLIP_TOP;

/// Both are inside at the bottom.
pub const BOTH_BOTTOM: SegmentFill = SUBJ_BOTTOM | CLIP_BOTTOM;

/// Both are inside on both sides.
pub const ALL: SegmentFill = SUBJ_BOTH | CLIP_BOTH;

const _: () = prove!(SUBJ_BOTH == 3);

const _: () = prove!(CLIP_BOTH == 12);

const _: () = prove!(BOTH_TOP == 5);

const _: () = prove!(BOTH_BOTTOM == 10);

const _: () = prove!(ALL == 15);
