// Tests of lists: whether a list may be split, and whether it is a planar arrangement. This project's own.
ghost use Rattle.std.specs.Prelude.{◌≡◌, ◌&&◌, int_lt, IsTrue};
ghost use Rattle.std.specs.List.{list_all};
ghost use Rattle.overlay_geometry.specs.Points.{pair_cmp, is_ordered};
ghost use Rattle.overlay_geometry.specs.Sorting.{is_strictly_sorted};
ghost use Rattle.overlay_base.specs.Windings.{is_valid, is_not_empty};
ghost use Rattle.overlay_base.specs.Segments.{pairs};
ghost use Rattle.overlay_geometry.specs.Meeting.{are_apart};
ghost use Rattle.overlay_base.specs.Planar.{is_planar, is_splittable, is_arranged};
ghost use Rattle.overlay_geometry.specs.Coordinates.{is_pair_in_range};
ghost use Rattle.overlay_geometry.specs.InRange.{IsPairInRange};
ghost use Rattle.overlay_geometry.specs.PairOf.{pair_of};
ghost use Rattle.overlay_base.specs.SegmentOf.{segments_of, ends_of, winding_of};

use crate::segm::apart::are_apart;
use crate::segm::segment::Segment;
use crate::segm::winding::WindingCount;
use overlay_geometry::geom::x_segment::XSegment;
use overlay_geometry::num::OverlayInt;

/// Whether a list may be split: every coordinate lies from the engine's `MIN_COORD` to its `MAX_COORD`, and every
/// count is valid and not empty. The list needs no order. True of the empty list.
pub fn is_splittable<C: WindingCount, I: OverlayInt, D: Copy>(segments: &[Segment<C, I, D>]) -> bool
    ensures { result ≡ is_splittable (I.whole I.MIN_COORD) (I.whole I.MAX_COORD) (segments_of segments.now) }
{
    for segment in segments {
        if !is_usable(segment) {
            return false;
        }
    }
    true
}

/// Whether a list is a planar arrangement: it may be split, it is sorted as by `sort_by_ab`, no two segments have one
/// pair of ends, and every two share at most a common end. True of the empty list.
///
/// It compares every pair of segments whose ranges in `x` and in `y` meet, and not neighbors in the list alone.
pub fn is_arranged<C: WindingCount, I: OverlayInt, D: Copy>(segments: &[Segment<C, I, D>]) -> bool
    ensures { result ≡ is_arranged (I.whole I.MIN_COORD) (I.whole I.MAX_COORD) (segments_of segments.now) }
{
    is_splittable(segments) && is_strictly_sorted(segments) && is_planar(segments)
}

/// Whether the ends of a segment are in range, and its count is valid and not empty.
fn is_usable<C: WindingCount, I: OverlayInt, D: Copy>(segment: &Segment<C, I, D>) -> bool
    ensures { result ≡ (is_pair_in_range (I.whole I.MIN_COORD) (I.whole I.MAX_COORD) (ends_of segment.now)
        && is_valid (winding_of segment.now) && is_not_empty (winding_of segment.now)) }
{
    let XSegment { a, b } = segment.x_segment();
    let count = segment.count();
    a.is_in_range() && b.is_in_range() && count.is_valid() && count.is_not_empty()
}

/// Whether each segment comes before the next.
fn is_strictly_sorted<C: WindingCount, I: OverlayInt, D: Copy>(
    segments: &[Segment<C, I, D>],
) -> bool
    ensures { result ≡ is_strictly_sorted pair_cmp (pairs (segments_of segments.now)) }
{
    let Some((first, later)) = segments.split_first() else {
        return true;
    };
    let mut last = first.x_segment();
    for segment in later {
        let next = segment.x_segment();
        if !last.is_before(&next) {
            return false;
        }
        last = next;
    }
    true
}

/// Whether every two segments are apart.
fn is_planar<C: WindingCount, I: OverlayInt, D: Copy>(segments: &[Segment<C, I, D>]) -> bool
    requires splittable { IsTrue (is_splittable (I.whole I.MIN_COORD) (I.whole I.MAX_COORD)
        (segments_of segments.now)) }
    requires sorted { IsTrue (is_strictly_sorted pair_cmp (pairs (segments_of segments.now))) }
    ensures { result ≡ is_planar (segments_of segments.now) }
{
    let mut rest = segments;
    while let Some((first, later)) = rest.split_first() {
        if !is_apart_from_all(&first.x_segment(), later) {
            return false;
        }
        rest = later;
    }
    true
}

/// Whether a segment is apart from each of those that follow it. Segments that begin right of its end are not tested
/// at.
fn is_apart_from_all<C: WindingCount, I: OverlayInt, D: Copy>(
    target: &XSegment<I>,
    later: &[Segment<C, I, D>],
) -> bool
    requires target { IsPairInRange I.whole I.MIN_COORD I.MAX_COORD target.now }
    requires ordered { IsTrue (is_ordered (pair_of I.whole target.now)) }
    requires splittable { IsTrue (is_splittable (I.whole I.MIN_COORD) (I.whole I.MAX_COORD) (segments_of later.now)) }
    requires sorted { IsTrue (is_strictly_sorted pair_cmp (pairs (segments_of later.now))) }
    ensures { result ≡ list_all (λ t. are_apart (pair_of I.whole target.now) t) (pairs (segments_of later.now)) }
{
    let heights = target.y_range();
    for segment in later {
        let other = segment.x_segment();
        if other.begins_past_end(target) {
            return true;
        }
        if !other.is_not_intersect_y_range(&heights) && !are_apart(target, &other) {
            return false;
        }
    }
    true
}
