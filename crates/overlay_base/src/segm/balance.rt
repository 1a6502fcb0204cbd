// A test of lists: whether the counts of the segments balance at every point. This project's own.
ghost use Rattle.std.specs.Prelude.{◌≡◌, ◌↔◌, pos, IsTrue, IfOk, IfErr, IsSortedByKey};
ghost use Rattle.overlay_geometry.specs.Points.{Point, point_cmp, point_eq};
ghost use Rattle.overlay_geometry.specs.PointOf.{point_of};
ghost use Rattle.overlay_base.specs.Windings.{empty, inverse, weight};
ghost use Rattle.overlay_base.specs.Segments.{winding_at};
ghost use Rattle.overlay_base.specs.Balance.{IsBalanced};
ghost use Rattle.overlay_base.specs.BalanceTest.{point_pair, end_counts};
ghost use Rattle.overlay_base.specs.SegmentOf.{segments_of, ends_of, winding_of};
ghost use Rattle.overlay_base.specs.EndCountOf.{end_count_of, end_counts_of};
ghost use Rattle.overlay_base.specs.declared.segm.fault.Fault.TheVariants.{Memory};

use crate::segm::fault::Fault;
use crate::segm::segment::Segment;
use crate::segm::winding::WindingCount;
use overlay_geometry::geom::point::IntPoint;
use overlay_geometry::geom::x_segment::XSegment;
use overlay_geometry::num::OverlayInt;
use std::alloc::Global;

/// What a segment adds to the sums at one of its ends.
#[derive(Clone, Copy)]
struct EndCount<I> {
    point: IntPoint<I>,
    subj: i64,
    clip: i64,
}

/// Whether the counts of a list balance: at every point, those of the segments that start there add up to those of the
/// segments that end there, for the subject and for the clip. The steps of closed contours balance. Masks of lines do
/// not count. The list needs no order, and counts and coordinates no range. True of the empty list.
///
/// It sorts the ends, two for each segment. The sums are exact, whatever the counts.
///
/// Returns `Fault::Memory` where a growth is refused.
pub fn is_balanced<C: WindingCount, I: OverlayInt, D: Copy>(
    alloc: Global,
    segments: &[Segment<C, I, D>],
) -> Result<bool, Fault>
    ensures balanced { IfOk result (λ balanced. IsTrue balanced ↔ IsBalanced (segments_of segments.now)) }
    ensures fault { IfErr result (λ fault. fault ≡ Memory) }
{
    let mut ends = end_counts(alloc, segments)?;
    ends.sort_unstable_by_key(|end| end.point);
    Ok(do_ends_cancel(&ends))
}

/// Two for each segment, in the order of the list.
fn end_counts<C: WindingCount, I: OverlayInt, D: Copy>(
    alloc: Global,
    segments: &[Segment<C, I, D>],
) -> Result<Vec<EndCount<I>>, Fault>
    ensures ends { IfOk result (λ ends. end_counts_of I.whole ends.items ≡ end_counts (segments_of segments.now)) }
    ensures fault { IfErr result (λ fault. fault ≡ Memory) }
{
    let mut ends = Vec::new(alloc);
    for segment in segments {
        let (start, end) = counts_at_ends(segment);
        ends.push(start)?;
        ends.push(end)?;
    }
    Ok(ends)
}

/// A segment's count at its first end, and the inverse at its second.
fn counts_at_ends<C: WindingCount, I: OverlayInt, D: Copy>(
    segment: &Segment<C, I, D>,
) -> (EndCount<I>, EndCount<I>)
    ensures first { end_count_of I.whole result.0
        ≡ record { pair = point_pair (ends_of segment.now).a; count = weight (winding_of segment.now) } }
    ensures second { end_count_of I.whole result.1
        ≡ record { pair = point_pair (ends_of segment.now).b; count = inverse (weight (winding_of segment.now)) } }
{
    let XSegment { a, b } = segment.x_segment();
    let (subj, clip) = segment.count().numbers();
    let (subj, clip) = (i64::from(subj), i64::from(clip));
    let start = EndCount {
        point: a,
        subj,
        clip,
    };
    let end = EndCount {
        point: b,
        subj: -subj,
        clip: -clip,
    };
    (start, end)
}

/// Whether the counts at each point add up to nothing. The ends have to be sorted by point.
///
/// A list has fewer than 2^64 ends, and each number is at least -2^63, so the sums fit.
fn do_ends_cancel<I: OverlayInt>(ends: &[EndCount<I>]) -> bool
    requires { IsSortedByKey (λ e. point_of I.whole e.point) point_cmp ends.now }
    ensures { IsTrue result ↔ ((p : Point) → winding_at (end_counts_of I.whole ends.now) (point_pair p) ≡ empty) }
{
    let Some(first) = ends.first() else {
        return true;
    };
    let mut point = first.point;
    let mut subj: i128 = 0;
    let mut clip: i128 = 0;
    for end in ends {
        if !is_at(end, point) {
            if !are_nothing(subj, clip) {
                return false;
            }
            point = end.point;
        }
        subj += end.subj as i128;
        clip += end.clip as i128;
    }
    are_nothing(subj, clip)
}

/// Whether both sums are 0.
fn are_nothing(subj: i128, clip: i128) -> bool
    ensures { IsTrue result ↔ (subj ≡ pos 0) × (clip ≡ pos 0) }
{
    subj == 0 && clip == 0
}

/// Whether an end lies at a point.
fn is_at<I: OverlayInt>(end: &EndCount<I>, point: IntPoint<I>) -> bool
    ensures { result ≡ point_eq (point_of I.whole end.now.point) (point_of I.whole point) }
{
    end.point == point
}
