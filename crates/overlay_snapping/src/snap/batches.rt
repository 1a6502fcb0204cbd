// Cuts segments, and joins the pieces of some before those of others are made, so that no more are held than the result has,
// and about as many again. This project's own.
ghost use Rattle.std.specs.Prelude.{◌≡◌, ◌++◌, ◌<◌, ◌^◌, All, IsTrue, IsFalse, IfOk, IfErr, OnOk};
ghost use Rattle.overlay_geometry.specs.Points.{point_cmp, is_end, is_ordered};
ghost use Rattle.overlay_geometry.specs.Sorting.{is_strictly_sorted};
ghost use Rattle.overlay_base.specs.declared.segm.fault.Fault.TheVariants.{Memory};
ghost use Rattle.overlay_base.specs.ArrangedOf.{IsSplittable};
ghost use Rattle.overlay_base.specs.Segments.{is_map};
ghost use Rattle.overlay_base.specs.steps.Early.{magnitudes};
ghost use Rattle.overlay_base.specs.SegmentOf.{ends_of, winding_of, segment_of, segments_of};
ghost use Rattle.overlay_base.specs.Windings.{is_valid};
ghost use Rattle.overlay_intersections.specs.MarkOf.{mark_points_of, AreMarksOf};
ghost use Rattle.overlay_intersections.specs.declared.split.placing.Placing.TheVariants.{Settling};
ghost use Rattle.overlay_cuts.specs.Pass.{pass_by};
ghost use Rattle.overlay_cuts.specs.Path.{pieces};
ghost use Rattle.overlay_snapping.specs.HotOf.{KnowsHot};
ghost use Rattle.overlay_snapping.specs.steps.Batches.{ForCuts};

use crate::snap::cut_finder::{CutFinder, own_len};
use overlay_base::overlay_core::edge_data::OverlayEdgeData;
use overlay_base::segm::fault::Fault;
use overlay_base::segm::join::join_with_store;
use overlay_base::segm::segment::Segment;
use overlay_base::segm::winding::WindingCount;
use overlay_cuts::split::path::collect_path;
use overlay_cuts::split::piece::push_pieces;
use overlay_geometry::geom::point::IntPoint;
use overlay_geometry::geom::x_segment::XSegment;
use overlay_geometry::num::OverlayInt;
use overlay_intersections::split::line_mark::LineMark;

/// Appends the pieces into which cuts divide a segment. `path` is memory that is written over.
///
/// The cuts have to be in strict order of points, and none an end of the segment.
fn push_cut<C: WindingCount, I: OverlayInt, D: OverlayEdgeData<C>>(
    segment: &Segment<C, I, D>,
    cuts: &[LineMark<I>],
    path: &mut Vec<IntPoint<I>>,
    held: &mut Vec<Segment<C, I, D>>,
    store: &mut D::Store,
) -> Result<(), Fault>
    requires valid { IsTrue (is_valid (winding_of segment.now)) }
    requires ordered { IsTrue (is_ordered (ends_of segment.now)) }
    requires rise { IsTrue (is_strictly_sorted point_cmp (mark_points_of I.whole cuts.now)) }
    requires free { All (λ c. IsFalse (is_end (ends_of segment.now) c)) (mark_points_of I.whole cuts.now) }
    requires held { All (λ s. IsTrue (is_valid (winding_of s))) held.old.items }
    ensures pieces { OnOk result (segments_of held.new.items ≡ segments_of held.old.items
        ++ pieces (segment_of segment.now) (mark_points_of I.whole cuts.now)) }
    ensures held { OnOk result (All (λ s. IsTrue (is_valid (winding_of s))) held.new.items) }
    ensures fault { IfErr result (λ fault. fault ≡ Memory) }
{
    let XSegment { a, b } = segment.x_segment();
    collect_path(a, cuts, b, path)?;
    push_pieces(
        held,
        a,
        path.as_slice(),
        segment.count(),
        segment.edge_data(),
        store,
    )
}

/// The joined pieces of segments between their cuts, which are found segment by segment. No more pieces are held at once
/// than twice what a join leaves, or `most` if that is more, and those of one segment.
///
/// The segments have to be an arrangement in range, the marks those of a settling pass over them, and the finder has to know
/// their hot points. All counts together have to be small, as `are_small` tests. `cuts` and `path` are memory that is
/// written over.
///
/// Returns `Fault::Memory` where a growth is refused, and no other fault.
pub(crate) fn joined_pieces<C: WindingCount, I: OverlayInt, D: OverlayEdgeData<C>>(
    segments: &Vec<Segment<C, I, D>>,
    marks: &[LineMark<I>],
    finder: &mut CutFinder<I>,
    cuts: &mut Vec<LineMark<I>>,
    path: &mut Vec<IntPoint<I>>,
    most: usize,
    store: &mut D::Store,
) -> Result<Vec<Segment<C, I, D>>, Fault>
    requires map { IsTrue (is_map (segments_of segments.now.items)) }
    requires splittable { IsSplittable segments.now.items }
    requires marks { AreMarksOf Settling segments.now.items marks.now }
    requires known { KnowsHot (segments_of segments.now.items) finder.old }
    requires small { magnitudes (segments_of segments.now.items) < 2 ^ 31 }
    ensures joined { IfOk result (λ pieces. ForCuts (segments_of segments.now.items)
        (λ on. segments_of pieces.items ≡ pass_by on (segments_of segments.now.items))) }
    ensures fault { IfErr result (λ fault. fault ≡ Memory) }
{
    let mut room = most;
    let mut pieces = Vec::new(*segments.allocator());
    let mut rest = marks;
    for index in 0..segments.len() {
        let (own, later) = rest.split_at(own_len(index, rest));
        rest = later;
        cuts.clear();
        finder.append_cuts(segments, index, own, cuts)?;
        push_cut(&segments[index], cuts.as_slice(), path, &mut pieces, store)?;
        if room <= pieces.len() {
            join_with_store(&mut pieces, store)?;
            room = most.max(pieces.len().saturating_mul(2));
        }
    }
    join_with_store(&mut pieces, store)?;
    Ok(pieces)
}

/// Whether the magnitudes of all counts together are so small that no sum of some leaves the range.
pub(crate) fn are_small<C: WindingCount, I: OverlayInt, D: Copy>(list: &[Segment<C, I, D>]) -> bool
    ensures { IsTrue result → magnitudes (segments_of list.now) < 2 ^ 31 }
{
    let mut sum = 0_u64;
    for segment in list {
        let (subj, clip) = segment.count().numbers();
        sum = sum
            .saturating_add(u64::from(subj.unsigned_abs()))
            .saturating_add(u64::from(clip.unsigned_abs()));
    }
    sum < 2_147_483_648
}
