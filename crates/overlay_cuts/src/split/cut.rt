// One segment of a list is cut at its marks. Upstream: `split::solver`, where marks are applied.
ghost use Rattle.std.specs.List.{AllWithin, HoldsAt};
ghost use Rattle.std.specs.Prelude.{◌≡◌, ◌<◌, All, take, drop, IsTrue, ◌≤◌, ◌≢◌, OnOk, IfErr, length};
ghost use Rattle.overlay_base.specs.declared.segm.fault.Fault.TheVariants.{Memory};
ghost use Rattle.overlay_base.specs.Windings.{is_valid};
ghost use Rattle.overlay_base.specs.EdgeData.{IsMadeFrom};
ghost use Rattle.overlay_base.specs.HooksOf.{hooks_of};
ghost use Rattle.overlay_base.specs.SegmentOf.{ends_of, winding_of};
ghost use Rattle.overlay_cuts.specs.steps.PathSteps.{IsPathOf};
ghost use Rattle.overlay_cuts.specs.steps.DataCutAt.{HasDataOfCut, IsCutStore};
ghost use Rattle.overlay_intersections.specs.MarkOf.{points_of};

use crate::split::piece::push_pieces;
use overlay_base::overlay_core::edge_data::{EdgeDataSplit, OverlayEdgeData};
use overlay_base::segm::fault::Fault;
use overlay_base::segm::segment::Segment;
use overlay_base::segm::winding::WindingCount;
use overlay_geometry::geom::point::IntPoint;
use overlay_geometry::geom::x_segment::XSegment;
use overlay_geometry::num::OverlayInt;
use overlay_intersections::split::line_mark::LineMark;

/// Cuts a segment of a list, given with its index, along a path of two steps or more from its first end to its last:
/// the first piece takes its place, the others are appended. Returns `Fault::Memory` where a growth is refused.
pub fn cut_segment<C: WindingCount, I: OverlayInt, D: OverlayEdgeData<C>>(
    list: &mut Vec<Segment<C, I, D>>,
    index: usize,
    path: &[IntPoint<I>],
    store: &mut D::Store,
) -> Result<(), Fault>
    requires index { index < length list.now.items }
    requires steps { 1 < length path.now }
    requires valid { All (λ s. IsTrue (is_valid (winding_of s))) (take 1 (drop index list.now.items)) }
    requires path { All (λ s. IsPathOf (ends_of s) (points_of I.whole path.now)) (take 1 (drop index list.now.items)) }
    ensures segments { OnOk result (HasDataOfCut D.OverlayEdgeData.own index path.now list.old store.old list.new) }
    ensures store { OnOk result (IsCutStore D.OverlayEdgeData.own index path.now list.old store.old store.new) }
    ensures store_made { IsMadeFrom (hooks_of C.counted D.OverlayEdgeData.own) store.old store.new }
    ensures fault { IfErr result (λ fault. fault ≡ Memory) }
{
    let Some((first, later)) = path.split_first() else {
        return Ok(());
    };
    let segment = list[index];
    let XSegment { a, b } = segment.x_segment();
    let at = EdgeDataSplit { a, p: *first, b };
    let (part, rest) = segment.edge_data().split(at, store);
    let count = segment.count();
    list[index] = Segment::create_and_validate_with_data(a, *first, count, part, store);
    push_pieces(list, *first, later, count, rest, store)
}

/// How many marks in front are on the segment with this index.
pub fn index_len<I: OverlayInt>(index: usize, marks: &[LineMark<I>]) -> usize
    ensures within { result ≤ length marks.now }
    ensures own { AllWithin (λ m. m.index ≡ index) marks.now 0 result }
    ensures later { result < length marks.now → HoldsAt (λ m. m.index ≢ index) marks.now result }
{
    for place in 0..marks.len() {
        if marks[place].index != index {
            return place;
        }
    }
    marks.len()
}
