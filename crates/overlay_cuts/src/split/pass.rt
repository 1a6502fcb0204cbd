// Every segment is cut at given marks, and the pieces are joined. Upstream: `split::solver_list` and `split::solver`, where
// marks are applied.
ghost use Rattle.std.specs.Prelude.{◌≡◌, [], IsTrue, IfErr, OnOk, OnErr};
ghost use Rattle.overlay_base.specs.declared.segm.fault.Fault.TheVariants.{Memory};
ghost use Rattle.overlay_base.specs.Segments.{is_map};
ghost use Rattle.overlay_base.specs.ArrangedOf.{IsSplittable};
ghost use Rattle.overlay_base.specs.EdgeData.{IsMadeFrom};
ghost use Rattle.overlay_base.specs.HooksOf.{hooks_of};
ghost use Rattle.overlay_base.specs.SegmentOf.{segments_of};
ghost use Rattle.overlay_cuts.specs.CutOf.{AreCutMarksOf, HasDataOfCutAt, IsCutStoreAt, IsPassAt, HasDataOfPassAt, IsPassStoreAt, PiecesFitAt, PiecesLeaveRangeAt, StopsPassAt};
ghost use Rattle.overlay_base.specs.FaultOf.{OnTooLarge};

use crate::split::cut::{cut_segment, index_len};
use crate::split::parts::part_places;
use crate::split::path::collect_path;
use overlay_base::overlay_core::edge_data::OverlayEdgeData;
use overlay_base::segm::fault::Fault;
use overlay_base::segm::join::join_in_parts_with_store;
use overlay_base::segm::segment::Segment;
use overlay_base::segm::winding::WindingCount;
use overlay_geometry::geom::point::IntPoint;
use overlay_geometry::geom::x_segment::XSegment;
use overlay_geometry::num::OverlayInt;
use overlay_intersections::split::line_mark::LineMark;

/// Cuts every segment at the given marks, and joins the pieces.
///
/// The marks have to be ordered by index, each at the index of a segment; those of each segment in
/// strict order of points, and none at an end of it. The list has to be sorted, without two
/// segments on one pair of ends, in range, with counts that are valid and not empty. The marks need
/// not be in range. They are let go before the pieces are sorted, which takes as much memory as the
/// pieces. `path` is memory that is written over.
///
/// Returns `Fault::CountOutOfRange` only where a running sum of the counts of pieces on one pair leaves
/// `-i32::MAX..=i32::MAX`, and, memory being found, wherever one does; the store is then what the hooks called before
/// that sum left. Returns `Fault::Memory` where a growth is refused; the store is then what the hooks called so far
/// left. Where a call is refused the list is empty.
pub fn pass_at<C: WindingCount, I: OverlayInt, D: OverlayEdgeData<C>>(
    list: &mut Vec<Segment<C, I, D>>,
    marks: Vec<LineMark<I>>,
    path: &mut Vec<IntPoint<I>>,
    store: &mut D::Store,
) -> Result<(), Fault>
    requires map { IsTrue (is_map (segments_of list.old.items)) }
    requires splittable { IsSplittable list.old.items }
    requires marks { AreCutMarksOf list.old.items marks.items }
    ensures geometry { OnOk result (IsPassAt marks.items list.old list.new) }
    ensures edge_data { OnOk result (HasDataOfPassAt D.OverlayEdgeData.own marks.items list.old store.old list.new) }
    ensures store { OnOk result (IsPassStoreAt D.OverlayEdgeData.own marks.items list.old store.old store.new) }

    ensures fits { OnOk result (PiecesFitAt marks.items list.old.items) }
    ensures refused { OnTooLarge result (PiecesLeaveRangeAt marks.items list.old.items) }
    ensures emptied { OnErr result (list.new.items ≡ []) }
    ensures stopped { OnTooLarge result (StopsPassAt D.OverlayEdgeData.own marks.items list.old store.old store.new) }
    ensures store_made { IsMadeFrom (hooks_of C.counted D.OverlayEdgeData.own) store.old store.new }
{
    // a list without marks is as it was, sorted and joined
    if marks.is_empty() {
        return Ok(());
    }
    let count = list.len();
    if let Err(fault) = cut_at(list, marks.as_slice(), path, store) {
        list.clear();
        return Err(fault);
    }
    let alloc = *list.allocator();
    let Ok(places) = part_places(alloc, list.as_slice(), count, marks.as_slice()) else {
        list.clear();
        return Err(Fault::Memory);
    };
    drop(marks);
    join_in_parts_with_store(list, places.as_slice(), store)?;
    Ok(())
}

/// Cuts every segment at its own marks, by rising index.
fn cut_at<C: WindingCount, I: OverlayInt, D: OverlayEdgeData<C>>(
    list: &mut Vec<Segment<C, I, D>>,
    marks: &[LineMark<I>],
    path: &mut Vec<IntPoint<I>>,
    store: &mut D::Store,
) -> Result<(), Fault>
    requires splittable { IsSplittable list.old.items }
    requires marks { AreCutMarksOf list.old.items marks.now }
    ensures edge_data { OnOk result (HasDataOfCutAt D.OverlayEdgeData.own marks.now list.old store.old list.new) }
    ensures store { OnOk result (IsCutStoreAt D.OverlayEdgeData.own marks.now list.old store.old store.new) }
    ensures store_made { IsMadeFrom (hooks_of C.counted D.OverlayEdgeData.own) store.old store.new }
    ensures fault { IfErr result (λ fault. fault ≡ Memory) }
{
    list.reserve_exact(marks.len())?;
    let mut rest = marks;
    while let Some(first) = rest.first() {
        let index = first.index;
        let (own, later) = rest.split_at(index_len(index, rest));
        let XSegment { a, b } = list[index].x_segment();
        collect_path(a, own, b, path)?;
        cut_segment(list, index, path.as_slice(), store)?;
        rest = later;
    }
    Ok(())
}
