// The pieces of a segment along its path. Upstream: `split::solver`, where marks are applied.
ghost use Rattle.std.specs.Prelude.{◌≡◌, IsTrue, IfErr};
ghost use Rattle.overlay_base.specs.declared.segm.fault.Fault.TheVariants.{Memory};
ghost use Rattle.overlay_base.specs.Windings.{is_valid};
ghost use Rattle.overlay_geometry.specs.PointOf.{point_of};
ghost use Rattle.overlay_base.specs.EdgeData.{IsMadeFrom};
ghost use Rattle.overlay_base.specs.HooksOf.{hooks_of};
ghost use Rattle.overlay_cuts.specs.Path.{LeadsOn};
ghost use Rattle.overlay_intersections.specs.MarkOf.{points_of};
ghost use Rattle.overlay_cuts.specs.steps.PiecesOf.{AddsPieces, LeavesStore};

use overlay_base::overlay_core::edge_data::{EdgeDataSplit, OverlayEdgeData};
use overlay_base::segm::fault::Fault;
use overlay_base::segm::segment::Segment;
use overlay_base::segm::winding::WindingCount;
use overlay_geometry::geom::point::IntPoint;
use overlay_geometry::num::OverlayInt;

/// Appends the pieces from a point along the path that follows on it. Before each piece but the last the data is split.
/// A piece that runs backwards is turned, its count inverted, its data reversed.
///
/// The count has to be valid, and no step of the path may have equal ends. Returns `Fault::Memory`
/// where a growth is refused; the list then has some of the pieces, and the store is what the hooks
/// called before left.
pub fn push_pieces<C: WindingCount, I: OverlayInt, D: OverlayEdgeData<C>>(
    list: &mut Vec<Segment<C, I, D>>,
    from: IntPoint<I>,
    path: &[IntPoint<I>],
    count: C,
    edge_data: D,
    store: &mut D::Store,
) -> Result<(), Fault>
    requires valid { IsTrue (is_valid (C.winding count)) }
    requires leads_on { LeadsOn (point_of I.whole from) (points_of I.whole path.now) }
    ensures pieces { AddsPieces D.OverlayEdgeData.own from path.now count edge_data store.old list.old list.new result }
    ensures store { LeavesStore D.OverlayEdgeData.own from path.now count edge_data store.old list.old store.new
        result }
    ensures store_made { IsMadeFrom (hooks_of C.counted D.OverlayEdgeData.own) store.old store.new }
    ensures fault { IfErr result (λ fault. fault ≡ Memory) }
{
    let Some((b, marks)) = path.split_last() else {
        return Ok(());
    };
    let mut from = from;
    let mut edge_data = edge_data;
    for mark in marks {
        let at = EdgeDataSplit {
            a: from,
            p: *mark,
            b: *b,
        };
        let (part, rest) = edge_data.split(at, store);
        list.push(Segment::create_and_validate_with_data(from, *mark, count, part, store))?;
        from = *mark;
        edge_data = rest;
    }
    list.push(Segment::create_and_validate_with_data(from, *b, count, edge_data, store))?;
    Ok(())
}
