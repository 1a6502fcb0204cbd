// One pass over a list: marks are found, every segment is cut at its own, and the pieces are joined. Upstream:
// `split::solver_list` and `split::solver`, where marks are applied.
ghost use Rattle.std.specs.Prelude.{◌≡◌, ◌<◌, ◌≤◌, ◌^◌, ◌-◌, [], IsTrue, IsFalse, IfOk, IfErr, OnOk, OnErr};
ghost use Rattle.overlay_base.specs.declared.segm.fault.Fault.TheVariants.{Memory};
ghost use Rattle.overlay_base.specs.Segments.{pairs, is_map};
ghost use Rattle.overlay_base.specs.ArrangedOf.{IsSplittable};
ghost use Rattle.overlay_base.specs.EdgeData.{IsMadeFrom};
ghost use Rattle.overlay_base.specs.HooksOf.{hooks_of};
ghost use Rattle.overlay_base.specs.SegmentOf.{segments_of};
ghost use Rattle.overlay_cuts.specs.Pass.{pass};
ghost use Rattle.overlay_intersections.specs.PassMarks.{is_rounded};
ghost use Rattle.overlay_intersections.specs.PlacingOf.{placing_of, HasRadius};
ghost use Rattle.overlay_grid.specs.Grid.{LieInside};
ghost use Rattle.overlay_cuts.specs.FinderOf.{solver_in, layout_in, LooksThrough};
ghost use Rattle.overlay_split.specs.PassOf.{HasDataOfPass, IsPassStore, makes_mark, piece_count, pieces_leave_range, StopsPass};
ghost use Rattle.overlay_split.specs.steps.ChangedBoxes.{BoundChange};
ghost use Rattle.overlay_split.specs.declared.split.fault.SplitFault.TheVariants.{Refused};
ghost use Rattle.overlay_split.specs.SplitFaultOf.{OnLargeCount, OnTooMany};
ghost use Rattle.overlay_base.specs.FaultOf.{OnTooLarge};

use crate::split::changed::changed_boxes;
use crate::split::fault::SplitFault;
use crate::split::near::find_marks_near;
use overlay_base::overlay_core::edge_data::OverlayEdgeData;
use overlay_base::segm::fault::Fault;
use overlay_base::segm::segment::Segment;
use overlay_base::segm::winding::WindingCount;
use overlay_cuts::split::finder::PairFinder;
pub use overlay_cuts::split::pass::pass_at;
use overlay_geometry::geom::point::IntPoint;
use overlay_geometry::geom::rect::IntRect;
use overlay_geometry::num::OverlayInt;
use overlay_intersections::split::placing::Placing;
use overlay_tree::split::solver_tree::TreeBuffers;
use std::alloc::Global;

/// The memory of a pass, kept from one to the next, but for that of its marks. This project's own.
#[derive(Drop)]
pub struct PassBuffers<I> {
    alloc: Global,
    path: Vec<IntPoint<I>>,
    tree: TreeBuffers<I>,
}

impl<I> PassBuffers<I> {
    /// Buffers that have taken no memory yet.
    pub fn new(alloc: Global) -> Self {
        PassBuffers {
            alloc,
            path: Vec::new(alloc),
            tree: TreeBuffers::new(alloc),
        }
    }
}

/// What a pass reports beside the list that it leaves.
#[derive(Clone, Copy, Debug, PartialEq, Eq)]
pub struct Passed {
    /// Whether two segments crossed at a point without whole coordinates.
    pub is_rounded: bool,
    /// Whether a segment was split.
    pub has_marks: bool,
}

/// Splits every segment where another meets it, and joins the pieces: marks are found, applied by rising index, then
/// the list is sorted and segments on one pair of ends are merged.
///
/// The list has to be sorted, without two segments on one pair of ends, in range, with counts that are valid and not
/// empty, and a squared radius has to be at least 1. It has to lie inside the finder's grid, if there is one.
///
/// Returns `Fault::CountOutOfRange` only where a running sum of the counts of pieces on one pair leaves
/// `-i32::MAX..=i32::MAX`, and, memory being found, wherever one does; the store is then what the hooks called before
/// that sum left. Returns `Fault::Memory` where a growth is refused; the store is then what the hooks called so far
/// left. Where a call is refused the list is empty, and the finder keeps its solver and its grid.
pub fn pass<C: WindingCount, I: OverlayInt, D: OverlayEdgeData<C>>(
    list: &mut Vec<Segment<C, I, D>>,
    placing: Placing,
    finder: &mut PairFinder<I>,
    buffers: &mut PassBuffers<I>,
    store: &mut D::Store,
) -> Result<Passed, Fault>
    requires map { IsTrue (is_map (segments_of list.old.items)) }
    requires splittable { IsSplittable list.old.items }
    requires radius { HasRadius placing }
    requires inside { LieInside (layout_in finder.old) (pairs (segments_of list.old.items)) }
    ensures solver { solver_in finder.new ≡ solver_in finder.old }
    ensures grid { layout_in finder.new ≡ layout_in finder.old }
    ensures geometry { OnOk result (segments_of list.new.items
        ≡ pass (placing_of placing) (segments_of list.old.items)) }
    ensures edge_data { OnOk result (HasDataOfPass D.OverlayEdgeData.own placing list.old store.old list.new) }
    ensures store { OnOk result (IsPassStore D.OverlayEdgeData.own placing list.old store.old store.new) }
    ensures rounded { IfOk result (λ passed. passed.is_rounded ≡ is_rounded (segments_of list.old.items)) }
    ensures marked { IfOk result (λ passed. passed.has_marks ≡ makes_mark placing list.old.items) }
    ensures looked { OnOk result (LooksThrough list.old.items finder.old finder.new) }

    ensures fits { OnOk result (IsFalse (pieces_leave_range placing list.old.items)) }
    ensures refused { OnTooLarge result (IsTrue (pieces_leave_range placing list.old.items)) }
    ensures emptied { OnErr result (list.new.items ≡ []) }
    ensures stopped { OnTooLarge result (StopsPass D.OverlayEdgeData.own placing list.old store.old store.new) }
    ensures store_made { IsMadeFrom (hooks_of C.counted D.OverlayEdgeData.own) store.old store.new }
{
    let unbounded = usize::MAX;
    match pass_within(list, placing, finder, buffers, store, unbounded) {
        Ok(passed) => Ok(passed),
        Err(SplitFault::Refused(fault)) => Err(fault),
        Err(SplitFault::TooManySegments) => unreachable!(),
    }
}

/// Makes a pass as `pass` does, unless the segments fall into more pieces than the limit. Every segment that has no mark
/// is one piece.
///
/// Returns `SplitFault::TooManySegments` where there would be more, before anything is cut: the list is empty then, and
/// the store as it was. Under `usize::MAX` it never does. Returns the faults of `pass` as `SplitFault::Refused`; what
/// is left then is what `pass` leaves.
pub fn pass_within<C: WindingCount, I: OverlayInt, D: OverlayEdgeData<C>>(
    list: &mut Vec<Segment<C, I, D>>,
    placing: Placing,
    finder: &mut PairFinder<I>,
    buffers: &mut PassBuffers<I>,
    store: &mut D::Store,
    limit: usize,
) -> Result<Passed, SplitFault>
    requires map { IsTrue (is_map (segments_of list.old.items)) }
    requires splittable { IsSplittable list.old.items }
    requires radius { HasRadius placing }
    requires inside { LieInside (layout_in finder.old) (pairs (segments_of list.old.items)) }
    ensures solver { solver_in finder.new ≡ solver_in finder.old }
    ensures grid { layout_in finder.new ≡ layout_in finder.old }
    ensures geometry { OnOk result (segments_of list.new.items
        ≡ pass (placing_of placing) (segments_of list.old.items)) }
    ensures edge_data { OnOk result (HasDataOfPass D.OverlayEdgeData.own placing list.old store.old list.new) }
    ensures store { OnOk result (IsPassStore D.OverlayEdgeData.own placing list.old store.old store.new) }
    ensures rounded { IfOk result (λ passed. passed.is_rounded ≡ is_rounded (segments_of list.old.items)) }
    ensures marked { IfOk result (λ passed. passed.has_marks ≡ makes_mark placing list.old.items) }
    ensures looked { OnOk result (LooksThrough list.old.items finder.old finder.new) }
    ensures within { OnOk result (piece_count placing list.old.items ≤ limit) }

    ensures fits { OnOk result (IsFalse (pieces_leave_range placing list.old.items)) }
    ensures refused { OnLargeCount result (IsTrue (pieces_leave_range placing list.old.items)) }
    ensures emptied { OnErr result (list.new.items ≡ []) }
    ensures stopped { OnLargeCount result (StopsPass D.OverlayEdgeData.own placing list.old store.old store.new) }
    ensures store_made { IsMadeFrom (hooks_of C.counted D.OverlayEdgeData.own) store.old store.new }
    ensures beyond { OnTooMany result (limit < piece_count placing list.old.items) }
    ensures uncut { OnTooMany result (store.new ≡ store.old) }
    ensures unbounded { OnTooMany result (limit < 2 ^ 64 - 1) }
{
    let mut changed = None;
    pass_near(list, placing, finder, buffers, &mut changed, store, limit)
}

/// Makes a pass as `pass_within` does, in a run: it looks only at what the pass before has changed, where that is known,
/// and says what it changes itself, where that is little.
pub(crate) fn pass_near<C: WindingCount, I: OverlayInt, D: OverlayEdgeData<C>>(
    list: &mut Vec<Segment<C, I, D>>,
    placing: Placing,
    finder: &mut PairFinder<I>,
    buffers: &mut PassBuffers<I>,
    changed: &mut Option<Vec<IntRect<I>>>,
    store: &mut D::Store,
    limit: usize,
) -> Result<Passed, SplitFault>
    requires map { IsTrue (is_map (segments_of list.old.items)) }
    requires splittable { IsSplittable list.old.items }
    requires radius { HasRadius placing }
    requires inside { LieInside (layout_in finder.old) (pairs (segments_of list.old.items)) }
    requires changed { BoundChange I.whole changed.old (segments_of list.old.items) }
    ensures solver { solver_in finder.new ≡ solver_in finder.old }
    ensures grid { layout_in finder.new ≡ layout_in finder.old }
    ensures geometry { OnOk result (segments_of list.new.items
        ≡ pass (placing_of placing) (segments_of list.old.items)) }
    ensures edge_data { OnOk result (HasDataOfPass D.OverlayEdgeData.own placing list.old store.old list.new) }
    ensures store { OnOk result (IsPassStore D.OverlayEdgeData.own placing list.old store.old store.new) }
    ensures rounded { IfOk result (λ passed. passed.is_rounded ≡ is_rounded (segments_of list.old.items)) }
    ensures marked { IfOk result (λ passed. passed.has_marks ≡ makes_mark placing list.old.items) }
    ensures looked { OnOk result (LooksThrough list.old.items finder.old finder.new) }
    ensures changed { OnOk result (BoundChange I.whole changed.new (segments_of list.new.items)) }
    ensures within { OnOk result (piece_count placing list.old.items ≤ limit) }

    ensures fits { OnOk result (IsFalse (pieces_leave_range placing list.old.items)) }
    ensures refused { OnLargeCount result (IsTrue (pieces_leave_range placing list.old.items)) }
    ensures emptied { OnErr result (list.new.items ≡ []) }
    ensures stopped { OnLargeCount result (StopsPass D.OverlayEdgeData.own placing list.old store.old store.new) }
    ensures store_made { IsMadeFrom (hooks_of C.counted D.OverlayEdgeData.own) store.old store.new }
    ensures beyond { OnTooMany result (limit < piece_count placing list.old.items) }
    ensures uncut { OnTooMany result (store.new ≡ store.old) }
    ensures unbounded { OnTooMany result (limit < 2 ^ 64 - 1) }
{
    let PassBuffers { alloc, path, tree } = buffers;
    let mut marks = Vec::new(*alloc);
    let is_rounded = match find_marks_near(
        finder,
        *alloc,
        list.as_slice(),
        placing,
        changed,
        tree,
        &mut marks,
    ) {
        Ok(is_rounded) => is_rounded,
        Err(fault) => return Err(emptied(list, fault)),
    };
    if list.len() + marks.len() > limit {
        list.clear();
        return Err(SplitFault::TooManySegments);
    }
    let has_marks = !marks.is_empty();
    *changed = match changed_boxes(*alloc, list.as_slice(), marks.as_slice()) {
        Ok(boxes) => boxes,
        Err(refusal) => return Err(emptied(list, refusal)),
    };
    pass_at(list, marks, path, store)?;
    Ok(Passed {
        is_rounded,
        has_marks,
    })
}

/// What a pass returns that is refused by this fault. It leaves no segment.
fn emptied<C: WindingCount, I: OverlayInt, D: Copy>(
    list: &mut Vec<Segment<C, I, D>>,
    fault: Fault,
) -> SplitFault
    ensures fault { result ≡ Refused fault }
    ensures emptied { list.new.items ≡ [] }
{
    list.clear();
    SplitFault::Refused(fault)
}
