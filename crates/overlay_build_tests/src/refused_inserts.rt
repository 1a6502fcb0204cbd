// Sweeps over live segments with one refused insert, as where memory runs out.
ghost use Rattle.std.specs.Prelude.{◌≡◌, ℕ, suc, ◌+◌, ◌*◌, ◌≤◌, ℤ, ◌≤ℤ◌, ◌<ℤ◌, [], ◌∷◌, OnOk, OnErr, IfErr};
ghost use Rattle.overlay_base.specs.declared.segm.fault.Fault.TheVariants.{Memory};
ghost use Rattle.overlay_geometry.specs.PointOf.{point_of};
ghost use Rattle.overlay_geometry.specs.InRange.{IsPointInRange};
ghost use Rattle.overlay_geometry.specs.VSegmentOf.{v_pair_of, IsVSegmentInRange};
ghost use Rattle.overlay_sweep.specs.Live.{sum_below, HoldSameFrom, AreFreeAt};

use crate::worked_lines::two_squares;
use overlay_base::segm::arranged::is_arranged;
use overlay_base::segm::boolean::ShapeCountBoolean;
use overlay_base::segm::fault::Fault;
use overlay_base::segm::segment_fill::SegmentFill;
use overlay_base::segm::winding::WindingCount;
use overlay_geometry::geom::point::IntPoint;
use overlay_geometry::geom::v_segment::VSegment;
use overlay_geometry::num::OverlayInt;
use overlay_sweep::build::fill_handler::StoreFillsHandler;
use overlay_sweep::build::fill_strategy::NonZeroStrategy;
use overlay_sweep::build::live_segments::LiveSegments;
use overlay_sweep::build::scan_row::ScanRow;
use overlay_sweep::build::scan_rows::ScanRows;
use overlay_sweep::build::visits::sweep_with_handler;
use overlay_sweep::build::way::Way;
use overlay_upstream::build::scan_list::ScanList;
use overlay_upstream::build::scan_tree::ScanTree;
use std::process::Abort;

/// Live segments that refuse an insert after some others.
#[derive(Drop)]
struct Refusing<L> {
    live: L,
    passed_before: usize,
}

impl<C: WindingCount, I: OverlayInt, L: LiveSegments<C, I>> LiveSegments<C, I> for Refusing<L> {
    ghost sums = { λ refusing. L.sums refusing.live };

    ghost may_go_on_at = { λ refusing x. L.may_go_on_at refusing.live x };

    ghost asked = { λ refusing. L.asked refusing.live };

    ghost held = { λ refusing. L.held refusing.live };

    ghost is_most = { λ n d. L.is_most n d };

    fn insert(&mut self, segment: VSegment<I>, sum: C, x: I) -> Result<(), Fault>
        requires in_range { IsVSegmentInRange I.whole I.MIN_COORD I.MAX_COORD segment }
        requires start { I.whole segment.a.x ≡ I.whole x }
        requires wide { I.whole x <ℤ I.whole segment.b.x }
        requires time { L.may_go_on_at self.old.live (I.whole x) }
        requires free { AreFreeAt (I.whole x)
            (record { pair = v_pair_of I.whole segment; count = C.winding sum } ∷ L.sums self.old.live) }
        ensures sums { OnOk result (HoldSameFrom (I.whole x) (L.sums self.new.live)
            (record { pair = v_pair_of I.whole segment; count = C.winding sum } ∷ L.sums self.old.live)) }
        ensures time { OnOk result ((y : ℤ) → I.whole x ≤ℤ y → L.may_go_on_at self.new.live y) }
        ensures fault { IfErr result (λ fault. fault ≡ Memory) }
        ensures emptied { OnErr result (L.sums self.new.live ≡ []) }
        ensures none_asked { OnErr result (L.asked self.new.live ≡ 0) }
        ensures cleared { OnErr result ((y : ℤ) → L.may_go_on_at self.new.live y) }
        ensures held { OnOk result (L.held self.new.live ≤ suc (L.held self.old.live)) }
        ensures most { OnOk result ((n d : ℕ) → L.held self.old.live ≤ n → L.is_most n d
            → L.asked self.new.live + L.held self.new.live * d ≤ suc (suc (L.held self.old.live)) * d) }
    {
        if self.passed_before == 0 {
            self.live.clear();
            return Err(Fault::Memory);
        }
        self.passed_before -= 1;
        self.live.insert(segment, sum, x)
    }

    fn sum_below(&mut self, x: I, p: IntPoint<I>, default: C) -> C
        requires point { IsPointInRange I.whole I.MIN_COORD I.MAX_COORD p }
        requires same_x { I.whole p.x ≡ I.whole x }
        requires time { L.may_go_on_at self.old.live (I.whole x) }
        requires free { AreFreeAt (I.whole x) (L.sums self.old.live) }
        ensures sum { C.winding result ≡ sum_below (L.sums self.old.live) (point_of I.whole p) (C.winding default) }
        ensures sums { HoldSameFrom (I.whole x) (L.sums self.new.live) (L.sums self.old.live) }
        ensures time { (y : ℤ) → I.whole x ≤ℤ y → L.may_go_on_at self.new.live y }
        ensures held { L.held self.new.live ≤ L.held self.old.live }
        ensures most { (n d : ℕ) → L.held self.old.live ≤ n → L.is_most n d
            → L.asked self.new.live + L.held self.new.live * d ≤ suc (L.held self.old.live) * d }
    {
        self.live.sum_below(x, p, default)
    }

    fn clear(&mut self) {
        self.live.clear();
    }

    fn compared(&self) -> u128 {
        self.live.compared()
    }
}

/// Six lines of two squares are not vertical, and are inserted.
const INSERTS: usize = 6;

const FILLS: [SegmentFill; 12] = [2, 1, 2, 11, 7, 8, 14, 8, 1, 13, 4, 4];

/// Sweeps over the squares, with this number of inserts before the one that is refused. `None` where none is.
fn refusal<L: LiveSegments<ShapeCountBoolean, i32>>(
    rt: &(impl Abort + AllocGlobal),
    refusing: &mut Refusing<L>,
    ways: &mut Vec<Way<i32>>,
    passed_before: usize,
) -> Option<Fault> {
    let lines = two_squares();
    assert!(rt; is_arranged(&lines));
    let mut fills = vec![in rt.alloc(); 0; lines.len()].expect(rt, "memory");
    let mut compared = 0;
    refusing.passed_before = passed_before;
    let handler = StoreFillsHandler::new(&mut fills);
    let answer = sweep_with_handler::<
        ShapeCountBoolean,
        i32,
        (),
        NonZeroStrategy,
        Refusing<L>,
        StoreFillsHandler,
    >(refusing, ways, &lines, handler, &mut compared);
    match answer {
        Ok(fills) => {
            assert!(rt; fills.as_slice() == FILLS.as_slice());
            None
        }
        Err(fault) => Some(fault),
    }
}

/// After a refusal the same live segments and ways give a sweep the right fills.
fn sweep_after_refusal<L: LiveSegments<ShapeCountBoolean, i32>>(
    rt: &(impl Abort + AllocGlobal),
    refusing: &mut Refusing<L>,
    ways: &mut Vec<Way<i32>>,
    passed_before: usize,
) {
    let refused = refusal(rt, refusing, ways, passed_before);
    assert!(rt; refused == Some(Fault::Memory) && refusing.live.compared() == 0);
    assert!(rt; refusal(rt, refusing, ways, INSERTS).is_none());
}

/// After each refusal in turn a sweep still gives the right fills.
fn sweep_after_each_refusal<L: LiveSegments<ShapeCountBoolean, i32> + Drop>(
    rt: &(impl Abort + AllocGlobal),
    live: L,
) {
    let mut refusing = Refusing {
        live,
        passed_before: 0,
    };
    let mut ways = Vec::new(rt.alloc());
    for passed in 0..INSERTS {
        sweep_after_refusal(rt, &mut refusing, &mut ways, passed);
    }
}

#[test]
fn a_sweep_over_a_list_after_each_refused_insert(rt: HostRuntime) {
    sweep_after_each_refusal(&rt, ScanList::new(rt.alloc()));
}

#[test]
fn a_sweep_over_a_tree_after_each_refused_insert(rt: HostRuntime) {
    sweep_after_each_refusal(&rt, ScanTree::new(rt.alloc()));
}

#[test]
fn a_sweep_over_a_row_after_each_refused_insert(rt: HostRuntime) {
    sweep_after_each_refusal(&rt, ScanRow::new(rt.alloc()));
}

#[test]
fn a_sweep_over_rows_after_each_refused_insert(rt: HostRuntime) {
    sweep_after_each_refusal(&rt, ScanRows::new(rt.alloc()));
}
