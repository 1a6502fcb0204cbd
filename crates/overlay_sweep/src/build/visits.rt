// One sweep over an arrangement: which segment the handler gets when, with which fill. Upstream: part of
// `build::sweep`.
ghost use Rattle.std.specs.Prelude.{◌≡◌, ℕ, suc, ◌+◌, ◌*◌, ◌-◌, ◌^◌, ◌<◌, ◌≤◌, ◌≤ℤ◌, ◌<ℤ◌, min, int_lt, cond, ℤ, ◌∷◌, ⊤, IsTrue, IsFalse, IfOk, OnOk, IfErr, length};
ghost use Rattle.std.specs.ControlFlow.{break_value, MatchControlFlow};
ghost use Rattle.overlay_base.specs.Windings.{add, weight, is_valid, is_count_in_range};
ghost use Rattle.overlay_base.specs.ArrangedOf.{IsArranged};
ghost use Rattle.overlay_geometry.specs.InRange.{IsPairInRange};
ghost use Rattle.overlay_base.specs.SegmentOf.{x_segment_of, winding_of, ends_of as pair_of_segment};
ghost use Rattle.overlay_sweep.specs.Fill.{fill_byte};
ghost use Rattle.overlay_sweep.specs.VisitOf.{visit_of};
ghost use Rattle.overlay_sweep.specs.Live.{HoldSameFrom, AreFreeAt};
ghost use Rattle.overlay_sweep.specs.SweepOf.{IsSweepAnswer, sweep_leaves_range, AsksThreeLooks};
ghost use Rattle.overlay_base.specs.FaultOf.{OnTooLarge};

use crate::build::fill_handler::FillHandler;
use crate::build::fill_strategy::FillStrategy;
use crate::build::live_segments::LiveSegments;
use crate::build::start_point::{collect_ways, start_point_end};
use crate::build::way::Way;
use overlay_base::segm::fault::Fault;
use overlay_base::segm::segment::Segment;
use overlay_base::segm::winding::WindingCount;
use overlay_geometry::geom::v_segment::VSegment;
use overlay_geometry::num::OverlayInt;
use std::ops::ControlFlow;

/// Gives the handler one segment with the winding below it. Returns the winding above it, or what
/// the handler broke with. A segment that is not vertical is live from then on, and the orders that
/// this compares are added to `compared`.
fn visit<C, I, D, F, S, H>(
    live: &mut S,
    index: usize,
    segment: &Segment<C, I, D>,
    bottom: C,
    handler: &mut H,
    compared: &mut u128,
) -> Result<ControlFlow<H::Output, C>, Fault>
where
    C: WindingCount,
    I: OverlayInt,
    D: Copy,
    F: FillStrategy<C>,
    S: LiveSegments<C, I>,
    H: FillHandler<C, I, D>,
    requires in_range { IsPairInRange I.whole I.MIN_COORD I.MAX_COORD (x_segment_of segment.now) }
    requires count { IsTrue (is_valid (winding_of segment.now)) }
    requires bottom { IsTrue (is_valid (C.winding bottom)) }
    requires takes { H.takes handler.old index }
    requires time { (y : ℤ) → (pair_of_segment segment.now).a.x ≤ℤ y → S.may_go_on_at live.old y }
    requires free { AreFreeAt (pair_of_segment segment.now).a.x
        (record {
          pair = pair_of_segment segment.now;
          count = add (weight (C.winding bottom))
              (weight (winding_of segment.now));
        } ∷ S.sums live.old) }
    ensures range { IfErr result (λ fault. fault ≡ Fault.CountOutOfRange
        → IsFalse (is_count_in_range (add (weight (C.winding bottom)) (weight (winding_of segment.now))))) }
    ensures in_range { OnOk result (IsTrue (is_count_in_range
        (add (weight (C.winding bottom)) (weight (winding_of segment.now))))) }
    ensures top { IfOk result (λ flow. MatchControlFlow flow
        (λ top. C.winding top ≡ add (weight (C.winding bottom)) (weight (winding_of segment.now))) (λ _. ⊤)) }
    ensures answer { IfOk result (λ flow. break_value flow
        ≡ (H.handle_gives handler.old (visit_of index segment.now
        (fill_byte F.rule (C.winding bottom) (add (weight (C.winding bottom)) (weight (winding_of segment.now)))
        (winding_of segment.now).mask))).1) }
    ensures handler { OnOk result (handler.new ≡ (H.handle_gives handler.old
        (visit_of index segment.now (fill_byte F.rule (C.winding bottom)
        (add (weight (C.winding bottom)) (weight (winding_of segment.now))) (winding_of segment.now).mask))).0) }
    ensures live { IfOk result (λ flow. MatchControlFlow flow
        (λ _. HoldSameFrom (pair_of_segment segment.now).a.x (S.sums live.new)
        (record {
          pair = pair_of_segment segment.now;
          count = add (weight (C.winding bottom))
              (weight (winding_of segment.now));
        } ∷ S.sums live.old)) (λ _. ⊤)) }
    ensures time { IfOk result (λ flow. MatchControlFlow flow
        (λ _. (y : ℤ) → (pair_of_segment segment.now).a.x ≤ℤ y → S.may_go_on_at live.new y) (λ _. ⊤)) }
    ensures asked { IfOk result (λ flow. MatchControlFlow flow
        (λ _. (pair_of_segment segment.now).a.x <ℤ (pair_of_segment segment.now).b.x → compared.new
        ≡ min (compared.old + S.asked live.new) (2 ^ 128 - 1)) (λ _. ⊤)) }
    ensures held { OnOk result (S.held live.new ≤ suc (S.held live.old)) }
    ensures most { OnOk result ((n d : ℕ) → S.held live.old ≤ n → S.is_most n d
        → compared.new + S.held live.new * d ≤ compared.old + suc (suc (S.held live.old)) * d) }
{
    let (top, fill) = F::add_and_fill(segment.count(), bottom)?;
    if let ControlFlow::Break(answer) = handler.handle(index, segment, fill) {
        return Ok(ControlFlow::Break(answer));
    }
    let ends = segment.x_segment();
    if ends.is_not_vertical() {
        live.insert(VSegment::from(ends), top, ends.a.x)?;
        *compared = compared.saturating_add(live.compared());
    }
    Ok(ControlFlow::Continue(top))
}

/// Gives the handler the segments of an arrangement, by their starts and then by angle from below.
/// Leaves in `compared` how many orders of live segments this compared, `u128::MAX` at most: those
/// of three searches among all segments for each of them.
pub fn sweep_with_handler<C, I, D, F, S, H>(
    live: &mut S,
    ways: &mut Vec<Way<I>>,
    segments: &[Segment<C, I, D>],
    mut handler: H,
    compared: &mut u128,
) -> Result<H::Output, Fault>
where
    C: WindingCount,
    I: OverlayInt,
    D: Copy,
    F: FillStrategy<C>,
    S: LiveSegments<C, I>,
    H: FillHandler<C, I, D>,
    requires arranged { IsArranged segments.now }
    requires takes { (index : ℕ) → index < length segments.now → H.takes handler index }
    ensures answer { IfOk result (IsSweepAnswer H.handle_gives H.finalize_gives handler F.rule segments.now) }
    ensures in_range { OnOk result (IsFalse (sweep_leaves_range H.handle_gives handler F.rule segments.now)) }
    ensures out_of_range { OnTooLarge result (IsTrue (sweep_leaves_range H.handle_gives handler F.rule segments.now)) }
    ensures compared { OnOk result (AsksThreeLooks S.is_most (length segments.now) compared.new) }
{
    live.clear();
    *compared = 0;
    let mut index = 0;
    while index < segments.len() {
        let start = segments[index].x_segment().a;
        let next = start_point_end(segments, index);
        collect_ways(segments, index, next, ways)?;
        let mut sum = live.sum_below(start.x, start, C::new(0, 0));
        *compared = compared.saturating_add(live.compared());
        for way in ways.iter() {
            let segment = &segments[way.index];
            let seen = visit::<C, I, D, F, S, H>(
                live,
                way.index,
                segment,
                sum,
                &mut handler,
                compared,
            )?;
            match seen {
                ControlFlow::Continue(top) => sum = top,
                ControlFlow::Break(answer) => return Ok(answer),
            }
        }
        index = next;
    }
    Ok(handler.finalize())
}
