// Which other segment lies directly below each segment of an arrangement. This project's own.
ghost use Rattle.std.specs.Prelude.{◌≡◌, ℕ, ℤ, pos, ◌≤ℤ◌, ◌<◌, ◌^◌, ◌∷◌, IfOk, OnOk, IfErr, length};
ghost use Rattle.overlay_base.specs.ArrangedOf.{IsArranged};
ghost use Rattle.overlay_base.specs.BooleanWinding.{boolean_winding};
ghost use Rattle.overlay_base.specs.Windings.{empty};
ghost use Rattle.overlay_base.specs.SegmentOf.{segments_of, x_segment_of, ends_of as pair_of_segment};
ghost use Rattle.overlay_geometry.specs.InRange.{IsPairInRange};
ghost use Rattle.overlay_sweep.specs.Live.{HoldSameFrom, AreFreeAt};
ghost use Rattle.overlay_sweep.specs.Supports.{AreSupports};
ghost use Rattle.overlay_sweep.specs.steps.Numbered.{numbered};

use crate::build::live_segments::LiveSegments;
use crate::build::start_point::{collect_ways, start_point_end};
use overlay_base::segm::boolean::ShapeCountBoolean;
use overlay_base::segm::fault::Fault;
use overlay_base::segm::segment::Segment;
use overlay_base::segm::winding::WindingCount;
use overlay_geometry::geom::v_segment::VSegment;
use overlay_geometry::num::OverlayInt;
use std::alloc::Global;

/// For each segment of an arrangement the index of its support: the one just before it by angle at
/// the same start, or else the one directly below its start. For a segment without a support it is
/// the number of segments.
///
/// Returns `Fault::Memory` where a growth is refused.
pub fn supports<I, S>(
    alloc: Global,
    live: &mut S,
    segments: &[Segment<ShapeCountBoolean, I, ()>],
) -> Result<Vec<usize>, Fault>
where
    I: OverlayInt,
    S: LiveSegments<ShapeCountBoolean, I>,
    requires arranged { IsArranged segments.now }
    ensures supports { IfOk result (λ supports. AreSupports (segments_of segments.now) supports.items) }
    ensures fault { IfErr result (λ fault. fault ≡ Fault.Memory) }
{
    live.clear();
    let count = segments.len();
    if count > MOST {
        return Err(Fault::Memory);
    }
    let mut supports = vec![in alloc; count; count]?;
    let mut ways = Vec::new(alloc);
    let mut index = 0;
    while index < segments.len() {
        let start = segments[index].x_segment().a;
        let next = start_point_end(segments, index);
        collect_ways(segments, index, next, &mut ways)?;
        let mut below = live.sum_below(start.x, start, ShapeCountBoolean { subj: 0, clip: 0 });
        for way in ways.iter() {
            supports[way.index] = number_or(below, count);
            below = count_of(way.index);
            insert_segment(live, &segments[way.index], below)?;
        }
        index = next;
    }
    Ok(supports)
}

/// Makes a segment that is not vertical live, with a sum.
fn insert_segment<I, S>(
    live: &mut S,
    segment: &Segment<ShapeCountBoolean, I, ()>,
    sum: ShapeCountBoolean,
) -> Result<(), Fault>
where
    I: OverlayInt,
    S: LiveSegments<ShapeCountBoolean, I>,
    requires in_range { IsPairInRange I.whole I.MIN_COORD I.MAX_COORD (x_segment_of segment.now) }
    requires time { (y : ℤ) → (pair_of_segment segment.now).a.x ≤ℤ y → S.may_go_on_at live.old y }
    requires free { AreFreeAt (pair_of_segment segment.now).a.x
        (record { pair = pair_of_segment segment.now; count = boolean_winding sum } ∷ S.sums live.old) }
    ensures live { OnOk result (HoldSameFrom (pair_of_segment segment.now).a.x (S.sums live.new)
        (record { pair = pair_of_segment segment.now; count = boolean_winding sum } ∷ S.sums live.old)) }
    ensures time { OnOk result ((y : ℤ) → (pair_of_segment segment.now).a.x ≤ℤ y → S.may_go_on_at live.new y) }
    ensures fault { IfErr result (λ fault. fault ≡ Fault.Memory) }
{
    let ends = segment.x_segment();
    if ends.is_not_vertical() {
        live.insert(VSegment::from(ends), sum, ends.a.x)?;
    }
    Ok(())
}

/// A number as a sum to keep: one more than it, in two digits.
fn count_of(number: usize) -> ShapeCountBoolean
    requires { number < MOST }
    ensures { boolean_winding result ≡ numbered number }
{
    let more = number + 1;
    ShapeCountBoolean {
        subj: (more % DIGIT) as i32,
        clip: (more / DIGIT) as i32,
    }
}

/// The number of a sum, or another one where the sum is that of no number.
fn number_or(sum: ShapeCountBoolean, none: usize) -> usize
    requires subj { pos 0 ≤ℤ sum.subj }
    requires clip { pos 0 ≤ℤ sum.clip }
    ensures none { boolean_winding sum ≡ empty → result ≡ none }
    ensures number { (number : ℕ) → boolean_winding sum ≡ numbered number → result ≡ number }
{
    let more = sum.subj as usize + sum.clip as usize * DIGIT;
    if more == 0 { none } else { more - 1 }
}

/// A digit is below it.
const DIGIT: usize = 0x8000_0000;

/// How many numbers two digits represent. No memory holds so many segments.
const MOST: usize = 0x2000_0000_0000_0000;
