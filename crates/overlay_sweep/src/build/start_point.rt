// The segments that start at one point, in order of their angles. Upstream: part of `build::sweep`.
ghost use Rattle.std.specs.Prelude.{◌≡◌, ◌<◌, ◌≤◌, OnOk, length};
ghost use Rattle.overlay_base.specs.SegmentOf.{segments_of};
ghost use Rattle.overlay_sweep.specs.steps.WayOf.{ways_of, ways_between, by_angle};
ghost use Rattle.overlay_base.specs.ArrangedOf.{AreInRange};
ghost use Rattle.overlay_sweep.specs.SweepOf.{StartTogether, StartsElsewhere};

use crate::build::way::Way;
use overlay_base::segm::segment::Segment;
use overlay_base::segm::winding::WindingCount;
use overlay_geometry::num::OverlayInt;
use std::alloc::AllocError;

/// The index after the last of the segments that start where the segment at an index does.
pub fn start_point_end<C: WindingCount, I: OverlayInt, D: Copy>(
    segments: &[Segment<C, I, D>],
    index: usize,
) -> usize
    requires { index < length segments.now }
    ensures after { index < result }
    ensures within { result ≤ length segments.now }
    ensures same { StartTogether segments.now index result }
    ensures other { StartsElsewhere segments.now index result }
{
    let start = segments[index].x_segment().a;
    let mut next = index + 1;
    while next < segments.len() && segments[next].x_segment().a == start {
        next += 1;
    }
    next
}

/// Sorts ways by their angles, one or two of them without a call of the sort.
#[inline(always)]
fn sort_by_angle<I: OverlayInt>(ways: &mut Vec<Way<I>>) -> Result<(), AllocError>
    ensures { OnOk result (ways_of ways.new.items ≡ by_angle (ways_of ways.old.items)) }
{
    if ways.len() > 2 {
        ways.sort_by(|way, other| way.cmp_by_angle(other))?;
        return Ok(());
    }
    if ways.len() == 2 && ways[1].cmp_by_angle(&ways[0]).is_lt() {
        ways.swap(0, 1);
    }
    Ok(())
}

/// Collects the ways of the segments from an index up to another, in order of their angles.
#[inline(always)]
pub fn collect_ways<C: WindingCount, I: OverlayInt, D: Copy>(
    segments: &[Segment<C, I, D>],
    index: usize,
    next: usize,
    ways: &mut Vec<Way<I>>,
) -> Result<(), AllocError>
    requires order { index ≤ next }
    requires within { next ≤ length segments.now }
    requires in_range { AreInRange segments.now }
    ensures { OnOk result (ways_of ways.new.items ≡ by_angle (ways_between (segments_of segments.now) index next)) }
{
    ways.clear();
    for at in index..next {
        ways.push(Way::new(at, &segments[at]))?;
    }
    sort_by_angle(ways)
}
