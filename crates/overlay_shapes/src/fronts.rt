// The first link of each class, by where it starts and by its angle. This project's own.
ghost use Rattle.std.specs.Prelude.{◌≡◌, ℕ, ◌<◌, All, false, map, length, slice_index, slice_index_or, IfOk, IfErr};
ghost use Rattle.overlay_base.specs.declared.segm.fault.Fault.TheVariants.{Memory};
ghost use Rattle.overlay_build.specs.DirectedWalks.{no_link};
ghost use Rattle.overlay_build.specs.GraphOf.{link_of};
ghost use Rattle.overlay_shapes.specs.ShapeWalks.{comes_before};
ghost use Rattle.overlay_shapes.specs.steps.Fronts.{AreFronts, IsLinkInOrder};
ghost use Rattle.overlay_shapes.specs.steps.Gathering.{AreLeading};

use crate::classes::numbers_below;
use overlay_base::overlay_core::link::OverlayLink;
use overlay_base::segm::fault::Fault;
use overlay_geometry::geom::v_segment::VSegment;
use overlay_geometry::num::OverlayInt;
use std::alloc::Global;

/// The first link of each class, at the index of its leader: the one with the least start, and of those with that start
/// the lowest by angle. At another index is any number.
///
/// Takes time linear in the links. Returns `Fault::Memory` where a growth is refused.
pub(crate) fn fronts_of<I: OverlayInt, D: Copy>(
    alloc: Global,
    links: &[OverlayLink<I, D>],
    leaders: &[usize],
) -> Result<Vec<usize>, Fault>
    requires links { All (IsLinkInOrder I.whole I.MIN_COORD I.MAX_COORD) links.now }
    requires each { length leaders.now ≡ length links.now }
    requires leaders { AreLeading leaders.now }
    ensures fronts { IfOk result (λ fronts. AreFronts leaders.now fronts.items) }
    ensures none_before { IfOk result (λ fronts. (i : ℕ) → i < length leaders.now
        → comes_before (slice_index_or (map (link_of I.whole) links.now) i no_link).pair
        (slice_index_or (map (link_of I.whole) links.now) (slice_index fronts.items (slice_index leaders.now i))
        no_link).pair ≡ false) }
    ensures fault { IfErr result (λ fault. fault ≡ Memory) }
{
    let mut fronts = numbers_below(alloc, leaders.len())?;
    for index in 0..leaders.len() {
        let leader = leaders[index];
        let front = fronts[leader];
        if is_before(&links[index], &links[front]) {
            fronts[leader] = index;
        }
    }
    Ok(fronts)
}

/// Whether a link starts before another one, or at the same point and lower by angle.
fn is_before<I: OverlayInt, D: Copy>(link: &OverlayLink<I, D>, other: &OverlayLink<I, D>) -> bool
    requires own { IsLinkInOrder I.whole I.MIN_COORD I.MAX_COORD link.now }
    requires other { IsLinkInOrder I.whole I.MIN_COORD I.MAX_COORD other.now }
    ensures { result ≡ comes_before (link_of I.whole link.now).pair (link_of I.whole other.now).pair }
{
    link.a.point < other.a.point
        || (link.a.point == other.a.point && way_of(link).cmp_by_angle(&way_of(other)).is_lt())
}

/// The way of a link from its smaller end to its greater one.
fn way_of<I: OverlayInt, D: Copy>(link: &OverlayLink<I, D>) -> VSegment<I>
    ensures { result ≡ record { a = link.now.a.point; b = link.now.b.point } }
{
    VSegment {
        a: link.a.point,
        b: link.b.point,
    }
}
