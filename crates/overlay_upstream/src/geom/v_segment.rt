// The lowest of the segments of a sweep. Upstream: `geom::v_segment`.
ghost use Rattle.std.specs.Prelude.{◌≡◌, None, Some, IfSome};
ghost use Rattle.overlay_geometry.specs.VSegmentOf.{IsVSegmentInRange};
ghost use Rattle.overlay_upstream.specs.LowerOf.{lower_of};

use overlay_geometry::geom::v_segment::VSegment;
use overlay_geometry::num::OverlayInt;

/// Keeps the lower of two segments: stores the segment where nothing is stored, or where it runs below what is
/// (`is_under_segment`), and else leaves what is stored.
///
/// Both have to be in range. Upstream: `BottomSegment`, implemented there for `Option<VSegment>`.
pub fn update_if_under<I: OverlayInt>(best: &mut Option<VSegment<I>>, segment: VSegment<I>)
    requires best { IfSome best.now (IsVSegmentInRange I.whole I.MIN_COORD I.MAX_COORD) }
    requires segment { IsVSegmentInRange I.whole I.MIN_COORD I.MAX_COORD segment }
    ensures first { best.old ≡ None → best.new ≡ Some segment }
    ensures lower { IfSome best.old (λ found. best.new ≡ Some (lower_of I.whole segment found)) }
{
    let is_lowest = match best {
        None => true,
        Some(found) => segment.is_under_segment(found),
    };
    if is_lowest {
        *best = Some(segment);
    }
}
