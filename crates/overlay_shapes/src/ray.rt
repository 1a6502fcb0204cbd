// The links that meet at a node, as rays from there. This project's own.
ghost use Rattle.std.specs.Prelude.{IsTrue};
ghost use Rattle.overlay_geometry.specs.Points.{is_ordered};
ghost use Rattle.overlay_geometry.specs.VSegmentOf.{v_pair_of, IsVSegmentInRange};

use overlay_base::overlay_core::link::OverlayLink;
use overlay_base::overlay_core::overlay_rule::OverlayRule;
use overlay_geometry::geom::v_segment::VSegment;
use overlay_geometry::num::OverlayInt;
use std::cmp::Ordering;

/// A link as seen from a node at one of its ends.
#[derive(Drop)]
pub(crate) struct Ray<I: OverlayInt> {
    /// The index of the link.
    pub(crate) link: usize,
    /// Whether the link's `a` is at the node, so that the ray leads to a later point.
    leads_on: bool,
    /// Whether the link ends at the node in its direction.
    pub(crate) comes_in: bool,
    segment: VSegment<I>,
    ghost in_range: { IsVSegmentInRange I.whole I.MIN_COORD I.MAX_COORD segment },
    ghost ordered: { IsTrue (is_ordered (v_pair_of I.whole segment)) },
}

impl<I: OverlayInt> Ray<I> {
    ghost use Rattle.std.specs.Prelude.{◌≡◌, ◌==◌};
    ghost use Rattle.overlay_base.specs.Rules.{holds};
    ghost use Rattle.overlay_build.specs.DirectedWalks.{in_direction};
    ghost use Rattle.overlay_build.specs.GraphOf.{link_of};
    ghost use Rattle.overlay_geometry.specs.InRange.{IsPointInRange};
    ghost use Rattle.overlay_shapes.specs.steps.Rays.{ray_of, around_cmp};

    /// The ray of the link with this index at a node. Its ends have to be in range.
    pub(crate) fn new<D: Copy>(
        index: usize,
        link: &OverlayLink<I, D>,
        rule: OverlayRule,
        node: usize,
    ) -> Ray<I>
        requires a { IsPointInRange I.whole I.MIN_COORD I.MAX_COORD link.now.a.point }
        requires b { IsPointInRange I.whole I.MIN_COORD I.MAX_COORD link.now.b.point }
        requires ordered { IsTrue (is_ordered (link_of I.whole link.now).pair) }
        ensures { ray_of result ≡ record {
          link = index;
          leads_on = (link.now.a.id == node);
          comes_in = ((in_direction (holds rule) (link_of I.whole link.now)).b_node == node);
          pair = (link_of I.whole link.now).pair;
        } }
    {
        let end = if rule.holds_of_top(link.fill) {
            link.b.id
        } else {
            link.a.id
        };
        Ray {
            link: index,
            leads_on: link.a.id == node,
            comes_in: end == node,
            segment: VSegment {
                a: link.a.point,
                b: link.b.point,
            },
        }
    }

    /// Compares rays from one node counterclockwise: first those to later points, from straight down over rightward to
    /// straight up, then the others.
    pub(crate) fn cmp_around(&self, other: &Ray<I>) -> Ordering
        ensures { result ≡ around_cmp (ray_of self.now) (ray_of other.now) }
    {
        match (self.leads_on, other.leads_on) {
            (true, false) => Ordering::Less,
            (false, true) => Ordering::Greater,
            _ => self.segment.cmp_by_angle(&other.segment),
        }
    }
}
