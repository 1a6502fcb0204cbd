// The links of a graph: segments that an overlay keeps. Upstream: `core::link`.

use crate::segm::segment_fill::SegmentFill;
use overlay_geometry::geom::id_point::IdPoint;
use overlay_geometry::num::OverlayInt;

/// A kept segment from `a` to `b`, with its fill and its data. Each end has the number of its node.
#[derive(Clone, Copy, Debug)]
pub struct OverlayLink<I, D> {
    /// The smaller end, with the number of its node.
    pub a: IdPoint<I>,
    /// The greater end, with the number of its node.
    pub b: IdPoint<I>,
    /// On which sides the subject and the clip are.
    pub fill: SegmentFill,
    /// The data of the segment.
    pub edge_data: D,
}

impl<I: OverlayInt, D: Copy> OverlayLink<I, D> {
    ghost use Rattle.std.specs.Prelude.{◌≡◌, ◌==◌, if◌then◌else◌};
    ghost use Rattle.overlay_geometry.specs.Points.{point_lt};
    ghost use Rattle.overlay_geometry.specs.PointOf.{point_of};

    /// The link between two numbered points.
    pub fn new_with_data(
        a: IdPoint<I>,
        b: IdPoint<I>,
        fill: SegmentFill,
        edge_data: D,
    ) -> OverlayLink<I, D>
        ensures a { result.a ≡ a }
        ensures b { result.b ≡ b }
        ensures fill { result.fill ≡ fill }
        ensures edge_data { result.edge_data ≡ edge_data }
    {
        OverlayLink {
            a,
            b,
            fill,
            edge_data,
        }
    }

    /// The end away from a node: `b` where the number is that of `a`, else `a`.
    pub fn other(&self, node_id: usize) -> IdPoint<I>
        ensures { result ≡ (if self.now.a.id == node_id then self.now.b else self.now.a) }
    {
        if self.a.id == node_id { self.b } else { self.a }
    }

    /// Whether `a` comes before `b`.
    pub fn is_direct(&self) -> bool
        ensures { result ≡ point_lt (point_of I.whole self.now.a.point) (point_of I.whole self.now.b.point) }
    {
        self.a.point < self.b.point
    }
}
