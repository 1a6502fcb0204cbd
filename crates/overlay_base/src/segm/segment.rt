// Segments: two ends in order, a winding count, and data. Upstream: `segm::segment`.
ghost use Rattle.std.specs.Prelude.{◌≡◌, ⊤, IsTrue};
ghost use Rattle.overlay_geometry.specs.Points.{is_ordered};
ghost use Rattle.overlay_geometry.specs.PairOf.{pair_of};

use crate::overlay_core::edge_data::OverlayEdgeData;
use crate::segm::boolean::ShapeCountBoolean;
use crate::segm::shape_type::ShapeType;
use crate::segm::winding::WindingCount;
use overlay_geometry::geom::point::IntPoint;
use overlay_geometry::geom::x_segment::XSegment;
use overlay_geometry::num::OverlayInt;
use std::alloc::AllocError;

/// Two ends, `a` before `b`, with a count and data.
#[derive(Debug)]
pub struct Segment<C: WindingCount, I: OverlayInt, D> {
    x_segment: XSegment<I>,
    count: C,
    edge_data: D,
    pub ghost ordered: { IsTrue (is_ordered (pair_of I.whole x_segment)) },
}

impl<C: WindingCount, I: OverlayInt, D: Copy> Clone for Segment<C, I, D> {
    ghost is_clone = { λ x y. y ≡ x };

    ghost is_infallible = { λ _. ⊤ };

    fn clone(&self) -> Result<Segment<C, I, D>, AllocError> {
        Ok(*self)
    }
}

impl<C: WindingCount, I: OverlayInt, D: Copy> Copy for Segment<C, I, D> {}

impl<C: WindingCount, I: OverlayInt, D: Copy> Segment<C, I, D> {
    ghost use Rattle.std.specs.Prelude.{◌≡◌};
    ghost use Rattle.overlay_base.specs.SegmentOf.{x_segment_of, count_of, edge_data_of};

    /// The two ends.
    pub fn x_segment(&self) -> XSegment<I>
        ensures { result ≡ x_segment_of self.now }
    {
        self.x_segment
    }

    /// The winding count.
    pub fn count(&self) -> C
        ensures { result ≡ count_of self.now }
    {
        self.count
    }

    /// The data.
    pub fn edge_data(&self) -> D
        ensures { result ≡ edge_data_of self.now }
    {
        self.edge_data
    }
}

impl<C: WindingCount, I: OverlayInt, D: Copy> Segment<C, I, D> {
    ghost use Rattle.std.specs.Prelude.{◌≡◌};
    ghost use Rattle.overlay_base.specs.SegmentOf.{x_segment_of, count_of, edge_data_of};

    /// The segment on the same ends with another count and other data. This project's own.
    pub fn with_count_and_data(self, count: C, edge_data: D) -> Segment<C, I, D>
        ensures x_segment { x_segment_of result ≡ x_segment_of self }
        ensures count { count_of result ≡ count }
        ensures edge_data { edge_data_of result ≡ edge_data }
    {
        let Segment { x_segment, .. } = self;
        Segment {
            x_segment,
            count,
            edge_data,
        }
    }
}

impl<C: WindingCount, I: OverlayInt, D: OverlayEdgeData<C>> Segment<C, I, D> {
    ghost use Rattle.std.specs.Prelude.{◌≡◌, ◌≢◌, IsTrue};
    ghost use Rattle.overlay_geometry.specs.Points.{point_lt};
    ghost use Rattle.overlay_base.specs.Windings.{is_valid};
    ghost use Rattle.overlay_geometry.specs.PointOf.{point_of};
    ghost use Rattle.overlay_base.specs.DataOf.{IsDataPiece, IsPieceStore};

    /// The segment between two points, which have to differ.
    ///
    /// Where `b` comes before `a`, the ends change places, the count is inverted and the data's
    /// hook `reversed` is called. The count has to be valid there.
    #[tactic(auto, unfolding(crate::specs::EdgeData::data_piece))]
    pub fn create_and_validate_with_data(
        a: IntPoint<I>,
        b: IntPoint<I>,
        count: C,
        edge_data: D,
        store: &mut D::Store,
    ) -> Segment<C, I, D>
        requires ends { point_of I.whole a ≢ point_of I.whole b }
        requires valid { IsTrue (point_lt (point_of I.whole b) (point_of I.whole a))
            → IsTrue (is_valid (C.winding count)) }
        ensures segment { IsDataPiece D.OverlayEdgeData.own (C.winding count) a b edge_data store.old result }
        ensures store { IsPieceStore D.OverlayEdgeData.own (C.winding count) a b edge_data store.old store.new result }
    {
        if a < b {
            Segment {
                x_segment: XSegment { a, b },
                count,
                edge_data,
            }
        } else {
            Segment {
                x_segment: XSegment { a: b, b: a },
                count: count.invert(),
                edge_data: edge_data.reversed(store),
            }
        }
    }
}

impl<I: OverlayInt, D: OverlayEdgeData<ShapeCountBoolean>> Segment<ShapeCountBoolean, I, D> {
    ghost use Rattle.std.specs.Prelude.{◌≡◌, ◌↔◌, IsNone, IfSome, IfNone};
    ghost use Rattle.overlay_geometry.specs.PointOf.{point_of};
    ghost use Rattle.overlay_base.specs.DataOf.{IsStepOf, IsStepStore};

    /// One step of a contour of the shape, from `a` to `b`. `None` exactly where the two points are equal.
    pub fn try_ab_and_data(
        a: IntPoint<I>,
        b: IntPoint<I>,
        shape_type: ShapeType,
        edge_data: D,
        store: &mut D::Store,
    ) -> Option<Segment<ShapeCountBoolean, I, D>>
        ensures none { IsNone result ↔ (point_of I.whole a ≡ point_of I.whole b) }
        ensures segment { IfSome result (IsStepOf D.OverlayEdgeData.own shape_type a b edge_data store.old) }
        ensures store { IfSome result (IsStepStore D.OverlayEdgeData.own shape_type a b edge_data store.old store.new) }
        ensures store_unchanged { IfNone result (store.new ≡ store.old) }
    {
        if a == b {
            return None;
        }
        let count = ShapeCountBoolean::direct_count(shape_type);
        Some(Segment::create_and_validate_with_data(a, b, count, edge_data, store))
    }
}
