// Whether a contour meets itself in a point. Upstream: `build::util`.
ghost use Rattle.std.specs.Prelude.{◌≡◌, [], ◌<◌, ◌≤◌, map, length, IfOk, OnOk, IfErr, IsSortedByKey, IsPermutation};
ghost use Rattle.std.specs.List.{list_any};
ghost use Rattle.overlay_geometry.specs.Points.{point_cmp, point_eq};
ghost use Rattle.overlay_geometry.specs.Sorting.{has_repeat, stably_sorted};
ghost use Rattle.overlay_geometry.specs.PointOf.{point_of};
ghost use Rattle.overlay_base.specs.declared.segm.fault.Fault.TheVariants.{Memory};
ghost use Rattle.overlay_build.specs.PointsInOrder.{HasPointsInOrder};

use crate::build::builder::GraphBuilder;
use crate::build::graph_node::GraphNode;
use overlay_base::segm::fault::Fault;
use overlay_base::segm::winding::WindingCount;
use overlay_geometry::geom::point::IntPoint;
use overlay_geometry::num::OverlayInt;

/// The points of shorter contours are compared pair by pair; longer contours are sorted.
const MIN_SORTED_POINTS: usize = 64;

impl<C: WindingCount, N: GraphNode, I: OverlayInt, D: Copy> GraphBuilder<C, N, I, D> {
    /// Whether two places of the contour hold one point.
    ///
    /// Of fewer than 64 points each is compared with those after it; the buffer is left as it is, and no memory is
    /// taken. From 64 points on they are sorted in the buffer, which ends with them in rising order, by `x`, then by
    /// `y`. Returns `Fault::Memory` where the buffer's growth is refused; it is empty then.
    pub fn test_contour_for_loops(
        &self,
        contour: &[IntPoint<I>],
        buffer: &mut Vec<IntPoint<I>>,
    ) -> Result<bool, Fault>
        ensures loops { IfOk result (λ answer. answer ≡ has_repeat point_eq (map (point_of I.whole) contour.now)) }
        ensures few { length contour.now < 64 → buffer.new ≡ buffer.old }
        ensures rising { OnOk result (64 ≤ length contour.now → HasPointsInOrder I.whole contour.now buffer.new.items) }
        ensures refused { IfErr result (λ fault. fault ≡ Memory) }
        ensures emptied { IfErr result (λ fault. buffer.new.items ≡ []) }
        ensures takes_none { IfErr result (λ fault. 64 ≤ length contour.now) }
    {
        if contour.len() < MIN_SORTED_POINTS {
            return Ok(has_equal_points(contour));
        }
        match sort_into(contour, buffer) {
            Ok(()) => Ok(has_equal_neighbors(buffer)),
            Err(fault) => {
                buffer.clear();
                Err(fault)
            }
        }
    }
}

/// Whether two places hold one point, by a comparison of every pair.
fn has_equal_points<I: OverlayInt>(points: &[IntPoint<I>]) -> bool
    ensures { result ≡ has_repeat point_eq (map (point_of I.whole) points.now) }
{
    let mut rest = points;
    while let Some((first, later)) = rest.split_first() {
        if has_point(later, first) {
            return true;
        }
        rest = later;
    }
    false
}

/// Whether a point is one of some points.
fn has_point<I: OverlayInt>(points: &[IntPoint<I>], point: &IntPoint<I>) -> bool
    ensures { result ≡ list_any (λ p. point_eq (point_of I.whole point.now) (point_of I.whole p)) points.now }
{
    points.iter().any(|other| is_same(point, other))
}

/// Whether two points are equal.
fn is_same<I: OverlayInt>(left: &IntPoint<I>, right: &IntPoint<I>) -> bool
    ensures { result ≡ point_eq (point_of I.whole left.now) (point_of I.whole right.now) }
{
    left == right
}

/// Puts the points into the buffer, in rising order.
fn sort_into<I: OverlayInt>(
    points: &[IntPoint<I>],
    buffer: &mut Vec<IntPoint<I>>,
) -> Result<(), Fault>
    ensures sorted { OnOk result (map (point_of I.whole) buffer.new.items
        ≡ stably_sorted point_cmp (map (point_of I.whole) points.now)) }
    ensures in_order { OnOk result (IsSortedByKey (point_of I.whole) point_cmp buffer.new.items) }
    ensures permutation { OnOk result (IsPermutation points.now buffer.new.items) }
    ensures fault { IfErr result (λ fault. fault ≡ Memory) }
{
    buffer.clear();
    buffer.extend_from_slice(points)?;
    buffer.sort_by_key(|point| *point)?;
    Ok(())
}

/// Whether two places hold one point, of points in rising order: equal ones are neighbors.
fn has_equal_neighbors<I: OverlayInt>(points: &[IntPoint<I>]) -> bool
    requires { IsSortedByKey (point_of I.whole) point_cmp points.now }
    ensures { result ≡ has_repeat point_eq (map (point_of I.whole) points.now) }
{
    let mut rest = points;
    while let Some((first, later)) = rest.split_first() {
        let is_repeated = match later.split_first() {
            None => false,
            Some((next, _)) => is_same(first, next),
        };
        if is_repeated {
            return true;
        }
        rest = later;
    }
    false
}
