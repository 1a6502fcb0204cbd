// The boundary of a shape: its contours, and their edges in boxes, by which an edge that crosses one of another boundary is found
// without an arrangement.
ghost use Rattle.std.specs.Prelude.{◌≡◌, ◌<◌, ◌≤◌, true, IsTrue, length, IfOk, IfErr};
ghost use Rattle.overlay_geometry.specs.InRange.{IsPairInRange};
ghost use Rattle.overlay_geometry.specs.Meeting.{do_cross};
ghost use Rattle.overlay_base.specs.ArrangedOf.{AreInRange};
ghost use Rattle.overlay_base.specs.SegmentOf.{pairs_in, ends_of, x_segment_of};
ghost use Rattle.overlay_base.specs.declared.segm.fault.Fault.TheVariants.{Memory};
ghost use Rattle.overlay_contours.specs.Contours.{edges};
ghost use Rattle.overlay_contours.specs.ContoursIn.{LieInRange};
ghost use Rattle.overlay_contours.specs.ContoursOf.{contours_of};
ghost use Rattle.overlay_relations.specs.Crossings.{HaveCrossing, HaveCrossingEdges};

use crate::box_tree::{BoxTree, NodePair, boxes_around_each};
use overlay_base::segm::fault::Fault;
use overlay_contours::contour::{BooleanSegment, IntContour, segments_of_contours};
use overlay_geometry::geom::rect::IntRect;
use overlay_geometry::num::OverlayInt;
use overlay_intersections::split::cross_solver::{CrossSolver, CrossType};
use std::alloc::{AllocError, Global};

/// The contours around a region, and their edges in boxes.
#[derive(Drop)]
pub(crate) struct Boundary<I: OverlayInt> {
    alloc: Global,
    pub(crate) contours: Vec<IntContour<I>>,
    pub(crate) sides: Vec<BooleanSegment<I>>,
    /// Boxes around each few sides that follow one another.
    boxes: BoxTree<I>,
    ghost in_range: { LieInRange I.whole I.MIN_COORD I.MAX_COORD contours.items },
    ghost sides_in_range: { AreInRange sides.items },
    ghost edges: { pairs_in sides.items ≡ edges (contours_of I.whole contours.items) },
}

/// How many sides one of the least boxes is around.
const SIDES_OF_A_BOX: usize = 8;

/// How many pairs of boxes are compared at most, for each side of two boundaries, before the search for a crossing ends: an
/// arrangement takes longer.
const PAIRS_OF_A_SIDE: usize = 8;

impl<I: OverlayInt> Boundary<I> {
    ghost use Rattle.overlay_relations.specs.BoundaryOf.{contours_in};

    /// The boundary with these contours.
    pub(crate) fn of(alloc: Global, contours: Vec<IntContour<I>>) -> Result<Boundary<I>, Fault>
        requires in_range { LieInRange I.whole I.MIN_COORD I.MAX_COORD contours.items }
        ensures contours { IfOk result (λ boundary. boundary.contours ≡ contours) }
        ensures fault { IfErr result (λ fault. fault ≡ Memory) }
    {
        let none = Vec::new(alloc);
        let sides = segments_of_contours(alloc, &contours, &none)?;
        let boxes = boxes_of(alloc, &sides)?;
        Ok(Boundary {
            alloc,
            contours,
            sides,
            boxes,
        })
    }

    /// Looks for an edge that crosses one of another boundary at a point inside both. Returns whether it found one; the search
    /// ends early where it would take long.
    pub(crate) fn finds_crossing(&self, other: &Boundary<I>) -> Result<bool, Fault>
        ensures crossing { IfOk result (λ found. found ≡ true → HaveCrossingEdges (contours_in self.now) (contours_in other.now)) }
        ensures fault { IfErr result (λ fault. fault ≡ Memory) }
    {
        let mut pairs = Vec::new(self.alloc);
        pairs.push(NodePair {
            first: self.boxes.top(),
            second: other.boxes.top(),
        })?;
        for _ in 0..self.most_pairs(other) {
            let Some(pair) = pairs.pop() else {
                return Ok(false);
            };
            if !self.boxes.do_meet(&other.boxes, pair) {
                continue;
            }
            if !pair.is_lowest() {
                pair.push_halves(&mut pairs)?;
            } else if self.crosses_within(other, pair) {
                return Ok(true);
            }
        }
        Ok(false)
    }

    /// How many pairs of boxes a search compares at most.
    fn most_pairs(&self, other: &Boundary<I>) -> usize {
        let sides = self.sides.len().saturating_add(other.sides.len());
        sides
            .saturating_mul(PAIRS_OF_A_SIDE)
            .saturating_add(PAIRS_OF_A_SIDE)
    }

    /// Whether a side in one of the least boxes crosses one in one of the other boundary.
    fn crosses_within(&self, other: &Boundary<I>, pair: NodePair) -> bool
        ensures { result ≡ true → HaveCrossing (pairs_in self.now.sides.items) (pairs_in other.now.sides.items) }
    {
        let start = pair.first.index.saturating_mul(SIDES_OF_A_BOX);
        for place in start..self.box_end(start) {
            if self.crosses_at(place, other, pair.second.index) {
                return true;
            }
        }
        false
    }

    /// Whether the side at a place crosses one in one of the least boxes of another boundary.
    fn crosses_at(&self, place: usize, other: &Boundary<I>, index: usize) -> bool
        requires place { place < length self.now.sides.items }
        ensures { result ≡ true → HaveCrossing (pairs_in self.now.sides.items) (pairs_in other.now.sides.items) }
    {
        let start = index.saturating_mul(SIDES_OF_A_BOX);
        for other_place in start..other.box_end(start) {
            if do_cross(&self.sides[place], &other.sides[other_place]) {
                return true;
            }
        }
        false
    }

    /// Where the sides of a box end that begin at a place.
    fn box_end(&self, start: usize) -> usize
        ensures { result ≤ length self.now.sides.items }
    {
        start.saturating_add(SIDES_OF_A_BOX).min(self.sides.len())
    }
}

/// Whether two sides cross at a point strictly inside both that is not rounded to an end of one.
fn do_cross<I: OverlayInt>(one: &BooleanSegment<I>, other: &BooleanSegment<I>) -> bool
    requires one { IsPairInRange I.whole I.MIN_COORD I.MAX_COORD (x_segment_of one.now) }
    requires other { IsPairInRange I.whole I.MIN_COORD I.MAX_COORD (x_segment_of other.now) }
    ensures { result ≡ true → IsTrue (do_cross (ends_of one.now) (ends_of other.now)) }
{
    match CrossSolver::cross_settled(&one.x_segment(), &other.x_segment()) {
        Some(found) => matches!(found.cross_type, CrossType::Pure),
        None => false,
    }
}

/// The boxes around each few sides.
fn boxes_of<I: OverlayInt>(
    alloc: Global,
    sides: &[BooleanSegment<I>],
) -> Result<BoxTree<I>, AllocError> {
    let mut boxes = Vec::new(alloc);
    for side in sides {
        let ends = side.x_segment();
        let heights = ends.y_range();
        boxes.push(IntRect {
            min_x: ends.a.x,
            max_x: ends.b.x,
            min_y: heights.min,
            max_y: heights.max,
        })?;
    }
    let lowest = boxes_around_each(alloc, SIDES_OF_A_BOX, &boxes)?;
    BoxTree::of(alloc, lowest)
}
