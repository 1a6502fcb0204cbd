// The points at which snap rounding cuts the segments of a list, found from the marks of a settling pass. This project's
// own.
ghost use Rattle.std.specs.Prelude.{◌≡◌, ◌<◌, ◌≤◌, ◌≢◌, ◌++◌, ◌-◌, ◌^◌, IsTrue, IsFalse, true};
ghost use Rattle.std.specs.Prelude.{[], All, List, Some, IfOk, OnOk, map, length};
ghost use Rattle.std.specs.List.{AllWithin, HoldsAt};
ghost use Rattle.overlay_geometry.specs.Points.{is_ordered};
ghost use Rattle.overlay_geometry.specs.PointOf.{point_of};
ghost use Rattle.overlay_geometry.specs.PairOf.{pair_of};
ghost use Rattle.overlay_geometry.specs.InRange.{IsPointInRange, IsPairInRange};
ghost use Rattle.overlay_base.specs.Segments.{ends, is_map};
ghost use Rattle.overlay_base.specs.SegmentOf.{segments_of, pairs_in};
ghost use Rattle.overlay_base.specs.ArrangedOf.{AreInRange};
ghost use Rattle.overlay_intersections.specs.MarkOf.{AreMarksOf};
ghost use Rattle.overlay_intersections.specs.declared.split.line_mark.LineMark.{LineMark};
ghost use Rattle.overlay_intersections.specs.declared.split.placing.Placing.TheVariants.{Settling};
ghost use Rattle.overlay_snapping.specs.HotOf.{KnowsHot};
ghost use Rattle.overlay_snapping.specs.CutsOf.{AreCutsOf, AreMarksAt, AreCutsAt};
ghost use Rattle.overlay_snapping.specs.steps.Batches.{HasCut};
ghost use Rattle.overlay_snapping.specs.PointFinderOf.{points_of, points_in};
ghost use Rattle.overlay_snapping.specs.steps.Met.{AddsAllMet};
ghost use Rattle.overlay_snapping.specs.steps.Recorded.{recorded, IsRecorded};
ghost use Rattle.overlay_snapping.specs.steps.Cutting.{points_on, points_off, points_along};

use crate::snap::cells::CellSize;
use crate::snap::closure::Closure;
use crate::snap::meetings::{Meetings, append};
use crate::snap::pixel::lies_on;
use crate::snap::point_finder::PointFinder;
use overlay_base::segm::segment::Segment;
use overlay_base::segm::winding::WindingCount;
use overlay_geometry::geom::point::IntPoint;
use overlay_geometry::geom::x_segment::XSegment;
use overlay_geometry::num::OverlayInt;
use overlay_intersections::split::line_mark::LineMark;
use std::alloc::{AllocError, Global};

/// Finds the points at which snap rounding cuts segments, and keeps its memory from call to call.
///
/// That memory is in proportion to the segments and their marks: what a segment meets is found again for each segment.
#[derive(Drop)]
pub struct CutFinder<I: OverlayInt> {
    /// The ends of the segments and the marks that lie on them.
    given: Vec<IntPoint<I>>,
    /// The points that are found to be hot: at first the other marks.
    found: Vec<IntPoint<I>>,
    pub(crate) hot: PointFinder<I>,
    closure: Closure<I>,
    between: Vec<IntPoint<I>>,
}

impl<I: OverlayInt> CutFinder<I> {
    /// A finder that holds no memory yet.
    pub fn new(alloc: Global) -> Self {
        CutFinder {
            given: Vec::new(alloc),
            found: Vec::new(alloc),
            hot: PointFinder::new(alloc),
            closure: Closure::new(alloc),
            between: Vec::new(alloc),
        }
    }

    /// Finds the points between the ends of each segment at which snap rounding cuts it, each once, by rising index and
    /// then in order of points, unless there are more than `most`. They take the place of what `cuts` held. Returns
    /// whether these are all; if not, `append_cuts` finds those of each segment.
    ///
    /// The segments have to be an arrangement in range, and the marks those of a settling pass over them. A segment that
    /// moves is cut at each end and mark of the list whose pixel it meets, any other at each that lies on it.
    ///
    /// Returns `AllocError` where a growth is refused; `cuts` is of no use then.
    pub fn find_cuts<C: WindingCount, D: Copy>(
        &mut self,
        segments: &[Segment<C, I, D>],
        marks: &[LineMark<I>],
        most: usize,
        cuts: &mut Vec<LineMark<I>>,
    ) -> Result<bool, AllocError>
        requires map { IsTrue (is_map (segments_of segments.now)) }
        requires in_range { AreInRange segments.now }
        requires marks { AreMarksOf Settling segments.now marks.now }
        ensures cuts { IfOk result (λ all. IsTrue all → AreCutsOf segments.now cuts.new.items) }
        ensures known { OnOk result (KnowsHot (segments_of segments.now) self.new) }
        ensures beyond { IfOk result (λ all. IsFalse all → HasCut (segments_of segments.now)) }
        ensures unbounded { most ≡ 2 ^ 64 - 1 → IfOk result (λ all. IsTrue all) }
    {
        self.find_hot(segments, marks)?;
        cuts.clear();
        let mut rest = marks;
        for index in 0..segments.len() {
            let (own, later) = rest.split_at(own_len(index, rest));
            self.append_cuts(segments, index, own, cuts)?;
            if most < cuts.len() {
                return Ok(false);
            }
            rest = later;
        }
        Ok(true)
    }

    /// Finds the hot points of the segments. After that `append_cuts` can be called for each of them, in any order.
    ///
    /// The segments have to be an arrangement in range, and the marks those of a settling pass over them.
    ///
    /// Returns `AllocError` where a growth is refused; `append_cuts` cannot be called then.
    pub fn find_hot<C: WindingCount, D: Copy>(
        &mut self,
        segments: &[Segment<C, I, D>],
        marks: &[LineMark<I>],
    ) -> Result<(), AllocError>
        requires map { IsTrue (is_map (segments_of segments.now)) }
        requires in_range { AreInRange segments.now }
        requires marks { AreMarksOf Settling segments.now marks.now }
        ensures known { OnOk result (KnowsHot (segments_of segments.now) self.new) }
    {
        collect_ends(segments, &mut self.given)?;
        part_marks(segments, marks, &mut self.given, &mut self.found)?;
        self.closure.close(
            segments,
            CellSize::of(segments),
            &self.given,
            &mut self.found,
            &mut self.hot,
        )
    }

    /// Appends the points between the ends of one segment at which snap rounding cuts it, each once, in order of points.
    ///
    /// `find_hot` has to have been called for the same segments, and `own` are the marks of that segment among those that
    /// it was given. The segment is cut at its marks that lie on it, and at each hot point whose pixel it meets.
    ///
    /// Returns `AllocError` where a growth is refused; some of the cuts may be appended then.
    pub fn append_cuts<C: WindingCount, D: Copy>(
        &mut self,
        segments: &[Segment<C, I, D>],
        index: usize,
        own: &[LineMark<I>],
        cuts: &mut Vec<LineMark<I>>,
    ) -> Result<(), AllocError>
        requires map { IsTrue (is_map (segments_of segments.now)) }
        requires in_range { AreInRange segments.now }
        requires known { KnowsHot (segments_of segments.now) self.old }
        requires index { index < length segments.now }
        requires own { AreMarksAt segments.now index own.now }
        ensures cuts { OnOk result ((added : List (LineMark I)) × (cuts.new.items ≡ cuts.old.items ++ added)
            × AreCutsAt segments.now index added) }
        ensures known { KnowsHot (segments_of segments.now) self.new }
    {
        let segment = segments[index].x_segment();
        if is_untouched(index, own, &self.closure.meetings) {
            return Ok(());
        }
        collect_along(&segment, own, &mut self.between)?;
        append_hot(
            &segment,
            index,
            &self.closure.meetings,
            &mut self.hot,
            &mut self.between,
        )?;
        if self.between.is_empty() {
            return Ok(());
        }
        self.between.sort()?;
        self.between.dedup();
        for point in &self.between {
            cuts.push(LineMark {
                index,
                point: *point,
            })?;
        }
        Ok(())
    }
}

/// Whether a segment has no marks, and is recorded to meet no hot points.
#[inline(always)]
fn is_untouched<I: OverlayInt>(index: usize, own: &[LineMark<I>], meetings: &Meetings<I>) -> bool
    ensures { result ≡ true → (own.now ≡ []) × (recorded meetings.now index ≡ Some []) }
{
    own.is_empty() && meetings.has_none(index)
}

/// How many marks in front have the index.
pub(crate) fn own_len<I: OverlayInt>(index: usize, marks: &[LineMark<I>]) -> usize
    ensures within { result ≤ length marks.now }
    ensures own { AllWithin (λ m. m.index ≡ index) marks.now 0 result }
    ensures later { result < length marks.now → HoldsAt (λ m. m.index ≢ index) marks.now result }
{
    for place in 0..marks.len() {
        if marks[place].index != index {
            return place;
        }
    }
    marks.len()
}

/// The ends of all segments.
fn collect_ends<C: WindingCount, I: OverlayInt, D: Copy>(
    segments: &[Segment<C, I, D>],
    points: &mut Vec<IntPoint<I>>,
) -> Result<(), AllocError>
    ensures { OnOk result (map (point_of I.whole) points.new.items ≡ ends (pairs_in segments.now)) }
{
    points.clear();
    points.reserve(segments.len().saturating_mul(2))?;
    for segment in segments {
        let ends = segment.x_segment();
        points.push(ends.a)?;
        points.push(ends.b)?;
    }
    Ok(())
}

/// Appends the points of those marks that lie on the segment that they mark to one list, and puts the others into another.
fn part_marks<C: WindingCount, I: OverlayInt, D: Copy>(
    segments: &[Segment<C, I, D>],
    marks: &[LineMark<I>],
    on: &mut Vec<IntPoint<I>>,
    off: &mut Vec<IntPoint<I>>,
) -> Result<(), AllocError>
    requires in_range { AreInRange segments.now }
    requires indices { All (λ m. m.index < length segments.now) marks.now }
    requires points { All (λ m. IsPointInRange I.whole I.MIN_COORD I.MAX_COORD m.point) marks.now }
    ensures on { OnOk result (map (point_of I.whole) on.new.items
        ≡ map (point_of I.whole) on.old.items ++ points_on I.whole (pairs_in segments.now) marks.now) }
    ensures off { OnOk result (map (point_of I.whole) off.new.items ≡ points_off I.whole (pairs_in segments.now) marks.now) }
{
    off.clear();
    for mark in marks {
        if lies_on(&segments[mark.index].x_segment(), mark.point) {
            on.push(mark.point)?;
        } else {
            off.push(mark.point)?;
        }
    }
    Ok(())
}

/// The marks of a segment that lie on it.
fn collect_along<I: OverlayInt>(
    segment: &XSegment<I>,
    own: &[LineMark<I>],
    between: &mut Vec<IntPoint<I>>,
) -> Result<(), AllocError>
    requires in_range { IsPairInRange I.whole I.MIN_COORD I.MAX_COORD segment.now }
    requires own { All (λ m. IsPointInRange I.whole I.MIN_COORD I.MAX_COORD m.point) own.now }
    ensures { OnOk result (map (point_of I.whole) between.new.items ≡ points_along I.whole (pair_of I.whole segment.now) own.now) }
{
    between.clear();
    for mark in own {
        if lies_on(segment, mark.point) {
            between.push(mark.point)?;
        }
    }
    Ok(())
}

/// Appends the hot points that a segment meets between its ends, from what is recorded of it, if that is there.
fn append_hot<I: OverlayInt>(
    segment: &XSegment<I>,
    index: usize,
    meetings: &Meetings<I>,
    hot: &mut PointFinder<I>,
    between: &mut Vec<IntPoint<I>>,
) -> Result<(), AllocError>
    requires in_range { IsPairInRange I.whole I.MIN_COORD I.MAX_COORD segment.now }
    requires ordered { IsTrue (is_ordered (pair_of I.whole segment.now)) }
    requires recorded { IsRecorded (pair_of I.whole segment.now) (points_in hot.old) meetings.now index }
    ensures met { OnOk result (AddsAllMet (pair_of I.whole segment.now) (points_in hot.old) (map (point_of I.whole) between.old.items)
        (map (point_of I.whole) between.new.items)) }
    ensures same { points_of hot.new ≡ points_of hot.old }
{
    match meetings.get(index) {
        Some(met) => append(between, met),
        None => hot.append_met(segment, between),
    }
}
