// Which points are hot, from the points to which crossings are rounded. This project's own.
ghost use Rattle.std.specs.Prelude.{◌≡◌, ◌↔◌, ◌<◌, [], true, IsTrue, All, Contains, length, map, IfOk, OnOk, IsSortedByKey};
ghost use Rattle.std.specs.List.{list_all};
ghost use Rattle.overlay_geometry.specs.Points.{Point, point_cmp, is_ordered};
ghost use Rattle.overlay_geometry.specs.PointOf.{point_of};
ghost use Rattle.overlay_geometry.specs.PairOf.{pair_of};
ghost use Rattle.overlay_geometry.specs.Coordinates.{is_point_in_range};
ghost use Rattle.overlay_geometry.specs.InRange.{IsPairInRange};
ghost use Rattle.overlay_base.specs.ArrangedOf.{AreInRange};
ghost use Rattle.overlay_base.specs.SegmentOf.{pairs_in};
ghost use Rattle.overlay_snapping.specs.HotOf.{AreHotPoints};
ghost use Rattle.overlay_snapping.specs.PointFinderOf.{points_of, points_in};
ghost use Rattle.overlay_snapping.specs.steps.Met.{AddsAllMet};
ghost use Rattle.overlay_snapping.specs.steps.Recorded.{AreRecorded};
ghost use Rattle.overlay_snapping.specs.steps.Closing.{IsInput, PassesSome, AreMovers, ArePassed, ArePassedBy, AddsPassed, AreLeft};

use crate::snap::cells::CellSize;
use crate::snap::meetings::Meetings;
use crate::snap::pixel::lies_on;
use crate::snap::point_finder::PointFinder;
use overlay_base::segm::segment::Segment;
use overlay_base::segm::winding::WindingCount;
use overlay_geometry::geom::point::IntPoint;
use overlay_geometry::geom::x_segment::XSegment;
use overlay_geometry::num::OverlayInt;
use std::alloc::{AllocError, Global};

/// Finds the hot points, and keeps its memory from call to call.
#[derive(Drop)]
pub(crate) struct Closure<I: OverlayInt> {
    /// Which hot points the first segments meet.
    pub(crate) meetings: Meetings<I>,
    /// The segments that pass by a point that is found to be hot.
    movers: Vec<usize>,
    /// The ends and whole crossings.
    others: PointFinder<I>,
    /// Those by which movers pass, maybe with repeats.
    near: Vec<IntPoint<I>>,
    /// Those of them that were not found to be hot before.
    passed: Vec<IntPoint<I>>,
    met: Vec<IntPoint<I>>,
}

/// How many times as large as segments cells are where hot points are sought, as a power of two. They are larger where there
/// are fewer points than segments.
const DOUBLED_FOR_HOT: u32 = 3;

/// The same of cells where other points are sought: there are more of these.
const DOUBLED_FOR_OTHERS: u32 = 2;

/// How many times as many points as segments are recorded, before no more are.
const RECORDED: usize = 2;

impl<I: OverlayInt> Closure<I> {
    /// A closure that holds no memory yet.
    pub(crate) fn new(alloc: Global) -> Self {
        Closure {
            meetings: Meetings::new(alloc),
            movers: Vec::new(alloc),
            others: PointFinder::new(alloc),
            near: Vec::new(alloc),
            passed: Vec::new(alloc),
            met: Vec::new(alloc),
        }
    }

    /// Fills a finder with all hot points, and records which of them the first segments meet. Those to which crossings are
    /// rounded are given, and so are the ends and the whole crossings.
    ///
    /// A segment that passes by a hot point moves, and the ends and whole crossings by which it passes are hot. That is
    /// repeated until no more are found; nearly always there are none.
    pub(crate) fn close<C: WindingCount, D: Copy>(
        &mut self,
        segments: &[Segment<C, I, D>],
        size: CellSize,
        given: &[IntPoint<I>],
        found: &mut Vec<IntPoint<I>>,
        hot: &mut PointFinder<I>,
    ) -> Result<(), AllocError>
        requires in_range { AreInRange segments.now }
        requires points { list_all (is_point_in_range (I.whole I.MIN_COORD) (I.whole I.MAX_COORD))
            (map (point_of I.whole) found.old.items) ≡ true }
        requires given { list_all (is_point_in_range (I.whole I.MIN_COORD) (I.whole I.MAX_COORD))
            (map (point_of I.whole) given.now) ≡ true }
        requires input { IsInput (pairs_in segments.now) (map (point_of I.whole) found.old.items) (map (point_of I.whole) given.now) }
        ensures hot { OnOk result (AreHotPoints (pairs_in segments.now) (points_in hot.new)) }
        ensures recorded { OnOk result (AreRecorded (pairs_in segments.now) (points_in hot.new) self.new.meetings) }
    {
        self.find_passed(segments, size, given, found, hot)?;
        while !self.passed.is_empty() {
            found.extend_from_slice(&self.passed)?;
            self.find_passed(segments, size, given, found, hot)?;
        }
        Ok(())
    }

    /// Fills a finder with the points that are found to be hot, and finds the other given points by which segments pass that
    /// pass by one of these.
    fn find_passed<C: WindingCount, D: Copy>(
        &mut self,
        segments: &[Segment<C, I, D>],
        size: CellSize,
        given: &[IntPoint<I>],
        found: &mut Vec<IntPoint<I>>,
        hot: &mut PointFinder<I>,
    ) -> Result<(), AllocError>
        requires in_range { AreInRange segments.now }
        requires points { list_all (is_point_in_range (I.whole I.MIN_COORD) (I.whole I.MAX_COORD))
            (map (point_of I.whole) found.old.items) ≡ true }
        requires given { list_all (is_point_in_range (I.whole I.MIN_COORD) (I.whole I.MAX_COORD))
            (map (point_of I.whole) given.now) ≡ true }
        ensures same { OnOk result ((c : Point) → Contains (map (point_of I.whole) found.new.items) c
            ↔ Contains (map (point_of I.whole) found.old.items) c) }
        ensures hot { OnOk result ((c : Point) → Contains (points_in hot.new) c
            ↔ Contains (map (point_of I.whole) found.new.items) c) }
        ensures passed { OnOk result (ArePassed (pairs_in segments.now) (map (point_of I.whole) found.new.items)
            (map (point_of I.whole) given.now) (map (point_of I.whole) self.new.passed.items)) }
        ensures recorded { OnOk result (AreRecorded (pairs_in segments.now) (points_in hot.new) self.new.meetings) }
    {
        fill_hot(found, segments.len(), size, hot)?;
        self.meetings.clear(segments.len())?;
        collect_movers(
            segments,
            hot,
            &mut self.met,
            &mut self.meetings,
            &mut self.movers,
        )?;
        self.others.fill(given, size.doubled(DOUBLED_FOR_OTHERS))?;
        let (movers, others) = (self.movers.as_slice(), &mut self.others);
        collect_passed(segments, movers, others, &mut self.met, &mut self.near)?;
        collect_new(&self.near, found, &mut self.passed)
    }
}

/// Fills a finder with points, in larger cells the fewer they are beside the segments, unless that makes it crowded.
fn fill_hot<I: OverlayInt>(
    points: &[IntPoint<I>],
    segments: usize,
    size: CellSize,
    hot: &mut PointFinder<I>,
) -> Result<(), AllocError>
    requires in_range { IsTrue (list_all (is_point_in_range (I.whole I.MIN_COORD) (I.whole I.MAX_COORD))
        (map (point_of I.whole) points.now)) }
    ensures same { OnOk result ((c : Point) → Contains (points_in hot.new) c ↔ Contains (map (point_of I.whole) points.now) c) }
{
    let size = size.doubled(DOUBLED_FOR_HOT);
    let fewer = (segments / points.len().max(1)).max(1).ilog2() / 2;
    hot.fill(points, size.doubled(fewer))?;
    if fewer > 0 && hot.grid.is_crowded() {
        return hot.fill(points, size);
    }
    Ok(())
}

/// The indices of the segments that pass by a point of a finder. What the first segments meet is recorded.
fn collect_movers<C: WindingCount, I: OverlayInt, D: Copy>(
    segments: &[Segment<C, I, D>],
    hot: &mut PointFinder<I>,
    met: &mut Vec<IntPoint<I>>,
    meetings: &mut Meetings<I>,
    movers: &mut Vec<usize>,
) -> Result<(), AllocError>
    requires in_range { AreInRange segments.now }
    requires none { length meetings.old.parts.items ≡ 0 }
    ensures recorded { OnOk result (AreRecorded (pairs_in segments.now) (points_in hot.old) meetings.new) }
    ensures movers { OnOk result (AreMovers (pairs_in segments.now) (points_in hot.old) movers.new.items) }
    ensures same { points_of hot.new ≡ points_of hot.old }
{
    movers.clear();
    let most = segments.len().saturating_mul(RECORDED);
    for index in 0..segments.len() {
        if passes_some(&segments[index].x_segment(), hot, met)? {
            movers.push(index)?;
        }
        if meetings.len() == index && meetings.points_len() < most {
            meetings.push(met)?;
        }
    }
    Ok(())
}

/// Finds the points of a finder that a segment meets between its ends. Returns whether it passes by one: whether one lies
/// off it.
fn passes_some<I: OverlayInt>(
    segment: &XSegment<I>,
    points: &mut PointFinder<I>,
    met: &mut Vec<IntPoint<I>>,
) -> Result<bool, AllocError>
    requires in_range { IsPairInRange I.whole I.MIN_COORD I.MAX_COORD segment.now }
    requires ordered { IsTrue (is_ordered (pair_of I.whole segment.now)) }
    ensures met { OnOk result (AddsAllMet (pair_of I.whole segment.now) (points_in points.old) [] (map (point_of I.whole) met.new.items)) }
    ensures passes { IfOk result (λ flag. IsTrue flag ↔ PassesSome (points_in points.old) (pair_of I.whole segment.now)) }
    ensures same { points_of points.new ≡ points_of points.old }
{
    met.clear();
    points.append_met(segment, met)?;
    for point in &*met {
        if !lies_on(segment, *point) {
            return Ok(true);
        }
    }
    Ok(false)
}

/// The points of a finder by which some segments pass.
fn collect_passed<C: WindingCount, I: OverlayInt, D: Copy>(
    segments: &[Segment<C, I, D>],
    movers: &[usize],
    points: &mut PointFinder<I>,
    met: &mut Vec<IntPoint<I>>,
    passed: &mut Vec<IntPoint<I>>,
) -> Result<(), AllocError>
    requires in_range { AreInRange segments.now }
    requires within { All (λ i. i < length segments.now) movers.now }
    ensures { OnOk result (ArePassedBy (pairs_in segments.now) (points_in points.old)
        movers.now (map (point_of I.whole) passed.new.items)) }
{
    passed.clear();
    for index in movers {
        append_passed(&segments[*index].x_segment(), points, met, passed)?;
        drop_repeats(passed, points.most())?;
    }
    Ok(())
}

/// Appends the points of a finder by which a segment passes.
fn append_passed<I: OverlayInt>(
    segment: &XSegment<I>,
    points: &mut PointFinder<I>,
    met: &mut Vec<IntPoint<I>>,
    passed: &mut Vec<IntPoint<I>>,
) -> Result<(), AllocError>
    requires in_range { IsPairInRange I.whole I.MIN_COORD I.MAX_COORD segment.now }
    requires ordered { IsTrue (is_ordered (pair_of I.whole segment.now)) }
    ensures passed { OnOk result (AddsPassed (pair_of I.whole segment.now) (points_in points.old)
        (map (point_of I.whole) passed.old.items) (map (point_of I.whole) passed.new.items)) }
    ensures same { points_of points.new ≡ points_of points.old }
{
    met.clear();
    points.append_met(segment, met)?;
    for point in &*met {
        if !lies_on(segment, *point) {
            passed.push(*point)?;
        }
    }
    Ok(())
}

/// Drops repeats from points, where there are more than so many.
fn drop_repeats<I: OverlayInt>(points: &mut Vec<IntPoint<I>>, most: usize) -> Result<(), AllocError>
    ensures { OnOk result ((c : Point) → Contains (map (point_of I.whole) points.new.items) c
        ↔ Contains (map (point_of I.whole) points.old.items) c) }
{
    if points.len() <= most {
        return Ok(());
    }
    points.sort()?;
    points.dedup();
    Ok(())
}

/// Those of some points that are not found already. The points found are put in order, if there is anything to look up.
fn collect_new<I: OverlayInt>(
    points: &[IntPoint<I>],
    found: &mut Vec<IntPoint<I>>,
    new: &mut Vec<IntPoint<I>>,
) -> Result<(), AllocError>
    ensures left { OnOk result (AreLeft (map (point_of I.whole) found.old.items) (map (point_of I.whole) points.now)
        (map (point_of I.whole) new.new.items)) }
    ensures same { (c : Point) → Contains (map (point_of I.whole) found.new.items) c ↔ Contains (map (point_of I.whole) found.old.items) c }
{
    new.clear();
    if points.is_empty() {
        return Ok(());
    }
    found.sort()?;
    for point in points {
        if !is_among(found, point) {
            new.push(*point)?;
        }
    }
    Ok(())
}

/// Whether a point is one of these points, which are in order.
fn is_among<I: OverlayInt>(sorted: &[IntPoint<I>], point: &IntPoint<I>) -> bool
    requires sorted { IsSortedByKey (point_of I.whole) point_cmp sorted.now }
    ensures { IsTrue result ↔ Contains (map (point_of I.whole) sorted.now) (point_of I.whole point.now) }
{
    sorted.binary_search(point).is_ok()
}
