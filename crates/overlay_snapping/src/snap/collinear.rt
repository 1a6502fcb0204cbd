// Many segments that overlap along a line, split without a cut of each at the ends of all others: a walk along the line
// adds the counts between one end and the next. This project's own.
ghost use Rattle.std.specs.Prelude.{◌≡◌, ◌⊎◌, ◌==◌, ◌<◌, ◌^◌, ⊤, true, false, map, All, IsTrue, IsFalse, IfOk, IfSome};
ghost use Rattle.std.specs.List.{list_all};
ghost use Rattle.overlay_geometry.specs.Points.{point_lt, point_eq};
ghost use Rattle.overlay_geometry.specs.Meeting.{are_collinear};
ghost use Rattle.overlay_geometry.specs.InRange.{IsPointInRange, IsPairInRange};
ghost use Rattle.overlay_geometry.specs.PairOf.{pair_of};
ghost use Rattle.overlay_geometry.specs.PointOf.{point_of};
ghost use Rattle.overlay_base.specs.Windings.{is_valid};
ghost use Rattle.overlay_base.specs.ArrangedOf.{IsSplittable, AreInRange};
ghost use Rattle.overlay_base.specs.SegmentOf.{x_segment_of, winding_of, ends_of, segment_of, segments_of};
ghost use Rattle.overlay_snapping.specs.steps.LineWalks.{place, end_of, walk_of, Jumps, Steps, Comes, Adds, Takes, CanGoOn, AreEndsOf, HasOneValue};
ghost use Rattle.overlay_snapping.specs.steps.Resolved.{AreResolvedCut, IsSplitSettled, IsSplitExactly};

use crate::snap::batches::are_small;
use crate::snap::pixel::lies_on;
use overlay_base::overlay_core::edge_data::OverlayEdgeData;
use overlay_base::overlay_core::solver::Solver;
use overlay_base::segm::fault::Fault;
use overlay_base::segm::join::join_with_store;
use overlay_base::segm::segment::Segment;
use overlay_base::segm::winding::WindingCount;
use overlay_cuts::split::finder::PairFinder;
use overlay_cuts::split::pass::pass_at;
use overlay_geometry::geom::point::IntPoint;
use overlay_geometry::geom::triangle::Triangle;
use overlay_geometry::geom::x_segment::XSegment;
use overlay_geometry::num::OverlayInt;
use overlay_grid::split::fragment_memory::FragmentMemory;
use overlay_intersections::split::line_mark::LineMark;
use overlay_intersections::split::placing::Placing;
use overlay_tree::split::solver_tree::TreeBuffers;
use std::alloc::{AllocError, Global};

/// Lists that are shorter are split as they are.
const MIN_SEGMENTS: usize = 128;

/// How many lines the search for overlaps keeps apart.
const LINE_SLOTS: usize = 256;

/// A segment is deep if it overlaps the one that came so many before it on its line.
const DEPTH: usize = 4;

/// The pieces into which overlaps cut a segment, on the average, from which on overlaps are added up first.
const MIN_PIECES_PER_SEGMENT: usize = 8;

/// No segment: an index that no list has.
const NONE: usize = usize::MAX;

/// An end of a segment, with a number of the line on which the segment lies.
struct LineEnd<C: WindingCount, I: OverlayInt, D> {
    line: u64,
    segment: Segment<C, I, D>,
    starts: bool,
}

impl<C: WindingCount, I: OverlayInt, D: Copy> Clone for LineEnd<C, I, D> {
    ghost is_clone = { λ x y. y ≡ x };

    ghost is_infallible = { λ _. ⊤ };

    fn clone(&self) -> Result<LineEnd<C, I, D>, AllocError> {
        Ok(*self)
    }
}

impl<C: WindingCount, I: OverlayInt, D: Copy> Copy for LineEnd<C, I, D> {}

impl<C: WindingCount, I: OverlayInt, D: Copy> LineEnd<C, I, D> {
    /// Where it is.
    fn point(&self) -> IntPoint<I>
        ensures { point_of I.whole result ≡ place (end_of self.now) }
    {
        let XSegment { a, b } = self.segment.x_segment();
        if self.starts { a } else { b }
    }
}

/// A walk along lines: what runs on from the last end.
#[derive(Drop)]
struct LineWalk<C: WindingCount, I: OverlayInt, D> {
    farthest: Segment<C, I, D>,
    point: IntPoint<I>,
    count: C,
    running: usize,
    is_pending: bool,
    is_cut: bool,
    covered: usize,
    pieces: Vec<Segment<C, I, D>>,
}

impl<C: WindingCount, I: OverlayInt, D: OverlayEdgeData<C>> LineWalk<C, I, D> {
    /// Goes on to the next end. Returns false where it is not one on the line, or behind the walk, or the walk has to be
    /// given up for another reason.
    fn take(&mut self, end: &LineEnd<C, I, D>, store: &mut D::Store) -> Result<bool, AllocError>
        requires can_go_on { CanGoOn self.old }
        requires in_range { IsPairInRange I.whole I.MIN_COORD I.MAX_COORD (x_segment_of end.now.segment) }
        requires valid { IsTrue (is_valid (winding_of end.now.segment)) }
        ensures takes { IfOk result (λ goes_on. IsTrue goes_on → Takes (walk_of self.old) (end_of end.now) (walk_of self.new)) }
        ensures goes_on { IfOk result (λ goes_on. IsTrue goes_on → CanGoOn self.new) }
    {
        if !self.come(end, store)? {
            return Ok(false);
        }
        Ok(self.add(end))
    }

    /// Comes to an end, if it is not there.
    fn come(&mut self, end: &LineEnd<C, I, D>, store: &mut D::Store) -> Result<bool, AllocError>
        requires can_go_on { CanGoOn self.old }
        requires in_range { IsPairInRange I.whole I.MIN_COORD I.MAX_COORD (x_segment_of end.now.segment) }
        ensures comes { IfOk result (λ goes_on. IsTrue goes_on → Comes (walk_of self.old) (end_of end.now) (walk_of self.new)) }
        ensures goes_on { IfOk result (λ goes_on. IsTrue goes_on → CanGoOn self.new) }
    {
        let is_along = are_collinear(&self.farthest.x_segment(), &end.segment.x_segment());
        let next = end.point();
        if is_along && is_same(self.point, next) {
            return Ok(true);
        }
        if self.running == 0 {
            return Ok(self.jump(end));
        }
        if !is_along {
            return Ok(false);
        }
        self.step(next, store)
    }

    /// Goes on where nothing runs.
    fn jump(&mut self, end: &LineEnd<C, I, D>) -> bool
        requires can_go_on { CanGoOn self.old }
        requires in_range { IsPairInRange I.whole I.MIN_COORD I.MAX_COORD (x_segment_of end.now.segment) }
        requires nothing_runs { self.old.running ≡ 0 }
        ensures jumps { IsTrue result → Jumps (walk_of self.old) (end_of end.now) (walk_of self.new) }
        ensures goes_on { IsTrue result → CanGoOn self.new }
    {
        if self.is_pending || self.count.is_not_empty() {
            return false;
        }
        self.farthest = end.segment;
        self.point = end.point();
        self.is_pending = true;
        true
    }

    /// Makes the piece from the last end to the next. Returns false where its count is empty.
    fn step(&mut self, next: IntPoint<I>, store: &mut D::Store) -> Result<bool, AllocError>
        requires can_go_on { CanGoOn self.old }
        requires in_range { IsPointInRange I.whole I.MIN_COORD I.MAX_COORD next }
        ensures steps { IfOk result (λ goes_on. IsTrue goes_on → Steps (walk_of self.old) (point_of I.whole next) (walk_of self.new)) }
        ensures goes_on { IfOk result (λ goes_on. IsTrue goes_on → CanGoOn self.new) }
    {
        let line = self.farthest.x_segment();
        let is_ahead = is_before(self.point, next);
        if !is_ahead || !lies_on(&line, self.point) || !lies_on(&line, next) {
            return Ok(false);
        }
        if !self.count.is_valid() || !self.count.is_not_empty() {
            return Ok(false);
        }
        let data = self.farthest.edge_data();
        let piece = Segment::create_and_validate_with_data(
            self.point, next, self.count, data, store,
        );
        self.pieces.push(piece)?;
        self.is_pending = false;
        self.is_cut |= is_before(next, line.b);
        self.covered = self.covered.saturating_add(self.running);
        self.point = next;
        Ok(true)
    }

    /// Adds what starts at an end, or takes what ends there.
    fn add(&mut self, end: &LineEnd<C, I, D>) -> bool
        requires can_go_on { CanGoOn self.old }
        requires in_range { IsPairInRange I.whole I.MIN_COORD I.MAX_COORD (x_segment_of end.now.segment) }
        requires valid { IsTrue (is_valid (winding_of end.now.segment)) }
        ensures adds { IsTrue result → Adds (walk_of self.old) (end_of end.now) (walk_of self.new) }
        ensures goes_on { IsTrue result → CanGoOn self.new }
    {
        if end.starts {
            self.start(&end.segment)
        } else {
            self.stop(&end.segment)
        }
    }

    /// Adds a segment that starts.
    fn start(&mut self, segment: &Segment<C, I, D>) -> bool
        requires can_go_on { CanGoOn self.old }
        requires in_range { IsPairInRange I.whole I.MIN_COORD I.MAX_COORD (x_segment_of segment.now) }
        ensures adds { IsTrue result
            → Adds (walk_of self.old) (record { segment = segment_of segment.now; starts = true }) (walk_of self.new) }
        ensures goes_on { IsTrue result → CanGoOn self.new }
    {
        let Ok(sum) = self.count.add(segment.count()) else {
            return false;
        };
        let Some(running) = self.running.checked_add(1) else {
            return false;
        };
        self.count = sum;
        self.running = running;
        self.farthest = farther(self.farthest, *segment);
        true
    }

    /// Takes a segment that ends.
    fn stop(&mut self, segment: &Segment<C, I, D>) -> bool
        requires can_go_on { CanGoOn self.old }
        requires valid { IsTrue (is_valid (winding_of segment.now)) }
        ensures adds { IsTrue result
            → Adds (walk_of self.old) (record { segment = segment_of segment.now; starts = false }) (walk_of self.new) }
        ensures goes_on { IsTrue result → CanGoOn self.new }
    {
        let Ok(sum) = self.count.add(segment.count().invert()) else {
            return false;
        };
        let Some(running) = self.running.checked_sub(1) else {
            return false;
        };
        self.count = sum;
        self.running = running;
        true
    }
}

/// The one of two segments that ends later.
fn farther<C: WindingCount, I: OverlayInt, D: Copy>(
    one: Segment<C, I, D>,
    other: Segment<C, I, D>,
) -> Segment<C, I, D>
    ensures { (result ≡ one) ⊎ (result ≡ other) }
{
    if is_before(one.x_segment().b, other.x_segment().b) {
        other
    } else {
        one
    }
}

/// Whether two segments lie on one line.
fn are_collinear<I: OverlayInt>(one: &XSegment<I>, other: &XSegment<I>) -> bool
    requires one { IsPairInRange I.whole I.MIN_COORD I.MAX_COORD one.now }
    requires other { IsPairInRange I.whole I.MIN_COORD I.MAX_COORD other.now }
    ensures { result ≡ are_collinear (pair_of I.whole one.now) (pair_of I.whole other.now) }
{
    Triangle::is_line(one.a, one.b, other.a) && Triangle::is_line(one.a, one.b, other.b)
}

/// Whether two points are one.
fn is_same<I: OverlayInt>(point: IntPoint<I>, other: IntPoint<I>) -> bool
    ensures { result ≡ point_eq (point_of I.whole point) (point_of I.whole other) }
{
    point == other
}

/// Whether a point comes before another.
fn is_before<I: OverlayInt>(point: IntPoint<I>, other: IntPoint<I>) -> bool
    ensures { result ≡ point_lt (point_of I.whole point) (point_of I.whole other) }
{
    point < other
}

/// Whether a count has a mask: if not, it and its inverse add up to nothing.
fn has_mask<C: WindingCount>(count: C) -> bool
    requires { IsTrue (is_valid (C.winding count)) }
    ensures { IsFalse result → (C.winding count).mask ≡ 0 }
{
    match count.add(count.invert()) {
        Ok(sum) => sum.is_not_empty(),
        Err(_) => true,
    }
}

/// The ends of all segments, line by line and in order on each.
fn line_ends<C: WindingCount, I: OverlayInt, D: Copy>(
    list: &[Segment<C, I, D>],
    alloc: Global,
) -> Result<Vec<LineEnd<C, I, D>>, AllocError>
    ensures { IfOk result (λ ends. AreEndsOf (segments_of list.now) (map end_of ends.items)) }
{
    let mut ends = Vec::new(alloc);
    for segment in list {
        let line = line_number(&segment.x_segment());
        ends.push(LineEnd {
            line,
            segment: *segment,
            starts: true,
        })?;
        ends.push(LineEnd {
            line,
            segment: *segment,
            starts: false,
        })?;
    }
    ends.sort_by_key(|end| (end.line, end.point()))?;
    Ok(ends)
}

/// The pieces between neighboring ends on each line, with what all segments that run there count together. `None` where
/// the walk was given up, or few pieces lie one over another.
fn pieces_between<C: WindingCount, I: OverlayInt, D: OverlayEdgeData<C>>(
    list: &[Segment<C, I, D>],
    alloc: Global,
    store: &mut D::Store,
) -> Result<Option<Vec<Segment<C, I, D>>>, AllocError>
    requires { IsSplittable list.now }
    ensures resolved { IfOk result (λ found. IfSome found (λ pieces. AreResolvedCut (segments_of list.now) (segments_of pieces.items))) }
    ensures splittable { IfOk result (λ found. IfSome found (λ pieces. IsSplittable pieces.items)) }
{
    if has_some_mask(list) {
        return Ok(None);
    }
    let ends = line_ends(list, alloc)?;
    let Some(first) = ends.first() else {
        return Ok(None);
    };
    let count = first.segment.count();
    let Ok(none) = count.add(count.invert()) else {
        return Ok(None);
    };
    let mut walk = LineWalk {
        farthest: first.segment,
        point: first.point(),
        count: none,
        running: 0,
        is_pending: true,
        is_cut: false,
        covered: 0,
        pieces: Vec::new(alloc),
    };
    for end in ends.iter() {
        if !walk.take(end, store)? {
            return Ok(None);
        }
    }
    if walk.running > 0 || walk.is_pending || walk.count.is_not_empty() {
        return Ok(None);
    }
    if !walk.is_cut || walk.covered / MIN_PIECES_PER_SEGMENT < list.len() {
        return Ok(None);
    }
    Ok(Some(walk.pieces))
}

/// A number of the line on which two points lie, the same for all pairs of points on it.
fn line_number<I: OverlayInt>(ends: &XSegment<I>) -> u64 {
    let (x, y) = (ends.a.x.to_wide(), ends.a.y.to_wide());
    let dx = ends.b.x.to_wide().wrapping_sub(x);
    let dy = ends.b.y.to_wide().wrapping_sub(y);
    let unit = common_divisor(dx.wrapping_abs(), dy.wrapping_abs()).max(1);
    let (dx, dy) = (dx.wrapping_div(unit), dy.wrapping_div(unit));
    let offset = dx.wrapping_mul(y).wrapping_sub(dy.wrapping_mul(x));
    mixed(dx, 0x9e37_79b9_7f4a_7c15)
        ^ mixed(dy, 0xc2b2_ae3d_27d4_eb4f)
        ^ mixed(offset, 0x1656_67b1_9e37_79f9)
}

/// A number times a factor, with its upper bits in the lower ones.
fn mixed(number: i64, factor: u64) -> u64 {
    let sign = u64::from(number < 0);
    let product = number
        .unsigned_abs()
        .wrapping_mul(2)
        .wrapping_add(sign)
        .wrapping_mul(factor);
    product ^ (product >> 29)
}

/// The greatest common divisor of two numbers that are not negative.
fn common_divisor(first: i64, second: i64) -> i64 {
    let (mut first, mut second) = (first, second);
    for _ in 0..96_u32 {
        if second == 0 {
            return first;
        }
        let rest = first.wrapping_rem(second);
        first = second;
        second = rest;
    }
    first
}

/// Whether many segments overlap one that comes some before them on their line. Of slanted lines it sees those whose
/// segments start at one point.
fn are_many_deep<C: WindingCount, I: OverlayInt, D: Copy>(list: &[Segment<C, I, D>]) -> bool
    requires { AreInRange list.now }
{
    if list.len() < MIN_SEGMENTS {
        return false;
    }
    let mut recent = [NONE; LINE_SLOTS * DEPTH];
    let mut turn = [0_u8; LINE_SLOTS];
    let mut deep = 0_u64;
    for index in 0..list.len() {
        let ends = list[index].x_segment();
        let slot = axis_slot(&ends);
        let earlier = if slot < LINE_SLOTS {
            let place = slot * DEPTH + usize::from(turn[slot]) % DEPTH;
            turn[slot] = turn[slot].wrapping_add(1);
            let earlier = recent[place];
            recent[place] = index;
            earlier
        } else {
            index.wrapping_sub(DEPTH)
        };
        if earlier < index && overlaps(&list[earlier], &list[index]) {
            deep = deep.saturating_add(1);
        }
    }
    deep.saturating_mul(deep) / 16 >= list.len() as u64
}

/// The slot of a line along an axis; of another, the number of slots.
fn axis_slot<I: OverlayInt>(ends: &XSegment<I>) -> usize {
    let (number, factor) = if ends.a.y == ends.b.y {
        (ends.a.y, 0x9e37_79b9_7f4a_7c15)
    } else if ends.a.x == ends.b.x {
        (ends.a.x, 0xc2b2_ae3d_27d4_eb4f)
    } else {
        return LINE_SLOTS;
    };
    (mixed(number.to_wide(), factor) >> 32) as usize % LINE_SLOTS
}

/// Whether some count has a mask.
fn has_some_mask<C: WindingCount, I: OverlayInt, D: Copy>(list: &[Segment<C, I, D>]) -> bool
    requires { All (λ s. IsTrue (is_valid (winding_of s))) list.now }
    ensures { IsFalse result → IsTrue (list_all (λ s. s.count.mask == 0) (segments_of list.now)) }
{
    for segment in list {
        if has_mask(segment.count()) {
            return true;
        }
    }
    false
}

/// Whether a segment overlaps one that starts no later.
fn overlaps<C: WindingCount, I: OverlayInt, D: Copy>(
    earlier: &Segment<C, I, D>,
    segment: &Segment<C, I, D>,
) -> bool
    requires earlier { IsPairInRange I.whole I.MIN_COORD I.MAX_COORD (x_segment_of earlier.now) }
    requires segment { IsPairInRange I.whole I.MIN_COORD I.MAX_COORD (x_segment_of segment.now) }
{
    let (earlier, ends) = (earlier.x_segment(), segment.x_segment());
    is_before(ends.a, earlier.b) && are_collinear(&earlier, &ends)
}

/// A joined list, split where many of its segments overlap along lines and no crossing has to be rounded; some segment is
/// cut then. `None` where that is not so, counts cancel between two ends, the data may have more than one value, counts are
/// large, or memory is refused.
pub(crate) fn split_collinear<C: WindingCount, I: OverlayInt, D: OverlayEdgeData<C>>(
    list: &[Segment<C, I, D>],
    alloc: Global,
    solver: &Solver,
    grid: &mut FragmentMemory<I>,
    tree: &mut TreeBuffers<I>,
    path: &mut Vec<IntPoint<I>>,
) -> Option<Vec<Segment<C, I, D>>>
    requires { IsSplittable list.now }
    ensures split { IfSome result (λ split. IsSplitExactly (segments_of list.now) (segments_of split.items)) }
    ensures one_value { IfSome result (λ split. HasOneValue D D.Store) }
{
    if !D::has_one_value() || !are_many_deep(list) || !are_small(list) {
        return None;
    }
    let mut store = D::Store::default();
    match split_pieces(list, alloc, solver, grid, tree, path, &mut store) {
        Ok(found) => found,
        Err(_) => None,
    }
}

/// The pieces between ends on lines, split where they meet. `None` where a crossing has to be rounded, or there are no
/// such pieces.
fn split_pieces<C: WindingCount, I: OverlayInt, D: OverlayEdgeData<C>>(
    list: &[Segment<C, I, D>],
    alloc: Global,
    solver: &Solver,
    grid: &mut FragmentMemory<I>,
    tree: &mut TreeBuffers<I>,
    path: &mut Vec<IntPoint<I>>,
    store: &mut D::Store,
) -> Result<Option<Vec<Segment<C, I, D>>>, Fault>
    requires { IsSplittable list.now }
    ensures { IfOk result (λ found. IfSome found (λ split. IsSplitSettled (segments_of list.now) (segments_of split.items))) }
{
    let Some(mut pieces) = pieces_between(list, alloc, store)? else {
        return Ok(None);
    };
    let count = pieces.len();
    let repeated = join_with_store(&mut pieces, store)?;
    if repeated || pieces.len() < count {
        return Ok(None);
    }
    let mut marks = Vec::new(alloc);
    let mut finder = PairFinder::new(alloc, solver, pieces.as_slice(), grid)?;
    let is_rounded = finder.find_marks(pieces.as_slice(), Placing::Settling, tree, &mut marks)?;
    finder.give_back(grid);
    if is_rounded {
        return Ok(None);
    }
    pass_at(&mut pieces, marks, path, store)?;
    Ok(Some(pieces))
}
