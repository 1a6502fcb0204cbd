// The segments that a pass has to look at again, after one that made few marks: those near a segment that was cut. Any
// two others are apart. This project's own.
ghost use Rattle.std.specs.Prelude.{◌≡◌, ◌<◌, ◌≤◌, ◌+◌, ◌<ℤ◌, false, IfOk, IfErr, IfSome, OnOk, All, length, map, filter, IsSortedByKey, IsTrue};
ghost use Rattle.std.specs.List.{AllWithin};
ghost use Rattle.overlay_base.specs.declared.segm.fault.Fault.TheVariants.{Memory};
ghost use Rattle.overlay_base.specs.SegmentOf.{ends_of, pairs_in};
ghost use Rattle.overlay_geometry.specs.PairOf.{pair_of};
ghost use Rattle.overlay_geometry.specs.PointOf.{point_of};
ghost use Rattle.overlay_geometry.specs.Points.{Point, is_ordered, pair_cmp};
ghost use Rattle.overlay_geometry.specs.RangeOf.{rect_of};
ghost use Rattle.overlay_geometry.specs.Ranges.{do_rects_meet};
ghost use Rattle.overlay_intersections.specs.MarkOf.{marks_of, mark_points_of};
ghost use Rattle.overlay_cuts.specs.CutOf.{AreCutMarksOf, ForMarks};
ghost use Rattle.overlay_split.specs.steps.ChangedBoxes.{AreAround, AreFromLeft, LiesIn, LiesInWith, box_of, is_near, meets_one, near_from, rects_of, renamed};

use overlay_base::segm::fault::Fault;
use overlay_base::segm::segment::Segment;
use overlay_base::segm::winding::WindingCount;
use overlay_cuts::split::cut::index_len;
use overlay_geometry::geom::point::IntPoint;
use overlay_geometry::geom::rect::IntRect;
use overlay_geometry::geom::x_segment::XSegment;
use overlay_geometry::num::OverlayInt;
use overlay_intersections::split::line_mark::LineMark;
use std::alloc::Global;

/// The next pass looks only at what changed where fewer than one segment in so many has a mark.
const FEW_CHANGED: usize = 32;

/// Some segments of a list, in order, each with its index there.
#[derive(Drop)]
pub(crate) struct Part<C: WindingCount, I: OverlayInt, D: Copy> {
    /// The segments.
    pub(crate) segments: Vec<Segment<C, I, D>>,
    /// Their indexes in the list, which rise.
    pub(crate) indexes: Vec<usize>,
}

/// A rectangle around each segment that has marks, with its marks, where these are few; the rectangles are in order of
/// their left borders. `None` where they are many.
///
/// Returns `Fault::Memory` where a growth is refused.
pub(crate) fn changed_boxes<C: WindingCount, I: OverlayInt, D: Copy>(
    alloc: Global,
    segments: &[Segment<C, I, D>],
    marks: &[LineMark<I>],
) -> Result<Option<Vec<IntRect<I>>>, Fault>
    requires marks { AreCutMarksOf segments.now marks.now }
    ensures around { IfOk result (λ found. IfSome found (λ boxes.
        ForMarks segments.now marks.now (λ on. AreAround on (pairs_in segments.now) (rects_of I.whole boxes.items)))) }
    ensures from_left { IfOk result (λ found. IfSome found (λ boxes. AreFromLeft (rects_of I.whole boxes.items))) }
    ensures fault { IfErr result (λ fault. fault ≡ Memory) }
{
    if marks.len() >= segments.len() / FEW_CHANGED {
        return Ok(None);
    }
    let mut boxes = boxes_around(alloc, segments, marks)?;
    boxes.sort_by_key(|rect| rect.min_x)?;
    Ok(Some(boxes))
}

/// The same in order of the segments, however many there are.
fn boxes_around<C: WindingCount, I: OverlayInt, D: Copy>(
    alloc: Global,
    segments: &[Segment<C, I, D>],
    marks: &[LineMark<I>],
) -> Result<Vec<IntRect<I>>, Fault>
    requires marks { AreCutMarksOf segments.now marks.now }
    ensures around { IfOk result (λ boxes.
        ForMarks segments.now marks.now (λ on. AreAround on (pairs_in segments.now) (rects_of I.whole boxes.items))) }
    ensures fault { IfErr result (λ fault. fault ≡ Memory) }
{
    let mut boxes = Vec::new(alloc);
    let mut rest = marks;
    while let Some(first) = rest.first() {
        let index = first.index;
        let (own, later) = rest.split_at(index_len(index, rest));
        boxes.push(box_around(&segments[index].x_segment(), own))?;
        rest = later;
    }
    Ok(boxes)
}

/// The least rectangle around a segment and some marks.
fn box_around<I: OverlayInt>(segment: &XSegment<I>, marks: &[LineMark<I>]) -> IntRect<I>
    requires { IsTrue (is_ordered (pair_of I.whole segment.now)) }
    ensures { LiesInWith (rect_of I.whole result) (pair_of I.whole segment.now) (mark_points_of I.whole marks.now) }
{
    let mut rect = box_of(segment);
    for place in 0..marks.len() {
        rect = widened(&rect, marks[place].point);
    }
    rect
}

/// The least rectangle around a segment.
fn box_of<I: OverlayInt>(segment: &XSegment<I>) -> IntRect<I>
    ensures { rect_of I.whole result ≡ box_of (pair_of I.whole segment.now) }
{
    let heights = segment.y_range();
    IntRect {
        min_x: segment.a.x,
        max_x: segment.b.x,
        min_y: heights.min,
        max_y: heights.max,
    }
}

/// The least rectangle around another and a point.
fn widened<I: OverlayInt>(rect: &IntRect<I>, point: IntPoint<I>) -> IntRect<I>
    ensures point { LiesIn (rect_of I.whole result) (point_of I.whole point) }
    ensures others { (p : Point) → LiesIn (rect_of I.whole rect.now) p → LiesIn (rect_of I.whole result) p }
{
    IntRect {
        min_x: rect.min_x.min(point.x),
        max_x: rect.max_x.max(point.x),
        min_y: rect.min_y.min(point.y),
        max_y: rect.max_y.max(point.y),
    }
}

/// The segments whose boxes meet a rectangle, of a list that is sorted and of rectangles in order of their left borders.
/// `None` where finding them takes more comparisons than there are segments.
///
/// Returns `Fault::Memory` where a growth is refused.
pub(crate) fn part_near<C: WindingCount, I: OverlayInt, D: Copy>(
    alloc: Global,
    segments: &[Segment<C, I, D>],
    boxes: &[IntRect<I>],
) -> Result<Option<Part<C, I, D>>, Fault>
    requires sorted { IsSortedByKey ends_of pair_cmp segments.now }
    requires from_left { AreFromLeft (rects_of I.whole boxes.now) }
    ensures segments { IfOk result (λ found. IfSome found (λ part. part.segments.items
        ≡ filter (λ s. is_near (rects_of I.whole boxes.now) (ends_of s)) segments.now)) }
    ensures indexes { IfOk result (λ found. IfSome found (λ part. part.indexes.items
        ≡ near_from (rects_of I.whole boxes.now) 0 (pairs_in segments.now))) }
    ensures fault { IfErr result (λ fault. fault ≡ Memory) }
{
    let mut part = Part {
        segments: Vec::new(alloc),
        indexes: Vec::new(alloc),
    };
    let mut from = 0;
    let mut looks = segments.len();
    for index in 0..segments.len() {
        let around = box_of(&segments[index].x_segment());
        from = first_open(boxes, from, around.min_x);
        let is_near = is_near_one(boxes, from, &around, &mut looks);
        if looks == 0 {
            return Ok(None);
        }
        if is_near {
            part.segments.push(segments[index])?;
            part.indexes.push(index)?;
        }
    }
    Ok(Some(part))
}

/// The first rectangle from a place on that does not end left of `x`.
fn first_open<I: OverlayInt>(boxes: &[IntRect<I>], from: usize, x: I) -> usize
    requires { from ≤ length boxes.now }
    ensures within { result ≤ length boxes.now }
    ensures over { AllWithin (λ r. r.max_x <ℤ I.whole x) (rects_of I.whole boxes.now) from result }
{
    let mut place = from;
    while place < boxes.len() && boxes[place].max_x < x {
        place += 1;
    }
    place
}

/// Whether a rectangle meets one of others; none before a place does. It takes each comparison off `looks`, and where
/// none is left the result is of no use.
fn is_near_one<I: OverlayInt>(
    boxes: &[IntRect<I>],
    from: usize,
    around: &IntRect<I>,
    looks: &mut usize,
) -> bool
    requires from_left { AreFromLeft (rects_of I.whole boxes.now) }
    requires before { AllWithin (λ r. do_rects_meet r (rect_of I.whole around.now) ≡ false)
        (rects_of I.whole boxes.now) 0 from }
    ensures { 0 < looks.new → result ≡ meets_one (rects_of I.whole boxes.now) (rect_of I.whole around.now) }
{
    for place in from..boxes.len() {
        if *looks == 0 {
            return false;
        }
        if around.max_x < boxes[place].min_x {
            return false;
        }
        *looks -= 1;
        if boxes[place].is_intersect_border_include(around) {
            return true;
        }
    }
    false
}

/// Gives the marks of a part the indexes in the list.
pub(crate) fn rename_marks<I: OverlayInt>(marks: &mut Vec<LineMark<I>>, indexes: &[usize])
    requires { All (λ m. m.index < length indexes.now) marks.old.items }
    ensures { marks_of I.whole marks.new.items ≡ map (renamed indexes.now) (marks_of I.whole marks.old.items) }
{
    for place in 0..marks.len() {
        let LineMark { index, point } = marks[place];
        marks[place] = LineMark {
            index: indexes[index],
            point,
        };
    }
}
