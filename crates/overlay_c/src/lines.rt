// Lines and the polygons that cut them, as records describe them.
ghost use Rattle.std.specs.Prelude.{◌≡◌, ◌&&◌, IsTrue, IfSome, IfOk, is_some, length, map};
ghost use Rattle.std.specs.Ordering.{int_eq};
ghost use Rattle.std.specs.List.{list_all};
ghost use Rattle.overlay_geometry.specs.PointOf.{point_of};
ghost use Rattle.overlay_base.specs.StringWinding.{string_winding};
ghost use Rattle.overlay_base.specs.SegmentOf.{segment_of, segments_of};
ghost use Rattle.overlay_c.specs.Records.{line_start_of, line_end_of, line_count_of, line_asks, line_asked_by, line_told_by};

use crate::records::{LineRecord, point};
use crate::width::Width;
use overlay_base::segm::segment::Segment;
use overlay_base::segm::string::ShapeCountString;
use overlay_base::segm::winding::WindingCount;
use overlay_geometry::geom::point::IntPoint;
use std::alloc::AllocError;

/// A segment of polygons and lines.
pub type Line<I> = Segment<ShapeCountString, I, ()>;

/// Loads the segments that records describe. Returns whether each describes one.
pub fn load<I: Width>(records: &[LineRecord], list: &mut Vec<Line<I>>) -> Result<bool, AllocError>
    ensures asks { IfOk result (λ all. all ≡ list_all (line_asks (I.whole I.MIN_COORD) (I.whole I.MAX_COORD))
        records.now) }
    ensures segments { IfOk result (λ all. IsTrue all → segments_of list.new.items ≡ map line_asked_by records.now) }
{
    list.clear();
    for given in records {
        match asked(given) {
            Some(segment) => list.push(segment)?,
            None => return Ok(false),
        }
    }
    Ok(true)
}

/// The segment that a record describes. `None` where an end is out of range, the ends are equal,
/// the count is `i32::MIN`, the mask has other bits than its two, or both are 0.
pub fn asked<I: Width>(given: &LineRecord) -> Option<Line<I>>
    ensures asks { is_some result ≡ line_asks (I.whole I.MIN_COORD) (I.whole I.MAX_COORD) given.now }
    ensures segment { IfSome result (λ segment. segment_of segment ≡ line_asked_by given.now) }
{
    let a = point(start(given))?;
    let b = point(end(given))?;
    let count = count(given);
    if has_equal_ends(given) || !count.is_valid() || !count.is_not_empty() {
        return None;
    }
    Some(Segment::create_and_validate_with_data(a, b, count, (), &mut ()))
}

/// Whether the two ends of a record are one point.
fn has_equal_ends(given: &LineRecord) -> bool
    ensures { result ≡ (int_eq given.now.ax given.now.bx && int_eq given.now.ay given.now.by) }
{
    given.ax == given.bx && given.ay == given.by
}

/// The count of a record.
fn count(given: &LineRecord) -> ShapeCountString
    ensures { string_winding result ≡ line_count_of given.now }
{
    ShapeCountString {
        subj: given.subj,
        clip: given.mask,
    }
}

/// The first end of a record.
fn start(given: &LineRecord) -> IntPoint<i32>
    ensures { point_of (λ z. z) result ≡ line_start_of given.now }
{
    IntPoint {
        x: given.ax,
        y: given.ay,
    }
}

/// The second end of a record.
fn end(given: &LineRecord) -> IntPoint<i32>
    ensures { point_of (λ z. z) result ≡ line_end_of given.now }
{
    IntPoint {
        x: given.bx,
        y: given.by,
    }
}

/// The record of a segment.
pub fn told<I: Width>(segment: &Line<I>) -> LineRecord
    ensures { line_told_by result ≡ segment_of segment.now }
{
    let ends = segment.x_segment();
    let count = segment.count();
    LineRecord {
        ax: ends.a.x.number(),
        ay: ends.a.y.number(),
        bx: ends.b.x.number(),
        by: ends.b.y.number(),
        subj: count.subj,
        mask: count.clip,
    }
}

/// Writes the records of segments.
pub fn write_records<I: Width>(segments: &[Line<I>], out: &mut [LineRecord])
    requires { length out.old ≡ length segments.now }
    ensures { map line_told_by out.new ≡ segments_of segments.now }
{
    for (index, segment) in segments.iter().enumerate() {
        out[index] = told(segment);
    }
}
