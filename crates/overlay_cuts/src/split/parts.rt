// The parts of a list that was cut: its pieces are sorted part by part, and so the sort of all of them finds most in
// order. This project's own.

use overlay_base::segm::segment::Segment;
use overlay_base::segm::winding::WindingCount;
use overlay_geometry::geom::point::IntPoint;
use overlay_geometry::num::OverlayInt;
use overlay_intersections::split::line_mark::LineMark;
use std::alloc::{AllocError, Global};

/// A part has at least so many pieces, but for the last of each kind.
const MIN_PART: usize = 16;

/// A shorter list is sorted as fast without parts.
const MIN_LENGTH: usize = 4096;

/// Parts of more pieces than this, on the average, are no help.
const MAX_PART: usize = 1024;

const _: () = prove!(MAX_PART == 1024);

/// Places in a list that was cut between which its pieces can be sorted part by part: none where that is no help. They
/// are a hint: no clause says which they are, and what sorts by them may not depend on it.
///
/// `count` is the length of the list before the cut, and the marks are those of the cut. The first pieces, each in place
/// of its segment, come before `count`, and behind them one piece for each mark, in the order of the marks.
pub(crate) fn part_places<C: WindingCount, I: OverlayInt, D: Copy>(
    alloc: Global,
    list: &[Segment<C, I, D>],
    count: usize,
    marks: &[LineMark<I>],
) -> Result<Vec<usize>, AllocError> {
    let mut places = Vec::new(alloc);
    if list.len() < MIN_LENGTH {
        return Ok(places);
    }
    add_first_places(list, count, &mut places)?;
    places.push(count)?;
    let first = places.len();
    add_later_places(list, count, marks, &mut places)?;
    if places.len().saturating_sub(first) < marks.len() / MAX_PART {
        places.clear();
    }
    Ok(places)
}

/// Adds places among the first pieces, which rise by their first ends: those at which the first end is another.
fn add_first_places<C: WindingCount, I: OverlayInt, D: Copy>(
    list: &[Segment<C, I, D>],
    count: usize,
    places: &mut Vec<usize>,
) -> Result<(), AllocError> {
    let mut from = 0;
    for place in 1..count.min(list.len()) {
        if place - from >= MIN_PART && list[place - 1].x_segment().a < list[place].x_segment().a {
            places.push(place)?;
            from = place;
        }
    }
    Ok(())
}

/// Adds places among the pieces behind the first: those at which all pieces so far start before the segment of the
/// mark there, and so before all later pieces.
fn add_later_places<C: WindingCount, I: OverlayInt, D: Copy>(
    list: &[Segment<C, I, D>],
    count: usize,
    marks: &[LineMark<I>],
    places: &mut Vec<usize>,
) -> Result<(), AllocError> {
    let Some(least) = list.first() else {
        return Ok(());
    };
    let mut greatest = least.x_segment().a;
    let mut from = count;
    for place in count..list.len() {
        if place - from >= MIN_PART && cuts_after(list, marks, place - count, greatest) {
            places.push(place)?;
            from = place;
        }
        greatest = greatest.max(list[place].x_segment().a);
    }
    // one part alone is left to the sort of the whole list
    if from > count {
        places.push(list.len())?;
    }
    Ok(())
}

/// Whether the mark with this index cuts a segment that starts after the point.
fn cuts_after<C: WindingCount, I: OverlayInt, D: Copy>(
    list: &[Segment<C, I, D>],
    marks: &[LineMark<I>],
    index: usize,
    point: IntPoint<I>,
) -> bool {
    let Some(mark) = marks.get(index) else {
        return false;
    };
    let Some(segment) = list.get(mark.index) else {
        return false;
    };
    point < segment.x_segment().a
}
