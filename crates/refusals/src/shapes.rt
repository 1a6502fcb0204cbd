// What the calls are given.
use crate::case::Stop;
use i_overlay::geom::point::IntPoint;
use i_overlay::overlay_core::edge_data::OverlayEdgeData;
use i_overlay::segm::segment::Segment;
use i_overlay::segm::shape_type::ShapeType;
use i_overlay::segm::shape_type::ShapeType::{Clip, Subject};
use i_overlay::segm::winding::WindingCount;
use std::alloc::Global;

/// A list of segments.
#[derive(Clone, Copy, Drop)]
pub enum Shape {
    /// 24 level lines of the subject, from the highest down, the lowest twice, and an upright line across: more than a
    /// sort takes without memory, and nothing of the clip.
    Crossed,
    /// 60 level lines and twenty upright lines across: more are live at once than are compared without a tree.
    Long,
    /// 2,100 level lines that begin at one `x`: so many are live at once that a sweep's row gives way to its tree.
    Levels,
    /// Six squares of the subject, each with one of the clip over its upper right corner: short, so that a grid's
    /// columns serve, and with more links than a sort takes without memory.
    Squares,
    /// A few lines, each with its ends and its shape.
    Lines(&'static [Line]),
}

/// A line from a point to another one, and its shape.
pub type Line = ((i32, i32), (i32, i32), ShapeType);

/// Two lines that cross at a whole point.
pub static CROSS: [Line; 2] = [((-2, 0), (2, 0), Subject), ((0, -2), (0, 2), Subject)];

/// A steep line near the end of a flat one, through which it is bent.
pub static BENT: [Line; 2] = [((0, 0), (100, 1), Subject), ((1, -50), (1, 50), Subject)];

/// Two lines that overlap, and two above them.
pub static OVERLAPPING: [Line; 4] = [
    ((0, 0), (100, 0), Subject),
    ((80, 0), (150, 0), Subject),
    ((0, 1000), (150, 1000), Subject),
    ((0, 2000), (150, 2000), Subject),
];

/// An upright line on which another one ends, and two above them.
pub static TOUCHING: [Line; 4] = [
    ((4, 0), (4, 6), Subject),
    ((0, 3), (4, 3), Subject),
    ((0, 100), (8, 100), Subject),
    ((0, 102), (8, 102), Subject),
];

/// A line of the subject and one of the clip that overlap.
pub static SHARED: [Line; 2] = [((0, 0), (4, 0), Subject), ((2, 0), (6, 0), Clip)];

/// A square, and a line of the clip across it.
pub static CUT: [Line; 5] = [
    ((0, 0), (10, 0), Subject),
    ((10, 0), (10, 10), Subject),
    ((10, 10), (0, 10), Subject),
    ((0, 10), (0, 0), Subject),
    ((-5, 5), (15, 5), Clip),
];

/// What the segments of the subject and those of the clip are made with.
#[derive(Clone, Copy, Drop)]
pub struct Data<D> {
    pub subject: D,
    pub clip: D,
}

/// No data.
pub const NO_DATA: Data<()> = Data {
    subject: (),
    clip: (),
};

/// The segments of a shape.
pub fn sides<C: WindingCount, D: OverlayEdgeData<C>>(
    shape: Shape,
    edge_data: Data<D>,
    store: &mut D::Store,
    alloc: Global,
) -> Result<Vec<Segment<C, i32, D>>, Stop> {
    let mut list = Vec::new(alloc);
    for index in 0..u16::MAX {
        let Some(line) = line_of(shape, index) else {
            break;
        };
        push_line(&mut list, line, edge_data, store)?;
    }
    Ok(list)
}

/// The line of a shape with an index, if the shape has as many.
fn line_of(shape: Shape, index: u16) -> Option<Line> {
    match shape {
        Shape::Crossed => crossed_line(index),
        Shape::Long => long_line(index),
        Shape::Levels => level_line(index),
        Shape::Squares => square_line(index),
        Shape::Lines(lines) => lines.get(usize::from(index)).copied(),
    }
}

/// A line of `Crossed`.
fn crossed_line(index: u16) -> Option<Line> {
    if index < 24 {
        let y = 23 - i32::from(index);
        Some(((0, y), (10, y), Subject))
    } else if index == 24 {
        Some(((0, 0), (10, 0), Subject))
    } else if index == 25 {
        Some(((5, 24), (5, -1), Subject))
    } else {
        None
    }
}

/// A line of `Long`.
fn long_line(index: u16) -> Option<Line> {
    let place = i32::from(index);
    if index < 60 {
        let y = 10 * place;
        Some(((0, y), (1000 + place, y + 3), Subject))
    } else if index < 80 {
        let x = 50 * (place - 60) + 3;
        Some(((x, -5), (x, 605), Clip))
    } else {
        None
    }
}

/// A line of `Levels`.
fn level_line(index: u16) -> Option<Line> {
    let y = i32::from(index);
    if index < 2100 {
        Some(((0, y), (10, y), Subject))
    } else {
        None
    }
}

/// A line of `Squares`: the four sides of a square of side 4, counterclockwise from its lowest corner, then those of the
/// next.
fn square_line(index: u16) -> Option<Line> {
    if index >= 48 {
        return None;
    }
    let x = 10 * i32::from(index / 8);
    let is_subject = index % 8 < 4;
    let (left, low) = if is_subject { (x, 0) } else { (x + 2, 2) };
    let shape = if is_subject { Subject } else { Clip };
    let (right, top) = (left.saturating_add(4), low + 4);
    let corners = [(left, low), (right, low), (right, top), (left, top)];
    let side = usize::from(index);
    Some((corners[side % 4], corners[(side + 1) % 4], shape))
}

/// Appends the segment of a line, if its ends differ.
fn push_line<C: WindingCount, D: OverlayEdgeData<C>>(
    list: &mut Vec<Segment<C, i32, D>>,
    line: Line,
    edge_data: Data<D>,
    store: &mut D::Store,
) -> Result<(), Stop> {
    let (from, to, shape) = line;
    let (a, b) = (IntPoint::new(from.0, from.1), IntPoint::new(to.0, to.1));
    let count = C::direct_count(shape);
    if a == b || !count.is_valid() {
        return Ok(());
    }
    let own = match shape {
        ShapeType::Subject => edge_data.subject,
        ShapeType::Clip => edge_data.clip,
    };
    list.push(Segment::create_and_validate_with_data(a, b, count, own, store))?;
    Ok(())
}
