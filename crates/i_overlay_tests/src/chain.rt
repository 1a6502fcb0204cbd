// A chain of two overlays: the union of two squares, given again as the subject of a difference.
use i_overlay::prelude::*;
use std::alloc::Global;
use std::test::Fail;

type BooleanSegment = Segment<ShapeCountBoolean, i32, ()>;

/// The two ends of a segment, and its counts for the subject and for the clip.
type Row = ((i32, i32), (i32, i32), i32, i32);

/// The boundary of the squares from (0, 0) to (4, 4) and from (2, 2) to (6, 6), with what they cover on its left.
static UNION: [Row; 8] = [
    ((0, 0), (0, 4), -1, 0),
    ((0, 0), (4, 0), 1, 0),
    ((0, 4), (2, 4), -1, 0),
    ((2, 4), (2, 6), -1, 0),
    ((2, 6), (6, 6), -1, 0),
    ((4, 0), (4, 2), 1, 0),
    ((4, 2), (6, 2), 1, 0),
    ((6, 2), (6, 6), 1, 0),
];

/// The boundary of the same less the square from (3, 3) to (7, 7), as a clip.
static DIFFERENCE: [Row; 10] = [
    ((0, 0), (0, 4), 0, -1),
    ((0, 0), (4, 0), 0, 1),
    ((0, 4), (2, 4), 0, -1),
    ((2, 4), (2, 6), 0, -1),
    ((2, 6), (3, 6), 0, -1),
    ((3, 3), (3, 6), 0, 1),
    ((3, 3), (6, 3), 0, -1),
    ((4, 0), (4, 2), 0, 1),
    ((4, 2), (6, 2), 0, 1),
    ((6, 2), (6, 3), 0, 1),
];

fn row(side: &BooleanSegment) -> Row {
    let ends = side.x_segment();
    let count = side.count();
    let (a, b) = (ends.a, ends.b);
    ((a.x, a.y), (b.x, b.y), count.subj, count.clip)
}

/// Adds the sides of a square, run counterclockwise.
fn add_square(
    list: &mut Vec<BooleanSegment>,
    low: i32,
    high: i32,
    shape: ShapeType,
) -> Result<(), Fail> {
    let corners = [(low, low), (high, low), (high, high), (low, high)].map(|(x, y)| IntPoint::new(
        x, y,
    ));
    for (index, corner) in corners.iter().enumerate() {
        let next = corners[(index + 1) % 4];
        let side = Segment::try_ab_and_data(*corner, next, shape, (), &mut ());
        list.push(side.ok_or("two corners")?)?;
    }
    Ok(())
}

/// The boundary of what a rule holds of, as one shape.
fn boundary_of(
    alloc: Global,
    mut list: Vec<BooleanSegment>,
    rule: OverlayRule,
    shape: ShapeType,
) -> Result<Vec<BooleanSegment>, Fail> {
    if !is_splittable(&list) {
        return Err(Fail::from("a side that is out of range"));
    }
    let mut splitter = SplitSolver::new(alloc);
    let mut builder = GraphBuilder::new(alloc);
    let (solver, fill_rule) = (&Solver::AUTO, FillRule::NonZero);
    let graph = split_and_build_overlay(
        &mut splitter,
        &mut builder,
        &mut list,
        solver,
        fill_rule,
        rule,
    )?;
    Ok(directed_segments(alloc, &graph, rule, shape)?)
}

/// The rows of some sides.
fn rows_of(alloc: Global, sides: &[BooleanSegment]) -> Result<Vec<Row>, Fail> {
    Ok(sides.iter().map(row).collect(alloc)?)
}

#[test]
fn a_union_is_given_again_to_a_difference(rt: HostRuntime) -> Result<(), Fail> {
    let alloc = rt.alloc();
    let mut list = Vec::new(alloc);
    add_square(&mut list, 0, 4, ShapeType::Subject)?;
    add_square(&mut list, 2, 6, ShapeType::Clip)?;
    let mut union = boundary_of(alloc, list, OverlayRule::Union, ShapeType::Subject)?;
    assert!(rt; rows_of(alloc, &union)?.as_slice() == UNION.as_slice());
    assert!(rt; is_arranged(&union));
    add_square(&mut union, 3, 7, ShapeType::Clip)?;
    let difference = boundary_of(alloc, union, OverlayRule::Difference, ShapeType::Clip)?;
    assert!(rt; rows_of(alloc, &difference)?.as_slice() == DIFFERENCE.as_slice());
    Ok(())
}
