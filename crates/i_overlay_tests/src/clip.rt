// The program of docs/GUIDE.md that cuts a line by a square.
use i_overlay::prelude::*;
use std::alloc::Global;
use std::process::Abort;
use std::test::Fail;

type Step = Segment<ShapeCountString, i32, ()>;

type Ends = (IntPoint<i32>, IntPoint<i32>);

/// The parts of lines inside polygons, the boundary aside. `None` where a segment is out of range.
fn parts_inside(alloc: Global, mut given: Vec<Step>) -> Result<Option<Vec<Ends>>, Fault> {
    if !is_splittable(&given) {
        return Ok(None);
    }
    let mut splitter = SplitSolver::new(alloc);
    let mut builder = GraphBuilder::new(alloc);
    let graph = split_and_build_clip(
        &mut splitter,
        &mut builder,
        &mut given,
        &Solver::AUTO,
        FillRule::NonZero,
        ClipRule {
            invert: false,
            boundary_included: false,
        },
    )?;
    let ends = graph
        .links()
        .iter()
        .map(|link| (link.a.point, link.b.point));
    Ok(Some(ends.collect(alloc)?))
}

/// A step of a polygon or of a line, or `None` where its ends are one point.
fn step(from: (i32, i32), to: (i32, i32), shape: ShapeType) -> Option<Step> {
    let (a, b) = (IntPoint::new(from.0, from.1), IntPoint::new(to.0, to.1));
    let count = ShapeCountString::direct_count(shape);
    if a == b || !count.is_valid() {
        return None;
    }
    Some(Segment::create_and_validate_with_data(a, b, count, (), &mut ()))
}

#[test]
fn parts_inside_as_a_program_finds_them(rt: HostRuntime) -> Result<(), Fail> {
    let mut given = Vec::new(rt.alloc());
    let corners = [(0, 0), (10, 0), (10, 10), (0, 10)];
    for (index, corner) in corners.iter().enumerate() {
        let side = step(*corner, corners[(index + 1) % 4], ShapeType::Subject);
        given.push(side.ok_or("two corners")?)?;
    }
    given.push(step((-5, 5), (15, 5), ShapeType::Clip).ok_or("two ends")?)?;
    let parts = parts_inside(rt.alloc(), given)?.ok_or("in range")?;
    let wanted = [(IntPoint::new(0, 5), IntPoint::new(10, 5))];
    assert!(rt; parts.as_slice() == wanted.as_slice());
    Ok(())
}
