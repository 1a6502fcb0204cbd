// The calls of `overlaps`: squares that overlap, touch and are apart; lines through a square, along it and beside it.
use i_overlay::prelude::*;
use overlaps::{overlaps, runs_through};
use std::process::Abort;
use std::test::Fail;

/// The corners of a square, from the lowest and leftmost.
fn square(low: i32, high: i32) -> [IntPoint<i32>; 4] {
    [(low, low), (high, low), (high, high), (low, high)].map(|(x, y)| IntPoint::new(x, y))
}

#[test]
fn squares_overlap_or_not(rt: HostRuntime) -> Result<(), Fail> {
    let rows = [(2, 6, true), (1, 3, true), (4, 8, false), (5, 8, false)];
    for (low, high, wanted) in rows {
        let mut sides = Vec::new(rt.alloc());
        let both = [
            (square(0, 4), ShapeType::Subject),
            (square(low, high), ShapeType::Clip),
        ];
        for (corners, shape) in both {
            for (index, corner) in corners.iter().enumerate() {
                let next = corners[(index + 1) % 4];
                let side = Segment::try_ab_and_data(*corner, next, shape, (), &mut ());
                sides.push(side.expect(&rt, "two corners"))?;
            }
        }
        let mut splitter = SplitSolver::new(rt.alloc());
        let mut builder = GraphBuilder::new(rt.alloc());
        let (auto, fill_rule) = (&Solver::AUTO, FillRule::NonZero);
        assert!(rt; is_splittable(&sides));
        let found = overlaps(&mut splitter, &mut builder, &mut sides, auto, fill_rule);
        assert_eq!(rt; found, Ok(wanted));
    }
    Ok(())
}

/// A step that winds for the subject or has a mask of lines.
fn step(
    rt: &impl Abort,
    a: IntPoint<i32>,
    b: IntPoint<i32>,
    shape: ShapeType,
) -> Segment<ShapeCountString, i32, ()> {
    assert!(rt; a != b);
    let count = ShapeCountString::direct_count(shape);
    Segment::create_and_validate_with_data(a, b, count, (), &mut ())
}

#[test]
fn lines_run_through_a_square_or_not(rt: HostRuntime) -> Result<(), Fail> {
    let rows = [(-1, 2, true), (-1, 4, false), (5, 7, false)];
    for (x, y, wanted) in rows {
        let mut given = Vec::new(rt.alloc());
        let corners = square(0, 4);
        for (index, corner) in corners.iter().enumerate() {
            let next = corners[(index + 1) % 4];
            given.push(step(&rt, *corner, next, ShapeType::Subject))?;
        }
        let (a, b) = (IntPoint::new(x, y), IntPoint::new(x + 6, y));
        given.push(step(&rt, a, b, ShapeType::Clip))?;
        let mut splitter = SplitSolver::new(rt.alloc());
        let mut builder = GraphBuilder::new(rt.alloc());
        let (auto, fill_rule) = (&Solver::AUTO, FillRule::NonZero);
        let inside = ClipRule {
            invert: false,
            boundary_included: false,
        };
        assert!(rt; is_splittable(&given));
        let found = runs_through(
            &mut splitter,
            &mut builder,
            &mut given,
            auto,
            fill_rule,
            inside,
        );
        assert_eq!(rt; found, Ok(wanted));
    }
    Ok(())
}
