// The first program of docs/GUIDE.md, by the prelude; and upstream's names at upstream's paths.
use i_overlay::build::boolean::{IntersectFilter, is_intersect};
use i_overlay::build::builder::{GraphNode, InclusionFilterStrategy};
use i_overlay::build::string::{
    ClipInsideBoundaryExcludedFilter, is_clip_inside_boundary_excluded,
};
use i_overlay::build::sweep::{FillStrategy, NonZeroStrategy};
use i_overlay::prelude::*;
use i_overlay::segm::segment::{BOTH_TOP, SUBJ_TOP};
use i_overlay::split::grid_layout::{FragmentBuffer, GridLayout};
use std::alloc::Global;
use std::process::Abort;
use std::test::Fail;

type BooleanSegment = Segment<ShapeCountBoolean, i32, ()>;

type Ends = (IntPoint<i32>, IntPoint<i32>);

/// The segments that bound what a subject and a clip share. `None` where a side is out of range, or contours do
/// not close.
fn shared_part(alloc: Global, mut sides: Vec<BooleanSegment>) -> Result<Option<Vec<Ends>>, Fault> {
    if !is_splittable(&sides) || !is_balanced(alloc, &sides)? {
        return Ok(None);
    }
    let mut splitter = SplitSolver::new(alloc);
    let mut builder = GraphBuilder::new(alloc);
    let graph = split_and_build_overlay(
        &mut splitter,
        &mut builder,
        &mut sides,
        &Solver::AUTO,
        FillRule::NonZero,
        OverlayRule::Intersect,
    )?;
    let ends = graph
        .links()
        .iter()
        .map(|link| (link.a.point, link.b.point));
    Ok(Some(ends.collect(alloc)?))
}

/// A step of a contour.
fn side(from: (i32, i32), to: (i32, i32), shape: ShapeType) -> Option<BooleanSegment> {
    let (a, b) = (IntPoint::new(from.0, from.1), IntPoint::new(to.0, to.1));
    Segment::try_ab_and_data(a, b, shape, (), &mut ())
}

#[test]
fn shared_part_as_a_program_finds_it(rt: HostRuntime) -> Result<(), Fail> {
    let mut sides = Vec::new(rt.alloc());
    for (low, high, shape) in [(0, 4, ShapeType::Subject), (2, 6, ShapeType::Clip)] {
        let corners = [(low, low), (high, low), (high, high), (low, high)];
        for (index, corner) in corners.iter().enumerate() {
            let next = corners[(index + 1) % 4];
            sides.push(side(*corner, next, shape).expect(&rt, "two corners"))?;
        }
    }
    let ends = shared_part(rt.alloc(), sides).expect(&rt, "no refusal");
    let wanted = [
        ((2, 2), (2, 4)),
        ((2, 2), (4, 2)),
        ((2, 4), (4, 4)),
        ((4, 2), (4, 4)),
    ];
    let found: Vec<((i32, i32), (i32, i32))> = ends
        .expect(&rt, "in range")
        .iter()
        .map(|(a, b)| ((a.x, a.y), (b.x, b.y)))
        .collect(rt.alloc())?;
    assert_eq!(rt; found.as_slice(), wanted.as_slice());
    let too_far = (1_073_741_824, 0);
    let open = (4, 0);
    for end in [too_far, open] {
        let mut sides = Vec::new(rt.alloc());
        sides.push(side((0, 0), end, ShapeType::Subject).expect(&rt, "two corners"))?;
        let ends = shared_part(rt.alloc(), sides).expect(&rt, "no refusal");
        assert!(rt; ends.is_none());
    }
    Ok(())
}

#[test]
fn names_stand_where_upstream_has_them(rt: HostRuntime) {
    assert!(rt; IntersectFilter::is_included(BOTH_TOP));
    assert!(rt; !IntersectFilter::is_included(SUBJ_TOP));
    assert!(rt; is_intersect(BOTH_TOP));
    assert!(rt; !ClipInsideBoundaryExcludedFilter::is_included(SUBJ_TOP));
    assert!(rt; !is_clip_inside_boundary_excluded(SUBJ_TOP));
    let (subject, nothing) = (ShapeCountBoolean::new(1, 0), ShapeCountBoolean::new(0, 0));
    assert!(rt; subject.is_valid() && nothing.is_valid());
    let filled = NonZeroStrategy::add_and_fill(subject, nothing);
    assert_eq!(rt; filled, Ok((subject, SUBJ_TOP)));
    let links: [usize; 2] = [3, 5];
    let node = OverlayNode::with_indices(rt.alloc(), &links);
    assert_eq!(rt; node.map(|node| node.indices().len()), Ok(2));
    let layout = GridLayout::with_min_max(0, 12, 2).expect(&rt, "wide enough");
    let buffer: FragmentBuffer<i32> = FragmentBuffer::new(rt.alloc(), layout).expect(&rt, "memory");
    assert_eq!(rt; buffer.groups().len(), 7);
}
