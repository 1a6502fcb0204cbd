// Whole calls by snap rounding: few segments of nearly parallel edges, and a line that is cut where crossings are rounded.
use i_overlay::prelude::*;
use std::alloc::Global;
use std::process::Abort;
use std::test::Fail;

type Side = Segment<ShapeCountBoolean, i32, ()>;

type Step = Segment<ShapeCountString, i32, ()>;

/// A closed chain of six edges that are nearly parallel, over most of the wide engine's range. Passes over pairs leave
/// 238,653 segments of it.
static CHAIN: [(i32, i32); 6] = [
    (929775894, 738301379),
    (-820272779, 900600856),
    (929775891, 738301379),
    (-820272780, 900600857),
    (929775893, 738301379),
    (-820272774, 900600852),
];

/// How many segments and links a union leaves by snap rounding, and how far crossings moved. `None` where a side is out of
/// range.
fn union_sizes(alloc: Global, mut sides: Vec<Side>) -> Result<Option<(usize, usize, u128)>, Fault> {
    if !is_splittable(&sides) {
        return Ok(None);
    }
    let mut splitter = Splitter::new(alloc, Rounding::HotPixels);
    let mut builder = GraphBuilder::new(alloc);
    let graph = split_and_build_overlay_by(
        &mut splitter,
        &mut builder,
        &mut sides,
        &Solver::AUTO,
        FillRule::NonZero,
        OverlayRule::Union,
    )?;
    let links = graph.links().len();
    Ok(Some((sides.len(), links, splitter.reach())))
}

/// The sides run back and forth, so all six cancel where they are rounded to one path; without the last one, what is left is
/// one path of few segments.
#[test]
fn six_nearly_parallel_sides_leave_few_segments(rt: HostRuntime) -> Result<(), Fail> {
    for count in [5, 6] {
        let mut sides = Vec::new(rt.alloc());
        for (index, corner) in CHAIN.iter().take(count).enumerate() {
            let next = CHAIN[(index + 1) % 6];
            let (a, b) = (
                IntPoint::new(corner.0, corner.1),
                IntPoint::new(next.0, next.1),
            );
            let side = Segment::try_ab_and_data(a, b, ShapeType::Subject, (), &mut ());
            sides.push(side.ok_or("two corners")?)?;
        }
        let (segments, links, reach) = union_sizes(rt.alloc(), sides)?.ok_or("in range")?;
        assert!(rt; segments <= 30, "{segments} segments");
        assert!(rt; links <= segments, "{links} links");
        assert!(rt; count == 6 || 0 < segments);
        assert_eq!(rt; reach, 1);
    }
    Ok(())
}

/// The parts of lines inside polygons by a rounding, the boundary aside, and how far crossings moved. `None` where a
/// segment is out of range.
fn parts_inside(
    alloc: Global,
    rounding: Rounding,
    mut given: Vec<Step>,
) -> Result<Option<(Vec<(i32, i32, i32, i32)>, u128)>, Fault> {
    if !is_splittable(&given) {
        return Ok(None);
    }
    let mut splitter = Splitter::new(alloc, rounding);
    let mut builder = GraphBuilder::new(alloc);
    let graph = split_and_build_clip_by(
        &mut splitter,
        &mut builder,
        &mut given,
        &Solver::AUTO,
        FillRule::NonZero,
        ClipRule {
            invert: false,
            boundary_included: false,
        },
    )?;
    let ends = graph.links().iter().map(|link| (
        link.a.point.x,
        link.a.point.y,
        link.b.point.x,
        link.b.point.y,
    ));
    let ends = ends.collect(alloc)?;
    Ok(Some((ends, splitter.reach())))
}

/// A step of a polygon or of a line, or `None` where its ends are one point.
fn step(from: (i32, i32), to: (i32, i32), shape: ShapeType) -> Option<Step> {
    let (a, b) = (IntPoint::new(from.0, from.1), IntPoint::new(to.0, to.1));
    let count = ShapeCountString::direct_count(shape);
    if a == b || !count.is_valid() {
        return None;
    }
    Some(Segment::create_and_validate_with_data(a, b, count, (), &mut ()))
}

/// The line crosses the left side of the square at a height of 3 and 2/15, and the right side at 3 and 4/5. So it is cut at
/// heights of 3 and 4, by either rounding. Snap rounding moves it by at most half a unit.
#[test]
fn line_is_cut_where_crossings_are_rounded(rt: HostRuntime) -> Result<(), Fail> {
    for rounding in [Rounding::HotPixels, Rounding::Pairwise] {
        let mut given = Vec::new(rt.alloc());
        let corners = [(0, 0), (10, 0), (10, 10), (0, 10)];
        for (index, corner) in corners.iter().enumerate() {
            let side = step(*corner, corners[(index + 1) % 4], ShapeType::Subject);
            given.push(side.ok_or("two corners")?)?;
        }
        given.push(step((-2, 3), (13, 4), ShapeType::Clip).ok_or("two ends")?)?;
        let (parts, reach) = parts_inside(rt.alloc(), rounding, given)?.ok_or("in range")?;
        let wanted = [(0, 3, 10, 4)];
        assert!(rt; parts.as_slice() == wanted.as_slice());
        assert!(rt; reach == 1 || rounding == Rounding::Pairwise);
    }
    Ok(())
}
