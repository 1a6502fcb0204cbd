// Which given segment a link came from, read from data that names it, through splits, turns and merges.
ghost use Rattle.std.specs.Prelude.{◌≡◌};
ghost use Rattle.std.specs.Prelude.{◌≡◌, map};

use i_overlay::overlay::*;
use i_overlay::splitter::Splitter;
use overlay_base::overlay_core::edge_data::{EdgeDataMerge, EdgeDataSplit, OverlayEdgeData};
use overlay_base::overlay_core::fill_rule::FillRule;
use overlay_base::overlay_core::overlay_rule::OverlayRule;
use overlay_base::overlay_core::solver::Solver;
use overlay_base::segm::arranged::is_splittable;
use overlay_base::segm::boolean::ShapeCountBoolean;
use overlay_base::segm::fault::Fault;
use overlay_base::segm::segment::Segment;
use overlay_base::segm::shape_type::ShapeType;
use overlay_build::build::builder::GraphBuilder;
use overlay_contours::rounding::Rounding;
use overlay_geometry::geom::point::IntPoint;
use overlay_geometry::num::OverlayInt;
use overlay_split::split::solver::SplitSolver;
use std::alloc::Global;
use std::test::Fail;

/// The number of a given segment. Parts have that of the whole, and of two that merge the left one's is kept.
#[derive(Clone, Copy, Debug, PartialEq, Eq)]
struct Source(u32);

impl OverlayEdgeData<ShapeCountBoolean> for Source {
    type Store = ();

    ghost reversed_gives = { λ source store. (source, store) };

    ghost split_gives = { λ source _ _ _ store. ((source, source), store) };

    ghost merge_gives = { λ merged store. (merged.lhs_data, store) };

    fn reversed(self, _store: &mut ()) -> Source {
        self
    }

    fn split<I: OverlayInt>(self, _at: EdgeDataSplit<I>, _store: &mut ()) -> (Source, Source) {
        (self, self)
    }

    fn merge(merged: EdgeDataMerge<ShapeCountBoolean, Source>, _store: &mut ()) -> Source
        ensures answer { result ≡ merged.lhs_data }
        ensures store { _store.new ≡ _store.old }
    {
        merged.lhs_data
    }
}

type Numbered = Segment<ShapeCountBoolean, i32, Source>;

/// The given segments from which those come that bound what a subject and a clip share. `None` where a side is out of
/// range.
fn sources_of_shared_part(
    alloc: Global,
    mut sides: Vec<Numbered>,
) -> Result<Option<Vec<Source>>, Fault> {
    if !is_splittable(&sides) {
        return Ok(None);
    }
    let mut splitter = SplitSolver::new(alloc);
    let mut builder = GraphBuilder::new(alloc);
    let graph = split_and_build_overlay(
        &mut splitter,
        &mut builder,
        &mut sides,
        &Solver::AUTO,
        FillRule::NonZero,
        OverlayRule::Intersect,
    )?;
    let sources = graph.links().iter().map(|link| link.edge_data);
    Ok(Some(sources.collect(alloc)?))
}

/// The same by snap rounding.
fn sources_by_snapping(
    alloc: Global,
    mut sides: Vec<Numbered>,
) -> Result<Option<Vec<Source>>, Fault> {
    if !is_splittable(&sides) {
        return Ok(None);
    }
    let mut splitter = Splitter::new(alloc, Rounding::HotPixels);
    let mut builder = GraphBuilder::new(alloc);
    let graph = split_and_build_overlay_by(
        &mut splitter,
        &mut builder,
        &mut sides,
        &Solver::AUTO,
        FillRule::NonZero,
        OverlayRule::Intersect,
    )?;
    let sources = graph.links().iter().map(|link| link.edge_data);
    Ok(Some(sources.collect(alloc)?))
}

/// A step of a contour, as the segment of this number.
fn side(from: (i32, i32), to: (i32, i32), shape: ShapeType, number: u32) -> Option<Numbered> {
    let (a, b) = (IntPoint::new(from.0, from.1), IntPoint::new(to.0, to.1));
    Segment::try_ab_and_data(a, b, shape, Source(number), &mut ())
}

/// The sides of the two squares, the subject's from 0 to 3, from below and counterclockwise, the clip's from 4 to 7.
/// What both share is bounded by the clip's left and lower sides and by the subject's right and upper ones.
#[test]
fn each_link_names_the_side_it_came_from(rt: HostRuntime) -> Result<(), Fail> {
    let mut sides = Vec::new(rt.alloc());
    let mut number = 0;
    for (low, high, shape) in [(0, 4, ShapeType::Subject), (2, 6, ShapeType::Clip)] {
        let corners = [(low, low), (high, low), (high, high), (low, high)];
        for (index, corner) in corners.iter().enumerate() {
            let next = corners[(index + 1) % 4];
            sides.push(side(*corner, next, shape, number).expect(&rt, "two corners"))?;
            number = number.wrapping_add(1);
        }
    }
    let sources = sources_of_shared_part(rt.alloc(), sides).expect(&rt, "no refusal");
    let wanted = [Source(7), Source(4), Source(2), Source(1)];
    assert_eq!(rt;
        sources.expect(&rt, "in range").as_slice(),
        wanted.as_slice()
    );
    Ok(())
}

/// The sides of a square, from 0 to 3, and of a triangle, from 4 to 6. Its lower side crosses the right one of the square at
/// a height of 1 and 2/7, which is rounded to 1, so the piece of it that bounds what both share ends there.
#[test]
fn each_piece_by_snapping_names_its_side(rt: HostRuntime) -> Result<(), Fail> {
    let mut sides = Vec::new(rt.alloc());
    let mut number = 0;
    let square = [(0, 0), (4, 0), (4, 4), (0, 4)];
    let triangle = [(2, 1), (9, 2), (2, 5)];
    for (index, corner) in square.iter().enumerate() {
        let next = square[(index + 1) % 4];
        sides.push(side(*corner, next, ShapeType::Subject, number).expect(&rt, "two corners"))?;
        number = number.wrapping_add(1);
    }
    for (index, corner) in triangle.iter().enumerate() {
        let next = triangle[(index + 1) % 3];
        sides.push(side(*corner, next, ShapeType::Clip, number).expect(&rt, "two corners"))?;
        number = number.wrapping_add(1);
    }
    let sources = sources_by_snapping(rt.alloc(), sides).expect(&rt, "no refusal");
    let wanted = [Source(6), Source(4), Source(2), Source(1)];
    assert_eq!(rt;
        sources.expect(&rt, "in range").as_slice(),
        wanted.as_slice()
    );
    Ok(())
}
