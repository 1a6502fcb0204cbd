// Relations of pairs of shapes, worked by hand from their definitions.
use overlay_base::overlay_core::fill_rule::FillRule;
use overlay_base::overlay_core::solver::Solver;
use overlay_base::segm::fault::Fault;
use overlay_base::segm::shape_type::ShapeType;
use overlay_contours::contour::IntContour;
use overlay_contours::fault::ContourFault;
use overlay_geometry::geom::point::IntPoint;
use overlay_relations::fault::RelationFault;
use overlay_relations::predicates::{covers, interiors_meet, is_within, same_region};
use overlay_relations::region::Region;
use std::alloc::Global;
use std::test::Fail;

/// A contour as the tables write it.
type Corners = &'static [(i32, i32)];

/// A shape as the tables write it.
type Contours = &'static [Corners];

/// Whether interiors meet, the subject covers the clip, it is within the clip, and both are the same region.
type Relations = (bool, bool, bool, bool);

/// A name, the subject, the clip, the fill rule, and their relations.
type Row = (&'static str, Contours, Contours, FillRule, Relations);

const SQUARE: Corners = &[(0, 0), (4, 0), (4, 4), (0, 4)];

const WIDE_SQUARE: Corners = &[(0, 0), (8, 0), (8, 8), (0, 8)];

const INNER_SQUARE: Corners = &[(2, 2), (6, 2), (6, 6), (2, 6)];

/// Below the line from the origin to (10, 1).
const BELOW_A_SLOPE: Corners = &[(0, 0), (10, 0), (10, 1)];

/// Above the line from the origin to (11, 1), which is lower.
const ABOVE_A_LOWER_SLOPE: Corners = &[(0, 0), (11, 1), (0, 1)];

/// Above the line from the origin to (9, 1), which is higher.
const ABOVE_A_HIGHER_SLOPE: Corners = &[(0, 0), (9, 1), (0, 1)];

/// Two of its edges cross in the middle of a unit.
const BOW: Corners = &[(0, 0), (1, 1), (1, 0), (0, 1)];

/// The same edges, run the other way.
const BOW_BACK: Corners = &[(0, 1), (1, 0), (1, 1), (0, 0)];

static ROWS: [Row; 13] = [
    (
        "both are empty",
        &[],
        &[],
        FillRule::NonZero,
        (false, true, true, true),
    ),
    (
        "a clip without area",
        &[SQUARE],
        &[&[(1, 1), (3, 2)]],
        FillRule::EvenOdd,
        (false, true, false, false),
    ),
    (
        "edges that cancel",
        &[BOW, BOW_BACK],
        &[SQUARE],
        FillRule::NonZero,
        (false, false, true, false),
    ),
    (
        "a common part of an edge",
        &[SQUARE],
        &[&[(4, 1), (8, 1), (8, 9), (4, 9)]],
        FillRule::NonZero,
        (false, false, false, false),
    ),
    (
        "a common corner",
        &[SQUARE],
        &[&[(4, 4), (8, 4), (8, 8)]],
        FillRule::NonZero,
        (false, false, false, false),
    ),
    (
        "one inside the other",
        &[WIDE_SQUARE],
        &[INNER_SQUARE],
        FillRule::NonZero,
        (true, true, false, false),
    ),
    (
        "one in the hole of the other",
        &[WIDE_SQUARE, INNER_SQUARE],
        &[INNER_SQUARE],
        FillRule::EvenOdd,
        (false, false, false, false),
    ),
    (
        "an edge on an edge from inside",
        &[SQUARE],
        &[WIDE_SQUARE],
        FillRule::Positive,
        (true, false, true, false),
    ),
    (
        "corners on edges",
        &[WIDE_SQUARE],
        &[&[(4, 0), (8, 4), (4, 8), (0, 4)]],
        FillRule::NonZero,
        (true, true, false, false),
    ),
    (
        "a crossing at integer coordinates",
        &[SQUARE],
        &[INNER_SQUARE],
        FillRule::NonZero,
        (true, false, false, false),
    ),
    (
        "less than a tenth in common",
        &[BELOW_A_SLOPE],
        &[ABOVE_A_LOWER_SLOPE],
        FillRule::NonZero,
        (true, false, false, false),
    ),
    (
        "less than a tenth apart",
        &[BELOW_A_SLOPE],
        &[ABOVE_A_HIGHER_SLOPE],
        FillRule::NonZero,
        (false, false, false, false),
    ),
    (
        "the same, clockwise and with a further point",
        &[SQUARE],
        &[&[(4, 4), (4, 0), (0, 0), (0, 3), (0, 4)]],
        FillRule::NonZero,
        (true, true, true, true),
    ),
];

/// The contours of a shape.
fn contours_from(alloc: Global, lists: &[Corners]) -> Result<Vec<IntContour<i32>>, Fault> {
    let mut contours = Vec::new(alloc);
    for corners in lists {
        let points = corners.iter().map(|(x, y)| IntPoint::new(*x, *y));
        contours.push(points.collect(alloc)?)?;
    }
    Ok(contours)
}

/// All relations of two shapes.
fn relations(
    alloc: Global,
    subject: &[IntContour<i32>],
    clip: &[IntContour<i32>],
    fill_rule: FillRule,
) -> Result<Relations, RelationFault> {
    let meet = interiors_meet(alloc, subject, clip, &Solver::AUTO, fill_rule)?;
    let covering = covers(alloc, subject, clip, &Solver::AUTO, fill_rule)?;
    let within = is_within(alloc, subject, clip, &Solver::AUTO, fill_rule)?;
    let same = same_region(alloc, subject, clip, &Solver::AUTO, fill_rule)?;
    Ok((meet, covering, within, same))
}

#[test]
fn relations_worked_by_hand(rt: HostRuntime) -> Result<(), Fail> {
    for (name, subject, clip, fill_rule, wanted) in ROWS {
        let subject = contours_from(rt.alloc(), subject)?;
        let clip = contours_from(rt.alloc(), clip)?;
        let found = relations(rt.alloc(), &subject, &clip, fill_rule)?;
        assert_eq!(rt; found, wanted, "{name}");
    }
    Ok(())
}

/// Each call names the shape whose edges cross, and the subject where those of both do.
#[test]
fn inexact_crossings_are_named(rt: HostRuntime) -> Result<(), Fail> {
    let bow = contours_from(rt.alloc(), &[BOW])?;
    let square = contours_from(rt.alloc(), &[SQUARE])?;
    let of_subject = relations(rt.alloc(), &bow, &square, FillRule::EvenOdd);
    assert_eq!(rt;
        of_subject,
        Err(RelationFault::NotExact(ShapeType::Subject))
    );
    let of_clip = relations(rt.alloc(), &square, &bow, FillRule::EvenOdd);
    assert_eq!(rt; of_clip, Err(RelationFault::NotExact(ShapeType::Clip)));
    let of_both = relations(rt.alloc(), &bow, &bow, FillRule::EvenOdd);
    assert_eq!(rt; of_both, Err(RelationFault::NotExact(ShapeType::Subject)));
    Ok(())
}

#[test]
fn point_out_of_range_is_named(rt: HostRuntime) -> Result<(), Fail> {
    let square = contours_from(rt.alloc(), &[SQUARE])?;
    let beyond = contours_from(rt.alloc(), &[SQUARE, &[(0, 0), (i32::MAX, 0), (0, 4)]])?;
    let fault = ContourFault::OutOfRange {
        shape_type: ShapeType::Clip,
        contour: 1,
        point: 1,
    };
    let refused = relations(rt.alloc(), &square, &beyond, FillRule::NonZero);
    assert_eq!(rt; refused, Err(RelationFault::Refused(fault)));
    Ok(())
}

/// The relations of the rows by regions that are prepared once.
#[test]
fn regions_worked_by_hand(rt: HostRuntime) -> Result<(), Fail> {
    for (name, subject, clip, fill_rule, wanted) in ROWS {
        let subject = contours_from(rt.alloc(), subject)?;
        let clip = contours_from(rt.alloc(), clip)?;
        let first = Region::new(rt.alloc(), &subject, &Solver::AUTO, fill_rule)?;
        let second = Region::new(rt.alloc(), &clip, &Solver::AUTO, fill_rule)?;
        let found = (
            first.interiors_meet(&second, &Solver::AUTO)?,
            first.covers(&second, &Solver::AUTO)?,
            first.is_within(&second, &Solver::AUTO)?,
            first.same_region(&second, &Solver::AUTO)?,
        );
        assert_eq!(rt; found, wanted, "{name}");
    }
    Ok(())
}

/// A square in a square is a hole by even-odd, and none by non-zero.
#[test]
fn regions_of_two_fill_rules(rt: HostRuntime) -> Result<(), Fail> {
    let contours = contours_from(rt.alloc(), &[WIDE_SQUARE, INNER_SQUARE])?;
    let with_hole = Region::new(rt.alloc(), &contours, &Solver::AUTO, FillRule::EvenOdd)?;
    let whole = Region::new(rt.alloc(), &contours, &Solver::AUTO, FillRule::NonZero)?;
    assert!(rt; with_hole.is_within(&whole, &Solver::AUTO)?);
    assert!(rt; !with_hole.covers(&whole, &Solver::AUTO)?);
    assert!(rt; !with_hole.same_region(&whole, &Solver::AUTO)?);
    assert_eq!(rt;
        (with_hole.boundary().len(), whole.boundary().len()),
        (2, 1)
    );
    let inner = contours_from(rt.alloc(), &[INNER_SQUARE])?;
    let inner = Region::new(rt.alloc(), &inner, &Solver::AUTO, FillRule::Positive)?;
    assert!(rt; whole.covers(&inner, &Solver::AUTO)?);
    assert!(rt; !with_hole.interiors_meet(&inner, &Solver::AUTO)?);
    Ok(())
}

#[test]
fn region_that_is_not_exact_is_refused(rt: HostRuntime) -> Result<(), Fail> {
    let bow = contours_from(rt.alloc(), &[BOW])?;
    let refused = Region::new(rt.alloc(), &bow, &Solver::AUTO, FillRule::EvenOdd);
    assert!(rt; matches!(refused, Err(RelationFault::NotExact(ShapeType::Subject))));
    let both = contours_from(rt.alloc(), &[BOW, BOW_BACK])?;
    let nothing = Region::new(rt.alloc(), &both, &Solver::AUTO, FillRule::NonZero)?;
    assert!(rt; nothing.boundary().is_empty());
    Ok(())
}
