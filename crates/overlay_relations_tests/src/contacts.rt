// Contacts of pairs of shapes, worked by hand from their definitions.
use overlay_base::overlay_core::fill_rule::FillRule;
use overlay_base::overlay_core::solver::Solver;
use overlay_base::segm::fault::Fault;
use overlay_base::segm::shape_type::ShapeType;
use overlay_contours::contour::IntContour;
use overlay_geometry::geom::point::IntPoint;
use overlay_relations::contacts::{is_disjoint, touches};
use overlay_relations::fault::RelationFault;
use std::alloc::Global;
use std::test::Fail;

/// A contour as the tables write it.
type Corners = &'static [(i32, i32)];

/// A shape as the tables write it.
type Contours = &'static [Corners];

/// Whether the shapes touch, and whether they are disjoint.
type Contact = (bool, bool);

/// A name, the subject, the clip, the fill rule, and their contact.
type Row = (&'static str, Contours, Contours, FillRule, Contact);

const MEET: Contact = (false, false);

const TOUCH: Contact = (true, false);

const APART: Contact = (false, true);

const SQUARE: Corners = &[(0, 0), (4, 0), (4, 4), (0, 4)];

const WIDE_SQUARE: Corners = &[(0, 0), (8, 0), (8, 8), (0, 8)];

const INNER_SQUARE: Corners = &[(2, 2), (6, 2), (6, 6), (2, 6)];

/// Below the line from the origin to (10, 5).
const BELOW_A_SLOPE: Corners = &[(0, 0), (10, 0), (10, 5)];

/// Two triangles that meet in (2, 2).
const CROSSED: Corners = &[(0, 0), (4, 4), (4, 0), (0, 4)];

static ROWS: [Row; 17] = [
    ("both are empty", &[], &[], FillRule::NonZero, APART),
    (
        "a clip without area inside",
        &[SQUARE],
        &[&[(1, 1), (3, 2)]],
        FillRule::NonZero,
        APART,
    ),
    (
        "a clip that the rule leaves empty",
        &[SQUARE],
        &[&[(0, 4), (4, 4), (4, 0), (0, 0)]],
        FillRule::Positive,
        APART,
    ),
    (
        "a common corner",
        &[SQUARE],
        &[&[(4, 4), (8, 4), (8, 8)]],
        FillRule::NonZero,
        TOUCH,
    ),
    (
        "a common part of an edge",
        &[SQUARE],
        &[&[(4, 1), (8, 1), (8, 9), (4, 9)]],
        FillRule::NonZero,
        TOUCH,
    ),
    (
        "a corner inside an edge",
        &[SQUARE],
        &[&[(4, 2), (8, 0), (8, 4)]],
        FillRule::NonZero,
        TOUCH,
    ),
    (
        "a corner inside a sloping edge",
        &[BELOW_A_SLOPE],
        &[&[(4, 2), (4, 6), (2, 6)]],
        FillRule::EvenOdd,
        TOUCH,
    ),
    (
        "a corner just off a sloping edge",
        &[BELOW_A_SLOPE],
        &[&[(3, 2), (4, 6), (2, 6)]],
        FillRule::EvenOdd,
        APART,
    ),
    (
        "a gap of one unit",
        &[SQUARE],
        &[&[(5, 0), (8, 0), (8, 4), (5, 4)]],
        FillRule::NonZero,
        APART,
    ),
    (
        "a hole that holds the other exactly",
        &[WIDE_SQUARE, INNER_SQUARE],
        &[INNER_SQUARE],
        FillRule::EvenOdd,
        TOUCH,
    ),
    (
        "a hole with the other away from it",
        &[WIDE_SQUARE, INNER_SQUARE],
        &[&[(3, 3), (5, 3), (5, 5), (3, 5)]],
        FillRule::EvenOdd,
        APART,
    ),
    (
        "a hole with a corner of the other on it",
        &[WIDE_SQUARE, INNER_SQUARE],
        &[&[(4, 2), (5, 5), (3, 5)]],
        FillRule::EvenOdd,
        TOUCH,
    ),
    (
        "one inside the other",
        &[WIDE_SQUARE],
        &[INNER_SQUARE],
        FillRule::NonZero,
        MEET,
    ),
    (
        "a corner on an edge within the shape",
        &[SQUARE, INNER_SQUARE],
        &[&[(2, 3), (3, 3), (3, 2)]],
        FillRule::NonZero,
        MEET,
    ),
    (
        "a crossing without integer coordinates",
        &[&[(0, 0), (10, 0), (10, 1)]],
        &[&[(0, 0), (11, 1), (0, 1)]],
        FillRule::NonZero,
        MEET,
    ),
    (
        "a clip at the point where the subject crosses itself",
        &[CROSSED],
        &[&[(2, 2), (3, 5), (1, 5)]],
        FillRule::NonZero,
        TOUCH,
    ),
    (
        "a clip beside that point",
        &[CROSSED],
        &[&[(2, 3), (3, 5), (1, 5)]],
        FillRule::NonZero,
        APART,
    ),
];

/// The contours of a shape.
fn contours_from(alloc: Global, lists: &[Corners]) -> Result<Vec<IntContour<i32>>, Fault> {
    let mut contours = Vec::new(alloc);
    for corners in lists {
        let points = corners.iter().map(|(x, y)| IntPoint::new(*x, *y));
        contours.push(points.collect(alloc)?)?;
    }
    Ok(contours)
}

/// Whether shapes touch, and whether they are disjoint.
fn contact(
    alloc: Global,
    subject: &[IntContour<i32>],
    clip: &[IntContour<i32>],
    fill_rule: FillRule,
) -> Result<Contact, RelationFault> {
    let touch = touches(alloc, subject, clip, &Solver::AUTO, fill_rule)?;
    let disjoint = is_disjoint(alloc, subject, clip, &Solver::AUTO, fill_rule)?;
    Ok((touch, disjoint))
}

/// Each pair is tried in both orders.
#[test]
fn contacts_worked_by_hand(rt: HostRuntime) -> Result<(), Fail> {
    for (name, subject, clip, fill_rule, wanted) in ROWS {
        let subject = contours_from(rt.alloc(), subject)?;
        let clip = contours_from(rt.alloc(), clip)?;
        let found = contact(rt.alloc(), &subject, &clip, fill_rule)?;
        assert_eq!(rt; found, wanted, "{name}");
        let turned = contact(rt.alloc(), &clip, &subject, fill_rule)?;
        assert_eq!(rt; turned, wanted, "{name}, exchanged");
    }
    Ok(())
}

/// A shape whose edges cross at a point without integer coordinates is named.
#[test]
fn inexact_crossings_are_named(rt: HostRuntime) -> Result<(), Fail> {
    let bow = contours_from(rt.alloc(), &[&[(0, 0), (1, 1), (1, 0), (0, 1)]])?;
    let square = contours_from(rt.alloc(), &[SQUARE])?;
    let of_clip = contact(rt.alloc(), &square, &bow, FillRule::EvenOdd);
    assert_eq!(rt; of_clip, Err(RelationFault::NotExact(ShapeType::Clip)));
    Ok(())
}
