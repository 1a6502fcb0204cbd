// Matrices of pairs of shapes, worked by hand from their definitions.
use overlay_base::overlay_core::fill_rule::FillRule;
use overlay_base::overlay_core::solver::Solver;
use overlay_base::segm::fault::Fault;
use overlay_base::segm::shape_type::ShapeType;
use overlay_contours::contour::IntContour;
use overlay_geometry::geom::point::IntPoint;
use overlay_relations::fault::RelationFault;
use overlay_relations::matrix::{Part, Relation, relate};
use overlay_relations::region::Region;
use std::alloc::Global;
use std::test::Fail;

/// A contour as the tables write it.
type Corners = &'static [(i32, i32)];

/// A shape as the tables write it.
type Contours = &'static [Corners];

/// The entries of the subject's interior, of its boundary and of its exterior, each with those parts of the clip.
type Entries = [bool; 9];

/// A name, the subject, the clip, the fill rule, and the entries.
type Row = (&'static str, Contours, Contours, FillRule, Entries);

const T: bool = true;

const F: bool = false;

const SQUARE: Corners = &[(0, 0), (4, 0), (4, 4), (0, 4)];

const WIDE_SQUARE: Corners = &[(0, 0), (8, 0), (8, 8), (0, 8)];

const INNER_SQUARE: Corners = &[(2, 2), (6, 2), (6, 6), (2, 6)];

static ROWS: [Row; 15] = [
    (
        "both are empty",
        &[],
        &[],
        FillRule::NonZero,
        [F, F, F, F, F, F, F, F, T],
    ),
    (
        "the clip is empty",
        &[SQUARE],
        &[],
        FillRule::NonZero,
        [F, F, T, F, F, T, F, F, T],
    ),
    (
        "a common corner",
        &[SQUARE],
        &[&[(4, 4), (8, 4), (8, 8)]],
        FillRule::NonZero,
        [F, F, T, F, T, T, T, T, T],
    ),
    (
        "a common part of an edge",
        &[SQUARE],
        &[&[(4, 1), (8, 1), (8, 9), (4, 9)]],
        FillRule::NonZero,
        [F, F, T, F, T, T, T, T, T],
    ),
    (
        "a gap of one unit",
        &[SQUARE],
        &[&[(5, 0), (8, 0), (8, 4), (5, 4)]],
        FillRule::NonZero,
        [F, F, T, F, F, T, T, T, T],
    ),
    (
        "one inside the other",
        &[WIDE_SQUARE],
        &[INNER_SQUARE],
        FillRule::NonZero,
        [T, T, T, F, F, T, F, F, T],
    ),
    (
        "one inside the other, along two edges",
        &[WIDE_SQUARE],
        &[SQUARE],
        FillRule::NonZero,
        [T, T, T, F, T, T, F, F, T],
    ),
    (
        "one inside the other, with a corner on an edge",
        &[WIDE_SQUARE],
        &[&[(0, 2), (3, 1), (3, 3)]],
        FillRule::EvenOdd,
        [T, T, T, F, T, T, F, F, T],
    ),
    (
        "the same square, run the other way",
        &[SQUARE],
        &[&[(0, 4), (4, 4), (4, 0), (0, 0)]],
        FillRule::NonZero,
        [T, F, F, F, T, F, F, F, T],
    ),
    (
        "a square and the same with a hole",
        &[WIDE_SQUARE],
        &[WIDE_SQUARE, INNER_SQUARE],
        FillRule::EvenOdd,
        [T, T, T, F, T, F, F, F, T],
    ),
    (
        "a hole that holds the other exactly",
        &[WIDE_SQUARE, INNER_SQUARE],
        &[INNER_SQUARE],
        FillRule::EvenOdd,
        [F, F, T, F, T, T, T, F, T],
    ),
    (
        "a hole with the other away from it",
        &[WIDE_SQUARE, INNER_SQUARE],
        &[&[(3, 3), (5, 3), (5, 5), (3, 5)]],
        FillRule::EvenOdd,
        [F, F, T, F, F, T, T, T, T],
    ),
    (
        "a hole with a corner of the other on it",
        &[WIDE_SQUARE, INNER_SQUARE],
        &[&[(4, 2), (5, 5), (3, 5)]],
        FillRule::EvenOdd,
        [F, F, T, F, T, T, T, T, T],
    ),
    (
        "crossings at integer coordinates",
        &[SQUARE],
        &[INNER_SQUARE],
        FillRule::NonZero,
        [T, T, T, T, T, T, T, T, T],
    ),
    (
        "a crossing without integer coordinates",
        &[&[(0, 0), (10, 0), (10, 1)]],
        &[&[(0, 0), (11, 1), (0, 1)]],
        FillRule::NonZero,
        [T, T, T, T, T, T, T, T, T],
    ),
];

/// The contours of a shape.
fn contours_from(alloc: Global, lists: &[Corners]) -> Result<Vec<IntContour<i32>>, Fault> {
    let mut contours = Vec::new(alloc);
    for corners in lists {
        let points = corners.iter().map(|(x, y)| IntPoint::new(*x, *y));
        contours.push(points.collect(alloc)?)?;
    }
    Ok(contours)
}

/// The entries of a relation, subject first.
fn entries(relation: &Relation) -> Entries {
    [
        relation.meets(Part::Interior, Part::Interior),
        relation.meets(Part::Interior, Part::Boundary),
        relation.meets(Part::Interior, Part::Exterior),
        relation.meets(Part::Boundary, Part::Interior),
        relation.meets(Part::Boundary, Part::Boundary),
        relation.meets(Part::Boundary, Part::Exterior),
        relation.meets(Part::Exterior, Part::Interior),
        relation.meets(Part::Exterior, Part::Boundary),
        relation.meets(Part::Exterior, Part::Exterior),
    ]
}

/// The same, clip first.
fn exchanged(relation: &Relation) -> Entries {
    [
        relation.meets(Part::Interior, Part::Interior),
        relation.meets(Part::Boundary, Part::Interior),
        relation.meets(Part::Exterior, Part::Interior),
        relation.meets(Part::Interior, Part::Boundary),
        relation.meets(Part::Boundary, Part::Boundary),
        relation.meets(Part::Exterior, Part::Boundary),
        relation.meets(Part::Interior, Part::Exterior),
        relation.meets(Part::Boundary, Part::Exterior),
        relation.meets(Part::Exterior, Part::Exterior),
    ]
}

/// Each pair is tried in both orders, and prepared.
#[test]
fn matrices_worked_by_hand(rt: HostRuntime) -> Result<(), Fail> {
    let solver = Solver::AUTO;
    for (name, subject, clip, fill_rule, wanted) in ROWS {
        let subject = contours_from(rt.alloc(), subject)?;
        let clip = contours_from(rt.alloc(), clip)?;
        let found = relate(rt.alloc(), &subject, &clip, &solver, fill_rule)?;
        assert_eq!(rt; entries(&found), wanted, "{name}");
        let turned = relate(rt.alloc(), &clip, &subject, &solver, fill_rule)?;
        assert_eq!(rt; exchanged(&turned), wanted, "{name}, exchanged");
        let first = Region::new(rt.alloc(), &subject, &solver, fill_rule)?;
        let second = Region::new(rt.alloc(), &clip, &solver, fill_rule)?;
        let prepared = first.relate(&second, &solver)?;
        assert_eq!(rt; entries(&prepared), wanted, "{name}, prepared");
    }
    Ok(())
}

/// A shape whose edges cross at a point without integer coordinates is named.
#[test]
fn inexact_crossings_are_named(rt: HostRuntime) -> Result<(), Fail> {
    let bow = contours_from(rt.alloc(), &[&[(0, 0), (1, 1), (1, 0), (0, 1)]])?;
    let square = contours_from(rt.alloc(), &[SQUARE])?;
    let of_clip = relate(rt.alloc(), &square, &bow, &Solver::AUTO, FillRule::EvenOdd);
    assert_eq!(rt; of_clip, Err(RelationFault::NotExact(ShapeType::Clip)));
    Ok(())
}

#[test]
fn patterns_worked_by_hand(rt: HostRuntime) -> Result<(), Fail> {
    let square = contours_from(rt.alloc(), &[SQUARE])?;
    let corner = contours_from(rt.alloc(), &[&[(4, 4), (6, 4), (6, 6), (4, 6)]])?;
    let touch = relate(
        rt.alloc(),
        &square,
        &corner,
        &Solver::AUTO,
        FillRule::EvenOdd,
    )?;
    assert_eq!(rt; touch.matches(b"FFTFTTTTT"), Some(true));
    assert_eq!(rt; touch.matches(b"F***T****"), Some(true));
    assert_eq!(rt; touch.matches(b"T*F**FFF*"), Some(false));
    assert_eq!(rt; touch.matches(b"F***0****"), None);
    Ok(())
}
