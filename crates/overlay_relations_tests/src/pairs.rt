// Pairs of related regions, worked by hand.
use overlay_base::overlay_core::fill_rule::FillRule;
use overlay_base::overlay_core::solver::Solver;
use overlay_contours::contour::IntContour;
use overlay_geometry::geom::point::IntPoint;
use overlay_relations::pairs::{RelatedPair, related_pairs};
use overlay_relations::predicate::Predicate;
use overlay_relations::region::Region;
use std::alloc::Global;
use std::test::Fail;

/// A contour as the tables write it.
type Corners = &'static [(i32, i32)];

/// A relation, and the pairs that are in it.
type Row = (Predicate, &'static [(usize, usize)]);

/// Two squares side by side, nothing, one far away, and a triangle below the line from the origin to (9, 1).
const FIRST: [&[Corners]; 5] = [
    &[&[(0, 0), (4, 0), (4, 4), (0, 4)]],
    &[&[(4, 0), (8, 0), (8, 4), (4, 4)]],
    &[],
    &[&[(90, 90), (94, 90), (94, 94), (90, 94)]],
    &[&[(0, 0), (9, 0), (9, 1)]],
];

/// One across both, one inside the first, nothing, the second run the other way, one at a corner of that, and the far one with a hole.
const SECOND: [&[Corners]; 6] = [
    &[&[(3, 1), (5, 1), (5, 3), (3, 3)]],
    &[&[(1, 2), (2, 2), (2, 3), (1, 3)]],
    &[],
    &[&[(4, 4), (8, 4), (8, 0), (4, 0)]],
    &[&[(8, 4), (9, 4), (9, 5), (8, 5)]],
    &[
        &[(90, 90), (94, 90), (94, 94), (90, 94)],
        &[(91, 91), (91, 92), (92, 92), (92, 91)],
    ],
];

const ROWS: [Row; 6] = [
    (
        Predicate::SharePoint,
        &[
            (0, 0),
            (0, 1),
            (0, 3),
            (1, 0),
            (1, 3),
            (1, 4),
            (3, 5),
            (4, 3),
        ],
    ),
    (
        Predicate::InteriorsMeet,
        &[(0, 0), (0, 1), (1, 0), (1, 3), (3, 5), (4, 3)],
    ),
    (Predicate::Touch, &[(0, 3), (1, 4)]),
    (Predicate::Covers, &[(0, 1), (1, 3), (3, 5)]),
    (Predicate::IsWithin, &[(1, 3)]),
    (Predicate::SameRegion, &[(1, 3)]),
];

/// The regions of shapes of a table.
fn regions_from(alloc: Global, shapes: &[&[Corners]]) -> Result<Vec<Region<i32>>, Fail> {
    let mut regions = Vec::new(alloc);
    for shape in shapes {
        let mut contours: Vec<IntContour<i32>> = Vec::new(alloc);
        for corners in *shape {
            let mut contour = Vec::new(alloc);
            for (x, y) in *corners {
                contour.push(IntPoint::new(*x, *y))?;
            }
            contours.push(contour)?;
        }
        let region = Region::new(alloc, &contours, &Solver::AUTO, FillRule::EvenOdd)?;
        regions.push(region)?;
    }
    Ok(regions)
}

#[test]
fn pairs_worked_by_hand(rt: HostRuntime) -> Result<(), Fail> {
    let first = regions_from(rt.alloc(), &FIRST)?;
    let second = regions_from(rt.alloc(), &SECOND)?;
    for (predicate, wanted) in ROWS {
        let found = related_pairs(rt.alloc(), &first, &second, predicate, &Solver::AUTO)?;
        let mut pairs = Vec::new(rt.alloc());
        for (first, second) in wanted {
            pairs.push(RelatedPair {
                first: *first,
                second: *second,
            })?;
        }
        assert_eq!(rt; found, pairs, "{predicate:?}");
    }
    Ok(())
}
