// Crossings, touches and overlaps worked by hand, in both orders of the arguments and for both engines.
ghost use Rattle.std.specs.Prelude.{◌≢◌, ◌≡◌, true};
ghost use Rattle.overlay_geometry.specs.Meeting.{are_collinear};
ghost use Rattle.overlay_geometry.specs.PairOf.{pair_of};
ghost use Rattle.overlay_geometry.specs.InRange.{IsPairInRange};

mod far_ends;

use crate::usable::is_in_range;
use overlay_geometry::geom::point::IntPoint;
use overlay_geometry::geom::triangle::Triangle;
use overlay_geometry::geom::x_segment::XSegment;
use overlay_geometry::num::OverlayInt;
use overlay_intersections::split::cross_solver::*;
use std::process::Abort;
use std::test::Fail;

/// What a call returns: the kind, the point and whether it is rounded.
type Answer = Option<(CrossType, i64, i64, bool)>;

/// The ends of two segments, a squared radius, the result with the first as target, and with the
/// second.
struct Row {
    name: &'static str,
    first: [i32; 4],
    second: [i32; 4],
    radius_squared: i64,
    answer: Answer,
    swapped: Answer,
}

static ROWS: [Row; 17] = [
    Row {
        name: "no end within the radius",
        first: [0, 0, 5, 5],
        second: [0, 3, 5, -2],
        radius_squared: 4,
        answer: Some((CrossType::Pure, 2, 2, true)),
        swapped: Some((CrossType::Pure, 2, 1, true)),
    },
    Row {
        name: "an end on the radius",
        first: [0, 0, 5, 5],
        second: [0, 3, 5, -2],
        radius_squared: 5,
        answer: Some((CrossType::OtherEnd, 0, 3, true)),
        swapped: Some((CrossType::OtherEnd, 0, 0, true)),
    },
    Row {
        name: "a vertical segment near an end",
        first: [0, 0, 100, 1],
        second: [1, -50, 1, 50],
        radius_squared: 1,
        answer: Some((CrossType::TargetEnd, 0, 0, true)),
        swapped: Some((CrossType::OtherEnd, 0, 0, true)),
    },
    Row {
        name: "the diagonals of the narrow engine",
        first: [-16384, -16384, 16383, 16383],
        second: [-16384, 16383, 16383, -16384],
        radius_squared: 1,
        answer: Some((CrossType::Pure, 0, 0, true)),
        swapped: Some((CrossType::Pure, 0, -1, true)),
    },
    Row {
        name: "the diagonals of the wide engine",
        first: [-1_073_741_824, -1_073_741_824, 1_073_741_823, 1_073_741_823],
        second: [-1_073_741_824, 1_073_741_823, 1_073_741_823, -1_073_741_824],
        radius_squared: 1,
        answer: Some((CrossType::Pure, 0, 0, true)),
        swapped: Some((CrossType::Pure, 0, -1, true)),
    },
    Row {
        name: "a corner of the narrow engine that is cut off",
        first: [-16384, -16384, 16383, 16383],
        second: [-16384, -16383, -16383, -16384],
        radius_squared: 1,
        answer: Some((CrossType::OtherEnd, -16383, -16384, true)),
        swapped: Some((CrossType::TargetEnd, -16383, -16384, true)),
    },
    Row {
        name: "a corner of the wide engine that is cut off",
        first: [-1_073_741_824, -1_073_741_824, 1_073_741_823, 1_073_741_823],
        second: [
            -1_073_741_824,
            -1_073_741_823,
            -1_073_741_823,
            -1_073_741_824,
        ],
        radius_squared: 1,
        answer: Some((CrossType::OtherEnd, -1_073_741_823, -1_073_741_824, true)),
        swapped: Some((CrossType::TargetEnd, -1_073_741_823, -1_073_741_824, true)),
    },
    Row {
        name: "far out, with whole coordinates",
        first: [-1_024_000_000, -1_024_000_000, 1_024_000_000, 1_024_000_000],
        second: [512_000_000, -1_024_000_000, 512_000_000, 1_024_000_000],
        radius_squared: 2,
        answer: Some((CrossType::Pure, 512_000_000, 512_000_000, false)),
        swapped: Some((CrossType::Pure, 512_000_000, 512_000_000, false)),
    },
    Row {
        name: "a crossing of long segments",
        first: [-8_555_798, -1_599_355, -1_024_000, 0],
        second: [-8_571_363, 1_513_719, -1_023_948, -10_239],
        radius_squared: 2,
        answer: Some((CrossType::Pure, -1_048_691, -5_243, true)),
        swapped: Some((CrossType::Pure, -1_048_691, -5_243, true)),
    },
    Row {
        name: "an overlap far out",
        first: [-276_659_431, 380_789_039, -221_915_258, 435_533_212],
        second: [-276_659_432, 380_789_038, -276_659_430, 380_789_040],
        radius_squared: 2,
        answer: Some((CrossType::Overlay, 0, 0, false)),
        swapped: Some((CrossType::Overlay, 0, 0, false)),
    },
    Row {
        name: "nearly parallel",
        first: [7256, -14637, 7454, -15045],
        second: [7343, -14833, 7506, -15144],
        radius_squared: 2,
        answer: Some((CrossType::Pure, 7453, -15042, true)),
        swapped: Some((CrossType::Pure, 7453, -15042, true)),
    },
    Row {
        name: "a touch",
        first: [-512000, 0, 512000, 0],
        second: [-512000, -512000, -512000, 512000],
        radius_squared: 2,
        answer: Some((CrossType::TargetEnd, -512000, 0, false)),
        swapped: Some((CrossType::OtherEnd, -512000, 0, false)),
    },
    Row {
        name: "an overlap",
        first: [-1024, 0, 512, 0],
        second: [0, 0, 1024, 0],
        radius_squared: 2,
        answer: Some((CrossType::Overlay, 0, 0, false)),
        swapped: Some((CrossType::Overlay, 0, 0, false)),
    },
    Row {
        name: "no end of two flat segments within the radius",
        first: [0, 0, 100, 1],
        second: [0, 1, 100, 0],
        radius_squared: 1,
        answer: Some((CrossType::Pure, 50, 1, true)),
        swapped: Some((CrossType::Pure, 50, 0, true)),
    },
    Row {
        name: "two ends as near",
        first: [0, 0, 100, 1],
        second: [0, 1, 100, 0],
        radius_squared: 2500,
        answer: Some((CrossType::TargetEnd, 100, 1, true)),
        swapped: Some((CrossType::TargetEnd, 100, 0, true)),
    },
    Row {
        name: "a shared end, ends not in order",
        first: [-512000, 512000, 512000, 512000],
        second: [-512000, 512000, -512000, -512000],
        radius_squared: 2,
        answer: None,
        swapped: None,
    },
    Row {
        name: "half a step along an axis",
        first: [0, 0, 2, 0],
        second: [0, 1, 3, -1],
        radius_squared: 1,
        answer: Some((CrossType::TargetEnd, 2, 0, true)),
        swapped: Some((CrossType::OtherEnd, 2, 0, true)),
    },
];

/// A segment of the wide engine.
fn wide(ends: [i32; 4]) -> XSegment<i32> {
    XSegment {
        a: IntPoint::new(ends[0], ends[1]),
        b: IntPoint::new(ends[2], ends[3]),
    }
}

/// A segment of the narrow engine, where its type holds the coordinates.
fn narrow(ends: [i32; 4]) -> Option<XSegment<i16>> {
    Some(XSegment {
        a: IntPoint::new(i16::try_from(ends[0]).ok()?, i16::try_from(ends[1]).ok()?),
        b: IntPoint::new(i16::try_from(ends[2]).ok()?, i16::try_from(ends[3]).ok()?),
    })
}

/// Whether a segment is in range and has two ends.
fn is_usable<I: OverlayInt>(segment: &XSegment<I>) -> bool
    ensures in_range { result ≡ true → IsPairInRange I.whole I.MIN_COORD I.MAX_COORD segment.now }
    ensures apart { result ≡ true → (pair_of I.whole segment.now).a ≢ (pair_of I.whole segment.now).b }
{
    is_in_range(segment) && segment.a != segment.b
}

/// How two segments meet, as the tables write it: in a pass that snaps within a radius, or, without one, in a pass that settles.
fn met<I: OverlayInt>(
    target: &XSegment<I>,
    other: &XSegment<I>,
    radius_squared: Option<i64>,
) -> Result<Answer, &'static str> {
    if !is_usable(target) || !is_usable(other) {
        return Err("a segment out of range, or of one point");
    }
    let met = match radius_squared {
        Some(radius_squared) if 1 <= radius_squared => {
            CrossSolver::cross(target, other, radius_squared)
        }
        _ => CrossSolver::cross_settled(target, other),
    };
    Ok(met.map(|met| {
        let (x, y) = (met.point.x.to_wide(), met.point.y.to_wide());
        (met.cross_type, x, y, met.is_round)
    }))
}

/// Whether two segments meet so, with the first as target and with the second.
fn meet_so<I: OverlayInt>(
    first: &XSegment<I>,
    second: &XSegment<I>,
    radius_squared: Option<i64>,
    wanted: [Answer; 2],
) -> Result<bool, &'static str> {
    let found = met(first, second, radius_squared)?;
    Ok([found, met(second, first, radius_squared)?] == wanted)
}

#[test]
fn rows_in_the_wide_engine(rt: HostRuntime) -> Result<(), Fail> {
    for row in ROWS.iter() {
        let (first, second) = (wide(row.first), wide(row.second));
        let wanted = [row.answer, row.swapped];
        assert!(rt;
            meet_so(&first, &second, Some(row.radius_squared), wanted)?,
            "{}",
            row.name
        );
    }
    Ok(())
}

#[test]
fn rows_in_the_narrow_engine(rt: HostRuntime) -> Result<(), Fail> {
    let mut count = 0u32;
    for row in ROWS.iter() {
        if let (Some(first), Some(second)) = (narrow(row.first), narrow(row.second)) {
            let wanted = [row.answer, row.swapped];
            assert!(rt;
                meet_so(&first, &second, Some(row.radius_squared), wanted)?,
                "{}",
                row.name
            );
            count = count.saturating_add(1);
        }
    }
    assert!(rt; count == 10);
    Ok(())
}

/// The number of the ends that two segments on one line mark.
fn overlap(target: &XSegment<i32>, other: &XSegment<i32>) -> Option<u8> {
    if !is_usable(target) || !is_usable(other) || !are_collinear(target, other) {
        return None;
    }
    Some(CrossSolver::collinear(target, other).number())
}

#[test]
fn masks_of_overlaps(rt: HostRuntime) {
    let first = wide([-1024, 0, 512, 0]);
    let second = wide([0, 0, 1024, 0]);
    assert!(rt; overlap(&first, &second) == Some(6));
    assert!(rt; overlap(&second, &first) == Some(9));
    let first = wide([-276_659_431, 380_789_039, -221_915_258, 435_533_212]);
    let second = wide([-276_659_432, 380_789_038, -276_659_430, 380_789_040]);
    assert!(rt; overlap(&first, &second) == Some(9));
}

/// Whether the second segment lies on the first one's line.
fn are_collinear<I: OverlayInt>(target: &XSegment<I>, other: &XSegment<I>) -> bool
    requires target { IsPairInRange I.whole I.MIN_COORD I.MAX_COORD target.now }
    requires other { IsPairInRange I.whole I.MIN_COORD I.MAX_COORD other.now }
    ensures { result ≡ are_collinear (pair_of I.whole target.now) (pair_of I.whole other.now) }
{
    Triangle::is_line(target.a, target.b, other.a) && Triangle::is_line(target.a, target.b, other.b)
}

/// The ends of two segments that meet in a pass that settles, and the result with either as target.
struct SettledRow {
    name: &'static str,
    first: [i32; 4],
    second: [i32; 4],
    answer: Answer,
    swapped: Answer,
}

static SETTLED_ROWS: [SettledRow; 5] = [
    SettledRow {
        name: "halves upward in both coordinates, onto an end",
        first: [-1, 1, 2, -2],
        second: [0, -1, 1, 0],
        answer: Some((CrossType::OtherEnd, 1, 0, true)),
        swapped: Some((CrossType::TargetEnd, 1, 0, true)),
    },
    SettledRow {
        name: "halves of positive numbers",
        first: [0, 0, 5, 5],
        second: [0, 3, 5, -2],
        answer: Some((CrossType::Pure, 2, 2, true)),
        swapped: Some((CrossType::Pure, 2, 2, true)),
    },
    SettledRow {
        name: "halves of negative numbers",
        first: [-5, -5, 0, 0],
        second: [-5, 2, 0, -3],
        answer: Some((CrossType::Pure, -1, -1, true)),
        swapped: Some((CrossType::Pure, -1, -1, true)),
    },
    SettledRow {
        name: "whole coordinates",
        first: [0, 0, 2, 2],
        second: [0, 2, 2, 0],
        answer: Some((CrossType::Pure, 1, 1, false)),
        swapped: Some((CrossType::Pure, 1, 1, false)),
    },
    SettledRow {
        name: "a touch",
        first: [0, 0, 4, 0],
        second: [2, 0, 2, 3],
        answer: Some((CrossType::OtherEnd, 2, 0, false)),
        swapped: Some((CrossType::TargetEnd, 2, 0, false)),
    },
];

#[test]
fn rows_that_settle(rt: HostRuntime) -> Result<(), Fail> {
    for row in SETTLED_ROWS.iter() {
        let (first, second) = (wide(row.first), wide(row.second));
        assert!(rt;
            meet_so(&first, &second, None, [row.answer, row.swapped])?,
            "{}",
            row.name
        );
    }
    Ok(())
}
