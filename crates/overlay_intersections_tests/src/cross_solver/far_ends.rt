// Segments from corner to corner and slivers over the whole range, at the limits of both engines. Each two cross
// strictly inside both, far from every end, at a point without whole coordinates.

use super::*;

/// The ends of two segments; where a snapping pass places their crossing, with the first as target and with the second;
/// and where a settling pass places it.
struct FarRow {
    name: &'static str,
    first: [i32; 4],
    second: [i32; 4],
    snapped: (i64, i64),
    swapped: (i64, i64),
    settled: (i64, i64),
}

static WIDE_ROWS: [FarRow; 9] = [
    FarRow {
        name: "diagonals from corner to corner",
        first: [-1_073_741_824, -1_073_741_824, 1_073_741_823, 1_073_741_823],
        second: [-1_073_741_824, 1_073_741_823, 1_073_741_823, -1_073_741_824],
        snapped: (0, 0),
        swapped: (0, -1),
        settled: (0, 0),
    },
    FarRow {
        name: "flat slivers over the whole range",
        first: [-1_073_741_824, 0, 1_073_741_822, 1],
        second: [-1_073_741_824, 1, 1_073_741_822, 0],
        snapped: (-1, 1),
        swapped: (-1, 0),
        settled: (-1, 1),
    },
    FarRow {
        name: "steep slivers over the whole range",
        first: [0, -1_073_741_824, 1, 1_073_741_822],
        second: [0, 1_073_741_822, 1, -1_073_741_824],
        snapped: (1, -1),
        swapped: (1, -1),
        settled: (1, -1),
    },
    FarRow {
        name: "slivers along a diagonal",
        first: [-1_073_741_824, -1_073_741_824, 1_073_741_823, 1_073_741_823],
        second: [-1_073_741_824, -1_073_741_823, 1_073_741_823, 1_073_741_822],
        snapped: (0, 0),
        swapped: (0, 0),
        settled: (0, 0),
    },
    FarRow {
        name: "slivers along the other diagonal",
        first: [-1_073_741_824, 1_073_741_823, 1_073_741_823, -1_073_741_824],
        second: [-1_073_741_824, 1_073_741_822, 1_073_741_823, -1_073_741_823],
        snapped: (0, -1),
        swapped: (0, -1),
        settled: (0, 0),
    },
    FarRow {
        name: "slivers at the greatest height",
        first: [-1_073_741_824, 1_073_741_823, 1_073_741_823, 1_073_741_822],
        second: [-1_073_741_824, 1_073_741_822, 1_073_741_823, 1_073_741_823],
        snapped: (0, 1_073_741_822),
        swapped: (0, 1_073_741_823),
        settled: (0, 1_073_741_823),
    },
    FarRow {
        name: "slivers at the least height",
        first: [
            -1_073_741_824,
            -1_073_741_824,
            1_073_741_823,
            -1_073_741_823,
        ],
        second: [
            -1_073_741_824,
            -1_073_741_823,
            1_073_741_823,
            -1_073_741_824,
        ],
        snapped: (0, -1_073_741_823),
        swapped: (0, -1_073_741_824),
        settled: (0, -1_073_741_823),
    },
    FarRow {
        name: "slivers at the right end",
        first: [1_073_741_822, -1_073_741_824, 1_073_741_823, 1_073_741_823],
        second: [1_073_741_822, 1_073_741_823, 1_073_741_823, -1_073_741_824],
        snapped: (1_073_741_823, 0),
        swapped: (1_073_741_823, -1),
        settled: (1_073_741_823, 0),
    },
    FarRow {
        name: "slivers at the left end",
        first: [
            -1_073_741_824,
            -1_073_741_824,
            -1_073_741_823,
            1_073_741_823,
        ],
        second: [
            -1_073_741_824,
            1_073_741_823,
            -1_073_741_823,
            -1_073_741_824,
        ],
        snapped: (-1_073_741_823, 0),
        swapped: (-1_073_741_823, -1),
        settled: (-1_073_741_823, 0),
    },
];

static NARROW_ROWS: [FarRow; 9] = [
    FarRow {
        name: "diagonals from corner to corner",
        first: [-16_384, -16_384, 16_383, 16_383],
        second: [-16_384, 16_383, 16_383, -16_384],
        snapped: (0, 0),
        swapped: (0, -1),
        settled: (0, 0),
    },
    FarRow {
        name: "flat slivers over the whole range",
        first: [-16_384, 0, 16_382, 1],
        second: [-16_384, 1, 16_382, 0],
        snapped: (-1, 1),
        swapped: (-1, 0),
        settled: (-1, 1),
    },
    FarRow {
        name: "steep slivers over the whole range",
        first: [0, -16_384, 1, 16_382],
        second: [0, 16_382, 1, -16_384],
        snapped: (1, -1),
        swapped: (1, -1),
        settled: (1, -1),
    },
    FarRow {
        name: "slivers along a diagonal",
        first: [-16_384, -16_384, 16_383, 16_383],
        second: [-16_384, -16_383, 16_383, 16_382],
        snapped: (0, 0),
        swapped: (0, 0),
        settled: (0, 0),
    },
    FarRow {
        name: "slivers along the other diagonal",
        first: [-16_384, 16_383, 16_383, -16_384],
        second: [-16_384, 16_382, 16_383, -16_383],
        snapped: (0, -1),
        swapped: (0, -1),
        settled: (0, 0),
    },
    FarRow {
        name: "slivers at the greatest height",
        first: [-16_384, 16_383, 16_383, 16_382],
        second: [-16_384, 16_382, 16_383, 16_383],
        snapped: (0, 16_382),
        swapped: (0, 16_383),
        settled: (0, 16_383),
    },
    FarRow {
        name: "slivers at the least height",
        first: [-16_384, -16_384, 16_383, -16_383],
        second: [-16_384, -16_383, 16_383, -16_384],
        snapped: (0, -16_383),
        swapped: (0, -16_384),
        settled: (0, -16_383),
    },
    FarRow {
        name: "slivers at the right end",
        first: [16_382, -16_384, 16_383, 16_383],
        second: [16_382, 16_383, 16_383, -16_384],
        snapped: (16_383, 0),
        swapped: (16_383, -1),
        settled: (16_383, 0),
    },
    FarRow {
        name: "slivers at the left end",
        first: [-16_384, -16_384, -16_383, 16_383],
        second: [-16_384, 16_383, -16_383, -16_384],
        snapped: (-16_383, 0),
        swapped: (-16_383, -1),
        settled: (-16_383, 0),
    },
];

/// The result for a crossing strictly inside both segments, at a point that is rounded.
fn rounded(point: (i64, i64)) -> Answer {
    Some((CrossType::Pure, point.0, point.1, true))
}

/// Whether two segments meet as a row says, in a pass that snaps and in one that settles.
fn meet_far<I: OverlayInt>(
    row: &FarRow,
    first: &XSegment<I>,
    second: &XSegment<I>,
) -> Result<bool, &'static str> {
    let snapped = [rounded(row.snapped), rounded(row.swapped)];
    let settled = [rounded(row.settled); 2];
    Ok(meet_so(first, second, Some(1), snapped)? && meet_so(first, second, None, settled)?)
}

#[test]
fn far_ends_of_the_wide_engine(rt: HostRuntime) -> Result<(), Fail> {
    for row in WIDE_ROWS.iter() {
        assert!(rt;
            meet_far(row, &wide(row.first), &wide(row.second))?,
            "{}",
            row.name
        );
    }
    Ok(())
}

#[test]
fn far_ends_of_the_narrow_engine(rt: HostRuntime) -> Result<(), Fail> {
    for row in NARROW_ROWS.iter() {
        let first = narrow(row.first).ok_or(row.name)?;
        let second = narrow(row.second).ok_or(row.name)?;
        assert!(rt; meet_far(row, &first, &second)?, "{}", row.name);
    }
    Ok(())
}
