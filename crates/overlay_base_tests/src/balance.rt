// Lists whose counts balance or not: contours that close or not, sums that leave the range of counts, masks of lines.

use crate::segments::segment;
use overlay_base::segm::balance::is_balanced;
use overlay_base::segm::boolean::ShapeCountBoolean;
use overlay_base::segm::segment::Segment;
use overlay_base::segm::string::ShapeCountString;
use overlay_base::segm::winding::WindingCount;
use std::alloc::Global;
use std::process::Abort;
use std::test::Fail;

/// From, to, and the count for the subject and for the clip.
type Row = ((i32, i32), (i32, i32), (i32, i32));

static LISTS: [(&str, &[Row], bool); 9] = [
    ("nothing", &[], true),
    (
        "a square",
        &[
            ((0, 0), (4, 0), (1, 0)),
            ((4, 0), (4, 4), (1, 0)),
            ((4, 4), (0, 4), (1, 0)),
            ((0, 4), (0, 0), (1, 0)),
        ],
        true,
    ),
    (
        "a square with a side missing",
        &[
            ((0, 0), (4, 0), (1, 0)),
            ((4, 4), (0, 4), (1, 0)),
            ((0, 4), (0, 0), (1, 0)),
        ],
        false,
    ),
    (
        "a square of the subject and one of the clip that share a corner",
        &[
            ((0, 0), (4, 0), (3, 0)),
            ((4, 0), (4, 4), (3, 0)),
            ((4, 4), (0, 4), (3, 0)),
            ((0, 4), (0, 0), (3, 0)),
            ((4, 4), (8, 4), (0, 1)),
            ((8, 4), (8, 8), (0, 1)),
            ((8, 8), (4, 8), (0, 1)),
            ((4, 8), (4, 4), (0, 1)),
        ],
        true,
    ),
    (
        "a square of the subject with a side of the clip",
        &[
            ((0, 0), (4, 0), (1, 0)),
            ((4, 0), (4, 4), (1, 0)),
            ((4, 4), (0, 4), (1, 0)),
            ((0, 4), (0, 0), (0, 1)),
        ],
        false,
    ),
    (
        "two in a row, whose counts cancel where they meet",
        &[((0, 0), (4, 0), (1, 0)), ((4, 0), (8, 0), (1, 0))],
        false,
    ),
    (
        "one there and one back",
        &[((0, 0), (4, 0), (1, -2)), ((4, 0), (0, 0), (1, -2))],
        true,
    ),
    (
        "four times 2^30 at each end, of which an i32 keeps 0",
        &[((0, 0), (4, 0), (0, 1_073_741_824)); 4],
        false,
    ),
    (
        "partial sums that leave the range",
        &[
            ((0, 0), (4, 0), (i32::MAX, -i32::MAX)),
            ((0, 0), (4, 0), (i32::MAX, -i32::MAX)),
            ((4, 0), (0, 0), (i32::MAX, -i32::MAX)),
            ((4, 0), (0, 0), (i32::MAX, -i32::MAX)),
        ],
        true,
    ),
];

/// The list of some rows.
fn boolean_list(
    alloc: Global,
    rows: &[Row],
) -> Result<Vec<Segment<ShapeCountBoolean, i32, ()>>, Fail> {
    let mut list = Vec::new(alloc);
    for (from, to, (subj, clip)) in rows.iter().copied() {
        let count = ShapeCountBoolean::new(subj, clip);
        list.push(segment(from, to, count).ok_or("no segment")?)?;
    }
    Ok(list)
}

#[test]
fn contours_that_close_or_not(rt: HostRuntime) -> Result<(), Fail> {
    for (name, rows, balanced) in LISTS {
        let list = boolean_list(rt.alloc(), rows)?;
        assert!(rt; is_balanced(rt.alloc(), &list) == Ok(balanced), "{name}");
    }
    Ok(())
}

#[test]
fn the_least_number_has_no_inverse(rt: HostRuntime) -> Result<(), Fail> {
    let side = segment((0, 0), (4, 0), ShapeCountBoolean::SUBJ_DIRECT).ok_or("no segment")?;
    let side = side.with_count_and_data(ShapeCountBoolean::new(i32::MIN, 0), ());
    assert!(rt; is_balanced(rt.alloc(), &[side, side]) == Ok(false));
    Ok(())
}

#[test]
fn masks_do_not_count(rt: HostRuntime) -> Result<(), Fail> {
    let line = |from, to, subj, clip| segment((from, 0), (to, 0), ShapeCountString { subj, clip });
    let mask = line(0, 4, 0, 2).ok_or("no segment")?;
    let step = line(0, 4, 1, 3).ok_or("no segment")?;
    let step_back = line(4, 0, 1, 0).ok_or("no segment")?;
    assert!(rt; is_balanced(rt.alloc(), &[mask]) == Ok(true));
    assert!(rt; is_balanced(rt.alloc(), &[step, mask]) == Ok(false));
    assert!(rt; is_balanced(rt.alloc(), &[step, mask, step_back]) == Ok(true));
    Ok(())
}
