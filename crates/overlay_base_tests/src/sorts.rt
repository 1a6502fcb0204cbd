// The sort of a list, and the same with parts that are sorted first.

use overlay_base::segm::boolean::ShapeCountBoolean;
use overlay_base::segm::segment::Segment;
use overlay_base::segm::sort::{sort_by_ab, sort_by_ab_in_parts};
use overlay_base::segm::winding::WindingCount;
use overlay_geometry::geom::point::IntPoint;
use std::alloc::Global;
use std::process::Abort;
use std::test::Fail;

type BooleanSegment = Segment<ShapeCountBoolean, i32, ()>;

/// Sixty segments in no order, six on each pair of ends, each with a count of its own.
fn shuffled(alloc: Global) -> Result<Vec<BooleanSegment>, Fail> {
    let mut list = Vec::new(alloc);
    for number in 0..6 {
        for x in [7, 3, 9, 0, 5, 1, 8, 4, 6, 2].iter().copied() {
            let (a, b) = (IntPoint::new(x, 0), IntPoint::new(20, 0));
            let count = ShapeCountBoolean::new(number, 1);
            if a == b || !count.is_valid() {
                return Err(Fail::from("no segment"));
            }
            list.push(Segment::create_and_validate_with_data(a, b, count, (), &mut ()))?;
        }
    }
    Ok(list)
}

/// Whether two lists have the same segments.
fn are_same(first: &[BooleanSegment], second: &[BooleanSegment]) -> bool {
    first.len() == second.len()
        && first.iter().zip(second).all(|(s, t)| s.x_segment() == t.x_segment()
            && s.count() == t.count())
}

/// Places in the list and behind it, one below another.
#[test]
fn parts(rt: HostRuntime) -> Result<(), Fail> {
    let mut list = shuffled(rt.alloc())?;
    let mut in_parts = shuffled(rt.alloc())?;
    sort_by_ab(&mut list)?;
    assert!(rt; !are_same(&list, &in_parts));
    sort_by_ab_in_parts(&mut in_parts, &[25, 10, 50, 99])?;
    assert!(rt; are_same(&list, &in_parts));
    Ok(())
}
