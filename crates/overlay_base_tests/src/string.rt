// Counts of lines: turned, added, and tested for validity.

use overlay_base::segm::arranged::is_splittable;
use overlay_base::segm::segment::Segment;
use overlay_base::segm::shape_type::ShapeType;
use overlay_base::segm::string::*;
use overlay_base::segm::winding::WindingCount;
use overlay_geometry::geom::point::IntPoint;
use std::test::Fail;

fn count(subj: i32, clip: u8) -> ShapeCountString {
    ShapeCountString { subj, clip }
}

#[test]
fn lines_turned_and_added(rt: HostRuntime) -> Result<(), Fail> {
    let back = ShapeCountString { subj: 3, clip: 1 };
    let sum = count(3, 1).add(count(-3, 1))?;
    let found = (back.invert(), sum, sum.is_not_empty());
    assert_eq!(rt; found, (count(-3, 2), count(0, 1), true));
    Ok(())
}

#[test]
fn lines_of_shapes(rt: HostRuntime) {
    let shapes = [
        (ShapeType::Clip, count(0, 2), count(0, 1)),
        (ShapeType::Subject, count(1, 0), count(-1, 0)),
    ];
    for (shape, direct, inverted) in shapes {
        assert_eq!(rt;
            ShapeCountString::with_shape_type(shape),
            (direct, inverted)
        );
    }
    assert_eq!(rt; ShapeCountString::new(7, -5), count(7, 1));
}

#[test]
fn counts_that_may_be_split(rt: HostRuntime) {
    let counts = [
        (i32::MIN, 0, false),
        (-i32::MAX, 0, true),
        (0, 4, false),
        (0, 3, true),
        (0, 0, false),
    ];
    for (subj, clip, splittable) in counts {
        let (a, b) = (IntPoint::new(0, 0), IntPoint::new(4, 0));
        let line: Segment<ShapeCountString, i32, ()> = Segment::create_and_validate_with_data(
            a,
            b,
            count(subj, clip),
            (),
            &mut (),
        );
        assert_eq!(rt; is_splittable(&[line]), splittable);
    }
}
