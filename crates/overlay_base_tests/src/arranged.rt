// Lists that may be split or not, and that are arranged or not.
ghost use Rattle.overlay_base.specs.Planar.{is_splittable, is_arranged};

use overlay_base::segm::arranged::*;
use overlay_base::segm::boolean::ShapeCountBoolean;
use overlay_base::segm::segment::Segment;
use overlay_base::segm::shape_type::ShapeType;
use overlay_geometry::geom::point::IntPoint;
use std::alloc::Global;
use std::process::Abort;
use std::test::Fail;

/// From, to.
type Step = ((i32, i32), (i32, i32));

/// The steps of a contour of the subject.
fn list(alloc: Global, steps: &[Step]) -> Result<Vec<Segment<ShapeCountBoolean, i32, ()>>, Fail> {
    let mut list = Vec::new(alloc);
    for ((ax, ay), (bx, by)) in steps.iter().copied() {
        let (a, b) = (IntPoint::new(ax, ay), IntPoint::new(bx, by));
        let step = Segment::try_ab_and_data(a, b, ShapeType::Subject, (), &mut ());
        list.push(step.ok_or("equal ends")?)?;
    }
    Ok(list)
}

/// One step each, and whether it is short enough to be split.
static WIDE_STEPS: [(Step, bool); 4] = [
    (((0, 0), (524_288, 0)), true),
    (((0, 0), (1_073_741_824, 0)), false),
    (((0, -1_073_741_825), (0, 0)), false),
    (((0, 0), (1_073_741_823, -1_073_741_824)), true),
];

#[test]
fn coordinates_at_the_limits(rt: HostRuntime) -> Result<(), Fail> {
    for (step, short) in WIDE_STEPS {
        assert!(rt; is_splittable(&list(rt.alloc(), &[step])?) == short);
    }
    Ok(())
}

/// The same with the narrow engine.
#[test]
fn narrow_coordinates_at_the_limits(rt: HostRuntime) {
    let (low, high) = (-16_384_i16, 16_383_i16);
    for (a, b, short) in [
        (IntPoint::new(0, 16_384_i16), IntPoint::new(1, 0), false),
        (IntPoint::new(low, high), IntPoint::new(high, low), true),
    ] {
        let step: Option<Segment<ShapeCountBoolean, i16, ()>> = Segment::try_ab_and_data(
            a,
            b,
            ShapeType::Subject,
            (),
            &mut (),
        );
        let steps = [step.expect(&rt, "two ends")];
        assert!(rt; is_splittable(&steps) == short);
    }
}

static LISTS: [(&str, &[Step], bool); 8] = [
    ("nothing", &[], true),
    ("a shared end", &[((0, 0), (4, 0)), ((4, 0), (4, 4))], true),
    ("not in order", &[((4, 0), (4, 4)), ((0, 0), (4, 0))], false),
    (
        "one pair twice",
        &[((0, 0), (4, 0)), ((0, 0), (4, 0))],
        false,
    ),
    ("an overlap", &[((0, 0), (4, 0)), ((2, 0), (6, 0))], false),
    (
        "a touch at a right end",
        &[((0, 0), (4, 0)), ((4, -1), (4, 1))],
        false,
    ),
    (
        "a crossing of two that are no neighbors",
        &[((0, 0), (10, 0)), ((1, 5), (2, 5)), ((3, -1), (3, 1))],
        false,
    ),
    (
        "side by side, and one above the other",
        &[((0, 0), (10, 0)), ((1, 5), (2, 5)), ((11, -1), (11, 1))],
        true,
    ),
];

#[test]
fn arranged_lists(rt: HostRuntime) -> Result<(), Fail> {
    for (name, steps, arranged) in LISTS {
        assert!(rt;
            is_arranged(&list(rt.alloc(), steps)?) == arranged,
            "{name}"
        );
    }
    Ok(())
}
