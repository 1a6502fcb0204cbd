// `arrange cross`: where two segments meet.
ghost use Rattle.std.specs.Prelude.{◌≡◌, ◌≢◌, ◌⊎◌, ◌↔◌, ◌++◌, Some, length, unsigned_abs, IfOk, OnOk, IfErr, IsErrOf, string_bytes};
ghost use Rattle.overlay_base.specs.declared.segm.fault.Fault.TheVariants.{Memory};
ghost use Rattle.overlay_geometry.specs.InRange.{IsPairInRange};
ghost use Rattle.overlay_geometry.specs.PairOf.{pair_of};
ghost use Rattle.overlay_base.specs.ArrangedOf.{IsSplittable};
ghost use Rattle.overlay_intersections.specs.CrossAnswer.{cross_answer};
ghost use Rattle.overlay_intersections.specs.Marks.{snapping};
ghost use Rattle.overlay_text.specs.Output.{answer_text};
ghost use Rattle.arrange.specs.Run.{cross_lines};

use overlay_base::segm::boolean::ShapeCountBoolean;
use overlay_base::segm::segment::Segment;
use overlay_geometry::geom::x_segment::XSegment;
use overlay_geometry::num::OverlayInt;
use overlay_split::split::cross_solver::{CrossSolver, CrossType};
use overlay_text::output::write_place;
use overlay_text::settings::SquaredRadius;
use overlay_text::stop::Stop;
use std::alloc::{AllocError, Global};

/// The text of where two segments meet. The smaller pair of ends is the target. Returns `Stop::NotTwoSegments` exactly
/// where the segments are not two.
pub fn cross<I: OverlayInt>(
    alloc: Global,
    segments: &[Segment<ShapeCountBoolean, I, ()>],
    radius: SquaredRadius,
) -> Result<String, Stop>
    requires { IsSplittable segments.now }
    ensures text { IfOk result (λ text. Some (string_bytes text) ≡ cross_lines radius segments.now) }
    ensures two { IsErrOf result Stop.NotTwoSegments ↔ (length segments.now ≢ 2) }
    ensures refused { IfErr result (λ stop. (stop ≡ Stop.NotTwoSegments) ⊎ (stop ≡ Stop.Refused Memory)) }
{
    let [first, second] = segments else {
        return Err(Stop::NotTwoSegments);
    };
    let (first, second) = (first.x_segment(), second.x_segment());
    let mut text = String::new(alloc);
    if first < second {
        write_answer(&mut text, &first, &second, radius)?;
    } else {
        write_answer(&mut text, &second, &first, radius)?;
    }
    Ok(text)
}

/// Writes where a target and another segment meet.
fn write_answer<I: OverlayInt>(
    text: &mut String,
    target: &XSegment<I>,
    other: &XSegment<I>,
    radius: SquaredRadius,
) -> Result<(), AllocError>
    requires target { IsPairInRange I.whole I.MIN_COORD I.MAX_COORD target.now }
    requires other { IsPairInRange I.whole I.MIN_COORD I.MAX_COORD other.now }
    requires target_apart { (pair_of I.whole target.now).a ≢ (pair_of I.whole target.now).b }
    requires other_apart { (pair_of I.whole other.now).a ≢ (pair_of I.whole other.now).b }
    ensures { OnOk result (string_bytes text.new ≡ string_bytes text.old
        ++ answer_text (pair_of I.whole target.now) (pair_of I.whole other.now)
        (cross_answer (snapping (unsigned_abs radius.squared)) (pair_of I.whole target.now)
        (pair_of I.whole other.now))) }
{
    let Some(place) = CrossSolver::cross(target, other, radius.squared) else {
        return writeln!(text, "none");
    };
    match place.cross_type {
        CrossType::Pure => write_place(text, "pure", place),
        CrossType::TargetEnd => write_place(text, "target-end", place),
        CrossType::OtherEnd => write_place(text, "other-end", place),
        CrossType::Overlay => {
            let mask = CrossSolver::collinear(target, other).number();
            writeln!(text, "overlay {mask}")
        }
    }
}
