// Where two segments meet, as records.
ghost use Rattle.std.specs.Prelude.{◌≡◌, ◌≢◌, ◌==◌, ◌≤ℤ◌, pos, unsigned_abs, false, Some, IsTrue};
ghost use Rattle.overlay_geometry.specs.Coordinates.{least_coordinate, greatest_coordinate, is_pair_in_range};
ghost use Rattle.overlay_geometry.specs.Meeting.{are_collinear};
ghost use Rattle.overlay_geometry.specs.InRange.{IsPairInRange};
ghost use Rattle.overlay_geometry.specs.PairOf.{pair_of};
ghost use Rattle.overlay_intersections.specs.AnswerOf.{kind_of, result_of};
ghost use Rattle.overlay_intersections.specs.CrossAnswer.{cross_answer};
ghost use Rattle.overlay_intersections.specs.Marks.{snapping};
ghost use Rattle.overlay_c.specs.Records.{start_of, end_of};
ghost use Rattle.overlay_c.specs.Crosses.{pair_by, kind_by, cross_by, is_overlay, mask_by};

use crate::records::{SegmentRecord, end, start};
use overlay_geometry::geom::x_segment::XSegment;
use overlay_split::split::cross_solver::{CrossResult, CrossSolver, CrossType};

/// Where two segments meet.
#[repr(C)]
#[derive(Clone, Copy)]
pub struct CrossRecord {
    pub x: i32,
    pub y: i32,
    /// 0 where they do not meet, 1 at an end of neither, 2 at one of the target, 3 at one of the other, 4 where all
    /// ends lie on one line.
    pub kind: u8,
    pub is_rounded: bool,
    /// Where all ends lie on one line, those that lie strictly inside the other segment: a sum of 1 and 2 for the
    /// target's, 4 and 8 for the other's; else 0.
    pub mask: u8,
}

/// Where a target and another segment meet. Their counts do not matter.
pub fn cross(target: &SegmentRecord, other: &SegmentRecord, radius_squared: i64) -> CrossRecord
    requires target { IsTrue (is_pair_in_range least_coordinate greatest_coordinate (pair_by target.now)) }
    requires other { IsTrue (is_pair_in_range least_coordinate greatest_coordinate (pair_by other.now)) }
    requires target_apart { start_of target.now ≢ end_of target.now }
    requires other_apart { start_of other.now ≢ end_of other.now }
    requires radius { pos 1 ≤ℤ radius_squared }
    ensures meeting { cross_by result ≡ cross_answer (snapping (unsigned_abs radius_squared)) (pair_by target.now)
        (pair_by other.now) }
    ensures mask { result.mask ≡ mask_by (pair_by target.now) (pair_by other.now) }
{
    let first = ends(target);
    let second = ends(other);
    match CrossSolver::cross(&first, &second, radius_squared) {
        None => CrossRecord {
            x: 0,
            y: 0,
            kind: 0,
            is_rounded: false,
            mask: 0,
        },
        Some(place) => {
            let mask = mask(place.cross_type, &first, &second);
            found(&place, mask)
        }
    }
}

/// Which ends lie strictly inside the other segment, where the meeting is one of segments on one line; else 0.
fn mask(cross_type: CrossType, first: &XSegment<i32>, second: &XSegment<i32>) -> u8
    requires target { IsPairInRange (λ z. z) least_coordinate greatest_coordinate first.now }
    requires other { IsPairInRange (λ z. z) least_coordinate greatest_coordinate second.now }
    requires target_apart { (pair_of (λ z. z) first.now).a ≢ (pair_of (λ z. z) first.now).b }
    requires other_apart { (pair_of (λ z. z) second.now).a ≢ (pair_of (λ z. z) second.now).b }
    requires line { are_collinear (pair_of (λ z. z) first.now) (pair_of (λ z. z) second.now)
        ≡ is_overlay (kind_of cross_type) }
    ensures { result ≡ mask_by (pair_of (λ z. z) first.now) (pair_of (λ z. z) second.now) }
{
    match cross_type {
        CrossType::Overlay => CrossSolver::collinear(first, second).number(),
        _ => 0,
    }
}

/// The record of a meeting.
fn found(place: &CrossResult<i32>, mask: u8) -> CrossRecord
    ensures meeting { cross_by result ≡ Some (result_of (λ z. z) place.now) }
    ensures mask { result.mask ≡ mask }
{
    CrossRecord {
        x: place.point.x,
        y: place.point.y,
        kind: kind(place.cross_type),
        is_rounded: place.is_round,
        mask,
    }
}

/// The ends of a record.
fn ends(given: &SegmentRecord) -> XSegment<i32>
    ensures { pair_of (λ z. z) result ≡ pair_by given.now }
{
    XSegment {
        a: start(given),
        b: end(given),
    }
}

/// The code of what a point is.
fn kind(cross_type: CrossType) -> u8
    ensures code { kind_by result ≡ kind_of cross_type }
    ensures meets { (result == 0) ≡ false }
{
    match cross_type {
        CrossType::Pure => 1,
        CrossType::TargetEnd => 2,
        CrossType::OtherEnd => 3,
        CrossType::Overlay => 4,
    }
}
