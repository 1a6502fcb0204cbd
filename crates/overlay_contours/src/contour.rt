// Contours: whether their points are in range, and the segments of their edges.
ghost use Rattle.std.specs.Prelude.{◌≡◌, ◌<◌, ◌++◌, ◌∷◌, [], IfOk, IfErr, OnOk, IfSome, IfNone};
ghost use Rattle.overlay_base.specs.Balance.{IsBalanced};
ghost use Rattle.overlay_base.specs.Places.{RationalPoint, winding_below};
ghost use Rattle.overlay_geometry.specs.PointOf.{point_of};
ghost use Rattle.overlay_base.specs.SegmentOf.{segments_of};
ghost use Rattle.overlay_base.specs.ArrangedOf.{IsSplittable};
ghost use Rattle.overlay_base.specs.declared.segm.fault.Fault.TheVariants.{Memory};
ghost use Rattle.overlay_base.specs.declared.segm.shape_type.ShapeType.TheVariants.{Subject, Clip};
ghost use Rattle.overlay_contours.specs.Contours.{steps_of};
ghost use Rattle.overlay_contours.specs.ContoursOf.{points_of, contours_of};
ghost use Rattle.overlay_contours.specs.ContourSegments.{step_segments, contour_segments, overlay_segments, overlay_winding, IsFirstPointOutside};
ghost use Rattle.overlay_contours.specs.ContoursIn.{LieInRange, LiesInRange, IsFirstOutsideOf, AreSidesOf, WindsAsContours};

use overlay_base::segm::boolean::ShapeCountBoolean;
use overlay_base::segm::fault::Fault;
use overlay_base::segm::segment::Segment;
use overlay_base::segm::shape_type::ShapeType;
use overlay_geometry::geom::point::IntPoint;
use overlay_geometry::num::OverlayInt;
use std::alloc::Global;

pub mod laws;

/// A contour: each point is joined to the next one, and the last to the first.
pub type IntContour<I> = Vec<IntPoint<I>>;

/// A shape: its outer boundary and its holes.
pub type IntShape<I> = Vec<IntContour<I>>;

/// A segment of contours.
pub type BooleanSegment<I> = Segment<ShapeCountBoolean, I, ()>;

/// The indexes of the first contour with a point out of range, and of its first such point. `None` where all points
/// lie from the engine's `MIN_COORD` to its `MAX_COORD`.
pub fn find_out_of_range<I: OverlayInt>(contours: &[IntContour<I>]) -> Option<(usize, usize)>
    ensures none { IfNone result (LieInRange I.whole I.MIN_COORD I.MAX_COORD contours.now) }
    ensures first { IfSome result
        (λ found. IsFirstOutsideOf I.whole I.MIN_COORD I.MAX_COORD contours.now found.0 found.1) }
{
    for (index, contour) in contours.iter().enumerate() {
        if let Some(point) = find_point_out_of_range(contour) {
            return Some((index, point));
        }
    }
    None
}

/// The index of the first point out of range.
pub(crate) fn find_point_out_of_range<I: OverlayInt>(points: &[IntPoint<I>]) -> Option<usize>
    ensures none { IfNone result (LiesInRange I.whole I.MIN_COORD I.MAX_COORD points.now) }
    ensures first { IfSome result (λ point. IsFirstPointOutside (I.whole I.MIN_COORD) (I.whole I.MAX_COORD)
        (points_of I.whole points.now) point) }
{
    for (index, point) in points.iter().enumerate() {
        if !point.is_in_range() {
            return Some(index);
        }
    }
    None
}

/// The segments of a subject's and of a clip's contours: one for each step between two different points.
///
/// All points have to be in range, as `find_out_of_range` tests. The counts balance at every point,
/// and at every place the segments wind as often as the contours run around it.
///
/// Returns `Fault::Memory` where a growth is refused.
pub fn segments_of_contours<I: OverlayInt>(
    alloc: Global,
    subject: &[IntContour<I>],
    clip: &[IntContour<I>],
) -> Result<Vec<BooleanSegment<I>>, Fault>
    requires subject { LieInRange I.whole I.MIN_COORD I.MAX_COORD subject.now }
    requires clip { LieInRange I.whole I.MIN_COORD I.MAX_COORD clip.now }
    ensures segments { IfOk result (λ sides. AreSidesOf subject.now clip.now sides.items) }
    ensures balanced { IfOk result (λ sides. IsBalanced (segments_of sides.items)) }
    ensures splittable { IfOk result (λ sides. IsSplittable sides.items) }
    ensures windings { IfOk result (λ sides. WindsAsContours subject.now clip.now sides.items) }
    ensures fault { IfErr result (λ fault. fault ≡ Memory) }
{
    let mut sides = Vec::new(alloc);
    load_sides(&mut sides, subject, clip)?;
    Ok(sides)
}

/// Makes a list that of the segments of a subject's and of a clip's contours, whatever it was.
///
/// Returns `Fault::Memory` where a growth is refused, and then nothing is promised of the list.
pub(crate) fn load_sides<I: OverlayInt>(
    sides: &mut Vec<BooleanSegment<I>>,
    subject: &[IntContour<I>],
    clip: &[IntContour<I>],
) -> Result<(), Fault>
    requires subject { LieInRange I.whole I.MIN_COORD I.MAX_COORD subject.now }
    requires clip { LieInRange I.whole I.MIN_COORD I.MAX_COORD clip.now }
    ensures segments { OnOk result (segments_of sides.new.items
        ≡ overlay_segments (contours_of I.whole subject.now) (contours_of I.whole clip.now)) }
    ensures balanced { OnOk result (IsBalanced (segments_of sides.new.items)) }
    ensures splittable { OnOk result (IsSplittable sides.new.items) }
    ensures windings { OnOk result ((p : RationalPoint) → winding_below (segments_of sides.new.items) p
        ≡ overlay_winding (contours_of I.whole subject.now) (contours_of I.whole clip.now) p) }
    ensures fault { IfErr result (λ fault. fault ≡ Memory) }
{
    sides.clear();
    sides.reserve_exact(point_count(subject).saturating_add(point_count(clip)))?;
    push_contours(sides, subject, ShapeType::Subject)?;
    push_contours(sides, clip, ShapeType::Clip)?;
    Ok(())
}

/// How many points contours have.
fn point_count<I: OverlayInt>(contours: &[IntContour<I>]) -> usize {
    let mut count = 0_usize;
    for contour in contours {
        count = count.saturating_add(contour.len());
    }
    count
}

/// Appends the segments of contours of one shape.
fn push_contours<I: OverlayInt>(
    sides: &mut Vec<BooleanSegment<I>>,
    contours: &[IntContour<I>],
    shape_type: ShapeType,
) -> Result<(), Fault>
    ensures sides { OnOk result (segments_of sides.new.items
        ≡ segments_of sides.old.items ++ contour_segments shape_type (contours_of I.whole contours.now)) }
    ensures fault { IfErr result (λ fault. fault ≡ Memory) }
{
    for contour in contours {
        push_contour(sides, contour, shape_type)?;
    }
    Ok(())
}

/// Appends the steps of a contour.
fn push_contour<I: OverlayInt>(
    sides: &mut Vec<BooleanSegment<I>>,
    contour: &[IntPoint<I>],
    shape_type: ShapeType,
) -> Result<(), Fault>
    ensures sides { OnOk result (segments_of sides.new.items
        ≡ segments_of sides.old.items ++ step_segments shape_type (steps_of (points_of I.whole contour.now))) }
    ensures fault { IfErr result (λ fault. fault ≡ Memory) }
{
    let Some((first, later)) = contour.split_first() else {
        return Ok(());
    };
    let mut from = *first;
    for point in later {
        push_step(sides, from, *point, shape_type)?;
        from = *point;
    }
    push_step(sides, from, *first, shape_type)
}

/// Appends the segment of a step, where its two points differ.
fn push_step<I: OverlayInt>(
    sides: &mut Vec<BooleanSegment<I>>,
    from: IntPoint<I>,
    to: IntPoint<I>,
    shape_type: ShapeType,
) -> Result<(), Fault>
    ensures sides { OnOk result (segments_of sides.new.items ≡ segments_of sides.old.items ++ step_segments shape_type
        (record { a = point_of I.whole from; b = point_of I.whole to } ∷ [])) }
    ensures fault { IfErr result (λ fault. fault ≡ Memory) }
{
    if let Some(side) = Segment::try_ab_and_data(from, to, shape_type, (), &mut ()) {
        sides.push(side)?;
    }
    Ok(())
}
