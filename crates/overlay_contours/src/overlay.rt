// The overlay of polygons in one call: contours in, contours out. Upstream: `core::overlay`.
ghost use Rattle.std.specs.Prelude.{◌≡◌, [], ◌∷◌, ◌++◌, IsTrue, OnOk, OnErr, IfOk, IfErr};
ghost use Rattle.overlay_base.specs.declared.segm.fault.Fault.TheVariants.{Memory};
ghost use Rattle.overlay_geometry.specs.InRange.{IsPointInRange};
ghost use Rattle.overlay_geometry.specs.PointOf.{point_of};
ghost use Rattle.overlay_contours.specs.ContoursOf.{points_of, contours_of};
ghost use Rattle.overlay_contours.specs.Locations.{location};
ghost use Rattle.overlay_contours.specs.declared.rounding.Rounding.TheVariants.{HotPixels};
ghost use Rattle.overlay_contours.specs.ContourSegments.{are_in_range};
ghost use Rattle.overlay_contours.specs.Refusals.{other_shape, IsShapeOutside, IsContourRefusal};
ghost use Rattle.overlay_contours.specs.ContoursIn.{LieInRange, LiesInRange, IsOverlayOf, IsRefusalOf};
ghost use Rattle.overlay_contours.specs.ShapesOf.{ShapesLieInRange, IsShapeOverlayOf};

use crate::arranged::Arranged;
use crate::arrangement::Arrangement;
use crate::buffers::Buffers;
use crate::contour::{IntContour, IntShape, find_out_of_range, find_point_out_of_range};
use crate::corners::corners_of_contours;
use crate::fault::ContourFault;
use crate::location::{PointLocation, locate_point};
use crate::rounding::Rounding;
use overlay_base::overlay_core::fill_rule::FillRule;
use overlay_base::overlay_core::overlay_rule::OverlayRule;
use overlay_base::overlay_core::solver::Solver;
use overlay_base::segm::fault::Fault;
use overlay_base::segm::shape_type::ShapeType;
use overlay_geometry::geom::point::IntPoint;
use overlay_geometry::num::OverlayInt;
use std::alloc::Global;
use std::mem;

/// The overlay of a subject's contours and a clip's, as contours that have the region of the overlay on their left: an
/// outer boundary runs counterclockwise, and a hole clockwise.
///
/// The result winds once, counterclockwise, around a point where the overlay rule holds, and not at
/// all around others. What the rule says of a point depends on how often the given contours wind
/// around it, under the fill rule. That is so at every point that is farther than half a unit from
/// the edges of the given contours, in `x` or in `y`. Under a table that holds of points outside,
/// the result winds once less everywhere.
///
/// So, but for such a table, the result may be filled by any rule other than `Negative`. Under
/// even-odd (a point is painted where an odd number of edges runs below it) it always paints the
/// points at which the overlay rule's value differs from that outside. Its edges are the boundary
/// of the region in the arrangement, each lies within half a unit of a given edge, and no two share
/// more than an end.
///
/// Crossings without whole coordinates are rounded by snap rounding, in one pass, so few nearly parallel edges leave few
/// points. Where no two edges cross at such a point, nothing moves. The solver's strategy does not change the result, nor
/// does its precision. `Overlay::set_rounding` chooses upstream's rounding.
///
/// Any contours will do: they may cross and touch themselves and one another, run either way,
/// repeat points, and have no or few points. Equal neighboring points make no edge, and the result
/// has none. Collinear points of the result are left in; `Overlay::overlay_without_collinear`
/// leaves them out. Each contour of the result has points, and may come to a point twice. All of
/// its points are in range, so it may be given again.
///
/// Returns `ContourFault::OutOfRange` where a point is out of the engine's range, and names the first one; else
/// `Fault::CountOutOfRange` only where counts leave `-i32::MAX..=i32::MAX`, and `Fault::Memory` where a growth is
/// refused.
pub fn overlay_contours<I: OverlayInt>(
    alloc: Global,
    subject: &[IntContour<I>],
    clip: &[IntContour<I>],
    solver: &Solver,
    fill_rule: FillRule,
    overlay_rule: OverlayRule,
) -> Result<Vec<IntContour<I>>, ContourFault>
    ensures polygons { IfOk result
        (IsOverlayOf I.OverlayInt.own overlay_rule fill_rule subject.now clip.now) }
    ensures in_range { IfOk result (λ contours. LieInRange I.whole I.MIN_COORD I.MAX_COORD contours.items) }
    ensures refused { IfErr result (IsRefusalOf I.OverlayInt.own subject.now clip.now) }
    ensures subject_in_range { OnOk result (LieInRange I.whole I.MIN_COORD I.MAX_COORD subject.now) }
    ensures clip_in_range { OnOk result (LieInRange I.whole I.MIN_COORD I.MAX_COORD clip.now) }
{
    test_range(subject, ShapeType::Subject)?;
    test_range(clip, ShapeType::Clip)?;
    let mut buffers = Buffers::new(alloc);
    let rounding = Rounding::HotPixels;
    Ok(buffers.overlay(subject, clip, rounding, solver, fill_rule, overlay_rule)?)
}

/// The overlay of `overlay_contours` in shapes: each an outer boundary, which runs counterclockwise, followed by its
/// holes, which run clockwise. No contour comes to a point twice, so each is a simple polygon.
///
/// Around every point of the plane one shape winds once, and the others not at all, or none does. At a point that is
/// farther than half a unit from the edges of the given contours, in `x` or in `y`, one does where the overlay rule holds.
/// All contours together are a polygon overlay, as `overlay_contours` returns one, whose contours may come to a point
/// twice.
///
/// Each shape is connected: steps lead from each of its edges to each other one, across a part of the region, or along
/// one sector of it at a point. Edges between which one such step leads are in one shape. So pieces of the region that
/// only touch in points are shapes of their own.
///
/// The first contour of a shape is its outer boundary: it has the least point of the shape, in the order of points, and
/// winds counterclockwise, once or not at all around every place. Each other one is a hole: it winds clockwise, once or
/// not at all around every place.
///
/// All of this is said of rules that say no of the places outside, as each rule with a name does. Under a table that
/// holds of them, the shapes are those of its complement, with their contours run the other way: outer boundaries
/// clockwise, and holes counterclockwise. Pieces of it that touch in a point may then be in one shape, and all that is
/// said of the first contour of a shape is that it has the least point.
///
/// Returns what `overlay_contours` does where it is refused.
pub fn overlay_shapes<I: OverlayInt>(
    alloc: Global,
    subject: &[IntContour<I>],
    clip: &[IntContour<I>],
    solver: &Solver,
    fill_rule: FillRule,
    overlay_rule: OverlayRule,
) -> Result<Vec<IntShape<I>>, ContourFault>
    ensures shapes { IfOk result
        (IsShapeOverlayOf I.OverlayInt.own overlay_rule fill_rule subject.now clip.now) }
    ensures in_range { IfOk result (λ shapes. ShapesLieInRange I.whole I.MIN_COORD I.MAX_COORD shapes.items) }
    ensures refused { IfErr result (IsRefusalOf I.OverlayInt.own subject.now clip.now) }
    ensures subject_in_range { OnOk result (LieInRange I.whole I.MIN_COORD I.MAX_COORD subject.now) }
    ensures clip_in_range { OnOk result (LieInRange I.whole I.MIN_COORD I.MAX_COORD clip.now) }
{
    test_range(subject, ShapeType::Subject)?;
    test_range(clip, ShapeType::Clip)?;
    let mut buffers = Buffers::new(alloc);
    let rounding = Rounding::HotPixels;
    Ok(buffers.overlay_shapes(subject, clip, rounding, solver, fill_rule, overlay_rule)?)
}

/// Returns the first point of a shape's contours that is out of range.
pub(crate) fn test_range<I: OverlayInt>(
    contours: &[IntContour<I>],
    shape_type: ShapeType,
) -> Result<(), ContourFault>
    ensures in_range { OnOk result (LieInRange I.whole I.MIN_COORD I.MAX_COORD contours.now) }
    ensures outside { IfErr result (λ fault. IsShapeOutside (I.whole I.MIN_COORD) (I.whole I.MAX_COORD) shape_type
        (contours_of I.whole contours.now) fault) }
{
    match find_out_of_range(contours) {
        Some((contour, point)) => Err(ContourFault::OutOfRange {
            shape_type,
            contour,
            point,
        }),
        None => Ok(()),
    }
}

/// The contours of a subject and of a clip, and the buffers of their overlays: all of it is kept and used again. The
/// contours kept are in range.
#[derive(Drop)]
pub struct Overlay<I: OverlayInt> {
    subject: Vec<IntContour<I>>,
    clip: Vec<IntContour<I>>,
    buffers: Buffers<I>,
    rounding: Rounding,
    passes: u128,
    reach: u128,
    pub ghost subject_in_range: { IsTrue (are_in_range (I.whole I.MIN_COORD) (I.whole I.MAX_COORD)
        (contours_of I.whole subject.items)) },
    pub ghost clip_in_range: { IsTrue (are_in_range (I.whole I.MIN_COORD) (I.whole I.MAX_COORD)
        (contours_of I.whole clip.items)) },
}

impl<I: OverlayInt> Overlay<I> {
    ghost use Rattle.overlay_contours.specs.Kept.{subject_of, clip_of, contours_kept, rounding_of, passes_of, reach_of, AddsContour, KeepsContours, IsRefusalToAdd, IsOverlayOfKept, IsCornersOfKept, IsShapeOverlayOfKept, AreOverlaysOfKept, IsArrangementOfKept, IsBeyondKept, AreCornersBeyondKept, AreShapesBeyondKept, ReachIsBounded, ExactReachIsNone, ReportsSplitting, KeepsRounding, KeepsReport, IsReasonOf};

    /// An overlay of no contours by snap rounding, which takes no memory yet.
    pub fn new(alloc: Global) -> Overlay<I>
        ensures subject { subject_of result ≡ [] }
        ensures clip { clip_of result ≡ [] }
        ensures rounding { rounding_of result ≡ HotPixels }
        ensures passes { passes_of result ≡ 0 }
        ensures reach { reach_of result ≡ 0 }
    {
        Overlay {
            subject: Vec::new(alloc),
            clip: Vec::new(alloc),
            buffers: Buffers::new(alloc),
            rounding: Rounding::HotPixels,
            passes: 0,
            reach: 0,
        }
    }

    /// Copies a contour behind the others of its shape.
    ///
    /// Returns `ContourFault::OutOfRange` where a point is out of the engine's range. It names the first one, and the
    /// index that the contour would have had among those of its shape. Returns `Fault::Memory` where a growth is
    /// refused. Either way nothing is added.
    pub fn add_contour(
        &mut self,
        contour: &[IntPoint<I>],
        shape_type: ShapeType,
    ) -> Result<(), ContourFault>
        ensures added { OnOk result (AddsContour shape_type contour.now self.old self.new) }
        ensures other { KeepsContours (other_shape shape_type) self.old self.new }
        ensures unchanged { OnErr result (KeepsContours shape_type self.old self.new) }
        ensures in_range { OnOk result (LiesInRange I.whole I.MIN_COORD I.MAX_COORD contour.now) }
        ensures refused { IfErr result (IsRefusalToAdd shape_type contour.now self.old) }
        ensures report { KeepsReport self.old self.new }
        ensures rounding { KeepsRounding self.old self.new }
    {
        let alloc = self.buffers.alloc;
        match shape_type {
            ShapeType::Subject => add_in_range(alloc, &mut self.subject, contour, shape_type),
            ShapeType::Clip => add_in_range(alloc, &mut self.clip, contour, shape_type),
        }
    }

    /// The overlay of the contours that were added, split by the rounding that `set_rounding` chose. Without a choice it
    /// is what the function `overlay_contours` returns. The contours stay for further overlays, also after an error.
    ///
    /// Afterwards `reach` is how far from their edges the theorem leaves points out, and `passes` is the number of
    /// passes. After an error both are as they were.
    ///
    /// Returns `Fault::CountOutOfRange` only where counts leave `-i32::MAX..=i32::MAX`, and `Fault::Memory` where a
    /// growth is refused.
    pub fn overlay(
        &mut self,
        solver: &Solver,
        fill_rule: FillRule,
        overlay_rule: OverlayRule,
    ) -> Result<Vec<IntContour<I>>, Fault>
        ensures overlay { IfOk result (IsBeyondKept overlay_rule fill_rule self.old self.new) }
        ensures reach { OnOk result (ReachIsBounded solver.now self.old self.new) }
        ensures exact { OnOk result (ExactReachIsNone self.old self.new) }
        ensures splitting { OnOk result (ReportsSplitting solver.now self.old self.new) }
        ensures polygons { IfOk result (IsOverlayOfKept solver.now overlay_rule fill_rule self.old) }
        ensures in_range { IfOk result (λ contours. LieInRange I.whole I.MIN_COORD I.MAX_COORD contours.items) }
        ensures refused { IfErr result (IsReasonOf solver.now self.old) }
        ensures report { OnErr result (KeepsReport self.old self.new) }
        ensures subject { subject_of self.new ≡ subject_of self.old }
        ensures clip { clip_of self.new ≡ clip_of self.old }
        ensures rounding { KeepsRounding self.old self.new }
    {
        let answer = self.buffers.overlay(
            &self.subject,
            &self.clip,
            self.rounding,
            solver,
            fill_rule,
            overlay_rule,
        )?;
        self.passes = self.buffers.arranged.passes;
        self.reach = self.buffers.arranged.reach;
        Ok(answer)
    }

    /// The overlays of the contours that were added by several rules, each as `overlay` returns it, in the order of the
    /// rules. The contours are split and swept once.
    ///
    /// Afterwards `reach` and `passes` are those of that split. After an error both are as they were. The contours that
    /// were added stay, also after an error.
    ///
    /// Returns `Fault::CountOutOfRange` only where counts leave `-i32::MAX..=i32::MAX`, and `Fault::Memory` where a
    /// growth is refused.
    pub fn overlay_by_rules(
        &mut self,
        solver: &Solver,
        fill_rule: FillRule,
        overlay_rules: &[OverlayRule],
    ) -> Result<Vec<Vec<IntContour<I>>>, Fault>
        ensures polygons { IfOk result (AreOverlaysOfKept solver.now overlay_rules.now fill_rule self.old) }
        ensures in_range { IfOk result (λ all. ShapesLieInRange I.whole I.MIN_COORD I.MAX_COORD all.items) }
        ensures splitting { OnOk result (ReportsSplitting solver.now self.old self.new) }
        ensures refused { IfErr result (IsReasonOf solver.now self.old) }
        ensures report { OnErr result (KeepsReport self.old self.new) }
        ensures subject { subject_of self.new ≡ subject_of self.old }
        ensures clip { clip_of self.new ≡ clip_of self.old }
        ensures rounding { KeepsRounding self.old self.new }
    {
        let overlays = self.buffers.overlay_by_rules(
            &self.subject,
            &self.clip,
            self.rounding,
            solver,
            fill_rule,
            overlay_rules,
        )?;
        self.passes = self.buffers.arranged.passes;
        self.reach = self.buffers.arranged.reach;
        Ok(overlays)
    }

    /// The arrangement of the contours that were added, split and swept under a fill rule. It returns overlays by any
    /// rules without another split, and stays as it is when contours are added or dropped here.
    ///
    /// `Arrangement::reach` and `Arrangement::passes` are those of that split; what `reach` and `passes` return stays.
    ///
    /// Returns `Fault::CountOutOfRange` only where counts leave `-i32::MAX..=i32::MAX`, and `Fault::Memory` where a
    /// growth is refused.
    pub fn arrange(&mut self, solver: &Solver, fill_rule: FillRule) -> Result<Arrangement<I>, Fault>
        ensures arrangement { IfOk result (IsArrangementOfKept solver.now fill_rule self.old) }
        ensures refused { IfErr result (IsReasonOf solver.now self.old) }
        ensures report { KeepsReport self.old self.new }
        ensures subject { subject_of self.new ≡ subject_of self.old }
        ensures clip { clip_of self.new ≡ clip_of self.old }
        ensures rounding { KeepsRounding self.old self.new }
    {
        let (subject, clip) = (&self.subject, &self.clip);
        self.buffers
            .arrange(subject, clip, self.rounding, solver, fill_rule)?;
        let mut arranged = Arranged::new(self.buffers.alloc);
        mem::swap(&mut self.buffers.arranged, &mut arranged);
        Ok(Arrangement::new(arranged))
    }

    /// The overlay of the contours that were added, as `overlay` returns it, without the points at which a contour goes
    /// straight on: of each contour the corners, as `corners_of_contours` returns them.
    ///
    /// So the result winds around every point of the plane as that of `overlay` does, and no point of it lies on one
    /// line with its neighbors and between them. An edge of it may run along several edges of the arrangement. The
    /// contours that were added stay, also after an error.
    ///
    /// Returns `Fault::CountOutOfRange` only where counts leave `-i32::MAX..=i32::MAX`, and `Fault::Memory` where a
    /// growth is refused.
    pub fn overlay_without_collinear(
        &mut self,
        solver: &Solver,
        fill_rule: FillRule,
        overlay_rule: OverlayRule,
    ) -> Result<Vec<IntContour<I>>, Fault>
        ensures overlay { IfOk result (AreCornersBeyondKept overlay_rule fill_rule self.old self.new) }
        ensures reach { OnOk result (ReachIsBounded solver.now self.old self.new) }
        ensures exact { OnOk result (ExactReachIsNone self.old self.new) }
        ensures splitting { OnOk result (ReportsSplitting solver.now self.old self.new) }
        ensures polygons { IfOk result (IsCornersOfKept solver.now overlay_rule fill_rule self.old) }
        ensures in_range { IfOk result (λ contours. LieInRange I.whole I.MIN_COORD I.MAX_COORD contours.items) }
        ensures refused { IfErr result (IsReasonOf solver.now self.old) }
        ensures report { OnErr result (KeepsReport self.old self.new) }
        ensures subject { subject_of self.new ≡ subject_of self.old }
        ensures clip { clip_of self.new ≡ clip_of self.old }
        ensures rounding { KeepsRounding self.old self.new }
    {
        let alloc = self.buffers.alloc;
        let (subject, clip) = (&self.subject, &self.clip);
        let contours = self.buffers.overlay(
            subject,
            clip,
            self.rounding,
            solver,
            fill_rule,
            overlay_rule,
        )?;
        let corners = corners_of_contours(alloc, &contours)?;
        self.passes = self.buffers.arranged.passes;
        self.reach = self.buffers.arranged.reach;
        Ok(corners)
    }

    /// The overlay of the contours that were added, in shapes, as the function `overlay_shapes` returns it. Each shape
    /// is connected. If the rule says no of the places outside, its first contour is its outer boundary,
    /// counterclockwise, and each other one is a hole, clockwise. The contours that were added stay for further
    /// overlays, whether this one is returned or refused.
    ///
    /// Returns `Fault::CountOutOfRange` only where counts leave `-i32::MAX..=i32::MAX`, and `Fault::Memory` where a
    /// growth is refused.
    pub fn overlay_shapes(
        &mut self,
        solver: &Solver,
        fill_rule: FillRule,
        overlay_rule: OverlayRule,
    ) -> Result<Vec<IntShape<I>>, Fault>
        ensures overlay { IfOk result (AreShapesBeyondKept overlay_rule fill_rule self.old self.new) }
        ensures reach { OnOk result (ReachIsBounded solver.now self.old self.new) }
        ensures exact { OnOk result (ExactReachIsNone self.old self.new) }
        ensures splitting { OnOk result (ReportsSplitting solver.now self.old self.new) }
        ensures shapes { IfOk result (IsShapeOverlayOfKept solver.now overlay_rule fill_rule self.old) }
        ensures in_range { IfOk result (λ shapes. ShapesLieInRange I.whole I.MIN_COORD I.MAX_COORD shapes.items) }
        ensures refused { IfErr result (IsReasonOf solver.now self.old) }
        ensures report { OnErr result (KeepsReport self.old self.new) }
        ensures subject { subject_of self.new ≡ subject_of self.old }
        ensures clip { clip_of self.new ≡ clip_of self.old }
        ensures rounding { KeepsRounding self.old self.new }
    {
        let in_shapes = self.buffers.overlay_shapes(
            &self.subject,
            &self.clip,
            self.rounding,
            solver,
            fill_rule,
            overlay_rule,
        )?;
        self.passes = self.buffers.arranged.passes;
        self.reach = self.buffers.arranged.reach;
        Ok(in_shapes)
    }

    /// Chooses where further overlays put crossings that are no whole points. Snap rounding is the choice at first.
    pub fn set_rounding(&mut self, rounding: Rounding)
        ensures rounding { rounding_of self.new ≡ rounding }
        ensures subject { subject_of self.new ≡ subject_of self.old }
        ensures clip { clip_of self.new ≡ clip_of self.old }
        ensures report { KeepsReport self.old self.new }
    {
        self.rounding = rounding;
    }

    /// How many passes the last overlay made that succeeded; 0 at first. Snap rounding takes one.
    pub fn passes(&self) -> u128
        ensures { result ≡ passes_of self.now }
    {
        self.passes
    }

    /// How far the last overlay that succeeded moved edges at most, in `x` and in `y`, in halves of a unit; 0 at first.
    /// What that overlay returned holds at every point that is farther than this from the edges of the contours that it
    /// was given, in `x` or in `y`. It is 0 where no two of the edges cross at a point without whole coordinates. Snap
    /// rounding moves edges by at most one half.
    pub fn reach(&self) -> u128
        ensures { result ≡ reach_of self.now }
    {
        self.reach
    }

    /// Where a point lies with respect to the contours of a shape that were added, under a fill rule, as the function
    /// `locate_point` returns it. The point has to be in range.
    pub fn locate_point(
        &self,
        shape_type: ShapeType,
        fill_rule: FillRule,
        point: IntPoint<I>,
    ) -> PointLocation
        requires { IsPointInRange I.whole I.MIN_COORD I.MAX_COORD point }
        ensures { result ≡ location fill_rule (contours_kept shape_type self.now) (point_of I.whole point) }
    {
        match shape_type {
            ShapeType::Subject => locate_point(&self.subject, fill_rule, point),
            ShapeType::Clip => locate_point(&self.clip, fill_rule, point),
        }
    }

    /// The contours of a shape that were added, in that order. All their points are in range.
    pub fn contours(&self, shape_type: ShapeType) -> &[IntContour<I>]
        ensures contours { contours_of I.whole result.now ≡ contours_kept shape_type self.now }
        ensures in_range { LieInRange I.whole I.MIN_COORD I.MAX_COORD result.now }
    {
        match shape_type {
            ShapeType::Subject => &self.subject,
            ShapeType::Clip => &self.clip,
        }
    }

    /// Drops the contours. The buffers of the overlays stay, and what `passes` and `reach` return.
    pub fn clear(&mut self)
        ensures subject { subject_of self.new ≡ [] }
        ensures clip { clip_of self.new ≡ [] }
        ensures report { KeepsReport self.old self.new }
        ensures rounding { KeepsRounding self.old self.new }
    {
        self.subject.clear();
        self.clip.clear();
    }
}

/// Copies a contour behind others, if its points are in range. Else, and where a growth is refused, nothing is added.
fn add_in_range<I: OverlayInt>(
    alloc: Global,
    contours: &mut Vec<IntContour<I>>,
    contour: &[IntPoint<I>],
    shape_type: ShapeType,
) -> Result<(), ContourFault>
    ensures added { OnOk result (contours_of I.whole contours.new.items
        ≡ contours_of I.whole contours.old.items ++ points_of I.whole contour.now ∷ []) }
    ensures unchanged { OnErr result (contours.new.items ≡ contours.old.items) }
    ensures in_range { OnOk result (LiesInRange I.whole I.MIN_COORD I.MAX_COORD contour.now) }
    ensures all_in_range { IsTrue (are_in_range (I.whole I.MIN_COORD) (I.whole I.MAX_COORD)
        (contours_of I.whole contours.old.items))
        → IsTrue (are_in_range (I.whole I.MIN_COORD) (I.whole I.MAX_COORD) (contours_of I.whole contours.new.items)) }
    ensures refused { IfErr result (λ fault. IsContourRefusal (I.whole I.MIN_COORD) (I.whole I.MAX_COORD) shape_type
        (contours_of I.whole contours.old.items) (points_of I.whole contour.now) fault) }
{
    if let Some(point) = find_point_out_of_range(contour) {
        return Err(ContourFault::OutOfRange {
            shape_type,
            contour: contours.len(),
            point,
        });
    }
    push_copy(alloc, contours, contour)?;
    Ok(())
}

/// Copies a contour behind others. Where a growth is refused nothing is added.
fn push_copy<I: OverlayInt>(
    alloc: Global,
    contours: &mut Vec<IntContour<I>>,
    contour: &[IntPoint<I>],
) -> Result<(), Fault>
    ensures added { OnOk result (contours_of I.whole contours.new.items
        ≡ contours_of I.whole contours.old.items ++ points_of I.whole contour.now ∷ []) }
    ensures unchanged { OnErr result (contours.new.items ≡ contours.old.items) }
    ensures fault { IfErr result (λ fault. fault ≡ Memory) }
{
    let mut copy = Vec::new(alloc);
    copy.extend_from_slice(contour)?;
    contours.push(copy)?;
    Ok(())
}
