// Whether two shapes touch, and whether they are disjoint, without rounding. Where interiors do not meet, the arrangement of both
// boundaries moves nothing, and the shapes share a point exactly if edges of both end in one.
ghost use Rattle.std.specs.Prelude.{◌≡◌, ◌↔◌, true, IsTrue, List, Contains, IsSortedByKey, OnOk, IfOk, IfErr};
ghost use Rattle.overlay_geometry.specs.PointOf.{point_of};
ghost use Rattle.overlay_geometry.specs.Points.{Point, point_cmp};
ghost use Rattle.overlay_base.specs.declared.segm.fault.Fault.TheVariants.{Memory};
ghost use Rattle.overlay_base.specs.declared.overlay_core.fill_rule.FillRule.TheVariants.{NonZero};
ghost use Rattle.overlay_contours.specs.ArrangementsOf.{IsArrangementOf, reach_of};
ghost use Rattle.overlay_contours.specs.Boxes.{all_points};
ghost use Rattle.overlay_contours.specs.ContoursIn.{LieInRange};
ghost use Rattle.overlay_contours.specs.ContoursOf.{points_of, contours_of};
ghost use Rattle.overlay_contours.specs.Splittings.{by_snapping};
ghost use Rattle.overlay_relations.specs.Contacts.{AreDisjoint, Touch};
ghost use Rattle.overlay_relations.specs.ContactLaws.{HaveCommonPoint};
ghost use Rattle.overlay_relations.specs.BoundaryOf.{contours_in};
ghost use Rattle.overlay_relations.specs.Refusals.{IsRefusalOf, IsOverlayRefusal};
ghost use Rattle.overlay_relations.specs.declared.contacts.Contact.TheVariants.{Apart, Touching};
ghost use Rattle.overlay_relations.specs.steps.ContactOutcomes.{IsContact, IsBoundaryContact, ShareSome};

use crate::boundary::Boundary;
use crate::boxes::{bounds_of, do_boxes_meet};
use crate::fault::RelationFault;
use crate::predicates::{add_contours, exact_boundary, test_range};
use overlay_base::overlay_core::fill_rule::FillRule;
use overlay_base::overlay_core::overlay_rule::OverlayRule;
use overlay_base::overlay_core::solver::Solver;
use overlay_base::segm::fault::Fault;
use overlay_base::segm::shape_type::ShapeType;
use overlay_contours::arrangement::Arrangement;
use overlay_contours::contour::IntContour;
use overlay_contours::fault::ContourFault;
use overlay_contours::overlay::Overlay;
use overlay_geometry::geom::point::IntPoint;
use overlay_geometry::num::OverlayInt;
use std::alloc::{AllocError, Global};

pub mod laws;

/// How two shapes meet.
#[derive(Clone, Copy)]
pub(crate) enum Contact {
    /// They share no point.
    Apart,
    /// They share points of their boundaries, and no others.
    Touching,
    /// Some point is inside both.
    Meeting,
}

/// Whether the shapes touch: they share a point, and no point is inside both.
///
/// The points of a shape are those inside it and those of its boundary. A point is on the boundary where there are points inside
/// and outside of the shape, however near to it. So an edge with the shape on both sides is no boundary, and an empty shape
/// touches nothing. The result is exact: points have rational coordinates, and nothing is rounded. Fill rule, solver and errors
/// are those of `interiors_meet`.
pub fn touches<I: OverlayInt>(
    alloc: Global,
    subject: &[IntContour<I>],
    clip: &[IntContour<I>],
    solver: &Solver,
    fill_rule: FillRule,
) -> Result<bool, RelationFault>
    ensures touch { IfOk result (λ touch. (touch ≡ true)
        ↔ Touch fill_rule fill_rule (contours_of I.whole subject.now) (contours_of I.whole clip.now)) }
    ensures refused { IfErr result (IsRefusalOf I.OverlayInt.own fill_rule subject.now clip.now) }
    ensures subject_in_range { OnOk result (LieInRange I.whole I.MIN_COORD I.MAX_COORD subject.now) }
    ensures clip_in_range { OnOk result (LieInRange I.whole I.MIN_COORD I.MAX_COORD clip.now) }
{
    let contact = find_contact(alloc, subject, clip, solver, fill_rule)?;
    Ok(is_touching(contact))
}

/// Whether the shapes share no point, neither inside nor on their boundaries.
///
/// Points, exactness and errors are those of `touches`. So an empty shape is disjoint from every shape.
pub fn is_disjoint<I: OverlayInt>(
    alloc: Global,
    subject: &[IntContour<I>],
    clip: &[IntContour<I>],
    solver: &Solver,
    fill_rule: FillRule,
) -> Result<bool, RelationFault>
    ensures disjoint { IfOk result (λ disjoint. (disjoint ≡ true)
        ↔ AreDisjoint fill_rule fill_rule (contours_of I.whole subject.now) (contours_of I.whole clip.now)) }
    ensures refused { IfErr result (IsRefusalOf I.OverlayInt.own fill_rule subject.now clip.now) }
    ensures subject_in_range { OnOk result (LieInRange I.whole I.MIN_COORD I.MAX_COORD subject.now) }
    ensures clip_in_range { OnOk result (LieInRange I.whole I.MIN_COORD I.MAX_COORD clip.now) }
{
    let contact = find_contact(alloc, subject, clip, solver, fill_rule)?;
    Ok(is_apart(contact))
}

/// Whether shapes that meet so touch.
pub(crate) fn is_touching(contact: Contact) -> bool
    ensures { (result ≡ true) ↔ (contact ≡ Touching) }
{
    matches!(contact, Contact::Touching)
}

/// Whether shapes that meet so share no point.
pub(crate) fn is_apart(contact: Contact) -> bool
    ensures { (result ≡ true) ↔ (contact ≡ Apart) }
{
    matches!(contact, Contact::Apart)
}

/// Whether shapes that meet so share a point.
pub(crate) fn is_sharing(contact: Contact) -> bool
    ensures { (result ≡ true) ↔ (contact ≡ Apart → ⊥) }
{
    !matches!(contact, Contact::Apart)
}

/// How two shapes meet.
fn find_contact<I: OverlayInt>(
    alloc: Global,
    subject: &[IntContour<I>],
    clip: &[IntContour<I>],
    solver: &Solver,
    fill_rule: FillRule,
) -> Result<Contact, RelationFault>
    ensures contact { IfOk result (IsContact fill_rule fill_rule (contours_of I.whole subject.now) (contours_of I.whole clip.now)) }
    ensures refused { IfErr result (IsRefusalOf I.OverlayInt.own fill_rule subject.now clip.now) }
    ensures subject_in_range { OnOk result (LieInRange I.whole I.MIN_COORD I.MAX_COORD subject.now) }
    ensures clip_in_range { OnOk result (LieInRange I.whole I.MIN_COORD I.MAX_COORD clip.now) }
{
    test_range(subject, ShapeType::Subject)?;
    test_range(clip, ShapeType::Clip)?;
    if !do_boxes_meet(&bounds_of(subject), &bounds_of(clip)) {
        return Ok(Contact::Apart);
    }
    let first = exact_boundary(alloc, subject, ShapeType::Subject, solver, fill_rule)?;
    let second = exact_boundary(alloc, clip, ShapeType::Clip, solver, fill_rule)?;
    let contact = boundary_contact(alloc, &first, &second, solver)?;
    Ok(contact)
}

/// How the shapes meet that have these boundaries.
pub(crate) fn boundary_contact<I: OverlayInt>(
    alloc: Global,
    first: &Boundary<I>,
    second: &Boundary<I>,
    solver: &Solver,
) -> Result<Contact, ContourFault>
    ensures contact { IfOk result (IsBoundaryContact (contours_in first.now) (contours_in second.now)) }
    ensures refused { IfErr result (IsOverlayRefusal (contours_in first.now) (contours_in second.now)) }
{
    if first.finds_crossing(second)? {
        return Ok(Contact::Meeting);
    }
    let mut overlay = Overlay::new(alloc);
    add_contours(&mut overlay, &first.contours, ShapeType::Subject)?;
    add_contours(&mut overlay, &second.contours, ShapeType::Clip)?;
    let mut arrangement = overlay.arrange(solver, FillRule::NonZero)?;
    if arrangement.reach() != 0 {
        return Ok(Contact::Meeting);
    }
    let contact = arranged_contact(alloc, &mut arrangement)?;
    Ok(contact)
}

/// How the shapes meet whose boundaries are in this arrangement, in which nothing moved.
fn arranged_contact<I: OverlayInt>(
    alloc: Global,
    arrangement: &mut Arrangement<I>,
) -> Result<Contact, Fault>
    ensures contact { IfOk result (λ contact. (first second : List (List Point)) →
        IsArrangementOf by_snapping NonZero first second arrangement.old → reach_of arrangement.old ≡ 0 → IsBoundaryContact first second contact) }
    ensures fault { IfErr result (λ fault. fault ≡ Memory) }
{
    let common = arrangement.contours(OverlayRule::Intersect)?;
    if !common.is_empty() {
        return Ok(Contact::Meeting);
    }
    let of_subject = arrangement.contours(OverlayRule::Subject)?;
    let of_clip = arrangement.contours(OverlayRule::Clip)?;
    if have_common_point(alloc, &of_subject, &of_clip)? {
        return Ok(Contact::Touching);
    }
    Ok(Contact::Apart)
}

/// Whether some point is a point of contours of both lists.
pub(crate) fn have_common_point<I: OverlayInt>(
    alloc: Global,
    first: &[IntContour<I>],
    second: &[IntContour<I>],
) -> Result<bool, AllocError>
    ensures { IfOk result (λ common. (common ≡ true) ↔ HaveCommonPoint (contours_of I.whole first.now) (contours_of I.whole second.now)) }
{
    let points = sorted_points(alloc, first)?;
    for contour in second {
        if have_some(&points, contour) {
            return Ok(true);
        }
    }
    Ok(false)
}

/// The points of contours, in order.
fn sorted_points<I: OverlayInt>(
    alloc: Global,
    contours: &[IntContour<I>],
) -> Result<Vec<IntPoint<I>>, AllocError>
    ensures sorted { IfOk result (λ points. IsSortedByKey (point_of I.whole) point_cmp points.items) }
    ensures points { IfOk result (λ points. (p : Point) → Contains (points_of I.whole points.items) p
        ↔ Contains (all_points (contours_of I.whole contours.now)) p) }
{
    let mut points = Vec::new(alloc);
    for contour in contours {
        points.extend_from_slice(contour)?;
    }
    points.sort()?;
    Ok(points)
}

/// Whether some point of a list is one of these points, which are in order.
fn have_some<I: OverlayInt>(sorted: &[IntPoint<I>], points: &[IntPoint<I>]) -> bool
    requires { IsSortedByKey (point_of I.whole) point_cmp sorted.now }
    ensures { (result ≡ true) ↔ ShareSome (points_of I.whole sorted.now) (points_of I.whole points.now) }
{
    for point in points {
        if is_among(sorted, point) {
            return true;
        }
    }
    false
}

/// Whether a point is one of these points, which are in order.
fn is_among<I: OverlayInt>(sorted: &[IntPoint<I>], point: &IntPoint<I>) -> bool
    requires sorted { IsSortedByKey (point_of I.whole) point_cmp sorted.now }
    ensures { IsTrue result ↔ Contains (points_of I.whole sorted.now) (point_of I.whole point.now) }
{
    sorted.binary_search(point).is_ok()
}
