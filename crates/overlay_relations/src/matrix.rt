// Which parts of two shapes meet: the inside, the boundary and the outside of the one with those of the other, without rounding.
// Where edges of the boundaries cross, all parts meet. Else six regions of one arrangement decide it.
ghost use Rattle.std.specs.Prelude.{◌≡◌, ◌↔◌, true, IsTrue, List, Contains, IsSortedByKey, OnOk, IfOk, IfErr, IfNone, IfSome, IsFalse, map};
ghost use Rattle.overlay_geometry.specs.PairOf.{pair_of};
ghost use Rattle.overlay_geometry.specs.Points.{Point, Pair, pair_cmp};
ghost use Rattle.overlay_base.specs.SegmentOf.{ends_of};
ghost use Rattle.overlay_base.specs.declared.segm.fault.Fault.TheVariants.{Memory};
ghost use Rattle.overlay_base.specs.declared.overlay_core.fill_rule.FillRule.TheVariants.{NonZero};
ghost use Rattle.overlay_contours.specs.ArrangementsOf.{IsArrangementOf, reach_of};
ghost use Rattle.overlay_contours.specs.Contours.{edges};
ghost use Rattle.overlay_contours.specs.ContoursIn.{LieInRange};
ghost use Rattle.overlay_contours.specs.ContoursOf.{contours_of};
ghost use Rattle.overlay_contours.specs.Splittings.{by_snapping};
ghost use Rattle.overlay_relations.specs.Matrix.{entry, IsMatrix};
ghost use Rattle.overlay_relations.specs.MatrixLaws.{HaveCommonEdge};
ghost use Rattle.overlay_relations.specs.Patterns.{is_letter, is_pattern, allows, Fits};
ghost use Rattle.overlay_relations.specs.BoundaryOf.{contours_in};
ghost use Rattle.overlay_relations.specs.Refusals.{IsRefusalOf, IsOverlayRefusal};
ghost use Rattle.overlay_relations.specs.steps.MatrixOutcomes.{IsBoundaryMatrix, ShareSomePair};

use crate::boundary::Boundary;
use crate::contacts::have_common_point;
use crate::fault::RelationFault;
use crate::predicates::{add_contours, exact_boundary, test_range};
use overlay_base::overlay_core::fill_rule::FillRule;
use overlay_base::overlay_core::overlay_rule::OverlayRule;
use overlay_base::overlay_core::solver::Solver;
use overlay_base::segm::fault::Fault;
use overlay_base::segm::shape_type::ShapeType;
use overlay_contours::arrangement::Arrangement;
use overlay_contours::contour::{BooleanSegment, IntContour, segments_of_contours};
use overlay_contours::fault::ContourFault;
use overlay_contours::overlay::Overlay;
use overlay_geometry::geom::x_segment::XSegment;
use overlay_geometry::num::OverlayInt;
use std::alloc::{AllocError, Global};

/// A part of the plane that a shape makes.
#[derive(Clone, Copy, Debug, PartialEq, Eq)]
pub enum Part {
    /// The points inside the shape, without its boundary.
    Interior,
    /// The points that have points inside and points outside near them, however near.
    Boundary,
    /// The points outside the shape, without its boundary.
    Exterior,
}

/// Which parts of a subject meet which parts of a clip: OGC's matrix without dimensions.
#[derive(Clone, Copy, Debug, PartialEq, Eq)]
pub struct Relation {
    interior_interior: bool,
    interior_boundary: bool,
    interior_exterior: bool,
    boundary_interior: bool,
    boundary_boundary: bool,
    boundary_exterior: bool,
    exterior_interior: bool,
    exterior_boundary: bool,
    exterior_exterior: bool,
}

impl Relation {
    /// Whether some point of the plane is in this part of the subject and in this part of the clip.
    pub fn meets(&self, of_subject: Part, of_clip: Part) -> bool
        ensures { result ≡ entry self.now of_subject of_clip }
    {
        match (of_subject, of_clip) {
            (Part::Interior, Part::Interior) => self.interior_interior,
            (Part::Interior, Part::Boundary) => self.interior_boundary,
            (Part::Interior, Part::Exterior) => self.interior_exterior,
            (Part::Boundary, Part::Interior) => self.boundary_interior,
            (Part::Boundary, Part::Boundary) => self.boundary_boundary,
            (Part::Boundary, Part::Exterior) => self.boundary_exterior,
            (Part::Exterior, Part::Interior) => self.exterior_interior,
            (Part::Exterior, Part::Boundary) => self.exterior_boundary,
            (Part::Exterior, Part::Exterior) => self.exterior_exterior,
        }
    }

    /// Whether the entries are those of a pattern of nine letters, as `b"T*F**FFF*"`.
    ///
    /// The letters are those of the interior of the subject with the interior, the boundary and the exterior of the clip, then of
    /// its boundary, then of its exterior: `T` where parts have to meet, `F` where they may not, and `*` where both will do.
    /// Returns `None` where there is another letter: digits are refused, since the dimension of an entry is not known.
    pub fn matches(&self, pattern: &[u8; 9]) -> Option<bool>
        ensures letters { IfNone result (IsFalse (is_pattern pattern.now)) }
        ensures fits { IfSome result (λ fits. IsTrue (is_pattern pattern.now) × ((fits ≡ true) ↔ Fits pattern.now self.now)) }
    {
        if !is_pattern(pattern) {
            return None;
        }
        Some(
            allows(pattern[0], self.interior_interior)
                & allows(pattern[1], self.interior_boundary)
                & allows(pattern[2], self.interior_exterior)
                & allows(pattern[3], self.boundary_interior)
                & allows(pattern[4], self.boundary_boundary)
                & allows(pattern[5], self.boundary_exterior)
                & allows(pattern[6], self.exterior_interior)
                & allows(pattern[7], self.exterior_boundary)
                & allows(pattern[8], self.exterior_exterior),
        )
    }
}

/// Whether all letters are those of patterns.
fn is_pattern(letters: &[u8]) -> bool
    ensures { result ≡ is_pattern letters.now }
{
    for letter in letters {
        if !is_letter(*letter) {
            return false;
        }
    }
    true
}

/// Whether a letter is one of patterns.
fn is_letter(letter: u8) -> bool
    ensures { result ≡ is_letter letter }
{
    matches!(letter, b'T' | b'F' | b'*')
}

/// Whether a letter of a pattern allows an entry.
fn allows(letter: u8, meet: bool) -> bool
    ensures { result ≡ allows letter meet }
{
    match letter {
        b'T' => meet,
        b'F' => !meet,
        _ => true,
    }
}

/// Which parts of the shapes meet: the inside, the boundary and the outside of the subject with those of the clip.
///
/// The parts of a shape have no point in common, and each point of the plane is in one of them. An empty shape is outside
/// everywhere. The result is exact: points have rational coordinates, and nothing is rounded. Boundaries are those of `touches`.
/// Fill rule, solver and errors are those of `interiors_meet`.
pub fn relate<I: OverlayInt>(
    alloc: Global,
    subject: &[IntContour<I>],
    clip: &[IntContour<I>],
    solver: &Solver,
    fill_rule: FillRule,
) -> Result<Relation, RelationFault>
    ensures matrix { IfOk result (IsMatrix fill_rule fill_rule (contours_of I.whole subject.now) (contours_of I.whole clip.now)) }
    ensures refused { IfErr result (IsRefusalOf I.OverlayInt.own fill_rule subject.now clip.now) }
    ensures subject_in_range { OnOk result (LieInRange I.whole I.MIN_COORD I.MAX_COORD subject.now) }
    ensures clip_in_range { OnOk result (LieInRange I.whole I.MIN_COORD I.MAX_COORD clip.now) }
{
    test_range(subject, ShapeType::Subject)?;
    test_range(clip, ShapeType::Clip)?;
    let first = exact_boundary(alloc, subject, ShapeType::Subject, solver, fill_rule)?;
    let second = exact_boundary(alloc, clip, ShapeType::Clip, solver, fill_rule)?;
    let relation = boundary_relation(alloc, &first, &second, solver)?;
    Ok(relation)
}

/// Which parts of the shapes meet that have these boundaries.
pub(crate) fn boundary_relation<I: OverlayInt>(
    alloc: Global,
    first: &Boundary<I>,
    second: &Boundary<I>,
    solver: &Solver,
) -> Result<Relation, ContourFault>
    ensures matrix { IfOk result (IsBoundaryMatrix (contours_in first.now) (contours_in second.now)) }
    ensures refused { IfErr result (IsOverlayRefusal (contours_in first.now) (contours_in second.now)) }
{
    if first.finds_crossing(second)? {
        return Ok(all_meet());
    }
    let mut overlay = Overlay::new(alloc);
    add_contours(&mut overlay, &first.contours, ShapeType::Subject)?;
    add_contours(&mut overlay, &second.contours, ShapeType::Clip)?;
    let mut arrangement = overlay.arrange(solver, FillRule::NonZero)?;
    if arrangement.reach() != 0 {
        return Ok(all_meet());
    }
    let relation = arranged_relation(alloc, &mut arrangement)?;
    Ok(relation)
}

/// The relation of two shapes where all parts meet.
fn all_meet() -> Relation
    ensures { (of_subject of_clip : _) → entry result of_subject of_clip ≡ true }
{
    Relation {
        interior_interior: true,
        interior_boundary: true,
        interior_exterior: true,
        boundary_interior: true,
        boundary_boundary: true,
        boundary_exterior: true,
        exterior_interior: true,
        exterior_boundary: true,
        exterior_exterior: true,
    }
}

/// Which parts of the shapes meet whose boundaries are in this arrangement, in which nothing moved.
fn arranged_relation<I: OverlayInt>(
    alloc: Global,
    arrangement: &mut Arrangement<I>,
) -> Result<Relation, Fault>
    ensures matrix { IfOk result (λ relation. (first second : List (List Point)) →
        IsArrangementOf by_snapping NonZero first second arrangement.old → reach_of arrangement.old ≡ 0 → IsBoundaryMatrix first second relation) }
    ensures fault { IfErr result (λ fault. fault ≡ Memory) }
{
    let both = arrangement.contours(OverlayRule::Intersect)?;
    let either = arrangement.contours(OverlayRule::Union)?;
    let subject_alone = arrangement.contours(OverlayRule::Difference)?;
    let clip_alone = arrangement.contours(OverlayRule::InverseDifference)?;
    let of_subject = arrangement.contours(OverlayRule::Subject)?;
    let of_clip = arrangement.contours(OverlayRule::Clip)?;
    let inside_border = have_common_edge(alloc, &both, &subject_alone)?;
    let border_inside = have_common_edge(alloc, &both, &clip_alone)?;
    let borders = have_common_point(alloc, &of_subject, &of_clip)?;
    let border_outside = have_common_edge(alloc, &either, &subject_alone)?;
    let outside_border = have_common_edge(alloc, &either, &clip_alone)?;
    Ok(Relation {
        interior_interior: !both.is_empty(),
        interior_boundary: inside_border,
        interior_exterior: !subject_alone.is_empty(),
        boundary_interior: border_inside,
        boundary_boundary: borders,
        boundary_exterior: border_outside,
        exterior_interior: !clip_alone.is_empty(),
        exterior_boundary: outside_border,
        exterior_exterior: true,
    })
}

/// Whether some edge is an edge of contours of both lists, however they run along it.
fn have_common_edge<I: OverlayInt>(
    alloc: Global,
    first: &[IntContour<I>],
    second: &[IntContour<I>],
) -> Result<bool, Fault>
    requires first { LieInRange I.whole I.MIN_COORD I.MAX_COORD first.now }
    requires second { LieInRange I.whole I.MIN_COORD I.MAX_COORD second.now }
    ensures common { IfOk result (λ common. (common ≡ true) ↔ HaveCommonEdge (contours_of I.whole first.now) (contours_of I.whole second.now)) }
    ensures fault { IfErr result (λ fault. fault ≡ Memory) }
{
    let sorted = sorted_edges(alloc, first)?;
    let others = edges_of_contours(alloc, second)?;
    Ok(have_some_edge(&sorted, &others))
}

/// The edges of contours, in order.
fn sorted_edges<I: OverlayInt>(
    alloc: Global,
    contours: &[IntContour<I>],
) -> Result<Vec<XSegment<I>>, Fault>
    requires { LieInRange I.whole I.MIN_COORD I.MAX_COORD contours.now }
    ensures sorted { IfOk result (λ list. IsSortedByKey (pair_of I.whole) pair_cmp list.items) }
    ensures edges { IfOk result (λ list. (e : Pair) → Contains (map (pair_of I.whole) list.items) e
        ↔ Contains (edges (contours_of I.whole contours.now)) e) }
    ensures fault { IfErr result (λ fault. fault ≡ Memory) }
{
    let mut list = edges_of_contours(alloc, contours)?;
    list.sort()?;
    Ok(list)
}

/// The edges of contours, each with its ends in order.
fn edges_of_contours<I: OverlayInt>(
    alloc: Global,
    contours: &[IntContour<I>],
) -> Result<Vec<XSegment<I>>, Fault>
    requires { LieInRange I.whole I.MIN_COORD I.MAX_COORD contours.now }
    ensures edges { IfOk result (λ list. map (pair_of I.whole) list.items ≡ edges (contours_of I.whole contours.now)) }
    ensures fault { IfErr result (λ fault. fault ≡ Memory) }
{
    let none = Vec::new(alloc);
    let sides = segments_of_contours(alloc, contours, &none)?;
    let list = edges_of_sides(alloc, &sides)?;
    Ok(list)
}

/// The ends of segments.
fn edges_of_sides<I: OverlayInt>(
    alloc: Global,
    sides: &[BooleanSegment<I>],
) -> Result<Vec<XSegment<I>>, AllocError>
    ensures { IfOk result (λ list. map (pair_of I.whole) list.items ≡ map ends_of sides.now) }
{
    let mut list = Vec::new(alloc);
    for side in sides {
        list.push(side.x_segment())?;
    }
    Ok(list)
}

/// Whether some edge of a list is one of these edges, which are in order.
fn have_some_edge<I: OverlayInt>(sorted: &[XSegment<I>], edges: &[XSegment<I>]) -> bool
    requires { IsSortedByKey (pair_of I.whole) pair_cmp sorted.now }
    ensures { (result ≡ true) ↔ ShareSomePair (map (pair_of I.whole) sorted.now) (map (pair_of I.whole) edges.now) }
{
    for edge in edges {
        if is_edge_among(sorted, edge) {
            return true;
        }
    }
    false
}

/// Whether an edge is one of these edges, which are in order.
fn is_edge_among<I: OverlayInt>(sorted: &[XSegment<I>], edge: &XSegment<I>) -> bool
    requires sorted { IsSortedByKey (pair_of I.whole) pair_cmp sorted.now }
    ensures { IsTrue result ↔ Contains (map (pair_of I.whole) sorted.now) (pair_of I.whole edge.now) }
{
    sorted.binary_search(edge).is_ok()
}
