// Whether a relation holds between the two shapes that were added.
ghost use Rattle.std.specs.Prelude.{◌≡◌, ◌↔◌, true, IfOk, IfErr};
ghost use Rattle.overlay_contours.specs.Kept.{subject_of, clip_of};
ghost use Rattle.overlay_relations.specs.Matrix.{entry};
ghost use Rattle.overlay_relations.specs.declared.matrix.Part.{Part};
ghost use Rattle.overlay_c.specs.Matrices.{entry_by, IsMatrixBy};
ghost use Rattle.overlay_c.specs.Relations.{relation_of, Holds, IsRelationRefusal, code_of_fault};

use overlay_base::overlay_core::fill_rule::FillRule;
use overlay_base::overlay_core::solver::Solver;
use overlay_base::segm::fault::Fault;
use overlay_base::segm::shape_type::ShapeType;
use overlay_contours::fault::ContourFault;
use overlay_contours::overlay::Overlay;
use overlay_relations::contacts::{is_disjoint, touches};
use overlay_relations::fault::RelationFault;
use overlay_relations::matrix::{Part, Relation as PartsRelation, relate};
use overlay_relations::predicates::{covers, interiors_meet, is_within, same_region};
use std::alloc::Global;

/// A relation of two shapes.
#[derive(Clone, Copy, Debug, PartialEq, Eq)]
pub enum Relation {
    /// Some point is inside both.
    InteriorsMeet,
    /// Each point inside the clip is inside the subject.
    Covers,
    /// Each point inside the subject is inside the clip.
    IsWithin,
    /// Each point is inside both, or inside neither.
    SameRegion,
    /// They share a point, and no point is inside both.
    Touch,
    /// They share no point, neither inside nor on their boundaries.
    Disjoint,
}

/// Which parts of the subject meet which parts of the clip.
#[repr(C)]
#[derive(Clone, Copy)]
pub struct MatrixRecord {
    /// Whether some point is inside the subject and inside the clip.
    pub interior_interior: bool,
    /// Whether some point is inside the subject and on the boundary of the clip.
    pub interior_boundary: bool,
    /// Whether some point is inside the subject and outside the clip.
    pub interior_exterior: bool,
    /// Whether some point is on the boundary of the subject and inside the clip.
    pub boundary_interior: bool,
    /// Whether some point is on the boundary of the subject and on the boundary of the clip.
    pub boundary_boundary: bool,
    /// Whether some point is on the boundary of the subject and outside the clip.
    pub boundary_exterior: bool,
    /// Whether some point is outside the subject and inside the clip.
    pub exterior_interior: bool,
    /// Whether some point is outside the subject and on the boundary of the clip.
    pub exterior_boundary: bool,
    /// Whether some point is outside the subject and outside the clip.
    pub exterior_exterior: bool,
}

/// The relation of a code.
pub fn named_relation(code: u8) -> Relation
    ensures { result ≡ relation_of code }
{
    match code {
        0 => Relation::InteriorsMeet,
        1 => Relation::Covers,
        2 => Relation::IsWithin,
        3 => Relation::SameRegion,
        4 => Relation::Touch,
        _ => Relation::Disjoint,
    }
}

/// Whether a relation holds between the subject and the clip of an overlay, exactly.
pub fn holds(
    alloc: Global,
    overlay: &Overlay<i32>,
    relation: Relation,
    solver: &Solver,
    fill_rule: FillRule,
) -> Result<bool, RelationFault>
    ensures holds { IfOk result (λ holds. (holds ≡ true) ↔ Holds relation fill_rule (subject_of overlay.now) (clip_of overlay.now)) }
    ensures refused { IfErr result (IsRelationRefusal fill_rule (subject_of overlay.now) (clip_of overlay.now)) }
{
    let subject = overlay.contours(ShapeType::Subject);
    let clip = overlay.contours(ShapeType::Clip);
    match relation {
        Relation::InteriorsMeet => interiors_meet(alloc, subject, clip, solver, fill_rule),
        Relation::Covers => covers(alloc, subject, clip, solver, fill_rule),
        Relation::IsWithin => is_within(alloc, subject, clip, solver, fill_rule),
        Relation::SameRegion => same_region(alloc, subject, clip, solver, fill_rule),
        Relation::Touch => touches(alloc, subject, clip, solver, fill_rule),
        Relation::Disjoint => is_disjoint(alloc, subject, clip, solver, fill_rule),
    }
}

/// Which parts of the subject and of the clip of an overlay meet, exactly.
pub fn matrix(
    alloc: Global,
    overlay: &Overlay<i32>,
    solver: &Solver,
    fill_rule: FillRule,
) -> Result<MatrixRecord, RelationFault>
    ensures matrix { IfOk result (IsMatrixBy fill_rule (subject_of overlay.now) (clip_of overlay.now)) }
    ensures refused { IfErr result (IsRelationRefusal fill_rule (subject_of overlay.now) (clip_of overlay.now)) }
{
    let (first, second) = (ShapeType::Subject, ShapeType::Clip);
    match relate(
        alloc,
        overlay.contours(first),
        overlay.contours(second),
        solver,
        fill_rule,
    ) {
        Ok(relation) => Ok(matrix_record(&relation)),
        Err(fault) => Err(fault),
    }
}

/// The record of a matrix.
pub(crate) fn matrix_record(relation: &PartsRelation) -> MatrixRecord
    ensures { (of_subject of_clip : Part) → entry_by result of_subject of_clip ≡ entry relation.now of_subject of_clip }
{
    MatrixRecord {
        interior_interior: relation.meets(Part::Interior, Part::Interior),
        interior_boundary: relation.meets(Part::Interior, Part::Boundary),
        interior_exterior: relation.meets(Part::Interior, Part::Exterior),
        boundary_interior: relation.meets(Part::Boundary, Part::Interior),
        boundary_boundary: relation.meets(Part::Boundary, Part::Boundary),
        boundary_exterior: relation.meets(Part::Boundary, Part::Exterior),
        exterior_interior: relation.meets(Part::Exterior, Part::Interior),
        exterior_boundary: relation.meets(Part::Exterior, Part::Boundary),
        exterior_exterior: relation.meets(Part::Exterior, Part::Exterior),
    }
}

/// The code of a refusal: 1 for memory, 2 for a count out of range, 6 where two edges of the subject cross at a point without
/// integer coordinates, and 7 where two edges of the clip do.
pub fn fault_code(fault: RelationFault) -> u8
    ensures { result ≡ code_of_fault fault }
{
    match fault {
        RelationFault::NotExact(ShapeType::Subject) => 6,
        RelationFault::NotExact(ShapeType::Clip) => 7,
        RelationFault::Refused(ContourFault::Refused(Fault::Memory)) => 1,
        RelationFault::Refused(ContourFault::Refused(Fault::CountOutOfRange)) => 2,
        RelationFault::Refused(ContourFault::OutOfRange { .. }) => 4,
    }
}
