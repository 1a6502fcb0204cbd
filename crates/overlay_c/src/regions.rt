// Relations of regions that are kept.
ghost use Rattle.std.specs.Prelude.{◌≡◌, ◌++◌, ◌∷◌, [], IfOk, IfErr, OnOk, OnErr};
ghost use Rattle.overlay_base.specs.declared.segm.fault.Fault.TheVariants.{Memory};
ghost use Rattle.overlay_relations.specs.Refusals.{IsOverlayRefusal};
ghost use Rattle.overlay_relations.specs.Regions.{boundary_of};
ghost use Rattle.overlay_c.specs.Regions.{HoldsOfRegions, IsMatrixOfRegions};

use crate::relations::{MatrixRecord, Relation, matrix_record};
use overlay_base::overlay_core::solver::Solver;
use overlay_base::segm::fault::Fault;
use overlay_contours::fault::ContourFault;
use overlay_relations::region::Region;

/// Adds a region behind others.
pub fn keep_region(regions: &mut Vec<Region<i32>>, region: Region<i32>) -> Result<(), Fault>
    ensures kept { OnOk result (regions.new.items ≡ regions.old.items ++ region ∷ []) }
    ensures unchanged { OnErr result (regions.new.items ≡ regions.old.items) }
    ensures fault { IfErr result (λ fault. fault ≡ Memory) }
{
    match regions.push(region) {
        Ok(()) => Ok(()),
        Err(_) => Err(Fault::Memory),
    }
}

/// Whether a relation holds between two regions, exactly.
pub fn holds_between(
    first: &Region<i32>,
    second: &Region<i32>,
    relation: Relation,
    solver: &Solver,
) -> Result<bool, ContourFault>
    ensures holds { IfOk result (HoldsOfRegions relation first.now second.now) }
    ensures refused { IfErr result (IsOverlayRefusal (boundary_of first.now) (boundary_of second.now)) }
{
    match relation {
        Relation::InteriorsMeet => first.interiors_meet(second, solver),
        Relation::Covers => first.covers(second, solver),
        Relation::IsWithin => first.is_within(second, solver),
        Relation::SameRegion => first.same_region(second, solver),
        Relation::Touch => first.touches(second, solver),
        Relation::Disjoint => first.is_disjoint(second, solver),
    }
}

/// Which parts of two regions meet, exactly.
pub fn matrix_between(
    first: &Region<i32>,
    second: &Region<i32>,
    solver: &Solver,
) -> Result<MatrixRecord, ContourFault>
    ensures matrix { IfOk result (IsMatrixOfRegions first.now second.now) }
    ensures refused { IfErr result (IsOverlayRefusal (boundary_of first.now) (boundary_of second.now)) }
{
    match first.relate(second, solver) {
        Ok(relation) => Ok(matrix_record(&relation)),
        Err(fault) => Err(fault),
    }
}
