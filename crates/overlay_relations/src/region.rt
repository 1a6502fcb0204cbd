// A shape prepared for relations to others.
ghost use Rattle.std.specs.Prelude.{◌≡◌, ◌↔◌, true, IsTrue, OnOk, IfOk, IfErr};
ghost use Rattle.overlay_base.specs.declared.segm.shape_type.ShapeType.TheVariants.{Subject};
ghost use Rattle.overlay_contours.specs.Boxes.{all_points};
ghost use Rattle.overlay_contours.specs.ContoursIn.{LieInRange};
ghost use Rattle.overlay_contours.specs.ContoursOf.{contours_of};
ghost use Rattle.overlay_relations.specs.Boxes.{are_held, do_boxes_meet};
ghost use Rattle.overlay_relations.specs.BoundaryOf.{contours_in};
ghost use Rattle.overlay_relations.specs.Refusals.{IsOverlayRefusal, IsRegionRefusalOf};

use crate::boundary::Boundary;
use crate::boxes::{bounds_of, do_boxes_meet};
use crate::contacts::{boundary_contact, is_apart, is_sharing, is_touching};
use crate::fault::RelationFault;
use crate::matrix::{Relation, boundary_relation};
use crate::predicate::Predicate;
use crate::predicates::{exact_boundary, holds_between, test_range};
use overlay_base::overlay_core::fill_rule::FillRule;
use overlay_base::overlay_core::overlay_rule::OverlayRule;
use overlay_base::overlay_core::solver::Solver;
use overlay_base::segm::shape_type::ShapeType;
use overlay_contours::contour::IntContour;
use overlay_contours::fault::ContourFault;
use overlay_geometry::geom::rect::IntRect;
use overlay_geometry::num::OverlayInt;
use std::alloc::Global;

/// The region of a shape, prepared for relations to other regions: its boundary and the box around it are found once.
#[derive(Drop)]
pub struct Region<I: OverlayInt> {
    alloc: Global,
    boundary: Boundary<I>,
    bounds: Option<IntRect<I>>,
    pub ghost bounded: { IsTrue (are_held I.whole (all_points (contours_in boundary)) bounds) },
}

impl<I: OverlayInt> Region<I> {
    ghost use Rattle.overlay_relations.specs.Regions.{boundary_of, IsRegionOf, DecidesMeeting, DecidesCovering, DecidesLyingWithin, DecidesSameness, DecidesTouching, DecidesDisjointness, DecidesSharing, DecidesMatrix};
    ghost use Rattle.overlay_relations.specs.Pairs.{Says};

    /// The region of contours under a fill rule. Two regions that are compared may have two fill rules.
    ///
    /// The contours may cross and touch, and run either way. The solver's strategy does not change the result of any
    /// relation, nor does its precision.
    ///
    /// Returns what the function `interiors_meet` does of a subject where it is refused.
    pub fn new(
        alloc: Global,
        contours: &[IntContour<I>],
        solver: &Solver,
        fill_rule: FillRule,
    ) -> Result<Region<I>, RelationFault>
        ensures region { IfOk result (λ region. IsRegionOf fill_rule (contours_of I.whole contours.now) region) }
        ensures refused { IfErr result (IsRegionRefusalOf I.OverlayInt.own contours.now) }
        ensures in_range { OnOk result (LieInRange I.whole I.MIN_COORD I.MAX_COORD contours.now) }
    {
        test_range(contours, ShapeType::Subject)?;
        let boundary = exact_boundary(alloc, contours, ShapeType::Subject, solver, fill_rule)?;
        let bounds = bounds_of(&boundary.contours);
        Ok(Region {
            alloc,
            boundary,
            bounds,
        })
    }

    /// The boundary of the region: contours that have it on their left. No two of their edges share more than an end.
    pub fn boundary(&self) -> &[IntContour<I>]
        ensures boundary { contours_of I.whole result.now ≡ boundary_of self.now }
        ensures in_range { LieInRange I.whole I.MIN_COORD I.MAX_COORD result.now }
    {
        &self.boundary.contours
    }

    /// The least box around the boundary, if there is one.
    pub(crate) fn bounds(&self) -> Option<IntRect<I>>
        ensures { result ≡ self.now.bounds }
    {
        self.bounds
    }

    /// Whether the boxes of the regions share a point. If not, the regions share none.
    fn is_near(&self, other: &Region<I>) -> bool
        ensures { result ≡ do_boxes_meet I.whole self.now.bounds other.now.bounds }
    {
        do_boxes_meet(&self.bounds, &other.bounds)
    }

    /// Whether some point of the plane is inside both regions, as the function `interiors_meet` returns it.
    ///
    /// Returns `Fault::CountOutOfRange` only where counts of both boundaries leave `-i32::MAX..=i32::MAX`, and
    /// `Fault::Memory` where a growth is refused.
    pub fn interiors_meet(&self, other: &Region<I>, solver: &Solver) -> Result<bool, ContourFault>
        ensures meet { IfOk result (DecidesMeeting self.now other.now) }
        ensures refused { IfErr result (IsOverlayRefusal (boundary_of self.now) (boundary_of other.now)) }
    {
        if !self.is_near(other) {
            return Ok(false);
        }
        holds_between(
            self.alloc,
            &self.boundary,
            &other.boundary,
            solver,
            OverlayRule::Intersect,
        )
    }

    /// Whether each point inside the other region is inside this one: this one covers it. Errors are those of
    /// `interiors_meet`.
    pub fn covers(&self, other: &Region<I>, solver: &Solver) -> Result<bool, ContourFault>
        ensures covers { IfOk result (DecidesCovering self.now other.now) }
        ensures refused { IfErr result (IsOverlayRefusal (boundary_of self.now) (boundary_of other.now)) }
    {
        let is_left = holds_between(
            self.alloc,
            &self.boundary,
            &other.boundary,
            solver,
            OverlayRule::InverseDifference,
        )?;
        Ok(!is_left)
    }

    /// Whether each point inside this region is inside the other one. Errors are those of `interiors_meet`.
    pub fn is_within(&self, other: &Region<I>, solver: &Solver) -> Result<bool, ContourFault>
        ensures within { IfOk result (DecidesLyingWithin self.now other.now) }
        ensures refused { IfErr result (IsOverlayRefusal (boundary_of self.now) (boundary_of other.now)) }
    {
        let is_left = holds_between(
            self.alloc,
            &self.boundary,
            &other.boundary,
            solver,
            OverlayRule::Difference,
        )?;
        Ok(!is_left)
    }

    /// Whether each point is inside both regions, or inside neither. Errors are those of `interiors_meet`.
    pub fn same_region(&self, other: &Region<I>, solver: &Solver) -> Result<bool, ContourFault>
        ensures same { IfOk result (DecidesSameness self.now other.now) }
        ensures refused { IfErr result (IsOverlayRefusal (boundary_of self.now) (boundary_of other.now)) }
    {
        let differ = holds_between(
            self.alloc,
            &self.boundary,
            &other.boundary,
            solver,
            OverlayRule::Xor,
        )?;
        Ok(!differ)
    }

    /// Whether the regions touch: they share a point, and no point is inside both, as the function `touches` returns it. Errors
    /// are those of `interiors_meet`.
    pub fn touches(&self, other: &Region<I>, solver: &Solver) -> Result<bool, ContourFault>
        ensures touch { IfOk result (DecidesTouching self.now other.now) }
        ensures refused { IfErr result (IsOverlayRefusal (boundary_of self.now) (boundary_of other.now)) }
    {
        if !self.is_near(other) {
            return Ok(false);
        }
        let contact = boundary_contact(self.alloc, &self.boundary, &other.boundary, solver)?;
        Ok(is_touching(contact))
    }

    /// Whether the regions share no point, neither inside nor on their boundaries. Errors are those of `interiors_meet`.
    pub fn is_disjoint(&self, other: &Region<I>, solver: &Solver) -> Result<bool, ContourFault>
        ensures disjoint { IfOk result (DecidesDisjointness self.now other.now) }
        ensures refused { IfErr result (IsOverlayRefusal (boundary_of self.now) (boundary_of other.now)) }
    {
        if !self.is_near(other) {
            return Ok(true);
        }
        let contact = boundary_contact(self.alloc, &self.boundary, &other.boundary, solver)?;
        Ok(is_apart(contact))
    }

    /// Whether the regions share a point, inside or on their boundaries. Errors are those of `interiors_meet`.
    pub fn share_point(&self, other: &Region<I>, solver: &Solver) -> Result<bool, ContourFault>
        ensures share { IfOk result (DecidesSharing self.now other.now) }
        ensures refused { IfErr result (IsOverlayRefusal (boundary_of self.now) (boundary_of other.now)) }
    {
        if !self.is_near(other) {
            return Ok(false);
        }
        let contact = boundary_contact(self.alloc, &self.boundary, &other.boundary, solver)?;
        Ok(is_sharing(contact))
    }

    /// Whether a relation holds by which pairs of regions are chosen. Errors are those of `interiors_meet`.
    pub fn is_related(
        &self,
        other: &Region<I>,
        predicate: Predicate,
        solver: &Solver,
    ) -> Result<bool, ContourFault>
        ensures related { IfOk result (λ found. Says predicate self.now other.now (found ≡ true)) }
        ensures refused { IfErr result (IsOverlayRefusal (boundary_of self.now) (boundary_of other.now)) }
    {
        match predicate {
            Predicate::SharePoint => self.share_point(other, solver),
            Predicate::InteriorsMeet => self.interiors_meet(other, solver),
            Predicate::Touch => self.touches(other, solver),
            Predicate::Covers => {
                if !self.interiors_meet(other, solver)? {
                    return Ok(false);
                }
                self.covers(other, solver)
            }
            Predicate::IsWithin => {
                if !self.interiors_meet(other, solver)? {
                    return Ok(false);
                }
                self.is_within(other, solver)
            }
            Predicate::SameRegion => {
                if !self.interiors_meet(other, solver)? {
                    return Ok(false);
                }
                self.same_region(other, solver)
            }
        }
    }

    /// Which parts of the regions meet, as the function `relate` returns it. Errors are those of `interiors_meet`.
    pub fn relate(&self, other: &Region<I>, solver: &Solver) -> Result<Relation, ContourFault>
        ensures matrix { IfOk result (DecidesMatrix self.now other.now) }
        ensures refused { IfErr result (IsOverlayRefusal (boundary_of self.now) (boundary_of other.now)) }
    {
        let relation = boundary_relation(self.alloc, &self.boundary, &other.boundary, solver)?;
        Ok(relation)
    }
}
