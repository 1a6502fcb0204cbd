// An arrangement of contours by itself, from which overlays by any rules come without another split. Upstream: the graph
// of `Overlay::build_graph_view`, and its `extract_shapes`.
ghost use Rattle.std.specs.Prelude.{◌≡◌, IfOk, IfErr};
ghost use Rattle.overlay_base.specs.declared.segm.fault.Fault.TheVariants.{Memory};
ghost use Rattle.overlay_contours.specs.Arrangements.{IsOfSome};
ghost use Rattle.overlay_contours.specs.ContoursIn.{LieInRange};
ghost use Rattle.overlay_contours.specs.ShapesOf.{ShapesLieInRange};

use crate::arranged::Arranged;
use crate::contour::{IntContour, IntShape};
use crate::corners::{corners_of_contours, corners_of_shapes};
use overlay_base::overlay_core::overlay_rule::OverlayRule;
use overlay_base::segm::fault::Fault;
use overlay_geometry::num::OverlayInt;

/// The contours of an overlay, split and swept once under one fill rule: overlays by any rules come from it without
/// another split or sweep. `Overlay::arrange` makes it.
#[derive(Drop)]
pub struct Arrangement<I: OverlayInt> {
    arranged: Arranged<I>,
    ghost known: { IsOfSome arranged },
}

impl<I: OverlayInt> Arrangement<I> {
    ghost use Rattle.overlay_contours.specs.ArrangementsOf.{arrangement_of, passes_of, reach_of, IsOverlayOf, IsShapeOverlayOf, IsCornerOverlayOf, IsCornerShapeOverlayOf, IsOverlayBeyondOf, IsShapeOverlayBeyondOf, IsCornerOverlayBeyondOf, IsCornerShapeOverlayBeyondOf, KeepsArrangement};

    /// An arrangement that is that of some contours.
    pub(crate) fn new(arranged: Arranged<I>) -> Arrangement<I>
        requires { IsOfSome arranged }
        ensures { arrangement_of result ≡ arranged }
    {
        Arrangement { arranged }
    }

    /// The overlay by a rule, as `Overlay::overlay` returns it.
    ///
    /// Returns `Fault::Memory` where a growth is refused. The arrangement stays as it is either way.
    pub fn contours(&mut self, overlay_rule: OverlayRule) -> Result<Vec<IntContour<I>>, Fault>
        ensures polygons { IfOk result (IsOverlayOf overlay_rule self.old) }
        ensures overlay { IfOk result (IsOverlayBeyondOf overlay_rule self.old) }
        ensures in_range { IfOk result (λ contours. LieInRange I.whole I.MIN_COORD I.MAX_COORD contours.items) }
        ensures kept { KeepsArrangement self.old self.new }
        ensures fault { IfErr result (λ fault. fault ≡ Memory) }
    {
        self.arranged.contours(overlay_rule)
    }

    /// The overlay by a rule in shapes, as `Overlay::overlay_shapes` returns it.
    ///
    /// Returns `Fault::Memory` where a growth is refused. The arrangement stays as it is either way.
    pub fn shapes(&mut self, overlay_rule: OverlayRule) -> Result<Vec<IntShape<I>>, Fault>
        ensures shapes { IfOk result (IsShapeOverlayOf overlay_rule self.old) }
        ensures overlay { IfOk result (IsShapeOverlayBeyondOf overlay_rule self.old) }
        ensures in_range { IfOk result (λ shapes. ShapesLieInRange I.whole I.MIN_COORD I.MAX_COORD shapes.items) }
        ensures kept { KeepsArrangement self.old self.new }
        ensures fault { IfErr result (λ fault. fault ≡ Memory) }
    {
        self.arranged.shapes(overlay_rule)
    }

    /// The overlay by a rule without the points at which a contour goes straight on, as
    /// `Overlay::overlay_without_collinear` returns it.
    ///
    /// Returns `Fault::Memory` where a growth is refused. The arrangement stays as it is either way.
    pub fn contours_without_collinear(
        &mut self,
        overlay_rule: OverlayRule,
    ) -> Result<Vec<IntContour<I>>, Fault>
        ensures polygons { IfOk result (IsCornerOverlayOf overlay_rule self.old) }
        ensures overlay { IfOk result (IsCornerOverlayBeyondOf overlay_rule self.old) }
        ensures in_range { IfOk result (λ contours. LieInRange I.whole I.MIN_COORD I.MAX_COORD contours.items) }
        ensures kept { KeepsArrangement self.old self.new }
        ensures fault { IfErr result (λ fault. fault ≡ Memory) }
    {
        let contours = self.arranged.contours(overlay_rule)?;
        let corners = corners_of_contours(self.arranged.alloc, &contours)?;
        Ok(corners)
    }

    /// The overlay by a rule in shapes without these points. Each contour stays a simple polygon, with the least point of
    /// its shape on the first one, and winds as before.
    ///
    /// Returns `Fault::Memory` where a growth is refused. The arrangement stays as it is either way.
    pub fn shapes_without_collinear(
        &mut self,
        overlay_rule: OverlayRule,
    ) -> Result<Vec<IntShape<I>>, Fault>
        ensures shapes { IfOk result (IsCornerShapeOverlayOf overlay_rule self.old) }
        ensures overlay { IfOk result (IsCornerShapeOverlayBeyondOf overlay_rule self.old) }
        ensures in_range { IfOk result (λ shapes. ShapesLieInRange I.whole I.MIN_COORD I.MAX_COORD shapes.items) }
        ensures kept { KeepsArrangement self.old self.new }
        ensures fault { IfErr result (λ fault. fault ≡ Memory) }
    {
        let shapes = self.arranged.shapes(overlay_rule)?;
        let corners = corners_of_shapes(self.arranged.alloc, &shapes)?;
        Ok(corners)
    }

    /// How many passes the split made; snap rounding takes one.
    pub fn passes(&self) -> u128
        ensures { result ≡ passes_of self.now }
    {
        self.arranged.passes
    }

    /// How far the split moved edges at most, in `x` and in `y`, in halves of a unit, as `Overlay::reach` returns it.
    pub fn reach(&self) -> u128
        ensures { result ≡ reach_of self.now }
    {
        self.arranged.reach
    }
}
