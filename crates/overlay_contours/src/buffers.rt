// What overlays keep from one to the next: the arrangement of their contours, and what splits these.
ghost use Rattle.std.specs.Prelude.{◌≡◌, OnOk, IfOk, IfErr};
ghost use Rattle.overlay_base.specs.ArrangedOf.{IsArranged};
ghost use Rattle.overlay_base.specs.SegmentOf.{segments_of};
ghost use Rattle.overlay_split.specs.SettingsOf.{snap_limit_of};
ghost use Rattle.overlay_contours.specs.ContoursOf.{contours_of, contours_of_each};
ghost use Rattle.overlay_contours.specs.ContourSegments.{overlay_segments};
ghost use Rattle.overlay_contours.specs.ContoursIn.{LieInRange};

use crate::arranged::Arranged;
use crate::contour::{IntContour, IntShape, load_sides};
use crate::rounding::Rounding;
use overlay_base::overlay_core::fill_rule::FillRule;
use overlay_base::overlay_core::overlay_rule::OverlayRule;
use overlay_base::overlay_core::solver::Solver;
use overlay_base::segm::fault::Fault;
use overlay_geometry::num::OverlayInt;
use overlay_snapping::snap::solver::SnapSolver;
use overlay_split::split::solver::SplitSolver;
use std::alloc::Global;

/// What overlays keep from one to the next.
#[derive(Drop)]
pub(crate) struct Buffers<I: OverlayInt> {
    pub(crate) alloc: Global,
    pub(crate) arranged: Arranged<I>,
    splitter: SplitSolver<I>,
    snapper: SnapSolver<I>,
    ghost limit: { snap_limit_of splitter ≡ 256 },
}

impl<I: OverlayInt> Buffers<I> {
    ghost use Rattle.overlay_contours.specs.Arrangements.{IsOfContours};
    ghost use Rattle.overlay_contours.specs.Beyond.{AreOfSplitting};
    ghost use Rattle.overlay_contours.specs.Polygons.{IsPolygonOverlay, ArePolygonOverlays};
    ghost use Rattle.overlay_contours.specs.Refusals.{IsReason};
    ghost use Rattle.overlay_contours.specs.Shapes.{IsShapeOverlay};
    ghost use Rattle.overlay_contours.specs.ShapesOf.{shapes_of, ShapesLieInRange};
    ghost use Rattle.overlay_contours.specs.Splittings.{splitting_for, IsArrangement};

    /// Buffers that take no memory yet.
    pub(crate) fn new(alloc: Global) -> Buffers<I> {
        Buffers {
            alloc,
            arranged: Arranged::new(alloc),
            splitter: SplitSolver::new(alloc),
            snapper: SnapSolver::new(alloc),
        }
    }

    /// Makes `arranged` the arrangement of contours in range, with its fills.
    pub(crate) fn arrange(
        &mut self,
        subject: &[IntContour<I>],
        clip: &[IntContour<I>],
        rounding: Rounding,
        solver: &Solver,
        fill_rule: FillRule,
    ) -> Result<(), Fault>
        requires subject { LieInRange I.whole I.MIN_COORD I.MAX_COORD subject.now }
        requires clip { LieInRange I.whole I.MIN_COORD I.MAX_COORD clip.now }
        ensures arranged { OnOk result (IsOfContours (splitting_for rounding I.BITS solver.now) fill_rule
            (contours_of I.whole subject.now) (contours_of I.whole clip.now) self.new.arranged) }
        ensures refused { IfErr result (λ fault. IsReason (splitting_for rounding I.BITS solver.now)
            (contours_of I.whole subject.now) (contours_of I.whole clip.now) fault) }
    {
        self.split(subject, clip, rounding, solver)?;
        let arranged = &mut self.arranged;
        let (sides, fills) = (&arranged.sides, &mut arranged.fills);
        arranged
            .builder
            .build_boolean_fills(fill_rule, solver, sides, fills)?;
        arranged.fill_rule = fill_rule;
        Ok(())
    }

    /// Makes the sides of `arranged` the arrangement of the edges of contours in range.
    fn split(
        &mut self,
        subject: &[IntContour<I>],
        clip: &[IntContour<I>],
        rounding: Rounding,
        solver: &Solver,
    ) -> Result<(), Fault>
        requires subject { LieInRange I.whole I.MIN_COORD I.MAX_COORD subject.now }
        requires clip { LieInRange I.whole I.MIN_COORD I.MAX_COORD clip.now }
        ensures arrangement { OnOk result (IsArrangement (splitting_for rounding I.BITS solver.now)
            (overlay_segments (contours_of I.whole subject.now) (contours_of I.whole clip.now))
            (segments_of self.new.arranged.sides.items) self.new.arranged.passes self.new.arranged.reach) }
        ensures arranged { OnOk result (IsArranged self.new.arranged.sides.items) }
        ensures refused { IfErr result (λ fault. IsReason (splitting_for rounding I.BITS solver.now)
            (contours_of I.whole subject.now) (contours_of I.whole clip.now) fault) }
    {
        let sides = &mut self.arranged.sides;
        load_sides(sides, subject, clip)?;
        match rounding {
            Rounding::HotPixels => {
                self.snapper.split_segments(sides, solver)?;
                self.arranged.passes = 1;
                self.arranged.reach = self.snapper.reach();
            }
            Rounding::Pairwise => {
                self.splitter.split_segments(sides, solver)?;
                self.arranged.passes = self.splitter.passes();
                self.arranged.reach = self.splitter.reach();
            }
        }
        Ok(())
    }

    /// The overlay of contours in range.
    pub(crate) fn overlay(
        &mut self,
        subject: &[IntContour<I>],
        clip: &[IntContour<I>],
        rounding: Rounding,
        solver: &Solver,
        fill_rule: FillRule,
        overlay_rule: OverlayRule,
    ) -> Result<Vec<IntContour<I>>, Fault>
        requires subject { LieInRange I.whole I.MIN_COORD I.MAX_COORD subject.now }
        requires clip { LieInRange I.whole I.MIN_COORD I.MAX_COORD clip.now }
        ensures polygons { IfOk result (λ contours.
            IsPolygonOverlay (splitting_for rounding I.BITS solver.now) overlay_rule fill_rule
            (contours_of I.whole subject.now) (contours_of I.whole clip.now) (contours_of I.whole contours.items)) }
        ensures in_range { IfOk result (λ contours. LieInRange I.whole I.MIN_COORD I.MAX_COORD contours.items) }
        ensures splitting { OnOk result (AreOfSplitting (splitting_for rounding I.BITS solver.now)
            (contours_of I.whole subject.now) (contours_of I.whole clip.now) self.new.arranged.passes
            self.new.arranged.reach) }
        ensures refused { IfErr result (λ fault. IsReason (splitting_for rounding I.BITS solver.now)
            (contours_of I.whole subject.now) (contours_of I.whole clip.now) fault) }
    {
        self.arrange(subject, clip, rounding, solver, fill_rule)?;
        let contours = self.arranged.contours(overlay_rule)?;
        Ok(contours)
    }

    /// The overlays of contours in range by several rules, which split and sweep them once.
    pub(crate) fn overlay_by_rules(
        &mut self,
        subject: &[IntContour<I>],
        clip: &[IntContour<I>],
        rounding: Rounding,
        solver: &Solver,
        fill_rule: FillRule,
        overlay_rules: &[OverlayRule],
    ) -> Result<Vec<Vec<IntContour<I>>>, Fault>
        requires subject { LieInRange I.whole I.MIN_COORD I.MAX_COORD subject.now }
        requires clip { LieInRange I.whole I.MIN_COORD I.MAX_COORD clip.now }
        ensures polygons { IfOk result (λ all. ArePolygonOverlays (splitting_for rounding I.BITS solver.now) fill_rule
            (contours_of I.whole subject.now) (contours_of I.whole clip.now) overlay_rules.now
            (contours_of_each I.whole all.items)) }
        ensures in_range { IfOk result (λ all. ShapesLieInRange I.whole I.MIN_COORD I.MAX_COORD all.items) }
        ensures splitting { OnOk result (AreOfSplitting (splitting_for rounding I.BITS solver.now)
            (contours_of I.whole subject.now) (contours_of I.whole clip.now) self.new.arranged.passes
            self.new.arranged.reach) }
        ensures refused { IfErr result (λ fault. IsReason (splitting_for rounding I.BITS solver.now)
            (contours_of I.whole subject.now) (contours_of I.whole clip.now) fault) }
    {
        self.arrange(subject, clip, rounding, solver, fill_rule)?;
        let mut overlays = Vec::new(self.alloc);
        for overlay_rule in overlay_rules {
            let contours = self.arranged.contours(*overlay_rule)?;
            overlays.push(contours)?;
        }
        Ok(overlays)
    }

    /// The overlay of contours in range, in shapes.
    pub(crate) fn overlay_shapes(
        &mut self,
        subject: &[IntContour<I>],
        clip: &[IntContour<I>],
        rounding: Rounding,
        solver: &Solver,
        fill_rule: FillRule,
        overlay_rule: OverlayRule,
    ) -> Result<Vec<IntShape<I>>, Fault>
        requires subject { LieInRange I.whole I.MIN_COORD I.MAX_COORD subject.now }
        requires clip { LieInRange I.whole I.MIN_COORD I.MAX_COORD clip.now }
        ensures shapes { IfOk result (λ shapes.
            IsShapeOverlay (splitting_for rounding I.BITS solver.now) overlay_rule fill_rule
            (contours_of I.whole subject.now) (contours_of I.whole clip.now) (shapes_of I.whole shapes.items)) }
        ensures in_range { IfOk result (λ shapes. ShapesLieInRange I.whole I.MIN_COORD I.MAX_COORD shapes.items) }
        ensures splitting { OnOk result (AreOfSplitting (splitting_for rounding I.BITS solver.now)
            (contours_of I.whole subject.now) (contours_of I.whole clip.now) self.new.arranged.passes
            self.new.arranged.reach) }
        ensures refused { IfErr result (λ fault. IsReason (splitting_for rounding I.BITS solver.now)
            (contours_of I.whole subject.now) (contours_of I.whole clip.now) fault) }
    {
        self.arrange(subject, clip, rounding, solver, fill_rule)?;
        let shapes = self.arranged.shapes(overlay_rule)?;
        Ok(shapes)
    }
}
