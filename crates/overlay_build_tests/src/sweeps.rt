// Worked sweeps, with ample memory.
ghost use Rattle.std.specs.Prelude.{◌+◌, ◌*◌, ◌/◌, ◌%◌, ◌^◌, ◌<◌, ⊤, IsTrue, bit_and, None, Some, if◌then◌else◌, ◌==◌};
ghost use Rattle.overlay_geometry.specs.Coordinates.{least_coordinate, greatest_coordinate};
ghost use Rattle.overlay_base.specs.Planar.{is_arranged};
ghost use Rattle.overlay_base.specs.SegmentOf.{segments_of};

use crate::worked_lines::{Line, STRATEGIES, greatest_counts, two_squares};
use overlay_base::overlay_core::fill_rule::FillRule;
use overlay_base::overlay_core::solver::Solver;
use overlay_base::segm::boolean::ShapeCountBoolean;
use overlay_base::segm::fault::Fault;
use overlay_base::segm::segment::Segment;
use overlay_base::segm::segment_fill::{CLIP_BOTTOM, SegmentFill};
use overlay_base::segm::winding::WindingCount;
use overlay_geometry::num::OverlayInt;
use overlay_sweep::build::fill_handler::FillHandler;
use overlay_sweep::build::sweep::SweepRunner;
use std::ops::ControlFlow;

pub type Runner = SweepRunner<ShapeCountBoolean, i32>;

/// Breaks with the index at the first fill with this bit. Keeps the indexes that it has seen, as digits to the base 16.
#[derive(Drop)]
struct FirstWith {
    bit: SegmentFill,
    seen: u64,
}

impl<C: WindingCount, I: OverlayInt, D: Copy> FillHandler<C, I, D> for FirstWith {
    type Output = (usize, u64);

    ghost takes = { λ _ _. ⊤ };

    ghost handle_gives = { λ handler visit.
        let seen = (handler.seen * 16 % 2 ^ 64 + visit.index) % 2 ^ 64 in
        (record { bit = handler.bit; seen = seen }, (if bit_and visit.fill handler.bit == 0 then None else Some (record { 0 = visit.index; 1 = seen }))) };

    ghost finalize_gives = { λ handler. record { 0 = 0; 1 = handler.seen } };

    ghost keeps_taking = { λ _ _ _ _ _. tt };

    fn handle(
        &mut self,
        index: usize,
        _segment: &Segment<C, I, D>,
        fill: SegmentFill,
    ) -> ControlFlow<(usize, u64)> {
        self.seen = self.seen.wrapping_mul(16).wrapping_add(index as u64);
        if fill & self.bit == 0 {
            ControlFlow::Continue(())
        } else {
            ControlFlow::Break((index, self.seen))
        }
    }

    fn finalize(self) -> (usize, u64) {
        (0, self.seen)
    }
}

/// Breaks at once with the index.
#[derive(Drop)]
struct First;

impl<C: WindingCount, I: OverlayInt, D: Copy> FillHandler<C, I, D> for First {
    type Output = usize;

    ghost takes = { λ _ _. ⊤ };

    ghost handle_gives = { λ handler visit. (handler, Some visit.index) };

    ghost finalize_gives = { λ _. 0 };

    ghost keeps_taking = { λ _ _ _ _ _. tt };

    fn handle(
        &mut self,
        index: usize,
        _segment: &Segment<C, I, D>,
        _fill: SegmentFill,
    ) -> ControlFlow<usize> {
        ControlFlow::Break(index)
    }

    fn finalize(self) -> usize {
        0
    }
}

/// A sweep that breaks at the first fill with a bit.
pub fn first_with(
    runner: &mut Runner,
    solver: &Solver,
    bit: SegmentFill,
    segments: &[Line],
) -> Result<(usize, u64), Fault>
    requires { IsTrue (is_arranged least_coordinate greatest_coordinate (segments_of segments.now)) }
{
    let handler = FirstWith { bit, seen: 0 };
    runner.run_with_fill_rule(FillRule::NonZero, solver, segments, handler)
}

/// A sweep over the greatest counts that breaks at once.
fn broken_at_once(runner: &mut Runner, solver: &Solver) -> Result<usize, Fault> {
    runner.run_with_fill_rule(FillRule::NonZero, solver, &greatest_counts(), First)
}

#[test]
fn a_handler_breaks_at_the_first_fill_that_it_looks_for(rt: HostRuntime) {
    let mut runner = SweepRunner::new(rt.alloc());
    for solver in STRATEGIES {
        let found = first_with(&mut runner, &solver, CLIP_BOTTOM, &two_squares());
        assert!(rt; found == Ok((3, 0x10243)));
    }
}

#[test]
fn a_count_that_leaves_the_range_after_the_break_is_not_refused(rt: HostRuntime) {
    let mut runner = SweepRunner::new(rt.alloc());
    for solver in STRATEGIES {
        assert!(rt; broken_at_once(&mut runner, &solver) == Ok(0));
    }
}

#[test]
fn a_runner_is_used_again_after_a_refusal(rt: HostRuntime) {
    let mut runner = SweepRunner::new(rt.alloc());
    for solver in STRATEGIES {
        let refused = first_with(&mut runner, &solver, CLIP_BOTTOM, &greatest_counts());
        assert!(rt; refused == Err(Fault::CountOutOfRange));
        assert!(rt; broken_at_once(&mut runner, &solver) == Ok(0));
    }
}
