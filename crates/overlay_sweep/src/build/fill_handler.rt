// What is done with the fills as a sweep finds them. Upstream: `build::sweep` and `build::builder`.
ghost use Rattle.std.specs.Prelude.{◌≡◌, ℕ, ◌<◌, vec_len, Option, None};
ghost use Rattle.std.specs.Vec.{with_item};
ghost use Rattle.std.specs.ControlFlow.{break_value};
ghost use Rattle.overlay_sweep.specs.Sweep.{Visit};
ghost use Rattle.overlay_sweep.specs.VisitOf.{visit_of};

use overlay_base::segm::segment::Segment;
use overlay_base::segm::segment_fill::SegmentFill;
use overlay_base::segm::winding::WindingCount;
use overlay_geometry::num::OverlayInt;
use std::ops::ControlFlow;

/// A handler of the segments of a sweep with their fills.
///
/// What it returns and what it is afterwards are functions of the handler and of the visit: an
/// `impl` names them. It says at which indexes it may be called; a call takes none of them away.
pub trait FillHandler<C: WindingCount, I: OverlayInt, D: Copy>: Drop {
    /// What the run returns.
    type Output: Drop;

    ghost takes: { Self → ℕ → Type 0 };

    ghost handle_gives: { Self → Visit D → (Self × Option Self.Output) };

    ghost finalize_gives: { Self → Self.Output };

    /// Takes the segment at an index of the list, and its fill. A `Break` ends the run with its value.
    fn handle(
        &mut self,
        index: usize,
        segment: &Segment<C, I, D>,
        fill: SegmentFill,
    ) -> ControlFlow<Self::Output>
        requires { takes self.old index }
        ensures handler { self.new ≡ (handle_gives self.old (visit_of index segment.now fill)).0 }
        ensures answer { break_value result ≡ (handle_gives self.old (visit_of index segment.now fill)).1 };

    /// What the run returns where no segment has ended it.
    fn finalize(self) -> Self::Output
        ensures { result ≡ finalize_gives self };

    ghost keeps_taking: { (handler : Self) (visit : Visit D) (index : ℕ) → takes handler visit.index
        → takes handler index → takes (handle_gives handler visit).0 index };
}

/// Writes each fill at its index into a list that it borrows. The run returns the borrow.
#[derive(Drop)]
pub struct StoreFillsHandler<'a> {
    fills: &'a mut Vec<SegmentFill>,
}

impl<'a> StoreFillsHandler<'a> {
    /// A handler that writes into this list. For a run it has to have a place for each segment.
    pub fn new(fills: &'a mut Vec<SegmentFill>) -> StoreFillsHandler<'a>
        ensures { result.fills ≡ fills.entry }
    {
        StoreFillsHandler { fills }
    }
}

impl<'a, C: WindingCount, I: OverlayInt, D: Copy> FillHandler<C, I, D> for StoreFillsHandler<'a> {
    type Output = &'a mut Vec<SegmentFill>;

    ghost takes = { λ handler index. index < vec_len handler.fills.now };

    ghost handle_gives = { λ handler visit. (
      record { fills = record handler.fills { now = with_item handler.fills.now visit.index visit.fill } },
      None,
    ) };

    ghost finalize_gives = { λ handler. handler.fills };

    ghost keeps_taking = { λ _ _ _ _ below. below };

    fn handle(
        &mut self,
        index: usize,
        _segment: &Segment<C, I, D>,
        fill: SegmentFill,
    ) -> ControlFlow<&'a mut Vec<SegmentFill>> {
        self.fills[index] = fill;
        ControlFlow::Continue(())
    }

    fn finalize(self) -> &'a mut Vec<SegmentFill> {
        let StoreFillsHandler { fills } = self;
        fills
    }
}
