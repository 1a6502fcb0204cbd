// Whether a sweep keeps its live segments in a list, as upstream decides it: a method that no sweep here calls, since one
// collection serves all. Upstream: part of `core::solver`.
ghost use Rattle.std.specs.Prelude.{◌≡◌, length};
ghost use Rattle.overlay_base.specs.Choices.{list_fills};

use crate::overlay_core::solver::{Solver, Strategy};
use crate::segm::segment::Segment;
use crate::segm::winding::WindingCount;
use overlay_geometry::num::OverlayInt;

const MAX_FILL_LIST_COUNT: usize = 8_000;

impl Solver {
    /// Whether these segments are few enough for a list of the live ones among them: under `List`, and under `Auto`
    /// where they are fewer than 8,000.
    pub fn is_list_fill<C: WindingCount, I: OverlayInt, D>(
        &self,
        segments: &[Segment<C, I, D>],
    ) -> bool
        ensures { result ≡ list_fills self.now.strategy (length segments.now) }
    {
        match self.strategy {
            Strategy::List => true,
            Strategy::Tree | Strategy::Frag => false,
            Strategy::Auto => segments.len() < MAX_FILL_LIST_COUNT,
        }
    }
}
