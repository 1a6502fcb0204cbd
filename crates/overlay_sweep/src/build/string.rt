// The fills of counts of lines. Upstream: `build::string`.
ghost use Rattle.std.specs.Prelude.{◌≡◌, ◌<◌, refl};
ghost use Rattle.overlay_base.specs.StringWinding.{string_winding};
ghost use Rattle.overlay_base.specs.Windings.{weight};
ghost use Rattle.overlay_sweep.specs.Fill.{fill_byte};

use crate::build::fill_strategy::{FillCount, is_inside, number_if};
use overlay_base::overlay_core::fill_rule::FillRule;
use overlay_base::segm::fault::Fault;
use overlay_base::segm::segment_fill::{SUBJ_BOTTOM, SUBJ_TOP, SegmentFill};
use overlay_base::segm::string::ShapeCountString;
use overlay_base::segm::winding::WindingCount;

/// The fill of a segment with these windings below and above it, and this mask of its own.
fn fill_with_mask(
    fill_rule: FillRule,
    bottom: ShapeCountString,
    top: ShapeCountString,
    mask: u8,
) -> SegmentFill
    requires { mask < 4 }
    ensures { result ≡ fill_byte fill_rule (string_winding bottom) (string_winding top) mask }
{
    number_if(is_inside(fill_rule, top.subj), SUBJ_TOP)
        + number_if(is_inside(fill_rule, bottom.subj), SUBJ_BOTTOM)
        + 4 * mask
}

/// The same count without a line.
fn without_mask(count: ShapeCountString) -> ShapeCountString
    ensures { string_winding result ≡ weight (string_winding count) }
{
    ShapeCountString { clip: 0, ..count }
}

impl FillCount for ShapeCountString {
    ghost without_winding = { refl };

    /// The mask is the segment's own: the winding above has none.
    fn add_and_fill_under(
        fill_rule: FillRule,
        this: ShapeCountString,
        bot: ShapeCountString,
    ) -> Result<(ShapeCountString, SegmentFill), Fault> {
        let bottom = without_mask(bot);
        let top = bottom.add(without_mask(this))?;
        Ok((top, fill_with_mask(fill_rule, bottom, top, this.clip)))
    }
}
