// The fills of counts of polygons. Upstream: `build::boolean`.
ghost use Rattle.std.specs.Prelude.{◌≡◌, refl};
ghost use Rattle.overlay_base.specs.BooleanWinding.{boolean_winding};
ghost use Rattle.overlay_sweep.specs.Fill.{fill_byte};

use crate::build::fill_strategy::{FillCount, is_inside, number_if};
use overlay_base::overlay_core::fill_rule::FillRule;
use overlay_base::segm::boolean::ShapeCountBoolean;
use overlay_base::segm::fault::Fault;
use overlay_base::segm::segment_fill::{CLIP_BOTTOM, CLIP_TOP, SUBJ_BOTTOM, SUBJ_TOP, SegmentFill};
use overlay_base::segm::winding::WindingCount;

/// The fill of a segment with these windings below and above it.
fn fill_between(
    fill_rule: FillRule,
    bottom: ShapeCountBoolean,
    top: ShapeCountBoolean,
) -> SegmentFill
    ensures { result ≡ fill_byte fill_rule (boolean_winding bottom) (boolean_winding top) 0 }
{
    number_if(is_inside(fill_rule, top.subj), SUBJ_TOP)
        + number_if(is_inside(fill_rule, bottom.subj), SUBJ_BOTTOM)
        + number_if(is_inside(fill_rule, top.clip), CLIP_TOP)
        + number_if(is_inside(fill_rule, bottom.clip), CLIP_BOTTOM)
}

impl FillCount for ShapeCountBoolean {
    ghost without_winding = { refl };

    fn add_and_fill_under(
        fill_rule: FillRule,
        this: ShapeCountBoolean,
        bot: ShapeCountBoolean,
    ) -> Result<(ShapeCountBoolean, SegmentFill), Fault> {
        let top = bot.add(this)?;
        Ok((top, fill_between(fill_rule, bot, top)))
    }
}
