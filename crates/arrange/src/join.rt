// `arrange join`: the segments on each pair of ends become one.
ghost use Rattle.std.specs.Prelude.{◌≡◌, IsFalse, IfOk, OnOk, string_bytes};
ghost use Rattle.overlay_base.specs.Join.{join_leaves_range};
ghost use Rattle.overlay_base.specs.SegmentOf.{segments_of};
ghost use Rattle.overlay_base.specs.ArrangedOf.{IsSplittable};
ghost use Rattle.arrange.specs.Run.{join_text, IsJoinStop};
ghost use Rattle.overlay_text.specs.Runs.{IfStopped};

use overlay_base::segm::boolean::ShapeCountBoolean;
use overlay_base::segm::join::join_with_store;
use overlay_base::segm::segment::Segment;
use overlay_geometry::num::OverlayInt;
use overlay_text::output::write_segments;
use overlay_text::stop::Stop;
use std::alloc::Global;

/// The text of the joined segments, and of the flag that says whether two given ones had one pair of ends.
/// Returns `Fault::CountOutOfRange` exactly where a running sum of the counts on one pair leaves
/// `-i32::MAX..=i32::MAX`.
pub fn join<I: OverlayInt>(
    alloc: Global,
    mut segments: Vec<Segment<ShapeCountBoolean, I, ()>>,
) -> Result<String, Stop>
    requires { IsSplittable segments.items }
    ensures text { IfOk result (λ text. string_bytes text ≡ join_text (segments_of segments.items)) }
    ensures in_range { OnOk result (IsFalse (join_leaves_range (segments_of segments.items))) }
    ensures refused { IfStopped result (IsJoinStop (segments_of segments.items)) }
{
    let repeated = join_with_store(&mut segments, &mut ())?;
    let mut text = String::new(alloc);
    write_segments(&mut text, segments.as_slice())?;
    writeln!(text, "flag {repeated}")?;
    Ok(text)
}
