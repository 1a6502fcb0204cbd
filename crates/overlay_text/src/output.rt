// The output: one item a line.
ghost use Rattle.std.specs.Prelude.{◌≡◌, ◌+◌, ◌≤◌, ◌++◌, drop, OnOk, string_bytes};
ghost use Rattle.std.specs.Str.{IsUtf8};
ghost use Rattle.overlay_base.specs.SegmentOf.{segment_of, segments_of};
ghost use Rattle.overlay_text.specs.Output.{pair_text, segment_line, segment_lines, place_text};

use crate::line_end::{LINE_BUFFER_SIZE, LineBuffer, append, put_last_word, put_signed, put_word};
use overlay_base::segm::boolean::ShapeCountBoolean;
use overlay_base::segm::segment::Segment;
use overlay_geometry::geom::point::IntPoint;
use overlay_geometry::geom::x_segment::XSegment;
use overlay_geometry::num::OverlayInt;
use overlay_intersections::split::cross_solver::CrossResult;
use std::alloc::AllocError;

/// Writes `seg AX AY BX BY SUBJ CLIP` for each segment.
pub fn write_segments<I: OverlayInt>(
    text: &mut String,
    segments: &[Segment<ShapeCountBoolean, I, ()>],
) -> Result<(), AllocError>
    ensures { OnOk result (string_bytes text.new ≡ string_bytes text.old ++ segment_lines (segments_of segments.now)) }
{
    for segment in segments {
        write_segment(text, segment)?;
    }
    Ok(())
}

/// Appends the line of a segment: its ends and its count.
#[tactic(auto, unfolding(crate::specs::Output::segment_line))]
fn write_segment<I: OverlayInt>(
    text: &mut String,
    segment: &Segment<ShapeCountBoolean, I, ()>,
) -> Result<(), AllocError>
    ensures { OnOk result (string_bytes text.new ≡ string_bytes text.old ++ segment_line (segment_of segment.now)) }
{
    let XSegment { a, b } = segment.x_segment();
    let mut room = [0; LINE_BUFFER_SIZE];
    let end = put_last_word(&mut room, "\n");
    let end = put_count(&mut room, end, segment.count());
    let end = put_point(&mut room, end, b);
    let end = put_point(&mut room, end, a);
    let begin = put_word(&mut room, end, "seg");
    append(text, &room, begin)
}

/// Writes `KIND X Y exact`, or `KIND X Y rounded`.
#[tactic(auto, unfolding(crate::specs::Output::place_line))]
pub fn write_place<I: OverlayInt>(
    text: &mut String,
    kind: &str,
    place: CrossResult<I>,
) -> Result<(), AllocError>
    ensures { OnOk result (string_bytes text.new ≡ string_bytes text.old ++ place_text I.whole kind.now place) }
{
    text.push_str(kind)?;
    let mut room = [0; LINE_BUFFER_SIZE];
    let end = put_last_word(
        &mut room,
        if place.is_round {
            " rounded\n"
        } else {
            " exact\n"
        },
    );
    let begin = put_point(&mut room, end, place.point);
    append(text, &room, begin)
}

/// Puts ` X Y` before what begins at `end`, and returns where that begins now.
pub fn put_point<I: OverlayInt>(room: &mut LineBuffer, end: usize, point: IntPoint<I>) -> usize
    requires { (42 ≤ end) × (end ≤ 160) }
    ensures begin { (end ≤ result + 42) × (result ≤ end) }
    ensures written { drop result room.new ≡ pair_text (I.whole point.x) (I.whole point.y) ++ drop end room.old }
    ensures text { IsUtf8 (drop end room.old) → IsUtf8 (drop result room.new) }
{
    let (x, y) = (point.x.to_wide(), point.y.to_wide());
    let end = put_signed(room, end, y);
    put_signed(room, end, x)
}

/// Puts ` SUBJ CLIP` in the same way.
fn put_count(room: &mut LineBuffer, end: usize, count: ShapeCountBoolean) -> usize
    requires { (42 ≤ end) × (end ≤ 160) }
    ensures begin { (end ≤ result + 42) × (result ≤ end) }
    ensures written { drop result room.new ≡ pair_text count.subj count.clip ++ drop end room.old }
    ensures text { IsUtf8 (drop end room.old) → IsUtf8 (drop result room.new) }
{
    let ShapeCountBoolean { subj, clip } = count;
    let end = put_signed(room, end, clip as i64);
    put_signed(room, end, subj as i64)
}
