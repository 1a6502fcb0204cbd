// The finder over one row that gives up where it would compare too many pairs. This project's own.
ghost use Rattle.std.specs.Prelude.{◌≡◌, ◌≤◌, ◌+◌, All, IfErr, IfOk, OnOk, IfSome, OnSome, IfNone};
ghost use Rattle.overlay_base.specs.declared.segm.fault.Fault.TheVariants.{Memory};
ghost use Rattle.overlay_base.specs.SegmentOf.{ends_of, segments_of};
ghost use Rattle.overlay_intersections.specs.PassMarks.{is_rounded};
ghost use Rattle.overlay_intersections.specs.PlacingOf.{HasRadius};
ghost use Rattle.overlay_intersections.specs.MarkOf.{AreMarksOf};
ghost use Rattle.overlay_grid.specs.Grid.{IsInside};
ghost use Rattle.overlay_grid.specs.GroupsOf.{grid_of};
ghost use Rattle.overlay_base.specs.ArrangedOf.{AreInRange};

use crate::split::fragment_buffer::FragmentBuffer;
use crate::split::solver_fragment::find_marks_within;
use overlay_base::segm::fault::Fault;
use overlay_base::segm::segment::Segment;
use overlay_base::segm::winding::WindingCount;
use overlay_geometry::num::OverlayInt;
use overlay_intersections::split::line_mark::LineMark;
use overlay_intersections::split::placing::Placing;

/// Finds the marks of a pass as `column_sweep::find_marks` does, of segments in any order, but in one row, if that
/// compares no more pairs than it may: each segment is one fragment, or two. The row is not that of `buffer`, which stays
/// as it is.
///
/// It returns whether the pass rounds, and `None` where it gave up or there is no such row. It counts before it compares,
/// so it compares none then, and `marks` is of no use.
///
/// Returns `Fault::Memory` where a growth is refused; `marks` is of no use then.
pub fn find_marks_in_row<C: WindingCount, I: OverlayInt, D: Copy>(
    segments: &[Segment<C, I, D>],
    placing: Placing,
    most: u64,
    buffer: &FragmentBuffer<I>,
    marks: &mut Vec<LineMark<I>>,
    looked: &mut u128,
) -> Result<Option<bool>, Fault>
    requires in_range { AreInRange segments.now }
    requires inside { All (λ s. IsInside (grid_of buffer.now) (ends_of s)) segments.now }
    requires radius { HasRadius placing }
    ensures marks { IfOk result (λ found. OnSome found (AreMarksOf placing segments.now marks.new.items)) }
    ensures rounded { IfOk result (λ found. IfSome found (λ rounded. rounded ≡ is_rounded (segments_of segments.now))) }
    ensures looked { OnOk result (looked.new ≤ looked.old + most) }
    ensures given_up { IfOk result (λ found. IfNone found (looked.new ≡ looked.old)) }
    ensures fault { IfErr result (λ fault. fault ≡ Memory) }
{
    let Some(layout) = buffer.layout.row() else {
        return Ok(None);
    };
    let mut row = FragmentBuffer::new(buffer.alloc, layout)?;
    find_marks_within(segments, placing, most, &mut row, marks, looked)
}
