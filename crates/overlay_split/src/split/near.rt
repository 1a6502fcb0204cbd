// The marks of a pass, found near what the pass before has changed. This project's own.
ghost use Rattle.std.specs.Prelude.{◌≡◌, IsTrue, IfErr, IfOk, OnOk, IsSortedByKey};
ghost use Rattle.overlay_base.specs.declared.segm.fault.Fault.TheVariants.{Memory};
ghost use Rattle.overlay_geometry.specs.Points.{pair_cmp};
ghost use Rattle.overlay_base.specs.Segments.{pairs};
ghost use Rattle.overlay_base.specs.SegmentOf.{ends_of, segments_of};
ghost use Rattle.overlay_base.specs.ArrangedOf.{AreInRange};
ghost use Rattle.overlay_intersections.specs.PassMarks.{is_rounded};
ghost use Rattle.overlay_intersections.specs.PlacingOf.{HasRadius};
ghost use Rattle.overlay_intersections.specs.MarkOf.{AreMarksOf};
ghost use Rattle.overlay_grid.specs.Grid.{LieInside};
ghost use Rattle.overlay_cuts.specs.FinderOf.{solver_in, layout_in, LooksThrough};
ghost use Rattle.overlay_split.specs.steps.ChangedBoxes.{BoundChange};

use crate::split::changed::{part_near, rename_marks};
use overlay_base::overlay_core::solver::Strategy;
use overlay_base::segm::fault::Fault;
use overlay_base::segm::segment::Segment;
use overlay_base::segm::winding::WindingCount;
use overlay_cuts::split::finder::PairFinder;
use overlay_geometry::geom::rect::IntRect;
use overlay_geometry::num::OverlayInt;
use overlay_intersections::split::line_mark::LineMark;
use overlay_intersections::split::placing::Placing;
use overlay_tree::split::solver_tree::TreeBuffers;
use std::alloc::Global;

/// Finds the marks as `PairFinder::find_marks` does. Rectangles may be given that hold all that has changed: any two segments whose
/// boxes do not both meet one of them are apart. Then only the segments whose boxes do are compared, if these are
/// found soon enough, except under `Strategy::List`.
///
/// Returns `Fault::Memory` where a growth is refused; `marks` is of no use then.
pub(crate) fn find_marks_near<C: WindingCount, I: OverlayInt, D: Copy>(
    finder: &mut PairFinder<I>,
    alloc: Global,
    segments: &[Segment<C, I, D>],
    placing: Placing,
    changed: &Option<Vec<IntRect<I>>>,
    tree: &mut TreeBuffers<I>,
    marks: &mut Vec<LineMark<I>>,
) -> Result<bool, Fault>
    requires sorted { IsSortedByKey ends_of pair_cmp segments.now }
    requires in_range { AreInRange segments.now }
    requires radius { HasRadius placing }
    requires inside { LieInside (layout_in finder.old) (pairs (segments_of segments.now)) }
    requires changed { BoundChange I.whole changed.now (segments_of segments.now) }
    ensures solver { solver_in finder.new ≡ solver_in finder.old }
    ensures grid { layout_in finder.new ≡ layout_in finder.old }
    ensures marks { OnOk result (AreMarksOf placing segments.now marks.new.items) }
    ensures rounded { IfOk result (λ rounded. rounded ≡ is_rounded (segments_of segments.now)) }
    ensures looked { OnOk result (LooksThrough segments.now finder.old finder.new) }
    ensures fault { IfErr result (λ fault. fault ≡ Memory) }
{
    let solver = finder.solver();
    if solver.strategy == Strategy::List {
        return finder.find_marks(segments, placing, tree, marks);
    }
    let Some(boxes) = changed else {
        return finder.find_marks(segments, placing, tree, marks);
    };
    let Some(part) = part_near(alloc, segments, boxes.as_slice())? else {
        return finder.find_marks(segments, placing, tree, marks);
    };
    let is_list = solver.is_list_split(segments);
    let near = part.segments.as_slice();
    let rounded = finder.find_as_chosen(is_list, near, placing, tree, marks)?;
    rename_marks(marks, part.indexes.as_slice());
    Ok(rounded)
}
