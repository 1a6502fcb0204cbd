// How the passes of a run find the segments that meet.
ghost use Rattle.std.specs.Prelude.{◌≡◌, ◌≤◌, ◌+◌, ◌*◌, All, IsTrue, IsFalse, None, IfErr, IfOk, OnOk, IfSome, OnSome, IfNone, IsSortedByKey, length};
ghost use Rattle.overlay_base.specs.declared.segm.fault.Fault.TheVariants.{Memory};
ghost use Rattle.overlay_geometry.specs.Points.{pair_cmp};
ghost use Rattle.overlay_base.specs.Segments.{pairs};
ghost use Rattle.overlay_base.specs.SegmentOf.{ends_of, segments_of, pairs_in};
ghost use Rattle.overlay_intersections.specs.PassMarks.{is_rounded};
ghost use Rattle.overlay_intersections.specs.PlacingOf.{placing_of, HasRadius};
ghost use Rattle.overlay_intersections.specs.MarkOf.{AreMarks, marks_of, AreMarksOf};
ghost use Rattle.overlay_intersections.specs.Looked.{capped_sum, count_twos, x_ranges_meet, tree_looks};
ghost use Rattle.overlay_grid.specs.GridLooks.{grid_looks};
ghost use Rattle.overlay_grid.specs.Grid.{IsInside, LieInside};
ghost use Rattle.overlay_grid.specs.GroupsOf.{grid_in, grid_of};
ghost use Rattle.overlay_cuts.specs.FinderOf.{solver_in, layout_in, looks_in, LooksThrough};
ghost use Rattle.overlay_grid.specs.GridFor.{IsGridFor};
ghost use Rattle.overlay_cuts.specs.PassLooks.{wide_looks};
ghost use Rattle.overlay_base.specs.ArrangedOf.{AreInRange};

use overlay_base::overlay_core::solver::{Solver, Strategy};
use overlay_base::segm::fault::Fault;
use overlay_base::segm::segment::Segment;
use overlay_base::segm::winding::WindingCount;
use overlay_geometry::geom::x_segment::XSegment;
use overlay_geometry::num::OverlayInt;
use overlay_grid::split::fragment_buffer::FragmentBuffer;
use overlay_grid::split::fragment_memory::FragmentMemory;
use overlay_grid::split::grid_layout::GridLayout;
use overlay_grid::split::solver_fragment::{are_narrow, count_fragments};
use overlay_grid::split::{column_sweep, solver_fragment_within};
use overlay_intersections::split::line_mark::LineMark;
use overlay_intersections::split::placing::Placing;
use overlay_tree::split::solver_tree::TreeBuffers;
use overlay_tree::split::solver_tree_within::find_marks_within;
use overlay_tree::split::{solver_list, solver_tree};
use std::alloc::Global;
use std::mem::replace;

/// Fragments per segment from which on a tree, which may compare as often as there are fragments, is tried before they
/// are made. With fewer the columns are hardly dearer than the tree. Without this, long segments would take a fragment
/// in each of hundreds of columns.
const TREE_FIRST_FRAGMENTS: u128 = 4;

const _: () = prove!(TREE_FIRST_FRAGMENTS == 4);

/// Pairs per segment whose ranges in `x` meet, up to which a list serves in place of a tree: sixteen are compared at once.
const LIST_BUDGET_PER_SEGMENT: u64 = 32;

const _: () = prove!(LIST_BUDGET_PER_SEGMENT == 32);

/// Comparisons per segment that columns may take before a tree serves. A tree takes up to 40 of the 64 that a pass may take.
const COLUMN_BUDGET_PER_SEGMENT: u64 = 24;

const _: () = prove!(COLUMN_BUDGET_PER_SEGMENT == 24);

/// A list has about as many columns as the root of its length over this number. With more columns fewer pairs are compared,
/// and more segments go on from one column into the next.
const SEGMENTS_PER_SQUARED_COLUMN: usize = 2;

const _: () = prove!(SEGMENTS_PER_SQUARED_COLUMN == 2);

/// Segments that share a height, on the average, up to which one row of all serves in place of a tree. Each is compared
/// with about as many.
const MAX_LEVEL_FOR_ROW: u64 = 8;

const _: () = prove!(MAX_LEVEL_FOR_ROW == 8);

/// Comparisons per segment from which on a row is tried: before it compares, it counts up to 4 for a fragment too many.
const MIN_BUDGET_FOR_ROW: u64 = 5;

const _: () = prove!(MIN_BUDGET_FOR_ROW == 5);

/// What the passes of one run find the segments that meet by: a scan of all pairs of a list, a tree over their heights,
/// or the columns of a grid. The marks are the same.
#[derive(Drop)]
pub struct PairFinder<I: OverlayInt> {
    solver: Solver,
    grid: Option<FragmentBuffer<I>>,
    few: Option<FewColumns<I>>,
    looked: u128,
}

/// What makes the columns that may serve in place of a tree.
#[derive(Drop)]
struct FewColumns<I> {
    alloc: Global,
    memory: FragmentMemory<I>,
}

impl<I: OverlayInt> PairFinder<I> {
    /// For a run whose first arrangement is this, which has to be in range: over a grid, where the
    /// solver takes one, and not for a list, and these segments are wide enough. Where there is
    /// none and the solver leaves the choice, columns may serve a pass in place of a tree. Either
    /// takes the memory that is lent.
    ///
    /// Returns `Fault::Memory` where a growth is refused.
    pub fn new<C: WindingCount, D: Copy>(
        alloc: Global,
        solver: &Solver,
        first: &[Segment<C, I, D>],
        memory: &mut FragmentMemory<I>,
    ) -> Result<Self, Fault>
        requires { AreInRange first.now }
        ensures solver { IfOk result (λ finder. solver_in finder ≡ solver.now) }
        ensures grid { IfOk result (λ finder. IsGridFor solver.now.strategy (segments_of first.now)
            (layout_in finder)) }
        ensures looked { IfOk result (λ finder. looks_in finder ≡ 0) }
        ensures fault { IfErr result (λ fault. fault ≡ Memory) }
    {
        let mut finder = PairFinder::without_grid(solver);
        finder.grid = grid_over(alloc, solver, first, memory)?;
        if finder.grid.is_none() {
            finder.few = few_columns(alloc, solver, memory);
        }
        Ok(finder)
    }

    /// Without a grid, nor columns in place of a tree.
    pub fn without_grid(solver: &Solver) -> Self
        ensures solver { solver_in result ≡ solver.now }
        ensures grid { layout_in result ≡ None }
        ensures looked { looks_in result ≡ 0 }
    {
        PairFinder {
            solver: *solver,
            grid: None,
            few: None,
            looked: 0,
        }
    }

    /// Gives the memory of its grid back, if it has one. The memory of columns in place of a tree is let go: they hold all
    /// fragments of a list.
    pub fn give_back(self, memory: &mut FragmentMemory<I>) {
        let PairFinder { grid, .. } = self;
        if let Some(grid) = grid {
            *memory = grid.into_memory();
        }
    }

    /// The solver whose choices it takes.
    pub fn solver(&self) -> Solver
        ensures { result ≡ solver_in self.now }
    {
        self.solver
    }

    /// How many pairs were compared so far, up to `u128::MAX`.
    pub fn looked(&self) -> u128
        ensures { result ≡ looks_in self.now }
    {
        self.looked
    }

    /// Finds the marks of a pass: the points at which each segment is to be split, each once, by rising index and then
    /// in order of points. Returns whether two segments cross at a point without whole coordinates, so that the pass
    /// rounds.
    ///
    /// The list has to be sorted, as by `sort_by_ab`, in range, and inside the grid, if there is one; a squared radius
    /// has to be at least 1. What `marks` held before is dropped.
    ///
    /// Returns `Fault::Memory` where a growth is refused; `marks` is of no use then.
    pub fn find_marks<C: WindingCount, D: Copy>(
        &mut self,
        segments: &[Segment<C, I, D>],
        placing: Placing,
        tree: &mut TreeBuffers<I>,
        marks: &mut Vec<LineMark<I>>,
    ) -> Result<bool, Fault>
        requires sorted { IsSortedByKey ends_of pair_cmp segments.now }
        requires in_range { AreInRange segments.now }
        requires radius { HasRadius placing }
        requires inside { LieInside (layout_in self.old) (pairs (segments_of segments.now)) }
        ensures solver { solver_in self.new ≡ solver_in self.old }
        ensures grid { layout_in self.new ≡ layout_in self.old }
        ensures marks { OnOk result (AreMarksOf placing segments.now marks.new.items) }
        ensures rounded { IfOk result (λ rounded. rounded ≡ is_rounded (segments_of segments.now)) }
        ensures looked { OnOk result (LooksThrough segments.now self.old self.new) }
        ensures fault { IfErr result (λ fault. fault ≡ Memory) }
    {
        let is_list = self.solver.is_list_split(segments);
        self.find_as_chosen(is_list, segments, placing, tree, marks)
    }

    /// Finds the marks as `find_marks` does, of a list or of a part of one: by a comparison of all pairs whose ranges in `x`
    /// meet where `is_list`, and else over the grid, if there is one, a tree, or what serves in its place.
    ///
    /// Returns `Fault::Memory` where a growth is refused; `marks` is of no use then.
    pub fn find_as_chosen<C: WindingCount, D: Copy>(
        &mut self,
        is_list: bool,
        segments: &[Segment<C, I, D>],
        placing: Placing,
        tree: &mut TreeBuffers<I>,
        marks: &mut Vec<LineMark<I>>,
    ) -> Result<bool, Fault>
        requires sorted { IsSortedByKey ends_of pair_cmp segments.now }
        requires in_range { AreInRange segments.now }
        requires radius { HasRadius placing }
        requires inside { LieInside (layout_in self.old) (pairs_in segments.now) }
        ensures solver { solver_in self.new ≡ solver_in self.old }
        ensures grid { layout_in self.new ≡ layout_in self.old }
        ensures marks { OnOk result (AreMarksOf placing segments.now marks.new.items) }
        ensures rounded { IfOk result (λ rounded. rounded ≡ is_rounded (segments_of segments.now)) }
        ensures listed { IsTrue is_list → OnOk result (looks_in self.new
            ≡ capped_sum (looks_in self.old) (count_twos x_ranges_meet (pairs_in segments.now))) }
        ensures wide { IsFalse is_list → OnOk result (looks_in self.new
            ≤ looks_in self.old + wide_looks (layout_in self.old) (pairs_in segments.now)) }
        ensures fault { IfErr result (λ fault. fault ≡ Memory) }
    {
        if is_list {
            return solver_list::find_marks(
                segments,
                placing,
                &mut tree.heights,
                marks,
                &mut self.looked,
            );
        }
        self.find_widely(segments, placing, tree, marks)
    }

    /// Finds the marks over the grid, if there is one, and else over a tree.
    fn find_widely<C: WindingCount, D: Copy>(
        &mut self,
        segments: &[Segment<C, I, D>],
        placing: Placing,
        tree: &mut TreeBuffers<I>,
        marks: &mut Vec<LineMark<I>>,
    ) -> Result<bool, Fault>
        requires sorted { IsSortedByKey ends_of pair_cmp segments.now }
        requires in_range { AreInRange segments.now }
        requires radius { HasRadius placing }
        requires inside { LieInside (layout_in self.old) (pairs_in segments.now) }
        ensures solver { solver_in self.new ≡ solver_in self.old }
        ensures grid { layout_in self.new ≡ layout_in self.old }
        ensures marks { OnOk result (AreMarksOf placing segments.now marks.new.items) }
        ensures rounded { IfOk result (λ rounded. rounded ≡ is_rounded (segments_of segments.now)) }
        ensures looked { OnOk result (looks_in self.new
            ≤ looks_in self.old + wide_looks (layout_in self.old) (pairs_in segments.now)) }
        ensures fault { IfErr result (λ fault. fault ≡ Memory) }
    {
        match &mut self.grid {
            Some(grid) => find_over_grid(segments, placing, grid, tree, marks, &mut self.looked),
            None => {
                let few = &mut self.few;
                find_without_grid(segments, placing, few, tree, marks, &mut self.looked)
            }
        }
    }
}

/// What makes columns in place of a tree, with the memory that is lent, where the solver leaves the choice.
fn few_columns<I: OverlayInt>(
    alloc: Global,
    solver: &Solver,
    memory: &mut FragmentMemory<I>,
) -> Option<FewColumns<I>> {
    match solver.strategy {
        Strategy::Auto => {
            let memory = replace(memory, FragmentMemory::new(alloc));
            Some(FewColumns { alloc, memory })
        }
        _ => None,
    }
}

/// The grid of a run over these segments, where the solver takes one, and not for a list, and they
/// are wide enough. It takes the memory that is lent.
fn grid_over<C: WindingCount, I: OverlayInt, D: Copy>(
    alloc: Global,
    solver: &Solver,
    first: &[Segment<C, I, D>],
    memory: &mut FragmentMemory<I>,
) -> Result<Option<FragmentBuffer<I>>, Fault>
    requires in_range { AreInRange first.now }
    ensures grid { IfOk result (λ grid. IsGridFor solver.now.strategy (segments_of first.now) (grid_in grid)) }
    ensures fault { IfErr result (λ fault. fault ≡ Memory) }
{
    if first.is_empty() {
        return Ok(None);
    }
    if !solver.is_fragmentation_required(first) {
        return Ok(None);
    }
    if solver.is_list_split(first) {
        return Ok(None);
    }
    match GridLayout::over_list(first, first.len()) {
        Some(layout) => {
            let kept = replace(memory, FragmentMemory::new(alloc));
            let buffer = FragmentBuffer::with_memory(alloc, layout, kept)?;
            Ok(Some(buffer))
        }
        None => Ok(None),
    }
}

/// Finds the marks over a grid, inside which the segments have to lie. Where they have many fragments each, they are
/// first looked up in one row, then in a tree. Either may compare as many pairs as there are fragments. Only where that
/// does not do are fragments made.
fn find_over_grid<C: WindingCount, I: OverlayInt, D: Copy>(
    segments: &[Segment<C, I, D>],
    placing: Placing,
    grid: &mut FragmentBuffer<I>,
    tree: &mut TreeBuffers<I>,
    marks: &mut Vec<LineMark<I>>,
    looked: &mut u128,
) -> Result<bool, Fault>
    requires sorted { IsSortedByKey ends_of pair_cmp segments.now }
    requires in_range { AreInRange segments.now }
    requires inside { All (λ s. IsInside (grid_of grid.old) (ends_of s)) segments.now }
    requires radius { HasRadius placing }
    ensures layout { grid_of grid.new ≡ grid_of grid.old }
    ensures marks { OnOk result (AreMarks (placing_of placing) (segments_of segments.now)
        (marks_of I.whole marks.new.items)) }
    ensures rounded { IfOk result (λ rounded. rounded ≡ is_rounded (segments_of segments.now)) }
    ensures looked { OnOk result (looked.new ≤ looked.old
        + grid_looks (grid_of grid.old) (pairs (segments_of segments.now))) }
    ensures fault { IfErr result (λ fault. fault ≡ Memory) }
{
    if are_narrow(segments, grid) {
        return column_sweep::find_marks(segments, placing, grid, marks, looked);
    }
    let fragments = count_fragments(segments, grid);
    if fragments >= TREE_FIRST_FRAGMENTS * segments.len() as u128 {
        let most = fragments.min(u64::MAX as u128) as u64;
        let found = find_in_row(segments, placing, most, grid, marks, looked)?;
        if let Some(rounded) = found {
            return Ok(rounded);
        }
        let found = find_marks_within(segments, placing, fragments, tree, marks, looked)?;
        if let Some(rounded) = found {
            return Ok(rounded);
        }
    }
    column_sweep::find_marks(segments, placing, grid, marks, looked)
}

/// Finds the marks over a list, if few pairs are in reach, or else in columns, if these take few comparisons, where the
/// solver leaves the choice, and else over a tree.
fn find_without_grid<C: WindingCount, I: OverlayInt, D: Copy>(
    segments: &[Segment<C, I, D>],
    placing: Placing,
    few: &mut Option<FewColumns<I>>,
    tree: &mut TreeBuffers<I>,
    marks: &mut Vec<LineMark<I>>,
    looked: &mut u128,
) -> Result<bool, Fault>
    requires sorted { IsSortedByKey ends_of pair_cmp segments.now }
    requires in_range { AreInRange segments.now }
    requires radius { HasRadius placing }
    ensures marks { OnOk result (AreMarksOf placing segments.now marks.new.items) }
    ensures rounded { IfOk result (λ rounded. rounded ≡ is_rounded (segments_of segments.now)) }
    ensures looked { OnOk result (looked.new ≤ looked.old + tree_looks (pairs_in segments.now)) }
    ensures fault { IfErr result (λ fault. fault ≡ Memory) }
{
    if let Some(columns) = few {
        let most = LIST_BUDGET_PER_SEGMENT.saturating_mul(segments.len() as u64);
        if solver_list::are_few_in_reach(segments, most) {
            return solver_list::find_marks(segments, placing, &mut tree.heights, marks, looked);
        }
        let found = find_in_few_columns(segments, placing, columns, marks, looked)?;
        if let Some(rounded) = found {
            return Ok(rounded);
        }
    }
    solver_tree::find_marks(segments, placing, tree, marks, looked)
}

/// Finds the marks in columns over these segments, if that takes few comparisons. Else it returns `None`, and `marks` is
/// of no use.
fn find_in_few_columns<C: WindingCount, I: OverlayInt, D: Copy>(
    segments: &[Segment<C, I, D>],
    placing: Placing,
    few: &mut FewColumns<I>,
    marks: &mut Vec<LineMark<I>>,
    looked: &mut u128,
) -> Result<Option<bool>, Fault>
    requires sorted { IsSortedByKey ends_of pair_cmp segments.now }
    requires in_range { AreInRange segments.now }
    requires radius { HasRadius placing }
    ensures marks { IfOk result (λ found. OnSome found (AreMarksOf placing segments.now marks.new.items)) }
    ensures rounded { IfOk result (λ found. IfSome found (λ rounded. rounded ≡ is_rounded (segments_of segments.now))) }
    ensures looked { OnOk result (looked.new ≤ looked.old + 24 * length segments.now) }
    ensures fault { IfErr result (λ fault. fault ≡ Memory) }
{
    if segments.is_empty() {
        return Ok(None);
    }
    let count = segments.len().div_ceil(SEGMENTS_PER_SQUARED_COLUMN);
    let Some(layout) = GridLayout::over_list(segments, count) else {
        return Ok(None);
    };
    let memory = replace(&mut few.memory, FragmentMemory::new(few.alloc));
    let mut grid = FragmentBuffer::with_memory(few.alloc, layout, memory)?;
    let found = find_in_columns(segments, placing, &mut grid, marks, looked)?;
    few.memory = grid.into_memory();
    Ok(found)
}

/// The same in the columns of a grid, inside which the segments have to lie, or in one row where they have many fragments
/// each.
fn find_in_columns<C: WindingCount, I: OverlayInt, D: Copy>(
    segments: &[Segment<C, I, D>],
    placing: Placing,
    grid: &mut FragmentBuffer<I>,
    marks: &mut Vec<LineMark<I>>,
    looked: &mut u128,
) -> Result<Option<bool>, Fault>
    requires sorted { IsSortedByKey ends_of pair_cmp segments.now }
    requires in_range { AreInRange segments.now }
    requires inside { All (λ s. IsInside (grid_of grid.old) (ends_of s)) segments.now }
    requires radius { HasRadius placing }
    ensures marks { IfOk result (λ found. OnSome found (AreMarksOf placing segments.now marks.new.items)) }
    ensures rounded { IfOk result (λ found. IfSome found (λ rounded. rounded ≡ is_rounded (segments_of segments.now))) }
    ensures looked { OnOk result (looked.new ≤ looked.old + 24 * length segments.now) }
    ensures fault { IfErr result (λ fault. fault ≡ Memory) }
{
    let most = COLUMN_BUDGET_PER_SEGMENT.saturating_mul(segments.len() as u64);
    if has_many_fragments(segments, grid) {
        return find_in_row(segments, placing, most, grid, marks, looked);
    }
    column_sweep::find_marks_within(segments, placing, most, grid, marks, looked)
}

/// Whether segments have at least four fragments each, on the average.
fn has_many_fragments<C: WindingCount, I: OverlayInt, D: Copy>(
    segments: &[Segment<C, I, D>],
    grid: &FragmentBuffer<I>,
) -> bool
    requires { All (λ s. IsInside (grid_of grid.now) (ends_of s)) segments.now }
{
    !are_narrow(segments, grid)
        && count_fragments(segments, grid) >= TREE_FIRST_FRAGMENTS * segments.len() as u128
}

/// Finds the marks in one row, if few segments share a height and that takes no more comparisons than it may. Else it
/// returns `None`, compares no pair, and `marks` is of no use.
fn find_in_row<C: WindingCount, I: OverlayInt, D: Copy>(
    segments: &[Segment<C, I, D>],
    placing: Placing,
    most: u64,
    grid: &FragmentBuffer<I>,
    marks: &mut Vec<LineMark<I>>,
    looked: &mut u128,
) -> Result<Option<bool>, Fault>
    requires in_range { AreInRange segments.now }
    requires inside { All (λ s. IsInside (grid_of grid.now) (ends_of s)) segments.now }
    requires radius { HasRadius placing }
    ensures marks { IfOk result (λ found. OnSome found (AreMarksOf placing segments.now marks.new.items)) }
    ensures rounded { IfOk result (λ found. IfSome found (λ rounded. rounded ≡ is_rounded (segments_of segments.now))) }
    ensures looked { OnOk result (looked.new ≤ looked.old + most) }
    ensures given_up { IfOk result (λ found. IfNone found (looked.new ≡ looked.old)) }
    ensures fault { IfErr result (λ fault. fault ≡ Memory) }
{
    let budget = most / (segments.len() as u64).max(1);
    // a row may count twice as many as share a height
    let level = (budget / 2).min(MAX_LEVEL_FOR_ROW);
    if budget < MIN_BUDGET_FOR_ROW || !are_few_level(segments, level) {
        return Ok(None);
    }
    solver_fragment_within::find_marks_in_row(segments, placing, most, grid, marks, looked)
}

/// Whether no more segments than `most` share a height, on the average: as often as the sum of their heights holds the
/// height of all.
fn are_few_level<C: WindingCount, I: OverlayInt, D: Copy>(
    segments: &[Segment<C, I, D>],
    most: u64,
) -> bool {
    let mut heights = 0_u64;
    let mut lowest = i64::MAX;
    let mut highest = i64::MIN;
    for index in 0..segments.len() {
        let XSegment { a, b } = segments[index].x_segment();
        let left = a.y.to_wide();
        let right = b.y.to_wide();
        heights = heights.saturating_add(right.abs_diff(left));
        lowest = lowest.min(left).min(right);
        highest = highest.max(left).max(right);
    }
    heights / most.max(1) < highest.abs_diff(lowest)
}
