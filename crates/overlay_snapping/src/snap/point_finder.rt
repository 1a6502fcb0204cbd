// The points of a set whose pixels a segment meets, found in a grid. Where it is crowded or the segment long, the points are
// tested one by one, and after some such searches that find few a tree is filled. This project's own.
ghost use Rattle.std.specs.Prelude.{◌≡◌, ◌↔◌, [], true, map, length, Contains, OnOk, IsTrue};
ghost use Rattle.std.specs.List.{list_all};
ghost use Rattle.overlay_geometry.specs.Points.{Point, is_ordered};
ghost use Rattle.overlay_geometry.specs.PointOf.{point_of};
ghost use Rattle.overlay_geometry.specs.PairOf.{pair_of};
ghost use Rattle.overlay_geometry.specs.Coordinates.{is_point_in_range};
ghost use Rattle.overlay_geometry.specs.InRange.{IsPairInRange};
ghost use Rattle.overlay_snapping.specs.Pixels.{met_places};
ghost use Rattle.overlay_snapping.specs.steps.Met.{is_listed, AddsAllMet};

use crate::snap::cells::{CellBox, CellSize};
use crate::snap::pixel::is_end;
use crate::snap::point_grid::PointGrid;
use crate::snap::point_tree::PointTree;
use overlay_geometry::geom::point::IntPoint;
use overlay_geometry::geom::x_segment::XSegment;
use overlay_geometry::num::OverlayInt;
use std::alloc::{AllocError, Global};

/// Points, with a grid over them, and a tree of boxes once it is needed: it finds the points whose pixels a segment meets.
#[derive(Drop)]
pub struct PointFinder<I: OverlayInt> {
    pub(crate) grid: PointGrid<I>,
    tree: PointTree<I>,
    /// Whether the tree has the points of the grid.
    has_tree: bool,
    /// How many searches that find few may test points one by one before the tree is filled.
    scans: u32,
    /// The places in the tree that were found last.
    places: Vec<usize>,
    ghost alike: { has_tree ≡ true → (c : Point) → is_listed (map (point_of I.whole) tree.points.items) c
        ≡ is_listed (map (point_of I.whole) grid.points.items) c },
}

/// The most points that are tested one by one.
const FEW_POINTS: usize = 8;

/// The most cells that a search looks into.
const MOST_CELLS: u64 = 256;

/// The most searches that find few and test points one by one: they take less time than the tree takes to be filled.
const MOST_SCANS: u32 = 4;

/// The most points that are tested in order without the tree, which takes more time for so few.
const FEW_FOR_TREE: usize = 1024;

/// A search finds few where it finds less than one of so many points: the tree takes less time then.
const FEW_OF: usize = 512;

impl<I: OverlayInt> PointFinder<I> {
    ghost use Rattle.overlay_snapping.specs.PointFinderOf.{points_of, points_in};

    /// A finder without points.
    pub(crate) fn new(alloc: Global) -> Self
        ensures { points_of result ≡ [] }
    {
        PointFinder {
            grid: PointGrid::new(alloc),
            tree: PointTree::new(alloc),
            has_tree: false,
            scans: 0,
            places: Vec::new(alloc),
        }
    }

    /// Takes these points in place of those that the finder has. It keeps its memory.
    ///
    /// The points have to be in range. A search is fastest where cells are about as large as the segments. Returns
    /// `AllocError` where a growth is refused; the finder may have some of the points then.
    pub(crate) fn fill(&mut self, points: &[IntPoint<I>], size: CellSize) -> Result<(), AllocError>
        requires in_range { IsTrue (list_all (is_point_in_range (I.whole I.MIN_COORD) (I.whole I.MAX_COORD))
            (map (point_of I.whole) points.now)) }
        ensures same { OnOk result ((c : Point) → Contains (points_in self.new) c ↔ Contains (map (point_of I.whole) points.now) c) }
    {
        self.has_tree = false;
        self.scans = MOST_SCANS;
        self.grid.fill(points, size)
    }

    /// How many points are kept, repeats included.
    pub(crate) fn most(&self) -> usize
        ensures { result ≡ length (points_of self.now) }
    {
        self.grid.points.len()
    }

    /// Appends the points whose pixels the segment meets, but for its ends, in any order and maybe with repeats.
    ///
    /// The segment has to be in range, and its ends in order. Returns `AllocError` where a growth is refused; some of
    /// the points are appended then.
    pub(crate) fn append_met(
        &mut self,
        segment: &XSegment<I>,
        met: &mut Vec<IntPoint<I>>,
    ) -> Result<(), AllocError>
        requires in_range { IsPairInRange I.whole I.MIN_COORD I.MAX_COORD segment.now }
        requires ordered { IsTrue (is_ordered (pair_of I.whole segment.now)) }
        ensures met { OnOk result (AddsAllMet (pair_of I.whole segment.now) (points_in self.old)
            (map (point_of I.whole) met.old.items) (map (point_of I.whole) met.new.items)) }
        ensures same { points_of self.new ≡ points_of self.old }
    {
        if self.grid.points().len() <= FEW_POINTS {
            return self.grid.append_each_met(segment, met);
        }
        if self.grid.is_crowded() {
            return self.append_met_of_list(segment, met);
        }
        let cells = CellBox::around(segment, self.grid.size());
        if cells.has_at_most(MOST_CELLS) {
            return self.grid.append_met(segment, &cells, met);
        }
        if self.may_scan() {
            return self.grid.append_each_met(segment, met);
        }
        self.append_met_by_tree(segment, met)
    }

    /// As `append_met`, where the grid is crowded and its points are a list in order.
    fn append_met_of_list(
        &mut self,
        segment: &XSegment<I>,
        met: &mut Vec<IntPoint<I>>,
    ) -> Result<(), AllocError>
        requires crowded { self.old.grid.is_crowded ≡ true }
        requires in_range { IsPairInRange I.whole I.MIN_COORD I.MAX_COORD segment.now }
        requires ordered { IsTrue (is_ordered (pair_of I.whole segment.now)) }
        ensures met { OnOk result (AddsAllMet (pair_of I.whole segment.now) (points_in self.old)
            (map (point_of I.whole) met.old.items) (map (point_of I.whole) met.new.items)) }
        ensures same { points_of self.new ≡ points_of self.old }
    {
        let all = self.most();
        if all > FEW_FOR_TREE && !self.may_scan() {
            return self.append_met_by_tree(segment, met);
        }
        let before = met.len();
        self.grid.append_met_in_order(segment, met)?;
        if all / FEW_OF < met.len().saturating_sub(before) {
            self.scans = MOST_SCANS;
        }
        Ok(())
    }

    /// Whether the tree is not filled and need not be yet, so that a search may test all points. It counts as one then.
    fn may_scan(&mut self) -> bool
        ensures { self.new.grid ≡ self.old.grid }
    {
        if self.has_tree || self.scans == 0 {
            return false;
        }
        self.scans -= 1;
        true
    }

    /// As `append_met`, by the tree, which is filled first if it has to be.
    fn append_met_by_tree(
        &mut self,
        segment: &XSegment<I>,
        met: &mut Vec<IntPoint<I>>,
    ) -> Result<(), AllocError>
        requires in_range { IsPairInRange I.whole I.MIN_COORD I.MAX_COORD segment.now }
        requires ordered { IsTrue (is_ordered (pair_of I.whole segment.now)) }
        ensures met { OnOk result (AddsAllMet (pair_of I.whole segment.now) (points_in self.old)
            (map (point_of I.whole) met.old.items) (map (point_of I.whole) met.new.items)) }
        ensures same { points_of self.new ≡ points_of self.old }
    {
        self.fill_tree()?;
        self.places.clear();
        self.tree.append_met(segment, &mut self.places)?;
        append_but_ends(segment, self.tree.points(), &self.places, met)
    }

    /// Fills the tree with the points of the grid, unless it has them.
    fn fill_tree(&mut self) -> Result<(), AllocError>
        ensures filled { OnOk result (self.new.has_tree ≡ true) }
        ensures same { points_of self.new ≡ points_of self.old }
    {
        if !self.has_tree {
            self.tree.fill(self.grid.points())?;
            self.has_tree = true;
        }
        Ok(())
    }
}

/// Appends the points at some places, but for the ends of a segment.
fn append_but_ends<I: OverlayInt>(
    segment: &XSegment<I>,
    points: &[IntPoint<I>],
    places: &[usize],
    met: &mut Vec<IntPoint<I>>,
) -> Result<(), AllocError>
    requires places { places.now ≡ met_places (pair_of I.whole segment.now) (map (point_of I.whole) points.now) }
    ensures { OnOk result (AddsAllMet (pair_of I.whole segment.now) (map (point_of I.whole) points.now)
        (map (point_of I.whole) met.old.items) (map (point_of I.whole) met.new.items)) }
{
    for place in places {
        let point = points[*place];
        if !is_end(segment, point) {
            met.push(point)?;
        }
    }
    Ok(())
}
