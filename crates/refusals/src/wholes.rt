// The whole overlay, lines cut by polygons, contours, and relations of these, each in one call.
use crate::case::{Case, Stop, Summary, mixed_index, mixed_point, refused};
use crate::graphs::{Builder, INSIDE, LineBuilder, summary_of};
use crate::shapes::{CUT, NO_DATA, Shape, sides};
use i_overlay::clip::{split_and_build_clip, split_and_build_clip_by};
use i_overlay::geom::point::IntPoint;
use i_overlay::geom::rect::IntRect;
use i_overlay::overlay::{split_and_build_overlay, split_and_build_overlay_by};
use i_overlay::overlay_core::fill_rule::FillRule;
use i_overlay::overlay_core::overlay_rule::OverlayRule;
use i_overlay::overlay_core::solver::Solver;
use i_overlay::segm::arranged::{is_arranged, is_splittable};
use i_overlay::segm::boolean::ShapeCountBoolean;
use i_overlay::segm::segment::Segment;
use i_overlay::segm::shape_type::ShapeType;
use i_overlay::segm::string::ShapeCountString;
use i_overlay::split::solver::SplitSolver;
use i_overlay::splitter::Splitter;
use overlay_contours::arrangement::Arrangement;
use overlay_contours::contour::{IntContour, IntShape, find_out_of_range};
use overlay_contours::fault::ContourFault;
use overlay_contours::overlay::{Overlay as ContourOverlay, overlay_contours, overlay_shapes};
use overlay_contours::rounding::Rounding;
use overlay_contours::sources::{
    SourceContour, overlay_contours_with_sources, overlay_shapes_with_sources,
};
use overlay_relations::fault::RelationFault;
use overlay_relations::pairs::{PairFault, related_pairs};
use overlay_relations::predicate::Predicate;
use overlay_relations::predicates::{covers, interiors_meet};
use overlay_relations::region::Region;
use overlay_tiles::clip::clip_to_tile;
use overlay_tiles::tile::Tile;
use overlay_tiles::tiled::{TilingFault, overlay_by_tiles};
use std::alloc::Global;

/// An overlay by one splitter and one builder. A refusal leaves the list empty, or the arrangement.
#[derive(Drop)]
pub struct Overlay {
    splitter: SplitSolver<i32>,
    builder: Builder,
    solver: Solver,
}

impl Overlay {
    /// An overlay under a strategy.
    pub fn new(alloc: Global, solver: Solver) -> Overlay {
        Overlay {
            splitter: SplitSolver::new(alloc),
            builder: Builder::new(alloc),
            solver,
        }
    }
}

impl Case for Overlay {
    fn try_once(&mut self, alloc: Global) -> Result<Summary, Stop> {
        let mut list: Vec<Segment<ShapeCountBoolean, i32, ()>> = sides(
            Shape::Squares,
            NO_DATA,
            &mut (),
            alloc,
        )?;
        if !is_splittable(&list) {
            return Err(Stop::Wrong("the input may not be split"));
        }
        let built = split_and_build_overlay(
            &mut self.splitter,
            &mut self.builder,
            &mut list,
            &self.solver,
            FillRule::NonZero,
            OverlayRule::Union,
        );
        match built {
            Ok(graph) => Ok(summary_of(graph.links(), graph.nodes().len())),
            Err(fault) => Err(refused(fault, list.is_empty() || is_arranged(&list))),
        }
    }
}

/// Lines cut by polygons, by one splitter and one builder. A refusal leaves the list empty, or the arrangement.
#[derive(Drop)]
pub struct LineClip {
    splitter: SplitSolver<i32>,
    builder: LineBuilder,
    solver: Solver,
}

impl LineClip {
    /// A clip under a strategy.
    pub fn new(alloc: Global, solver: Solver) -> LineClip {
        LineClip {
            splitter: SplitSolver::new(alloc),
            builder: LineBuilder::new(alloc),
            solver,
        }
    }

    /// The parts of the lines of a shape inside its polygons.
    fn clip(&mut self, shape: Shape, alloc: Global) -> Result<Summary, Stop> {
        let mut list: Vec<Segment<ShapeCountString, i32, ()>> = sides(
            shape,
            NO_DATA,
            &mut (),
            alloc,
        )?;
        if !is_splittable(&list) {
            return Err(Stop::Wrong("the input may not be split"));
        }
        let built = split_and_build_clip(
            &mut self.splitter,
            &mut self.builder,
            &mut list,
            &self.solver,
            FillRule::NonZero,
            INSIDE,
        );
        match built {
            Ok(graph) => Ok(summary_of(graph.links(), graph.nodes().len())),
            Err(fault) => Err(refused(fault, list.is_empty() || is_arranged(&list))),
        }
    }
}

impl Case for LineClip {
    fn try_once(&mut self, alloc: Global) -> Result<Summary, Stop> {
        let squares = self.clip(Shape::Squares, alloc)?;
        Ok(squares.with(self.clip(Shape::Lines(&CUT), alloc)?))
    }
}

/// An overlay and a clip by snap rounding, by one splitter and two builders. A refusal leaves the list empty, or the
/// arrangement.
#[derive(Drop)]
pub struct Snapped {
    splitter: Splitter<i32>,
    builder: Builder,
    line_builder: LineBuilder,
    solver: Solver,
}

impl Snapped {
    /// An overlay and a clip under a strategy.
    pub fn new(alloc: Global, solver: Solver) -> Snapped {
        Snapped {
            splitter: Splitter::new(alloc, Rounding::HotPixels),
            builder: Builder::new(alloc),
            line_builder: LineBuilder::new(alloc),
            solver,
        }
    }

    /// The union of two squares.
    fn overlay(&mut self, alloc: Global) -> Result<Summary, Stop> {
        let mut list: Vec<Segment<ShapeCountBoolean, i32, ()>> = sides(
            Shape::Squares,
            NO_DATA,
            &mut (),
            alloc,
        )?;
        if !is_splittable(&list) {
            return Err(Stop::Wrong("the input may not be split"));
        }
        let built = split_and_build_overlay_by(
            &mut self.splitter,
            &mut self.builder,
            &mut list,
            &self.solver,
            FillRule::NonZero,
            OverlayRule::Union,
        );
        match built {
            Ok(graph) => Ok(summary_of(graph.links(), graph.nodes().len())),
            Err(fault) => Err(refused(fault, list.is_empty() || is_arranged(&list))),
        }
    }

    /// The parts of a line inside polygons.
    fn clip(&mut self, alloc: Global) -> Result<Summary, Stop> {
        let mut list: Vec<Segment<ShapeCountString, i32, ()>> = sides(
            Shape::Lines(&CUT),
            NO_DATA,
            &mut (),
            alloc,
        )?;
        if !is_splittable(&list) {
            return Err(Stop::Wrong("the input may not be split"));
        }
        let built = split_and_build_clip_by(
            &mut self.splitter,
            &mut self.line_builder,
            &mut list,
            &self.solver,
            FillRule::NonZero,
            INSIDE,
        );
        match built {
            Ok(graph) => Ok(summary_of(graph.links(), graph.nodes().len())),
            Err(fault) => Err(refused(fault, list.is_empty() || is_arranged(&list))),
        }
    }
}

impl Case for Snapped {
    fn try_once(&mut self, alloc: Global) -> Result<Summary, Stop> {
        let overlay = self.overlay(alloc)?;
        Ok(overlay.with(self.clip(alloc)?))
    }
}

/// What two contours share, as contours.
#[derive(Drop)]
pub struct Contours {}

impl Case for Contours {
    fn try_once(&mut self, alloc: Global) -> Result<Summary, Stop> {
        let subject = vec![in alloc; square(0, alloc)?]?;
        let clip = vec![in alloc; square(2, alloc)?]?;
        match overlay_contours(
            alloc,
            &subject,
            &clip,
            &Solver::AUTO,
            FillRule::NonZero,
            OverlayRule::Intersect,
        ) {
            Ok(contours) => Ok(summary_of_contours(&contours)),
            Err(fault) => Err(contour_stop(fault)),
        }
    }
}

/// What two contours share, without collinear points, by one overlay that keeps them, split by the rounding that `new`
/// takes. After a refusal it is used again as it is: only what was not added is added. By even-odd a contour that was
/// added twice would be missed.
#[derive(Drop)]
pub struct KeptContours {
    overlay: ContourOverlay<i32>,
    has_subject: bool,
    has_clip: bool,
}

impl KeptContours {
    /// An overlay of no contours, by a rounding.
    pub fn new(alloc: Global, rounding: Rounding) -> KeptContours {
        let mut overlay = ContourOverlay::new(alloc);
        overlay.set_rounding(rounding);
        KeptContours {
            overlay,
            has_subject: false,
            has_clip: false,
        }
    }

    /// Adds the contours that were not added yet.
    fn add_missing(&mut self, alloc: Global) -> Result<(), Stop> {
        if !self.has_subject {
            add_square(&mut self.overlay, 0, ShapeType::Subject, alloc)?;
            self.has_subject = true;
        }
        if !self.has_clip {
            add_square(&mut self.overlay, 2, ShapeType::Clip, alloc)?;
            self.has_clip = true;
        }
        Ok(())
    }
}

impl Case for KeptContours {
    fn try_once(&mut self, alloc: Global) -> Result<Summary, Stop> {
        self.add_missing(alloc)?;
        let contours = self
            .overlay
            .overlay_without_collinear(&Solver::AUTO, FillRule::EvenOdd, OverlayRule::Intersect)?;
        Ok(summary_of_contours(&contours))
    }
}

/// What two contours do not share, in shapes: two that touch in two points.
#[derive(Drop)]
pub struct Shapes {}

impl Case for Shapes {
    fn try_once(&mut self, alloc: Global) -> Result<Summary, Stop> {
        let subject = vec![in alloc; square(0, alloc)?]?;
        let clip = vec![in alloc; square(2, alloc)?]?;
        match overlay_shapes(
            alloc,
            &subject,
            &clip,
            &Solver::AUTO,
            FillRule::NonZero,
            OverlayRule::Xor,
        ) {
            Ok(shapes) => Ok(summary_of_shapes(&shapes)),
            Err(fault) => Err(contour_stop(fault)),
        }
    }
}

/// Whether the interiors of two contours meet, and whether the first covers the second.
#[derive(Drop)]
pub struct Relations {}

impl Case for Relations {
    fn try_once(&mut self, alloc: Global) -> Result<Summary, Stop> {
        let subject = vec![in alloc; square(0, alloc)?]?;
        let clip = vec![in alloc; square(2, alloc)?]?;
        let (solver, fill) = (&Solver::AUTO, FillRule::NonZero);
        let meet = interiors_meet(alloc, &subject, &clip, solver, fill);
        match (meet, covers(alloc, &subject, &clip, solver, fill)) {
            (Ok(meet), Ok(covered)) => Ok(Summary {
                count: usize::from(meet),
                others: u128::from(covered),
                digest: 0,
            }),
            (Err(fault), _) | (_, Err(fault)) => Err(relation_stop(fault)),
        }
    }
}

/// Whether two regions touch, and whether they are disjoint: they have a corner in common.
#[derive(Drop)]
pub struct Contacts {}

impl Case for Contacts {
    fn try_once(&mut self, alloc: Global) -> Result<Summary, Stop> {
        let (first, second) = (region(0, alloc)?, region(4, alloc)?);
        let touch = first.touches(&second, &Solver::AUTO);
        match (touch, first.is_disjoint(&second, &Solver::AUTO)) {
            (Ok(touch), Ok(disjoint)) => Ok(Summary {
                count: usize::from(touch),
                others: u128::from(disjoint),
                digest: 0,
            }),
            (Err(fault), _) | (_, Err(fault)) => Err(contour_stop(fault)),
        }
    }
}

/// Which of two regions touch a third: one has a corner in common with it.
#[derive(Drop)]
pub struct Pairs {}

impl Case for Pairs {
    fn try_once(&mut self, alloc: Global) -> Result<Summary, Stop> {
        let first = vec![in alloc; region(0, alloc)?]?;
        let second = vec![in alloc; region(4, alloc)?, region(9, alloc)?]?;
        match related_pairs(alloc, &first, &second, Predicate::Touch, &Solver::AUTO) {
            Ok(pairs) => Ok(Summary {
                count: pairs.len(),
                others: 0,
                digest: 0,
            }),
            Err(PairFault::Relation { cause, .. }) => Err(contour_stop(cause)),
            Err(PairFault::Memory) => Err(Stop::Refused),
        }
    }
}

/// The region of a square.
fn region(low: i32, alloc: Global) -> Result<Region<i32>, Stop> {
    let contours = vec![in alloc; square(low, alloc)?]?;
    match Region::new(alloc, &contours, &Solver::AUTO, FillRule::NonZero) {
        Ok(region) => Ok(region),
        Err(fault) => Err(relation_stop(fault)),
    }
}

/// What two squares share, by two tiles.
#[derive(Drop)]
pub struct Tiled {}

impl Case for Tiled {
    fn try_once(&mut self, alloc: Global) -> Result<Summary, Stop> {
        let subject = vec![in alloc; square(0, alloc)?]?;
        let clip = vec![in alloc; square(2, alloc)?]?;
        let tiles = vec![in alloc; tile(1, 3)?, tile(3, 9)?]?;
        let (solver, fill) = (&Solver::AUTO, FillRule::NonZero);
        let rule = OverlayRule::Intersect;
        match overlay_by_tiles(alloc, &tiles, &subject, &clip, solver, fill, rule) {
            Ok(contours) => Ok(summary_of_contours(&contours)),
            Err(TilingFault::Refused(fault)) => Err(contour_stop(fault)),
            Err(TilingFault::NotApart { .. }) => Err(Stop::Wrong("two tiles are not apart")),
        }
    }
}

/// A tile between two numbers in `x`, and from 2 to 9 in `y`.
fn tile(min_x: i32, max_x: i32) -> Result<Tile<i32>, Stop> {
    let rect = IntRect {
        min_x,
        max_x,
        min_y: 2,
        max_y: 9,
    };
    Tile::new(rect)
        .ok()
        .ok_or(Stop::Wrong("a rectangle is no tile"))
}

/// A square clipped to a tile that has a corner of it.
#[derive(Drop)]
pub struct Clipped {}

impl Case for Clipped {
    fn try_once(&mut self, alloc: Global) -> Result<Summary, Stop> {
        let contours = vec![in alloc; square(0, alloc)?]?;
        match find_out_of_range(&contours) {
            None => Ok(summary_of_contours(&clip_to_tile(alloc, &tile(1, 9)?, &contours)?)),
            Some(_) => Err(Stop::Wrong("a point is out of range")),
        }
    }
}

/// What two contours share, and in shapes what they do not, with a given edge for each step.
#[derive(Drop)]
pub struct Sources {}

impl Case for Sources {
    fn try_once(&mut self, alloc: Global) -> Result<Summary, Stop> {
        let subject = vec![in alloc; square(0, alloc)?]?;
        let clip = vec![in alloc; square(2, alloc)?]?;
        let (solver, fill) = (&Solver::AUTO, FillRule::NonZero);
        let (shared, apart) = (OverlayRule::Intersect, OverlayRule::Xor);
        let mut summary = Summary::NOTHING;
        match overlay_contours_with_sources(alloc, &subject, &clip, solver, fill, shared) {
            Ok(contours) => summary = summary.with(summary_of_sources(&contours)),
            Err(fault) => return Err(contour_stop(fault)),
        }
        match overlay_shapes_with_sources(alloc, &subject, &clip, solver, fill, apart) {
            Ok(shapes) => {
                for shape in &shapes {
                    summary = summary.with(summary_of_sources(shape));
                }
                Ok(summary)
            }
            Err(fault) => Err(contour_stop(fault)),
        }
    }
}

/// What two contours do not share, in shapes, by one overlay that keeps them, split by snap rounding. After a refusal it
/// is used again as it is, and what it reports of its last run is as it was.
#[derive(Drop)]
pub struct KeptShapes {
    kept: KeptContours,
}

impl KeptShapes {
    /// An overlay of no contours.
    pub fn new(alloc: Global) -> KeptShapes {
        KeptShapes {
            kept: KeptContours::new(alloc, Rounding::HotPixels),
        }
    }
}

impl Case for KeptShapes {
    fn try_once(&mut self, alloc: Global) -> Result<Summary, Stop> {
        self.kept.add_missing(alloc)?;
        let overlay = &mut self.kept.overlay;
        let before = (overlay.passes(), overlay.reach());
        match overlay.overlay_shapes(&Solver::AUTO, FillRule::EvenOdd, OverlayRule::Xor) {
            Ok(shapes) => Ok(summary_of_shapes(&shapes)),
            Err(fault) => {
                let after = (overlay.passes(), overlay.reach());
                Err(refused(fault, before == after))
            }
        }
    }
}

/// What two contours share and what they do not, by one split for both rules. After a refusal the overlay is used again as
/// it is, and what it reports of its last run is as it was.
#[derive(Drop)]
pub struct KeptRules {
    kept: KeptContours,
}

impl KeptRules {
    /// An overlay of no contours.
    pub fn new(alloc: Global) -> KeptRules {
        KeptRules {
            kept: KeptContours::new(alloc, Rounding::HotPixels),
        }
    }
}

impl Case for KeptRules {
    fn try_once(&mut self, alloc: Global) -> Result<Summary, Stop> {
        self.kept.add_missing(alloc)?;
        let overlay = &mut self.kept.overlay;
        let before = (overlay.passes(), overlay.reach());
        let rules = [OverlayRule::Intersect, OverlayRule::Xor];
        match overlay.overlay_by_rules(&Solver::AUTO, FillRule::EvenOdd, &rules) {
            Ok(overlays) => Ok(summary_of_shapes(&overlays)),
            Err(fault) => {
                let after = (overlay.passes(), overlay.reach());
                Err(refused(fault, before == after))
            }
        }
    }
}

/// What two contours do not share, in shapes without collinear points, by an arrangement that is made once and kept. After
/// a refusal both are used again as they are.
#[derive(Drop)]
pub struct KeptArrangement {
    kept: KeptContours,
    arrangement: Option<Arrangement<i32>>,
}

impl KeptArrangement {
    /// An overlay of no contours.
    pub fn new(alloc: Global) -> KeptArrangement {
        KeptArrangement {
            kept: KeptContours::new(alloc, Rounding::HotPixels),
            arrangement: None,
        }
    }
}

impl Case for KeptArrangement {
    fn try_once(&mut self, alloc: Global) -> Result<Summary, Stop> {
        self.kept.add_missing(alloc)?;
        if self.arrangement.is_none() {
            let overlay = &mut self.kept.overlay;
            let arrangement = overlay.arrange(&Solver::AUTO, FillRule::EvenOdd)?;
            self.arrangement = Some(arrangement);
        }
        let Some(arrangement) = &mut self.arrangement else {
            return Ok(Summary::NOTHING);
        };
        let shapes = arrangement.shapes_without_collinear(OverlayRule::Xor)?;
        Ok(summary_of_shapes(&shapes))
    }
}

/// Adds a square to an overlay.
fn add_square(
    overlay: &mut ContourOverlay<i32>,
    corner: i32,
    shape: ShapeType,
    alloc: Global,
) -> Result<(), Stop> {
    let contour = square(corner, alloc)?;
    match overlay.add_contour(&contour, shape) {
        Ok(()) => Ok(()),
        Err(fault) => Err(contour_stop(fault)),
    }
}

/// How many contours and points there are, and a digest of the points.
fn summary_of_contours(contours: &[IntContour<i32>]) -> Summary {
    let (mut digest, mut points) = (0, 0_u128);
    for contour in contours {
        for point in contour.iter() {
            digest = mixed_point(digest, *point);
            points = points.saturating_add(1);
        }
    }
    Summary {
        count: contours.len(),
        others: points,
        digest,
    }
}

/// How many contours and steps there are, and a digest of the points and of the edges that are named.
fn summary_of_sources(contours: &[SourceContour<i32>]) -> Summary {
    let (mut digest, mut steps) = (0, 0_u128);
    for contour in contours {
        for step in contour.iter() {
            digest = mixed_index(mixed_point(digest, step.point), step.edge_data.edge);
            steps = steps.saturating_add(1);
        }
    }
    Summary {
        count: contours.len(),
        others: steps,
        digest,
    }
}

/// How many shapes and points there are, and a digest of the points.
fn summary_of_shapes(shapes: &[IntShape<i32>]) -> Summary {
    let (mut points, mut digest) = (0_u128, 0_i64);
    for shape in shapes {
        let contours = summary_of_contours(shape);
        points = points.saturating_add(contours.others);
        digest = digest.wrapping_mul(31).wrapping_add(contours.digest);
    }
    Summary {
        count: shapes.len(),
        others: points,
        digest,
    }
}

/// Why a call over contours has no result.
fn contour_stop(fault: ContourFault) -> Stop {
    match fault {
        ContourFault::Refused(fault) => refused(fault, true),
        ContourFault::OutOfRange { .. } => Stop::Wrong("a point is out of range"),
    }
}

/// Why a relation has no result.
fn relation_stop(fault: RelationFault) -> Stop {
    match fault {
        RelationFault::Refused(fault) => contour_stop(fault),
        RelationFault::NotExact(_) => Stop::Wrong("edges of a square cross"),
    }
}

/// A square of side 4 with its lowest corner at a point of the diagonal.
fn square(low: i32, alloc: Global) -> Result<Vec<IntPoint<i32>>, Stop> {
    let high = low.saturating_add(4);
    let mut contour = Vec::new(alloc);
    for (x, y) in [(low, low), (high, low), (high, high), (low, high)] {
        contour.push(IntPoint::new(x, y))?;
    }
    Ok(contour)
}
