// Graphs of an arrangement, and what is done with them.
use crate::case::{Case, Stop, Summary, mixed, mixed_index, mixed_point, refused};
use crate::shapes::{NO_DATA, Shape, sides};
use i_overlay::build::boundary::directed_segments;
use i_overlay::build::builder::GraphBuilder;
use i_overlay::build::walks::closed_walks;
use i_overlay::geom::point::IntPoint;
use i_overlay::overlay_core::extract::VisitState;
use i_overlay::overlay_core::fill_rule::FillRule;
use i_overlay::overlay_core::graph::OverlayNode;
use i_overlay::overlay_core::link::{OverlayLink, filter_by_overlay_into};
use i_overlay::overlay_core::overlay_rule::OverlayRule;
use i_overlay::overlay_core::solver::Solver;
use i_overlay::segm::arranged::{is_arranged, is_splittable};
use i_overlay::segm::boolean::ShapeCountBoolean;
use i_overlay::segm::segment::Segment;
use i_overlay::segm::shape_type::ShapeType;
use i_overlay::segm::string::ShapeCountString;
use i_overlay::segm::winding::WindingCount;
use i_overlay::split::solver::SplitSolver;
use i_overlay::string::clip::ClipRule;
use std::alloc::Global;

type BooleanSegment = Segment<ShapeCountBoolean, i32, ()>;

/// A builder of graphs of polygons.
pub type Builder = GraphBuilder<ShapeCountBoolean, OverlayNode, i32, ()>;

/// A builder of graphs of polygons and lines.
pub type LineBuilder = GraphBuilder<ShapeCountString, Vec<usize>, i32, ()>;

/// The parts of lines inside polygons, the boundary aside.
pub const INSIDE: ClipRule = ClipRule {
    invert: false,
    boundary_included: false,
};

/// The parts of lines outside polygons, the boundary taken as inside.
const OUTSIDE: ClipRule = ClipRule {
    invert: true,
    boundary_included: true,
};

/// The split of a shape.
fn arrangement<C: WindingCount>(
    shape: Shape,
    alloc: Global,
) -> Result<Vec<Segment<C, i32, ()>>, Stop> {
    let mut list = sides(shape, NO_DATA, &mut (), alloc)?;
    if !is_splittable(&list) {
        return Err(Stop::Wrong("the input may not be split"));
    }
    SplitSolver::new(alloc).split_segments(&mut list, &Solver::LIST)?;
    Ok(list)
}

/// The numbers of a graph.
pub fn summary_of(links: &[OverlayLink<i32, ()>], nodes: usize) -> Summary {
    let mut digest = 0;
    for link in links {
        digest = mixed_point(mixed_point(digest, link.a.point), link.b.point);
        digest = mixed_index(mixed_index(digest, link.a.id), link.b.id);
        digest = mixed(digest, i32::from(link.fill));
    }
    Summary {
        count: links.len(),
        others: nodes as u128,
        digest,
    }
}

/// Which graph is built.
#[derive(Clone, Copy, Drop)]
pub enum Kind {
    /// That of all segments.
    All,
    /// That of an overlay rule.
    Overlay,
    /// That of all segments of polygons and lines.
    Lines,
    /// That of a clip rule.
    Clip,
}

/// A build without links, then one with links, by one builder. A refused one leaves neither nodes nor links.
#[derive(Drop)]
pub struct Build {
    builder: Builder,
    lines: LineBuilder,
    kind: Kind,
    solver: Solver,
}

impl Build {
    /// Builds of a kind under a strategy.
    pub fn new(alloc: Global, kind: Kind, solver: Solver) -> Build {
        Build {
            builder: Builder::new(alloc),
            lines: LineBuilder::new(alloc),
            kind,
            solver,
        }
    }

    /// Builds a graph of polygons without links, and then the one of a rule.
    fn build_polygons(
        &mut self,
        rule: Option<OverlayRule>,
        alloc: Global,
    ) -> Result<Summary, Stop> {
        let subject = arrangement(Shape::Crossed, alloc)?;
        check_empty(self.polygons(Some(OverlayRule::Intersect), subject.as_slice())?)?;
        let squares = arrangement(Shape::Squares, alloc)?;
        self.polygons(rule, squares.as_slice())
    }

    /// Builds a graph of lines without links, and then the one of a rule.
    fn build_lines(&mut self, rule: Option<ClipRule>, alloc: Global) -> Result<Summary, Stop> {
        let subject = arrangement(Shape::Crossed, alloc)?;
        check_empty(self.lines(Some(INSIDE), subject.as_slice())?)?;
        let squares = arrangement(Shape::Squares, alloc)?;
        self.lines(rule, squares.as_slice())
    }

    /// The graph of polygons under a rule, or of all segments where there is none.
    fn polygons(
        &mut self,
        rule: Option<OverlayRule>,
        list: &[Segment<ShapeCountBoolean, i32, ()>],
    ) -> Result<Summary, Stop> {
        if !is_arranged(list) {
            return Err(Stop::Wrong("the split is no arrangement"));
        }
        let built = match rule {
            Some(rule) => self
                .builder
                .build_boolean_overlay(FillRule::NonZero, rule, &self.solver, list),
            None => self
                .builder
                .build_boolean_all(FillRule::NonZero, &self.solver, list),
        };
        let fault = match built {
            Ok(graph) => return Ok(summary_of(graph.links(), graph.nodes().len())),
            Err(fault) => fault,
        };
        Err(refused(
            fault,
            self.builder.nodes().is_empty() && self.builder.links().is_empty(),
        ))
    }

    /// The graph of lines under a clip rule, or of all segments where there is none.
    fn lines(
        &mut self,
        rule: Option<ClipRule>,
        list: &[Segment<ShapeCountString, i32, ()>],
    ) -> Result<Summary, Stop> {
        if !is_arranged(list) {
            return Err(Stop::Wrong("the split is no arrangement"));
        }
        let built = match rule {
            Some(rule) => self
                .lines
                .build_string_clip(FillRule::NonZero, rule, &self.solver, list),
            None => self
                .lines
                .build_string_all(FillRule::NonZero, &self.solver, list),
        };
        let fault = match built {
            Ok(graph) => return Ok(summary_of(graph.links(), graph.nodes().len())),
            Err(fault) => fault,
        };
        Err(refused(
            fault,
            self.lines.nodes().is_empty() && self.lines.links().is_empty(),
        ))
    }
}

impl Case for Build {
    fn try_once(&mut self, alloc: Global) -> Result<Summary, Stop> {
        match self.kind {
            Kind::All => self.build_polygons(None, alloc),
            Kind::Overlay => self.build_polygons(Some(OverlayRule::Xor), alloc),
            Kind::Lines => self.build_lines(None, alloc),
            Kind::Clip => self.build_lines(Some(OUTSIDE), alloc),
        }
    }
}

/// Wants a graph without links and nodes.
fn check_empty(graph: Summary) -> Result<(), Stop> {
    if graph.count == 0 && graph.others == 0 {
        Ok(())
    } else {
        Err(Stop::Wrong("the first build has links"))
    }
}

/// Which links of a graph a rule keeps. A refused filter leaves no state.
#[derive(Drop)]
pub struct Filter {
    builder: Builder,
    states: Vec<VisitState>,
}

impl Filter {
    /// A filter whose buffer has taken no memory yet.
    pub fn new(alloc: Global) -> Filter {
        Filter {
            builder: Builder::new(alloc),
            states: Vec::new(alloc),
        }
    }
}

impl Filter {
    /// The filter of the graph of these segments.
    fn filter(&mut self, squares: &[BooleanSegment]) -> Result<Summary, Stop> {
        if !is_arranged(squares) {
            return Err(Stop::Wrong("the split is no arrangement"));
        }
        let graph = self
            .builder
            .build_boolean_all(FillRule::NonZero, &Solver::LIST, squares)?;
        match filter_by_overlay_into(graph.links(), OverlayRule::Union, &mut self.states) {
            Ok(()) => Ok(summary_of_states(self.states.as_slice())),
            Err(fault) => Err(refused(fault, self.states.is_empty())),
        }
    }
}

impl Case for Filter {
    fn try_once(&mut self, alloc: Global) -> Result<Summary, Stop> {
        let squares = arrangement(Shape::Squares, alloc)?;
        self.filter(squares.as_slice())
    }
}

/// How many states there are, and how many of them are of links that are kept.
fn summary_of_states(states: &[VisitState]) -> Summary {
    let kept = states
        .iter()
        .filter(|state| **state == VisitState::Unvisited)
        .count();
    Summary {
        count: states.len(),
        others: kept as u128,
        digest: 0,
    }
}

/// Closed walks through a graph, which a refusal leaves as it is.
#[derive(Drop)]
pub struct Walks {
    builder: Builder,
}

impl Walks {
    /// Walks through what a new builder builds.
    pub fn new(alloc: Global) -> Walks {
        Walks {
            builder: Builder::new(alloc),
        }
    }
}

impl Walks {
    /// The walks through the graph of these segments.
    fn walk(&mut self, squares: &[BooleanSegment], alloc: Global) -> Result<Summary, Stop> {
        if !is_arranged(squares) {
            return Err(Stop::Wrong("the split is no arrangement"));
        }
        let graph = self.builder.build_boolean_overlay(
            FillRule::NonZero,
            OverlayRule::Xor,
            &Solver::LIST,
            squares,
        )?;
        if !graph.has_even_nodes() {
            return Err(Stop::Wrong("a node of an overlay has an odd number of links"));
        }
        let before = summary_of(graph.links(), graph.nodes().len());
        let fault = match closed_walks(alloc, &graph) {
            Ok(walks) => return Ok(summary_of_walks(walks.as_slice())),
            Err(fault) => fault,
        };
        let after = summary_of(graph.links(), graph.nodes().len());
        Err(refused(fault, before == after))
    }
}

impl Case for Walks {
    fn try_once(&mut self, alloc: Global) -> Result<Summary, Stop> {
        let squares = arrangement(Shape::Squares, alloc)?;
        self.walk(squares.as_slice(), alloc)
    }
}

/// How many walks there are, and a digest of their links.
fn summary_of_walks(walks: &[Vec<usize>]) -> Summary {
    let mut digest = 0;
    for walk in walks {
        for link in walk.iter() {
            digest = mixed_index(digest, *link);
        }
    }
    Summary {
        count: walks.len(),
        others: 0,
        digest,
    }
}

/// The boundary of a rule's region, as segments of one shape.
#[derive(Drop)]
pub struct Boundary {
    builder: Builder,
}

impl Boundary {
    /// The boundary of what a new builder builds.
    pub fn new(alloc: Global) -> Boundary {
        Boundary {
            builder: Builder::new(alloc),
        }
    }
}

impl Boundary {
    /// The boundary of the graph of these segments.
    fn boundary(&mut self, squares: &[BooleanSegment], alloc: Global) -> Result<Summary, Stop> {
        if !is_arranged(squares) {
            return Err(Stop::Wrong("the split is no arrangement"));
        }
        let graph = self.builder.build_boolean_overlay(
            FillRule::NonZero,
            OverlayRule::Xor,
            &Solver::LIST,
            squares,
        )?;
        let sides = directed_segments(alloc, &graph, OverlayRule::Xor, ShapeType::Subject)?;
        Ok(summary_of_sides(sides.as_slice()))
    }
}

impl Case for Boundary {
    fn try_once(&mut self, alloc: Global) -> Result<Summary, Stop> {
        let squares = arrangement(Shape::Squares, alloc)?;
        self.boundary(squares.as_slice(), alloc)
    }
}

/// How many segments there are, and a digest of their ends and counts.
fn summary_of_sides(sides: &[BooleanSegment]) -> Summary {
    let mut digest = 0;
    for side in sides {
        let ends = side.x_segment();
        digest = mixed_point(mixed_point(digest, ends.a), ends.b);
        digest = mixed(digest, side.count().subj);
    }
    Summary {
        count: sides.len(),
        others: 0,
        digest,
    }
}

/// A contour of 64 points, which are sorted to find a repeated one. A refusal leaves the buffer empty.
#[derive(Drop)]
pub struct Loops {
    builder: Builder,
    sorted: Vec<IntPoint<i32>>,
}

impl Loops {
    /// A search whose buffer has taken no memory yet.
    pub fn new(alloc: Global) -> Loops {
        Loops {
            builder: Builder::new(alloc),
            sorted: Vec::new(alloc),
        }
    }
}

impl Case for Loops {
    fn try_once(&mut self, alloc: Global) -> Result<Summary, Stop> {
        let contour = contour(alloc)?;
        match self
            .builder
            .test_contour_for_loops(&contour, &mut self.sorted)
        {
            Ok(has_loop) => Ok(summary_of_points(has_loop, self.sorted.as_slice())),
            Err(fault) => Err(refused(fault, self.sorted.is_empty())),
        }
    }
}

/// The contour of 64 points.
fn contour(alloc: Global) -> Result<Vec<IntPoint<i32>>, Stop> {
    let mut contour = Vec::new(alloc);
    for place in 0..64_i32 {
        contour.push(IntPoint::new(place % 63, 0))?;
    }
    Ok(contour)
}

/// How many points there are, and a digest of whether one is repeated and of all of them.
fn summary_of_points(has_loop: bool, points: &[IntPoint<i32>]) -> Summary {
    let mut digest = i64::from(has_loop);
    for point in points {
        digest = mixed_point(digest, *point);
    }
    Summary {
        count: points.len(),
        others: 0,
        digest,
    }
}
