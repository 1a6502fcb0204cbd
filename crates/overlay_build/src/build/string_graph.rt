// The graph of lines, which borrows the builder that keeps its nodes and links. Upstream: `string::graph`.
ghost use Rattle.std.specs.Prelude.{◌≡◌};
ghost use Rattle.std.specs.Borrow.{sem};

use crate::build::builder::GraphBuilder;
use overlay_base::overlay_core::link::OverlayLink;
use overlay_base::segm::string::ShapeCountString;
use overlay_geometry::num::OverlayInt;

/// A builder of graphs of lines.
pub type LineBuilder<I> = GraphBuilder<ShapeCountString, Vec<usize>, I, ()>;

/// The kept segments of polygons and lines as links, and their ends as nodes.
///
/// As it is built, links are in the order of the segments, and nodes are the ends of links, each
/// once, in order of their points; a node lists the links that start there, then those that end
/// there, both by rising index. A link's `a.id` and `b.id` are the numbers of the nodes at its
/// ends. Whoever walks over the graph may write to its links (`links_mut`): what is written stays,
/// also in the builder once the graph is let go. The nodes stay as they are, and so does the number
/// of links.
#[derive(Drop)]
pub struct StringGraph<'a, I: OverlayInt> {
    builder: &'a mut LineBuilder<I>,
}

impl<'a, I: OverlayInt> StringGraph<'a, I> {
    ghost use Rattle.overlay_build.specs.StringGraphOf.{LendsTo, line_nodes_of, line_links_of, lines_asked};

    /// The graph that a builder keeps.
    pub(crate) fn new(builder: &'a mut LineBuilder<I>) -> StringGraph<'a, I>
        ensures builder { result.builder ≡ builder.entry }
    {
        StringGraph { builder }
    }

    /// The nodes.
    pub fn nodes(&self) -> &[Vec<usize>]
        ensures { result.now ≡ line_nodes_of self.now }
    {
        self.builder.nodes()
    }

    /// The links.
    pub fn links(&self) -> &[OverlayLink<I, ()>]
        ensures { result.now ≡ line_links_of self.now }
    {
        self.builder.links()
    }

    /// How many orders of live segments the sweep that found it has compared, `u128::MAX` at most.
    pub fn compared(&self) -> u128
        ensures { result ≡ lines_asked self.now }
    {
        self.builder.compared()
    }

    /// The links, to be written to.
    pub fn links_mut(&mut self) -> &mut [OverlayLink<I, ()>]
        ensures links { result.now ≡ line_links_of self.old }
        ensures* writes_back { sem 𝓛 (LendsTo I.row I.OverlayInt.own I.Ord.own I.PartialEq I.PartialOrd.own
            self.entry result) }
    {
        self.builder.links_mut()
    }
}
