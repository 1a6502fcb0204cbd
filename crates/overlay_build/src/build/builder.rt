// Builds graphs of overlays and of lines, one after another. Upstream: `build::builder`, and the builds of
// `build::boolean` and `build::string`.
ghost use Rattle.std.specs.Prelude.{◌≡◌, [], true, map, IsTrue, IsFalse, OnOk, OnErr, IfOk, IfErr};
ghost use Rattle.std.specs.List.{list_all};
ghost use Rattle.std.specs.Borrow.{sem};
ghost use Rattle.overlay_geometry.specs.Points.{is_ordered};
ghost use Rattle.overlay_base.specs.Rules.{holds, keeps_fill};
ghost use Rattle.overlay_base.specs.ClipRules.{keeps_clip};
ghost use Rattle.overlay_base.specs.ArrangedOf.{IsArranged};
ghost use Rattle.overlay_base.specs.Balance.{IsBalanced};
ghost use Rattle.overlay_base.specs.SegmentOf.{segments_of, data_segments_of};
ghost use Rattle.overlay_sweep.specs.ChainWindings.{tops_leave_range};
ghost use Rattle.overlay_sweep.specs.LiveOf.{run_asked};
ghost use Rattle.overlay_build.specs.Graph.{graph_by, data_by, fills_of};
ghost use Rattle.overlay_build.specs.FillsOf.{AreFillsBySome};
ghost use Rattle.overlay_build.specs.GraphOf.{HoldGraph, HoldLists, graph_with, link_of};
ghost use Rattle.overlay_build.specs.NodeIndexes.{indexes_of, is_canonical_node};
ghost use Rattle.overlay_build.specs.steps.LinkRules.{keeps_by};
ghost use Rattle.overlay_build.specs.steps.LinksOf.{HaveKeptData};
ghost use Rattle.overlay_base.specs.declared.segm.fault.Fault.TheVariants.{Memory};
ghost use Rattle.overlay_base.specs.declared.overlay_core.fill_rule.FillRule.{FillRule};
ghost use Rattle.overlay_build.specs.BuilderOf.{built_nodes, built_links, build_asked};
ghost use Rattle.overlay_base.specs.FaultOf.{OnTooLarge};
ghost use Rattle.overlay_sweep.specs.SweepOf.{IsCostOf};
ghost use Rattle.overlay_build.specs.BalancedOf.{MakesBalancedOverlay, MakesBalancedClip};

use crate::build::connect_links::connect_links;
use crate::build::fills::find_fills;
use crate::build::graph::OverlayGraph;
use crate::build::graph_node::{GraphNode, OverlayNode};
use crate::build::kept_links::{LinkRule, collect_links};
use crate::build::listed_nodes::make_nodes;
use crate::build::string_graph::StringGraph;
use overlay_base::overlay_core::clip_rule::ClipRule;
use overlay_base::overlay_core::fill_rule::FillRule;
use overlay_base::overlay_core::link::OverlayLink;
use overlay_base::overlay_core::overlay_rule::OverlayRule;
use overlay_base::overlay_core::solver::Solver;
use overlay_base::segm::boolean::ShapeCountBoolean;
use overlay_base::segm::fault::Fault;
use overlay_base::segm::segment::Segment;
use overlay_base::segm::segment_fill::SegmentFill;
use overlay_base::segm::string::ShapeCountString;
use overlay_base::segm::winding::WindingCount;
use overlay_geometry::num::OverlayInt;
use overlay_sweep::build::fill_strategy::FillCount;
use overlay_sweep::build::sweep::SweepRunner;
use std::alloc::Global;

/// Builds graphs of arrangements, one after another, and keeps their buffers. Nodes and links are those of the last
/// build: none before the first, nor after one that was refused.
#[derive(Drop)]
pub struct GraphBuilder<C: WindingCount, N: GraphNode, I: OverlayInt, D: Copy> {
    alloc: Global,
    sweep_runner: SweepRunner<C, I>,
    fills: Vec<SegmentFill>,
    degrees: Vec<usize>,
    indexes: Vec<usize>,
    links: Vec<OverlayLink<I, D>>,
    nodes: Vec<N>,
    compared: u128,
}

impl<C: WindingCount, N: GraphNode, I: OverlayInt, D: Copy> GraphBuilder<C, N, I, D> {
    /// A builder, which takes no memory yet.
    pub fn new(alloc: Global) -> GraphBuilder<C, N, I, D>
        ensures links { built_links result ≡ [] }
        ensures nodes { built_nodes result ≡ [] }
        ensures compared { build_asked result ≡ 0 }
    {
        GraphBuilder {
            alloc,
            sweep_runner: SweepRunner::new(alloc),
            fills: Vec::new(alloc),
            degrees: Vec::new(alloc),
            indexes: Vec::new(alloc),
            links: Vec::new(alloc),
            nodes: Vec::new(alloc),
            compared: 0,
        }
    }

    /// The nodes of the last build.
    pub fn nodes(&self) -> &[N]
        ensures { result.now ≡ built_nodes self.now }
    {
        &self.nodes
    }

    /// The links of the last build.
    pub fn links(&self) -> &[OverlayLink<I, D>]
        ensures { result.now ≡ built_links self.now }
    {
        &self.links
    }

    /// How many orders of live segments the sweep of the last build that succeeded has compared: 0
    /// at first, and `u128::MAX` at most.
    pub fn compared(&self) -> u128
        ensures { result ≡ build_asked self.now }
    {
        self.compared
    }
}

impl<C: FillCount, N: GraphNode, I: OverlayInt, D: Copy> GraphBuilder<C, N, I, D> {
    /// Builds the links and the nodes of the kept segments.
    fn build(
        &mut self,
        fill_rule: FillRule,
        rule: LinkRule,
        solver: &Solver,
        segments: &[Segment<C, I, D>],
    ) -> Result<(), Fault>
        requires arranged { IsArranged segments.now }
        ensures graph { OnOk result (HoldGraph N.indexes N.is_canonical I.whole self.new.nodes.items
            self.new.links.items (graph_by (keeps_by rule) fill_rule (segments_of segments.now))) }
        ensures edge_data { OnOk result (map (λ l. l.edge_data) self.new.links.items
            ≡ data_by (keeps_by rule) fill_rule (data_segments_of segments.now)) }
        ensures in_range { OnOk result (IsFalse (tops_leave_range (segments_of segments.now))) }
        ensures out_of_range { OnTooLarge result (IsTrue (tops_leave_range (segments_of segments.now))) }
        ensures no_links { OnErr result (self.new.links.items ≡ []) }
        ensures no_nodes { OnErr result (self.new.nodes.items ≡ []) }
        ensures compared { OnOk result (IsCostOf solver.now segments.now self.new.compared) }
        ensures shown { OnOk result (self.new.compared ≡ run_asked self.new.sweep_runner) }
        ensures same_compared { OnErr result (self.new.compared ≡ self.old.compared) }
    {
        let built = self.try_build(fill_rule, rule, solver, segments);
        self.finish(&built);
        built
    }

    /// Keeps the number of orders of a build that was done. Of one that was refused no links and no nodes are left.
    fn finish(&mut self, built: &Result<(), Fault>)
        ensures links { OnOk built.now (self.new.links ≡ self.old.links) }
        ensures nodes { OnOk built.now (self.new.nodes ≡ self.old.nodes) }
        ensures shown { OnOk built.now (self.new.compared ≡ run_asked self.old.sweep_runner) }
        ensures no_links { OnErr built.now (self.new.links.items ≡ []) }
        ensures no_nodes { OnErr built.now (self.new.nodes.items ≡ []) }
        ensures same_compared { OnErr built.now (self.new.compared ≡ self.old.compared) }
        ensures same_runner { self.new.sweep_runner ≡ self.old.sweep_runner }
    {
        if built.is_err() {
            self.links.clear();
            self.nodes.clear();
        } else {
            self.compared = self.sweep_runner.compared();
        }
    }

    /// Builds as `build` does, but a refused build may leave anything.
    fn try_build(
        &mut self,
        fill_rule: FillRule,
        rule: LinkRule,
        solver: &Solver,
        segments: &[Segment<C, I, D>],
    ) -> Result<(), Fault>
        requires arranged { IsArranged segments.now }
        ensures graph { OnOk result (HoldGraph N.indexes N.is_canonical I.whole self.new.nodes.items
            self.new.links.items (graph_by (keeps_by rule) fill_rule (segments_of segments.now))) }
        ensures edge_data { OnOk result (map (λ l. l.edge_data) self.new.links.items
            ≡ data_by (keeps_by rule) fill_rule (data_segments_of segments.now)) }
        ensures in_range { OnOk result (IsFalse (tops_leave_range (segments_of segments.now))) }
        ensures out_of_range { OnTooLarge result (IsTrue (tops_leave_range (segments_of segments.now))) }
        ensures compared { OnOk result (IsCostOf solver.now segments.now (run_asked self.new.sweep_runner)) }
        ensures same_compared { self.new.compared ≡ self.old.compared }
    {
        self.try_build_lists(fill_rule, rule, solver, segments)?;
        make_nodes(self.alloc, &self.degrees, &self.indexes, &mut self.nodes)
    }

    /// Builds the links and the lists of the nodes of the kept segments. A refused build may leave anything.
    fn try_build_lists(
        &mut self,
        fill_rule: FillRule,
        rule: LinkRule,
        solver: &Solver,
        segments: &[Segment<C, I, D>],
    ) -> Result<(), Fault>
        requires arranged { IsArranged segments.now }
        ensures graph { OnOk result (HoldLists I.whole self.new.links.items self.new.degrees.items
            self.new.indexes.items (graph_by (keeps_by rule) fill_rule (segments_of segments.now))) }
        ensures edge_data { OnOk result (map (λ l. l.edge_data) self.new.links.items
            ≡ data_by (keeps_by rule) fill_rule (data_segments_of segments.now)) }
        ensures in_range { OnOk result (IsFalse (tops_leave_range (segments_of segments.now))) }
        ensures out_of_range { OnTooLarge result (IsTrue (tops_leave_range (segments_of segments.now))) }
        ensures compared { OnOk result (IsCostOf solver.now segments.now (run_asked self.new.sweep_runner)) }
        ensures same_compared { self.new.compared ≡ self.old.compared }
        ensures same_nodes { self.new.nodes ≡ self.old.nodes }
    {
        let runner = &mut self.sweep_runner;
        find_fills(runner, fill_rule, solver, segments, &mut self.fills)?;
        let fills = self.fills.as_slice();
        let links = &mut self.links;
        let (degrees, indexes) = (&mut self.degrees, &mut self.indexes);
        link_kept(self.alloc, segments, fills, rule, links, degrees, indexes)
    }

    /// Builds the links and the nodes of the kept segments, by fills that are known. Nodes and links are empty after a
    /// refusal.
    fn build_with_fills(
        &mut self,
        rule: LinkRule,
        segments: &[Segment<C, I, D>],
        fills: &[SegmentFill],
    ) -> Result<(), Fault>
        requires arranged { IsArranged segments.now }
        requires fills { AreFillsBySome segments.now fills.now }
        ensures graph { OnOk result ((fill_rule : FillRule) → fills.now ≡ fills_of fill_rule (segments_of segments.now)
            → HoldGraph N.indexes N.is_canonical I.whole self.new.nodes.items self.new.links.items
            (graph_by (keeps_by rule) fill_rule (segments_of segments.now))) }
        ensures edge_data { OnOk result (HaveKeptData rule segments.now fills.now self.new.links.items) }
        ensures no_links { OnErr result (self.new.links.items ≡ []) }
        ensures no_nodes { OnErr result (self.new.nodes.items ≡ []) }
        ensures same_compared { self.new.compared ≡ self.old.compared }
        ensures fault { IfErr result (λ fault. fault ≡ Memory) }
    {
        if let Err(fault) = self.try_build_with_fills(rule, segments, fills) {
            let (links, nodes) = (&mut self.links, &mut self.nodes);
            links.clear();
            nodes.clear();
            return Err(fault);
        }
        Ok(())
    }

    /// Builds as `build_with_fills` does, but a refused build may leave anything.
    fn try_build_with_fills(
        &mut self,
        rule: LinkRule,
        segments: &[Segment<C, I, D>],
        fills: &[SegmentFill],
    ) -> Result<(), Fault>
        requires arranged { IsArranged segments.now }
        requires fills { AreFillsBySome segments.now fills.now }
        ensures graph { OnOk result ((fill_rule : FillRule) → fills.now ≡ fills_of fill_rule (segments_of segments.now)
            → HoldGraph N.indexes N.is_canonical I.whole self.new.nodes.items self.new.links.items
            (graph_by (keeps_by rule) fill_rule (segments_of segments.now))) }
        ensures edge_data { OnOk result (HaveKeptData rule segments.now fills.now self.new.links.items) }
        ensures same_compared { self.new.compared ≡ self.old.compared }
        ensures fault { IfErr result (λ fault. fault ≡ Memory) }
    {
        let links = &mut self.links;
        let (degrees, indexes) = (&mut self.degrees, &mut self.indexes);
        link_kept(self.alloc, segments, fills, rule, links, degrees, indexes)?;
        make_nodes(self.alloc, &self.degrees, &self.indexes, &mut self.nodes)
    }
}

/// Makes the links of the kept segments, by the fills of all, and lists their nodes, as `connect_links` does.
fn link_kept<C: WindingCount, I: OverlayInt, D: Copy>(
    alloc: Global,
    segments: &[Segment<C, I, D>],
    fills: &[SegmentFill],
    rule: LinkRule,
    links: &mut Vec<OverlayLink<I, D>>,
    degrees: &mut Vec<usize>,
    indexes: &mut Vec<usize>,
) -> Result<(), Fault>
    requires arranged { IsArranged segments.now }
    requires fills { AreFillsBySome segments.now fills.now }
    ensures graph { OnOk result ((fill_rule : FillRule) → fills.now ≡ fills_of fill_rule (segments_of segments.now)
        → HoldLists I.whole links.new.items degrees.new.items indexes.new.items
        (graph_by (keeps_by rule) fill_rule (segments_of segments.now))) }
    ensures edge_data { OnOk result (HaveKeptData rule segments.now fills.now links.new.items) }
    ensures fault { IfErr result (λ fault. fault ≡ Memory) }
{
    collect_links(segments, fills, rule, links)?;
    connect_links(alloc, links, degrees, indexes)
}

impl<I: OverlayInt, D: Copy> GraphBuilder<ShapeCountBoolean, OverlayNode, I, D> {
    ghost use Rattle.overlay_build.specs.BuilderOf.{RestsIn};
    ghost use Rattle.overlay_build.specs.OverlayGraphOf.{nodes_of, links_of, graph_asked, ShowsGraphBy, HasDataBy, HasEvenNodes};

    /// The graph of the last build.
    fn graph(&self) -> OverlayGraph<'_, I, D>
        requires holds { HoldGraph indexes_of is_canonical_node I.whole (built_nodes self.now) (built_links self.now)
            (graph_with I.whole (built_links self.now)) }
        requires ordered { IsTrue (list_all (λ l. is_ordered (link_of I.whole l).pair) (built_links self.now)) }
        ensures nodes { nodes_of result ≡ built_nodes self.now }
        ensures links { links_of result ≡ built_links self.now }
        ensures compared { graph_asked result ≡ build_asked self.now }
    {
        let nodes = self.nodes.as_slice();
        OverlayGraph::new(nodes, self.links.as_slice(), self.compared)
    }

    /// The graph of all segments of an arrangement, with their fills under the rule.
    ///
    /// The segments have to be arranged, as `is_arranged` tests; their counts need not balance. The
    /// solver's strategy does not change the result.
    ///
    /// Returns `Fault::CountOutOfRange` where a winding above a segment leaves the range, and `Fault::Memory` where a
    /// growth is refused. Nodes and links are empty then, and the builder can be used again.
    pub fn build_boolean_all(
        &mut self,
        fill_rule: FillRule,
        solver: &Solver,
        segments: &[Segment<ShapeCountBoolean, I, D>],
    ) -> Result<OverlayGraph<'_, I, D>, Fault>
        requires arranged { IsArranged segments.now }
        ensures graph { IfOk result (ShowsGraphBy (λ _. true) fill_rule segments.now) }
        ensures edge_data { IfOk result (HasDataBy (λ _. true) fill_rule segments.now) }
        ensures in_range { OnOk result (IsFalse (tops_leave_range (segments_of segments.now))) }
        ensures out_of_range { OnTooLarge result (IsTrue (tops_leave_range (segments_of segments.now))) }
        ensures compared { IfOk result (λ graph. IsCostOf solver.now segments.now (graph_asked graph)) }
        ensures* after { sem 𝓛
            (RestsIn I.row D.row I.OverlayInt.own I.Ord.own I.PartialEq I.PartialOrd.own result self.entry) }
    {
        self.build(fill_rule, LinkRule::Every, solver, segments)?;
        Ok(self.graph())
    }

    /// The graph of the segments of an arrangement that the rule keeps: those of whose two sides it
    /// says different things. With balanced counts these sides are the windings in the columns
    /// beside a segment, an even number of links meets at each node, and the links, each in the
    /// direction that has what the rule holds of on its left, are the boundary of the rule's
    /// region.
    ///
    /// The segments have to be arranged, as `is_arranged` tests. The solver's strategy does not
    /// change the result.
    ///
    /// Returns `Fault::CountOutOfRange` where a winding above a segment leaves the range, and `Fault::Memory` where a
    /// growth is refused. Nodes and links are empty then, and the builder can be used again.
    pub fn build_boolean_overlay(
        &mut self,
        fill_rule: FillRule,
        overlay_rule: OverlayRule,
        solver: &Solver,
        segments: &[Segment<ShapeCountBoolean, I, D>],
    ) -> Result<OverlayGraph<'_, I, D>, Fault>
        requires arranged { IsArranged segments.now }
        ensures graph { IfOk result (ShowsGraphBy (keeps_fill (holds overlay_rule)) fill_rule segments.now) }
        ensures edge_data { IfOk result (HasDataBy (keeps_fill (holds overlay_rule)) fill_rule segments.now) }
        ensures balanced { IsBalanced (segments_of segments.now)
            → MakesBalancedOverlay overlay_rule fill_rule segments.now }
        ensures even { IfOk result (λ graph. IsBalanced (segments_of segments.now) → HasEvenNodes graph) }
        ensures in_range { OnOk result (IsFalse (tops_leave_range (segments_of segments.now))) }
        ensures out_of_range { OnTooLarge result (IsTrue (tops_leave_range (segments_of segments.now))) }
        ensures compared { IfOk result (λ graph. IsCostOf solver.now segments.now (graph_asked graph)) }
        ensures* after { sem 𝓛
            (RestsIn I.row D.row I.OverlayInt.own I.Ord.own I.PartialEq I.PartialOrd.own result self.entry) }
    {
        self.build(fill_rule, LinkRule::Overlay(overlay_rule), solver, segments)?;
        Ok(self.graph())
    }

    /// Finds the fills of all segments of an arrangement under the rule, in their order, in place of what the list had.
    /// `build_overlay_with_fills` builds graphs by several overlay rules from them. Nodes and links of the last build
    /// stay.
    ///
    /// The segments have to be arranged, as `is_arranged` tests; their counts need not balance. The
    /// solver's strategy does not change the result.
    ///
    /// Returns `Fault::CountOutOfRange` where a winding above a segment leaves the range, and `Fault::Memory` where a
    /// growth is refused. The list may hold anything then, and the builder can be used again.
    pub fn build_boolean_fills(
        &mut self,
        fill_rule: FillRule,
        solver: &Solver,
        segments: &[Segment<ShapeCountBoolean, I, D>],
        fills: &mut Vec<SegmentFill>,
    ) -> Result<(), Fault>
        requires arranged { IsArranged segments.now }
        ensures fills { OnOk result (fills.new.items ≡ fills_of fill_rule (segments_of segments.now)) }
        ensures in_range { OnOk result (IsFalse (tops_leave_range (segments_of segments.now))) }
        ensures out_of_range { OnTooLarge result (IsTrue (tops_leave_range (segments_of segments.now))) }
        ensures compared { OnOk result (IsCostOf solver.now segments.now (build_asked self.new)) }
        ensures same_compared { OnErr result (build_asked self.new ≡ build_asked self.old) }
        ensures links { built_links self.new ≡ built_links self.old }
        ensures nodes { built_nodes self.new ≡ built_nodes self.old }
    {
        let runner = &mut self.sweep_runner;
        find_fills(runner, fill_rule, solver, segments, fills)?;
        self.compared = self.sweep_runner.compared();
        Ok(())
    }

    /// The graph that `build_boolean_overlay` returns, by fills that `build_boolean_fills` found for the same segments.
    /// No sweep is made: `compared` stays that of the last one.
    ///
    /// The segments have to be arranged, as `is_arranged` tests, and the fills those of all of them under some fill rule.
    ///
    /// Returns `Fault::Memory` where a growth is refused. Nodes and links are empty then, and the builder can be used
    /// again.
    pub fn build_overlay_with_fills(
        &mut self,
        overlay_rule: OverlayRule,
        segments: &[Segment<ShapeCountBoolean, I, D>],
        fills: &[SegmentFill],
    ) -> Result<OverlayGraph<'_, I, D>, Fault>
        requires arranged { IsArranged segments.now }
        requires fills { AreFillsBySome segments.now fills.now }
        ensures graph { IfOk result (λ graph. (fill_rule : FillRule)
            → fills.now ≡ fills_of fill_rule (segments_of segments.now)
            → ShowsGraphBy (keeps_fill (holds overlay_rule)) fill_rule segments.now graph) }
        ensures edge_data { IfOk result (λ graph. (fill_rule : FillRule)
            → fills.now ≡ fills_of fill_rule (segments_of segments.now)
            → HasDataBy (keeps_fill (holds overlay_rule)) fill_rule segments.now graph) }
        ensures compared { IfOk result (λ graph. graph_asked graph ≡ build_asked self.old) }
        ensures fault { IfErr result (λ fault. fault ≡ Memory) }
        ensures* after { sem 𝓛
            (RestsIn I.row D.row I.OverlayInt.own I.Ord.own I.PartialEq I.PartialOrd.own result self.entry) }
    {
        self.build_with_fills(LinkRule::Overlay(overlay_rule), segments, fills)?;
        Ok(self.graph())
    }
}

impl<I: OverlayInt> GraphBuilder<ShapeCountString, Vec<usize>, I, ()> {
    ghost use Rattle.overlay_build.specs.StringGraphOf.{HoldsLines, LendsBuiltLinks, builder_name, lines_asked, ShowsGraphBy};

    /// The links of the last build, to be written to.
    pub(crate) fn links_mut(&mut self) -> &mut [OverlayLink<I, ()>]
        ensures links { result.now ≡ built_links self.old }
        ensures* writes_back { sem 𝓛
            (LendsBuiltLinks I.row I.OverlayInt.own I.Ord.own I.PartialEq I.PartialOrd.own self.entry result) }
    {
        self.links.as_mut_slice()
    }

    /// The graph of all segments of an arrangement of polygons and lines, with their fills under the rule: how the
    /// polygons wind on their two sides, and which ways lines run along them.
    ///
    /// The segments have to be arranged, as `is_arranged` tests; their counts need not balance. The
    /// solver's strategy does not change the result.
    ///
    /// Returns `Fault::CountOutOfRange` where a winding above a segment leaves the range, and `Fault::Memory` where a
    /// growth is refused. Nodes and links are empty then, and the builder can be used again.
    pub fn build_string_all(
        &mut self,
        fill_rule: FillRule,
        solver: &Solver,
        segments: &[Segment<ShapeCountString, I, ()>],
    ) -> Result<StringGraph<'_, I>, Fault>
        requires arranged { IsArranged segments.now }
        ensures graph { IfOk result (ShowsGraphBy (λ _. true) fill_rule segments.now) }
        ensures in_range { OnOk result (IsFalse (tops_leave_range (segments_of segments.now))) }
        ensures out_of_range { OnTooLarge result (IsTrue (tops_leave_range (segments_of segments.now))) }
        ensures same_builder { IfOk result (λ graph. builder_name graph ≡ self.entry.ghost_name) }
        ensures compared { IfOk result (λ graph. IsCostOf solver.now segments.now (lines_asked graph)) }
        ensures* after { sem 𝓛 (HoldsLines I.row I.OverlayInt.own I.Ord.own I.PartialEq I.PartialOrd.own result
            self.entry) }
    {
        let every = LinkRule::Every;
        self.build(fill_rule, every, solver, segments)?;
        Ok(StringGraph::new(self))
    }

    /// The graph of the segments of an arrangement of polygons and lines that the clip rule keeps: parts of lines, by
    /// whether the polygons are on their two sides. With balanced counts, as of closed contours and whatever lines,
    /// these sides are the windings in the columns beside a segment.
    ///
    /// The segments have to be arranged, as `is_arranged` tests. The solver's strategy does not
    /// change the result.
    ///
    /// Returns `Fault::CountOutOfRange` where a winding above a segment leaves the range, and `Fault::Memory` where a
    /// growth is refused. Nodes and links are empty then, and the builder can be used again.
    pub fn build_string_clip(
        &mut self,
        fill_rule: FillRule,
        clip_rule: ClipRule,
        solver: &Solver,
        segments: &[Segment<ShapeCountString, I, ()>],
    ) -> Result<StringGraph<'_, I>, Fault>
        requires arranged { IsArranged segments.now }
        ensures graph { IfOk result (ShowsGraphBy (keeps_clip clip_rule) fill_rule segments.now) }
        ensures balanced { IsBalanced (segments_of segments.now) → MakesBalancedClip clip_rule fill_rule segments.now }
        ensures in_range { OnOk result (IsFalse (tops_leave_range (segments_of segments.now))) }
        ensures out_of_range { OnTooLarge result (IsTrue (tops_leave_range (segments_of segments.now))) }
        ensures same_builder { IfOk result (λ graph. builder_name graph ≡ self.entry.ghost_name) }
        ensures compared { IfOk result (λ graph. IsCostOf solver.now segments.now (lines_asked graph)) }
        ensures* after { sem 𝓛 (HoldsLines I.row I.OverlayInt.own I.Ord.own I.PartialEq I.PartialOrd.own result
            self.entry) }
    {
        self.build(fill_rule, LinkRule::Clip(clip_rule), solver, segments)?;
        Ok(StringGraph::new(self))
    }
}
