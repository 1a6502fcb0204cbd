// What splits segments and builds graphs, for coordinates of one width: a splitter, builders, and
// the records of their last results.
ghost use Rattle.std.specs.Prelude.{◌≡◌, ◌≢◌, [], true, false, IsTrue, IsFalse, OnOk, OnErr, IfOk, IfErr, map, length, flat_map};
ghost use Rattle.std.specs.List.{list_all};
ghost use Rattle.overlay_base.specs.ArrangedOf.{IsSplittable};
ghost use Rattle.overlay_base.specs.SegmentOf.{segments_of};
ghost use Rattle.overlay_base.specs.declared.segm.fault.Fault.TheVariants.{CountOutOfRange};
ghost use Rattle.overlay_build.specs.GraphOf.{link_of};
ghost use Rattle.overlay_build.specs.NodeIndexes.{indexes_of};
ghost use Rattle.overlay_c.specs.Kept.{given_by, are_usable, are_lines_usable, IsSplitRefusal};
ghost use Rattle.overlay_c.specs.Records.{asks, asked_by, line_asked_by};
ghost use Rattle.overlay_c.specs.Status.{OnUnusable, OnTooLarge};
ghost use Rattle.overlay_c.specs.declared.refusal.Refusal.TheVariants.{Refused, NotSplittable};

use crate::lines::{self, Line};
use crate::records::{
    BooleanSegment, LineRecord, LinkRecord, SegmentRecord, SettingsRecord, SizesRecord, asked,
    fill_rule, rounding, solver, write_filled,
};
use crate::refusal::Refusal;
use crate::tags::{self, Tag, TaggedRecord, TaggedSegment, keep_tags, keep_untagged};
use crate::width::Width;
use i_overlay::clip::{split_and_build_clip_by, split_and_build_clip_with_numbers};
use i_overlay::line_numbers::LineNumbers;
use i_overlay::overlay::split_and_build_overlay_by;
use i_overlay::splitter::Splitter;
use overlay_base::overlay_core::clip_rule::ClipRule;
use overlay_base::overlay_core::link::OverlayLink;
use overlay_base::overlay_core::overlay_rule::OverlayRule;
use overlay_base::segm::boolean::ShapeCountBoolean;
use overlay_base::segm::join::join_with_store;
use overlay_base::segm::segment_fill::SegmentFill;
use overlay_base::segm::string::ShapeCountString;
use overlay_build::build::builder::GraphBuilder;
use overlay_build::build::connect_links::connect_links;
use overlay_build::build::graph_node::OverlayNode;
use overlay_build::build::walks::closed_walks;
use overlay_contours::rounding::Rounding;
use std::alloc::{AllocError, Global};

/// What is kept from one call to the next.
#[derive(Drop)]
pub struct Core<I: Width> {
    pub splitter: Splitter<I>,
    pub builder: GraphBuilder<ShapeCountBoolean, OverlayNode, I, ()>,
    pub line_builder: GraphBuilder<ShapeCountString, Vec<usize>, I, ()>,
    pub tag_builder: GraphBuilder<ShapeCountBoolean, OverlayNode, I, Tag>,
    /// The arrangement.
    pub segments: Vec<BooleanSegment<I>>,
    /// The arrangement of polygons and lines.
    pub lines: Vec<Line<I>>,
    /// Which given lines run along each of its segments, where that was wanted.
    pub line_numbers: LineNumbers,
    /// The segments with data that a split is made of, and their arrangement.
    pub tagged: Vec<TaggedSegment<I>>,
    /// Whether the last split joined equal segments or split one, or the last join joined some.
    pub has_changed: bool,
    /// The fills of the arrangement, while the graph of all is built.
    pub fills: Vec<SegmentFill>,
    /// The links of the graph, but of the graph of all, whose links a caller has.
    pub links: Vec<OverlayLink<I, ()>>,
    /// The data of the links, where segments were given with data.
    pub link_data: Vec<Tag>,
    /// How many links meet at each node.
    pub degrees: Vec<usize>,
    /// The indexes of the links at the first node, then of those at the next, and so on.
    pub indexes: Vec<usize>,
    /// Whether closed walks were wanted and found.
    pub has_walks: bool,
    /// How many links each walk has.
    pub walk_lengths: Vec<usize>,
    /// The indexes of the links of the first walk, then of those of the next, and so on.
    pub walk_links: Vec<usize>,
}

impl<I: Width> Core<I> {
    ghost use Rattle.overlay_base.specs.ArrangedOf.{IsArranged};
    ghost use Rattle.overlay_base.specs.Join.{join, join_leaves_range, has_equal_pairs};
    ghost use Rattle.overlay_contours.specs.Splittings.{SumsLeaveRange};
    ghost use Rattle.i_overlay.specs.SplitterOf.{snap_limit_in};
    ghost use Rattle.overlay_c.specs.Tags.{untagged, tagged_by};
    ghost use Rattle.overlay_c.specs.Kept.{core_splitting, TellsSizes, KeepsData, KeepsSplit, BuildsAll, KeepsOverlay, KeepsClip, KeepsNumbers, HasNoWalks, HasNoGraph, IsCountRefused, IsBuildRefusal, IsCountOfLinesRefused, IsCountOfNumberedRefused, StandsAfter, LinesStandAfter};

    /// A core, which takes no memory yet.
    pub fn new(alloc: Global, snap_limit: u32) -> Core<I>
        ensures limit { snap_limit_in result.splitter ≡ snap_limit }
    {
        Core {
            splitter: Splitter::with_snap_limit(alloc, Rounding::HotPixels, snap_limit),
            builder: GraphBuilder::new(alloc),
            line_builder: GraphBuilder::new(alloc),
            tag_builder: GraphBuilder::new(alloc),
            segments: Vec::new(alloc),
            lines: Vec::new(alloc),
            line_numbers: LineNumbers::new(alloc),
            tagged: Vec::new(alloc),
            has_changed: false,
            fills: Vec::new(alloc),
            links: Vec::new(alloc),
            link_data: Vec::new(alloc),
            degrees: Vec::new(alloc),
            indexes: Vec::new(alloc),
            has_walks: false,
            walk_lengths: Vec::new(alloc),
            walk_links: Vec::new(alloc),
        }
    }

    /// Splits the segments that records describe, and keeps the arrangement, the graph of the
    /// segments that an overlay rule keeps, and closed walks through it where they are wanted and
    /// an even number of links meets at each node.
    ///
    /// After a refusal the engine can be used again: it keeps no segments, or their arrangement where the split was done. Of
    /// links, nodes and walks nothing is promised then.
    pub fn overlay(
        &mut self,
        alloc: Global,
        given: &[SegmentRecord],
        settings: &SettingsRecord,
        rule: OverlayRule,
        walks: bool,
    ) -> Result<(), Refusal>
        ensures kept { OnOk result (KeepsOverlay settings.now rule walks (given_by given.now) self.new) }
        ensures usable { OnOk result (IsTrue (are_usable (I.whole I.MIN_COORD) (I.whole I.MAX_COORD) given.now)) }
        ensures unusable { OnUnusable result (IsFalse (are_usable (I.whole I.MIN_COORD) (I.whole I.MAX_COORD) given.now)) }
        ensures refused { IfErr result IsSplitRefusal }
        ensures too_large { OnTooLarge result (IsCountRefused settings.now (given_by given.now) self.old self.new) }
        ensures stands { OnErr result (StandsAfter settings.now (given_by given.now) self.new) }
        ensures limit { snap_limit_in self.new.splitter ≡ snap_limit_in self.old.splitter }
        ensures lines { self.new.lines ≡ self.old.lines }
        ensures link_data { self.new.link_data ≡ self.old.link_data }
        ensures has_changed { self.new.has_changed ≡ self.old.has_changed }
    {
        drop_walks(
            &mut self.has_walks,
            &mut self.walk_lengths,
            &mut self.walk_links,
        );
        load_splittable(given, &mut self.segments)?;
        let solver = solver(settings);
        let fill_rule = fill_rule(settings.fill_rule);
        self.splitter.set_rounding(rounding(settings.rounding));
        let (splitter, builder) = (&mut self.splitter, &mut self.builder);
        let segments = &mut self.segments;
        let graph = split_and_build_overlay_by(
            splitter, builder, segments, &solver, fill_rule, rule,
        )?;
        keep_links(graph.links(), &mut self.links)?;
        keep_nodes(
            graph.nodes(),
            self.links.len(),
            &mut self.degrees,
            &mut self.indexes,
        )?;
        self.has_walks = walks && graph.has_even_nodes();
        if self.has_walks {
            let found = closed_walks(alloc, &graph)?;
            keep_lists(&found, &mut self.walk_lengths, &mut self.walk_links)?;
        }
        Ok(())
    }

    /// Does the same without walks, and keeps the data of each link: what the split makes of the data of the records.
    pub fn overlay_with_data(
        &mut self,
        given: &[TaggedRecord],
        settings: &SettingsRecord,
        rule: OverlayRule,
    ) -> Result<(), Refusal>
        ensures kept { OnOk result (KeepsOverlay settings.now rule false (given_by (untagged given.now)) self.new) }
        ensures kept_data { OnOk result (KeepsData settings.now rule (tagged_by given.now) self.new) }
        ensures usable { OnOk result (IsTrue (are_usable (I.whole I.MIN_COORD) (I.whole I.MAX_COORD)
            (untagged given.now))) }
        ensures unusable { OnUnusable result (IsFalse (are_usable (I.whole I.MIN_COORD) (I.whole I.MAX_COORD) (untagged given.now))) }
        ensures refused { IfErr result IsSplitRefusal }
        ensures too_large { OnTooLarge result (IsCountRefused settings.now (given_by (untagged given.now)) self.old self.new) }
        ensures stands { OnErr result (StandsAfter settings.now (given_by (untagged given.now)) self.new) }
        ensures limit { snap_limit_in self.new.splitter ≡ snap_limit_in self.old.splitter }
        ensures lines { self.new.lines ≡ self.old.lines }
        ensures has_changed { self.new.has_changed ≡ self.old.has_changed }
    {
        drop_walks(
            &mut self.has_walks,
            &mut self.walk_lengths,
            &mut self.walk_links,
        );
        self.segments.clear();
        tags::load_splittable(given, &mut self.tagged)?;
        let solver = solver(settings);
        let fill_rule = fill_rule(settings.fill_rule);
        self.splitter.set_rounding(rounding(settings.rounding));
        let (splitter, builder) = (&mut self.splitter, &mut self.tag_builder);
        let tagged = &mut self.tagged;
        let built = split_and_build_overlay_by(splitter, builder, tagged, &solver, fill_rule, rule);
        keep_untagged(&self.tagged, &mut self.segments)?;
        let graph = built?;
        keep_links(graph.links(), &mut self.links)?;
        keep_tags(graph.links(), &mut self.link_data)?;
        keep_nodes(
            graph.nodes(),
            self.links.len(),
            &mut self.degrees,
            &mut self.indexes,
        )?;
        Ok(())
    }

    /// Splits the segments that records describe, and keeps the arrangement, and no graph.
    pub fn split(
        &mut self,
        given: &[SegmentRecord],
        settings: &SettingsRecord,
    ) -> Result<(), Refusal>
        ensures kept { OnOk result (KeepsSplit settings.now (given_by given.now) self.new) }
        ensures arranged { OnOk result (IsArranged self.new.segments.items) }
        ensures usable { OnOk result (IsTrue (are_usable (I.whole I.MIN_COORD) (I.whole I.MAX_COORD) given.now)) }
        ensures unusable { OnUnusable result (IsFalse (are_usable (I.whole I.MIN_COORD) (I.whole I.MAX_COORD) given.now)) }
        ensures refused { IfErr result IsSplitRefusal }
        ensures too_large { OnTooLarge result (SumsLeaveRange (core_splitting settings.now self.old) (given_by given.now)) }
        ensures emptied { OnErr result (self.new.segments.items ≡ []) }
        ensures limit { snap_limit_in self.new.splitter ≡ snap_limit_in self.old.splitter }
        ensures no_graph { HasNoGraph self.new }
        ensures lines { self.new.lines ≡ self.old.lines }
        ensures link_data { self.new.link_data ≡ self.old.link_data }
    {
        drop_walks(
            &mut self.has_walks,
            &mut self.walk_lengths,
            &mut self.walk_links,
        );
        self.links.clear();
        self.degrees.clear();
        self.indexes.clear();
        load_splittable(given, &mut self.segments)?;
        let solver = solver(settings);
        self.splitter.set_rounding(rounding(settings.rounding));
        self.has_changed = self.splitter.split_segments(&mut self.segments, &solver)?;
        Ok(())
    }

    /// Builds the graph of all of the arrangement that it keeps. Each link is written once, into the records, one for
    /// each segment in their order. It keeps the nodes, and no links then.
    ///
    /// The arrangement stays. After a refusal nothing is promised of records and nodes.
    pub fn build(
        &mut self,
        alloc: Global,
        settings: &SettingsRecord,
        links: &mut [LinkRecord],
    ) -> Result<(), Refusal>
        requires arranged { IsArranged self.old.segments.items }
        requires length { length links.old ≡ length self.old.segments.items }
        ensures built { OnOk result (BuildsAll settings.now links.new self.new) }
        ensures refused { IfErr result (IsBuildRefusal (segments_of self.old.segments.items)) }
        ensures no_links { self.new.links.items ≡ [] }
        ensures no_walks { HasNoWalks self.new }
        ensures lines { self.new.lines ≡ self.old.lines }
        ensures link_data { self.new.link_data ≡ self.old.link_data }
        ensures segments { self.new.segments ≡ self.old.segments }
        ensures splitter { self.new.splitter ≡ self.old.splitter }
        ensures has_changed { self.new.has_changed ≡ self.old.has_changed }
    {
        drop_walks(
            &mut self.has_walks,
            &mut self.walk_lengths,
            &mut self.walk_links,
        );
        self.links.clear();
        let solver = solver(settings);
        let fill_rule = fill_rule(settings.fill_rule);
        let (segments, builder) = (self.segments.as_slice(), &mut self.builder);
        builder.build_boolean_fills(fill_rule, &solver, segments, &mut self.fills)?;
        write_filled(segments, &self.fills, links);
        connect_links(alloc, links, &mut self.degrees, &mut self.indexes)?;
        Ok(())
    }

    /// Joins the segments on each pair of ends, and keeps them, and no graph.
    pub fn join(&mut self, given: &[SegmentRecord]) -> Result<(), Refusal>
        ensures joined { OnOk result (segments_of self.new.segments.items ≡ join (given_by given.now)) }
        ensures repeated { OnOk result (self.new.has_changed ≡ has_equal_pairs (given_by given.now)) }
        ensures usable { OnOk result (IsTrue (are_usable (I.whole I.MIN_COORD) (I.whole I.MAX_COORD) given.now)) }
        ensures unusable { OnUnusable result (IsFalse (are_usable (I.whole I.MIN_COORD) (I.whole I.MAX_COORD) given.now)) }
        ensures refused { IfErr result IsSplitRefusal }
        ensures too_large { OnTooLarge result (IsTrue (join_leaves_range (given_by given.now))) }
        ensures emptied { OnErr result (self.new.segments.items ≡ []) }
        ensures splitter { self.new.splitter ≡ self.old.splitter }
        ensures no_graph { HasNoGraph self.new }
        ensures lines { self.new.lines ≡ self.old.lines }
        ensures link_data { self.new.link_data ≡ self.old.link_data }
    {
        drop_walks(
            &mut self.has_walks,
            &mut self.walk_lengths,
            &mut self.walk_links,
        );
        self.links.clear();
        self.degrees.clear();
        self.indexes.clear();
        load_splittable(given, &mut self.segments)?;
        self.has_changed = join_with_store(&mut self.segments, &mut ())?;
        Ok(())
    }

    /// Splits the polygons and lines that records describe, and keeps the arrangement and the graph
    /// of the parts of the lines that a clip rule keeps.
    pub fn clip(
        &mut self,
        given: &[LineRecord],
        settings: &SettingsRecord,
        rule: ClipRule,
    ) -> Result<(), Refusal>
        ensures kept { OnOk result (KeepsClip settings.now rule (map line_asked_by given.now) self.new) }
        ensures usable { OnOk result (IsTrue (are_lines_usable (I.whole I.MIN_COORD) (I.whole I.MAX_COORD) given.now)) }
        ensures unusable { OnUnusable result (IsFalse (are_lines_usable (I.whole I.MIN_COORD) (I.whole I.MAX_COORD) given.now)) }
        ensures refused { IfErr result IsSplitRefusal }
        ensures too_large { OnTooLarge result (IsCountOfLinesRefused settings.now (map line_asked_by given.now) self.old self.new) }
        ensures stands { OnErr result (LinesStandAfter settings.now (map line_asked_by given.now) self.new) }
        ensures limit { snap_limit_in self.new.splitter ≡ snap_limit_in self.old.splitter }
        ensures no_walks { HasNoWalks self.new }
        ensures segments { self.new.segments ≡ self.old.segments }
        ensures link_data { self.new.link_data ≡ self.old.link_data }
        ensures has_changed { self.new.has_changed ≡ self.old.has_changed }
    {
        drop_walks(
            &mut self.has_walks,
            &mut self.walk_lengths,
            &mut self.walk_links,
        );
        load_splittable_lines(given, &mut self.lines)?;
        let solver = solver(settings);
        let fill_rule = fill_rule(settings.fill_rule);
        self.splitter.set_rounding(rounding(settings.rounding));
        let (splitter, builder) = (&mut self.splitter, &mut self.line_builder);
        let graph = split_and_build_clip_by(
            splitter,
            builder,
            &mut self.lines,
            &solver,
            fill_rule,
            rule,
        )?;
        keep_links(graph.links(), &mut self.links)?;
        keep_lists(graph.nodes(), &mut self.degrees, &mut self.indexes)?;
        Ok(())
    }

    /// Does the same, and keeps the numbers of the lines that run along each segment of the arrangement: the indexes of their
    /// records.
    pub fn clip_with_numbers(
        &mut self,
        given: &[LineRecord],
        settings: &SettingsRecord,
        rule: ClipRule,
    ) -> Result<(), Refusal>
        ensures kept { OnOk result (KeepsClip settings.now rule (map line_asked_by given.now) self.new) }
        ensures kept_numbers { OnOk result (KeepsNumbers settings.now (map line_asked_by given.now) self.new) }
        ensures usable { OnOk result (IsTrue (are_lines_usable (I.whole I.MIN_COORD) (I.whole I.MAX_COORD) given.now)) }
        ensures unusable { OnUnusable result (IsFalse (are_lines_usable (I.whole I.MIN_COORD) (I.whole I.MAX_COORD) given.now)) }
        ensures refused { IfErr result IsSplitRefusal }
        ensures too_large { OnTooLarge result (IsCountOfNumberedRefused settings.now (map line_asked_by given.now) self.new) }
        ensures stands { OnErr result (LinesStandAfter settings.now (map line_asked_by given.now) self.new) }
        ensures limit { snap_limit_in self.new.splitter ≡ snap_limit_in self.old.splitter }
        ensures no_walks { HasNoWalks self.new }
        ensures segments { self.new.segments ≡ self.old.segments }
        ensures link_data { self.new.link_data ≡ self.old.link_data }
        ensures has_changed { self.new.has_changed ≡ self.old.has_changed }
    {
        drop_walks(
            &mut self.has_walks,
            &mut self.walk_lengths,
            &mut self.walk_links,
        );
        load_splittable_lines(given, &mut self.lines)?;
        let solver = solver(settings);
        let fill_rule = fill_rule(settings.fill_rule);
        self.splitter.set_rounding(rounding(settings.rounding));
        let (splitter, builder) = (&mut self.splitter, &mut self.line_builder);
        let graph = split_and_build_clip_with_numbers(
            splitter,
            builder,
            &mut self.lines,
            &mut self.line_numbers,
            &solver,
            fill_rule,
            rule,
        )?;
        keep_links(graph.links(), &mut self.links)?;
        keep_lists(graph.nodes(), &mut self.degrees, &mut self.indexes)?;
        Ok(())
    }

    /// How much it keeps. Of contours it keeps none.
    pub fn sizes(&self) -> SizesRecord
        ensures { TellsSizes self.now result }
    {
        SizesRecord {
            segments: self.segments.len(),
            lines: self.lines.len(),
            line_counts: self.line_numbers.counts().len(),
            line_numbers: self.line_numbers.numbers().len(),
            links: self.links.len(),
            link_data: self.link_data.len(),
            nodes: self.degrees.len(),
            node_links: self.indexes.len(),
            walks: self.walk_lengths.len(),
            walk_links: self.walk_links.len(),
            contours: 0,
            contour_points: 0,
            shapes: 0,
            has_walks: self.has_walks,
            has_changed: self.has_changed,
            passes: u64::try_from(self.splitter.passes()).unwrap_or(u64::MAX),
        }
    }
}

/// Loads the segments that records describe, where these may be split; else the list is empty.
fn load_splittable<I: Width>(
    given: &[SegmentRecord],
    list: &mut Vec<BooleanSegment<I>>,
) -> Result<(), Refusal>
    ensures segments { OnOk result (segments_of list.new.items ≡ given_by given.now) }
    ensures splittable { OnOk result (IsSplittable list.new.items) }
    ensures usable { OnOk result (IsTrue (are_usable (I.whole I.MIN_COORD) (I.whole I.MAX_COORD) given.now)) }
    ensures unusable { OnUnusable result (IsFalse (are_usable (I.whole I.MIN_COORD) (I.whole I.MAX_COORD) given.now)) }
    ensures no_count { IfErr result (λ refusal. refusal ≢ Refused CountOutOfRange) }
    ensures refused { IfErr result IsSplitRefusal }
    ensures emptied { OnErr result (list.new.items ≡ []) }
{
    let loaded = try_load(given, list);
    if loaded.is_err() {
        list.clear();
    }
    loaded
}

/// Loads as `load_splittable` does; a refused load may leave anything.
fn try_load<I: Width>(
    given: &[SegmentRecord],
    list: &mut Vec<BooleanSegment<I>>,
) -> Result<(), Refusal>
    ensures segments { OnOk result (segments_of list.new.items ≡ given_by given.now) }
    ensures splittable { OnOk result (IsSplittable list.new.items) }
    ensures usable { OnOk result (IsTrue (are_usable (I.whole I.MIN_COORD) (I.whole I.MAX_COORD) given.now)) }
    ensures unusable { OnUnusable result (IsFalse (are_usable (I.whole I.MIN_COORD) (I.whole I.MAX_COORD) given.now)) }
    ensures no_count { IfErr result (λ refusal. refusal ≢ Refused CountOutOfRange) }
    ensures refused { IfErr result IsSplitRefusal }
{
    if !load(given, list)? {
        return Err(Refusal::NotSplittable);
    }
    Ok(())
}

/// Loads polygons and lines in the same way.
fn load_splittable_lines<I: Width>(
    given: &[LineRecord],
    list: &mut Vec<Line<I>>,
) -> Result<(), Refusal>
    ensures segments { OnOk result (segments_of list.new.items ≡ map line_asked_by given.now) }
    ensures splittable { OnOk result (IsSplittable list.new.items) }
    ensures usable { OnOk result (IsTrue (are_lines_usable (I.whole I.MIN_COORD) (I.whole I.MAX_COORD) given.now)) }
    ensures unusable { OnUnusable result (IsFalse (are_lines_usable (I.whole I.MIN_COORD) (I.whole I.MAX_COORD) given.now)) }
    ensures no_count { IfErr result (λ refusal. refusal ≢ Refused CountOutOfRange) }
    ensures refused { IfErr result IsSplitRefusal }
    ensures emptied { OnErr result (list.new.items ≡ []) }
{
    let loaded = try_load_lines(given, list);
    if loaded.is_err() {
        list.clear();
    }
    loaded
}

/// Loads as `load_splittable_lines` does; a refused load may leave anything.
fn try_load_lines<I: Width>(given: &[LineRecord], list: &mut Vec<Line<I>>) -> Result<(), Refusal>
    ensures segments { OnOk result (segments_of list.new.items ≡ map line_asked_by given.now) }
    ensures splittable { OnOk result (IsSplittable list.new.items) }
    ensures usable { OnOk result (IsTrue (are_lines_usable (I.whole I.MIN_COORD) (I.whole I.MAX_COORD) given.now)) }
    ensures unusable { OnUnusable result (IsFalse (are_lines_usable (I.whole I.MIN_COORD) (I.whole I.MAX_COORD) given.now)) }
    ensures no_count { IfErr result (λ refusal. refusal ≢ Refused CountOutOfRange) }
    ensures refused { IfErr result IsSplitRefusal }
{
    if !lines::load(given, list)? {
        return Err(Refusal::NotSplittable);
    }
    Ok(())
}

/// Loads the segments that records describe. Returns whether each describes one.
pub fn load<I: Width>(
    records: &[SegmentRecord],
    list: &mut Vec<BooleanSegment<I>>,
) -> Result<bool, AllocError>
    ensures asks { IfOk result (λ all. all ≡ list_all (asks (I.whole I.MIN_COORD) (I.whole I.MAX_COORD)) records.now) }
    ensures segments { IfOk result (λ all. IsTrue all → segments_of list.new.items ≡ map asked_by records.now) }
{
    list.clear();
    list.reserve(records.len())?;
    for given in records {
        match asked(given, (), &mut ()) {
            Some(segment) => list.push(segment)?,
            None => return Ok(false),
        }
    }
    Ok(true)
}

/// Drops the walks of an earlier call.
fn drop_walks(has_walks: &mut bool, lengths: &mut Vec<usize>, links: &mut Vec<usize>)
    ensures has_walks { has_walks.new ≡ false }
    ensures lengths { lengths.new.items ≡ [] }
    ensures links { links.new.items ≡ [] }
{
    *has_walks = false;
    lengths.clear();
    links.clear();
}

/// Keeps links without their data.
pub fn keep_links<I: Width, D: Copy>(
    links: &[OverlayLink<I, D>],
    kept: &mut Vec<OverlayLink<I, ()>>,
) -> Result<(), AllocError>
    ensures { OnOk result (map (link_of I.whole) kept.new.items ≡ map (link_of I.whole) links.now) }
{
    kept.clear();
    kept.reserve(links.len())?;
    for each in links {
        kept.push(bare(each))?;
    }
    Ok(())
}

/// A link without its data.
fn bare<I: Width, D: Copy>(link: &OverlayLink<I, D>) -> OverlayLink<I, ()>
    ensures { link_of I.whole result ≡ link_of I.whole link.now }
{
    OverlayLink::new_with_data(link.a, link.b, link.fill, ())
}

/// Keeps the indexes of the links at each node, of a graph of so many links.
pub fn keep_nodes(
    nodes: &[OverlayNode],
    links: usize,
    degrees: &mut Vec<usize>,
    indexes: &mut Vec<usize>,
) -> Result<(), AllocError>
    ensures degrees { OnOk result (degrees.new.items ≡ map length (map indexes_of nodes.now)) }
    ensures indexes { OnOk result (indexes.new.items ≡ flat_map (λ list. list) (map indexes_of nodes.now)) }
{
    degrees.clear();
    degrees.reserve(nodes.len())?;
    indexes.clear();
    // each link ends at two nodes
    indexes.reserve(links.saturating_mul(2))?;
    for node in nodes {
        degrees.push(node.indices().len())?;
        indexes.extend_from_slice(node.indices())?;
    }
    Ok(())
}

/// Keeps lists of indexes.
pub fn keep_lists(
    lists: &[Vec<usize>],
    lengths: &mut Vec<usize>,
    indexes: &mut Vec<usize>,
) -> Result<(), AllocError>
    ensures lengths { OnOk result (lengths.new.items ≡ map length (map (λ l. l.items) lists.now)) }
    ensures indexes { OnOk result (indexes.new.items ≡ flat_map (λ list. list) (map (λ l. l.items) lists.now)) }
{
    lengths.clear();
    indexes.clear();
    for list in lists {
        lengths.push(list.len())?;
        indexes.extend_from_slice(list)?;
    }
    Ok(())
}
