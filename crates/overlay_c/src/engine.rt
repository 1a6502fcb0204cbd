// The engine behind a handle: what splits and builds, and what overlays contours.
ghost use Rattle.std.specs.Prelude.{◌≡◌, ◌↔◌, ◌<◌, ◌∷◌, ◌++◌, [], true, false, None, IsTrue, IsFalse, IfSome, OnOk, OnErr, IfOk, IfErr, map, length};
ghost use Rattle.overlay_c.specs.Calls.{KeepsRulesBy, SameResult, HasArrangement, HasNoArrangement, MaySplit, MayNotSplit, MaySplitLines, MayNotSplitLines};
ghost use Rattle.overlay_c.specs.Status.{OnUnusable, OnTooLarge};

use crate::contours::{
    PointRecord, are_in_range, keep_contours, keep_shapes, load_points, location_code, point,
};
use crate::cores::Core;
use crate::lines;
use crate::records::{
    LineRecord, LinkRecord, ReportRecord, SegmentRecord, SettingsRecord, SizesRecord, fill_rule,
    overlay_rules, rounding, solver, words, write_links, write_records,
};
use crate::refusal::Refusal;
use crate::regions::{holds_between, keep_region, matrix_between};
use crate::relations::{MatrixRecord, Relation, holds, matrix};
use crate::tags::{Tag, TaggedRecord};
use crate::width::is_narrow;
use overlay_base::overlay_core::clip_rule::ClipRule;
use overlay_base::overlay_core::fill_rule::FillRule;
use overlay_base::overlay_core::overlay_rule::OverlayRule;
use overlay_base::segm::shape_type::ShapeType;
use overlay_contours::arrangement::Arrangement;
use overlay_contours::fault::ContourFault;
use overlay_contours::overlay::Overlay;
use overlay_geometry::geom::point::IntPoint;
use overlay_geometry::num::OverlayInt;
use overlay_relations::fault::RelationFault;
use overlay_relations::region::Region;
use overlay_tiles::clip::contour_in_tile;
use overlay_tiles::tile::Tile;
use std::alloc::Global;

/// What is kept from one call to the next.
#[derive(Drop)]
pub struct Engine {
    /// What splits and builds, for coordinates of 32 bits.
    pub wide: Core<i32>,
    /// The same for coordinates of 16 bits.
    pub narrow: Core<i16>,
    /// Whether the last call that was given segments took the engine of 16 bits.
    pub is_narrow: bool,
    /// The contours that are given, and the buffers of their overlays.
    pub polygons: Overlay<i32>,
    /// The points of a contour that is being added.
    pub points: Vec<IntPoint<i32>>,
    /// The last arrangement of the contours that were given.
    pub arrangement: Option<Arrangement<i32>>,
    /// Regions that are prepared for relations.
    pub regions: Vec<Region<i32>>,
    /// How many points each contour of the last overlay of contours has.
    pub contour_lengths: Vec<usize>,
    /// The points of the first such contour, then those of the next, and so on.
    pub contour_points: Vec<PointRecord>,
    /// How many of these contours each shape has, where that overlay was in shapes; else there are none.
    pub shape_lengths: Vec<usize>,
}

impl Engine {
    ghost use Rattle.i_overlay.specs.SplitterOf.{snap_limit_in};
    ghost use Rattle.overlay_base.specs.Join.{join, join_leaves_range, has_equal_pairs};
    ghost use Rattle.overlay_c.specs.Kept.{given_by, IsBuildRefusal, IsSplitRefusal, are_usable, are_lines_usable};
    ghost use Rattle.overlay_c.specs.Records.{line_asked_by, told_by, line_told_by, link_by, names_narrow, number_by};
    ghost use Rattle.overlay_c.specs.Tags.{untagged, tagged_by};
    ghost use Rattle.overlay_c.specs.Widths.{least_of, greatest_of, LastKeepsSplit, IsLastArranged, LastBuildsAll, SameSegments, LastKeepsOverlay, LastKeepsData, LastKeepsClip, LastKeepsNumbers, LastStandsAfter, LastLinesStandAfter, LastIsCountRefused, LastIsCountOfLinesRefused, LastIsCountOfNumberedRefused, LastLeavesRange, SameLimits, SameOther, SameArrangements, SameLines, SameData, SameChange, LastHasNoWalks, LastHasNoGraph, LastTellsSizes, segment_count, line_count, link_count, segments_in, lines_in, has_changed_in, links_in, link_data_in, line_counts_in, line_numbers_in, degrees_in, indexes_in, walk_lengths_in, walk_links_in};
    ghost use Rattle.overlay_base.specs.declared.segm.fault.Fault.TheVariants.{Memory};
    ghost use Rattle.overlay_base.specs.declared.segm.shape_type.ShapeType.TheVariants.{Subject, Clip};
    ghost use Rattle.overlay_c.specs.declared.refusal.Refusal.TheVariants.{Refused};
    ghost use Rattle.overlay_contours.specs.Kept.{passes_of, reach_of};
    ghost use Rattle.overlay_contours.specs.Refusals.{other_shape};
    ghost use Rattle.overlay_c.specs.Contours.{point_by, are_in_range, location_code, contours_in, IsPointRefusal, IsPolygonRefusal};
    ghost use Rattle.overlay_c.specs.Contours.{KeepsPolygons, KeepsShapes, SameSplit, SameReport};
    ghost use Rattle.overlay_c.specs.Records.{fill_rule_of};
    ghost use Rattle.overlay_c.specs.Tiles.{KeepsGiven};
    ghost use Rattle.overlay_tiles.specs.TileOf.{tile_of};
    ghost use Rattle.overlay_tiles.specs.Tiles.{in_tile};
    ghost use Rattle.overlay_c.specs.Matrices.{IsMatrixBy};
    ghost use Rattle.overlay_c.specs.Relations.{Holds, IsRelationRefusal};
    ghost use Rattle.overlay_c.specs.Regions.{SameRegions, AddsRegion, IsShapeRefusal, HoldsOfRegionsAt, IsMatrixOfRegionsAt, IsRegionsRefusal};
    ghost use Rattle.overlay_c.specs.Arranged.{KeepsArrangement, KeepsArrangedContours, KeepsArrangedShapes, IsArrangedRefusal, SameArrangement, IsReportOf, IsReportOfNothing};

    /// An engine, which takes no memory yet.
    pub fn new(alloc: Global, snap_limit: u32) -> Engine
        ensures limit { snap_limit_in result.wide.splitter ≡ snap_limit }
        ensures narrow_limit { snap_limit_in result.narrow.splitter ≡ snap_limit }
        ensures subject { contours_in result Subject ≡ [] }
        ensures clip { contours_in result Clip ≡ [] }
        ensures passes { passes_of result.polygons ≡ 0 }
        ensures reach { reach_of result.polygons ≡ 0 }
        ensures arrangement { result.arrangement ≡ None }
        ensures regions { result.regions.items ≡ [] }
    {
        Engine {
            wide: Core::new(alloc, snap_limit),
            narrow: Core::new(alloc, snap_limit),
            is_narrow: false,
            polygons: Overlay::new(alloc),
            points: Vec::new(alloc),
            arrangement: None,
            regions: Vec::new(alloc),
            contour_lengths: Vec::new(alloc),
            contour_points: Vec::new(alloc),
            shape_lengths: Vec::new(alloc),
        }
    }

    /// `Core::overlay` of the engine that the settings name.
    pub fn overlay(
        &mut self,
        alloc: Global,
        given: &[SegmentRecord],
        settings: &SettingsRecord,
        rule: OverlayRule,
        walks: bool,
    ) -> Result<(), Refusal>
        ensures chosen { self.new.is_narrow ≡ names_narrow settings.now.engine }
        ensures kept { OnOk result (LastKeepsOverlay settings.now rule walks (given_by given.now) self.new) }
        ensures usable { OnOk result (MaySplit given.now self.new) }
        ensures unusable { OnUnusable result (MayNotSplit given.now self.new) }
        ensures refused { IfErr result IsSplitRefusal }
        ensures too_large { OnTooLarge result (LastIsCountRefused settings.now (given_by given.now) self.old self.new) }
        ensures stands { OnErr result (LastStandsAfter settings.now (given_by given.now) self.new) }
        ensures limit { SameLimits self.old self.new }
        ensures lines { SameLines self.old self.new }
        ensures link_data { SameData self.old self.new }
        ensures has_changed { SameChange self.old self.new }
        ensures other { SameOther self.old self.new }
        ensures contours { self.new.polygons ≡ self.old.polygons }
        ensures arrangement { self.new.arrangement ≡ self.old.arrangement }
        ensures result { SameResult self.old self.new }
    {
        if is_narrow(settings.engine) {
            self.is_narrow = true;
            self.narrow.overlay(alloc, given, settings, rule, walks)
        } else {
            self.is_narrow = false;
            self.wide.overlay(alloc, given, settings, rule, walks)
        }
    }

    /// `Core::overlay_with_data` of that engine.
    pub fn overlay_with_data(
        &mut self,
        given: &[TaggedRecord],
        settings: &SettingsRecord,
        rule: OverlayRule,
    ) -> Result<(), Refusal>
        ensures chosen { self.new.is_narrow ≡ names_narrow settings.now.engine }
        ensures kept { OnOk result (LastKeepsOverlay settings.now rule false (given_by (untagged given.now)) self.new) }
        ensures kept_data { OnOk result (LastKeepsData settings.now rule (tagged_by given.now) self.new) }
        ensures usable { OnOk result (MaySplit (untagged given.now) self.new) }
        ensures unusable { OnUnusable result (MayNotSplit (untagged given.now) self.new) }
        ensures refused { IfErr result IsSplitRefusal }
        ensures too_large { OnTooLarge result (LastIsCountRefused settings.now (given_by (untagged given.now)) self.old self.new) }
        ensures stands { OnErr result (LastStandsAfter settings.now (given_by (untagged given.now)) self.new) }
        ensures limit { SameLimits self.old self.new }
        ensures lines { SameLines self.old self.new }
        ensures has_changed { SameChange self.old self.new }
        ensures other { SameOther self.old self.new }
        ensures contours { self.new.polygons ≡ self.old.polygons }
        ensures arrangement { self.new.arrangement ≡ self.old.arrangement }
        ensures result { SameResult self.old self.new }
    {
        if is_narrow(settings.engine) {
            self.is_narrow = true;
            self.narrow.overlay_with_data(given, settings, rule)
        } else {
            self.is_narrow = false;
            self.wide.overlay_with_data(given, settings, rule)
        }
    }

    /// `Core::split` of that engine.
    pub fn split(
        &mut self,
        given: &[SegmentRecord],
        settings: &SettingsRecord,
    ) -> Result<(), Refusal>
        ensures chosen { self.new.is_narrow ≡ names_narrow settings.now.engine }
        ensures kept { OnOk result (LastKeepsSplit settings.now (given_by given.now) self.new) }
        ensures arranged { OnOk result (IsLastArranged self.new) }
        ensures usable { OnOk result (MaySplit given.now self.new) }
        ensures unusable { OnUnusable result (MayNotSplit given.now self.new) }
        ensures refused { IfErr result IsSplitRefusal }
        ensures too_large { OnTooLarge result (LastLeavesRange settings.now (given_by given.now) self.old self.new) }
        ensures emptied { OnErr result (segments_in self.new ≡ []) }
        ensures limit { SameLimits self.old self.new }
        ensures no_graph { LastHasNoGraph self.new }
        ensures lines { SameLines self.old self.new }
        ensures link_data { SameData self.old self.new }
        ensures other { SameOther self.old self.new }
        ensures contours { self.new.polygons ≡ self.old.polygons }
        ensures arrangement { self.new.arrangement ≡ self.old.arrangement }
        ensures result { SameResult self.old self.new }
    {
        if is_narrow(settings.engine) {
            self.is_narrow = true;
            self.narrow.split(given, settings)
        } else {
            self.is_narrow = false;
            self.wide.split(given, settings)
        }
    }

    /// `Core::build` of the engine of the last call that was given segments, whatever the settings name.
    pub fn build(
        &mut self,
        alloc: Global,
        settings: &SettingsRecord,
        links: &mut [LinkRecord],
    ) -> Result<(), Refusal>
        requires arranged { IsLastArranged self.old }
        requires length { length links.old ≡ segment_count self.old }
        ensures built { OnOk result (LastBuildsAll settings.now links.new self.new) }
        ensures refused { IfErr result (IsBuildRefusal (segments_in self.old)) }
        ensures no_links { links_in self.new ≡ [] }
        ensures segments { SameSegments self.old self.new }
        ensures limit { SameLimits self.old self.new }
        ensures no_walks { LastHasNoWalks self.new }
        ensures lines { SameLines self.old self.new }
        ensures link_data { SameData self.old self.new }
        ensures has_changed { SameChange self.old self.new }
        ensures other { SameOther self.old self.new }
        ensures contours { self.new.polygons ≡ self.old.polygons }
        ensures arrangement { self.new.arrangement ≡ self.old.arrangement }
        ensures result { SameResult self.old self.new }
    {
        if self.is_narrow {
            self.narrow.build(alloc, settings, links)
        } else {
            self.wide.build(alloc, settings, links)
        }
    }

    /// `Core::join` of the engine that a code names.
    pub fn join(&mut self, given: &[SegmentRecord], engine: u8) -> Result<(), Refusal>
        ensures chosen { self.new.is_narrow ≡ names_narrow engine }
        ensures joined { OnOk result (segments_in self.new ≡ join (given_by given.now)) }
        ensures repeated { OnOk result (has_changed_in self.new ≡ has_equal_pairs (given_by given.now)) }
        ensures usable { OnOk result (MaySplit given.now self.new) }
        ensures unusable { OnUnusable result (MayNotSplit given.now self.new) }
        ensures refused { IfErr result IsSplitRefusal }
        ensures too_large { OnTooLarge result (IsTrue (join_leaves_range (given_by given.now))) }
        ensures emptied { OnErr result (segments_in self.new ≡ []) }
        ensures limit { SameLimits self.old self.new }
        ensures no_graph { LastHasNoGraph self.new }
        ensures lines { SameLines self.old self.new }
        ensures link_data { SameData self.old self.new }
        ensures other { SameOther self.old self.new }
        ensures contours { self.new.polygons ≡ self.old.polygons }
        ensures arrangement { self.new.arrangement ≡ self.old.arrangement }
        ensures result { SameResult self.old self.new }
    {
        if is_narrow(engine) {
            self.is_narrow = true;
            self.narrow.join(given)
        } else {
            self.is_narrow = false;
            self.wide.join(given)
        }
    }

    /// `Core::clip` of the engine that the settings name.
    pub fn clip(
        &mut self,
        given: &[LineRecord],
        settings: &SettingsRecord,
        rule: ClipRule,
    ) -> Result<(), Refusal>
        ensures chosen { self.new.is_narrow ≡ names_narrow settings.now.engine }
        ensures kept { OnOk result (LastKeepsClip settings.now rule (map line_asked_by given.now) self.new) }
        ensures usable { OnOk result (MaySplitLines given.now self.new) }
        ensures unusable { OnUnusable result (MayNotSplitLines given.now self.new) }
        ensures refused { IfErr result IsSplitRefusal }
        ensures too_large { OnTooLarge result (LastIsCountOfLinesRefused settings.now (map line_asked_by given.now) self.old self.new) }
        ensures stands { OnErr result (LastLinesStandAfter settings.now (map line_asked_by given.now) self.new) }
        ensures limit { SameLimits self.old self.new }
        ensures no_walks { LastHasNoWalks self.new }
        ensures segments { SameArrangements self.old self.new }
        ensures link_data { SameData self.old self.new }
        ensures has_changed { SameChange self.old self.new }
        ensures other { SameOther self.old self.new }
        ensures contours { self.new.polygons ≡ self.old.polygons }
        ensures arrangement { self.new.arrangement ≡ self.old.arrangement }
        ensures result { SameResult self.old self.new }
    {
        if is_narrow(settings.engine) {
            self.is_narrow = true;
            self.narrow.clip(given, settings, rule)
        } else {
            self.is_narrow = false;
            self.wide.clip(given, settings, rule)
        }
    }

    /// `Core::clip_with_numbers` of the engine that the settings name.
    pub fn clip_with_numbers(
        &mut self,
        given: &[LineRecord],
        settings: &SettingsRecord,
        rule: ClipRule,
    ) -> Result<(), Refusal>
        ensures chosen { self.new.is_narrow ≡ names_narrow settings.now.engine }
        ensures kept { OnOk result (LastKeepsClip settings.now rule (map line_asked_by given.now) self.new) }
        ensures kept_numbers { OnOk result (LastKeepsNumbers settings.now (map line_asked_by given.now) self.new) }
        ensures usable { OnOk result (MaySplitLines given.now self.new) }
        ensures unusable { OnUnusable result (MayNotSplitLines given.now self.new) }
        ensures refused { IfErr result IsSplitRefusal }
        ensures too_large { OnTooLarge result (LastIsCountOfNumberedRefused settings.now (map line_asked_by given.now) self.new) }
        ensures stands { OnErr result (LastLinesStandAfter settings.now (map line_asked_by given.now) self.new) }
        ensures limit { SameLimits self.old self.new }
        ensures no_walks { LastHasNoWalks self.new }
        ensures segments { SameArrangements self.old self.new }
        ensures link_data { SameData self.old self.new }
        ensures has_changed { SameChange self.old self.new }
        ensures other { SameOther self.old self.new }
        ensures contours { self.new.polygons ≡ self.old.polygons }
        ensures arrangement { self.new.arrangement ≡ self.old.arrangement }
        ensures result { SameResult self.old self.new }
    {
        if is_narrow(settings.engine) {
            self.is_narrow = true;
            self.narrow.clip_with_numbers(given, settings, rule)
        } else {
            self.is_narrow = false;
            self.wide.clip_with_numbers(given, settings, rule)
        }
    }

    /// How much it keeps.
    pub fn sizes(&self) -> SizesRecord
        ensures core { LastTellsSizes self.now result }
        ensures contours { result.contours ≡ length self.now.contour_lengths.items }
        ensures contour_points { result.contour_points ≡ length self.now.contour_points.items }
        ensures shapes { result.shapes ≡ length self.now.shape_lengths.items }
    {
        let mut sizes = self.core_sizes();
        sizes.contours = self.contour_lengths.len();
        sizes.contour_points = self.contour_points.len();
        sizes.shapes = self.shape_lengths.len();
        sizes
    }

    /// How much the core of the last call keeps.
    fn core_sizes(&self) -> SizesRecord
        ensures { LastTellsSizes self.now result }
    {
        if self.is_narrow {
            self.narrow.sizes()
        } else {
            self.wide.sizes()
        }
    }

    /// The data of the links that the core of the last call keeps.
    pub fn link_data(&self) -> &[Tag]
        ensures { result.now ≡ link_data_in self.now }
    {
        if self.is_narrow {
            &self.narrow.link_data
        } else {
            &self.wide.link_data
        }
    }

    /// How many given lines run along each segment of the polygons and lines that the core of the last call keeps.
    pub fn line_counts(&self) -> &[usize]
        ensures { result.now ≡ line_counts_in self.now }
    {
        if self.is_narrow {
            self.narrow.line_numbers.counts()
        } else {
            self.wide.line_numbers.counts()
        }
    }

    /// The indexes of these lines, segment by segment.
    pub fn line_numbers(&self) -> &[usize]
        ensures { result.now ≡ line_numbers_in self.now }
    {
        if self.is_narrow {
            self.narrow.line_numbers.numbers()
        } else {
            self.wide.line_numbers.numbers()
        }
    }

    /// How many links meet at each of its nodes.
    pub fn degrees(&self) -> &[usize]
        ensures { result.now ≡ degrees_in self.now }
    {
        if self.is_narrow {
            &self.narrow.degrees
        } else {
            &self.wide.degrees
        }
    }

    /// The indexes of these links, node by node.
    pub fn indexes(&self) -> &[usize]
        ensures { result.now ≡ indexes_in self.now }
    {
        if self.is_narrow {
            &self.narrow.indexes
        } else {
            &self.wide.indexes
        }
    }

    /// How many links each of its walks has.
    pub fn walk_lengths(&self) -> &[usize]
        ensures { result.now ≡ walk_lengths_in self.now }
    {
        if self.is_narrow {
            &self.narrow.walk_lengths
        } else {
            &self.wide.walk_lengths
        }
    }

    /// The indexes of these links, walk by walk.
    pub fn walk_links(&self) -> &[usize]
        ensures { result.now ≡ walk_links_in self.now }
    {
        if self.is_narrow {
            &self.narrow.walk_links
        } else {
            &self.wide.walk_links
        }
    }

    /// Writes the records of the arrangement that it keeps.
    pub fn write_segments(&self, out: &mut [SegmentRecord])
        requires { length out.old ≡ segment_count self.now }
        ensures { map told_by out.new ≡ segments_in self.now }
    {
        if self.is_narrow {
            write_records(&self.narrow.segments, out);
        } else {
            write_records(&self.wide.segments, out);
        }
    }

    /// Writes the records of its links.
    pub fn write_links(&self, out: &mut [LinkRecord])
        requires { length out.old ≡ link_count self.now }
        ensures { map link_by out.new ≡ links_in self.now }
    {
        if self.is_narrow {
            write_links(&self.narrow.links, out);
        } else {
            write_links(&self.wide.links, out);
        }
    }

    /// Writes the records of the arrangement of polygons and lines.
    pub fn write_lines(&self, out: &mut [LineRecord])
        requires { length out.old ≡ line_count self.now }
        ensures { map line_told_by out.new ≡ lines_in self.now }
    {
        if self.is_narrow {
            lines::write_records(&self.narrow.lines, out);
        } else {
            lines::write_records(&self.wide.lines, out);
        }
    }

    /// Copies a contour behind the others of its shape, if its points are in range. Else, and where a growth is
    /// refused, nothing is added.
    pub fn add_contour(
        &mut self,
        contour: &[PointRecord],
        shape_type: ShapeType,
    ) -> Result<(), Refusal>
        ensures added { OnOk result (contours_in self.new shape_type
            ≡ contours_in self.old shape_type ++ map point_by contour.now ∷ []) }
        ensures unchanged { OnErr result (contours_in self.new shape_type ≡ contours_in self.old shape_type) }
        ensures other { contours_in self.new (other_shape shape_type)
            ≡ contours_in self.old (other_shape shape_type) }
        ensures in_range { OnOk result (IsTrue (are_in_range contour.now)) }
        ensures refused { IfErr result (λ refusal. IsPointRefusal contour.now refusal) }
        ensures rest { SameSplit self.old self.new }
        ensures report { SameReport self.old self.new }
        ensures arrangement { self.new.arrangement ≡ self.old.arrangement }
        ensures result { SameResult self.old self.new }
        ensures regions { SameRegions self.old self.new }
    {
        load_points(contour, &mut self.points)?;
        self.polygons.add_contour(&self.points, shape_type)?;
        Ok(())
    }

    /// Copies what a tile has of a contour behind the others of its shape, if all points of the contour are in range. Else,
    /// and where a growth is refused, nothing is added.
    pub fn add_contour_in_tile(
        &mut self,
        alloc: Global,
        contour: &[PointRecord],
        shape_type: ShapeType,
        tile: &Tile<i32>,
    ) -> Result<(), Refusal>
        ensures added { OnOk result (contours_in self.new shape_type ≡ contours_in self.old shape_type
            ++ in_tile (tile_of (λ z. z) tile.now) (map point_by contour.now ∷ [])) }
        ensures unchanged { OnErr result (contours_in self.new shape_type ≡ contours_in self.old shape_type) }
        ensures other { contours_in self.new (other_shape shape_type)
            ≡ contours_in self.old (other_shape shape_type) }
        ensures in_range { OnOk result (IsTrue (are_in_range contour.now)) }
        ensures refused { IfErr result (λ refusal. IsPointRefusal contour.now refusal) }
        ensures rest { SameSplit self.old self.new }
        ensures report { SameReport self.old self.new }
        ensures arrangement { self.new.arrangement ≡ self.old.arrangement }
        ensures result { SameResult self.old self.new }
    {
        load_points(contour, &mut self.points)?;
        if !are_in_range(&self.points) {
            return Err(Refusal::OutOfRange);
        }
        let Some(points) = contour_in_tile(alloc, tile, &self.points)? else {
            return Ok(());
        };
        self.polygons.add_contour(&points, shape_type)?;
        Ok(())
    }

    /// Keeps the contours of a shape that were added as those of a result.
    pub fn given(&mut self, shape_type: ShapeType) -> Result<(), Refusal>
        ensures kept { OnOk result (KeepsGiven shape_type self.new) }
        ensures refused { IfErr result (λ refusal. refusal ≡ Refused Memory) }
        ensures contours { self.new.polygons ≡ self.old.polygons }
        ensures rest { SameSplit self.old self.new }
        ensures arrangement { self.new.arrangement ≡ self.old.arrangement }
    {
        self.shape_lengths.clear();
        keep_contours(
            self.polygons.contours(shape_type),
            &mut self.contour_lengths,
            &mut self.contour_points,
        )?;
        Ok(())
    }

    /// The overlay of the contours that were added, as contours, which are kept. Those that were added stay.
    pub fn polygons(&mut self, settings: &SettingsRecord, rule: OverlayRule) -> Result<(), Refusal>
        ensures kept { OnOk result (KeepsPolygons settings.now rule self.old self.new) }
        ensures refused { IfErr result (λ refusal. IsPolygonRefusal settings.now self.old refusal) }
        ensures subject { contours_in self.new Subject ≡ contours_in self.old Subject }
        ensures clip { contours_in self.new Clip ≡ contours_in self.old Clip }
        ensures rest { SameSplit self.old self.new }
        ensures arrangement { self.new.arrangement ≡ self.old.arrangement }
    {
        let solver = solver(settings);
        let fill_rule = fill_rule(settings.fill_rule);
        self.polygons.set_rounding(rounding(settings.rounding));
        let contours = self.polygons.overlay(&solver, fill_rule, rule)?;
        self.shape_lengths.clear();
        keep_contours(
            &contours,
            &mut self.contour_lengths,
            &mut self.contour_points,
        )?;
        Ok(())
    }

    /// The overlay of the contours that were added, in shapes, which are kept. Those that were added stay.
    pub fn shapes(&mut self, settings: &SettingsRecord, rule: OverlayRule) -> Result<(), Refusal>
        ensures kept { OnOk result (KeepsShapes settings.now rule self.old self.new) }
        ensures refused { IfErr result (λ refusal. IsPolygonRefusal settings.now self.old refusal) }
        ensures subject { contours_in self.new Subject ≡ contours_in self.old Subject }
        ensures clip { contours_in self.new Clip ≡ contours_in self.old Clip }
        ensures rest { SameSplit self.old self.new }
        ensures arrangement { self.new.arrangement ≡ self.old.arrangement }
    {
        let solver = solver(settings);
        let fill_rule = fill_rule(settings.fill_rule);
        self.polygons.set_rounding(rounding(settings.rounding));
        let shapes = self.polygons.overlay_shapes(&solver, fill_rule, rule)?;
        keep_shapes(
            &shapes,
            &mut self.shape_lengths,
            &mut self.contour_lengths,
            &mut self.contour_points,
        )?;
        Ok(())
    }

    /// The overlays of the contours that were added by several rules, as contours, which are kept rule by rule. The
    /// contours that were added stay, and are split once.
    pub fn polygons_by_rules(
        &mut self,
        alloc: Global,
        settings: &SettingsRecord,
        codes: &[u8],
    ) -> Result<(), Refusal>
        ensures kept { OnOk result (KeepsRulesBy settings.now codes.now self.old self.new) }
        ensures refused { IfErr result (λ refusal. IsPolygonRefusal settings.now self.old refusal) }
        ensures subject { contours_in self.new Subject ≡ contours_in self.old Subject }
        ensures clip { contours_in self.new Clip ≡ contours_in self.old Clip }
        ensures rest { SameSplit self.old self.new }
        ensures arrangement { self.new.arrangement ≡ self.old.arrangement }
    {
        let rules = overlay_rules(alloc, codes)?;
        let solver = solver(settings);
        let fill_rule = fill_rule(settings.fill_rule);
        self.polygons.set_rounding(rounding(settings.rounding));
        let overlays = self.polygons.overlay_by_rules(&solver, fill_rule, &rules)?;
        keep_shapes(
            &overlays,
            &mut self.shape_lengths,
            &mut self.contour_lengths,
            &mut self.contour_points,
        )?;
        Ok(())
    }

    /// Keeps the arrangement of the contours that were added. Those stay, and after a refusal what was kept before.
    pub fn arrange(&mut self, settings: &SettingsRecord) -> Result<(), Refusal>
        ensures kept { OnOk result (KeepsArrangement settings.now self.old self.new) }
        ensures unchanged { OnErr result (self.new.arrangement ≡ self.old.arrangement) }
        ensures refused { IfErr result (λ refusal. IsPolygonRefusal settings.now self.old refusal) }
        ensures subject { contours_in self.new Subject ≡ contours_in self.old Subject }
        ensures clip { contours_in self.new Clip ≡ contours_in self.old Clip }
        ensures rest { SameSplit self.old self.new }
        ensures result { SameResult self.old self.new }
        ensures report { SameReport self.old self.new }
    {
        let solver = solver(settings);
        let fill_rule = fill_rule(settings.fill_rule);
        self.polygons.set_rounding(rounding(settings.rounding));
        let arrangement = self.polygons.arrange(&solver, fill_rule)?;
        self.arrangement = Some(arrangement);
        Ok(())
    }

    /// The overlay by a rule of the contours that are arranged, as contours, which are kept; without collinear points, if
    /// only corners are wanted.
    pub fn arranged_contours(&mut self, rule: OverlayRule, corners: bool) -> Result<(), Refusal>
        ensures kept { OnOk result (KeepsArrangedContours rule corners self.old self.new) }
        ensures arranged { OnOk result (HasArrangement self.old) }
        ensures refused { IfErr result (IsArrangedRefusal self.old) }
        ensures arrangement { SameArrangement self.old self.new }
        ensures contours { self.new.polygons ≡ self.old.polygons }
        ensures rest { SameSplit self.old self.new }
    {
        let Some(arrangement) = &mut self.arrangement else {
            return Err(Refusal::NotSplittable);
        };
        let contours = if corners {
            arrangement.contours_without_collinear(rule)?
        } else {
            arrangement.contours(rule)?
        };
        self.shape_lengths.clear();
        keep_contours(
            &contours,
            &mut self.contour_lengths,
            &mut self.contour_points,
        )?;
        Ok(())
    }

    /// The overlay by a rule of the contours that are arranged, in shapes, which are kept; without collinear points, if
    /// only corners are wanted.
    pub fn arranged_shapes(&mut self, rule: OverlayRule, corners: bool) -> Result<(), Refusal>
        ensures kept { OnOk result (KeepsArrangedShapes rule corners self.old self.new) }
        ensures arranged { OnOk result (HasArrangement self.old) }
        ensures refused { IfErr result (IsArrangedRefusal self.old) }
        ensures arrangement { SameArrangement self.old self.new }
        ensures contours { self.new.polygons ≡ self.old.polygons }
        ensures rest { SameSplit self.old self.new }
    {
        let Some(arrangement) = &mut self.arrangement else {
            return Err(Refusal::NotSplittable);
        };
        let shapes = if corners {
            arrangement.shapes_without_collinear(rule)?
        } else {
            arrangement.shapes(rule)?
        };
        keep_shapes(
            &shapes,
            &mut self.shape_lengths,
            &mut self.contour_lengths,
            &mut self.contour_points,
        )?;
        Ok(())
    }

    /// The code of where a point lies with respect to the contours of a shape that were added, or 4 where it is out of
    /// range.
    pub fn locate(&self, shape_type: ShapeType, fill_rule: FillRule, at: &PointRecord) -> u8
        ensures { result ≡ location_code shape_type fill_rule at.now self.now }
    {
        let point = point(at);
        if point.x.is_in_range() && point.y.is_in_range() {
            location_code(self.polygons.locate_point(shape_type, fill_rule, point))
        } else {
            4
        }
    }

    /// Whether a relation holds between the subject and the clip that were added, under the fill rule of the settings.
    pub fn relation(
        &self,
        alloc: Global,
        settings: &SettingsRecord,
        relation: Relation,
    ) -> Result<bool, RelationFault>
        ensures holds { IfOk result (λ holds. (holds ≡ true) ↔ Holds relation (fill_rule_of settings.now.fill_rule)
            (contours_in self.now Subject) (contours_in self.now Clip)) }
        ensures refused { IfErr result (IsRelationRefusal (fill_rule_of settings.now.fill_rule) (contours_in self.now Subject)
            (contours_in self.now Clip)) }
    {
        let fill_rule = fill_rule(settings.fill_rule);
        holds(
            alloc,
            &self.polygons,
            relation,
            &solver(settings),
            fill_rule,
        )
    }

    /// Which parts of the subject and the clip that were added meet, under the fill rule of the settings.
    pub fn relate(
        &self,
        alloc: Global,
        settings: &SettingsRecord,
    ) -> Result<MatrixRecord, RelationFault>
        ensures matrix { IfOk result (IsMatrixBy (fill_rule_of settings.now.fill_rule) (contours_in self.now Subject)
            (contours_in self.now Clip)) }
        ensures refused { IfErr result (IsRelationRefusal (fill_rule_of settings.now.fill_rule) (contours_in self.now Subject)
            (contours_in self.now Clip)) }
    {
        let fill_rule = fill_rule(settings.fill_rule);
        matrix(alloc, &self.polygons, &solver(settings), fill_rule)
    }

    /// Keeps the region of the subject that was added, under the fill rule of the settings, behind those that are kept.
    pub fn add_region(
        &mut self,
        alloc: Global,
        settings: &SettingsRecord,
    ) -> Result<(), RelationFault>
        ensures added { OnOk result (AddsRegion settings.now self.old self.new) }
        ensures unchanged { OnErr result (SameRegions self.old self.new) }
        ensures refused { IfErr result (IsShapeRefusal (contours_in self.old Subject)) }
        ensures contours { self.new.polygons ≡ self.old.polygons }
        ensures rest { SameSplit self.old self.new }
        ensures arrangement { self.new.arrangement ≡ self.old.arrangement }
        ensures result { SameResult self.old self.new }
    {
        let contours = self.polygons.contours(ShapeType::Subject);
        let fill_rule = fill_rule(settings.fill_rule);
        let region = Region::new(alloc, contours, &solver(settings), fill_rule)?;
        keep_region(&mut self.regions, region)?;
        Ok(())
    }

    /// Whether a relation holds between two regions that are kept, by their numbers.
    pub fn region_relation(
        &self,
        settings: &SettingsRecord,
        first: usize,
        second: usize,
        relation: Relation,
    ) -> Result<bool, ContourFault>
        requires first { first < length self.now.regions.items }
        requires second { second < length self.now.regions.items }
        ensures holds { IfOk result (λ found. HoldsOfRegionsAt relation first second found self.now) }
        ensures refused { IfErr result (IsRegionsRefusal first second self.now) }
    {
        let (one, other) = (&self.regions[first], &self.regions[second]);
        holds_between(one, other, relation, &solver(settings))
    }

    /// Which parts of two regions that are kept meet, by their numbers.
    pub fn region_matrix(
        &self,
        settings: &SettingsRecord,
        first: usize,
        second: usize,
    ) -> Result<MatrixRecord, ContourFault>
        requires first { first < length self.now.regions.items }
        requires second { second < length self.now.regions.items }
        ensures matrix { IfOk result (λ found. IsMatrixOfRegionsAt first second found self.now) }
        ensures refused { IfErr result (IsRegionsRefusal first second self.now) }
    {
        let (one, other) = (&self.regions[first], &self.regions[second]);
        matrix_between(one, other, &solver(settings))
    }

    /// What the last overlay of contours that was not refused reports of its run.
    pub fn report(&self) -> ReportRecord
        ensures passes { number_by result.passes ≡ passes_of self.now.polygons }
        ensures reach { number_by result.reach ≡ reach_of self.now.polygons }
    {
        ReportRecord {
            passes: words(self.polygons.passes()),
            reach: words(self.polygons.reach()),
        }
    }

    /// What the arrangement that is kept reports of its run, as `report` does; both are 0 where no contours are arranged.
    pub fn arranged_report(&self) -> ReportRecord
        ensures report { IfSome self.now.arrangement (IsReportOf result) }
        ensures none { HasNoArrangement self.now → IsReportOfNothing result }
    {
        match &self.arrangement {
            Some(arrangement) => ReportRecord {
                passes: words(arrangement.passes()),
                reach: words(arrangement.reach()),
            },
            None => ReportRecord {
                passes: words(0),
                reach: words(0),
            },
        }
    }

    /// Drops the contours that were added.
    pub fn clear_contours(&mut self)
        ensures subject { contours_in self.new Subject ≡ [] }
        ensures clip { contours_in self.new Clip ≡ [] }
        ensures rest { SameSplit self.old self.new }
        ensures report { SameReport self.old self.new }
        ensures arrangement { self.new.arrangement ≡ self.old.arrangement }
        ensures result { SameResult self.old self.new }
        ensures regions { SameRegions self.old self.new }
    {
        self.polygons.clear();
    }
}
