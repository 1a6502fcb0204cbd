// The overlay engine for C: exports over an engine behind a handle, for coordinates of 32 bits or of 16.
#![tactic(auto)]

ghost use Rattle.std.specs.Prelude.{◌≡◌, ◌≢◌, ◌≤ℤ◌, pos, unsigned_abs, ◌↔◌, ◌<◌, ◌^◌, [], ◌∷◌, ◌++◌, true, false, None, IsSome, IsTrue, IsFalse, IfSome, length, map};
ghost use Rattle.overlay_base.specs.Join.{join, join_leaves_range, has_equal_pairs};
ghost use Rattle.i_overlay.specs.SplitterOf.{snap_limit_in};
ghost use Rattle.overlay_c.specs.Records.{start_of, end_of, line_asked_by, told_by, line_told_by, link_by, shape_of, fill_rule_of, number_by};
ghost use Rattle.overlay_c.specs.Calls.{Turns, Leaves, Chooses, MaySplit, MayNotSplit, MaySplitLines, MayNotSplitLines, KeepsOverlayBy, KeepsDataBy, KeepsClipBy, SameContours, SameResult, SameShape, AddsContour, KeepsPolygonsBy, KeepsShapesBy, KeepsRulesBy, KeepsArrangedContoursBy, KeepsArrangedShapesBy, HasArrangement, HasNoArrangement, IsAddCode, PolygonCountsLeaveRange};
ghost use Rattle.overlay_c.specs.Arranged.{KeepsArrangement, SameArrangement, StaysAsArranged, IsReportOf, IsReportOfNothing};
ghost use Rattle.overlay_c.specs.Crosses.{pair_by, cross_by, mask_by};
ghost use Rattle.overlay_geometry.specs.Coordinates.{least_coordinate, greatest_coordinate, is_pair_in_range};
ghost use Rattle.overlay_intersections.specs.CrossAnswer.{cross_answer};
ghost use Rattle.overlay_intersections.specs.Marks.{snapping};
ghost use Rattle.overlay_c.specs.Kept.{given_by};
ghost use Rattle.overlay_c.specs.Widths.{LastKeepsSplit, IsLastArranged, LastBuildsAll, LastKeepsNumbers, LastTopsLeaveRange, SameSegments, LastStandsAfter, LastLinesStandAfter, LastIsCountRefused, LastIsCountOfLinesRefused, LastIsCountOfNumberedRefused, LastLeavesRange, LastTellsSizes, SameLimits, SameOther, SameArrangements, SameLines, SameData, SameChange, LastHasNoWalks, LastHasNoGraph, segment_count, line_count, link_count, segments_in, lines_in, has_changed_in, links_in, link_data_in, line_counts_in, line_numbers_in, degrees_in, indexes_in, walk_lengths_in, walk_links_in};
ghost use Rattle.overlay_c.specs.Tags.{untagged, tagged_by};
ghost use Rattle.overlay_base.specs.declared.segm.shape_type.ShapeType.TheVariants.{Subject, Clip};
ghost use Rattle.overlay_contours.specs.Kept.{passes_of, reach_of};
ghost use Rattle.overlay_contours.specs.Refusals.{other_shape};
ghost use Rattle.overlay_c.specs.Contours.{are_in_range, location_code, contours_in, SameSplit, SameReport};
ghost use Rattle.overlay_c.specs.Matrices.{IsMatrixBy};
ghost use Rattle.overlay_c.specs.Relations.{relation_of, Holds, ShapeCountsLeaveRange, IsRelationCode, IsRegionCode};
ghost use Rattle.overlay_c.specs.Regions.{SameRegions, AddsRegion, CountsOfShapeLeaveRange, HoldsOfRegionsAt, IsMatrixOfRegionsAt, CountsOfRegionsLeaveRange};
ghost use Rattle.overlay_relations.specs.Boundaries.{has_inexact_crossing};
ghost use Rattle.overlay_c.specs.Tiles.{MakesTile, AddsInTile, IsAddInTileCode, KeepsGiven};
ghost use Rattle.overlay_relations.specs.Refusals.{IsNotExact};

pub mod contours;
pub mod cores;
pub mod cross;
pub mod engine;
pub mod handle;
pub mod lines;
pub(crate) mod raw_box;
pub mod records;
pub mod refusal;
pub mod regions;
pub mod relations;
pub mod tags;
pub mod tiles;
pub mod width;

use crate::contours::PointRecord;
use crate::cross::{CrossRecord, cross};
use crate::engine::Engine;
use crate::handle::{Handle, put, take};
use crate::records::{
    LineRecord, LinkRecord, ReportRecord, SegmentRecord, SettingsRecord, SizesRecord, fill_rule,
    overlay_rule, shape_type,
};
use crate::refusal::{Refusal, status};
use crate::relations::{MatrixRecord, fault_code, named_relation};
use crate::tags::{Tag, TaggedRecord};
use crate::tiles::{TileRecord, tile};
use overlay_base::overlay_core::clip_rule::ClipRule;
use std::alloc::Global;

/// Makes an engine, in an empty handle. Returns whether there was memory.
#[unsafe(no_mangle)]
pub extern "C" fn overlay_c_new(alloc: Global, handle: &mut Handle, snap_limit: u32) -> bool
    requires { handle.old.engine ≡ None }
    ensures made { IsTrue result ↔ IsSome handle.new.engine }
    ensures limit { IfSome handle.new.engine (λ engine. snap_limit_in engine.wide.splitter ≡ snap_limit) }
    ensures narrow_limit { IfSome handle.new.engine (λ engine. snap_limit_in engine.narrow.splitter ≡ snap_limit) }
    ensures subject { IfSome handle.new.engine (λ engine. contours_in engine Subject ≡ []) }
    ensures clip { IfSome handle.new.engine (λ engine. contours_in engine Clip ≡ []) }
    ensures passes { IfSome handle.new.engine (λ engine. passes_of engine.polygons ≡ 0) }
    ensures arrangement { IfSome handle.new.engine HasNoArrangement }
    ensures reach { IfSome handle.new.engine (λ engine. reach_of engine.polygons ≡ 0) }
    ensures regions { IfSome handle.new.engine (λ engine. engine.regions.items ≡ []) }
{
    match Box::new(alloc, Engine::new(alloc, snap_limit)) {
        Ok(engine) => {
            put(handle, engine);
            true
        }
        Err(_) => false,
    }
}

/// Frees the engine of a handle, which is empty then.
#[unsafe(no_mangle)]
pub extern "C" fn overlay_c_free(alloc: Global, handle: &mut Handle)
    requires { IsSome handle.old.engine }
    ensures { handle.new.engine ≡ None }
{
    drop(take(alloc, handle));
}

/// The overlay of the segments that records describe, by the rule of a code (`overlay_rule`) and
/// the engine that the settings name. Returns 0 where it is done, 1 where memory was refused, 2
/// where a count left the range, and 3 where the segments may not be split with that engine.
#[unsafe(no_mangle)]
pub extern "C" fn overlay_c_overlay(
    alloc: Global,
    handle: &mut Handle,
    given: &[SegmentRecord],
    settings: &SettingsRecord,
    rule: u8,
    walks: bool,
) -> u8
    requires { IsSome handle.old.engine }
    ensures full { IsSome handle.new.engine }
    ensures chosen { Leaves handle.new (Chooses settings.now.engine) }
    ensures done { result ≡ 0 → Leaves handle.new (KeepsOverlayBy settings.now rule walks (given_by given.now)) }
    ensures usable { result ≡ 0 → Leaves handle.new (MaySplit given.now) }
    ensures unusable { result ≡ 3 → Leaves handle.new (MayNotSplit given.now) }
    ensures too_large { result ≡ 2 → Turns handle.old handle.new (LastIsCountRefused settings.now (given_by given.now)) }
    ensures stands { result ≢ 0 → Leaves handle.new (LastStandsAfter settings.now (given_by given.now)) }
    ensures limit { Turns handle.old handle.new SameLimits }
    ensures codes { result < 4 }
    ensures lines { Turns handle.old handle.new SameLines }
    ensures link_data { Turns handle.old handle.new SameData }
    ensures has_changed { Turns handle.old handle.new SameChange }
    ensures other { Turns handle.old handle.new SameOther }
    ensures contours { Turns handle.old handle.new SameContours }
    ensures arrangement { Turns handle.old handle.new StaysAsArranged }
    ensures result { Turns handle.old handle.new SameResult }
{
    let mut engine = take(alloc, handle);
    let outcome = engine.overlay(alloc, given, settings, overlay_rule(rule), walks);
    put(handle, engine);
    status(outcome)
}

/// The overlay of the segments that records describe, with the data of each link, and without
/// walks. A part of a segment has its data; of segments on one pair of ends the first one's is
/// kept. Returns as `overlay_c_overlay` does.
#[unsafe(no_mangle)]
pub extern "C" fn overlay_c_overlay_with_data(
    alloc: Global,
    handle: &mut Handle,
    given: &[TaggedRecord],
    settings: &SettingsRecord,
    rule: u8,
) -> u8
    requires { IsSome handle.old.engine }
    ensures full { IsSome handle.new.engine }
    ensures chosen { Leaves handle.new (Chooses settings.now.engine) }
    ensures done { result ≡ 0 → Leaves handle.new (KeepsDataBy settings.now rule (given_by (untagged given.now)) (tagged_by given.now)) }
    ensures usable { result ≡ 0 → Leaves handle.new (MaySplit (untagged given.now)) }
    ensures unusable { result ≡ 3 → Leaves handle.new (MayNotSplit (untagged given.now)) }
    ensures too_large { result ≡ 2 → Turns handle.old handle.new (LastIsCountRefused settings.now (given_by (untagged given.now))) }
    ensures stands { result ≢ 0 → Leaves handle.new (LastStandsAfter settings.now (given_by (untagged given.now))) }
    ensures limit { Turns handle.old handle.new SameLimits }
    ensures codes { result < 4 }
    ensures lines { Turns handle.old handle.new SameLines }
    ensures has_changed { Turns handle.old handle.new SameChange }
    ensures other { Turns handle.old handle.new SameOther }
    ensures contours { Turns handle.old handle.new SameContours }
    ensures arrangement { Turns handle.old handle.new StaysAsArranged }
    ensures result { Turns handle.old handle.new SameResult }
{
    let mut engine = take(alloc, handle);
    let outcome = engine.overlay_with_data(given, settings, overlay_rule(rule));
    put(handle, engine);
    status(outcome)
}

/// The split of the segments that records describe, without a graph. Returns as `overlay_c_overlay` does.
#[unsafe(no_mangle)]
pub extern "C" fn overlay_c_split(
    alloc: Global,
    handle: &mut Handle,
    given: &[SegmentRecord],
    settings: &SettingsRecord,
) -> u8
    requires { IsSome handle.old.engine }
    ensures full { IsSome handle.new.engine }
    ensures chosen { Leaves handle.new (Chooses settings.now.engine) }
    ensures done { result ≡ 0 → Leaves handle.new (LastKeepsSplit settings.now (given_by given.now)) }
    ensures arranged { result ≡ 0 → Leaves handle.new IsLastArranged }
    ensures usable { result ≡ 0 → Leaves handle.new (MaySplit given.now) }
    ensures unusable { result ≡ 3 → Leaves handle.new (MayNotSplit given.now) }
    ensures too_large { result ≡ 2 → Turns handle.old handle.new (LastLeavesRange settings.now (given_by given.now)) }
    ensures emptied { result ≢ 0 → IfSome handle.new.engine (λ engine. segments_in engine ≡ []) }
    ensures limit { Turns handle.old handle.new SameLimits }
    ensures codes { result < 4 }
    ensures no_graph { Leaves handle.new LastHasNoGraph }
    ensures lines { Turns handle.old handle.new SameLines }
    ensures link_data { Turns handle.old handle.new SameData }
    ensures other { Turns handle.old handle.new SameOther }
    ensures contours { Turns handle.old handle.new SameContours }
    ensures arrangement { Turns handle.old handle.new StaysAsArranged }
    ensures result { Turns handle.old handle.new SameResult }
{
    let mut engine = take(alloc, handle);
    let outcome = engine.split(given, settings);
    put(handle, engine);
    status(outcome)
}

/// The graph of all of the arrangement that `overlay_c_split` left where it returned 0: a link for each segment, in their
/// order. The links are written to records, as many as the segments of `overlay_c_sizes`; the engine keeps the nodes, which
/// `overlay_c_nodes` copies out, and no links or walks. Of the settings it takes the strategy and the fill rule.
///
/// What the engine keeps has to be an arrangement: that of an `overlay_c_split` that returned 0, without another call that
/// was given segments since.
///
/// Returns 0 where it is done, 1 where memory was refused, and 2 where a winding above a segment leaves the range. The
/// arrangement stays. After 1 and 2 nothing is promised of records and nodes.
#[unsafe(no_mangle)]
pub extern "C" fn overlay_c_build(
    alloc: Global,
    handle: &mut Handle,
    settings: &SettingsRecord,
    links: &mut [LinkRecord],
) -> u8
    requires engine { IsSome handle.old.engine }
    requires arranged { IfSome handle.old.engine IsLastArranged }
    requires length { IfSome handle.old.engine (λ engine. length links.old ≡ segment_count engine) }
    ensures full { IsSome handle.new.engine }
    ensures done { result ≡ 0 → Leaves handle.new (LastBuildsAll settings.now links.new) }
    ensures too_large { result ≡ 2 → IfSome handle.old.engine LastTopsLeaveRange }
    ensures codes { result < 3 }
    ensures no_links { IfSome handle.new.engine (λ engine. links_in engine ≡ []) }
    ensures segments { Turns handle.old handle.new SameSegments }
    ensures limit { Turns handle.old handle.new SameLimits }
    ensures no_walks { Leaves handle.new LastHasNoWalks }
    ensures lines { Turns handle.old handle.new SameLines }
    ensures link_data { Turns handle.old handle.new SameData }
    ensures has_changed { Turns handle.old handle.new SameChange }
    ensures other { Turns handle.old handle.new SameOther }
    ensures contours { Turns handle.old handle.new SameContours }
    ensures arrangement { Turns handle.old handle.new StaysAsArranged }
    ensures result { Turns handle.old handle.new SameResult }
{
    let mut engine = take(alloc, handle);
    let outcome = engine.build(alloc, settings, links);
    put(handle, engine);
    status(outcome)
}

/// The join of the segments that records describe, without a graph, with the engine that the code of a width names,
/// as in `SettingsRecord`. Returns as `overlay_c_overlay` does. After a refusal the list is empty.
#[unsafe(no_mangle)]
pub extern "C" fn overlay_c_join(
    alloc: Global,
    handle: &mut Handle,
    given: &[SegmentRecord],
    width: u8,
) -> u8
    requires { IsSome handle.old.engine }
    ensures full { IsSome handle.new.engine }
    ensures chosen { Leaves handle.new (Chooses width) }
    ensures done { result ≡ 0 → IfSome handle.new.engine (λ engine.
        segments_in engine ≡ join (given_by given.now)) }
    ensures repeated { result ≡ 0 → IfSome handle.new.engine (λ engine.
        has_changed_in engine ≡ has_equal_pairs (given_by given.now)) }
    ensures usable { result ≡ 0 → Leaves handle.new (MaySplit given.now) }
    ensures unusable { result ≡ 3 → Leaves handle.new (MayNotSplit given.now) }
    ensures too_large { result ≡ 2 → IsTrue (join_leaves_range (given_by given.now)) }
    ensures emptied { result ≢ 0 → IfSome handle.new.engine (λ engine. segments_in engine ≡ []) }
    ensures codes { result < 4 }
    ensures limit { Turns handle.old handle.new SameLimits }
    ensures no_graph { Leaves handle.new LastHasNoGraph }
    ensures lines { Turns handle.old handle.new SameLines }
    ensures link_data { Turns handle.old handle.new SameData }
    ensures other { Turns handle.old handle.new SameOther }
    ensures contours { Turns handle.old handle.new SameContours }
    ensures arrangement { Turns handle.old handle.new StaysAsArranged }
    ensures result { Turns handle.old handle.new SameResult }
{
    let mut engine = take(alloc, handle);
    let outcome = engine.join(given, width);
    put(handle, engine);
    status(outcome)
}

/// The parts of lines that a clip rule keeps. The arrangement of segments stays, and no walks are kept. Returns as `overlay_c_overlay` does.
#[unsafe(no_mangle)]
pub extern "C" fn overlay_c_clip(
    alloc: Global,
    handle: &mut Handle,
    given: &[LineRecord],
    settings: &SettingsRecord,
    invert: bool,
    boundary_included: bool,
) -> u8
    requires { IsSome handle.old.engine }
    ensures full { IsSome handle.new.engine }
    ensures chosen { Leaves handle.new (Chooses settings.now.engine) }
    ensures done { result ≡ 0 → Leaves handle.new (KeepsClipBy settings.now invert boundary_included given.now) }
    ensures usable { result ≡ 0 → Leaves handle.new (MaySplitLines given.now) }
    ensures unusable { result ≡ 3 → Leaves handle.new (MayNotSplitLines given.now) }
    ensures too_large { result ≡ 2 → Turns handle.old handle.new (LastIsCountOfLinesRefused settings.now (map line_asked_by given.now)) }
    ensures stands { result ≢ 0 → Leaves handle.new (LastLinesStandAfter settings.now (map line_asked_by given.now)) }
    ensures limit { Turns handle.old handle.new SameLimits }
    ensures codes { result < 4 }
    ensures no_walks { Leaves handle.new LastHasNoWalks }
    ensures segments { Turns handle.old handle.new SameArrangements }
    ensures link_data { Turns handle.old handle.new SameData }
    ensures has_changed { Turns handle.old handle.new SameChange }
    ensures other { Turns handle.old handle.new SameOther }
    ensures contours { Turns handle.old handle.new SameContours }
    ensures arrangement { Turns handle.old handle.new StaysAsArranged }
    ensures result { Turns handle.old handle.new SameResult }
{
    let mut engine = take(alloc, handle);
    let rule = ClipRule {
        invert,
        boundary_included,
    };
    let outcome = engine.clip(given, settings, rule);
    put(handle, engine);
    status(outcome)
}

/// The parts of lines that a clip rule keeps, as of `overlay_c_clip`, and which of the given lines run along each segment of the
/// arrangement of polygons and lines: `overlay_c_line_numbers` copies their numbers, the indexes of their records. Links are in the
/// order of the segments. Returns as `overlay_c_overlay` does; nothing is promised of the numbers after a refusal.
#[unsafe(no_mangle)]
pub extern "C" fn overlay_c_clip_with_numbers(
    alloc: Global,
    handle: &mut Handle,
    given: &[LineRecord],
    settings: &SettingsRecord,
    invert: bool,
    boundary_included: bool,
) -> u8
    requires { IsSome handle.old.engine }
    ensures full { IsSome handle.new.engine }
    ensures chosen { Leaves handle.new (Chooses settings.now.engine) }
    ensures done { result ≡ 0 → Leaves handle.new (KeepsClipBy settings.now invert boundary_included given.now) }
    ensures numbers { result ≡ 0 → Leaves handle.new (LastKeepsNumbers settings.now (map line_asked_by given.now)) }
    ensures usable { result ≡ 0 → Leaves handle.new (MaySplitLines given.now) }
    ensures unusable { result ≡ 3 → Leaves handle.new (MayNotSplitLines given.now) }
    ensures too_large { result ≡ 2 → Leaves handle.new (LastIsCountOfNumberedRefused settings.now (map line_asked_by given.now)) }
    ensures stands { result ≢ 0 → Leaves handle.new (LastLinesStandAfter settings.now (map line_asked_by given.now)) }
    ensures limit { Turns handle.old handle.new SameLimits }
    ensures codes { result < 4 }
    ensures no_walks { Leaves handle.new LastHasNoWalks }
    ensures segments { Turns handle.old handle.new SameArrangements }
    ensures link_data { Turns handle.old handle.new SameData }
    ensures has_changed { Turns handle.old handle.new SameChange }
    ensures other { Turns handle.old handle.new SameOther }
    ensures contours { Turns handle.old handle.new SameContours }
    ensures arrangement { Turns handle.old handle.new StaysAsArranged }
    ensures result { Turns handle.old handle.new SameResult }
{
    let mut engine = take(alloc, handle);
    let rule = ClipRule {
        invert,
        boundary_included,
    };
    let outcome = engine.clip_with_numbers(given, settings, rule);
    put(handle, engine);
    status(outcome)
}

/// Copies a contour behind the others of the subject, where the shape's code is 0, or else of the clip. Returns 0 where
/// it is added; else nothing is: 1 where memory was refused, 4 where a point is out of range.
#[unsafe(no_mangle)]
pub extern "C" fn overlay_c_add_contour(
    alloc: Global,
    handle: &mut Handle,
    contour: &[PointRecord],
    shape: u8,
) -> u8
    requires { IsSome handle.old.engine }
    ensures full { IsSome handle.new.engine }
    ensures added { result ≡ 0 → Turns handle.old handle.new (AddsContour (shape_of shape) contour.now) }
    ensures unchanged { result ≢ 0 → Turns handle.old handle.new (SameShape (shape_of shape)) }
    ensures other { Turns handle.old handle.new (SameShape (other_shape (shape_of shape))) }
    ensures in_range { result ≡ 0 → IsTrue (are_in_range contour.now) }
    ensures out_of_range { result ≡ 4 → IsFalse (are_in_range contour.now) }
    ensures rest { Turns handle.old handle.new SameSplit }
    ensures report { Turns handle.old handle.new SameReport }
    ensures arrangement { Turns handle.old handle.new StaysAsArranged }
    ensures result { Turns handle.old handle.new SameResult }
    ensures codes { IsAddCode result }
    ensures regions { Turns handle.old handle.new SameRegions }
{
    let mut engine = take(alloc, handle);
    let outcome = engine.add_contour(contour, shape_type(shape));
    put(handle, engine);
    status(outcome)
}

/// Copies what a tile has of a contour behind the others of the subject, where the shape's code is 0, or else of the clip:
/// the contour, cut and clamped to the tile, or nothing where it lies beside it. What was added winds around each point of
/// the tile as the given contours, if it is farther than half a unit from every given step that runs along no axis.
///
/// So the overlays that follow return the part of the overlay that belongs to the tile. By snap rounding it is right at
/// each point of the tile that is farther than a whole unit from these steps, and all its points lie in the tile.
///
/// Returns 0 where it is done; else nothing is added: 1 where memory was refused, 4 where a point is out of range, 5 where
/// the record has no tile, also where a point is out of range.
#[unsafe(no_mangle)]
pub extern "C" fn overlay_c_add_contour_in_tile(
    alloc: Global,
    handle: &mut Handle,
    contour: &[PointRecord],
    shape: u8,
    borders: &TileRecord,
) -> u8
    requires { IsSome handle.old.engine }
    ensures full { IsSome handle.new.engine }
    ensures added { result ≡ 0 → Turns handle.old handle.new (AddsInTile (shape_of shape) borders.now contour.now) }
    ensures unchanged { result ≢ 0 → Turns handle.old handle.new (SameShape (shape_of shape)) }
    ensures other { Turns handle.old handle.new (SameShape (other_shape (shape_of shape))) }
    ensures in_range { result ≡ 0 → IsTrue (are_in_range contour.now) }
    ensures out_of_range { result ≡ 4 → IsFalse (are_in_range contour.now) }
    ensures is_tile { result ≢ 5 → MakesTile borders.now }
    ensures no_tile { result ≡ 5 → MakesTile borders.now → ⊥ }
    ensures rest { Turns handle.old handle.new SameSplit }
    ensures report { Turns handle.old handle.new SameReport }
    ensures arrangement { Turns handle.old handle.new StaysAsArranged }
    ensures result { Turns handle.old handle.new SameResult }
    ensures codes { IsAddInTileCode result }
{
    let Ok(tile) = tile(borders) else {
        return 5;
    };
    let mut engine = take(alloc, handle);
    let outcome = engine.add_contour_in_tile(alloc, contour, shape_type(shape), &tile);
    put(handle, engine);
    status(outcome)
}

/// Keeps the contours of a shape that were added, in that order, as those of a result in no shapes: `overlay_c_contours` then
/// copies them out. So what a tile has of contours can be handed to another process. Returns 0 where it is done, and 1
/// where memory was refused. The contours that were added stay.
#[unsafe(no_mangle)]
pub extern "C" fn overlay_c_given(alloc: Global, handle: &mut Handle, shape: u8) -> u8
    requires { IsSome handle.old.engine }
    ensures full { IsSome handle.new.engine }
    ensures done { result ≡ 0 → IfSome handle.new.engine (KeepsGiven (shape_of shape)) }
    ensures codes { result < 2 }
    ensures contours { Turns handle.old handle.new SameContours }
    ensures rest { Turns handle.old handle.new SameSplit }
    ensures arrangement { Turns handle.old handle.new StaysAsArranged }
{
    let mut engine = take(alloc, handle);
    let outcome = engine.given(shape_type(shape));
    put(handle, engine);
    status(outcome)
}

/// The overlay of the contours that were added, as contours that have it on their left: outer
/// boundaries run counterclockwise, and holes clockwise. Returns 0 where it is done, 1 where memory
/// was refused, and 2 where a count left the range. The contours that were added stay. Crossings
/// are rounded as the settings say: by snap rounding, or pair by pair, in passes, the first 256 of
/// them snapping, whatever the limit of the engine is. Coordinates have 32 bits, whatever engine
/// the settings name.
#[unsafe(no_mangle)]
pub extern "C" fn overlay_c_polygons(
    alloc: Global,
    handle: &mut Handle,
    settings: &SettingsRecord,
    rule: u8,
) -> u8
    requires { IsSome handle.old.engine }
    ensures full { IsSome handle.new.engine }
    ensures done { result ≡ 0 → Turns handle.old handle.new (KeepsPolygonsBy settings.now rule) }
    ensures too_large { result ≡ 2 → IfSome handle.old.engine (PolygonCountsLeaveRange settings.now) }
    ensures codes { result < 3 }
    ensures subject { Turns handle.old handle.new (SameShape Subject) }
    ensures clip { Turns handle.old handle.new (SameShape Clip) }
    ensures rest { Turns handle.old handle.new SameSplit }
    ensures arrangement { Turns handle.old handle.new StaysAsArranged }
{
    let mut engine = take(alloc, handle);
    let outcome = engine.polygons(settings, overlay_rule(rule));
    put(handle, engine);
    status(outcome)
}

/// The overlay of the contours that were added, in shapes: each an outer boundary, followed by its holes, whose contours
/// come to no point twice. Returns as `overlay_c_polygons` does, under the same settings. The contours that were added
/// stay.
#[unsafe(no_mangle)]
pub extern "C" fn overlay_c_shapes(
    alloc: Global,
    handle: &mut Handle,
    settings: &SettingsRecord,
    rule: u8,
) -> u8
    requires { IsSome handle.old.engine }
    ensures full { IsSome handle.new.engine }
    ensures done { result ≡ 0 → Turns handle.old handle.new (KeepsShapesBy settings.now rule) }
    ensures too_large { result ≡ 2 → IfSome handle.old.engine (PolygonCountsLeaveRange settings.now) }
    ensures codes { result < 3 }
    ensures subject { Turns handle.old handle.new (SameShape Subject) }
    ensures clip { Turns handle.old handle.new (SameShape Clip) }
    ensures rest { Turns handle.old handle.new SameSplit }
    ensures arrangement { Turns handle.old handle.new StaysAsArranged }
{
    let mut engine = take(alloc, handle);
    let outcome = engine.shapes(settings, overlay_rule(rule));
    put(handle, engine);
    status(outcome)
}

/// The overlays of the contours that were added by several rules, each as of `overlay_c_polygons`, in the order of the
/// codes. They are kept as contours, rule by rule; `overlay_c_shape_lengths` then copies out how many each rule has.
/// Returns as `overlay_c_polygons` does, under the same settings. The contours that were added stay.
#[unsafe(no_mangle)]
pub extern "C" fn overlay_c_polygons_by_rules(
    alloc: Global,
    handle: &mut Handle,
    settings: &SettingsRecord,
    rules: &[u8],
) -> u8
    requires { IsSome handle.old.engine }
    ensures full { IsSome handle.new.engine }
    ensures done { result ≡ 0 → Turns handle.old handle.new (KeepsRulesBy settings.now rules.now) }
    ensures too_large { result ≡ 2 → IfSome handle.old.engine (PolygonCountsLeaveRange settings.now) }
    ensures codes { result < 3 }
    ensures subject { Turns handle.old handle.new (SameShape Subject) }
    ensures clip { Turns handle.old handle.new (SameShape Clip) }
    ensures rest { Turns handle.old handle.new SameSplit }
    ensures arrangement { Turns handle.old handle.new StaysAsArranged }
{
    let mut engine = take(alloc, handle);
    let outcome = engine.polygons_by_rules(alloc, settings, rules);
    put(handle, engine);
    status(outcome)
}

/// Keeps the arrangement of the contours that were added, split and swept once, from which `overlay_c_arranged_contours`
/// and `overlay_c_arranged_shapes` make overlays by any rules. Returns as `overlay_c_polygons` does, under the same
/// settings. The contours that were added stay, and so does what `overlay_c_report` returns. Where it is refused, the
/// arrangement that was kept before stays.
#[unsafe(no_mangle)]
pub extern "C" fn overlay_c_arrange(
    alloc: Global,
    handle: &mut Handle,
    settings: &SettingsRecord,
) -> u8
    requires { IsSome handle.old.engine }
    ensures full { IsSome handle.new.engine }
    ensures done { result ≡ 0 → Turns handle.old handle.new (KeepsArrangement settings.now) }
    ensures too_large { result ≡ 2 → IfSome handle.old.engine (PolygonCountsLeaveRange settings.now) }
    ensures codes { result < 3 }
    ensures unchanged { result ≢ 0 → Turns handle.old handle.new StaysAsArranged }
    ensures subject { Turns handle.old handle.new (SameShape Subject) }
    ensures clip { Turns handle.old handle.new (SameShape Clip) }
    ensures rest { Turns handle.old handle.new SameSplit }
    ensures result { Turns handle.old handle.new SameResult }
    ensures report { Turns handle.old handle.new SameReport }
{
    let mut engine = take(alloc, handle);
    let outcome = engine.arrange(settings);
    put(handle, engine);
    status(outcome)
}

/// The overlay by a rule of the contours that are arranged, as `overlay_c_polygons` keeps it; where only corners are
/// wanted, without the points at which a contour goes straight on. Returns 0 where it is done, 1 where memory was refused,
/// and 3 where no contours were arranged. The arrangement stays.
#[unsafe(no_mangle)]
pub extern "C" fn overlay_c_arranged_contours(
    alloc: Global,
    handle: &mut Handle,
    rule: u8,
    corners: bool,
) -> u8
    requires { IsSome handle.old.engine }
    ensures full { IsSome handle.new.engine }
    ensures done { result ≡ 0 → Turns handle.old handle.new (KeepsArrangedContoursBy rule corners) }
    ensures arranged { result ≡ 0 → IfSome handle.old.engine HasArrangement }
    ensures none { result ≡ 3 → IfSome handle.old.engine HasNoArrangement }
    ensures codes { result < 4 }
    ensures no_count { result ≢ 2 }
    ensures arrangement { Turns handle.old handle.new SameArrangement }
    ensures contours { Turns handle.old handle.new SameContours }
    ensures rest { Turns handle.old handle.new SameSplit }
{
    let mut engine = take(alloc, handle);
    let outcome = engine.arranged_contours(overlay_rule(rule), corners);
    put(handle, engine);
    status(outcome)
}

/// The overlay by a rule of the contours that are arranged, in shapes, as `overlay_c_shapes` keeps it; where only corners
/// are wanted, without the points at which a contour goes straight on. Returns as `overlay_c_arranged_contours` does. The
/// arrangement stays.
#[unsafe(no_mangle)]
pub extern "C" fn overlay_c_arranged_shapes(
    alloc: Global,
    handle: &mut Handle,
    rule: u8,
    corners: bool,
) -> u8
    requires { IsSome handle.old.engine }
    ensures full { IsSome handle.new.engine }
    ensures done { result ≡ 0 → Turns handle.old handle.new (KeepsArrangedShapesBy rule corners) }
    ensures arranged { result ≡ 0 → IfSome handle.old.engine HasArrangement }
    ensures none { result ≡ 3 → IfSome handle.old.engine HasNoArrangement }
    ensures codes { result < 4 }
    ensures no_count { result ≢ 2 }
    ensures arrangement { Turns handle.old handle.new SameArrangement }
    ensures contours { Turns handle.old handle.new SameContours }
    ensures rest { Turns handle.old handle.new SameSplit }
{
    let mut engine = take(alloc, handle);
    let outcome = engine.arranged_shapes(overlay_rule(rule), corners);
    put(handle, engine);
    status(outcome)
}

/// Where a point lies with respect to the contours of a shape that were added, by the code of a fill rule: 0 for inside,
/// 1 for on the boundary, which is on a step of a contour, 2 for outside, and 4 where the point is out of range.
#[unsafe(no_mangle)]
pub extern "C" fn overlay_c_locate(
    alloc: Global,
    handle: &mut Handle,
    point: &PointRecord,
    shape: u8,
    fill: u8,
) -> u8
    requires { IsSome handle.old.engine }
    ensures same { handle.new.engine ≡ handle.old.engine }
    ensures location { IfSome handle.old.engine (λ engine.
        result ≡ location_code (shape_of shape) (fill_rule_of fill) point.now engine) }
{
    let engine = take(alloc, handle);
    let location = engine.locate(shape_type(shape), fill_rule(fill), point);
    put(handle, engine);
    location
}

/// Whether a relation holds between the subject and the clip that were added, exactly: nothing is rounded. The relation is that
/// of a code: 0 if some point is inside both, 1 if each point inside the clip is inside the subject, 2 if each point inside the
/// subject is inside the clip, 3 if both are the same region, 4 if they share a point and no point is inside both, and else that
/// they share no point. Points on edges count for 4 and 5 alone. Of the settings it takes the strategy and the fill rule.
///
/// Returns 0 where `holds` says whether it does, 1 where memory was refused, 2 where a count left the range, 6 where two edges
/// of the subject cross at a point without integer coordinates, and 7 where two edges of the clip do, and none of the subject.
/// After any other code than 0 `holds` is unchanged.
#[unsafe(no_mangle)]
pub extern "C" fn overlay_c_relation(
    alloc: Global,
    handle: &mut Handle,
    settings: &SettingsRecord,
    code: u8,
    holds: &mut bool,
) -> u8
    requires { IsSome handle.old.engine }
    ensures same { handle.new.engine ≡ handle.old.engine }
    ensures holds { result ≡ 0 → IfSome handle.old.engine (λ engine. (holds.new ≡ true) ↔ Holds (relation_of code)
        (fill_rule_of settings.now.fill_rule) (contours_in engine Subject) (contours_in engine Clip)) }
    ensures unchanged { result ≢ 0 → holds.new ≡ holds.old }
    ensures too_large { result ≡ 2 → IfSome handle.old.engine (λ engine. ShapeCountsLeaveRange
        (fill_rule_of settings.now.fill_rule) (contours_in engine Subject) (contours_in engine Clip)) }
    ensures subject_not_exact { result ≡ 6 → IfSome handle.old.engine (λ engine. IsNotExact (contours_in engine Subject)
        (contours_in engine Clip) Subject) }
    ensures clip_not_exact { result ≡ 7 → IfSome handle.old.engine (λ engine. IsNotExact (contours_in engine Subject)
        (contours_in engine Clip) Clip) }
    ensures codes { IsRelationCode result }
{
    let engine = take(alloc, handle);
    let outcome = engine.relation(alloc, settings, named_relation(code));
    put(handle, engine);
    match outcome {
        Ok(found) => {
            *holds = found;
            0
        }
        Err(fault) => fault_code(fault),
    }
}

/// Which parts of the subject meet which parts of the clip that were added, exactly: the inside, the boundary and the outside of
/// each. A point is on the boundary of a shape if there are points inside and outside of it, however near to it. Of the settings
/// it takes the strategy and the fill rule. Returns as `overlay_c_relation` does; after any other code than 0 `matrix` is
/// unchanged.
#[unsafe(no_mangle)]
pub extern "C" fn overlay_c_relate(
    alloc: Global,
    handle: &mut Handle,
    settings: &SettingsRecord,
    matrix: &mut MatrixRecord,
) -> u8
    requires { IsSome handle.old.engine }
    ensures same { handle.new.engine ≡ handle.old.engine }
    ensures matrix { result ≡ 0 → IfSome handle.old.engine (λ engine. IsMatrixBy (fill_rule_of settings.now.fill_rule)
        (contours_in engine Subject) (contours_in engine Clip) matrix.new) }
    ensures unchanged { result ≢ 0 → matrix.new ≡ matrix.old }
    ensures too_large { result ≡ 2 → IfSome handle.old.engine (λ engine. ShapeCountsLeaveRange
        (fill_rule_of settings.now.fill_rule) (contours_in engine Subject) (contours_in engine Clip)) }
    ensures subject_not_exact { result ≡ 6 → IfSome handle.old.engine (λ engine. IsNotExact (contours_in engine Subject)
        (contours_in engine Clip) Subject) }
    ensures clip_not_exact { result ≡ 7 → IfSome handle.old.engine (λ engine. IsNotExact (contours_in engine Subject)
        (contours_in engine Clip) Clip) }
    ensures codes { IsRelationCode result }
{
    let engine = take(alloc, handle);
    let outcome = engine.relate(alloc, settings);
    put(handle, engine);
    match outcome {
        Ok(found) => {
            *matrix = found;
            0
        }
        Err(refused) => fault_code(refused),
    }
}

/// Prepares the region of the subject that was added, under the fill rule of the settings, for relations to others, and keeps it
/// behind those that are kept. Its number is how many were kept before, from 0. The contours that were added stay.
///
/// Returns 0 where it is done, 1 where memory was refused, 2 where a count left the range, and 6 where two edges of the subject
/// cross at a point without integer coordinates. After any other code than 0 the regions are those that were kept before.
#[unsafe(no_mangle)]
pub extern "C" fn overlay_c_add_region(
    alloc: Global,
    handle: &mut Handle,
    settings: &SettingsRecord,
) -> u8
    requires { IsSome handle.old.engine }
    ensures full { IsSome handle.new.engine }
    ensures added { result ≡ 0 → Turns handle.old handle.new (AddsRegion settings.now) }
    ensures unchanged { result ≢ 0 → Turns handle.old handle.new SameRegions }
    ensures too_large { result ≡ 2 → IfSome handle.old.engine (λ engine. CountsOfShapeLeaveRange (contours_in engine Subject)) }
    ensures not_exact { result ≡ 6 → IfSome handle.old.engine (λ engine. IsTrue (has_inexact_crossing (contours_in engine Subject) [])) }
    ensures codes { IsRegionCode result }
    ensures contours { Turns handle.old handle.new SameContours }
    ensures rest { Turns handle.old handle.new SameSplit }
    ensures arrangement { Turns handle.old handle.new StaysAsArranged }
    ensures result { Turns handle.old handle.new SameResult }
{
    let mut engine = take(alloc, handle);
    let outcome = engine.add_region(alloc, settings);
    put(handle, engine);
    match outcome {
        Ok(()) => 0,
        Err(fault) => fault_code(fault),
    }
}

/// Whether a relation holds between two regions that are kept, by their numbers and the code of `overlay_c_relation`, exactly. Of
/// the settings it takes the strategy.
///
/// Returns 0 where `holds` says whether it does, 1 where memory was refused, and 2 where a count left the range. After any other
/// code than 0 `holds` is unchanged.
#[unsafe(no_mangle)]
pub extern "C" fn overlay_c_region_relation(
    alloc: Global,
    handle: &mut Handle,
    settings: &SettingsRecord,
    first: usize,
    second: usize,
    code: u8,
    holds: &mut bool,
) -> u8
    requires engine { IsSome handle.old.engine }
    requires first { IfSome handle.old.engine (λ engine. first < length engine.regions.items) }
    requires second { IfSome handle.old.engine (λ engine. second < length engine.regions.items) }
    ensures same { handle.new.engine ≡ handle.old.engine }
    ensures holds { result ≡ 0 → IfSome handle.old.engine (HoldsOfRegionsAt (relation_of code) first second holds.new) }
    ensures unchanged { result ≢ 0 → holds.new ≡ holds.old }
    ensures too_large { result ≡ 2 → IfSome handle.old.engine (CountsOfRegionsLeaveRange first second) }
    ensures codes { result < 3 }
{
    let engine = take(alloc, handle);
    let outcome = engine.region_relation(settings, first, second, named_relation(code));
    put(handle, engine);
    match outcome {
        Ok(found) => {
            *holds = found;
            0
        }
        Err(fault) => status(Err(Refusal::from(fault))),
    }
}

/// Which parts of two regions that are kept meet, by their numbers, exactly, as `overlay_c_relate` returns it. Returns as
/// `overlay_c_region_relation` does; after any other code than 0 `matrix` is unchanged.
#[unsafe(no_mangle)]
pub extern "C" fn overlay_c_region_relate(
    alloc: Global,
    handle: &mut Handle,
    settings: &SettingsRecord,
    first: usize,
    second: usize,
    matrix: &mut MatrixRecord,
) -> u8
    requires engine { IsSome handle.old.engine }
    requires first { IfSome handle.old.engine (λ engine. first < length engine.regions.items) }
    requires second { IfSome handle.old.engine (λ engine. second < length engine.regions.items) }
    ensures same { handle.new.engine ≡ handle.old.engine }
    ensures matrix { result ≡ 0 → IfSome handle.old.engine (IsMatrixOfRegionsAt first second matrix.new) }
    ensures unchanged { result ≢ 0 → matrix.new ≡ matrix.old }
    ensures too_large { result ≡ 2 → IfSome handle.old.engine (CountsOfRegionsLeaveRange first second) }
    ensures codes { result < 3 }
{
    let engine = take(alloc, handle);
    let outcome = engine.region_matrix(settings, first, second);
    put(handle, engine);
    match outcome {
        Ok(found) => {
            *matrix = found;
            0
        }
        Err(fault) => status(Err(Refusal::from(fault))),
    }
}

/// What the last overlay of contours, in shapes or not, reports of its run: how many passes it made, and how far these
/// moved edges. What such an overlay leaves holds at every place that is farther than this from the edges of the
/// contours that it was given. Both are 0 at first, and nothing is promised of them after an overlay that was refused.
#[unsafe(no_mangle)]
pub extern "C" fn overlay_c_report(alloc: Global, handle: &mut Handle) -> ReportRecord
    requires { IsSome handle.old.engine }
    ensures same { handle.new.engine ≡ handle.old.engine }
    ensures passes { IfSome handle.old.engine (λ engine. number_by result.passes ≡ passes_of engine.polygons) }
    ensures reach { IfSome handle.old.engine (λ engine. number_by result.reach ≡ reach_of engine.polygons) }
{
    let engine = take(alloc, handle);
    let report = engine.report();
    put(handle, engine);
    report
}

/// What the arrangement that is kept reports of its run: how many passes its split made, and how far these moved edges.
/// What `overlay_c_arranged_contours` and `overlay_c_arranged_shapes` leave holds at every point that is farther than this
/// from the edges of the contours that were arranged. Both are 0 where no contours are arranged.
#[unsafe(no_mangle)]
pub extern "C" fn overlay_c_arranged_report(alloc: Global, handle: &mut Handle) -> ReportRecord
    requires { IsSome handle.old.engine }
    ensures same { handle.new.engine ≡ handle.old.engine }
    ensures report { IfSome handle.old.engine (λ engine. IfSome engine.arrangement (IsReportOf result)) }
    ensures none { IfSome handle.old.engine (λ engine. HasNoArrangement engine → IsReportOfNothing result) }
{
    let engine = take(alloc, handle);
    let numbers = engine.arranged_report();
    put(handle, engine);
    numbers
}

/// Drops the contours that were added.
#[unsafe(no_mangle)]
pub extern "C" fn overlay_c_clear(alloc: Global, handle: &mut Handle)
    requires { IsSome handle.old.engine }
    ensures full { IsSome handle.new.engine }
    ensures subject { IfSome handle.new.engine (λ after. contours_in after Subject ≡ []) }
    ensures clip { IfSome handle.new.engine (λ after. contours_in after Clip ≡ []) }
    ensures rest { Turns handle.old handle.new SameSplit }
    ensures report { Turns handle.old handle.new SameReport }
    ensures arrangement { Turns handle.old handle.new StaysAsArranged }
    ensures result { Turns handle.old handle.new SameResult }
    ensures regions { Turns handle.old handle.new SameRegions }
{
    let mut engine = take(alloc, handle);
    engine.clear_contours();
    put(handle, engine);
}

/// Where a target and another segment meet, with a squared radius within which a crossing is moved to an end, and,
/// where all ends lie on one line, which of them lie strictly inside the other segment. The counts do not matter.
///
/// All ends have to be in range, the two ends of each segment have to differ, and the squared radius has to be at least 1.
#[unsafe(no_mangle)]
pub extern "C" fn overlay_c_cross(
    target: &SegmentRecord,
    other: &SegmentRecord,
    radius_squared: i64,
) -> CrossRecord
    requires target { IsTrue (is_pair_in_range least_coordinate greatest_coordinate (pair_by target.now)) }
    requires other { IsTrue (is_pair_in_range least_coordinate greatest_coordinate (pair_by other.now)) }
    requires target_apart { start_of target.now ≢ end_of target.now }
    requires other_apart { start_of other.now ≢ end_of other.now }
    requires radius { pos 1 ≤ℤ radius_squared }
    ensures meeting { cross_by result ≡ cross_answer (snapping (unsigned_abs radius_squared)) (pair_by target.now)
        (pair_by other.now) }
    ensures mask { result.mask ≡ mask_by (pair_by target.now) (pair_by other.now) }
{
    cross(target, other, radius_squared)
}

/// How much the engine keeps of its last result.
#[unsafe(no_mangle)]
pub extern "C" fn overlay_c_sizes(alloc: Global, handle: &mut Handle) -> SizesRecord
    requires { IsSome handle.old.engine }
    ensures same { handle.new.engine ≡ handle.old.engine }
    ensures core { IfSome handle.old.engine (λ engine. LastTellsSizes engine result) }
    ensures contours { IfSome handle.old.engine (λ engine. result.contours ≡ length engine.contour_lengths.items) }
    ensures contour_points { IfSome handle.old.engine (λ engine.
        result.contour_points ≡ length engine.contour_points.items) }
    ensures shapes { IfSome handle.old.engine (λ engine. result.shapes ≡ length engine.shape_lengths.items) }
{
    let engine = take(alloc, handle);
    let sizes = engine.sizes();
    put(handle, engine);
    sizes
}

/// Copies the arrangement out.
#[unsafe(no_mangle)]
pub extern "C" fn overlay_c_segments(alloc: Global, handle: &mut Handle, out: &mut [SegmentRecord])
    requires engine { IsSome handle.old.engine }
    requires length { IfSome handle.old.engine (λ engine. length out.old ≡ segment_count engine) }
    ensures same { handle.new.engine ≡ handle.old.engine }
    ensures copied { IfSome handle.old.engine (λ engine. map told_by out.new ≡ segments_in engine) }
{
    let engine = take(alloc, handle);
    engine.write_segments(out);
    put(handle, engine);
}

/// Copies the arrangement of polygons and lines out.
#[unsafe(no_mangle)]
pub extern "C" fn overlay_c_lines(alloc: Global, handle: &mut Handle, out: &mut [LineRecord])
    requires engine { IsSome handle.old.engine }
    requires length { IfSome handle.old.engine (λ engine. length out.old ≡ line_count engine) }
    ensures same { handle.new.engine ≡ handle.old.engine }
    ensures copied { IfSome handle.old.engine (λ engine. map line_told_by out.new ≡ lines_in engine) }
{
    let engine = take(alloc, handle);
    engine.write_lines(out);
    put(handle, engine);
}

/// Copies out how many given lines run along each segment of the arrangement of polygons and lines, and the numbers of these lines,
/// segment by segment: those of the last `overlay_c_clip_with_numbers`.
#[unsafe(no_mangle)]
pub extern "C" fn overlay_c_line_numbers(
    alloc: Global,
    handle: &mut Handle,
    counts: &mut [usize],
    numbers: &mut [usize],
)
    requires engine { IsSome handle.old.engine }
    requires counts { IfSome handle.old.engine (λ engine. length counts.old ≡ length (line_counts_in engine)) }
    requires numbers { IfSome handle.old.engine (λ engine. length numbers.old ≡ length (line_numbers_in engine)) }
    ensures same { handle.new.engine ≡ handle.old.engine }
    ensures counts { IfSome handle.old.engine (λ engine. counts.new ≡ line_counts_in engine) }
    ensures numbers { IfSome handle.old.engine (λ engine. numbers.new ≡ line_numbers_in engine) }
{
    let engine = take(alloc, handle);
    counts.copy_from_slice(engine.line_counts());
    numbers.copy_from_slice(engine.line_numbers());
    put(handle, engine);
}

/// Copies the links out.
#[unsafe(no_mangle)]
pub extern "C" fn overlay_c_links(alloc: Global, handle: &mut Handle, out: &mut [LinkRecord])
    requires engine { IsSome handle.old.engine }
    requires length { IfSome handle.old.engine (λ engine. length out.old ≡ link_count engine) }
    ensures same { handle.new.engine ≡ handle.old.engine }
    ensures copied { IfSome handle.old.engine (λ engine. map link_by out.new ≡ links_in engine) }
{
    let engine = take(alloc, handle);
    engine.write_links(out);
    put(handle, engine);
}

/// Copies the data of links out: that of the last overlay with data, one for each of its links.
#[unsafe(no_mangle)]
pub extern "C" fn overlay_c_link_data(alloc: Global, handle: &mut Handle, out: &mut [Tag])
    requires engine { IsSome handle.old.engine }
    requires length { IfSome handle.old.engine (λ engine. length out.old ≡ length (link_data_in engine)) }
    ensures same { handle.new.engine ≡ handle.old.engine }
    ensures copied { IfSome handle.old.engine (λ engine. out.new ≡ link_data_in engine) }
{
    let engine = take(alloc, handle);
    out.copy_from_slice(engine.link_data());
    put(handle, engine);
}

/// Copies out how many links meet at each node, and the indexes of these links, node by node.
#[unsafe(no_mangle)]
pub extern "C" fn overlay_c_nodes(
    alloc: Global,
    handle: &mut Handle,
    degrees: &mut [usize],
    indexes: &mut [usize],
)
    requires engine { IsSome handle.old.engine }
    requires degrees { IfSome handle.old.engine (λ engine. length degrees.old ≡ length (degrees_in engine)) }
    requires indexes { IfSome handle.old.engine (λ engine. length indexes.old ≡ length (indexes_in engine)) }
    ensures same { handle.new.engine ≡ handle.old.engine }
    ensures degrees { IfSome handle.old.engine (λ engine. degrees.new ≡ degrees_in engine) }
    ensures indexes { IfSome handle.old.engine (λ engine. indexes.new ≡ indexes_in engine) }
{
    let engine = take(alloc, handle);
    degrees.copy_from_slice(engine.degrees());
    indexes.copy_from_slice(engine.indexes());
    put(handle, engine);
}

/// Copies out how many links each walk has, and the indexes of these links, walk by walk.
#[unsafe(no_mangle)]
pub extern "C" fn overlay_c_walks(
    alloc: Global,
    handle: &mut Handle,
    lengths: &mut [usize],
    indexes: &mut [usize],
)
    requires engine { IsSome handle.old.engine }
    requires lengths { IfSome handle.old.engine (λ engine. length lengths.old ≡ length (walk_lengths_in engine)) }
    requires indexes { IfSome handle.old.engine (λ engine. length indexes.old ≡ length (walk_links_in engine)) }
    ensures same { handle.new.engine ≡ handle.old.engine }
    ensures lengths { IfSome handle.old.engine (λ engine. lengths.new ≡ walk_lengths_in engine) }
    ensures indexes { IfSome handle.old.engine (λ engine. indexes.new ≡ walk_links_in engine) }
{
    let engine = take(alloc, handle);
    lengths.copy_from_slice(engine.walk_lengths());
    indexes.copy_from_slice(engine.walk_links());
    put(handle, engine);
}

/// Copies out how many points each contour of the last overlay of contours has, in shapes or not, and these points,
/// contour by contour, those of shapes shape by shape.
#[unsafe(no_mangle)]
pub extern "C" fn overlay_c_contours(
    alloc: Global,
    handle: &mut Handle,
    lengths: &mut [usize],
    points: &mut [PointRecord],
)
    requires engine { IsSome handle.old.engine }
    requires lengths { IfSome handle.old.engine (λ engine. length lengths.old ≡ length engine.contour_lengths.items) }
    requires points { IfSome handle.old.engine (λ engine. length points.old ≡ length engine.contour_points.items) }
    ensures same { handle.new.engine ≡ handle.old.engine }
    ensures lengths { IfSome handle.old.engine (λ engine. lengths.new ≡ engine.contour_lengths.items) }
    ensures points { IfSome handle.old.engine (λ engine. points.new ≡ engine.contour_points.items) }
{
    let engine = take(alloc, handle);
    lengths.copy_from_slice(&engine.contour_lengths);
    points.copy_from_slice(&engine.contour_points);
    put(handle, engine);
}

/// Copies out how many contours each shape of the last overlay of contours has, or each rule where it was by several
/// rules: of none where it was neither.
#[unsafe(no_mangle)]
pub extern "C" fn overlay_c_shape_lengths(alloc: Global, handle: &mut Handle, out: &mut [usize])
    requires engine { IsSome handle.old.engine }
    requires length { IfSome handle.old.engine (λ engine. length out.old ≡ length engine.shape_lengths.items) }
    ensures same { handle.new.engine ≡ handle.old.engine }
    ensures copied { IfSome handle.old.engine (λ engine. out.new ≡ engine.shape_lengths.items) }
{
    let engine = take(alloc, handle);
    out.copy_from_slice(&engine.shape_lengths);
    put(handle, engine);
}
