// What crosses between C and the engine, laid out as C does it.
ghost use Rattle.std.specs.Prelude.{◌≡◌, ◌<◌, ◌&&◌, IfSome, IfOk, is_some, length, map};
ghost use Rattle.std.specs.List.{AllZip};
ghost use Rattle.std.specs.Ordering.{int_eq};
ghost use Rattle.overlay_geometry.specs.PointOf.{point_of};
ghost use Rattle.overlay_geometry.specs.Coordinates.{is_point_in_range};
ghost use Rattle.overlay_base.specs.BooleanWinding.{boolean_winding};
ghost use Rattle.overlay_base.specs.Segments.{pairs};
ghost use Rattle.overlay_base.specs.SegmentOf.{segment_of, segments_of, data_segment_of};
ghost use Rattle.overlay_build.specs.GraphOf.{link_of};
ghost use Rattle.overlay_c.specs.Records.{start_of, end_of, count_of, asks, asked_by, asked_piece, told_by, link_by, held_link, fill_rule_of, rounding_of, shape_of, number_by, IsRuleOf};

use crate::width::Width;
use overlay_base::overlay_core::edge_data::OverlayEdgeData;
use overlay_base::overlay_core::fill_rule::FillRule;
use overlay_base::overlay_core::link::OverlayLink;
use overlay_base::overlay_core::overlay_rule::OverlayRule;
use overlay_base::overlay_core::rule_table::RuleTable;
use overlay_base::overlay_core::solver::{Precision, Solver, Strategy};
use overlay_base::segm::boolean::ShapeCountBoolean;
use overlay_base::segm::segment::Segment;
use overlay_base::segm::segment_fill::SegmentFill;
use overlay_base::segm::shape_type::ShapeType;
use overlay_base::segm::winding::WindingCount;
use overlay_build::build::numbered_link::NumberedLink;
use overlay_contours::rounding::Rounding;
use overlay_geometry::geom::point::IntPoint;
use std::alloc::{AllocError, Global};

/// How many numbers have 64 bits.
const WORD: u128 = 1 << 64;

/// A segment of polygons.
pub type BooleanSegment<I> = Segment<ShapeCountBoolean, I, ()>;

/// A segment, and how it winds for the subject and for the clip.
#[repr(C)]
#[derive(Clone, Copy)]
pub struct SegmentRecord {
    pub ax: i32,
    pub ay: i32,
    pub bx: i32,
    pub by: i32,
    pub subj: i32,
    pub clip: i32,
}

/// A side of a polygon, which winds for the subject, or a step of a line, which has a mask.
#[repr(C)]
#[derive(Clone, Copy)]
pub struct LineRecord {
    pub ax: i32,
    pub ay: i32,
    pub bx: i32,
    pub by: i32,
    pub subj: i32,
    /// 2 for a line from the first end to the second, 1 for one that runs back, 3 for both, 0 for none.
    pub mask: u8,
}

/// A link of a graph.
#[repr(C)]
#[derive(Clone, Copy)]
pub struct LinkRecord {
    /// The number of the node at the first end.
    pub a_node: usize,
    pub ax: i32,
    pub ay: i32,
    /// The number of the node at the second end.
    pub b_node: usize,
    pub bx: i32,
    pub by: i32,
    pub fill: u8,
}

impl NumberedLink for LinkRecord {
    type Coordinate = i32;

    type Data = ();

    ghost link = { held_link };

    fn start(&self) -> IntPoint<i32> {
        IntPoint {
            x: self.ax,
            y: self.ay,
        }
    }

    fn end(&self) -> IntPoint<i32> {
        IntPoint {
            x: self.bx,
            y: self.by,
        }
    }

    fn number_start(&mut self, id: usize) {
        self.a_node = id;
    }

    fn number_end(&mut self, id: usize) {
        self.b_node = id;
    }
}

/// What a call is set to.
#[repr(C)]
#[derive(Clone, Copy)]
pub struct SettingsRecord {
    /// The exponent of the first pass.
    pub start: usize,
    /// What each further pass adds to it.
    pub progression: usize,
    /// 0 for `List`, 1 for `Tree`, 2 for `Frag`, 3 for `Auto`.
    pub strategy: u8,
    /// 0 for `EvenOdd`, 1 for `NonZero`, 2 for `Positive`, 3 for `Negative`.
    pub fill_rule: u8,
    /// 0 for coordinates of 32 bits, else those of 16.
    pub engine: u8,
    /// Where crossings without integer coordinates go, of contours, of segments and of lines: 0 for snap rounding, in one
    /// pass, else pair by pair, pass after pass, as upstream does. Snap rounding takes no precision and no snap limit.
    pub rounding: u8,
}

/// The segment that a record describes, with data. `None` where an end is out of range, the ends
/// are equal, a count is `i32::MIN`, or both are 0: such a segment may not be split.
pub fn asked<I: Width, D: OverlayEdgeData<ShapeCountBoolean>>(
    given: &SegmentRecord,
    edge_data: D,
    store: &mut D::Store,
) -> Option<Segment<ShapeCountBoolean, I, D>>
    ensures asks { is_some result ≡ asks (I.whole I.MIN_COORD) (I.whole I.MAX_COORD) given.now }
    ensures segment { IfSome result (λ segment. segment_of segment ≡ asked_by given.now) }
    ensures edge_data { IfSome result (λ segment. data_segment_of segment ≡ asked_piece D.OverlayEdgeData.own given.now edge_data store.old) }
{
    let a = point(start(given))?;
    let b = point(end(given))?;
    let count = count(given);
    if has_equal_ends(given) || !count.is_valid() || !count.is_not_empty() {
        return None;
    }
    Some(Segment::create_and_validate_with_data(a, b, count, edge_data, store))
}

/// The same point for an engine. `None` where it is out of range.
pub fn point<I: Width>(at: IntPoint<i32>) -> Option<IntPoint<I>>
    ensures in_range { is_some result ≡ is_point_in_range (I.whole I.MIN_COORD) (I.whole I.MAX_COORD)
        (point_of (λ z. z) at) }
    ensures same { IfSome result (λ point. point_of I.whole point ≡ point_of (λ z. z) at) }
{
    let x = I::from_number(at.x)?;
    let y = I::from_number(at.y)?;
    Some(IntPoint { x, y })
}

/// Whether the two ends of a record are one point.
fn has_equal_ends(given: &SegmentRecord) -> bool
    ensures { result ≡ (int_eq given.now.ax given.now.bx && int_eq given.now.ay given.now.by) }
{
    given.ax == given.bx && given.ay == given.by
}

/// The count of a record.
fn count(given: &SegmentRecord) -> ShapeCountBoolean
    ensures { boolean_winding result ≡ count_of given.now }
{
    ShapeCountBoolean {
        subj: given.subj,
        clip: given.clip,
    }
}

/// The first end of a record.
pub fn start(given: &SegmentRecord) -> IntPoint<i32>
    ensures { point_of (λ z. z) result ≡ start_of given.now }
{
    IntPoint {
        x: given.ax,
        y: given.ay,
    }
}

/// The second end of a record.
pub fn end(given: &SegmentRecord) -> IntPoint<i32>
    ensures { point_of (λ z. z) result ≡ end_of given.now }
{
    IntPoint {
        x: given.bx,
        y: given.by,
    }
}

/// The record of a segment.
pub fn told<I: Width>(segment: &BooleanSegment<I>) -> SegmentRecord
    ensures { told_by result ≡ segment_of segment.now }
{
    let ends = segment.x_segment();
    let count = segment.count();
    SegmentRecord {
        ax: ends.a.x.number(),
        ay: ends.a.y.number(),
        bx: ends.b.x.number(),
        by: ends.b.y.number(),
        subj: count.subj,
        clip: count.clip,
    }
}

/// Writes the records of segments.
pub fn write_records<I: Width>(segments: &[BooleanSegment<I>], out: &mut [SegmentRecord])
    requires { length out.old ≡ length segments.now }
    ensures { map told_by out.new ≡ segments_of segments.now }
{
    for (index, segment) in segments.iter().enumerate() {
        out[index] = told(segment);
    }
}

/// The record of a link.
pub fn link<I: Width, D: Copy>(link: &OverlayLink<I, D>) -> LinkRecord
    ensures { link_by result ≡ link_of I.whole link.now }
{
    LinkRecord {
        a_node: link.a.id,
        ax: link.a.point.x.number(),
        ay: link.a.point.y.number(),
        b_node: link.b.id,
        bx: link.b.point.x.number(),
        by: link.b.point.y.number(),
        fill: link.fill,
    }
}

/// Writes the records of links.
pub fn write_links<I: Width>(links: &[OverlayLink<I, ()>], out: &mut [LinkRecord])
    requires { length out.old ≡ length links.now }
    ensures { map link_by out.new ≡ map (link_of I.whole) links.now }
{
    for (index, each) in links.iter().enumerate() {
        out[index] = link(each);
    }
}

/// Writes the record of a link for each segment, with its fill. The ends have no numbers of nodes yet.
pub fn write_filled<I: Width>(
    segments: &[BooleanSegment<I>],
    fills: &[SegmentFill],
    out: &mut [LinkRecord],
)
    requires fills { length fills.now ≡ length segments.now }
    requires length { length out.old ≡ length segments.now }
    ensures pairs { map (λ r. (link_by r).pair) out.new ≡ pairs (segments_of segments.now) }
    ensures fills { map (λ r. r.fill) out.new ≡ fills.now }
{
    for (index, segment) in segments.iter().enumerate() {
        out[index] = filled(segment, fills[index]);
    }
}

/// The record of a link with this fill for a segment. Its ends have no numbers of nodes yet.
fn filled<I: Width>(segment: &BooleanSegment<I>, fill: SegmentFill) -> LinkRecord
    ensures pair { (link_by result).pair ≡ (segment_of segment.now).pair }
    ensures fill { result.fill ≡ fill }
{
    let ends = segment.x_segment();
    LinkRecord {
        a_node: 0,
        ax: ends.a.x.number(),
        ay: ends.a.y.number(),
        b_node: 0,
        bx: ends.b.x.number(),
        by: ends.b.y.number(),
        fill,
    }
}

/// The fill rule of a code.
pub fn fill_rule(code: u8) -> FillRule
    ensures { result ≡ fill_rule_of code }
{
    match code {
        0 => FillRule::EvenOdd,
        1 => FillRule::NonZero,
        2 => FillRule::Positive,
        _ => FillRule::Negative,
    }
}

/// The rounding of a code.
pub fn rounding(code: u8) -> Rounding
    ensures { result ≡ rounding_of code }
{
    match code {
        0 => Rounding::HotPixels,
        _ => Rounding::Pairwise,
    }
}

/// The shape of a code: the subject for 0, else the clip.
pub fn shape_type(code: u8) -> ShapeType
    ensures { result ≡ shape_of code }
{
    match code {
        0 => ShapeType::Subject,
        _ => ShapeType::Clip,
    }
}

/// The overlay rule of a code: those with names from 0 to 6, and from 16 to 31 that of a table. Any other is `Xor`.
pub fn overlay_rule(code: u8) -> OverlayRule
    ensures { IsRuleOf code result }
{
    match code {
        0 => OverlayRule::Subject,
        1 => OverlayRule::Clip,
        2 => OverlayRule::Intersect,
        3 => OverlayRule::Union,
        4 => OverlayRule::Difference,
        5 => OverlayRule::InverseDifference,
        _ => table_rule(code),
    }
}

/// The overlay rules of codes, in order.
pub fn overlay_rules(alloc: Global, codes: &[u8]) -> Result<Vec<OverlayRule>, AllocError>
    ensures { IfOk result (λ rules. AllZip IsRuleOf codes.now rules.items) }
{
    let mut rules = Vec::with_capacity(alloc, codes.len())?;
    for code in codes {
        rules.push(overlay_rule(*code))?;
    }
    Ok(rules)
}

/// The rule of a code above 5.
fn table_rule(code: u8) -> OverlayRule
    requires { 5 < code }
    ensures { IsRuleOf code result }
{
    if code < 16 {
        return OverlayRule::Xor;
    }
    match RuleTable::new(code - 16) {
        Some(table) => OverlayRule::Table(table),
        None => OverlayRule::Xor,
    }
}

/// The solver of these settings. A code of no strategy is `Auto`.
pub fn solver(settings: &SettingsRecord) -> Solver
    ensures start { result.precision.start ≡ settings.now.start }
    ensures progression { result.precision.progression ≡ settings.now.progression }
{
    let strategy = match settings.strategy {
        0 => Strategy::List,
        1 => Strategy::Tree,
        2 => Strategy::Frag,
        _ => Strategy::Auto,
    };
    let precision = Precision {
        start: settings.start,
        progression: settings.progression,
    };
    Solver {
        strategy,
        precision,
    }
}

/// How much an engine keeps of its last result.
#[repr(C)]
#[derive(Clone, Copy)]
pub struct SizesRecord {
    pub segments: usize,
    pub lines: usize,
    /// Of how many segments of polygons and lines the last `overlay_c_clip_with_numbers` left numbers.
    pub line_counts: usize,
    /// How many numbers of lines they have together.
    pub line_numbers: usize,
    pub links: usize,
    /// Of how many links there is data.
    pub link_data: usize,
    pub nodes: usize,
    pub node_links: usize,
    pub walks: usize,
    pub walk_links: usize,
    /// How many contours the last overlay of contours left, in shapes or not.
    pub contours: usize,
    /// How many points they have together.
    pub contour_points: usize,
    /// How many shapes it left: none where it was not in shapes.
    pub shapes: usize,
    /// Whether there are closed walks: the call wanted them, and an even number of links meets at each node.
    pub has_walks: bool,
    /// Whether the last `overlay_c_split` joined equal segments or split one, or, if that came later, the last
    /// `overlay_c_join` joined some. Other calls leave it as it is.
    pub has_changed: bool,
    /// How many passes the last split made, up to `u64::MAX`: 1 by snap rounding.
    pub passes: u64,
}

/// A number of 128 bits.
#[repr(C)]
#[derive(Clone, Copy)]
pub struct WordsRecord {
    /// Its lower 64 bits.
    pub low: u64,
    /// Its upper 64 bits.
    pub high: u64,
}

/// What an overlay of contours reports of its run.
#[repr(C)]
#[derive(Clone, Copy)]
pub struct ReportRecord {
    /// How many passes it made.
    pub passes: WordsRecord,
    /// How far these moved crossings at most, in `x` and in `y`, in halves of a unit.
    pub reach: WordsRecord,
}

/// The record of a number.
pub fn words(number: u128) -> WordsRecord
    ensures { number_by result ≡ number }
{
    WordsRecord {
        low: (number % WORD) as u64,
        high: (number / WORD) as u64,
    }
}
