// The finder that looks segments up in a tree over their heights. Upstream: `split::solver_tree`, whose tree is
// another.
ghost use Rattle.std.specs.Prelude.{◌≡◌, ℕ, ◌<◌, ◌≤◌, ◌+◌, ◌-◌, ◌^◌, min, ◌++◌, All, true, None, IfErr, IfOk, OnOk, IfSome, OnSome, IsSome, IsSortedByKey, IsPermutation, length, map, filter, ◌==◌};
ghost use Rattle.overlay_base.specs.declared.segm.fault.Fault.TheVariants.{Memory};
ghost use Rattle.overlay_geometry.specs.Points.{pair_cmp};
ghost use Rattle.overlay_base.specs.Segments.{pairs};
ghost use Rattle.overlay_geometry.specs.PairOf.{pair_of};
ghost use Rattle.overlay_base.specs.SegmentOf.{ends_of, segments_of, pairs_in};
ghost use Rattle.overlay_intersections.specs.PassMarks.{is_rounded};
ghost use Rattle.overlay_intersections.specs.PlacingOf.{placing_of, HasRadius};
ghost use Rattle.overlay_intersections.specs.MarkOf.{AreMarks, marks_of, AreMarksOf};
ghost use Rattle.overlay_tree.specs.steps.IntervalTree.{AreRising, IsSummed, entries, stays_at};
ghost use Rattle.overlay_tree.specs.steps.NodeOf.{tree_nodes, node_of, node_entry};
ghost use Rattle.overlay_intersections.specs.Looked.{boxes_meet, count_twos, capped_sum};
ghost use Rattle.overlay_tree.specs.TreeLooks.{sweep_looks};
ghost use Rattle.overlay_tree.specs.steps.TreeSweep.{IsUnderWay, GoesOn, AreFoundBefore};
ghost use Rattle.overlay_tree.specs.steps.Swept.{alone, few, entry_at, entry_of_pair, entries_between, pair_at, marks_with_found, crosses_found};
ghost use Rattle.std.specs.List.{IsDistinct, range_with_len};
ghost use Rattle.overlay_base.specs.ArrangedOf.{AreInRange};

use crate::split::interval_tree::{Node, Query, find_meeting, insert, stays, sum_up};
use crate::split::listed_entries::find_in_list;
use overlay_base::segm::fault::Fault;
use overlay_base::segm::segment::Segment;
use overlay_base::segm::winding::WindingCount;
use overlay_geometry::geom::line_range::LineRange;
use overlay_geometry::geom::x_segment::XSegment;
use overlay_geometry::num::OverlayInt;
use overlay_intersections::split::line_mark::{LineMark, sort_marks};
use overlay_intersections::split::marking::{Indexed, mark_both};
use overlay_intersections::split::placing::Placing;
use std::alloc::{AllocError, Global};

/// The memory of the finders over a tree and over a list, kept from one pass to the next.
#[derive(Drop)]
pub struct TreeBuffers<I> {
    pub(crate) nodes: Vec<Node<I>>,
    pub(crate) found: Vec<usize>,
    /// The memory of the finder over a list.
    pub heights: Vec<LineRange<I>>,
}

impl<I> TreeBuffers<I> {
    /// Buffers that have taken no memory yet.
    pub fn new(alloc: Global) -> Self {
        TreeBuffers {
            nodes: Vec::new(alloc),
            found: Vec::new(alloc),
            heights: Vec::new(alloc),
        }
    }
}

/// Finds the marks of a pass, as `solver_list::find_marks` does, and returns whether the pass rounds. The conditions
/// are the same.
///
/// A sweep over the list keeps the segments that it has met: a few in a list, and more in a tree over their heights,
/// which is renewed from time to time, so that it has few that have ended. In a tree each segment is compared with
/// those whose heights it meets: those that end left of it are dropped, with the others it is marked. It is also
/// compared with every entry of a subtree of at most 8 that it passes over. Where fewer than 32 are live, it is
/// compared with each of them.
///
/// `looked` counts these comparisons. For `s` segments they are at most `40 * s + 9 * q`, with `q` pairs whose ranges in
/// `x` and in `y` meet. Not counted are comparisons of no pair: of heights with the roots on the way down a tree, and of
/// the ends of live segments with the `x` of the sweep, where those that have ended are taken out.
///
/// Returns `Fault::Memory` where a growth is refused; `marks` is of no use then.
pub fn find_marks<C: WindingCount, I: OverlayInt, D: Copy>(
    segments: &[Segment<C, I, D>],
    placing: Placing,
    buffers: &mut TreeBuffers<I>,
    marks: &mut Vec<LineMark<I>>,
    looked: &mut u128,
) -> Result<bool, Fault>
    requires sorted { IsSortedByKey ends_of pair_cmp segments.now }
    requires in_range { AreInRange segments.now }
    requires radius { HasRadius placing }
    ensures marks { OnOk result (AreMarksOf placing segments.now marks.new.items) }
    ensures rounded { IfOk result (λ rounded. rounded ≡ is_rounded (segments_of segments.now)) }
    ensures looked { OnOk result (looked.new ≤ looked.old + sweep_looks (pairs (segments_of segments.now))) }
    ensures each_looked { OnOk result
        (capped_sum looked.old (count_twos boxes_meet (pairs_in segments.now)) ≤ looked.new) }
    ensures fault { IfErr result (λ fault. fault ≡ Memory) }
{
    let found = find_marks_up_to(segments, placing, None, buffers, marks, looked)?;
    Ok(found.unwrap())
}

/// Finds the marks of a pass as `find_marks` does, under the same conditions. With a limit it gives up before a segment
/// that might take `looked` past it: then it returns `None`, and `marks` is of no use.
pub(crate) fn find_marks_up_to<C: WindingCount, I: OverlayInt, D: Copy>(
    segments: &[Segment<C, I, D>],
    placing: Placing,
    limit: Option<u128>,
    buffers: &mut TreeBuffers<I>,
    marks: &mut Vec<LineMark<I>>,
    looked: &mut u128,
) -> Result<Option<bool>, Fault>
    requires sorted { IsSortedByKey ends_of pair_cmp segments.now }
    requires in_range { AreInRange segments.now }
    requires radius { HasRadius placing }
    requires limit { IfSome limit (λ most. looked.old ≤ most) }
    ensures marks { IfOk result (λ found. OnSome found
        (AreMarks (placing_of placing) (segments_of segments.now) (marks_of I.whole marks.new.items))) }
    ensures rounded { IfOk result (λ found. IfSome found (λ rounded. rounded ≡ is_rounded (segments_of segments.now))) }
    ensures found { limit ≡ None → IfOk result (λ found. IsSome found) }
    ensures looked { IfOk result (λ found. OnSome found
        (looked.new ≤ looked.old + sweep_looks (pairs (segments_of segments.now)))) }
    ensures each_looked { IfOk result (λ found. OnSome found
        (min (looked.old + count_twos boxes_meet (pairs (segments_of segments.now))) (2 ^ 128 - 1) ≤ looked.new)) }
    ensures within { OnOk result (IfSome limit (λ most. looked.new ≤ most)) }
    ensures fault { IfErr result (λ fault. fault ≡ Memory) }
{
    // read, so that the checker knows that the count fits its type
    let _looked = *looked;
    let TreeBuffers { nodes, found, .. } = buffers;
    nodes.clear();
    marks.clear();
    let mut rounded = false;
    let mut until = 0;
    for index in 0..segments.len() {
        if !may_take(limit, *looked, segments.len()) {
            return Ok(None);
        }
        until = take_in(segments, index, until, nodes, found, looked)?;
        if mark_with_found(segments, found, index, placing, marks)? {
            rounded = true;
        }
    }
    sort_marks(marks)?;
    marks.dedup();
    Ok(Some(rounded))
}

/// Whether this many more pairs may be compared: within the limit, if there is one.
fn may_take(limit: Option<u128>, looked: u128, more: usize) -> bool
    ensures free { limit ≡ None → result ≡ true }
    ensures within { result ≡ true → IfSome limit (λ most. more ≤ most - looked) }
{
    match limit {
        Some(most) => more as u128 <= most.saturating_sub(looked),
        None => true,
    }
}

/// The number of live segments from which on a tree is kept. Each segment is compared with all of fewer, which costs
/// less than a tree. The bound on comparisons rests on it.
const MAX_LISTED: usize = 32;

const _: () = prove!(MAX_LISTED == 32);

/// Takes the segment at an index into the sweep: finds those before it that are live and whose heights it meets, and
/// adds it. The tree has the entries of segments up to `until`; returns up to which it has them then.
pub(crate) fn take_in<C: WindingCount, I: OverlayInt, D: Copy>(
    segments: &[Segment<C, I, D>],
    index: usize,
    until: usize,
    nodes: &mut Vec<Node<I>>,
    found: &mut Vec<usize>,
    looked: &mut u128,
) -> Result<usize, AllocError>
    requires index { index < length segments.now }
    requires sorted { IsSortedByKey ends_of pair_cmp segments.now }
    requires way { (old : ℕ) × IsUnderWay (pairs (segments_of segments.now))
        (tree_nodes I.whole nodes.old.items) old looked.old index until }
    ensures way { IfOk result (λ until'. GoesOn (pairs (segments_of segments.now)) (tree_nodes I.whole nodes.old.items)
        (tree_nodes I.whole nodes.new.items) looked.old looked.new index until until') }
    ensures found { OnOk result (AreFoundBefore (pairs (segments_of segments.now)) found.new.items index) }
    ensures looked { OnOk result (looked.new ≤ looked.old + length segments.now) }
{
    if index < until {
        take_into_tree(segments, index, until, nodes, found, looked)?;
        return Ok(until);
    }
    if nodes.len() < MAX_LISTED {
        take_into_list(segments, index, until, nodes, found, looked)?;
        return Ok(index + 1);
    }
    let further = renew(segments, index, nodes)?;
    take_into_tree(segments, index, further, nodes, found, looked)?;
    Ok(further)
}

/// The same where the tree has an entry of the segment.
fn take_into_tree<C: WindingCount, I: OverlayInt, D: Copy>(
    segments: &[Segment<C, I, D>],
    index: usize,
    until: usize,
    nodes: &mut Vec<Node<I>>,
    found: &mut Vec<usize>,
    looked: &mut u128,
) -> Result<(), AllocError>
    requires index { index < length segments.now }
    requires sorted { IsSortedByKey ends_of pair_cmp segments.now }
    requires there { index < until }
    requires way { (old : ℕ) × IsUnderWay (pairs (segments_of segments.now))
        (tree_nodes I.whole nodes.old.items) old looked.old index until }
    ensures way { OnOk result (GoesOn (pairs (segments_of segments.now)) (tree_nodes I.whole nodes.old.items)
        (tree_nodes I.whole nodes.new.items) looked.old looked.new index until until) }
    ensures found { OnOk result (AreFoundBefore (pairs (segments_of segments.now)) found.new.items index) }
    ensures looked { OnOk result (looked.new ≤ looked.old + length segments.now) }
{
    // read, so that the checker knows that the count fits its type
    let _looked = *looked;
    let later = segments[index].x_segment();
    let heights = later.y_range();
    let query = Query {
        heights,
        x: later.a.x,
    };
    let tree = nodes.as_mut_slice();
    found.clear();
    find_meeting(tree, &query, found, looked)?;
    insert(tree, heights.min, heights.max, index);
    Ok(())
}

/// The same where no entry is to come: those that have ended are taken out, the others are compared one by one.
fn take_into_list<C: WindingCount, I: OverlayInt, D: Copy>(
    segments: &[Segment<C, I, D>],
    index: usize,
    until: usize,
    nodes: &mut Vec<Node<I>>,
    found: &mut Vec<usize>,
    looked: &mut u128,
) -> Result<(), AllocError>
    requires index { index < length segments.now }
    requires sorted { IsSortedByKey ends_of pair_cmp segments.now }
    requires none { index ≡ until }
    requires few { length nodes.old.items < few }
    requires way { (old : ℕ) × IsUnderWay (pairs (segments_of segments.now))
        (tree_nodes I.whole nodes.old.items) old looked.old index until }
    ensures way { OnOk result (GoesOn (pairs (segments_of segments.now)) (tree_nodes I.whole nodes.old.items)
        (tree_nodes I.whole nodes.new.items) looked.old looked.new index until (index + 1)) }
    ensures found { OnOk result (AreFoundBefore (pairs (segments_of segments.now)) found.new.items index) }
    ensures looked { OnOk result (looked.new ≤ looked.old + length segments.now) }
{
    // read, so that the checker knows that the count fits its type
    let _looked = *looked;
    let later = segments[index].x_segment();
    let heights = later.y_range();
    let x = later.a.x;
    let query = Query { heights, x };
    drop_ended(nodes, x);
    found.clear();
    find_in_list(nodes.as_slice(), &query, found, looked)?;
    nodes.push(node_at(index, segments[index].x_segment(), true))?;
    Ok(())
}

/// The least number of segments that are added to a tree at once, where that many are left. Without a least number a
/// tree that keeps nothing would be sorted anew for every segment.
const LEAST_MORE: usize = 8;

const _: () = prove!(LEAST_MORE == 8);

/// Takes those entries out of the tree that are not live or end left of the segment at an index, and adds the entries
/// of segments from there on, none of them live. Returns up to which segment.
///
/// It adds as many as stay, but at least 8 where that many are left: so the tree stays near what is live in size, and
/// what is sorted in all is no more than a few times the segments.
pub(crate) fn renew<C: WindingCount, I: OverlayInt, D: Copy>(
    segments: &[Segment<C, I, D>],
    from: usize,
    nodes: &mut Vec<Node<I>>,
) -> Result<usize, AllocError>
    requires { from < length segments.now }
    ensures further { IfOk result (λ until. from < until) }
    ensures within { IfOk result (λ until. until ≤ length segments.now) }
    ensures rising { OnOk result (IsDistinct (λ i j. i == j)
        (map (λ e. e.index) (entries (tree_nodes I.whole nodes.new.items)))
        → AreRising (entries (tree_nodes I.whole nodes.new.items))) }
    ensures summed { OnOk result (IsSummed (tree_nodes I.whole nodes.new.items)) }
    ensures listed { IfOk result (λ until. (let ps = pairs (segments_of segments.now) in
        let staying = filter (stays_at (pair_at ps from).a.x) (entries (tree_nodes I.whole nodes.old.items)) in
        IsPermutation (staying ++ entries_between ps from until) (entries (tree_nodes I.whole nodes.new.items)))) }
{
    let first = segments[from].x_segment();
    drop_ended(nodes, first.a.x);
    let until = from + count_more(segments.len() - from, nodes.len());
    push_nodes(segments, from, until, nodes)?;
    nodes.sort_unstable_by_key(|node| (node.low, node.index));
    sum_up(nodes.as_mut_slice());
    Ok(until)
}

/// Leaves those entries that are live and do not end left of an `x`.
fn drop_ended<I: OverlayInt>(nodes: &mut Vec<Node<I>>, x: I)
    ensures { nodes.new.items ≡ filter (λ n. stays_at (I.whole x) (node_entry I.whole n)) nodes.old.items }
{
    nodes.retain(|node| stays(node, x));
}

/// How many of the segments that are left to add to a tree that has kept this many entries. One at least has to be
/// left.
fn count_more(left: usize, kept: usize) -> usize
    requires { 0 < left }
    ensures some { 0 < result }
    ensures within { result ≤ left }
{
    let wanted = if kept < LEAST_MORE { LEAST_MORE } else { kept };
    if left < wanted { left } else { wanted }
}

/// Appends the nodes of the segments from an index up to another.
fn push_nodes<C: WindingCount, I: OverlayInt, D: Copy>(
    segments: &[Segment<C, I, D>],
    from: usize,
    until: usize,
    nodes: &mut Vec<Node<I>>,
) -> Result<(), AllocError>
    requires order { from ≤ until }
    requires within { until ≤ length segments.now }
    ensures { OnOk result (tree_nodes I.whole nodes.new.items ≡ tree_nodes I.whole nodes.old.items
        ++ map (λ i. alone (entry_at (pairs (segments_of segments.now)) i)) (range_with_len from (until - from))) }
{
    for index in from..until {
        nodes.push(node_at(index, segments[index].x_segment(), false))?;
    }
    Ok(())
}

/// A node of one segment, with no subtrees yet.
fn node_at<I: OverlayInt>(index: usize, segment: XSegment<I>, is_live: bool) -> Node<I>
    ensures { node_of I.whole result
        ≡ alone (record (entry_of_pair index (pair_of I.whole segment)) { is_live = is_live }) }
{
    let heights = segment.y_range();
    Node {
        low: heights.min,
        high: heights.max,
        end_x: segment.b.x,
        index,
        is_live,
        greatest: None,
    }
}

/// Appends the marks that a segment and each of those found before it put on one another, and returns whether it
/// crosses one of them at a point without whole coordinates.
pub(crate) fn mark_with_found<C: WindingCount, I: OverlayInt, D: Copy>(
    segments: &[Segment<C, I, D>],
    found: &[usize],
    index: usize,
    placing: Placing,
    marks: &mut Vec<LineMark<I>>,
) -> Result<bool, AllocError>
    requires index { index < length segments.now }
    requires found { All (λ earlier. earlier < index) found.now }
    requires sorted { IsSortedByKey ends_of pair_cmp segments.now }
    requires in_range { AreInRange segments.now }
    requires radius { HasRadius placing }
    ensures marks { OnOk result (marks_of I.whole marks.new.items ≡ marks_of I.whole marks.old.items
        ++ marks_with_found (placing_of placing) (pairs (segments_of segments.now)) index found.now) }
    ensures rounded { IfOk result (λ rounded. rounded ≡ crosses_found
        (pairs (segments_of segments.now)) index found.now) }
{
    let second = Indexed {
        index,
        x_segment: segments[index].x_segment(),
    };
    let mut rounded = false;
    for earlier in found {
        let first = Indexed {
            index: *earlier,
            x_segment: segments[*earlier].x_segment(),
        };
        if mark_both(first, second, placing, marks)? {
            rounded = true;
        }
    }
    Ok(rounded)
}
