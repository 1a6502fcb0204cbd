// A tree over the heights of segments that are met by a sweep, for look-ups by a range of heights.
// It is one list: the root in the middle, its subtrees before and after it.
ghost use Rattle.std.specs.Prelude.{◌≡◌, ◌+◌, ◌-◌, ◌^◌, ◌==◌, ◌++◌, [], ◌∷◌, map, length, count_by, min, int_lt, nat_lt};
ghost use Rattle.std.specs.Prelude.{true, not, ◌&&◌, ◌||◌, IsFalse, Some, IfOk, OnOk};
ghost use Rattle.std.specs.List.{AllByRecursion, list_any};
ghost use Rattle.overlay_tree.specs.steps.IntervalTree.{AreRising, IsSummed, IsAt, IsUpTo, entries, greatest_height, further};
ghost use Rattle.overlay_tree.specs.steps.IntervalTree.{found, inserted, is_dropped, is_reached, is_taken_up, left_by, stays_at};
ghost use Rattle.overlay_tree.specs.steps.NodeOf.{node_entry, highest_of, tree_nodes, query_of, node_entries, entries_left, found_in, HasLookedIn, drops_some};
ghost use Rattle.overlay_intersections.specs.Looked.{capped_sum};

use overlay_geometry::geom::line_range::LineRange;
use overlay_geometry::num::OverlayInt;
use overlay_intersections::split::looks::take_up;
use std::alloc::AllocError;

/// The entry of a segment, and the greatest height of the live entries of its subtree.
#[derive(Clone, Copy, Debug)]
pub struct Node<I> {
    pub index: usize,
    pub low: I,
    pub high: I,
    pub end_x: I,
    pub greatest: Option<I>,
    pub is_live: bool,
}

/// A look-up: the heights that it meets, and where the sweep is.
#[derive(Clone, Copy, Debug)]
pub struct Query<I> {
    pub heights: LineRange<I>,
    pub x: I,
}

/// Appends the indexes of the live entries whose heights meet those of the look-up, and that do not end left of the
/// sweep. Those that do are dropped. Returns whether one was: if not, nothing is written to the nodes.
#[cycle(find_meeting)]
pub fn find_meeting<I: OverlayInt>(
    nodes: &mut [Node<I>],
    query: &Query<I>,
    indexes: &mut Vec<usize>,
    looked: &mut u128,
) -> Result<bool, AllocError>
    requires rising { AreRising (node_entries I.whole nodes.old) }
    requires summed { IsSummed (tree_nodes I.whole nodes.old) }
    ensures entries { OnOk result (node_entries I.whole nodes.new ≡ entries_left I.whole query.now nodes.old) }
    ensures summed { OnOk result (IsSummed (tree_nodes I.whole nodes.new)) }
    ensures found { OnOk result (indexes.new.items ≡ indexes.old.items ++ found_in I.whole query.now nodes.old) }
    ensures looked { OnOk result (HasLookedIn I.whole query.now nodes.old looked.old looked.new) }
    ensures dropped { IfOk result (λ dropped. dropped ≡ drops_some I.whole query.now nodes.old) }
{
    // read, so that the checker knows that the count fits its type
    let _looked = *looked;
    if !reaches(greatest_in(nodes), query.heights.min) {
        return Ok(false);
    }
    if nodes.len() <= MAX_SCANNED_NODES {
        find_in_few_nodes(nodes, query, indexes, looked)
    } else {
        find_in_subtree(nodes, query, indexes, looked)
    }
}

/// The most nodes of a subtree that are passed over one by one, which takes less time than to descend. The bound on
/// comparisons rests on it.
const MAX_SCANNED_NODES: usize = 8;

const _: () = prove!(MAX_SCANNED_NODES == 8);

/// As `find_meeting`, node by node. Each node is compared, and counted.
fn find_in_few_nodes<I: OverlayInt>(
    nodes: &mut [Node<I>],
    query: &Query<I>,
    indexes: &mut Vec<usize>,
    looked: &mut u128,
) -> Result<bool, AllocError>
    requires { IsSummed (tree_nodes I.whole nodes.old) }
    ensures entries { OnOk result (node_entries I.whole nodes.new ≡ entries_left I.whole query.now nodes.old) }
    ensures summed { OnOk result (IsSummed (tree_nodes I.whole nodes.new)) }
    ensures found { OnOk result (indexes.new.items ≡ indexes.old.items ++ found_in I.whole query.now nodes.old) }
    ensures looked { OnOk result (looked.new ≡ capped_sum looked.old (length nodes.old)) }
    ensures dropped { IfOk result (λ dropped. dropped ≡ drops_some I.whole query.now nodes.old) }
{
    *looked = looked.saturating_add(nodes.len() as u128);
    let mut has_dropped = false;
    for place in 0..nodes.len() {
        has_dropped |= visit_any_node(&mut nodes[place], query, indexes)?;
    }
    if has_dropped {
        sum_up(nodes);
    }
    Ok(has_dropped)
}

/// Compares the entry of a node, where it is live and the look-up meets its heights: drops it where it ends left of the
/// sweep, and else appends its index. Returns whether it is dropped.
#[inline(always)]
fn visit_any_node<I: OverlayInt>(
    node: &mut Node<I>,
    query: &Query<I>,
    indexes: &mut Vec<usize>,
) -> Result<bool, AllocError>
    ensures entry { OnOk result (node_entry I.whole node.new
        ≡ left_by (query_of I.whole query.now) (node_entry I.whole node.old)) }
    ensures greatest { OnOk result (node.new.greatest ≡ node.old.greatest) }
    ensures found { OnOk result (indexes.new.items
        ≡ indexes.old.items ++ found (query_of I.whole query.now) (node_entry I.whole node.old ∷ [])) }
    ensures dropped { IfOk result (λ dropped. dropped ≡ is_dropped (query_of I.whole query.now)
        (node_entry I.whole node.old)) }
{
    if is_above(node.low, query.heights.max) {
        return Ok(false);
    }
    if !is_met_from_below(node, query) {
        return Ok(false);
    }
    drop_or_find(node, query, indexes)
}

/// As `find_meeting`, without the test that some live entry reaches the look-up.
#[cycle(find_meeting)]
fn find_in_subtree<I: OverlayInt>(
    nodes: &mut [Node<I>],
    query: &Query<I>,
    indexes: &mut Vec<usize>,
    looked: &mut u128,
) -> Result<bool, AllocError>
    requires rising { AreRising (entries (tree_nodes I.whole nodes.old)) }
    requires summed { IsSummed (tree_nodes I.whole nodes.old) }
    ensures entries { OnOk result (node_entries I.whole nodes.new ≡ entries_left I.whole query.now nodes.old) }
    ensures summed { OnOk result (IsSummed (tree_nodes I.whole nodes.new)) }
    ensures found { OnOk result (indexes.new.items ≡ indexes.old.items ++ found_in I.whole query.now nodes.old) }
    ensures looked { OnOk result (HasLookedIn I.whole query.now nodes.old looked.old looked.new) }
    ensures dropped { IfOk result (λ dropped. dropped ≡ drops_some I.whole query.now nodes.old) }
{
    // read, so that the checker knows that the count fits its type
    let _looked = *looked;
    let (left, rest) = nodes.split_at_mut(nodes.len() / 2);
    let Some((root, right)) = rest.split_first_mut() else {
        return Ok(false);
    };
    let mut has_dropped = find_meeting(left, query, indexes, looked)?;
    if !is_above(root.low, query.heights.max) {
        has_dropped |= visit_node(root, query, indexes, looked)?;
        has_dropped |= find_meeting(right, query, indexes, looked)?;
    }
    if has_dropped {
        update_greatest(left, root, right);
    }
    Ok(has_dropped)
}

/// Whether some live entry reaches the height.
fn reaches<I: OverlayInt>(greatest: Option<I>, low: I) -> bool
    ensures { result ≡ is_reached (highest_of I.whole greatest) (I.whole low) }
{
    match greatest {
        Some(high) => low <= high,
        None => false,
    }
}

/// Whether one height lies above another.
fn is_above<I: OverlayInt>(low: I, high: I) -> bool
    ensures { result ≡ int_lt (I.whole high) (I.whole low) }
{
    high < low
}

/// Compares the entry of a node that does not begin above the look-up, where it is live and reaches it: drops it where
/// it ends left of the sweep, and else appends its index. Returns whether it is dropped.
#[inline(always)]
fn visit_node<I: OverlayInt>(
    node: &mut Node<I>,
    query: &Query<I>,
    indexes: &mut Vec<usize>,
    looked: &mut u128,
) -> Result<bool, AllocError>
    requires low { IsFalse (int_lt (I.whole query.now.heights.max) (I.whole node.old.low)) }
    ensures entry { OnOk result (node_entry I.whole node.new
        ≡ left_by (query_of I.whole query.now) (node_entry I.whole node.old)) }
    ensures greatest { OnOk result (node.new.greatest ≡ node.old.greatest) }
    ensures found { OnOk result (indexes.new.items
        ≡ indexes.old.items ++ found (query_of I.whole query.now) (node_entry I.whole node.old ∷ [])) }
    ensures looked { OnOk result (looked.new
        ≡ min (looked.old + count_by (is_taken_up (query_of I.whole query.now)) (node_entry I.whole node.old ∷ []))
        (2 ^ 128 - 1)) }
    ensures dropped { IfOk result (λ dropped. dropped ≡ is_dropped (query_of I.whole query.now)
        (node_entry I.whole node.old)) }
{
    // read, so that the checker knows that the count fits its type
    let _looked = *looked;
    if !is_met_from_below(node, query) {
        return Ok(false);
    }
    take_up(looked);
    drop_or_find(node, query, indexes)
}

/// Drops the entry of a node that is taken up where it ends left of the sweep, and else appends its index. Returns
/// whether it is dropped.
#[inline(always)]
fn drop_or_find<I: OverlayInt>(
    node: &mut Node<I>,
    query: &Query<I>,
    indexes: &mut Vec<usize>,
) -> Result<bool, AllocError>
    requires taken { is_taken_up (query_of I.whole query.now) (node_entry I.whole node.old) ≡ true }
    ensures entry { OnOk result (node_entry I.whole node.new
        ≡ left_by (query_of I.whole query.now) (node_entry I.whole node.old)) }
    ensures greatest { OnOk result (node.new.greatest ≡ node.old.greatest) }
    ensures found { OnOk result (indexes.new.items
        ≡ indexes.old.items ++ found (query_of I.whole query.now) (node_entry I.whole node.old ∷ [])) }
    ensures dropped { IfOk result (λ dropped. dropped ≡ is_dropped (query_of I.whole query.now)
        (node_entry I.whole node.old)) }
{
    if has_ended(node, query.x) {
        node.is_live = false;
        return Ok(true);
    }
    indexes.push(node.index)?;
    Ok(false)
}

/// Whether the entry of a node that does not begin above the look-up is live and reaches it.
fn is_met_from_below<I: OverlayInt>(node: &Node<I>, query: &Query<I>) -> bool
    requires { IsFalse (int_lt (I.whole query.now.heights.max) (I.whole node.now.low)) }
    ensures { result ≡ is_taken_up (query_of I.whole query.now) (node_entry I.whole node.now) }
{
    node.is_live && !(node.high < query.heights.min)
}

/// Whether the entry of a node ends left of an `x`.
pub(crate) fn has_ended<I: OverlayInt>(node: &Node<I>, x: I) -> bool
    ensures { result ≡ int_lt (node_entry I.whole node.now).end_x (I.whole x) }
{
    node.end_x < x
}

/// Makes the entry of a segment live. It is found by its least height and its index, and there has to be one.
pub fn insert<I: OverlayInt>(nodes: &mut [Node<I>], low: I, high: I, index: usize)
    requires rising { AreRising (node_entries I.whole nodes.old) }
    requires summed { IsSummed (tree_nodes I.whole nodes.old) }
    requires low { AllByRecursion (IsAt index (I.whole low)) (node_entries I.whole nodes.old) }
    requires high { AllByRecursion (IsUpTo index (I.whole high)) (node_entries I.whole nodes.old) }
    requires there { list_any (λ e. e.index == index) (node_entries I.whole nodes.old) ≡ true }
    ensures entries { node_entries I.whole nodes.new ≡ map (inserted index) (node_entries I.whole nodes.old) }
    ensures summed { IsSummed (tree_nodes I.whole nodes.new) }
{
    let (left, rest) = nodes.split_at_mut(nodes.len() / 2);
    let Some((root, right)) = rest.split_first_mut() else {
        return;
    };
    raise(root, high);
    if index == root.index {
        root.is_live = true;
    } else if stands_before(low, index, root) {
        insert(left, low, high, index);
    } else {
        insert(right, low, high, index);
    }
}

/// Raises the greatest height of a root to that of an entry that is to be live in its subtree.
fn raise<I: OverlayInt>(root: &mut Node<I>, high: I)
    ensures entry { node_entry I.whole root.new ≡ node_entry I.whole root.old }
    ensures greatest { highest_of I.whole root.new.greatest
        ≡ further (highest_of I.whole root.old.greatest) (Some (I.whole high)) }
{
    root.greatest = further(root.greatest, Some(high));
}

/// Whether an entry comes before that of a node, by its low end and then by its index.
fn stands_before<I: OverlayInt>(low: I, index: usize, node: &Node<I>) -> bool
    ensures { result ≡ (int_lt (I.whole low) (I.whole node.now.low)
        || not (int_lt (I.whole node.now.low) (I.whole low)) && nat_lt index node.now.index) }
{
    low < node.low || !(node.low < low) && index < node.index
}

/// Sets every greatest height, from the subtrees up.
pub fn sum_up<I: OverlayInt>(nodes: &mut [Node<I>])
    ensures entries { node_entries I.whole nodes.new ≡ node_entries I.whole nodes.old }
    ensures summed { IsSummed (tree_nodes I.whole nodes.new) }
{
    let (left, rest) = nodes.split_at_mut(nodes.len() / 2);
    let Some((root, right)) = rest.split_first_mut() else {
        return;
    };
    sum_up(left);
    sum_up(right);
    update_greatest(left, root, right);
}

/// Whether an entry is live and does not end left of an `x`.
pub fn stays<I: OverlayInt>(node: &Node<I>, x: I) -> bool
    ensures { result ≡ stays_at (I.whole x) (node_entry I.whole node.now) }
{
    node.is_live && !(node.end_x < x)
}

/// Sets the greatest height of a root, from its subtrees and its own entry.
fn update_greatest<I: OverlayInt>(left: &[Node<I>], root: &mut Node<I>, right: &[Node<I>])
    requires left { IsSummed (tree_nodes I.whole left.now) }
    requires right { IsSummed (tree_nodes I.whole right.now) }
    ensures entry { node_entry I.whole root.new ≡ node_entry I.whole root.old }
    ensures greatest { highest_of I.whole root.new.greatest
        ≡ greatest_height (entries (tree_nodes I.whole left.now)
        ++ node_entry I.whole root.old ∷ entries (tree_nodes I.whole right.now)) }
{
    let own = if root.is_live { Some(root.high) } else { None };
    root.greatest = further(greatest_in(left), further(own, greatest_in(right)));
}

/// The greatest height of the live entries of a tree.
fn greatest_in<I: OverlayInt>(nodes: &[Node<I>]) -> Option<I>
    requires { IsSummed (tree_nodes I.whole nodes.now) }
    ensures { highest_of I.whole result ≡ greatest_height (entries (tree_nodes I.whole nodes.now)) }
{
    match nodes.get(nodes.len() / 2) {
        Some(root) => root.greatest,
        None => None,
    }
}

/// The greater of two heights that may be missing.
fn further<I: OverlayInt>(a: Option<I>, b: Option<I>) -> Option<I>
    ensures { highest_of I.whole result ≡ further (highest_of I.whole a) (highest_of I.whole b) }
{
    match (a, b) {
        (Some(x), Some(y)) => Some(if x < y { y } else { x }),
        (Some(_), None) => a,
        (None, _) => b,
    }
}
