// Look-ups among a few entries, one after another, where a tree would be worth less than it costs.
ghost use Rattle.std.specs.Prelude.{◌≡◌, ◌+◌, ◌-◌, ◌^◌, ◌++◌, [], ◌∷◌, length, min, OnOk};
ghost use Rattle.overlay_tree.specs.steps.IntervalTree.{found, is_taken_up};
ghost use Rattle.overlay_tree.specs.steps.NodeOf.{node_entry, query_of, found_in};

use crate::split::interval_tree::{Node, Query, has_ended};
use overlay_geometry::num::OverlayInt;
use overlay_intersections::split::looks::take_up;
use std::alloc::AllocError;

/// Appends the indexes that `find_meeting` finds, by a test of each node, in any order of the nodes. Drops none. `looked`
/// counts each node, whether its heights are met or not.
pub fn find_in_list<I: OverlayInt>(
    nodes: &[Node<I>],
    query: &Query<I>,
    indexes: &mut Vec<usize>,
    looked: &mut u128,
) -> Result<(), AllocError>
    ensures found { OnOk result (indexes.new.items ≡ indexes.old.items ++ found_in I.whole query.now nodes.now) }
    ensures looked { OnOk result (looked.new ≡ min (looked.old + length nodes.now) (2 ^ 128 - 1)) }
{
    // a count of its own, so that no comparison is written through the reference
    let mut count = *looked;
    for place in 0..nodes.len() {
        visit_listed(&nodes[place], query, indexes, &mut count)?;
    }
    *looked = count;
    Ok(())
}

/// Compares the entry of a node, and appends its index where it is live, the look-up meets its heights, and it does not
/// end left of the sweep.
fn visit_listed<I: OverlayInt>(
    node: &Node<I>,
    query: &Query<I>,
    indexes: &mut Vec<usize>,
    looked: &mut u128,
) -> Result<(), AllocError>
    ensures found { OnOk result (indexes.new.items
        ≡ indexes.old.items ++ found (query_of I.whole query.now) (node_entry I.whole node.now ∷ [])) }
    ensures looked { OnOk result (looked.new ≡ min (looked.old + 1) (2 ^ 128 - 1)) }
{
    take_up(looked);
    if !is_met(node, query) {
        return Ok(());
    }
    if has_ended(node, query.x) {
        return Ok(());
    }
    indexes.push(node.index)?;
    Ok(())
}

/// Whether the entry of a node is live, and a look-up meets its heights.
fn is_met<I: OverlayInt>(node: &Node<I>, query: &Query<I>) -> bool
    ensures { result ≡ is_taken_up (query_of I.whole query.now) (node_entry I.whole node.now) }
{
    node.is_live && !(node.high < query.heights.min) && !(query.heights.max < node.low)
}
