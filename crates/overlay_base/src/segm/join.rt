// The join of a list in any order. Upstream: the sort and the merge with which `split::solver` begins, and with which
// each of its passes ends.
ghost use Rattle.std.specs.Prelude.{◌≡◌, [], All, IsTrue, IsFalse, IfOk, OnOk, IfErr, OnErr};
ghost use Rattle.overlay_base.specs.declared.segm.fault.Fault.TheVariants.{Memory};
ghost use Rattle.overlay_base.specs.Windings.{is_valid};
ghost use Rattle.overlay_base.specs.Join.{join, join_leaves_range, has_equal_pairs};
ghost use Rattle.overlay_base.specs.EdgeData.{IsMadeFrom};
ghost use Rattle.overlay_base.specs.HooksOf.{hooks_of};
ghost use Rattle.overlay_base.specs.SegmentOf.{winding_of, segments_of};
ghost use Rattle.overlay_base.specs.DataOf.{HasDataOfJoin, IsJoinStore, StopsJoin};
ghost use Rattle.overlay_base.specs.FaultOf.{OnTooLarge};

use crate::overlay_core::edge_data::OverlayEdgeData;
use crate::segm::early::join_early;
use crate::segm::fault::Fault;
use crate::segm::merge::merge_if_needed_with_store;
use crate::segm::segment::Segment;
use crate::segm::sort::sort_by_ab_in_parts;
use crate::segm::winding::WindingCount;
use overlay_geometry::num::OverlayInt;

/// Sorts a list by pair of ends, then joins the segments on one pair. Counts have to be valid. Returns whether two
/// segments had one pair. Where the data has one value, segments on one pair are joined before the sort, if many are.
///
/// Returns `Fault::CountOutOfRange` only where a running sum of the counts on one pair leaves
/// `-i32::MAX..=i32::MAX`, and, memory being found, wherever one does; the store is then what the hooks called before
/// that sum left. Returns `Fault::Memory` where a growth is refused; the store is then as it was. Where a call is
/// refused the list is empty. This project's own: upstream sorts and merges in each place.
pub fn join_with_store<C: WindingCount, I: OverlayInt, D: OverlayEdgeData<C>>(
    list: &mut Vec<Segment<C, I, D>>,
    store: &mut D::Store,
) -> Result<bool, Fault>
    requires { All (λ s. IsTrue (is_valid (winding_of s))) list.old.items }
    ensures geometry { OnOk result (segments_of list.new.items ≡ join (segments_of list.old.items)) }
    ensures edge_data { OnOk result (HasDataOfJoin D.OverlayEdgeData.own list.old store.old list.new) }
    ensures store { OnOk result (IsJoinStore D.OverlayEdgeData.own list.old store.old store.new) }
    ensures repeated { IfOk result (λ repeated. repeated ≡ has_equal_pairs (segments_of list.old.items)) }

    ensures fits { OnOk result (IsFalse (join_leaves_range (segments_of list.old.items))) }
    ensures refused { OnTooLarge result (IsTrue (join_leaves_range (segments_of list.old.items))) }
    ensures emptied { OnErr result (list.new.items ≡ []) }
    ensures stopped { OnTooLarge result (StopsJoin D.OverlayEdgeData.own list.old store.old store.new) }
    ensures store_kept { IfErr result (λ fault. fault ≡ Memory → store.new ≡ store.old) }
    ensures store_made { IsMadeFrom (hooks_of C.counted D.OverlayEdgeData.own) store.old store.new }
{
    let mut repeated = false;
    if D::has_one_value() {
        match join_early(list) {
            Ok(joined) => repeated = joined,
            Err(_) => {
                list.clear();
                return Err(Fault::Memory);
            }
        }
    }
    Ok(join_in_parts_with_store(list, &[], store)? | repeated)
}

/// Joins a list as `join_with_store` does, where the list is sorted part by part first, as by `sort_by_ab_in_parts`.
/// What is joined, returned and refused does not depend on the places. This project's own.
pub fn join_in_parts_with_store<C: WindingCount, I: OverlayInt, D: OverlayEdgeData<C>>(
    list: &mut Vec<Segment<C, I, D>>,
    places: &[usize],
    store: &mut D::Store,
) -> Result<bool, Fault>
    requires { All (λ s. IsTrue (is_valid (winding_of s))) list.old.items }
    ensures geometry { OnOk result (segments_of list.new.items ≡ join (segments_of list.old.items)) }
    ensures edge_data { OnOk result (HasDataOfJoin D.OverlayEdgeData.own list.old store.old list.new) }
    ensures store { OnOk result (IsJoinStore D.OverlayEdgeData.own list.old store.old store.new) }
    ensures repeated { IfOk result (λ repeated. repeated ≡ has_equal_pairs (segments_of list.old.items)) }

    ensures fits { OnOk result (IsFalse (join_leaves_range (segments_of list.old.items))) }
    ensures refused { OnTooLarge result (IsTrue (join_leaves_range (segments_of list.old.items))) }
    ensures emptied { OnErr result (list.new.items ≡ []) }
    ensures stopped { OnTooLarge result (StopsJoin D.OverlayEdgeData.own list.old store.old store.new) }
    ensures store_kept { IfErr result (λ fault. fault ≡ Memory → store.new ≡ store.old) }
    ensures store_made { IsMadeFrom (hooks_of C.counted D.OverlayEdgeData.own) store.old store.new }
{
    sort_by_ab_in_parts(list, places)?;
    merge_if_needed_with_store(list, store)
}
