// The join of a sorted list: each run of segments on one pair of ends becomes one segment, or none where the counts
// cancel. Upstream: `segm::merge`.
ghost use Rattle.std.specs.Prelude.{◌≡◌, ◌+◌, ◌<◌, ◌≤◌, ◌↔◌, [], ◌++◌, length, take, drop, All, vec_len, true, false, IsTrue, IsErr, IfOk, OnOk, IfErr, OnErr, MatchResult, IsSortedByKey};
ghost use Rattle.overlay_base.specs.declared.segm.fault.Fault.TheVariants.{CountOutOfRange};
ghost use Rattle.overlay_geometry.specs.Points.{pair_cmp, pair_eq};
ghost use Rattle.overlay_base.specs.Windings.{add, is_count_in_range, is_valid};
ghost use Rattle.overlay_base.specs.Join.{join, join_leaves_range, has_equal_neighbors};
ghost use Rattle.overlay_base.specs.EdgeData.{merged, kept_sum};
ghost use Rattle.overlay_base.specs.HooksOf.{hooks_of};
ghost use Rattle.overlay_base.specs.SegmentOf.{ends_of, winding_of, segments_of, data_segment_of, data_segments_of};
ghost use Rattle.overlay_base.specs.DataOf.{HasDataOfJoin, IsJoinStore, StopsMerge};

use crate::overlay_core::edge_data::{EdgeDataMerge, OverlayEdgeData};
use crate::segm::fault::Fault;
use crate::segm::segment::Segment;
use crate::segm::winding::WindingCount;
use overlay_geometry::num::OverlayInt;

/// Joins each run of segments on one pair of ends, from left to right: counts are added, then the data's hook `merge`
/// is called. A segment whose count is empty is dropped. Returns whether two neighbors had one pair.
///
/// The list has to be sorted, with valid counts; `sort_by_ab` sorts it.
///
/// Returns `Fault::CountOutOfRange` exactly where a running sum of the counts on one pair leaves
/// `-i32::MAX..=i32::MAX`. The list is empty then, and the store is what the hooks called before that sum left.
pub fn merge_if_needed_with_store<C: WindingCount, I: OverlayInt, D: OverlayEdgeData<C>>(
    list: &mut Vec<Segment<C, I, D>>,
    store: &mut D::Store,
) -> Result<bool, Fault>
    requires sorted { IsSortedByKey ends_of pair_cmp list.old.items }
    requires valid { All (λ s. IsTrue (is_valid (winding_of s))) list.old.items }
    ensures geometry { OnOk result (segments_of list.new.items ≡ join (segments_of list.old.items)) }
    ensures edge_data { OnOk result (HasDataOfJoin D.OverlayEdgeData.own list.old store.old list.new) }
    ensures store { OnOk result (IsJoinStore D.OverlayEdgeData.own list.old store.old store.new) }
    ensures repeated { IfOk result (λ repeated. repeated ≡ has_equal_neighbors (segments_of list.old.items)) }

    ensures refused { IsErr result ↔ IsTrue (join_leaves_range (segments_of list.old.items)) }
    ensures fault { IfErr result (λ fault. fault ≡ CountOutOfRange) }
    ensures emptied { OnErr result (list.new.items ≡ []) }
    ensures stopped { OnErr result (StopsMerge D.OverlayEdgeData.own list.old store.old store.new) }
{
    if list.is_empty() {
        return Ok(false);
    }
    let count = list.len();
    let mut held = list[0];
    let mut kept = 0;
    let mut repeated = false;
    for index in 1..count {
        let next = list[index];
        if has_same_ends(&held, &next) {
            repeated = true;
            match joined(held, next, store) {
                Ok(sum) => held = sum,
                Err(fault) => {
                    list.clear();
                    return Err(fault);
                }
            }
        } else {
            kept = keep(list, kept, held);
            held = next;
        }
    }
    kept = keep(list, kept, held);
    list.truncate(kept);
    Ok(repeated)
}

/// Whether two segments have both ends in common.
pub(crate) fn has_same_ends<C: WindingCount, I: OverlayInt, D: Copy>(
    left: &Segment<C, I, D>,
    right: &Segment<C, I, D>,
) -> bool
    ensures { result ≡ pair_eq (ends_of left.now) (ends_of right.now) }
{
    left.x_segment() == right.x_segment()
}

/// Two segments on one pair of ends as one.
fn joined<C: WindingCount, I: OverlayInt, D: OverlayEdgeData<C>>(
    left: Segment<C, I, D>,
    right: Segment<C, I, D>,
    store: &mut D::Store,
) -> Result<Segment<C, I, D>, Fault>
    ensures value { MatchResult result
        (λ sum. let hooks = hooks_of C.counted D.OverlayEdgeData.own in
        (is_count_in_range (add (winding_of left) (winding_of right)) ≡ true)
        × (data_segment_of sum ≡ (merged hooks (data_segment_of left) (data_segment_of right) store.old).0)
        × (store.new ≡ (merged hooks (data_segment_of left) (data_segment_of right) store.old).1))
        (λ fault. (fault ≡ CountOutOfRange) × (is_count_in_range (add (winding_of left) (winding_of right)) ≡ false)
        × (store.new ≡ store.old)) }
{
    let lhs_count = left.count();
    let rhs_count = right.count();
    let out_count = lhs_count.add(rhs_count)?;
    let merge = EdgeDataMerge {
        lhs_data: left.edge_data(),
        lhs_count,
        rhs_data: right.edge_data(),
        rhs_count,
        out_count,
    };
    let edge_data = D::merge(merge, store);
    Ok(left.with_count_and_data(out_count, edge_data))
}

/// Writes a segment behind those that are kept, unless its count is empty, and returns how many are kept then.
fn keep<C: WindingCount, I: OverlayInt, D: Copy>(
    list: &mut Vec<Segment<C, I, D>>,
    kept: usize,
    segment: Segment<C, I, D>,
) -> usize
    requires { kept < vec_len list.old }
    ensures kept { data_segments_of (take result list.new.items) ≡ data_segments_of (take kept list.old.items)
        ++ kept_sum (data_segment_of segment) }
    ensures bound { result ≤ kept + 1 }
    ensures rest { drop (kept + 1) list.new.items ≡ drop (kept + 1) list.old.items }
    ensures len { length list.new.items ≡ length list.old.items }
{
    if !segment.count().is_not_empty() {
        return kept;
    }
    list[kept] = segment;
    kept + 1
}
