// The hooks that a join calls.

ghost use Rattle.std.specs.Prelude.{All, IsTrue};
ghost use Rattle.overlay_base.specs.Windings.{is_valid};
ghost use Rattle.overlay_base.specs.SegmentOf.{winding_of};

use overlay_base::overlay_core::edge_data::{EdgeDataMerge, EdgeDataSplit, OverlayEdgeData};
use overlay_base::segm::boolean::ShapeCountBoolean;
use overlay_base::segm::join::join_with_store;
use overlay_base::segm::segment::Segment;
use overlay_base::segm::winding::WindingCount;
use overlay_geometry::geom::point::IntPoint;
use overlay_geometry::geom::x_segment::XSegment;
use overlay_geometry::num::OverlayInt;
use std::process::Abort;
use std::test::Fail;

/// Data of a user: a number, and a store that keeps the last call of `merge` and whether data was reversed.
#[derive(Clone, Copy, Debug, PartialEq, Eq)]
struct Tag(u32);

#[derive(Drop, Default)]
struct Calls {
    reversed: bool,
    merged: Option<EdgeDataMerge<ShapeCountBoolean, Tag>>,
}

impl OverlayEdgeData<ShapeCountBoolean> for Tag {
    type Store = Calls;

    ghost use Rattle.std.specs.Prelude.{◌≡◌, Some, true};

    ghost reversed_gives = { λ tag store. (tag, record store { reversed = true }) };

    ghost split_gives = { λ tag _ _ _ store. ((tag, tag), store) };

    ghost merge_gives = { λ merged store. (merged.lhs_data, record store { merged = Some merged }) };

    fn reversed(self, store: &mut Calls) -> Tag {
        store.reversed = true;
        self
    }

    fn split<I: OverlayInt>(self, _at: EdgeDataSplit<I>, _store: &mut Calls) -> (Tag, Tag) {
        (self, self)
    }

    fn merge(merged: EdgeDataMerge<ShapeCountBoolean, Tag>, store: &mut Calls) -> Tag
        ensures answer { result ≡ merged.lhs_data }
        ensures store { store.new ≡ record store.old { merged = Some merged } }
    {
        let tag = merged.lhs_data;
        store.merged = Some(merged);
        tag
    }
}

type Tagged = Segment<ShapeCountBoolean, i32, Tag>;

/// A segment along the axis with a tag, or `None` where its ends are one point.
fn tagged(
    from: i32,
    to: i32,
    count: ShapeCountBoolean,
    tag: u32,
    calls: &mut Calls,
) -> Option<Tagged> {
    let (a, b) = (IntPoint::new(from, 0), IntPoint::new(to, 0));
    if a == b || !count.is_valid() {
        return None;
    }
    Some(Segment::create_and_validate_with_data(a, b, count, Tag(tag), calls))
}

/// Whether each count is valid.
fn are_valid(list: &[Tagged]) -> bool
    ensures { IsTrue result → All (λ s. IsTrue (is_valid (winding_of s))) list.now }
{
    list.iter().all(|segment| segment.count().is_valid())
}

/// What the hook `merge` is given of the two segments of the test.
fn is_merge_of_both(merged: EdgeDataMerge<ShapeCountBoolean, Tag>) -> bool {
    merged.lhs_data == Tag(1)
        && merged.lhs_count == ShapeCountBoolean::new(0, 1)
        && merged.rhs_data == Tag(2)
        && merged.rhs_count == ShapeCountBoolean::new(1, 0)
        && merged.out_count == ShapeCountBoolean::new(1, 1)
}

/// Two segments on one pair, the second one turned.
#[test]
fn hooks(rt: HostRuntime) -> Result<(), Fail> {
    let mut calls = Calls::default();
    let mut list = Vec::new(rt.alloc());
    let first = tagged(2, 4, ShapeCountBoolean::new(0, 1), 1, &mut calls);
    list.push(first.ok_or("two ends")?)?;
    assert!(rt; !calls.reversed);
    let second = tagged(4, 2, ShapeCountBoolean::new(-1, 0), 2, &mut calls);
    list.push(second.ok_or("two ends")?)?;
    assert!(rt; calls.reversed && are_valid(&list));
    assert!(rt; join_with_store(&mut list, &mut calls)? && list.len() == 1);
    let joined = list.first().copied().ok_or("an empty list")?;
    let ends = XSegment {
        a: IntPoint::new(2, 0),
        b: IntPoint::new(4, 0),
    };
    assert!(rt; joined.x_segment() == ends && joined.edge_data() == Tag(1));
    assert!(rt; joined.count() == ShapeCountBoolean::new(1, 1));
    assert!(rt; is_merge_of_both(calls.merged.ok_or("no merge")?));
    Ok(())
}
