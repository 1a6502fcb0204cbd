// Data of given segments, which is handed through to links.
ghost use Rattle.std.specs.Prelude.{◌≡◌, ◌≢◌, [], IsTrue, IsFalse, IfOk, IfErr, IfSome, OnOk, OnErr, is_some, map};
ghost use Rattle.std.specs.List.{list_all};
ghost use Rattle.overlay_base.specs.ArrangedOf.{IsSplittable};
ghost use Rattle.overlay_base.specs.SegmentOf.{segment_of, segments_of, data_segment_of, data_segments_of};
ghost use Rattle.overlay_base.specs.declared.segm.fault.Fault.TheVariants.{CountOutOfRange};
ghost use Rattle.overlay_c.specs.Kept.{are_usable, IsSplitRefusal};
ghost use Rattle.overlay_c.specs.Records.{asks, asked_by};
ghost use Rattle.overlay_c.specs.Tags.{untagged, tagged_by, with_tag};
ghost use Rattle.overlay_c.specs.Status.{OnUnusable};
ghost use Rattle.overlay_c.specs.declared.refusal.Refusal.TheVariants.{Refused, NotSplittable};

use crate::records::{BooleanSegment, SegmentRecord, asked};
use crate::refusal::Refusal;
use crate::width::Width;
use overlay_base::overlay_core::edge_data::{EdgeDataMerge, EdgeDataSplit, OverlayEdgeData};
use overlay_base::overlay_core::link::OverlayLink;
use overlay_base::segm::boolean::ShapeCountBoolean;
use overlay_base::segm::segment::Segment;
use overlay_geometry::num::OverlayInt;
use std::alloc::AllocError;

/// A number that a caller gives a segment. Parts have that of the whole, and of segments that are merged the first one's
/// is kept.
#[repr(C)]
#[derive(Clone, Copy, Debug, PartialEq, Eq)]
pub struct Tag {
    pub number: u64,
}

impl OverlayEdgeData<ShapeCountBoolean> for Tag {
    type Store = ();

    ghost reversed_gives = { λ tag store. (tag, store) };

    ghost split_gives = { λ tag _ _ _ store. ((tag, tag), store) };

    ghost merge_gives = { λ merged store. (merged.lhs_data, store) };

    fn reversed(self, _store: &mut ()) -> Tag {
        self
    }

    fn split<I: OverlayInt>(self, _at: EdgeDataSplit<I>, _store: &mut ()) -> (Tag, Tag) {
        (self, self)
    }

    fn merge(merged: EdgeDataMerge<ShapeCountBoolean, Tag>, _store: &mut ()) -> Tag
        ensures answer { result ≡ merged.lhs_data }
        ensures store { _store.new ≡ _store.old }
    {
        merged.lhs_data
    }
}

/// A segment of polygons with its number.
pub type TaggedSegment<I> = Segment<ShapeCountBoolean, I, Tag>;

/// A segment, and the number that is handed through to its links.
#[repr(C)]
#[derive(Clone, Copy)]
pub struct TaggedRecord {
    pub segment: SegmentRecord,
    pub tag: Tag,
}

/// Loads the segments that records describe, with their numbers, where these may be split; else the
/// list is empty.
pub fn load_splittable<I: Width>(
    given: &[TaggedRecord],
    list: &mut Vec<TaggedSegment<I>>,
) -> Result<(), Refusal>
    ensures segments { OnOk result (data_segments_of list.new.items ≡ tagged_by given.now) }
    ensures splittable { OnOk result (IsSplittable list.new.items) }
    ensures usable { OnOk result (IsTrue (are_usable (I.whole I.MIN_COORD) (I.whole I.MAX_COORD)
        (untagged given.now))) }
    ensures unusable { OnUnusable result (IsFalse (are_usable (I.whole I.MIN_COORD) (I.whole I.MAX_COORD) (untagged given.now))) }
    ensures no_count { IfErr result (λ refusal. refusal ≢ Refused CountOutOfRange) }
    ensures refused { IfErr result IsSplitRefusal }
    ensures emptied { OnErr result (list.new.items ≡ []) }
{
    let loaded = try_load(given, list);
    if loaded.is_err() {
        list.clear();
    }
    loaded
}

/// Loads as `load_splittable` does; a refused load may leave anything.
fn try_load<I: Width>(
    given: &[TaggedRecord],
    list: &mut Vec<TaggedSegment<I>>,
) -> Result<(), Refusal>
    ensures segments { OnOk result (data_segments_of list.new.items ≡ tagged_by given.now) }
    ensures splittable { OnOk result (IsSplittable list.new.items) }
    ensures usable { OnOk result (IsTrue (are_usable (I.whole I.MIN_COORD) (I.whole I.MAX_COORD)
        (untagged given.now))) }
    ensures unusable { OnUnusable result (IsFalse (are_usable (I.whole I.MIN_COORD) (I.whole I.MAX_COORD) (untagged given.now))) }
    ensures no_count { IfErr result (λ refusal. refusal ≢ Refused CountOutOfRange) }
    ensures refused { IfErr result IsSplitRefusal }
{
    if !load(given, list)? {
        return Err(Refusal::NotSplittable);
    }
    Ok(())
}

/// Loads the segments that records describe, with their numbers. Returns whether each describes
/// one.
fn load<I: Width>(
    records: &[TaggedRecord],
    list: &mut Vec<TaggedSegment<I>>,
) -> Result<bool, AllocError>
    ensures asks { IfOk result (λ all. all ≡ list_all (λ r. asks (I.whole I.MIN_COORD) (I.whole I.MAX_COORD) r.segment)
        records.now) }
    ensures segments { IfOk result (λ all. IsTrue all → data_segments_of list.new.items ≡ tagged_by records.now) }
{
    list.clear();
    for given in records {
        match asked_with_tag(given) {
            Some(segment) => list.push(segment)?,
            None => return Ok(false),
        }
    }
    Ok(true)
}

/// The segment that a record describes, with its number. `None` where the ends are equal or a count
/// is `i32::MIN`.
fn asked_with_tag<I: Width>(given: &TaggedRecord) -> Option<TaggedSegment<I>>
    ensures asks { is_some result ≡ asks (I.whole I.MIN_COORD) (I.whole I.MAX_COORD) given.now.segment }
    ensures segment { IfSome result (λ s. data_segment_of s ≡ with_tag (asked_by given.now.segment) given.now.tag) }
{
    asked(&given.segment, given.tag, &mut ())
}

/// Keeps segments without their numbers; where memory is refused, none.
pub fn keep_untagged<I: Width>(
    tagged: &[TaggedSegment<I>],
    kept: &mut Vec<BooleanSegment<I>>,
) -> Result<(), AllocError>
    ensures kept { OnOk result (segments_of kept.new.items ≡ segments_of tagged.now) }
    ensures emptied { OnErr result (kept.new.items ≡ []) }
{
    let outcome = push_untagged(tagged, kept);
    if outcome.is_err() {
        kept.clear();
    }
    outcome
}

/// Keeps as `keep_untagged` does; a refusal may leave anything.
fn push_untagged<I: Width>(
    tagged: &[TaggedSegment<I>],
    kept: &mut Vec<BooleanSegment<I>>,
) -> Result<(), AllocError>
    ensures { OnOk result (segments_of kept.new.items ≡ segments_of tagged.now) }
{
    kept.clear();
    for segment in tagged {
        kept.push(untagged(segment))?;
    }
    Ok(())
}

/// A segment without its number.
fn untagged<I: Width>(segment: &TaggedSegment<I>) -> BooleanSegment<I>
    ensures { segment_of result ≡ segment_of segment.now }
{
    let ends = segment.x_segment();
    Segment::create_and_validate_with_data(ends.a, ends.b, segment.count(), (), &mut ())
}

/// Keeps the numbers of links.
pub fn keep_tags<I: Width>(
    links: &[OverlayLink<I, Tag>],
    kept: &mut Vec<Tag>,
) -> Result<(), AllocError>
    ensures { OnOk result (kept.new.items ≡ map (λ l. l.edge_data) links.now) }
{
    kept.clear();
    for link in links {
        kept.push(link.edge_data)?;
    }
    Ok(())
}
