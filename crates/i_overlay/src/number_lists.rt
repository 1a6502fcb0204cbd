// The numbers of lines, as data of segments: each segment has those of all given lines that run along it. This project's own.
ghost use Rattle.std.specs.Prelude.{◌≡◌, IfOk, OnOk, IsTrue, map, length, flat_map};
ghost use Rattle.std.specs.List.{range_with_len};
ghost use Rattle.i_overlay.specs.NumberLists.{numbers_in, named_in, IsWhole, numbered, with_index, appended, gathered};
ghost use Rattle.overlay_base.specs.SegmentOf.{segment_of, segments_of, data_segment_of, data_segments_of};

use overlay_base::overlay_core::edge_data::{EdgeDataMerge, EdgeDataSplit, OverlayEdgeData};
use overlay_base::segm::segment::Segment;
use overlay_base::segm::string::ShapeCountString;
use overlay_geometry::num::OverlayInt;
use std::alloc::{AllocError, Global};

/// The lines that run along a segment: so many numbers, from an index on in a `NumberLists`.
#[derive(Clone, Copy, Debug, PartialEq, Eq)]
pub struct NumberList {
    /// The index of the first number.
    pub start: usize,
    /// How many numbers there are.
    pub count: usize,
}

/// Lists of numbers, one behind another, in a table that does not grow. What has no room there is counted and not kept.
#[derive(Default, Drop)]
pub struct NumberLists {
    numbers: Option<Vec<usize>>,
    used: usize,
}

impl NumberLists {
    /// A table of so much room, in which each number below `count` is in use at its own index.
    pub fn with_room(alloc: Global, count: usize, room: usize) -> Result<NumberLists, AllocError>
        ensures numbers { IfOk result (λ lists. numbers_in lists ≡ range_with_len 0 room) }
        ensures used { IfOk result (λ lists. lists.used ≡ count) }
    {
        let mut numbers = Vec::new(alloc);
        numbers.reserve(room)?;
        for number in 0..room {
            numbers.push(number)?;
        }
        Ok(NumberLists {
            numbers: Some(numbers),
            used: count,
        })
    }

    /// The numbers of lines.
    fn list(&self, lines: NumberList) -> &[usize]
        ensures { result.now ≡ named_in (numbers_in self.now) lines }
    {
        match &self.numbers {
            None => &[],
            Some(numbers) => {
                let start = lines.start.min(numbers.len());
                let count = lines.count.min(numbers.len() - start);
                &numbers[start..start + count]
            }
        }
    }

    /// How much room all lists take.
    pub fn used(&self) -> usize {
        self.used
    }

    /// Whether there was room for all.
    pub fn is_whole(&self) -> bool
        ensures { IsTrue result → IsWhole self.now }
    {
        let room = match &self.numbers {
            None => 0,
            Some(numbers) => numbers.len(),
        };
        self.used <= room && self.used < usize::MAX
    }

    /// Copies a list behind all others, if there is room.
    fn append(&mut self, lines: NumberList)
        ensures { self.new ≡ appended lines self.old }
    {
        if let Some(numbers) = &mut self.numbers {
            copy_list(numbers, lines, self.used);
        }
        self.used = self.used.saturating_add(lines.count);
    }

    /// Appends two lists, and returns both as one.
    fn gather(&mut self, first: NumberList, second: NumberList) -> NumberList
        ensures answer { result ≡ (gathered first second self.old).0 }
        ensures store { self.new ≡ (gathered first second self.old).1 }
    {
        if first.count == 0 {
            return second;
        }
        if second.count == 0 {
            return first;
        }
        let start = self.used;
        self.append(first);
        self.append(second);
        NumberList {
            start,
            count: first.count.saturating_add(second.count),
        }
    }
}

ghost use Rattle.i_overlay.specs.NumberLists.{written};

/// A side of polygons or a step of lines, with the numbers of the lines that run along it.
pub type NumberedSegment<I> = Segment<ShapeCountString, I, NumberList>;

/// The same without numbers.
pub type StringSegment<I> = Segment<ShapeCountString, I, ()>;

/// Numbers segments: each along which a line runs has its index, and the others no number.
pub fn number_lines<I: OverlayInt>(
    given: &[StringSegment<I>],
    list: &mut Vec<NumberedSegment<I>>,
) -> Result<(), AllocError>
    ensures { OnOk result (data_segments_of list.new.items ≡ numbered (segments_of given.now)) }
{
    list.clear();
    list.reserve(given.len())?;
    for (index, segment) in given.iter().enumerate() {
        list.push(with_number(segment, index))?;
    }
    Ok(())
}

/// A segment with a number, if a line runs along it.
fn with_number<I: OverlayInt>(segment: &StringSegment<I>, number: usize) -> NumberedSegment<I>
    ensures { data_segment_of result ≡ with_index number (segment_of segment.now) }
{
    let (ends, count) = (segment.x_segment(), segment.count());
    let lines = NumberList {
        start: number,
        count: usize::from(count.clip != 0),
    };
    let mut unused = NumberLists::default();
    Segment::create_and_validate_with_data(ends.a, ends.b, count, lines, &mut unused)
}

/// Keeps segments without their numbers.
pub fn keep_segments<I: OverlayInt>(
    list: &[NumberedSegment<I>],
    kept: &mut Vec<StringSegment<I>>,
) -> Result<(), AllocError>
    ensures { OnOk result (segments_of kept.new.items ≡ segments_of list.now) }
{
    kept.clear();
    kept.reserve(list.len())?;
    for segment in list {
        kept.push(without_numbers(segment))?;
    }
    Ok(())
}

/// A segment without its numbers.
fn without_numbers<I: OverlayInt>(segment: &NumberedSegment<I>) -> StringSegment<I>
    ensures { segment_of result ≡ segment_of segment.now }
{
    let ends = segment.x_segment();
    Segment::create_and_validate_with_data(ends.a, ends.b, segment.count(), (), &mut ())
}

/// Keeps the numbers of segments: how many each has, and all of them, segment by segment.
pub fn keep_numbers<I: OverlayInt>(
    list: &[NumberedSegment<I>],
    lists: &NumberLists,
    counts: &mut Vec<usize>,
    numbers: &mut Vec<usize>,
) -> Result<(), AllocError>
    ensures counts { OnOk result (counts.new.items
        ≡ map length (map (λ s. named_in (numbers_in lists.now) s.edge_data) (data_segments_of list.now))) }
    ensures numbers { OnOk result (numbers.new.items
        ≡ flat_map (λ s. named_in (numbers_in lists.now) s.edge_data) (data_segments_of list.now)) }
{
    counts.clear();
    counts.reserve(list.len())?;
    numbers.clear();
    for segment in list {
        let found = lists.list(segment.edge_data());
        counts.push(found.len())?;
        numbers.extend_from_slice(found)?;
    }
    Ok(())
}

/// Copies a list to an index, if there is room for it.
fn copy_list(numbers: &mut Vec<usize>, lines: NumberList, to: usize)
    ensures { numbers.new ≡ written lines to numbers.old }
{
    let end = lines.start.saturating_add(lines.count);
    let room = numbers.len();
    if end <= room && to <= room && lines.count <= room - to {
        numbers.as_mut_slice().copy_within(lines.start..end, to);
    }
}

impl OverlayEdgeData<ShapeCountString> for NumberList {
    type Store = NumberLists;

    ghost reversed_gives = { λ lines store. (lines, store) };

    ghost split_gives = { λ lines _ _ _ store. ((lines, lines), store) };

    ghost merge_gives = { λ merged store. gathered merged.lhs_data merged.rhs_data store };

    fn reversed(self, _store: &mut NumberLists) -> NumberList {
        self
    }

    fn split<I: OverlayInt>(
        self,
        _at: EdgeDataSplit<I>,
        _store: &mut NumberLists,
    ) -> (NumberList, NumberList) {
        (self, self)
    }

    fn merge(
        merged: EdgeDataMerge<ShapeCountString, NumberList>,
        store: &mut NumberLists,
    ) -> NumberList
        ensures answer { result ≡ (gathered merged.lhs_data merged.rhs_data store.old).0 }
        ensures store { store.new ≡ (gathered merged.lhs_data merged.rhs_data store.old).1 }
    {
        store.gather(merged.lhs_data, merged.rhs_data)
    }
}
