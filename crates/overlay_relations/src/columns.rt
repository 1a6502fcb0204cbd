// Which of many boxes share a point with a box: boxes in columns, each with a box around its members.
ghost use Rattle.std.specs.Prelude.{◌≡◌, ◌↔◌, ◌++◌, [], ℕ, All, Contains, OnOk, IfOk, IsPermutation};
ghost use Rattle.std.specs.List.Sorted.{IsStrictlyIncreasing};
ghost use Rattle.overlay_geometry.specs.RangeOf.{rect_of};
ghost use Rattle.overlay_relations.specs.steps.Columns.{members_of, numbers_meeting, HoldsBoxes, AreAround};

use crate::boxes::bounds_with;
use overlay_geometry::geom::rect::IntRect;
use overlay_geometry::num::OverlayInt;
use std::alloc::{AllocError, Global};

/// A box, and the number of what it is around.
#[derive(Clone, Copy)]
pub(crate) struct NumberedBox<I> {
    pub(crate) number: usize,
    pub(crate) bounds: IntRect<I>,
}

/// Boxes that follow one another along x, and a box around them.
#[derive(Drop)]
pub(crate) struct Column<I> {
    pub(crate) members: Vec<NumberedBox<I>>,
    pub(crate) bounds: IntRect<I>,
}

/// The boxes in columns, by where they begin along x. There are about as many columns as boxes in each.
pub(crate) fn columns_of<I: OverlayInt>(
    alloc: Global,
    boxes: Vec<NumberedBox<I>>,
) -> Result<Vec<Column<I>>, AllocError>
    ensures members { IfOk result (λ columns. IsPermutation boxes.items (members_of columns.items)) }
    ensures around { IfOk result (λ columns. All (AreAround I.whole) columns.items) }
{
    let mut boxes = boxes;
    boxes.sort_by_key(|numbered| numbered.bounds.min_x)?;
    let size = boxes.len().isqrt() + 1;
    let mut columns = Vec::new(alloc);
    let mut rest: &[NumberedBox<I>] = &boxes;
    while !rest.is_empty() {
        let (part, later) = rest.split_at(size.min(rest.len()));
        add_column(alloc, &mut columns, part)?;
        rest = later;
    }
    Ok(columns)
}

/// Adds a column of these boxes, if there are any.
fn add_column<I: OverlayInt>(
    alloc: Global,
    columns: &mut Vec<Column<I>>,
    part: &[NumberedBox<I>],
) -> Result<(), AllocError>
    ensures members { OnOk result (members_of columns.new.items ≡ members_of columns.old.items ++ part.now) }
    ensures around { OnOk result (All (AreAround I.whole) columns.old.items → All (AreAround I.whole) columns.new.items) }
{
    let Some(bounds) = bounds_of(part) else {
        return Ok(());
    };
    let mut members = Vec::new(alloc);
    members.extend_from_slice(part)?;
    columns.push(Column { members, bounds })?;
    Ok(())
}

/// The least box around boxes.
fn bounds_of<I: OverlayInt>(boxes: &[NumberedBox<I>]) -> Option<IntRect<I>>
    ensures { HoldsBoxes I.whole boxes.now result }
{
    let mut bounds = None;
    for numbered in boxes {
        bounds = Some(bounds_with(bounds, numbered.bounds));
    }
    bounds
}

/// The numbers of the boxes that share a point with a box, in order.
pub(crate) fn find_meeting<I: OverlayInt>(
    alloc: Global,
    columns: &[Column<I>],
    bounds: &IntRect<I>,
) -> Result<Vec<usize>, AllocError>
    requires around { All (AreAround I.whole) columns.now }
    ensures increasing { IfOk result (λ numbers. IsStrictlyIncreasing numbers.items) }
    ensures meeting { IfOk result (λ numbers. (n : ℕ) → Contains numbers.items n
        ↔ Contains (numbers_meeting I.whole (rect_of I.whole bounds.now) (members_of columns.now)) n) }
{
    let mut numbers = Vec::new(alloc);
    for column in columns {
        if column.bounds.is_intersect_border_include(bounds) {
            add_meeting(&mut numbers, &column.members, bounds)?;
        }
    }
    numbers.sort()?;
    numbers.dedup();
    Ok(numbers)
}

/// Adds the numbers of those boxes that share a point with a box.
fn add_meeting<I: OverlayInt>(
    numbers: &mut Vec<usize>,
    boxes: &[NumberedBox<I>],
    bounds: &IntRect<I>,
) -> Result<(), AllocError>
    ensures { OnOk result (numbers.new.items ≡ numbers.old.items ++ numbers_meeting I.whole (rect_of I.whole bounds.now) boxes.now) }
{
    for numbered in boxes {
        if numbered.bounds.is_intersect_border_include(bounds) {
            numbers.push(numbered.number)?;
        }
    }
    Ok(())
}
