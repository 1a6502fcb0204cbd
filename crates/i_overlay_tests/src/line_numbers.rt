// Lines that carry their numbers through splits by either rounding: each piece along which a line runs has the number of one.
ghost use Rattle.std.specs.Prelude.{◌≡◌, ◌==◌, if◌then◌else◌};

use i_overlay::prelude::*;
use overlay_base::overlay_core::edge_data::{EdgeDataMerge, EdgeDataSplit, OverlayEdgeData};
use std::alloc::Global;
use std::test::Fail;

/// The number of a line, or 0 of a polygon's side. Of two that merge, that of a line is taken.
#[derive(Clone, Copy, Debug, PartialEq, Eq)]
struct LineNumber(u32);

impl OverlayEdgeData<ShapeCountString> for LineNumber {
    type Store = ();

    ghost reversed_gives = { λ number store. (number, store) };

    ghost split_gives = { λ number _ _ _ store. ((number, number), store) };

    ghost merge_gives = { λ merged store. (if merged.lhs_count.clip == 0 then merged.rhs_data else merged.lhs_data, store) };

    fn reversed(self, _store: &mut ()) -> LineNumber {
        self
    }

    fn split<I: OverlayInt>(
        self,
        _at: EdgeDataSplit<I>,
        _store: &mut (),
    ) -> (LineNumber, LineNumber) {
        (self, self)
    }

    fn merge(merged: EdgeDataMerge<ShapeCountString, LineNumber>, _store: &mut ()) -> LineNumber
        ensures answer { result ≡ (if merged.lhs_count.clip == 0 then merged.rhs_data else merged.lhs_data) }
        ensures store { _store.new ≡ _store.old }
    {
        if merged.lhs_count.clip == 0 {
            merged.rhs_data
        } else {
            merged.lhs_data
        }
    }
}

type Step = Segment<ShapeCountString, i32, LineNumber>;

/// A step of a polygon, which has the number 0, or of a line. `None` where its ends are one point.
fn step(from: (i32, i32), to: (i32, i32), number: u32) -> Option<Step> {
    let (a, b) = (IntPoint::new(from.0, from.1), IntPoint::new(to.0, to.1));
    let shape = if number == 0 {
        ShapeType::Subject
    } else {
        ShapeType::Clip
    };
    let count = ShapeCountString::direct_count(shape);
    if a == b || !count.is_valid() {
        return None;
    }
    Some(Segment::create_and_validate_with_data(a, b, count, LineNumber(number), &mut ()))
}

/// The ends of the pieces along which lines run, with their numbers, and whether all others have the number 0. `None` where a
/// step is out of range.
fn pieces_of_lines(
    alloc: Global,
    rounding: Rounding,
    mut steps: Vec<Step>,
) -> Result<Option<(Vec<(i32, i32, i32, i32, u32)>, bool)>, Fault> {
    if !is_splittable(&steps) {
        return Ok(None);
    }
    Splitter::new(alloc, rounding).split_segments(&mut steps, &Solver::AUTO)?;
    let mut pieces = Vec::new(alloc);
    let mut are_sides = true;
    for piece in &steps {
        let (ends, number) = (piece.x_segment(), piece.edge_data().0);
        if piece.count().clip == 0 {
            are_sides = are_sides && number == 0;
        } else {
            pieces.push((ends.a.x, ends.a.y, ends.b.x, ends.b.y, number))?;
        }
    }
    Ok(Some((pieces, are_sides)))
}

/// Line 1 crosses the left side of the square at a height of 3 and 2/15, and the right side at 3 and 4/5, so it is cut at heights
/// of 3 and 4. Line 2 runs back along the lower side, where its piece and the side are one.
#[test]
fn each_piece_of_a_line_has_its_number(rt: HostRuntime) -> Result<(), Fail> {
    for rounding in [Rounding::HotPixels, Rounding::Pairwise] {
        let mut steps = Vec::new(rt.alloc());
        let corners = [(0, 0), (10, 0), (10, 10), (0, 10)];
        for (index, corner) in corners.iter().enumerate() {
            steps.push(step(*corner, corners[(index + 1) % 4], 0).ok_or("two corners")?)?;
        }
        steps.push(step((-2, 3), (13, 4), 1).ok_or("two ends")?)?;
        steps.push(step((8, 0), (2, 0), 2).ok_or("two ends")?)?;
        let (pieces, are_sides) = pieces_of_lines(rt.alloc(), rounding, steps)?.ok_or("in range")?;
        let wanted = [
            (-2, 3, 0, 3, 1),
            (0, 3, 10, 4, 1),
            (2, 0, 8, 0, 2),
            (10, 4, 13, 4, 1),
        ];
        assert!(rt; pieces.as_slice() == wanted.as_slice());
        assert!(rt; are_sides);
    }
    Ok(())
}
