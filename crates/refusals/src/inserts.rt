// Segments inserted into live segments, and found there.
ghost use Rattle.std.specs.Prelude.{◌≡◌, ◌*◌, ◌<◌, ℤ, pos, ◌≤ℤ◌};
ghost use Rattle.overlay_base.specs.BooleanWinding.{boolean_winding};
ghost use Rattle.overlay_sweep.specs.steps.LevelRows.{level_row, AreRows};

use crate::case::{Case, Stop, Summary, refused};
use i_overlay::build::live_segments::LiveSegments;
use i_overlay::geom::point::IntPoint;
use i_overlay::geom::v_segment::VSegment;
use i_overlay::segm::boolean::ShapeCountBoolean;
use i_overlay::segm::fault::Fault;
use std::alloc::Global;

/// Inserts into live segments. One that is refused empties them, also where they hold others already.
#[derive(Drop)]
pub struct Insert<L> {
    live: L,
}

impl<L> Insert<L> {
    /// Inserts into these live segments.
    pub fn new(live: L) -> Insert<L> {
        Insert { live }
    }
}

impl<L: LiveSegments<ShapeCountBoolean, i32> + Drop> Case for Insert<L> {
    fn try_once(&mut self, _alloc: Global) -> Result<Summary, Stop> {
        self.live.clear();
        let mut inserted = Ok(());
        for row in 0..ROWS {
            inserted = insert_row(&mut self.live, row);
            if inserted.is_err() {
                break;
            }
        }
        let sum = sum_below_rows(&mut self.live);
        match inserted {
            Ok(()) => Ok(Summary {
                count: usize::try_from(sum).unwrap_or(0),
                others: 0,
                digest: i64::from(sum),
            }),
            Err(fault) => Err(refused(fault, sum == 0)),
        }
    }
}

/// How many segments are inserted: more than the live segments take room for at once.
const ROWS: u16 = 40;

/// The height of a row.
fn height(row: u16) -> i32
    requires { row < 40 }
    ensures { result ≡ pos (2 * row) }
{
    2 * i32::from(row)
}

/// The sum of a row: row + 1 in the subject.
fn row_sum(row: u16) -> ShapeCountBoolean
    requires { row < 40 }
    ensures { boolean_winding result ≡ (level_row row).count }
{
    ShapeCountBoolean {
        subj: i32::from(row) + 1,
        clip: 0,
    }
}

/// Inserts the segment of a row, from (0, 2 row) to (10, 2 row), with the sum row + 1.
fn insert_row<L: LiveSegments<ShapeCountBoolean, i32>>(live: &mut L, row: u16) -> Result<(), Fault>
    requires few { row < 40 }
    requires rows { AreRows (pos 0) (L.sums live.old) }
    requires time { (y : ℤ) → pos 0 ≤ℤ y → L.may_go_on_at live.old y }
    ensures rows { AreRows (pos 0) (L.sums live.new) }
    ensures time { (y : ℤ) → pos 0 ≤ℤ y → L.may_go_on_at live.new y }
{
    let y = height(row);
    let segment = VSegment {
        a: IntPoint { x: 0, y },
        b: IntPoint { x: 10, y },
    };
    live.insert(segment, row_sum(row), 0)
}

/// The sum on the segment below (5, 100), or 0 where there is none.
fn sum_below_rows<L: LiveSegments<ShapeCountBoolean, i32>>(live: &mut L) -> i32
    requires rows { AreRows (pos 0) (L.sums live.old) }
    requires time { (y : ℤ) → pos 0 ≤ℤ y → L.may_go_on_at live.old y }
{
    let p = IntPoint { x: 5, y: 100 };
    live.sum_below(p.x, p, ShapeCountBoolean { subj: 0, clip: 0 })
        .subj
}
