// The lines that worked graphs and walks are built of.
ghost use Rattle.std.specs.Prelude.{◌≡◌, IsTrue};
ghost use Rattle.overlay_geometry.specs.Points.{point_lt};
ghost use Rattle.overlay_geometry.specs.Coordinates.{least_coordinate, greatest_coordinate};
ghost use Rattle.overlay_base.specs.Planar.{is_arranged};
ghost use Rattle.overlay_base.specs.SegmentOf.{segment_of, segments_of};

use overlay_base::overlay_core::solver::Solver;
use overlay_base::segm::boolean::ShapeCountBoolean;
use overlay_base::segm::segment::Segment;
use overlay_geometry::geom::point::IntPoint;

pub const STRATEGIES: [Solver; 4] = [Solver::LIST, Solver::TREE, Solver::FRAG, Solver::AUTO];

pub type Line = Segment<ShapeCountBoolean, i32, ()>;

/// A line between two points in order.
pub fn line(ax: i32, ay: i32, bx: i32, by: i32, subj: i32, clip: i32) -> Line
    requires { IsTrue (point_lt (record { x = ax; y = ay }) (record { x = bx; y = by })) }
    ensures { segment_of result ≡ record {
      pair = record
          { a = record { x = ax; y = ay }; b = record { x = bx; y = by } };
      count = record
          { subj = subj; clip = clip; mask = 0 };
    } }
{
    let a = IntPoint { x: ax, y: ay };
    let b = IntPoint { x: bx, y: by };
    let count = ShapeCountBoolean { subj, clip };
    Segment::create_and_validate_with_data(a, b, count, (), &mut ())
}

/// A subject square with corners (0, 0) and (4, 4) and a clip square with corners (2, 2) and (6, 6), split.
pub fn two_squares() -> [Line; 12]
    ensures { IsTrue (is_arranged least_coordinate greatest_coordinate (segments_of result)) }
{
    [
        line(0, 0, 0, 4, -1, 0),
        line(0, 0, 4, 0, 1, 0),
        line(0, 4, 2, 4, -1, 0),
        line(2, 2, 2, 4, 0, -1),
        line(2, 2, 4, 2, 0, 1),
        line(2, 4, 2, 6, 0, -1),
        line(2, 4, 4, 4, -1, 0),
        line(2, 6, 6, 6, 0, -1),
        line(4, 0, 4, 2, 1, 0),
        line(4, 2, 4, 4, 1, 0),
        line(4, 2, 6, 2, 0, 1),
        line(6, 2, 6, 6, 0, 1),
    ]
}

/// Two lines whose counts leave the range together.
pub fn greatest_counts() -> [Line; 2]
    ensures { IsTrue (is_arranged least_coordinate greatest_coordinate (segments_of result)) }
{
    [line(0, 0, 4, 0, i32::MAX, 0), line(0, 1, 4, 1, i32::MAX, 0)]
}
