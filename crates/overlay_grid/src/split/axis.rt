// The axis along which the fragments of a column are scanned. This project's own; upstream goes along `y` alone.
ghost use Rattle.std.specs.Prelude.{◌≡◌};
ghost use Rattle.overlay_grid.specs.FragmentOf.{on_axis};

use overlay_geometry::geom::rect::IntRect;
use overlay_geometry::num::OverlayInt;

/// One of the two axes.
#[derive(Clone, Copy)]
pub enum Axis {
    /// From left to right.
    X,
    /// From the lowest up.
    Y,
}

impl Axis {
    /// Where a rectangle begins along this axis.
    pub fn least<I: OverlayInt>(self, rect: &IntRect<I>) -> I
        ensures { result ≡ on_axis self rect.now.min_x rect.now.min_y }
    {
        match self {
            Axis::X => rect.min_x,
            Axis::Y => rect.min_y,
        }
    }

    /// Where it ends.
    pub fn greatest<I: OverlayInt>(self, rect: &IntRect<I>) -> I
        ensures { result ≡ on_axis self rect.now.max_x rect.now.max_y }
    {
        match self {
            Axis::X => rect.max_x,
            Axis::Y => rect.max_y,
        }
    }
}
