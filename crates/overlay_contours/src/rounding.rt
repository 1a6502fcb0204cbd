// Where an overlay of contours puts crossings that are no whole points. This project's own.

/// Where an overlay puts the crossings of edges that have no whole coordinates.
#[derive(Clone, Copy, Debug, PartialEq, Eq)]
pub enum Rounding {
    /// By snap rounding, in one pass: a crossing goes to the whole point whose pixel it lies in, and the edges that meet
    /// the pixel of such a point go through that point. No edge moves by more than half a unit, in `x` and in `y`, and few
    /// nearly parallel edges leave few segments.
    HotPixels,
    /// As upstream does: pass after pass, each crossing by itself, up to a pass in which every crossing is whole. How far
    /// edges move, and how many segments are left, depends on all of them. Six nearly parallel edges can leave hundreds
    /// of thousands of segments.
    Pairwise,
}
