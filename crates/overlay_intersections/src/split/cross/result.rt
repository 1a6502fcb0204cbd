// How two segments meet: the result of a call. Upstream: `split::cross_solver`.
use overlay_geometry::geom::point::IntPoint;

/// What the point of a result is.
#[derive(Clone, Copy, Debug, PartialEq, Eq)]
pub enum CrossType {
    /// An end of neither.
    Pure,
    /// An end of the target.
    TargetEnd,
    /// An end of the other.
    OtherEnd,
    /// Nothing: the four ends lie on one line.
    Overlay,
}

/// Where two segments meet.
#[derive(Clone, Copy, Debug)]
pub struct CrossResult<I> {
    /// Where; of no meaning where all four ends lie on one line.
    pub point: IntPoint<I>,
    /// What the point is.
    pub cross_type: CrossType,
    /// Whether the point is not the exact crossing point.
    pub is_round: bool,
}
