// Ranges of coordinates. Upstream: `geom::line_range`.

/// The coordinates from `min` to `max`, both included.
#[derive(Clone, Copy, Debug, PartialEq, Eq)]
pub struct LineRange<I> {
    /// The least of them.
    pub min: I,
    /// The greatest of them.
    pub max: I,
}
