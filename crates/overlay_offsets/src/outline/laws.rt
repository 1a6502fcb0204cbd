// The laws of outlines. Each function has an empty body, and its contract is proved for all whole numbers.
ghost use Rattle.overlay_offsets.specs.Laws.{OutlineWindsAsPieces, OutlineWindsNoLess, TriangleWindsOnce};

/// The outline of a contour winds as the contour, the parallelogram of each step, and the fan at the end of each, together:
/// at every point, on steps or not, whatever the vectors are by which steps are moved, and the ways between.
///
/// Where no step is moved to its left, and no way between turns right as seen from the vertex, each piece winds 0 or more: the
/// outline winds nowhere less than the contour.
pub fn outline_laws()
    ensures pieces { OutlineWindsAsPieces }
    ensures no_less { OutlineWindsNoLess }
{}

/// A triangle that does not turn right winds once or not at all around every point: once where the point lies on the left of
/// all its sides, and not at all where it lies on the right of one.
pub fn triangle_laws()
    ensures { TriangleWindsOnce }
{}
