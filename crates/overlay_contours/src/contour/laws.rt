// The laws of contours. Each function has an empty body, and its contract is proved for all whole numbers.
ghost use Rattle.overlay_contours.specs.Laws.{PaintsByEvenOdd, ContoursTakeLinks, ContoursWindAsLinks, AreasAddUp, ExclusiveAreasAddUp};

/// An odd number of edges of contours runs below a place exactly where they run around it an odd
/// number of times: what is painted is what is inside by the even-odd rule.
pub fn even_odd_laws()
    ensures { PaintsByEvenOdd }
{}

/// The contours of directed walks through a graph: their edges, as they run, are the links of the
/// graph in their directions, each once. So they wind around every place of the plane as these
/// links do.
pub fn walk_laws()
    ensures edges { ContoursTakeLinks }
    ensures winds { ContoursWindAsLinks }
{}

/// The areas of overlays of the same contours, under one fill rule and one splitting: those of the union and of the
/// intersection add up to those of the subject and of the clip, and that of the exclusive or is the union's less the
/// intersection's. So they do whatever was rounded, as each is a sum over the same arrangement.
pub fn area_laws()
    ensures areas { AreasAddUp }
    ensures exclusive { ExclusiveAreasAddUp }
{}
