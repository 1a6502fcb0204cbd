// The laws of pixels and chains. The functions have empty bodies, and their contracts are proved for all
// whole numbers, whatever the engine.
ghost use Rattle.overlay_snapping.specs.Laws.{InequalityIsMeant, PixelsAreMetInOrder, PiecesLieNear, RoundedAreMarksOff, ChainPointsAreEndsAndMarks, MarksMeetPixels, PiecesAreApart, SnappedIsPlanar, SnappedLiesNear, PlanarHasFew, SnappedHasFew, ChainPointsAreListed, PathIsChain, CutsSnap, SnappedIsOne, SnappedIgnoresOrder, ExactSnapIsPass};

/// The test by whole numbers says whether some point of a segment lies in a pixel. A segment meets pixels in the order
/// of their points along it, so the points of a chain need no parameters to be sorted. A piece between two points whose
/// pixels a segment meets lies within half a unit of the segment, in each coordinate.
pub fn pixel_laws()
    ensures inequality { InequalityIsMeant }
    ensures order { PixelsAreMetInOrder }
    ensures distance { PiecesLieNear }
{}

/// The marks of a settling pass have all points of chains. A crossing is rounded to a point exactly where a mark lies
/// off the segment that it marks; the ends and the marks together are the points through which chains go. A segment meets
/// the pixel of each of its marks.
pub fn mark_laws()
    ensures rounded { RoundedAreMarksOff }
    ensures points { ChainPointsAreEndsAndMarks }
    ensures pixels { MarksMeetPixels }
{}

/// The result of snap rounding is planar, and it takes one pass. Two pieces of chains share at most a common end, or
/// are equal. Each lies within half a unit of its segment, in each coordinate, and on it where every crossing is a
/// whole point.
///
/// Where two pieces crossed, their ends could move back along straight lines to points of the two segments, which
/// cross there too. No end would come upon the other piece on the way, since its segment does not meet the pixel. So
/// the point to which that crossing is rounded would lie on both chains, between the ends of both pieces.
pub fn planar_laws()
    ensures pieces { PiecesAreApart }
    ensures result { SnappedIsPlanar }
    ensures near { SnappedLiesNear }
{}

/// A planar arrangement that is not empty has fewer segments than three times its end points. So the result of snap
/// rounding has at most three for each point through which chains go: the ends, and the points to which crossings are
/// rounded.
///
/// Each segment but the topmost at its start has a gap above it, up to the next one. It takes the first end in the gap:
/// as one below the upper segment, or as the end of the upper segment above the lower one. No two take one end in one
/// way, since else a segment would start in the gap, or cross one of its two sides. So each end is taken at most three
/// times: in these two ways, and by the topmost segment that starts there.
pub fn count_laws()
    ensures planar { PlanarHasFew }
    ensures result { SnappedHasFew }
    ensures points { ChainPointsAreListed }
{}

/// The path of a segment through the points between its ends at which it is cut is its chain, so a pass through these
/// points snaps. These points lie within half a unit of their segments, and on them where every crossing is a whole
/// point. There is one chain of each segment, and one result, in whatever order the segments are given. Where every
/// crossing is a whole point, that is what a settling pass leaves.
pub fn chain_laws()
    ensures path { PathIsChain }
    ensures cuts { CutsSnap }
    ensures one { SnappedIsOne }
    ensures order { SnappedIgnoresOrder }
    ensures exact { ExactSnapIsPass }
{}
