// The laws of crossings, and of the marks that they stand for. Each function has an empty body, and its
// contract is proved for all whole numbers, whatever the engine.
ghost use Rattle.overlay_intersections.specs.Laws.{AnswersAreMarks, NoMarkIsAnEnd, NeverThreeZeros, ExactIsOnBothLines, TargetDoesNotMatter, PointsLieInBothBoxes, SnappedEndsAreOffTheLine, NoEndOfBoth, RoundingsAreAsMeant};

/// The result for two pairs, the smaller as target, is the marks that a pass puts on both, and no
/// mark is an end of the pair that it marks.
pub fn mark_laws()
    ensures answers { AnswersAreMarks }
    ensures ends { NoMarkIsAnEnd }
{}

/// Never just three of the four turns of two pairs are 0. A crossing is exact where its point lies on both lines;
/// whether it is, and where it settles, does not depend on which of the two is the target. Its points lie in the boxes
/// of both. An end that it snaps to never lies on the other's line. No point is an end of both, so where it settles is
/// an end of at most one.
pub fn crossing_laws()
    ensures turns { NeverThreeZeros }
    ensures exact { ExactIsOnBothLines }
    ensures target { TargetDoesNotMatter }
    ensures boxes { PointsLieInBothBoxes }
    ensures snapped_ends { SnappedEndsAreOffTheLine }
    ensures settled_ends { NoEndOfBoth }
{}

/// The quotients by which offsets become whole are what is meant by them, and no other number is: the nearest whole
/// number, of two as near the one farther from 0; the number with its rest cut off; the floor of one half more.
pub fn rounding_laws()
    ensures { RoundingsAreAsMeant }
{}
