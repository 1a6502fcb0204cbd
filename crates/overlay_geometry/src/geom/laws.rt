// The laws of turns, of the orders of points and pairs, and of points on a segment. Each function has an empty body,
// and its contract is proved for all whole numbers, whatever the engine.
ghost use Rattle.overlay_geometry.specs.Laws.{TurnRotates, TurnChangesSign, TurnIsUnmoved, TurnSplits, PointsAreOrdered, PairsAreOrdered, LiesOnByOrder, LiesInsideByOrder};

/// The turn of three points rotates with them, changes its sign where two of them change places, does not change by a
/// translation, and splits at a fourth point. Literature: the exterior product of plane vectors.
pub fn turn_laws()
    ensures rotates { TurnRotates }
    ensures changes_sign { TurnChangesSign }
    ensures unmoved { TurnIsUnmoved }
    ensures splits { TurnSplits }
{}

/// Points, and pairs of points, are totally ordered, and compare as equal exactly where they are equal.
pub fn order_laws()
    ensures points { PointsAreOrdered }
    ensures pairs { PairsAreOrdered }
{}

/// A point lies on an ordered pair exactly where it turns by 0 and lies from `a` up to `b` in the
/// order of points, and strictly inside exactly where it turns by 0 and lies between them.
pub fn on_segment_laws()
    ensures lies_on { LiesOnByOrder }
    ensures lies_inside { LiesInsideByOrder }
{}
