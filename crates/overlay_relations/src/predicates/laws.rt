// The laws of two shapes. Each function has an empty body, and its contract is proved for all whole numbers.
ghost use Rattle.overlay_relations.specs.Laws.{CrossingBoundariesMeet, InexactBoundariesCross, ExactBoundariesDecide, ResultsCrossExactly};

/// Two shapes without inexact crossings: where edges of their boundaries cross, their interiors meet, neither covers the other,
/// and some points are in neither. They cross so wherever an arrangement of both has a crossing without integer coordinates.
pub fn crossing_laws()
    ensures meet { CrossingBoundariesMeet }
    ensures cross { InexactBoundariesCross }
{}

/// Where the overlay of the two boundaries by a rule moves nothing, it is empty exactly if the rule holds at no point that is
/// on no edge of the two shapes.
pub fn exact_laws()
    ensures { ExactBoundariesDecide }
{}

/// No two edges of what an overlay returns cross at a point without integer coordinates, whatever the overlay rounded. So a
/// relation takes it.
pub fn result_laws()
    ensures { ResultsCrossExactly }
{}
