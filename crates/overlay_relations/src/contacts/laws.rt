// The laws of points that shapes share. Each function has an empty body, and its contract is proved for all whole numbers.
ghost use Rattle.overlay_relations.specs.ContactLaws.{BoundariesAreEdges, CommonPointsDecide};
ghost use Rattle.overlay_relations.specs.MatrixLaws.{MatrixByRegions, CrossingBoundariesMeetAll};

/// The boundary of a shape, as its overlay returns it: a point lies on an edge of it exactly if there are points inside and
/// outside of the shape, however near to the point.
pub fn boundary_laws()
    ensures { BoundariesAreEdges }
{}

/// Where the overlay of the two boundaries moves nothing, and no point is inside both shapes, they share a point exactly if
/// the overlays by `OverlayRule::Subject` and by `OverlayRule::Clip` have one in common.
pub fn common_point_laws()
    ensures { CommonPointsDecide }
{}

/// Which of the inside, the boundary and the outside of one shape meet which of the other, where their boundaries cross at
/// integer coordinates alone: six regions of one arrangement decide it. Where edges of both cross, each meets each.
pub fn matrix_laws()
    ensures regions { MatrixByRegions }
    ensures crossings { CrossingBoundariesMeetAll }
{}
