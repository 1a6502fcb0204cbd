// The laws of fills and graphs. Each function has an empty body, and its contract is proved for all whole numbers.
ghost use Rattle.overlay_build.specs.Laws.{SidesHavePlaces, SidesTellPlaces, FillsTellPlaces};
ghost use Rattle.overlay_build.specs.Laws.{FillsTellSides, FillsTellLines, ClipGraphsAreExact, NodesAreEven, GraphsAreValid, GraphsAreExact, GraphsEncloseRegions, GraphsBoundRegions, BoundariesAreShapes, ShapesWindAlike, RegionsAreSeenAgain, GraphsFlow, ContoursFollowLinks, FilterGivesLinks, FilterGivesData};

pub use overlay_sweep::build::laws::winding_laws;

/// A fill without a mask is kept by a truth function where it differs between the windings of the two sides.
pub fn fill_laws()
    ensures { FillsTellSides }
{}

/// With balanced counts, for every truth function of "inside the subject" and "inside the clip": an
/// even number of links meets at each node of its graph, so that it is valid, and its graph is that
/// of the segments whose two sides it separates, by the windings in the columns beside them; at
/// every place of the plane an odd number of its links runs below exactly where the function has
/// another value there than outside. Without any condition: the links that a test keeps of the
/// graph of all segments are those of the test's own graph, but for the numbers of nodes.
pub fn graph_laws()
    ensures even { NodesAreEven }
    ensures valid { GraphsAreValid }
    ensures exact { GraphsAreExact }
    ensures region { GraphsEncloseRegions }
    ensures filter { FilterGivesLinks }
{}

/// With balanced counts, for every truth function: the links of its graph, each in the direction
/// that has what the function holds of on its left, are the boundary of its region. The function
/// holds on the left of each and not on its right; at every point as many start as end; and around
/// every place of the plane they wind once where the function holds there, and not at all where it
/// does not, less what it says of places outside.
pub fn boundary_laws()
    ensures { GraphsBoundRegions }
{}

/// A result can be given again. With balanced counts, for every truth function: the links of its
/// graph, each in its direction, as segments of one shape are a planar arrangement in range and
/// with valid counts, balanced, and they wind around the region for that shape alone. Under a fill
/// rule other than `Negative` that shape is then inside exactly where the function holds, if it
/// says no of places outside.
pub fn shape_laws()
    ensures again { BoundariesAreShapes }
    ensures winds { ShapesWindAlike }
    ensures seen { RegionsAreSeenAgain }
{}

/// With balanced counts the windings of the two sides of a segment, by which its fill is made, are those of the places
/// directly beside it: just above and just below it, or to the left and to the right of a vertical one, with no other
/// segment between. There is such a place on each side of every segment of a planar arrangement, balanced or not. A
/// place winds by the segments below it, or by those that another of its rays meets.
pub fn side_laws()
    ensures places { SidesHavePlaces }
    ensures sides { SidesTellPlaces }
    ensures fills { FillsTellPlaces }
{}

/// With balanced counts, for every truth function: as many links of its graph start as end at every node, each in the
/// direction that has what the function holds of on its left. So `directed_walks` may be called.
pub fn flow_laws()
    ensures { GraphsFlow }
{}

/// The edges of the contour of a directed walk through a graph are just the links of the walk, in their directions and
/// in order.
pub fn contour_laws()
    ensures { ContoursFollowLinks }
{}

/// Whatever data segments carry: the data of the links that a test keeps of the graph of all segments is that of the
/// links of the test's own graph, in the same order.
pub fn link_data_laws<D>()
    ensures { FilterGivesData D }
{}

/// Of polygons and lines: a clip rule keeps a fill where a line runs along the segment and the rule keeps what has the
/// polygons on these sides; with balanced counts its graph is that of the parts of lines that it keeps by the windings
/// of the polygons in the columns beside them.
pub fn line_laws()
    ensures fills { FillsTellLines }
    ensures exact { ClipGraphsAreExact }
{}
