// The laws of passes and of runs. Each function has an empty body, and its contract is proved for all whole numbers,
// all lists and all hooks, whatever the engine.
ghost use Rattle.overlay_split.specs.Laws.{NumbersAreOdd, PiecesTelescope, PassKeepsLosses, PassKeepsBalance, RunKeepsBalance, RunKeepsPolygons, UnmarkedAreApart, PassHasOldOrMarked, PartHasTheMarks};
ghost use Rattle.overlay_cuts.specs.Laws.{CutKeepsBalance, CutIsMap, CutIsSplittable, CutStaysNear, CutPiecesStayNear, CutKeepsWinding, CutStaysInBox, BoxesAreMeant, DataCutIsBeside, UnmarkedDataCutIsUnchanged, DataCutKeepsWhatHooksKeep, DataCutNamesWhatIsNear, ExactPassIsPlanar, RootIsMeant, RootOfPower, CrossingLiesOnBoth, MarkIsNear, JoinKeepsWinding, StaysInBox, DataIsBeside, UnmarkedDataIsUnchanged, ArrangedDataIsUnchanged, DataKeepsWhatHooksKeep, DataNamesWhatIsNear};
ghost use Rattle.overlay_split.specs.Laws.{UnmarkedCutIsUnchanged, CutKeepsPolygons, CutKeepsWhatWinds, CutKeepsLines, CutKeepsWindingNearLines};
ghost use Rattle.overlay_split.specs.Laws.{SettlingLowers, RunEnds, RunIsOne, PlanarPassIsUnchanged, RunIsPlanar, ArrangedIsUnchanged, ResultIsUnchanged};
ghost use Rattle.overlay_split.specs.Laws.{NearEndsAreEnough, DistancesAddUp, PassStaysNear, PiecesStayNear, RunStaysNear, LinesAreKept, RunKeepsLines, ReachIsBounded, LastPassReachesNothing, ExactInputReachesNothing};
ghost use Rattle.overlay_split.specs.Laws.{PassOnOneSide, PassKeepsWinding, RunKeepsWinding, RunKeepsWindingNearLines, ExactInputKeepsWinding};
ghost use Rattle.overlay_split.specs.Laws.{PassesIgnoreOrder, RunIgnoresOrder, FarLiesOnNone, RunKeepsRays};
ghost use Rattle.overlay_split.specs.Laws.{ExactInputKeepsCounts, ExactInputHasOneAnswer, ExactRunsAgree, StoppedRunLeavesRange, StoppedRunIsOne};

/// Take a function of points, and a number of the count that inversion negates, as `subj` and `clip`. The pieces of a
/// segment, each with what the function loses from its start to its end times that number, add up to the segment. So a
/// pass changes neither such a sum nor the balance at any point, and a run leaves each balance as it was given.
pub fn balance_laws()
    ensures odd { NumbersAreOdd }
    ensures pieces { PiecesTelescope }
    ensures pass_losses { PassKeepsLosses }
    ensures pass_balance { PassKeepsBalance }
    ensures run_balance { RunKeepsBalance }
{}

/// Let a function name the points at which each segment of a list is cut, and the pieces be joined. No balance changes.
/// Where no point is an end of its segment, the result is an arrangement, and it may be split where the points and all
/// sums are in range. An arrangement that is cut nowhere stays as it is. Counts without a mask stay so.
///
/// Where each point lies near its segment, the result lies as near to the list, and the list to the pieces; lines lie as
/// near to lines, both ways. The winding stays at each place that is farther from every segment, or from every one that
/// winds. A box in which the ends of the list and the points lie holds the result.
pub fn cut_laws()
    ensures balance { CutKeepsBalance }
    ensures map { CutIsMap }
    ensures splittable { CutIsSplittable }
    ensures unmarked { UnmarkedCutIsUnchanged }
    ensures polygons { CutKeepsPolygons }
    ensures near { CutStaysNear }
    ensures pieces { CutPiecesStayNear }
    ensures winds { CutKeepsWhatWinds }
    ensures lines { CutKeepsLines }
    ensures winding { CutKeepsWinding }
    ensures near_lines { CutKeepsWindingNearLines }
    ensures in_box { CutStaysInBox }
    ensures boxes { BoxesAreMeant }
{}

/// The order of the given segments does not count: the list after any number of passes is the same,
/// and so is what a run returns. Whether a sum leaves the range on the way is not said here, since
/// sums are made in the order of the list.
pub fn order_laws()
    ensures passes { PassesIgnoreOrder }
    ensures run { RunIgnoresOrder }
{}

/// A run over counts without a mask returns counts without a mask.
pub fn polygon_laws()
    ensures { RunKeepsPolygons }
{}

/// A settling pass that is rounded makes a mark, and lowers the potential by at least the number of its marks. So a run
/// ends, after no more passes than the snap limit, the potential of the arrangement reached there, and one. What is
/// given and the settings decide what it returns.
pub fn ending_laws()
    ensures settling { SettlingLowers }
    ensures ends { RunEnds }
    ensures one { RunIsOne }
{}

/// A pass that is not rounded leaves a planar arrangement, and what a run returns is one. Each pass
/// leaves a planar arrangement as it is and marks nothing, and so does a run. Two segments that a
/// pass does not mark are apart. The marks of a list are those of a part of it, where every pair
/// that is not in the part is apart.
pub fn planar_laws()
    ensures exact_pass { ExactPassIsPlanar }
    ensures planar_pass { PlanarPassIsUnchanged }
    ensures run { RunIsPlanar }
    ensures arranged { ArrangedIsUnchanged }
    ensures again { ResultIsUnchanged }
    ensures unmarked { UnmarkedAreApart }
    ensures old { PassHasOldOrMarked }
    ensures part { PartHasTheMarks }
{}

/// No pass reaches outside the box around the ends of the given segments, joined.
pub fn box_laws()
    ensures { StaysInBox }
{}

/// Let no two given segments cross at a point that is not whole. Then the result lies on the given
/// segments, and between two neighbors among the ends and crossings on a given segment it counts
/// what the given segments count there together. No other pair has a count, which gives the result
/// without any pass. So the settings do not change it.
pub fn exact_input_laws()
    ensures counts { ExactInputKeepsCounts }
    ensures answer { ExactInputHasOneAnswer }
    ensures agree { ExactRunsAgree }
{}

/// Each segment of a run lies near one given segment, and each point of a given segment lies near the result, or near
/// where counts cancelled. How near: as far as the passes move crossings, added up. A pass in which every crossing is
/// exact moves nothing; one that settles moves by a half; one that snaps by 1 and the radius. So exact input stays
/// where it is, and the last pass of a run moves nothing, where two segments or more are left. The counts of lines
/// never cancel.
pub fn nearness_laws()
    ensures root { RootIsMeant }
    ensures root_of_power { RootOfPower }
    ensures ends { NearEndsAreEnough }
    ensures added { DistancesAddUp }
    ensures crossing { CrossingLiesOnBoth }
    ensures mark { MarkIsNear }
    ensures pass { PassStaysNear }
    ensures pieces { PiecesStayNear }
    ensures run { RunStaysNear }
    ensures lines { LinesAreKept }
    ensures masks { RunKeepsLines }
    ensures bound { ReachIsBounded }
    ensures last_pass { LastPassReachesNothing }
    ensures exact_input { ExactInputReachesNothing }
{}

/// Segments that lie near one segment pass each place that is farther from it on one side. So a pass changes the
/// winding at no place that is farther from every segment than it moves crossings, and a run at none that is farther
/// from every given segment than its passes reach together, lines aside, whose counts do not wind; on exact input at
/// none that lies on no given segment. A place that is far lies on no segment, so where the given counts balance, any
/// ray from it through the given segments gives the winding there after that many passes.
pub fn place_laws()
    ensures side { PassOnOneSide }
    ensures join { JoinKeepsWinding }
    ensures pass { PassKeepsWinding }
    ensures run { RunKeepsWinding }
    ensures near_lines { RunKeepsWindingNearLines }
    ensures exact_input { ExactInputKeepsWinding }
    ensures on_none { FarLiesOnNone }
    ensures rays { RunKeepsRays }
{}

/// Whatever the hooks do, passes with data are, without their data, the passes without. Where nothing is marked, data
/// and store stay as they are. What the hooks keep of data holds of all data after a run, where it holds of all given.
/// Where data names pairs and the hooks name no others, each segment after a run lies as near to every pair that its
/// data names as the passes reach. For exact input, where nothing is moved, it lies on it.
pub fn data_pass_laws<D, S>()
    ensures beside { DataIsBeside D S }
    ensures unmarked { UnmarkedDataIsUnchanged D S }
    ensures arranged { ArrangedDataIsUnchanged D S }
    ensures keeps { DataKeepsWhatHooksKeep D S }
    ensures names { DataNamesWhatIsNear D S }
{}

/// The same cuts with data. Without their data they are the cuts without. Where nothing is marked, data and store stay as
/// they are. What the hooks keep of data holds of all data after, where it holds of all before. Where data names pairs
/// and the hooks name no others, each piece lies near every pair that its data names, by as much more as the marks lie
/// from their segments.
pub fn data_cut_laws<D, S>()
    ensures beside { DataCutIsBeside D S }
    ensures unmarked { UnmarkedDataCutIsUnchanged D S }
    ensures keeps { DataCutKeepsWhatHooksKeep D S }
    ensures names { DataCutNamesWhatIsNear D S }
{}

/// Where a run was refused some sum leaves the range, and there is one store that such a run leaves.
pub fn stopped_run_laws<D, S>()
    ensures leaves_range { StoppedRunLeavesRange D S }
    ensures one { StoppedRunIsOne D S }
{}
