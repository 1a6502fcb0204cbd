// The laws of tiles. Each function has an empty body, and its contract is proved for all whole numbers.
ghost use Rattle.overlay_tiles.specs.TileOverlays.{OverlaysInTileAreParts};
ghost use Rattle.overlay_tiles.specs.Laws.{StepsWindAlike, ContoursWindAlike, ClippedLieInTile, ClippedLieNear, OthersCountNothing, SnapKeepsWindingOffAxes, TilesWindAlike};

/// Contours that are cut and clamped to a tile wind around each point of the tile as before, if it is farther than half a
/// unit from every step that runs along no axis. So does each step for itself. All their points lie in the tile, and each
/// of their steps that runs along no axis lies within half a unit of such a given one. What lies in one tile winds around
/// no point of another.
pub fn clip_laws()
    ensures steps { StepsWindAlike }
    ensures contours { ContoursWindAlike }
    ensures inside { ClippedLieInTile }
    ensures near { ClippedLieNear }
    ensures others { OthersCountNothing }
{}

/// Snap rounding keeps the winding at a point however near it is to segments along the axes, which are cut on their own
/// line. So the border of a tile is no exception to what is said of its points.
pub fn axis_laws()
    ensures { SnapKeepsWindingOffAxes }
{}

/// Contours that wind around the points of a tile as given ones and lie near these, as clipped ones do, still wind so when
/// they are split by snap rounding: around each point of the tile that is farther than a whole unit from every given step
/// that runs along no axis.
pub fn tile_laws()
    ensures { TilesWindAlike }
{}

/// Whatever overlays what a tile has of a subject's contours and a clip's, by snap rounding, returns the part of their overlay
/// that belongs to the tile. So parts may be made with any of the calls for contours, as in shapes, or by many rules over one
/// arrangement.
pub fn part_laws()
    ensures { OverlaysInTileAreParts }
{}
