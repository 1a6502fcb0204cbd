// The laws of windings: the contract of a function with an empty body, proved for all whole numbers.
ghost use Rattle.overlay_sweep.specs.Laws.{ChainsAreColumns, TopsAddWeights};

/// With balanced counts the windings that a sweep finds by its chains are those of the columns of the plane: the sums
/// of the weights below, in every column that a segment spans, and beside a vertical segment those to its right and
/// left. Without balance too, the winding above a segment is that below it and the segment's weight.
pub fn winding_laws()
    ensures columns { ChainsAreColumns }
    ensures tops { TopsAddWeights }
{}
