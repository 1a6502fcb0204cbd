// The law of fragments. Its function has an empty body, and its contract is proved for all whole numbers, whatever the
// engine.
ghost use Rattle.overlay_grid.specs.Laws.{FragmentsEnclose};

/// The fragments of a segment that begins inside a grid follow one another from its start to its end, and the rectangle
/// of each holds the segment's part there.
pub fn fragment_laws()
    ensures { FragmentsEnclose }
{}
