// Snap rounding by hot pixels: the definitions over whole numbers, the test whether a segment meets a pixel, the points
// that are hot and the segments that move, and the first laws.
#![tactic(auto)]

pub mod snap;
