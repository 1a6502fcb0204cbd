// The finder of the pairs that meet, over a list, a tree or a grid, and the cut of a list at its marks.

pub mod cut;
pub mod finder;
mod parts;
pub mod pass;
pub mod path;
pub mod piece;
