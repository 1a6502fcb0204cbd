// What `cross_solver` is made of, lowest first: what a call returns, the exact crossing point as
// two offsets and rounded, how the sides decide, and the two ways to place a crossing. `corner` is
// only for `marking`: it needs no side where one segment is horizontal and the other vertical.

pub mod contact;
pub mod corner;
pub mod crossing_point;
pub mod offset;
pub mod result;
pub mod settled;
pub mod snapped;
