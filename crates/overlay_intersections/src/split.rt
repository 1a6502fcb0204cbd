// How two segments meet, and the marks that they put on one another.

mod cross;
pub mod cross_solver;
pub mod laws;
pub mod line_mark;
pub mod looks;
pub mod marking;
pub mod placing;
