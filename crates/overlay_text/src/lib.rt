// The words and lines of the programs: what they read, and how numbers, points, segments and places are written.
#![tactic(auto)]

pub mod line_end;
pub mod lines;
pub mod number;
pub mod output;
pub mod settings;
pub mod shell;
pub mod stop;
pub mod words;
