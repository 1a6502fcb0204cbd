// The program `arrange`: reads segments as lines of text, and writes what a command makes of them.
#![tactic(auto)]

mod cross;
mod graph;
mod graph_output;
mod join;
mod run;
mod split;
mod walks;

use std::process::ExitCode;

/// Runs the program over the words, the input and the outputs of the process.
fn main(rt: HostRuntime) -> ExitCode {
    ExitCode::from(run::arrange(&rt, &mut rt.stdin(), &mut rt.stdout(), &mut rt.stderr()))
}
