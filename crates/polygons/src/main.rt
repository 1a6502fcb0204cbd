// The program `polygons`: reads contours as lines of text, and writes the contours of their overlay.
#![tactic(auto)]

mod contour_lines;
mod contour_output;
mod explain;
mod help;
mod relation_output;
mod run;
mod wkt_lines;
mod wkt_output;

use help::{HELP, is_help_asked};
use overlay_text::shell::run_started;
use run::PolygonsProgram;
use std::io::Write;
use std::process::ExitCode;

/// Runs the program over the words, the input and the outputs of the process, or prints its help.
fn main(rt: HostRuntime) -> ExitCode {
    let (input, output, faults) = (&mut rt.stdin(), &mut rt.stdout(), &mut rt.stderr());
    if is_help_asked(&rt) {
        return match output.write_all(HELP.as_bytes()) {
            Ok(()) => ExitCode::SUCCESS,
            Err(_) => ExitCode::from(5),
        };
    }
    ExitCode::from(run_started::<PolygonsProgram, _, _, _, _>(&rt, input, output, faults))
}
