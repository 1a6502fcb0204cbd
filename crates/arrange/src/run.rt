// The program: which words it reads, and what a command returns.
ghost use Rattle.std.specs.Prelude.{◌≡◌, ◌⊎◌, Ok, Err, IfOk, IfErr, string_bytes};
ghost use Rattle.overlay_base.specs.declared.segm.fault.Fault.TheVariants.{Memory};
ghost use Rattle.arrange.specs.Run.{IsAnswer, arrange_behavior};
ghost use Rattle.overlay_text.specs.declared.stop.Stop.{Stop};
ghost use Rattle.overlay_text.specs.Runs.{AsksAndWrites, AsksAndStops};

use crate::cross::cross;
use crate::graph::graph;
use crate::join::join;
use crate::split::split;
use crate::walks::walks;
use overlay_geometry::num::OverlayInt;
use overlay_text::lines::read_lines;
use overlay_text::settings::{Command, Engine, Settings};
use overlay_text::shell::{Program, run_started};
use overlay_text::stop::Stop;
use overlay_text::words;
use std::alloc::{AllocError, Global};
use std::io::{Read, Write};
use std::rt::Env;

/// The program `arrange`.
pub struct ArrangeProgram;

impl Program for ArrangeProgram {
    type Choices = (Command, Settings);

    ghost behavior = { arrange_behavior };

    fn usage() -> &'static str {
        "usage: arrange join|cross|split|graph|walks [name=value ..]"
    }

    fn read_words(words: &[String]) -> Result<(Command, Settings), Stop> {
        words::read_words(words)
    }

    fn answer(alloc: Global, choices: (Command, Settings), bytes: &[u8]) -> Result<String, Stop> {
        let (command, settings) = choices;
        match settings.engine {
            Engine::I16 => answer_with::<i16>(alloc, command, settings, bytes),
            Engine::I32 => answer_with::<i32>(alloc, command, settings, bytes),
        }
    }

    fn explain(
        alloc: Global,
        _words: &[String],
        _bytes: &[u8],
        _stop: Stop,
    ) -> Result<String, AllocError> {
        Ok(String::new(alloc))
    }
}

/// Runs the program over the words that the process was started with, as `run_started` does, and
/// returns the exit status: 0 where the run is done, else that of its `Stop`.
///
/// No clause can say which words those are, so none says either that the usage is printed only where
/// they choose nothing. Runs of `examples/runs` show that each word is handed on.
pub fn arrange<H: Env + AllocGlobal, R: Read, W: Write, E: Write>(
    rt: &H,
    input: &mut R,
    output: &mut W,
    faults: &mut E,
) -> u8
    ensures done { result ≡ 0 → AsksAndWrites arrange_behavior R.remaining input.old W.contents output.old output.new }
    ensures stopped { (result ≡ 0) ⊎ AsksAndStops arrange_behavior R.remaining input.old output.old output.new result }
    ensures quiet { result ≡ 0 → faults.new ≡ faults.old }
{
    run_started::<ArrangeProgram, H, R, W, E>(rt, input, output, faults)
}

/// What a command returns for the text of the input.
fn answer_with<I: OverlayInt>(
    alloc: Global,
    command: Command,
    settings: Settings,
    bytes: &[u8],
) -> Result<String, Stop>
    ensures text { IfOk result (λ text. IsAnswer (I.whole I.MIN_COORD)
        (I.whole I.MAX_COORD) I.BITS command settings bytes.now (Ok (string_bytes text))) }
    ensures stop { IfErr result (λ stop. (stop ≡ Stop.Refused Memory)
        ⊎ IsAnswer (I.whole I.MIN_COORD) (I.whole I.MAX_COORD) I.BITS command settings bytes.now (Err stop)) }
{
    let segments = read_lines::<I>(alloc, bytes)?;
    match command {
        Command::Join => join(alloc, segments),
        Command::Cross => cross(alloc, segments.as_slice(), settings.radius),
        Command::Split => split(alloc, segments, settings),
        Command::Graph => graph(alloc, segments, settings),
        Command::Walks => walks(alloc, segments, settings),
    }
}
