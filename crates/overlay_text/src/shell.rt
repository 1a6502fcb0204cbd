// A run of a program, in the order of the tests for faults: the words, the reading of all the input, what the
// program finds wrong with it, the writing.
ghost use Rattle.std.specs.Prelude.{◌≡◌, ◌≢◌, ◌⊎◌, ℕ, List, Ok, Err, IfSome, IfOk, OnOk, IfErr, map, string_bytes};
ghost use Rattle.std.specs.IoError.{error_kind};
ghost use Rattle.std.specs.Io.KnownBytes.{Appends};
ghost use Rattle.overlay_base.specs.declared.segm.fault.Fault.TheVariants.{Memory};
ghost use Rattle.overlay_text.specs.declared.stop.Stop.{Stop};
ghost use Rattle.overlay_text.specs.Runs.{Behavior, Ask, AskForNone, IsRunAnswer, IsStop, AsksAndWrites, AsksAndStops, Writes, Stops};
ghost use Rattle.overlay_text.specs.Status.{status_of};

use crate::stop::Stop;
use overlay_base::segm::fault::Fault;
use std::alloc::{AllocError, Global};
use std::io::{ErrorKind, Read, Write};
use std::rt::Env;
use std::{env, io};

/// A program that returns a text to the text of its input, by choices that the words of its call make.
pub trait Program {
    /// What the words choose.
    type Choices: Copy;

    ghost behavior: { Behavior Self.Choices };

    /// The line that says how the program is called.
    fn usage() -> &'static str;

    /// The choices that the words make.
    ///
    /// Returns `Stop::Usage` exactly where they choose none.
    fn read_words(words: &[String]) -> Result<Self::Choices, Stop>
        ensures asked { IfOk result (λ choices. behavior.AskFor (map string_bytes words.now) choices) }
        ensures usage { IfErr result (λ stop. (stop ≡ Stop.Usage) × AskForNone behavior (map string_bytes words.now)) };

    /// The text of the result, or why there is none.
    fn answer(alloc: Global, choices: Self::Choices, bytes: &[u8]) -> Result<String, Stop>
        ensures text { IfOk result (λ text. behavior.Answers choices bytes.now (Ok (string_bytes text))) }
        ensures stop { IfErr result (λ stop. (stop ≡ Stop.Refused Memory)
            ⊎ behavior.Answers choices bytes.now (Err stop)) }
        ensures no_usage { IfErr result (λ stop. stop ≢ Stop.Usage) };

    /// A sentence on why a run over these words and this input stops, or an empty text where the short one is enough.
    fn explain(
        alloc: Global,
        words: &[String],
        bytes: &[u8],
        stop: Stop,
    ) -> Result<String, AllocError>;
}

/// Runs a program over the words that the process was started with, and returns the exit status, as `run_over` does
/// over some words. The status is 2 also where one of them is no UTF-8, and 4 where memory for them is refused.
#[tactic(auto, using(crate::proofs::Runs::is_no_success))]
pub fn run_started<P: Program, H: Env + AllocGlobal, R: Read, W: Write, E: Write>(
    rt: &H,
    input: &mut R,
    output: &mut W,
    faults: &mut E,
) -> u8
    ensures done { result ≡ 0 → AsksAndWrites P.behavior R.remaining input.old W.contents output.old output.new }
    ensures stopped { (result ≡ 0) ⊎ AsksAndStops P.behavior R.remaining input.old output.old output.new result }
    ensures quiet { result ≡ 0 → faults.new ≡ faults.old }
{
    match started_words(rt) {
        Ok(words) => run_over::<P, R, W, E>(rt.alloc(), words.as_slice(), input, output, faults),
        Err(stop) => refuse::<P, E>(rt.alloc(), &[], &[], stop, faults),
    }
}

/// Runs a program over these words, and returns the exit status: 0 where the run is done, else that of its `Stop`.
///
/// Nothing is written to `output` unless the run is done or the output failed, and nothing to
/// `faults` where the status is 0. Any other status is explained in one line on `faults`; a failed
/// write there is ignored. Where the words choose nothing, nothing is read.
#[tactic(auto, using(crate::proofs::Runs::is_no_success))]
pub fn run_over<P: Program, R: Read, W: Write, E: Write>(
    alloc: Global,
    words: &[String],
    input: &mut R,
    output: &mut W,
    faults: &mut E,
) -> u8
    ensures asked { result ≡ 0 → Ask P.behavior (map string_bytes words.now) }
    ensures done { result ≡ 0 → Writes P.behavior words.now R.remaining input.old W.contents output.old output.new }
    ensures stopped { (result ≡ 0) ⊎ Stops P.behavior words.now R.remaining input.old output.old output.new result }
    ensures unread { AskForNone P.behavior (map string_bytes words.now) → input.new ≡ input.old }
    ensures quiet { result ≡ 0 → faults.new ≡ faults.old }
{
    let mut bytes = Vec::new(alloc);
    match write_answer::<P, R, W>(alloc, words, &mut bytes, input, output) {
        Ok(()) => 0,
        Err(stop) => refuse::<P, E>(alloc, words, bytes.as_slice(), stop, faults),
    }
}

/// Writes why a run over these words and this input stops on `faults`, where a failed write is passed over, and returns
/// the exit status.
pub fn refuse<P: Program, E: Write>(
    alloc: Global,
    words: &[String],
    bytes: &[u8],
    stop: Stop,
    faults: &mut E,
) -> u8
    ensures { result ≡ status_of stop }
{
    let sentence = P::explain(alloc, words, bytes, stop).unwrap_or(String::new(alloc));
    let _ = match stop {
        _ if !sentence.is_empty() => writeln!(faults, "{sentence}"),
        Stop::Usage => writeln!(faults, "{}", P::usage()),
        _ => writeln!(faults, "{stop}"),
    };
    stop.status()
}

/// Writes the whole output. The list is for the input.
fn write_answer<P: Program, R: Read, W: Write>(
    alloc: Global,
    words: &[String],
    bytes: &mut Vec<u8>,
    input: &mut R,
    output: &mut W,
) -> Result<(), Stop>
    ensures asked { OnOk result (Ask P.behavior (map string_bytes words.now)) }
    ensures done { OnOk result (IfSome (R.remaining input.old) (λ bytes. (text : List ℕ)
        × IsRunAnswer P.behavior (map string_bytes words.now) bytes (Ok text)
        × Appends (W.contents output.old) (W.contents output.new) text)) }
    ensures stopped { IfErr result (IsStop P.behavior (map string_bytes words.now) (R.remaining input.old)) }
    ensures untouched { IfErr result (λ stop. (stop ≡ Stop.Output) ⊎ (output.new ≡ output.old)) }
    ensures unread { AskForNone P.behavior (map string_bytes words.now) → input.new ≡ input.old }
{
    let text = read_and_answer::<P, R>(alloc, words, bytes, input)?;
    output.write_all(text.as_bytes()).map_err(|_| Stop::Output)?;
    output.flush().map_err(|_| Stop::Output)
}

/// The whole output.
fn read_and_answer<P: Program, R: Read>(
    alloc: Global,
    words: &[String],
    bytes: &mut Vec<u8>,
    input: &mut R,
) -> Result<String, Stop>
    ensures text { IfOk result (λ text. IfSome (R.remaining input.old)
        (λ bytes. IsRunAnswer P.behavior (map string_bytes words.now) bytes (Ok (string_bytes text)))) }
    ensures asked { OnOk result (Ask P.behavior (map string_bytes words.now)) }
    ensures stopped { IfErr result (IsStop P.behavior (map string_bytes words.now) (R.remaining input.old)) }
    ensures unread { AskForNone P.behavior (map string_bytes words.now) → input.new ≡ input.old }
{
    let choices = P::read_words(words)?;
    read_all(input, bytes)?;
    P::answer(alloc, choices, bytes.as_slice())
}

/// All bytes of the input, in place of what the list had.
fn read_all<R: Read>(input: &mut R, bytes: &mut Vec<u8>) -> Result<(), Stop>
    ensures all { OnOk result (IfSome (R.remaining input.old) (λ given. bytes.new.items ≡ given)) }
    ensures stopped { IfErr result (λ stop. (stop ≡ Stop.Input) ⊎ (stop ≡ Stop.Refused Memory)) }
{
    bytes.clear();
    match input.read_to_end(bytes) {
        Ok(_) => Ok(()),
        Err(error) => Err(stop_of(error, Stop::Input)),
    }
}

/// The words after the program's name.
fn started_words<H: Env + AllocGlobal>(rt: &H) -> Result<Vec<String>, Stop>
    ensures stopped { IfErr result (λ stop. (stop ≡ Stop.Usage) ⊎ (stop ≡ Stop.Refused Memory)) }
{
    let mut words = Vec::new(rt.alloc());
    let started = env::args(rt).map_err(|error| stop_of(error, Stop::Usage))?;
    for word in started.skip(1) {
        words.push(word)?;
    }
    Ok(words)
}

/// Separates a refusal of memory from any other failure.
fn stop_of(error: io::Error, otherwise: Stop) -> Stop
    ensures memory { error_kind error ≡ ErrorKind.OutOfMemory → result ≡ Stop.Refused Memory }
    ensures other { error_kind error ≢ ErrorKind.OutOfMemory → result ≡ otherwise }
{
    match error.kind() {
        ErrorKind::OutOfMemory => Stop::Refused(Fault::Memory),
        _ => otherwise,
    }
}
