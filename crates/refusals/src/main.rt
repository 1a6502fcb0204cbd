// The program `refusals`: makes calls that can take memory. Where a growth is refused it tests what
// is left after the call, and makes the call again with the same splitter, runner or builder. So it
// prints the same whichever growth was refused: on the standard output how many segments, links or
// points each call returns, on the other a digest of them.
#![tactic(auto)]

mod case;
mod fragments;
mod graphs;
mod hooks;
mod inserts;
mod lists;
mod shapes;
mod sweeps;
mod wholes;

use crate::case::{Case, Stop, Summary};
use crate::fragments::Fragments;
use crate::graphs::{Boundary, Build, Filter, Kind, Loops, Walks};
use crate::inserts::Insert;
use crate::lists::{Balance, Join, Snap, Sort, Split};
use crate::sweeps::Sweep;
use crate::wholes::{
    Clipped, Contacts, Contours, KeptArrangement, KeptContours, KeptRules, KeptShapes, LineClip,
    Overlay, Pairs, Relations, Shapes, Snapped, Sources, Tiled,
};
use i_overlay::build::scan_list::ScanList;
use i_overlay::build::scan_tree::ScanTree;
use i_overlay::overlay_core::solver::Solver;
use overlay_contours::rounding::Rounding;
use std::io;
use std::io::Write;
use std::process::ExitCode;

/// How often a call is made, at most. One growth is refused in a run, so the second time has its
/// result.
const TRIES: u32 = 2;

/// What the output has for a call whose overlay is kept.
const KEPT: &str = " that are kept";

/// The strategies, with the names that the output has for them.
static SOLVERS: [(&str, Solver); 4] = [
    (" under list", Solver::LIST),
    (" under tree", Solver::TREE),
    (" under frag", Solver::FRAG),
    (" under auto", Solver::AUTO),
];

/// The builds, with the names that the output has for them.
static KINDS: [(&str, Kind); 4] = [
    ("build all", Kind::All),
    ("build overlay", Kind::Overlay),
    ("build lines", Kind::Lines),
    ("build clip", Kind::Clip),
];

/// Makes every call, and succeeds where each line could be written.
fn main(rt: HostRuntime) -> ExitCode {
    match tell_all(rt) {
        Ok(()) => ExitCode::SUCCESS,
        Err(_) => ExitCode::FAILURE,
    }
}

/// Makes every call, and prints a line for each. Fails where an output does.
fn tell_all(rt: HostRuntime) -> io::Result<()> {
    tell_lists(rt)?;
    tell_inserts(rt)?;
    tell_graphs(rt)?;
    tell_contours(rt)?;
    tell_kept(rt)?;
    for (name, solver) in SOLVERS {
        tell_splits(rt, name, solver)?;
        tell_overlays(rt, name, solver)?;
        tell_builds(rt, name, solver)?;
    }
    rt.stdout().flush()
}

/// Makes the calls over a list.
fn tell_lists(rt: HostRuntime) -> io::Result<()> {
    tell(rt, "sort", "", Sort {})?;
    tell(rt, "join", "", Join {})?;
    tell(rt, "balance", "", Balance {})?;
    tell(rt, "fragments", "", Fragments {})
}

/// Makes the insertions into the lists of a sweep.
fn tell_inserts(rt: HostRuntime) -> io::Result<()> {
    let list = Insert::new(ScanList::new(rt.alloc()));
    tell(rt, "insert", " into a list", list)?;
    let tree = Insert::new(ScanTree::new(rt.alloc()));
    tell(rt, "insert", " into a tree", tree)
}

/// Makes the calls that no strategy changes, over links and graphs.
fn tell_graphs(rt: HostRuntime) -> io::Result<()> {
    tell(rt, "loops", "", Loops::new(rt.alloc()))?;
    tell(rt, "filter", "", Filter::new(rt.alloc()))?;
    tell(rt, "walks", "", Walks::new(rt.alloc()))?;
    tell(rt, "boundary", "", Boundary::new(rt.alloc()))
}

/// Makes the calls over contours, each once with an overlay of its own and once with one that is kept.
fn tell_contours(rt: HostRuntime) -> io::Result<()> {
    let contours = KeptContours::new(rt.alloc(), Rounding::Pairwise);
    tell(rt, "contours", "", Contours {})?;
    tell(rt, "contours", KEPT, contours)?;
    tell(rt, "shapes", "", Shapes {})?;
    tell(rt, "shapes", KEPT, KeptShapes::new(rt.alloc()))
}

/// Makes the further calls over contours.
fn tell_kept(rt: HostRuntime) -> io::Result<()> {
    tell(rt, "relations", "", Relations {})?;
    tell(rt, "contacts", "", Contacts {})?;
    tell(rt, "related pairs", "", Pairs {})?;
    tell(rt, "clip to a tile", "", Clipped {})?;
    tell(rt, "overlay by tiles", "", Tiled {})?;
    tell(rt, "sources", "", Sources {})?;
    tell(rt, "two rules", KEPT, KeptRules::new(rt.alloc()))?;
    let arrangement = KeptArrangement::new(rt.alloc());
    tell(rt, "overlays of an arrangement", KEPT, arrangement)
}

/// Makes the splits and the sweep under a strategy.
fn tell_splits(rt: HostRuntime, name: &'static str, solver: Solver) -> io::Result<()> {
    tell(rt, "split", name, Split::new(rt.alloc(), solver))?;
    tell(rt, "snap rounding", name, Snap::new(rt.alloc(), solver))?;
    tell(rt, "sweep", name, Sweep::new(rt.alloc(), solver))
}

/// Makes the overlays and the clips under a strategy.
fn tell_overlays(rt: HostRuntime, name: &'static str, solver: Solver) -> io::Result<()> {
    tell(rt, "overlay", name, Overlay::new(rt.alloc(), solver))?;
    tell(rt, "clip", name, LineClip::new(rt.alloc(), solver))?;
    let snapped = Snapped::new(rt.alloc(), solver);
    tell(rt, "overlay and clip by snap rounding", name, snapped)
}

/// Makes the builds under a strategy.
fn tell_builds(rt: HostRuntime, name: &'static str, solver: Solver) -> io::Result<()> {
    for (build, kind) in KINDS {
        tell(rt, build, name, Build::new(rt.alloc(), kind, solver))?;
    }
    Ok(())
}

/// Makes a call until it returns a result, and prints it.
fn tell<C: Case + Drop>(
    rt: HostRuntime,
    name: &'static str,
    strategy: &'static str,
    mut case: C,
) -> io::Result<()> {
    for _ in 0..TRIES {
        match case.try_once(rt.alloc()) {
            Ok(summary) => return print_summary(rt, name, strategy, summary),
            Err(Stop::Refused) => {}
            Err(Stop::Wrong(what)) => print_fault(rt, name, strategy, what)?,
        }
    }
    print_fault(rt, name, strategy, "no answer")
}

/// Prints what a call returns: the digest on the standard error, the rest on the standard output.
fn print_summary(
    rt: HostRuntime,
    name: &'static str,
    strategy: &'static str,
    summary: Summary,
) -> io::Result<()> {
    let (count, others, digest) = (summary.count, summary.others, summary.digest);
    let (mut output, mut digests) = (rt.stdout(), rt.stderr());
    writeln!(digests, "{name}{strategy}: {digest}")?;
    writeln!(output, "{name}{strategy}: {count} {others}")
}

/// Prints why a call returns nothing.
fn print_fault(
    rt: HostRuntime,
    name: &'static str,
    strategy: &'static str,
    what: &'static str,
) -> io::Result<()> {
    let mut output = rt.stdout();
    writeln!(output, "{name}{strategy}: {what}")
}
