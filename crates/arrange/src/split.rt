// `arrange split`: the segments are split where they meet.
ghost use Rattle.std.specs.Prelude.{◌≡◌, Ok, Err, OnOk, IfOk, IfErr, string_bytes};
ghost use Rattle.overlay_base.specs.declared.segm.fault.Fault.TheVariants.{CountOutOfRange};
ghost use Rattle.overlay_base.specs.SegmentOf.{segments_of};
ghost use Rattle.overlay_base.specs.ArrangedOf.{IsSplittable};
ghost use Rattle.overlay_contours.specs.Splittings.{IsLeftBy, SumsLeaveRange};
ghost use Rattle.i_overlay.specs.SplitLists.{TellsChangeBy};
ghost use Rattle.i_overlay.specs.SplitterOf.{rounding_in, snap_limit_in, passes_in, reach_in, LooksAreFew};
ghost use Rattle.arrange.specs.Run.{solver_of, rounding_named, splitting_of, IsAnswerTo};
ghost use Rattle.overlay_text.specs.declared.settings.Command.{Command};
ghost use Rattle.overlay_text.specs.Runs.{IfStopped};

use crate::graph::{Lines, splitter_for};
use i_overlay::splitter::Splitter;
use overlay_base::segm::fault::Fault;
use overlay_geometry::num::OverlayInt;
use overlay_text::output::write_segments;
use overlay_text::settings::Settings;
use overlay_text::stop::Stop;
use std::alloc::Global;

/// The text of the segments of a planar arrangement, of the flag that says whether equal segments were given or one
/// was split, and of the number of passes, one by snap rounding.
pub fn split<I: OverlayInt>(
    alloc: Global,
    mut segments: Lines<I>,
    settings: Settings,
) -> Result<String, Stop>
    requires { IsSplittable segments.items }
    ensures text { IfOk result (λ text. IsAnswerTo Command.Split settings segments (Ok (string_bytes text))) }
    ensures stop { IfStopped result (λ stop. IsAnswerTo Command.Split settings segments (Err stop)) }
{
    let mut splitter = splitter_for(alloc, &settings);
    let flag = split_as_chosen(&mut splitter, &mut segments, &settings)?;
    let passes = splitter.passes();
    let mut text = String::new(alloc);
    write_segments(&mut text, segments.as_slice())?;
    writeln!(text, "flag {flag}")?;
    writeln!(text, "passes {passes}")?;
    Ok(text)
}

/// Splits the segments as the words choose, at the cost of the strategy that they name. Returns the flag.
fn split_as_chosen<I: OverlayInt>(
    splitter: &mut Splitter<I>,
    segments: &mut Lines<I>,
    settings: &Settings,
) -> Result<bool, Fault>
    requires segments { IsSplittable segments.old.items }
    requires rounding { rounding_in splitter.old ≡ rounding_named settings.now.rounding }
    requires limit { snap_limit_in splitter.old ≡ settings.now.snap_limit }
    ensures left { OnOk result (IsLeftBy (splitting_of I.BITS settings.now) (segments_of segments.old.items)
        (segments_of segments.new.items) (passes_in splitter.new) (reach_in splitter.new)) }
    ensures changed { IfOk result (λ flag. TellsChangeBy (splitting_of I.BITS settings.now)
        (segments_of segments.old.items) (passes_in splitter.new) flag) }
    ensures refused { IfErr result (λ fault. fault ≡ CountOutOfRange
        → SumsLeaveRange (splitting_of I.BITS settings.now) (segments_of segments.old.items)) }
    ensures looked { OnOk result (LooksAreFew (solver_of settings.now) splitter.old splitter.new segments.old) }
{
    splitter.split_segments(segments, &settings.solver())
}
