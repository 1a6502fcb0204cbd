// `arrange walks`: closed walks through the graph of the arrangement.
ghost use Rattle.std.specs.Prelude.{◌≡◌, ◌++◌, Ok, Err, OnOk, IfOk, IfErr, string_bytes, flat_map};
ghost use Rattle.overlay_base.specs.declared.segm.fault.Fault.TheVariants.{Memory};
ghost use Rattle.overlay_base.specs.ArrangedOf.{IsSplittable};
ghost use Rattle.overlay_build.specs.GraphOf.{graph_with};
ghost use Rattle.overlay_build.specs.OverlayGraphOf.{links_of};
ghost use Rattle.arrange.specs.GraphText.{walk_line, IsWalksText};
ghost use Rattle.arrange.specs.Run.{IsAnswerTo};
ghost use Rattle.overlay_text.specs.declared.settings.Command.{Command};
ghost use Rattle.overlay_text.specs.Runs.{IfStopped};

use crate::graph::{Lines, build_graph};
use crate::graph_output::write_numbers;
use overlay_build::build::builder::GraphBuilder;
use overlay_build::build::graph::OverlayGraph;
use overlay_build::build::walks::closed_walks;
use overlay_geometry::num::OverlayInt;
use overlay_text::settings::Settings;
use overlay_text::stop::Stop;
use std::alloc::{AllocError, Global};

/// The text of closed walks through the graph that the settings choose, in which every link is in
/// one place, or that some node has an odd number of links.
///
/// Returns `Fault::CountOutOfRange` as `graph` does.
pub fn walks<I: OverlayInt>(
    alloc: Global,
    segments: Lines<I>,
    settings: Settings,
) -> Result<String, Stop>
    requires { IsSplittable segments.items }
    ensures text { IfOk result (λ text. IsAnswerTo Command.Walks settings segments (Ok (string_bytes text))) }
    ensures stop { IfStopped result (λ stop. IsAnswerTo Command.Walks settings segments (Err stop)) }
{
    let mut builder = GraphBuilder::new(alloc);
    let graph = build_graph(alloc, &mut builder, segments, settings)?;
    walks_text(alloc, &graph)
}

/// The text of closed walks through a graph.
fn walks_text<I: OverlayInt>(alloc: Global, graph: &OverlayGraph<'_, I, ()>) -> Result<String, Stop>
    ensures text { IfOk result (λ text. IsWalksText (graph_with I.whole (links_of graph.now)) (string_bytes text)) }
    ensures stop { IfErr result (λ stop. stop ≡ Stop.Refused Memory) }
{
    let mut text = String::new(alloc);
    if !graph.has_even_nodes() {
        text.push_str("uneven nodes\n")?;
        return Ok(text);
    }
    let walks = closed_walks(alloc, graph)?;
    write_walks(&mut text, &walks)?;
    Ok(text)
}

/// Writes `walk I ..` for each walk.
fn write_walks(text: &mut String, walks: &[Vec<usize>]) -> Result<(), AllocError>
    ensures { OnOk result (string_bytes text.new ≡ string_bytes text.old
        ++ flat_map (λ w. walk_line w.items) walks.now) }
{
    for walk in walks {
        write_walk(text, walk)?;
    }
    Ok(())
}

/// Appends the line of a walk: the indexes of its links.
#[tactic(auto, unfolding(crate::specs::GraphText::walk_line))]
fn write_walk(text: &mut String, walk: &[usize]) -> Result<(), AllocError>
    ensures { OnOk result (string_bytes text.new ≡ string_bytes text.old ++ walk_line walk.now) }
{
    text.push_str("walk")?;
    write_numbers(text, walk)?;
    text.push_str("\n")?;
    Ok(())
}
