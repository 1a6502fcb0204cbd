// Nodes of what lists say of them. Upstream: part of `build::graph`.
ghost use Rattle.std.specs.Prelude.{◌≡◌, ℕ, List, true, map, OnOk, IfErr};
ghost use Rattle.std.specs.List.{list_all};
ghost use Rattle.overlay_base.specs.declared.segm.fault.Fault.TheVariants.{Memory};
ghost use Rattle.overlay_build.specs.Laid.{AreLaid};

use crate::build::graph_node::GraphNode;
use overlay_base::segm::fault::Fault;
use std::alloc::Global;

/// Makes a node of the indexes of each, one behind another: so many of the first node, so many of
/// the next.
pub fn make_nodes<N: GraphNode>(
    alloc: Global,
    degrees: &[usize],
    indexes: &[usize],
    nodes: &mut Vec<N>,
) -> Result<(), Fault>
    requires { (lists : List (List ℕ)) × AreLaid lists degrees.now indexes.now }
    ensures nodes { OnOk result ((lists : List (List ℕ)) → AreLaid lists degrees.now indexes.now
        → map N.indexes nodes.new.items ≡ lists) }
    ensures form { OnOk result (list_all N.is_canonical nodes.new.items ≡ true) }
    ensures fault { IfErr result (λ fault. fault ≡ Memory) }
{
    nodes.clear();
    nodes.reserve(degrees.len())?;
    let mut rest = indexes;
    for degree in degrees {
        let (own, later) = rest.split_at(*degree);
        nodes.push(N::with_indices(alloc, own)?)?;
        rest = later;
    }
    Ok(())
}
