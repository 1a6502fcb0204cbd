// The nodes of graphs. Upstream: `core::graph::OverlayNode`, `GraphNode` of `build::builder`, and the nodes of
// `string::graph`.
ghost use Rattle.std.specs.Prelude.{◌≡◌, ℕ, Bool, true, List, IfOk, IfErr};
ghost use Rattle.overlay_base.specs.declared.segm.fault.Fault.TheVariants.{Memory};

use overlay_base::segm::fault::Fault;
use std::alloc::Global;

/// A kind of node, which keeps the indexes of the links that meet at a point. An `impl` names them, and says which of
/// the nodes on the same indexes it makes.
pub trait GraphNode: Drop {
    ghost indexes: { Self → List ℕ };

    ghost is_canonical: { Self → Bool };

    /// The node with these indexes.
    ///
    /// Returns `Fault::Memory` where a growth is refused, and no other fault.
    fn with_indices(alloc: Global, indices: &[usize]) -> Result<Self, Fault>
        ensures indexes { IfOk result (λ node. indexes node ≡ indices.now) }
        ensures form { IfOk result (λ node. is_canonical node ≡ true) }
        ensures fault { IfErr result (λ fault. fault ≡ Memory) };
}

/// A node of the graph of an overlay: the links that start there by rising index, then those that end there.
#[derive(Debug, Drop)]
pub enum OverlayNode {
    /// Just two links meet.
    Bridge([usize; 2]),
    /// Any other number of links meet.
    Cross(Vec<usize>),
}

impl GraphNode for OverlayNode {
    ghost use Rattle.overlay_build.specs.NodeIndexes.{indexes_of, is_canonical_node};

    ghost indexes = { indexes_of };

    ghost is_canonical = { is_canonical_node };

    fn with_indices(alloc: Global, indices: &[usize]) -> Result<OverlayNode, Fault> {
        if indices.len() == 2 {
            return Ok(OverlayNode::Bridge([indices[0], indices[1]]));
        }
        let mut several = Vec::new(alloc);
        several.extend_from_slice(indices)?;
        Ok(OverlayNode::Cross(several))
    }
}

/// A node of the graph of lines: the same indexes in a list, however many.
impl GraphNode for Vec<usize> {
    ghost use Rattle.overlay_build.specs.NodeIndexes.{items_of, is_any_node};

    ghost indexes = { items_of };

    ghost is_canonical = { is_any_node };

    fn with_indices(alloc: Global, indices: &[usize]) -> Result<Vec<usize>, Fault> {
        let mut all = Vec::new(alloc);
        all.extend_from_slice(indices)?;
        Ok(all)
    }
}

impl OverlayNode {
    ghost use Rattle.overlay_build.specs.NodeIndexes.{indexes_of};

    /// The indexes of the links that meet there.
    pub fn indices(&self) -> &[usize]
        ensures { result.now ≡ indexes_of self.now }
    {
        match self {
            OverlayNode::Bridge(two) => two.as_slice(),
            OverlayNode::Cross(several) => several.as_slice(),
        }
    }
}
