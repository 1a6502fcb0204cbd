// Boxes in boxes: which of many boxes of two lists share a point is found from few of them.

use crate::boxes::{bounds_with, do_boxes_meet};
use overlay_geometry::geom::rect::IntRect;
use overlay_geometry::num::OverlayInt;
use std::alloc::{AllocError, Global};
use std::mem::replace;

/// The boxes of a list, then boxes around each two of these, and so on up to one.
#[derive(Drop)]
pub(crate) struct BoxTree<I: OverlayInt> {
    levels: Vec<Vec<IntRect<I>>>,
}

/// A box of a tree.
#[derive(Clone, Copy)]
pub(crate) struct Node {
    level: usize,
    /// The number of the box in its level.
    pub(crate) index: usize,
}

/// A box of a first and one of a second tree.
#[derive(Clone, Copy)]
pub(crate) struct NodePair {
    pub(crate) first: Node,
    pub(crate) second: Node,
}

impl<I: OverlayInt> BoxTree<I> {
    /// The tree over the boxes of a list.
    pub(crate) fn of(alloc: Global, boxes: Vec<IntRect<I>>) -> Result<BoxTree<I>, AllocError> {
        let mut levels = Vec::new(alloc);
        let mut level = boxes;
        for _ in 0..usize::BITS {
            if level.len() <= 1 {
                break;
            }
            let above = boxes_around_each(alloc, 2, &level)?;
            levels.push(replace(&mut level, above))?;
        }
        levels.push(level)?;
        Ok(BoxTree { levels })
    }

    /// The box around all.
    pub(crate) fn top(&self) -> Node {
        Node {
            level: self.levels.len().saturating_sub(1),
            index: 0,
        }
    }

    /// The corners of a box, if the tree has it.
    fn bounds(&self, node: Node) -> Option<IntRect<I>> {
        let level = self.levels.get(node.level)?;
        let bounds = level.get(node.index)?;
        Some(*bounds)
    }

    /// Whether a box of this tree and one of another share a point.
    pub(crate) fn do_meet(&self, other: &BoxTree<I>, pair: NodePair) -> bool {
        do_boxes_meet(&self.bounds(pair.first), &other.bounds(pair.second))
    }
}

impl Node {
    /// The two boxes within one that is not of the lowest level. The tree may lack the second.
    fn halves(self) -> [Node; 2] {
        let level = self.level.saturating_sub(1);
        let index = self.index.saturating_mul(2);
        [index, index.saturating_add(1)].map(|index| Node { level, index })
    }
}

impl NodePair {
    /// Whether both boxes are of the lists themselves.
    pub(crate) fn is_lowest(self) -> bool {
        self.first.level == 0 && self.second.level == 0
    }

    /// Adds the pairs of a box with each half of the other, which is that of the higher level.
    pub(crate) fn push_halves(self, pairs: &mut Vec<NodePair>) -> Result<(), AllocError> {
        let NodePair { first, second } = self;
        if first.level < second.level {
            for second in second.halves() {
                pairs.push(NodePair { first, second })?;
            }
        } else {
            for first in first.halves() {
                pairs.push(NodePair { first, second })?;
            }
        }
        Ok(())
    }
}

/// The boxes around each so many boxes of a list.
pub(crate) fn boxes_around_each<I: OverlayInt>(
    alloc: Global,
    count: usize,
    boxes: &[IntRect<I>],
) -> Result<Vec<IntRect<I>>, AllocError> {
    let mut found = Vec::new(alloc);
    let mut bounds = None;
    let mut inside = 0_usize;
    for more in boxes {
        bounds = Some(bounds_with(bounds, *more));
        inside = inside.saturating_add(1);
        if inside == count {
            found.extend(bounds.take())?;
            inside = 0;
        }
    }
    found.extend(bounds)?;
    Ok(found)
}
