// The shape of a balanced tree, whose nodes are in a `Vec` and are named by index.
ghost use Rattle.std.specs.Prelude.{◌≡◌, ◌≢◌, ◌<◌, ◌+◌, ◌++◌, ◌∷◌, max, length};

use overlay_base::segm::fault::Fault;
use std::alloc::Global;

/// The index of no node.
pub const NONE: usize = usize::MAX;

/// The nodes below a node, and how many nodes the longest way down from it has.
#[derive(Clone, Copy)]
pub struct TreeNode {
    pub left: usize,
    pub right: usize,
    pub height: usize,
}

/// The nodes of binary trees. Of the two sides of a node none is higher than the other by two or more.
#[derive(Drop)]
pub struct TreeShape {
    nodes: Vec<TreeNode>,
}

impl TreeShape {
    ghost use Rattle.std.specs.Prelude.{slice_set, slice_index_or, ◌-◌, [], true, OnOk, IfErr};
    ghost use Rattle.overlay_sweep.specs.LiveRows.{none};
    ghost use Rattle.overlay_upstream.specs.TreeShapes.{subtree_height, parent_of, MayHaveSides, AreJoinable, IsJoined, IsParent, IsSound, IsFirstRemoved, lone_node, JoinsTrees, RemovesTop};

    /// No nodes. This takes no memory yet.
    pub fn new(alloc: Global) -> TreeShape
        ensures { result.nodes.items ≡ [] }
    {
        TreeShape {
            nodes: Vec::new(alloc),
        }
    }

    /// Adds a node with none below it, a tree of its own.
    pub fn push(&mut self) -> Result<(), Fault>
        ensures nodes { OnOk result (self.new.nodes.items ≡ self.old.nodes.items ++ lone_node ∷ []) }
        ensures fault { IfErr result (λ fault. fault ≡ Fault.Memory) }
    {
        let node = TreeNode {
            left: NONE,
            right: NONE,
            height: 1,
        };
        self.nodes.push(node)?;
        Ok(())
    }

    /// Drops all nodes.
    pub fn clear(&mut self)
        ensures { self.new.nodes.items ≡ [] }
    {
        self.nodes.clear();
    }

    /// The nodes below a node.
    pub fn node(&self, at: usize) -> TreeNode
        requires { at < length self.now.nodes.items }
        ensures { result ≡ slice_index_or self.now.nodes.items at result }
    {
        self.nodes[at]
    }

    /// How many nodes the longest way down from a node has. There is none below no node.
    pub fn height(&self, at: usize) -> usize
        ensures { result ≡ subtree_height self.now.nodes.items at }
    {
        match self.nodes.get(at) {
            Some(node) => node.height,
            None => 0,
        }
    }

    /// Makes a node the parent of two.
    fn set_sides(&mut self, at: usize, left: usize, right: usize)
        requires { MayHaveSides self.old.nodes.items at left right }
        ensures { self.new.nodes.items ≡ slice_set self.old.nodes.items at (parent_of self.old.nodes.items left right) }
    {
        let height = 1 + self.height(left).max(self.height(right));
        self.nodes[at] = TreeNode {
            left,
            right,
            height,
        };
    }

    /// Joins two trees by a node between them, where the left one is too high.
    fn join_to_high_left(&mut self, left: usize, at: usize, right: usize) -> usize
        requires joinable { AreJoinable self.old.nodes.items left at right }
        requires high { subtree_height self.old.nodes.items left ≡ 2 + subtree_height self.old.nodes.items right }
        ensures { (j : AreJoinable self.old.nodes.items left at right)
            → IsJoined self.old.nodes.items self.new.nodes.items result
            (j.before ++ at ∷ j.after) j.left_height j.right_height }
    {
        let top = self.nodes[left];
        if self.height(top.right) <= self.height(top.left) {
            self.set_sides(at, top.right, right);
            self.set_sides(left, top.left, at);
            return left;
        }
        let middle = self.nodes[top.right];
        self.set_sides(left, top.left, middle.left);
        self.set_sides(at, middle.right, right);
        self.set_sides(top.right, left, at);
        top.right
    }

    /// Joins two trees by a node between them, where the right one is too high.
    fn join_to_high_right(&mut self, left: usize, at: usize, right: usize) -> usize
        requires joinable { AreJoinable self.old.nodes.items left at right }
        requires high { subtree_height self.old.nodes.items right ≡ 2 + subtree_height self.old.nodes.items left }
        ensures { (j : AreJoinable self.old.nodes.items left at right)
            → IsJoined self.old.nodes.items self.new.nodes.items result
            (j.before ++ at ∷ j.after) j.left_height j.right_height }
    {
        let top = self.nodes[right];
        if self.height(top.left) <= self.height(top.right) {
            self.set_sides(at, left, top.left);
            self.set_sides(right, at, top.right);
            return right;
        }
        let middle = self.nodes[top.left];
        self.set_sides(at, left, middle.left);
        self.set_sides(right, middle.right, top.right);
        self.set_sides(top.left, at, right);
        top.left
    }

    /// Joins two trees by a node between them. Returns the top.
    pub fn join(&mut self, left: usize, at: usize, right: usize) -> usize
        requires { AreJoinable self.old.nodes.items left at right }
        ensures { JoinsTrees self.old.nodes.items self.new.nodes.items left at right result }
    {
        let left_height = self.height(left);
        let right_height = self.height(right);
        if right_height + 1 < left_height {
            return self.join_to_high_left(left, at, right);
        }
        if left_height + 1 < right_height {
            return self.join_to_high_right(left, at, right);
        }
        self.set_sides(at, left, right);
        at
    }

    /// The same, with nothing written where the node is the parent of both already.
    pub fn rejoin(&mut self, left: usize, at: usize, right: usize, is_parent: bool) -> usize
        requires joinable { AreJoinable self.old.nodes.items left at right }
        requires parent { is_parent ≡ true → IsParent self.old.nodes.items left at right }
        ensures joined { JoinsTrees self.old.nodes.items self.new.nodes.items left at right result }
        ensures same { is_parent ≡ true → (self.new.nodes.items ≡ self.old.nodes.items) × (result ≡ at) }
    {
        if is_parent {
            return at;
        }
        self.join(left, at, right)
    }

    /// Takes the first node out of a tree. Returns that node, and the top of what is left.
    fn remove_first(&mut self, at: usize) -> (usize, usize)
        requires sound { IsSound self.old.nodes.items at }
        requires some { at ≢ none }
        ensures { (t : IsSound self.old.nodes.items at)
            → IsFirstRemoved self.old.nodes.items self.new.nodes.items result.0 result.1 t.order t.high }
    {
        let node = self.nodes[at];
        if node.left == NONE {
            return (at, node.right);
        }
        let (first, left) = self.remove_first(node.left);
        (first, self.join(left, at, node.right))
    }

    /// Takes the top out of a tree. Returns the top of what is left.
    pub fn remove_top(&mut self, at: usize) -> usize
        requires sound { IsSound self.old.nodes.items at }
        requires some { at ≢ none }
        ensures { RemovesTop self.old.nodes.items self.new.nodes.items at result }
    {
        let node = self.nodes[at];
        if node.right == NONE {
            return node.left;
        }
        let (next, right) = self.remove_first(node.right);
        self.join(node.left, next, right)
    }
}
