//! Lists of the splits that stand at each node.
ghost use Rattle.std.specs.Prelude.{◌≡◌, ◌+◌, ◌<◌, ◌≤◌, ◌↔◌, ◌^◌, ℕ, IfOk, IsTrue, length};
ghost use Rattle.tree_flow.specs.declared.nodes.TreeNode.{TreeNode};
ghost use Rattle.tree_flow.specs.Nodes.{IsNode};
ghost use Rattle.tree_flow.specs.Table.{at_node, IsOver};
ghost use Rattle.tree_planner.specs.Listing.{at_cell, AreLists, HasListed, IsLast};

use rack_tree::RackTree;
use std::alloc::{AllocError, Global};
use tree_flow::{NodeTable, TreeNode};

/// A split that was put on the list of a node, and the place of the cell before it there.
#[derive(Clone, Copy)]
pub struct Cell {
    pub node: TreeNode,
    pub split: u32,
    pub before: usize,
}

/// A list for each node, of the splits that stand there and of some that stood there. The cells of all lists
/// lie in one row, in which the used cells come first. A cell is named by its place, from 1; 0 ends a
/// list.
#[derive(Drop)]
pub struct Standing {
    pub cells: Vec<Cell>,
    pub used: usize,
    pub last: NodeTable<usize>,
}

impl Standing {
    /// Lists without splits, with room for two cells a split.
    pub fn new(alloc: Global, tree: &RackTree, splits: usize) -> Result<Standing, AllocError>
        requires { splits ≤ 2 ^ 32 }
        ensures lists { IfOk result (λ standing. AreLists tree.now splits standing) }
        ensures none { IfOk result (λ standing. standing.used ≡ 0) }
    {
        let last = NodeTable::new(alloc, tree, 0)?;
        let blank = Cell {
            node: TreeNode::Cluster,
            split: 0,
            before: 0,
        };
        Ok(Standing {
            cells: vec![in alloc; blank; 2 * splits]?,
            used: 0,
            last,
        })
    }

    /// The place of the last cell on the list of a node, or 0.
    pub fn last_of(&self, tree: &RackTree, node: TreeNode) -> usize
        requires known { IsNode tree.now node }
        requires over { IsOver tree.now self.now.last }
        ensures { result ≡ at_node self.now.last node }
    {
        let _ = tree;
        self.last.get(node)
    }

    /// The split of a cell, by its place from 0 on.
    pub fn split_at(&self, place: usize) -> u32
        requires { place < length self.now.cells.items }
        ensures { result ≡ (at_cell self.now.cells.items place).split }
    {
        self.cells[place].split
    }

    /// Whether no cell is left.
    pub fn is_full(&self) -> bool
        ensures { IsTrue result ↔ (length self.now.cells.items ≤ self.now.used) }
    {
        self.cells.len() <= self.used
    }

    /// Puts a split on the list of a node.
    pub fn add(&mut self, tree: &RackTree, splits: usize, node: TreeNode, split: u32)
        requires lists { AreLists tree.now splits self.old }
        requires known { IsNode tree.now node }
        requires split { split < splits }
        requires room { self.old.used < length self.old.cells.items }
        ensures lists { AreLists tree.now splits self.new }
        ensures here { HasListed self.new node split }
        ensures others { (v : TreeNode) (t : ℕ) → HasListed self.old v t → HasListed self.new v t }
        ensures used { self.new.used ≡ self.old.used + 1 }
    {
        let before = self.last.get(node);
        self.cells[self.used] = Cell {
            node,
            split,
            before,
        };
        self.used += 1;
        self.last.set(node, self.used);
    }

    /// Takes all splits off the lists.
    pub fn clear(&mut self, tree: &RackTree, splits: usize)
        requires { AreLists tree.now splits self.old }
        ensures lists { AreLists tree.now splits self.new }
        ensures none { self.new.used ≡ 0 }
    {
        self.used = 0;
        self.last.fill(0);
    }
}
