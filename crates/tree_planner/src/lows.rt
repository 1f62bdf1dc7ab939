//! What each split would pay at least at another node than its own, two racks left out.
ghost use Rattle.std.specs.Prelude.{◌≡◌, ◌⊎◌, ◌↔◌, ℕ, IfOk, IsTrue};
ghost use Rattle.tree_planner.specs.Lows.{low_at, no_low, IsSpared};

use crate::tree_nodes::is_same;
use std::alloc::{AllocError, Global};
use tree_flow::TreeNode;

/// A node and the numbers of two racks, which need not be racks of the tree.
#[derive(Clone, Copy)]
pub struct Spared {
    pub node: TreeNode,
    pub one: u16,
    pub two: u16,
}

/// What an end of a split costs at least, unless it is at a spared node.
#[derive(Clone, Copy)]
pub struct Low {
    pub spared: Spared,
    pub least: u64,
}

/// Whether a node is spared.
pub fn is_spared(spared: Spared, node: TreeNode) -> bool
    ensures { IsTrue result ↔ IsSpared spared node }
{
    is_same(node, spared.node)
        || is_same(node, TreeNode::Rack(spared.one))
        || is_same(node, TreeNode::Rack(spared.two))
}

/// A low for each split, or for none.
#[derive(Drop)]
pub struct Lows {
    pub each: Vec<Low>,
}

impl Lows {
    /// Lows of so many splits that say nothing.
    pub fn new(alloc: Global, splits: usize) -> Result<Lows, AllocError>
        ensures { IfOk result (λ lows. (s : ℕ) → low_at lows s ≡ no_low) }
    {
        Ok(Lows {
            each: vec![in alloc; none(); splits]?,
        })
    }

    /// The low of a split; one that says nothing, if it has none.
    pub fn of(&self, split: u32) -> Low
        ensures { result ≡ low_at self.now split }
    {
        let place = split as usize;
        if place < self.each.len() {
            self.each[place]
        } else {
            none()
        }
    }

    /// Gives a split another low, if it has one.
    pub fn put(&mut self, split: u32, low: Low)
        ensures { (s : ℕ) → (low_at self.new s ≡ low_at self.old s)
            ⊎ ((s ≡ split) × (low_at self.new s ≡ low)) }
    {
        let place = split as usize;
        if place < self.each.len() {
            self.each[place] = low;
        }
    }
}

// A low that says nothing.
fn none() -> Low
    ensures { result ≡ no_low }
{
    Low {
        spared: Spared {
            node: TreeNode::Cluster,
            one: 0,
            two: 0,
        },
        least: 0,
    }
}

/// A low that says nothing and spares this node, and no rack.
pub fn nothing_but(node: TreeNode) -> Low
    ensures { result.least ≡ 0 }
{
    Low {
        spared: Spared {
            node,
            one: u16::MAX,
            two: u16::MAX,
        },
        least: 0,
    }
}
