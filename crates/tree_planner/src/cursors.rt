//! Children of a node looked through from where the last look ended.
ghost use Rattle.std.specs.Prelude.{◌≡◌, ◌<◌, ◌≤◌, ℕ, length, slice_index_or, None, IfSome};
ghost use Rattle.tree_flow.specs.declared.nodes.TreeNode.{TreeNode};
ghost use Rattle.tree_flow.specs.declared.nodes.TreeNode.TheVariants.{Worker};
ghost use Rattle.tree_flow.specs.Nodes.{IsNode};
ghost use Rattle.tree_flow.specs.Table.{at_node, IsOver};
ghost use Rattle.tree_planner.specs.Hanging.{hanging, AreChildren, HangsFrom};

use crate::children::Children;
use node_ids::WorkerNo;
use rack_tree::RackTree;
use std::alloc::{AllocError, Global};
use tree_flow::{NodeTable, TreeNode};

/// At which of its children each node is looked through first. No contract says which these are: they save
/// looks at children that have nothing left.
#[derive(Drop)]
pub struct Cursors {
    racks: Vec<usize>,
    centres: Vec<usize>,
    cluster: usize,
}

impl Cursors {
    /// Each node is looked through from its first child on.
    pub fn new(alloc: Global, tree: &RackTree) -> Result<Cursors, AllocError> {
        Ok(Cursors {
            racks: vec![in alloc; 0; tree.racks()]?,
            centres: vec![in alloc; 0; tree.centres()]?,
            cluster: 0,
        })
    }

    // From which child on a node is looked through.
    fn of(&self, node: TreeNode) -> usize {
        match node {
            TreeNode::Worker(_) => 0,
            TreeNode::Rack(rack) => place_in(&self.racks, rack as usize),
            TreeNode::Centre(centre) => place_in(&self.centres, centre as usize),
            TreeNode::Cluster => self.cluster,
        }
    }

    /// The nodes above a worker are looked through from their first child on.
    pub fn rewind(&mut self, tree: &RackTree, worker: WorkerNo)
        requires { worker < length tree.now.rack_of }
    {
        let rack = tree.rack_of(worker);
        let centre = tree.centre_of(rack);
        self.put(TreeNode::Rack(rack.index() as u16), 0);
        self.put(TreeNode::Centre(centre.index() as u8), 0);
        self.put(TreeNode::Cluster, 0);
    }

    // A node is looked through from this child on.
    fn put(&mut self, node: TreeNode, child: usize) {
        match node {
            TreeNode::Worker(_) => {}
            TreeNode::Rack(rack) => put_in(&mut self.racks, rack as usize, child),
            TreeNode::Centre(centre) => put_in(&mut self.centres, centre as usize, child),
            TreeNode::Cluster => self.cluster = child,
        }
    }
}

fn place_in(places: &[usize], at: usize) -> usize {
    if at < places.len() { places[at] } else { 0 }
}

fn put_in(places: &mut [usize], at: usize, child: usize) {
    if at < places.len() {
        places[at] = child;
    }
}

/// A child of the node whose number is not 0, if there is one: the first from its cursor on, else the first.
pub fn child_with(
    tree: &RackTree,
    children: &Children,
    numbers: &NodeTable<u64>,
    cursors: &mut Cursors,
    node: TreeNode,
) -> Option<TreeNode>
    requires children { AreChildren tree.now children.now }
    requires known { IsNode tree.now node }
    requires over { IsOver tree.now numbers.now }
    ensures hangs { IfSome result (λ v. HangsFrom tree.now node v) }
    ensures some { IfSome result (λ v. 0 < at_node numbers.now v) }
    ensures none { result ≡ None → (k : ℕ) → k < length (hanging children.now node)
        → at_node numbers.now (slice_index_or (hanging children.now node) k (Worker 0)) ≡ 0 }
{
    let from = cursors.of(node);
    let found = match place_from(tree, children, numbers, node, from) {
        Some(k) => Some(k),
        None => place_from(tree, children, numbers, node, 0),
    };
    let k = found?;
    if k != from {
        cursors.put(node, k);
    }
    Some(children.of(tree, node)[k])
}

// The first place from this one on of a child whose number is not 0.
fn place_from(
    tree: &RackTree,
    children: &Children,
    numbers: &NodeTable<u64>,
    node: TreeNode,
    from: usize,
) -> Option<usize>
    requires children { AreChildren tree.now children.now }
    requires known { IsNode tree.now node }
    requires over { IsOver tree.now numbers.now }
    ensures within { IfSome result (λ k. k < length (hanging children.now node)) }
    ensures some { IfSome result
        (λ k. 0 < at_node numbers.now (slice_index_or (hanging children.now node) k (Worker 0))) }
    ensures none { result ≡ None → (k : ℕ) → from ≤ k → k < length (hanging children.now node)
        → at_node numbers.now (slice_index_or (hanging children.now node) k (Worker 0)) ≡ 0 }
{
    let row = children.of(tree, node);
    for k in from..row.len() {
        if numbers.get(row[k]) > 0 {
            return Some(k);
        }
    }
    None
}
