//! Ways up the tree, and all of its nodes.
ghost use Rattle.std.specs.Prelude.{◌≡◌, ◌<◌, ◌↔◌, length, IsTrue, IfOk, All, Contains, true};
ghost use Rattle.tree_flow.specs.declared.nodes.TreeNode.{TreeNode};
ghost use Rattle.tree_flow.specs.declared.nodes.TreeNode.TheVariants.{Worker};
ghost use Rattle.tree_flow.specs.Nodes.{AreNodes, IsNode, is_under, node_above, parent};
ghost use Rattle.tree_planner.specs.Hanging.{HangsFrom};

use node_ids::{RackNo, WorkerNo};
use rack_tree::RackTree;
use std::alloc::{AllocError, Global};
use tree_flow::TreeNode;

/// The node from which a node hangs; the cluster's hangs from none.
pub fn parent(tree: &RackTree, node: TreeNode) -> TreeNode
    requires { IsNode tree.now node }
    ensures node { result ≡ parent tree.now node }
    ensures known { IsNode tree.now result }
{
    match node {
        TreeNode::Worker(worker) => TreeNode::Rack(
            tree.rack_of(WorkerNo::new(worker)).index() as u16,
        ),
        TreeNode::Rack(rack) => TreeNode::Centre(tree.centre_of(RackNo::new(rack)).index() as u8),
        TreeNode::Centre(_) => TreeNode::Cluster,
        TreeNode::Cluster => TreeNode::Cluster,
    }
}

/// Whether two nodes are the same.
#[inline(always)]
pub fn is_same(one: TreeNode, other: TreeNode) -> bool
    ensures { IsTrue result ↔ (one ≡ other) }
{
    one == other
}

/// Whether a worker stands under a node.
pub fn is_under(tree: &RackTree, worker: WorkerNo, node: TreeNode) -> bool
    requires { worker < length tree.now.rack_of }
    ensures { result ≡ is_under tree.now (Worker worker) node }
{
    let rack = tree.rack_of(worker);
    match node {
        TreeNode::Worker(other) => worker.index() == other as usize,
        TreeNode::Rack(other) => rack.index() == other as usize,
        TreeNode::Centre(centre) => tree.centre_of(rack).index() == centre as usize,
        TreeNode::Cluster => true,
    }
}

/// The node that hangs from the top and under which a worker stands. Where the worker does not stand under
/// the top, the node hangs from another one.
pub fn next_above(tree: &RackTree, top: TreeNode, worker: WorkerNo) -> TreeNode
    requires { worker < length tree.now.rack_of }
    ensures known { IsNode tree.now result }
    ensures next { (v : TreeNode) → HangsFrom tree.now top v → is_under tree.now (Worker worker) v ≡ true
        → result ≡ v }
{
    match top {
        TreeNode::Cluster => node_above(tree, 2, worker),
        TreeNode::Centre(_) => node_above(tree, 1, worker),
        _ => node_above(tree, 0, worker),
    }
}

/// The node so many levels above a worker.
#[inline(always)]
pub fn node_above(tree: &RackTree, level: u8, worker: WorkerNo) -> TreeNode
    requires { worker < length tree.now.rack_of }
    ensures node { result ≡ node_above tree.now level worker }
    ensures known { IsNode tree.now result }
{
    let rack = tree.rack_of(worker);
    match level {
        0 => TreeNode::Worker(worker.index() as u16),
        1 => TreeNode::Rack(rack.index() as u16),
        2 => TreeNode::Centre(tree.centre_of(rack).index() as u8),
        _ => TreeNode::Cluster,
    }
}

/// All nodes of the tree.
pub fn all_nodes(alloc: Global, tree: &RackTree) -> Result<Vec<TreeNode>, AllocError>
    ensures { IfOk result (λ nodes. AreNodes tree.now nodes.items) }
{
    let mut nodes = Vec::new(alloc);
    nodes.push(TreeNode::Cluster)?;
    for c in 0..tree.centres() {
        nodes.push(TreeNode::Centre(c as u8))?;
    }
    for r in 0..tree.racks() {
        nodes.push(TreeNode::Rack(r as u16))?;
    }
    for w in 0..tree.workers() {
        nodes.push(TreeNode::Worker(w as u16))?;
    }
    Ok(nodes)
}
