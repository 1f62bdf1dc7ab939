//! The nodes that hang from each node.
ghost use Rattle.std.specs.Prelude.{◌≡◌, ◌++◌, ◌∷◌, [], ◌⊎◌, ◌↔◌, IfOk, OnOk, Contains, ℕ, length};
ghost use Rattle.tree_flow.specs.declared.nodes.TreeNode.{TreeNode};
ghost use Rattle.tree_flow.specs.Nodes.{AreNodes, IsNode};
ghost use Rattle.tree_planner.specs.Hanging.{hanging, row_at, AreChildren, AreSized, HangsFrom};

use crate::tree_nodes::parent;
use rack_tree::RackTree;
use std::alloc::{AllocError, Global};
use std::marker::Model;
use tree_flow::TreeNode;

/// Some nodes.
#[derive(Drop)]
pub struct Row(Vec<TreeNode>);

impl Model for Row {
    ghost use Rattle.std.specs.Prelude.{List};
    ghost use Rattle.tree_flow.specs.declared.nodes.TreeNode.{TreeNode};

    ghost Value = { List TreeNode };

    ghost view = { λ r. r.0.items };
}

/// The nodes that hang from each node, by the number of the node.
#[derive(Drop)]
pub struct Children {
    pub racks: Vec<Row>,
    pub centres: Vec<Row>,
    pub cluster: Row,
    pub worker: Row,
}

impl Children {
    /// The nodes that hang from a node.
    pub fn of(&self, tree: &RackTree, node: TreeNode) -> &[TreeNode]
        requires known { IsNode tree.now node }
        requires sized { AreSized tree.now self.now }
        ensures { result.now ≡ hanging self.now node }
    {
        let _ = tree;
        match node {
            TreeNode::Worker(_) => &self.worker.0,
            TreeNode::Rack(rack) => &self.racks[rack as usize].0,
            TreeNode::Centre(centre) => &self.centres[centre as usize].0,
            TreeNode::Cluster => &self.cluster.0,
        }
    }
}

/// The nodes of the tree, each with those from which they hang.
pub fn all_children(
    alloc: Global,
    tree: &RackTree,
    nodes: &[TreeNode],
) -> Result<Children, AllocError>
    requires { AreNodes tree.now nodes.now }
    ensures { IfOk result (λ children. AreChildren tree.now children) }
{
    tree.limits();
    let mut children = no_children(alloc, tree)?;
    for node in nodes {
        hang(&mut children, tree, *node)?;
    }
    Ok(children)
}

// Nothing hangs from any node yet.
fn no_children(alloc: Global, tree: &RackTree) -> Result<Children, AllocError>
    ensures sized { IfOk result (λ children. AreSized tree.now children) }
    ensures none { IfOk result (λ children. (u : TreeNode) → hanging children u ≡ []) }
{
    Ok(Children {
        racks: rows(alloc, tree.racks())?,
        centres: rows(alloc, tree.centres())?,
        cluster: Row(Vec::new(alloc)),
        worker: Row(Vec::new(alloc)),
    })
}

fn rows(alloc: Global, count: usize) -> Result<Vec<Row>, AllocError>
    ensures size { IfOk result (λ rows. length rows.items ≡ count) }
    ensures none { IfOk result (λ rows. (k : ℕ) → row_at rows.items k ≡ []) }
{
    let mut rows = Vec::new(alloc);
    for _k in 0..count {
        rows.push(Row(Vec::new(alloc)))?;
    }
    Ok(rows)
}

// Hangs a node from its parent.
fn hang(children: &mut Children, tree: &RackTree, node: TreeNode) -> Result<(), AllocError>
    requires known { IsNode tree.now node }
    requires sized { AreSized tree.now children.old }
    ensures sized { OnOk result (AreSized tree.now children.new) }
    ensures hangs { OnOk result ((u v : TreeNode) → Contains (hanging children.new u) v
        ↔ (Contains (hanging children.old u) v ⊎ ((v ≡ node) × HangsFrom tree.now u v))) }
{
    if let TreeNode::Cluster = node {
        return Ok(());
    }
    match parent(tree, node) {
        TreeNode::Worker(_) => {}
        TreeNode::Rack(rack) => push_to(&mut children.racks[rack as usize], node)?,
        TreeNode::Centre(centre) => push_to(&mut children.centres[centre as usize], node)?,
        TreeNode::Cluster => push_to(&mut children.cluster, node)?,
    }
    Ok(())
}

fn push_to(row: &mut Row, node: TreeNode) -> Result<(), AllocError>
    ensures { OnOk result (row.new ≡ row.old ++ node ∷ []) }
{
    row.0.push(node)?;
    Ok(())
}
