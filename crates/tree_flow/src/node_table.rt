//! A value for each node of the tree.
ghost use Rattle.std.specs.Prelude.{◌≡◌, ◌≢◌, ◌+◌, ◌<◌, ◌^◌, length, IfOk, replicate, ℕ, slice_index_or};
ghost use Rattle.tree_flow.specs.Table.{at_or, HasNode, IsOver, IsSized};
ghost use Rattle.tree_flow.specs.declared.nodes.TreeNode.{TreeNode};

use crate::nodes::TreeNode;
use rack_tree::RackTree;
use std::alloc::{AllocError, Global};

/// A value for each node of the tree.
#[derive(Drop)]
pub struct NodeTable<T> {
    workers: Vec<T>,
    racks: Vec<T>,
    centres: Vec<T>,
    cluster: T,
}

fn filled<T: Copy>(alloc: Global, count: usize, value: T) -> Result<Vec<T>, AllocError>
    ensures { IfOk result (λ values. values.items ≡ replicate count value) }
{
    let mut values = Vec::with_capacity(alloc, count)?;
    for _k in 0..count {
        values.push_reserved(value);
    }
    Ok(values)
}

fn refill<T: Copy>(values: &mut Vec<T>, value: T)
    ensures size { length values.new.items ≡ length values.old.items }
    ensures each { (k : ℕ) → slice_index_or values.new.items k value ≡ value }
{
    for k in 0..values.len() {
        values[k] = value;
    }
}

fn copied<T: Copy>(alloc: Global, values: &[T]) -> Result<Vec<T>, AllocError>
    ensures { IfOk result (λ copy. copy.items ≡ values.now) }
{
    let mut copy = Vec::with_capacity(alloc, values.len())?;
    copy.extend_from_slice(values)?;
    Ok(copy)
}

impl<T: Copy> NodeTable<T> {
    /// The same value at each node.
    pub fn new(alloc: Global, tree: &RackTree, value: T) -> Result<Self, AllocError>
        ensures over { IfOk result (λ table. IsOver tree.now table) }
        ensures all { IfOk result (λ table. (v : TreeNode) → at_or table value v ≡ value) }
    {
        Ok(NodeTable {
            workers: filled(alloc, tree.workers(), value)?,
            racks: filled(alloc, tree.racks(), value)?,
            centres: filled(alloc, tree.centres(), value)?,
            cluster: value,
        })
    }

    /// Another table with the same values.
    pub fn copy(&self, alloc: Global) -> Result<Self, AllocError>
        ensures same { IfOk result (λ copy. (d : T) (v : TreeNode) → at_or copy d v ≡ at_or self.now d v) }
        ensures size { IfOk result (λ copy. IsSized self.now copy) }
    {
        Ok(NodeTable {
            workers: copied(alloc, &self.workers)?,
            racks: copied(alloc, &self.racks)?,
            centres: copied(alloc, &self.centres)?,
            cluster: self.cluster,
        })
    }

    /// The value at a node.
    pub fn get(&self, node: TreeNode) -> T
        requires { HasNode self.now node }
        ensures { (d : T) → result ≡ at_or self.now d node }
    {
        match node {
            TreeNode::Worker(worker) => self.workers[worker as usize],
            TreeNode::Rack(rack) => self.racks[rack as usize],
            TreeNode::Centre(centre) => self.centres[centre as usize],
            TreeNode::Cluster => self.cluster,
        }
    }

    /// Gives the node another value.
    pub fn set(&mut self, node: TreeNode, value: T)
        requires { HasNode self.old node }
        ensures here { (d : T) → at_or self.new d node ≡ value }
        ensures others { (d : T) (v : TreeNode) → v ≢ node → at_or self.new d v ≡ at_or self.old d v }
        ensures size { IsSized self.old self.new }
    {
        match node {
            TreeNode::Worker(worker) => self.workers[worker as usize] = value,
            TreeNode::Rack(rack) => self.racks[rack as usize] = value,
            TreeNode::Centre(centre) => self.centres[centre as usize] = value,
            TreeNode::Cluster => self.cluster = value,
        }
    }

    /// Gives all nodes the same value.
    pub fn fill(&mut self, value: T)
        ensures all { (v : TreeNode) → at_or self.new value v ≡ value }
        ensures size { IsSized self.old self.new }
    {
        refill(&mut self.workers, value);
        refill(&mut self.racks, value);
        refill(&mut self.centres, value);
        self.cluster = value;
    }
}
