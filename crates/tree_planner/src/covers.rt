//! How near the nodes that hang from each node are, as far as a search knows.
ghost use Rattle.std.specs.Prelude.{◌≡◌, ◌≢◌, IfOk, length};
ghost use Rattle.tree_flow.specs.declared.nodes.TreeNode.{TreeNode};
ghost use Rattle.tree_flow.specs.Table.{at_or, HasNode, IsSized};
ghost use Rattle.tree_planner.specs.Covers.{no_cover, IsOverInner};

use crate::reached::FAR;
use node_ids::RackNo;
use rack_tree::RackTree;
use std::alloc::{AllocError, Global};
use std::marker::Model;
use tree_flow::{NodeTable, TreeNode};

/// How near the nodes that hang from a node are that some split's ends do not leave out: no farther than the
/// offset with their depth, what a start is worth taken off.
#[derive(Clone, Copy)]
pub struct Cover {
    pub offset: u64,
    pub split: u32,
}

/// A cover for each rack and centre, and one for the cluster. To forget them takes no pass over the racks,
/// unless one was put.
#[derive(Drop)]
pub struct Covers {
    table: NodeTable<Cover>,
    is_used: bool,
}

impl Model for Covers {
    ghost use Rattle.std.specs.Prelude.{◌≡◌, false};
    ghost use Rattle.tree_flow.specs.declared.node_table.NodeTable.{NodeTable};
    ghost use Rattle.tree_flow.specs.declared.nodes.TreeNode.{TreeNode};
    ghost use Rattle.tree_flow.specs.Table.{at_or};
    ghost use Rattle.tree_planner.specs.declared.covers.Cover.{Cover};
    ghost use Rattle.tree_planner.specs.Covers.{no_cover};

    ghost Value = { NodeTable Cover };

    ghost view = { λ c. c.table };

    ghost invariant = { λ c. c.is_used ≡ false → (u : TreeNode) → at_or c.table no_cover u ≡ no_cover };
}

impl Covers {
    /// Nothing is known of the nodes of a tree.
    pub fn new(alloc: Global, tree: &RackTree) -> Result<Covers, AllocError>
        ensures over { IfOk result (λ covers. IsOverInner tree.now covers) }
    {
        let inner = without_workers(alloc, tree)?;
        Ok(Covers {
            table: NodeTable::new(alloc, &inner, none())?,
            is_used: false,
        })
    }

    /// The cover of a node.
    pub fn of(&self, node: TreeNode) -> Cover
        requires { HasNode self.now node }
        ensures { result ≡ at_or self.now no_cover node }
    {
        self.table.get(node)
    }

    /// Gives a node another cover.
    pub fn put(&mut self, node: TreeNode, cover: Cover)
        requires { HasNode self.old node }
        ensures here { at_or self.new no_cover node ≡ cover }
        ensures others { (u : TreeNode) → u ≢ node → at_or self.new no_cover u ≡ at_or self.old no_cover u }
        ensures size { IsSized self.old self.new }
    {
        self.table.set(node, cover);
        self.is_used = true;
    }

    /// Forgets the covers.
    pub fn clear(&mut self)
        ensures size { IsSized self.old self.new }
        ensures none { (u : TreeNode) → at_or self.new no_cover u ≡ no_cover }
    {
        if self.is_used {
            self.table.fill(none());
            self.is_used = false;
        }
    }
}

// The cover of a node of which nothing is known.
fn none() -> Cover
    ensures { result ≡ no_cover }
{
    Cover {
        offset: 2 * FAR,
        split: 0,
    }
}

// The racks and centres of a tree alone.
fn without_workers(alloc: Global, tree: &RackTree) -> Result<RackTree, AllocError>
    ensures racks { IfOk result (λ inner. length inner.centre_of ≡ length tree.now.centre_of) }
    ensures centres { IfOk result (λ inner. inner.centres ≡ tree.now.centres) }
{
    let mut centre_of = Vec::with_capacity(alloc, tree.racks())?;
    for r in 0..tree.racks() {
        centre_of.push(tree.centre_of(RackNo::new(r as u16)))?;
    }
    Ok(RackTree::from_lists(tree.centres(), centre_of, Vec::new(alloc)))
}
