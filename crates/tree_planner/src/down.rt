//! Free slots under a node.
ghost use Rattle.std.specs.Prelude.{◌≡◌, ◌≢◌, ℕ, ◌<◌, ◌≤◌, true, length, Some};
ghost use Rattle.tree_flow.specs.declared.nodes.TreeNode.{TreeNode};
ghost use Rattle.tree_flow.specs.declared.nodes.TreeNode.TheVariants.{Worker};
ghost use Rattle.tree_flow.specs.Nodes.{is_under, IsKnown, IsNode};
ghost use Rattle.tree_flow.specs.State.{IsKept, IsKeptBut};
ghost use Rattle.tree_flow.specs.Table.{at_node, IsOver};
ghost use Rattle.tree_planner.specs.Hanging.{AreChildren, HangsFrom};
ghost use Rattle.tree_planner.specs.View.{state_of, AreSums, AreTables};
ghost use Rattle.tree_planner.specs.Way.{AreCheap};

use crate::children::Children;
use crate::cursors::{Cursors, child_with};
use crate::follow::{set_flow, take_slot};
use crate::tables::Tables;
use crate::tree_nodes::{is_same, parent};
use tree_flow::{NodeTable, TreeNode};
use wave_problem::Problem;

/// Takes a free slot under a node, from which a unit more goes down to it: a hole is left at the node.
pub fn take_below(problem: &Problem, children: &Children, tables: &mut Tables, node: TreeNode)
    requires children { AreChildren problem.now.tree children.now }
    requires wave { IsKnown problem.now }
    requires tables { AreTables problem.now tables.old }
    requires kept { IsKept problem.now (state_of tables.old) }
    requires known { IsNode problem.now.tree node }
    requires some { 0 < at_node tables.old.below node }
    requires cheap { AreCheap problem.now (state_of tables.old) node }
    ensures tables { AreTables problem.now tables.new }
    ensures hole { IsKeptBut problem.now (state_of tables.new) (Some node) }
    ensures places { (state_of tables.new).places ≡ (state_of tables.old).places }
    ensures depth { tables.new.depth ≡ tables.old.depth }
    ensures terms { (state_of tables.new).terms ≡ (state_of tables.old).terms }
    ensures flows { (c : TreeNode) → (state_of tables.old).flow c ≤ (state_of tables.new).flow c }
{
    let worker = free_worker(problem, children, &tables.below, &mut tables.cursors, node);
    take_slot(problem, tables, worker);
    raise_hole(problem, tables, TreeNode::Worker(worker), node);
}

// A worker under the node that has a free slot.
fn free_worker(
    problem: &Problem,
    children: &Children,
    below: &NodeTable<u64>,
    cursors: &mut Cursors,
    node: TreeNode,
) -> u16
    requires children { AreChildren problem.now.tree children.now }
    requires wave { IsKnown problem.now }
    requires over { IsOver problem.now.tree below.now }
    requires sums { AreSums problem.now below.now }
    requires known { IsNode problem.now.tree node }
    requires some { 0 < at_node below.now node }
    ensures known { result < length problem.now.workers }
    ensures free { 0 < at_node below.now (Worker result) }
    ensures under { is_under problem.now.tree (Worker result) node ≡ true }
{
    let mut at = node;
    loop {
        if let TreeNode::Worker(worker) = at {
            return worker;
        }
        at = free_child(problem, children, below, cursors, at);
    }
}

// A node that hangs from another and has a free slot under it.
fn free_child(
    problem: &Problem,
    children: &Children,
    below: &NodeTable<u64>,
    cursors: &mut Cursors,
    node: TreeNode,
) -> TreeNode
    requires children { AreChildren problem.now.tree children.now }
    requires wave { IsKnown problem.now }
    requires over { IsOver problem.now.tree below.now }
    requires sums { AreSums problem.now below.now }
    requires known { IsNode problem.now.tree node }
    requires inner { (w : ℕ) → node ≢ Worker w }
    requires some { 0 < at_node below.now node }
    ensures hangs { HangsFrom problem.now.tree node result }
    ensures some { 0 < at_node below.now result }
{
    match child_with(problem.tree(), children, below, cursors, node) {
        Some(child) => child,
        None => unreachable!(),
    }
}

// Moves a hole up from one node to another, over nodes that lie as deep as that: a unit more goes down to
// each.
fn raise_hole(problem: &Problem, tables: &mut Tables, from: TreeNode, node: TreeNode)
    requires tables { AreTables problem.now tables.old }
    requires hole { IsKeptBut problem.now (state_of tables.old) (Some from) }
    requires known { IsNode problem.now.tree from }
    requires under { is_under problem.now.tree from node ≡ true }
    requires flat { (u : TreeNode) → is_under problem.now.tree from u ≡ true → is_under problem.now.tree u node ≡ true
        → (state_of tables.old).depth u ≡ (state_of tables.old).depth node }
    ensures tables { AreTables problem.now tables.new }
    ensures hole { IsKeptBut problem.now (state_of tables.new) (Some node) }
    ensures places { (state_of tables.new).places ≡ (state_of tables.old).places }
    ensures depth { tables.new.depth ≡ tables.old.depth }
    ensures terms { (state_of tables.new).terms ≡ (state_of tables.old).terms }
    ensures flows { (c : TreeNode) → (state_of tables.old).flow c ≤ (state_of tables.new).flow c }
{
    problem.limits();
    let mut hole = from;
    while !is_same(hole, node) {
        let units = tables.flow.get(hole) + 1;
        set_flow(problem, tables, hole, units);
        hole = parent(problem.tree(), hole);
    }
}
