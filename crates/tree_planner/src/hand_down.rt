//! Units handed down to workers.
ghost use Rattle.std.specs.Prelude.{◌≡◌, ◌≢◌, ℕ, ◌<◌, ◌≤◌, ◌^◌, IfOk, All, Contains, length, List, Option};
ghost use Rattle.std.specs.Prelude.{None};
ghost use Rattle.wave_problem.specs.Assignment.{pairs_of};
ghost use Rattle.tree_flow.specs.declared.nodes.End.{End};
ghost use Rattle.tree_flow.specs.declared.nodes.Place.TheVariants.{Unshipped};
ghost use Rattle.tree_flow.specs.declared.nodes.TreeNode.{TreeNode};
ghost use Rattle.tree_flow.specs.declared.nodes.TreeNode.TheVariants.{Cluster, Worker};
ghost use Rattle.tree_planner.specs.Hanging.{AreChildren};
ghost use Rattle.tree_planner.specs.Handing.{landed, AreHandedDown, ArePlanned, AreStanding, HasStand, HasUnitAt};
ghost use Rattle.tree_planner.specs.Handing.{IsUnitAt};
ghost use Rattle.tree_flow.specs.Nodes.{parent, IsKnown, IsNode};
ghost use Rattle.tree_flow.specs.Settled.{HasComeDown};
ghost use Rattle.tree_flow.specs.State.{State, place_of, IsBalancedBut, IsKept};
ghost use Rattle.tree_flow.specs.Table.{at_node, IsOver};
ghost use Rattle.tree_planner.specs.View.{state_of, AreTables};

use crate::children::Children;
use crate::cursors::{Cursors, child_with};
use crate::follow::stood_at;
use crate::tables::Tables;
use node_ids::{SplitNo, WorkerNo};
use std::alloc::{AllocError, Global};
use tree_flow::{NodeTable, Place, TreeNode};
use wave_problem::{Plan, Problem};

// Where there is at most one cell for so many splits, the cells are looked through, and not all splits.
const FEW: usize = 8;

/// The splits that start, each with its worker, by rising split: where one stands, a worker to which its unit
/// goes down.
pub fn all_starts(
    alloc: Global,
    problem: &Problem,
    children: &Children,
    tables: &Tables,
) -> Result<Vec<(SplitNo, WorkerNo)>, AllocError>
    requires children { AreChildren problem.now.tree children.now }
    requires tables { AreTables problem.now tables.now }
    requires kept { IsKept problem.now (state_of tables.now) }
    requires shipped { (s : ℕ) → s < length problem.now.splits
        → place_of (state_of tables.now) s ≢ Unshipped }
    ensures { IfOk result (λ pairs. AreHandedDown problem.now (state_of tables.now) pairs.items) }
{
    problem.limits();
    let mut left = tables.flow.copy(alloc)?;
    let mut cursors = Cursors::new(alloc, problem.tree())?;
    let standing = standing_splits(alloc, problem, tables)?;
    let mut pairs = Vec::with_capacity(alloc, standing.len())?;
    for split in &standing {
        let end = stood_at(tables, *split);
        let worker = go_down(problem, children, &mut left, &mut cursors, end.node);
        let number = SplitNo::new(*split);
        let on = WorkerNo::new(worker);
        pairs.push((number, on))?;
    }
    Ok(pairs)
}

// The splits that stand, by rising number.
fn standing_splits(
    alloc: Global,
    problem: &Problem,
    tables: &Tables,
) -> Result<Vec<u32>, AllocError>
    requires { AreTables problem.now tables.now }
    ensures { IfOk result (λ splits. AreStanding (state_of tables.now) splits.items) }
{
    if tables.standing.used > problem.splits() / FEW {
        return standing_of_all(alloc, problem, tables);
    }
    let mut splits = standing_of_cells(alloc, problem, tables)?;
    splits.sort_unstable();
    splits.dedup();
    Ok(splits)
}

// The same, found among all splits.
fn standing_of_all(
    alloc: Global,
    problem: &Problem,
    tables: &Tables,
) -> Result<Vec<u32>, AllocError>
    requires { AreTables problem.now tables.now }
    ensures { IfOk result (λ splits. AreStanding (state_of tables.now) splits.items) }
{
    problem.limits();
    let mut splits = Vec::new(alloc);
    for s in 0..problem.splits() {
        if let Place::Stands(_) = place_at(tables, s) {
            splits.push(s as u32)?;
        }
    }
    Ok(splits)
}

// The splits that stand, found in the cells of the lists: in the order of the cells, some of them twice.
fn standing_of_cells(
    alloc: Global,
    problem: &Problem,
    tables: &Tables,
) -> Result<Vec<u32>, AllocError>
    requires { AreTables problem.now tables.now }
    ensures each { IfOk result (λ splits. All (HasStand (state_of tables.now)) splits.items) }
    ensures all { IfOk result (λ splits. (s : ℕ) → HasStand (state_of tables.now) s
        → Contains splits.items s) }
{
    let _ = problem;
    let mut splits = Vec::new(alloc);
    for k in 0..tables.standing.used {
        let split = tables.standing.split_at(k);
        if let Place::Stands(_) = place_at(tables, split as usize) {
            splits.push(split)?;
        }
    }
    Ok(splits)
}

/// The plan that starts just these pairs.
pub fn plan_of(
    alloc: Global,
    problem: &Problem,
    pairs: &[(SplitNo, WorkerNo)],
) -> Result<Plan, AllocError>
    requires { ArePlanned problem.now pairs.now }
    ensures starts { IfOk result (λ plan. (starts : List (Option ℕ)) → length starts ≡ length problem.now.splits
        → pairs_of starts ≡ pairs.now → plan.starts ≡ starts) }
    ensures workers { IfOk result (λ plan. plan.workers ≡ length problem.now.workers) }
{
    problem.limits();
    let mut plan = Plan::new(alloc, problem.splits(), problem.workers())?;
    for pair in pairs {
        plan.set(pair.0, Some(pair.1));
    }
    Ok(plan)
}

/// Where a split is.
pub fn place_at(tables: &Tables, split: usize) -> Place
    requires { split < length tables.now.places.items }
    ensures { result ≡ place_of (state_of tables.now) split }
{
    tables.places[split]
}

// The worker to which a unit goes down from a node; on the way it is taken from what comes to each node.
fn go_down(
    problem: &Problem,
    children: &Children,
    left: &mut NodeTable<u64>,
    cursors: &mut Cursors,
    node: TreeNode,
) -> u16
    requires children { AreChildren problem.now.tree children.now }
    requires known { IsNode problem.now.tree node }
    requires over { IsOver problem.now.tree left.old }
    requires unit { HasUnitAt problem.now left.old node }
    ensures over { IsOver problem.now.tree left.new }
    ensures worker { result < length problem.now.workers }
    ensures fell { (v : TreeNode) → at_node left.new v ≤ at_node left.old v }
    ensures down { (state : State) → ((v : TreeNode) → at_node left.old v ≤ state.flow v)
        → HasComeDown problem.now.tree state node result }
    ensures landed { (now : State) (s : ℕ) (e : End) → IsUnitAt problem.now left.old node now s e
        → IsBalancedBut problem.now (landed now s result left.new) None }
{
    problem.limits();
    if let TreeNode::Worker(worker) = node {
        return worker;
    }
    let below = unit_below(problem, children, left, cursors, node);
    let units = left.get(below) - 1;
    left.set(below, units);
    go_down(problem, children, left, cursors, below)
}

// A node to which units come from the one from which it hangs.
fn unit_below(
    problem: &Problem,
    children: &Children,
    left: &NodeTable<u64>,
    cursors: &mut Cursors,
    node: TreeNode,
) -> TreeNode
    requires children { AreChildren problem.now.tree children.now }
    requires over { IsOver problem.now.tree left.now }
    requires unit { HasUnitAt problem.now left.now node }
    requires inner { (w : ℕ) → node ≢ Worker w }
    requires known { IsNode problem.now.tree node }
    requires racks { IsKnown problem.now }
    ensures known { IsNode problem.now.tree result }
    ensures above { parent problem.now.tree result ≡ node }
    ensures hangs { result ≢ Cluster }
    ensures some { 0 < at_node left.now result }
{
    match child_with(problem.tree(), children, left, cursors, node) {
        Some(below) => below,
        None => unreachable!(),
    }
}
