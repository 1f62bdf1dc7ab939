//! A slot of a worker that goes away.
ghost use Rattle.std.specs.Prelude.{◌≡◌, ◌≢◌, ◌<◌, ℕ, true, OnErr, OnOk, Some, length};
ghost use Rattle.wave_problem.specs.Wave.{IsUsable};
ghost use Rattle.tree_flow.specs.declared.nodes.End.{End};
ghost use Rattle.tree_flow.specs.declared.nodes.Place.TheVariants.{Stands};
ghost use Rattle.tree_flow.specs.declared.nodes.TreeNode.TheVariants.{Cluster, Worker};
ghost use Rattle.tree_flow.specs.Nodes.{is_under, parent, IsNode};
ghost use Rattle.tree_flow.specs.Settled.{HasComeDown};
ghost use Rattle.tree_flow.specs.State.{place_of};
ghost use Rattle.tree_planner.specs.Engine.{IsFixed, IsStanding, IsStandingBut};
ghost use Rattle.tree_planner.specs.Events.{slot_less};
ghost use Rattle.tree_planner.specs.Handing.{AreHandedDown};
ghost use Rattle.tree_planner.specs.View.{state_of};

use crate::engine::Fixed;
use crate::events::{remove_slot, settle, take_off};
use crate::follow::{stood_at, take_slot};
use crate::hand_down::all_starts;
use crate::refill::sink_to;
use crate::tables::Tables;
use crate::tree_nodes::node_above;
use node_ids::{SplitNo, WorkerNo};
use std::alloc::{AllocError, Global};
use tree_flow::TreeNode;
use wave_problem::Problem;

/// A slot of a worker goes away. Where none of its slots is free, a split that would start on it is not
/// shipped any more. Without memory the problem stays.
pub fn lose(
    alloc: Global,
    problem: &mut Problem,
    fixed: &mut Fixed,
    tables: &mut Tables,
    worker: WorkerNo,
) -> Result<(), AllocError>
    requires fixed { IsFixed problem.old fixed.old }
    requires standing { IsStanding problem.old tables.old }
    requires worker { worker < length problem.old.workers }
    requires usable { IsUsable problem.old.workers worker }
    ensures wave { OnOk result (problem.new ≡ slot_less problem.old worker) }
    ensures err { OnErr result (problem.new ≡ problem.old) }
    ensures fixed { IsFixed problem.new fixed.new }
    ensures standing { IsStanding problem.new tables.new }
{
    empty_slot(alloc, problem, fixed, tables, worker)?;
    remove_slot(problem, fixed, tables, worker);
    Ok(())
}

// Leaves a hole at a worker.
fn empty_slot(
    alloc: Global,
    problem: &Problem,
    fixed: &Fixed,
    tables: &mut Tables,
    worker: WorkerNo,
) -> Result<(), AllocError>
    requires fixed { IsFixed problem.now fixed.now }
    requires standing { IsStanding problem.now tables.old }
    requires worker { worker < length problem.now.workers }
    requires usable { IsUsable problem.now.workers worker }
    ensures hole { OnOk result (IsStandingBut problem.now tables.new (Some (Worker worker))) }
    ensures err { OnErr result (IsStanding problem.now tables.new) }
{
    if tables.free[worker.index()] > 0 {
        empty_free_slot(problem, tables, worker);
        return Ok(());
    }
    empty_any_slot(alloc, problem, fixed, tables, worker)
}

// The same once all splits are shipped, so that it is known which of them start on the worker.
fn empty_any_slot(
    alloc: Global,
    problem: &Problem,
    fixed: &Fixed,
    tables: &mut Tables,
    worker: WorkerNo,
) -> Result<(), AllocError>
    requires fixed { IsFixed problem.now fixed.now }
    requires standing { IsStanding problem.now tables.old }
    requires worker { worker < length problem.now.workers }
    requires usable { IsUsable problem.now.workers worker }
    ensures hole { OnOk result (IsStandingBut problem.now tables.new (Some (Worker worker))) }
    ensures err { OnErr result (IsStanding problem.now tables.new) }
{
    settle(alloc, problem, fixed, tables)?;
    let pairs = all_starts(alloc, problem, &fixed.children, tables)?;
    if tables.free[worker.index()] > 0 {
        empty_free_slot(problem, tables, worker);
    } else {
        pull_from(problem, fixed, tables, worker, &pairs);
    }
    Ok(())
}

// Takes a free slot of a worker.
fn empty_free_slot(problem: &Problem, tables: &mut Tables, worker: WorkerNo)
    requires standing { IsStanding problem.now tables.old }
    requires worker { worker < length problem.now.workers }
    requires some { 0 < (state_of tables.old).free worker }
    ensures hole { IsStandingBut problem.now tables.new (Some (Worker worker)) }
{
    take_slot(problem, tables, worker.index() as u16);
}

// Takes a split off that starts on a worker without a free slot, and lets the hole sink to the worker.
fn pull_from(
    problem: &Problem,
    fixed: &Fixed,
    tables: &mut Tables,
    worker: WorkerNo,
    pairs: &[(SplitNo, WorkerNo)],
)
    requires fixed { IsFixed problem.now fixed.now }
    requires standing { IsStanding problem.now tables.old }
    requires worker { worker < length problem.now.workers }
    requires usable { IsUsable problem.now.workers worker }
    requires full { (state_of tables.old).free worker ≡ 0 }
    requires down { AreHandedDown problem.now (state_of tables.old) pairs.now }
    ensures hole { IsStandingBut problem.now tables.new (Some (Worker worker)) }
{
    let split = start_on(problem, tables, worker, pairs);
    let end = stood_at(tables, split);
    take_off(problem, tables, split, end);
    sink_toward(problem, fixed, tables, end.node, worker);
}

// A split that starts on a worker without a free slot.
fn start_on(
    problem: &Problem,
    tables: &Tables,
    worker: WorkerNo,
    pairs: &[(SplitNo, WorkerNo)],
) -> u32
    requires standing { IsStanding problem.now tables.now }
    requires worker { worker < length problem.now.workers }
    requires usable { IsUsable problem.now.workers worker }
    requires full { (state_of tables.now).free worker ≡ 0 }
    requires down { AreHandedDown problem.now (state_of tables.now) pairs.now }
    ensures known { result < length problem.now.splits }
    ensures down { (e : End) × (place_of (state_of tables.now) result ≡ Stands e)
        × HasComeDown problem.now.tree (state_of tables.now) e.node worker }
{
    let _splits = problem.splits();
    for pair in pairs {
        let on = pair.1.index();
        if on == worker.index() {
            let split = pair.0.index();
            return split as u32;
        }
    }
    unreachable!()
}

// Lets a hole sink to a worker to which a unit has come down.
fn sink_toward(
    problem: &Problem,
    fixed: &Fixed,
    tables: &mut Tables,
    node: TreeNode,
    worker: WorkerNo,
)
    requires fixed { IsFixed problem.now fixed.now }
    requires known { IsNode problem.now.tree node }
    requires worker { worker < length problem.now.workers }
    requires standing { IsStandingBut problem.now tables.old (Some node) }
    requires down { HasComeDown problem.now.tree (state_of tables.old) node worker }
    ensures standing { IsStandingBut problem.now tables.new (Some (Worker worker)) }
{
    if let TreeNode::Worker(_) = node {
        return;
    }
    let below = child_toward(problem, node, worker);
    sink_to(problem, fixed, tables, node, below);
    sink_toward(problem, fixed, tables, below, worker);
}

// The node that hangs from another on the way down to a worker.
fn child_toward(problem: &Problem, node: TreeNode, worker: WorkerNo) -> TreeNode
    requires worker { worker < length problem.now.workers }
    requires under { is_under problem.now.tree (Worker worker) node ≡ true }
    requires inner { (w : ℕ) → node ≢ Worker w }
    ensures known { IsNode problem.now.tree result }
    ensures above { parent problem.now.tree result ≡ node }
    ensures hangs { result ≢ Cluster }
    ensures under { is_under problem.now.tree (Worker worker) result ≡ true }
{
    let tree = problem.tree();
    match node {
        TreeNode::Cluster => node_above(tree, 2, worker),
        TreeNode::Centre(_) => node_above(tree, 1, worker),
        TreeNode::Rack(_) => node_above(tree, 0, worker),
        TreeNode::Worker(_) => unreachable!(),
    }
}
