//! A hole moved along the way that a search back found, until it is filled.
ghost use Rattle.std.specs.Prelude.{◌≡◌, ◌≢◌, ◌+◌, ◌^◌, ◌<◌, ◌≤◌, ℕ, true, Option, Some, length};
ghost use Rattle.tree_flow.specs.declared.nodes.Place.TheVariants.{Stands};
ghost use Rattle.tree_flow.specs.declared.nodes.TreeNode.{TreeNode};
ghost use Rattle.tree_flow.specs.declared.nodes.TreeNode.TheVariants.{Cluster, Worker};
ghost use Rattle.tree_flow.specs.Moves.{IsFlowSet, IsPlaced, IsTaken};
ghost use Rattle.tree_flow.specs.Nodes.{is_under, parent, AreNodes, IsNode};
ghost use Rattle.tree_flow.specs.Table.{at_node, IsOver};
ghost use Rattle.tree_planner.specs.Engine.{with_depth, IsFixed, IsStanding, IsStandingBut};
ghost use Rattle.tree_planner.specs.SearchingBack.{far_at, order_at, HasReached, HasTables, IsBlank};
ghost use Rattle.tree_planner.specs.View.{state_of, AreTables};
ghost use Rattle.tree_planner.specs.WayBack.{AreAllSame, AreHigher, HasMoved, IsDepthSet, IsOnWay, IsReady};

use crate::back::{Hollow, Rest, SearchBack, StepBack, find_rest};
use crate::engine::Fixed;
use crate::follow::{place, set_flow};
use crate::tables::{Tables, add_above};
use crate::tree_nodes::parent;
use node_ids::WorkerNo;
use tree_flow::{End, NodeTable, Place, TreeNode};
use wave_problem::Problem;

/// Fills a hole as cheaply as can be: a split that waits takes the slot, or a slot of a worker becomes free.
/// The search is blank before and after. It looks first at the split that is named, if one is. No memory is
/// needed.
pub fn fill(
    problem: &Problem,
    fixed: &Fixed,
    tables: &mut Tables,
    search: &mut SearchBack,
    hole: TreeNode,
    first: Option<u32>,
)
    requires fixed { IsFixed problem.now fixed.now }
    requires standing { IsStandingBut problem.now tables.old (Some hole) }
    requires known { IsNode problem.now.tree hole }
    requires blank { IsBlank problem.now.tree search.old }
    ensures standing { IsStanding problem.now tables.new }
    ensures unshipped { AreAllSame (state_of tables.old) (state_of tables.new) }
    ensures blank { IsBlank problem.now.tree search.new }
{
    find(problem, fixed, tables, search, hole, first);
    lift(problem, &mut tables.depth, search);
    follow(problem, fixed, tables, search);
    search.clear(problem.tree());
}

// Searches a cheapest way of the hole, which costs nothing once the nodes lie higher.
fn find(
    problem: &Problem,
    fixed: &Fixed,
    tables: &Tables,
    search: &mut SearchBack,
    hole: TreeNode,
    first: Option<u32>,
)
    requires fixed { IsFixed problem.now fixed.now }
    requires standing { IsStandingBut problem.now tables.now (Some hole) }
    requires known { IsNode problem.now.tree hole }
    requires blank { IsBlank problem.now.tree search.old }
    ensures hole { search.new.hole ≡ hole }
    ensures tables { HasTables problem.now.tree search.new }
    ensures reached { HasReached problem.now.tree search.new }
    ensures most { (v : TreeNode) → far_at search.new v ≤ 2 ^ 60 }
    ensures bound { search.new.bound ≤ 2 ^ 60 }
    ensures ready { (depth : NodeTable ℕ) → AreHigher tables.now.depth search.new depth
        → IsReady problem.now (with_depth (state_of tables.now) depth) search.new }
{
    let hollow = Hollow {
        problem,
        fixed,
        tables,
        hole,
        first,
    };
    search.begin(problem, hole);
    find_rest(&hollow, search);
}

// After a search back each node that is nearer than the end of the way lies higher by the rest.
fn lift(problem: &Problem, depth: &mut NodeTable<u64>, search: &SearchBack)
    requires over { IsOver problem.now.tree depth.old }
    requires tables { HasTables problem.now.tree search.now }
    requires reached { HasReached problem.now.tree search.now }
    requires bound { search.now.bound ≤ 2 ^ 60 }
    ensures over { IsOver problem.now.tree depth.new }
    ensures higher { AreHigher depth.old search.now depth.new }
{
    let _ = problem;
    for node in &search.reached {
        let rest = search.bound.saturating_sub(search.far.get(*node));
        depth.set(*node, depth.get(*node).saturating_sub(rest));
    }
}

// Moves the hole along the way that a search back found, and fills it where the way ends.
fn follow(problem: &Problem, fixed: &Fixed, tables: &mut Tables, search: &SearchBack)
    requires fixed { IsFixed problem.now fixed.now }
    requires standing { IsStandingBut problem.now tables.old (Some search.now.hole) }
    requires how { IsOver problem.now.tree search.now.how }
    requires ready { IsReady problem.now (state_of tables.old) search.now }
    ensures standing { IsStanding problem.now tables.new }
    ensures unshipped { AreAllSame (state_of tables.old) (state_of tables.new) }
{
    problem.limits();
    match search.goal {
        Rest::Free(node) => {
            move_to(problem, tables, search, node);
            let worker = sink(problem, fixed, tables, node);
            give_slot(problem, tables, worker);
        }
        Rest::Join(split, end) => {
            move_to(problem, tables, search, end.node);
            put_split(problem, tables, split, end);
        }
    }
}

// Moves the hole along the way that a search back found, as far as a node.
fn move_to(problem: &Problem, tables: &mut Tables, search: &SearchBack, node: TreeNode)
    requires tables { AreTables problem.now tables.old }
    requires how { IsOver problem.now.tree search.now.how }
    requires ready { IsReady problem.now (state_of tables.old) search.now }
    requires known { IsNode problem.now.tree node }
    requires on_way { IsOnWay search.now node }
    ensures depth { tables.new.depth ≡ tables.old.depth }
    ensures tables { AreTables problem.now tables.new }
    ensures moved { HasMoved problem.now (state_of tables.old) (state_of tables.new) search.now node }
{
    problem.limits();
    match search.how.get(node) {
        StepBack::Start => {}
        StepBack::Rise(below) => {
            move_to(problem, tables, search, below);
            let units = tables.flow.get(below) + 1;
            put_units(problem, tables, below, units);
        }
        StepBack::Sink => {
            let up = parent(problem.tree(), node);
            move_to(problem, tables, search, up);
            let units = tables.flow.get(node) - 1;
            put_units(problem, tables, node, units);
        }
        StepBack::Over(split, end) => {
            move_to(problem, tables, search, end.node);
            put_split(problem, tables, split, end);
        }
    }
}

/// Lets a hole sink to a worker, from node to node to which units go; where a node lies higher than its
/// parent,
/// it is deepened first. The worker's number.
pub fn sink(problem: &Problem, fixed: &Fixed, tables: &mut Tables, node: TreeNode) -> u16
    requires fixed { IsFixed problem.now fixed.now }
    requires known { IsNode problem.now.tree node }
    requires standing { IsStandingBut problem.now tables.old (Some node) }
    ensures standing { IsStandingBut problem.now tables.new (Some (Worker result)) }
    ensures worker { result < length problem.now.workers }
    ensures under { is_under problem.now.tree (Worker result) node ≡ true }
    ensures depth { at_node tables.new.depth (Worker result) ≡ at_node tables.old.depth node }
    ensures places { (state_of tables.new).places ≡ (state_of tables.old).places }
{
    if let TreeNode::Worker(worker) = node {
        return worker;
    }
    let below = child_with_units(problem, fixed, tables, node);
    sink_to(problem, fixed, tables, node, below);
    sink(problem, fixed, tables, below)
}

// A node to which units go from the one from which it hangs.
fn child_with_units(problem: &Problem, fixed: &Fixed, tables: &Tables, node: TreeNode) -> TreeNode
    requires fixed { IsFixed problem.now fixed.now }
    requires known { IsNode problem.now.tree node }
    requires standing { IsStandingBut problem.now tables.now (Some node) }
    requires inner { (w : ℕ) → node ≢ Worker w }
    ensures known { IsNode problem.now.tree result }
    ensures above { parent problem.now.tree result ≡ node }
    ensures hangs { result ≢ Cluster }
    ensures some { 0 < at_node tables.now.flow result }
{
    for below in fixed.children.of(problem.tree(), node) {
        if tables.flow.get(*below) > 0 {
            return *below;
        }
    }
    unreachable!()
}

/// Moves a hole from a node to one that hangs from it and to which units go.
pub fn sink_to(
    problem: &Problem,
    fixed: &Fixed,
    tables: &mut Tables,
    node: TreeNode,
    below: TreeNode,
)
    requires fixed { IsFixed problem.now fixed.now }
    requires standing { IsStandingBut problem.now tables.old (Some node) }
    requires known { IsNode problem.now.tree below }
    requires above { parent problem.now.tree below ≡ node }
    requires hangs { below ≢ Cluster }
    requires some { 0 < at_node tables.old.flow below }
    ensures standing { IsStandingBut problem.now tables.new (Some below) }
    ensures depth { at_node tables.new.depth below ≡ at_node tables.old.depth node }
    ensures places { (state_of tables.new).places ≡ (state_of tables.old).places }
    ensures flows { (v : TreeNode) → v ≢ below → at_node tables.new.flow v ≡ at_node tables.old.flow v }
{
    deepen(problem, fixed, tables, below);
    let units = tables.flow.get(below) - 1;
    put_units(problem, tables, below, units);
}

/// Deepens a node that units fill as far as its parent. A node that they do not fill lies as deep as that.
pub fn deepen(problem: &Problem, fixed: &Fixed, tables: &mut Tables, node: TreeNode)
    requires fixed { IsFixed problem.now fixed.now }
    requires known { IsNode problem.now.tree node }
    requires hangs { node ≢ Cluster }
    requires tables { AreTables problem.now tables.old }
    ensures tables { AreTables problem.now tables.new }
    ensures standing { (hole : Option TreeNode) → IsStandingBut problem.now tables.old hole
        → IsStandingBut problem.now tables.new hole }
    ensures level { (hole : Option TreeNode) → IsStandingBut problem.now tables.old hole
        → at_node tables.new.depth (parent problem.now.tree node) ≤ at_node tables.new.depth node }
    ensures others { (v : TreeNode) → v ≢ node → at_node tables.new.depth v ≡ at_node tables.old.depth v }
    ensures places { (state_of tables.new).places ≡ (state_of tables.old).places }
    ensures flow { (state_of tables.new).flow ≡ (state_of tables.old).flow }
{
    let up = tables.depth.get(parent(problem.tree(), node));
    if tables.flow.get(node) == fixed.slots.get(node) && tables.depth.get(node) < up {
        set_depth(problem, tables, node, up);
    }
}

// Gives a node another depth.
fn set_depth(problem: &Problem, tables: &mut Tables, node: TreeNode, depth: u64)
    requires tables { AreTables problem.now tables.old }
    requires known { IsNode problem.now.tree node }
    ensures tables { AreTables problem.now tables.new }
    ensures set { IsDepthSet (state_of tables.old) (state_of tables.new) node depth }
    ensures places { (state_of tables.new).places ≡ (state_of tables.old).places }
{
    let _ = problem;
    tables.depth.set(node, depth);
}

// Gives a node other units.
fn put_units(problem: &Problem, tables: &mut Tables, node: TreeNode, units: u64)
    requires tables { AreTables problem.now tables.old }
    requires known { IsNode problem.now.tree node }
    ensures tables { AreTables problem.now tables.new }
    ensures set { IsFlowSet (state_of tables.old) (state_of tables.new) node units }
    ensures depth { tables.new.depth ≡ tables.old.depth }
    ensures places { (state_of tables.new).places ≡ (state_of tables.old).places }
{
    set_flow(problem, tables, node, units);
}

// Lets a split stand at an end.
fn put_split(problem: &Problem, tables: &mut Tables, split: u32, end: End)
    requires tables { AreTables problem.now tables.old }
    requires split { split < length tables.old.places.items }
    requires known { IsNode problem.now.tree end.node }
    ensures tables { AreTables problem.now tables.new }
    ensures placed { IsPlaced (state_of tables.old) (state_of tables.new) split (Stands end) }
    ensures depth { tables.new.depth ≡ tables.old.depth }
{
    place(problem, tables, split, Place::Stands(end));
}

// Makes a slot of a worker free.
fn give_slot(problem: &Problem, tables: &mut Tables, worker: u16)
    requires tables { AreTables problem.now tables.old }
    requires known { worker < length problem.now.workers }
    requires few { (v : TreeNode) → at_node tables.old.below v + 1 < 2 ^ 64 }
    requires few_own { (state_of tables.old).free worker + 1 < 2 ^ 64 }
    ensures tables { AreTables problem.now tables.new }
    ensures taken { IsTaken problem.now (state_of tables.new) (state_of tables.old) worker }
    ensures depth { tables.new.depth ≡ tables.old.depth }
    ensures places { (state_of tables.new).places ≡ (state_of tables.old).places }
{
    give_free(problem, tables, worker);
    add_above(problem, &mut tables.below, WorkerNo::new(worker), 1);
    tables.cursors.rewind(problem.tree(), WorkerNo::new(worker));
}

fn give_free(problem: &Problem, tables: &mut Tables, worker: u16)
    requires known { worker < length problem.now.workers }
    requires size { length tables.old.free.items ≡ length problem.now.workers }
    requires few { (state_of tables.old).free worker + 1 < 2 ^ 64 }
    ensures taken { IsTaken problem.now (state_of tables.new) (state_of tables.old) worker }
    ensures rest { tables.new ≡ record tables.old { free = tables.new.free } }
    ensures size { length tables.new.free.items ≡ length tables.old.free.items }
{
    let _ = problem;
    tables.free[worker as usize] += 1;
}
