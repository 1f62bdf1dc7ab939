//! The state, in tables.
ghost use Rattle.std.specs.Prelude.{◌≡◌, ◌≢◌, ℕ, ◌+◌, ◌<◌, ◌≤◌, ◌^◌, cond, true, length, slice_index, All, IfOk};
ghost use Rattle.tree_flow.specs.declared.nodes.Place.TheVariants.{Unshipped};
ghost use Rattle.wave_problem.specs.declared.TheConstants.{MAX_SLOTS};
ghost use Rattle.tree_flow.specs.declared.nodes.TreeNode.{TreeNode};
ghost use Rattle.tree_flow.specs.declared.nodes.TreeNode.TheVariants.{Worker};
ghost use Rattle.tree_flow.specs.Nodes.{is_under};
ghost use Rattle.price_certificate.specs.Places.{full_reward};
ghost use Rattle.tree_flow.specs.Settled.{AreTermsOf};
ghost use Rattle.tree_flow.specs.Slots.{IsFresh};
ghost use Rattle.tree_flow.specs.State.{slots_of, sum_under};
ghost use Rattle.tree_flow.specs.Table.{at_node, HasNode, IsOver, IsSized};
ghost use Rattle.tree_planner.specs.View.{state_of, AreTables};

use crate::cursors::Cursors;
use crate::lists::Standing;
use node_ids::WorkerNo;
use price_certificate::PlacePrices;
use std::alloc::{AllocError, Global};
use tree_flow::{NodeTable, Place, TreeNode};
use wave_problem::Problem;

/// Where each split is, how many units come to each node from its parent, how deep each node lies, how many
/// slots of each worker are free, and how many under each node; lists of the splits that stand at each node;
/// where free slots are looked for; and what a start is worth, and what the places of the workers cost.
pub struct Tables {
    pub places: Vec<Place>,
    pub flow: NodeTable<u64>,
    pub depth: NodeTable<u64>,
    pub free: Vec<u64>,
    pub below: NodeTable<u64>,
    pub standing: Standing,
    pub cursors: Cursors,
    pub worth: u64,
    pub prices: PlacePrices,
}

// (one call wherever it is dropped)
impl Drop for Tables {
    fn drop(self) {
        let Tables {
            places: _,
            flow: _,
            depth: _,
            free: _,
            below: _,
            standing: _,
            cursors: _,
            worth: _,
            prices: _,
        } = self;
    }
}

/// Tables in which no split is shipped, and all slots are free, where a start is worth so much and places
/// have these prices.
pub fn fresh_tables(
    alloc: Global,
    problem: &Problem,
    worth: u64,
    prices: PlacePrices,
) -> Result<Tables, AllocError>
    requires worth { worth ≡ full_reward prices problem.now }
    ensures terms { IfOk result (λ t. AreTermsOf problem.now prices (state_of t).terms) }
    ensures tables { IfOk result (λ t. AreTables problem.now t) }
    ensures fresh { IfOk result (λ t. IsFresh problem.now (state_of t)) }
{
    prices.limits();
    let flow = NodeTable::new(alloc, problem.tree(), 0)?;
    let depth = NodeTable::new(alloc, problem.tree(), 0)?;
    let free = free_slots(alloc, problem)?;
    let below = slots_under(alloc, problem)?;
    let standing = Standing::new(alloc, problem.tree(), problem.splits())?;
    let places = all_unshipped(alloc, problem)?;
    let cursors = Cursors::new(alloc, problem.tree())?;
    Ok(Tables {
        places,
        flow,
        depth,
        free,
        below,
        standing,
        cursors,
        worth,
        prices,
    })
}

// No split is shipped.
fn all_unshipped(alloc: Global, problem: &Problem) -> Result<Vec<Place>, AllocError>
    ensures size { IfOk result (λ places. length places.items ≡ length problem.now.splits) }
    ensures all { IfOk result (λ places. All (λ place. place ≡ Unshipped) places.items) }
{
    Ok(vec![in alloc; Place::Unshipped; problem.splits()]?)
}

// The slots that each worker can give.
fn free_slots(alloc: Global, problem: &Problem) -> Result<Vec<u64>, AllocError>
    ensures size { IfOk result (λ free. length free.items ≡ length problem.now.workers) }
    ensures slots { IfOk result (λ free. (w : ℕ) → slice_index free.items w ≡ slots_of problem.now w) }
{
    let mut free = Vec::new(alloc);
    for w in 0..problem.workers() {
        free.push(slots_of(problem, WorkerNo::new(w as u16)))?;
    }
    Ok(free)
}

/// The slots that a worker can give.
pub fn slots_of(problem: &Problem, worker: WorkerNo) -> u64
    requires { worker < length problem.now.workers }
    ensures slots { result ≡ slots_of problem.now worker }
    ensures most { result ≤ MAX_SLOTS }
{
    if problem.is_live(worker) {
        u64::from(problem.free(worker))
    } else {
        0
    }
}

/// How many slots there are under each node.
pub fn slots_under(alloc: Global, problem: &Problem) -> Result<NodeTable<u64>, AllocError>
    ensures over { IfOk result (λ slots. IsOver problem.now.tree slots) }
    ensures sums { IfOk result (λ slots. (v : TreeNode)
        → at_node slots v ≡ sum_under problem.now v (slots_of problem.now)) }
{
    let mut slots = NodeTable::new(alloc, problem.tree(), 0)?;
    for w in 0..problem.workers() {
        let worker = WorkerNo::new(w as u16);
        let more = slots_of(problem, worker);
        add_above(problem, &mut slots, worker, more);
    }
    Ok(slots)
}

/// Adds to the numbers of a worker and of the nodes above it.
pub fn add_above(problem: &Problem, numbers: &mut NodeTable<u64>, worker: WorkerNo, more: u64)
    requires worker { worker < length problem.now.workers }
    requires over { IsOver problem.now.tree numbers.old }
    requires small { (v : TreeNode) → at_node numbers.old v + more < 2 ^ 64 }
    ensures size { IsSized numbers.old numbers.new }
    ensures added { (v : TreeNode) → at_node numbers.new v
        ≡ at_node numbers.old v + cond (is_under problem.now.tree (Worker worker) v) more 0 }
{
    let rack = problem.tree().rack_of(worker);
    let centre = problem.tree().centre_of(rack);
    add(numbers, TreeNode::Worker(worker.index() as u16), more);
    add(numbers, TreeNode::Rack(rack.index() as u16), more);
    add(numbers, TreeNode::Centre(centre.index() as u8), more);
    add(numbers, TreeNode::Cluster, more);
}

// Adds to the number of a node.
fn add(numbers: &mut NodeTable<u64>, node: TreeNode, more: u64)
    requires node { HasNode numbers.old node }
    requires small { at_node numbers.old node + more < 2 ^ 64 }
    ensures here { at_node numbers.new node ≡ at_node numbers.old node + more }
    ensures others { (v : TreeNode) → v ≢ node → at_node numbers.new v ≡ at_node numbers.old v }
    ensures size { IsSized numbers.old numbers.new }
{
    let sum = numbers.get(node) + more;
    numbers.set(node, sum);
}

/// Takes one from the numbers of a worker and of the nodes above it.
pub fn one_less_above(problem: &Problem, numbers: &mut NodeTable<u64>, worker: WorkerNo)
    requires worker { worker < length problem.now.workers }
    requires over { IsOver problem.now.tree numbers.old }
    requires some { (v : TreeNode) → is_under problem.now.tree (Worker worker) v ≡ true
        → 0 < at_node numbers.old v }
    ensures size { IsSized numbers.old numbers.new }
    ensures less { (v : TreeNode) → at_node numbers.old v
        ≡ at_node numbers.new v + cond (is_under problem.now.tree (Worker worker) v) 1 0 }
{
    let rack = problem.tree().rack_of(worker);
    let centre = problem.tree().centre_of(rack);
    one_less(numbers, TreeNode::Cluster);
    one_less(numbers, TreeNode::Centre(centre.index() as u8));
    one_less(numbers, TreeNode::Rack(rack.index() as u16));
    one_less(numbers, TreeNode::Worker(worker.index() as u16));
}

// Takes one from the number of a node.
fn one_less(numbers: &mut NodeTable<u64>, node: TreeNode)
    requires node { HasNode numbers.old node }
    requires some { 0 < at_node numbers.old node }
    ensures here { at_node numbers.old node ≡ at_node numbers.new node + 1 }
    ensures others { (v : TreeNode) → v ≢ node → at_node numbers.old v ≡ at_node numbers.new v }
    ensures size { IsSized numbers.old numbers.new }
{
    let rest = numbers.get(node) - 1;
    numbers.set(node, rest);
}
