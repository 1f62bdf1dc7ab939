//! Builds the direct network of a problem.
ghost use Rattle.std.specs.Prelude.{◌≡◌, ℕ, ◌+◌, ◌*◌, ◌<◌, ◌≤◌, ◌^◌, ◌∷◌, ◌++◌, [], length, IfOk, OnOk};
ghost use Rattle.std.specs.Prelude.{slice_index, IsTrue, ◌↔◌};
ghost use Rattle.wave_problem.specs.Wave.{live_holders, reward as reward_in, IsAdmissible, IsOpen};
ghost use Rattle.network_prices.specs.Building.{IsAdded};
ghost use Rattle.direct_network.specs.declared.arcs.TheConstants.{MAX_ARCS};
ghost use Rattle.direct_network.specs.declared.network.TheConstants.{MAX_SPLITS, MAX_WORKERS};
ghost use Rattle.direct_network.specs.Direct.{arc_of, worker_node, IsDirect, IsSized, IsWanted};
ghost use Rattle.direct_network.specs.Build.{IsBuilt};
ghost use Rattle.direct_network.specs.Marks.{AreMarksTo, Shows};

use crate::marks::Marks;
use crate::{DirectArc, DirectLayout, DirectNode};
use flow_network::{NetError, Network};
use node_ids::{SplitNo, WorkerNo};
use std::alloc::{AllocError, Global};
use wave_problem::Problem;

/// How many splits a problem may have for its direct network to be built.
pub const MAX_SPLITS: usize = 1024;

/// How many workers it may have.
pub const MAX_WORKERS: usize = 256;

/// The direct network of a problem, without flow: first each split's arcs, to workers and to `Unstarted`;
/// then the workers' arcs to `Sink`, then that of `Unstarted`. Of a problem of more than `MAX_SPLITS` splits,
/// or of more than `MAX_WORKERS` workers, none is made, as where memory is wanting.
pub fn build(alloc: Global, problem: &Problem) -> Result<Network<DirectLayout>, AllocError>
    ensures layout { IfOk result (λ network. IsSized problem.now network.layout) }
    ensures arcs { IfOk result (λ network. IsDirect problem.now network.arcs) }
    ensures empty { IfOk result (λ network. (k : ℕ) → slice_index network.flows k ≡ 0) }
    ensures most { IfOk result (λ network. length network.arcs ≤ MAX_ARCS) }
    ensures few_splits { IfOk result (λ _. length problem.now.splits ≤ MAX_SPLITS) }
    ensures few_workers { IfOk result (λ _. length problem.now.workers ≤ MAX_WORKERS) }
{
    if problem.splits() > MAX_SPLITS || problem.workers() > MAX_WORKERS {
        return Err(AllocError);
    }
    let layout = DirectLayout {
        splits: problem.splits() as u16,
        workers: problem.workers() as u16,
    };
    let mut network = Network::new(alloc, layout)?;
    let (splits, workers) = (problem.splits(), problem.workers());
    network.reserve(splits * (workers + 1) + workers + 1)?;
    make_room_for_workers(&mut network, problem)?;
    add_splits(alloc, &mut network, problem)?;
    add_workers(&mut network, problem)?;
    add(&mut network, problem, DirectArc::Rest, 0)?;
    Ok(network)
}

// Takes the memory for the lists of the workers' arcs at once.
fn make_room_for_workers(
    network: &mut Network<DirectLayout>,
    problem: &Problem,
) -> Result<(), AllocError>
    requires few_splits { length problem.now.splits ≤ MAX_SPLITS }
    requires few_workers { length problem.now.workers ≤ MAX_WORKERS }
    requires sized { IsSized problem.now network.old.layout }
    ensures { network.new ≡ network.old }
{
    let splits = unbarred_splits(problem);
    for i in 0..problem.workers() {
        network.make_room(DirectNode::Worker(WorkerNo::new(i as u16)), splits + 1)?;
    }
    Ok(())
}

// How many splits are pending without a barred pair.
fn unbarred_splits(problem: &Problem) -> usize
    ensures { result ≤ length problem.now.splits }
{
    let mut count = 0;
    for i in 0..problem.splits() {
        if is_unbarred(problem, SplitNo::new(i as u32)) {
            count += 1;
        }
    }
    count
}

// Whether a split is pending, and none of its pairs is barred.
fn is_unbarred(problem: &Problem, split: SplitNo) -> bool
    requires { split < length problem.now.splits }
{
    problem.is_pending(split) && problem.bars(split).is_empty()
}

// Adds the arcs that leave splits.
fn add_splits(
    alloc: Global,
    network: &mut Network<DirectLayout>,
    problem: &Problem,
) -> Result<(), AllocError>
    requires few_splits { length problem.now.splits ≤ MAX_SPLITS }
    requires few_workers { length problem.now.workers ≤ MAX_WORKERS }
    requires built { IsBuilt problem.now 0 0 0 network.old }
    ensures { OnOk result
        (IsBuilt problem.now (length problem.now.splits) 0 (257 * length problem.now.splits) network.new) }
{
    problem.limits();
    let reward = problem.reward();
    let mut marks = Marks::new(alloc, problem)?;
    for i in 0..problem.splits() {
        let split = SplitNo::new(i as u32);
        marks.mark_split(problem, split);
        add_split(network, problem, &marks, split, reward)?;
    }
    Ok(())
}

// Adds the arcs that leave a split.
fn add_split(
    network: &mut Network<DirectLayout>,
    problem: &Problem,
    marks: &Marks,
    split: SplitNo,
    reward: u64,
) -> Result<(), AllocError>
    requires split { split < length problem.now.splits }
    requires few_splits { length problem.now.splits ≤ MAX_SPLITS }
    requires few_workers { length problem.now.workers ≤ MAX_WORKERS }
    requires marks { AreMarksTo problem.now (split + 1) marks.now }
    requires shown { Shows problem.now.tree (live_holders problem.now split) (split + 1) marks.now }
    requires reward { reward ≡ reward_in problem.now }
    requires small { reward < 2 ^ 47 }
    requires built { IsBuilt problem.now split 0 (257 * split) network.old }
    ensures built { OnOk result (IsBuilt problem.now (split + 1) 0 (257 * split + 257) network.new) }
{
    let arcs = if is_unbarred(problem, split) {
        problem.workers() + 1
    } else {
        0
    };
    network.make_room(DirectNode::Split(split), arcs)?;
    add_pairs(network, problem, marks, split)?;
    if problem.is_pending(split) {
        add(network, problem, DirectArc::Wait(split), reward)?;
    }
    Ok(())
}

// Adds the arcs from a split to workers.
fn add_pairs(
    network: &mut Network<DirectLayout>,
    problem: &Problem,
    marks: &Marks,
    split: SplitNo,
) -> Result<(), AllocError>
    requires split { split < length problem.now.splits }
    requires few_splits { length problem.now.splits ≤ MAX_SPLITS }
    requires few_workers { length problem.now.workers ≤ MAX_WORKERS }
    requires marks { AreMarksTo problem.now (split + 1) marks.now }
    requires shown { Shows problem.now.tree (live_holders problem.now split) (split + 1) marks.now }
    requires built { IsBuilt problem.now split 0 (257 * split) network.old }
    ensures built { OnOk result
        (IsBuilt problem.now split (worker_node problem.now (length problem.now.workers))
        (257 * split + 256) network.new) }
{
    let is_open = is_open(problem, split);
    for i in 0..problem.workers() {
        let worker = WorkerNo::new(i as u16);
        if may_start(problem, is_open, split, worker) {
            let cost = marks.cost(problem, split, worker);
            add(network, problem, DirectArc::Pair(split, worker), cost)?;
        }
    }
    Ok(())
}

// Whether a split is pending and has a live holder: else it may start nowhere.
fn is_open(problem: &Problem, split: SplitNo) -> bool
    requires { split < length problem.now.splits }
    ensures { IsTrue result ↔ IsOpen problem.now split }
{
    problem.is_pending(split) && problem.has_live_holder(split)
}

// As `Problem::admissible`, where it is known whether the split is open.
fn may_start(problem: &Problem, is_open: bool, split: SplitNo, worker: WorkerNo) -> bool
    requires split { split < length problem.now.splits }
    requires worker { worker < length problem.now.workers }
    requires open_split { IsTrue is_open ↔ IsOpen problem.now split }
    ensures { IsTrue result ↔ IsAdmissible problem.now split worker }
{
    is_open
        && problem.is_live(worker)
        && problem.free(worker) > 0
        && !problem.is_barred(split, worker)
}

// Adds the arcs that leave workers.
fn add_workers(network: &mut Network<DirectLayout>, problem: &Problem) -> Result<(), AllocError>
    requires few_splits { length problem.now.splits ≤ MAX_SPLITS }
    requires few_workers { length problem.now.workers ≤ MAX_WORKERS }
    requires built { IsBuilt problem.now (length problem.now.splits) 0
        (257 * length problem.now.splits) network.old }
    ensures { OnOk result (IsBuilt problem.now (worker_node problem.now (length problem.now.workers)) 0
        (257 * length problem.now.splits + length problem.now.workers) network.new) }
{
    for i in 0..problem.workers() {
        add(
            network,
            problem,
            DirectArc::Slot(WorkerNo::new(i as u16)),
            0,
        )?;
    }
    Ok(())
}

// Adds one arc.
fn add(
    network: &mut Network<DirectLayout>,
    problem: &Problem,
    arc: DirectArc,
    cost: u64,
) -> Result<(), AllocError>
    requires few_splits { length problem.now.splits ≤ MAX_SPLITS }
    requires few_workers { length problem.now.workers ≤ MAX_WORKERS }
    requires layout { IsSized problem.now network.old.layout }
    requires wanted { IsWanted problem.now arc }
    requires cost { cost ≡ (arc_of problem.now arc).cost }
    requires small { cost < 2 ^ 47 }
    requires room { length network.old.arcs < MAX_ARCS }
    ensures { OnOk result (IsAdded (arc_of problem.now arc) network.old network.new) }
{
    let capacity = arc.capacity(problem);
    let start = arc.start();
    let end = arc.end();
    match network.add_arc(start, end, capacity, cost) {
        Ok(_) => Ok(()),
        Err(NetError::Memory) => Err(AllocError),
        Err(NetError::ArcLimit) => unreachable!(),
    }
}
