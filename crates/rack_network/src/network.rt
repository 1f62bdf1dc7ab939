//! Builds the rack network of a problem.
ghost use Rattle.std.specs.Prelude.{◌≡◌, ℕ, suc, ◌+◌, ◌<◌, ◌≤◌, ◌↔◌, length, true};
ghost use Rattle.std.specs.Prelude.{IfOk, IsTrue, OnOk, slice_index};
ghost use Rattle.wave_problem.specs.Wave.{split_at, IsUsable};
ghost use Rattle.network_prices.specs.Building.{IsAdded};
ghost use Rattle.rack_network.specs.declared.network.TheConstants.{MAX_ARCS};
ghost use Rattle.rack_network.specs.Racks.{arc_of, count, node, parent, start, unstarted_node};
ghost use Rattle.rack_network.specs.Racks.{HasBars, IsDown, IsHeldUnder, IsRackNetwork, IsSized};
ghost use Rattle.rack_network.specs.Racks.{IsTree, IsUnder, IsWanted};
ghost use Rattle.rack_network.specs.Build.{IsBuilt, IsSmallWave};

use crate::levels::{above, count, parent, slots};
use crate::{RackArc, RackLayout};
use flow_network::{NetError, Network};
use node_ids::{SplitNo, WorkerNo};
use std::alloc::{AllocError, Global};
use wave_problem::Problem;

/// How many splits a problem may have for its rack network to be built.
pub const MAX_SPLITS: usize = 1024;

/// How many data centres it may have.
pub const MAX_CENTRES: usize = 8;

/// How many racks it may have, in all its centres together.
pub const MAX_RACKS: usize = 32;

/// How many workers it may have, in all its racks together.
pub const MAX_WORKERS: usize = 256;

/// How many free slots its live workers may have together: one arc can lead to all of them.
pub const MAX_SLOTS: u64 = 4096;

/// How many arcs a rack network has at most: 299 places past the splits in each of 1,323 rows.
pub const MAX_ARCS: usize = 395_577;

/// The rack network of a problem, without flow, row by row: of each split the arcs to `Cluster`, to data
/// centres, to racks, to workers and to `Unstarted`, then those of `Cluster`, of the centres, of the racks
/// and of the workers, then the last. Where live holders of a split stand below one node, one arc leads from
/// the split to it. Of a problem past `MAX_SPLITS`, `MAX_CENTRES`, `MAX_RACKS` or `MAX_WORKERS`, or with more
/// than `MAX_SLOTS` free slots of live workers, none is made, as where memory is wanting.
pub fn build(alloc: Global, problem: &Problem) -> Result<Network<RackLayout>, AllocError>
    ensures layout { IfOk result (λ network. IsSized problem.now network.layout) }
    ensures arcs { IfOk result (λ network. IsRackNetwork problem.now network.arcs) }
    ensures empty { IfOk result (λ network. (k : ℕ) → slice_index network.flows k ≡ 0) }
    ensures most { IfOk result (λ network. length network.arcs ≤ MAX_ARCS) }
    ensures small { IfOk result (λ _. IsSmallWave problem.now) }
{
    if !is_small(problem) {
        return Err(AllocError);
    }
    let layout = RackLayout {
        splits: problem.splits() as u16,
        centres: problem.tree().centres() as u8,
        racks: problem.tree().racks() as u16,
        workers: problem.workers() as u16,
    };
    let mut network = Network::new(alloc, layout)?;
    know_tree(problem);
    add_splits(&mut network, problem)?;
    add_level(&mut network, problem, 2)?;
    add_level(&mut network, problem, 1)?;
    add_level(&mut network, problem, 0)?;
    add_slots(&mut network, problem)?;
    add(&mut network, problem, RackArc::Rest)?;
    Ok(network)
}

// That the tree says where each worker and each rack stands, and that there are few of all.
fn know_tree(problem: &Problem)
    ensures { IsTree problem.now }
{
    problem.limits();
}

// Whether the network is built for the problem. (Where there are few splits, the reward too is small enough
// for an arc.)
fn is_small(problem: &Problem) -> bool
    ensures { IsTrue result ↔ IsSmallWave problem.now }
{
    problem.limits();
    let tree = problem.tree();
    if problem.splits() > MAX_SPLITS || problem.workers() > MAX_WORKERS {
        return false;
    }
    if tree.racks() > MAX_RACKS || tree.centres() > MAX_CENTRES {
        return false;
    }
    slots(problem, 3, 0) <= MAX_SLOTS
}

// Adds the rows of the splits.
fn add_splits(network: &mut Network<RackLayout>, problem: &Problem) -> Result<(), AllocError>
    requires tree { IsTree problem.now }
    requires small { IsSmallWave problem.now }
    requires built { IsBuilt problem.now 0 0 network.old }
    ensures { OnOk result (IsBuilt problem.now (length problem.now.splits) 0 network.new) }
{
    for i in 0..problem.splits() {
        let split = SplitNo::new(i as u32);
        if problem.is_pending(split) {
            add_split(network, problem, split)?;
        }
    }
    Ok(())
}

// Adds the row of a pending split.
fn add_split(
    network: &mut Network<RackLayout>,
    problem: &Problem,
    split: SplitNo,
) -> Result<(), AllocError>
    requires split { split < length problem.now.splits }
    requires pending { (split_at problem.now split).pending ≡ true }
    requires tree { IsTree problem.now }
    requires small { IsSmallWave problem.now }
    requires built { IsBuilt problem.now split 0 network.old }
    ensures { OnOk result (IsBuilt problem.now (split + 1) 0 network.new) }
{
    if has_bars(problem, split) {
        add_pairs(network, problem, split)?;
    } else {
        add_reaches(network, problem, split)?;
    }
    add(network, problem, RackArc::Wait(split))?;
    Ok(())
}

// Whether a pair of the split is barred.
fn has_bars(problem: &Problem, split: SplitNo) -> bool
    requires { split < length problem.now.splits }
    ensures { IsTrue result ↔ HasBars problem.now split }
{
    for i in 0..problem.workers() {
        if problem.is_barred(split, WorkerNo::new(i as u16)) {
            return true;
        }
    }
    false
}

// Adds the arcs from a split with a barred pair, to workers alone.
fn add_pairs(
    network: &mut Network<RackLayout>,
    problem: &Problem,
    split: SplitNo,
) -> Result<(), AllocError>
    requires split { split < length problem.now.splits }
    requires bars { HasBars problem.now split }
    requires tree { IsTree problem.now }
    requires small { IsSmallWave problem.now }
    requires built { IsBuilt problem.now split 0 network.old }
    ensures { OnOk result (IsBuilt problem.now split (unstarted_node problem.now) network.new) }
{
    for i in 0..problem.workers() {
        let worker = WorkerNo::new(i as u16);
        if problem.admissible(split, worker) {
            add(network, problem, RackArc::Pair(split, worker))?;
        }
    }
    Ok(())
}

// Adds the arcs from a pending split without barred pairs to the nodes above its live holders.
fn add_reaches(
    network: &mut Network<RackLayout>,
    problem: &Problem,
    split: SplitNo,
) -> Result<(), AllocError>
    requires split { split < length problem.now.splits }
    requires pending { (split_at problem.now split).pending ≡ true }
    requires no_bars { HasBars problem.now split → ⊥ }
    requires tree { IsTree problem.now }
    requires small { IsSmallWave problem.now }
    requires built { IsBuilt problem.now split (start problem.now 3) network.old }
    ensures { OnOk result (IsBuilt problem.now split (unstarted_node problem.now) network.new) }
{
    add_reaches_at(network, problem, split, 3)?;
    add_reaches_at(network, problem, split, 2)?;
    add_reaches_at(network, problem, split, 1)?;
    add_reaches_at(network, problem, split, 0)?;
    Ok(())
}

// The same of the nodes of one level.
fn add_reaches_at(
    network: &mut Network<RackLayout>,
    problem: &Problem,
    split: SplitNo,
    level: u8,
) -> Result<(), AllocError>
    requires split { split < length problem.now.splits }
    requires pending { (split_at problem.now split).pending ≡ true }
    requires no_bars { HasBars problem.now split → ⊥ }
    requires tree { IsTree problem.now }
    requires small { IsSmallWave problem.now }
    requires level { level < 4 }
    requires built { IsBuilt problem.now split (start problem.now level) network.old }
    ensures { OnOk result (IsBuilt problem.now split (node problem.now level (count problem.now level))
        network.new) }
{
    for i in 0..count(problem, level) {
        if is_held_under(problem, split, level, i) {
            add(network, problem, RackArc::Reach(split, level, i as u16))?;
        }
    }
    Ok(())
}

// Whether a live holder of the split stands under a node, with a free slot where the node is its own.
fn is_held_under(problem: &Problem, split: SplitNo, level: u8, number: usize) -> bool
    requires split { split < length problem.now.splits }
    requires level { level < 4 }
    ensures { IsTrue result ↔ IsHeldUnder problem.now split level number }
{
    problem
        .holders(split)
        .iter()
        .any(|holder| is_under(problem, *holder, level, number))
}

// The same of one holder.
fn is_under(problem: &Problem, holder: WorkerNo, level: u8, number: usize) -> bool
    requires holder { holder < length problem.now.workers }
    requires level { level < 4 }
    ensures { IsTrue result ↔ IsUnder problem.now holder level number }
{
    problem.is_live(holder)
        && above(problem, level, holder) == number
        && (level > 0 || problem.free(holder) > 0)
}

// Adds the rows of the parents of a level's nodes.
fn add_level(
    network: &mut Network<RackLayout>,
    problem: &Problem,
    level: u8,
) -> Result<(), AllocError>
    requires tree { IsTree problem.now }
    requires small { IsSmallWave problem.now }
    requires level { level < 3 }
    requires built { IsBuilt problem.now (start problem.now (suc level)) 0 network.old }
    ensures { OnOk result (IsBuilt problem.now (start problem.now level) 0 network.new) }
{
    for i in 0..count(problem, level + 1) {
        add_children(network, problem, level, i)?;
    }
    Ok(())
}

// Adds the row of the node from which nodes of this level hang.
fn add_children(
    network: &mut Network<RackLayout>,
    problem: &Problem,
    level: u8,
    number: usize,
) -> Result<(), AllocError>
    requires tree { IsTree problem.now }
    requires small { IsSmallWave problem.now }
    requires level { level < 3 }
    requires number { number < count problem.now (suc level) }
    requires built { IsBuilt problem.now (node problem.now (suc level) number) 0 network.old }
    ensures { OnOk result (IsBuilt problem.now (node problem.now (suc level) number + 1) 0 network.new) }
{
    for i in 0..count(problem, level) {
        let child = i as u16;
        if hangs_from(problem, level, child, number) {
            add(network, problem, RackArc::Down(level, child))?;
        }
    }
    Ok(())
}

// Whether an arc leads to a node from this one: the node hangs from it, and is usable where it is a worker's.
fn hangs_from(problem: &Problem, level: u8, child: u16, number: usize) -> bool
    requires level { level < 3 }
    requires child { child < count problem.now level }
    requires number { number < count problem.now (suc level) }
    ensures { IsTrue result ↔ (IsDown problem.now level child × (parent problem.now level child ≡ number)) }
{
    if parent(problem, level, child) != number {
        return false;
    }
    level > 0 || is_usable(problem, WorkerNo::new(child))
}

// Whether a split can start on a worker.
fn is_usable(problem: &Problem, worker: WorkerNo) -> bool
    requires { worker < length problem.now.workers }
    ensures { IsTrue result ↔ IsUsable problem.now.workers worker }
{
    problem.is_live(worker) && problem.free(worker) > 0
}

// Adds the rows of the workers.
fn add_slots(network: &mut Network<RackLayout>, problem: &Problem) -> Result<(), AllocError>
    requires tree { IsTree problem.now }
    requires small { IsSmallWave problem.now }
    requires built { IsBuilt problem.now (start problem.now 0) 0 network.old }
    ensures { OnOk result (IsBuilt problem.now (unstarted_node problem.now) 0 network.new) }
{
    for i in 0..problem.workers() {
        add(network, problem, RackArc::Slot(WorkerNo::new(i as u16)))?;
    }
    Ok(())
}

// Adds one arc.
fn add(network: &mut Network<RackLayout>, problem: &Problem, arc: RackArc) -> Result<(), AllocError>
    requires tree { IsTree problem.now }
    requires small { IsSmallWave problem.now }
    requires layout { IsSized problem.now network.old.layout }
    requires wanted { IsWanted problem.now arc }
    requires room { length network.old.arcs < MAX_ARCS }
    ensures { OnOk result (IsAdded (arc_of problem.now arc) network.old network.new) }
{
    match network.add_between(arc.flow_arc(problem)) {
        Ok(_) => Ok(()),
        Err(NetError::Memory) => Err(AllocError),
        Err(NetError::ArcLimit) => unreachable!(),
    }
}
