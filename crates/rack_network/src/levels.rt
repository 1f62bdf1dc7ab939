//! The nodes of the tree by level and number: workers at level 0, racks at 1, data centres at 2, the cluster
//! at 3.
ghost use Rattle.std.specs.Prelude.{◌≡◌, ◌+◌, ◌*◌, ◌<◌, ◌≤◌, ◌^◌, length};
ghost use Rattle.rack_tree.specs.declared.TheConstants.{MAX_RACKS, MAX_WORKERS};
ghost use Rattle.wave_problem.specs.declared.TheConstants.{MAX_SLOTS};
ghost use Rattle.rack_network.specs.Racks.{above, count, parent, slots, start};

use crate::layout::clusters;
use node_ids::{RackNo, WorkerNo};
use wave_problem::Problem;

/// How many nodes a level has.
pub fn count(problem: &Problem, level: u8) -> usize
    requires { level < 4 }
    ensures count { result ≡ count problem.now level }
    ensures most { result ≤ MAX_WORKERS }
{
    let tree = problem.tree();
    match level {
        0 => problem.workers(),
        1 => tree.racks(),
        2 => tree.centres(),
        _ => clusters(tree.centres()),
    }
}

/// The place of the first node of a level.
pub fn start(problem: &Problem, level: u8) -> usize
    requires { level < 4 }
    ensures place { result ≡ start problem.now level }
    ensures most { result < 2 ^ 18 }
    ensures whole { result + count problem.now level ≤ length problem.now.splits + 37121 }
{
    let tree = problem.tree();
    let centres = problem.splits() + clusters(tree.centres());
    let racks = centres + tree.centres();
    let workers = racks + tree.racks();
    match level {
        0 => workers,
        1 => racks,
        2 => centres,
        _ => problem.splits(),
    }
}

/// The number of the node from which a node hangs.
pub fn parent(problem: &Problem, level: u8, number: u16) -> usize
    requires level { level < 3 }
    requires number { number < count problem.now level }
    ensures parent { result ≡ parent problem.now level number }
    ensures most { result < MAX_RACKS }
{
    let tree = problem.tree();
    match level {
        0 => tree.rack_of(WorkerNo::new(number)).index(),
        1 => tree.centre_of(RackNo::new(number)).index(),
        _ => 0,
    }
}

/// The number of the node of a level that is a worker's own or stands above it.
pub fn above(problem: &Problem, level: u8, worker: WorkerNo) -> usize
    requires level { level < 4 }
    requires worker { worker < length problem.now.workers }
    ensures above { result ≡ above problem.now level worker }
    ensures known { level < 3 → result < count problem.now level }
{
    let tree = problem.tree();
    match level {
        0 => worker.index(),
        1 => tree.rack_of(worker).index(),
        2 => tree.centre_of(tree.rack_of(worker)).index(),
        _ => 0,
    }
}

/// The free slots of the live workers under a node.
pub fn slots(problem: &Problem, level: u8, number: usize) -> u64
    requires { level < 4 }
    ensures sum { result ≡ slots problem.now (length problem.now.workers) level number }
    ensures most { result ≤ MAX_WORKERS * MAX_SLOTS }
{
    let mut slots = 0;
    for i in 0..problem.workers() {
        let worker = WorkerNo::new(i as u16);
        if above(problem, level, worker) == number && problem.is_live(worker) {
            slots += u64::from(problem.free(worker));
        }
    }
    slots
}
