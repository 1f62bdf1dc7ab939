//! The arcs of the rack network.
ghost use Rattle.std.specs.Prelude.{◌≡◌, ◌<◌, ◌≤◌, ◌^◌};
ghost use Rattle.rack_network.specs.Racks.{arc_of, count as count_of, IsWanted};
ghost use Rattle.rack_network.specs.Build.{IsSmallWave};

use crate::levels::{count, parent, slots, start};
use flow_network::FlowArc;
use network_prices::pending_count;
use node_ids::{SplitNo, WorkerNo};
use wave_problem::Problem;

/// An arc of the rack network. The nodes of the tree stand in levels: workers at 0, racks at 1, data centres
/// at 2, the cluster at 3.
#[derive(Clone, Copy, Debug, PartialEq, Eq)]
pub enum RackArc {
    /// From a split with a barred pair to a worker on which it may start: one unit, at the cost of the start.
    Pair(SplitNo, WorkerNo),
    /// From a split without barred pairs to a node under which a live holder stands, by its level and number:
    /// one unit, at the cost of a start on a worker that is no nearer.
    Reach(SplitNo, u8, u16),
    /// From a pending split to `Unstarted`: one unit, at the cost of the reward.
    Wait(SplitNo),
    /// To a node, by its level and number, from the one above it: a unit for each free slot of the live
    /// workers under it, at no cost.
    Down(u8, u16),
    /// From a worker to the sink: a unit for each free slot, at no cost.
    Slot(WorkerNo),
    /// From `Unstarted` to the sink: a unit for each pending split, at no cost.
    Rest,
}

impl RackArc {
    // The arc with the places of its ends, its capacity and its cost in the network of a problem.
    pub(crate) fn flow_arc(&self, problem: &Problem) -> FlowArc
        requires wanted { IsWanted problem.now self.now }
        requires small { IsSmallWave problem.now }
        ensures arc { result ≡ arc_of problem.now self.now }
        ensures capacity { result.capacity ≤ 4096 }
        ensures cost { result.cost < 2 ^ 47 }
    {
        let workers = start(problem, 0);
        let unstarted = workers + count(problem, 0);
        match *self {
            RackArc::Pair(split, worker) => {
                let cost = problem.cost(split, worker).unwrap_or(0);
                unit(split, workers + worker.index(), cost)
            }
            RackArc::Reach(split, level, number) => {
                let cost = problem.bytes(split) * (2 * u64::from(level));
                unit(split, start(problem, level) + usize::from(number), cost)
            }
            RackArc::Wait(split) => unit(split, unstarted, problem.reward()),
            RackArc::Down(level, number) => down(problem, level, number),
            RackArc::Slot(worker) => {
                let capacity = u64::from(problem.free(worker));
                free(workers + worker.index(), unstarted + 1, capacity)
            }
            RackArc::Rest => free(unstarted, unstarted + 1, pending_count(problem)),
        }
    }
}

// An arc of one unit from a split to a place.
fn unit(split: SplitNo, to: usize, cost: u64) -> FlowArc
    requires split { split < 2 ^ 16 }
    requires to { to < 2 ^ 16 }
    ensures { result ≡ record { from = split; to = to; capacity = 1; cost = cost } }
{
    FlowArc {
        from: split.index() as u16,
        to: to as u16,
        capacity: 1,
        cost,
    }
}

// An arc without cost from one place to another.
fn free(from: usize, to: usize, capacity: u64) -> FlowArc
    requires from { from < 2 ^ 16 }
    requires to { to < 2 ^ 16 }
    requires capacity { capacity < 2 ^ 16 }
    ensures { result ≡ record { from = from; to = to; capacity = capacity; cost = 0 } }
{
    FlowArc {
        from: from as u16,
        to: to as u16,
        capacity: capacity as u16,
        cost: 0,
    }
}

// The arc to a node from the one above it.
fn down(problem: &Problem, level: u8, number: u16) -> FlowArc
    requires level { level < 3 }
    requires number { number < count_of problem.now level }
    requires small { IsSmallWave problem.now }
    ensures arc { result ≡ arc_of problem.now (RackArc.Down level number) }
    ensures capacity { result.capacity ≤ 4096 }
{
    let above = start(problem, level + 1) + parent(problem, level, number);
    let below = start(problem, level) + usize::from(number);
    free(above, below, slots(problem, level, usize::from(number)))
}
