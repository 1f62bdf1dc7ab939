//! The arcs of the direct network.
ghost use Rattle.std.specs.Prelude.{◌≡◌, ◌≤◌, true, length};
ghost use Rattle.wave_problem.specs.Wave.{Wave};
ghost use Rattle.wave_problem.specs.declared.TheConstants.{MAX_SPLITS};
ghost use Rattle.direct_network.specs.Layout.{is_node, place_of};
ghost use Rattle.direct_network.specs.Direct.{arc_of, IsWanted};
ghost use Rattle.network_prices.specs.Pending.{pending_splits};

use crate::DirectNode;
use network_prices::pending_count;
use node_ids::{SplitNo, WorkerNo};
use wave_problem::Problem;

/// How many arcs a direct network has at most: one for each split and worker together, one more for each
/// split and for each worker, and the last.
pub const MAX_ARCS: usize = 263_425;

/// An arc of the direct network.
#[derive(Clone, Copy, Debug, PartialEq, Eq)]
pub enum DirectArc {
    /// From a split to a worker on which it may start: one unit, at the cost of the start.
    Pair(SplitNo, WorkerNo),
    /// From a pending split to `Unstarted`: one unit, at the cost of the reward.
    Wait(SplitNo),
    /// From a worker to the sink: a unit for each free slot, at no cost.
    Slot(WorkerNo),
    /// From `Unstarted` to the sink: a unit for each pending split, at no cost.
    Rest,
}

impl DirectArc {
    /// The node that the arc leaves.
    pub fn start(&self) -> DirectNode
        ensures place { (wave : Wave) → place_of (length wave.splits) (length wave.workers) result
            ≡ (arc_of wave self.now).from }
        ensures member { (wave : Wave) → IsWanted wave self.now
            → is_node (length wave.splits) (length wave.workers) result ≡ true }
    {
        match *self {
            DirectArc::Pair(split, _) => DirectNode::Split(split),
            DirectArc::Wait(split) => DirectNode::Split(split),
            DirectArc::Slot(worker) => DirectNode::Worker(worker),
            DirectArc::Rest => DirectNode::Unstarted,
        }
    }

    /// The node to which the arc leads.
    pub fn end(&self) -> DirectNode
        ensures place { (wave : Wave) → place_of (length wave.splits) (length wave.workers) result
            ≡ (arc_of wave self.now).to }
        ensures member { (wave : Wave) → IsWanted wave self.now
            → is_node (length wave.splits) (length wave.workers) result ≡ true }
    {
        match *self {
            DirectArc::Pair(_, worker) => DirectNode::Worker(worker),
            DirectArc::Wait(_) => DirectNode::Unstarted,
            DirectArc::Slot(_) => DirectNode::Sink,
            DirectArc::Rest => DirectNode::Sink,
        }
    }

    /// How many units the arc takes in the network of a problem.
    pub fn capacity(&self, problem: &Problem) -> u64
        requires { IsWanted problem.now self.now }
        ensures capacity { result ≡ (arc_of problem.now self.now).capacity }
        ensures most { result ≤ MAX_SPLITS }
        ensures few { length problem.now.splits ≤ 4096 → result ≤ 4096 }
    {
        match *self {
            DirectArc::Pair(_, _) => 1,
            DirectArc::Wait(_) => 1,
            DirectArc::Slot(worker) => u64::from(problem.free(worker)),
            DirectArc::Rest => pending_count(problem),
        }
    }
}
