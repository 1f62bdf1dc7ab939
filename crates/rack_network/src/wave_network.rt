//! The rack network as one that each wave has.
ghost use Rattle.std.specs.Prelude.{◌≡◌, ◌+◌, length, slice_index};
ghost use Rattle.network_prices.specs.Ways.{deepest};
ghost use Rattle.rack_network.specs.Racks.{above_centres, rack_nodes, start, IsRackNetwork, IsSized};

use crate::levels::{above, start};
use crate::{RackLayout, build};
use flow_network::Network;
use network_prices::WaveNetwork;
use node_ids::WorkerNo;
use std::alloc::{AllocError, Global};
use wave_problem::Problem;

impl WaveNetwork for RackLayout {
    ghost first = { λ wave. start wave 0 };

    ghost above = { λ wave. (rack_nodes wave).above };

    ghost Fits = { IsSized };

    ghost HasArcs = { IsRackNetwork };

    fn build(alloc: Global, problem: &Problem) -> Result<Network<RackLayout>, AllocError> {
        build(alloc, problem)
    }

    fn first(problem: &Problem) -> usize {
        start(problem, 0)
    }

    fn depth_above(problem: &Problem, depths: &[u64], worker: WorkerNo) -> u64 {
        let of_rack = depths[start(problem, 1) + above(problem, 1, worker)];
        let of_centre = depths[start(problem, 2) + above(problem, 2, worker)];
        of_rack.max(of_centre.max(top_depth(problem, depths)))
    }

    fn is_wave_network() {}
}

// The depth of `Cluster`, where there is one.
fn top_depth(problem: &Problem, depths: &[u64]) -> u64
    requires { length depths.now ≡ start problem.now 0 + length problem.now.workers + 2 }
    ensures { result ≡ deepest (slice_index depths.now) (above_centres problem.now) }
{
    if problem.tree().centres() > 1 {
        depths[problem.splits()]
    } else {
        0
    }
}
