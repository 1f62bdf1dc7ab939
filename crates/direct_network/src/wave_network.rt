//! The direct network as one that each wave has.
ghost use Rattle.std.specs.Prelude.{◌≡◌, [], length};
ghost use Rattle.direct_network.specs.Direct.{IsDirect, IsSized};

use crate::{DirectLayout, build};
use flow_network::Network;
use network_prices::WaveNetwork;
use node_ids::WorkerNo;
use std::alloc::{AllocError, Global};
use wave_problem::Problem;

impl WaveNetwork for DirectLayout {
    ghost first = { λ wave. length wave.splits };

    ghost above = { λ wave w. [] };

    ghost Fits = { IsSized };

    ghost HasArcs = { IsDirect };

    fn build(alloc: Global, problem: &Problem) -> Result<Network<DirectLayout>, AllocError> {
        build(alloc, problem)
    }

    fn first(problem: &Problem) -> usize {
        problem.splits()
    }

    fn depth_above(_problem: &Problem, _depths: &[u64], _worker: WorkerNo) -> u64 {
        0
    }

    fn is_wave_network() {}
}
