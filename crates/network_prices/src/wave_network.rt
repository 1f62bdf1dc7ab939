//! What a network of every wave offers, and the plan and prices that are read off its flows.
ghost use Rattle.std.specs.Prelude.{◌≡◌, ℕ, ◌+◌, ◌<◌, ◌^◌, List, length, slice_index, IfOk};
ghost use Rattle.wave_problem.specs.Wave.{Wave};
ghost use Rattle.flow_network.specs.declared.arcs.FlowArc.{FlowArc};
ghost use Rattle.network_prices.specs.Layers.{nodes_from, IsLayered};
ghost use Rattle.network_prices.specs.Networks.{IsWaveNetwork};
ghost use Rattle.network_prices.specs.Ways.{deepest};

use flow_network::Network;
use node_ids::{Layout, WorkerNo};
use std::alloc::{AllocError, Global};
use wave_problem::Problem;

/// A network that each wave has, by the numbering of its nodes: the splits come first, each at its own
/// number; the workers stand one after the other from `first` on, then come the node of the splits that are
/// not started and the sink.
pub trait WaveNetwork: Layout + Drop {
    /// The place of the first worker.
    ghost first: { Wave → ℕ };

    /// The places of the nodes above a worker's.
    ghost above: { Wave → ℕ → List ℕ };

    /// The numberings for a wave of this size.
    ghost Fits: { Wave → Self → Type 0 };

    /// The arcs of a wave's network.
    ghost HasArcs: { Wave → List FlowArc → Type 0 };

    /// The network of a problem, without flow. Where the problem is too large for one, none is made, as where
    /// memory is wanting.
    fn build(alloc: Global, problem: &Problem) -> Result<Network<Self>, AllocError>
        ensures layout { IfOk result (λ network. Fits problem.now network.layout) }
        ensures arcs { IfOk result (λ network. HasArcs problem.now network.arcs) }
        ensures empty { IfOk result (λ network. (k : ℕ) → slice_index network.flows k ≡ 0) };

    /// The place of the first worker.
    fn first(problem: &Problem) -> usize
        ensures place { result ≡ first problem.now }
        ensures most { result < 2 ^ 18 };

    /// The greatest of the depths of the nodes above a worker's.
    fn depth_above(problem: &Problem, depths: &[u64], worker: WorkerNo) -> u64
        requires worker { worker < length problem.now.workers }
        requires nodes { length depths.now ≡ first problem.now + length problem.now.workers + 2 }
        ensures { result ≡ deepest (slice_index depths.now) (above problem.now worker) };

    /// The law: so many nodes the network has, it lies in layers, and it is a network of its wave.
    fn is_wave_network()
        ensures nodes { (wave : Wave) (layout : Self) → Fits wave layout
            → Self.node_count layout ≡ first wave + length wave.workers + 2 }
        ensures layers { (wave : Wave) (arcs : List FlowArc) → HasArcs wave arcs
            → IsLayered wave (first wave) arcs }
        ensures network { (wave : Wave) (arcs : List FlowArc) → HasArcs wave arcs
            → IsWaveNetwork wave (nodes_from wave (first wave) (above wave)) arcs };
}
