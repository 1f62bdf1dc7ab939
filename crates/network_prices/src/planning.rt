//! Plans a wave over a network that each wave has.
ghost use Rattle.std.specs.Prelude.{◌≡◌, ◌+◌, ◌<◌, ◌≤◌, length, map, true, IfOk};
ghost use Rattle.flow_network.specs.Flows.{AreArcs};
ghost use Rattle.std.specs.List.{AllPass};
ghost use Rattle.network_prices.specs.Layers.{nodes_from};
ghost use Rattle.network_prices.specs.Pending.{pending_splits};
ghost use Rattle.price_certificate.specs.Certificate.{claim, Certifies, HasOneSize};
ghost use Rattle.network_prices.specs.Prices.{IsReadOff};

use crate::{WaveNetwork, plan_of, prices_of};
use augmenting_paths::saturate;
use flow_network::Network;
use node_ids::{Layout, SplitNo};
use price_certificate::Prices;
use std::alloc::{AllocError, Global};
use wave_problem::{Plan, Problem};

/// A plan with prices that certify it: it starts as many splits as any admissible assignment, at the
/// least cost among those. It takes one augmentation for each pending split. A problem that is too large for
/// its network is answered as where memory is wanting.
pub fn priced_plan<N: WaveNetwork>(
    alloc: Global,
    problem: &Problem,
) -> Result<(Plan, Prices), AllocError>
    ensures sizes { IfOk result (λ pair. HasOneSize (claim problem.now pair.0.starts pair.1) pair.0.workers) }
    ensures over { IfOk result (λ pair. IsReadOff problem.now
        (nodes_from problem.now (N.first problem.now) (N.above problem.now)) (N.HasArcs problem.now)
        pair.0.starts pair.1) }
    ensures certifies { IfOk result (λ pair. Certifies (claim problem.now pair.0.starts pair.1)) }
{
    let mut network = N::build(alloc, problem)?;
    N::is_wave_network();
    let sources = pending_nodes(alloc, problem, &network)?;
    let sink = last_node(&network);
    let potentials = saturate(alloc, &mut network, &sources, sink)?;
    let plan = plan_of(alloc, problem, &network)?;
    let prices = prices_of::<N>(alloc, problem, &plan, &potentials)?;
    Ok((plan, prices))
}

// The nodes of the pending splits, rising: each ships one unit.
fn pending_nodes<L: Layout>(
    alloc: Global,
    problem: &Problem,
    network: &Network<L>,
) -> Result<Vec<L::Node>, AllocError>
    requires { length problem.now.splits ≤ L.node_count network.now.layout }
    ensures places { IfOk result (λ nodes. map (L.index_of network.now.layout) nodes.items
        ≡ pending_splits problem.now) }
    ensures members { IfOk result
        (λ nodes. AllPass (L.is_member network.now.layout) nodes.items) }
    ensures few { IfOk result (λ nodes. length nodes.items ≤ L.node_count network.now.layout) }
{
    let layout = network.layout();
    let mut nodes = Vec::with_capacity(alloc, problem.splits())?;
    for i in 0..problem.splits() {
        if problem.is_pending(SplitNo::new(i as u32)) {
            nodes.push(layout.node(i))?;
        }
    }
    Ok(nodes)
}

// The last node, which is the sink.
fn last_node<L: Layout>(network: &Network<L>) -> L::Node
    requires { 0 < L.node_count network.now.layout }
    ensures member { L.is_member network.now.layout result ≡ true }
    ensures last { L.index_of network.now.layout result + 1 ≡ L.node_count network.now.layout }
    ensures arcs { AreArcs (L.node_count network.now.layout) network.now.arcs }
{
    let layout = network.layout();
    layout.node(layout.size() - 1)
}
