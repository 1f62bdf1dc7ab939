//! Reads a plan off a flow.
ghost use Rattle.std.specs.Prelude.{◌≡◌, ℕ, ◌+◌, ◌<◌, ◌^◌, List, length, IfOk, IfSome};
ghost use Rattle.augmenting_paths.specs.Shipping.{IsShipment};
ghost use Rattle.network_prices.specs.Layers.{nodes_from, AreFirst, AreStartsTo, IsLayered, IsStart};
ghost use Rattle.network_prices.specs.Pending.{pending_splits};
ghost use Rattle.network_prices.specs.Prices.{IsPlanOf, IsShipped};

use crate::{WaveNetwork, decompose_flow};
use flow_network::{FlowArc, Network};
use node_ids::{SplitNo, WorkerNo};
use std::alloc::{AllocError, Global};
use wave_problem::{Plan, Problem};

/// The plan that starts each split on the worker at which its unit ends, where units that meet at a node are
/// handed on one by one, and leaves out those whose unit flows through the node of the splits that are not
/// started.
pub fn plan_of<N: WaveNetwork>(
    alloc: Global,
    problem: &Problem,
    network: &Network<N>,
) -> Result<Plan, AllocError>
    requires arcs { N.HasArcs problem.now network.now.arcs }
    requires shipped { IsShipped problem.now
        (nodes_from problem.now (N.first problem.now) (N.above problem.now))
        network.now.arcs network.now.flows }
    ensures read { IfOk result (λ plan. IsPlanOf problem.now
        (nodes_from problem.now (N.first problem.now) (N.above problem.now))
        network.now.arcs network.now.flows plan.starts) }
    ensures workers { IfOk result (λ plan. plan.workers ≡ length problem.now.workers) }
{
    N::is_wave_network();
    let first = N::first(problem);
    read_plan(
        alloc,
        problem,
        network.all_arcs(),
        network.all_flows(),
        first,
    )
}

/// The same, of arcs in layers, where `first` is the node of worker 0.
pub fn read_plan(
    alloc: Global,
    problem: &Problem,
    arcs: &[FlowArc],
    flows: &[u64],
    first: usize,
) -> Result<Plan, AllocError>
    requires few { first < 2 ^ 18 }
    requires layers { IsLayered problem.now first arcs.now }
    requires shipped { IsShipment arcs.now (pending_splits problem.now) (first + length problem.now.workers
        + 1)
        flows.now }
    ensures read { IfOk result (λ plan. (above : ℕ → List ℕ)
        → IsPlanOf problem.now (nodes_from problem.now first above) arcs.now flows.now plan.starts) }
    ensures workers { IfOk result (λ plan. plan.workers ≡ length problem.now.workers) }
{
    let mut places = first_places(alloc, problem)?;
    decompose_flow(&mut places, arcs, flows, first + problem.workers() + 1);
    starts_of(alloc, problem, first, &places)
}

// Each split's own node.
fn first_places(alloc: Global, problem: &Problem) -> Result<Vec<usize>, AllocError>
    ensures { IfOk result (λ places. AreFirst problem.now places.items) }
{
    let mut places = Vec::with_capacity(alloc, problem.splits())?;
    for split in 0..problem.splits() {
        places.push(split)?;
    }
    Ok(places)
}

// The plan that starts each split as its unit's place says.
fn starts_of(
    alloc: Global,
    problem: &Problem,
    first: usize,
    places: &[usize],
) -> Result<Plan, AllocError>
    requires places { length places.now ≡ length problem.now.splits }
    ensures { IfOk result (λ plan.
        AreStartsTo problem.now first places.now (length problem.now.splits) plan) }
{
    let mut plan = Plan::new(alloc, problem.splits(), problem.workers())?;
    for i in 0..problem.splits() {
        plan.set(SplitNo::new(i as u32), start_at(problem, first, places[i]));
    }
    Ok(plan)
}

// The worker whose node a place is.
fn start_at(problem: &Problem, first: usize, place: usize) -> Option<WorkerNo>
    ensures start { IsStart problem.now first place result }
    ensures known { IfSome result (λ w. w < length problem.now.workers) }
{
    if place < first {
        return None;
    }
    let worker = place - first;
    if worker < problem.workers() {
        Some(WorkerNo::new(worker as u16))
    } else {
        None
    }
}
