//! Reads the prices off the potentials of a least-cost flow.
ghost use Rattle.std.specs.Prelude.{◌≡◌, ℕ, ◌+◌, ◌<◌, length, slice_index, IfOk};
ghost use Rattle.network_prices.specs.Layers.{nodes_from};
ghost use Rattle.network_prices.specs.Prices.{ArePricesOf};
ghost use Rattle.network_prices.specs.Pricing.{IsSlotPrice};

use crate::{WaveNetwork, split_prices};
use node_ids::WorkerNo;
use price_certificate::Prices;
use shortest_paths::Potentials;
use std::alloc::{AllocError, Global};
use wave_problem::{Plan, Problem};

/// The prices: of a usable worker's slot, how far the lowest potential on the way up from its node, its own
/// among them, lies below 0; of a started split, what its cost and its worker's price leave of the reward;
/// else 0.
pub fn prices_of<N: WaveNetwork>(
    alloc: Global,
    problem: &Problem,
    plan: &Plan,
    potentials: &Potentials,
) -> Result<Prices, AllocError>
    requires starts { length plan.now.starts ≡ length problem.now.splits }
    requires workers { plan.now.workers ≡ length problem.now.workers }
    requires nodes { length potentials.now ≡ N.first problem.now + length problem.now.workers + 2 }
    ensures { IfOk result (λ prices.
        ArePricesOf problem.now (nodes_from problem.now (N.first problem.now) (N.above problem.now))
        (slice_index potentials.now) plan.now.starts prices) }
{
    let workers = slot_prices::<N>(alloc, problem, potentials.depths())?;
    let splits = split_prices(alloc, problem, plan, &workers)?;
    Ok(Prices::from_lists(splits, workers))
}

// The price of a slot of each worker.
fn slot_prices<N: WaveNetwork>(
    alloc: Global,
    problem: &Problem,
    depths: &[u64],
) -> Result<Vec<u64>, AllocError>
    requires nodes { length depths.now ≡ N.first problem.now + length problem.now.workers + 2 }
    ensures size { IfOk result (λ prices. length prices.items ≡ length problem.now.workers) }
    ensures each { IfOk result (λ prices. (w : ℕ) → w < length problem.now.workers
        → IsSlotPrice problem.now (nodes_from problem.now (N.first problem.now) (N.above problem.now))
        (slice_index depths.now) w (slice_index prices.items w)) }
{
    let mut prices = Vec::with_capacity(alloc, problem.workers())?;
    for i in 0..problem.workers() {
        prices.push(slot_price::<N>(problem, depths, WorkerNo::new(i as u16)))?;
    }
    Ok(prices)
}

fn slot_price<N: WaveNetwork>(problem: &Problem, depths: &[u64], worker: WorkerNo) -> u64
    requires worker { worker < length problem.now.workers }
    requires nodes { length depths.now ≡ N.first problem.now + length problem.now.workers + 2 }
    ensures { IsSlotPrice problem.now
        (nodes_from problem.now (N.first problem.now) (N.above problem.now))
        (slice_index depths.now) worker result }
{
    if !problem.is_live(worker) || problem.free(worker) == 0 {
        return 0;
    }
    let own = depths[N::first(problem) + worker.index()];
    own.max(N::depth_above(problem, depths, worker))
}
