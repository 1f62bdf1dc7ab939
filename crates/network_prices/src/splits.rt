ghost use Rattle.std.specs.Prelude.{◌≡◌, ℕ, ◌<◌, ◌≤◌, length, slice_index, IfOk};
ghost use Rattle.wave_problem.specs.Wave.{reward as reward_in};
ghost use Rattle.wave_problem.specs.declared.TheConstants.{MAX_SPLITS};
ghost use Rattle.network_prices.specs.Pending.{pending_splits};
ghost use Rattle.network_prices.specs.Pricing.{IsSplitPrice};

use node_ids::SplitNo;
use std::alloc::{AllocError, Global};
use wave_problem::{Plan, Problem};

/// How many splits are pending.
pub fn pending_count(problem: &Problem) -> u64
    ensures count { result ≡ length (pending_splits problem.now) }
    ensures most { result ≤ MAX_SPLITS }
    ensures within { result ≤ length problem.now.splits }
{
    let mut count = 0;
    for i in 0..problem.splits() {
        if problem.is_pending(SplitNo::new(i as u32)) {
            count += 1;
        }
    }
    count
}

/// The price of each split, by the prices of a slot of each worker: what its start leaves of the reward,
/// where the plan starts it; else 0.
pub fn split_prices(
    alloc: Global,
    problem: &Problem,
    plan: &Plan,
    workers: &[u64],
) -> Result<Vec<u64>, AllocError>
    requires starts { length plan.now.starts ≡ length problem.now.splits }
    requires known { plan.now.workers ≡ length problem.now.workers }
    requires workers { length workers.now ≡ length problem.now.workers }
    ensures size { IfOk result (λ prices. length prices.items ≡ length problem.now.splits) }
    ensures each { IfOk result (λ prices. (s : ℕ) → s < length problem.now.splits
        → IsSplitPrice problem.now workers.now plan.now.starts s (slice_index prices.items s)) }
{
    let reward = problem.reward();
    let mut prices = Vec::with_capacity(alloc, problem.splits())?;
    for i in 0..problem.splits() {
        prices.push(split_price(problem, plan, workers, reward, SplitNo::new(i as u32)))?;
    }
    Ok(prices)
}

fn split_price(problem: &Problem, plan: &Plan, workers: &[u64], reward: u64, split: SplitNo) -> u64
    requires split { split < length problem.now.splits }
    requires starts { length plan.now.starts ≡ length problem.now.splits }
    requires known { plan.now.workers ≡ length problem.now.workers }
    requires workers { length workers.now ≡ length problem.now.workers }
    requires reward { reward ≡ reward_in problem.now }
    ensures { IsSplitPrice problem.now workers.now plan.now.starts split result }
{
    match plan.of(split) {
        Some(worker) => {
            let cost = problem.cost(split, worker).unwrap_or(0);
            reward
                .saturating_sub(workers[worker.index()])
                .saturating_sub(cost)
        }
        None => 0,
    }
}
