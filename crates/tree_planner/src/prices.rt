//! Prices read off the depths.
ghost use Rattle.std.specs.Prelude.{◌≡◌, ◌+◌, ◌-◌, ◌<◌, ◌≤◌, ℕ, IfOk, List, Option, length, slice_index, unwrap_or};
ghost use Rattle.wave_problem.specs.Assignment.{pairs_of};
ghost use Rattle.wave_problem.specs.Wave.{cost, IsUsable};
ghost use Rattle.tree_flow.specs.Nodes.{node_above};
ghost use Rattle.tree_flow.specs.Settled.{deepest_above, ArePrices};
ghost use Rattle.tree_planner.specs.Handing.{ArePlanned};
ghost use Rattle.tree_planner.specs.Priced.{AreWorkerPrices, IsSplitPrice, IsWorkerPrice};
ghost use Rattle.tree_planner.specs.View.{state_of, AreTables};

use crate::tables::Tables;
use crate::tree_nodes::node_above;
use node_ids::{SplitNo, WorkerNo};
use price_certificate::Prices;
use std::alloc::{AllocError, Global};
use wave_problem::Problem;

/// The price of a worker's slots is the greatest depth above it, where it lives and has some; that of a
/// split that starts is what this and its cost leave of a start's worth, and that of any other 0.
pub fn prices_of(
    alloc: Global,
    problem: &Problem,
    worth: u64,
    tables: &Tables,
    pairs: &[(SplitNo, WorkerNo)],
) -> Result<Prices, AllocError>
    requires worth { worth ≡ (state_of tables.now).terms.worth }
    requires tables { AreTables problem.now tables.now }
    requires planned { ArePlanned problem.now pairs.now }
    ensures splits { IfOk result (λ prices. length prices.splits ≡ length problem.now.splits) }
    ensures workers { IfOk result (λ prices. length prices.workers ≡ length problem.now.workers) }
    ensures prices { IfOk result
        (λ prices. (starts : List (Option ℕ)) → pairs_of starts ≡ pairs.now
        → ArePrices problem.now (state_of tables.now) starts prices) }
{
    let workers = worker_prices(alloc, problem, tables)?;
    let splits = split_prices(alloc, problem, worth, pairs, &workers)?;
    Ok(Prices::from_lists(splits, workers))
}

fn worker_prices(alloc: Global, problem: &Problem, tables: &Tables) -> Result<Vec<u64>, AllocError>
    requires { AreTables problem.now tables.now }
    ensures size { IfOk result (λ prices. length prices.items ≡ length problem.now.workers) }
    ensures prices { IfOk result (λ prices. AreWorkerPrices problem.now (state_of tables.now) prices.items) }
{
    let mut prices = Vec::with_capacity(alloc, problem.workers())?;
    for w in 0..problem.workers() {
        prices.push(worker_price(problem, tables, WorkerNo::new(w as u16)))?;
    }
    Ok(prices)
}

fn worker_price(problem: &Problem, tables: &Tables, worker: WorkerNo) -> u64
    requires tables { AreTables problem.now tables.now }
    requires worker { worker < length problem.now.workers }
    ensures { IsWorkerPrice problem.now (state_of tables.now) worker result }
{
    if !problem.is_live(worker) || problem.free(worker) == 0 {
        return 0;
    }
    let below = depth_above(problem, tables, 0, worker).max(depth_above(
        problem, tables, 1, worker,
    ));
    let above = depth_above(problem, tables, 2, worker).max(depth_above(
        problem, tables, 3, worker,
    ));
    below.max(above)
}

fn depth_above(problem: &Problem, tables: &Tables, level: u8, worker: WorkerNo) -> u64
    requires tables { AreTables problem.now tables.now }
    requires worker { worker < length problem.now.workers }
    ensures { result ≡ (state_of tables.now).depth (node_above problem.now.tree level worker) }
{
    tables.depth.get(node_above(problem.tree(), level, worker))
}

fn split_prices(
    alloc: Global,
    problem: &Problem,
    worth: u64,
    pairs: &[(SplitNo, WorkerNo)],
    workers: &[u64],
) -> Result<Vec<u64>, AllocError>
    requires planned { ArePlanned problem.now pairs.now }
    requires workers { length workers.now ≡ length problem.now.workers }
    ensures size { IfOk result (λ prices. length prices.items ≡ length problem.now.splits) }
    ensures prices { IfOk result (λ prices. (starts : List (Option ℕ)) → pairs_of starts ≡ pairs.now → (s : ℕ)
        → IsSplitPrice problem.now worth starts workers.now s (slice_index prices.items s)) }
{
    let mut prices = vec![in alloc; 0; problem.splits()]?;
    for pair in pairs {
        let (split, worker) = *pair;
        prices[split.index()] = split_price(problem, worth, workers, split, worker);
    }
    Ok(prices)
}

// The price of a split that starts on this worker.
fn split_price(
    problem: &Problem,
    worth: u64,
    workers: &[u64],
    split: SplitNo,
    worker: WorkerNo,
) -> u64
    requires workers { length workers.now ≡ length problem.now.workers }
    requires split { split < length problem.now.splits }
    requires worker { worker < length problem.now.workers }
    ensures { result ≡ worth - (slice_index workers.now worker + unwrap_or (cost problem.now split worker) 0) }
{
    let cost = problem.cost(split, worker).unwrap_or(0);
    worth
        .saturating_sub(workers[worker.index()])
        .saturating_sub(cost)
}
