//! Plans and prices as a caller's arrays.
ghost use Rattle.std.specs.Prelude.{◌≡◌, ◌≢◌, ℕ, ◌<◌, ◌≤◌, ◌↔◌, IsTrue, length, map, All, IfOk, IfSome};
ghost use Rattle.rack_tree.specs.declared.TheConstants.{MAX_WORKERS};
ghost use Rattle.wave_problem.specs.declared.TheConstants.{MAX_SPLITS};
ghost use Rattle.wave_arrays.specs.Claims.{AreStartsFit, IsStartFit, prices_in, start_in};

use node_ids::{SplitNo, WorkerNo};
use price_certificate::Prices;
use std::alloc::{AllocError, Global};
use wave_problem::Plan;

/// The number in an array of starts that says that a split does not start.
pub const NO_WORKER: u16 = 65535;

/// Whether each number says a worker or none.
pub fn are_starts_fit(starts: &[u16], workers: usize) -> bool
    ensures { IsTrue result ↔ AreStartsFit workers starts.now }
{
    starts.iter().all(|start| is_start_fit(*start, workers))
}

pub(crate) fn is_start_fit(start: u16, workers: usize) -> bool
    ensures { IsTrue result ↔ IsStartFit workers start }
{
    start == NO_WORKER || (start as usize) < workers
}

fn start_of(start: u16, workers: usize) -> Option<WorkerNo>
    requires { IsStartFit workers start }
    ensures start { result ≡ start_in start }
    ensures known { IfSome result (λ w. w < workers) }
{
    if start == NO_WORKER {
        None
    } else {
        Some(WorkerNo::new(start))
    }
}

fn listed(
    alloc: Global,
    starts: &[u16],
    workers: usize,
) -> Result<Vec<Option<WorkerNo>>, AllocError>
    requires { AreStartsFit workers starts.now }
    ensures starts { IfOk result (λ list. list.items ≡ map start_in starts.now) }
    ensures known { IfOk result (λ list. All (λ start. IfSome start (λ w. w < workers)) list.items) }
{
    let mut list = Vec::with_capacity(alloc, starts.len())?;
    for start in starts {
        list.push_reserved(start_of(*start, workers));
    }
    Ok(list)
}

/// The plan with these starts.
pub fn plan_of(alloc: Global, starts: &[u16], workers: usize) -> Result<Plan, AllocError>
    requires few { length starts.now ≤ MAX_SPLITS }
    requires fit { AreStartsFit workers starts.now }
    ensures starts { IfOk result (λ plan. plan.starts ≡ map start_in starts.now) }
    ensures workers { IfOk result (λ plan. plan.workers ≡ workers) }
{
    let list = listed(alloc, starts, workers)?;
    Ok(Plan::from_starts(list, workers))
}

/// These prices.
pub fn prices_of(alloc: Global, splits: &[u64], workers: &[u64]) -> Result<Prices, AllocError>
    ensures { IfOk result (λ prices. prices ≡ prices_in splits.now workers.now) }
{
    let splits = splits.to_vec(alloc)?;
    let workers = workers.to_vec(alloc)?;
    Ok(Prices::from_lists(splits, workers))
}

/// Writes the starts of a plan as numbers.
pub fn write_starts(plan: &Plan, starts: &mut [u16])
    requires size { length starts.old ≡ length plan.now.starts }
    requires workers { plan.now.workers ≤ MAX_WORKERS }
    ensures { map start_in starts.new ≡ plan.now.starts }
{
    for split in 0..plan.splits() {
        starts[split] = number_of(plan.of(SplitNo::new(split as u32)));
    }
}

fn number_of(start: Option<WorkerNo>) -> u16
    requires { IfSome start (λ w. w < MAX_WORKERS) }
    ensures { start_in result ≡ start }
{
    match start {
        Some(worker) => worker.index() as u16,
        None => NO_WORKER,
    }
}

/// Writes the prices of the splits.
pub fn write_split_prices(prices: &Prices, list: &mut [u64])
    requires size { length list.old ≡ length prices.now.splits }
    requires few { length list.old ≤ MAX_SPLITS }
    ensures { list.new ≡ prices.now.splits }
{
    for split in 0..list.len() {
        list[split] = prices.split(SplitNo::new(split as u32));
    }
}

/// Writes the prices of the workers' slots.
pub fn write_worker_prices(prices: &Prices, list: &mut [u64])
    requires size { length list.old ≡ length prices.now.workers }
    requires few { length list.old ≤ MAX_WORKERS }
    ensures { list.new ≡ prices.now.workers }
{
    for worker in 0..list.len() {
        list[worker] = prices.worker(WorkerNo::new(worker as u16));
    }
}
