//! A check of a plan by its prices.
ghost use Rattle.std.specs.Prelude.{◌≡◌, ◌<◌, ◌≤◌, ◌^◌, length, map, IfErr, IfOk, IfSome, IsErr};
ghost use Rattle.std.specs.Prelude.{IsOk, OnOk};
ghost use Rattle.price_certificate.specs.Certificate.{charged_claim, claim, HasOneSize};
ghost use Rattle.wave_arrays.specs.Claims.{prices_in, start_in};
ghost use Rattle.wave_arrays.specs.Rows.{narrow_rows, wave_in, wide_rows};
ghost use Rattle.mrjob_c.specs.Status.{IsCheckFit, IsFaultOfCheck, TellsCheckFault};
ghost use Rattle.mrjob_c.specs.Checks.{claim_in, condition_of, IsCertifiedBy, IsJudged, IsJudgedWith};
ghost use Rattle.mrjob_c.specs.Checks.{IsRefusedBy};
ghost use Rattle.mrjob_c.specs.Checks.{narrow_finding, number_of, split_in, Tells, wide_finding, worker_in};

use crate::status::{Fault, OK, REFUSED, are_sized, status_of};
use certificate_checker::{Certified, certify_places};
use node_ids::{SplitNo, WorkerNo};
use price_certificate::{Condition, PlacePrices, Prices};
use std::alloc::{AllocError, Global};
use wave_arrays::{
    NarrowWave, WaveRows, WideWave, are_starts_fit, build_problem, plan_of, prices_of, test_rows,
};
use wave_problem::{Plan, Problem};

/// What a check says of a plan: how many splits start at which byte-distance, or, where the condition is
/// not 0, which one fails first and at which split and worker.
#[repr(C)]
#[derive(Clone, Copy, Debug, PartialEq, Eq)]
pub struct Verdict {
    pub count: u64,
    pub cost: u64,
    pub condition: u32,
    pub split: u16,
    pub worker: u16,
}

/// The same of a wide wave.
#[repr(C)]
#[derive(Clone, Copy, Debug, PartialEq, Eq)]
pub struct WideVerdict {
    pub count: u64,
    pub cost: u64,
    pub condition: u32,
    pub split: u32,
    pub worker: u32,
}

// The number of a split or a worker where a condition has none.
const NOWHERE: u16 = 65535;

// The same in the verdict of a wide wave.
const WIDE_NOWHERE: u32 = 4_294_967_295;

/// Checks starts by prices: 0 where they are certified, 1 where a condition fails, else why nothing is
/// said of them.
#[unsafe(no_mangle)]
pub extern "C" fn mrjob_check(
    alloc: Global,
    wave: &NarrowWave<'_>,
    starts: &[u16],
    split_prices: &[u64],
    worker_prices: &[u64],
    verdict: &mut Verdict,
) -> u32
    ensures certified { result ≡ 0 →
        IsCertifiedBy (claim_in (narrow_rows wave.now) starts.now split_prices.now worker_prices.now)
        (narrow_finding verdict.new) }
    ensures refused { result ≡ 1 →
        IsRefusedBy (claim_in (narrow_rows wave.now) starts.now split_prices.now worker_prices.now)
        (narrow_finding verdict.new) }
    ensures fit { result ≤ 1 → IsCheckFit (narrow_rows wave.now) starts.now (length split_prices.now)
        (length worker_prices.now) }
    ensures told { 2 ≤ result → TellsCheckFault (narrow_rows wave.now) starts.now (length split_prices.now)
        (length worker_prices.now) result }
    ensures verdict { 2 ≤ result → verdict.new ≡ verdict.old }
{
    match check(alloc, &wave.rows(), starts, split_prices, worker_prices) {
        Ok(outcome) => {
            *verdict = narrow_verdict(outcome);
            status_of_outcome(&outcome)
        }
        Err(fault) => status_of(fault),
    }
}

/// The same of a wide wave.
#[unsafe(no_mangle)]
pub extern "C" fn mrjob_check_wide(
    alloc: Global,
    wave: &WideWave<'_>,
    starts: &[u16],
    split_prices: &[u64],
    worker_prices: &[u64],
    verdict: &mut WideVerdict,
) -> u32
    ensures certified { result ≡ 0 →
        IsCertifiedBy (claim_in (wide_rows wave.now) starts.now split_prices.now worker_prices.now)
        (wide_finding verdict.new) }
    ensures refused { result ≡ 1 →
        IsRefusedBy (claim_in (wide_rows wave.now) starts.now split_prices.now worker_prices.now)
        (wide_finding verdict.new) }
    ensures fit { result ≤ 1 → IsCheckFit (wide_rows wave.now) starts.now (length split_prices.now)
        (length worker_prices.now) }
    ensures told { 2 ≤ result → TellsCheckFault (wide_rows wave.now) starts.now (length split_prices.now)
        (length worker_prices.now) result }
    ensures verdict { 2 ≤ result → verdict.new ≡ verdict.old }
{
    match check(alloc, &wave.rows(), starts, split_prices, worker_prices) {
        Ok(outcome) => {
            *verdict = wide_verdict(outcome);
            status_of_outcome(&outcome)
        }
        Err(error) => status_of(error),
    }
}

pub(crate) fn status_of_outcome(outcome: &Result<Certified, Condition>) -> u32
    ensures certified { result ≡ 0 → IsOk outcome.now }
    ensures refused { result ≡ 1 → IsErr outcome.now }
    ensures within { result ≤ 1 }
{
    if outcome.is_ok() { OK } else { REFUSED }
}

// Checks starts by prices where all places are free, and tells the count and the cost, or the first condition
// that fails.
fn check(
    alloc: Global,
    rows: &WaveRows<'_>,
    starts: &[u16],
    split_prices: &[u64],
    worker_prices: &[u64],
) -> Result<Result<Certified, Condition>, Fault>
    ensures judged { IfOk result
        (IsJudged (claim_in rows.now starts.now split_prices.now worker_prices.now)) }
    ensures at_a_split { IfOk result (λ outcome.
        IfErr outcome (λ c. IfSome (split_in c) (λ s. s < length rows.now.splits.now))) }
    ensures fit { OnOk result
        (IsCheckFit rows.now starts.now (length split_prices.now) (length worker_prices.now)) }
    ensures told { IfErr result
        (IsFaultOfCheck rows.now starts.now (length split_prices.now) (length worker_prices.now)) }
{
    test_arrays(rows, starts, split_prices.len(), worker_prices.len())?;
    let unpriced = PlacePrices::free(alloc);
    Ok(judge(alloc, rows, &unpriced, starts, split_prices, worker_prices)?)
}

fn test_arrays(
    rows: &WaveRows<'_>,
    starts: &[u16],
    splits: usize,
    workers: usize,
) -> Result<(), Fault>
    ensures fit { OnOk result (IsCheckFit rows.now starts.now splits workers) }
    ensures told { IfErr result (IsFaultOfCheck rows.now starts.now splits workers) }
{
    test_rows(rows).map_err(Fault::Rows)?;
    if !are_sized(rows, starts.len(), splits, workers) {
        return Err(Fault::Length);
    }
    if !are_starts_fit(starts, rows.workers.len()) {
        return Err(Fault::Starts);
    }
    Ok(())
}

// The outcome of a check where places have these prices.
pub(crate) fn judge(
    alloc: Global,
    rows: &WaveRows<'_>,
    places: &PlacePrices,
    starts: &[u16],
    split_prices: &[u64],
    worker_prices: &[u64],
) -> Result<Result<Certified, Condition>, AllocError>
    requires { IsCheckFit rows.now starts.now (length split_prices.now) (length worker_prices.now) }
    ensures judged { IfOk result
        (IsJudgedWith (charged_claim (wave_in rows.now) places.now (map start_in starts.now)
        (prices_in split_prices.now worker_prices.now))) }
    ensures at_a_split { IfOk result (λ outcome.
        IfErr outcome (λ c. IfSome (split_in c) (λ s. s < length rows.now.splits.now))) }
{
    let prices = prices_of(alloc, split_prices, worker_prices)?;
    let plan = plan_of(alloc, starts, rows.workers.len())?;
    let problem = build_problem(alloc, rows)?;
    Ok(certify_within(alloc, &problem, places, &plan, &prices))
}

// The outcome of a check, whose condition is of one of the splits if it is of a split.
fn certify_within(
    alloc: Global,
    problem: &Problem,
    places: &PlacePrices,
    plan: &Plan,
    prices: &Prices,
) -> Result<Certified, Condition>
    requires { HasOneSize (claim problem.now plan.now.starts prices.now) plan.now.workers }
    ensures judged { IsJudgedWith (charged_claim problem.now places.now plan.now.starts prices.now) result }
    ensures at_a_split { IfErr result (λ c. IfSome (split_in c) (λ s. s < length problem.now.splits)) }
{
    certify_places(alloc, problem, places, plan, prices)
}

// The number of a condition, and the split and the worker that it is of.
#[derive(Clone, Copy)]
struct Place {
    condition: u32,
    split: Option<SplitNo>,
    worker: Option<WorkerNo>,
}

fn place_of(condition: Condition) -> Place
    ensures number { result.condition ≡ condition_of condition }
    ensures split { result.split ≡ split_in condition }
    ensures worker { result.worker ≡ worker_in condition }
{
    match condition {
        Condition::Open(s) => place_at(1, Some(s), None),
        Condition::Allowed(s, w) => place_at(2, Some(s), Some(w)),
        Condition::Room(w) => place_at(3, None, Some(w)),
        Condition::SplitPrice(s) => place_at(4, Some(s), None),
        Condition::WorkerPrice(w) => place_at(4, None, Some(w)),
        Condition::Priced(s, w) => place_at(5, Some(s), Some(w)),
        Condition::Tight(s, w) => place_at(6, Some(s), Some(w)),
        Condition::Unstarted(s) => place_at(7, Some(s), None),
        Condition::Spare(w) => place_at(8, None, Some(w)),
    }
}

fn place_at(condition: u32, split: Option<SplitNo>, worker: Option<WorkerNo>) -> Place
    ensures { result ≡ record { condition = condition; split = split; worker = worker } }
{
    Place {
        condition,
        split,
        worker,
    }
}

fn narrow_verdict(outcome: Result<Certified, Condition>) -> Verdict
    requires { IfErr outcome (λ c. IfSome (split_in c) (λ s. s < 2 ^ 16)) }
    ensures { Tells (narrow_finding result) outcome }
{
    match outcome {
        Ok(certified) => Verdict {
            count: certified.count as u64,
            cost: certified.cost,
            condition: 0,
            split: NOWHERE,
            worker: NOWHERE,
        },
        Err(condition) => {
            let at = place_of(condition);
            Verdict {
                count: 0,
                cost: 0,
                condition: at.condition,
                split: at.split.map_or(NOWHERE, |s| s.index() as u16),
                worker: at.worker.map_or(NOWHERE, |w| w.index() as u16),
            }
        }
    }
}

pub(crate) fn wide_verdict(outcome: Result<Certified, Condition>) -> WideVerdict
    ensures { Tells (wide_finding result) outcome }
{
    match outcome {
        Ok(certified) => WideVerdict {
            count: certified.count as u64,
            cost: certified.cost,
            condition: 0,
            split: WIDE_NOWHERE,
            worker: WIDE_NOWHERE,
        },
        Err(condition) => {
            let at = place_of(condition);
            WideVerdict {
                count: 0,
                cost: 0,
                condition: at.condition,
                split: at.split.map_or(WIDE_NOWHERE, |s| s.index() as u32),
                worker: at.worker.map_or(WIDE_NOWHERE, |w| w.index() as u32),
            }
        }
    }
}
