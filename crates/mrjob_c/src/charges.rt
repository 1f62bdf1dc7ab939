//! Plans and checks of wide waves where places have prices.
ghost use Rattle.std.specs.Prelude.{◌≡◌, ◌≢◌, ◌≤◌, length, IfErr, IfOk, OnOk};
ghost use Rattle.price_certificate.specs.Certificate.{charged_claim, claim, HasOneSize};
ghost use Rattle.wave_arrays.specs.PlacePrices.{places_in};
ghost use Rattle.wave_arrays.specs.Rows.{wave_in, wide_rows};
ghost use Rattle.mrjob_c.specs.Status.{IsPlacesCheckFit, IsPlacesPlanFit, IsFaultOfPlacesCheck};
ghost use Rattle.mrjob_c.specs.Status.{IsFaultOfPlacesPlan, TellsPlacesCheckFault, TellsPlacesPlanFault};
ghost use Rattle.mrjob_c.specs.Checks.{charged_claim_in, places_finding, IsBestWith, IsCertifiedWith};
ghost use Rattle.mrjob_c.specs.Checks.{IsJudgedWith, IsRefusedBy, Tells, places_told};

use crate::checks::{judge, status_of_outcome, wide_verdict};
use crate::status::{Fault, OK, are_sized, status_of};
use certificate_checker::Certified;
use price_certificate::Condition;
use std::alloc::Global;
use wave_arrays::{
    PlaceRows, WaveRows, WideWave, are_places_fit, are_starts_fit, build_places, build_problem,
    test_rows, write_split_prices, write_starts, write_worker_prices,
};
use wave_planner::{Planned, plan_places};

/// How many splits start, the byte-distance of their starts together, and what their places cost.
#[repr(C)]
#[derive(Clone, Copy, Debug, PartialEq, Eq)]
pub struct PlacesTotal {
    pub count: u64,
    pub cost: u64,
    pub places: u64,
}

/// What a check says of a plan: its total, or, where the condition is not 0, which one fails first and at
/// which split and worker.
#[repr(C)]
#[derive(Clone, Copy, Debug, PartialEq, Eq)]
pub struct PlacesVerdict {
    pub count: u64,
    pub cost: u64,
    pub places: u64,
    pub condition: u32,
    pub split: u32,
    pub worker: u32,
}

// ---- a plan ----

/// Plans a wave where places have prices: 0 where the starts, the prices and the total were written, else why
/// nothing was.
#[unsafe(no_mangle)]
pub extern "C" fn mrjob_plan_places(
    alloc: Global,
    wave: &WideWave<'_>,
    places: &PlaceRows<'_>,
    starts: &mut [u16],
    split_prices: &mut [u64],
    worker_prices: &mut [u64],
    total: &mut PlacesTotal,
) -> u32
    ensures planned { result ≡ 0 → IsBestWith (charged_claim_in (wide_rows wave.now) places.now starts.new
        split_prices.new worker_prices.new) total.new.count total.new.cost total.new.places }
    ensures fit { result ≡ 0 → IsPlacesPlanFit (wide_rows wave.now) places.now (length starts.old)
        (length split_prices.old) (length worker_prices.old) }
    ensures told { result ≢ 0 → TellsPlacesPlanFault (wide_rows wave.now) places.now (length starts.old)
        (length split_prices.old) (length worker_prices.old) result }
    ensures starts { result ≢ 0 → starts.new ≡ starts.old }
    ensures split_prices { result ≢ 0 → split_prices.new ≡ split_prices.old }
    ensures worker_prices { result ≢ 0 → worker_prices.new ≡ worker_prices.old }
    ensures total { result ≢ 0 → total.new ≡ total.old }
{
    let sizes = (starts.len(), split_prices.len(), worker_prices.len());
    match plan_charged(alloc, &wave.rows(), places, sizes) {
        Ok(planned) => {
            write_starts(planned.plan(), starts);
            write_split_prices(planned.prices(), split_prices);
            write_worker_prices(planned.prices(), worker_prices);
            *total = total_of(&planned);
            OK
        }
        Err(fault) => status_of(fault),
    }
}

fn total_of(planned: &Planned) -> PlacesTotal
    ensures count { result.count ≡ planned.now.certified.count }
    ensures cost { result.cost ≡ planned.now.certified.cost }
    ensures places { result.places ≡ planned.now.certified.places }
{
    let certified = planned.certified();
    PlacesTotal {
        count: certified.count as u64,
        cost: certified.cost,
        places: certified.places,
    }
}

// A plan for so many starts, prices of splits and prices of workers.
fn plan_charged(
    alloc: Global,
    rows: &WaveRows<'_>,
    places: &PlaceRows<'_>,
    sizes: (usize, usize, usize),
) -> Result<Planned, Fault>
    ensures best { IfOk result (λ planned.
        IsBestWith (charged_claim (wave_in rows.now) (places_in places.now) planned.plan.starts
        planned.prices) planned.certified.count planned.certified.cost planned.certified.places) }
    ensures sizes { IfOk result (λ planned.
        HasOneSize (claim (wave_in rows.now) planned.plan.starts planned.prices) planned.plan.workers) }
    ensures fit { OnOk result (IsPlacesPlanFit rows.now places.now sizes.0 sizes.1 sizes.2) }
    ensures told { IfErr result (IsFaultOfPlacesPlan rows.now places.now sizes.0 sizes.1 sizes.2) }
{
    test_for_plan(rows, places, sizes)?;
    let problem = build_problem(alloc, rows)?;
    let prices = build_places(alloc, places)?;
    Ok(plan_places(alloc, &problem, &prices)?)
}

fn test_for_plan(
    rows: &WaveRows<'_>,
    places: &PlaceRows<'_>,
    sizes: (usize, usize, usize),
) -> Result<(), Fault>
    ensures fit { OnOk result (IsPlacesPlanFit rows.now places.now sizes.0 sizes.1 sizes.2) }
    ensures told { IfErr result (IsFaultOfPlacesPlan rows.now places.now sizes.0 sizes.1 sizes.2) }
{
    test_rows(rows).map_err(Fault::Rows)?;
    if !are_sized(rows, sizes.0, sizes.1, sizes.2) {
        return Err(Fault::Length);
    }
    if !are_places_fit(places, rows.workers.len()) {
        return Err(Fault::Places);
    }
    Ok(())
}

// ---- a check ----

/// Checks starts by prices where places have prices: 0 where they are certified, 1 where a condition fails,
/// else why nothing is said of them.
#[unsafe(no_mangle)]
pub extern "C" fn mrjob_check_places(
    alloc: Global,
    wave: &WideWave<'_>,
    places: &PlaceRows<'_>,
    starts: &[u16],
    split_prices: &[u64],
    worker_prices: &[u64],
    verdict: &mut PlacesVerdict,
) -> u32
    ensures certified { result ≡ 0 →
        IsCertifiedWith (charged_claim_in (wide_rows wave.now) places.now starts.now split_prices.now
        worker_prices.now) (places_finding verdict.new) verdict.new.places }
    ensures refused { result ≡ 1 →
        IsRefusedBy (charged_claim_in (wide_rows wave.now) places.now starts.now split_prices.now
        worker_prices.now) (places_finding verdict.new) }
    ensures no_places { result ≡ 1 → verdict.new.places ≡ 0 }
    ensures fit { result ≤ 1 → IsPlacesCheckFit (wide_rows wave.now) places.now starts.now
        (length split_prices.now) (length worker_prices.now) }
    ensures told { 2 ≤ result → TellsPlacesCheckFault (wide_rows wave.now) places.now starts.now
        (length split_prices.now) (length worker_prices.now) result }
    ensures verdict { 2 ≤ result → verdict.new ≡ verdict.old }
{
    match check_charged(
        alloc,
        &wave.rows(),
        places,
        starts,
        split_prices,
        worker_prices,
    ) {
        Ok(outcome) => {
            *verdict = places_verdict(outcome);
            status_of_outcome(&outcome)
        }
        Err(fault) => status_of(fault),
    }
}

// Checks starts by prices, and tells the total, or the first condition that fails.
fn check_charged(
    alloc: Global,
    rows: &WaveRows<'_>,
    places: &PlaceRows<'_>,
    starts: &[u16],
    split_prices: &[u64],
    worker_prices: &[u64],
) -> Result<Result<Certified, Condition>, Fault>
    ensures judged { IfOk result
        (IsJudgedWith (charged_claim_in rows.now places.now starts.now split_prices.now worker_prices.now)) }
    ensures fit { OnOk result (IsPlacesCheckFit rows.now places.now starts.now (length split_prices.now)
        (length worker_prices.now)) }
    ensures told { IfErr result (IsFaultOfPlacesCheck rows.now places.now starts.now (length split_prices.now)
        (length worker_prices.now)) }
{
    test_for_check(
        rows,
        places,
        starts,
        split_prices.len(),
        worker_prices.len(),
    )?;
    let prices = build_places(alloc, places)?;
    Ok(judge(alloc, rows, &prices, starts, split_prices, worker_prices)?)
}

fn test_for_check(
    rows: &WaveRows<'_>,
    places: &PlaceRows<'_>,
    starts: &[u16],
    splits: usize,
    workers: usize,
) -> Result<(), Fault>
    ensures fit { OnOk result (IsPlacesCheckFit rows.now places.now starts.now splits workers) }
    ensures told { IfErr result (IsFaultOfPlacesCheck rows.now places.now starts.now splits workers) }
{
    test_rows(rows).map_err(Fault::Rows)?;
    if !are_sized(rows, starts.len(), splits, workers) {
        return Err(Fault::Length);
    }
    if !are_starts_fit(starts, rows.workers.len()) {
        return Err(Fault::Starts);
    }
    if !are_places_fit(places, rows.workers.len()) {
        return Err(Fault::Places);
    }
    Ok(())
}

fn places_verdict(outcome: Result<Certified, Condition>) -> PlacesVerdict
    ensures told { Tells (places_finding result) outcome }
    ensures places { result.places ≡ places_told outcome }
{
    let places = places_of(&outcome);
    let told = wide_verdict(outcome);
    PlacesVerdict {
        count: told.count,
        cost: told.cost,
        places,
        condition: told.condition,
        split: told.split,
        worker: told.worker,
    }
}

// What the places cost, where the outcome is that the prices certify.
fn places_of(outcome: &Result<Certified, Condition>) -> u64
    ensures { result ≡ places_told outcome.now }
{
    match outcome {
        Ok(certified) => certified.places,
        Err(_) => 0,
    }
}
