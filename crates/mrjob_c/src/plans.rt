//! A plan of a wave.
ghost use Rattle.std.specs.Prelude.{◌≡◌, ◌≢◌, ◌↔◌, length, IfErr, IfOk, IsTrue, OnOk};
ghost use Rattle.price_certificate.specs.Certificate.{claim, HasOneSize};
ghost use Rattle.wave_planner.specs.Planned.{IsMadeOver};
ghost use Rattle.wave_arrays.specs.Rows.{narrow_rows, wave_in, wide_rows};
ghost use Rattle.mrjob_c.specs.Status.{IsFaultOfPlan, IsPlanFit, IsSmall, TellsPlanFault};
ghost use Rattle.mrjob_c.specs.Checks.{IsBestBy};
ghost use Rattle.mrjob_c.specs.Plans.{IsPlanned, kind_in};

use crate::status::{Fault, OK, are_sized, status_of};
use flow_network::NetworkKind;
use std::alloc::Global;
use wave_arrays::{
    NarrowWave, WaveRows, WideWave, build_problem, test_rows, write_split_prices, write_starts,
    write_worker_prices,
};
use wave_planner::{Planned, plan_with};

/// How many splits start, and the byte-distance of their starts together.
#[repr(C)]
#[derive(Clone, Copy, Debug, PartialEq, Eq)]
pub struct Total {
    pub count: u64,
    pub cost: u64,
}

/// Plans a wave: 0 where the starts, the prices and the total were written, else why nothing was.
#[unsafe(no_mangle)]
pub extern "C" fn mrjob_plan(
    alloc: Global,
    wave: &NarrowWave<'_>,
    network: u32,
    starts: &mut [u16],
    split_prices: &mut [u64],
    worker_prices: &mut [u64],
    total: &mut Total,
) -> u32
    ensures planned { result ≡ 0 → IsPlanned (narrow_rows wave.now) network starts.new split_prices.new
        worker_prices.new total.new.count total.new.cost }
    ensures fit { result ≡ 0 → IsPlanFit (narrow_rows wave.now) network (length starts.old)
        (length split_prices.old) (length worker_prices.old) }
    ensures told { result ≢ 0 → TellsPlanFault (narrow_rows wave.now) network (length starts.old)
        (length split_prices.old) (length worker_prices.old) result }
    ensures starts { result ≢ 0 → starts.new ≡ starts.old }
    ensures split_prices { result ≢ 0 → split_prices.new ≡ split_prices.old }
    ensures worker_prices { result ≢ 0 → worker_prices.new ≡ worker_prices.old }
    ensures total { result ≢ 0 → total.new ≡ total.old }
{
    plan(
        alloc,
        &wave.rows(),
        network,
        starts,
        split_prices,
        worker_prices,
        total,
    )
}

/// The same of a wide wave.
#[unsafe(no_mangle)]
pub extern "C" fn mrjob_plan_wide(
    alloc: Global,
    wave: &WideWave<'_>,
    network: u32,
    starts: &mut [u16],
    split_prices: &mut [u64],
    worker_prices: &mut [u64],
    total: &mut Total,
) -> u32
    ensures planned { result ≡ 0 → IsPlanned (wide_rows wave.now) network starts.new split_prices.new
        worker_prices.new total.new.count total.new.cost }
    ensures fit { result ≡ 0 → IsPlanFit (wide_rows wave.now) network (length starts.old)
        (length split_prices.old) (length worker_prices.old) }
    ensures told { result ≢ 0 → TellsPlanFault (wide_rows wave.now) network (length starts.old)
        (length split_prices.old) (length worker_prices.old) result }
    ensures starts { result ≢ 0 → starts.new ≡ starts.old }
    ensures split_prices { result ≢ 0 → split_prices.new ≡ split_prices.old }
    ensures worker_prices { result ≢ 0 → worker_prices.new ≡ worker_prices.old }
    ensures total { result ≢ 0 → total.new ≡ total.old }
{
    plan(
        alloc,
        &wave.rows(),
        network,
        starts,
        split_prices,
        worker_prices,
        total,
    )
}

// Plans the wave that the rows make.
fn plan(
    alloc: Global,
    rows: &WaveRows<'_>,
    network: u32,
    starts: &mut [u16],
    split_prices: &mut [u64],
    worker_prices: &mut [u64],
    total: &mut Total,
) -> u32
    ensures planned { result ≡ 0 → IsPlanned rows.now network starts.new split_prices.new
        worker_prices.new total.new.count total.new.cost }
    ensures fit { result ≡ 0 → IsPlanFit rows.now network (length starts.old)
        (length split_prices.old) (length worker_prices.old) }
    ensures told { result ≢ 0 → TellsPlanFault rows.now network (length starts.old)
        (length split_prices.old) (length worker_prices.old) result }
    ensures starts { result ≢ 0 → starts.new ≡ starts.old }
    ensures split_prices { result ≢ 0 → split_prices.new ≡ split_prices.old }
    ensures worker_prices { result ≢ 0 → worker_prices.new ≡ worker_prices.old }
    ensures total { result ≢ 0 → total.new ≡ total.old }
{
    let sizes = (starts.len(), split_prices.len(), worker_prices.len());
    match plan_rows(alloc, rows, network, sizes) {
        Ok(planned) => {
            write_starts(planned.plan(), starts);
            write_split_prices(planned.prices(), split_prices);
            write_worker_prices(planned.prices(), worker_prices);
            *total = total_of(&planned);
            OK
        }
        Err(fault) => status_of(fault),
    }
}

fn total_of(planned: &Planned) -> Total
    ensures count { result.count ≡ planned.now.certified.count }
    ensures cost { result.cost ≡ planned.now.certified.cost }
{
    let certified = planned.certified();
    Total {
        count: certified.count as u64,
        cost: certified.cost,
    }
}

// A plan for so many starts, prices of splits and prices of workers.
fn plan_rows(
    alloc: Global,
    rows: &WaveRows<'_>,
    network: u32,
    sizes: (usize, usize, usize),
) -> Result<Planned, Fault>
    ensures over { IfOk result (λ planned.
        IsMadeOver (kind_in network) (wave_in rows.now) planned.plan.starts planned.prices) }
    ensures best { IfOk result (λ planned.
        IsBestBy (claim (wave_in rows.now) planned.plan.starts planned.prices)
        planned.certified.count planned.certified.cost) }
    ensures sizes { IfOk result (λ planned.
        HasOneSize (claim (wave_in rows.now) planned.plan.starts planned.prices) planned.plan.workers) }
    ensures fit { OnOk result (IsPlanFit rows.now network sizes.0 sizes.1 sizes.2) }
    ensures told { IfErr result (IsFaultOfPlan rows.now network sizes.0 sizes.1 sizes.2) }
{
    let kind = kind_of(rows, network, sizes)?;
    let problem = build_problem(alloc, rows)?;
    // (a direct network for too many splits or workers has been refused)
    plan_with(alloc, &problem, kind).map_err(|_| Fault::Memory)
}

// The kind of network, where all else is in order too.
fn kind_of(
    rows: &WaveRows<'_>,
    network: u32,
    sizes: (usize, usize, usize),
) -> Result<NetworkKind, Fault>
    ensures kind { IfOk result (λ kind. kind ≡ kind_in network) }
    ensures fit { OnOk result (IsPlanFit rows.now network sizes.0 sizes.1 sizes.2) }
    ensures told { IfErr result (IsFaultOfPlan rows.now network sizes.0 sizes.1 sizes.2) }
{
    test_rows(rows).map_err(Fault::Rows)?;
    if !are_sized(rows, sizes.0, sizes.1, sizes.2) {
        return Err(Fault::Length);
    }
    match network {
        0 => Ok(NetworkKind::Racks),
        1 if is_small(rows) => Ok(NetworkKind::Direct),
        _ => Err(Fault::Network),
    }
}

// Whether the splits and the workers are few enough for the direct network.
fn is_small(rows: &WaveRows<'_>) -> bool
    ensures { IsTrue result ↔ IsSmall rows.now }
{
    rows.splits.len() <= direct_network::MAX_SPLITS
        && rows.workers.len() <= direct_network::MAX_WORKERS
}
