ghost use Rattle.std.specs.Prelude.{◌≡◌, ◌≤◌, ◌<◌, ◌++◌, IfOk, OnOk, length, string_bytes};
ghost use Rattle.wave_problem.specs.declared.TheConstants.{MAX_SPLITS};
ghost use Rattle.rack_tree.specs.declared.TheConstants.{MAX_WORKERS};
ghost use Rattle.plan_text.specs.Report.{planned_by, price_line, price_lines, price_lines_of, start_line};
ghost use Rattle.plan_text.specs.Report.{start_lines};

use crate::figures::figures;
use crate::name_list::NameList;
use node_ids::{SplitNo, WorkerNo};
use price_certificate::{PlacePrices, Prices};
use std::alloc::{AllocError, Global};
use wave_problem::Plan;

/// The first line of the answer to a problem: how many splits its plan starts, their byte-distance, and where
/// places have prices, what the places cost that the plan takes.
pub fn planned(
    alloc: Global,
    places: &PlacePrices,
    count: usize,
    cost: u64,
    taken: u64,
) -> Result<String, AllocError>
    ensures { IfOk result (λ line. string_bytes line ≡ planned_by places.now count cost taken) }
{
    figures(alloc, "wave", places, count, cost, taken)
}

/// Appends the starts of a plan, by rising split. After an error the lines may hold a front of them; their
/// owner drops them.
pub fn add_starts(
    lines: &mut String,
    splits: &NameList<'_>,
    workers: &NameList<'_>,
    plan: &Plan,
) -> Result<(), AllocError>
    requires { length splits.now ≡ length plan.now.starts }
    ensures { OnOk result (string_bytes lines.new
        ≡ string_bytes lines.old ++ start_lines splits.now workers.now plan.now.starts) }
{
    for number in 0..plan.splits() {
        let start = plan.of(SplitNo::new(number as u32));
        add_start(lines, splits.name_or_empty(number), workers, start)?;
    }
    Ok(())
}

// A line for a split that starts.
fn add_start(
    lines: &mut String,
    split: &str,
    workers: &NameList<'_>,
    start: Option<WorkerNo>,
) -> Result<(), AllocError>
    ensures { OnOk result (string_bytes lines.new
        ≡ string_bytes lines.old ++ start_line workers.now split.now start) }
{
    match start {
        Some(worker) => {
            lines.push_str("start ")?;
            lines.push_str(split)?;
            lines.push_str(" ")?;
            lines.push_str(workers.name_or_empty(worker.index()))?;
            lines.push_str("\n")
        }
        None => Ok(()),
    }
}

/// Appends the prices of all splits, then of all workers, each by number. After an error the lines may
/// hold a front of them; their owner drops them.
pub fn add_prices(
    lines: &mut String,
    splits: &NameList<'_>,
    workers: &NameList<'_>,
    prices: &Prices,
) -> Result<(), AllocError>
    requires splits { length splits.now ≡ length prices.now.splits }
    requires workers { length workers.now ≡ length prices.now.workers }
    requires few_splits { length splits.now ≤ MAX_SPLITS }
    requires few_workers { length workers.now ≤ MAX_WORKERS }
    ensures { OnOk result (string_bytes lines.new
        ≡ string_bytes lines.old ++ price_lines splits.now workers.now prices.now) }
{
    add_split_prices(lines, splits, prices)?;
    add_worker_prices(lines, workers, prices)
}

fn add_split_prices(
    lines: &mut String,
    splits: &NameList<'_>,
    prices: &Prices,
) -> Result<(), AllocError>
    requires same { length splits.now ≡ length prices.now.splits }
    requires few { length splits.now ≤ MAX_SPLITS }
    ensures { OnOk result (string_bytes lines.new
        ≡ string_bytes lines.old ++ price_lines_of splits.now prices.now.splits) }
{
    for number in 0..splits.len() {
        let price = prices.split(SplitNo::new(number as u32));
        add_price(lines, splits.name_or_empty(number), price)?;
    }
    Ok(())
}

fn add_worker_prices(
    lines: &mut String,
    workers: &NameList<'_>,
    prices: &Prices,
) -> Result<(), AllocError>
    requires same { length workers.now ≡ length prices.now.workers }
    requires few { length workers.now ≤ MAX_WORKERS }
    ensures { OnOk result (string_bytes lines.new
        ≡ string_bytes lines.old ++ price_lines_of workers.now prices.now.workers) }
{
    for number in 0..workers.len() {
        let price = prices.worker(WorkerNo::new(number as u16));
        add_price(lines, workers.name_or_empty(number), price)?;
    }
    Ok(())
}

fn add_price(lines: &mut String, name: &str, price: u64) -> Result<(), AllocError>
    ensures { OnOk result (string_bytes lines.new ≡ string_bytes lines.old ++ price_line name.now price) }
{
    write!(lines, "price {name} {price}\n")
}
