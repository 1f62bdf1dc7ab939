//! Where the first row stands that is not fit. Nothing here takes memory.
ghost use Rattle.std.specs.Prelude.{◌<◌, ◌↔◌, IsTrue, length};
ghost use Rattle.wave_arrays.specs.Claims.{IsStartFit};
ghost use Rattle.wave_arrays.specs.Places.{HasFitHolders, IsFirstUnfit, IsWorkerFit};
ghost use Rattle.wave_arrays.specs.Rows.{IsPairKnown, IsSplitFit, pairs_in};

use crate::array_rows::{SplitRow, WaveRows, WorkerRow};
use crate::claims::is_start_fit;
use crate::fit::{is_held_well, is_pair_known, is_split_fit};
use wave_problem::MAX_SLOTS;

/// The first rack that stands in no centre.
pub fn unfit_rack(rows: &WaveRows<'_>) -> Option<usize>
    ensures { IsFirstUnfit (λ centre. centre < rows.now.centres) rows.now.centre_of.now result }
{
    let centres = rows.centres;
    rows.centre_of
        .iter()
        .position(|centre| *centre as usize >= centres)
}

/// The first worker that stands in no rack or has too many slots.
pub fn unfit_worker(rows: &WaveRows<'_>) -> Option<usize>
    ensures { IsFirstUnfit (IsWorkerFit (length rows.now.centre_of.now)) rows.now.workers.now result }
{
    let racks = rows.centre_of.len();
    rows.workers
        .iter()
        .position(|row| !is_worker_fit(racks, row))
}

fn is_worker_fit(racks: usize, row: &WorkerRow) -> bool
    ensures { IsTrue result ↔ IsWorkerFit racks row.now }
{
    (row.rack as usize) < racks && row.free <= MAX_SLOTS
}

/// The first split that has too many bytes or holders, or holders past the last.
pub fn unfit_split(rows: &WaveRows<'_>) -> Option<usize>
    ensures { IsFirstUnfit (IsSplitFit (length rows.now.holders.now)) rows.now.splits.now result }
{
    let holders = rows.holders.len();
    rows.splits
        .iter()
        .position(|row| !is_split_fit(holders, row))
}

/// The first barred pair of no split or of no worker.
pub fn unfit_pair(rows: &WaveRows<'_>) -> Option<usize>
    ensures { IsFirstUnfit (IsPairKnown (length rows.now.splits.now) (length rows.now.workers.now))
        (pairs_in rows.now.barred) result }
{
    let (splits, workers) = (rows.splits.len(), rows.workers.len());
    for place in 0..rows.barred.len() {
        if !is_pair_known(splits, workers, rows.barred.at(place)) {
            return Some(place);
        }
    }
    None
}

/// The first split that is not fit, or has a holder that is no worker or stands twice.
pub fn unfit_holders(rows: &WaveRows<'_>) -> Option<usize>
    ensures { IsFirstUnfit (HasFitHolders rows.now) rows.now.splits.now result }
{
    rows.splits
        .iter()
        .position(|row| !has_fit_holders(rows, row))
}

fn has_fit_holders(rows: &WaveRows<'_>, row: &SplitRow) -> bool
    ensures { IsTrue result ↔ HasFitHolders rows.now row.now }
{
    is_split_fit(rows.holders.len(), row) && is_held_well(rows.workers.len(), rows.holders, row)
}

/// The first start on no worker that does not say none.
pub fn unfit_start(starts: &[u16], workers: usize) -> Option<usize>
    ensures { IsFirstUnfit (IsStartFit workers) starts.now result }
{
    starts
        .iter()
        .position(|start| !is_start_fit(*start, workers))
}
