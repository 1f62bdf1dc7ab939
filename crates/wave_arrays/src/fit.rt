//! Which rows make a problem. Nothing here takes memory.
ghost use Rattle.std.specs.Prelude.{◌≡◌, ◌≢◌, ◌↔◌, ◌<◌, ℕ, IsTrue, All, AllPairs, IfErr, OnOk, false};
ghost use Rattle.std.specs.Prelude.{length, slice_index_or};
ghost use Rattle.wave_problem.specs.Wave.{IsHeldWell};
ghost use Rattle.wave_arrays.specs.Rows.{AreBarsFit, AreFit, AreHoldersFit, AreRacksFit, AreSplitsFit};
ghost use Rattle.wave_arrays.specs.Rows.{AreWorkersFit, IsPairKnown, IsSplitFit, split_of};
ghost use Rattle.wave_arrays.specs.Refusals.{IsRefusal};

use crate::array_rows::{SplitRow, WaveRows, WidePairRow};
use crate::places::{unfit_holders, unfit_pair, unfit_rack, unfit_split, unfit_worker};
use rack_tree::{MAX_CENTRES, MAX_RACKS, MAX_WORKERS};
use thiserror::Error;
use wave_problem::{MAX_BYTES, MAX_HOLDERS};

/// Which rows are not fit, in the order in which they are tested.
#[derive(Clone, Copy, Debug, PartialEq, Eq, Error)]
pub enum RowsError {
    /// There are too many centres or racks, or a rack stands in no centre.
    #[error("a rack is not fit")]
    Racks,
    /// There are too many workers, or one stands in no rack or has too many slots.
    #[error("a worker is not fit")]
    Workers,
    /// There are too many splits, or one has too many bytes or holders, or holders past the last.
    #[error("a split is not fit")]
    Splits,
    /// A barred pair is of no split or of no worker.
    #[error("a barred pair is not fit")]
    Bars,
    /// A holder of a split is no worker, or stands twice.
    #[error("a holder is unknown or repeated")]
    Holders,
}

/// Tests the rows, kind by kind.
pub fn test_rows(rows: &WaveRows<'_>) -> Result<(), RowsError>
    ensures fit { OnOk result (AreFit rows.now) }
    ensures refused { IfErr result (IsRefusal rows.now) }
{
    if !are_racks_fit(rows) {
        return Err(RowsError::Racks);
    }
    if !are_workers_fit(rows) {
        return Err(RowsError::Workers);
    }
    if !are_splits_fit(rows) {
        return Err(RowsError::Splits);
    }
    if !are_bars_fit(rows) {
        return Err(RowsError::Bars);
    }
    if !are_holders_fit(rows) {
        return Err(RowsError::Holders);
    }
    Ok(())
}

fn are_racks_fit(rows: &WaveRows<'_>) -> bool
    ensures { IsTrue result ↔ AreRacksFit rows.now }
{
    rows.centres <= MAX_CENTRES && rows.centre_of.len() <= MAX_RACKS && unfit_rack(rows).is_none()
}

fn are_workers_fit(rows: &WaveRows<'_>) -> bool
    ensures { IsTrue result ↔ AreWorkersFit rows.now }
{
    rows.workers.len() <= MAX_WORKERS && unfit_worker(rows).is_none()
}

fn are_splits_fit(rows: &WaveRows<'_>) -> bool
    ensures { IsTrue result ↔ AreSplitsFit rows.now }
{
    rows.splits.len() <= rows.barred.most_splits() && unfit_split(rows).is_none()
}

pub(crate) fn is_split_fit(holders: usize, row: &SplitRow) -> bool
    ensures { IsTrue result ↔ IsSplitFit holders row.now }
{
    row.bytes <= MAX_BYTES
        && row.holder_count as usize <= MAX_HOLDERS
        && row.first_holder as usize + row.holder_count as usize <= holders
}

fn are_bars_fit(rows: &WaveRows<'_>) -> bool
    ensures { IsTrue result ↔ AreBarsFit rows.now }
{
    unfit_pair(rows).is_none()
}

pub(crate) fn is_pair_known(splits: usize, workers: usize, pair: WidePairRow) -> bool
    ensures { IsTrue result ↔ IsPairKnown splits workers pair }
{
    (pair.split as usize) < splits && (pair.worker as usize) < workers
}

fn are_holders_fit(rows: &WaveRows<'_>) -> bool
    requires { AreSplitsFit rows.now }
    ensures { IsTrue result ↔ AreHoldersFit rows.now }
{
    unfit_holders(rows).is_none()
}

pub(crate) fn is_held_well(workers: usize, holders: &[u16], row: &SplitRow) -> bool
    requires { IsSplitFit (length holders.now) row.now }
    ensures { IsTrue result ↔ IsHeldWell workers (split_of holders.now row.now) }
{
    let first = row.first_holder as usize;
    let held = &holders[first..first + row.holder_count as usize];
    are_known(workers, held) && are_distinct(held)
}

fn are_known(workers: usize, held: &[u16]) -> bool
    ensures { IsTrue result ↔ All (λ h. h < workers) held.now }
{
    held.iter().all(|holder| (*holder as usize) < workers)
}

fn are_distinct(held: &[u16]) -> bool
    ensures { IsTrue result ↔ AllPairs (λ a b. a ≢ b) held.now }
{
    for i in 0..held.len() {
        if stands_before(held, i) {
            return false;
        }
    }
    true
}

// Whether the holder at a place stands at an earlier one too.
fn stands_before(held: &[u16], i: usize) -> bool
    requires { i < length held.now }
    ensures repeated { IsTrue result → AllPairs (λ a b. a ≢ b) held.now → ⊥ }
    ensures apart { result ≡ false
        → (k d : ℕ) → k < i → slice_index_or held.now k d ≢ slice_index_or held.now i d }
{
    for k in 0..i {
        if held[k] == held[i] {
            return true;
        }
    }
    false
}
