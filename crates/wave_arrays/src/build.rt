//! The problem that rows make.
ghost use Rattle.std.specs.Prelude.{◌≡◌, ◌<◌, ◌≤◌, length, map, All, IfOk, OnOk};
ghost use Rattle.node_ids.specs.Sets.{with_pair};
ghost use Rattle.rack_tree.specs.declared.TheConstants.{MAX_CENTRES, MAX_WORKERS};
ghost use Rattle.wave_arrays.specs.Rows.{AreFit, AreRacksFit, AreWorkersFit, IsPairKnown, IsSplitFit};
ghost use Rattle.wave_arrays.specs.Rows.{TheBarredAreThoseListed, barred_in, pairs_in, split_of, tree_in};
ghost use Rattle.wave_arrays.specs.Rows.{wave_in, worker_of};
ghost use Rattle.wave_problem.specs.declared.TheConstants.{MAX_SPLITS};

use crate::array_rows::{BarredRows, SplitRow, WaveRows, WidePairRow, WorkerRow};
use node_ids::{CentreNo, PairSet, RackNo, SplitNo, WorkerNo};
use rack_tree::RackTree;
use std::alloc::{AllocError, Global};
use wave_problem::{Problem, SplitRef, WorkerLine};

/// The problem that the rows make: the same rows make equal problems.
pub fn build_problem(alloc: Global, rows: &WaveRows<'_>) -> Result<Problem, AllocError>
    requires { AreFit rows.now }
    ensures { IfOk result (λ problem. problem ≡ wave_in rows.now) }
{
    let workers = build_workers(alloc, rows.workers)?;
    let holders = numbered(alloc, rows.holders)?;
    let splits = build_splits(alloc, &holders, rows.splits)?;
    let barred = build_barred(alloc, rows.splits.len(), &rows.barred)?;
    let tree = build_tree(alloc, rows)?;
    Problem::within_limits(alloc, tree, workers, &splits, barred)
}

/// A pair is barred in that problem just where it is listed in the rows.
pub fn the_barred_are_those_listed()
    ensures { TheBarredAreThoseListed }
{}

fn build_tree(alloc: Global, rows: &WaveRows<'_>) -> Result<RackTree, AllocError>
    requires racks { AreRacksFit rows.now }
    requires workers { AreWorkersFit rows.now }
    ensures { IfOk result (λ tree. tree ≡ tree_in rows.now) }
{
    let centre_of = centres_of(alloc, rows.centre_of)?;
    let rack_of = racks_of(alloc, rows.workers)?;
    Ok(RackTree::from_lists(rows.centres, centre_of, rack_of))
}

fn centres_of(alloc: Global, numbers: &[u16]) -> Result<Vec<CentreNo>, AllocError>
    requires { All (λ centre. centre < MAX_CENTRES) numbers.now }
    ensures { IfOk result (λ centres. centres.items ≡ numbers.now) }
{
    let mut centres = Vec::with_capacity(alloc, numbers.len())?;
    for number in numbers {
        centres.push_reserved(CentreNo::new(*number as u8));
    }
    Ok(centres)
}

fn racks_of(alloc: Global, workers: &[WorkerRow]) -> Result<Vec<RackNo>, AllocError>
    ensures { IfOk result (λ racks. racks.items ≡ map (λ row. row.rack) workers.now) }
{
    workers
        .iter()
        .map(|row| RackNo::new(row.rack))
        .collect(alloc)
}

fn build_workers(alloc: Global, workers: &[WorkerRow]) -> Result<Vec<WorkerLine>, AllocError>
    ensures { IfOk result (λ lines. lines.items ≡ map worker_of workers.now) }
{
    workers.iter().map(|row| worker_line(row)).collect(alloc)
}

fn worker_line(row: &WorkerRow) -> WorkerLine
    ensures { result ≡ worker_of row.now }
{
    WorkerLine {
        live: row.live != 0,
        free: row.free,
    }
}

// The set of these barred pairs, of so many splits.
fn build_barred(alloc: Global, splits: usize, pairs: &BarredRows<'_>) -> Result<PairSet, AllocError>
    requires known { All (IsPairKnown splits MAX_WORKERS) (pairs_in pairs.now) }
    requires few { splits ≤ MAX_SPLITS }
    ensures { IfOk result (λ set. set ≡ barred_in splits (pairs_in pairs.now)) }
{
    let mut set = PairSet::new(alloc, splits)?;
    for place in 0..pairs.len() {
        bar(&mut set, pairs.at(place))?;
    }
    Ok(set)
}

fn bar(set: &mut PairSet, pair: WidePairRow) -> Result<(), AllocError>
    requires split { pair.split < length set.old }
    requires worker { pair.worker < MAX_WORKERS }
    ensures { OnOk result (set.new ≡ with_pair set.old pair.split pair.worker) }
{
    set.put(SplitNo::new(pair.split), WorkerNo::new(pair.worker as u16))
}

fn numbered(alloc: Global, numbers: &[u16]) -> Result<Vec<WorkerNo>, AllocError>
    ensures { IfOk result (λ workers. workers.items ≡ numbers.now) }
{
    numbers
        .iter()
        .map(|number| WorkerNo::new(*number))
        .collect(alloc)
}

// A line for each split, whose holders are lent from the list of all.
fn build_splits<'h>(
    alloc: Global,
    holders: &'h [WorkerNo],
    splits: &[SplitRow],
) -> Result<Vec<SplitRef<'h>>, AllocError>
    requires { All (IsSplitFit (length holders.now)) splits.now }
    ensures { IfOk result (λ lines. lines.items ≡ map (split_of holders.now) splits.now) }
{
    splits
        .iter()
        .map(|row| split_line(holders, row))
        .collect(alloc)
}

fn split_line<'h>(holders: &'h [WorkerNo], row: &SplitRow) -> SplitRef<'h>
    requires { IsSplitFit (length holders.now) row.now }
    ensures { result ≡ split_of holders.now row.now }
{
    let first = row.first_holder as usize;
    SplitRef {
        bytes: row.bytes,
        pending: row.pending != 0,
        holders: &holders[first..first + row.holder_count as usize],
    }
}
