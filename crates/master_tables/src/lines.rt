ghost use Rattle.std.specs.Prelude.{◌≡◌, ℕ, ◌^◌, ◌<◌, ◌≤◌, ◌↔◌, List, length, map, All, IfOk, IsTrue};
ghost use Rattle.wave_problem.specs.Wave.{IsAdmissible, Split, Wave};
ghost use Rattle.master_state.specs.Steps.{split_line, worker_line};
ghost use Rattle.master_tables.specs.Entries.{shown_as};
ghost use Rattle.master_tables.specs.Lines.{is_open, split_lines, Takes};

use crate::backups::{has_free_slot, is_any_live};
use crate::entries::SplitEntry;
use block_map::BlockMap;
use node_ids::{SplitNo, WorkerNo};
use std::alloc::{AllocError, Global};
use wave_problem::{SplitLine, SplitRef, WorkerLine};
use worker_table::{Worker, WorkerTable};

/// A line for each worker of a table, as a wave sees it.
pub fn worker_lines(alloc: Global, workers: &[Worker]) -> Result<Vec<WorkerLine>, AllocError>
    requires { All (λ worker. worker.taken ≤ worker.slots) workers.now }
    ensures { IfOk result (λ lines. lines.items ≡ map worker_line workers.now) }
{
    let mut lines = Vec::with_capacity(alloc, workers.len())?;
    for worker in workers {
        lines.push_reserved(line_of(worker));
    }
    Ok(lines)
}

fn line_of(worker: &Worker) -> WorkerLine
    requires { worker.now.taken ≤ worker.now.slots }
    ensures { result ≡ worker_line worker.now }
{
    WorkerLine {
        live: worker.live,
        free: worker.slots - worker.taken,
    }
}

/// A line for each split, with its state and its present holders.
pub fn all_split_lines<'h>(
    alloc: Global,
    lines: &[SplitLine],
    entries: &[SplitEntry],
    holders: &'h BlockMap,
) -> Result<Vec<SplitRef<'h>>, AllocError>
    requires entries { length entries.now ≡ length lines.now }
    requires holders { length holders.now ≡ length lines.now }
    requires few { length lines.now ≤ 131072 }
    ensures { IfOk result (λ all.
        all.items ≡ split_lines lines.now (map shown_as entries.now) holders.now) }
{
    let mut all = Vec::with_capacity(alloc, lines.len())?;
    for i in 0..lines.len() {
        let split = SplitNo::new(i as u32);
        all.push(split_line(&lines[i], &entries[i], holders.holders(split)))?;
    }
    Ok(all)
}

/// A split as a wave sees it.
pub fn split_line<'h>(line: &SplitLine, entry: &SplitEntry, holders: &'h [WorkerNo]) -> SplitRef<'h>
    ensures { result ≡ split_line line.now (shown_as entry.now) holders.now }
{
    SplitRef {
        bytes: line.bytes,
        pending: matches!(entry, SplitEntry::Pending),
        holders,
    }
}

/// Whether one of the splits may start on one of the workers. Where no worker has a free slot, no split is
/// looked at. It takes no memory.
pub fn may_any_start(table: &WorkerTable, entries: &[SplitEntry], holders: &BlockMap) -> bool
    requires holders { length holders.now ≡ length entries.now }
    requires few { length entries.now < 2 ^ 32 }
    requires known { All (All (λ h. h < length table.now.each)) holders.now }
    ensures { (wave : Wave) (lines : List Split) → length entries.now ≡ length lines
        → wave.workers ≡ map worker_line table.now.each → wave.barred ≡ table.now.barred.rows
        → wave.splits ≡ split_lines lines (map shown_as entries.now) holders.now
        → IsTrue result ↔ ((split : ℕ) × (w : ℕ) × IsAdmissible wave split w) }
{
    let Some(first) = table.first_free() else {
        return false;
    };
    for i in 0..entries.len() {
        let split = SplitNo::new(i as u32);
        if is_open(table, &entries[i], holders.holders(split)) && any_takes(table, split, first) {
            return true;
        }
    }
    false
}

// Whether the split is pending and has a live holder.
fn is_open(table: &WorkerTable, entry: &SplitEntry, holders: &[WorkerNo]) -> bool
    requires { All (λ h. h < length table.now.each) holders.now }
    ensures { result ≡ is_open table.now (shown_as entry.now) holders.now }
{
    matches!(entry, SplitEntry::Pending) && is_any_live(table, holders)
}

// Whether the split may start on the first of these workers, or else on one of those after it.
fn any_takes(table: &WorkerTable, split: SplitNo, first: WorkerNo) -> bool
    ensures { IsTrue result ↔ ((w : ℕ) × (first ≤ w) × Takes table.now split w) }
{
    for w in first.index()..table.workers().len() {
        let worker = WorkerNo::new(w as u16);
        if takes(table, split, worker) {
            return true;
        }
    }
    false
}

// Whether the worker has a free slot, and is not barred for the split.
fn takes(table: &WorkerTable, split: SplitNo, worker: WorkerNo) -> bool
    requires { worker < length table.now.each }
    ensures { IsTrue result ↔ Takes table.now split worker }
{
    has_free_slot(table, worker) && !table.barred(split, worker)
}
