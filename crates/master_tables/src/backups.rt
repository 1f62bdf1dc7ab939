ghost use Rattle.std.specs.Prelude.{◌≡◌, ◌<◌, length, All};
ghost use Rattle.std.specs.List.{list_any};
ghost use Rattle.node_ids.specs.Updates.{updated};
ghost use Rattle.worker_table.specs.Workers.{has_free_slot, is_live, worker_at};
ghost use Rattle.master_state.specs.Refusals.{takes_backup};
ghost use Rattle.master_tables.specs.Entries.{entry_with, shown_as};

use crate::entries::SplitEntry;
use master_state::Attempt;
use node_ids::{SplitNo, WorkerNo};
use worker_table::WorkerTable;

/// Whether one attempt runs the split, and not on the worker.
pub fn takes_backup(entry: &SplitEntry, worker: WorkerNo) -> bool
    ensures { result ≡ takes_backup worker (shown_as entry.now) }
{
    match entry {
        SplitEntry::Pending => false,
        SplitEntry::Running(one, None) => one.worker != worker,
        SplitEntry::Running(_, Some(_)) => false,
        SplitEntry::Done(_, _) => false,
    }
}

/// Whether one of the workers lives.
pub fn is_any_live(table: &WorkerTable, workers: &[WorkerNo]) -> bool
    requires { All (λ w. w < length table.now.each) workers.now }
    ensures { result ≡ list_any (is_live table.now) workers.now }
{
    workers.iter().any(|worker| table.live(*worker))
}

/// Whether the worker lives and has a slot that is not taken.
pub fn has_free_slot(table: &WorkerTable, worker: WorkerNo) -> bool
    requires { worker < length table.now.each }
    ensures { result ≡ has_free_slot (worker_at table.now worker) }
{
    table.live(worker) && table.free(worker) > 0
}

/// The split runs the attempt, beside the one that it may run.
pub fn run_attempt(entries: &mut Vec<SplitEntry>, split: SplitNo, attempt: Attempt)
    requires { split < length entries.old.items }
    ensures { entries.new.items ≡ updated (entry_with attempt) entries.old.items split }
{
    let place = split.index();
    entries[place] = with_attempt(&entries[place], attempt);
}

fn with_attempt(entry: &SplitEntry, attempt: Attempt) -> SplitEntry
    ensures { result ≡ entry_with attempt entry.now }
{
    match entry {
        SplitEntry::Pending => SplitEntry::Running(attempt, None),
        SplitEntry::Running(one, None) => SplitEntry::Running(*one, Some(attempt)),
        SplitEntry::Running(one, Some(other)) => SplitEntry::Running(*one, Some(*other)),
        SplitEntry::Done(_, _) => SplitEntry::Running(attempt, None),
    }
}
