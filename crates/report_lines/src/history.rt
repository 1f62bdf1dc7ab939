ghost use Rattle.std.specs.Prelude.{◌≡◌, ◌++◌, ◌∷◌, ◌-◌, OnOk, slice_get, slice_index_or, string_bytes};
ghost use Rattle.std.specs.Fmt.{decimal};
ghost use Rattle.report_lines.specs.History.{attempt_line, event_lines, history_lines, join_line, pair_line};
ghost use Rattle.report_lines.specs.History.{start_line, start_lines, sweep_line, sweep_lines, worker_line};
ghost use Rattle.text_lines.specs.Texts.{name_of};

use crate::answers::{add_ahead, add_backup, add_reduce, add_reduce_of, add_start_of, add_wave};
use compact_lists::{CountList, Counts, EventList};
use master_state::{Event, Start, Work};
use node_ids::{AttemptNo, SplitNo, SplitRow, WorkerNo};
use std::alloc::AllocError;
use text_lines::NameTable;

/// What was done to a master: its events in their order, with the starts of its attempts and the counts of
/// its sweeps.
pub fn add_history(
    lines: &mut String,
    splits: &NameTable<'_>,
    workers: &NameTable<'_>,
    starts: &[Start],
    sweeps: &CountList,
    history: &EventList,
) -> Result<(), AllocError>
    ensures { OnOk result (string_bytes lines.new ≡ string_bytes lines.old
        ++ history_lines splits.now workers.now starts.now sweeps.now.items history.now.items) }
{
    for index in 0..history.len() {
        let event = history.at(index);
        add_event(lines, splits, workers, starts, sweeps, event)?;
    }
    Ok(())
}

fn add_event(
    lines: &mut String,
    splits: &NameTable<'_>,
    workers: &NameTable<'_>,
    starts: &[Start],
    sweeps: &CountList,
    event: Event<'_>,
) -> Result<(), AllocError>
    ensures { OnOk result (string_bytes lines.new ≡ string_bytes lines.old
        ++ event_lines splits.now workers.now starts.now sweeps.now.items event.entry) }
{
    match event {
        Event::Wave { first, count, cost } => {
            add_wave(lines, count, cost)?;
            add_starts(lines, splits, workers, starts, first, count)
        }
        Event::Ahead { first, count, cost } => {
            add_ahead(lines, count, cost)?;
            add_starts(lines, splits, workers, starts, first, count)
        }
        Event::MapDone(attempt) => add_attempt(lines, "done ", attempt),
        Event::MapFailed(attempt) => add_attempt(lines, "fail ", attempt),
        Event::Withdraw(attempt) => add_attempt(lines, "withdraw ", attempt),
        Event::Die(worker) => add_worker(lines, workers, "die ", worker),
        Event::Join(worker, set) => add_join(lines, splits, workers, worker, &set),
        Event::Add(split, worker) => add_pair(lines, splits, workers, "add ", split, worker),
        Event::Lose(split, worker) => add_pair(lines, splits, workers, "lose ", split, worker),
        Event::Sweep(place) => add_sweep_at(lines, workers, sweeps, place),
        Event::ReduceStart(attempt, part, worker) => add_reduce(
            lines, workers, attempt, part, worker,
        ),
        Event::PartDone(attempt) => add_attempt(lines, "done ", attempt),
        Event::PartFailed(attempt) => add_attempt(lines, "fail ", attempt),
        Event::Backup(attempt, split, worker) => {
            add_backup(lines, splits, workers, attempt, split, worker)
        }
    }
}

fn add_attempt(lines: &mut String, word: &str, attempt: AttemptNo) -> Result<(), AllocError>
    ensures { OnOk result (string_bytes lines.new
        ≡ string_bytes lines.old ++ attempt_line word.now attempt) }
{
    let attempt = attempt.index();
    write!(lines, "{word}{attempt}\n")
}

fn add_worker(
    lines: &mut String,
    workers: &NameTable<'_>,
    word: &str,
    worker: WorkerNo,
) -> Result<(), AllocError>
    ensures { OnOk result (string_bytes lines.new
        ≡ string_bytes lines.old ++ worker_line word.now workers.now worker) }
{
    let worker = workers.name_or_empty(worker.index());
    write!(lines, "{word}{worker}\n")
}

fn add_pair(
    lines: &mut String,
    splits: &NameTable<'_>,
    workers: &NameTable<'_>,
    word: &str,
    split: SplitNo,
    worker: WorkerNo,
) -> Result<(), AllocError>
    ensures { OnOk result (string_bytes lines.new
        ≡ string_bytes lines.old ++ pair_line word.now splits.now workers.now split worker) }
{
    let split = splits.name_or_empty(split.index());
    let worker = workers.name_or_empty(worker.index());
    write!(lines, "{word}{split} {worker}\n")
}

// A worker that is back, and the splits with which it is.
fn add_join(
    lines: &mut String,
    splits: &NameTable<'_>,
    workers: &NameTable<'_>,
    worker: WorkerNo,
    set: &SplitRow<'_>,
) -> Result<(), AllocError>
    ensures { OnOk result (string_bytes lines.new
        ≡ string_bytes lines.old ++ join_line splits.now workers.now worker set.now) }
{
    let worker = workers.name_or_empty(worker.index());
    write!(lines, "join {worker}")?;
    for split in set.members() {
        add_member(lines, splits, *split)?;
    }
    write!(lines, "\n")
}

fn add_member(lines: &mut String, splits: &NameTable<'_>, split: SplitNo) -> Result<(), AllocError>
    ensures { OnOk result (string_bytes lines.new
        ≡ string_bytes lines.old ++ 32 ∷ name_of splits.now split) }
{
    let split = splits.name_or_empty(split.index());
    write!(lines, " {split}")
}

// The sweep at a place, from 1, if it was.
fn add_sweep_at(
    lines: &mut String,
    workers: &NameTable<'_>,
    sweeps: &CountList,
    place: u32,
) -> Result<(), AllocError>
    ensures { OnOk result (string_bytes lines.new
        ≡ string_bytes lines.old ++ sweep_lines workers.now (slice_get sweeps.now.items (place - 1))) }
{
    match sweeps.get((place as usize).saturating_sub(1)) {
        Some(counts) => add_sweep(lines, workers, &counts),
        None => Ok(()),
    }
}

// The counts that a sweep was handed, of the workers that there are.
fn add_sweep(
    lines: &mut String,
    workers: &NameTable<'_>,
    counts: &Counts<'_>,
) -> Result<(), AllocError>
    ensures { OnOk result (string_bytes lines.new
        ≡ string_bytes lines.old ++ sweep_line workers.now counts.now) }
{
    write!(lines, "sweep")?;
    for number in 0..workers.len() {
        add_count(lines, counts, number)?;
    }
    write!(lines, "\n")
}

fn add_count(lines: &mut String, counts: &Counts<'_>, number: usize) -> Result<(), AllocError>
    ensures { OnOk result (string_bytes lines.new
        ≡ string_bytes lines.old ++ 32 ∷ decimal (slice_index_or counts.now number 0)) }
{
    let count = counts.of(number);
    write!(lines, " {count}")
}

// The starts of a wave.
fn add_starts(
    lines: &mut String,
    splits: &NameTable<'_>,
    workers: &NameTable<'_>,
    starts: &[Start],
    first: AttemptNo,
    count: u32,
) -> Result<(), AllocError>
    ensures { OnOk result (string_bytes lines.new
        ≡ string_bytes lines.old ++ start_lines splits.now workers.now starts.now first count) }
{
    for number in 0..count as usize {
        let attempt = first.index() + number;
        let start = start_at(starts, attempt);
        add_started(lines, splits, workers, attempt, start)?;
    }
    Ok(())
}

// The start of an attempt, if it was.
fn start_at(starts: &[Start], attempt: usize) -> Option<Start>
    ensures { result ≡ slice_get starts.now (attempt - 1) }
{
    starts.get(attempt.saturating_sub(1)).copied()
}

fn add_started(
    lines: &mut String,
    splits: &NameTable<'_>,
    workers: &NameTable<'_>,
    attempt: usize,
    start: Option<Start>,
) -> Result<(), AllocError>
    ensures { OnOk result (string_bytes lines.new
        ≡ string_bytes lines.old ++ start_line splits.now workers.now attempt start) }
{
    let Some(Start { work, worker }) = start else {
        return Ok(());
    };
    match work {
        Work::Split(split) => add_start_of(lines, splits, workers, attempt, split, worker),
        Work::Part(part) => add_reduce_of(lines, workers, attempt, part, worker),
    }
}
