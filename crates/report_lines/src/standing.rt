ghost use Rattle.std.specs.Prelude.{◌≡◌, ◌<◌, ◌≤◌, ◌++◌, OnOk, length, string_bytes};
ghost use Rattle.worker_table.specs.Workers.{worker_at};
ghost use Rattle.master_state.specs.declared.TheConstants.{MAX_JOB_SPLITS};
ghost use Rattle.report_lines.specs.Standing.{backup_lines, open_part, open_part_lines, open_split};
ghost use Rattle.report_lines.specs.Standing.{open_split_lines, output_lines, output_of, standing_line};
ghost use Rattle.report_lines.specs.Standing.{workers_lines};

use crate::answers::{add_backup, add_reduce, add_start};
use crate::endings::add_open;
use master_state::{Attempt, PartState, SplitState};
use node_ids::{PartNo, SplitNo};
use std::alloc::AllocError;
use text_lines::NameTable;
use worker_table::WorkerTable;

/// A line for each worker, by number.
pub fn add_workers(
    lines: &mut String,
    names: &NameTable<'_>,
    table: &WorkerTable,
) -> Result<(), AllocError>
    ensures { OnOk result (string_bytes lines.new
        ≡ string_bytes lines.old ++ workers_lines names.now table.now) }
{
    for number in 0..table.workers().len() {
        add_worker(lines, names, table, number)?;
    }
    Ok(())
}

// How a worker stands.
#[tactic(auto, using(std::proofs::lemmas::List::get_or_default))]
fn add_worker(
    lines: &mut String,
    names: &NameTable<'_>,
    table: &WorkerTable,
    number: usize,
) -> Result<(), AllocError>
    requires { number < length table.now.each }
    ensures { OnOk result (string_bytes lines.new
        ≡ string_bytes lines.old ++ standing_line names.now number (worker_at table.now number)) }
{
    let worker = table.workers()[number];
    let name = names.name_or_empty(number);
    if !worker.live {
        return write!(lines, "dead {name}\n");
    }
    let (slots, taken, silence) = (worker.slots, worker.taken, worker.silence);
    write!(lines, "live {name} {slots} {taken} {silence}\n")
}

/// The splits that are not done, by number, with the attempts that they run.
pub fn add_open_splits(
    lines: &mut String,
    splits: &NameTable<'_>,
    workers: &NameTable<'_>,
    states: &[SplitState],
) -> Result<(), AllocError>
    requires { length states.now ≤ MAX_JOB_SPLITS }
    ensures { OnOk result (string_bytes lines.new
        ≡ string_bytes lines.old ++ open_split_lines splits.now workers.now states.now) }
{
    for number in 0..states.len() {
        let split = SplitNo::new(number as u32);
        add_open_split(lines, splits, workers, split, states[number])?;
    }
    Ok(())
}

fn add_open_split(
    lines: &mut String,
    splits: &NameTable<'_>,
    workers: &NameTable<'_>,
    split: SplitNo,
    state: SplitState,
) -> Result<(), AllocError>
    ensures { OnOk result (string_bytes lines.new
        ≡ string_bytes lines.old ++ open_split splits.now workers.now split state) }
{
    match state {
        SplitState::Pending => add_open(lines, splits, split.index(), true),
        SplitState::Running(Attempt { number, worker }, other) => {
            add_start(lines, splits, workers, number, split, worker)?;
            add_other(lines, splits, workers, split, other)
        }
        SplitState::Done(_) => Ok(()),
    }
}

// A second attempt, if there is one.
fn add_other(
    lines: &mut String,
    splits: &NameTable<'_>,
    workers: &NameTable<'_>,
    split: SplitNo,
    other: Option<Attempt>,
) -> Result<(), AllocError>
    ensures { OnOk result (string_bytes lines.new
        ≡ string_bytes lines.old ++ backup_lines splits.now workers.now split other) }
{
    match other {
        Some(Attempt { number, worker }) => {
            add_backup(lines, splits, workers, number, split, worker)
        }
        None => Ok(()),
    }
}

/// The parts that are not done, by number, with the attempts that they run.
pub fn add_open_parts(
    lines: &mut String,
    workers: &NameTable<'_>,
    states: &[PartState],
) -> Result<(), AllocError>
    requires { length states.now ≤ 64 }
    ensures { OnOk result (string_bytes lines.new
        ≡ string_bytes lines.old ++ open_part_lines workers.now states.now) }
{
    for number in 0..states.len() {
        let part = PartNo::new(number as u8);
        add_open_part(lines, workers, part, states[number])?;
    }
    Ok(())
}

fn add_open_part(
    lines: &mut String,
    workers: &NameTable<'_>,
    part: PartNo,
    state: PartState,
) -> Result<(), AllocError>
    ensures { OnOk result (string_bytes lines.new
        ≡ string_bytes lines.old ++ open_part workers.now part state) }
{
    match state {
        PartState::Pending => {
            let part = part.index();
            write!(lines, "part {part}\n")
        }
        PartState::Running(Attempt { number, worker }) => {
            add_reduce(lines, workers, number, part, worker)
        }
        PartState::Done => Ok(()),
    }
}

/// The splits that are done, by number: by which attempt, and on which worker that ran.
pub fn add_outputs(
    lines: &mut String,
    splits: &NameTable<'_>,
    workers: &NameTable<'_>,
    states: &[SplitState],
) -> Result<(), AllocError>
    ensures { OnOk result (string_bytes lines.new
        ≡ string_bytes lines.old ++ output_lines splits.now workers.now states.now) }
{
    for number in 0..states.len() {
        add_output(lines, splits, workers, number, states[number])?;
    }
    Ok(())
}

fn add_output(
    lines: &mut String,
    splits: &NameTable<'_>,
    workers: &NameTable<'_>,
    number: usize,
    state: SplitState,
) -> Result<(), AllocError>
    ensures { OnOk result (string_bytes lines.new
        ≡ string_bytes lines.old ++ output_of splits.now workers.now number state) }
{
    let SplitState::Done(done) = state else {
        return Ok(());
    };
    let split = splits.name_or_empty(number);
    let attempt = done.number.index();
    let worker = workers.name_or_empty(done.worker.index());
    write!(lines, "from {split} {attempt} {worker}\n")
}
