ghost use Rattle.std.specs.Prelude.{◌≡◌, ◌++◌, OnOk, string_bytes};
ghost use Rattle.report_lines.specs.Lines.{accepted_line, ahead_line, answer_line, backup_line, copy_line};
ghost use Rattle.report_lines.specs.Lines.{copy_lines, dead_line, dead_lines, ignored_line};
ghost use Rattle.report_lines.specs.Lines.{number_of_reason, queued_line, reduce_line, started_line};
ghost use Rattle.text_lines.specs.WaveLine.{wave_line};

use block_map::CopyOrder;
use master_state::{Answer, Why};
use node_ids::{AttemptNo, PartNo, SplitNo, WorkerNo};
use std::alloc::AllocError;
use text_lines::NameTable;

/// The line of an answer.
pub fn add_answer(lines: &mut String, answer: Answer) -> Result<(), AllocError>
    ensures { OnOk result (string_bytes lines.new ≡ string_bytes lines.old ++ answer_line answer) }
{
    match answer {
        Answer::Accepted(place, ()) => add_accepted(lines, place),
        Answer::Ignored(why, ()) => add_ignored(lines, why),
    }
}

/// The line of an event that was accepted at this place.
pub fn add_accepted(lines: &mut String, place: u32) -> Result<(), AllocError>
    ensures { OnOk result (string_bytes lines.new ≡ string_bytes lines.old ++ accepted_line place) }
{
    write!(lines, "accepted {place}\n")
}

/// The line of a call that was ignored.
pub fn add_ignored(lines: &mut String, why: Why) -> Result<(), AllocError>
    ensures { OnOk result (string_bytes lines.new ≡ string_bytes lines.old ++ ignored_line why) }
{
    let number = number_of_reason(why);
    write!(lines, "ignored {number}\n")
}

fn number_of_reason(why: Why) -> u8
    ensures { result ≡ number_of_reason why }
{
    why as u8
}

/// The line of a wave: how many splits it starts, at which byte-distance.
pub fn add_wave(lines: &mut String, count: u32, cost: u64) -> Result<(), AllocError>
    ensures { OnOk result (string_bytes lines.new ≡ string_bytes lines.old ++ wave_line count cost) }
{
    write!(lines, "wave {count} {cost}\n")
}

/// The line of a plan ahead: how many splits start, at which byte-distance.
pub fn add_ahead(lines: &mut String, count: u32, cost: u64) -> Result<(), AllocError>
    ensures { OnOk result (string_bytes lines.new ≡ string_bytes lines.old ++ ahead_line count cost) }
{
    write!(lines, "ahead {count} {cost}\n")
}

/// The line of the whole plan: how many splits it has, at which byte-distance.
pub fn add_queued(lines: &mut String, count: usize, cost: u64) -> Result<(), AllocError>
    ensures { OnOk result (string_bytes lines.new ≡ string_bytes lines.old ++ queued_line count cost) }
{
    write!(lines, "queued {count} {cost}\n")
}

/// The line of an attempt that a wave, or a plan ahead, started.
pub fn add_start(
    lines: &mut String,
    splits: &NameTable<'_>,
    workers: &NameTable<'_>,
    attempt: AttemptNo,
    split: SplitNo,
    worker: WorkerNo,
) -> Result<(), AllocError>
    ensures { OnOk result (string_bytes lines.new
        ≡ string_bytes lines.old ++ started_line splits.now workers.now attempt split worker) }
{
    add_start_of(lines, splits, workers, attempt.index(), split, worker)
}

// The line of the attempt of this number, of a split.
pub(crate) fn add_start_of(
    lines: &mut String,
    splits: &NameTable<'_>,
    workers: &NameTable<'_>,
    attempt: usize,
    split: SplitNo,
    worker: WorkerNo,
) -> Result<(), AllocError>
    ensures { OnOk result (string_bytes lines.new
        ≡ string_bytes lines.old ++ started_line splits.now workers.now attempt split worker) }
{
    let split = splits.name_or_empty(split.index());
    let worker = workers.name_or_empty(worker.index());
    write!(lines, "start {attempt} {split} {worker}\n")
}

/// The line of a backup that was started.
pub fn add_backup(
    lines: &mut String,
    splits: &NameTable<'_>,
    workers: &NameTable<'_>,
    attempt: AttemptNo,
    split: SplitNo,
    worker: WorkerNo,
) -> Result<(), AllocError>
    ensures { OnOk result (string_bytes lines.new
        ≡ string_bytes lines.old ++ backup_line splits.now workers.now attempt split worker) }
{
    let attempt = attempt.index();
    let split = splits.name_or_empty(split.index());
    let worker = workers.name_or_empty(worker.index());
    write!(lines, "backup {attempt} {split} {worker}\n")
}

/// The line of a part that was started.
pub fn add_reduce(
    lines: &mut String,
    workers: &NameTable<'_>,
    attempt: AttemptNo,
    part: PartNo,
    worker: WorkerNo,
) -> Result<(), AllocError>
    ensures { OnOk result (string_bytes lines.new
        ≡ string_bytes lines.old ++ reduce_line workers.now attempt part worker) }
{
    add_reduce_of(lines, workers, attempt.index(), part, worker)
}

// The line of the attempt of this number, of a part.
pub(crate) fn add_reduce_of(
    lines: &mut String,
    workers: &NameTable<'_>,
    attempt: usize,
    part: PartNo,
    worker: WorkerNo,
) -> Result<(), AllocError>
    ensures { OnOk result (string_bytes lines.new
        ≡ string_bytes lines.old ++ reduce_line workers.now attempt part worker) }
{
    let part = part.index();
    let worker = workers.name_or_empty(worker.index());
    write!(lines, "reduce {attempt} {part} {worker}\n")
}

/// A line for each worker that died.
pub fn add_dead(
    lines: &mut String,
    workers: &NameTable<'_>,
    dead: &[WorkerNo],
) -> Result<(), AllocError>
    ensures { OnOk result (string_bytes lines.new ≡ string_bytes lines.old
        ++ dead_lines workers.now dead.now) }
{
    for worker in dead {
        add_death(lines, workers, *worker)?;
    }
    Ok(())
}

// The line of a worker that died.
fn add_death(
    lines: &mut String,
    workers: &NameTable<'_>,
    worker: WorkerNo,
) -> Result<(), AllocError>
    ensures { OnOk result (string_bytes lines.new
        ≡ string_bytes lines.old ++ dead_line workers.now worker) }
{
    let worker = workers.name_or_empty(worker.index());
    write!(lines, "dead {worker}\n")
}

/// How many copies are ordered, and which.
pub fn add_copies(
    lines: &mut String,
    splits: &NameTable<'_>,
    workers: &NameTable<'_>,
    orders: &[CopyOrder],
) -> Result<(), AllocError>
    ensures { OnOk result (string_bytes lines.new
        ≡ string_bytes lines.old ++ copy_lines splits.now workers.now orders.now) }
{
    let count = orders.len();
    write!(lines, "copies {count}\n")?;
    for order in orders {
        add_copy(lines, splits, workers, *order)?;
    }
    Ok(())
}

fn add_copy(
    lines: &mut String,
    splits: &NameTable<'_>,
    workers: &NameTable<'_>,
    order: CopyOrder,
) -> Result<(), AllocError>
    ensures { OnOk result (string_bytes lines.new
        ≡ string_bytes lines.old ++ copy_line splits.now workers.now order) }
{
    let split = splits.name_or_empty(order.split.index());
    let from = workers.name_or_empty(order.from.index());
    let to = workers.name_or_empty(order.to.index());
    write!(lines, "copy {split} {from} {to}\n")
}
