ghost use Rattle.std.specs.Prelude.{◌≡◌, ◌≢◌, ℕ, ◌+◌, ◌-◌, ◌≤◌, ◌++◌, ◌^◌, All, Err, OnOk, length};
ghost use Rattle.std.specs.Prelude.{string_bytes};
ghost use Rattle.wave_problem.specs.declared.TheConstants.{MAX_SLOTS};
ghost use Rattle.price_certificate.specs.declared.Condition.{Condition};
ghost use Rattle.report_lines.specs.Lines.{accepted_line, ahead_line, queued_line};
ghost use Rattle.text_lines.specs.WaveLine.{wave_line};
ghost use Rattle.script_text.specs.declared.script.Command.TheVariants as command;
ghost use Rattle.job_play.specs.Reports.{LacksRoom, started_lines};
ghost use Rattle.job_play.specs.Playing.{Performed};

use crate::player::PlayError;
use master_core::{Ahead, Master};
use master_state::{CommitError, Wave};
use node_ids::{AttemptNo, SplitNo, WorkerNo};
use report_lines::{add_accepted, add_ahead, add_queued, add_start, add_wave};
use script_text::Names;
use std::alloc::{AllocError, Global};

/// Starts the best wave that can start now, planned over the cluster's tree, and tells each start.
pub(crate) fn wave(
    alloc: Global,
    master: &mut Master,
    names: &Names<'_>,
    lines: &mut String,
) -> Result<(), PlayError>
    ensures ok { (target : ℕ) → OnOk result (Performed names.now target master.old command.Wave
        (string_bytes lines.old) (string_bytes lines.new) master.new) }
    ensures full { result ≡ Err PlayError.HistoryFull → LacksRoom master.old command.Wave }
    ensures unchanged { result ≡ Err PlayError.HistoryFull
        → (master.new ≡ master.old) × (string_bytes lines.new ≡ string_bytes lines.old) }
{
    master.is_kept();
    match master.start_wave(alloc) {
        Ok((pairs, wave)) => Ok(tell_wave(lines, names, wave, &pairs)?),
        Err(error) => Err(error_of(error)),
    }
}

/// Plans all pending splits onto so many places of each worker, starts the heads, and tells the plan and each
/// start.
pub(crate) fn ahead(
    alloc: Global,
    master: &mut Master,
    names: &Names<'_>,
    places: &Vec<u64>,
    lines: &mut String,
) -> Result<(), PlayError>
    requires { All (λ n. n ≤ MAX_SLOTS) places.now.items }
    ensures ok { (target : ℕ) → OnOk result (Performed names.now target master.old (command.Ahead places.now)
        (string_bytes lines.old) (string_bytes lines.new) master.new) }
    ensures full { result ≡ Err PlayError.HistoryFull → LacksRoom master.old (command.Ahead places.now) }
    ensures unchanged { result ≡ Err PlayError.HistoryFull
        → (master.new ≡ master.old) × (string_bytes lines.new ≡ string_bytes lines.old) }
{
    master.is_kept();
    match master.start_ahead(alloc, places.as_slice()) {
        Ok((ahead, wave)) => Ok(tell_ahead(lines, names, wave, &ahead)?),
        Err(error) => Err(error_of(error)),
    }
}

// Why a wave did not start. What is planned and started in one call is never stale.
fn error_of(error: CommitError) -> PlayError
    requires { (c : Condition) → error ≢ CommitError.Stale c }
    ensures full { error ≡ CommitError.HistoryFull → result ≡ PlayError.HistoryFull }
    ensures only { result ≡ PlayError.HistoryFull → error ≡ CommitError.HistoryFull }
{
    match error {
        CommitError::HistoryFull => PlayError::HistoryFull,
        CommitError::Memory => PlayError::Memory,
        CommitError::Stale(_) => unreachable!(),
    }
}

/// The lines of a wave that made these starts.
pub fn tell_wave(
    lines: &mut String,
    names: &Names<'_>,
    wave: Wave,
    pairs: &[(SplitNo, WorkerNo)],
) -> Result<(), AllocError>
    requires { wave.first + length pairs.now ≤ 2 ^ 32 - 1 }
    ensures { OnOk result (string_bytes lines.new ≡ string_bytes lines.old
        ++ (accepted_line wave.place ++ wave_line wave.count wave.cost
        ++ started_lines names.now wave.first pairs.now)) }
{
    add_accepted(lines, wave.place)?;
    add_wave(lines, wave.count, wave.cost)?;
    add_starts(lines, names, wave.first, pairs)
}

// The lines of a plan ahead whose heads made these starts.
fn tell_ahead(
    lines: &mut String,
    names: &Names<'_>,
    wave: Wave,
    ahead: &Ahead,
) -> Result<(), AllocError>
    requires { wave.first + length ahead.now.pairs.items ≤ 2 ^ 32 - 1 }
    ensures { OnOk result (string_bytes lines.new ≡ string_bytes lines.old
        ++ (accepted_line wave.place ++ ahead_line wave.count wave.cost
        ++ queued_line ahead.now.planned.certified.count ahead.now.planned.certified.cost
        ++ started_lines names.now wave.first ahead.now.pairs.items)) }
{
    let planned = ahead.planned.certified();
    add_accepted(lines, wave.place)?;
    add_ahead(lines, wave.count, wave.cost)?;
    add_queued(lines, planned.count, planned.cost)?;
    add_starts(lines, names, wave.first, ahead.pairs.as_slice())
}

// A line for each start, the attempts numbered from the first one on.
fn add_starts(
    lines: &mut String,
    names: &Names<'_>,
    first: AttemptNo,
    pairs: &[(SplitNo, WorkerNo)],
) -> Result<(), AllocError>
    requires { first + length pairs.now ≤ 2 ^ 32 - 1 }
    ensures { OnOk result (string_bytes lines.new
        ≡ string_bytes lines.old ++ started_lines names.now first pairs.now) }
{
    let mut attempt = first.index();
    for pair in pairs {
        let (split, worker) = *pair;
        let started = AttemptNo::new(attempt as u32);
        add_start(lines, &names.splits, &names.workers, started, split, worker)?;
        attempt += 1;
    }
    Ok(())
}
