ghost use Rattle.std.specs.Prelude.{◌≡◌, ◌≢◌, ℕ, ◌<◌, ◌≤◌, All, Err, OnOk, length, string_bytes};
ghost use Rattle.std.specs.declared.alloc.Global.{Global};
ghost use Rattle.std.specs.declared.vec.Vec.{Vec};
ghost use Rattle.report_lines.specs.Reports.{report_bytes};
ghost use Rattle.script_text.specs.declared.script.Command.TheVariants as asked;
ghost use Rattle.node_ids.specs.Sets.{row_of_all};
ghost use Rattle.job_play.specs.Reports.{IsKnownCommand, LacksRoom, alone, counts_for, deaths};
ghost use Rattle.master_state.specs.Refusals.{Call, IsPair};
ghost use Rattle.job_play.specs.Given.{HoldsRuns};
ghost use Rattle.job_play.specs.Pasts.{past_at};
ghost use Rattle.job_play.specs.Playing.{IsAnswered, Performed};
ghost use Rattle.script_text.specs.declared.script.Names.{Names};

use crate::given::GivenRuns;
use crate::handing::{done, fail};
use crate::player::PlayError;
use crate::tables::counts_for;
use crate::waves::{ahead, wave};
use master_core::Master;
use master_state::{Answer, Why};
use node_ids::{SplitNo, SplitSet, WorkerNo};
use report_lines::{
    ReportLines, add_accepted, add_answer, add_backup, add_copies, add_dead, add_ignored,
    add_reduce,
};
use script_text::{Command, Names, Script};
use std::alloc::{AllocError, Global};
use worker_table::DeadList;

/// Performs a command of a script, and tells what was answered.
pub fn perform(
    alloc: Global,
    master: &mut Master,
    given: &mut GivenRuns,
    script: &Script<'_>,
    command: &Command,
    lines: &mut String,
) -> Result<(), PlayError>
    requires known { IsKnownCommand master.old.setup command.now }
    requires given { HoldsRuns given.old master.old }
    ensures given { OnOk result (HoldsRuns given.new master.new) }
    ensures ok { OnOk result (Performed script.now.names script.now.target master.old command.now
        (string_bytes lines.old) (string_bytes lines.new) master.new) }
    ensures full { result ≡ Err PlayError.HistoryFull → LacksRoom master.old command.now }
    ensures unchanged { result ≡ Err PlayError.HistoryFull → (master.new ≡ master.old)
        × (given.new ≡ given.old) × (string_bytes lines.new ≡ string_bytes lines.old) }
{
    match command {
        Command::Wave => wave(alloc, master, &script.names, lines),
        Command::Ahead(places) => ahead(alloc, master, &script.names, places, lines),
        Command::Reduce => Ok(reduce(alloc, master, given, &script.names, lines)?),
        _ => Ok(tell(alloc, master, given, script, command, lines)?),
    }
}

/// Performs a command as `perform` does, in a report that keeps of each `copies` how many events came
/// before it.
pub(crate) fn perform_in_report(
    alloc: Global,
    master: &mut Master,
    given: &mut GivenRuns,
    script: &Script<'_>,
    command: &Command,
    lines: &mut ReportLines,
) -> Result<(), PlayError>
    requires known { IsKnownCommand master.old.setup command.now }
    requires given { HoldsRuns given.old master.old }
    requires seen { lines.old.turns.seen ≤ length master.old.history }
    ensures given { OnOk result (HoldsRuns given.new master.new) }
    ensures seen { OnOk result (lines.new.turns.seen ≤ length master.new.history) }
    ensures ok { OnOk result (Performed script.now.names script.now.target master.old command.now
        (report_bytes script.now.names.splits script.now.names.workers
        (past_at master.old script.now.target) lines.old)
        (report_bytes script.now.names.splits script.now.names.workers
        (past_at master.new script.now.target) lines.new) master.new) }
    ensures full { result ≡ Err PlayError.HistoryFull → LacksRoom master.old command.now }
{
    lines.are_in_turn();
    master.is_kept();
    match command {
        Command::Copies => Ok(keep_copies(alloc, master, script.target, lines)?),
        _ => perform(alloc, master, given, script, command, &mut lines.last),
    }
}

// Keeps the copies that are wanted now.
fn keep_copies(
    alloc: Global,
    master: &Master,
    target: usize,
    lines: &mut ReportLines,
) -> Result<(), AllocError>
    requires { lines.old.turns.seen ≤ length master.now.history }
    ensures seen { OnOk result (lines.new.turns.seen ≤ length master.now.history) }
    ensures ok { (names : Names) → OnOk result (Performed names target master.now asked.Copies
        (report_bytes names.splits names.workers (past_at master.now target) lines.old)
        (report_bytes names.splits names.workers (past_at master.now target) lines.new) master.now) }
{
    master.is_kept();
    lines.add_copies(alloc, master.copy_count(target), master.events())
}

// Performs a command that starts neither a wave, nor a plan ahead, nor a part, and tells what was answered.
fn tell(
    alloc: Global,
    master: &mut Master,
    given: &GivenRuns,
    script: &Script<'_>,
    command: &Command,
    lines: &mut String,
) -> Result<(), AllocError>
    requires wave { command.now ≢ asked.Wave }
    requires ahead { (places : Vec ℕ Global) → command.now ≢ asked.Ahead places }
    requires reduce { command.now ≢ asked.Reduce }
    requires known { IsKnownCommand master.old.setup command.now }
    requires given { HoldsRuns given.now master.old }
    ensures { OnOk result (Performed script.now.names script.now.target master.old command.now
        (string_bytes lines.old) (string_bytes lines.new) master.new) }
{
    let names = &script.names;
    match command {
        Command::Done(attempt) => done(alloc, master, given, *attempt, lines),
        Command::Fail(attempt) => fail(master, *attempt, lines),
        Command::Withdraw(attempt) => add_answer(lines, master.withdraw(*attempt)),
        Command::Backup(split, worker) => backup(master, names, *split, *worker, lines),
        Command::Die(worker) => add_answer(lines, master.die(*worker)),
        Command::Join(worker, splits) => join(alloc, master, *worker, splits.as_slice(), lines),
        Command::Add(split, worker) => add_answer(lines, master.add(*split, *worker)),
        Command::Lose(split, worker) => add_answer(lines, master.lose(*split, *worker)),
        Command::Sweep(counts) => sweep(alloc, master, names, counts.as_slice(), lines),
        Command::Copies => copies(alloc, master, names, script.target, lines),
        Command::Wave | Command::Ahead(_) | Command::Reduce => unreachable!(),
    }
}

// Starts a backup, and tells it.
fn backup(
    master: &mut Master,
    names: &Names<'_>,
    split: SplitNo,
    worker: WorkerNo,
    lines: &mut String,
) -> Result<(), AllocError>
    requires { IsPair master.old.setup split worker }
    ensures { (target : ℕ) → OnOk result (Performed names.now target master.old (asked.Backup split worker)
        (string_bytes lines.old) (string_bytes lines.new) master.new) }
{
    match master.backup(split, worker) {
        Answer::Accepted(place, attempt) => {
            add_accepted(lines, place)?;
            add_backup(lines, &names.splits, &names.workers, attempt, split, worker)
        }
        Answer::Ignored(why, ()) => add_ignored(lines, why),
    }
}

// Lets the worker live again as a holder of the splits, and tells the answer.
fn join(
    alloc: Global,
    master: &mut Master,
    worker: WorkerNo,
    splits: &[SplitNo],
    lines: &mut String,
) -> Result<(), AllocError>
    requires worker { worker < length master.old.setup.cluster.slots }
    requires splits { All (λ s. s < length master.old.setup.cluster.splits) splits.now }
    ensures { OnOk result (IsAnswered master.old (Call.Join worker (row_of_all splits.now)) alone
        (string_bytes lines.old) (string_bytes lines.new) master.new) }
{
    master.is_kept();
    let set = SplitSet::of(alloc, splits)?;
    add_answer(lines, master.join(worker, set))
}

// Hands in the counts, and tells who died.
fn sweep(
    alloc: Global,
    master: &mut Master,
    names: &Names<'_>,
    counts: &[u64],
    lines: &mut String,
) -> Result<(), AllocError>
    ensures { let own = counts_for (length master.old.setup.cluster.slots) counts.now in
        OnOk result (IsAnswered master.old (Call.Sweep own) (deaths names.now master.old own)
        (string_bytes lines.old) (string_bytes lines.new) master.new) }
{
    let workers = master.cluster().slots().len();
    let own = counts_for(alloc, workers, counts)?;
    let mut dead = DeadList::with_room(alloc, workers)?;
    match master.sweep(&own, &mut dead) {
        Answer::Accepted(place, ()) => {
            add_accepted(lines, place)?;
            add_dead(lines, &names.workers, dead.as_slice())
        }
        Answer::Ignored(why, ()) => add_ignored(lines, why),
    }
}

// Starts the next part, tells it, and keeps the runs that it is given.
fn reduce(
    alloc: Global,
    master: &mut Master,
    given: &mut GivenRuns,
    names: &Names<'_>,
    lines: &mut String,
) -> Result<(), AllocError>
    requires { HoldsRuns given.old master.old }
    ensures given { OnOk result (HoldsRuns given.new master.new) }
    ensures ok { (target : ℕ) → OnOk result (Performed names.now target master.old asked.Reduce
        (string_bytes lines.old) (string_bytes lines.new) master.new) }
{
    master.is_kept();
    match master.reduce_start(alloc) {
        Answer::Accepted(place, reply) => {
            add_accepted(lines, place)?;
            add_reduce(
                lines,
                &names.workers,
                reply.attempt,
                reply.part,
                reply.worker,
            )?;
            given.put(reply.part, reply.runs);
            Ok(())
        }
        Answer::Ignored(why, ()) if why == Why::Memory => Err(AllocError),
        Answer::Ignored(why, ()) => add_ignored(lines, why),
    }
}

// Tells the copies that are wanted now.
fn copies(
    alloc: Global,
    master: &Master,
    names: &Names<'_>,
    target: usize,
    lines: &mut String,
) -> Result<(), AllocError>
    ensures { OnOk result (Performed names.now target master.now asked.Copies
        (string_bytes lines.old) (string_bytes lines.new) master.now) }
{
    let orders = master.copy_orders(alloc, target)?;
    add_copies(lines, &names.splits, &names.workers, orders.as_slice())
}
