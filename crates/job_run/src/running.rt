ghost use Rattle.std.specs.Prelude.{◌≡◌, ◌≢◌, ◌≤◌, ◌++◌, List, Err, IfOk, OnOk, length, string_bytes, true};
ghost use Rattle.std.specs.Prelude.{false, [], if◌then◌else◌};
ghost use Rattle.command_runner.specs.CommandRun.{AnyLines, HasRun, NoText, WroteItsAnswer, outcome};
ghost use Rattle.report_lines.specs.Lines.{index_lines};
ghost use Rattle.script_text.specs.Scripts.{IsOfHead, IsTarget};
ghost use Rattle.script_text.specs.Heads.{IsFitHead};
ghost use Rattle.master_state.specs.States.{AreAllowed, Setup};
ghost use Rattle.job_threads.specs.Outcomes.{IsRecordOf};
ghost use Rattle.job_play.specs.PlayAnswer.{AreEnds, cluster_in};
ghost use Rattle.job_run.specs.RunAnswer.{HasTextsNamed, IsToldAs, RunAnswer, TellsEnd, TellsJob, TellsRun};
ghost use Rattle.job_run.specs.RunAnswer.{done_lines};
ghost use Rattle.job_run.specs.RunAnswer.{job_in, ran_as, run_room, setup_on};

use crate::index_text::index_text;
use crate::letting_go::let_go;
use command_runner::ToolError;
use job_play::clusters::cluster_of;
use job_play::ending::add_open;
use job_threads::{Gate, Job, Observer, Record, RunError, Unobserved, run_recorded};
use line_rules::fault_answer;
use master_core::Master;
use master_state::Limits;
use report_lines::add_history;
use script_text::{Head, Names, Script, ScriptText, read_job};
use shuffle_reduce::Index;
use std::alloc::{AllocError, Global};
use std::io::{Read, Write};
use std::rt::Clock;
use std::sync::Wait;
use std::thread::Threads;
use text_lines::{TextFault, read_text, write_text};

/// How a job has ended that was read and run.
#[derive(Clone, Copy, Debug, PartialEq, Eq)]
pub enum RunEnd {
    /// Every part is done; the index is written.
    Done,
    /// The splits that are not done are written.
    Stuck,
}

/// Why the text of a job has no such end.
#[derive(Clone, Copy, Debug, PartialEq, Eq)]
pub enum RunTextError {
    /// The error of any command: the text was not read, or the answer was not written.
    Tool(ToolError),
    /// The job has no outcome; nothing is written.
    Run(RunError),
}

/// How the text of a job was answered that has no fault.
#[derive(Clone, Copy, Debug, PartialEq, Eq)]
pub enum JobEnd {
    Ran(RunEnd),
    /// The job has no outcome.
    Broken(RunError),
}

/// Reads a job, runs it, each of its workers in a thread of its own, by what the gate says, and writes the
/// index of its documents, the splits that are not done, or the text's least fault. All lines are made
/// before their first byte is written.
pub fn run_text<T: Threads + Wait + Clock + Sync, R: Read, W: Write, G: Gate>(
    rt: &T,
    alloc: Global,
    reader: &mut R,
    writer: &mut W,
    gate: &G,
) -> Result<RunEnd, RunTextError>
    ensures ran { HasRun (RunAnswer false) NoText (R.remaining reader.old) (R.remaining reader.new)
        (W.contents writer.old) (W.contents writer.new) (ran_as result) }
    ensures same { WroteItsAnswer (RunAnswer false) AreEnds AnyLines (R.remaining reader.old)
        (W.contents writer.old) (W.contents writer.new) (ran_as result) }
    ensures never_full { result ≢ Err (RunTextError.Tool ToolError.HistoryFull) }
    ensures over { result ≡ Err (RunTextError.Run RunError.GateLimit) → G.may_end ≡ true }
{
    run_text_observed(rt, alloc, reader, writer, gate, &Unobserved, None, false)
}

/// The same. While the job runs, the observer is told how far it is. Where a number of waves is given, each
/// wave is a plan ahead, with queues of so many waves' slots. Where the history is asked for, a line for each
/// event is written before the lines that tell how the job ended.
pub fn run_text_observed<T: Threads + Wait + Clock + Sync, R: Read, W: Write, G: Gate, O: Observer>(
    rt: &T,
    alloc: Global,
    reader: &mut R,
    writer: &mut W,
    gate: &G,
    observer: &O,
    ahead: Option<u8>,
    asked: bool,
) -> Result<RunEnd, RunTextError>
    ensures ran { HasRun (RunAnswer asked) NoText (R.remaining reader.old) (R.remaining reader.new)
        (W.contents writer.old) (W.contents writer.new) (ran_as result) }
    ensures same { WroteItsAnswer (RunAnswer asked) AreEnds AnyLines (R.remaining reader.old)
        (W.contents writer.old) (W.contents writer.new) (ran_as result) }
    ensures never_full { result ≢ Err (RunTextError.Tool ToolError.HistoryFull) }
    ensures over { result ≡ Err (RunTextError.Run RunError.GateLimit) → G.may_end ≡ true }
{
    told(run_job(rt, alloc, reader, writer, gate, observer, ahead, asked))
}

// How a job's text was answered, as the end of its run.
fn told(end: Result<JobEnd, ToolError>) -> Result<RunEnd, RunTextError>
    ensures { ran_as result ≡ end }
{
    match end {
        Ok(JobEnd::Ran(end)) => Ok(end),
        Ok(JobEnd::Broken(error)) => Err(RunTextError::Run(error)),
        Err(error) => Err(RunTextError::Tool(error)),
    }
}

// As `run_command` for the commands that start no thread which runs by a gate: the bounds of an impl hold of
// one thread alone.
fn run_job<T: Threads + Wait + Clock + Sync, R: Read, W: Write, G: Gate, O: Observer>(
    rt: &T,
    alloc: Global,
    reader: &mut R,
    writer: &mut W,
    gate: &G,
    observer: &O,
    ahead: Option<u8>,
    asked: bool,
) -> Result<JobEnd, ToolError>
    ensures ran { HasRun (RunAnswer asked) NoText (R.remaining reader.old) (R.remaining reader.new)
        (W.contents writer.old) (W.contents writer.new) result }
    ensures same { WroteItsAnswer (RunAnswer asked) AreEnds AnyLines (R.remaining reader.old)
        (W.contents writer.old) (W.contents writer.new) result }
    ensures over { result ≡ Ok (JobEnd.Broken RunError.GateLimit) → G.may_end ≡ true }
{
    let text = read_text(alloc, reader)?;
    let (lines, end) = answer_job(rt, alloc, text.as_slice(), gate, observer, ahead, asked)?;
    write_text(writer, lines.as_bytes())?;
    ended(end)
}

fn ended(end: Result<JobEnd, TextFault>) -> Result<JobEnd, ToolError>
    ensures { result ≡ outcome end }
{
    match end {
        Ok(end) => Ok(end),
        Err(fault) => Err(ToolError::Text(fault)),
    }
}

// The lines that answer the text of a job, and how it ended with them.
fn answer_job<T: Threads + Wait + Clock + Sync, G: Gate, O: Observer>(
    rt: &T,
    alloc: Global,
    text: &[u8],
    gate: &G,
    observer: &O,
    ahead: Option<u8>,
    asked: bool,
) -> Result<(String, Result<JobEnd, TextFault>), AllocError>
    ensures answer { IfOk result (λ given. RunAnswer asked text.now given.1 (string_bytes given.0)) }
    ensures over { IfOk result (λ given. given.1 ≡ Ok (JobEnd.Broken RunError.GateLimit) → G.may_end ≡ true) }
{
    match read_job(alloc, text) {
        Ok(read) => {
            let (lines, end) = run_read(rt, alloc, read, gate, observer, ahead, asked)?;
            Ok((lines, Ok(end)))
        }
        Err(error) => {
            let (line, fault) = fault_answer(alloc, error)?;
            Ok((line, Err(fault)))
        }
    }
}

// Runs the job that was read, and tells how it has ended.
fn run_read<T: Threads + Wait + Clock + Sync, G: Gate, O: Observer>(
    rt: &T,
    alloc: Global,
    read: ScriptText<'_>,
    gate: &G,
    observer: &O,
    ahead: Option<u8>,
    asked: bool,
) -> Result<(String, JobEnd), AllocError>
    requires fit { IsFitHead read.head }
    requires known { IsOfHead read.head read.script }
    requires target { IsTarget read.script.target }
    requires few { length read.head.slots.items ≤ 1024 }
    ensures tells { IfOk result (λ told. TellsJob (setup_on (cluster_in read.entry.head))
        read.entry.script.names asked told.1 (string_bytes told.0)) }
    ensures over { IfOk result (λ told. told.1 ≡ JobEnd.Broken RunError.GateLimit → G.may_end ≡ true) }
{
    let ScriptText { head, script } = read;
    let job = job_of(alloc, head, &script, ahead)?;
    let ended = run_recorded(rt, alloc, job, gate, observer);
    tell(rt, alloc, &script.names, ended, asked)
}

// The job of a head, with the target of its text, room for what a run may need, and how far it is planned
// ahead.
fn job_of(
    alloc: Global,
    head: Head,
    script: &Script<'_>,
    ahead: Option<u8>,
) -> Result<Job, AllocError>
    requires fit { IsFitHead head }
    requires target { IsTarget script.now.target }
    ensures value { IfOk result (λ job. job ≡ job_in head script.now.target ahead) }
    ensures allowed { IfOk result (λ job. AreAllowed job.limits) }
{
    let tasks = head.splits.len() + head.parts;
    let cluster = cluster_of(alloc, head)?;
    Ok(Job {
        cluster,
        target: script.target as u8,
        limits: run_room(tasks),
        ahead,
    })
}

// The room of a run with so many splits and parts.
fn run_room(tasks: usize) -> Limits
    requires { tasks ≤ 131136 }
    ensures room { result ≡ run_room tasks }
    ensures allowed { AreAllowed result }
{
    let each = (8 * tasks).max(65_536);
    Limits {
        events: each.min(1_048_576) as u32,
        attempts: each.min(1_000_000) as u32,
        sweeps: 16_384,
    }
}

// The lines of a run; none where the job has no outcome.
fn tell<T: Threads + Wait>(
    rt: &T,
    alloc: Global,
    names: &Names<'_>,
    ended: Result<Record, RunError>,
    asked: bool,
) -> Result<(String, JobEnd), AllocError>
    requires named { IfOk ended (HasTextsNamed names.now) }
    requires few { length names.now.workers ≤ 1024 }
    ensures end { IfOk result (λ told. IsToldAs ended told.1) }
    ensures tells { (given : Setup) → IfOk ended (IsRecordOf given)
        → IfOk result (λ told. TellsJob given names.now asked told.1 (string_bytes told.0)) }
{
    match ended {
        Ok(ran) => {
            let (lines, end) = tell_run(rt, alloc, names, ran, asked)?;
            Ok((lines, JobEnd::Ran(end)))
        }
        Err(error) => Ok((String::new(alloc), JobEnd::Broken(error))),
    }
}

// The lines of a run that ended.
fn tell_run<T: Threads + Wait>(
    rt: &T,
    alloc: Global,
    names: &Names<'_>,
    ran: Record,
    asked: bool,
) -> Result<(String, RunEnd), AllocError>
    requires named { HasTextsNamed names.now ran }
    requires few { length names.now.workers ≤ 1024 }
    ensures { (given : Setup) → IsRecordOf given ran
        → IfOk result (λ told. TellsRun given names.now asked told.1 (string_bytes told.0)) }
{
    ran.master.is_kept();
    let mut lines = String::new(alloc);
    add_done(names, &ran.master, asked, &mut lines)?;
    let (ending, end) = ending_of(rt, alloc, names, ran)?;
    Ok((put_together(lines, ending)?, end))
}

// The lines, and others behind them.
fn put_together(mut lines: String, others: String) -> Result<String, AllocError>
    ensures { IfOk result (λ all. string_bytes all ≡ string_bytes lines ++ string_bytes others) }
{
    if lines.is_empty() {
        return Ok(others);
    }
    lines.push_str(others.as_str())?;
    Ok(lines)
}

// The lines of all that was done, where they are asked for.
fn add_done(
    names: &Names<'_>,
    master: &Master,
    asked: bool,
    lines: &mut String,
) -> Result<(), AllocError>
    requires named { length names.now.splits ≡ length master.now.setup.cluster.texts }
    requires few { length names.now.workers ≤ 1024 }
    ensures { OnOk result (string_bytes lines.new
        ≡ string_bytes lines.old ++ (if asked then done_lines names.now master.now else [])) }
{
    if !asked {
        return Ok(());
    }
    master.is_kept();
    let (splits, workers) = (&names.splits, &names.workers);
    let (starts, sweeps) = (master.starts(), master.sweeps());
    add_history(lines, splits, workers, starts, sweeps, master.history())
}

// The lines of how the job ended.
fn ending_of<T: Threads + Wait>(
    rt: &T,
    alloc: Global,
    names: &Names<'_>,
    ran: Record,
) -> Result<(String, RunEnd), AllocError>
    requires { HasTextsNamed names.now ran }
    ensures { (given : Setup) → IsRecordOf given ran
        → IfOk result (λ told. TellsEnd given names.now ran.master told.1 (string_bytes told.0)) }
{
    let Record { master, index } = ran;
    match index {
        Some(index) => {
            let lines = index_beside(rt, alloc, names, &index, master)?;
            Ok((lines, RunEnd::Done))
        }
        None => {
            master.is_kept();
            let mut lines = String::new(alloc);
            add_open(alloc, &master, names, &mut lines)?;
            Ok((lines, RunEnd::Stuck))
        }
    }
}

// The lines of an index, while what the master has is let go.
fn index_beside<T: Threads + Wait>(
    rt: &T,
    alloc: Global,
    names: &Names<'_>,
    index: &Index,
    master: Master,
) -> Result<String, AllocError>
    ensures { IfOk result (λ lines. string_bytes lines ≡ index_lines names.now.documents index.now) }
{
    let going = let_go(rt, alloc, master);
    let lines = index_text(rt, alloc, &names.documents, index.entries());
    going.join(rt);
    lines
}
