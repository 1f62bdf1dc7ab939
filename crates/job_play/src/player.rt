ghost use Rattle.std.specs.Prelude.{◌≡◌, ◌≤◌, Err, IfOk, OnOk, length};
ghost use Rattle.report_lines.specs.Reports.{made_bytes, report_bytes};
ghost use Rattle.job_play.specs.Reports.{IsReport, opening_job};
ghost use Rattle.job_play.specs.Pasts.{past_at};
ghost use Rattle.job_play.specs.Playing.{PerformedAll};
ghost use Rattle.job_play.specs.Rooms.{IsScriptFor, RunsOut, setup_for};

use crate::ending::add_end;
use crate::given::GivenRuns;
use crate::pasts::past_of;
use crate::performing::perform_in_report;
use crate::rooms::limits_for;
use master_core::{Cluster, Master};
use report_lines::{MadeReport, ReportLines};
use script_text::Script;
use std::alloc::{AllocError, Global};
use thiserror::Error;

/// How a script has ended.
#[derive(Clone, Copy, Debug, PartialEq, Eq)]
pub enum PlayEnd {
    /// Every part is done.
    Done,
    Stuck,
}

/// Why a script was not played to its end.
#[derive(Clone, Copy, Debug, Error, PartialEq, Eq)]
pub enum PlayError {
    #[error("no memory")]
    Memory,
    /// A wave or a plan ahead starts more splits than the master has attempts left.
    #[error("a wave starts more than there is room for")]
    HistoryFull,
}

impl From<AllocError> for PlayError {
    ghost use Rattle.std.specs.Prelude.{◌≡◌};
    ghost use Rattle.job_play.specs.declared.player.PlayError.TheVariants.{Memory};

    ghost from_gives = { λ _ e. e ≡ Memory };

    fn from(_: AllocError) -> PlayError {
        PlayError::Memory
    }
}

/// How a script has ended, and its report.
#[derive(Drop)]
pub struct Report {
    pub end: PlayEnd,
    pub lines: MadeReport,
}

/// Who is told how far a script is.
pub trait ScriptObserver {
    /// After each command: how many were performed, of how many.
    fn performed(&self, commands: usize, all: usize);
}

/// Nobody is told.
pub struct Unobserved;

impl ScriptObserver for Unobserved {
    fn performed(&self, _commands: usize, _all: usize) {}
}

/// Plays a script on a new master of the cluster, and tells the report.
pub fn play_script(
    alloc: Global,
    cluster: Cluster,
    script: &Script<'_>,
) -> Result<Report, PlayError>
    requires { IsScriptFor (setup_for cluster script.now) script.now }
    ensures report { IfOk result (λ report.
        IsReport (setup_for cluster script.now) script.now report.end (made_bytes report.lines)) }
    ensures full { result ≡ Err PlayError.HistoryFull → RunsOut cluster script.now }
{
    play_script_observed(alloc, cluster, script, &Unobserved)
}

/// The same, and the observer is told how far it is.
pub fn play_script_observed<O: ScriptObserver>(
    alloc: Global,
    cluster: Cluster,
    script: &Script<'_>,
    observer: &O,
) -> Result<Report, PlayError>
    requires { IsScriptFor (setup_for cluster script.now) script.now }
    ensures report { IfOk result (λ report.
        IsReport (setup_for cluster script.now) script.now report.end (made_bytes report.lines)) }
    ensures full { result ≡ Err PlayError.HistoryFull → RunsOut cluster script.now }
{
    let limits = limits_for(cluster.splits().len(), script.commands.as_slice());
    let master = Master::new(alloc, cluster, limits)?;
    report_of(alloc, master, script, observer)
}

// Plays a script on a new master, and tells the report.
fn report_of<O: ScriptObserver>(
    alloc: Global,
    master: Master,
    script: &Script<'_>,
    observer: &O,
) -> Result<Report, PlayError>
    requires script { IsScriptFor master.setup script.now }
    requires opening { master ≡ opening_job (setup_for master.setup.cluster script.now) }
    ensures report { IfOk result (λ report. IsReport (setup_for master.setup.cluster script.now) script.now
        report.end (made_bytes report.lines)) }
    ensures full { result ≡ Err PlayError.HistoryFull → RunsOut master.setup.cluster script.now }
{
    let names = &script.names;
    let mut master = master;
    let mut lines = ReportLines::new(alloc);
    perform_all(alloc, &mut master, script, observer, &mut lines)?;
    let end = add_end(alloc, &master, names, &mut lines.last)?;
    master.is_kept();
    let past = past_of(alloc, master, script.target)?;
    let lines = MadeReport::new(alloc, &names.splits, &names.workers, lines, past)?;
    Ok(Report { end, lines })
}

// Performs each command, and tells what was answered.
fn perform_all<O: ScriptObserver>(
    alloc: Global,
    master: &mut Master,
    script: &Script<'_>,
    observer: &O,
    lines: &mut ReportLines,
) -> Result<(), PlayError>
    requires script { IsScriptFor master.old.setup script.now }
    requires opening { master.old ≡ opening_job (setup_for master.old.setup.cluster script.now) }
    requires seen { lines.old.turns.seen ≤ length master.old.history }
    ensures setup { OnOk result (master.new.setup ≡ master.old.setup) }
    ensures ok { OnOk result (PerformedAll script.now.names script.now.target master.old
        script.now.commands.items
        (report_bytes script.now.names.splits script.now.names.workers
        (past_at master.old script.now.target) lines.old)
        (report_bytes script.now.names.splits script.now.names.workers
        (past_at master.new script.now.target) lines.new) master.new) }
    ensures full { result ≡ Err PlayError.HistoryFull → RunsOut master.old.setup.cluster script.now }
{
    master.is_kept();
    let mut given = GivenRuns::new(alloc, master.cluster().parts())?;
    let mut performed: usize = 0;
    for command in &script.commands {
        perform_in_report(alloc, master, &mut given, script, command, lines)?;
        performed = performed.saturating_add(1);
        observer.performed(performed, script.commands.len());
    }
    Ok(())
}
