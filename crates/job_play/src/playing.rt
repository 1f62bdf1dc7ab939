ghost use Rattle.std.specs.Prelude.{◌≡◌, Err, IfOk};
ghost use Rattle.command_runner.specs.CommandRun.{HasRun, AnyLines};
ghost use Rattle.script_text.specs.Heads.{IsFitHead};
ghost use Rattle.script_text.specs.Scripts.{IsOfHead};
ghost use Rattle.report_lines.specs.Reports.{made_bytes};
ghost use Rattle.job_play.specs.Reports.{IsReport};
ghost use Rattle.job_play.specs.Rooms.{RunsOut, setup_for};
ghost use Rattle.job_play.specs.PlayAnswer.{AreEnds, PlayAnswer, RunsOutIn, cluster_in};
ghost use Rattle.job_play.specs.OneAnswer.{one_play_answer};

use crate::clusters::cluster_of;
use crate::player::{PlayEnd, PlayError, Report, ScriptObserver, Unobserved, play_script_observed};
use command_runner::{Command, NoAnswer, ToolError, run_command};
use line_rules::fault_answer;
use report_lines::MadeReport;
use script_text::{Head, Script, ScriptText, read_script};
use std::alloc::Global;
use std::io::{Read, Write};
use text_lines::TextFault;

/// Reads a script, plays it on a new master of its cluster, and writes its report, or the text's least
/// fault. All that asks for memory is done before the first byte is written.
pub fn play<R: Read, W: Write>(
    alloc: Global,
    reader: &mut R,
    writer: &mut W,
) -> Result<PlayEnd, ToolError>
    ensures { HasRun PlayAnswer RunsOutIn (R.remaining reader.old) (R.remaining reader.new)
        (W.contents writer.old) (W.contents writer.new) result }
{
    play_observed(alloc, reader, writer, &Unobserved)
}

/// The same, and the observer is told how far the script is.
pub fn play_observed<R: Read, W: Write, O: ScriptObserver>(
    alloc: Global,
    reader: &mut R,
    writer: &mut W,
    observer: &O,
) -> Result<PlayEnd, ToolError>
    ensures { HasRun PlayAnswer RunsOutIn (R.remaining reader.old) (R.remaining reader.new)
        (W.contents writer.old) (W.contents writer.new) result }
{
    run_command(&Player { observer }, alloc, reader, writer)
}

/// Playing of scripts.
#[derive(Drop)]
pub struct Player<'a, O: ScriptObserver> {
    observer: &'a O,
}

impl<'a, O: ScriptObserver> Command for Player<'a, O> {
    type End = PlayEnd;

    type Lines = MadeReport;

    ghost Answers = { λ _. PlayAnswer };

    ghost SameEnd = { AreEnds };

    ghost Alike = { AnyLines };

    ghost IsFull = { λ _. RunsOutIn };

    ghost one_answer = { λ _. one_play_answer };

    fn answer(
        &self,
        alloc: Global,
        text: &[u8],
    ) -> Result<(MadeReport, Result<PlayEnd, TextFault>), NoAnswer> {
        match read_script(alloc, text) {
            Ok(read) => {
                let ScriptText { head, script } = read;
                let report = play_on(alloc, head, &script, self.observer)?;
                Ok((report.lines, Ok(report.end)))
            }
            Err(error) => {
                let (line, fault) = fault_answer(alloc, error)?;
                Ok((MadeReport::of_text(alloc, line)?, Err(fault)))
            }
        }
    }
}

impl From<PlayError> for NoAnswer {
    ghost use Rattle.std.specs.Prelude.{◌≡◌};
    ghost use Rattle.job_play.specs.PlayAnswer.{want_of};

    ghost from_gives = { λ error result. result ≡ want_of error };

    fn from(error: PlayError) -> Self {
        match error {
            PlayError::Memory => NoAnswer::Memory,
            PlayError::HistoryFull => NoAnswer::HistoryFull,
        }
    }
}

// Plays the script on a new master of the cluster that the head makes.
fn play_on<O: ScriptObserver>(
    alloc: Global,
    head: Head,
    script: &Script<'_>,
    observer: &O,
) -> Result<Report, PlayError>
    requires fit { IsFitHead head }
    requires known { IsOfHead head script.now }
    ensures report { IfOk result (λ report. IsReport (setup_for (cluster_in head) script.now) script.now
        report.end (made_bytes report.lines)) }
    ensures full { result ≡ Err PlayError.HistoryFull → RunsOut (cluster_in head) script.now }
{
    let cluster = cluster_of(alloc, head)?;
    play_script_observed(alloc, cluster, script, observer)
}
